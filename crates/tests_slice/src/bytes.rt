//! Numbers of whole bytes: those that std reads from them.

ghost use Rattle.std.specs.Prelude.{◌≡◌};
ghost use Rattle.std.specs.Int.{w32, from_le_bytes, from_be_bytes};

use bitvec::order::{Lsb0, Msb0};
use bitvec_slice::slice::BitSlice;

/// Four bytes under `Lsb0`, little-endian: the number that `u32::from_le_bytes` gives.
fn load_four_le(bytes: [u8; 4]) -> u32
    ensures { result ≡ from_le_bytes w32 bytes }
{
    match BitSlice::<u8, Lsb0>::all(&bytes) {
        Ok(bits) => bits.load_le(),
        Err(_) => 0,
    }
}

/// Four bytes under `Msb0`, big-endian: the number that `u32::from_be_bytes` gives.
fn load_four_be(bytes: [u8; 4]) -> u32
    ensures { result ≡ from_be_bytes w32 bytes }
{
    match BitSlice::<u8, Msb0>::all(&bytes) {
        Ok(bits) => bits.load_be(),
        Err(_) => 0,
    }
}

#[test]
fn numbers_of_bytes(rt: HostRuntime) {
    assert_eq!(rt; load_four_le([0x78, 0x56, 0x34, 0x12]), 0x12345678);
    assert_eq!(rt; load_four_be([0x12, 0x34, 0x56, 0x78]), 0x12345678);
}
