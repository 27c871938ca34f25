//! Fields of a header: numbers are put into the bits of two fields, and read back.

ghost use Rattle.std.specs.Prelude.{◌≡◌, ◌-◌, ◌*◌, ◌<◌, ◌≤◌, true, length, slice_range};
ghost use Rattle.bitvec.specs.Place.{region_max_bits};
ghost use Rattle.bitvec_slice.specs.BitSliceMut.{lent_head, lent_len, lent_bits};
ghost use Rattle.bitvec_slice.specs.Field.{field_number};

use bitvec::mem::BitRegister;
use bitvec::order::{Lsb0, Msb0};
use bitvec_slice::field::Sequential;
use bitvec_slice::slice::{BitSlice, BitSliceMut};

/// The number in a field of a header: in the bits from number `from` to before number `to`.
fn field<R: BitRegister, O: Sequential<R>, N: BitRegister>(
    header: &BitSliceMut<'_, R, O>,
    from: usize,
    to: usize,
) -> N
    requires ordered { from ≤ to }
    requires inside { to ≤ lent_len header.now }
    requires small { to - from ≤ N.BITS }
    ensures { N.number result ≡ field_number true R.BITS O.RISES (lent_head header.now from)
        (slice_range (lent_bits header.now) from to) }
{
    header.get_range(from, to).unwrap().load_be()
}

/// Puts a version into the first four bits of a header and a length into its bits 16 to 31, and
/// reads both.
fn put_and_read<R: BitRegister, O: Sequential<R>>(
    header: &mut [R],
    version: u8,
    len: u16,
) -> (u8, u16)
    requires room { 32 ≤ length header.old * R.BITS }
    requires short { length header.old * R.BITS ≤ region_max_bits }
    requires version { version < 16 }
    ensures version { result.0 ≡ version }
    ensures len { result.1 ≡ len }
    ensures words { length header.new ≡ length header.old }
{
    let mut bits = BitSliceMut::<R, O>::all_unchecked(header);
    bits.store_be_range(0, 4, version);
    bits.store_be_range(16, 32, len);
    (field(&bits, 0, 4), field(&bits, 16, 32))
}

#[test]
fn a_header_is_put_and_read(rt: HostRuntime) {
    let mut bytes = [0x0F, 0xFF, 0, 0];
    assert_eq!(rt; put_and_read::<u8, Msb0>(&mut bytes, 4, 1500), (4, 1500));
    assert_eq!(rt; bytes, [0x4F, 0xFF, 0x05, 0xDC]);
    let mut words = [0u64];
    assert_eq!(rt; put_and_read::<u64, Lsb0>(&mut words, 4, 1500), (4, 1500));
    assert_eq!(rt; words, [0x05DC0004]);
}
