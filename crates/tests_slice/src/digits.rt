//! Numbers in ranges of bits, the same under every order: put, and read back.

ghost use Rattle.std.specs.Prelude.{◌≡◌, ◌-◌, ◌^◌, ◌<◌, ◌≤◌, slice_range};
ghost use Rattle.bitvec_slice.specs.BitSliceMut.{lent_len, lent_bits};
ghost use Rattle.bitvec_slice.specs.Ranges.{KeepsStretches};

use bitvec::mem::BitRegister;
use bitvec::order::{BitOrder, Lsb0, Msb0};
use bitvec_slice::slice::BitSliceMut;

/// Puts a number into a range of bits, its lowest digit first, and reads it there.
fn put_and_read_le<R: BitRegister, O: BitOrder<R>, N: BitRegister>(
    bits: &mut BitSliceMut<'_, R, O>,
    from: usize,
    to: usize,
    value: N,
) -> N
    requires ordered { from ≤ to }
    requires inside { to ≤ lent_len bits.old }
    requires small { to - from ≤ N.BITS }
    requires short { N.number value < 2 ^ (to - from) }
    ensures number { N.number result ≡ N.number value }
    ensures beside { KeepsStretches from to (lent_bits bits.old) (lent_bits bits.new) }
{
    bits.store_digits_le(from, to, value);
    bits.load_digits_le(from, to)
}

/// Puts two numbers side by side, their highest digits first, and reads both.
fn put_two_be<R: BitRegister, O: BitOrder<R>, N: BitRegister>(
    bits: &mut BitSliceMut<'_, R, O>,
    from: usize,
    middle: usize,
    to: usize,
    values: (N, N),
) -> (N, N)
    requires first_ordered { from ≤ middle }
    requires second_ordered { middle ≤ to }
    requires inside { to ≤ lent_len bits.old }
    requires first_small { middle - from ≤ N.BITS }
    requires second_small { to - middle ≤ N.BITS }
    requires first_short { N.number values.0 < 2 ^ (middle - from) }
    requires second_short { N.number values.1 < 2 ^ (to - middle) }
    ensures first { N.number result.0 ≡ N.number values.0 }
    ensures second { N.number result.1 ≡ N.number values.1 }
{
    bits.store_digits_be(from, middle, values.0);
    bits.store_digits_be(middle, to, values.1);
    (
        bits.load_digits_be(from, middle),
        bits.load_digits_be(middle, to),
    )
}

#[test]
fn numbers_are_put_and_read(rt: HostRuntime) {
    let mut bytes = [0xFFu8, 0xFF];
    let mut bits = BitSliceMut::<u8, Msb0>::all_unchecked(&mut bytes);
    assert_eq!(rt; put_and_read_le(&mut bits, 2, 6, 13u32), 13);
    assert_eq!(rt; bytes, [0xEF, 0xFF]);
    let mut pair = [0xFFu8, 0xFF];
    let mut bits = BitSliceMut::<u8, Msb0>::all_unchecked(&mut pair);
    assert_eq!(rt; put_two_be(&mut bits, 0, 8, 12, (0xA5u16, 3)), (0xA5, 3));
    assert_eq!(rt; pair, [0xA5, 0x3F]);
    let mut words = [0u64];
    let mut bits = BitSliceMut::<u64, Lsb0>::all_unchecked(&mut words);
    assert_eq!(rt; put_and_read_le(&mut bits, 2, 6, 13u32), 13);
    assert_eq!(rt; words, [0x34]);
}
