//! Callers of arrays whose contracts speak of lists of truth values.

ghost use Rattle.std.specs.Prelude.{◌≡◌, ◌≤◌, ◌<◌, ◌%◌, ◌^◌, ◌++◌, ◌&&◌, ◌||◌, not, map, replicate};
ghost use Rattle.std.specs.Prelude.{true, false, length, slice_set, reverse, take, drop};
ghost use Rattle.bitvec.specs.Memory.{zip_with};
ghost use Rattle.bitvec.specs.Span.{element};
ghost use Rattle.bitvec.specs.Truths.{ones_in};
ghost use Rattle.bitvec_array.specs.Array.{array_len};
ghost use Rattle.bitvec_array.specs.BitArray.{array_bits};

use bitvec::order::{BitOrder, Msb0};
use bitvec_array::array::BitArray;
use bitvec_slice::slice::ReadBits;

/// A set that has one number.
pub fn one_number<const N: usize>(number: usize) -> BitArray<Msb0, N>
    requires { number < array_len N }
    ensures { array_bits result ≡ slice_set (replicate (array_len N) false) number true }
{
    let mut set: BitArray<Msb0, N> = BitArray::zeros();
    set.set(number, true);
    set
}

/// What is in one set and in no other of two.
pub fn in_the_first_alone<O: BitOrder<usize>, const N: usize>(
    first: BitArray<O, N>,
    second: BitArray<O, N>,
    third: BitArray<O, N>,
) -> BitArray<O, N>
    ensures { array_bits result ≡ zip_with (λ t s. t && s) (array_bits first)
        (map not (zip_with (λ t s. t || s) (array_bits second) (array_bits third))) }
{
    first & !(second | third)
}

/// A set with a number more.
pub fn with_another<O: BitOrder<usize>, const N: usize>(
    set: BitArray<O, N>,
    number: usize,
) -> BitArray<O, N>
    requires { number < array_len N }
    ensures { array_bits result ≡ slice_set (array_bits set) number true }
{
    let mut more = set;
    more.set(number, true);
    more
}

/// Whether a number is in a set.
pub fn has<const N: usize>(set: &BitArray<Msb0, N>, number: usize) -> bool
    requires { number < length (array_bits set.now) }
    ensures { result ≡ element (array_bits set.now) number }
{
    match set.get(number) {
        Some(bit) => bit,
        None => false,
    }
}

/// How many numbers are in a set.
pub fn size<O: BitOrder<usize>, const N: usize>(set: &BitArray<O, N>) -> usize
    ensures { result ≡ ones_in (array_bits set.now) }
{
    set.count_ones()
}

/// The bits from the last to the first, and then in order again.
pub fn reversed_twice<O: BitOrder<usize>, const N: usize>(bits: BitArray<O, N>) -> BitArray<O, N>
    ensures { array_bits result ≡ reverse (reverse (array_bits bits)) }
{
    let mut turned = bits;
    turned.reverse();
    turned.reverse();
    turned
}

/// The first half of a word's bits behind the second.
pub fn halves_exchanged<O: BitOrder<usize>>(bits: BitArray<O, 1>) -> BitArray<O, 1>
    ensures { array_bits result ≡ drop 32 (array_bits bits) ++ take 32 (array_bits bits) }
{
    let mut turned = bits;
    turned.rotate_left(32);
    turned
}

/// The first 16 bits of an array as a number, once a number is stored there.
pub fn stored_and_loaded<O: BitOrder<usize>>(bits: &mut BitArray<O, 1>, value: u32) -> u32
    ensures { result ≡ value % 2 ^ 16 }
{
    bits.store_digits_be(0, 16, value);
    bits.load_digits_be(0, 16)
}
