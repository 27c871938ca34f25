//! An array's bits in another order, moved all at once, or made a number's digits.

ghost use Rattle.std.specs.Prelude.{◌≡◌, ◌≤◌, ◌-◌, ◌%◌, ◌^◌, ◌++◌, length, false, take, drop};
ghost use Rattle.std.specs.Prelude.{replicate, reverse, slice_range};
ghost use Rattle.bitvec_slice.specs.Numbers.{number_le, number_be, digits_le, digits_be};
ghost use Rattle.bitvec_slice.specs.Ranges.{with_range};
ghost use Rattle.bitvec_array.specs.Array.{array_len, bits_in_words};

use crate::array::BitArray;
use crate::array::bit_array::span_of_all;
use bitvec::mem::BitRegister;
use bitvec::order::BitOrder;
use bitvec_slice::slice::BitSliceMut;

// Puts the bits of `N` words in the opposite order.
fn reverse_all<O: BitOrder<usize>, const N: usize>(words: &mut [usize])
    requires { length words.old ≡ N }
    ensures { let bits = bits_in_words O.at_of N in bits words.new ≡ reverse (bits words.old) }
{
    let mut bits = BitSliceMut::<usize, O>::new_unchecked(span_of_all::<O, N>(), words);
    bits.reverse();
}

// Puts the first `by` bits of `N` words behind the others.
fn rotate_all<O: BitOrder<usize>, const N: usize>(words: &mut [usize], by: usize)
    requires many { length words.old ≡ N }
    requires inside { by ≤ array_len N }
    ensures { let bits = bits_in_words O.at_of N
        in bits words.new ≡ drop by (bits words.old) ++ take by (bits words.old) }
{
    let mut bits = BitSliceMut::<usize, O>::new_unchecked(span_of_all::<O, N>(), words);
    bits.rotate_left(by);
}

// Moves the bits of `N` words `by` places towards the first.
fn shift_all_left<O: BitOrder<usize>, const N: usize>(words: &mut [usize], by: usize)
    requires many { length words.old ≡ N }
    requires inside { by ≤ array_len N }
    ensures { let bits = bits_in_words O.at_of N
        in bits words.new ≡ drop by (bits words.old) ++ replicate by false }
{
    let mut bits = BitSliceMut::<usize, O>::new_unchecked(span_of_all::<O, N>(), words);
    bits.shift_left(by);
}

// Moves the bits of `N` words `by` places towards the last.
fn shift_all_right<O: BitOrder<usize>, const N: usize>(words: &mut [usize], by: usize)
    requires many { length words.old ≡ N }
    requires inside { by ≤ array_len N }
    ensures { let bits = bits_in_words O.at_of N in let xs = bits words.old
        in bits words.new ≡ replicate by false ++ take (length xs - by) xs }
{
    let mut bits = BitSliceMut::<usize, O>::new_unchecked(span_of_all::<O, N>(), words);
    bits.shift_right(by);
}

// Makes some of the bits of `N` words the digits of a number, the first the lowest.
fn store_all_le<O: BitOrder<usize>, const N: usize, D: BitRegister>(
    words: &mut [usize],
    from: usize,
    to: usize,
    value: D,
)
    requires many { length words.old ≡ N }
    requires ordered { from ≤ to }
    requires inside { to ≤ array_len N }
    requires small { to - from ≤ D.BITS }
    ensures bits { let bits = bits_in_words O.at_of N in bits words.new
        ≡ with_range (bits words.old) from to (digits_le (to - from) (D.number value)) }
    ensures loaded { number_le (slice_range (bits_in_words O.at_of N words.new) from to)
        ≡ D.number value % 2 ^ (to - from) }
{
    let mut bits = BitSliceMut::<usize, O>::new_unchecked(span_of_all::<O, N>(), words);
    bits.store_digits_le(from, to, value);
}

// Makes some of the bits of `N` words the digits of a number, the first the highest.
fn store_all_be<O: BitOrder<usize>, const N: usize, D: BitRegister>(
    words: &mut [usize],
    from: usize,
    to: usize,
    value: D,
)
    requires many { length words.old ≡ N }
    requires ordered { from ≤ to }
    requires inside { to ≤ array_len N }
    requires small { to - from ≤ D.BITS }
    ensures bits { let bits = bits_in_words O.at_of N in bits words.new
        ≡ with_range (bits words.old) from to (digits_be (to - from) (D.number value)) }
    ensures loaded { number_be (slice_range (bits_in_words O.at_of N words.new) from to)
        ≡ D.number value % 2 ^ (to - from) }
{
    let mut bits = BitSliceMut::<usize, O>::new_unchecked(span_of_all::<O, N>(), words);
    bits.store_digits_be(from, to, value);
}

impl<O: BitOrder<usize>, const N: usize> BitArray<O, N> {
    ghost use Rattle.bitvec_array.specs.BitArray.{array_bits};

    /// Puts the bits in the opposite order: by words where the order's positions rise or fall, else
    /// bit by bit.
    ///
    /// # Examples
    ///
    /// ```
    /// let mut bits: BitArray<Msb0, 1> = BitArray::from_words([0b1011]);
    /// bits.reverse();
    /// assert_eq!(rt; bits.into_words(), [0b1101 << 60]);
    /// ```
    pub fn reverse(&mut self)
        ensures { array_bits self.new ≡ reverse (array_bits self.old) }
    {
        reverse_all::<O, N>(&mut self.words);
    }

    /// Puts the first `by` bits behind the others, at the cost of two times
    /// [`reverse`](BitArray::reverse). Requires that `by` is at most the length.
    pub fn rotate_left(&mut self, by: usize)
        requires { by ≤ array_len N }
        ensures { let xs = array_bits self.old
            in array_bits self.new ≡ drop by xs ++ take by xs }
    {
        rotate_all::<O, N>(&mut self.words, by);
    }

    /// Puts the last `by` bits before the others. Requires that `by` is at most the length. It
    /// costs as much as [`rotate_left`](BitArray::rotate_left).
    ///
    /// # Examples
    ///
    /// ```
    /// let mut bits: BitArray<Lsb0, 1> = BitArray::from_words([0b1011]);
    /// bits.rotate_right(60);
    /// assert_eq!(rt; bits.into_words(), [0b1011 << 60]);
    /// ```
    pub fn rotate_right(&mut self, by: usize)
        requires { by ≤ array_len N }
        ensures { let xs = array_bits self.old in array_bits self.new
            ≡ drop (length xs - by) xs ++ take (length xs - by) xs }
    {
        let len = self.len();
        self.rotate_left(len - by);
    }

    /// Moves each bit `by` places towards the first: the first `by` bits are lost, and the last
    /// `by` become zero. Requires that `by` is at most the length. Costs by words where the order's
    /// positions rise or fall, else by bits.
    pub fn shift_left(&mut self, by: usize)
        requires { by ≤ array_len N }
        ensures { array_bits self.new ≡ drop by (array_bits self.old) ++ replicate by false }
    {
        shift_all_left::<O, N>(&mut self.words, by);
    }

    /// Moves each bit `by` places towards the last: the last `by` bits are lost, and the first `by`
    /// become zero. Requires that `by` is at most the length. Costs by words where the order's
    /// positions rise or fall, else by bits.
    pub fn shift_right(&mut self, by: usize)
        requires { by ≤ array_len N }
        ensures { let xs = array_bits self.old in array_bits self.new
            ≡ replicate by false ++ take (length xs - by) xs }
    {
        shift_all_right::<O, N>(&mut self.words, by);
    }

    /// The number whose digits the bits from number `from` to before number `to` are, the first the
    /// lowest. No bits are 0.
    ///
    /// Requires that `from` is at most `to`, `to` at most the length, and that the part has no more
    /// bits than the number type has digits. By words where positions rise with the index, else by
    /// bits. Not in the Rust crate.
    pub fn load_digits_le<D: BitRegister>(&self, from: usize, to: usize) -> D
        requires ordered { from ≤ to }
        requires inside { to ≤ array_len N }
        requires small { to - from ≤ D.BITS }
        ensures { D.number result ≡ number_le (slice_range (array_bits self.now) from to) }
    {
        self.as_bitslice().load_digits_le(from, to)
    }

    /// The number whose digits the bits from number `from` to before number `to` are, the first the
    /// highest. No bits are 0.
    ///
    /// Requires that `from` is at most `to`, `to` at most the length, and that the part has no more
    /// bits than the number type has digits. By words where positions fall with the index, else by
    /// bits. Not in the Rust crate.
    pub fn load_digits_be<D: BitRegister>(&self, from: usize, to: usize) -> D
        requires ordered { from ≤ to }
        requires inside { to ≤ array_len N }
        requires small { to - from ≤ D.BITS }
        ensures { D.number result ≡ number_be (slice_range (array_bits self.now) from to) }
    {
        self.as_bitslice().load_digits_be(from, to)
    }

    /// Makes the bits from number `from` to before number `to` the lowest `to - from` digits of a
    /// number, the first bit the lowest. [`load_digits_le`](BitArray::load_digits_le) of these bits
    /// gives the digits back.
    ///
    /// Requires that `from` is at most `to`, `to` at most the length, and that the part has no more
    /// bits than the number type has digits. By words where positions rise with the index, else by
    /// bits. Not in the Rust crate.
    ///
    /// # Examples
    ///
    /// ```
    /// let mut bits: BitArray<Lsb0, 1> = BitArray::zeros();
    /// bits.store_digits_le(4, 9, 43u32);
    /// assert_eq!(rt; bits.load_digits_le::<u8>(4, 9), 11);
    /// assert_eq!(rt; bits.into_words(), [11 << 4]);
    /// ```
    pub fn store_digits_le<D: BitRegister>(&mut self, from: usize, to: usize, value: D)
        requires ordered { from ≤ to }
        requires inside { to ≤ array_len N }
        requires small { to - from ≤ D.BITS }
        ensures bits { array_bits self.new ≡ with_range (array_bits self.old) from to
            (digits_le (to - from) (D.number value)) }
        ensures loaded { number_le (slice_range (array_bits self.new) from to)
            ≡ D.number value % 2 ^ (to - from) }
    {
        store_all_le::<O, N, D>(&mut self.words, from, to, value);
    }

    /// Makes the bits from number `from` to before number `to` the lowest `to - from` digits of a
    /// number, the first bit the highest of them. [`load_digits_be`](BitArray::load_digits_be) of
    /// these bits gives the digits back.
    ///
    /// Requires that `from` is at most `to`, `to` at most the length, and that the part has no more
    /// bits than the number type has digits. By words where positions fall with the index, else by
    /// bits. Not in the Rust crate.
    pub fn store_digits_be<D: BitRegister>(&mut self, from: usize, to: usize, value: D)
        requires ordered { from ≤ to }
        requires inside { to ≤ array_len N }
        requires small { to - from ≤ D.BITS }
        ensures bits { array_bits self.new ≡ with_range (array_bits self.old) from to
            (digits_be (to - from) (D.number value)) }
        ensures loaded { number_be (slice_range (array_bits self.new) from to)
            ≡ D.number value % 2 ^ (to - from) }
    {
        store_all_be::<O, N, D>(&mut self.words, from, to, value);
    }
}
