//! A vector's bits in another order, moved all at once, or made a number's digits.

ghost use Rattle.std.specs.Prelude.{◌≡◌, ◌≤◌, ◌-◌, ◌%◌, ◌^◌, ◌++◌, length, false, take, drop};
ghost use Rattle.std.specs.Prelude.{replicate, reverse, slice_range};
ghost use Rattle.bitvec.specs.Place.{region_max_bits};
ghost use Rattle.bitvec_slice.specs.Numbers.{number_le, number_be, digits_le, digits_be};
ghost use Rattle.bitvec_slice.specs.Ranges.{with_range};
ghost use Rattle.bitvec_vec.specs.Front.{front_of, words_for};

use crate::vec::BitVec;
use crate::vec::front::span_of_front;
use bitvec::mem::BitRegister;
use bitvec::order::BitOrder;
use bitvec::ptr::span::BitSpan;
use bitvec_slice::slice::BitSliceMut;
use std::alloc::Allocator;

// Puts the first `len` bits of some words in the opposite order.
fn reverse_front<R: BitRegister, O: BitOrder<R>>(words: &mut [R], len: usize)
    requires short { len ≤ region_max_bits }
    requires room { words_for R.BITS len ≤ length words.old }
    ensures { let bits = front_of R.BITS O.at_of R.number len
        in bits words.new ≡ reverse (bits words.old) }
{
    let span: BitSpan<R, O> = span_of_front(len);
    let mut bits = BitSliceMut::new_unchecked(span, words);
    bits.reverse();
}

// Puts the first `by` of the first `len` bits of some words behind the others.
fn rotate_front<R: BitRegister, O: BitOrder<R>>(words: &mut [R], len: usize, by: usize)
    requires short { len ≤ region_max_bits }
    requires room { words_for R.BITS len ≤ length words.old }
    requires inside { by ≤ len }
    ensures { let bits = front_of R.BITS O.at_of R.number len
        in bits words.new ≡ drop by (bits words.old) ++ take by (bits words.old) }
{
    let span: BitSpan<R, O> = span_of_front(len);
    let mut bits = BitSliceMut::new_unchecked(span, words);
    bits.rotate_left(by);
}

// Moves the first `len` bits of some words `by` places towards the first.
fn shift_front_left<R: BitRegister, O: BitOrder<R>>(words: &mut [R], len: usize, by: usize)
    requires short { len ≤ region_max_bits }
    requires room { words_for R.BITS len ≤ length words.old }
    requires inside { by ≤ len }
    ensures { let bits = front_of R.BITS O.at_of R.number len
        in bits words.new ≡ drop by (bits words.old) ++ replicate by false }
{
    let span: BitSpan<R, O> = span_of_front(len);
    let mut bits = BitSliceMut::new_unchecked(span, words);
    bits.shift_left(by);
}

// Moves the first `len` bits of some words `by` places towards the last.
fn shift_front_right<R: BitRegister, O: BitOrder<R>>(words: &mut [R], len: usize, by: usize)
    requires short { len ≤ region_max_bits }
    requires room { words_for R.BITS len ≤ length words.old }
    requires inside { by ≤ len }
    ensures { let bits = front_of R.BITS O.at_of R.number len in let xs = bits words.old
        in bits words.new ≡ replicate by false ++ take (length xs - by) xs }
{
    let span: BitSpan<R, O> = span_of_front(len);
    let mut bits = BitSliceMut::new_unchecked(span, words);
    bits.shift_right(by);
}

// Makes some of the first `len` bits of some words the digits of a number, the first the lowest.
fn store_front_le<R: BitRegister, O: BitOrder<R>, N: BitRegister>(
    words: &mut [R],
    len: usize,
    from: usize,
    to: usize,
    value: N,
)
    requires short { len ≤ region_max_bits }
    requires room { words_for R.BITS len ≤ length words.old }
    requires ordered { from ≤ to }
    requires inside { to ≤ len }
    requires small { to - from ≤ N.BITS }
    ensures bits { let bits = front_of R.BITS O.at_of R.number len in bits words.new
        ≡ with_range (bits words.old) from to (digits_le (to - from) (N.number value)) }
    ensures loaded { let bits = front_of R.BITS O.at_of R.number len
        in number_le (slice_range (bits words.new) from to) ≡ N.number value % 2 ^ (to - from) }
{
    let span: BitSpan<R, O> = span_of_front(len);
    let mut bits = BitSliceMut::new_unchecked(span, words);
    bits.store_digits_le(from, to, value);
}

// Makes some of the first `len` bits of some words the digits of a number, the first the highest.
fn store_front_be<R: BitRegister, O: BitOrder<R>, N: BitRegister>(
    words: &mut [R],
    len: usize,
    from: usize,
    to: usize,
    value: N,
)
    requires short { len ≤ region_max_bits }
    requires room { words_for R.BITS len ≤ length words.old }
    requires ordered { from ≤ to }
    requires inside { to ≤ len }
    requires small { to - from ≤ N.BITS }
    ensures bits { let bits = front_of R.BITS O.at_of R.number len in bits words.new
        ≡ with_range (bits words.old) from to (digits_be (to - from) (N.number value)) }
    ensures loaded { let bits = front_of R.BITS O.at_of R.number len
        in number_be (slice_range (bits words.new) from to) ≡ N.number value % 2 ^ (to - from) }
{
    let span: BitSpan<R, O> = span_of_front(len);
    let mut bits = BitSliceMut::new_unchecked(span, words);
    bits.store_digits_be(from, to, value);
}

impl<R: BitRegister, O: BitOrder<R>, A: Allocator> BitVec<R, O, A> {
    ghost use Rattle.bitvec_vec.specs.BitVec.{vec_bits, bit_capacity};

    /// Puts the bits in the opposite order: by words where the order's positions rise or fall, else
    /// bit by bit.
    ///
    /// # Examples
    ///
    /// ```
    /// let mut bits = BitVec::<u8, Msb0>::from_text(rt.alloc(), "0010110010")?;
    /// bits.reverse();
    /// assert_eq!(rt; format!(in rt.alloc(); "{bits}")?.as_str(), "0100110100");
    /// ```
    pub fn reverse(&mut self)
        ensures bits { vec_bits self.new ≡ reverse (vec_bits self.old) }
        ensures capacity { bit_capacity self.new ≡ bit_capacity self.old }
    {
        reverse_front::<R, O>(self.words.as_mut_slice(), self.len);
    }

    /// Puts the first `by` bits behind the others, at the cost of two times
    /// [`reverse`](BitVec::reverse). Requires that `by` is at most the length.
    ///
    /// # Examples
    ///
    /// ```
    /// let mut bits = BitVec::<u8, Lsb0>::from_text(rt.alloc(), "001011")?;
    /// if 2 <= bits.len() {
    ///     bits.rotate_left(2);
    /// }
    /// assert_eq!(rt; format!(in rt.alloc(); "{bits}")?.as_str(), "101100");
    /// ```
    pub fn rotate_left(&mut self, by: usize)
        requires { by ≤ length (vec_bits self.old) }
        ensures bits { let xs = vec_bits self.old in vec_bits self.new ≡ drop by xs ++ take by xs }
        ensures capacity { bit_capacity self.new ≡ bit_capacity self.old }
    {
        rotate_front::<R, O>(self.words.as_mut_slice(), self.len, by);
    }

    /// Puts the last `by` bits before the others. Requires that `by` is at most the length. It
    /// costs as much as [`rotate_left`](BitVec::rotate_left).
    pub fn rotate_right(&mut self, by: usize)
        requires { by ≤ length (vec_bits self.old) }
        ensures bits { let xs = vec_bits self.old in vec_bits self.new
            ≡ drop (length xs - by) xs ++ take (length xs - by) xs }
        ensures capacity { bit_capacity self.new ≡ bit_capacity self.old }
    {
        let len = self.len();
        self.rotate_left(len - by);
    }

    /// Moves each bit `by` places towards the first: the first `by` bits are lost, and the last
    /// `by` become zero. Requires that `by` is at most the length. Costs by words where the order's
    /// positions rise or fall, else by bits.
    pub fn shift_left(&mut self, by: usize)
        requires { by ≤ length (vec_bits self.old) }
        ensures bits { vec_bits self.new ≡ drop by (vec_bits self.old) ++ replicate by false }
        ensures capacity { bit_capacity self.new ≡ bit_capacity self.old }
    {
        shift_front_left::<R, O>(self.words.as_mut_slice(), self.len, by);
    }

    /// Moves each bit `by` places towards the last: the last `by` bits are lost, and the first `by`
    /// become zero. Requires that `by` is at most the length. Costs by words where the order's
    /// positions rise or fall, else by bits.
    pub fn shift_right(&mut self, by: usize)
        requires { by ≤ length (vec_bits self.old) }
        ensures bits { let xs = vec_bits self.old in vec_bits self.new
            ≡ replicate by false ++ take (length xs - by) xs }
        ensures capacity { bit_capacity self.new ≡ bit_capacity self.old }
    {
        shift_front_right::<R, O>(self.words.as_mut_slice(), self.len, by);
    }

    /// Makes the bits from number `from` to before number `to` the lowest `to - from` digits of a
    /// number, the first bit the lowest. [`load_digits_le`](BitVec::load_digits_le) of these bits
    /// gives the digits back.
    ///
    /// Requires that `from` is at most `to`, `to` at most the length, and that the part has no more
    /// bits than the number type has digits. By words where positions rise with the index, else by
    /// bits. Not in the Rust crate.
    pub fn store_digits_le<N: BitRegister>(&mut self, from: usize, to: usize, value: N)
        requires ordered { from ≤ to }
        requires inside { to ≤ length (vec_bits self.old) }
        requires small { to - from ≤ N.BITS }
        ensures bits { vec_bits self.new ≡ with_range (vec_bits self.old) from to
            (digits_le (to - from) (N.number value)) }
        ensures loaded { number_le (slice_range (vec_bits self.new) from to)
            ≡ N.number value % 2 ^ (to - from) }
        ensures capacity { bit_capacity self.new ≡ bit_capacity self.old }
    {
        store_front_le::<R, O, N>(self.words.as_mut_slice(), self.len, from, to, value);
    }

    /// Makes the bits from number `from` to before number `to` the lowest `to - from` digits of a
    /// number, the first bit the highest of them. [`load_digits_be`](BitVec::load_digits_be) of
    /// these bits gives the digits back.
    ///
    /// Requires that `from` is at most `to`, `to` at most the length, and that the part has no more
    /// bits than the number type has digits. By words where positions fall with the index, else by
    /// bits. Not in the Rust crate.
    ///
    /// # Examples
    ///
    /// ```
    /// let mut bits = BitVec::<u8, Lsb0>::repeat(rt.alloc(), false, 12)?;
    /// if 9 <= bits.len() {
    ///     bits.store_digits_be(4, 9, 11u32);
    ///     assert_eq!(rt; bits.load_digits_be::<u8>(4, 9), 11);
    /// }
    /// assert_eq!(rt; format!(in rt.alloc(); "{bits}")?.as_str(), "000001011000");
    /// ```
    pub fn store_digits_be<N: BitRegister>(&mut self, from: usize, to: usize, value: N)
        requires ordered { from ≤ to }
        requires inside { to ≤ length (vec_bits self.old) }
        requires small { to - from ≤ N.BITS }
        ensures bits { vec_bits self.new ≡ with_range (vec_bits self.old) from to
            (digits_be (to - from) (N.number value)) }
        ensures loaded { number_be (slice_range (vec_bits self.new) from to)
            ≡ N.number value % 2 ^ (to - from) }
        ensures capacity { bit_capacity self.new ≡ bit_capacity self.old }
    {
        store_front_be::<R, O, N>(self.words.as_mut_slice(), self.len, from, to, value);
    }
}
