//! Edits of a part of a vector: each says what the vector's list becomes.

ghost use Rattle.std.specs.Prelude.{◌≡◌, ◌+◌, ◌-◌, ◌≤◌, length, map, not, reverse, slice_range};
ghost use Rattle.bitvec.specs.Memory.{zip_with, list_with};
ghost use Rattle.bitvec.specs.Place.{region_max_bits};
ghost use Rattle.bitvec_slice.specs.BitSlice.{slice_len, slice_bits};
ghost use Rattle.bitvec_slice.specs.Ranges.{with_range};
ghost use Rattle.bitvec_vec.specs.Front.{front_of, words_for};

use crate::vec::BitVec;
use crate::vec::front::span_of_front;
use bitvec::mem::BitRegister;
use bitvec::order::BitOrder;
use bitvec::ptr::combine::Combine;
use bitvec::ptr::span::BitSpan;
use bitvec_slice::slice::{BitSlice, BitSliceMut};
use std::alloc::Allocator;
use std::ops::Range;

impl<R: BitRegister, O: BitOrder<R>, A: Allocator> BitVec<R, O, A> {
    ghost use Rattle.bitvec_vec.specs.BitVec.{vec_bits, bit_capacity};

    /// Puts the bits from number `from` to before number `to` in the opposite order. Costs as
    /// [`reverse`](BitVec::reverse) does.
    ///
    /// Requires that `from` is at most `to`, and `to` at most the length. As `reverse` of a part
    /// for writing in the Rust crate.
    ///
    /// # Examples
    ///
    /// ```
    /// let mut bits = BitVec::<u8, Lsb0>::from_words(vec![in rt.alloc(); 0x13u8]?);
    /// assert!(rt; bits.len() == 8);
    /// bits.reverse_range(0, 4);
    /// bits.invert_range(4, 6);
    /// assert_eq!(rt; bits.load_digits_le::<u8>(0, 8), 0x2C);
    /// ```
    pub fn reverse_range(&mut self, from: usize, to: usize)
        requires ordered { from ≤ to }
        requires inside { to ≤ length (vec_bits self.old) }
        ensures bits { let xs = vec_bits self.old in vec_bits self.new
            ≡ with_range xs from to (reverse (slice_range xs from to)) }
        ensures capacity { bit_capacity self.new ≡ bit_capacity self.old }
    {
        reverse_part::<R, O>(self.words.as_mut_slice(), self.len, from, to);
    }

    /// Turns over each bit from number `from` to before number `to`, word by word.
    ///
    /// Requires that `from` is at most `to`, and `to` at most the length. As `!` of a part for
    /// writing in the Rust crate.
    pub fn invert_range(&mut self, from: usize, to: usize)
        requires ordered { from ≤ to }
        requires inside { to ≤ length (vec_bits self.old) }
        ensures bits { let xs = vec_bits self.old in vec_bits self.new
            ≡ with_range xs from to (map not (slice_range xs from to)) }
        ensures capacity { bit_capacity self.new ≡ bit_capacity self.old }
    {
        let span: BitSpan<R, O> = span_of_front(self.len);
        span.range(from, to).invert(self.words.as_mut_slice());
    }

    /// Combines the bits of a slice, of any register and order, with the bits from number `from`
    /// on. Each of these becomes what `C` makes of it and of the slice's bit, up to the slice's
    /// end.
    ///
    /// Requires that `from` plus the slice's length is at most the length. Costs as
    /// [`combine_from`](BitVec::combine_from) does. Not in the Rust crate.
    ///
    /// # Examples
    ///
    /// ```
    /// let memory = [0x0Fu8];
    /// let slice = BitSlice::<u8, Lsb0>::all_unchecked(&memory);
    /// let mut bits = BitVec::<u16, Lsb0>::from_words(vec![in rt.alloc(); 0x3300u16]?);
    /// assert!(rt; bits.len() == 16);
    /// bits.combine_from_range::<Xor, u8, Lsb0>(8, slice);
    /// assert_eq!(rt; format!(in rt.alloc(); "{bits}")?.as_str(), "0000000000111100");
    /// ```
    pub fn combine_from_range<C: Combine, R2: BitRegister, O2: BitOrder<R2>>(
        &mut self,
        from: usize,
        source: BitSlice<'_, R2, O2>,
    )
        requires { from + slice_len source ≤ length (vec_bits self.old) }
        ensures bits { let xs = vec_bits self.old in let to = from + slice_len source.entry
            in vec_bits self.new
            ≡ with_range xs from to (zip_with C.of (slice_range xs from to)
            (slice_bits source.entry)) }
        ensures capacity { bit_capacity self.new ≡ bit_capacity self.old }
    {
        combine_part::<C, R, O, R2, O2>(self.words.as_mut_slice(), self.len, from, source);
    }

    /// Combines the bits of a range with those of a range of the same length, from number `dest`
    /// on. The two ranges may overlap, and each bit is combined with what was there before the
    /// call.
    ///
    /// Requires that the range rises, and that both ranges of bits end within the length. By words
    /// where the order's positions rise or fall, else by bits. Not in the Rust crate.
    ///
    /// # Examples
    ///
    /// Each bit is set where it or the one three places before it was.
    ///
    /// ```
    /// let mut bits = BitVec::<u16, Lsb0>::from_words(vec![in rt.alloc(); 0x8001u16]?);
    /// assert!(rt; bits.len() == 16);
    /// bits.combine_within::<Or>(0..13, 3);
    /// assert_eq!(rt; format!(in rt.alloc(); "{bits}")?.as_str(), "1001000000000001");
    /// ```
    pub fn combine_within<C: Combine>(&mut self, src: Range<usize>, dest: usize)
        requires ordered { src.start ≤ src.end }
        requires source_inside { src.end ≤ length (vec_bits self.old) }
        requires target_inside { dest + (src.end - src.start) ≤ length (vec_bits self.old) }
        ensures bits { let xs = vec_bits self.old in vec_bits self.new
            ≡ list_with C.of xs src.start xs dest (src.end - src.start) }
        ensures capacity { bit_capacity self.new ≡ bit_capacity self.old }
    {
        let count = src.end - src.start;
        let span: BitSpan<R, O> = span_of_front(self.len);
        span.combine_within::<C>(self.words.as_mut_slice(), src.start, dest, count);
    }
}

// Puts some of the first `len` bits of some words in the opposite order.
fn reverse_part<R: BitRegister, O: BitOrder<R>>(words: &mut [R], len: usize, from: usize, to: usize)
    requires short { len ≤ region_max_bits }
    requires room { words_for R.BITS len ≤ length words.old }
    requires ordered { from ≤ to }
    requires inside { to ≤ len }
    ensures { let bits = front_of R.BITS O.at_of R.number len in let xs = bits words.old
        in bits words.new ≡ with_range xs from to (reverse (slice_range xs from to)) }
{
    let span: BitSpan<R, O> = span_of_front(len);
    let mut bits = BitSliceMut::new_unchecked(span, words);
    bits.reverse_range(from, to);
}

// Combines the bits of a slice with the bits from number `from` on, of the first `len` of some
// words.
fn combine_part<C: Combine, R: BitRegister, O: BitOrder<R>, R2: BitRegister, O2: BitOrder<R2>>(
    words: &mut [R],
    len: usize,
    from: usize,
    source: BitSlice<'_, R2, O2>,
)
    requires short { len ≤ region_max_bits }
    requires room { words_for R.BITS len ≤ length words.old }
    requires inside { from + slice_len source ≤ len }
    ensures { let bits = front_of R.BITS O.at_of R.number len in let xs = bits words.old
        in let to = from + slice_len source.entry in bits words.new
        ≡ with_range xs from to (zip_with C.of (slice_range xs from to) (slice_bits source.entry)) }
{
    let span: BitSpan<R, O> = span_of_front(len);
    let mut bits = BitSliceMut::new_unchecked(span, words);
    bits.combine_from_range::<C, R2, O2>(from, source);
}
