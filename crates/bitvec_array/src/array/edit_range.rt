//! Edits of a part of an array: each says what the array's list becomes.

ghost use Rattle.std.specs.Prelude.{◌≡◌, ◌+◌, ◌-◌, ◌≤◌, length, map, not, reverse, slice_range};
ghost use Rattle.bitvec.specs.Memory.{zip_with, list_with};
ghost use Rattle.bitvec_slice.specs.BitSlice.{slice_len, slice_bits};
ghost use Rattle.bitvec_slice.specs.Ranges.{with_range};
ghost use Rattle.bitvec_array.specs.Array.{array_len, bits_in_words};

use crate::array::BitArray;
use crate::array::bit_array::span_of_all;
use bitvec::mem::BitRegister;
use bitvec::order::BitOrder;
use bitvec::ptr::combine::Combine;
use bitvec_slice::slice::{BitSlice, BitSliceMut};
use std::ops::Range;

impl<O: BitOrder<usize>, const N: usize> BitArray<O, N> {
    ghost use Rattle.bitvec_array.specs.BitArray.{array_bits};

    /// Puts the bits from number `from` to before number `to` in the opposite order. Costs as
    /// [`reverse`](BitArray::reverse) does.
    ///
    /// Requires that `from` is at most `to`, and `to` at most the length. As `reverse` of a part
    /// for writing in the Rust crate.
    ///
    /// # Examples
    ///
    /// ```
    /// let mut bits: BitArray<Lsb0, 1> = BitArray::from_words([0x13]);
    /// bits.reverse_range(0, 4);
    /// bits.invert_range(4, 6);
    /// assert_eq!(rt; bits.into_words(), [0x2C]);
    /// ```
    pub fn reverse_range(&mut self, from: usize, to: usize)
        requires ordered { from ≤ to }
        requires inside { to ≤ array_len N }
        ensures { let xs = array_bits self.old in array_bits self.new
            ≡ with_range xs from to (reverse (slice_range xs from to)) }
    {
        reverse_part::<O, N>(&mut self.words, from, to);
    }

    /// Turns over each bit from number `from` to before number `to`, word by word.
    ///
    /// Requires that `from` is at most `to`, and `to` at most the length. As `!` of a part for
    /// writing in the Rust crate.
    pub fn invert_range(&mut self, from: usize, to: usize)
        requires ordered { from ≤ to }
        requires inside { to ≤ array_len N }
        ensures { let xs = array_bits self.old in array_bits self.new
            ≡ with_range xs from to (map not (slice_range xs from to)) }
    {
        let span = span_of_all::<O, N>();
        span.range(from, to).invert(&mut self.words);
    }

    /// Combines the bits of a slice, of any register and order, with the bits from number `from`
    /// on. Each of these becomes what `C` makes of it and of the slice's bit, up to the slice's
    /// end.
    ///
    /// Requires that `from` plus the slice's length is at most the length. Costs as
    /// [`combine_from`](BitArray::combine_from) does. Not in the Rust crate.
    ///
    /// # Examples
    ///
    /// ```
    /// let memory = [0x0Fu8];
    /// let slice = BitSlice::<u8, Lsb0>::all_unchecked(&memory);
    /// let mut bits: BitArray<Lsb0, 1> = BitArray::from_words([0x3300]);
    /// bits.combine_from_range::<Xor, u8, Lsb0>(8, slice);
    /// assert_eq!(rt; bits.into_words(), [0x3C00]);
    /// ```
    pub fn combine_from_range<C: Combine, R2: BitRegister, O2: BitOrder<R2>>(
        &mut self,
        from: usize,
        source: BitSlice<'_, R2, O2>,
    )
        requires { from + slice_len source ≤ array_len N }
        ensures { let xs = array_bits self.old in let to = from + slice_len source.entry
            in array_bits self.new
            ≡ with_range xs from to (zip_with C.of (slice_range xs from to)
            (slice_bits source.entry)) }
    {
        combine_part::<C, O, N, R2, O2>(&mut self.words, from, source);
    }

    /// Combines the bits of a range with those of a range of the same length, from number `dest`
    /// on. The two ranges may overlap, and each bit is combined with what was there before the
    /// call.
    ///
    /// Requires that the range rises, and that both ranges of bits end within the length. By words
    /// where the order's positions rise or fall, else by bits. Not in the Rust crate.
    ///
    /// # Examples
    ///
    /// Each bit is set where it or the one three places before it was.
    ///
    /// ```
    /// let mut bits: BitArray<Lsb0, 1> = BitArray::from_words([0x8001]);
    /// bits.combine_within::<Or>(0..13, 3);
    /// assert_eq!(rt; bits.into_words(), [0x8009]);
    /// ```
    pub fn combine_within<C: Combine>(&mut self, src: Range<usize>, dest: usize)
        requires ordered { src.start ≤ src.end }
        requires source_inside { src.end ≤ array_len N }
        requires target_inside { dest + (src.end - src.start) ≤ array_len N }
        ensures { let xs = array_bits self.old in array_bits self.new
            ≡ list_with C.of xs src.start xs dest (src.end - src.start) }
    {
        let count = src.end - src.start;
        span_of_all::<O, N>().combine_within::<C>(&mut self.words, src.start, dest, count);
    }
}

// Puts some of the bits of `N` words in the opposite order.
fn reverse_part<O: BitOrder<usize>, const N: usize>(words: &mut [usize], from: usize, to: usize)
    requires many { length words.old ≡ N }
    requires ordered { from ≤ to }
    requires inside { to ≤ array_len N }
    ensures { let xs = bits_in_words O.at_of N words.old in bits_in_words O.at_of N words.new
        ≡ with_range xs from to (reverse (slice_range xs from to)) }
{
    let mut bits = BitSliceMut::<usize, O>::new_unchecked(span_of_all::<O, N>(), words);
    bits.reverse_range(from, to);
}

// Combines the bits of a slice with those of `N` words from number `from` on.
fn combine_part<C: Combine, O: BitOrder<usize>, const N: usize, R2: BitRegister, O2: BitOrder<R2>>(
    words: &mut [usize],
    from: usize,
    source: BitSlice<'_, R2, O2>,
)
    requires many { length words.old ≡ N }
    requires inside { from + slice_len source ≤ array_len N }
    ensures { let xs = bits_in_words O.at_of N words.old in let to = from + slice_len source.entry
        in bits_in_words O.at_of N words.new
        ≡ with_range xs from to (zip_with C.of (slice_range xs from to) (slice_bits source.entry)) }
{
    let mut bits = BitSliceMut::new_unchecked(span_of_all::<O, N>(), words);
    bits.combine_from_range::<C, R2, O2>(from, source);
}
