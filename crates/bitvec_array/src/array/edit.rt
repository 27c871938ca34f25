//! Edits of an array's bits: each says what the list becomes.

ghost use Rattle.std.specs.Prelude.{◌≡◌, ◌≤◌, ◌<◌, ◌+◌, ◌-◌, length, slice_set, replicate};
ghost use Rattle.std.specs.List.{swap};
ghost use Rattle.bitvec.specs.Memory.{list_with_copy};
ghost use Rattle.bitvec.specs.Span.{element, with_filled};
ghost use Rattle.bitvec_slice.specs.BitSlice.{slice_len, slice_bits};
ghost use Rattle.bitvec_slice.specs.Ranges.{with_range};
ghost use Rattle.bitvec_array.specs.Array.{array_len, bits_in_words};

use crate::array::BitArray;
use crate::array::bit_array::span_of_all;
use bitvec::mem::BitRegister;
use bitvec::order::BitOrder;
use bitvec_slice::slice::{BitSlice, BitSliceMut};
use std::ops::Range;

impl<O: BitOrder<usize>, const N: usize> BitArray<O, N> {
    ghost use Rattle.bitvec_array.specs.BitArray.{array_bits};

    /// Writes bit `i`. Requires that there is one: [`len`](BitArray::len) is the test. Constant
    /// time.
    pub fn set(&mut self, i: usize, bit: bool)
        requires { i < array_len N }
        ensures { array_bits self.new ≡ slice_set (array_bits self.old) i bit }
    {
        span_of_all::<O, N>().write(&mut self.words, i, bit);
    }

    /// Writes bit `i`, and returns the bit that was there. Requires that there is one:
    /// [`len`](BitArray::len) is the test. Constant time.
    pub fn replace(&mut self, i: usize, bit: bool) -> bool
        requires { i < array_len N }
        ensures previous { result ≡ element (array_bits self.old) i }
        ensures bits { array_bits self.new ≡ slice_set (array_bits self.old) i bit }
    {
        let previous = self.get_unchecked(i);
        self.set(i, bit);
        previous
    }

    /// Exchanges bits `i` and `j`. Requires that there are both. Constant time.
    pub fn swap(&mut self, i: usize, j: usize)
        requires first { i < array_len N }
        requires second { j < array_len N }
        ensures { array_bits self.new ≡ swap (array_bits self.old) i j }
    {
        span_of_all::<O, N>().swap(&mut self.words, i, j);
    }

    /// Makes each bit the same, word by word.
    pub fn fill(&mut self, bit: bool)
        ensures { array_bits self.new ≡ replicate (array_len N) bit }
    {
        span_of_all::<O, N>().fill(&mut self.words, bit);
    }

    /// Makes the bits from number `from` to before number `to` the same, word by word.
    ///
    /// Requires that `from` is at most `to`, and `to` at most the length. Not in the Rust crate.
    pub fn fill_range(&mut self, from: usize, to: usize, bit: bool)
        requires ordered { from ≤ to }
        requires inside { to ≤ array_len N }
        ensures { array_bits self.new ≡ with_filled (array_bits self.old) from to bit }
    {
        let span = span_of_all::<O, N>();
        span.range(from, to).fill(&mut self.words, bit);
    }

    /// Copies the bits of a range to a range of the same length, from number `dest` on: by words
    /// where the order's positions rise or fall, else by bits. What is copied is what was there
    /// before the call.
    ///
    /// Requires that the range rises, and that both ranges of bits end within the length.
    pub fn copy_within(&mut self, src: Range<usize>, dest: usize)
        requires ordered { src.start ≤ src.end }
        requires source_inside { src.end ≤ array_len N }
        requires target_inside { dest + (src.end - src.start) ≤ array_len N }
        ensures { let xs = array_bits self.old in array_bits self.new
            ≡ list_with_copy xs src.start xs dest (src.end - src.start) }
    {
        let count = src.end - src.start;
        span_of_all::<O, N>().copy_within(&mut self.words, src.start, dest, count);
    }

    /// Copies the bits of a slice, of any register and order, to the bits from number `from` on. By
    /// words where both orders rise, both fall, or are one order with both ranges at the same bit
    /// of a word, else by bits.
    ///
    /// Requires that `from` plus the slice's length is at most the length. As `copy_from_bitslice`
    /// of a part for writing in the Rust crate.
    pub fn copy_from_range<R2: BitRegister, O2: BitOrder<R2>>(
        &mut self,
        from: usize,
        source: BitSlice<'_, R2, O2>,
    )
        requires { from + slice_len source ≤ array_len N }
        ensures { array_bits self.new ≡ with_range (array_bits self.old) from
            (from + slice_len source.entry) (slice_bits source.entry) }
    {
        put_slice::<O, N, R2, O2>(&mut self.words, from, source);
    }
}

// Copies the bits of a slice to the bits of `N` words from number `from` on.
fn put_slice<O: BitOrder<usize>, const N: usize, R2: BitRegister, O2: BitOrder<R2>>(
    words: &mut [usize],
    from: usize,
    source: BitSlice<'_, R2, O2>,
)
    requires many { length words.old ≡ N }
    requires inside { from + slice_len source ≤ array_len N }
    ensures { bits_in_words O.at_of N words.new ≡ with_range (bits_in_words O.at_of N words.old) from
        (from + slice_len source.entry) (slice_bits source.entry) }
{
    let mut bits = BitSliceMut::new_unchecked(span_of_all::<O, N>(), words);
    bits.copy_from_range(from, source);
}
