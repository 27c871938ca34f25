//! Edits of a vector's bits that keep its length: each says what the list becomes.

ghost use Rattle.std.specs.Prelude.{◌≡◌, ◌≤◌, ◌<◌, ◌+◌, ◌-◌, length, slice_set, replicate};
ghost use Rattle.std.specs.List.{swap};
ghost use Rattle.bitvec.specs.Memory.{list_with_copy};
ghost use Rattle.bitvec.specs.Place.{region_max_bits};
ghost use Rattle.bitvec.specs.Span.{element, with_filled};
ghost use Rattle.bitvec_slice.specs.BitSlice.{slice_len, slice_bits};
ghost use Rattle.bitvec_vec.specs.Front.{front_of, words_for};
ghost use Rattle.bitvec_vec.specs.WithList.{with_list};

use crate::vec::BitVec;
use crate::vec::front::span_of_front;
use bitvec::mem::BitRegister;
use bitvec::order::BitOrder;
use bitvec::ptr::span::BitSpan;
use bitvec_slice::slice::{BitSlice, BitSliceMut};
use std::alloc::Allocator;
use std::ops::Range;

impl<R: BitRegister, O: BitOrder<R>, A: Allocator> BitVec<R, O, A> {
    ghost use Rattle.bitvec_vec.specs.BitVec.{vec_bits, bit_capacity};

    /// Writes bit `i`. Requires that there is one: [`len`](BitVec::len) is the test. Constant time.
    pub fn set(&mut self, i: usize, bit: bool)
        requires { i < length (vec_bits self.old) }
        ensures bits { vec_bits self.new ≡ slice_set (vec_bits self.old) i bit }
        ensures capacity { bit_capacity self.new ≡ bit_capacity self.old }
    {
        let span: BitSpan<R, O> = span_of_front(self.len);
        span.write(self.words.as_mut_slice(), i, bit);
    }

    /// Writes bit `i`, and returns the bit that was there. Requires that there is one:
    /// [`len`](BitVec::len) is the test. Constant time.
    pub fn replace(&mut self, i: usize, bit: bool) -> bool
        requires { i < length (vec_bits self.old) }
        ensures previous { result ≡ element (vec_bits self.old) i }
        ensures bits { vec_bits self.new ≡ slice_set (vec_bits self.old) i bit }
        ensures capacity { bit_capacity self.new ≡ bit_capacity self.old }
    {
        let previous = self.get_unchecked(i);
        self.set(i, bit);
        previous
    }

    /// Exchanges bits `i` and `j`. Requires that there are both. Constant time.
    pub fn swap(&mut self, i: usize, j: usize)
        requires first { i < length (vec_bits self.old) }
        requires second { j < length (vec_bits self.old) }
        ensures bits { vec_bits self.new ≡ swap (vec_bits self.old) i j }
        ensures capacity { bit_capacity self.new ≡ bit_capacity self.old }
    {
        let span: BitSpan<R, O> = span_of_front(self.len);
        span.swap(self.words.as_mut_slice(), i, j);
    }

    /// Makes each bit the same, word by word.
    pub fn fill(&mut self, bit: bool)
        ensures bits { vec_bits self.new ≡ replicate (length (vec_bits self.old)) bit }
        ensures capacity { bit_capacity self.new ≡ bit_capacity self.old }
    {
        let span: BitSpan<R, O> = span_of_front(self.len);
        span.fill(self.words.as_mut_slice(), bit);
    }

    /// Makes the bits from number `from` to before number `to` the same, word by word.
    ///
    /// Requires that `from` is at most `to`, and `to` at most the length. Not in the Rust crate.
    pub fn fill_range(&mut self, from: usize, to: usize, bit: bool)
        requires ordered { from ≤ to }
        requires inside { to ≤ length (vec_bits self.old) }
        ensures bits { vec_bits self.new ≡ with_filled (vec_bits self.old) from to bit }
        ensures capacity { bit_capacity self.new ≡ bit_capacity self.old }
    {
        let span: BitSpan<R, O> = span_of_front(self.len);
        span.range(from, to).fill(self.words.as_mut_slice(), bit);
    }

    /// Copies the bits of a range to a range of the same length, from number `dest` on: by words
    /// where the order's positions rise or fall, else by bits. What is copied is what was there
    /// before the call.
    ///
    /// Requires that the range rises, and that both ranges of bits end within the length.
    pub fn copy_within(&mut self, src: Range<usize>, dest: usize)
        requires ordered { src.start ≤ src.end }
        requires source_inside { src.end ≤ length (vec_bits self.old) }
        requires target_inside { dest + (src.end - src.start) ≤ length (vec_bits self.old) }
        ensures bits { let xs = vec_bits self.old in vec_bits self.new
            ≡ list_with_copy xs src.start xs dest (src.end - src.start) }
        ensures capacity { bit_capacity self.new ≡ bit_capacity self.old }
    {
        let span: BitSpan<R, O> = span_of_front(self.len);
        let count = src.end - src.start;
        span.copy_within(self.words.as_mut_slice(), src.start, dest, count);
    }

    /// Copies the bits of a slice, of any register and order, to the bits from number `from` on. By
    /// words where both orders rise, both fall, or are one order with both ranges at the same bit
    /// of a word, else by bits.
    ///
    /// Requires that `from` plus the slice's length is at most the length. As `copy_from_bitslice`
    /// of a part for writing in the Rust crate.
    pub fn copy_from_range<R2: BitRegister, O2: BitOrder<R2>>(
        &mut self,
        from: usize,
        source: BitSlice<'_, R2, O2>,
    )
        requires { from + length (slice_bits source) ≤ length (vec_bits self.old) }
        ensures bits { vec_bits self.new
            ≡ with_list (vec_bits self.old) from (slice_bits source.entry) }
        ensures capacity { bit_capacity self.new ≡ bit_capacity self.old }
    {
        put_slice::<R, O, R2, O2>(self.words.as_mut_slice(), self.len, from, source);
    }
}

// Copies the bits of a slice to the bits from number `from` on, of the first `len` of some words.
fn put_slice<R: BitRegister, O: BitOrder<R>, R2: BitRegister, O2: BitOrder<R2>>(
    words: &mut [R],
    len: usize,
    from: usize,
    source: BitSlice<'_, R2, O2>,
)
    requires short { len ≤ region_max_bits }
    requires room { words_for R.BITS len ≤ length words.old }
    requires inside { from + slice_len source ≤ len }
    ensures { let bits = front_of R.BITS O.at_of R.number len in bits words.new
        ≡ with_list (bits words.old) from (slice_bits source.entry) }
{
    let span: BitSpan<R, O> = span_of_front(len);
    let mut bits = BitSliceMut::new_unchecked(span, words);
    bits.copy_from_range(from, source);
}
