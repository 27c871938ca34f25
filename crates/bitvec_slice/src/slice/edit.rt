//! Edits of a `BitSliceMut`: each says what its list of bits becomes.

ghost use Rattle.std.specs.Prelude.{◌≡◌, ◌<◌, ◌≤◌, ◌+◌, ◌-◌, ◌++◌, length, take, drop, replicate};
ghost use Rattle.std.specs.Prelude.{false, reverse, slice_set};
ghost use Rattle.std.specs.List.{swap};
ghost use Rattle.bitvec.specs.Memory.{list_with_copy};
ghost use Rattle.bitvec.specs.Span.{element, with_filled};
ghost use Rattle.bitvec_slice.specs.Bits.{AllBetween};
ghost use Rattle.bitvec_slice.specs.Ranges.{KeepsBeside};

use crate::slice::moves::{reverse_bits, rotate_bits, shift_bits_left, shift_bits_right};
use crate::slice::{BitSlice, BitSliceMut};
use bitvec::mem::BitRegister;
use bitvec::order::BitOrder;
use std::ops::Range;

impl<'a, R: BitRegister, O: BitOrder<R>> BitSliceMut<'a, R, O> {
    ghost use Rattle.bitvec_slice.specs.BitSlice.{slice_len, slice_bits};
    ghost use Rattle.bitvec_slice.specs.BitSliceMut.{lent_len, lent_bits, BecomesBits};

    /// Writes bit `i`, and returns the bit that was there. Requires that there is one:
    /// [`len`](BitSliceMut::len) is the test. Constant time.
    #[inline(always)]
    pub fn replace(&mut self, i: usize, bit: bool) -> bool
        requires { i < lent_len self.old }
        ensures previous { result ≡ element (lent_bits self.old) i }
        ensures bits { BecomesBits self.old self.new (slice_set (lent_bits self.old) i bit) }
        ensures filled { AllBetween bit (lent_bits self.new) i (i + 1) }
        ensures beside { KeepsBeside i (i + 1) (lent_bits self.old) (lent_bits self.new) }
    {
        let span = self.span();
        let memory = &mut *self.memory;
        span.replace(memory, i, bit)
    }

    /// Makes each bit the same, word by word.
    pub fn fill(&mut self, bit: bool)
        ensures { BecomesBits self.old self.new (replicate (length (lent_bits self.old)) bit) }
    {
        let span = self.span();
        let memory = &mut *self.memory;
        span.fill(memory, bit);
    }

    /// Makes the bits from number `from` to before number `to` the same, word by word.
    ///
    /// Requires that `from` is at most `to`, and `to` at most the length. Not in the Rust crate.
    pub fn fill_range(&mut self, from: usize, to: usize, bit: bool)
        requires ordered { from ≤ to }
        requires inside { to ≤ lent_len self.old }
        ensures bits { BecomesBits self.old self.new (with_filled (lent_bits self.old) from to bit) }
        ensures filled { AllBetween bit (lent_bits self.new) from to }
        ensures beside { KeepsBeside from to (lent_bits self.old) (lent_bits self.new) }
    {
        let span = self.span();
        let memory = &mut *self.memory;
        span.range(from, to).fill(memory, bit);
    }

    /// Exchanges bits `i` and `j`. Requires that there are both. Constant time.
    pub fn swap(&mut self, i: usize, j: usize)
        requires first { i < lent_len self.old }
        requires second { j < lent_len self.old }
        ensures { BecomesBits self.old self.new (swap (lent_bits self.old) i j) }
    {
        let span = self.span();
        let memory = &mut *self.memory;
        span.swap(memory, i, j);
    }

    /// Copies the bits of a range to a range of the same length, from number `dest` on: by words
    /// where the order's positions rise or fall, else by bits. What is copied is what was there
    /// before the call.
    ///
    /// Requires that the range rises, and that both ranges of bits end within the length.
    pub fn copy_within(&mut self, src: Range<usize>, dest: usize)
        requires ordered { src.start ≤ src.end }
        requires source_inside { src.end ≤ lent_len self.old }
        requires target_inside { dest + (src.end - src.start) ≤ lent_len self.old }
        ensures { let xs = lent_bits self.old
            in BecomesBits self.old self.new
            (list_with_copy xs src.start xs dest (src.end - src.start)) }
    {
        let span = self.span();
        let memory = &mut *self.memory;
        span.copy_within(memory, src.start, dest, src.end - src.start);
    }

    /// Copies the bits of another slice, of any register and order. Requires that both slices have
    /// the same length. By words where both orders rise, both fall, or are one order with both
    /// slices at the same bit of a word, else by bits.
    pub fn copy_from_bitslice<R2: BitRegister, O2: BitOrder<R2>>(
        &mut self,
        source: BitSlice<'_, R2, O2>,
    )
        requires { slice_len source ≡ lent_len self.old }
        ensures { BecomesBits self.old self.new (slice_bits source.entry) }
    {
        let span = self.span();
        let memory = &mut *self.memory;
        span.copy_from(memory, source.span, source.memory);
    }

    /// Puts the bits in the opposite order: by words where the order's positions rise or fall, as
    /// those of `Lsb0` and `Msb0` do, else bit by bit.
    pub fn reverse(&mut self)
        ensures { BecomesBits self.old self.new (reverse (lent_bits self.old)) }
    {
        let span = self.span();
        let memory = &mut *self.memory;
        reverse_bits(span, memory);
    }

    /// Moves each bit `by` places towards the first: the first `by` bits are lost, and the last
    /// `by` become zero. Goes by words where the order's positions rise or fall, else by bits.
    /// Requires that `by` is at most the length.
    pub fn shift_left(&mut self, by: usize)
        requires { by ≤ lent_len self.old }
        ensures { let xs = lent_bits self.old
            in BecomesBits self.old self.new (drop by xs ++ replicate by false) }
    {
        let span = self.span();
        let memory = &mut *self.memory;
        shift_bits_left(span, memory, by);
    }

    /// Moves each bit `by` places towards the last: the last `by` bits are lost, and the first
    /// `by` become zero. Goes by words where the order's positions rise or fall, else by bits.
    /// Requires that `by` is at most the length.
    pub fn shift_right(&mut self, by: usize)
        requires { by ≤ lent_len self.old }
        ensures { let xs = lent_bits self.old
            in BecomesBits self.old self.new (replicate by false ++ take (length xs - by) xs) }
    {
        let span = self.span();
        let memory = &mut *self.memory;
        shift_bits_right(span, memory, by);
    }

    /// Puts the first `by` bits behind the others, at the cost of two times
    /// [`reverse`](BitSliceMut::reverse). Requires that `by` is at most the length.
    pub fn rotate_left(&mut self, by: usize)
        requires { by ≤ lent_len self.old }
        ensures { let xs = lent_bits self.old
            in BecomesBits self.old self.new (drop by xs ++ take by xs) }
    {
        let span = self.span();
        let memory = &mut *self.memory;
        rotate_bits(span, memory, by);
    }

    /// Puts the last `by` bits before the others. Requires that `by` is at most the length. It
    /// costs as much as [`rotate_left`](BitSliceMut::rotate_left).
    pub fn rotate_right(&mut self, by: usize)
        requires { by ≤ lent_len self.old }
        ensures { let xs = lent_bits self.old
            in BecomesBits self.old self.new
            (drop (length xs - by) xs ++ take (length xs - by) xs) }
    {
        let len = self.len();
        self.rotate_left(len - by);
    }
}
