//! The bits of a slice one after the other, from both ends.

ghost use Rattle.std.specs.Prelude.{◌≡◌, ⊤, ◌^◌, ◌<◌, ◌≤◌, ◌+◌, ◌-◌, Some, length, IfSome};
ghost use Rattle.std.specs.Prelude.{MatchOption};
ghost use Rattle.std.specs.Iterator.{YieldsFirst, YieldsLast, item_count, at_most, UpTo};
ghost use Rattle.std.specs.Iterator.{MakesProgress};
ghost use Rattle.std.specs.Iterator.SizeHint.{IsWithinCount};
ghost use Rattle.bitvec.specs.Span.{span_from};
ghost use Rattle.bitvec_slice.specs.BitSlice.{slice_span, slice_len};

use crate::slice::BitSlice;
use bitvec::mem::BitRegister;
use bitvec::order::BitOrder;
use std::alloc::AllocError;
use std::iter::FusedIterator;

/// The bits of a slice, in order: as truth values, from both ends.
///
/// # Examples
///
/// ```
/// let memory = [0x0Bu8];
/// let span: BitSpan<u8, Lsb0> = BitSpan::new(0, BitIdx::new_unchecked(0), 4).unwrap();
/// let mut bits = BitSlice::new(span, &memory).ok_or("outside")?.iter();
/// assert_eq!(rt; bits.next(), Some(true));
/// assert_eq!(rt; bits.next_back(), Some(true));
/// assert_eq!(rt; bits.len(), 2);
/// ```
#[derive(Drop)]
pub struct Iter<'a, R: BitRegister, O: BitOrder<R>> {
    slice: BitSlice<'a, R, O>,
    // Places of bits, counted from the first bit of the slice's first word: of the first that is
    // still to come, and of one past the last.
    next: usize,
    end: usize,
    pub ghost begins: { (slice_span slice).head ≤ next },
    pub ghost rises: { next ≤ end },
    pub ghost inside: { end ≤ (slice_span slice).head + slice_len slice },
}

impl<'a, R: BitRegister, O: BitOrder<R>> Clone for Iter<'a, R, O> {
    ghost is_clone = { λ it copy. copy ≡ it };

    ghost is_infallible = { λ _. ⊤ };

    fn clone(&self) -> Result<Self, AllocError> {
        Ok(Iter {
            slice: self.slice,
            next: self.next,
            end: self.end,
        })
    }
}

impl<'a, R: BitRegister, O: BitOrder<R>> Iter<'a, R, O> {
    ghost use Rattle.bitvec_slice.specs.BitSlice.{slice_memory, slice_bits};
    ghost use Rattle.bitvec_slice.specs.Iter.{iter_memory, iter_span, iter_left};

    /// The bits that are still to come, where they lie. Constant time.
    pub fn as_bitslice(&self) -> BitSlice<'a, R, O>
        ensures memory { slice_memory result ≡ iter_memory self.now }
        ensures span { slice_span result ≡ iter_span self.now }
        ensures bits { slice_bits result ≡ iter_left self.now }
    {
        let head = self.slice.head();
        BitSlice {
            memory: self.slice.memory,
            span: self.slice.span.range(self.next - head, self.end - head),
        }
    }
}

impl<'a, R: BitRegister, O: BitOrder<R>> Iterator for Iter<'a, R, O> {
    type Item = bool;

    ghost use Rattle.bitvec_slice.specs.Iter.{iter_memory, iter_span, iter_left};

    ghost next_gives = { YieldsFirst iter_left };

    ghost remaining = { item_count iter_left };

    /// Takes the first of the bits that are left.
    #[inline(always)]
    fn next(&mut self) -> Option<bool>
        ensures steps { YieldsFirst iter_left self.old result self.new }
        ensures goes { MakesProgress (λ _. ⊤) (item_count iter_left) self.old result self.new }

        // What is left lies in the same memory, one bit further on.
        ensures memory { iter_memory self.new ≡ iter_memory self.old }
        ensures span { let left = iter_span self.old
            in MatchOption result (iter_span self.new ≡ left)
            (λ _. iter_span self.new ≡ span_from R.BITS left 1) }
    {
        if self.next == self.end {
            return None;
        }
        let bit = self.slice.bit_at_place(self.next);
        self.next += 1;
        Some(bit)
    }

    #[inline(always)]
    fn size_hint(&self) -> (usize, Option<usize>)
        ensures lower { IsWithinCount result.0 (at_most (length (iter_left self.now))) }
        ensures upper { IfSome result.1 (UpTo (at_most (length (iter_left self.now)))) }
        ensures exact { (result.0 ≡ length (iter_left self.now)) × (result.1 ≡ Some result.0) }
    {
        let left = self.end - self.next;
        (left, Some(left))
    }
}

impl<'a, R: BitRegister, O: BitOrder<R>> DoubleEndedIterator for Iter<'a, R, O> {
    ghost use Rattle.bitvec_slice.specs.Iter.{iter_memory, iter_span, iter_left};

    ghost next_back_gives = { YieldsLast iter_left };

    /// Takes the last of the bits that are left.
    #[inline(always)]
    fn next_back(&mut self) -> Option<bool>
        ensures steps { YieldsLast iter_left self.old result self.new }
        ensures goes { MakesProgress (λ _. ⊤) (item_count iter_left) self.old result self.new }

        // What is left lies in the same memory, from the same bit on.
        ensures memory { iter_memory self.new ≡ iter_memory self.old }
        ensures span { let left = iter_span self.old
            in MatchOption result (iter_span self.new ≡ left)
            (λ _. iter_span self.new ≡ record left { len = left.len - 1 }) }
    {
        if self.next == self.end {
            return None;
        }
        self.end -= 1;
        Some(self.slice.bit_at_place(self.end))
    }
}

impl<'a, R: BitRegister, O: BitOrder<R>> ExactSizeIterator for Iter<'a, R, O> {
    #[inline(always)]
    fn len(&self) -> usize {
        self.end - self.next
    }
}

/// After `None` the iterator returns `None` for good.
impl<'a, R: BitRegister, O: BitOrder<R>> FusedIterator for Iter<'a, R, O> {}

impl<'a, R: BitRegister, O: BitOrder<R>> BitSlice<'a, R, O> {
    ghost use Rattle.bitvec_slice.specs.BitSlice.{slice_memory, slice_bits};
    ghost use Rattle.bitvec_slice.specs.Iter.{iter_memory, iter_span, iter_left};
    ghost use Rattle.bitvec_slice.specs.Iter.{GivesBitsInOrder, GivesBitsInReverse};

    /// Its bits as truth values, in order or from the back. Constant time, and so is each call of
    /// `next`.
    #[inline(always)]
    pub fn iter(&self) -> Iter<'a, R, O>
        // All the bits are still to come, where they lie.
        ensures rest { iter_left result ≡ slice_bits self.now }
        ensures bound { length (iter_left result) < 2 ^ 64 }
        ensures memory { iter_memory result ≡ slice_memory self.now }
        ensures span { iter_span result ≡ slice_span self.now }

        // Facts of the type, and not of this iterator alone: whichever one a run of calls begins
        // with, the run gives the bits that it had left, in order, or from the back.
        ensures runs { GivesBitsInOrder result }
        ensures runs_back { GivesBitsInReverse result }
    {
        let head = self.head();
        Iter {
            slice: *self,
            next: head,
            end: head + self.len(),
        }
    }
}

impl<'a, R: BitRegister, O: BitOrder<R>> IntoIterator for BitSlice<'a, R, O> {
    type Item = bool;

    type IntoIter = Iter<'a, R, O>;

    ghost use Rattle.bitvec_slice.specs.BitSlice.{slice_memory, slice_bits};
    ghost use Rattle.bitvec_slice.specs.Iter.{iter_memory, iter_span, iter_left};
    ghost use Rattle.bitvec_slice.specs.Iter.{GivesBitsInOrder, GivesBitsInReverse};

    ghost into_iter_gives = { λ slice it. (iter_left it ≡ slice_bits slice)
        × (length (iter_left it) < 2 ^ 64) × GivesBitsInOrder it × GivesBitsInReverse it
        × (iter_memory it ≡ slice_memory slice) × (iter_span it ≡ slice_span slice) };

    #[inline(always)]
    fn into_iter(self) -> Iter<'a, R, O> {
        self.iter()
    }
}
