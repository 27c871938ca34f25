//! The stretches of ones in a slice, one after the other.

ghost use Rattle.std.specs.Prelude.{◌≡◌, ⊤, ◌<◌, ◌≤◌, true, false};
ghost use Rattle.bitvec.specs.Span.{element};
ghost use Rattle.bitvec_slice.specs.BitSlice.{slice_len, slice_bits};
ghost use Rattle.bitvec_slice.specs.Bits.{AllBetween};
ghost use Rattle.bitvec_slice.specs.Stretches.{runs_from};

use crate::slice::BitSlice;
use bitvec::mem::BitRegister;
use bitvec::order::BitOrder;
use std::alloc::AllocError;
use std::iter::FusedIterator;

/// The stretches of ones in a slice, in rising order, from [`BitSlice::iter_runs`]. Of each it
/// gives the index of the first one, and how many ones there are up to the next zero.
///
/// # Examples
///
/// ```
/// let memory = [0x6Eu8];
/// let span: BitSpan<u8, Lsb0> = BitSpan::new(0, BitIdx::new_unchecked(0), 8).unwrap();
/// let mut runs = BitSlice::new(span, &memory).ok_or("outside")?.iter_runs();
/// assert_eq!(rt; runs.next(), Some((1, 3)));
/// assert_eq!(rt; runs.next(), Some((5, 2)));
/// assert_eq!(rt; runs.next(), None);
/// ```
#[derive(Drop)]
pub struct IterRuns<'a, R: BitRegister, O: BitOrder<R>> {
    slice: BitSlice<'a, R, O>,
    next: usize,
    pub ghost inside: { next ≤ slice_len slice },
    pub ghost edge: { 0 < next → element (slice_bits slice) next ≡ false },
}

impl<'a, R: BitRegister, O: BitOrder<R>> Clone for IterRuns<'a, R, O> {
    ghost is_clone = { λ it copy. copy ≡ it };

    ghost is_infallible = { λ _. ⊤ };

    fn clone(&self) -> Result<Self, AllocError> {
        Ok(IterRuns {
            slice: self.slice,
            next: self.next,
        })
    }
}

impl<'a, R: BitRegister, O: BitOrder<R>> BitSlice<'a, R, O> {
    ghost use Rattle.bitvec_slice.specs.Runs.{runs_left};

    // The index behind the stretch of ones that index `start` lies in.
    fn end_of_ones(&self, start: usize) -> usize
        requires one { element (slice_bits self.now) start ≡ true }
        requires inside { start < slice_len self.now }
        ensures some { start < result }
        ensures inside { result ≤ slice_len self.now }
        ensures ones { AllBetween true (slice_bits self.now) start result }
        ensures end { element (slice_bits self.now) result ≡ false }
    {
        let len = self.len();
        self.first_between(start, len, false).unwrap_or(len)
    }

    /// The stretches of ones, in rising order: of each the index of its first bit, counted from 0,
    /// and its length. Each is as long as can be, so that a zero or an end of the slice is before
    /// it and behind it. Not in the Rust crate.
    ///
    /// Constant time. All calls of `next` together go by words, and by the stretches that they
    /// give.
    pub fn iter_runs(&self) -> IterRuns<'a, R, O>
        ensures { runs_left result ≡ runs_from (slice_bits self.now) 0 }
    {
        IterRuns {
            slice: *self,
            next: 0,
        }
    }
}

impl<'a, R: BitRegister, O: BitOrder<R>> Iterator for IterRuns<'a, R, O> {
    type Item = (usize, usize);

    ghost use Rattle.std.specs.Iterator.{YieldsFirst, item_count};
    ghost use Rattle.bitvec_slice.specs.Runs.{runs_left};

    ghost next_gives = { YieldsFirst runs_left };

    ghost remaining = { item_count runs_left };

    fn next(&mut self) -> Option<(usize, usize)> {
        let len = self.slice.len();
        match self.slice.first_between(self.next, len, true) {
            Some(start) => {
                let end = self.slice.end_of_ones(start);
                self.next = end;
                Some((start, end - start))
            }
            None => None,
        }
    }
}

/// After `None` the iterator returns `None` for good.
impl<'a, R: BitRegister, O: BitOrder<R>> FusedIterator for IterRuns<'a, R, O> {}
