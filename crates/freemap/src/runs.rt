//! The runs of free blocks.

ghost use Rattle.std.specs.Prelude.{◌≡◌, ⊤, ◌<◌, ◌≤◌, true, false, MatchOption, length};
ghost use Rattle.bitvec.specs.Span.{element};
ghost use Rattle.bitvec_slice.specs.BitSlice.{slice_bits};
ghost use Rattle.bitvec_slice.specs.Bits.{AllBetween, AreFree};
ghost use Rattle.freemap.specs.Blocks.{IsLargestRun};
ghost use Rattle.freemap.specs.FreeRuns.{IsEnd, IsNextRun, free_runs};

use crate::map::FreeMap;
use bitvec::order::BitOrder;
use bitvec_slice::slice::BitSlice;
use std::alloc::AllocError;
use std::iter::FusedIterator;

/// The runs of free blocks of a map, lowest first, from
/// [`iter_free_runs`](FreeMap::iter_free_runs). Of each run it gives the first block, and how many
/// blocks there are from it up to the next that is in use or the end.
///
/// # Examples
///
/// ```
/// let mut words = [0x00FF_0000_0000_0F0Fu64];
/// let map = FreeMap::<Lsb0>::from_words_unchecked(&mut words, 64);
/// let mut runs = map.iter_free_runs();
/// assert_eq!(rt; runs.next(), Some((4, 4)));
/// assert_eq!(rt; runs.next(), Some((12, 36)));
/// assert_eq!(rt; runs.next(), Some((56, 8)));
/// assert_eq!(rt; runs.next(), None);
/// ```
#[derive(Drop)]
pub struct FreeRuns<'a, O: BitOrder<u64>> {
    bits: BitSlice<'a, u64, O>,
    next: usize,
    pub ghost inside: { next ≤ length (slice_bits bits) },
    pub ghost edge: { 0 < next → next < length (slice_bits bits)
        → element (slice_bits bits) next ≡ true },
}

impl<'a, O: BitOrder<u64>> Clone for FreeRuns<'a, O> {
    ghost is_clone = { λ it copy. copy ≡ it };

    ghost is_infallible = { λ _. ⊤ };

    fn clone(&self) -> Result<Self, AllocError> {
        Ok(FreeRuns {
            bits: self.bits,
            next: self.next,
        })
    }
}

impl<'a, O: BitOrder<u64>> Iterator for FreeRuns<'a, O> {
    type Item = (usize, usize);

    ghost use Rattle.std.specs.Iterator.{YieldsFirst, item_count};
    ghost use Rattle.freemap.specs.RunsLeft.{free_runs_left};

    ghost next_gives = { YieldsFirst free_runs_left };

    ghost remaining = { item_count free_runs_left };

    fn next(&mut self) -> Option<(usize, usize)> {
        let (at, count) = run_after(&self.bits, self.next)?;
        self.next = at + count;
        Some((at, count))
    }
}

/// After `None` the iterator returns `None` for good.
impl<'a, O: BitOrder<u64>> FusedIterator for FreeRuns<'a, O> {}

// The first run of free blocks from block `from` on, by the bits of a map.
fn run_after<O: BitOrder<u64>>(bits: &BitSlice<'_, u64, O>, from: usize) -> Option<(usize, usize)>
    ensures { let used = slice_bits bits.now
        in MatchOption result (AllBetween true used from (length used))
        (λ run. IsNextRun used from run.0 run.1) }
{
    let at = bits.next_zero(from)?;
    Some((at, end_of_free(bits, at) - at))
}

// One past the free blocks in a row from a free one on.
fn end_of_free<O: BitOrder<u64>>(bits: &BitSlice<'_, u64, O>, at: usize) -> usize
    requires inside { at < length (slice_bits bits.now) }
    requires free { element (slice_bits bits.now) at ≡ false }
    ensures { IsEnd (slice_bits bits.now) at result }
{
    match bits.next_one(at) {
        Some(end) => end,
        None => bits.len(),
    }
}

impl<'a, O: BitOrder<u64>> FreeMap<'a, O> {
    ghost use Rattle.freemap.specs.Map.{in_use};
    ghost use Rattle.freemap.specs.RunsLeft.{free_runs_left};

    /// The runs of free blocks, lowest first: of each the first block, and how many they are. Each
    /// is as long as can be, so that a block in use or an end of the map is before it and behind
    /// it.
    ///
    /// Constant time. All calls of `next` together go by words, and by the runs that they give.
    pub fn iter_free_runs(&self) -> FreeRuns<'_, O>
        ensures { free_runs_left result ≡ free_runs (in_use self.now) }
    {
        FreeRuns {
            bits: self.bits(),
            next: 0,
        }
    }

    /// The first run of free blocks from block `from` on: its first block, and how many they are up
    /// to the next that is in use or the end. `None` exactly where no block from `from` on is free.
    /// Costs by words.
    ///
    /// [`iter_free_runs`](FreeMap::iter_free_runs) gives all runs, one after the other.
    ///
    /// # Examples
    ///
    /// ```
    /// let mut words = [0x00FF_0000_0000_0F0Fu64];
    /// let map = FreeMap::<Lsb0>::from_words_unchecked(&mut words, 64);
    /// assert_eq!(rt; map.next_free_run(0), Some((4, 4)));
    /// assert_eq!(rt; map.next_free_run(8), Some((12, 36)));
    /// assert_eq!(rt; map.next_free_run(48), Some((56, 8)));
    /// assert_eq!(rt; map.next_free_run(64), None);
    /// assert_eq!(rt; map.largest_run(), 36);
    /// ```
    pub fn next_free_run(&self, from: usize) -> Option<(usize, usize)>
        ensures { MatchOption result (AllBetween true (in_use self.now) from
            (length (in_use self.now)))
            (λ run. IsNextRun (in_use self.now) from run.0 run.1) }
    {
        run_after(&self.bits(), from)
    }

    // One past the free blocks in a row from a free one on.
    pub(crate) fn end_of_run(&self, at: usize) -> usize
        requires { AreFree (in_use self.now) at 1 }
        ensures { IsEnd (in_use self.now) at result }
    {
        end_of_free(&self.bits(), at)
    }

    /// How many blocks the largest run of free blocks has; 0 where none is free. Costs by words,
    /// and by the runs.
    pub fn largest_run(&self) -> usize
        ensures { IsLargestRun (in_use self.now) result }
    {
        let mut most = 0;
        let mut from = 0;
        while let Some((at, count)) = self.next_free_run(from) {
            most = most.max(count);
            from = at + count;
        }
        most
    }
}
