//! Blocks that are handed out, taken back and reserved.

ghost use Rattle.std.specs.Prelude.{◌≡◌, ◌↔◌, ℕ, ◌+◌, ◌<◌, ◌≤◌, true, false, IsTrue, IsFalse};
ghost use Rattle.std.specs.Prelude.{length, IfSome, MatchOption, List, ◌∷◌, ◌++◌};
ghost use Rattle.bitvec.specs.Span.{with_filled};
ghost use Rattle.bitvec_slice.specs.Bits.{AreFree};
ghost use Rattle.bitvec_slice.specs.Patterns.{AreFreeFrom, IsLeast};
ghost use Rattle.freemap.specs.Blocks.{AreInUse, IsLowest};
ghost use Rattle.freemap.specs.History.{Owns, OwnsMore};

use crate::map::{FreeMap, words_for};
use bitvec::order::BitOrder;

impl<'a, O: BitOrder<u64>> FreeMap<'a, O> {
    ghost use Rattle.freemap.specs.Map.{in_use, BecomesBlocks, Allocates};

    // Hands out `count` free blocks from block `at` on.
    pub(crate) fn take(&mut self, at: usize, count: usize)
        requires { AreFree (in_use self.old) at count }
        ensures taken { BecomesBlocks self.old self.new
            (with_filled (in_use self.old) at (at + count) true) }
        ensures handed { AreInUse (in_use self.new) at count }
        ensures owned { (live : List (ℕ × ℕ)) → Owns (in_use self.old) live
            → Owns (in_use self.new) ((at, count) ∷ live) }
    {
        self.mark(at, count, true);
    }

    /// Hands out the lowest block that is free, and returns it; `None` exactly where none is, and
    /// then the map stays as it is.
    ///
    /// What is handed out was free, so no one has it already: whatever ranges were live, it is one
    /// more that overlaps none of them. Every other block stays as it is. Looks through the words
    /// up to that of the block.
    pub fn alloc(&mut self) -> Option<usize>
        ensures answer { IsLowest (λ at. AreFree (in_use self.old) at 1) result }
        ensures taken { Allocates self.old self.new 1 result }
        ensures handed { IfSome result (λ at. AreInUse (in_use self.new) at 1) }
        ensures owned { OwnsMore (in_use self.old) (in_use self.new) 1 result }
    {
        let at = self.lowest_free()?;
        self.take(at, 1);
        Some(at)
    }

    /// Hands out the lowest free block that is not before `block`, and returns it; `None` exactly
    /// where none is, and then the map stays as it is. Else as [`alloc`](FreeMap::alloc), from the
    /// word of `block` on.
    pub fn alloc_at_or_after(&mut self, block: usize) -> Option<usize>
        ensures answer { IsLowest (λ at. (block ≤ at) × AreFree (in_use self.old) at 1) result }
        ensures taken { Allocates self.old self.new 1 result }
        ensures handed { IfSome result (λ at. AreInUse (in_use self.new) at 1) }
        ensures owned { OwnsMore (in_use self.old) (in_use self.new) 1 result }
    {
        let at = self.free_from(block)?;
        self.take(at, 1);
        Some(at)
    }

    /// Hands out `count` blocks in a row, the first such that are all free, and returns the first
    /// of them. It returns `None` exactly where there are none, and then the map stays as it is. No
    /// blocks at all are found at block 0.
    ///
    /// What is handed out was free, so no one has it already: whatever ranges were live, it is one
    /// more that overlaps none of them. Every other block stays as it is. For at most 64 blocks
    /// under an order that rises or falls, costs by words up to the end of the run. For more, or
    /// under another order, by bits, and words in full use are passed at once.
    pub fn alloc_run(&mut self, count: usize) -> Option<usize>
        ensures answer { IsLowest (λ at. AreFree (in_use self.old) at count) result }
        ensures taken { Allocates self.old self.new count result }
        ensures handed { IfSome result (λ at. AreInUse (in_use self.new) at count) }
        ensures owned { OwnsMore (in_use self.old) (in_use self.new) count result }
    {
        let at = self.first_run(count)?;
        self.take(at, count);
        Some(at)
    }

    /// Hands out `count` blocks in a row, the first such that are all free and begin at a multiple
    /// of `alignment`, and returns the first of them. It returns `None` exactly where there are
    /// none, and then the map stays as it is. Requires that `alignment` is not 0.
    ///
    /// Else as [`alloc_run`](FreeMap::alloc_run), and once more for each run that is long enough,
    /// but not from a multiple on.
    pub fn alloc_run_aligned(&mut self, count: usize, alignment: usize) -> Option<usize>
        requires { 0 < alignment }
        ensures answer { IsLowest (AreFreeFrom (in_use self.old) 0 count alignment) result }
        ensures taken { Allocates self.old self.new count result }
        ensures handed { IfSome result (λ at. AreInUse (in_use self.new) at count) }
        ensures owned { OwnsMore (in_use self.old) (in_use self.new) count result }
    {
        let at = self.run_from(0, count, alignment)?;
        self.take(at, count);
        Some(at)
    }

    /// Puts `count` blocks from block `at` on in use, and returns whether it did. It refuses
    /// exactly where one of them is in use or is not there, or `at` itself is past the map's end.
    /// Then the map stays as it is. Costs by words.
    pub fn reserve(&mut self, at: usize, count: usize) -> bool
        ensures answer { IsTrue result ↔ AreFree (in_use self.old) at count }
        ensures taken { IsTrue result → BecomesBlocks self.old self.new
            (with_filled (in_use self.old) at (at + count) true) }
        ensures handed { IsTrue result → AreInUse (in_use self.new) at count }
        ensures owned { IsTrue result → (live : List (ℕ × ℕ)) → Owns (in_use self.old) live
            → Owns (in_use self.new) ((at, count) ∷ live) }
        ensures refused { IsFalse result → self.new ≡ self.old }
    {
        if !self.is_free(at, count) {
            return false;
        }
        self.take(at, count);
        true
    }

    /// Takes `count` blocks back, from block `at` on, and leaves every other block as it is. Costs
    /// by words.
    ///
    /// Requires that there are such blocks and that each is in use, so none is taken back twice:
    /// [`is_in_use`](FreeMap::is_in_use) is the test. Where they are a live range, the other ranges
    /// stay live, and hold what is in use.
    pub fn free(&mut self, at: usize, count: usize)
        requires { AreInUse (in_use self.old) at count }
        ensures freed { BecomesBlocks self.old self.new
            (with_filled (in_use self.old) at (at + count) false) }
        ensures back { AreFree (in_use self.new) at count }
        ensures owned { (before later : List (ℕ × ℕ))
            → Owns (in_use self.old) (before ++ (at, count) ∷ later)
            → Owns (in_use self.new) (before ++ later) }
    {
        self.mark(at, count, false);
    }

    // The lowest free block.
    pub(crate) fn lowest_free(&self) -> Option<usize>
        ensures { IsLowest (λ at. AreFree (in_use self.now) at 1) result }
    {
        for w in 0..words_for(self.blocks()) {
            if let Some(block) = self.free_in_word(w) {
                return Some(block);
            }
        }
        None
    }

    // The lowest free block that is not before `block`. A call: what is inlined into the levels'
    // calls would make the common ones slower.
    #[inline(never)]
    pub(crate) fn free_from(&self, block: usize) -> Option<usize>
        ensures { IsLowest (λ at. (block ≤ at) × AreFree (in_use self.now) at 1) result }
    {
        self.bits().next_zero(block)
    }

    // The first `count` blocks in a row that are all free.
    fn first_run(&self, count: usize) -> Option<usize>
        ensures { IsLowest (λ at. AreFree (in_use self.now) at count) result }
    {
        self.bits().find_zeros(count)
    }

    // The first `count` blocks in a row that are all free and begin at a multiple of `alignment`,
    // not before block `start`.
    pub(crate) fn run_from(&self, start: usize, count: usize, alignment: usize) -> Option<usize>
        requires { 0 < alignment }
        ensures { IsLowest (AreFreeFrom (in_use self.now) start count alignment) result }
    {
        self.bits().find_zeros_from(start, count, alignment)
    }

    // The same of blocks up to before block `end`: `None` where none of them are such.
    pub(crate) fn run_upto(
        &self,
        end: usize,
        start: usize,
        count: usize,
        alignment: usize,
    ) -> Option<usize>
        requires alignment { 0 < alignment }
        requires end { end ≤ length (in_use self.now) }
        ensures { let IsRun = AreFreeFrom (in_use self.now) start count alignment
            in MatchOption result ((at : ℕ) → at + count ≤ end → ¬ IsRun at) (IsLeast IsRun) }
    {
        let part = self.bits().get_range(0, end)?;
        part.find_zeros_from(start, count, alignment)
    }
}
