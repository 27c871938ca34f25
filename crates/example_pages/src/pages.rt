//! An allocator of pages: a bit for each page, in words that the caller lends. A bit is set where
//! its page is in use.

ghost use Rattle.std.specs.Prelude.{◌≡◌, ◌↔◌, ◌+◌, true, false, length, map, take, slice_set};
ghost use Rattle.std.specs.Prelude.{IsTrue, IsOk, IfOk, IfErr, IfSome, MatchOption};
ghost use Rattle.bitvec.specs.Memory.{memory_bits};
ghost use Rattle.bitvec.specs.Span.{front_span, with_filled};
ghost use Rattle.bitvec.specs.Truths.{AllAre, IsFirst};
ghost use Rattle.bitvec_slice.specs.Bits.{AreFree, IsFirstFree};
ghost use Rattle.bitvec_slice.specs.Ranges.{KeepsBeside};
ghost use Rattle.bitvec_slice.specs.Whole.{IsFront};

use bitvec_slice::prelude::{BitOrder, BitRegister, BitSliceMut, ReadBits};

/// The pages of a store, each free or in use.
#[derive(Drop)]
pub struct Pages<'a, R: BitRegister, O: BitOrder<R>> {
    bits: BitSliceMut<'a, R, O>,
}

impl<'a, R: BitRegister, O: BitOrder<R>> Pages<'a, R, O> {
    ghost use Rattle.example_pages.specs.Pages.{pages_memory, pages_span, used, free_count};
    ghost use Rattle.example_pages.specs.Pages.{ArePagesInUse, BecomesPages};

    /// The pages of a store whose map is in the first bits of some words. It gives the words back
    /// where they have no bit for each page.
    pub fn over(words: &'a mut [R], pages: usize) -> Result<Self, &'a mut [R]>
        ensures accepted { IsOk result ↔ IsFront R.BITS pages (length words.old) }
        ensures map { IfOk result (λ it. used it
            ≡ take pages (memory_bits R.BITS O.at_of (map R.number words.old))) }
        ensures back { IfErr result (λ it. it.ghost_name ≡ words.entry.ghost_name) }
        ensures kept { IfErr result (λ it. it.now ≡ words.old) }
        ensures many { IfOk result (λ it. length (used it) ≡ pages) }

        // The words are lent as they are, and the map lies in their first bits.
        ensures reference { IfOk result (λ it. (pages_memory it).ghost_name
            ≡ words.entry.ghost_name) }
        ensures memory { IfOk result (λ it. (pages_memory it).now ≡ words.old) }
        ensures span { IfOk result (λ it. pages_span it ≡ front_span pages) }
    {
        let bits = BitSliceMut::front(words, pages)?;
        Ok(Pages { bits })
    }

    /// How many pages there are.
    pub fn len(&self) -> usize
        ensures { result ≡ length (used self.now) }
    {
        self.bits.len()
    }

    /// How many pages are free.
    pub fn count_free(&self) -> usize
        ensures { result ≡ free_count self.now }
    {
        self.bits.count_zeros()
    }

    /// Whether there are `count` pages from page `at` on, and each is in use.
    pub fn are_in_use(&self, at: usize, count: usize) -> bool
        ensures { IsTrue result ↔ ArePagesInUse (used self.now) at count }
    {
        at <= self.len() && count <= self.len() - at && self.bits.all_in(at, at + count)
    }

    /// Hands out the first free page, and `None` where every page is in use.
    #[tactic(auto, using(bitvec_slice::proofs::OneCountLemmas::counts))]
    pub fn alloc(&mut self) -> Option<usize>
        ensures answer { MatchOption result (AllAre true (used self.old))
            (IsFirst false (used self.old)) }
        ensures whole { MatchOption result (self.new ≡ self.old)
            (λ at. BecomesPages self.old self.new (slice_set (used self.old) at true)) }
        ensures free { IfSome result (λ at. AreFree (used self.old) at 1) }
        ensures taken { IfSome result (λ at. ArePagesInUse (used self.new) at 1) }
        ensures others { IfSome result (λ at. KeepsBeside at (at + 1) (used self.old)
            (used self.new)) }
        ensures counted { MatchOption result (free_count self.old ≡ 0)
            (λ _. free_count self.new + 1 ≡ free_count self.old) }
    {
        let at = self.bits.first_zero()?;
        self.bits.set(at, true);
        Some(at)
    }

    /// Hands out the first `count` free pages in a row, and `None` where there are no such pages.
    #[tactic(auto, using(bitvec_slice::proofs::OneCountLemmas::counts))]
    pub fn alloc_run(&mut self, count: usize) -> Option<usize>
        ensures answer { IsFirstFree (used self.old) count result }
        ensures whole { MatchOption result (self.new ≡ self.old)
            (λ at. BecomesPages self.old self.new
            (with_filled (used self.old) at (at + count) true)) }
        ensures free { IfSome result (λ at. AreFree (used self.old) at count) }
        ensures taken { IfSome result (λ at. ArePagesInUse (used self.new) at count) }
        ensures others { IfSome result (λ at. KeepsBeside at (at + count) (used self.old)
            (used self.new)) }
        ensures counted { IfSome result (λ _. free_count self.new + count
            ≡ free_count self.old) }
    {
        let at = self.bits.find_zeros(count)?;
        self.bits.fill_range(at, at + count, true);
        Some(at)
    }

    /// Takes `count` pages back, from page `at` on. Requires that there are as many, and that each
    /// is in use: [`are_in_use`](Pages::are_in_use) is the test.
    #[tactic(auto, using(bitvec_slice::proofs::OneCountLemmas::counts))]
    pub fn free(&mut self, at: usize, count: usize)
        requires { ArePagesInUse (used self.old) at count }
        ensures whole { BecomesPages self.old self.new
            (with_filled (used self.old) at (at + count) false) }
        ensures free { AreFree (used self.new) at count }
        ensures others { KeepsBeside at (at + count) (used self.old) (used self.new) }
        ensures counted { free_count self.new ≡ free_count self.old + count }
    {
        self.bits.fill_range(at, at + count, false);
    }
}
