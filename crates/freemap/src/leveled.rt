//! A free map under levels that say which words are full, so that the lowest free block is found
//! in a few words.

ghost use Rattle.std.specs.Prelude.{◌≡◌, ◌↔◌, ℕ, ◌+◌, ◌/◌, ◌<◌, ◌≤◌, true, false, IsTrue};
ghost use Rattle.std.specs.Prelude.{IsFalse, IfSome, IfNone, MatchOption, List, length, ◌∷◌, ◌++◌};
ghost use Rattle.bitvec.specs.Span.{element, with_filled};
ghost use Rattle.bitvec_slice.specs.Bits.{AllBetween, AreFree};
ghost use Rattle.bitvec_slice.specs.Patterns.{AreFreeFrom};
ghost use Rattle.bitvec_slice.specs.Ranges.{KeepsBeside};
ghost use Rattle.freemap.specs.Blocks.{word_count, AreInUse, IsLowest};
ghost use Rattle.freemap.specs.FreeRuns.{IsNextRun};
ghost use Rattle.freemap.specs.History.{Owns, OwnsMore};
ghost use Rattle.freemap.specs.Map.{in_use, BecomesBlocks, Allocates};
ghost use Rattle.freemap.specs.Summary.{summary_words, IsFull, SaysOf, Summarises};
ghost use Rattle.freemap.specs.Summary.{SummarisesBeside};

use crate::level::{Level, PlainLevel};
use crate::map::{FreeMap, words_for};
use crate::runs::FreeRuns;
use bitvec::order::{BitOrder, Lsb0};

// How many blocks a search for a run goes through before it asks the levels again.
const STRETCH: usize = 16384;

/// A map under two levels, as [`two_levels`](crate::two_levels) makes it. The levels are under the
/// order that finds a mark the fastest, whatever the order of the map is.
pub type TwoLevels<'a, O> = LeveledMap<'a, O, StackedLevel<'a, PlainLevel<'a>>>;

/// How many words the two levels over a map of `blocks` blocks take. Constant time.
pub fn summary_words_for(blocks: usize) -> usize
    ensures { result ≡ summary_words blocks }
{
    let full = words_for(words_for(blocks));
    full + words_for(full)
}

/// A [`FreeMap`] under levels, of which the lowest has a mark for each word of blocks that has no
/// free block. That level can be a [`StackedLevel`], with a level over it. Levels lie in words
/// beside those of the map, and are made from it, so the map alone is worth storing.
///
/// Under [`two_levels`](crate::two_levels), the lowest free block of 1048576 is found in the four
/// words of the upper level, one of the lower and one of the map. What blocks are handed out, and
/// which are in use after a call, is as of the map without levels.
///
/// # Examples
///
/// ```
/// let mut words = [0u64; 64];
/// let mut summary = [0u64; 2];
/// let map = FreeMap::<Lsb0>::new_unchecked(&mut words, 4096);
/// let mut map = two_levels(map, &mut summary);
/// assert!(rt; map.reserve(0, 4000));
/// assert_eq!(rt; map.alloc(), Some(4000));
/// assert_eq!(rt; map.alloc_run_aligned(8, 8), Some(4008));
/// assert_eq!(rt; map.as_map().count_free(), 87);
/// ```
#[derive(Drop)]
pub struct LeveledMap<'a, O: BitOrder<u64>, S: Level> {
    blocks: FreeMap<'a, O>,
    full: S,
    pub ghost words: { Summarises (in_use blocks) (S.marks full) },
}

/// A level with another level over it, which marks those of its words that are all marked.
#[derive(Drop)]
pub struct StackedLevel<'a, S: Level> {
    map: LeveledMap<'a, Lsb0, S>,
}

// Makes a level say of word `w` of a map whether it is full.
fn say_word<O: BitOrder<u64>, S: Level>(map: &FreeMap<'_, O>, full: &mut S, w: usize)
    requires many { length (S.marks full.old) ≡ word_count (length (in_use map.now)) }
    requires inside { w < length (S.marks full.old) }
    ensures said { SaysOf (in_use map.now) (S.marks full.new) w }
    ensures beside { KeepsBeside w (w + 1) (S.marks full.old) (S.marks full.new) }
    ensures many { length (S.marks full.new) ≡ length (S.marks full.old) }
    ensures lent { S.loans full.new ≡ S.loans full.old }
{
    full.set_mark(w, map.is_word_full(w));
}

// Makes a level say of every word of a map whether it is full.
fn say_words<O: BitOrder<u64>, S: Level>(map: &FreeMap<'_, O>, full: &mut S, words: usize)
    requires { SummarisesBeside (in_use map.now) (S.marks full.old) 0 words }
    ensures summary { Summarises (in_use map.now) (S.marks full.new) }
    ensures lent { S.loans full.new ≡ S.loans full.old }
{
    for w in 0..words {
        say_word(map, full, w);
    }
}

// Makes a level say of the words of a map from word `from` to before word `to` whether they are
// full. All but the first and the last are, or none is, as `used` says.
fn refresh<O: BitOrder<u64>, S: Level>(
    map: &FreeMap<'_, O>,
    full: &mut S,
    from: usize,
    to: usize,
    used: bool,
)
    requires rest { SummarisesBeside (in_use map.now) (S.marks full.old) from to }
    requires inner { (w : ℕ) → from < w → w + 1 < to → (used ≡ true) ↔ IsFull (in_use map.now) w }
    ensures summary { Summarises (in_use map.now) (S.marks full.new) }
    ensures lent { S.loans full.new ≡ S.loans full.old }
{
    if to <= from {
        return;
    }
    say_word(map, full, from);
    if from + 1 < to {
        refresh_rest(map, full, from + 1, to, used);
    }
}

// The same where all but the last are full, or none is.
fn refresh_rest<O: BitOrder<u64>, S: Level>(
    map: &FreeMap<'_, O>,
    full: &mut S,
    from: usize,
    to: usize,
    used: bool,
)
    requires some { from < to }
    requires rest { SummarisesBeside (in_use map.now) (S.marks full.old) from to }
    requires inner { (w : ℕ) → from ≤ w → w + 1 < to → (used ≡ true) ↔ IsFull (in_use map.now) w }
    ensures summary { Summarises (in_use map.now) (S.marks full.new) }
    ensures lent { S.loans full.new ≡ S.loans full.old }
{
    let last = to - 1;
    say_word(map, full, last);
    if from < last {
        full.set_marks(from, last - from, used);
    }
}

impl<'a, O: BitOrder<u64>, S: Level> LeveledMap<'a, O, S> {
    ghost use Rattle.freemap.specs.Leveled.{map_of, level_loans};
    ghost use Rattle.freemap.specs.FreeRuns.{free_runs};
    ghost use Rattle.freemap.specs.RunsLeft.{free_runs_left};

    /// A map under a level, whose marks are set as the map is, whatever they were. Requires that it
    /// has a mark for each word of the map: [`words_for`] says how many are wanted.
    ///
    /// Sets each mark. [`two_levels`](crate::two_levels) makes both of the
    /// usual two from words.
    pub fn over(blocks: FreeMap<'a, O>, level: S) -> Self
        requires { length (S.marks level) ≡ word_count (length (in_use blocks)) }
        ensures map { map_of result ≡ blocks.entry }
        ensures lent { level_loans result ≡ S.loans level }
    {
        let mut full = level;
        let words = words_for(blocks.blocks());
        say_words(&blocks, &mut full, words);
        LeveledMap { blocks, full }
    }

    /// The map without its levels, for what it is asked. Constant time.
    pub fn as_map(&self) -> &FreeMap<'a, O>
        ensures { result.now ≡ map_of self.now }
    {
        &self.blocks
    }

    /// The runs of free blocks, lowest first, as [`iter_free_runs`](FreeMap::iter_free_runs) of the
    /// map gives them. Constant time.
    pub fn iter_free_runs(&self) -> FreeRuns<'_, O>
        ensures { free_runs_left result ≡ free_runs (in_use (map_of self.now)) }
    {
        self.blocks.iter_free_runs()
    }

    /// The first run of free blocks from block `from` on, as
    /// [`next_free_run`](FreeMap::next_free_run) of the map says it. The levels find its first
    /// block, and its end costs by words.
    pub fn next_free_run(&self, from: usize) -> Option<(usize, usize)>
        ensures { let used = in_use (map_of self.now)
            in MatchOption result (AllBetween true used from (length used))
            (λ run. IsNextRun used from run.0 run.1) }
    {
        let at = self.free_from(from)?;
        Some((at, self.blocks.end_of_run(at) - at))
    }

    /// The map alone, without its levels. Constant time.
    pub fn into_map(self) -> FreeMap<'a, O>
        ensures { result ≡ map_of self.entry }
    {
        self.blocks
    }

    // Makes `count` blocks from block `at` on be in use, or free.
    #[inline(always)]
    fn mark(&mut self, at: usize, count: usize, used: bool)
        requires { at + count ≤ length (in_use (map_of self.old)) }
        ensures becomes { let old = map_of self.old in BecomesBlocks old (map_of self.new)
            (with_filled (in_use old) at (at + count) used) }
        ensures lent { level_loans self.new ≡ level_loans self.old }
    {
        if count == 1 {
            self.mark_one(at, used);
        } else {
            self.mark_many(at, count, used);
        }
    }

    // The same of any number, by words.
    fn mark_many(&mut self, at: usize, count: usize, used: bool)
        requires { at + count ≤ length (in_use (map_of self.old)) }
        ensures becomes { let old = map_of self.old in BecomesBlocks old (map_of self.new)
            (with_filled (in_use old) at (at + count) used) }
        ensures lent { level_loans self.new ≡ level_loans self.old }
    {
        self.blocks.mark(at, count, used);
        let from = at / 64;
        let to = words_for(at + count);
        refresh(&self.blocks, &mut self.full, from, to, used);
    }

    // The same of one block.
    #[inline(always)]
    fn mark_one(&mut self, at: usize, used: bool)
        requires { at < length (in_use (map_of self.old)) }
        ensures becomes { let old = map_of self.old in BecomesBlocks old (map_of self.new)
            (with_filled (in_use old) at (at + 1) used) }
        ensures lent { level_loans self.new ≡ level_loans self.old }
    {
        if used {
            self.put_in_use(at / 64, at);
        } else {
            self.put_free(at);
        }
    }

    // Puts one block of word `word` in use. The level is told only where the word became full.
    #[inline(always)]
    fn put_in_use(&mut self, word: usize, at: usize)
        requires inside { at < length (in_use (map_of self.old)) }
        requires word { word ≡ at / 64 }
        ensures becomes { let old = map_of self.old in BecomesBlocks old (map_of self.new)
            (with_filled (in_use old) at (at + 1) true) }
        ensures lent { level_loans self.new ≡ level_loans self.old }
    {
        if self.blocks.put_in_use(at) {
            self.full.set_mark(word, true);
        }
    }

    // Makes one block free. The level is told only where its word was full.
    #[inline(always)]
    fn put_free(&mut self, at: usize)
        requires { at < length (in_use (map_of self.old)) }
        ensures becomes { let old = map_of self.old in BecomesBlocks old (map_of self.new)
            (with_filled (in_use old) at (at + 1) false) }
        ensures lent { level_loans self.new ≡ level_loans self.old }
    {
        let was_full = self.blocks.is_word_full(at / 64);
        self.blocks.set(at, false);
        if was_full {
            self.full.set_mark(at / 64, false);
        }
    }

    // Hands out `count` free blocks from block `at` on.
    #[inline(always)]
    fn take(&mut self, at: usize, count: usize)
        requires { AreFree (in_use (map_of self.old)) at count }
        ensures taken { let old = map_of self.old in BecomesBlocks old (map_of self.new)
            (with_filled (in_use old) at (at + count) true) }
        ensures handed { AreInUse (in_use (map_of self.new)) at count }
        ensures owned { (live : List (ℕ × ℕ)) → Owns (in_use (map_of self.old)) live
            → Owns (in_use (map_of self.new)) ((at, count) ∷ live) }
        ensures lent { level_loans self.new ≡ level_loans self.old }
    {
        self.mark(at, count, true);
    }

    // Hands out a free block of word `word`. A search knows the word before it knows the block, so
    // the levels need not wait for that.
    #[inline(always)]
    fn take_one(&mut self, word: usize, at: usize)
        requires free { AreFree (in_use (map_of self.old)) at 1 }
        requires word { word ≡ at / 64 }
        ensures taken { let old = map_of self.old in BecomesBlocks old (map_of self.new)
            (with_filled (in_use old) at (at + 1) true) }
        ensures handed { AreInUse (in_use (map_of self.new)) at 1 }
        ensures owned { (live : List (ℕ × ℕ)) → Owns (in_use (map_of self.old)) live
            → Owns (in_use (map_of self.new)) ((at, 1) ∷ live) }
        ensures lent { level_loans self.new ≡ level_loans self.old }
    {
        self.put_in_use(word, at);
    }

    // The lowest free block.
    #[inline(always)]
    fn lowest_free(&self) -> Option<usize>
        ensures { IsLowest (λ at. AreFree (in_use (map_of self.now)) at 1) result }
    {
        let word = self.full.lowest_unmarked()?;
        self.blocks.free_in_word(word)
    }

    // The lowest free block that is not before `block`.
    fn free_from(&self, block: usize) -> Option<usize>
        ensures { IsLowest (λ at. (block ≤ at) × AreFree (in_use (map_of self.now)) at 1) result }
    {
        if let Some(at) = self.blocks.free_to_word_end(block) {
            return Some(at);
        }
        let word = self.full.lowest_unmarked_from(block / 64 + 1)?;
        self.blocks.free_in_word(word)
    }

    /// Hands out the lowest block that is free, and returns it; `None` exactly where none is, and
    /// then the map stays as it is. Looks through the words of the uppermost level up to the one
    /// that says where, and into one word of each other level.
    pub fn alloc(&mut self) -> Option<usize>
        ensures answer { IsLowest (λ at. AreFree (in_use (map_of self.old)) at 1) result }
        ensures taken { Allocates (map_of self.old) (map_of self.new) 1 result }
        ensures handed { IfSome result (λ at. AreInUse (in_use (map_of self.new)) at 1) }
        ensures owned { OwnsMore (in_use (map_of self.old)) (in_use (map_of self.new)) 1 result }
        ensures refused { IfNone result (self.new ≡ self.old) }
        ensures lent { level_loans self.new ≡ level_loans self.old }
    {
        let word = self.full.lowest_unmarked()?;
        let at = self.blocks.free_in_word(word)?;
        self.take_one(word, at);
        Some(at)
    }

    /// Hands out the lowest free block that is not before `block`, and returns it; `None` exactly
    /// where none is, and then the map stays as it is. Looks into the rest of a word of each level,
    /// and through the words of the uppermost up to the one that says where.
    pub fn alloc_at_or_after(&mut self, block: usize) -> Option<usize>
        ensures answer { let used = in_use (map_of self.old)
            in IsLowest (λ at. (block ≤ at) × AreFree used at 1) result }
        ensures taken { Allocates (map_of self.old) (map_of self.new) 1 result }
        ensures handed { IfSome result (λ at. AreInUse (in_use (map_of self.new)) at 1) }
        ensures owned { OwnsMore (in_use (map_of self.old)) (in_use (map_of self.new)) 1 result }
        ensures refused { IfNone result (self.new ≡ self.old) }
        ensures lent { level_loans self.new ≡ level_loans self.old }
    {
        let at = self.free_from(block)?;
        self.take(at, 1);
        Some(at)
    }

    /// Hands out `count` blocks in a row, the first such that are all free, and returns the first
    /// of them. It returns `None` exactly where there are none, and then the map stays as it is. No
    /// blocks at all are found at block 0.
    ///
    /// The levels pass full words wherever they are. From a free block on, 16384 blocks, or twice
    /// `count` where that is more, are looked through as [`alloc_run`](FreeMap::alloc_run) of the
    /// map does. Then the levels say where the next free block is.
    pub fn alloc_run(&mut self, count: usize) -> Option<usize>
        ensures answer { IsLowest (λ at. AreFree (in_use (map_of self.old)) at count) result }
        ensures taken { Allocates (map_of self.old) (map_of self.new) count result }
        ensures handed { IfSome result (λ at. AreInUse (in_use (map_of self.new)) at count) }
        ensures owned { OwnsMore (in_use (map_of self.old)) (in_use (map_of self.new)) count
            result }
        ensures refused { IfNone result (self.new ≡ self.old) }
        ensures lent { level_loans self.new ≡ level_loans self.old }
    {
        let at = self.first_run(count)?;
        self.take(at, count);
        Some(at)
    }

    /// Hands out `count` blocks in a row, the first such that are all free and begin at a multiple
    /// of `alignment`, and returns the first of them. It returns `None` exactly where there are
    /// none, and then the map stays as it is. Requires that `alignment` is not 0.
    ///
    /// The levels pass full words as in [`alloc_run`](LeveledMap::alloc_run); what is looked
    /// through costs as [`alloc_run_aligned`](FreeMap::alloc_run_aligned) of the map does.
    pub fn alloc_run_aligned(&mut self, count: usize, alignment: usize) -> Option<usize>
        requires { 0 < alignment }
        ensures answer { IsLowest (AreFreeFrom (in_use (map_of self.old)) 0 count alignment)
            result }
        ensures taken { Allocates (map_of self.old) (map_of self.new) count result }
        ensures handed { IfSome result (λ at. AreInUse (in_use (map_of self.new)) at count) }
        ensures owned { OwnsMore (in_use (map_of self.old)) (in_use (map_of self.new)) count
            result }
        ensures refused { IfNone result (self.new ≡ self.old) }
        ensures lent { level_loans self.new ≡ level_loans self.old }
    {
        let at = self.lowest_run(count, alignment)?;
        self.take(at, count);
        Some(at)
    }

    /// Puts `count` blocks from block `at` on in use, and returns whether it did. It refuses
    /// exactly where one of them is in use or is not there, or `at` itself is past the map's end.
    /// Then the map stays as it is. Costs by words.
    pub fn reserve(&mut self, at: usize, count: usize) -> bool
        ensures answer { IsTrue result ↔ AreFree (in_use (map_of self.old)) at count }
        ensures taken { IsTrue result → BecomesBlocks (map_of self.old) (map_of self.new)
            (with_filled (in_use (map_of self.old)) at (at + count) true) }
        ensures handed { IsTrue result → AreInUse (in_use (map_of self.new)) at count }
        ensures owned { IsTrue result → (live : List (ℕ × ℕ))
            → Owns (in_use (map_of self.old)) live
            → Owns (in_use (map_of self.new)) ((at, count) ∷ live) }
        ensures refused { IsFalse result → self.new ≡ self.old }
        ensures lent { level_loans self.new ≡ level_loans self.old }
    {
        if !self.blocks.is_free(at, count) {
            return false;
        }
        self.take(at, count);
        true
    }

    /// Takes `count` blocks back, from block `at` on, and leaves every other block as it is. Costs
    /// by words.
    ///
    /// Requires that there are such blocks and that each is in use, so none is taken back twice:
    /// [`is_in_use`](FreeMap::is_in_use) of [`as_map`](LeveledMap::as_map) is the test. Where they
    /// are a live range, the other ranges stay live, and hold what is in use.
    #[inline(always)]
    pub fn free(&mut self, at: usize, count: usize)
        requires { AreInUse (in_use (map_of self.old)) at count }
        ensures freed { let old = map_of self.old in BecomesBlocks old (map_of self.new)
            (with_filled (in_use old) at (at + count) false) }
        ensures back { AreFree (in_use (map_of self.new)) at count }
        ensures owned { (before later : List (ℕ × ℕ))
            → Owns (in_use (map_of self.old)) (before ++ (at, count) ∷ later)
            → Owns (in_use (map_of self.new)) (before ++ later) }
        ensures lent { level_loans self.new ≡ level_loans self.old }
    {
        self.mark(at, count, false);
    }

    // The first `count` blocks in a row that are all free.
    fn first_run(&self, count: usize) -> Option<usize>
        ensures { IsLowest (λ at. AreFree (in_use (map_of self.now)) at count) result }
    {
        self.lowest_run(count, 1)
    }

    // The first `count` blocks in a row that are all free and begin at a multiple of `alignment`.
    fn lowest_run(&self, count: usize, alignment: usize) -> Option<usize>
        requires { 0 < alignment }
        ensures { IsLowest (AreFreeFrom (in_use (map_of self.now)) 0 count alignment) result }
    {
        if count == 0 {
            return Some(0);
        }
        self.run_by_levels(count, alignment)
    }

    // The same of some blocks. Wherever words are full, the levels say where the next free block
    // is, but for a stretch of words that is looked through at once.
    fn run_by_levels(&self, count: usize, alignment: usize) -> Option<usize>
        requires some { 0 < count }
        requires alignment { 0 < alignment }
        ensures { IsLowest (AreFreeFrom (in_use (map_of self.now)) 0 count alignment) result }
    {
        let mut first = self.lowest_free()?;
        while let Some(end) = self.end_of_stretch(first, count) {
            if let Some(at) = self.blocks.run_upto(end, first, count, alignment) {
                return Some(at);
            }
            first = self.free_from(end + 1 - count)?;
        }
        self.blocks.run_from(first, count, alignment)
    }

    // Where to ask the levels again in a search for `count` blocks from block `first` on; `None`
    // where what is left is short.
    fn end_of_stretch(&self, first: usize, count: usize) -> Option<usize>
        ensures { IfSome result (λ end. (first + count ≤ end)
            × (end ≤ length (in_use (map_of self.now)))) }
    {
        let room = self.blocks.blocks().checked_sub(first)?;
        let long = STRETCH.max(count.saturating_mul(2));
        if room <= long {
            return None;
        }
        Some(first + long)
    }
}

impl<'a, S: Level> StackedLevel<'a, S> {
    ghost use Rattle.freemap.specs.Leveled.{plain_marks, plain_loan, marks_of, stacked_loans};

    /// A level under another level, whose marks are set as its own are, whatever they were.
    /// Requires that it has a mark for each word of these, as [`LeveledMap::over`] does.
    ///
    /// Both lend the words that they lent, and no bit of them changes that is no mark of the upper.
    pub fn over(marks: PlainLevel<'a>, level: S) -> Self
        requires { length (S.marks level) ≡ word_count (length (plain_marks marks)) }
        ensures marks { marks_of result ≡ plain_marks marks.entry }
        ensures lent { stacked_loans result ≡ plain_loan marks.entry ∷ S.loans level }
    {
        StackedLevel {
            map: LeveledMap::over(marks.map, level),
        }
    }
}

impl<'a, S: Level> Level for StackedLevel<'a, S> {
    ghost use Rattle.freemap.specs.Leveled.{marks_of, stacked_loans};

    ghost marks = { λ level. marks_of level };

    ghost loans = { λ level. stacked_loans level };

    #[inline(always)]
    fn set_mark(&mut self, word: usize, marked: bool) {
        self.map.mark_one(word, marked);
    }

    fn set_marks(&mut self, word: usize, count: usize, marked: bool) {
        self.map.mark(word, count, marked);
    }

    #[inline(always)]
    fn lowest_unmarked(&self) -> Option<usize> {
        self.map.lowest_free()
    }

    fn lowest_unmarked_from(&self, from: usize) -> Option<usize> {
        self.map.free_from(from)
    }
}
