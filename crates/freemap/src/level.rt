//! A level over a map: a mark for each word of the map.

ghost use Rattle.std.specs.Prelude.{◌≡◌, ℕ, ◌+◌, ◌<◌, ◌≤◌, Bool, false, List, ◌∷◌, [], length};
ghost use Rattle.std.specs.Prelude.{replicate};
ghost use Rattle.bitvec.specs.Span.{with_filled};
ghost use Rattle.bitvec_slice.specs.Bits.{AreFree};
ghost use Rattle.freemap.specs.Blocks.{HasRoom, IsLowest};
ghost use Rattle.freemap.specs.Loans.{LevelLoan, loan_of};

use crate::map::FreeMap;
use bitvec::order::Lsb0;

/// A level over a map: a mark for each word of the map, where the least one that is not marked is
/// found. A [`LeveledMap`](crate::LeveledMap) marks the words that have no free block.
///
/// A [`PlainLevel`] is a level, in words that are lent. So is a
/// [`StackedLevel`](crate::StackedLevel), which has a level over it. A [`FreeMap`] is none: its
/// blocks change by its own calls alone. Not in the Rust crate.
pub trait Level: Drop {
    // Whether each word is marked, in order.
    ghost marks: { Self → List Bool };

    // The words that it lends, and those of each level over it: the loan, and what is no mark.
    ghost loans: { Self → List LevelLoan };

    /// Marks a word, or takes its mark away. Requires that the level has the word. Constant time,
    /// and for a level with another over it a step for each level above.
    fn set_mark(&mut self, word: usize, marked: bool)
        requires { word < length (marks self.old) }
        ensures marked { marks self.new ≡ with_filled (marks self.old) word (word + 1) marked }
        ensures lent { loans self.new ≡ loans self.old };

    /// The same of `count` words from one on. Costs by words of 64 marks.
    fn set_marks(&mut self, word: usize, count: usize, marked: bool)
        requires { word + count ≤ length (marks self.old) }
        ensures marked { marks self.new
            ≡ with_filled (marks self.old) word (word + count) marked }
        ensures lent { loans self.new ≡ loans self.old };

    /// The lowest word that is not marked; `None` exactly where each is. Costs by words of 64
    /// marks, and for a level with another over it a step for each level above.
    fn lowest_unmarked(&self) -> Option<usize>
        ensures { IsLowest (λ word. AreFree (marks self.now) word 1) result };

    /// The lowest word that is not marked and not before `from`; `None` exactly where each is.
    fn lowest_unmarked_from(&self, from: usize) -> Option<usize>
        ensures { IsLowest (λ word. (from ≤ word) × AreFree (marks self.now) word 1) result };
}

/// A level with none over it, in words that are lent: a bit for each mark, from the first word on.
///
/// No [`FreeMap`] becomes one, and none is had from it: that a mark is taken away gives no block
/// back. Not in the Rust crate.
#[derive(Drop)]
pub struct PlainLevel<'a> {
    pub(crate) map: FreeMap<'a, Lsb0>,
}

impl<'a> PlainLevel<'a> {
    ghost use Rattle.freemap.specs.Leveled.{plain_marks, plain_loan};

    /// A level of `count` marks, none of which is set. Requires that the words have room for a bit
    /// each: [`has_room`](crate::map::has_room) is the test. Costs by words.
    ///
    /// The words are lent until the level is used for the last time, and every bit behind those of
    /// the marks stays as it is.
    pub fn new_unchecked(words: &'a mut [u64], count: usize) -> Self
        requires { HasRoom (length words.old) count }
        ensures unmarked { plain_marks result ≡ replicate count false }
        ensures lent { plain_loan result ≡ loan_of (λ i. i) count words.entry }
    {
        PlainLevel {
            map: FreeMap::new_unchecked(words, count),
        }
    }
}

impl<'a> Level for PlainLevel<'a> {
    ghost use Rattle.freemap.specs.Leveled.{plain_marks, plain_loan};

    ghost marks = { λ level. plain_marks level };

    ghost loans = { λ level. plain_loan level ∷ [] };

    #[inline(always)]
    fn set_mark(&mut self, word: usize, marked: bool) {
        self.map.set(word, marked);
    }

    fn set_marks(&mut self, word: usize, count: usize, marked: bool) {
        self.map.mark(word, count, marked);
    }

    #[inline(always)]
    fn lowest_unmarked(&self) -> Option<usize> {
        self.map.lowest_free()
    }

    fn lowest_unmarked_from(&self, from: usize) -> Option<usize> {
        self.map.free_from(from)
    }
}
