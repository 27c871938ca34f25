//! What is still to come of a slice's ones, or of its zeros, from the front.

ghost use Rattle.std.specs.Prelude.{◌≡◌, ℕ, ◌+◌, ◌*◌, ◌^◌, ◌<◌, ◌≤◌, min, not, MatchOption};
ghost use Rattle.bitvec.specs.Digit.{digit, exclusive_or};
ghost use Rattle.bitvec.specs.WordEnds.{IsFirstIndex};
ghost use Rattle.bitvec_slice.specs.BitSlice.{slice_span, slice_len, slice_bits};
ghost use Rattle.bitvec_slice.specs.Bits.{AllBetween, IsLastBetween, FindsBetween};
ghost use Rattle.bitvec_slice.specs.Field.{stretch_end};
ghost use Rattle.bitvec_slice.specs.Chosen.{IsChosen, FindsStart};

use crate::slice::BitSlice;
use bitvec::index::BitIdx;
use bitvec::mem;
use bitvec::mem::BitRegister;
use bitvec::order::{BitOrder, Direction, direction_of, first_index};

// The digits of a word, with the one at an index turned over.
#[inline(always)]
fn turned<R: BitRegister, O: BitOrder<R>>(word: R, index: u8) -> R
    requires { index < R.BITS }
    ensures { (p : ℕ) → p < R.BITS → digit (R.number result) p
        ≡ exclusive_or (digit (R.number word) p) (digit (2 ^ O.at_of index) p) }
{
    word.xor(BitIdx::<R>::new_unchecked(index).select::<O>().into_inner())
}

// The digits of a word, with that of its first one, which is at an index, turned over.
#[inline(always)]
fn turned_at<R: BitRegister, O: BitOrder<R>>(word: R, index: u8) -> R
    requires { IsFirstIndex R.BITS O.at_of (R.number word) index }
    ensures { (p : ℕ) → p < R.BITS → digit (R.number result) p
        ≡ exclusive_or (digit (R.number word) p) (digit (2 ^ O.at_of index) p) }
{
    if let Direction::Rises = direction_of::<R, O>() {
        // The first one is the lowest, so the word need not wait for the index.
        return mem::without_lowest_one(word);
    }
    turned::<R, O>(word, index)
}

// The bits of a slice from index `next` to before index `end` that are `bit`: those of word `word`
// are the ones of `left`, and its first bit is at index `start`, counted from the first bit of word
// 0.
#[derive(Drop)]
pub(super) struct Ahead<'a, R: BitRegister, O: BitOrder<R>> {
    pub(super) slice: BitSlice<'a, R, O>,
    pub(super) bit: bool,
    pub(super) next: usize,
    pub(super) end: usize,
    word: usize,
    start: usize,
    left: R,
    pub ghost inside: { end ≤ slice_len slice },
    pub ghost starts: { start ≡ word * R.BITS },
    pub ghost ordered: { next
        ≤ min end (stretch_end R.BITS (slice_span slice).head (slice_len slice) word) },
    pub ghost chosen: { IsChosen R.BITS O.at_of (slice_span slice).head (slice_bits slice) word next
        (min end (stretch_end R.BITS (slice_span slice).head (slice_len slice) word)) bit
        (R.number left) },
}

impl<'a, R: BitRegister, O: BitOrder<R>> Ahead<'a, R, O> {
    // All bits of a slice that are `bit`.
    pub(super) fn new(whole: BitSlice<'a, R, O>, bit: bool) -> Self
        ensures slice { result.slice ≡ whole.entry }
        ensures bit { result.bit ≡ bit }
        ensures next { result.next ≡ 0 }
        ensures end { result.end ≡ slice_len whole.entry }
    {
        let end = whole.len();
        let upto = end.min(mem::bits_of::<R>() - whole.head());
        let left = if upto == 0 {
            R::ZERO
        } else {
            whole.chosen(0, 0, upto, bit)
        };
        Ahead {
            slice: whole,
            bit,
            next: 0,
            end,
            word: 0,
            start: 0,
            left,
        }
    }

    // The same once more.
    pub(super) fn copied(&self) -> Self
        ensures { result ≡ self.now }
    {
        Ahead {
            slice: self.slice,
            bit: self.bit,
            next: self.next,
            end: self.end,
            word: self.word,
            start: self.start,
            left: self.left,
        }
    }

    // The same as `found` does, of the bits behind the word at hand.
    #[inline(always)]
    fn found_later(&self) -> Option<(usize, usize, R, u8)>
        ensures { FindsStart self.now.slice self.now.bit (stretch_end R.BITS
            (slice_span self.now.slice).head (slice_len self.now.slice) self.now.word) self.now.end
            result }
    {
        let found = self.slice.chosen_later(self.word, self.end, self.bit)?;
        let (word, ones, index) = found;
        Some((word, word * mem::bits_of::<R>(), ones, index))
    }

    // The word of the first bit that is still to come: its number, where it starts, such bits of it
    // as the ones of a word, and the index of the first. `None` only where none is to come.
    #[inline(always)]
    fn found(&self) -> Option<(usize, usize, R, u8)>
        ensures { FindsStart self.now.slice self.now.bit self.now.next self.now.end result }
    {
        match first_index::<R, O>(self.left) {
            Some(index) => Some((self.word, self.start, self.left, index)),
            None => self.found_later(),
        }
    }

    // The index of the first bit that is still to come, behind which it goes.
    #[inline(always)]
    pub(super) fn step(&mut self) -> Option<usize>
        ensures slice { self.new.slice ≡ self.old.slice }
        ensures bit { self.new.bit ≡ self.old.bit }
        ensures end { self.new.end ≡ self.old.end }
        ensures first { FindsBetween self.old.bit (slice_bits self.old.slice) self.old.next
            self.old.end result }
        ensures next { MatchOption result (self.new.next ≡ self.old.next)
            (λ i. self.new.next ≡ i + 1) }
    {
        let found = self.found()?;
        let (word, start, ones, _) = found;
        // (asked for once more, where both ways to a word meet: so a program finds it in one place)
        let index = first_index::<R, O>(ones)?;
        let i = start + usize::from(index) - self.slice.head();
        self.word = word;
        self.start = start;
        self.left = turned_at::<R, O>(ones, index);
        self.next = i + 1;
        Some(i)
    }

    // What is left of the word, without the last bit that is still to come.
    #[inline(always)]
    fn left_before(&self, i: usize) -> R
        requires { IsLastBetween self.now.bit (slice_bits self.now.slice) self.now.next
            self.now.end i }
        ensures { IsChosen R.BITS O.at_of (slice_span self.now.slice).head
            (slice_bits self.now.slice) self.now.word self.now.next (min i (stretch_end R.BITS
            (slice_span self.now.slice).head (slice_len self.now.slice) self.now.word)) self.now.bit
            (R.number result) }
    {
        let width = mem::bits_of::<R>();
        let index = self.slice.head() + i - self.start;
        if index < width {
            turned::<R, O>(self.left, index as u8)
        } else {
            self.left
        }
    }

    // The index of the last bit that is still to come, before which it ends.
    #[inline(always)]
    pub(super) fn step_back(&mut self, bit: bool) -> Option<usize>
        requires { bit ≡ self.old.bit }
        ensures slice { self.new.slice ≡ self.old.slice }
        ensures bit { self.new.bit ≡ self.old.bit }
        ensures next { self.new.next ≡ self.old.next }
        ensures last { MatchOption result
            (AllBetween (not self.old.bit) (slice_bits self.old.slice) self.old.next self.old.end)
            (IsLastBetween self.old.bit (slice_bits self.old.slice) self.old.next self.old.end) }
        ensures end { MatchOption result (self.new.end ≡ self.old.end) (λ i. self.new.end ≡ i) }
    {
        let slice = self.slice;
        let i = slice.last_between(self.next, self.end, bit)?;
        self.left = self.left_before(i);
        self.end = i;
        Some(i)
    }
}
