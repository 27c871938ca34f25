//! The first run of `count` zeros in a slice.
//!
//! Where positions rise or fall with the index, whole words are asked for it: the runs in a word,
//! and the one that comes from the word before it. Else the last one among `count` bits is looked
//! for.

ghost use Rattle.std.specs.Prelude.{◌≡◌, ℕ, ◌+◌, ◌-◌, ◌*◌, ◌^◌, ◌<◌, ◌≤◌, true, false, MatchOption};
ghost use Rattle.bitvec.specs.Digit.{digit};
ghost use Rattle.bitvec.specs.Pairs.{IsFirstBelow};
ghost use Rattle.bitvec.specs.Place.{words_met};
ghost use Rattle.bitvec_slice.specs.FreeRuns.{digit_of, behind, AreStarts, FindsFirstRun};
ghost use Rattle.bitvec_slice.specs.FreeRuns.{IsLastBelow};

use crate::slice::BitSlice;
use bitvec::mem;
use bitvec::mem::BitRegister;
use bitvec::order::{BitOrder, Direction, direction_of};

// The least index of a digit that is one.
#[inline(always)]
fn first_digit<R: BitRegister>(word: R, rises: bool) -> Option<u8>
    ensures { let test = digit_of R.BITS rises (R.number word)
        in MatchOption result ((i : ℕ) → test i ≡ false) (IsFirstBelow test R.BITS) }
{
    if rises {
        return mem::lowest_one(word);
    }
    match mem::highest_one(word) {
        Some(position) => Some(R::MASK - position),
        None => None,
    }
}

// The greatest index of a digit that is one.
#[inline(always)]
fn last_digit<R: BitRegister>(word: R, rises: bool) -> Option<u8>
    ensures { IsLastBelow (digit_of R.BITS rises (R.number word)) R.BITS result }
{
    if rises {
        return mem::highest_one(word);
    }
    match mem::lowest_one(word) {
        Some(position) => Some(R::MASK - position),
        None => None,
    }
}

// How many digits of a word are one from the least index on.
#[inline(always)]
fn low_run<R: BitRegister>(word: R, rises: bool) -> u8
    ensures most { result ≤ R.BITS }
    ensures ones { (j : ℕ) → j < result → digit_of R.BITS rises (R.number word) j ≡ true }
    ensures stop { digit_of R.BITS rises (R.number word) result ≡ false }
{
    match first_digit(word.not(), rises) {
        Some(i) => i,
        None => R::BITS,
    }
}

// How many digits of a word are one up to the greatest index.
#[inline(always)]
fn high_run<R: BitRegister>(word: R, rises: bool) -> u8
    ensures most { result ≤ R.BITS }
    ensures ones { (j : ℕ) → R.BITS ≤ j + result → j < R.BITS
        → digit_of R.BITS rises (R.number word) j ≡ true }
    ensures stop { (j : ℕ) → j + result + 1 ≡ R.BITS
        → digit_of R.BITS rises (R.number word) j ≡ false }
{
    match last_digit(word.not(), rises) {
        Some(i) => R::MASK - i,
        None => R::BITS,
    }
}

// A word whose digit of each index is that of the index `n` further on.
#[inline(always)]
fn brought_back<R: BitRegister>(word: R, n: u8, rises: bool) -> R
    requires { n < R.BITS }
    ensures below { R.number result < 2 ^ R.BITS }
    ensures digits { (i : ℕ) → digit_of R.BITS rises (R.number result) i
        ≡ digit_of R.BITS rises (R.number word) (n + i) }
{
    if rises { word.shr(n) } else { word.shl(n) }
}

// A word whose digit of an index is one where `count` ones of the given word begin.
#[inline(always)]
fn starts_in<R: BitRegister>(word: R, count: u8, rises: bool) -> R
    requires some { 0 < count }
    requires most { count ≤ R.BITS }
    requires below { R.number word < 2 ^ R.BITS }
    ensures { AreStarts (digit_of R.BITS rises (R.number word)) count
        (digit_of R.BITS rises (R.number result)) }
{
    let mut starts = word;
    // A one of `starts` is the first of `have` zeros.
    let mut have: u8 = 1;
    while have < count - have {
        starts = starts.and(brought_back(starts, have, rises));
        have += have;
        if starts.to_u128() == 0 {
            return starts;
        }
    }
    starts.and(brought_back(starts, count - have, rises))
}

// Where `count` ones first begin, of a word's digits and `before` ones before them: the number of
// the first of them, counted from the first of those.
#[inline(always)]
fn first_run<R: BitRegister>(word: R, before: u8, count: u8, rises: bool) -> Option<u8>
    requires before { before < count }
    requires most { count ≤ R.BITS }
    requires below { R.number word < 2 ^ R.BITS }
    ensures { FindsFirstRun (behind before (digit_of R.BITS rises (R.number word))) count (R.BITS +
        before) result }
{
    if before + low_run(word, rises) >= count {
        return Some(0);
    }
    match first_digit(starts_in(word, count, rises), rises) {
        Some(i) => Some(before + i),
        None => None,
    }
}

impl<'a, R: BitRegister, O: BitOrder<R>> BitSlice<'a, R, O> {
    ghost use Rattle.bitvec_slice.specs.BitSlice.{slice_span, slice_bits};
    ghost use Rattle.bitvec_slice.specs.Bits.{IsFirstFree};
    ghost use Rattle.bitvec_slice.specs.Field.{IsSequential};
    ghost use Rattle.bitvec_slice.specs.FreeRuns.{is_free};

    // The word whose ones are the zeros of the slice in its word `k`.
    #[inline(always)]
    fn zeros_in_word(&self, k: usize, met: usize) -> R
        requires met { met ≡ words_met R.BITS (slice_span self.now).head (slice_span self.now).len }
        requires inside { k < met }
        ensures below { R.number result < 2 ^ R.BITS }
        ensures digits { (i : ℕ) → i < R.BITS → digit (R.number result) (O.at_of i)
            ≡ is_free (slice_span self.now).head (slice_bits self.now) (k * R.BITS + i) }
    {
        if k == 0 || k + 1 == met {
            let part = self.span.part(self.memory, k);
            return part.load_value().not().and(part.mask().into_inner());
        }
        let first = self.span.address() as usize;
        self.memory[first + k].not()
    }

    // The answer of `find_zeros`, from word to word, for a run that a word has room for and an
    // order whose positions rise or fall.
    #[inline(always)]
    fn find_zeros_by_words(&self, count: u8, rises: bool) -> Option<usize>
        requires some { 0 < count }
        requires most { count ≤ R.BITS }
        requires order { IsSequential R.BITS rises O.at_of }
        ensures { IsFirstFree (slice_bits self.now) count result }
    {
        let head = usize::from(self.span.head().into_inner());
        let width = mem::bits_of::<R>();
        let met = self.span.elements();
        // How many zeros end where the word begins.
        let mut before: u8 = 0;
        for k in 0..met {
            let zeros = self.zeros_in_word(k, met);
            match first_run(zeros, before, count, rises) {
                Some(s) => {
                    let start = k * width + usize::from(s) - usize::from(before);
                    return Some(start - head);
                }
                None => before = high_run(zeros, rises),
            }
        }
        None
    }

    // The answer of `find_zeros`, for any run and order.
    fn find_zeros_by_last(&self, count: usize) -> Option<usize>
        ensures { IsFirstFree (slice_bits self.now) count result }
    {
        let len = self.len();
        let mut start = 0;
        while count <= len - start {
            // A one rules out each start from which it is met, so the last one is looked for.
            match self.last_between(start, start + count, true) {
                Some(one) => start = one + 1,
                None => return Some(start),
            }
        }
        None
    }

    /// The first index from which on `count` bits are there and zero, and `None` where there is no
    /// such index. For a `count` of 0 it is 0. Not in the Rust crate.
    ///
    /// By words, where positions rise or fall with the index and the run is no longer than a word.
    /// Else by bits, and whole words without a one are passed at once.
    pub fn find_zeros(&self, count: usize) -> Option<usize>
        ensures { IsFirstFree (slice_bits self.now) count result }
    {
        if 0 < count && count <= mem::bits_of::<R>() {
            match direction_of::<R, O>() {
                Direction::Rises => return self.find_zeros_by_words(count as u8, true),
                Direction::Falls => return self.find_zeros_by_words(count as u8, false),
                Direction::Other => {}
            }
        }
        self.find_zeros_by_last(count)
    }
}
