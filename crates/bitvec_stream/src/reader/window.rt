//! The next bits of a reader, kept in a word under its order: the first is the word's first, the
//! others follow, and the word's bits behind those are zero.

ghost use Rattle.std.specs.Prelude.{◌≡◌, ⊤, ◌+◌, ◌-◌, ◌^◌, ◌<◌, ◌≤◌, MatchOption};
ghost use Rattle.std.specs.Prelude.{length};
ghost use Rattle.bitvec.specs.Order.{Falls};
ghost use Rattle.bitvec_slice.specs.BitSlice.{slice_len, slice_bits};
ghost use Rattle.bitvec_stream.specs.Golomb.{BeginsWithCode};
ghost use Rattle.bitvec_stream.specs.Reader.{source, bits_read};
ghost use Rattle.bitvec_stream.specs.Window.{IsNumberOf, RisesOrFalls, Keeps};
ghost use Rattle.bitvec_stream.specs.Window.{PassesKept, JoinsKept, IsKeptNumber, IsKeptCode};

use crate::number::lowest;
use crate::reader::BitReader;
use bitvec::mem;
use bitvec::mem::BitRegister;
use bitvec::order::{BitOrder, Direction, direction_of};
use bitvec_slice::slice::BitSlice;

// A word that keeps bits, without the first `count` of them: those behind come to their places.
#[inline(always)]
fn passed<R: BitRegister, O: BitOrder<R>>(word: R, count: usize) -> R
    requires way { RisesOrFalls R.BITS O.at_of }
    requires within { count < R.BITS }
    ensures { PassesKept R.BITS O.at_of (R.number word) count (R.number result) }
{
    if direction_of::<R, O>() == Direction::Falls {
        word.shl(count as u8)
    } else {
        word.shr(count as u8)
    }
}

// A word that keeps `kept` bits, and behind them the first bits of a whole word, up to its own end.
#[inline(always)]
fn filled_up<R: BitRegister, O: BitOrder<R>>(word: R, kept: usize, next: R) -> R
    requires way { RisesOrFalls R.BITS O.at_of }
    requires few { kept < R.BITS }
    ensures { JoinsKept R.BITS O.at_of (R.number word) kept (R.number next) (R.number result) }
{
    if direction_of::<R, O>() == Direction::Falls {
        word.or(next.shr(kept as u8))
    } else {
        word.or(next.shl(kept as u8))
    }
}

// The first `count` bits of a word that keeps them, as a number's digits.
#[inline(always)]
fn first_digits<R: BitRegister, O: BitOrder<R>>(word: R, count: usize) -> R
    requires some { 0 < count }
    requires within { count ≤ R.BITS }
    ensures small { R.number result < 2 ^ count }
    ensures number { IsKeptNumber R.BITS O.at_of (R.number word) count (R.number result) }
{
    if direction_of::<R, O>() == Direction::Falls {
        word.shr(R::BITS - count as u8)
    } else {
        lowest(count, word)
    }
}

// The same as a number of any type that has `count` digits.
#[inline(always)]
fn first_number<R: BitRegister, O: BitOrder<R>, N: BitRegister>(word: R, count: usize) -> N
    requires some { 0 < count }
    requires within { count ≤ R.BITS }
    requires fits { count ≤ N.BITS }
    ensures { IsKeptNumber R.BITS O.at_of (R.number word) count (N.number result) }
{
    N::from_u128(first_digits::<R, O>(word, count).to_u128()).unwrap()
}

// Where the code that a word begins with lies in its first `kept` digits: how long it is, and the
// number of its digits behind the zeros.
#[inline(always)]
fn code_in<R: BitRegister>(word: R, kept: usize) -> Option<(usize, R)>
    requires { kept ≤ R.BITS }
    ensures { MatchOption result ⊤ (λ it. IsKeptCode R.BITS (R.number word) kept it.0 (R.number
        it.1)) }
{
    let top = mem::highest_one(word)?;
    let zeros = usize::from(R::BITS - 1 - top);
    if kept <= 2 * zeros {
        return None;
    }
    let digits = word.shr(R::BITS - 1 - 2 * zeros as u8);
    Some((2 * zeros + 1, digits))
}

// A reader behind the first `position` bits of a slice, which keeps the bits that are left of the
// word there, where the slice has it whole.
#[cold]
#[inline(never)]
fn filled<R: BitRegister, O: BitOrder<R>>(
    slice: BitSlice<'_, R, O>,
    position: usize,
) -> BitReader<'_, R, O>
    requires way { RisesOrFalls R.BITS O.at_of }
    requires inside { position ≤ slice_len slice }
    ensures source { source result ≡ slice.entry }
    ensures position { bits_read result ≡ position }
{
    let width = mem::bits_of::<R>();
    let place = slice.head() + position;
    let (word, behind) = (place / width, place % width);
    if behind == 0 || !slice.has_word(word) {
        return BitReader::at(slice, position);
    }
    let kept = width - behind;
    BitReader {
        slice,
        loaded: position + kept,
        kept,
        window: passed::<R, O>(slice.whole_word(word), behind),
    }
}

impl<'a, R: BitRegister, O: BitOrder<R>> BitReader<'a, R, O> {
    ghost use Rattle.bitvec_stream.specs.Reader.{unread, Passes};

    // A reader behind the first `position` bits of a slice. Where positions rise or fall, it keeps
    // what is left of the word there.
    #[inline(always)]
    pub(super) fn behind(slice: BitSlice<'a, R, O>, position: usize) -> Self
        requires { position ≤ slice_len slice }
        ensures source { source result ≡ slice.entry }
        ensures position { bits_read result ≡ position }
    {
        match direction_of::<R, O>() {
            Direction::Rises | Direction::Falls => filled(slice, position),
            Direction::Other => Self::at(slice, position),
        }
    }

    // Passes over `count` of the bits that are kept.
    #[inline(always)]
    pub(super) fn pass_kept(&mut self, count: usize)
        requires way { RisesOrFalls R.BITS O.at_of }
        requires kept { count ≤ self.old.kept }
        ensures { Passes self.old self.new count }
    {
        *self = BitReader {
            slice: self.slice,
            loaded: self.loaded,
            kept: self.kept - count,
            window: passed::<R, O>(self.window, count),
        };
    }

    // The word behind the bits that are kept, where the slice has it whole.
    #[inline(always)]
    pub(super) fn chunk(&self) -> Option<R>
        ensures { MatchOption result ⊤ (λ chunk.
            (self.now.loaded + R.BITS ≤ slice_len self.now.slice)
            × Keeps R.BITS O.at_of (slice_bits self.now.slice) self.now.loaded R.BITS
            (R.number chunk)) }
    {
        let width = mem::bits_of::<R>();
        if self.slice.len() - self.loaded < width {
            return None;
        }
        let place = self.slice.head() + self.loaded;
        if place % width != 0 {
            return None;
        }
        Some(self.slice.whole_word(place / width))
    }

    // The bits that are kept, and behind them those of a chunk, up to a whole word.
    #[inline(always)]
    fn joined(&self, chunk: R) -> R
        requires way { RisesOrFalls R.BITS O.at_of }
        requires chunk { Keeps R.BITS O.at_of (slice_bits self.now.slice) self.now.loaded R.BITS
            (R.number chunk) }
        ensures { Keeps R.BITS O.at_of (slice_bits self.now.slice) (self.now.loaded - self.now.kept)
            R.BITS (R.number result) }
    {
        filled_up::<R, O>(self.window, self.kept, chunk)
    }

    // Passes over more bits than are kept, and keeps those of a chunk that are left.
    #[inline(always)]
    pub(super) fn pass_into(&mut self, chunk: R, count: usize)
        requires way { RisesOrFalls R.BITS O.at_of }
        requires more { self.old.kept < count }
        requires most { count ≤ R.BITS }
        requires room { self.old.loaded + R.BITS ≤ slice_len self.old.slice }
        requires chunk { Keeps R.BITS O.at_of (slice_bits self.old.slice) self.old.loaded R.BITS
            (R.number chunk) }
        ensures { Passes self.old self.new count }
    {
        let width = mem::bits_of::<R>();
        let missing = count - self.kept;
        *self = BitReader {
            slice: self.slice,
            loaded: self.loaded + width,
            kept: width - missing,
            window: passed::<R, O>(passed::<R, O>(chunk, missing - 1), 1),
        };
    }

    // Reads the number of the next `count` bits, the way that positions go, where they are kept, or
    // the last of them is in the word behind those that are. Else nothing is read.
    #[inline(always)]
    pub(super) fn read_near<N: BitRegister>(&mut self, count: usize) -> Option<N>
        requires way { RisesOrFalls R.BITS O.at_of }
        requires few { count ≤ N.BITS }
        ensures { MatchOption result (self.new ≡ self.old) (λ value.
            (count ≤ length (unread self.old))
            × IsNumberOf R.BITS O.at_of (unread self.old) count (N.number value)
            × Passes self.old self.new count) }
    {
        if 0 < count && count <= self.kept {
            let value = first_number::<R, O, N>(self.window, count);
            self.pass_kept(count);
            return Some(value);
        }
        if count <= self.kept || mem::bits_of::<R>() < count {
            return None;
        }
        let chunk = self.chunk()?;
        let value = first_number::<R, O, N>(self.joined(chunk), count);
        self.pass_into(chunk, count);
        Some(value)
    }

    // Where the code that the bits that are left begin with lies in those that are kept, and their
    // positions fall: how long it is, and the number of its digits behind the zeros.
    #[inline(always)]
    pub(super) fn kept_code(&self) -> Option<(usize, R)>
        ensures { MatchOption result ⊤ (λ it. Falls R.BITS O.at_of × (it.0 ≤ self.now.kept)
            × BeginsWithCode (unread self.now) (R.number it.1) it.0) }
    {
        match direction_of::<R, O>() {
            Direction::Falls => code_in(self.window, self.kept),
            Direction::Rises | Direction::Other => None,
        }
    }

    // The same where it ends in a chunk behind them.
    #[inline(always)]
    pub(super) fn joined_code(&self, chunk: R) -> Option<(usize, R)>
        requires room { self.now.loaded + R.BITS ≤ slice_len self.now.slice }
        requires chunk { Keeps R.BITS O.at_of (slice_bits self.now.slice) self.now.loaded R.BITS
            (R.number chunk) }
        ensures { MatchOption result ⊤ (λ it. Falls R.BITS O.at_of
            × (self.now.kept < it.0) × (it.0 ≤ R.BITS)
            × BeginsWithCode (unread self.now) (R.number it.1) it.0) }
    {
        if direction_of::<R, O>() != Direction::Falls {
            return None;
        }
        let (count, digits) = code_in(self.joined(chunk), mem::bits_of::<R>())?;
        if self.kept < count {
            Some((count, digits))
        } else {
            None
        }
    }
}
