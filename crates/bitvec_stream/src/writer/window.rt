//! A word of the bits that a writer writes into, kept so that it need not be read again, and
//! turned round so that the next bit is its highest digit. It is put into the memory at each write,
//! so what was written stands there behind each call.

ghost use Rattle.std.specs.Prelude.{◌≡◌, ℕ, ◌+◌, ◌-◌, ◌*◌, ◌^◌, ◌<◌, ◌≤◌, IsTrue, length};
ghost use Rattle.bitvec.specs.Digit.{digit};
ghost use Rattle.bitvec.specs.Order.{Falls};
ghost use Rattle.bitvec_slice.specs.Words.{HasWord};
ghost use Rattle.bitvec_stream.specs.Numbers.{digits_be};

use crate::number::lowest;
use crate::writer::{BitWriter, memory};
use bitvec::mem;
use bitvec::mem::BitRegister;
use bitvec::order::{BitOrder, Direction, direction_of};
use bitvec_slice::field::low_digits;

// A word turned `count` places up: its highest digits become its lowest.
#[inline(always)]
fn turned<R: BitRegister>(word: R, count: usize) -> R
    requires { count < R.BITS }
    ensures up { (p : ℕ) → count + p < R.BITS
        → digit (R.number result) (count + p) ≡ digit (R.number word) p }
    ensures round { (p : ℕ) → p < count
        → digit (R.number result) p ≡ digit (R.number word) (R.BITS - count + p) }
{
    let up = count as u8 % R::BITS;
    let down = (R::BITS - up) % R::BITS;
    word.shl(up).or(word.shr(down))
}

// A word moved `count` places up, with the digits of a number in the places that are free then.
#[inline(always)]
fn pushed<R: BitRegister, N: BitRegister>(word: R, count: usize, digits: N) -> R
    requires some { 0 < count }
    requires within { count ≤ R.BITS }
    requires small { N.number digits < 2 ^ count }
    ensures new { (p : ℕ) → p < count → digit (R.number result) p ≡ digit (N.number digits) p }
    ensures old { (p : ℕ) → count + p < R.BITS
        → digit (R.number result) (count + p) ≡ digit (R.number word) p }
{
    let moved = word.shl((count - 1) as u8).shl(1);
    moved.or(low_digits::<R, N>(digits))
}

impl<'a, R: BitRegister, O: BitOrder<R>> BitWriter<'a, R, O> {
    ghost use Rattle.bitvec_stream.specs.Writer.{target_memory, target_span, bits_written, room};
    ghost use Rattle.bitvec_stream.specs.Writer.{Writes};

    // Writes a number of `count` digits, the highest first, into the word that is known.
    #[inline(always)]
    pub(super) fn put_kept<N: BitRegister>(&mut self, count: usize, digits: N)
        requires some { 0 < count }
        requires kept { count ≤ self.old.kept }
        requires small { N.number digits < 2 ^ count }
        ensures writes { Writes self.old self.new (digits_be count (N.number digits)) }
        ensures end { self.new.end ≡ self.old.end }
        ensures word { self.new.word ≡ self.old.word }
        ensures left { self.new.kept ≡ self.old.kept - count }
    {
        let left = self.kept - count;
        let known = low_digits::<R, u128>(self.window);
        let window = pushed(known, count, digits);
        self.kept = 0;
        memory::put_word(self.span, self.memory, self.word, turned(window, left));
        self.window = window.to_u128();
        self.kept = left;
    }

    // Knows a word that the slice has whole, in which the next bit is number `passed`.
    #[inline(always)]
    fn know(&mut self, word: usize, passed: usize)
        requires falls { Falls R.BITS O.at_of }
        requires whole { HasWord R.BITS (target_span self.old) word }
        requires inner { passed < R.BITS }
        requires place { (target_span self.old).head + bits_written self.old
            ≡ word * R.BITS + passed }
        ensures memory { target_memory self.new ≡ target_memory self.old }
        ensures span { target_span self.new ≡ target_span self.old }
        ensures position { bits_written self.new ≡ bits_written self.old }
        ensures kept { self.new.kept ≡ R.BITS - passed }
    {
        let kept = mem::bits_of::<R>() - passed;
        let position = self.position();
        self.window = turned(self.slice().whole_word(word), passed).to_u128();
        self.word = word;
        self.end = position + kept;
        self.kept = kept;
    }

    // Whether a number of `count` digits ends in the word behind the one that is known, and the
    // slice has that word whole.
    #[inline(always)]
    pub(super) fn is_across(&self, count: usize) -> bool
        ensures { IsTrue result → (0 < self.now.kept) × (self.now.kept < count)
            × (count ≤ self.now.kept + R.BITS)
            × (self.now.end + R.BITS ≤ (target_span self.now).len) }
    {
        let width = mem::bits_of::<R>();
        let is_next = 0 < self.kept && self.kept < count && count - self.kept <= width;
        is_next && width <= self.span.len() - self.end
    }

    // Writes a number of `count` digits, the highest of them first. The word that is known takes
    // those that it has places for, the next one takes the others.
    #[inline(always)]
    pub(super) fn put_across<N: BitRegister>(&mut self, count: usize, digits: N)
        requires some { 0 < self.old.kept }
        requires more { self.old.kept < count }
        requires near { count ≤ self.old.kept + R.BITS }
        requires few { count ≤ N.BITS }
        requires small { N.number digits < 2 ^ count }
        requires room { self.old.end + R.BITS ≤ (target_span self.old).len }
        ensures { Writes self.old self.new (digits_be count (N.number digits)) }
    {
        let rest = count - self.kept;
        self.put_kept(self.kept, digits.shr(rest as u8));
        self.know(self.word + 1, 0);
        self.put_kept(rest, lowest(rest, digits));
    }

    // Knows the word in which the next bit lies, where the slice has it whole.
    #[inline(always)]
    fn keep_word(&mut self)
        requires { Falls R.BITS O.at_of }
        ensures memory { target_memory self.new ≡ target_memory self.old }
        ensures span { target_span self.new ≡ target_span self.old }
        ensures position { bits_written self.new ≡ bits_written self.old }
    {
        let width = mem::bits_of::<R>();
        let position = self.position();
        let slice = self.slice();
        let place = slice.head() + position;
        let word = place / width;
        if slice.has_word(word) {
            self.know(word, place % width);
        }
    }

    // The same where positions fall.
    #[inline(always)]
    fn keep(&mut self)
        ensures memory { target_memory self.new ≡ target_memory self.old }
        ensures span { target_span self.new ≡ target_span self.old }
        ensures position { bits_written self.new ≡ bits_written self.old }
    {
        match direction_of::<R, O>() {
            Direction::Falls => self.keep_word(),
            Direction::Rises | Direction::Other => {}
        }
    }

    // Writes the `count` lowest digits of a number, the highest of them first, wherever they lie.
    // There is room for them.
    #[inline(always)]
    fn put_far<N: BitRegister>(&mut self, count: usize, digits: N)
        requires few { count ≤ N.BITS }
        requires inside { count ≤ length (room self.old) }
        ensures { Writes self.old self.new (digits_be count (N.number digits)) }
    {
        let position = self.position();
        self.kept = 0;
        memory::store_be(self.span, self.memory, position, count, digits);
        self.end = position + count;
    }

    // The same, but where the word in which the next bit lies can be known and has places for all
    // of them, they go into that word.
    #[inline(always)]
    pub(super) fn put_past<N: BitRegister>(&mut self, count: usize, digits: N)
        requires few { count ≤ N.BITS }
        requires inside { count ≤ length (room self.old) }
        ensures { Writes self.old self.new (digits_be count (N.number digits)) }
    {
        self.keep();
        if 0 < count && count <= self.kept {
            self.put_kept(count, lowest(count, digits));
        } else {
            self.put_far(count, digits);
        }
    }
}
