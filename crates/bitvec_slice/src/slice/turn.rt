//! The bits of a span in the opposite order, a word at a time.

ghost use Rattle.std.specs.Prelude.{◌≡◌, ℕ, ◌+◌, ◌-◌, ◌<◌, true, false};
ghost use Rattle.std.specs.Prelude.{if◌then◌else◌, length, map, reverse};
ghost use Rattle.bitvec.specs.Digit.{digit};
ghost use Rattle.bitvec.specs.Place.{words_met};
ghost use Rattle.bitvec.specs.BitSpan.{span_of, list_by, Becomes};
ghost use Rattle.bitvec.specs.Span.{Fits};
ghost use Rattle.bitvec_slice.specs.Turns.{Mirrors, TurnsWords, PutsBack};

use bitvec::index::BitIdx;
use bitvec::mem::BitRegister;
use bitvec::order::BitOrder;
use bitvec::ptr::single::BitPtr;
use bitvec::ptr::span::BitSpan;

// The digits of a word, where each two neighbours among its stretches of `by` digits are exchanged:
// the mask has those digits that come from a stretch above.
#[inline(always)]
fn exchanged<R: BitRegister>(word: R, mask: R, by: u8) -> R
    requires { by < R.BITS }
    ensures above { (p : ℕ) → by + p < R.BITS → digit (R.number mask) p ≡ true
        → digit (R.number result) p ≡ digit (R.number word) (by + p) }
    ensures below { (p : ℕ) → by + p < R.BITS → digit (R.number mask) (by + p) ≡ false
        → digit (R.number result) (by + p) ≡ digit (R.number word) p }
{
    word.shr(by).and(mask).or(word.shl(by).and(mask.not()))
}

// The digits of a word in the opposite order.
#[inline(always)]
fn turned<R: BitRegister>(word: R) -> R
    ensures { (p : ℕ) → p < R.BITS → digit (R.number result) p
        ≡ digit (R.number word) (R.BITS - 1 - p) }
{
    let mut value = word;
    let mut mask = R::ALL;
    let mut width = R::BITS;
    while width > 1 {
        let by = width / 2;
        mask = mask.xor(mask.shl(by));
        value = exchanged(value, mask, by);
        width = by;
    }
    value
}

// Puts some words of a memory in the opposite order, and the digits of each.
fn turn_words<R: BitRegister>(words: &mut [R])
    ensures { TurnsWords R.BITS (map R.number words.old) (map R.number words.new) }
{
    words.reverse();
    for word in words.iter_mut() {
        *word = turned(*word);
    }
}

// The digits of a word that are in a mask, and elsewhere those of another.
#[inline(always)]
fn merged<R: BitRegister>(word: R, mask: R, other: R) -> R
    ensures { (p : ℕ) → p < R.BITS → digit (R.number result) p
        ≡ (if digit (R.number mask) p then digit (R.number word) p else digit (R.number other) p) }
{
    word.and(mask).or(other.and(mask.not()))
}

// Puts back, in the `k`-th word that a span meets, what is not the span's: the bits of `saved`.
fn put_back<R: BitRegister, O: BitOrder<R>>(
    span: BitSpan<R, O>,
    memory: &mut [R],
    k: usize,
    saved: R,
)
    requires fits { Fits R.BITS (span_of span) (length memory.old) }
    requires met { k < words_met R.BITS (span_of span).head (span_of span).len }
    ensures { PutsBack R.BITS O.at_of (span_of span) k (R.number saved) (map R.number memory.old)
        (map R.number memory.new) }
{
    let word = span.address() as usize + k;
    let mask = span.part(memory, k).mask().into_inner();
    memory[word] = merged(memory[word], mask, saved);
}

// Puts the bits of a span in the opposite order, and changes no other bit, in an order where the
// position of the index as far from the end is the position as far from the end.
pub(super) fn reverse_by_words<R: BitRegister, O: BitOrder<R>>(
    span: BitSpan<R, O>,
    memory: &mut [R],
)
    requires fits { Fits R.BITS (span_of span) (length memory.old) }
    requires mirrors { Mirrors R.BITS O.at_of }
    ensures { Becomes span O.at_of memory.old memory.new
        (reverse (list_by span O.at_of memory.old)) }
{
    let elements = span.elements();
    if elements == 0 {
        return;
    }
    let first = span.address() as usize;
    let head = memory[first];
    let tail = memory[first + elements - 1];
    turn_words(&mut memory[first..first + elements]);
    let from = R::BITS - span.tail().into_inner();
    let source: BitPtr<R, O> = BitPtr::new(span.address(), BitIdx::new_unchecked(from));
    source.copy_within(memory, span.to_bitptr(), span.len());
    put_back(span, memory, 0, head);
    put_back(span, memory, elements - 1, tail);
}
