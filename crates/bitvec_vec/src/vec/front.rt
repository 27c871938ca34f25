//! The first bits of some words, and how many words they take.

ghost use Rattle.std.specs.Prelude.{◌≡◌, ◌≤◌, ◌<◌, ◌+◌, ◌*◌, ◌==◌, ℕ, is_ok, if◌then◌else◌, map};
ghost use Rattle.std.specs.Prelude.{OnOk, OnErr, length, min, slice_set, vec_len, vec_capacity};
ghost use Rattle.bitvec.specs.BitSpan.{span_of};
ghost use Rattle.bitvec.specs.Digit.{digit};
ghost use Rattle.bitvec.specs.Place.{region_max_bits};
ghost use Rattle.bitvec.specs.Span.{front_span};
ghost use Rattle.bitvec_vec.specs.Front.{front_bits, front_of, words_for};

use bitvec::index::BitIdx;
use bitvec::mem;
use bitvec::mem::BitRegister;
use bitvec::order::BitOrder;
use bitvec::ptr::span::BitSpan;
use std::alloc::{AllocError, Allocator};

// The most bits that a span can have.
pub(crate) const MOST: usize = usize::MAX >> 3;

// The span of the first `len` bits.
pub(crate) fn span_of_front<R: BitRegister, O>(len: usize) -> BitSpan<R, O>
    requires { len ≤ region_max_bits }
    ensures span { span_of result ≡ front_span len }
    ensures len { (span_of result).len ≡ len }
{
    BitSpan::at_unchecked(0, len)
}

// How many words `len` bits take.
pub(crate) fn words_of_bits<R: BitRegister>(len: usize) -> usize
    ensures { result ≡ words_for R.BITS len }
{
    mem::elts::<R>(len)
}

// One where a truth value is true, else zero.
#[inline(always)]
pub(crate) fn one_where<R: BitRegister>(bit: bool) -> R
    ensures { R.number result ≡ (if bit then 1 else 0) }
{
    if bit { R::ONE } else { R::ZERO }
}

// A word with another bit at an index: what was there is cleared, and the bit put in its place.
// Both are made ready before the word is there, which may wait for the store of the bit before.
#[inline(always)]
fn with_bit<R: BitRegister, O: BitOrder<R>>(word: R, index: BitIdx<R>, bit: bool) -> R
    ensures { (j : ℕ) → j < R.BITS → digit (R.number result) (O.at_of j)
        ≡ (if j == index then bit else digit (R.number word) (O.at_of j)) }
{
    let selector = index.select::<O>().into_inner();
    let one: R = one_where(bit);
    let moved = one.shl(index.position::<O>().into_inner());
    word.and(selector.not()).or(moved)
}

// Writes bit `len` of words that are as many as the first `len + 1` bits take.
#[inline(always)]
pub(crate) fn put_last<R: BitRegister, O: BitOrder<R>>(words: &mut [R], len: usize, bit: bool)
    requires { length words.old ≡ words_for R.BITS (len + 1) }
    ensures { let bits = front_of R.BITS O.at_of R.number (len + 1) in bits words.new
        ≡ slice_set (bits words.old) len bit }
{
    let index = BitIdx::new_unchecked((len % usize::from(R::BITS)) as u8);
    let last = words.len() - 1;
    words[last] = with_bit::<R, O>(words[last], index, bit);
}

// Makes room for one bit behind the first `len`, which stay. Where a word ends there are fewer than
// the most, which is one less than a multiple of the width.
pub(crate) fn make_room<R: BitRegister, A: Allocator>(
    words: &mut Vec<R, A>,
    len: usize,
) -> Result<(), AllocError>
    requires enough { vec_len words.old ≡ words_for R.BITS len }
    requires short { len ≤ region_max_bits }
    ensures len { vec_len words.new
        ≡ (if is_ok result then words_for R.BITS (len + 1) else vec_len words.old) }
    ensures short { OnOk result (len < region_max_bits) }
    ensures kept { (at : ℕ → ℕ) → front_bits R.BITS at len (map R.number words.new.items)
        ≡ front_bits R.BITS at len (map R.number words.old.items) }
    ensures capacity { vec_capacity words.old ≤ vec_capacity words.new }
    ensures full { OnErr result (min (vec_capacity words.old * R.BITS) region_max_bits ≤ len) }
{
    if len % usize::from(R::BITS) != 0 {
        if len == MOST {
            return Err(AllocError);
        }
        return Ok(());
    }
    match words.push(R::ZERO) {
        Ok(()) => Ok(()),
        Err(_) => Err(AllocError),
    }
}

// Resizes the words to those that `to` bits take. The first `len` bits stay. The room is taken
// first, since it then stays too where memory is refused: `resize` alone does not say so.
pub(crate) fn fit_words<R: BitRegister, A: Allocator>(
    words: &mut Vec<R, A>,
    len: usize,
    to: usize,
) -> Result<(), AllocError>
    requires enough { vec_len words.old ≡ words_for R.BITS len }
    requires longer { len ≤ to }
    ensures len { vec_len words.new
        ≡ (if is_ok result then words_for R.BITS to else vec_len words.old) }
    ensures kept { (at : ℕ → ℕ) → front_bits R.BITS at len (map R.number words.new.items)
        ≡ front_bits R.BITS at len (map R.number words.old.items) }
    ensures capacity { vec_capacity words.old ≤ vec_capacity words.new }
    ensures full { OnErr result (vec_capacity words.old * R.BITS < to) }
    ensures refused { OnErr result (vec_capacity words.new ≡ vec_capacity words.old) }
{
    let count = words_of_bits::<R>(to);
    words.reserve(count - words.len())?;
    words.resize(count, R::ZERO)
}
