//! Questions of two ranges of bits, by whole words: each word of the one range meets the bits of
//! the other that are lined up with it, and neither range is copied.

ghost use Rattle.std.specs.Prelude.{◌≡◌, ◌⊎◌, ℕ, ◌+◌, ◌*◌, ◌<◌, ◌≤◌, false, length, map};
ghost use Rattle.bitvec_mem.specs.Digit.{digit, count_below};
ghost use Rattle.bitvec_mem.specs.Ones.{HasNoOne};
ghost use Rattle.bitvec_ptr.specs.Cursor.{cursor_place};
ghost use Rattle.bitvec_ptr.specs.Pairs.{pair_from, NoneBelow, FindsFirst};
ghost use Rattle.bitvec_ptr.specs.Place.{words_met};
ghost use Rattle.bitvec_ptr.specs.Ways.{Allows};

use crate::ptr::combine::Combine;
use crate::ptr::copy::gather::{Way, gathered_from, way_of, with_bits};
use crate::ptr::copy::words::{is_in_one_word, sections_of};
use crate::ptr::cursor::Cursor;
use bitvec_mem::mem::BitRegister;
use bitvec_order::order::{BitOrder, first_index};

// How many words are looked at before it is asked whether one of them decides.
const BLOCK: usize = 64;

// The bits of word `to` from its index `bit` on, `count` of them, each combined with one of the
// other memory from a place on; the word's other digits are zero.
#[inline(always)]
fn question_word<C: Combine, R: BitRegister, O: BitOrder<R>, R2: BitRegister, O2: BitOrder<R2>>(
    way: Way,
    memory: &[R],
    to: usize,
    other: &[R2],
    from: Cursor<R2>,
    bit: u8,
    count: u8,
) -> R
    requires some { 0 < count }
    requires bit_in { bit + count ≤ R.BITS }
    requires way { Allows way R2.BITS O2.at_of R.BITS O.at_of from.bit bit }
    requires to_in { to < length memory.now }
    requires from_in { cursor_place from + count ≤ length other.now * R2.BITS }
    ensures inside { (j : ℕ) → j < count → digit (R.number result) (O.at_of (bit + j))
        ≡ pair_from C.of R.BITS O.at_of (map R.number memory.now) (to * R.BITS + bit) from O2.at_of
        other.now j }
    ensures outside { (j : ℕ) → j < R.BITS → (j < bit) ⊎ (bit + count ≤ j)
        → digit (R.number result) (O.at_of j) ≡ false }
{
    let theirs = gathered_from::<R2, O2, R, O>(way, other, from, R::ZERO, bit, count);
    let both = C::word(memory[to], theirs);
    with_bits::<R, O>(R::ZERO, both, bit, count)
}

// How many of `count` pairs are one, of those in word `to` from its index `bit` on.
#[inline(always)]
fn count_word<C: Combine, R: BitRegister, O: BitOrder<R>, R2: BitRegister, O2: BitOrder<R2>>(
    way: Way,
    memory: &[R],
    to: usize,
    other: &[R2],
    from: Cursor<R2>,
    bit: u8,
    count: u8,
) -> usize
    requires some { 0 < count }
    requires bit_in { bit + count ≤ R.BITS }
    requires way { Allows way R2.BITS O2.at_of R.BITS O.at_of from.bit bit }
    requires to_in { to < length memory.now }
    requires from_in { cursor_place from + count ≤ length other.now * R2.BITS }
    ensures { result ≡ count_below (pair_from C.of R.BITS O.at_of (map R.number memory.now) (to *
        R.BITS + bit) from O2.at_of other.now) count }
{
    let both = question_word::<C, R, O, R2, O2>(way, memory, to, other, from, bit, count);
    both.count_ones() as usize
}

// How many pairs are one in whole words.
#[inline(always)]
fn count_row<C: Combine, R: BitRegister, O: BitOrder<R>, R2: BitRegister, O2: BitOrder<R2>>(
    way: Way,
    memory: &[R],
    to: usize,
    other: &[R2],
    from: Cursor<R2>,
    count: usize,
) -> usize
    requires way { Allows way R2.BITS O2.at_of R.BITS O.at_of from.bit 0 }
    requires short { count * R.BITS ≤ usize.MAX }
    requires to_in { to + count ≤ length memory.now }
    requires from_in { cursor_place from + count * R.BITS ≤ length other.now * R2.BITS }
    ensures { result ≡ count_below (pair_from C.of R.BITS O.at_of (map R.number memory.now) (to *
        R.BITS) from O2.at_of other.now) (count * R.BITS) }
{
    let mut total = 0;
    for k in 0..count {
        let read = from.words_on::<R>(k);
        total += count_word::<C, R, O, R2, O2>(way, memory, to + k, other, read, 0, R::BITS);
    }
    total
}

// How many pairs are one, found in one way.
#[inline(always)]
fn count_one_way<C: Combine, R: BitRegister, O: BitOrder<R>, R2: BitRegister, O2: BitOrder<R2>>(
    way: Way,
    memory: &[R],
    to: Cursor<R>,
    other: &[R2],
    from: Cursor<R2>,
    count: usize,
) -> usize
    requires some { 0 < count }
    requires way { Allows way R2.BITS O2.at_of R.BITS O.at_of from.bit to.bit }
    requires to_in { to.word + words_met R.BITS to.bit count ≤ length memory.now }
    requires from_in { cursor_place from + count ≤ length other.now * R2.BITS }
    ensures { result ≡ count_below (pair_from C.of R.BITS O.at_of (map R.number memory.now)
        (cursor_place to) from O2.at_of other.now) count }
{
    if is_in_one_word::<R>(to.bit, count) {
        let all = count as u8;
        return count_word::<C, R, O, R2, O2>(way, memory, to.word, other, from, to.bit, all);
    }
    let sections = sections_of::<R2, R>(from, to.bit, count);
    let (first, whole, last) = (sections.first, sections.whole, sections.last);
    let (middle, end) = (sections.middle, sections.end);
    let next = to.word + 1;
    let end_word = next + whole;
    let head = count_word::<C, R, O, R2, O2>(way, memory, to.word, other, from, to.bit, first);
    let body = count_row::<C, R, O, R2, O2>(way, memory, next, other, middle, whole);
    let tail = count_word::<C, R, O, R2, O2>(way, memory, end_word, other, end, 0, last);
    head + body + tail
}

// How many of the pairs of two ranges are one, found in the best way for the two sides.
//
// Each way has a loop of its own, so that none of them looks at the way for each word.
#[inline(always)]
pub(super) fn count_pairs<
    C: Combine,
    R: BitRegister,
    O: BitOrder<R>,
    R2: BitRegister,
    O2: BitOrder<R2>,
>(memory: &[R], to: Cursor<R>, other: &[R2], from: Cursor<R2>, count: usize) -> usize
    requires some { 0 < count }
    requires to_in { to.word + words_met R.BITS to.bit count ≤ length memory.now }
    requires from_in { cursor_place from + count ≤ length other.now * R2.BITS }
    ensures { result ≡ count_below (pair_from C.of R.BITS O.at_of (map R.number memory.now)
        (cursor_place to) from O2.at_of other.now) count }
{
    match way_of::<R2, O2, R, O>(from.bit, to.bit) {
        Way::Whole => {
            return count_one_way::<C, R, O, R2, O2>(Way::Whole, memory, to, other, from, count);
        }
        Way::Rising => {
            return count_one_way::<C, R, O, R2, O2>(Way::Rising, memory, to, other, from, count);
        }
        Way::Falling => {
            return count_one_way::<C, R, O, R2, O2>(Way::Falling, memory, to, other, from, count);
        }
        Way::Singly => {}
    }
    count_one_way::<C, R, O, R2, O2>(Way::Singly, memory, to, other, from, count)
}

// The first of `count` pairs that is one, of those in word `to` from its index `bit` on.
#[inline(always)]
fn first_in_word<C: Combine, R: BitRegister, O: BitOrder<R>, R2: BitRegister, O2: BitOrder<R2>>(
    way: Way,
    memory: &[R],
    to: usize,
    other: &[R2],
    from: Cursor<R2>,
    bit: u8,
    count: u8,
) -> Option<usize>
    requires some { 0 < count }
    requires bit_in { bit + count ≤ R.BITS }
    requires way { Allows way R2.BITS O2.at_of R.BITS O.at_of from.bit bit }
    requires to_in { to < length memory.now }
    requires from_in { cursor_place from + count ≤ length other.now * R2.BITS }
    ensures { FindsFirst (pair_from C.of R.BITS O.at_of (map R.number memory.now) (to * R.BITS +
        bit) from O2.at_of other.now) count result }
{
    let both = question_word::<C, R, O, R2, O2>(way, memory, to, other, from, bit, count);
    match first_index::<R, O>(both) {
        Some(index) => Some(usize::from(index - bit)),
        None => None,
    }
}

// The pairs of whole words, all of them joined into one word.
#[inline(always)]
fn joined_row<C: Combine, R: BitRegister, O: BitOrder<R>, R2: BitRegister, O2: BitOrder<R2>>(
    way: Way,
    memory: &[R],
    to: usize,
    other: &[R2],
    from: Cursor<R2>,
    count: usize,
) -> R
    requires way { Allows way R2.BITS O2.at_of R.BITS O.at_of from.bit 0 }
    requires short { count * R.BITS ≤ usize.MAX }
    requires to_in { to + count ≤ length memory.now }
    requires from_in { cursor_place from + count * R.BITS ≤ length other.now * R2.BITS }
    ensures { HasNoOne R.BITS (R.number result) → NoneBelow (pair_from C.of R.BITS O.at_of (map
        R.number memory.now) (to * R.BITS) from O2.at_of other.now) (count * R.BITS) }
{
    let mut joined = R::ZERO;
    for k in 0..count {
        let read = from.words_on::<R>(k);
        let both = question_word::<C, R, O, R2, O2>(way, memory, to + k, other, read, 0, R::BITS);
        joined = joined.or(both);
    }
    joined
}

// The first pair that is one in whole words, looked for word by word.
fn first_by_words<C: Combine, R: BitRegister, O: BitOrder<R>, R2: BitRegister, O2: BitOrder<R2>>(
    way: Way,
    memory: &[R],
    to: usize,
    other: &[R2],
    from: Cursor<R2>,
    count: usize,
) -> Option<usize>
    requires way { Allows way R2.BITS O2.at_of R.BITS O.at_of from.bit 0 }
    requires short { count * R.BITS ≤ usize.MAX }
    requires to_in { to + count ≤ length memory.now }
    requires from_in { cursor_place from + count * R.BITS ≤ length other.now * R2.BITS }
    ensures { FindsFirst (pair_from C.of R.BITS O.at_of (map R.number memory.now) (to * R.BITS) from
        O2.at_of other.now) (count * R.BITS) result }
{
    for k in 0..count {
        let read = from.words_on::<R>(k);
        let found = first_in_word::<C, R, O, R2, O2>(way, memory, to + k, other, read, 0, R::BITS);
        if let Some(i) = found {
            return Some(k * usize::from(R::BITS) + i);
        }
    }
    None
}

// The first pair that is one in a block of whole words, which are looked at one by one only where
// there is one.
#[inline(always)]
fn first_in_block<C: Combine, R: BitRegister, O: BitOrder<R>, R2: BitRegister, O2: BitOrder<R2>>(
    way: Way,
    memory: &[R],
    to: usize,
    other: &[R2],
    from: Cursor<R2>,
    count: usize,
) -> Option<usize>
    requires way { Allows way R2.BITS O2.at_of R.BITS O.at_of from.bit 0 }
    requires short { count * R.BITS ≤ usize.MAX }
    requires to_in { to + count ≤ length memory.now }
    requires from_in { cursor_place from + count * R.BITS ≤ length other.now * R2.BITS }
    ensures { FindsFirst (pair_from C.of R.BITS O.at_of (map R.number memory.now) (to * R.BITS) from
        O2.at_of other.now) (count * R.BITS) result }
{
    let joined = joined_row::<C, R, O, R2, O2>(way, memory, to, other, from, count);
    if joined.to_u128() == 0 {
        return None;
    }
    first_by_words::<C, R, O, R2, O2>(way, memory, to, other, from, count)
}

// The first pair that is one in whole words, looked for block by block.
#[inline(always)]
fn first_in_row<C: Combine, R: BitRegister, O: BitOrder<R>, R2: BitRegister, O2: BitOrder<R2>>(
    way: Way,
    memory: &[R],
    to: usize,
    other: &[R2],
    from: Cursor<R2>,
    count: usize,
) -> Option<usize>
    requires way { Allows way R2.BITS O2.at_of R.BITS O.at_of from.bit 0 }
    requires short { count * R.BITS ≤ usize.MAX }
    requires to_in { to + count ≤ length memory.now }
    requires from_in { cursor_place from + count * R.BITS ≤ length other.now * R2.BITS }
    ensures { FindsFirst (pair_from C.of R.BITS O.at_of (map R.number memory.now) (to * R.BITS) from
        O2.at_of other.now) (count * R.BITS) result }
{
    let mut done = 0;
    while done < count {
        let block = BLOCK.min(count - done);
        let read = from.words_on::<R>(done);
        let found = first_in_block::<C, R, O, R2, O2>(way, memory, to + done, other, read, block);
        if let Some(i) = found {
            return Some(done * usize::from(R::BITS) + i);
        }
        done += block;
    }
    None
}

// The first pair that is one, found in one way.
#[inline(always)]
fn first_one_way<C: Combine, R: BitRegister, O: BitOrder<R>, R2: BitRegister, O2: BitOrder<R2>>(
    way: Way,
    memory: &[R],
    to: Cursor<R>,
    other: &[R2],
    from: Cursor<R2>,
    count: usize,
) -> Option<usize>
    requires some { 0 < count }
    requires way { Allows way R2.BITS O2.at_of R.BITS O.at_of from.bit to.bit }
    requires to_in { to.word + words_met R.BITS to.bit count ≤ length memory.now }
    requires from_in { cursor_place from + count ≤ length other.now * R2.BITS }
    ensures { FindsFirst (pair_from C.of R.BITS O.at_of (map R.number memory.now) (cursor_place to)
        from O2.at_of other.now) count result }
{
    if is_in_one_word::<R>(to.bit, count) {
        let all = count as u8;
        return first_in_word::<C, R, O, R2, O2>(way, memory, to.word, other, from, to.bit, all);
    }
    let sections = sections_of::<R2, R>(from, to.bit, count);
    let (first, whole, last) = (sections.first, sections.whole, sections.last);
    let (middle, end) = (sections.middle, sections.end);
    let next = to.word + 1;
    let end_word = next + whole;
    let head = first_in_word::<C, R, O, R2, O2>(way, memory, to.word, other, from, to.bit, first);
    if let Some(i) = head {
        return Some(i);
    }
    let body = first_in_row::<C, R, O, R2, O2>(way, memory, next, other, middle, whole);
    if let Some(i) = body {
        return Some(usize::from(first) + i);
    }
    let tail = first_in_word::<C, R, O, R2, O2>(way, memory, end_word, other, end, 0, last);
    match tail {
        Some(i) => Some(count - usize::from(last) + i),
        None => None,
    }
}

// The first of the pairs of two ranges that is one, found in the best way for the two sides.
//
// Each way has a loop of its own, so that none of them looks at the way for each word.
#[inline(always)]
pub(super) fn first_pair<
    C: Combine,
    R: BitRegister,
    O: BitOrder<R>,
    R2: BitRegister,
    O2: BitOrder<R2>,
>(memory: &[R], to: Cursor<R>, other: &[R2], from: Cursor<R2>, count: usize) -> Option<usize>
    requires some { 0 < count }
    requires to_in { to.word + words_met R.BITS to.bit count ≤ length memory.now }
    requires from_in { cursor_place from + count ≤ length other.now * R2.BITS }
    ensures { FindsFirst (pair_from C.of R.BITS O.at_of (map R.number memory.now) (cursor_place to)
        from O2.at_of other.now) count result }
{
    match way_of::<R2, O2, R, O>(from.bit, to.bit) {
        Way::Whole => {
            return first_one_way::<C, R, O, R2, O2>(Way::Whole, memory, to, other, from, count);
        }
        Way::Rising => {
            return first_one_way::<C, R, O, R2, O2>(Way::Rising, memory, to, other, from, count);
        }
        Way::Falling => {
            return first_one_way::<C, R, O, R2, O2>(Way::Falling, memory, to, other, from, count);
        }
        Way::Singly => {}
    }
    first_one_way::<C, R, O, R2, O2>(Way::Singly, memory, to, other, from, count)
}
