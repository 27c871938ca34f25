//! Combinations through a writer: each word of the target is gathered and put once.
//!
//! A combination is rising where it goes first word first, as a rising writer does, and falling
//! where it goes last word first. The functions that loop over a writer are inlined as far as the
//! function that makes the writer, so that its mark and count are kept in registers; and so is the
//! one that finds the sections of a target, so that each loop knows where it starts.

ghost use Rattle.std.specs.Prelude.{◌≡◌, ℕ, ◌+◌, ◌-◌, ◌*◌, ◌<◌, ◌≤◌, true, false, length, map};
ghost use Rattle.std.specs.Prelude.{slice_index, List};
ghost use Rattle.bitvec_ptr.specs.Combinations.{HasCombinedWithin, HasCombinedFrom};
ghost use Rattle.bitvec_ptr.specs.Combinations.{HasCombinedPair};
ghost use Rattle.bitvec_ptr.specs.Combinations.{HasCombinedTo, HasCombinedOver};
ghost use Rattle.bitvec_ptr.specs.Cursor.{cursor_place};
ghost use Rattle.bitvec_ptr.specs.Place.{words_met};
ghost use Rattle.bitvec_ptr.specs.Ways.{Allows};
ghost use Rattle.bitvec_ptr.specs.WordWriter.{writer_of};

use crate::ptr::combine::Combine;
use crate::ptr::copy::gather::{
    Way, gathered_from, gathered_from_pair, gathered_whole, pair_in, way_of,
};
use crate::ptr::cursor::Cursor;
use crate::ptr::writer::WordWriter;
use bitvec_mem::mem::BitRegister;
use bitvec_order::order::BitOrder;

// Combines one word of the writer's memory, from its index `bit` on, with `count` bits of the
// source.
#[inline(always)]
fn combine_word<C: Combine, R: BitRegister, O: BitOrder<R>, R2: BitRegister, O2: BitOrder<R2>>(
    way: Way,
    source: &[R],
    from: Cursor<R>,
    writer: &mut WordWriter<R2>,
    to: usize,
    bit: u8,
    count: u8,
)
    requires some { 0 < count }
    requires bit_in { bit + count ≤ R2.BITS }
    requires way { Allows way R.BITS O.at_of R2.BITS O2.at_of from.bit bit }
    requires from_in { cursor_place from + count ≤ length source.now * R.BITS }
    requires to_in { to < length (writer_of writer.old).words }
    requires rising { (writer_of writer.old).rising ≡ true → (writer_of writer.old).mark ≤ to }
    requires falling { (writer_of writer.old).rising ≡ false → to < (writer_of writer.old).mark }
    ensures { HasCombinedFrom C.of from O.at_of source.now R2.BITS O2.at_of R2.number writer.old
        writer.new (to * R2.BITS + bit) count to 1 }
{
    let old = writer.get(to);
    let theirs = gathered_from::<R, O, R2, O2>(way, source, from, C::ground(old), bit, count);
    writer.put(to, C::word(old, theirs));
}

// Combines one word of the writer's memory, from its index `bit` on, with `count` bits of two
// words, from index `shift` of the first on: two neighbours of any list of words.
#[inline(always)]
fn combine_pair<C: Combine, R: BitRegister, O: BitOrder<R>>(
    way: Way,
    low: R,
    high: R,
    shift: u8,
    writer: &mut WordWriter<R>,
    to: usize,
    bit: u8,
    count: u8,
)
    requires some { 0 < count }
    requires most { shift < R.BITS }
    requires bit_in { bit + count ≤ R.BITS }
    requires way { Allows way R.BITS O.at_of R.BITS O.at_of shift bit }
    requires to_in { to < length (writer_of writer.old).words }
    requires rising { (writer_of writer.old).rising ≡ true → (writer_of writer.old).mark ≤ to }
    requires falling { (writer_of writer.old).rising ≡ false → to < (writer_of writer.old).mark }
    ensures { HasCombinedPair C.of R.BITS O.at_of R.number low high (R.BITS < shift + count) shift
        writer.old writer.new (to * R.BITS + bit) count to }
{
    let old = writer.get(to);
    let ours = gathered_from_pair::<R, O, R, O>(way, low, high, shift, C::ground(old), bit, count);
    writer.put(to, C::word(old, ours));
}

// Combines one word of the writer's memory, from its index `bit` on, with `count` bits of that
// memory.
#[inline(always)]
fn combine_word_within<C: Combine, R: BitRegister, O: BitOrder<R>>(
    way: Way,
    from: Cursor<R>,
    writer: &mut WordWriter<R>,
    to: usize,
    bit: u8,
    count: u8,
)
    requires some { 0 < count }
    requires bit_in { bit + count ≤ R.BITS }
    requires way { Allows way R.BITS O.at_of R.BITS O.at_of from.bit bit }
    requires from_in { cursor_place from + count ≤ length (writer_of writer.old).words * R.BITS }
    requires to_in { to < length (writer_of writer.old).words }
    requires rising { (writer_of writer.old).rising ≡ true → (writer_of writer.old).mark ≤ to }
    requires falling { (writer_of writer.old).rising ≡ false → to < (writer_of writer.old).mark }
    ensures { HasCombinedWithin C.of R.BITS O.at_of R.number (cursor_place from) writer.old
        writer.new (to * R.BITS + bit) count to 1 }
{
    let (low, high) = pair_in(writer, from, count);
    combine_pair::<C, R, O>(way, low, high, from.bit, writer, to, bit, count);
}

// Combines whole words, the first of them first.
#[inline(always)]
fn combine_row_rising<
    C: Combine,
    R: BitRegister,
    O: BitOrder<R>,
    R2: BitRegister,
    O2: BitOrder<R2>,
>(way: Way, source: &[R], from: Cursor<R>, writer: &mut WordWriter<R2>, to: usize, count: usize)
    requires way { Allows way R.BITS O.at_of R2.BITS O2.at_of from.bit 0 }
    requires short { count * R2.BITS ≤ usize.MAX }
    requires from_in { cursor_place from + count * R2.BITS ≤ length source.now * R.BITS }
    requires to_in { to + count ≤ length (writer_of writer.old).words }
    requires direction { (writer_of writer.old).rising ≡ true }
    requires stands { (writer_of writer.old).mark ≡ to }
    ensures { HasCombinedFrom C.of from O.at_of source.now R2.BITS O2.at_of R2.number writer.old
        writer.new (to * R2.BITS) (count * R2.BITS) to count }
{
    for k in 0..count {
        let read = from.words_on::<R2>(k);
        combine_word::<C, R, O, R2, O2>(way, source, read, writer, to + k, 0, R2::BITS);
    }
}

// Combines whole words, the last of them first.
#[inline(always)]
fn combine_row_falling<
    C: Combine,
    R: BitRegister,
    O: BitOrder<R>,
    R2: BitRegister,
    O2: BitOrder<R2>,
>(way: Way, source: &[R], from: Cursor<R>, writer: &mut WordWriter<R2>, to: usize, count: usize)
    requires way { Allows way R.BITS O.at_of R2.BITS O2.at_of from.bit 0 }
    requires short { count * R2.BITS ≤ usize.MAX }
    requires from_in { cursor_place from + count * R2.BITS ≤ length source.now * R.BITS }
    requires to_in { to + count ≤ length (writer_of writer.old).words }
    requires direction { (writer_of writer.old).rising ≡ false }
    requires stands { (writer_of writer.old).mark ≡ to + count }
    ensures { HasCombinedFrom C.of from O.at_of source.now R2.BITS O2.at_of R2.number writer.old
        writer.new (to * R2.BITS) (count * R2.BITS) to count }
{
    for done in 0..count {
        let k = count - 1 - done;
        let read = from.words_on::<R2>(k);
        combine_word::<C, R, O, R2, O2>(way, source, read, writer, to + k, 0, R2::BITS);
    }
}

// Combines one whole word of the writer's memory with the bits of two words, from index `shift` of
// the first on: two neighbours of any list of words.
#[inline(always)]
fn combine_whole<C: Combine, R: BitRegister, O: BitOrder<R>>(
    way: Way,
    low: R,
    high: R,
    shift: u8,
    writer: &mut WordWriter<R>,
    to: usize,
)
    requires most { shift < R.BITS }
    requires way { Allows way R.BITS O.at_of R.BITS O.at_of shift 0 }
    requires shifts_up { way ≡ Way.Rising → 0 < shift }
    requires shifts_down { way ≡ Way.Falling → 0 < shift }
    requires to_in { to < length (writer_of writer.old).words }
    requires rising { (writer_of writer.old).rising ≡ true → (writer_of writer.old).mark ≤ to }
    requires falling { (writer_of writer.old).rising ≡ false → to < (writer_of writer.old).mark }
    ensures { HasCombinedPair C.of R.BITS O.at_of R.number low high (0 < shift) shift writer.old
        writer.new (to * R.BITS) R.BITS to }
{
    let old = writer.get(to);
    let ours = gathered_whole::<R, O>(way, low, high, shift);
    writer.put(to, C::word(old, ours));
}

// The last of the words that four words' bits from a place on lie in: the fourth where the place is
// the first of its word, and else the fifth.
#[inline(always)]
fn last_of_block<R: BitRegister>(from: Cursor<R>) -> usize
    requires { from.word + 4 ≤ usize.MAX }
    ensures fifth { 0 < from.bit → result ≡ from.word + 4 }
    ensures fourth { from.bit ≡ 0 → result ≡ from.word + 3 }
{
    if from.bit > 0 {
        return from.word + 4;
    }
    from.word + 3
}

// Four words of the writer's memory, from that of a place on, and the word behind them; the last of
// the four once more where the place is the first of its word. The word in the middle is read last,
// so that LLVM orders the operations of all four alike and makes them side by side.
#[inline(always)]
fn block_in<R: BitRegister>(writer: &WordWriter<R>, from: Cursor<R>) -> (R, R, R, R, R)
    requires { cursor_place from + 4 * R.BITS ≤ length (writer_of writer.now).words * R.BITS }
    ensures one { R.number result.0 ≡ slice_index (map R.number (writer_of writer.now).words)
        from.word }
    ensures two { R.number result.1 ≡ slice_index (map R.number (writer_of writer.now).words)
        (from.word + 1) }
    ensures three { R.number result.2 ≡ slice_index (map R.number (writer_of writer.now).words)
        (from.word + 2) }
    ensures four { R.number result.3 ≡ slice_index (map R.number (writer_of writer.now).words)
        (from.word + 3) }
    ensures five { 0 < from.bit → R.number result.4
        ≡ slice_index (map R.number (writer_of writer.now).words) (from.word + 4) }
{
    let first = from.word;
    let last = last_of_block(from);
    let (one, two) = (writer.get(first), writer.get(first + 1));
    let (five, four) = (writer.get(last), writer.get(first + 3));
    let three = writer.get(first + 2);
    (one, two, three, four, five)
}

// Combines four whole words with bits of the same memory, the first word first. All words are read
// before one is put, so the four are made side by side, wherever the bits lie.
#[inline(always)]
fn combine_block_rising_within<C: Combine, R: BitRegister, O: BitOrder<R>>(
    way: Way,
    from: Cursor<R>,
    writer: &mut WordWriter<R>,
    to: usize,
)
    requires way { Allows way R.BITS O.at_of R.BITS O.at_of from.bit 0 }
    requires shifts_up { way ≡ Way.Rising → 0 < from.bit }
    requires shifts_down { way ≡ Way.Falling → 0 < from.bit }
    requires from_in { cursor_place from + 4 * R.BITS ≤ length (writer_of writer.old).words * R.BITS }
    requires to_in { to + 4 ≤ length (writer_of writer.old).words }
    requires direction { (writer_of writer.old).rising ≡ true }
    requires stands { (writer_of writer.old).mark ≡ to }
    ensures { HasCombinedWithin C.of R.BITS O.at_of R.number (cursor_place from) writer.old
        writer.new (to * R.BITS) (4 * R.BITS) to 4 }
{
    let (one, two, three, four, five) = block_in(writer, from);
    let bit = from.bit;
    combine_whole::<C, R, O>(way, one, two, bit, writer, to);
    combine_whole::<C, R, O>(way, two, three, bit, writer, to + 1);
    combine_whole::<C, R, O>(way, three, four, bit, writer, to + 2);
    combine_whole::<C, R, O>(way, four, five, bit, writer, to + 3);
}

// The same with the last word first.
#[inline(always)]
fn combine_block_falling_within<C: Combine, R: BitRegister, O: BitOrder<R>>(
    way: Way,
    from: Cursor<R>,
    writer: &mut WordWriter<R>,
    to: usize,
)
    requires way { Allows way R.BITS O.at_of R.BITS O.at_of from.bit 0 }
    requires shifts_up { way ≡ Way.Rising → 0 < from.bit }
    requires shifts_down { way ≡ Way.Falling → 0 < from.bit }
    requires from_in { cursor_place from + 4 * R.BITS ≤ length (writer_of writer.old).words * R.BITS }
    requires to_in { to + 4 ≤ length (writer_of writer.old).words }
    requires direction { (writer_of writer.old).rising ≡ false }
    requires stands { (writer_of writer.old).mark ≡ to + 4 }
    ensures { HasCombinedWithin C.of R.BITS O.at_of R.number (cursor_place from) writer.old
        writer.new (to * R.BITS) (4 * R.BITS) to 4 }
{
    let (one, two, three, four, five) = block_in(writer, from);
    let bit = from.bit;
    combine_whole::<C, R, O>(way, four, five, bit, writer, to + 3);
    combine_whole::<C, R, O>(way, three, four, bit, writer, to + 2);
    combine_whole::<C, R, O>(way, two, three, bit, writer, to + 1);
    combine_whole::<C, R, O>(way, one, two, bit, writer, to);
}

// Combines whole words with bits of the same memory that lie at or behind them, word by word, the
// first word first.
#[inline(always)]
fn combine_few_rising_within<C: Combine, R: BitRegister, O: BitOrder<R>>(
    way: Way,
    from: Cursor<R>,
    writer: &mut WordWriter<R>,
    to: usize,
    count: usize,
)
    requires way { Allows way R.BITS O.at_of R.BITS O.at_of from.bit 0 }
    requires short { count * R.BITS ≤ usize.MAX }
    requires from_in { cursor_place from + count * R.BITS ≤ length (writer_of writer.old).words *
        R.BITS }
    requires to_in { to + count ≤ length (writer_of writer.old).words }
    requires before { to * R.BITS ≤ cursor_place from }
    requires direction { (writer_of writer.old).rising ≡ true }
    requires stands { (writer_of writer.old).mark ≡ to }
    ensures { HasCombinedWithin C.of R.BITS O.at_of R.number (cursor_place from) writer.old
        writer.new (to * R.BITS) (count * R.BITS) to count }
{
    for k in 0..count {
        let read = from.words_on::<R>(k);
        combine_word_within::<C, R, O>(way, read, writer, to + k, 0, R::BITS);
    }
}

// Combines whole words with bits of the same memory that lie at or before them, word by word, the
// last word first.
#[inline(always)]
fn combine_few_falling_within<C: Combine, R: BitRegister, O: BitOrder<R>>(
    way: Way,
    from: Cursor<R>,
    writer: &mut WordWriter<R>,
    to: usize,
    count: usize,
)
    requires way { Allows way R.BITS O.at_of R.BITS O.at_of from.bit 0 }
    requires short { count * R.BITS ≤ usize.MAX }
    requires from_in { cursor_place from + count * R.BITS ≤ length (writer_of writer.old).words *
        R.BITS }
    requires to_in { to + count ≤ length (writer_of writer.old).words }
    requires behind { cursor_place from ≤ to * R.BITS }
    requires direction { (writer_of writer.old).rising ≡ false }
    requires stands { (writer_of writer.old).mark ≡ to + count }
    ensures { HasCombinedWithin C.of R.BITS O.at_of R.number (cursor_place from) writer.old
        writer.new (to * R.BITS) (count * R.BITS) to count }
{
    for done in 0..count {
        let k = count - 1 - done;
        let read = from.words_on::<R>(k);
        combine_word_within::<C, R, O>(way, read, writer, to + k, 0, R::BITS);
    }
}

// Combines whole words with bits of the same memory that lie at or behind them, the first word
// first: four at a time, and then the other `count % 4`. It is asked before whether the bits start
// a word, which they do in one way alone, so that the loop asks nothing.
#[inline(always)]
fn combine_row_rising_within<C: Combine, R: BitRegister, O: BitOrder<R>>(
    way: Way,
    from: Cursor<R>,
    writer: &mut WordWriter<R>,
    to: usize,
    count: usize,
)
    requires way { Allows way R.BITS O.at_of R.BITS O.at_of from.bit 0 }
    requires short { count * R.BITS ≤ usize.MAX }
    requires from_in { cursor_place from + count * R.BITS ≤ length (writer_of writer.old).words *
        R.BITS }
    requires to_in { to + count ≤ length (writer_of writer.old).words }
    requires before { to * R.BITS ≤ cursor_place from }
    requires direction { (writer_of writer.old).rising ≡ true }
    requires stands { (writer_of writer.old).mark ≡ to }
    ensures { HasCombinedWithin C.of R.BITS O.at_of R.number (cursor_place from) writer.old
        writer.new (to * R.BITS) (count * R.BITS) to count }
{
    if way != Way::Whole && from.bit == 0 {
        combine_few_rising_within::<C, R, O>(way, from, writer, to, count);
        return;
    }
    for block in 0..count / 4 {
        let read = from.words_on::<R>(block * 4);
        combine_block_rising_within::<C, R, O>(way, read, writer, to + block * 4);
    }
    let few = count % 4;
    let rest = from.words_on::<R>(count - few);
    combine_few_rising_within::<C, R, O>(way, rest, writer, to + (count - few), few);
}

// Combines whole words with bits of the same memory that lie at or before them, the last word
// first: four at a time, and then the other `count % 4`. It is asked before whether the bits start
// a word, which they do in one way alone, so that the loop asks nothing.
#[inline(always)]
fn combine_row_falling_within<C: Combine, R: BitRegister, O: BitOrder<R>>(
    way: Way,
    from: Cursor<R>,
    writer: &mut WordWriter<R>,
    to: usize,
    count: usize,
)
    requires way { Allows way R.BITS O.at_of R.BITS O.at_of from.bit 0 }
    requires short { count * R.BITS ≤ usize.MAX }
    requires from_in { cursor_place from + count * R.BITS ≤ length (writer_of writer.old).words *
        R.BITS }
    requires to_in { to + count ≤ length (writer_of writer.old).words }
    requires behind { cursor_place from ≤ to * R.BITS }
    requires direction { (writer_of writer.old).rising ≡ false }
    requires stands { (writer_of writer.old).mark ≡ to + count }
    ensures { HasCombinedWithin C.of R.BITS O.at_of R.number (cursor_place from) writer.old
        writer.new (to * R.BITS) (count * R.BITS) to count }
{
    if way != Way::Whole && from.bit == 0 {
        combine_few_falling_within::<C, R, O>(way, from, writer, to, count);
        return;
    }
    for block in 0..count / 4 {
        let k = count - 4 - block * 4;
        let read = from.words_on::<R>(k);
        combine_block_falling_within::<C, R, O>(way, read, writer, to + k);
    }
    combine_few_falling_within::<C, R, O>(way, from, writer, to, count % 4);
}

// Whether all of `count` bits from an index of a word on lie in that word.
pub(super) fn is_in_one_word<R: BitRegister>(bit: u8, count: usize) -> bool
    requires some { 0 < count }
    requires bit_in { bit < R.BITS }
    ensures met { result ≡ true → words_met R.BITS bit count ≡ 1 }
    ensures fits { result ≡ true → bit + count ≤ R.BITS }
    ensures more { result ≡ false → R.BITS < bit + count }
{
    if count > usize::from(R::BITS - bit) {
        return false;
    }
    true
}

// How many whole words `count` bits meet between the first word, which they enter at an index, and
// the last; and how many of them lie in the last.
fn whole_and_last<R: BitRegister>(bit: u8, count: usize) -> (usize, u8)
    requires bit_in { bit < R.BITS }
    requires more { R.BITS < bit + count }
    ensures all { R.BITS - bit + (result.0 * R.BITS + result.1) ≡ count }
    ensures some { 0 < result.1 }
    ensures most { result.1 ≤ R.BITS }
    ensures met { words_met R.BITS bit count ≡ result.0 + 2 }
{
    let width = usize::from(R::BITS);
    let first = width - usize::from(bit);
    let left = count - first - 1;
    (left / width, (left % width) as u8 + 1)
}

// The three sections of a target that meets more than one word: how many bits lie in the first
// word, how many words there are between, and how many bits lie in the last; with the places from
// which the two later ones are read.
#[derive(Drop)]
pub(super) struct Sections<R: BitRegister> {
    pub(super) first: u8,
    pub(super) whole: usize,
    pub(super) last: u8,
    pub(super) middle: Cursor<R>,
    pub(super) end: Cursor<R>,
}

// The sections of a target of `count` bits from an index of a word on, which is combined with the
// bits from a place on.
#[inline(always)]
pub(super) fn sections_of<R: BitRegister, R2: BitRegister>(
    from: Cursor<R>,
    bit: u8,
    count: usize,
) -> Sections<R>
    requires bit_in { bit < R2.BITS }
    requires more { R2.BITS < bit + count }
    requires inside { cursor_place from + count < 18446744073709551616 * R.BITS }
    ensures first { result.first ≡ R2.BITS - bit }
    ensures all { R2.BITS - bit + (result.whole * R2.BITS + result.last) ≡ count }
    ensures some { 0 < result.last }
    ensures most { result.last ≤ R2.BITS }
    ensures met { words_met R2.BITS bit count ≡ result.whole + 2 }
    ensures middle { cursor_place result.middle ≡ cursor_place from + (R2.BITS - bit) }
    ensures end { cursor_place result.end ≡ cursor_place from + (R2.BITS - bit + result.whole *
        R2.BITS) }
    ensures middle_starts { R.BITS ≡ R2.BITS → from.bit ≡ bit → result.middle.bit ≡ 0 }
    ensures end_starts { R.BITS ≡ R2.BITS → from.bit ≡ bit → result.end.bit ≡ 0 }
{
    let (whole, last) = whole_and_last::<R2>(bit, count);
    let first = R2::BITS - bit;
    let middle = from.advanced(usize::from(first));
    let end = from.advanced(count - usize::from(last));
    Sections {
        first,
        whole,
        last,
        middle,
        end,
    }
}

// Combines some bits of the writer's memory, the first word first.
#[inline(always)]
pub(super) fn combine_rising<
    C: Combine,
    R: BitRegister,
    O: BitOrder<R>,
    R2: BitRegister,
    O2: BitOrder<R2>,
>(
    way: Way,
    source: &[R],
    from: Cursor<R>,
    writer: &mut WordWriter<R2>,
    to: Cursor<R2>,
    count: usize,
)
    requires some { 0 < count }
    requires way { Allows way R.BITS O.at_of R2.BITS O2.at_of from.bit to.bit }
    requires from_in { cursor_place from + count ≤ length source.now * R.BITS }
    requires to_in { to.word + words_met R2.BITS to.bit count ≤ length
        (writer_of writer.old).words }
    requires direction { (writer_of writer.old).rising ≡ true }
    requires stands { (writer_of writer.old).mark ≡ to.word }
    ensures { HasCombinedTo C.of from O.at_of source.now to O2.at_of writer.old writer.new count }
{
    if is_in_one_word::<R2>(to.bit, count) {
        combine_word::<C, R, O, R2, O2>(way, source, from, writer, to.word, to.bit, count as u8);
        return;
    }
    let sections = sections_of::<R, R2>(from, to.bit, count);
    let next = to.word + 1;
    let last = next + sections.whole;
    combine_word::<C, R, O, R2, O2>(way, source, from, writer, to.word, to.bit, sections.first);
    combine_row_rising::<C, R, O, R2, O2>(
        way,
        source,
        sections.middle,
        writer,
        next,
        sections.whole,
    );
    combine_word::<C, R, O, R2, O2>(way, source, sections.end, writer, last, 0, sections.last);
}

// Combines some bits of the writer's memory, the last word first.
#[inline(always)]
pub(super) fn combine_falling<
    C: Combine,
    R: BitRegister,
    O: BitOrder<R>,
    R2: BitRegister,
    O2: BitOrder<R2>,
>(
    way: Way,
    source: &[R],
    from: Cursor<R>,
    writer: &mut WordWriter<R2>,
    to: Cursor<R2>,
    count: usize,
)
    requires some { 0 < count }
    requires way { Allows way R.BITS O.at_of R2.BITS O2.at_of from.bit to.bit }
    requires from_in { cursor_place from + count ≤ length source.now * R.BITS }
    requires to_in { to.word + words_met R2.BITS to.bit count ≤ length
        (writer_of writer.old).words }
    requires direction { (writer_of writer.old).rising ≡ false }
    requires stands { (writer_of writer.old).mark ≡ to.word + words_met R2.BITS to.bit count }
    ensures { HasCombinedTo C.of from O.at_of source.now to O2.at_of writer.old writer.new count }
{
    if is_in_one_word::<R2>(to.bit, count) {
        combine_word::<C, R, O, R2, O2>(way, source, from, writer, to.word, to.bit, count as u8);
        return;
    }
    let sections = sections_of::<R, R2>(from, to.bit, count);
    let next = to.word + 1;
    let last = next + sections.whole;
    combine_word::<C, R, O, R2, O2>(way, source, sections.end, writer, last, 0, sections.last);
    combine_row_falling::<C, R, O, R2, O2>(
        way,
        source,
        sections.middle,
        writer,
        next,
        sections.whole,
    );
    combine_word::<C, R, O, R2, O2>(way, source, from, writer, to.word, to.bit, sections.first);
}

// Combines some bits of the writer's memory with others of it that lie at or behind them, the first
// word first.
#[inline(always)]
pub(super) fn combine_rising_within<C: Combine, R: BitRegister, O: BitOrder<R>>(
    way: Way,
    from: Cursor<R>,
    writer: &mut WordWriter<R>,
    to: Cursor<R>,
    count: usize,
)
    requires some { 0 < count }
    requires way { Allows way R.BITS O.at_of R.BITS O.at_of from.bit to.bit }
    requires from_in { cursor_place from + count ≤ length (writer_of writer.old).words * R.BITS }
    requires to_in { to.word + words_met R.BITS to.bit count ≤ length (writer_of writer.old).words }
    requires before { cursor_place to ≤ cursor_place from }
    requires direction { (writer_of writer.old).rising ≡ true }
    requires stands { (writer_of writer.old).mark ≡ to.word }
    ensures { HasCombinedOver C.of from O.at_of to writer.old writer.new count }
{
    if is_in_one_word::<R>(to.bit, count) {
        combine_word_within::<C, R, O>(way, from, writer, to.word, to.bit, count as u8);
        return;
    }
    let sections = sections_of::<R, R>(from, to.bit, count);
    let next = to.word + 1;
    let last = next + sections.whole;
    combine_word_within::<C, R, O>(way, from, writer, to.word, to.bit, sections.first);
    combine_row_rising_within::<C, R, O>(way, sections.middle, writer, next, sections.whole);
    combine_word_within::<C, R, O>(way, sections.end, writer, last, 0, sections.last);
}

// Combines some bits of the writer's memory with others of it that lie at or before them, the last
// word first.
#[inline(always)]
pub(super) fn combine_falling_within<C: Combine, R: BitRegister, O: BitOrder<R>>(
    way: Way,
    from: Cursor<R>,
    writer: &mut WordWriter<R>,
    to: Cursor<R>,
    count: usize,
)
    requires some { 0 < count }
    requires way { Allows way R.BITS O.at_of R.BITS O.at_of from.bit to.bit }
    requires from_in { cursor_place from + count ≤ length (writer_of writer.old).words * R.BITS }
    requires to_in { to.word + words_met R.BITS to.bit count ≤ length (writer_of writer.old).words }
    requires behind { cursor_place from ≤ cursor_place to }
    requires direction { (writer_of writer.old).rising ≡ false }
    requires stands { (writer_of writer.old).mark ≡ to.word + words_met R.BITS to.bit count }
    ensures { HasCombinedOver C.of from O.at_of to writer.old writer.new count }
{
    if is_in_one_word::<R>(to.bit, count) {
        combine_word_within::<C, R, O>(way, from, writer, to.word, to.bit, count as u8);
        return;
    }
    let sections = sections_of::<R, R>(from, to.bit, count);
    let next = to.word + 1;
    let last = next + sections.whole;
    combine_word_within::<C, R, O>(way, sections.end, writer, last, 0, sections.last);
    combine_row_falling_within::<C, R, O>(way, sections.middle, writer, next, sections.whole);
    combine_word_within::<C, R, O>(way, from, writer, to.word, to.bit, sections.first);
}

// Combines some bits of the writer's memory in one way, in the direction of the writer.
#[inline(always)]
fn combine_one_way<C: Combine, R: BitRegister, O: BitOrder<R>, R2: BitRegister, O2: BitOrder<R2>>(
    way: Way,
    source: &[R],
    from: Cursor<R>,
    writer: &mut WordWriter<R2>,
    to: Cursor<R2>,
    count: usize,
)
    requires some { 0 < count }
    requires way { Allows way R.BITS O.at_of R2.BITS O2.at_of from.bit to.bit }
    requires from_in { cursor_place from + count ≤ length source.now * R.BITS }
    requires to_in { to.word + words_met R2.BITS to.bit count ≤ length
        (writer_of writer.old).words }
    requires rising { (writer_of writer.old).rising ≡ true → (writer_of writer.old).mark ≡ to.word }
    requires falling { (writer_of writer.old).rising ≡ false → (writer_of writer.old).mark
        ≡ to.word + words_met R2.BITS to.bit count }
    ensures { HasCombinedTo C.of from O.at_of source.now to O2.at_of writer.old writer.new count }
{
    if writer.is_rising() {
        combine_rising::<C, R, O, R2, O2>(way, source, from, writer, to, count);
        return;
    }
    combine_falling::<C, R, O, R2, O2>(way, source, from, writer, to, count);
}

// Combines some bits of the writer's memory, in the best way for the two sides.
//
// Each way has a loop of its own, so that none of them looks at the way for each word.
#[inline(always)]
pub(super) fn combine_bits<
    C: Combine,
    R: BitRegister,
    O: BitOrder<R>,
    R2: BitRegister,
    O2: BitOrder<R2>,
>(source: &[R], from: Cursor<R>, writer: &mut WordWriter<R2>, to: Cursor<R2>, count: usize)
    requires some { 0 < count }
    requires from_in { cursor_place from + count ≤ length source.now * R.BITS }
    requires to_in { to.word + words_met R2.BITS to.bit count ≤ length
        (writer_of writer.old).words }
    requires rising { (writer_of writer.old).rising ≡ true → (writer_of writer.old).mark ≡ to.word }
    requires falling { (writer_of writer.old).rising ≡ false → (writer_of writer.old).mark
        ≡ to.word + words_met R2.BITS to.bit count }
    ensures { HasCombinedTo C.of from O.at_of source.now to O2.at_of writer.old writer.new count }
{
    match way_of::<R, O, R2, O2>(from.bit, to.bit) {
        Way::Whole => {
            combine_one_way::<C, R, O, R2, O2>(Way::Whole, source, from, writer, to, count);
            return;
        }
        Way::Rising => {
            combine_one_way::<C, R, O, R2, O2>(Way::Rising, source, from, writer, to, count);
            return;
        }
        Way::Falling => {
            combine_one_way::<C, R, O, R2, O2>(Way::Falling, source, from, writer, to, count);
            return;
        }
        Way::Singly => {}
    }
    combine_one_way::<C, R, O, R2, O2>(Way::Singly, source, from, writer, to, count);
}

// Combines some bits of the writer's memory with others of it in one way, in the direction of the
// writer.
#[inline(always)]
fn combine_one_way_within<C: Combine, R: BitRegister, O: BitOrder<R>>(
    way: Way,
    from: Cursor<R>,
    writer: &mut WordWriter<R>,
    to: Cursor<R>,
    count: usize,
)
    requires some { 0 < count }
    requires way { Allows way R.BITS O.at_of R.BITS O.at_of from.bit to.bit }
    requires from_in { cursor_place from + count ≤ length (writer_of writer.old).words * R.BITS }
    requires to_in { to.word + words_met R.BITS to.bit count ≤ length (writer_of writer.old).words }
    requires before { (writer_of writer.old).rising ≡ true → cursor_place to ≤ cursor_place from }
    requires behind { (writer_of writer.old).rising ≡ false → cursor_place from ≤ cursor_place to }
    requires rising { (writer_of writer.old).rising ≡ true → (writer_of writer.old).mark ≡ to.word }
    requires falling { (writer_of writer.old).rising ≡ false → (writer_of writer.old).mark
        ≡ to.word + words_met R.BITS to.bit count }
    ensures { HasCombinedOver C.of from O.at_of to writer.old writer.new count }
{
    if writer.is_rising() {
        combine_rising_within::<C, R, O>(way, from, writer, to, count);
        return;
    }
    combine_falling_within::<C, R, O>(way, from, writer, to, count);
}

// Combines some bits of the writer's memory with others of it, in the best way for the two places.
//
// Each way has a loop of its own, so that none of them looks at the way for each word.
#[inline(always)]
pub(super) fn combine_bits_within<C: Combine, R: BitRegister, O: BitOrder<R>>(
    from: Cursor<R>,
    writer: &mut WordWriter<R>,
    to: Cursor<R>,
    count: usize,
)
    requires some { 0 < count }
    requires from_in { cursor_place from + count ≤ length (writer_of writer.old).words * R.BITS }
    requires to_in { to.word + words_met R.BITS to.bit count ≤ length (writer_of writer.old).words }
    requires before { (writer_of writer.old).rising ≡ true → cursor_place to ≤ cursor_place from }
    requires behind { (writer_of writer.old).rising ≡ false → cursor_place from ≤ cursor_place to }
    requires rising { (writer_of writer.old).rising ≡ true → (writer_of writer.old).mark ≡ to.word }
    requires falling { (writer_of writer.old).rising ≡ false → (writer_of writer.old).mark
        ≡ to.word + words_met R.BITS to.bit count }
    ensures { HasCombinedOver C.of from O.at_of to writer.old writer.new count }
{
    match way_of::<R, O, R, O>(from.bit, to.bit) {
        Way::Whole => {
            combine_one_way_within::<C, R, O>(Way::Whole, from, writer, to, count);
            return;
        }
        Way::Rising => {
            combine_one_way_within::<C, R, O>(Way::Rising, from, writer, to, count);
            return;
        }
        Way::Falling => {
            combine_one_way_within::<C, R, O>(Way::Falling, from, writer, to, count);
            return;
        }
        Way::Singly => {}
    }
    combine_one_way_within::<C, R, O>(Way::Singly, from, writer, to, count);
}
