//! How one word of a combination is gathered from the words of its source.
//!
//! A piece is what one word of the target takes from the source: some bits side by side, from an
//! index of that word on. Where the two widths are one it comes from the word at the same index, or
//! from two neighbouring words by shifts; where they differ, a share of it comes from each word
//! that is read; and where the orders have nothing in common, it comes bit by bit.

ghost use Rattle.std.specs.Prelude.{◌≡◌, ◌↔◌, ℕ, ◌+◌, ◌-◌, ◌*◌, ◌^◌, ◌<◌, ◌≤◌, ◌⊎◌, IsTrue, true};
ghost use Rattle.std.specs.Prelude.{false, length, map, slice_index};
ghost use Rattle.bitvec_mem.specs.Digit.{digit};
ghost use Rattle.bitvec_order.specs.Order.{IsMaskOf, Rises, Falls};
ghost use Rattle.bitvec_ptr.specs.Cursor.{cursor_place};
ghost use Rattle.bitvec_ptr.specs.Memory.{bit_of};
ghost use Rattle.bitvec_ptr.specs.Ways.{AreSame, Allows};
ghost use Rattle.bitvec_ptr.specs.WordWriter.{writer_of};

use crate::ptr::cursor::Cursor;
use crate::ptr::single::{bit_at, with_bit};
use crate::ptr::writer::WordWriter;
use bitvec_mem::mem::BitRegister;
use bitvec_order::index::{BitEnd, BitIdx};
use bitvec_order::order::{BitAt, BitOrder, Direction, direction_of};

/// Where the bits of a piece come from. Which it is, is found once a combination.
#[derive(Clone, Copy, PartialEq, Eq, Debug)]
pub enum Way {
    /// From one word, each bit from its own position.
    Whole,
    /// From neighbouring words, shifted and merged: positions rise with the index.
    Rising,
    /// From neighbouring words, shifted and merged: positions fall as the index rises.
    Falling,
    /// Bit by bit.
    Singly,
}

// Whether two registers have one width, and two orders over them one position for each index.
#[inline(always)]
fn are_same<R: BitRegister, O: BitAt<R>, R2: BitRegister, O2: BitAt<R2>>() -> bool
    ensures { IsTrue result ↔ ((R.BITS ≡ R2.BITS) × AreSame R.BITS O.at_of O2.at_of) }
{
    if R::BITS != R2::BITS {
        return false;
    }
    for index in 0..R::BITS {
        let ours = O::at(BitIdx::new_unchecked(index)).into_inner();
        let theirs = O2::at(BitIdx::new_unchecked(index)).into_inner();
        if ours != theirs {
            return false;
        }
    }
    true
}

// The best way to gather the pieces of a combination whose two sides start at the indices `from`
// and `to` of words.
#[inline(always)]
pub(super) fn way_of<R: BitRegister, O: BitAt<R>, R2: BitRegister, O2: BitAt<R2>>(
    from: u8,
    to: u8,
) -> Way
    ensures { Allows result R.BITS O.at_of R2.BITS O2.at_of from to }
{
    if from == to && are_same::<R, O, R2, O2>() {
        return Way::Whole;
    }
    match (direction_of::<R, O>(), direction_of::<R2, O2>()) {
        (Direction::Rises, Direction::Rises) => Way::Rising,
        (Direction::Falls, Direction::Falls) => Way::Falling,
        _ => Way::Singly,
    }
}

// The digits of `low` from `shift` on, and above them those of `high`.
fn merged<R: BitRegister>(low: R, high: R, shift: u8) -> R
    requires some { 0 < shift }
    requires most { shift < R.BITS }
    ensures below { R.number result < 2 ^ R.BITS }
    ensures low { (p : ℕ) → shift + p < R.BITS → digit (R.number result) p
        ≡ digit (R.number low) (shift + p) }
    ensures high { (p : ℕ) → p < shift → digit (R.number result) (R.BITS - shift + p)
        ≡ digit (R.number high) p }
{
    low.shr(shift).or(high.shl(R::BITS - shift))
}

// The word that is a number.
fn word_of<R: BitRegister>(number: u128) -> R
    requires { number < 2 ^ R.BITS }
    ensures { R.number result ≡ number }
{
    R::from_u128(number).unwrap_or(R::ZERO)
}

// The word of another register of the same width that is the same number.
fn same_word<R: BitRegister, R2: BitRegister>(word: R) -> R2
    requires { R.BITS ≡ R2.BITS }
    ensures { R2.number result ≡ R.number word }
{
    word_of(word.to_u128())
}

// The word whose bits are those of two neighbouring words, from index `shift` of the first on.
fn taken<R: BitRegister, O: BitAt<R>, R2: BitRegister, O2: BitAt<R2>>(
    rising: bool,
    low: R,
    high: R,
    shift: u8,
) -> R2
    requires some { 0 < shift }
    requires most { shift < R.BITS }
    requires width { R.BITS ≡ R2.BITS }
    requires rising { rising ≡ true → Rises R.BITS O.at_of × Rises R2.BITS O2.at_of }
    requires falling { rising ≡ false → Falls R.BITS O.at_of × Falls R2.BITS O2.at_of }
    ensures low { (j : ℕ) → shift + j < R.BITS
        → digit (R2.number result) (O2.at_of j) ≡ digit (R.number low) (O.at_of (shift + j)) }
    ensures high { (j : ℕ) → j < shift → digit (R2.number result) (O2.at_of (R.BITS - shift + j))
        ≡ digit (R.number high) (O.at_of j) }
{
    let word = if rising {
        merged(low, high, shift)
    } else {
        merged(high, low, R::BITS - shift)
    };
    same_word(word)
}

// The word that has, from index `bit` on, the bits of two neighbouring words from index `shift` on.
fn lined_up<R: BitRegister, O: BitAt<R>, R2: BitRegister, O2: BitAt<R2>>(
    rising: bool,
    low: R,
    high: R,
    shift: u8,
    bit: u8,
) -> R2
    requires most { shift < R.BITS }
    requires bit_in { bit < R2.BITS }
    requires width { R.BITS ≡ R2.BITS }
    requires rising { rising ≡ true → Rises R.BITS O.at_of × Rises R2.BITS O2.at_of }
    requires falling { rising ≡ false → Falls R.BITS O.at_of × Falls R2.BITS O2.at_of }
    ensures low { (j : ℕ) → bit + j < R.BITS → shift + j < R.BITS
        → digit (R2.number result) (O2.at_of (bit + j))
        ≡ digit (R.number low) (O.at_of (shift + j)) }
    ensures high { (j : ℕ) → bit + j < R.BITS → R.BITS ≤ shift + j
        → digit (R2.number result) (O2.at_of (bit + j))
        ≡ digit (R.number high) (O.at_of (shift + j - R.BITS)) }
{
    if shift > bit {
        return taken::<R, O, R2, O2>(rising, low, high, shift - bit);
    }
    if shift < bit {
        return taken::<R, O, R2, O2>(rising, low, low, R::BITS - (bit - shift));
    }
    same_word(low)
}

// The number whose ones are the positions of `count` indices from `bit` on.
fn mask_between<R: BitRegister, O: BitOrder<R>>(bit: u8, count: u8) -> R
    requires start { bit < R.BITS }
    requires end { bit + count ≤ R.BITS }
    ensures { IsMaskOf R.BITS O.at_of bit (bit + count) (R.number result) }
{
    let from = BitIdx::new_unchecked(bit);
    let upto = BitEnd::new_unchecked(bit + count);
    O::mask(Some(from), Some(upto)).into_inner()
}

// The mask of `count` indices from `bit` on, in an order whose positions rise, or fall: digits side
// by side.
#[inline(always)]
fn stretch_mask<R: BitRegister, O: BitAt<R>>(rising: bool, bit: u8, count: u8) -> R
    requires some { 0 < count }
    requires end { bit + count ≤ R.BITS }
    requires rising { rising ≡ true → Rises R.BITS O.at_of }
    requires falling { rising ≡ false → Falls R.BITS O.at_of }
    ensures { IsMaskOf R.BITS O.at_of bit (bit + count) (R.number result) }
{
    let position = if rising { bit } else { R::BITS - bit - count };
    R::ALL.shr(R::BITS - count).shl(position)
}

// The word with its bits under a mask, those of `count` indices from `bit` on, as another word has
// them.
#[inline(always)]
fn under_mask<R: BitRegister, O: BitOrder<R>>(word: R, with: R, mask: R, bit: u8, count: u8) -> R
    requires end { bit + count ≤ R.BITS }
    requires mask { IsMaskOf R.BITS O.at_of bit (bit + count) (R.number mask) }
    ensures inside { (j : ℕ) → j < count → digit (R.number result) (O.at_of (bit + j))
        ≡ digit (R.number with) (O.at_of (bit + j)) }
    ensures outside { (j : ℕ) → j < R.BITS → (j < bit) ⊎ (bit + count ≤ j)
        → digit (R.number result) (O.at_of j) ≡ digit (R.number word) (O.at_of j) }
{
    word.and(mask.not()).or(with.and(mask))
}

// The word with `count` of its bits, from index `bit` on, as another word has them.
pub(super) fn with_bits<R: BitRegister, O: BitOrder<R>>(word: R, with: R, bit: u8, count: u8) -> R
    requires start { bit < R.BITS }
    requires end { bit + count ≤ R.BITS }
    ensures inside { (j : ℕ) → j < count → digit (R.number result) (O.at_of (bit + j))
        ≡ digit (R.number with) (O.at_of (bit + j)) }
    ensures outside { (j : ℕ) → j < R.BITS → (j < bit) ⊎ (bit + count ≤ j)
        → digit (R.number result) (O.at_of j) ≡ digit (R.number word) (O.at_of j) }
{
    // A whole word needs no mask, whatever the order.
    if count == R::BITS {
        return with;
    }
    let mask = mask_between::<R, O>(bit, count);
    under_mask::<R, O>(word, with, mask, bit, count)
}

// The same in an order whose positions rise, or fall.
#[inline(always)]
fn with_stretch<R: BitRegister, O: BitOrder<R>>(
    rising: bool,
    word: R,
    with: R,
    bit: u8,
    count: u8,
) -> R
    requires some { 0 < count }
    requires end { bit + count ≤ R.BITS }
    requires rising { rising ≡ true → Rises R.BITS O.at_of }
    requires falling { rising ≡ false → Falls R.BITS O.at_of }
    ensures inside { (j : ℕ) → j < count → digit (R.number result) (O.at_of (bit + j))
        ≡ digit (R.number with) (O.at_of (bit + j)) }
    ensures outside { (j : ℕ) → j < R.BITS → (j < bit) ⊎ (bit + count ≤ j)
        → digit (R.number result) (O.at_of j) ≡ digit (R.number word) (O.at_of j) }
{
    let mask = stretch_mask::<R, O>(rising, bit, count);
    under_mask::<R, O>(word, with, mask, bit, count)
}

// The word with `count` of its bits, from index `bit` on, read one by one from those of another
// word from index `from` on.
fn singly<R: BitRegister, O: BitOrder<R>, R2: BitRegister, O2: BitOrder<R2>>(
    read: R,
    from: u8,
    word: R2,
    bit: u8,
    count: u8,
) -> R2
    requires from_in { from + count ≤ R.BITS }
    requires bit_in { bit + count ≤ R2.BITS }
    ensures inside { (j : ℕ) → j < count → digit (R2.number result) (O2.at_of (bit + j))
        ≡ digit (R.number read) (O.at_of (from + j)) }
    ensures outside { (j : ℕ) → j < R2.BITS → (j < bit) ⊎ (bit + count ≤ j)
        → digit (R2.number result) (O2.at_of j) ≡ digit (R2.number word) (O2.at_of j) }
{
    let mut gathered = word;
    for done in 0..count {
        let taken = bit_at::<R, O>(read, BitIdx::new_unchecked(from + done));
        gathered = with_bit::<R2, O2>(gathered, BitIdx::new_unchecked(bit + done), taken);
    }
    gathered
}

// The same from two neighbouring words, from index `shift` of the first on.
fn singly_of_two<R: BitRegister, O: BitOrder<R>, R2: BitRegister, O2: BitOrder<R2>>(
    low: R,
    high: R,
    shift: u8,
    word: R2,
    bit: u8,
    count: u8,
) -> R2
    requires most { shift < R.BITS }
    requires bit_in { bit + count ≤ R2.BITS }
    requires width { R.BITS ≡ R2.BITS }
    ensures low { (j : ℕ) → j < count → shift + j < R.BITS
        → digit (R2.number result) (O2.at_of (bit + j))
        ≡ digit (R.number low) (O.at_of (shift + j)) }
    ensures high { (j : ℕ) → j < count → R.BITS ≤ shift + j
        → digit (R2.number result) (O2.at_of (bit + j))
        ≡ digit (R.number high) (O.at_of (shift + j - R.BITS)) }
    ensures outside { (j : ℕ) → j < R2.BITS → (j < bit) ⊎ (bit + count ≤ j)
        → digit (R2.number result) (O2.at_of j) ≡ digit (R2.number word) (O2.at_of j) }
{
    let first = R::BITS - shift;
    if count <= first {
        return singly::<R, O, R2, O2>(low, shift, word, bit, count);
    }
    let begun = singly::<R, O, R2, O2>(low, shift, word, bit, first);
    singly::<R, O, R2, O2>(high, 0, begun, bit + first, count - first)
}

// The word whose digits from position `to` on are `count` digits of a word of any register, from
// position `from` on.
fn carried<R: BitRegister, R2: BitRegister>(word: R, from: u8, to: u8, count: u8) -> R2
    requires some { 0 < count }
    requires from_in { from + count ≤ R.BITS }
    requires to_in { to + count ≤ R2.BITS }
    ensures { (p : ℕ) → p < count → digit (R2.number result) (to + p)
        ≡ digit (R.number word) (from + p) }
{
    let lowest = R::ALL.shr(R::BITS - count);
    let digits = word.shr(from).and(lowest);
    let here: R2 = word_of(digits.to_u128());
    here.shl(to)
}

// The word with a piece of `count` bits from its index `bit` on, all of it from one word of any
// register, from index `from` on.
fn gathered_from_word<R: BitRegister, O: BitOrder<R>, R2: BitRegister, O2: BitOrder<R2>>(
    way: Way,
    read: R,
    from: u8,
    word: R2,
    bit: u8,
    count: u8,
) -> R2
    requires some { 0 < count }
    requires from_in { from + count ≤ R.BITS }
    requires bit_in { bit + count ≤ R2.BITS }
    requires rising { way ≡ Way.Rising → Rises R.BITS O.at_of × Rises R2.BITS O2.at_of }
    requires falling { way ≡ Way.Falling → Falls R.BITS O.at_of × Falls R2.BITS O2.at_of }
    ensures inside { (j : ℕ) → j < count → digit (R2.number result) (O2.at_of (bit + j))
        ≡ digit (R.number read) (O.at_of (from + j)) }
    ensures outside { (j : ℕ) → j < R2.BITS → (j < bit) ⊎ (bit + count ≤ j)
        → digit (R2.number result) (O2.at_of j) ≡ digit (R2.number word) (O2.at_of j) }
{
    match way {
        Way::Rising => {
            let with = carried::<R, R2>(read, from, bit, count);
            return with_stretch::<R2, O2>(true, word, with, bit, count);
        }
        Way::Falling => {
            let lowest = R::BITS - from - count;
            let position = R2::BITS - bit - count;
            let with = carried::<R, R2>(read, lowest, position, count);
            return with_stretch::<R2, O2>(false, word, with, bit, count);
        }
        Way::Whole | Way::Singly => {}
    }
    singly::<R, O, R2, O2>(read, from, word, bit, count)
}

// The word with a piece of `count` bits from its index `bit` on, from two neighbouring words, from
// index `shift` of the first on.
#[inline(always)]
pub(super) fn gathered_from_pair<R: BitRegister, O: BitOrder<R>, R2: BitRegister, O2: BitOrder<R2>>(
    way: Way,
    low: R,
    high: R,
    shift: u8,
    word: R2,
    bit: u8,
    count: u8,
) -> R2
    requires some { 0 < count }
    requires most { shift < R.BITS }
    requires bit_in { bit + count ≤ R2.BITS }
    requires width { R.BITS ≡ R2.BITS }
    requires way { Allows way R.BITS O.at_of R2.BITS O2.at_of shift bit }
    ensures low { (j : ℕ) → j < count → shift + j < R.BITS
        → digit (R2.number result) (O2.at_of (bit + j))
        ≡ digit (R.number low) (O.at_of (shift + j)) }
    ensures high { (j : ℕ) → j < count → R.BITS ≤ shift + j
        → digit (R2.number result) (O2.at_of (bit + j))
        ≡ digit (R.number high) (O.at_of (shift + j - R.BITS)) }
    ensures outside { (j : ℕ) → j < R2.BITS → (j < bit) ⊎ (bit + count ≤ j)
        → digit (R2.number result) (O2.at_of j) ≡ digit (R2.number word) (O2.at_of j) }
{
    match way {
        Way::Whole => {
            return with_bits::<R2, O2>(word, same_word(low), bit, count);
        }
        Way::Rising => {
            let with = lined_up::<R, O, R2, O2>(true, low, high, shift, bit);
            return with_stretch::<R2, O2>(true, word, with, bit, count);
        }
        Way::Falling => {
            let with = lined_up::<R, O, R2, O2>(false, low, high, shift, bit);
            return with_stretch::<R2, O2>(false, word, with, bit, count);
        }
        Way::Singly => {}
    }
    singly_of_two::<R, O, R2, O2>(low, high, shift, word, bit, count)
}

// The word that has all its bits from two neighbouring words, from index `shift` of the first on.
// It asks nothing of the shift, so that LLVM can make several such words side by side.
#[inline(always)]
pub(super) fn gathered_whole<R: BitRegister, O: BitOrder<R>>(
    way: Way,
    low: R,
    high: R,
    shift: u8,
) -> R
    requires most { shift < R.BITS }
    requires way { Allows way R.BITS O.at_of R.BITS O.at_of shift 0 }
    requires rising { way ≡ Way.Rising → 0 < shift }
    requires falling { way ≡ Way.Falling → 0 < shift }
    ensures low { (j : ℕ) → shift + j < R.BITS
        → digit (R.number result) (O.at_of j) ≡ digit (R.number low) (O.at_of (shift + j)) }
    ensures high { (j : ℕ) → j < R.BITS → R.BITS ≤ shift + j
        → digit (R.number result) (O.at_of j)
        ≡ digit (R.number high) (O.at_of (shift + j - R.BITS)) }
{
    match way {
        Way::Whole => {
            return low;
        }
        Way::Rising => {
            return taken::<R, O, R, O>(true, low, high, shift);
        }
        Way::Falling => {
            return taken::<R, O, R, O>(false, low, high, shift);
        }
        Way::Singly => {}
    }
    singly_of_two::<R, O, R, O>(low, high, shift, low, 0, R::BITS)
}

// The word with a piece of `count` bits from its index `bit` on, from a memory of words of another
// width from a place on: one share from each word that is read.
fn gathered_across_widths<R: BitRegister, O: BitOrder<R>, R2: BitRegister, O2: BitOrder<R2>>(
    way: Way,
    source: &[R],
    from: Cursor<R>,
    word: R2,
    bit: u8,
    count: u8,
) -> R2
    requires bit_in { bit + count ≤ R2.BITS }
    requires way { Allows way R.BITS O.at_of R2.BITS O2.at_of from.bit bit }
    requires from_in { cursor_place from + count ≤ length source.now * R.BITS }
    ensures inside { (j : ℕ) → j < count → digit (R2.number result) (O2.at_of (bit + j))
        ≡ bit_of R.BITS O.at_of (map R.number source.now) (cursor_place from + j) }
    ensures outside { (j : ℕ) → j < R2.BITS → (j < bit) ⊎ (bit + count ≤ j)
        → digit (R2.number result) (O2.at_of j) ≡ digit (R2.number word) (O2.at_of j) }
{
    let mut gathered = word;
    let mut read = from;
    let mut done = 0;
    while done < count {
        let share = (R::BITS - read.bit).min(count - done);
        let here = source[read.word];
        gathered = gathered_from_word::<R, O, R2, O2>(
            way,
            here,
            read.bit,
            gathered,
            bit + done,
            share,
        );
        read = Cursor::new(read.word + 1, 0);
        done += share;
    }
    gathered
}

// The two words of a memory that have `count` bits from a place on; the first twice where it has
// all.
#[inline(always)]
fn pair_from<R: BitRegister>(source: &[R], from: Cursor<R>, count: u8) -> (R, R)
    requires some { 0 < count }
    requires most { count ≤ R.BITS }
    requires from_in { cursor_place from + count ≤ length source.now * R.BITS }
    ensures low { R.number result.0 ≡ slice_index (map R.number source.now) from.word }
    ensures high { R.BITS < from.bit + count → R.number result.1
        ≡ slice_index (map R.number source.now) (from.word + 1) }
{
    let low = source[from.word];
    if from.bit + count > R::BITS {
        return (low, source[from.word + 1]);
    }
    (low, low)
}

// The same of a writer's words.
#[inline(always)]
pub(super) fn pair_in<R: BitRegister>(writer: &WordWriter<R>, from: Cursor<R>, count: u8) -> (R, R)
    requires some { 0 < count }
    requires most { count ≤ R.BITS }
    requires from_in { cursor_place from + count ≤ length (writer_of writer.now).words * R.BITS }
    ensures low { R.number result.0 ≡ slice_index (map R.number (writer_of writer.now).words)
        from.word }
    ensures high { R.BITS < from.bit + count → R.number result.1
        ≡ slice_index (map R.number (writer_of writer.now).words) (from.word + 1) }
{
    let low = writer.get(from.word);
    if from.bit + count > R::BITS {
        let high = writer.get(from.word + 1);
        return (low, high);
    }
    (low, low)
}

// The word with a piece of `count` bits from its index `bit` on, from a memory from a place on.
#[inline(always)]
pub(super) fn gathered_from<R: BitRegister, O: BitOrder<R>, R2: BitRegister, O2: BitOrder<R2>>(
    way: Way,
    source: &[R],
    from: Cursor<R>,
    word: R2,
    bit: u8,
    count: u8,
) -> R2
    requires some { 0 < count }
    requires bit_in { bit + count ≤ R2.BITS }
    requires way { Allows way R.BITS O.at_of R2.BITS O2.at_of from.bit bit }
    requires from_in { cursor_place from + count ≤ length source.now * R.BITS }
    ensures inside { (j : ℕ) → j < count → digit (R2.number result) (O2.at_of (bit + j))
        ≡ bit_of R.BITS O.at_of (map R.number source.now) (cursor_place from + j) }
    ensures outside { (j : ℕ) → j < R2.BITS → (j < bit) ⊎ (bit + count ≤ j)
        → digit (R2.number result) (O2.at_of j) ≡ digit (R2.number word) (O2.at_of j) }
{
    if R::BITS != R2::BITS {
        return gathered_across_widths::<R, O, R2, O2>(way, source, from, word, bit, count);
    }
    let (low, high) = pair_from(source, from, count);
    gathered_from_pair::<R, O, R2, O2>(way, low, high, from.bit, word, bit, count)
}
