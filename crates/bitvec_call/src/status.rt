//! The statuses that calls answer, and the tests behind them.

ghost use Rattle.std.specs.Prelude.{◌≡◌, ◌+◌, ◌-◌, ◌*◌, ◌≤◌, ◌↔◌, IsTrue};
ghost use Rattle.bitvec.specs.Place.{region_max_bits};
ghost use Rattle.bitvec_call.specs.Status.{ok, range_status, ranges_status, number_status};
ghost use Rattle.bitvec_call.specs.Status.{moved_status, left_status, pair_status, three_status};

use bitvec::mem::BitRegister;

/// All conditions of a call hold.
pub const OK: u8 = 0;

/// The order is neither [`LSB0`] nor [`MSB0`].
pub const NO_ORDER: u8 = 1;

/// A run has more than [`MAX_SPANS`] spans.
pub const TOO_MANY_SPANS: u8 = 2;

/// A range has more than [`MAX_BITS`] bits.
pub const TOO_LONG: u8 = 3;

/// A range ends behind its memory, a move goes past its range, or a stream ends before its place.
pub const OUTSIDE: u8 = 4;

/// A number is to have more than [`MAX_DIGITS`] digits.
pub const TOO_WIDE: u8 = 5;

/// Two spans of a run have a bit in common.
pub const OVERLAP: u8 = 6;

/// A run has not as many replies as requests, or room for the numbers of its spans.
pub const NO_ROOM: u8 = 7;

/// The code of a request's command is that of no command.
pub const NO_COMMAND: u8 = 8;

/// Fewer bits are left of a stream than are to be read or written, or they end before a run or a
/// code does.
pub const TOO_FEW: u8 = 9;

/// The number of a code has more digits than the answer of the call that reads it, or a number has
/// more than are to be written.
pub const TOO_LARGE: u8 = 10;

/// The code of the order from the least significant digit.
pub const LSB0: u8 = 0;

/// The code of the order from the most significant digit.
pub const MSB0: u8 = 1;

/// The greatest number of bits in a range.
pub const MAX_BITS: usize = usize::MAX >> 3;

/// The greatest number of spans in a run.
pub const MAX_SPANS: usize = 64;

/// The greatest number of digits in a number.
pub const MAX_DIGITS: usize = 64;

/// Whether `words` words have the bits before place `end`.
#[inline(always)]
fn has_end<R: BitRegister>(words: usize, end: usize) -> bool
    ensures { IsTrue result ↔ (end ≤ words * R.BITS) }
{
    // By the word that the end lies in: the number of all bits may have more than 64 digits.
    let bits = usize::from(R::BITS);
    end / bits < words || (end / bits == words && end % bits == 0)
}

/// Whether the range of `count` bits from place `start` on ends within `words` words.
#[inline(always)]
pub(crate) fn is_inside<R: BitRegister>(words: usize, start: usize, count: usize) -> bool
    ensures { IsTrue result ↔ (start + count ≤ words * R.BITS) }
{
    match start.checked_add(count) {
        Some(end) => has_end::<R>(words, end),
        None => start as u128 + count as u128 <= words as u128 * u128::from(R::BITS),
    }
}

/// The status of an order and of a range in a memory of `words` words.
#[inline(always)]
pub(crate) fn test_range<R: BitRegister>(order: u8, words: usize, start: usize, count: usize) -> u8
    ensures status { result ≡ range_status R.BITS order words start count }
    ensures order { result ≡ ok → order ≤ 1 }
    ensures short { result ≡ ok → count ≤ region_max_bits }
    ensures inside { result ≡ ok → start + count ≤ words * R.BITS }
{
    if order > MSB0 {
        NO_ORDER
    } else if count > MAX_BITS {
        TOO_LONG
    } else if !is_inside::<R>(words, start, count) {
        OUTSIDE
    } else {
        OK
    }
}

/// Whether a place lies in one of `words` words.
#[inline(always)]
pub(crate) fn is_place<R: BitRegister>(words: usize, place: usize) -> bool
    ensures { IsTrue result ↔ (place + 1 ≤ words * R.BITS) }
{
    // A quotient by a width is a shift, and passes no type as a product would.
    place / usize::from(R::BITS) < words
}

/// The status of an order and of two ranges of as many bits, each in a memory of its own.
pub(crate) fn test_ranges<R: BitRegister>(
    order: u8,
    words: usize,
    start: usize,
    other_words: usize,
    other_start: usize,
    count: usize,
) -> u8
    ensures status { result
        ≡ ranges_status R.BITS order words start other_words other_start count }
    ensures order { result ≡ ok → order ≤ 1 }
    ensures short { result ≡ ok → count ≤ region_max_bits }
    ensures inside { result ≡ ok → start + count ≤ words * R.BITS }
    ensures other_inside { result ≡ ok → other_start + count ≤ other_words * R.BITS }
{
    let status = test_range::<R>(order, words, start, count);
    if status == OK {
        test_range::<R>(order, other_words, other_start, count)
    } else {
        status
    }
}

/// The status of an order and of three ranges of as many bits, each in a memory of its own.
pub(crate) fn test_three<R: BitRegister>(
    order: u8,
    words: usize,
    start: usize,
    other_words: usize,
    other_start: usize,
    third_words: usize,
    third_start: usize,
    count: usize,
) -> u8
    ensures status { result ≡ three_status R.BITS order words start other_words other_start
        third_words third_start count }
    ensures order { result ≡ ok → order ≤ 1 }
    ensures short { result ≡ ok → count ≤ region_max_bits }
    ensures inside { result ≡ ok → start + count ≤ words * R.BITS }
    ensures other_inside { result ≡ ok → other_start + count ≤ other_words * R.BITS }
    ensures third_inside { result ≡ ok → third_start + count ≤ third_words * R.BITS }
{
    let status = test_ranges::<R>(order, words, start, other_words, other_start, count);
    if status == OK {
        test_range::<R>(order, third_words, third_start, count)
    } else {
        status
    }
}

/// The status of an order and of a range that is a number.
#[inline(always)]
pub(crate) fn test_number<R: BitRegister>(order: u8, words: usize, start: usize, count: usize) -> u8
    ensures status { result ≡ number_status R.BITS order words start count }
    ensures order { result ≡ ok → order ≤ 1 }
    ensures small { result ≡ ok → count ≤ 64 }
    ensures inside { result ≡ ok → start + count ≤ words * R.BITS }
{
    let status = test_range::<R>(order, words, start, count);
    if status == OK && count > MAX_DIGITS {
        TOO_WIDE
    } else {
        status
    }
}

/// The status of an order and of a range whose bits are moved by a number of places.
pub(crate) fn test_moved<R: BitRegister>(
    order: u8,
    words: usize,
    start: usize,
    count: usize,
    by: usize,
) -> u8
    ensures status { result ≡ moved_status R.BITS order words start count by }
    ensures order { result ≡ ok → order ≤ 1 }
    ensures short { result ≡ ok → count ≤ region_max_bits }
    ensures inside { result ≡ ok → start + count ≤ words * R.BITS }
    ensures by { result ≡ ok → by ≤ count }
{
    let status = test_range::<R>(order, words, start, count);
    if status == OK && by > count {
        OUTSIDE
    } else {
        status
    }
}

/// The status of an order and of the bits from a place to before an end, which is not before the
/// place.
pub(crate) fn test_left<R: BitRegister>(order: u8, words: usize, place: usize, end: usize) -> u8
    ensures status { result ≡ left_status R.BITS order words place end }
    ensures order { result ≡ ok → order ≤ 1 }
    ensures short { result ≡ ok → end - place ≤ region_max_bits }
    ensures rises { result ≡ ok → place ≤ end }
    ensures inside { result ≡ ok → place + (end - place) ≤ words * R.BITS }
{
    let status = test_range::<R>(order, words, place, end.saturating_sub(place));
    if status == OK && end < place {
        OUTSIDE
    } else {
        status
    }
}

/// The status of two ranges of as many bits, each in a memory of its own words, under an order of
/// its own.
pub(crate) fn test_pair<R: BitRegister, R2: BitRegister>(
    order: u8,
    words: usize,
    start: usize,
    other_order: u8,
    other_words: usize,
    other_start: usize,
    count: usize,
) -> u8
    ensures status { result
        ≡ pair_status R.BITS order words start R2.BITS other_order other_words other_start count }
    ensures order { result ≡ ok → order ≤ 1 }
    ensures other_order { result ≡ ok → other_order ≤ 1 }
    ensures short { result ≡ ok → count ≤ region_max_bits }
    ensures inside { result ≡ ok → start + count ≤ words * R.BITS }
    ensures other_inside { result ≡ ok → other_start + count ≤ other_words * R2.BITS }
{
    let status = test_range::<R>(order, words, start, count);
    if status == OK {
        test_range::<R2>(other_order, other_words, other_start, count)
    } else {
        status
    }
}
