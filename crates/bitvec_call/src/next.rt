//! What is looked for from an index of a range on: the next and the previous bit of a kind, and
//! free runs from a multiple of a number on.

ghost use Rattle.std.specs.Prelude.{◌+◌, ◌*◌, ◌≤◌, length, map};
ghost use Rattle.bitvec.specs.Place.{region_max_bits};
ghost use Rattle.bitvec_call.specs.Call.{operand, IsSearch};
ghost use Rattle.bitvec_call.specs.Order.{order_at};
ghost use Rattle.bitvec_call.specs.Range.{range_bits};
ghost use Rattle.bitvec_call.specs.Seek.{IsNextOr, IsPreviousOr, IsFreeFromOr};

use crate::range::bits;
use crate::status::{LSB0, OK, test_range};
use bitvec::mem::BitRegister;
use bitvec::order::{BitOrder, Lsb0, Msb0};

// The index in a range of its first bit from an index on that is `bit`, and how many bits it has
// where there is none.
fn next_in<R: BitRegister, O: BitOrder<R>>(
    memory: &[R],
    start: usize,
    count: usize,
    from: usize,
    bit: bool,
) -> usize
    requires short { count ≤ region_max_bits }
    requires inside { start + count ≤ length memory.now * R.BITS }
    ensures { IsNextOr bit from (range_bits R.BITS O.at_of start count (map R.number memory.now))
        count result }
{
    let range = bits::<R, O>(memory, start, count);
    if bit {
        match range.next_one(from) {
            Some(i) => i,
            None => count,
        }
    } else {
        match range.next_zero(from) {
            Some(i) => i,
            None => count,
        }
    }
}

// The same under the order of a code.
fn next_of<R: BitRegister>(
    order: u8,
    memory: &[R],
    start: usize,
    count: usize,
    from: usize,
    bit: bool,
) -> usize
    requires short { count ≤ region_max_bits }
    requires inside { start + count ≤ length memory.now * R.BITS }
    ensures { IsNextOr bit from (range_bits R.BITS (order_at R.BITS order) start count
        (map R.number memory.now)) count result }
{
    if order == LSB0 {
        next_in::<R, Lsb0>(memory, start, count, from, bit)
    } else {
        next_in::<R, Msb0>(memory, start, count, from, bit)
    }
}

/// Answers the index in a range of its first bit that is `bit`, of those from index `from` on, and
/// `count` where there is none. It costs by words, up to that bit.
///
/// It refuses with `NO_ORDER`, `TOO_LONG` or `OUTSIDE`, and then the answer is as it was.
pub fn next<R: BitRegister>(
    order: u8,
    memory: &[R],
    start: usize,
    count: usize,
    from: usize,
    bit: bool,
    index: &mut usize,
) -> u8
    ensures { IsSearch (operand R.number R.BITS order start memory.now) count (IsNextOr bit from)
        index.old index.new result }
{
    let status = test_range::<R>(order, memory.len(), start, count);
    if status == OK {
        *index = next_of(order, memory, start, count, from, bit);
    }
    status
}

// The index in a range of its last bit before an index that is `bit`, and how many bits it has
// where there is none.
fn previous_in<R: BitRegister, O: BitOrder<R>>(
    memory: &[R],
    start: usize,
    count: usize,
    before: usize,
    bit: bool,
) -> usize
    requires short { count ≤ region_max_bits }
    requires inside { start + count ≤ length memory.now * R.BITS }
    ensures { IsPreviousOr bit before (range_bits R.BITS O.at_of start count (map R.number
        memory.now)) count result }
{
    let range = bits::<R, O>(memory, start, count);
    if bit {
        match range.previous_one(before) {
            Some(i) => i,
            None => count,
        }
    } else {
        match range.previous_zero(before) {
            Some(i) => i,
            None => count,
        }
    }
}

// The same under the order of a code.
fn previous_of<R: BitRegister>(
    order: u8,
    memory: &[R],
    start: usize,
    count: usize,
    before: usize,
    bit: bool,
) -> usize
    requires short { count ≤ region_max_bits }
    requires inside { start + count ≤ length memory.now * R.BITS }
    ensures { IsPreviousOr bit before (range_bits R.BITS (order_at R.BITS order) start count
        (map R.number memory.now)) count result }
{
    if order == LSB0 {
        previous_in::<R, Lsb0>(memory, start, count, before, bit)
    } else {
        previous_in::<R, Msb0>(memory, start, count, before, bit)
    }
}

/// Answers the index in a range of its last bit that is `bit`, of those before index `before`, and
/// `count` where there is none. It costs by words, down to that bit.
///
/// It refuses with `NO_ORDER`, `TOO_LONG` or `OUTSIDE`, and then the answer is as it was.
pub fn previous<R: BitRegister>(
    order: u8,
    memory: &[R],
    start: usize,
    count: usize,
    before: usize,
    bit: bool,
    index: &mut usize,
) -> u8
    ensures { IsSearch (operand R.number R.BITS order start memory.now) count
        (IsPreviousOr bit before) index.old index.new result }
{
    let status = test_range::<R>(order, memory.len(), start, count);
    if status == OK {
        *index = previous_of(order, memory, start, count, before, bit);
    }
    status
}

// The first index in a range from an index on, and a multiple of a number, from which on `zeros` of
// its bits are zero, and how many bits it has where there is none.
fn find_zeros_from_in<R: BitRegister, O: BitOrder<R>>(
    memory: &[R],
    start: usize,
    count: usize,
    from: usize,
    zeros: usize,
    multiple_of: usize,
) -> usize
    requires short { count ≤ region_max_bits }
    requires inside { start + count ≤ length memory.now * R.BITS }
    ensures { IsFreeFromOr from zeros multiple_of (range_bits R.BITS O.at_of start count (map
        R.number memory.now)) count result }
{
    let range = bits::<R, O>(memory, start, count);
    match range.find_zeros_from(from, zeros, multiple_of.max(1)) {
        Some(i) => i,
        None => count,
    }
}

// The same under the order of a code.
fn find_zeros_from_of<R: BitRegister>(
    order: u8,
    memory: &[R],
    start: usize,
    count: usize,
    from: usize,
    zeros: usize,
    multiple_of: usize,
) -> usize
    requires short { count ≤ region_max_bits }
    requires inside { start + count ≤ length memory.now * R.BITS }
    ensures { IsFreeFromOr from zeros multiple_of (range_bits R.BITS (order_at R.BITS order) start
        count (map R.number memory.now)) count result }
{
    if order == LSB0 {
        find_zeros_from_in::<R, Lsb0>(memory, start, count, from, zeros, multiple_of)
    } else {
        find_zeros_from_in::<R, Msb0>(memory, start, count, from, zeros, multiple_of)
    }
}

/// Answers the first index in a range, not before `from` and a multiple of `multiple_of`, from
/// which on `zeros` of its bits are zero, and `count` where there is none. A `multiple_of` of 0 is
/// taken as 1. It costs as `find_zeros` of `seek`, and once more for each run that is long enough,
/// but not from a multiple on.
///
/// It refuses with `NO_ORDER`, `TOO_LONG` or `OUTSIDE`, and then the answer is as it was.
pub fn find_zeros_from<R: BitRegister>(
    order: u8,
    memory: &[R],
    start: usize,
    count: usize,
    from: usize,
    zeros: usize,
    multiple_of: usize,
    index: &mut usize,
) -> u8
    ensures { IsSearch (operand R.number R.BITS order start memory.now) count
        (IsFreeFromOr from zeros multiple_of) index.old index.new result }
{
    let status = test_range::<R>(order, memory.len(), start, count);
    if status == OK {
        *index = find_zeros_from_of(order, memory, start, count, from, zeros, multiple_of);
    }
    status
}
