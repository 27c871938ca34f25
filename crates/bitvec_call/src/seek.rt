//! What is looked for among the bits of a range: the first and the last of a kind, and free runs.

ghost use Rattle.std.specs.Prelude.{◌≡◌, ◌+◌, ◌*◌, ◌≤◌, not, length, map};
ghost use Rattle.bitvec.specs.Place.{region_max_bits};
ghost use Rattle.bitvec_slice.specs.Bits.{BeginsWith};
ghost use Rattle.bitvec_call.specs.Call.{operand, IsAnswer, IsSearch};
ghost use Rattle.bitvec_call.specs.Order.{order_at};
ghost use Rattle.bitvec_call.specs.Range.{range_bits};
ghost use Rattle.bitvec_call.specs.Seek.{IsLastOr, IsFreeOr};

use crate::range::bits;
use crate::status::{LSB0, OK, test_range};
use bitvec::mem::BitRegister;
use bitvec::order::{BitOrder, Lsb0, Msb0};

// The index in a range of its first bit that is `bit`, and how many bits it has where none is.
fn first_in<R: BitRegister, O: BitOrder<R>>(
    memory: &[R],
    start: usize,
    count: usize,
    bit: bool,
) -> usize
    requires short { count ≤ region_max_bits }
    requires inside { start + count ≤ length memory.now * R.BITS }
    ensures { BeginsWith (not bit) (range_bits R.BITS O.at_of start count
        (map R.number memory.now)) result }
{
    let range = bits::<R, O>(memory, start, count);
    if bit {
        range.leading_zeros()
    } else {
        range.leading_ones()
    }
}

// The same under the order of a code.
fn first_of<R: BitRegister>(order: u8, memory: &[R], start: usize, count: usize, bit: bool) -> usize
    requires short { count ≤ region_max_bits }
    requires inside { start + count ≤ length memory.now * R.BITS }
    ensures { BeginsWith (not bit) (range_bits R.BITS (order_at R.BITS order) start count
        (map R.number memory.now)) result }
{
    if order == LSB0 {
        first_in::<R, Lsb0>(memory, start, count, bit)
    } else {
        first_in::<R, Msb0>(memory, start, count, bit)
    }
}

/// Answers the index in a range of its first bit that is `bit`, and `count` where there is none. It
/// costs by words, up to that bit.
///
/// It refuses with `NO_ORDER`, `TOO_LONG` or `OUTSIDE`, and then the answer is as it was.
pub fn first<R: BitRegister>(
    order: u8,
    memory: &[R],
    start: usize,
    count: usize,
    bit: bool,
    index: &mut usize,
) -> u8
    ensures { IsAnswer (operand R.number R.BITS order start memory.now) count (λ xs. BeginsWith
        (not bit) xs index.new) (index.new ≡ index.old) result }
{
    let status = test_range::<R>(order, memory.len(), start, count);
    if status == OK {
        *index = first_of(order, memory, start, count, bit);
    }
    status
}

// The index in a range of its last bit that is `bit`, and how many bits it has where none is.
fn last_in<R: BitRegister, O: BitOrder<R>>(
    memory: &[R],
    start: usize,
    count: usize,
    bit: bool,
) -> usize
    requires short { count ≤ region_max_bits }
    requires inside { start + count ≤ length memory.now * R.BITS }
    ensures { IsLastOr bit (range_bits R.BITS O.at_of start count (map R.number memory.now))
        count result }
{
    let range = bits::<R, O>(memory, start, count);
    if bit {
        match range.last_one() {
            Some(i) => i,
            None => count,
        }
    } else {
        match range.last_zero() {
            Some(i) => i,
            None => count,
        }
    }
}

// The same under the order of a code.
fn last_of<R: BitRegister>(order: u8, memory: &[R], start: usize, count: usize, bit: bool) -> usize
    requires short { count ≤ region_max_bits }
    requires inside { start + count ≤ length memory.now * R.BITS }
    ensures { IsLastOr bit (range_bits R.BITS (order_at R.BITS order) start count
        (map R.number memory.now)) count result }
{
    if order == LSB0 {
        last_in::<R, Lsb0>(memory, start, count, bit)
    } else {
        last_in::<R, Msb0>(memory, start, count, bit)
    }
}

/// Answers the index in a range of its last bit that is `bit`, and `count` where there is none. It
/// costs by words, down to that bit.
///
/// It refuses with `NO_ORDER`, `TOO_LONG` or `OUTSIDE`, and then the answer is as it was.
pub fn last<R: BitRegister>(
    order: u8,
    memory: &[R],
    start: usize,
    count: usize,
    bit: bool,
    index: &mut usize,
) -> u8
    ensures { IsSearch (operand R.number R.BITS order start memory.now) count (IsLastOr bit)
        index.old index.new result }
{
    let status = test_range::<R>(order, memory.len(), start, count);
    if status == OK {
        *index = last_of(order, memory, start, count, bit);
    }
    status
}

// The first index in a range from which on `zeros` of its bits are zero, and how many bits it has
// where there is none.
fn zeros_in<R: BitRegister, O: BitOrder<R>>(
    memory: &[R],
    start: usize,
    count: usize,
    zeros: usize,
) -> usize
    requires short { count ≤ region_max_bits }
    requires inside { start + count ≤ length memory.now * R.BITS }
    ensures { IsFreeOr zeros (range_bits R.BITS O.at_of start count (map R.number memory.now))
        count result }
{
    let range = bits::<R, O>(memory, start, count);
    match range.find_zeros(zeros) {
        Some(i) => i,
        None => count,
    }
}

// The same under the order of a code.
fn zeros_of<R: BitRegister>(
    order: u8,
    memory: &[R],
    start: usize,
    count: usize,
    zeros: usize,
) -> usize
    requires short { count ≤ region_max_bits }
    requires inside { start + count ≤ length memory.now * R.BITS }
    ensures { IsFreeOr zeros (range_bits R.BITS (order_at R.BITS order) start count
        (map R.number memory.now)) count result }
{
    if order == LSB0 {
        zeros_in::<R, Lsb0>(memory, start, count, zeros)
    } else {
        zeros_in::<R, Msb0>(memory, start, count, zeros)
    }
}

/// Answers the first index in a range from which on `zeros` of its bits are zero, and `count` where
/// there is none. It costs by words where a run is no longer than a word, else by bits in words
/// that are not zero.
///
/// It refuses with `NO_ORDER`, `TOO_LONG` or `OUTSIDE`, and then the answer is as it was.
pub fn find_zeros<R: BitRegister>(
    order: u8,
    memory: &[R],
    start: usize,
    count: usize,
    zeros: usize,
    index: &mut usize,
) -> u8
    ensures { IsSearch (operand R.number R.BITS order start memory.now) count (IsFreeOr zeros)
        index.old index.new result }
{
    let status = test_range::<R>(order, memory.len(), start, count);
    if status == OK {
        *index = zeros_of(order, memory, start, count, zeros);
    }
    status
}
