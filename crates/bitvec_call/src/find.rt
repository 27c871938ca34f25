//! What is counted, found and compared in ranges of bits.

ghost use Rattle.std.specs.Prelude.{◌≡◌, ◌+◌, ◌*◌, ◌≤◌, ◌↔◌, IsTrue, false, length, map};
ghost use Rattle.bitvec.specs.Place.{region_max_bits};
ghost use Rattle.bitvec.specs.Truths.{ones_in};
ghost use Rattle.bitvec_slice.specs.Bits.{BeginsWith};
ghost use Rattle.bitvec_call.specs.Call.{operand, IsAnswer, IsComparison};
ghost use Rattle.bitvec_call.specs.Order.{order_at};
ghost use Rattle.bitvec_call.specs.Range.{range_bits, HaveSameBits};

use crate::range::bits;
use crate::status::{LSB0, OK, test_range, test_ranges};
use bitvec::mem::BitRegister;
use bitvec::order::{Lsb0, Msb0};

// How many bits of a range are one.
fn ones_of<R: BitRegister>(order: u8, memory: &[R], start: usize, count: usize) -> usize
    requires short { count ≤ region_max_bits }
    requires inside { start + count ≤ length memory.now * R.BITS }
    ensures { result ≡ ones_in (range_bits R.BITS (order_at R.BITS order) start count
        (map R.number memory.now)) }
{
    if order == LSB0 {
        bits::<R, Lsb0>(memory, start, count).count_ones()
    } else {
        bits::<R, Msb0>(memory, start, count).count_ones()
    }
}

/// Answers how many bits of a range are one. It costs by words.
///
/// It refuses with `NO_ORDER`, `TOO_LONG` or `OUTSIDE`, and then the answer is as it was.
pub fn count_ones<R: BitRegister>(
    order: u8,
    memory: &[R],
    start: usize,
    count: usize,
    ones: &mut usize,
) -> u8
    ensures { IsAnswer (operand R.number R.BITS order start memory.now) count (λ xs. ones.new ≡
        ones_in xs) (ones.new ≡ ones.old) result }
{
    let status = test_range::<R>(order, memory.len(), start, count);
    if status == OK {
        *ones = ones_of(order, memory, start, count);
    }
    status
}

// The index in a range of its first bit that is one, and how many bits it has where none is.
fn first_of<R: BitRegister>(order: u8, memory: &[R], start: usize, count: usize) -> usize
    requires short { count ≤ region_max_bits }
    requires inside { start + count ≤ length memory.now * R.BITS }
    ensures { BeginsWith false (range_bits R.BITS (order_at R.BITS order) start count
        (map R.number memory.now)) result }
{
    if order == LSB0 {
        bits::<R, Lsb0>(memory, start, count).leading_zeros()
    } else {
        bits::<R, Msb0>(memory, start, count).leading_zeros()
    }
}

/// Answers the index in a range of its first bit that is one, and `count` where there is none. It
/// costs by words, up to that bit.
///
/// It refuses with `NO_ORDER`, `TOO_LONG` or `OUTSIDE`, and then the answer is as it was.
pub fn first_one<R: BitRegister>(
    order: u8,
    memory: &[R],
    start: usize,
    count: usize,
    index: &mut usize,
) -> u8
    ensures { IsAnswer (operand R.number R.BITS order start memory.now) count (λ xs. BeginsWith
        false xs index.new) (index.new ≡ index.old) result }
{
    let status = test_range::<R>(order, memory.len(), start, count);
    if status == OK {
        *index = first_of(order, memory, start, count);
    }
    status
}

// Whether two ranges have the same bits.
fn are_equal<R: BitRegister>(
    order: u8,
    memory: &[R],
    start: usize,
    other: &[R],
    other_start: usize,
    count: usize,
) -> bool
    requires short { count ≤ region_max_bits }
    requires inside { start + count ≤ length memory.now * R.BITS }
    requires other_inside { other_start + count ≤ length other.now * R.BITS }
    ensures { IsTrue result ↔ HaveSameBits R.BITS (order_at R.BITS order) start
        (map R.number memory.now) other_start (map R.number other.now) count }
{
    if order == LSB0 {
        bits::<R, Lsb0>(memory, start, count).equals(&bits::<R, Lsb0>(other, other_start, count))
    } else {
        bits::<R, Msb0>(memory, start, count).equals(&bits::<R, Msb0>(other, other_start, count))
    }
}

/// Answers whether two ranges have the same bits, in order. It costs by words, up to the first
/// difference.
///
/// It refuses with `NO_ORDER`, `TOO_LONG` or `OUTSIDE`, and then the answer is as it was.
pub fn equal<R: BitRegister>(
    order: u8,
    memory: &[R],
    start: usize,
    other: &[R],
    other_start: usize,
    count: usize,
    same: &mut bool,
) -> u8
    ensures { let at = operand R.number R.BITS order in IsComparison (at start memory.now) (at
        other_start other.now) count same.old same.new result }
{
    let status = test_ranges::<R>(order, memory.len(), start, other.len(), other_start, count);
    if status == OK {
        *same = are_equal(order, memory, start, other, other_start, count);
    }
    status
}
