//! Questions of two ranges of bits, whose words and orders may differ.

ghost use Rattle.std.specs.Prelude.{◌≡◌, ◌+◌, ◌*◌, ◌≤◌, length};
ghost use Rattle.bitvec.specs.Place.{region_max_bits};
ghost use Rattle.bitvec_call.specs.Call.{operand, CountsPairs, FindsPair};
ghost use Rattle.bitvec_call.specs.Range.{bits_in, coded_bits};
ghost use Rattle.bitvec_call.specs.Seek.{pair_count, IsFirstPair};

use crate::range::span;
use crate::status::{LSB0, OK, test_pair};
use bitvec::mem::BitRegister;
use bitvec::order::{BitOrder, Lsb0, Msb0};
use bitvec::ptr::combine::Combine;

// How many of the pairs of bits of two ranges `C` makes one.
fn count_in<C: Combine, R: BitRegister, O: BitOrder<R>, R2: BitRegister, O2: BitOrder<R2>>(
    memory: &[R],
    start: usize,
    other: &[R2],
    other_start: usize,
    count: usize,
) -> usize
    requires short { count ≤ region_max_bits }
    requires inside { start + count ≤ length memory.now * R.BITS }
    requires other_inside { other_start + count ≤ length other.now * R2.BITS }
    ensures { result ≡ pair_count C.of (bits_in R.number R.BITS O.at_of start memory.now)
        (bits_in R2.number R2.BITS O2.at_of other_start other.now) count }
{
    let here = span::<R, O>(start, count);
    let there = span::<R2, O2>(other_start, count);
    here.count_with::<C, R2, O2>(memory, there, other)
}

// The same where the other's order is that of a code.
fn count_from<C: Combine, R: BitRegister, O: BitOrder<R>, R2: BitRegister>(
    memory: &[R],
    start: usize,
    other_order: u8,
    other: &[R2],
    other_start: usize,
    count: usize,
) -> usize
    requires short { count ≤ region_max_bits }
    requires inside { start + count ≤ length memory.now * R.BITS }
    requires other_inside { other_start + count ≤ length other.now * R2.BITS }
    ensures { result ≡ pair_count C.of (bits_in R.number R.BITS O.at_of start memory.now)
        (coded_bits R2.number R2.BITS other_order other_start other.now) count }
{
    if other_order == LSB0 {
        count_in::<C, R, O, R2, Lsb0>(memory, start, other, other_start, count)
    } else {
        count_in::<C, R, O, R2, Msb0>(memory, start, other, other_start, count)
    }
}

// The same where both orders are those of codes.
fn count_of<C: Combine, R: BitRegister, R2: BitRegister>(
    order: u8,
    memory: &[R],
    start: usize,
    other_order: u8,
    other: &[R2],
    other_start: usize,
    count: usize,
) -> usize
    requires short { count ≤ region_max_bits }
    requires inside { start + count ≤ length memory.now * R.BITS }
    requires other_inside { other_start + count ≤ length other.now * R2.BITS }
    ensures { result ≡ pair_count C.of (coded_bits R.number R.BITS order start memory.now)
        (coded_bits R2.number R2.BITS other_order other_start other.now) count }
{
    if order == LSB0 {
        count_from::<C, R, Lsb0, R2>(memory, start, other_order, other, other_start, count)
    } else {
        count_from::<C, R, Msb0, R2>(memory, start, other_order, other, other_start, count)
    }
}

/// Answers how many of the pairs of bits of two ranges `C` makes one. It costs by words where the
/// orders are the same, else by bits.
///
/// It refuses with `NO_ORDER`, `TOO_LONG` or `OUTSIDE`, and then the answer is as it was. The first
/// memory is tested whole before the other.
pub fn count_with<C: Combine, R: BitRegister, R2: BitRegister>(
    order: u8,
    memory: &[R],
    start: usize,
    other_order: u8,
    other: &[R2],
    other_start: usize,
    count: usize,
    ones: &mut usize,
) -> u8
    ensures { CountsPairs C.of (operand R.number R.BITS order start memory.now) (operand R2.number
        R2.BITS other_order other_start other.now) count ones.old ones.new result }
{
    let words = memory.len();
    let status = test_pair::<R, R2>(
        order,
        words,
        start,
        other_order,
        other.len(),
        other_start,
        count,
    );
    if status == OK {
        *ones = count_of::<C, R, R2>(order, memory, start, other_order, other, other_start, count);
    }
    status
}

// The index of the first pair of bits of two ranges that `C` makes one, and how many there are
// where it makes none.
fn first_in<C: Combine, R: BitRegister, O: BitOrder<R>, R2: BitRegister, O2: BitOrder<R2>>(
    memory: &[R],
    start: usize,
    other: &[R2],
    other_start: usize,
    count: usize,
) -> usize
    requires short { count ≤ region_max_bits }
    requires inside { start + count ≤ length memory.now * R.BITS }
    requires other_inside { other_start + count ≤ length other.now * R2.BITS }
    ensures { IsFirstPair C.of (bits_in R.number R.BITS O.at_of start memory.now)
        (bits_in R2.number R2.BITS O2.at_of other_start other.now) count result }
{
    let here = span::<R, O>(start, count);
    let there = span::<R2, O2>(other_start, count);
    match here.first_with::<C, R2, O2>(memory, there, other) {
        Some(i) => i,
        None => count,
    }
}

// The same where the other's order is that of a code.
fn first_from<C: Combine, R: BitRegister, O: BitOrder<R>, R2: BitRegister>(
    memory: &[R],
    start: usize,
    other_order: u8,
    other: &[R2],
    other_start: usize,
    count: usize,
) -> usize
    requires short { count ≤ region_max_bits }
    requires inside { start + count ≤ length memory.now * R.BITS }
    requires other_inside { other_start + count ≤ length other.now * R2.BITS }
    ensures { IsFirstPair C.of (bits_in R.number R.BITS O.at_of start memory.now)
        (coded_bits R2.number R2.BITS other_order other_start other.now) count result }
{
    if other_order == LSB0 {
        first_in::<C, R, O, R2, Lsb0>(memory, start, other, other_start, count)
    } else {
        first_in::<C, R, O, R2, Msb0>(memory, start, other, other_start, count)
    }
}

// The same where both orders are those of codes.
fn first_of<C: Combine, R: BitRegister, R2: BitRegister>(
    order: u8,
    memory: &[R],
    start: usize,
    other_order: u8,
    other: &[R2],
    other_start: usize,
    count: usize,
) -> usize
    requires short { count ≤ region_max_bits }
    requires inside { start + count ≤ length memory.now * R.BITS }
    requires other_inside { other_start + count ≤ length other.now * R2.BITS }
    ensures { IsFirstPair C.of (coded_bits R.number R.BITS order start memory.now)
        (coded_bits R2.number R2.BITS other_order other_start other.now) count result }
{
    if order == LSB0 {
        first_from::<C, R, Lsb0, R2>(memory, start, other_order, other, other_start, count)
    } else {
        first_from::<C, R, Msb0, R2>(memory, start, other_order, other, other_start, count)
    }
}

/// Answers the index of the first pair of bits of two ranges that `C` makes one, and `count` where
/// it makes none. It costs by words where the orders are the same, else by bits, up to that pair.
///
/// It refuses with `NO_ORDER`, `TOO_LONG` or `OUTSIDE`, and then the answer is as it was. The first
/// memory is tested whole before the other.
pub fn first_with<C: Combine, R: BitRegister, R2: BitRegister>(
    order: u8,
    memory: &[R],
    start: usize,
    other_order: u8,
    other: &[R2],
    other_start: usize,
    count: usize,
    index: &mut usize,
) -> u8
    ensures { FindsPair C.of (operand R.number R.BITS order start memory.now) (operand R2.number
        R2.BITS other_order other_start other.now) count index.old index.new result }
{
    let words = memory.len();
    let status = test_pair::<R, R2>(
        order,
        words,
        start,
        other_order,
        other.len(),
        other_start,
        count,
    );
    if status == OK {
        *index = first_of::<C, R, R2>(order, memory, start, other_order, other, other_start, count);
    }
    status
}
