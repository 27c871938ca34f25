//! A range of bits combined with one of another memory, whose words and order may be others, or
//! with one of the same memory, and one that is made of two others.

ghost use Rattle.std.specs.Prelude.{◌+◌, ◌*◌, ◌≤◌, length, map};
ghost use Rattle.bitvec.specs.Place.{region_max_bits};
ghost use Rattle.bitvec_call.specs.Call.{operand, IsCombination, IsCombinationWithin};
ghost use Rattle.bitvec_call.specs.Call.{CombinesSources, IsCombinationOf};
ghost use Rattle.bitvec_call.specs.Order.{order_at};
ghost use Rattle.bitvec_call.specs.Range.{bits_in, coded_bits, CombinesBits, MemoryCombines};
ghost use Rattle.bitvec_call.specs.Range.{CodedCombines};

use crate::convert::convert_range;
use crate::range::{pointer, span};
use crate::status::{LSB0, OK, test_pair, test_ranges, test_three};
use bitvec::mem::BitRegister;
use bitvec::order::{BitOrder, Lsb0, Msb0};
use bitvec::ptr::combine::Combine;

// Makes of each bit of a range what `C` makes of it and of the source's, and changes no other bit.
fn combine_in<C: Combine, R2: BitRegister, O2: BitOrder<R2>, R: BitRegister, O: BitOrder<R>>(
    source: &[R2],
    from: usize,
    target: &mut [R],
    to: usize,
    count: usize,
)
    requires short { count ≤ region_max_bits }
    requires source_inside { from + count ≤ length source.now * R2.BITS }
    requires target_inside { to + count ≤ length target.old * R.BITS }
    ensures { MemoryCombines C.of R.number R.BITS O.at_of to count (bits_in R2.number R2.BITS
        O2.at_of from source.now count) target.old target.new }
{
    let here = span::<R, O>(to, count);
    let there = span::<R2, O2>(from, count);
    here.combine_from::<C, R2, O2>(target, there, source);
}

// The same where the source's order is that of a code.
fn combine_from<C: Combine, R2: BitRegister, R: BitRegister, O: BitOrder<R>>(
    source_order: u8,
    source: &[R2],
    from: usize,
    target: &mut [R],
    to: usize,
    count: usize,
)
    requires short { count ≤ region_max_bits }
    requires source_inside { from + count ≤ length source.now * R2.BITS }
    requires target_inside { to + count ≤ length target.old * R.BITS }
    ensures { MemoryCombines C.of R.number R.BITS O.at_of to count (coded_bits R2.number R2.BITS
        source_order from source.now count) target.old target.new }
{
    if source_order == LSB0 {
        combine_in::<C, R2, Lsb0, R, O>(source, from, target, to, count);
    } else {
        combine_in::<C, R2, Msb0, R, O>(source, from, target, to, count);
    }
}

// The same where both orders are those of codes.
fn combine_range<C: Combine, R2: BitRegister, R: BitRegister>(
    source_order: u8,
    source: &[R2],
    from: usize,
    order: u8,
    target: &mut [R],
    to: usize,
    count: usize,
)
    requires short { count ≤ region_max_bits }
    requires source_inside { from + count ≤ length source.now * R2.BITS }
    requires target_inside { to + count ≤ length target.old * R.BITS }
    ensures { CodedCombines C.of R.number R.BITS order to count (coded_bits R2.number R2.BITS
        source_order from source.now count) target.old target.new }
{
    if order == LSB0 {
        combine_from::<C, R2, R, Lsb0>(source_order, source, from, target, to, count);
    } else {
        combine_from::<C, R2, R, Msb0>(source_order, source, from, target, to, count);
    }
}

/// Makes of each bit of a range what `C` makes of it and of the source's, and changes no other bit.
/// It costs by words where the orders are the same, else by bits.
///
/// It refuses with `NO_ORDER`, `TOO_LONG` or `OUTSIDE`, and then the target is as it was. The
/// source is tested whole before the target.
pub fn combine<C: Combine, R2: BitRegister, R: BitRegister>(
    source_order: u8,
    source: &[R2],
    from: usize,
    order: u8,
    target: &mut [R],
    to: usize,
    count: usize,
) -> u8
    ensures { IsCombination C.of (operand R2.number R2.BITS source_order from source.now)
        (operand R.number R.BITS order) to target.old target.new count result }
{
    let words = target.len();
    let status = test_pair::<R2, R>(source_order, source.len(), from, order, words, to, count);
    if status == OK {
        combine_range::<C, R2, R>(source_order, source, from, order, target, to, count);
    }
    status
}

// Makes of each bit of a range what `C` makes of it and of that of another of the same memory, as
// both were before the call, and changes no other bit.
fn within_in<C: Combine, R: BitRegister, O: BitOrder<R>>(
    memory: &mut [R],
    from: usize,
    to: usize,
    count: usize,
)
    requires source_inside { from + count ≤ length memory.old * R.BITS }
    requires target_inside { to + count ≤ length memory.old * R.BITS }
    ensures { let old = map R.number memory.old in CombinesBits C.of R.BITS O.at_of old from
        old to count (map R.number memory.new) }
{
    let first = pointer::<R, O>(from);
    let target_first = pointer::<R, O>(to);
    first.combine_within::<C>(memory, target_first, count);
}

// The same under the order of a code.
fn within_range<C: Combine, R: BitRegister>(
    order: u8,
    memory: &mut [R],
    from: usize,
    to: usize,
    count: usize,
)
    requires source_inside { from + count ≤ length memory.old * R.BITS }
    requires target_inside { to + count ≤ length memory.old * R.BITS }
    ensures { let old = map R.number memory.old in CombinesBits C.of R.BITS (order_at R.BITS
        order) old from old to count (map R.number memory.new) }
{
    if order == LSB0 {
        within_in::<C, R, Lsb0>(memory, from, to, count);
    } else {
        within_in::<C, R, Msb0>(memory, from, to, count);
    }
}

/// Makes of each bit of a range what `C` makes of it and of that of another of the same memory, as
/// both were before the call, and changes no other bit. It costs by words.
///
/// It refuses with `NO_ORDER`, `TOO_LONG` or `OUTSIDE`, and then the memory is as it was.
pub fn combine_within<C: Combine, R: BitRegister>(
    order: u8,
    memory: &mut [R],
    from: usize,
    to: usize,
    count: usize,
) -> u8
    ensures { IsCombinationWithin C.of (operand R.number R.BITS order) from to memory.old memory.new
        count result }
{
    let words = memory.len();
    let status = test_ranges::<R>(order, words, from, words, to, count);
    if status == OK {
        within_range::<C, R>(order, memory, from, to, count);
    }
    status
}

// Makes each bit of a range what `C` makes of those of two others, and changes no other bit.
fn range_of<C: Combine, R: BitRegister>(
    order: u8,
    first: &[R],
    first_from: usize,
    second: &[R],
    second_from: usize,
    target: &mut [R],
    to: usize,
    count: usize,
)
    requires short { count ≤ region_max_bits }
    requires first_inside { first_from + count ≤ length first.now * R.BITS }
    requires second_inside { second_from + count ≤ length second.now * R.BITS }
    requires target_inside { to + count ≤ length target.old * R.BITS }
    ensures { CombinesSources C.of (operand R.number R.BITS order) first_from first.now second_from
        second.now to target.old target.new count }
{
    convert_range::<R, R>(order, first, first_from, order, target, to, count);
    combine_range::<C, R, R>(order, second, second_from, order, target, to, count);
}

/// Makes each bit of a range what `C` makes of those of two others of memories of their own, and
/// changes no other bit. It costs by words.
///
/// It refuses with `NO_ORDER`, `TOO_LONG` or `OUTSIDE`, and then the target is as it was. All three
/// ranges are tested before a bit is written.
pub fn combine_of<C: Combine, R: BitRegister>(
    order: u8,
    first: &[R],
    first_from: usize,
    second: &[R],
    second_from: usize,
    target: &mut [R],
    to: usize,
    count: usize,
) -> u8
    ensures { IsCombinationOf C.of (operand R.number R.BITS order) first_from first.now second_from
        second.now to target.old target.new count result }
{
    let (here, there, words) = (first.len(), second.len(), target.len());
    let status = test_three::<R>(
        order,
        here,
        first_from,
        there,
        second_from,
        words,
        to,
        count,
    );
    if status == OK {
        range_of::<C, R>(
            order,
            first,
            first_from,
            second,
            second_from,
            target,
            to,
            count,
        );
    }
    status
}
