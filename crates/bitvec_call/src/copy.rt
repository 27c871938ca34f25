//! Copies of ranges of bits, between two memories and inside one.

ghost use Rattle.std.specs.Prelude.{◌+◌, ◌*◌, ◌≤◌, length, map};
ghost use Rattle.bitvec_call.specs.Call.{operand, IsCopy};
ghost use Rattle.bitvec_call.specs.Order.{order_at};
ghost use Rattle.bitvec_call.specs.Range.{CopiesBits};

use crate::range::pointer;
use crate::status::{LSB0, OK, test_ranges};
use bitvec::mem::BitRegister;
use bitvec::order::{BitOrder, Lsb0, Msb0};

// Copies a range of bits to one of another memory, and changes no other bit.
fn copy_in<R: BitRegister, O: BitOrder<R>>(
    source: &[R],
    from: usize,
    target: &mut [R],
    to: usize,
    count: usize,
)
    requires source_inside { from + count ≤ length source.now * R.BITS }
    requires target_inside { to + count ≤ length target.old * R.BITS }
    ensures { CopiesBits R.BITS O.at_of (map R.number source.now) from
        (map R.number target.old) to count (map R.number target.new) }
{
    let first = pointer::<R, O>(from);
    let target_first = pointer::<R, O>(to);
    first.copy_to(source, target_first, target, count);
}

// The same under the order of a code.
fn copy_range<R: BitRegister>(
    order: u8,
    source: &[R],
    from: usize,
    target: &mut [R],
    to: usize,
    count: usize,
)
    requires source_inside { from + count ≤ length source.now * R.BITS }
    requires target_inside { to + count ≤ length target.old * R.BITS }
    ensures { CopiesBits R.BITS (order_at R.BITS order) (map R.number source.now) from
        (map R.number target.old) to count (map R.number target.new) }
{
    if order == LSB0 {
        copy_in::<R, Lsb0>(source, from, target, to, count);
    } else {
        copy_in::<R, Msb0>(source, from, target, to, count);
    }
}

/// Copies a range of bits to one of another memory, and changes no other bit. It costs by words.
///
/// It refuses with `NO_ORDER`, `TOO_LONG` or `OUTSIDE`, and then the target is as it was.
pub fn copy<R: BitRegister>(
    order: u8,
    source: &[R],
    from: usize,
    target: &mut [R],
    to: usize,
    count: usize,
) -> u8
    ensures { let at = operand R.number R.BITS order in IsCopy (at from source.now) (at to
        target.old) (at to target.new) count result }
{
    let words = target.len();
    let status = test_ranges::<R>(order, source.len(), from, words, to, count);
    if status == OK {
        copy_range(order, source, from, target, to, count);
    }
    status
}

// Copies a range of bits to another of the same memory, and changes no other bit. What is copied is
// what was there before the call.
fn move_in<R: BitRegister, O: BitOrder<R>>(memory: &mut [R], from: usize, to: usize, count: usize)
    requires source_inside { from + count ≤ length memory.old * R.BITS }
    requires target_inside { to + count ≤ length memory.old * R.BITS }
    ensures { let old = map R.number memory.old in CopiesBits R.BITS O.at_of old from
        old to count (map R.number memory.new) }
{
    let first = pointer::<R, O>(from);
    let target_first = pointer::<R, O>(to);
    first.copy_within(memory, target_first, count);
}

// The same under the order of a code.
fn move_range<R: BitRegister>(order: u8, memory: &mut [R], from: usize, to: usize, count: usize)
    requires source_inside { from + count ≤ length memory.old * R.BITS }
    requires target_inside { to + count ≤ length memory.old * R.BITS }
    ensures { let old = map R.number memory.old in CopiesBits R.BITS (order_at R.BITS order)
        old from old to count (map R.number memory.new) }
{
    if order == LSB0 {
        move_in::<R, Lsb0>(memory, from, to, count);
    } else {
        move_in::<R, Msb0>(memory, from, to, count);
    }
}

/// Copies a range of bits to another of the same memory, as they were before the call, and changes
/// no other bit. It costs by words.
///
/// It refuses with `NO_ORDER`, `TOO_LONG` or `OUTSIDE`, and then the memory is as it was.
pub fn copy_within<R: BitRegister>(
    order: u8,
    memory: &mut [R],
    from: usize,
    to: usize,
    count: usize,
) -> u8
    ensures { let at = operand R.number R.BITS order in IsCopy (at from memory.old) (at to
        memory.old) (at to memory.new) count result }
{
    let words = memory.len();
    let status = test_ranges::<R>(order, words, from, words, to, count);
    if status == OK {
        move_range(order, memory, from, to, count);
    }
    status
}
