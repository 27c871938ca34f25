//! Copies of a range of bits to one of a memory whose words and order may be others.

ghost use Rattle.std.specs.Prelude.{◌+◌, ◌*◌, ◌≤◌, length};
ghost use Rattle.bitvec.specs.Place.{region_max_bits};
ghost use Rattle.bitvec_call.specs.Call.{operand, IsPut};
ghost use Rattle.bitvec_call.specs.Order.{order_at};
ghost use Rattle.bitvec_call.specs.Range.{bits_in, coded_bits, MemoryBecomes};

use crate::range::span;
use crate::status::{LSB0, OK, test_pair};
use bitvec::mem::BitRegister;
use bitvec::order::{BitOrder, Lsb0, Msb0};

// Makes the bits of a range those of another memory's, and changes no other bit.
fn convert_in<R2: BitRegister, O2: BitOrder<R2>, R: BitRegister, O: BitOrder<R>>(
    source: &[R2],
    from: usize,
    target: &mut [R],
    to: usize,
    count: usize,
)
    requires short { count ≤ region_max_bits }
    requires source_inside { from + count ≤ length source.now * R2.BITS }
    requires target_inside { to + count ≤ length target.old * R.BITS }
    ensures { MemoryBecomes R.number R.BITS O.at_of to count (bits_in R2.number R2.BITS O2.at_of
        from source.now count) target.old target.new }
{
    let here = span::<R, O>(to, count);
    let there = span::<R2, O2>(from, count);
    here.copy_from::<R2, O2>(target, there, source);
}

// The same where the source's order is that of a code.
fn convert_from<R2: BitRegister, R: BitRegister, O: BitOrder<R>>(
    source_order: u8,
    source: &[R2],
    from: usize,
    target: &mut [R],
    to: usize,
    count: usize,
)
    requires short { count ≤ region_max_bits }
    requires source_inside { from + count ≤ length source.now * R2.BITS }
    requires target_inside { to + count ≤ length target.old * R.BITS }
    ensures { MemoryBecomes R.number R.BITS O.at_of to count (coded_bits R2.number R2.BITS
        source_order from source.now count) target.old target.new }
{
    if source_order == LSB0 {
        convert_in::<R2, Lsb0, R, O>(source, from, target, to, count);
    } else {
        convert_in::<R2, Msb0, R, O>(source, from, target, to, count);
    }
}

/// The same where both orders are those of codes: makes the bits of a range those of another
/// memory's, and changes no other bit.
pub(crate) fn convert_range<R2: BitRegister, R: BitRegister>(
    source_order: u8,
    source: &[R2],
    from: usize,
    order: u8,
    target: &mut [R],
    to: usize,
    count: usize,
)
    requires short { count ≤ region_max_bits }
    requires source_inside { from + count ≤ length source.now * R2.BITS }
    requires target_inside { to + count ≤ length target.old * R.BITS }
    ensures { MemoryBecomes R.number R.BITS (order_at R.BITS order) to count (coded_bits R2.number
        R2.BITS source_order from source.now count) target.old target.new }
{
    if order == LSB0 {
        convert_from::<R2, R, Lsb0>(source_order, source, from, target, to, count);
    } else {
        convert_from::<R2, R, Msb0>(source_order, source, from, target, to, count);
    }
}

/// Copies a range of bits to one of another memory, whose words and order may be others, and
/// changes no other bit. It costs by words where the orders are the same, else by bits.
///
/// It refuses with `NO_ORDER`, `TOO_LONG` or `OUTSIDE`, and then the target is as it was. The
/// source is tested whole before the target.
pub fn convert<R2: BitRegister, R: BitRegister>(
    source_order: u8,
    source: &[R2],
    from: usize,
    order: u8,
    target: &mut [R],
    to: usize,
    count: usize,
) -> u8
    ensures { IsPut (operand R2.number R2.BITS source_order from source.now)
        (operand R.number R.BITS order) to target.old target.new count result }
{
    let words = target.len();
    let status = test_pair::<R2, R>(source_order, source.len(), from, order, words, to, count);
    if status == OK {
        convert_range::<R2, R>(source_order, source, from, order, target, to, count);
    }
    status
}
