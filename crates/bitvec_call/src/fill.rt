//! Ranges of bits that are made the same.

ghost use Rattle.std.specs.Prelude.{◌+◌, ◌*◌, ◌≤◌, length, map, replicate};
ghost use Rattle.bitvec.specs.Place.{region_max_bits};
ghost use Rattle.bitvec_call.specs.Call.{operand, IsEdit};
ghost use Rattle.bitvec_call.specs.Order.{order_at};
ghost use Rattle.bitvec_call.specs.Range.{RangeBecomes};

use crate::range::span;
use crate::status::{LSB0, OK, test_range};
use bitvec::mem::BitRegister;
use bitvec::order::{BitOrder, Lsb0, Msb0};

// Makes each bit of a range the same, and changes no other bit.
fn fill_in<R: BitRegister, O: BitOrder<R>>(memory: &mut [R], start: usize, count: usize, bit: bool)
    requires short { count ≤ region_max_bits }
    requires inside { start + count ≤ length memory.old * R.BITS }
    ensures { RangeBecomes R.BITS O.at_of start count (replicate count bit)
        (map R.number memory.old) (map R.number memory.new) }
{
    span::<R, O>(start, count).fill(memory, bit);
}

// The same under the order of a code.
fn fill_range<R: BitRegister>(order: u8, memory: &mut [R], start: usize, count: usize, bit: bool)
    requires short { count ≤ region_max_bits }
    requires inside { start + count ≤ length memory.old * R.BITS }
    ensures { RangeBecomes R.BITS (order_at R.BITS order) start count (replicate count bit)
        (map R.number memory.old) (map R.number memory.new) }
{
    if order == LSB0 {
        fill_in::<R, Lsb0>(memory, start, count, bit);
    } else {
        fill_in::<R, Msb0>(memory, start, count, bit);
    }
}

/// Makes each bit of a range `bit`, and changes no other bit. It costs by words.
///
/// It refuses with `NO_ORDER`, `TOO_LONG` or `OUTSIDE`, and then the memory is as it was.
pub fn fill<R: BitRegister>(
    order: u8,
    memory: &mut [R],
    start: usize,
    count: usize,
    bit: bool,
) -> u8
    ensures { let at = operand R.number R.BITS order start in IsEdit (at memory.old) (at
        memory.new) count (λ xs. replicate count bit) result }
{
    let status = test_range::<R>(order, memory.len(), start, count);
    if status == OK {
        fill_range(order, memory, start, count, bit);
    }
    status
}
