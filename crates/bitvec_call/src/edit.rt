//! Edits of all the bits of a range.

ghost use Rattle.std.specs.Prelude.{◌≡◌, ◌+◌, ◌*◌, ◌≤◌, length};
ghost use Rattle.bitvec.specs.Place.{region_max_bits};
ghost use Rattle.bitvec_call.specs.Call.{operand, IsEdit, IsMove};
ghost use Rattle.bitvec_call.specs.Edit.{edited, moved_by};
ghost use Rattle.bitvec_call.specs.Order.{order_at};
ghost use Rattle.bitvec_call.specs.Range.{MemoryEdits};

use crate::range::bits_mut;
use crate::status::{LSB0, OK, test_moved, test_range};
use bitvec::mem::BitRegister;
use bitvec::order::{BitOrder, Lsb0, Msb0};

/// An edit of all the bits of a range.
#[derive(Clone, Copy)]
pub enum Edit {
    /// Turns each bit over.
    Invert,
    /// Puts the bits in the opposite order.
    Reverse,
    /// Moves each bit this many places towards the first, and zeros in behind the last.
    ShiftLeft(usize),
    /// Moves each bit this many places towards the last, and zeros in before the first.
    ShiftRight(usize),
    /// Puts this many of the first bits behind the others.
    RotateLeft(usize),
}

// By how many places an edit moves each bit.
fn moves(edit: Edit) -> usize
    ensures { result ≡ moved_by edit }
{
    match edit {
        Edit::Invert => 0,
        Edit::Reverse => 0,
        Edit::ShiftLeft(by) => by,
        Edit::ShiftRight(by) => by,
        Edit::RotateLeft(by) => by,
    }
}

// Edits the bits of a range, and changes no other bit.
fn edit_in<R: BitRegister, O: BitOrder<R>>(memory: &mut [R], start: usize, count: usize, edit: Edit)
    requires short { count ≤ region_max_bits }
    requires inside { start + count ≤ length memory.old * R.BITS }
    requires by { moved_by edit ≤ count }
    ensures { MemoryEdits (edited edit) R.number R.BITS O.at_of start count memory.old memory.new }
{
    let mut range = bits_mut::<R, O>(memory, start, count);
    match edit {
        Edit::Invert => range.invert(),
        Edit::Reverse => range.reverse(),
        Edit::ShiftLeft(by) => range.shift_left(by),
        Edit::ShiftRight(by) => range.shift_right(by),
        Edit::RotateLeft(by) => range.rotate_left(by),
    }
}

// The same under the order of a code.
fn edit_range<R: BitRegister>(order: u8, memory: &mut [R], start: usize, count: usize, edit: Edit)
    requires short { count ≤ region_max_bits }
    requires inside { start + count ≤ length memory.old * R.BITS }
    requires by { moved_by edit ≤ count }
    ensures { MemoryEdits (edited edit) R.number R.BITS (order_at R.BITS order) start count
        memory.old memory.new }
{
    if order == LSB0 {
        edit_in::<R, Lsb0>(memory, start, count, edit);
    } else {
        edit_in::<R, Msb0>(memory, start, count, edit);
    }
}

/// Edits the bits of a range, and changes no other bit. It costs by words.
///
/// It refuses with `NO_ORDER`, `TOO_LONG` or `OUTSIDE`, also where the edit moves bits by more
/// places than the range has, and then the memory is as it was.
pub fn try_edit<R: BitRegister>(
    order: u8,
    memory: &mut [R],
    start: usize,
    count: usize,
    edit: Edit,
) -> u8
    ensures { let at = operand R.number R.BITS order start in IsMove (moved_by edit) (at
        memory.old) (at memory.new) count (edited edit) result }
{
    let status = test_moved::<R>(order, memory.len(), start, count, moves(edit));
    if status == OK {
        edit_range(order, memory, start, count, edit);
    }
    status
}

/// Edits the bits of a range, and changes no other bit, by an edit that has to move none, such as
/// `Edit::Invert` and `Edit::Reverse`. It costs by words.
///
/// It refuses with `NO_ORDER`, `TOO_LONG` or `OUTSIDE`, and then the memory is as it was.
pub fn edit_all<R: BitRegister>(
    order: u8,
    memory: &mut [R],
    start: usize,
    count: usize,
    edit: Edit,
) -> u8
    requires { moved_by edit ≡ 0 }
    ensures { let at = operand R.number R.BITS order start in IsEdit (at memory.old) (at
        memory.new) count (edited edit) result }
{
    let status = test_range::<R>(order, memory.len(), start, count);
    if status == OK {
        edit_range(order, memory, start, count, edit);
    }
    status
}
