//! Single bits of a memory.

ghost use Rattle.std.specs.Prelude.{◌≡◌, ◌*◌, ◌<◌, length, map};
ghost use Rattle.bitvec.specs.Memory.{bit_of};
ghost use Rattle.bitvec_call.specs.Call.{operand, IsBitRead, IsBitWrite};
ghost use Rattle.bitvec_call.specs.Order.{order_at};
ghost use Rattle.bitvec_call.specs.Range.{WritesBit};

use crate::range::pointer;
use crate::status::{LSB0, MSB0, NO_ORDER, OK, OUTSIDE, is_place};
use bitvec::mem::BitRegister;
use bitvec::order::{BitOrder, Lsb0, Msb0};

// The bit at a place.
#[inline(always)]
fn read_in<R: BitRegister, O: BitOrder<R>>(memory: &[R], place: usize) -> bool
    requires { place < length memory.now * R.BITS }
    ensures { result ≡ bit_of R.BITS O.at_of (map R.number memory.now) place }
{
    pointer::<R, O>(place).read(memory)
}

// The same under the order of a code.
#[inline(always)]
pub(crate) fn read<R: BitRegister>(order: u8, memory: &[R], place: usize) -> bool
    requires { place < length memory.now * R.BITS }
    ensures { result ≡ bit_of R.BITS (order_at R.BITS order) (map R.number memory.now) place }
{
    if order == LSB0 {
        read_in::<R, Lsb0>(memory, place)
    } else {
        read_in::<R, Msb0>(memory, place)
    }
}

/// Answers the bit at a place of a memory, in constant time.
///
/// It refuses with `NO_ORDER` or `OUTSIDE`, and then the answer is as it was.
#[inline(always)]
pub fn get<R: BitRegister>(order: u8, memory: &[R], place: usize, bit: &mut bool) -> u8
    ensures { IsBitRead (operand R.number R.BITS order place memory.now) bit.old bit.new result }
{
    // Tested one by one, with no status between: a bit is read in few instructions.
    if order > MSB0 {
        return NO_ORDER;
    }
    if !is_place::<R>(memory.len(), place) {
        return OUTSIDE;
    }
    *bit = read(order, memory, place);
    OK
}

// Writes the bit at a place under the order of a code, and changes no other bit.
#[inline(always)]
pub(crate) fn write<R: BitRegister>(order: u8, memory: &mut [R], place: usize, bit: bool)
    requires { place < length memory.old * R.BITS }
    ensures { WritesBit R.BITS (order_at R.BITS order) place bit (map R.number memory.old)
        (map R.number memory.new) }
{
    if order == LSB0 {
        pointer::<R, Lsb0>(place).write(memory, bit);
    } else {
        pointer::<R, Msb0>(place).write(memory, bit);
    }
}

/// Makes the bit at a place of a memory `bit`, and changes no other bit, in constant time.
///
/// It refuses with `NO_ORDER` or `OUTSIDE`, and then the memory is as it was.
#[inline(always)]
pub fn set<R: BitRegister>(order: u8, memory: &mut [R], place: usize, bit: bool) -> u8
    ensures { let at = operand R.number R.BITS order place in IsBitWrite (at memory.old) (at
        memory.new) bit result }
{
    if order > MSB0 {
        return NO_ORDER;
    }
    if !is_place::<R>(memory.len(), place) {
        return OUTSIDE;
    }
    write(order, memory, place, bit);
    OK
}
