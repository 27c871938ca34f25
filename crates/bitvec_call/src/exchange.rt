//! Single bits of a memory that are replaced and exchanged.

ghost use Rattle.std.specs.Prelude.{◌*◌, ◌<◌, length, map};
ghost use Rattle.bitvec_call.specs.Call.{operand, IsReplacement, IsExchange};
ghost use Rattle.bitvec_call.specs.Order.{order_at};
ghost use Rattle.bitvec_call.specs.Range.{ExchangesBits};

use crate::bit::{read, write};
use crate::status::{MSB0, NO_ORDER, OK, OUTSIDE, is_place};
use bitvec::mem::BitRegister;

/// Makes the bit at a place of a memory `bit`, changes no other bit, and answers the bit before, in
/// constant time.
///
/// It refuses with `NO_ORDER` or `OUTSIDE`, and then the memory and the answer are as they were.
#[inline(always)]
pub fn replace<R: BitRegister>(
    order: u8,
    memory: &mut [R],
    place: usize,
    bit: bool,
    before: &mut bool,
) -> u8
    ensures { let at = operand R.number R.BITS order place in IsReplacement (at memory.old)
        (at memory.new) bit before.old before.new result }
{
    if order > MSB0 {
        return NO_ORDER;
    }
    if !is_place::<R>(memory.len(), place) {
        return OUTSIDE;
    }
    *before = read(order, memory, place);
    write(order, memory, place, bit);
    OK
}

// Exchanges the bits at two places, and changes no other bit.
#[inline(always)]
fn exchange<R: BitRegister>(order: u8, memory: &mut [R], place: usize, other_place: usize)
    requires first { place < length memory.old * R.BITS }
    requires second { other_place < length memory.old * R.BITS }
    ensures { ExchangesBits R.BITS (order_at R.BITS order) place other_place
        (map R.number memory.old) (map R.number memory.new) }
{
    let bit = read(order, memory, place);
    let other_bit = read(order, memory, other_place);
    write(order, memory, place, other_bit);
    write(order, memory, other_place, bit);
}

/// Exchanges the bits at two places of a memory, which may be the same one, and changes no other
/// bit, in constant time.
///
/// It refuses with `NO_ORDER` or `OUTSIDE`, and then the memory is as it was.
#[inline(always)]
pub fn swap<R: BitRegister>(order: u8, memory: &mut [R], place: usize, other_place: usize) -> u8
    ensures { let at = operand R.number R.BITS order place in IsExchange (at memory.old)
        (at memory.new) other_place result }
{
    if order > MSB0 {
        return NO_ORDER;
    }
    if !is_place::<R>(memory.len(), place) || !is_place::<R>(memory.len(), other_place) {
        return OUTSIDE;
    }
    exchange(order, memory, place, other_place);
    OK
}
