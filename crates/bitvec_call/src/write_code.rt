//! Numbers in unary and as Exp-Golomb codes that are written one behind the other.

ghost use Rattle.std.specs.Prelude.{◌+◌, ◌-◌, ◌*◌, ◌<◌, ◌≤◌, length, map};
ghost use Rattle.bitvec.specs.Place.{region_max_bits};
ghost use Rattle.bitvec_stream.specs.Golomb.{signed_place};
ghost use Rattle.bitvec_call.specs.Call.{operand};
ghost use Rattle.bitvec_call.specs.Status.{ok};
ghost use Rattle.bitvec_call.specs.Stream.{WritesUnary, WritesCode};
ghost use Rattle.bitvec_call.specs.Stream.{IsUnaryWrite, IsCodeWrite, IsSignedCodeWrite};

use crate::status::{LSB0, OK, TOO_FEW, test_left};
use crate::stream::writer_between;
use bitvec::mem::BitRegister;
use bitvec::order::{BitOrder, Lsb0, Msb0};

// Writes a number of bits that are `bit`, and one that is not, from a place on, and moves the place
// behind them.
fn write_unary_in<R: BitRegister, O: BitOrder<R>>(
    memory: &mut [R],
    place: &mut usize,
    end: usize,
    bit: bool,
    count: usize,
) -> u8
    requires short { end - place.old ≤ region_max_bits }
    requires rises { place.old ≤ end }
    requires inside { place.old + (end - place.old) ≤ length memory.old * R.BITS }
    ensures { WritesUnary bit ok R.BITS O.at_of place.old place.new end (map R.number memory.old)
        (map R.number memory.new) count result }
{
    let mut writer = writer_between::<R, O>(memory, *place, end);
    match writer.write_unary(bit, count) {
        Ok(()) => {
            *place += writer.position();
            OK
        }
        Err(_) => TOO_FEW,
    }
}

/// Writes `count` bits that are `bit` from `place` on, and one that is not, which ends before
/// `end`. It moves `place` behind that one, changes no other bit, and costs by words.
///
/// It refuses with `NO_ORDER`, `TOO_LONG`, `OUTSIDE` or `TOO_FEW`, and then the memory and `place`
/// are as they were.
pub fn write_unary<R: BitRegister>(
    order: u8,
    memory: &mut [R],
    place: &mut usize,
    end: usize,
    bit: bool,
    count: usize,
) -> u8
    ensures { let at = operand R.number R.BITS order place.old in IsUnaryWrite bit (at memory.old)
        (at memory.new) end place.new count result }
{
    let status = test_left::<R>(order, memory.len(), *place, end);
    if status != OK {
        return status;
    }
    if order == LSB0 {
        write_unary_in::<R, Lsb0>(memory, place, end, bit, count)
    } else {
        write_unary_in::<R, Msb0>(memory, place, end, bit, count)
    }
}

// Writes the Exp-Golomb code of a number from a place on, and moves the place behind it.
fn write_exp_golomb_in<R: BitRegister, O: BitOrder<R>>(
    memory: &mut [R],
    place: &mut usize,
    end: usize,
    number: u64,
) -> u8
    requires short { end - place.old ≤ region_max_bits }
    requires rises { place.old ≤ end }
    requires inside { place.old + (end - place.old) ≤ length memory.old * R.BITS }
    ensures { WritesCode ok R.BITS O.at_of place.old place.new end (map R.number memory.old) (map
        R.number memory.new) number result }
{
    let mut writer = writer_between::<R, O>(memory, *place, end);
    match writer.write_exp_golomb(number) {
        Ok(()) => {
            *place += writer.position();
            OK
        }
        Err(_) => TOO_FEW,
    }
}

/// Writes the Exp-Golomb code of a number from `place` on, which ends before `end`. It moves
/// `place` behind it, changes no other bit, and costs by words.
///
/// It refuses with `NO_ORDER`, `TOO_LONG`, `OUTSIDE` or `TOO_FEW`, and then the memory and `place`
/// are as they were.
pub fn write_exp_golomb<R: BitRegister>(
    order: u8,
    memory: &mut [R],
    place: &mut usize,
    end: usize,
    number: u64,
) -> u8
    ensures { let at = operand R.number R.BITS order place.old in IsCodeWrite (at memory.old)
        (at memory.new) end place.new number result }
{
    let status = test_left::<R>(order, memory.len(), *place, end);
    if status != OK {
        return status;
    }
    if order == LSB0 {
        write_exp_golomb_in::<R, Lsb0>(memory, place, end, number)
    } else {
        write_exp_golomb_in::<R, Msb0>(memory, place, end, number)
    }
}

// Writes the Exp-Golomb code of a signed number from a place on, and moves the place behind it.
fn write_signed_exp_golomb_in<R: BitRegister, O: BitOrder<R>>(
    memory: &mut [R],
    place: &mut usize,
    end: usize,
    number: i64,
) -> u8
    requires short { end - place.old ≤ region_max_bits }
    requires rises { place.old ≤ end }
    requires inside { place.old + (end - place.old) ≤ length memory.old * R.BITS }
    ensures { WritesCode ok R.BITS O.at_of place.old place.new end (map R.number memory.old) (map
        R.number memory.new) (signed_place number) result }
{
    let mut writer = writer_between::<R, O>(memory, *place, end);
    match writer.write_signed_exp_golomb(number) {
        Ok(()) => {
            *place += writer.position();
            OK
        }
        Err(_) => TOO_FEW,
    }
}

/// Writes the Exp-Golomb code of a signed number from `place` on, which ends before `end`. It moves
/// `place` behind it, changes no other bit, and costs by words.
///
/// It refuses with `NO_ORDER`, `TOO_LONG`, `OUTSIDE` or `TOO_FEW`, and then the memory and `place`
/// are as they were.
pub fn write_signed_exp_golomb<R: BitRegister>(
    order: u8,
    memory: &mut [R],
    place: &mut usize,
    end: usize,
    number: i64,
) -> u8
    ensures { let at = operand R.number R.BITS order place.old in IsSignedCodeWrite (at memory.old)
        (at memory.new) end place.new number result }
{
    let status = test_left::<R>(order, memory.len(), *place, end);
    if status != OK {
        return status;
    }
    if order == LSB0 {
        write_signed_exp_golomb_in::<R, Lsb0>(memory, place, end, number)
    } else {
        write_signed_exp_golomb_in::<R, Msb0>(memory, place, end, number)
    }
}
