//! Numbers of a given number of digits that are written one behind the other.

ghost use Rattle.std.specs.Prelude.{◌≡◌, ◌+◌, ◌-◌, ◌*◌, ◌^◌, ◌<◌, ◌≤◌, ◌↔◌, Err, IsOk, IfOk, IfErr};
ghost use Rattle.std.specs.Prelude.{length, map};
ghost use Rattle.bitvec.specs.Place.{region_max_bits};
ghost use Rattle.bitvec_slice.specs.Signed.{complement_of, FitsSignedDigits};
ghost use Rattle.bitvec_stream.specs.Writer.{room, Writes};
ghost use Rattle.bitvec_call.specs.Call.{operand};
ghost use Rattle.bitvec_call.specs.Status.{ok};
ghost use Rattle.bitvec_call.specs.Stream.{digits_by, write_status, WritesNumber, WritesSigned};
ghost use Rattle.bitvec_call.specs.Stream.{IsNumberWrite, IsSignedWrite};

use crate::status::{LSB0, MAX_DIGITS, OK, TOO_FEW, TOO_LARGE, TOO_WIDE, test_left};
use crate::stream::writer_between;
use bitvec::mem::BitRegister;
use bitvec::order::{BitOrder, Lsb0, Msb0};
use bitvec_stream::error::WriteError;
use bitvec_stream::writer::BitWriter;

// The status of a writer's refusal.
fn status_of(error: WriteError) -> u8
    ensures { result ≡ write_status error }
{
    match error {
        WriteError::NoRoom => TOO_FEW,
        WriteError::TooManyDigits => TOO_LARGE,
    }
}

// Writes a number in `count` bits, the first the highest digit, or else the lowest.
fn put<R: BitRegister, O: BitOrder<R>>(
    writer: &mut BitWriter<'_, R, O>,
    big: bool,
    count: usize,
    number: u64,
) -> Result<(), WriteError>
    requires { count ≤ 64 }
    ensures accepted { IsOk result
        ↔ ((count ≤ length (room writer.old)) × (number < 2 ^ count)) }
    ensures no_room { (result ≡ Err WriteError.NoRoom) ↔ (length (room writer.old) < count) }
    ensures written { IfOk result
        (λ _. Writes writer.old writer.new (digits_by big count number)) }
    ensures kept { IfErr result (λ _. writer.new ≡ writer.old) }
{
    if big {
        writer.write_be(count, number)
    } else {
        writer.write_le(count, number)
    }
}

// Writes a number from a place on, and moves the place behind its bits.
fn write_in<R: BitRegister, O: BitOrder<R>>(
    big: bool,
    memory: &mut [R],
    place: &mut usize,
    end: usize,
    count: usize,
    number: u64,
) -> u8
    requires short { end - place.old ≤ region_max_bits }
    requires rises { place.old ≤ end }
    requires inside { place.old + (end - place.old) ≤ length memory.old * R.BITS }
    ensures { WritesNumber big ok R.BITS O.at_of place.old place.new end (map R.number memory.old)
        (map R.number memory.new) count number result }
{
    if count > MAX_DIGITS {
        return TOO_WIDE;
    }
    let mut writer = writer_between::<R, O>(memory, *place, end);
    match put(&mut writer, big, count, number) {
        Ok(()) => {
            *place += count;
            OK
        }
        Err(error) => status_of(error),
    }
}

/// Makes the next `count` bits, at most 64, of those from `place` on that end before `end`, the
/// digits of a number: the first is its lowest, or highest where `big`. It moves `place` behind
/// them, changes no other bit, and costs by words.
///
/// It refuses with `NO_ORDER`, `TOO_LONG`, `OUTSIDE`, `TOO_WIDE`, `TOO_FEW`, or `TOO_LARGE` where
/// the number has more digits, and then the memory and `place` are as they were.
pub fn write<R: BitRegister>(
    order: u8,
    big: bool,
    memory: &mut [R],
    place: &mut usize,
    end: usize,
    count: usize,
    number: u64,
) -> u8
    ensures { let at = operand R.number R.BITS order place.old in IsNumberWrite big (at memory.old)
        (at memory.new) end place.new count number result }
{
    let status = test_left::<R>(order, memory.len(), *place, end);
    if status != OK {
        return status;
    }
    if order == LSB0 {
        write_in::<R, Lsb0>(big, memory, place, end, count, number)
    } else {
        write_in::<R, Msb0>(big, memory, place, end, count, number)
    }
}

// Writes the two's complement of a signed number in `count` bits, the first the highest digit, or
// else the lowest.
fn put_signed<R: BitRegister, O: BitOrder<R>>(
    writer: &mut BitWriter<'_, R, O>,
    big: bool,
    count: usize,
    number: i64,
) -> Result<(), WriteError>
    requires { count ≤ 64 }
    ensures accepted { IsOk result
        ↔ ((count ≤ length (room writer.old)) × FitsSignedDigits count number) }
    ensures no_room { (result ≡ Err WriteError.NoRoom) ↔ (length (room writer.old) < count) }
    ensures written { IfOk result
        (λ _. Writes writer.old writer.new (digits_by big count (complement_of count number))) }
    ensures kept { IfErr result (λ _. writer.new ≡ writer.old) }
{
    if big {
        writer.write_signed_be(count, number)
    } else {
        writer.write_signed_le(count, number)
    }
}

// Writes a signed number from a place on, and moves the place behind its bits.
fn write_signed_in<R: BitRegister, O: BitOrder<R>>(
    big: bool,
    memory: &mut [R],
    place: &mut usize,
    end: usize,
    count: usize,
    number: i64,
) -> u8
    requires short { end - place.old ≤ region_max_bits }
    requires rises { place.old ≤ end }
    requires inside { place.old + (end - place.old) ≤ length memory.old * R.BITS }
    ensures { WritesSigned big ok R.BITS O.at_of place.old place.new end (map R.number memory.old)
        (map R.number memory.new) count number result }
{
    if count > MAX_DIGITS {
        return TOO_WIDE;
    }
    let mut writer = writer_between::<R, O>(memory, *place, end);
    match put_signed(&mut writer, big, count, number) {
        Ok(()) => {
            *place += count;
            OK
        }
        Err(error) => status_of(error),
    }
}

/// Makes the next `count` bits, at most 64, the digits of a signed number's two's complement, the
/// first its lowest, or highest where `big`. It moves `place` behind them, changes no other bit,
/// and costs by words.
///
/// It refuses with `NO_ORDER`, `TOO_LONG`, `OUTSIDE`, `TOO_WIDE`, `TOO_FEW`, or `TOO_LARGE` where
/// the number wants more digits, and then the memory and `place` are as they were.
pub fn write_signed<R: BitRegister>(
    order: u8,
    big: bool,
    memory: &mut [R],
    place: &mut usize,
    end: usize,
    count: usize,
    number: i64,
) -> u8
    ensures { let at = operand R.number R.BITS order place.old in IsSignedWrite big (at memory.old)
        (at memory.new) end place.new count number result }
{
    let status = test_left::<R>(order, memory.len(), *place, end);
    if status != OK {
        return status;
    }
    if order == LSB0 {
        write_signed_in::<R, Lsb0>(big, memory, place, end, count, number)
    } else {
        write_signed_in::<R, Msb0>(big, memory, place, end, count, number)
    }
}
