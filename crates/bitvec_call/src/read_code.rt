//! Numbers in unary and as Exp-Golomb codes that are read one behind the other.

ghost use Rattle.std.specs.Prelude.{◌≡◌, ◌+◌, ◌-◌, ◌*◌, ◌≤◌, length, map};
ghost use Rattle.bitvec.specs.Place.{region_max_bits};
ghost use Rattle.bitvec_call.specs.Call.{operand};
ghost use Rattle.bitvec_call.specs.Status.{ok};
ghost use Rattle.bitvec_call.specs.Stream.{bits_between, ReadsUnary, ReadsCode, ReadsSignedCode};
ghost use Rattle.bitvec_call.specs.Stream.{IsUnaryRead, IsCodeRead, IsSignedCodeRead, read_status};

use crate::status::{LSB0, OK, TOO_FEW, TOO_LARGE, test_left};
use crate::stream::reader_between;
use bitvec::mem::BitRegister;
use bitvec::order::{BitOrder, Lsb0, Msb0};
use bitvec_stream::error::ReadError;

// The status of a reader's refusal.
fn status_of(error: ReadError) -> u8
    ensures { result ≡ read_status error }
{
    match error {
        ReadError::TooLarge => TOO_LARGE,
        _ => TOO_FEW,
    }
}

// Answers how many of the bits that are left are `bit` before the first that is not, and moves the
// place behind that one.
fn read_unary_in<R: BitRegister, O: BitOrder<R>>(
    memory: &[R],
    place: &mut usize,
    end: usize,
    bit: bool,
    count: &mut usize,
) -> u8
    requires short { end - place.old ≤ region_max_bits }
    requires rises { place.old ≤ end }
    requires inside { place.old + (end - place.old) ≤ length memory.now * R.BITS }
    ensures { ReadsUnary bit ok (bits_between R.BITS O.at_of place.old end (map R.number
        memory.now)) place.old place.new count.old count.new result }
{
    let mut reader = reader_between::<R, O>(memory, *place, end);
    match reader.read_unary(bit) {
        Ok(value) => {
            *count = value;
            *place += value + 1;
            OK
        }
        Err(error) => status_of(error),
    }
}

/// Answers how many bits are `bit` from `place` on before the first that is not, which ends before
/// `end`, and moves `place` behind that one. It costs by words.
///
/// It refuses with `NO_ORDER`, `TOO_LONG`, `OUTSIDE` or `TOO_FEW`, and then `place` and the answer
/// are as they were.
pub fn read_unary<R: BitRegister>(
    order: u8,
    memory: &[R],
    place: &mut usize,
    end: usize,
    bit: bool,
    count: &mut usize,
) -> u8
    ensures { IsUnaryRead bit (operand R.number R.BITS order place.old memory.now) end place.new
        count.old count.new result }
{
    let status = test_left::<R>(order, memory.len(), *place, end);
    if status != OK {
        return status;
    }
    if order == LSB0 {
        read_unary_in::<R, Lsb0>(memory, place, end, bit, count)
    } else {
        read_unary_in::<R, Msb0>(memory, place, end, bit, count)
    }
}

// Answers the number whose code the bits that are left begin with, and moves the place behind it.
fn read_exp_golomb_in<R: BitRegister, O: BitOrder<R>>(
    memory: &[R],
    place: &mut usize,
    end: usize,
    number: &mut u64,
) -> u8
    requires short { end - place.old ≤ region_max_bits }
    requires rises { place.old ≤ end }
    requires inside { place.old + (end - place.old) ≤ length memory.now * R.BITS }
    ensures { ReadsCode ok (bits_between R.BITS O.at_of place.old end (map R.number memory.now))
        place.old place.new number.old number.new result }
{
    let mut reader = reader_between::<R, O>(memory, *place, end);
    match reader.read_exp_golomb::<u64>() {
        Ok(value) => {
            *number = value;
            *place += reader.position();
            OK
        }
        Err(error) => status_of(error),
    }
}

/// Answers the number whose Exp-Golomb code stands from `place` on and ends before `end`, and moves
/// `place` behind it. It costs by words.
///
/// It refuses with `NO_ORDER`, `TOO_LONG`, `OUTSIDE`, `TOO_FEW` or `TOO_LARGE`, and then `place`
/// and the answer are as they were.
pub fn read_exp_golomb<R: BitRegister>(
    order: u8,
    memory: &[R],
    place: &mut usize,
    end: usize,
    number: &mut u64,
) -> u8
    ensures { IsCodeRead (operand R.number R.BITS order place.old memory.now) end place.new
        number.old number.new result }
{
    let status = test_left::<R>(order, memory.len(), *place, end);
    if status != OK {
        return status;
    }
    if order == LSB0 {
        read_exp_golomb_in::<R, Lsb0>(memory, place, end, number)
    } else {
        read_exp_golomb_in::<R, Msb0>(memory, place, end, number)
    }
}

// Answers the signed number whose code they begin with, and moves the place behind it.
fn read_signed_exp_golomb_in<R: BitRegister, O: BitOrder<R>>(
    memory: &[R],
    place: &mut usize,
    end: usize,
    number: &mut i64,
) -> u8
    requires short { end - place.old ≤ region_max_bits }
    requires rises { place.old ≤ end }
    requires inside { place.old + (end - place.old) ≤ length memory.now * R.BITS }
    ensures { ReadsSignedCode ok (bits_between R.BITS O.at_of place.old end (map R.number
        memory.now)) place.old place.new number.old number.new result }
{
    let mut reader = reader_between::<R, O>(memory, *place, end);
    match reader.read_signed_exp_golomb::<i64>() {
        Ok(value) => {
            *number = value;
            *place += reader.position();
            OK
        }
        Err(error) => status_of(error),
    }
}

/// Answers the signed number whose Exp-Golomb code stands from `place` on and ends before `end`,
/// and moves `place` behind it: the codes of 0, 1, 2, 3 and so on are those of 0, 1, -1, 2 and so
/// on. It costs by words.
///
/// It refuses with `NO_ORDER`, `TOO_LONG`, `OUTSIDE`, `TOO_FEW` or `TOO_LARGE`, and then `place`
/// and the answer are as they were.
pub fn read_signed_exp_golomb<R: BitRegister>(
    order: u8,
    memory: &[R],
    place: &mut usize,
    end: usize,
    number: &mut i64,
) -> u8
    ensures { IsSignedCodeRead (operand R.number R.BITS order place.old memory.now) end place.new
        number.old number.new result }
{
    let status = test_left::<R>(order, memory.len(), *place, end);
    if status != OK {
        return status;
    }
    if order == LSB0 {
        read_signed_exp_golomb_in::<R, Lsb0>(memory, place, end, number)
    } else {
        read_signed_exp_golomb_in::<R, Msb0>(memory, place, end, number)
    }
}
