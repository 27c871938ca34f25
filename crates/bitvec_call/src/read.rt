//! Numbers of a given number of digits that are read one behind the other.

ghost use Rattle.std.specs.Prelude.{◌≡◌, ◌+◌, ◌-◌, ◌*◌, ◌<◌, ◌≤◌, MatchResult, length, map, take};
ghost use Rattle.bitvec.specs.Place.{region_max_bits};
ghost use Rattle.bitvec_stream.specs.Reader.{unread};
ghost use Rattle.bitvec_call.specs.Call.{operand};
ghost use Rattle.bitvec_call.specs.Status.{ok};
ghost use Rattle.bitvec_call.specs.Stream.{number_by, signed_by, bits_between, ReadsNumber};
ghost use Rattle.bitvec_call.specs.Stream.{ReadsSigned, IsRead, IsSignedRead};

use crate::status::{LSB0, MAX_DIGITS, OK, TOO_FEW, TOO_WIDE, test_left};
use crate::stream::reader_between;
use bitvec::mem::BitRegister;
use bitvec::order::{BitOrder, Lsb0, Msb0};
use bitvec_stream::error::ReadError;
use bitvec_stream::reader::BitReader;

// The number of a reader's next `count` bits, the first the highest digit, or else the lowest.
fn next_number<R: BitRegister, O: BitOrder<R>>(
    mut reader: BitReader<'_, R, O>,
    big: bool,
    count: usize,
) -> Result<u64, ReadError>
    requires { count ≤ 64 }
    ensures { let xs = unread reader.entry in MatchResult result
        (λ n. (count ≤ length xs) × (n ≡ number_by big (take count xs)))
        (λ _. length xs < count) }
{
    if big {
        reader.read_be(count)
    } else {
        reader.read_le(count)
    }
}

// The signed number whose two's complement they are.
fn next_signed<R: BitRegister, O: BitOrder<R>>(
    mut reader: BitReader<'_, R, O>,
    big: bool,
    count: usize,
) -> Result<i64, ReadError>
    requires { count ≤ 64 }
    ensures { let xs = unread reader.entry in MatchResult result
        (λ z. (count ≤ length xs) × (z ≡ signed_by big count (take count xs)))
        (λ _. length xs < count) }
{
    if big {
        reader.read_signed_be(count)
    } else {
        reader.read_signed_le(count)
    }
}

// Answers the number of the first bits that are left, and moves the place behind them.
fn read_in<R: BitRegister, O: BitOrder<R>>(
    big: bool,
    memory: &[R],
    place: &mut usize,
    end: usize,
    count: usize,
    number: &mut u64,
) -> u8
    requires short { end - place.old ≤ region_max_bits }
    requires rises { place.old ≤ end }
    requires inside { place.old + (end - place.old) ≤ length memory.now * R.BITS }
    ensures { ReadsNumber big ok (bits_between R.BITS O.at_of place.old end (map R.number
        memory.now)) place.old place.new count number.old number.new result }
{
    if count > MAX_DIGITS {
        return TOO_WIDE;
    }
    let reader = reader_between::<R, O>(memory, *place, end);
    match next_number(reader, big, count) {
        Ok(value) => {
            *number = value;
            *place += count;
            OK
        }
        Err(_) => TOO_FEW,
    }
}

/// Answers the number of the next `count` bits, at most 64, of those from `place` on that end
/// before `end`: the first is its lowest digit, or highest where `big`. It moves `place` behind
/// them, and costs by words.
///
/// It refuses with `NO_ORDER`, `TOO_LONG`, `OUTSIDE`, `TOO_WIDE` or `TOO_FEW`, and then `place` and
/// the answer are as they were.
pub fn read<R: BitRegister>(
    order: u8,
    big: bool,
    memory: &[R],
    place: &mut usize,
    end: usize,
    count: usize,
    number: &mut u64,
) -> u8
    ensures { IsRead big (operand R.number R.BITS order place.old memory.now) end place.new count
        number.old number.new result }
{
    let status = test_left::<R>(order, memory.len(), *place, end);
    if status != OK {
        return status;
    }
    if order == LSB0 {
        read_in::<R, Lsb0>(big, memory, place, end, count, number)
    } else {
        read_in::<R, Msb0>(big, memory, place, end, count, number)
    }
}

// Answers the signed number of the first bits that are left, and moves the place behind them.
fn read_signed_in<R: BitRegister, O: BitOrder<R>>(
    big: bool,
    memory: &[R],
    place: &mut usize,
    end: usize,
    count: usize,
    number: &mut i64,
) -> u8
    requires short { end - place.old ≤ region_max_bits }
    requires rises { place.old ≤ end }
    requires inside { place.old + (end - place.old) ≤ length memory.now * R.BITS }
    ensures { ReadsSigned big ok (bits_between R.BITS O.at_of place.old end (map R.number
        memory.now)) place.old place.new count number.old number.new result }
{
    if count > MAX_DIGITS {
        return TOO_WIDE;
    }
    let reader = reader_between::<R, O>(memory, *place, end);
    match next_signed(reader, big, count) {
        Ok(value) => {
            *number = value;
            *place += count;
            OK
        }
        Err(_) => TOO_FEW,
    }
}

/// Answers the signed number whose two's complement the next `count` bits are, at most 64, the
/// first its lowest digit, or highest where `big`. It moves `place` behind them, and costs by
/// words.
///
/// It refuses with `NO_ORDER`, `TOO_LONG`, `OUTSIDE`, `TOO_WIDE` or `TOO_FEW`, and then `place` and
/// the answer are as they were.
pub fn read_signed<R: BitRegister>(
    order: u8,
    big: bool,
    memory: &[R],
    place: &mut usize,
    end: usize,
    count: usize,
    number: &mut i64,
) -> u8
    ensures { IsSignedRead big (operand R.number R.BITS order place.old memory.now) end place.new
        count number.old number.new result }
{
    let status = test_left::<R>(order, memory.len(), *place, end);
    if status != OK {
        return status;
    }
    if order == LSB0 {
        read_signed_in::<R, Lsb0>(big, memory, place, end, count, number)
    } else {
        read_signed_in::<R, Msb0>(big, memory, place, end, count, number)
    }
}
