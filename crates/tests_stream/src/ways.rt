//! Callers of each way to read and to write, with what they know of the bits, also where a call
//! refuses.

ghost use Rattle.std.specs.Prelude.{◌≡◌, ◌%◌, ◌<◌, ◌≤◌, ◌++◌, ◌∷◌, [], IfOk, MatchResult};
ghost use Rattle.std.specs.Prelude.{◌+◌, ◌↔◌, IsOk};
ghost use Rattle.std.specs.Prelude.{true, false, take, drop, length, replicate};
ghost use Rattle.bitvec_slice.specs.BitSlice.{slice_bits};
ghost use Rattle.bitvec_slice.specs.Signed.{signed_of, complement_of};
ghost use Rattle.bitvec_stream.specs.Multiples.{to_multiple};
ghost use Rattle.bitvec_stream.specs.Numbers.{number_le, number_be, digits_le, digits_be};
ghost use Rattle.bitvec_stream.specs.Reader.{bits_read, unread, Passes};
ghost use Rattle.bitvec_stream.specs.Writer.{bits_written, written, room};

use bitvec::mem::BitRegister;
use bitvec::order::BitOrder;
use bitvec_slice::slice::BitSlice;
use bitvec_stream::error::{ReadError, WriteError};
use bitvec_stream::reader::BitReader;
use bitvec_stream::writer::BitWriter;

/// The next bits as a number, the first the highest digit and the first the lowest.
fn both_ways<R: BitRegister, O: BitOrder<R>>(
    reader: &mut BitReader<'_, R, O>,
    count: usize,
) -> Result<(u64, u64), ReadError>
    requires { count ≤ 64 }
    ensures numbers { let bits = take count (unread reader.old)
        in IfOk result (λ it. (it.0 ≡ number_be bits) × (it.1 ≡ number_le bits)) }
    ensures moved { MatchResult result (λ _. Passes reader.old reader.new count)
        (λ error. (error ≡ ReadError.TooFew) × (reader.new ≡ reader.old)) }
{
    let highest_first = reader.peek_be(count)?;
    let lowest_first = reader.read_le(count)?;
    Ok((highest_first, lowest_first))
}

/// Two signed numbers, the one behind the other: the first bit the highest digit, and the lowest.
fn two_signed<R: BitRegister, O: BitOrder<R>>(
    reader: &mut BitReader<'_, R, O>,
) -> Result<(i8, i8), ReadError>
    ensures accepted { IsOk result ↔ (16 ≤ length (unread reader.old)) }
    ensures first { IfOk result (λ it. it.0
        ≡ signed_of 8 (number_be (take 8 (unread reader.old)))) }
    ensures second { IfOk result (λ it. it.1
        ≡ signed_of 8 (number_le (take 8 (drop 8 (unread reader.old))))) }
{
    let highest_first = reader.read_signed_be(8)?;
    let lowest_first = reader.read_signed_le(8)?;
    Ok((highest_first, lowest_first))
}

/// The byte at the next multiple of eight bits.
fn next_byte<R: BitRegister, O: BitOrder<R>>(
    reader: &mut BitReader<'_, R, O>,
) -> Result<u8, ReadError>
    ensures accepted { IsOk result
        ↔ (to_multiple 8 (bits_read reader.old) + 8 ≤ length (unread reader.old)) }
    ensures multiple { IfOk result (λ _. bits_read reader.new % 8 ≡ 0) }
{
    reader.skip_to_multiple(8)?;
    reader.read_be(8)
}

/// Passes over bits where as many are left, and else does nothing.
fn skip_if_there<R: BitRegister, O: BitOrder<R>>(reader: &mut BitReader<'_, R, O>, count: usize)
    ensures there { count ≤ length (unread reader.old) → Passes reader.old reader.new count }
    ensures else_same { length (unread reader.old) < count → reader.new ≡ reader.old }
{
    let _ = reader.skip(count);
}

/// Writes a number in both ways.
fn write_both_ways<R: BitRegister, O: BitOrder<R>>(
    writer: &mut BitWriter<'_, R, O>,
    value: u8,
) -> Result<(), WriteError>
    ensures accepted { IsOk result ↔ (16 ≤ length (room writer.old)) }
    ensures bits { IfOk result (λ _. written writer.new
        ≡ written writer.old ++ digits_be 8 value ++ digits_le 8 value) }
{
    writer.write_be(8, value)?;
    writer.write_le(8, value)
}

/// Writes a signed number in both ways.
fn write_both_signed_ways<R: BitRegister, O: BitOrder<R>>(
    writer: &mut BitWriter<'_, R, O>,
    value: i8,
) -> Result<(), WriteError>
    ensures accepted { IsOk result ↔ (16 ≤ length (room writer.old)) }
    ensures bits { IfOk result (λ _. written writer.new ≡ written writer.old
        ++ digits_be 8 (complement_of 8 value) ++ digits_le 8 (complement_of 8 value)) }
{
    writer.write_signed_be(8, value)?;
    writer.write_signed_le(8, value)
}

/// Writes a bit, a run that another ends, and the bits of a slice.
fn write_marked<R: BitRegister, O: BitOrder<R>, R2: BitRegister, O2: BitOrder<R2>>(
    writer: &mut BitWriter<'_, R, O>,
    count: usize,
    part: BitSlice<'_, R2, O2>,
) -> Result<(), WriteError>
    ensures accepted { IsOk result
        ↔ (count + length (slice_bits part.entry) + 2 ≤ length (room writer.old)) }
    ensures bits { IfOk result (λ _. written writer.new ≡ written writer.old ++ (true ∷ [])
        ++ (replicate count true ++ (false ∷ [])) ++ slice_bits part.entry) }
{
    writer.write_bit(true)?;
    writer.write_unary(true, count)?;
    writer.write_slice(part)
}

/// Passes over room up to the next multiple, and leaves the bits there as they are.
fn leave_to_multiple<R: BitRegister, O: BitOrder<R>>(
    writer: &mut BitWriter<'_, R, O>,
    of: usize,
) -> Result<(), WriteError>
    requires { 0 < of }
    ensures accepted { IsOk result
        ↔ (to_multiple of (bits_written writer.old) ≤ length (room writer.old)) }
    ensures multiple { IfOk result (λ _. bits_written writer.new % of ≡ 0) }
    ensures bits { let count = to_multiple of (bits_written writer.old)
        in IfOk result (λ _. written writer.new
        ≡ written writer.old ++ take count (room writer.old)) }
{
    writer.skip_to_multiple(of)
}

/// Writes a number of some bits where it can, and else does nothing.
fn write_if_it_can<R: BitRegister, O: BitOrder<R>>(
    writer: &mut BitWriter<'_, R, O>,
    count: usize,
    value: u64,
)
    requires { count ≤ 64 }
    ensures no_room { length (room writer.old) < count → writer.new ≡ writer.old }
{
    let _ = writer.write_be(count, value);
}

#[cfg(test)]
mod tests {
    use super::{
        both_ways, leave_to_multiple, next_byte, skip_if_there, two_signed, write_both_signed_ways,
        write_both_ways, write_if_it_can, write_marked,
    };
    use bitvec::order::{Lsb0, Msb0};
    use bitvec_slice::slice::BitSlice;
    use bitvec_stream::error::{ReadError, WriteError};
    use bitvec_stream::reader::BitReader;
    use bitvec_stream::writer::BitWriter;
    use std::test::Fail;

    #[test]
    fn each_way(rt: HostRuntime) -> Result<(), Fail> {
        let mut memory = [0x00u16; 4];
        let mut writer = BitWriter::<u16, Msb0>::all_unchecked(&mut memory);
        write_both_ways(&mut writer, 0xA1)?;
        write_both_signed_ways(&mut writer, -2)?;
        let bits = [0x05u8];
        let part = BitSlice::<u8, Lsb0>::all_unchecked(&bits);
        write_marked(&mut writer, 2, part)?;
        leave_to_multiple(&mut writer, 16)?;
        assert_eq!(rt; writer.position(), 48);
        write_if_it_can(&mut writer, 17, 1);
        assert_eq!(rt; writer.position(), 48);
        write_if_it_can(&mut writer, 16, 0x1234);
        assert_eq!(rt; write_both_ways(&mut writer, 0), Err(WriteError::NoRoom));
        let mut reader = BitReader::new(writer.written());
        assert_eq!(rt; both_ways(&mut reader, 16), Ok((0xA185, 0xA185)));
        assert_eq!(rt; two_signed(&mut reader), Ok((-2, -2)));
        let mut again = BitReader::new(writer.written());
        assert_eq!(rt; two_signed(&mut again), Ok((-95, -95)));
        skip_if_there(&mut again, 9);
        assert_eq!(rt; next_byte(&mut again), Ok(0xEA));
        assert_eq!(rt; next_byte(&mut reader), Ok(0xEA));
        skip_if_there(&mut reader, 99);
        assert_eq!(rt; both_ways(&mut reader, 25), Err(ReadError::TooFew));
        assert_eq!(rt; reader.position(), 40);
        Ok(())
    }
}
