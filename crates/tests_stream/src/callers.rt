//! Callers of the codes and of unary numbers, with what they know of the bits.

ghost use Rattle.std.specs.Prelude.{◌≡◌, ◌*◌, ◌^◌, ◌≤◌, ◌++◌, ◌<◌, ◌↔◌, map};
ghost use Rattle.std.specs.Prelude.{MatchOption, MatchResult, IsOk, IfOk, IfErr, drop, length};
ghost use Rattle.bitvec.specs.BitSpan.{span_of, list_by, Becomes};
ghost use Rattle.bitvec.specs.Place.{region_max_bits};
ghost use Rattle.bitvec.specs.Span.{Fits};
ghost use Rattle.bitvec.specs.Truths.{AllAre};
ghost use Rattle.bitvec_slice.specs.BitSlice.{slice_bits};
ghost use Rattle.bitvec_slice.specs.BitSliceMut.{lent_memory, lent_span, lent_bits};
ghost use Rattle.bitvec_slice.specs.Bits.{BeginsWith};
ghost use Rattle.bitvec_stream.specs.Golomb.{golomb, signed_place, StartsWith};
ghost use Rattle.bitvec_stream.specs.Golomb.{IsSignedLacking};
ghost use Rattle.bitvec_stream.specs.Numbers.{digits_be};
ghost use Rattle.bitvec_stream.specs.Reader.{unread};
ghost use Rattle.bitvec_stream.specs.Refusals.{IsCodeRefusal};
ghost use Rattle.bitvec_stream.specs.Writer.{written, room};
ghost use Rattle.tests_stream.specs.Starts.{with_start, zeros_and_one, HasNewStart, HasWritten, HasNoRoom};

use bitvec::mem::BitRegister;
use bitvec::order::BitOrder;
use bitvec::ptr::span::BitSpan;
use bitvec_slice::slice::{BitSlice, BitSliceMut};
use bitvec_stream::error::{ReadError, WriteError};
use bitvec_stream::reader::BitReader;
use bitvec_stream::writer::BitWriter;

/// Reads a number of 32 digits by its code.
fn read_code<R: BitRegister, O: BitOrder<R>>(
    reader: &mut BitReader<'_, R, O>,
) -> Result<u32, ReadError>
    ensures { MatchResult result (λ n. StartsWith (unread reader.old) (golomb n))
        (IsCodeRefusal (λ n. 2 ^ 32 ≤ n) (unread reader.old)) }
{
    reader.read_exp_golomb()
}

/// Reads a signed number of 32 digits by its code.
fn read_signed_code<R: BitRegister, O: BitOrder<R>>(
    reader: &mut BitReader<'_, R, O>,
) -> Result<i32, ReadError>
    ensures { MatchResult result (λ z. StartsWith (unread reader.old) (golomb (signed_place z)))
        (IsCodeRefusal (IsSignedLacking 32) (unread reader.old)) }
{
    reader.read_signed_exp_golomb()
}

/// Reads a number's code, and gives its length.
fn code_length<R: BitRegister, O: BitOrder<R>>(
    reader: &mut BitReader<'_, R, O>,
) -> Result<usize, ReadError>
    ensures { MatchResult result
        (λ count. unread reader.new ≡ drop count (unread reader.old))
        (IsCodeRefusal (λ n. 2 ^ 64 ≤ n) (unread reader.old)) }
{
    let before = reader.position();
    let _: u64 = reader.read_exp_golomb()?;
    Ok(reader.position() - before)
}

/// How many bits a slice begins with that are the same as one; `None` where all are.
fn first_unary<R: BitRegister, O: BitOrder<R>>(
    slice: BitSlice<'_, R, O>,
    bit: bool,
) -> Option<usize>
    ensures { MatchOption result (AllAre bit (slice_bits slice.entry))
        (λ count. BeginsWith bit (slice_bits slice.entry) count) }
{
    let mut reader = BitReader::new(slice);
    match reader.read_unary(bit) {
        Ok(count) => Some(count),
        Err(_) => None,
    }
}

/// Writes a number's code.
fn write_code<R: BitRegister, O: BitOrder<R>>(
    writer: &mut BitWriter<'_, R, O>,
    number: u32,
) -> Result<(), WriteError>
    ensures { MatchResult result (λ _. written writer.new ≡ written writer.old ++ golomb number)
        (λ error. (error ≡ WriteError.NoRoom) × (writer.new ≡ writer.old)) }
{
    writer.write_exp_golomb(number)
}

/// Writes a signed number's code.
fn write_signed_code<R: BitRegister, O: BitOrder<R>>(
    writer: &mut BitWriter<'_, R, O>,
    number: i32,
) -> Result<(), WriteError>
    ensures { MatchResult result
        (λ _. HasWritten writer.old writer.new (golomb (signed_place number)))
        (HasNoRoom writer.old writer.new) }
{
    writer.write_signed_exp_golomb(number)
}

/// Writes zeros and a one.
fn write_zeros<R: BitRegister, O: BitOrder<R>>(
    writer: &mut BitWriter<'_, R, O>,
    count: usize,
) -> Result<(), WriteError>
    ensures { MatchResult result
        (λ _. HasWritten writer.old writer.new (zeros_and_one count))
        (λ _. (length (room writer.old) ≤ count) × (writer.new ≡ writer.old)) }
{
    if writer.remaining() <= count {
        return Err(WriteError::NoRoom);
    }
    writer.write_unary(false, count)
}

/// Writes a number at the start of a span, and says each bit of its memory afterwards.
fn put_number<R: BitRegister, O: BitOrder<R>>(
    span: BitSpan<R, O>,
    memory: &mut [R],
    count: usize,
    number: u64,
) -> Result<(), WriteError>
    requires fits { Fits R.BITS (span_of span) (length memory.old) }
    requires few { count ≤ 64 }
    ensures accepted { IsOk result
        ↔ ((number < 2 ^ count) × (count ≤ (span_of span).len)) }
    ensures written { IfOk result (λ _. Becomes span O.at_of memory.old memory.new (with_start
        (list_by span O.at_of memory.old) (digits_be count number))) }
    ensures kept { IfErr result (λ _. memory.new ≡ memory.old) }
{
    let mut writer = BitWriter::over_unchecked(span, memory);
    writer.write_be(count, number)
}

/// Writes a number at the start of a memory, and says each bit of it afterwards.
fn put_first<R: BitRegister, O: BitOrder<R>>(
    memory: &mut [R],
    count: usize,
    number: u64,
) -> Result<(), WriteError>
    requires most { length memory.old * R.BITS ≤ region_max_bits }
    requires few { count ≤ 64 }
    ensures accepted { IsOk result
        ↔ ((number < 2 ^ count) × (count ≤ length memory.old * R.BITS)) }
    ensures written { IfOk result (λ _. HasNewStart R.BITS O.at_of (map R.number memory.old)
        (map R.number memory.new) (digits_be count number)) }
    ensures kept { IfErr result (λ _. memory.new ≡ memory.old) }
{
    let mut writer = BitWriter::<R, O>::all_unchecked(memory);
    writer.write_be(count, number)
}

/// A slice that went through a writer which wrote nothing.
fn through<'a, R: BitRegister, O: BitOrder<R>>(
    slice: BitSliceMut<'a, R, O>,
) -> BitSliceMut<'a, R, O>
    ensures reference { (lent_memory result).ghost_name ≡ (lent_memory slice.entry).ghost_name }
    ensures words { (lent_memory result).now ≡ (lent_memory slice.entry).now }
    ensures span { lent_span result ≡ lent_span slice.entry }
    ensures bits { lent_bits result ≡ lent_bits slice.entry }
{
    BitWriter::new(slice).finish()
}

#[cfg(test)]
mod tests {
    use super::{
        code_length, first_unary, put_first, put_number, read_code, read_signed_code, through,
        write_code, write_signed_code, write_zeros,
    };
    use bitvec::order::{Lsb0, Msb0};
    use bitvec::ptr::span::BitSpan;
    use bitvec_slice::slice::BitSliceMut;
    use bitvec_stream::error::{ReadError, WriteError};
    use bitvec_stream::reader::BitReader;
    use bitvec_stream::writer::BitWriter;

    #[test]
    fn what_callers_read_and_write(rt: HostRuntime) {
        let mut memory = [0x00u8; 2];
        let mut writer = BitWriter::<u8, Msb0>::all_unchecked(&mut memory);
        assert_eq!(rt; write_code(&mut writer, 7), Ok(()));
        assert_eq!(rt; write_signed_code(&mut writer, -1), Ok(()));
        assert_eq!(rt; write_zeros(&mut writer, 2), Ok(()));
        assert_eq!(rt; write_zeros(&mut writer, 3), Err(WriteError::NoRoom));
        assert_eq!(rt; first_unary(writer.written(), false), Some(3));
        let mut reader = BitReader::new(writer.written());
        assert_eq!(rt; read_code(&mut reader), Ok(7));
        assert_eq!(rt; read_signed_code(&mut reader), Ok(-1));
        assert_eq!(rt; read_code(&mut reader), Err(ReadError::Unended));
        let mut reader = BitReader::new(writer.written());
        assert_eq!(rt; code_length(&mut reader), Ok(7));
        assert_eq!(rt; code_length(&mut reader), Ok(3));
        assert_eq!(rt; code_length(&mut reader), Err(ReadError::Unended));
    }

    #[test]
    fn a_number_in_a_memory(rt: HostRuntime) {
        let mut memory = [0xFFu8; 3];
        let span: BitSpan<u8, Lsb0> = BitSpan::at_unchecked(4, 12);
        assert_eq!(rt; put_number(span, &mut memory, 8, 0x12), Ok(()));
        assert_eq!(rt; memory, [0x8F, 0xF4, 0xFF]);
        assert_eq!(rt;
            put_number(span, &mut memory, 13, 0),
            Err(WriteError::NoRoom)
        );
        assert_eq!(rt; memory, [0x8F, 0xF4, 0xFF]);
    }

    #[test]
    fn a_number_at_the_start_of_a_memory(rt: HostRuntime) {
        let mut memory = [0x00u8; 2];
        assert_eq!(rt; put_first::<u8, Msb0>(&mut memory, 12, 0x765), Ok(()));
        assert_eq!(rt; memory, [0x76, 0x50]);
        assert_eq!(rt;
            put_first::<u8, Msb0>(&mut memory, 3, 8),
            Err(WriteError::TooManyDigits)
        );
        assert_eq!(rt; memory, [0x76, 0x50]);
    }

    #[test]
    fn a_slice_through_a_writer(rt: HostRuntime) {
        let mut memory = [0x0Fu8; 2];
        let slice = BitSliceMut::<u8, Lsb0>::all_unchecked(&mut memory);
        let mut again = through(slice);
        again.set(4, true);
        assert_eq!(rt; memory, [0x1F, 0x0F]);
    }

    #[test]
    fn a_slice_of_zeros(rt: HostRuntime) {
        let mut memory = [0x00u64; 3];
        let slice = BitSliceMut::<u64, Lsb0>::all_unchecked(&mut memory);
        let mut reader = BitReader::new(slice.as_bitslice());
        assert_eq!(rt; read_code(&mut reader), Err(ReadError::Unended));
        assert_eq!(rt; first_unary(slice.as_bitslice(), false), None);
    }
}
