//! Numbers at the widths of words, the texts of refusals, and places at multiples.

use bitvec::order::{Lsb0, Msb0};
use bitvec::ptr::span::BitSpan;
use bitvec_slice::slice::{BitSlice, BitSliceMut};
use bitvec_stream::error::{ReadError, WriteError};
use bitvec_stream::reader::BitReader;
use bitvec_stream::writer::BitWriter;
use std::test::Fail;

#[test]
fn numbers_of_128_bits(rt: HostRuntime) -> Result<(), Fail> {
    let number = 0x0123456789ABCDEF_FEDCBA9876543210u128;
    let mut memory = [0u8; 33];
    let slice = BitSliceMut::<u8, Msb0>::all_unchecked(&mut memory);
    let mut writer = BitWriter::new(slice);
    writer.write_bit(true)?;
    writer.write_be(128, number)?;
    writer.write_le(128, number)?;
    writer.write_signed_le(7, -64i8)?;
    assert_eq!(rt; writer.write_be(0, 0u8), Ok(()));
    assert_eq!(rt; writer.write_be(0, 1u8), Err(WriteError::TooManyDigits));
    assert_eq!(rt;
        writer.write_signed_be(0, -1i8),
        Err(WriteError::TooManyDigits)
    );
    assert_eq!(rt; writer.remaining(), 0);
    let slice = writer.finish();
    let mut reader = BitReader::new(slice.as_bitslice());
    assert_eq!(rt; reader.read_bit(), Ok(true));
    let copy = reader.clone()?;
    assert_eq!(rt; reader.read_be::<u128>(128), Ok(number));
    assert_eq!(rt; reader.peek_le::<u128>(128), Ok(number));
    assert_eq!(rt; reader.read_le::<u128>(128), Ok(number));
    assert_eq!(rt; reader.read_signed_le::<i32>(7), Ok(-64));
    assert_eq!(rt; copy.position(), 1);
    Ok(())
}

#[test]
fn places_at_multiples(rt: HostRuntime) -> Result<(), Fail> {
    let mut memory = [0xA5u32; 2];
    let mut writer = BitWriter::<u32, Lsb0>::all_unchecked(&mut memory);
    writer.skip_to_multiple(8)?;
    assert_eq!(rt; writer.position(), 0);
    writer.skip(9)?;
    writer.skip_to_multiple(8)?;
    assert_eq!(rt; writer.position(), 16);
    assert_eq!(rt; writer.skip_to_multiple(65), Err(WriteError::NoRoom));
    let mut reader = BitReader::new(writer.written());
    reader.skip_to_multiple(1)?;
    reader.skip(3)?;
    reader.skip_to_multiple(5)?;
    assert_eq!(rt; reader.position(), 5);
    assert_eq!(rt; reader.skip_to_multiple(17), Err(ReadError::TooFew));
    assert_eq!(rt; reader.read_be::<u8>(3), Ok(0b101));
    Ok(())
}

#[test]
fn texts_of_refusals(rt: HostRuntime) -> Result<(), Fail> {
    let few = format!(in rt.alloc(); "{}", ReadError::TooFew)?;
    assert_eq!(rt; few.as_str(), "fewer bits are left");
    let unended = format!(in rt.alloc(); "{}", ReadError::Unended)?;
    assert_eq!(rt; unended.as_str(), "the bits end before the code");
    let large = format!(in rt.alloc(); "{}", ReadError::TooLarge)?;
    assert_eq!(rt; large.as_str(), "the number is too large for its type");
    let room = format!(in rt.alloc(); "{}", WriteError::NoRoom)?;
    assert_eq!(rt; room.as_str(), "there is room for fewer bits");
    let digits = format!(in rt.alloc(); "{}", WriteError::TooManyDigits)?;
    assert_eq!(rt; digits.as_str(), "the number has more digits");
    let debug = format!(in rt.alloc(); "{:?}", ReadError::Unended)?;
    assert_eq!(rt; debug.as_str(), "Unended");
    Ok(())
}

#[test]
fn a_slice_of_another_order(rt: HostRuntime) -> Result<(), Fail> {
    let source = [0x12345678u32];
    let part = BitSlice::<u32, Msb0>::all_unchecked(&source);
    let mut memory = [0u8; 5];
    let mut writer = BitWriter::<u8, Lsb0>::all_unchecked(&mut memory);
    writer.skip(3)?;
    writer.write_slice(part)?;
    let mut reader = BitReader::new(writer.written());
    reader.skip(3)?;
    assert_eq!(rt; reader.read_be::<u32>(32), Ok(0x12345678));
    Ok(())
}

// Under a rising order the digits of the words in a row, the first word the lowest, are those of
// one number, here 0xE86B5D270F967A1EB5C3: a number read lowest first is that one divided by two to
// the place, and cut.
#[test]
fn lowest_first_across_words(rt: HostRuntime) -> Result<(), Fail> {
    let memory = [0xB5C3u16, 0x7A1E, 0x0F96, 0x5D27, 0xE86B];
    let span: BitSpan<u16, Lsb0> = BitSpan::at(3, 69).unwrap();
    let slice = BitSlice::new(span, &memory).ok_or("outside")?;
    let mut reader = BitReader::new(slice);
    assert_eq!(rt; reader.read_le::<u8>(5), Ok(0x18));
    assert_eq!(rt; reader.read_le::<u16>(13), Ok(0x1EB5));
    assert_eq!(rt; reader.read_bit(), Ok(false));
    assert_eq!(rt; reader.read_le::<u16>(16), Ok(0x59E8));
    assert_eq!(rt; reader.peek_be::<u8>(5), Ok(0x0F));
    assert_eq!(rt; reader.read_le::<u8>(7), Ok(0x3E));
    reader.skip(2)?;
    assert_eq!(rt; reader.read_le::<u64>(16), Ok(0xBA4E));
    assert_eq!(rt; reader.read_le::<u64>(10), Err(ReadError::TooFew));
    assert_eq!(rt; reader.read_le::<u64>(9), Ok(0xD6));
    assert_eq!(rt; reader.read_le::<u8>(1), Err(ReadError::TooFew));
    Ok(())
}

// The same under a falling order, the first word the highest: 0xB5C37A1E0F965D27E86B.
#[test]
fn highest_first_across_words(rt: HostRuntime) -> Result<(), Fail> {
    let memory = [0xB5C3u16, 0x7A1E, 0x0F96, 0x5D27, 0xE86B];
    let span: BitSpan<u16, Msb0> = BitSpan::at(3, 69).unwrap();
    let slice = BitSlice::new(span, &memory).ok_or("outside")?;
    let mut reader = BitReader::new(slice);
    assert_eq!(rt; reader.read_be::<u8>(5), Ok(0x15));
    assert_eq!(rt; reader.read_be::<u16>(13), Ok(0x186F));
    assert_eq!(rt; reader.read_bit(), Ok(false));
    assert_eq!(rt; reader.read_be::<u16>(16), Ok(0x8783));
    assert_eq!(rt; reader.read_be::<u8>(7), Ok(0x72));
    reader.skip(2)?;
    assert_eq!(rt; reader.read_be::<u64>(16), Ok(0x2E93));
    assert_eq!(rt; reader.read_be::<u64>(10), Err(ReadError::TooFew));
    assert_eq!(rt; reader.read_be::<u64>(9), Ok(0x1E8));
    Ok(())
}
