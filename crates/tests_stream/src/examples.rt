//! The examples in the documents of streams.

use bitvec::order::{Lsb0, Msb0};
use bitvec_slice::slice::BitSlice;
use bitvec_stream::error::{ReadError, WriteError};
use bitvec_stream::reader::BitReader;
use bitvec_stream::writer::BitWriter;
use std::test::Fail;

#[test]
fn a_reader(rt: HostRuntime) {
    let header = [0x45u8, 0x00, 0x05, 0xDC];
    let mut reader = BitReader::new(BitSlice::<u8, Msb0>::all_unchecked(&header));
    assert_eq!(rt; reader.read_be::<u8>(4), Ok(4));
    assert_eq!(rt; reader.read_be::<u8>(4), Ok(5));
    assert_eq!(rt; reader.skip(8), Ok(()));
    assert_eq!(rt; reader.read_be::<u16>(16), Ok(1500));
    assert_eq!(rt; reader.read_bit(), Err(ReadError::TooFew));
}

#[test]
fn a_part_of_a_reader(rt: HostRuntime) -> Result<(), Fail> {
    let memory = [0x2Cu8, 0xFF];
    let mut reader = BitReader::new(BitSlice::<u8, Lsb0>::all_unchecked(&memory));
    let part = reader.read_slice(6)?;
    assert_eq!(rt; part.count_ones(), 3);
    assert_eq!(rt; reader.position(), 6);
    assert!(rt; reader.read_slice(11).is_err());
    assert_eq!(rt; reader.remaining(), 10);
    Ok(())
}

#[test]
fn little_endian_numbers(rt: HostRuntime) {
    let memory = [0x2Cu8];
    let mut reader = BitReader::new(BitSlice::<u8, Lsb0>::all_unchecked(&memory));
    assert_eq!(rt; reader.read_le::<u32>(2), Ok(0));
    assert_eq!(rt; reader.peek_be::<u32>(4), Ok(13));
    assert_eq!(rt; reader.read_le::<u32>(4), Ok(11));
    assert_eq!(rt; reader.read_le::<u32>(3), Err(ReadError::TooFew));
}

#[test]
fn signed_numbers(rt: HostRuntime) {
    let memory = [0xB0u8];
    let mut reader = BitReader::new(BitSlice::<u8, Msb0>::all_unchecked(&memory));
    assert_eq!(rt; reader.peek_be::<u8>(4), Ok(11));
    assert_eq!(rt; reader.read_signed_be::<i8>(4), Ok(-5));
    assert_eq!(rt; reader.read_signed_be::<i64>(4), Ok(0));
}

#[test]
fn unary_numbers(rt: HostRuntime) {
    let memory = [0xE4u8];
    let mut reader = BitReader::new(BitSlice::<u8, Msb0>::all_unchecked(&memory));
    assert_eq!(rt; reader.read_unary(true), Ok(3));
    assert_eq!(rt; reader.read_unary(false), Ok(1));
    assert_eq!(rt; reader.read_unary(false), Err(ReadError::Unended));
    assert_eq!(rt; reader.remaining(), 2);
}

#[test]
fn golomb_codes(rt: HostRuntime) {
    let memory = [0xA6u8, 0x42];
    let mut reader = BitReader::new(BitSlice::<u8, Msb0>::all_unchecked(&memory));
    assert_eq!(rt; reader.read_exp_golomb::<u8>(), Ok(0));
    assert_eq!(rt; reader.read_exp_golomb::<u8>(), Ok(1));
    assert_eq!(rt; reader.read_exp_golomb::<u8>(), Ok(2));
    assert_eq!(rt; reader.read_exp_golomb::<u8>(), Ok(3));
    assert_eq!(rt; reader.read_exp_golomb::<u8>(), Err(ReadError::Unended));
    assert_eq!(rt; reader.remaining(), 4);
}

#[test]
fn a_writer(rt: HostRuntime) {
    let mut header = [0x00u8; 4];
    let mut writer = BitWriter::<u8, Msb0>::all_unchecked(&mut header);
    assert_eq!(rt; writer.write_be(4, 4u8), Ok(()));
    assert_eq!(rt; writer.write_be(4, 5u8), Ok(()));
    assert_eq!(rt; writer.skip(8), Ok(()));
    assert_eq!(rt; writer.write_be(16, 1500u16), Ok(()));
    assert_eq!(rt; writer.write_bit(true), Err(WriteError::NoRoom));
    drop(writer);
    assert_eq!(rt; header, [0x45, 0x00, 0x05, 0xDC]);
}

#[test]
fn what_was_written(rt: HostRuntime) -> Result<(), Fail> {
    let mut memory = [0x00u8; 2];
    let mut writer = BitWriter::<u8, Lsb0>::all_unchecked(&mut memory);
    writer.write_le(5, 11u8)?;
    assert_eq!(rt; writer.written().len(), 5);
    let mut reader = BitReader::new(writer.written());
    assert_eq!(rt; reader.read_le::<u8>(5), Ok(11));
    Ok(())
}

#[test]
fn what_was_written_since(rt: HostRuntime) -> Result<(), Fail> {
    let mut memory = [0x00u8; 2];
    let mut writer = BitWriter::<u8, Lsb0>::all_unchecked(&mut memory);
    writer.write_le(3, 6u8)?;
    let before = writer.position();
    writer.write_le(5, 11u8)?;
    let mut reader = BitReader::new(writer.written_from(before));
    assert_eq!(rt; reader.read_le::<u8>(5), Ok(11));
    assert_eq!(rt; reader.remaining(), 0);
    Ok(())
}

#[test]
fn a_slice_written(rt: HostRuntime) -> Result<(), Fail> {
    let source = [0xA0u8];
    let part = BitSlice::<u8, Msb0>::all_unchecked(&source);
    let mut memory = [0x0000u16];
    let mut writer = BitWriter::<u16, Lsb0>::all_unchecked(&mut memory);
    writer.skip(4)?;
    writer.write_slice(part)?;
    assert_eq!(rt; writer.write_slice(part), Err(WriteError::NoRoom));
    assert_eq!(rt; writer.position(), 12);
    drop(writer);
    assert_eq!(rt; memory, [0x0050]);
    Ok(())
}

#[test]
fn little_endian_numbers_written(rt: HostRuntime) {
    let mut memory = [0xFFu8];
    let mut writer = BitWriter::<u8, Lsb0>::all_unchecked(&mut memory);
    assert_eq!(rt; writer.write_le(2, 0u32), Ok(()));
    assert_eq!(rt; writer.write_le(3, 11u32), Err(WriteError::TooManyDigits));
    assert_eq!(rt; writer.write_le(4, 11u32), Ok(()));
    assert_eq!(rt; writer.remaining(), 2);
    drop(writer);
    assert_eq!(rt; memory, [0xEC]);
}

#[test]
fn signed_numbers_written(rt: HostRuntime) {
    let mut memory = [0x0Fu8];
    let mut writer = BitWriter::<u8, Msb0>::all_unchecked(&mut memory);
    assert_eq!(rt;
        writer.write_signed_be(4, 8i32),
        Err(WriteError::TooManyDigits)
    );
    assert_eq!(rt; writer.write_signed_be(4, -5i32), Ok(()));
    drop(writer);
    assert_eq!(rt; memory, [0xBF]);
}

#[test]
fn unary_numbers_written(rt: HostRuntime) {
    let mut memory = [0x00u8];
    let mut writer = BitWriter::<u8, Msb0>::all_unchecked(&mut memory);
    assert_eq!(rt; writer.write_unary(true, 3), Ok(()));
    assert_eq!(rt; writer.write_unary(false, 1), Ok(()));
    assert_eq!(rt; writer.write_unary(false, 2), Err(WriteError::NoRoom));
    drop(writer);
    assert_eq!(rt; memory, [0xE4]);
}

#[test]
fn golomb_codes_written(rt: HostRuntime) {
    let mut memory = [0x00u8; 2];
    let mut writer = BitWriter::<u8, Msb0>::all_unchecked(&mut memory);
    for number in 0u8..4 {
        assert_eq!(rt; writer.write_exp_golomb(number), Ok(()));
    }
    assert_eq!(rt; writer.write_exp_golomb(3u8), Err(WriteError::NoRoom));
    drop(writer);
    assert_eq!(rt; memory, [0xA6, 0x40]);
}
