//! Exp-Golomb codes: the first ones of the standard's tables, and those at the ends of types.

use bitvec::mem::BitRegister;
use bitvec::order::{Lsb0, Msb0};
use bitvec_slice::field::SignedNumber;
use bitvec_slice::slice::{BitSlice, BitSliceMut};
use bitvec_stream::error::{ReadError, WriteError};
use bitvec_stream::reader::BitReader;
use bitvec_stream::writer::BitWriter;
use std::alloc::{AllocError, Global};
use std::test::Fail;

/// The codes of 0 to 8, with the signed numbers that they stand for.
const CODES: [(&str, i8); 9] = [
    ("1", 0),
    ("010", 1),
    ("011", -1),
    ("00100", 2),
    ("00101", -2),
    ("00110", 3),
    ("00111", -3),
    ("0001000", 4),
    ("0001001", -4),
];

/// A digit for each bit.
fn text_of(alloc: Global, bits: BitSlice<'_, u16, Lsb0>) -> Result<String, AllocError> {
    format!(in alloc; "{bits}")
}

/// The text of the code that is written of a number, and what is read of it.
fn written_code(alloc: Global, number: u8) -> Result<(String, Option<u8>), Fail> {
    let mut memory = [0xFFu16; 3];
    let mut writer = BitWriter::<u16, Lsb0>::all_unchecked(&mut memory);
    writer.write_exp_golomb(number)?;
    let code = writer.written();
    let mut reader = BitReader::new(code);
    let text = text_of(alloc, code)?;
    Ok((text, reader.read_exp_golomb().ok()))
}

/// The same of a signed number.
fn written_signed_code(alloc: Global, number: i8) -> Result<(String, Option<i8>), Fail> {
    let mut memory = [0xFFu16; 3];
    let mut writer = BitWriter::<u16, Lsb0>::all_unchecked(&mut memory);
    writer.write_signed_exp_golomb(number)?;
    let code = writer.written();
    let mut reader = BitReader::new(code);
    let text = text_of(alloc, code)?;
    Ok((text, reader.read_signed_exp_golomb().ok()))
}

#[test]
fn codes_of_the_tables(rt: HostRuntime) -> Result<(), Fail> {
    let mut number = 0u8;
    for (code, signed) in CODES {
        let (text, read) = written_code(rt.alloc(), number)?;
        assert_eq!(rt; text.as_str(), code);
        assert_eq!(rt; read, Some(number));
        let (text, read) = written_signed_code(rt.alloc(), signed)?;
        assert_eq!(rt; text.as_str(), code);
        assert_eq!(rt; read, Some(signed));
        number = number.saturating_add(1);
    }
    Ok(())
}

/// What is read of a number's code, as a number of another type.
fn passed<N: BitRegister, M: BitRegister>(number: N) -> Result<Result<M, ReadError>, WriteError> {
    let mut memory = [0u64; 5];
    let mut writer = BitWriter::<u64, Msb0>::all_unchecked(&mut memory);
    writer.write_exp_golomb(number)?;
    Ok(BitReader::new(writer.written()).read_exp_golomb())
}

/// The same of signed numbers.
fn passed_signed<N: SignedNumber, M: SignedNumber>(
    number: N,
) -> Result<Result<M, ReadError>, WriteError> {
    let mut memory = [0u64; 5];
    let mut writer = BitWriter::<u64, Msb0>::all_unchecked(&mut memory);
    writer.write_signed_exp_golomb(number)?;
    Ok(BitReader::new(writer.written()).read_signed_exp_golomb())
}

#[test]
fn codes_at_the_ends_of_types(rt: HostRuntime) {
    assert_eq!(rt; passed::<u8, u8>(255), Ok(Ok(255)));
    assert_eq!(rt; passed::<u16, u8>(256), Ok(Err(ReadError::TooLarge)));
    assert_eq!(rt; passed::<u128, u128>(u128::MAX), Ok(Ok(u128::MAX)));
    assert_eq!(rt;
        passed::<u128, u64>(u128::MAX),
        Ok(Err(ReadError::TooLarge))
    );
    assert_eq!(rt; passed_signed::<i8, i8>(-128), Ok(Ok(-128)));
    assert_eq!(rt; passed_signed::<i16, i8>(128), Ok(Err(ReadError::TooLarge)));
    assert_eq!(rt;
        passed_signed::<i16, i8>(-129),
        Ok(Err(ReadError::TooLarge))
    );
    assert_eq!(rt; passed_signed::<i128, i128>(i128::MAX), Ok(Ok(i128::MAX)));
    assert_eq!(rt; passed_signed::<i128, i128>(i128::MIN), Ok(Ok(i128::MIN)));
}

#[test]
fn a_code_past_every_type(rt: HostRuntime) {
    let mut memory = [0u64; 5];
    let mut slice = BitSliceMut::<u64, Lsb0>::all_unchecked(&mut memory);
    slice.set(129, true);
    let mut reader = BitReader::new(slice.as_bitslice());
    assert_eq!(rt; reader.read_exp_golomb::<u128>(), Err(ReadError::TooLarge));
    assert_eq!(rt;
        reader.read_signed_exp_golomb::<i128>(),
        Err(ReadError::TooLarge)
    );
    assert_eq!(rt; reader.position(), 0);
}

#[test]
fn a_code_that_does_not_end(rt: HostRuntime) {
    let mut memory = [0u64; 5];
    let mut slice = BitSliceMut::<u64, Lsb0>::all_unchecked(&mut memory);
    slice.set(200, true);
    let mut reader = BitReader::new(slice.as_bitslice());
    assert_eq!(rt; reader.read_exp_golomb::<u128>(), Err(ReadError::Unended));
    assert_eq!(rt; reader.read_unary(false), Ok(200));
    assert_eq!(rt; reader.read_unary(false), Err(ReadError::Unended));
    assert_eq!(rt; reader.remaining(), 119);
}

#[test]
fn no_bits(rt: HostRuntime) {
    let memory = [0u8; 0];
    let mut reader = BitReader::new(BitSlice::<u8, Msb0>::all_unchecked(&memory));
    assert!(rt; reader.is_empty());
    assert_eq!(rt; reader.read_be::<u8>(0), Ok(0));
    assert_eq!(rt; reader.read_signed_le::<i128>(0), Ok(0));
    assert_eq!(rt; reader.read_exp_golomb::<u8>(), Err(ReadError::Unended));
}
