//! Texts in the code of RFC 1951, 3.2.2: written and read, ended too early, and in other memories.

use bitvec_stream::prelude::*;
use example_huffman::code::Code;
use example_huffman_text::error::{DecodeError, EncodeError};
use example_huffman_text::laws::there_and_back;
use example_huffman_text::symbol::{next_symbol, put_symbol};
use example_huffman_text::text::{decode_into, encode};
use std::test::Fail;

// The RFC prints the codes of A to H: 010, 011, 100, 101, 110, 00, 1110 and 1111.
const LENGTHS: [u8; 8] = [3, 3, 3, 3, 3, 2, 4, 4];

// A to H, and their codes in a row, with seven zeros behind them.
const SYMBOLS: [usize; 8] = [0, 1, 2, 3, 4, 5, 6, 7];

const TEXT: [u8; 4] = [0b0100_1110, 0b0101_1100, 0b0111_0111, 0b1000_0000];

// Each symbol has the code that the RFC prints, and is read from it.
#[test]
fn a_text_is_written_and_read(rt: HostRuntime) -> Result<(), Fail> {
    let code = Code::new(&LENGTHS).ok().ok_or("code")?;
    let mut memory = [0x00u8; 4];
    let mut writer = BitWriter::<u8, Msb0>::all_unchecked(&mut memory);
    assert_eq!(rt; encode(&code, &SYMBOLS, &mut writer), Ok(()));
    assert_eq!(rt; writer.position(), 25);
    drop(writer);
    assert_eq!(rt; memory, TEXT);
    let mut reader = BitReader::new(BitSlice::<u8, Msb0>::all_unchecked(&TEXT));
    let mut out = [9usize; 8];
    assert_eq!(rt; decode_into(&code, &mut reader, &mut out), 8);
    assert_eq!(rt; out, SYMBOLS);
    assert_eq!(rt; reader.remaining(), 7);
    Ok(())
}

// Behind G and B stands a one, with which no code ends: it is left, and so are the places for more.
#[test]
fn a_text_that_ends_too_early(rt: HostRuntime) -> Result<(), Fail> {
    let code = Code::new(&LENGTHS).ok().ok_or("code")?;
    let memory = [0b1110_0111u8];
    let mut reader = BitReader::new(BitSlice::<u8, Msb0>::all_unchecked(&memory));
    assert_eq!(rt; next_symbol(&code, &mut reader), Ok(6));
    assert_eq!(rt; next_symbol(&code, &mut reader), Ok(1));
    assert_eq!(rt;
        next_symbol(&code, &mut reader),
        Err(DecodeError::Truncated)
    );
    assert_eq!(rt;
        next_symbol(&code, &mut reader),
        Err(DecodeError::Truncated)
    );
    assert_eq!(rt; reader.position(), 7);
    let mut again = BitReader::new(BitSlice::<u8, Msb0>::all_unchecked(&memory));
    let mut out = [9usize; 4];
    assert_eq!(rt; decode_into(&code, &mut again, &mut out), 2);
    assert_eq!(rt; out, [6, 1, 9, 9]);
    assert_eq!(rt; again.remaining(), 1);
    Ok(())
}

// Symbol 1 has no code, and the others have 0, 10 and 11.
#[test]
fn what_is_refused_is_not_written(rt: HostRuntime) -> Result<(), Fail> {
    let code = Code::new(&[1, 0, 2, 2]).ok().ok_or("code")?;
    let mut memory = [0x55u8];
    let mut writer = BitWriter::<u8, Msb0>::all_unchecked(&mut memory);
    assert_eq!(rt; put_symbol(&code, 1, &mut writer), Err(EncodeError::NoCode));
    assert_eq!(rt; put_symbol(&code, 4, &mut writer), Err(EncodeError::NoCode));
    assert_eq!(rt;
        encode(&code, &[3, 3, 1, 3, 3], &mut writer),
        Err(EncodeError::NoCode)
    );
    assert_eq!(rt;
        encode(&code, &[3, 3, 3, 3, 0], &mut writer),
        Err(EncodeError::NoRoom)
    );
    assert_eq!(rt; encode(&code, &[3, 2, 0, 0, 0], &mut writer), Ok(()));
    assert_eq!(rt; put_symbol(&code, 2, &mut writer), Err(EncodeError::NoRoom));
    assert_eq!(rt; put_symbol(&code, 0, &mut writer), Ok(()));
    assert_eq!(rt; writer.remaining(), 0);
    drop(writer);
    assert_eq!(rt; memory, [0b1110_0000]);
    Ok(())
}

// Under `Lsb0` each word has its bits the other way round. What lies behind the text stays.
#[test]
fn texts_in_other_memories(rt: HostRuntime) -> Result<(), Fail> {
    let code = Code::new(&LENGTHS).ok().ok_or("code")?;
    let mut back = [9usize; 9];
    let mut bytes = [0xFFu8; 4];
    let mut writer = BitWriter::<u8, Lsb0>::all_unchecked(&mut bytes);
    assert_eq!(rt;
        there_and_back(&code, &SYMBOLS, &mut writer, &mut back),
        Ok(8)
    );
    assert_eq!(rt;
        there_and_back(&code, &SYMBOLS, &mut writer, &mut back),
        Err(EncodeError::NoRoom)
    );
    drop(writer);
    assert_eq!(rt; bytes, [0x72, 0x3A, 0xEE, 0xFF]);
    assert_eq!(rt; back, [0, 1, 2, 3, 4, 5, 6, 7, 9]);
    let mut low = [u64::MAX];
    let mut writer = BitWriter::<u64, Lsb0>::all_unchecked(&mut low);
    assert_eq!(rt;
        there_and_back(&code, &SYMBOLS, &mut writer, &mut back),
        Ok(8)
    );
    drop(writer);
    assert_eq!(rt; low, [0xFFFF_FFFF_FFEE_3A72]);
    let mut high = [u64::MAX];
    let mut writer = BitWriter::<u64, Msb0>::all_unchecked(&mut high);
    assert_eq!(rt;
        there_and_back(&code, &SYMBOLS, &mut writer, &mut back),
        Ok(8)
    );
    drop(writer);
    assert_eq!(rt; high, [0x4E5C_77FF_FFFF_FFFF]);
    Ok(())
}
