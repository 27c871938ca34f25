//! Headers of TCP segments, by hand from the figure of RFC 9293, 3.1: each row of it is four bytes,
//! the first the leftmost, and each field's leftmost bit its highest digit.

use bitvec_stream::prelude::*;
use example_tcp::header::Header;
use example_tcp::laws::there_and_back;
use std::test::Fail;

// From port 50001 (C351) to port 443 (01BB), with 5 words before the data, SYN alone, and a window of
// 64240 (FAF0).
const SYN: [u8; 20] = [
    0xC3, 0x51, 0x01, 0xBB, // ports
    0x12, 0x34, 0x56, 0x78, // sequence
    0x00, 0x00, 0x00, 0x00, // acknowledgment
    0x50, 0x02, 0xFA, 0xF0, // offset and reserved, flags, window
    0xBE, 0xEF, 0x00, 0x00, // checksum, urgent
];

fn syn() -> Header {
    Header {
        source: 50001,
        destination: 443,
        sequence: 0x12345678,
        acknowledgment: 0,
        offset: 5,
        reserved: 0,
        flags: 0b0000_0010,
        window: 64240,
        checksum: 0xBEEF,
        urgent: 0,
    }
}

// The header that some bytes begin with.
fn read(bytes: &[u8; 20]) -> Result<Header, ReadError> {
    let mut reader = BitReader::new(BitSlice::<u8, Msb0>::all_unchecked(bytes));
    Header::read(&mut reader)
}

// The bytes of a header, over bytes of ones.
fn bytes_of(header: Header) -> Result<[u8; 20], WriteError> {
    let mut bytes = [0xFFu8; 20];
    let mut writer = BitWriter::<u8, Msb0>::all_unchecked(&mut bytes);
    header.write(&mut writer)?;
    drop(writer);
    Ok(bytes)
}

#[test]
fn a_segment_is_read_and_written(rt: HostRuntime) {
    assert_eq!(rt; read(&SYN), Ok(syn()));
    assert_eq!(rt; bytes_of(syn()), Ok(SYN));
}

// With URG, ACK and PSH, each field with a number of its own.
#[test]
fn each_field_has_its_place(rt: HostRuntime) {
    let header = Header {
        source: 0x0102,
        destination: 0x0304,
        sequence: 0x05060708,
        acknowledgment: 0x090A0B0C,
        offset: 0xD,
        reserved: 0xE,
        flags: 0b0011_1000,
        window: 0x0F10,
        checksum: 0x1112,
        urgent: 0x1314,
    };
    let bytes = [
        0x01, 0x02, 0x03, 0x04, 0x05, 0x06, 0x07, 0x08, 0x09, 0x0A, 0x0B, 0x0C, 0xDE, 0x38, 0x0F,
        0x10, 0x11, 0x12, 0x13, 0x14,
    ];
    assert_eq!(rt; bytes_of(header), Ok(bytes));
    assert_eq!(rt; read(&bytes), Ok(header));
}

// What a writer has and what is left for a reader stand behind a header.
#[test]
fn what_stands_behind_is_left(rt: HostRuntime) -> Result<(), Fail> {
    let mut memory = [0xA5u8; 22];
    let mut writer = BitWriter::<u8, Msb0>::all_unchecked(&mut memory);
    assert_eq!(rt; syn().write(&mut writer), Ok(()));
    assert_eq!(rt; syn().write(&mut writer), Err(WriteError::NoRoom));
    assert_eq!(rt; writer.remaining(), 16);
    drop(writer);
    let mut reader = BitReader::new(BitSlice::<u8, Msb0>::all_unchecked(&memory));
    assert_eq!(rt; Header::read(&mut reader), Ok(syn()));
    assert_eq!(rt; Header::read(&mut reader), Err(ReadError::TooFew));
    assert_eq!(rt; reader.read_be(16), Ok(0xA5A5u16));
    Ok(())
}

#[test]
fn digits_past_a_field_are_refused(rt: HostRuntime) {
    let mut header = syn();
    header.offset = 16;
    assert!(rt; !header.fits());
    let mut memory = [0x77u8; 20];
    let mut writer = BitWriter::<u8, Msb0>::all_unchecked(&mut memory);
    assert_eq!(rt; header.write(&mut writer), Err(WriteError::TooManyDigits));
    assert_eq!(rt; writer.position(), 0);
    drop(writer);
    assert_eq!(rt; memory, [0x77; 20]);
}

// Any register and order have a header: under `Lsb0` each byte has its bits the other way round, and
// 51 is 8A so.
#[test]
fn headers_in_other_memories(rt: HostRuntime) {
    let mut words = [u64::MAX; 3];
    let span: BitSpan<u64, Lsb0> = BitSpan::at(8, 160).unwrap();
    let mut writer = BitWriter::over_unchecked(span, &mut words);
    assert_eq!(rt; there_and_back(syn(), &mut writer), Ok(syn()));
    assert_eq!(rt; there_and_back(syn(), &mut writer), Err(WriteError::NoRoom));
    drop(writer);
    assert_eq!(rt; words[0] % 0x1000000, 0x8AC3FF);
    assert_eq!(rt; words[2] / 0x10000000000, 0xFFFFFF);
}

// Two headers, the one behind the other: what is read back is the second.
#[test]
fn a_header_behind_another(rt: HostRuntime) {
    let mut bytes = [0x00u8; 40];
    let mut writer = BitWriter::<u8, Msb0>::all_unchecked(&mut bytes);
    assert_eq!(rt; there_and_back(syn(), &mut writer), Ok(syn()));
    let mut second = syn();
    second.flags = 0b0001_0000;
    assert_eq!(rt; there_and_back(second, &mut writer), Ok(second));
    drop(writer);
    assert_eq!(rt; bytes[13], 0x02);
    assert_eq!(rt; bytes[33], 0x10);
}
