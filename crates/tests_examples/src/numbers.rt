//! Numbers in a row: the length of a packet, put into its header and taken from it.

ghost use Rattle.std.specs.Prelude.{◌≡◌, ◌↔◌, ◌≤◌, IsOk, IfOk, length, take, drop};
ghost use Rattle.bitvec_slice.specs.BitSlice.{slice_bits};
ghost use Rattle.bitvec_stream.specs.Numbers.{number_be};

use bitvec::mem::BitRegister;
use bitvec::order::{BitOrder, Msb0};
use bitvec_slice::slice::BitSlice;
use bitvec_stream::error::{ReadError, WriteError};
use bitvec_stream::reader::BitReader;
use bitvec_stream::writer::BitWriter;

/// Writes the version and the length of an IPv4 header, and leaves what lies between.
pub fn write_header<R: BitRegister, O: BitOrder<R>>(
    writer: &mut BitWriter<'_, R, O>,
    length: u16,
) -> Result<(), WriteError> {
    writer.write_be(4, 4u8)?;
    writer.skip(12)?;
    writer.write_be(16, length)
}

/// The length that such a header has, and an error exactly where it is cut.
pub fn length_of<R: BitRegister, O: BitOrder<R>>(
    header: BitSlice<'_, R, O>,
) -> Result<u16, ReadError>
    ensures whole { IsOk result ↔ (32 ≤ length (slice_bits header.entry)) }
    ensures value { IfOk result (λ n. n ≡ number_be (take 16 (drop 16 (slice_bits header.entry)))) }
{
    let mut reader = BitReader::new(header);
    reader.skip(16)?;
    reader.read_be(16)
}

#[test]
fn a_header_is_written_and_read(rt: HostRuntime) {
    let mut bytes = [0xFFu8; 4];
    let mut writer = BitWriter::<u8, Msb0>::all_unchecked(&mut bytes);
    assert_eq!(rt; write_header(&mut writer, 1500), Ok(()));
    assert_eq!(rt; write_header(&mut writer, 1500), Err(WriteError::NoRoom));
    assert_eq!(rt; length_of(writer.written()), Ok(1500));
    drop(writer);
    assert_eq!(rt; bytes, [0x4F, 0xFF, 0x05, 0xDC]);
    let cut = BitSlice::<u8, Msb0>::all_unchecked(&bytes[..3]);
    assert_eq!(rt; length_of(cut), Err(ReadError::TooFew));
}
