//! A header of five numbers, each in a way of its own, that is written and read.

ghost use Rattle.std.specs.Prelude.{◌≡◌, ◌↔◌, ◌++◌, IsOk, IsSome, IfOk, IfSome, MatchResult};
ghost use Rattle.std.specs.Prelude.{length};
ghost use Rattle.bitvec.specs.BitSpan.{span_of};
ghost use Rattle.bitvec.specs.Span.{Fits};
ghost use Rattle.bitvec_stream.specs.Items.{items_bits};
ghost use Rattle.bitvec_stream.specs.Reader.{unread};
ghost use Rattle.bitvec_stream.specs.Writer.{written, room};
ghost use Rattle.tests_stream.specs.Header.{header_items, BeginWithHeader, BeginWithNoHeader};
ghost use Rattle.tests_stream.specs.Header.{CanBePut};

use bitvec::mem::BitRegister;
use bitvec::order::BitOrder;
use bitvec::ptr::span::BitSpan;
use bitvec_stream::error::{ReadError, WriteError};
use bitvec_stream::reader::BitReader;
use bitvec_stream::writer::BitWriter;

/// Five numbers.
#[derive(Clone, Copy, PartialEq, Eq, Debug, Drop)]
pub struct Header {
    /// In 4 bits, the highest digit first.
    version: u8,
    /// In 12 bits, the lowest digit first.
    kind: u16,
    /// In 6 bits as a two's complement, the highest digit first.
    offset: i8,
    /// As an Exp-Golomb code.
    length: u32,
    /// As a signed one.
    drift: i16,
}

/// Writes a header. It refuses exactly where there is too little room, or a number has too many
/// digits; the numbers before it are written then.
fn write_header<R: BitRegister, O: BitOrder<R>>(
    header: Header,
    writer: &mut BitWriter<'_, R, O>,
) -> Result<(), WriteError>
    ensures accepted { IsOk result
        ↔ CanBePut (length (room writer.old)) (header_items header) }
    ensures written { IfOk result (λ _. written writer.new
        ≡ written writer.old ++ items_bits (header_items header)) }
{
    writer.write_be(4, header.version)?;
    writer.write_le(12, header.kind)?;
    writer.write_signed_be(6, header.offset)?;
    writer.write_exp_golomb(header.length)?;
    writer.write_signed_exp_golomb(header.drift)?;
    Ok(())
}

/// Reads one. It refuses exactly where none stands there.
fn read_header<R: BitRegister, O: BitOrder<R>>(
    reader: &mut BitReader<'_, R, O>,
) -> Result<Header, ReadError>
    ensures { MatchResult result
        (λ it. BeginWithHeader (unread reader.old) it (unread reader.new))
        (λ _. BeginWithNoHeader (unread reader.old)) }
{
    let version = reader.read_be(4)?;
    let kind = reader.read_le(12)?;
    let offset = reader.read_signed_be(6)?;
    let length = reader.read_exp_golomb()?;
    let drift = reader.read_signed_exp_golomb()?;
    Ok(Header {
        version,
        kind,
        offset,
        length,
        drift,
    })
}

/// What is read of a header that was written into a span of a memory: that header. `None` exactly
/// where the span does not lie in it or is too short, or a number has too many digits.
fn passed<R: BitRegister, O: BitOrder<R>>(
    header: Header,
    span: BitSpan<R, O>,
    memory: &mut [R],
) -> Option<Header>
    ensures accepted { IsSome result ↔ (Fits R.BITS (span_of span) (length memory.old)
        × CanBePut (span_of span).len (header_items header)) }
    ensures value { IfSome result (λ back. back ≡ header) }
{
    if !span.fits(memory.len()) {
        return None;
    }
    let mut writer = BitWriter::over_unchecked(span, memory);
    match write_header(header, &mut writer) {
        Ok(()) => {}
        Err(_) => return None,
    }
    let mut reader = BitReader::new(writer.written());
    match read_header(&mut reader) {
        Ok(back) => Some(back),
        Err(_) => None,
    }
}

#[cfg(test)]
mod tests {
    use super::{Header, passed};
    use bitvec::order::{Lsb0, Msb0};
    use bitvec::ptr::span::BitSpan;

    #[test]
    fn a_header_is_read_as_written(rt: HostRuntime) {
        let header = Header {
            version: 4,
            kind: 3000,
            offset: -17,
            length: 1500,
            drift: -300,
        };
        let mut bytes = [0xFFu8; 9];
        let span: BitSpan<u8, Msb0> = BitSpan::at(3, 69).unwrap();
        assert_eq!(rt; passed(header, span, &mut bytes), Some(header));
        let mut words = [0u64; 1];
        let span: BitSpan<u64, Lsb0> = BitSpan::at(0, 64).unwrap();
        assert_eq!(rt; passed(header, span, &mut words), Some(header));
        let span: BitSpan<u64, Lsb0> = BitSpan::at(32, 32).unwrap();
        assert_eq!(rt; passed(header, span, &mut words), None);
    }
}
