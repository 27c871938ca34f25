//! What was written is read.

ghost use Rattle.std.specs.Prelude.{◌≡◌, ◌↔◌, ◌≤◌, IsOk, IfOk, MatchResult, length};
ghost use Rattle.bitvec_stream.specs.Writer.{room, Writes};
ghost use Rattle.example_tcp.specs.Header.{header_bits, HeaderFits, OneHeader};

use crate::header::Header;
use bitvec_stream::prelude::{BitOrder, BitReader, BitRegister, BitWriter, WriteError};

/// The bits of a list begin with one header and no other, and what stands behind it is left. It
/// does nothing when it runs.
pub fn one_header()
    ensures { OneHeader }
{}

/// Writes a header, and reads what was written: it is that header, whatever the writer's memory is.
/// It refuses as [`write`](Header::write), and then the writer is as it was.
pub fn there_and_back<R: BitRegister, O: BitOrder<R>>(
    header: Header,
    writer: &mut BitWriter<'_, R, O>,
) -> Result<Header, WriteError>
    ensures accepted { IsOk result ↔ ((160 ≤ length (room writer.old)) × HeaderFits header) }
    ensures value { IfOk result (λ back. back ≡ header) }
    ensures written { MatchResult result
        (λ _. Writes writer.old writer.new (header_bits header))
        (λ _. writer.new ≡ writer.old) }
{
    let before = writer.position();
    header.write(writer)?;
    let mut reader = BitReader::new(writer.written_from(before));
    Ok(Header::read(&mut reader).unwrap())
}
