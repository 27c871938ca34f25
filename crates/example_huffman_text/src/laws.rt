//! What was written is read.

ghost use Rattle.std.specs.Prelude.{◌≡◌, ◌↔◌, ◌≤◌, ℕ, List, Err, IsOk, IfOk, IfErr};
ghost use Rattle.std.specs.Prelude.{length, drop};
ghost use Rattle.std.specs.List.{All};
ghost use Rattle.bitvec_slice.specs.BitSlice.{slice_bits};
ghost use Rattle.bitvec_stream.specs.Writer.{room, Writes};
ghost use Rattle.example_huffman.specs.Codes.{HasCode};
ghost use Rattle.example_huffman.specs.Huffman.{lengths_of};
ghost use Rattle.example_huffman_text.specs.Text.{encoded_bits, IsText, AreFirst, OneText};
ghost use Rattle.example_huffman_text.specs.Text.{CanBeEncoded};

use crate::error::EncodeError;
use crate::text::{decode_into, encode};
use bitvec_stream::prelude::{BitOrder, BitReader, BitRegister, BitSlice, BitWriter};
use example_huffman::code::Code;

/// Bits begin with one text of a number of symbols and no other, and what stands behind it is left.
/// It does nothing when it runs.
pub fn one_text()
    ensures { OneText }
{}

// Reads the symbols whose text some bits are into the front of `back`, and returns how many.
fn read_text<R: BitRegister, O: BitOrder<R>>(
    code: &Code<'_>,
    text: BitSlice<'_, R, O>,
    back: &mut [usize],
) -> usize
    ensures value { (symbols : List ℕ)
        → IsText (lengths_of code.now) symbols (slice_bits text.entry)
        → length symbols ≤ length back.old → AreFirst symbols back.new result }
    ensures others { drop result back.new ≡ drop result back.old }
{
    let mut reader = BitReader::new(text);
    decode_into(code, &mut reader, back)
}

/// Writes symbols, and reads what was written into the front of `back`: they are those symbols,
/// whatever the writer's memory is, and it returns how many. It refuses as [`encode`], and then the
/// writer and `back` are as they were.
///
/// Requires that `back` has a place for each symbol.
pub fn there_and_back<R: BitRegister, O: BitOrder<R>>(
    code: &Code<'_>,
    symbols: &[usize],
    writer: &mut BitWriter<'_, R, O>,
    back: &mut [usize],
) -> Result<usize, EncodeError>
    requires { length symbols.now ≤ length back.old }
    ensures accepted { IsOk result
        ↔ CanBeEncoded (lengths_of code.now) symbols.now (length (room writer.old)) }
    ensures no_code { (result ≡ Err EncodeError.NoCode)
        ↔ ¬ All (HasCode (lengths_of code.now)) symbols.now }
    ensures value { IfOk result (AreFirst symbols.now back.new) }
    ensures others { IfOk result (λ count. drop count back.new ≡ drop count back.old) }
    ensures written { IfOk result
        (λ _. Writes writer.old writer.new (encoded_bits (lengths_of code.now) symbols.now)) }
    ensures refused { IfErr result (λ _. (writer.new ≡ writer.old) × (back.new ≡ back.old)) }
{
    let before = writer.position();
    encode(code, symbols, writer)?;
    Ok(read_text(code, writer.written_from(before), back))
}
