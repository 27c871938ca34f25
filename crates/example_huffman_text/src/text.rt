//! Symbols in a row, written and read.

ghost use Rattle.std.specs.Prelude.{◌≡◌, ◌⊎◌, ◌↔◌, ℕ, ◌<◌, ◌≤◌, ◌++◌, Err, IsTrue, IsOk, IfOk};
ghost use Rattle.std.specs.Prelude.{MatchResult, length, take, drop};
ghost use Rattle.std.specs.List.{All};
ghost use Rattle.bitvec_stream.specs.Reader.{unread, Passes};
ghost use Rattle.bitvec_stream.specs.Writer.{room, Writes};
ghost use Rattle.example_huffman.specs.Codes.{HasCode};
ghost use Rattle.example_huffman.specs.Huffman.{lengths_of};
ghost use Rattle.example_huffman_text.specs.Text.{encoded_bits, BeginsWithSymbol, CanBeEncoded};

use crate::error::EncodeError;
use crate::symbol::{next_symbol, put_symbol};
use bitvec_stream::prelude::{BitOrder, BitReader, BitRegister, BitWriter};
use example_huffman::code::Code;

// Whether each symbol has a code.
fn have_codes(code: &Code<'_>, symbols: &[usize]) -> bool
    ensures { IsTrue result ↔ All (HasCode (lengths_of code.now)) symbols.now }
{
    symbols.iter().all(|it| code.len(*it) != 0)
}

// Whether the codes of symbols have at most `room` bits together.
#[tactic(auto, using(crate::proofs::TextLemmas::sizes))]
fn fits(code: &Code<'_>, symbols: &[usize], room: usize) -> bool
    ensures { IsTrue result ↔ (length (encoded_bits (lengths_of code.now) symbols.now) ≤ room) }
{
    let mut left = room;
    for place in 0..symbols.len() {
        let len = code.len(symbols[place]);
        if left < len {
            return false;
        }
        left -= len;
    }
    true
}

// Writes the codes of symbols, for which there is room.
#[tactic(auto, using(crate::proofs::TextWrites::writes))]
fn put_symbols<R: BitRegister, O: BitOrder<R>>(
    code: &Code<'_>,
    symbols: &[usize],
    writer: &mut BitWriter<'_, R, O>,
)
    requires codes { All (HasCode (lengths_of code.now)) symbols.now }
    requires inside { length (encoded_bits (lengths_of code.now) symbols.now)
        ≤ length (room writer.old) }
    ensures { Writes writer.old writer.new (encoded_bits (lengths_of code.now) symbols.now) }
{
    for place in 0..symbols.len() {
        put_symbol(code, symbols[place], writer).unwrap();
    }
}

/// Writes the codes of symbols, one behind the other. It refuses with `NoCode` exactly where some
/// symbol has no code, and else with `NoRoom` exactly where there is room for fewer bits than the
/// codes have together. Then nothing is written, and the writer is as it was.
///
/// Costs as [`put_symbol`] of each.
///
/// # Examples
///
/// ```
/// let mut memory = [0x00u8; 2];
/// let mut writer = BitWriter::<u8, Msb0>::all_unchecked(&mut memory);
/// assert_eq!(rt; encode(&code, &[5, 0, 6], &mut writer), Ok(()));
/// assert_eq!(rt; encode(&code, &[7, 7], &mut writer), Err(EncodeError::NoRoom));
/// assert_eq!(rt; writer.position(), 9);
/// drop(writer);
/// assert_eq!(rt; memory, [0b0001_0111, 0b0000_0000]);
/// ```
pub fn encode<R: BitRegister, O: BitOrder<R>>(
    code: &Code<'_>,
    symbols: &[usize],
    writer: &mut BitWriter<'_, R, O>,
) -> Result<(), EncodeError>
    ensures accepted { IsOk result
        ↔ CanBeEncoded (lengths_of code.now) symbols.now (length (room writer.old)) }
    ensures no_code { (result ≡ Err EncodeError.NoCode)
        ↔ ¬ All (HasCode (lengths_of code.now)) symbols.now }
    ensures written { MatchResult result
        (λ _. Writes writer.old writer.new (encoded_bits (lengths_of code.now) symbols.now))
        (λ _. writer.new ≡ writer.old) }
{
    if !have_codes(code, symbols) {
        return Err(EncodeError::NoCode);
    }
    if !fits(code, symbols, writer.remaining()) {
        return Err(EncodeError::NoRoom);
    }
    put_symbols(code, symbols, writer);
    Ok(())
}

/// Reads symbols until `out` is full or what is left begins with no symbol's code, and returns how
/// many it has read. They stand at the front of `out`, whose other places stay as they are, and the
/// reader stands behind them. It refuses nothing.
///
/// Costs as [`next_symbol`] for each, and once more where `out` is not filled.
///
/// # Examples
///
/// ```
/// let memory = [0b0001_0111u8, 0b0111_1111];
/// let mut reader = BitReader::new(BitSlice::<u8, Msb0>::all_unchecked(&memory));
/// let mut out = [9usize; 3];
/// assert_eq!(rt; decode_into(&code, &mut reader, &mut out), 3);
/// assert_eq!(rt; out, [5, 0, 6]);
/// assert_eq!(rt; decode_into(&code, &mut reader, &mut out), 1);
/// assert_eq!(rt; out, [7, 0, 6]);
/// assert_eq!(rt; reader.remaining(), 3);
/// ```
pub fn decode_into<R: BitRegister, O: BitOrder<R>>(
    code: &Code<'_>,
    reader: &mut BitReader<'_, R, O>,
    out: &mut [usize],
) -> usize
    ensures few { result ≤ length out.old }
    ensures codes { All (HasCode (lengths_of code.now)) (take result out.new) }
    ensures bits { unread reader.old
        ≡ encoded_bits (lengths_of code.now) (take result out.new) ++ unread reader.new }
    ensures moved { Passes reader.old reader.new
        (length (encoded_bits (lengths_of code.now) (take result out.new))) }
    ensures others { drop result out.new ≡ drop result out.old }
    ensures ended { (result ≡ length out.old)
        ⊎ ((symbol : ℕ) → ¬ BeginsWithSymbol (lengths_of code.now) (unread reader.new) symbol) }
{
    for place in 0..out.len() {
        let Ok(symbol) = next_symbol(code, reader) else {
            return place;
        };
        out[place] = symbol;
    }
    out.len()
}
