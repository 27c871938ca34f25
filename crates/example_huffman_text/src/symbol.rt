//! One symbol's code, written and read.

ghost use Rattle.std.specs.Prelude.{◌≡◌, ◌≢◌, ◌↔◌, ℕ, ◌<◌, ◌≤◌, ◌++◌, Err, IsOk, IfOk};
ghost use Rattle.std.specs.Prelude.{IsNone, IfSome};
ghost use Rattle.std.specs.Prelude.{MatchResult, length, slice_index};
ghost use Rattle.bitvec_stream.specs.Reader.{unread, Passes};
ghost use Rattle.bitvec_stream.specs.Writer.{room, Writes};
ghost use Rattle.example_huffman.specs.Codes.{HasCode};
ghost use Rattle.example_huffman.specs.Huffman.{lengths_of};
ghost use Rattle.example_huffman_text.specs.Text.{code_bits, BeginsWithSymbol};

use crate::error::{DecodeError, EncodeError};
use bitvec_stream::prelude::{BitOrder, BitReader, BitRegister, BitWriter};
use example_huffman::code::Code;

/// Writes a symbol's code, the highest digit first. It refuses with `NoCode` exactly where the
/// symbol has no code, and else with `NoRoom` exactly where there is room for fewer bits than the
/// code has. Then nothing is written, and the writer is as it was.
///
/// Costs as [`Code::number`], so the number of symbols, and one `write_be`.
///
/// # Examples
///
/// The code of RFC 1951, 3.2.2: the eight symbols have the lengths 3, 3, 3, 3, 3, 2, 4 and 4, and
/// symbol 6 has the code 1110.
///
/// ```
/// let mut memory = [0x00u8];
/// let mut writer = BitWriter::<u8, Msb0>::all_unchecked(&mut memory);
/// assert_eq!(rt; put_symbol(&code, 6, &mut writer), Ok(()));
/// assert_eq!(rt; put_symbol(&code, 8, &mut writer), Err(EncodeError::NoCode));
/// assert_eq!(rt; put_symbol(&code, 5, &mut writer), Ok(()));
/// assert_eq!(rt; put_symbol(&code, 0, &mut writer), Err(EncodeError::NoRoom));
/// drop(writer);
/// assert_eq!(rt; memory, [0b1110_0000]);
/// ```
pub fn put_symbol<R: BitRegister, O: BitOrder<R>>(
    code: &Code<'_>,
    symbol: usize,
    writer: &mut BitWriter<'_, R, O>,
) -> Result<(), EncodeError>
    ensures accepted { let lengths = lengths_of code.now in IsOk result
        ↔ (HasCode lengths symbol × (slice_index lengths symbol ≤ length (room writer.old))) }
    ensures no_code { (result ≡ Err EncodeError.NoCode) ↔ ¬ HasCode (lengths_of code.now) symbol }
    ensures written { MatchResult result
        (λ _. Writes writer.old writer.new (code_bits (lengths_of code.now) symbol))
        (λ _. writer.new ≡ writer.old) }
{
    let len = code.len(symbol);
    if len == 0 {
        return Err(EncodeError::NoCode);
    }
    if writer.write_be(len, code.number(symbol)).is_err() {
        return Err(EncodeError::NoRoom);
    }
    Ok(())
}

// The symbol with whose code of `len` bits a reader's bits begin, and `None` where they begin with
// no code of so many.
#[tactic(auto, using(crate::proofs::SymbolLemmas::by_numbers))]
fn symbol_of<R: BitRegister, O: BitOrder<R>>(
    code: &Code<'_>,
    reader: &BitReader<'_, R, O>,
    len: usize,
) -> Option<usize>
    requires some { 0 < len }
    requires few { len ≤ 15 }
    requires inside { len ≤ length (unread reader.now) }
    ensures some { IfSome result (BeginsWithSymbol (lengths_of code.now) (unread reader.now)) }
    ensures none { IsNone result → (symbol : ℕ)
        → BeginsWithSymbol (lengths_of code.now) (unread reader.now) symbol
        → slice_index (lengths_of code.now) symbol ≢ len }
{
    let number = reader.peek_be::<usize>(len).unwrap();
    let symbol = code.symbol_at(len, number)?;
    Some(symbol)
}

// The symbol with whose code a reader's bits begin, and `None` where they begin with none.
#[tactic(auto, using(crate::proofs::SymbolLemmas::code_inside))]
fn symbol_before<R: BitRegister, O: BitOrder<R>>(
    code: &Code<'_>,
    reader: &BitReader<'_, R, O>,
) -> Option<usize>
    ensures some { IfSome result (BeginsWithSymbol (lengths_of code.now) (unread reader.now)) }
    ensures none { IsNone result
        → (symbol : ℕ) → ¬ BeginsWithSymbol (lengths_of code.now) (unread reader.now) symbol }
    ensures short { IsNone result → length (unread reader.now) < 15 }
{
    for shorter in 0..15usize {
        if reader.remaining() == shorter {
            return None;
        }
        if let Some(symbol) = symbol_of(code, reader, shorter + 1) {
            return Some(symbol);
        }
    }
    unreachable!()
}

/// Reads the symbol whose code comes next. It succeeds exactly where what is left begins with some
/// symbol's code, which is so wherever 15 bits are left; else it refuses with `Truncated`, and the
/// reader is as it was.
///
/// Costs at most 15 calls each of `peek_be` and of [`Code::symbol_at`].
///
/// # Examples
///
/// In the code of RFC 1951, 3.2.2, 1110 is symbol 6, and no code ends with the next bit.
///
/// ```
/// let memory = [0b1110_1000u8];
/// let mut reader = BitReader::new(BitSlice::<u8, Msb0>::all_unchecked(&memory));
/// assert_eq!(rt; next_symbol(&code, &mut reader), Ok(6));
/// assert_eq!(rt; next_symbol(&code, &mut reader), Ok(3));
/// assert_eq!(rt; next_symbol(&code, &mut reader), Err(DecodeError::Truncated));
/// assert_eq!(rt; reader.remaining(), 1);
/// ```
#[tactic(auto, using(crate::proofs::SymbolLemmas::next_codes))]
pub fn next_symbol<R: BitRegister, O: BitOrder<R>>(
    code: &Code<'_>,
    reader: &mut BitReader<'_, R, O>,
) -> Result<usize, DecodeError>
    ensures accepted { IsOk result
        ↔ ((symbol : ℕ) × BeginsWithSymbol (lengths_of code.now) (unread reader.old) symbol) }
    ensures enough { 15 ≤ length (unread reader.old) → IsOk result }
    ensures symbol { IfOk result (BeginsWithSymbol (lengths_of code.now) (unread reader.old)) }
    ensures bits { IfOk result (λ symbol. unread reader.old
        ≡ code_bits (lengths_of code.now) symbol ++ unread reader.new) }
    ensures moved { MatchResult result
        (λ symbol. Passes reader.old reader.new (slice_index (lengths_of code.now) symbol))
        (λ _. reader.new ≡ reader.old) }
{
    let Some(symbol) = symbol_before(code, &*reader) else {
        return Err(DecodeError::Truncated);
    };
    reader.skip(code.len(symbol)).unwrap();
    Ok(symbol)
}
