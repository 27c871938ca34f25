//! Memories as text: hexadecimal numbers with commas between them, or `-` for none.

ghost use Rattle.std.specs.Prelude.{◌≡◌, ℕ, List, ◌∷◌, ◌++◌, map, string_bytes, slice_get};
ghost use Rattle.std.specs.Prelude.{IfOk, OnOk, OnErr, MatchOption, IsSomeAnd};
ghost use Rattle.bits_text.specs.Words.{AppendsFront, IsMemoryText, IsWordText, hexadecimal};
ghost use Rattle.bits_text.specs.Words.{memory_text, pieces};

use crate::number::number;
use bitvec::mem::BitRegister;
use bitvec_mem::numeral::numeral_in;
use std::alloc::{AllocError, Allocator};

/// The words of a text; `None` where it is no such list, or where a number does not fit the
/// register.
///
/// An `Err` says that memory was refused; it comes only where the text begins with a word.
pub fn words_of<'a, R: BitRegister, A: Allocator>(
    alloc: &'a A,
    text: &str,
) -> Result<Option<Vec<R, &'a A>>, AllocError>
    ensures ok { IfOk result (λ it. MatchOption it
        ((list : List ℕ) → ¬ IsMemoryText R.BITS text.now list)
        (λ v. IsMemoryText R.BITS text.now (map R.number v.items))) }
    ensures err { OnErr result
        (IsSomeAnd (slice_get (pieces text.now) 0) (IsWordText R.BITS)) }
{
    let mut words = Vec::new(alloc);
    if text == "-" {
        return Ok(Some(words));
    }
    for word in text.split(',') {
        let Some(n) = number(word, 16, u128::MAX) else {
            return Ok(None);
        };
        let Some(word) = R::from_u128(n) else {
            return Ok(None);
        };
        words.push(word)?;
    }
    Ok(Some(words))
}

/// Writes the words of a memory behind a text.
///
/// Where memory is refused, a front of what was to be written stands there.
pub fn write_words<R: BitRegister, A: Allocator>(
    text: &mut String<A>,
    memory: &[R],
) -> Result<(), AllocError>
    ensures ok { OnOk result (string_bytes text.new
        ≡ string_bytes text.old ++ memory_text (map R.number memory.now)) }
    ensures err { OnErr result (AppendsFront (string_bytes text.old) (string_bytes text.new)
        (memory_text (map R.number memory.now))) }
{
    let Some((first, rest)) = memory.split_first() else {
        return text.push_str("-");
    };
    write_number(text, first.to_u128())?;
    for word in rest {
        write_next(text, word.to_u128())?;
    }
    Ok(())
}

// Writes a comma and a number.
fn write_next<A: Allocator>(text: &mut String<A>, n: u128) -> Result<(), AllocError>
    ensures ok { OnOk result (string_bytes text.new
        ≡ string_bytes text.old ++ 44 ∷ hexadecimal n) }
    ensures err { OnErr result (AppendsFront (string_bytes text.old) (string_bytes text.new)
        (44 ∷ hexadecimal n)) }
{
    text.push_str(",")?;
    write_number(text, n)
}

// Writes a number in hexadecimal. Its digits are pushed at once, since `push_str` says that the
// text stays where memory is refused, and `write!` does not.
fn write_number<A: Allocator>(text: &mut String<A>, n: u128) -> Result<(), AllocError>
    ensures ok { OnOk result (string_bytes text.new ≡ string_bytes text.old ++ hexadecimal n) }
    ensures err { OnErr result (AppendsFront (string_bytes text.old) (string_bytes text.new)
        (hexadecimal n)) }
{
    let mut buffer = [0u8; 128];
    text.push_str(numeral_in(n, 16, false, 1, &mut buffer))
}
