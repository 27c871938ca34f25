//! The bits of a vector as text, and a vector that is read from one.

ghost use Rattle.std.specs.Prelude.{◌≡◌, ◌≤◌, ◌<◌, Some, IfOk, IfErr, length, map};
ghost use Rattle.std.specs.Fmt.{DisplaysOnOk, WritesOnOk, WritesStyledOnOk};
ghost use Rattle.bitvec.specs.Place.{region_max_bits};
ghost use Rattle.bitvec_slice.specs.SliceText.{digits_text, truths_text, text_bits};
ghost use Rattle.bitvec_slice.specs.TextError.{IsRefusal};
ghost use Rattle.bitvec_vec.specs.FromText.{IsTextRefusal};
ghost use Rattle.bitvec_vec.specs.Front.{front_bits, words_for};

use crate::vec::BitVec;
use crate::vec::front::span_of_front;
use bitvec::mem::BitRegister;
use bitvec::order::{BitOrder, Lsb0};
use bitvec::ptr::span::BitSpan;
use bitvec_slice::slice::{BitSliceMut, TextError};
use std::alloc::{AllocError, Allocator};
use std::error::Error;
use std::fmt;

/// Why a text is not read as a vector. Not in the Rust crate.
#[derive(Clone, Copy, PartialEq, Eq, Debug, Drop)]
pub enum FromTextError {
    /// The place of the first character that is neither `0` nor `1`, counted from zero.
    NotADigit(usize),
    /// Memory is refused, or the text has more than 2305843009213693951 characters.
    NoMemory,
}

/// Which character is no digit, or that there is no memory, whatever the caller's flags.
impl fmt::Display for FromTextError {
    ghost use Rattle.bitvec_vec.specs.FromText.{unread_text};

    ghost output = { λ error. Some (unread_text error) };

    ghost styled_output = { λ error _. Some (unread_text error) };

    fn fmt<W: fmt::Write>(&self, f: &mut fmt::Formatter<W>) -> fmt::Result {
        match *self {
            FromTextError::NotADigit(at) => fmt::Display::fmt(&TextError::NotADigit(at), f),
            FromTextError::NoMemory => f.write_str("there is no memory"),
        }
    }
}

impl Error for FromTextError {}

/// A `1` or a `0` for each bit, in order, and nothing between them, whatever the caller's flags:
/// the text of their slice. Costs by bits. In the Rust crate it is the list that `Debug` is here.
impl<R: BitRegister, O: BitOrder<R>, A: Allocator> fmt::Display for BitVec<R, O, A> {
    ghost use Rattle.bitvec_vec.specs.BitVec.{vec_bits};

    ghost output = { λ vec. Some (digits_text (vec_bits vec)) };

    ghost styled_output = { λ vec _. Some (digits_text (vec_bits vec)) };

    fn fmt<W: fmt::Write>(&self, f: &mut fmt::Formatter<W>) -> fmt::Result {
        fmt::Display::fmt(&self.as_bitslice(), f)
    }
}

/// The text of the bits' slice. Costs by bits.
impl<R: BitRegister, O: BitOrder<R>, A: Allocator> fmt::Binary for BitVec<R, O, A> {
    ghost use Rattle.bitvec_vec.specs.BitVec.{vec_bits};

    fn fmt<W: fmt::Write>(&self, f: &mut fmt::Formatter<W>) -> fmt::Result
        ensures writes { WritesOnOk W.write_str_gives f.old result
            (digits_text (vec_bits self.now)) f.new }
        ensures styled { WritesStyledOnOk W.write_str_gives f.old result
            (digits_text (vec_bits self.now)) f.new }
    {
        fmt::Binary::fmt(&self.as_bitslice(), f)
    }
}

/// The text of the bits' slice. Costs by bits.
impl<R: BitRegister, O: BitOrder<R>, A: Allocator> fmt::Debug for BitVec<R, O, A> {
    ghost use Rattle.bitvec_vec.specs.BitVec.{vec_bits};

    ghost debug_output = { λ vec. Some (truths_text (vec_bits vec)) };

    fn fmt<W: fmt::Write>(&self, f: &mut fmt::Formatter<W>) -> fmt::Result
        ensures writes { DisplaysOnOk W.write_str_gives f.old result
            (Some (truths_text (vec_bits self.now))) f.new }
        ensures styled { WritesStyledOnOk W.write_str_gives f.old result
            (truths_text (vec_bits self.now)) f.new }
    {
        fmt::Debug::fmt(&self.as_bitslice(), f)
    }
}

// Makes the first `len` bits of some words those of a text of `len` zeros and ones.
fn put_text<R: BitRegister, O: BitOrder<R>>(
    words: &mut [R],
    len: usize,
    text: &str,
) -> Result<(), TextError>
    requires short { len ≤ region_max_bits }
    requires room { words_for R.BITS len ≤ length words.old }
    ensures bits { IfOk result (λ _. front_bits R.BITS O.at_of len (map R.number words.new)
        ≡ text_bits text.now) }
    ensures text { IfOk result (λ _. digits_text (text_bits text.now) ≡ text.now) }
    ensures refused { IfErr result (IsRefusal len text.now) }
{
    let span: BitSpan<R, O> = span_of_front(len);
    let mut bits = BitSliceMut::new_unchecked(span, words);
    bits.copy_from_text(text)
}

// Why a text is refused where there is no memory for its bits: its first character that is no
// digit, or else the memory.
fn refusal(text: &str) -> FromTextError
    requires { 0 < length text.now }
    ensures { IsTextRefusal text.now result }
{
    let span: BitSpan<u8, Lsb0> = span_of_front(0);
    let mut bits = BitSliceMut::new_unchecked(span, &mut []);
    match bits.copy_from_text(text) {
        Err(TextError::NotADigit(at)) => FromTextError::NotADigit(at),
        Ok(()) | Err(TextError::OtherLength(_)) => FromTextError::NoMemory,
    }
}

impl<R: BitRegister, O: BitOrder<R>, A: Allocator> BitVec<R, O, A> {
    ghost use Rattle.bitvec_vec.specs.BitVec.{vec_bits};

    /// The bits of a text of zeros and ones, in order, so that its `Display` is the text.
    ///
    /// It refuses a text with another character, and says which is the first, whatever memory there
    /// is. It refuses one of zeros and ones alone where memory is refused. An empty text takes no
    /// memory, and is never refused. Costs by the text's characters. Not in the Rust crate, whose
    /// macro `bitvec!` reads such a list.
    ///
    /// # Examples
    ///
    /// ```
    /// let bits = BitVec::<u8, Msb0>::from_text(rt.alloc(), "001011")?;
    /// assert_eq!(rt; bits.len(), 6);
    /// assert_eq!(rt; bits.get(2), Some(true));
    /// assert_eq!(rt; format!(in rt.alloc(); "{bits}")?.as_str(), "001011");
    /// match BitVec::<u8, Msb0>::from_text(rt.alloc(), "01x1") {
    ///     Ok(_) => assert!(rt; false),
    ///     Err(error) => assert_eq!(rt; error, FromTextError::NotADigit(2)),
    /// }
    /// ```
    pub fn from_text(alloc: A, text: &str) -> Result<Self, FromTextError>
        ensures bits { IfOk result (λ vec. vec_bits vec ≡ text_bits text.now) }
        ensures text { IfOk result (λ vec. digits_text (vec_bits vec) ≡ text.now) }
        ensures refused { IfErr result (IsTextRefusal text.now) }
    {
        let mut vec: BitVec<R, O, A> = match BitVec::repeat(alloc, false, text.len()) {
            Ok(vec) => vec,
            Err(_) => return Err(refusal(text)),
        };
        let len = vec.len;
        match put_text::<R, O>(vec.words.as_mut_slice(), len, text) {
            Ok(()) => Ok(vec),
            Err(TextError::NotADigit(at)) => Err(FromTextError::NotADigit(at)),
            Err(TextError::OtherLength(_)) => Err(FromTextError::NoMemory),
        }
    }
}
