//! The bits of a slice as text, and bits that are read from one.
//!
//! The texts follow no flag of the caller. The contracts say what is written where a call succeeds
//! and the formatter indents nothing.

ghost use Rattle.std.specs.Prelude.{◌≡◌, ◌∷◌, ◌<◌, [], Some, IfOk, IfErr, MatchOption, length};
ghost use Rattle.std.specs.Prelude.{false, map, slice_index};
ghost use Rattle.std.specs.Fmt.{DisplaysOnOk, WritesOnOk, WritesStyledOnOk};
ghost use Rattle.bitvec.specs.BitSpan.{span_of, list_by, Becomes};
ghost use Rattle.bitvec.specs.Span.{Fits};
ghost use Rattle.bitvec_slice.specs.BitSlice.{slice_bits};
ghost use Rattle.bitvec_slice.specs.Iter.{iter_left};
ghost use Rattle.bitvec_slice.specs.SliceText.{digit_text, digits_text, truths_text, text_bits};
ghost use Rattle.bitvec_slice.specs.SliceText.{digit_value, IsDigit, AreDigits};
ghost use Rattle.bitvec_slice.specs.SliceText.{not_a_digit_text, other_length_text};
ghost use Rattle.bitvec.specs.ItemText.{rest_text};

use crate::slice::{BitSlice, BitSliceMut, Iter};
use bitvec::mem::BitRegister;
use bitvec::order::BitOrder;
use bitvec::ptr::span::BitSpan;
use bitvec_mem::numeral::write_numeral;
use std::error::Error;
use std::fmt;

/// Why a text is not read as the bits of a slice. Not in the Rust crate.
#[derive(Clone, Copy, PartialEq, Eq, Debug, Drop)]
pub enum TextError {
    /// The place of the first character that is neither `0` nor `1`, counted from zero.
    NotADigit(usize),
    /// How many digits the text has; the slice has another number of bits.
    OtherLength(usize),
}

// The text of `NotADigit`.
fn write_not_a_digit<W: fmt::Write>(f: &mut fmt::Formatter<W>, at: usize) -> fmt::Result
    ensures { WritesStyledOnOk W.write_str_gives f.old result (not_a_digit_text at) f.new }
{
    f.write_str("character ")?;
    write_numeral(f, at as u128, 10, false, 1)?;
    f.write_str(" is neither 0 nor 1")
}

// The text of `OtherLength`.
fn write_other_length<W: fmt::Write>(f: &mut fmt::Formatter<W>, digits: usize) -> fmt::Result
    ensures { WritesStyledOnOk W.write_str_gives f.old result (other_length_text digits) f.new }
{
    write_numeral(f, digits as u128, 10, false, 1)?;
    f.write_str(" digits for another number of bits")
}

/// Which character is no digit, or how many digits there are, whatever the caller's flags.
impl fmt::Display for TextError {
    ghost use Rattle.bitvec_slice.specs.TextError.{reason_text};

    ghost output = { λ error. Some (reason_text error) };

    ghost styled_output = { λ error _. Some (reason_text error) };

    fn fmt<W: fmt::Write>(&self, f: &mut fmt::Formatter<W>) -> fmt::Result {
        match *self {
            TextError::NotADigit(at) => write_not_a_digit(f, at),
            TextError::OtherLength(digits) => write_other_length(f, digits),
        }
    }
}

impl Error for TextError {}

// The digit of a bit.
fn digit_of(bit: bool) -> &'static str
    ensures { result.now ≡ digit_text bit ∷ [] }
{
    if bit { "1" } else { "0" }
}

// A digit for each bit that is still to come.
fn write_digits<'a, R: BitRegister, O: BitOrder<R>, W: fmt::Write>(
    bits: Iter<'a, R, O>,
    f: &mut fmt::Formatter<W>,
) -> fmt::Result
    ensures { WritesStyledOnOk W.write_str_gives f.old result (digits_text (iter_left bits.entry))
        f.new }
{
    for bit in bits {
        f.write_str(digit_of(bit))?;
    }
    Ok(())
}

// A digit for each bit of a slice.
fn write_text<'a, R: BitRegister, O: BitOrder<R>, W: fmt::Write>(
    slice: BitSlice<'a, R, O>,
    f: &mut fmt::Formatter<W>,
) -> fmt::Result
    ensures styled { WritesStyledOnOk W.write_str_gives f.old result
        (digits_text (slice_bits slice.entry)) f.new }
    ensures writes { WritesOnOk W.write_str_gives f.old result
        (digits_text (slice_bits slice.entry)) f.new }
{
    write_digits(slice.iter(), f)
}

// A digit for each bit that is still to come, each after a comma and a space.
fn write_rest<'a, R: BitRegister, O: BitOrder<R>, W: fmt::Write>(
    rest: Iter<'a, R, O>,
    f: &mut fmt::Formatter<W>,
) -> fmt::Result
    ensures { WritesStyledOnOk W.write_str_gives f.old result
        (rest_text 10 false (map digit_value (iter_left rest.entry))) f.new }
{
    for bit in rest {
        f.write_str(", ")?;
        f.write_str(digit_of(bit))?;
    }
    Ok(())
}

// The digits of a slice in brackets.
fn write_list<'a, R: BitRegister, O: BitOrder<R>, W: fmt::Write>(
    slice: BitSlice<'a, R, O>,
    f: &mut fmt::Formatter<W>,
) -> fmt::Result
    ensures styled { WritesStyledOnOk W.write_str_gives f.old result
        (truths_text (slice_bits slice.entry)) f.new }
    ensures writes { WritesOnOk W.write_str_gives f.old result
        (truths_text (slice_bits slice.entry)) f.new }
{
    let mut rest = slice.iter();
    let Some(first) = rest.next() else {
        return f.write_str("[]");
    };
    f.write_str("[")?;
    f.write_str(digit_of(first))?;
    write_rest(rest, f)?;
    f.write_str("]")
}

/// A `1` or a `0` for each bit, in order, and nothing between them, whatever the caller's flags.
/// Costs by bits. In the Rust crate it is the list that `Debug` is here.
///
/// # Examples
///
/// ```
/// let memory = [0x2Cu8];
/// let span: BitSpan<u8, Lsb0> = BitSpan::at(2, 4).unwrap();
/// let slice = BitSlice::new(span, &memory).ok_or("outside")?;
/// assert_eq!(rt; format!(in rt.alloc(); "{slice}")?.as_str(), "1101");
/// assert_eq!(rt;
///     format!(in rt.alloc(); "{slice:?}")?.as_str(),
///     "[1, 1, 0, 1]"
/// );
/// ```
impl<'a, R: BitRegister, O: BitOrder<R>> fmt::Display for BitSlice<'a, R, O> {
    ghost output = { λ slice. Some (digits_text (slice_bits slice)) };

    ghost styled_output = { λ slice _. Some (digits_text (slice_bits slice)) };

    fn fmt<W: fmt::Write>(&self, f: &mut fmt::Formatter<W>) -> fmt::Result {
        write_text(*self, f)
    }
}

/// The text of `Display`; a format takes `{:b}` of numbers alone. Costs by bits. In the Rust crate
/// it is a list with a text for each word.
impl<'a, R: BitRegister, O: BitOrder<R>> fmt::Binary for BitSlice<'a, R, O> {
    fn fmt<W: fmt::Write>(&self, f: &mut fmt::Formatter<W>) -> fmt::Result
        ensures writes { WritesOnOk W.write_str_gives f.old result
            (digits_text (slice_bits self.now)) f.new }
        ensures styled { WritesStyledOnOk W.write_str_gives f.old result
            (digits_text (slice_bits self.now)) f.new }
    {
        write_text(*self, f)
    }
}

/// A `1` or a `0` for each bit, in square brackets and with a comma and a space between them,
/// whatever the caller's flags. Costs by bits. In the Rust crate the span's text stands before it.
impl<'a, R: BitRegister, O: BitOrder<R>> fmt::Debug for BitSlice<'a, R, O> {
    ghost debug_output = { λ slice. Some (truths_text (slice_bits slice)) };

    fn fmt<W: fmt::Write>(&self, f: &mut fmt::Formatter<W>) -> fmt::Result
        ensures writes { DisplaysOnOk W.write_str_gives f.old result
            (Some (truths_text (slice_bits self.now))) f.new }
        ensures styled { WritesStyledOnOk W.write_str_gives f.old result
            (truths_text (slice_bits self.now)) f.new }
    {
        write_list(*self, f)
    }
}

/// The text of the bits' [`BitSlice`]. Costs by bits.
impl<'a, R: BitRegister, O: BitOrder<R>> fmt::Display for BitSliceMut<'a, R, O> {
    ghost use Rattle.bitvec_slice.specs.BitSliceMut.{lent_bits};

    ghost output = { λ slice. Some (digits_text (lent_bits slice)) };

    ghost styled_output = { λ slice _. Some (digits_text (lent_bits slice)) };

    fn fmt<W: fmt::Write>(&self, f: &mut fmt::Formatter<W>) -> fmt::Result {
        write_text(self.as_bitslice(), f)
    }
}

/// The text of the bits' [`BitSlice`]. Costs by bits.
impl<'a, R: BitRegister, O: BitOrder<R>> fmt::Binary for BitSliceMut<'a, R, O> {
    ghost use Rattle.bitvec_slice.specs.BitSliceMut.{lent_bits};

    fn fmt<W: fmt::Write>(&self, f: &mut fmt::Formatter<W>) -> fmt::Result
        ensures writes { WritesOnOk W.write_str_gives f.old result
            (digits_text (lent_bits self.now)) f.new }
        ensures styled { WritesStyledOnOk W.write_str_gives f.old result
            (digits_text (lent_bits self.now)) f.new }
    {
        write_text(self.as_bitslice(), f)
    }
}

/// The text of the bits' [`BitSlice`]. Costs by bits.
impl<'a, R: BitRegister, O: BitOrder<R>> fmt::Debug for BitSliceMut<'a, R, O> {
    ghost use Rattle.bitvec_slice.specs.BitSliceMut.{lent_bits};

    ghost debug_output = { λ slice. Some (truths_text (lent_bits slice)) };

    fn fmt<W: fmt::Write>(&self, f: &mut fmt::Formatter<W>) -> fmt::Result
        ensures writes { DisplaysOnOk W.write_str_gives f.old result
            (Some (truths_text (lent_bits self.now))) f.new }
        ensures styled { WritesStyledOnOk W.write_str_gives f.old result
            (truths_text (lent_bits self.now)) f.new }
    {
        write_list(self.as_bitslice(), f)
    }
}

// The place of the first byte that is no digit.
fn first_other(text: &[u8]) -> Option<usize>
    ensures { MatchOption result (AreDigits text.now (length text.now))
        (λ at. (at < length text.now) × AreDigits text.now at
        × (¬ IsDigit (slice_index text.now at))) }
{
    for (at, character) in text.iter().enumerate() {
        if *character != b'0' && *character != b'1' {
            return Some(at);
        }
    }
    None
}

// Makes the bits of a span those of `digits`, one digit for each bit, and changes no other bit.
fn put_digits<R: BitRegister, O: BitOrder<R>>(span: BitSpan<R, O>, memory: &mut [R], digits: &[u8])
    requires fits { Fits R.BITS (span_of span) (length memory.old) }
    requires many { length digits.now ≡ (span_of span).len }
    ensures { Becomes span O.at_of memory.old memory.new (text_bits digits.now) }
{
    for i in 0..digits.len() {
        span.write(memory, i, digits[i] == b'1');
    }
}

impl<'a, R: BitRegister, O: BitOrder<R>> BitSliceMut<'a, R, O> {
    ghost use Rattle.bitvec_slice.specs.BitSliceMut.{lent_len, lent_bits, BecomesBits};
    ghost use Rattle.bitvec_slice.specs.TextError.{IsRefusal};

    /// Makes the bits those of a text of zeros and ones, in order, one character for each bit. The
    /// `Display` of the slice is then the text.
    ///
    /// It refuses a text with another character, and says which is the first. It refuses one with
    /// another number of digits, and says how many it has. Where it refuses, the bits are as they
    /// were. Costs by the text's characters. Not in the Rust crate.
    ///
    /// # Examples
    ///
    /// ```
    /// let mut memory = [0u8];
    /// let span: BitSpan<u8, Lsb0> = BitSpan::at(2, 4).unwrap();
    /// let mut slice = BitSliceMut::new_unchecked(span, &mut memory);
    /// assert_eq!(rt; slice.copy_from_text("1101"), Ok(()));
    /// assert_eq!(rt; slice.copy_from_text("01x1"), Err(TextError::NotADigit(2)));
    /// assert_eq!(rt;
    ///     slice.copy_from_text("00000"),
    ///     Err(TextError::OtherLength(5))
    /// );
    /// drop(slice);
    /// assert_eq!(rt; memory, [0x2C]);
    /// ```
    pub fn copy_from_text(&mut self, text: &str) -> Result<(), TextError>
        ensures bits { IfOk result (λ _. BecomesBits self.old self.new (text_bits text.now)) }
        ensures text { IfOk result (λ _. digits_text (lent_bits self.new) ≡ text.now) }

        // Where it refuses, nothing has changed.
        ensures refused { IfErr result (IsRefusal (lent_len self.old) text.now) }
        ensures kept { IfErr result (λ _. self.new ≡ self.old) }
    {
        let digits = text.as_bytes();
        if let Some(at) = first_other(digits) {
            return Err(TextError::NotADigit(at));
        }
        if digits.len() != self.len() {
            return Err(TextError::OtherLength(digits.len()));
        }
        let span = self.span();
        let memory = &mut *self.memory;
        put_digits(span, memory, digits);
        Ok(())
    }
}
