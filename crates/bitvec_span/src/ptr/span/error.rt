//! Why there is no span of a number of bits from a place on.

ghost use Rattle.std.specs.Prelude.{Some};
ghost use Rattle.std.specs.Fmt.{DisplaysOnOk, WritesStyledOnOk};
ghost use Rattle.bitvec_span.specs.SpanText.{case_text};
ghost use Rattle.bitvec_span.specs.Refusals.{signed_text, too_long_text, too_high_text};
ghost use Rattle.bitvec_span.specs.Refusals.{error_name, too_long_case, too_high_case};

use crate::ptr::span::MAX_BITS;
use bitvec_mem::mem::BitRegister;
use bitvec_mem::numeral::write_numeral;
use std::error::Error;
use std::fmt;
use std::marker::PhantomData;

/// Why there is no span of a number of bits from a place on.
///
/// # Examples
///
/// ```
/// let head = BitIdx::<u8>::new_unchecked(7);
/// let long = BitSpan::<u8, Lsb0>::new(0, head, usize::MAX);
/// assert!(rt; long == Err(BitSpanError::TooLong(usize::MAX)));
/// let high = BitSpan::<u8, Lsb0>::new(isize::MAX, head, 1);
/// assert!(rt; high == Err(BitSpanError::TooHigh(isize::MAX, PhantomData)));
/// ```
#[derive_where(Clone, Copy, PartialEq, Eq, PartialOrd, Ord, Hash)]
pub enum BitSpanError<R> {
    /// The number of bits, which passes the greatest length of a span.
    TooLong(usize),
    /// The index of the first word; the word of the place behind the last bit would pass the
    /// greatest `isize`.
    TooHigh(isize, PhantomData<R>),
}

// Writes a number in decimal, after a minus sign where it is negative.
fn write_signed<W: fmt::Write>(f: &mut fmt::Formatter<W>, n: isize) -> fmt::Result
    ensures { WritesStyledOnOk W.write_str_gives f.old result (signed_text n) f.new }
{
    if n < 0 {
        f.write_str("-")?;
        return write_numeral(f, n.unsigned_abs() as u128, 10, false, 1);
    }
    write_numeral(f, n as u128, 10, false, 1)
}

// The text of `TooLong`.
fn write_too_long<W: fmt::Write>(f: &mut fmt::Formatter<W>, bits: usize) -> fmt::Result
    ensures { WritesStyledOnOk W.write_str_gives f.old result (too_long_text bits) f.new }
{
    f.write_str("Length ")?;
    write_numeral(f, bits as u128, 10, false, 1)?;
    f.write_str(" is too long to encode in a bit-slice, which can only accept ")?;
    write_numeral(f, MAX_BITS as u128, 10, false, 1)?;
    f.write_str(" bits")
}

// The text of `TooHigh`.
fn write_too_high<W: fmt::Write>(f: &mut fmt::Formatter<W>, word: isize) -> fmt::Result
    ensures { WritesStyledOnOk W.write_str_gives f.old result (too_high_text word) f.new }
{
    f.write_str("Word index ")?;
    write_signed(f, word)?;
    f.write_str(" is too high, and produces a span that passes the greatest word index.")
}

/// What is wrong with the length or the word, whatever the caller's flags.
impl<R> fmt::Display for BitSpanError<R> {
    ghost use Rattle.bitvec_span.specs.SpanText.{refusal_text};

    ghost output = { λ e. Some (refusal_text e) };

    ghost styled_output = { λ e _. Some (refusal_text e) };

    fn fmt<W: fmt::Write>(&self, f: &mut fmt::Formatter<W>) -> fmt::Result {
        match *self {
            BitSpanError::TooLong(bits) => write_too_long(f, bits),
            BitSpanError::TooHigh(word, _) => write_too_high(f, word),
        }
    }
}

// The name of the error and of the register, before the case.
fn write_error_name<R: BitRegister, W: fmt::Write>(f: &mut fmt::Formatter<W>) -> fmt::Result
    ensures { WritesStyledOnOk W.write_str_gives f.old result (error_name R.name) f.new }
{
    f.write_str("BitSpanError<")?;
    f.write_str(R::name_text())?;
    f.write_str(">::")
}

// The case and its number of `TooLong`.
fn write_too_long_case<W: fmt::Write>(f: &mut fmt::Formatter<W>, bits: usize) -> fmt::Result
    ensures { WritesStyledOnOk W.write_str_gives f.old result (too_long_case bits) f.new }
{
    f.write_str("TooLong(")?;
    write_numeral(f, bits as u128, 10, false, 1)?;
    f.write_str(")")
}

// The case and its number of `TooHigh`.
fn write_too_high_case<W: fmt::Write>(f: &mut fmt::Formatter<W>, word: isize) -> fmt::Result
    ensures { WritesStyledOnOk W.write_str_gives f.old result (too_high_case word) f.new }
{
    f.write_str("TooHigh(")?;
    write_signed(f, word)?;
    f.write_str(")")
}

// The case of an error and its number.
fn write_case<R, W: fmt::Write>(f: &mut fmt::Formatter<W>, error: BitSpanError<R>) -> fmt::Result
    ensures { WritesStyledOnOk W.write_str_gives f.old result (case_text error) f.new }
{
    match error {
        BitSpanError::TooLong(bits) => write_too_long_case(f, bits),
        BitSpanError::TooHigh(word, _) => write_too_high_case(f, word),
    }
}

/// The case with its number, after the name of the type and the register, whatever the caller's
/// flags.
impl<R: BitRegister> fmt::Debug for BitSpanError<R> {
    ghost use Rattle.bitvec_span.specs.SpanText.{refusal_debug_text};

    ghost debug_output = { λ e. Some (refusal_debug_text R.name e) };

    fn fmt<W: fmt::Write>(&self, f: &mut fmt::Formatter<W>) -> fmt::Result
        ensures writes { DisplaysOnOk W.write_str_gives f.old result
            (Some (refusal_debug_text R.name self.now)) f.new }
        ensures styled { WritesStyledOnOk W.write_str_gives f.old result
            (refusal_debug_text R.name self.now) f.new }
    {
        write_error_name::<R, W>(f)?;
        write_case::<R, W>(f, *self)
    }
}

impl<R: BitRegister> Error for BitSpanError<R> {}
