//! Constants of spans, and the texts of their refusals.

use crate::answer::Answer;
use crate::spans::facts::numbers_of;
use crate::values::{Value, count_of, signed};
use bitvec::mem::BitRegister;
use bitvec::order::Lsb0;
use bitvec::ptr::span::{BitSpan, BitSpanError, SpanLimits};
use std::fmt::Write as _;
use std::marker::PhantomData;

// Writes the value of a name: the two spans of no bits, and the limits, which are the most bits,
// the most words that they meet, and the most whole words.
pub(super) fn write_value<R: BitRegister>(out: &mut Answer, name: &str) -> Option<()> {
    match name {
        "EMPTY" => out.value(numbers_of(BitSpan::<R, Lsb0>::EMPTY)),
        "default" => out.value(numbers_of::<R>(BitSpan::default())),
        "limits" => out.values(&limits::<R>()),
        _ => return None,
    }
    Some(())
}

// The most bits of a span, the most words that it meets, and the most whole words.
fn limits<R: BitRegister>() -> [Value; 3] {
    let bits = BitSpan::<R, Lsb0>::REGION_MAX_BITS;
    let words = BitSpan::<R, Lsb0>::REGION_MAX_ELTS;
    let whole = bits / usize::from(R::BITS);
    [
        Value::Number(bits),
        Value::Number(words),
        Value::Number(whole),
    ]
}

// Writes a refusal plainly, under a width that it does not follow, or in full; `None` where there
// is no such case or form.
pub(super) fn write_error<R: BitRegister>(
    out: &mut Answer,
    case: &str,
    number: &str,
    form: &str,
) -> Option<()> {
    let error = error_of::<R>(case, number)?;
    let written = match form {
        "display" => write!(out.text, "{error:>200}"),
        "debug" => write!(out.text, "{error:?}"),
        _ => return None,
    };
    out.note(written);
    Some(())
}

// The refusal of a case with its number.
fn error_of<R>(case: &str, number: &str) -> Option<BitSpanError<R>> {
    match case {
        "TooLong" => Some(BitSpanError::TooLong(count_of(number)?)),
        "TooHigh" => Some(BitSpanError::TooHigh(signed(number)?, PhantomData)),
        _ => None,
    }
}
