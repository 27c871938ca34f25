//! Indices, ends and masks, and the ranges of bits from them on.

use crate::answer::Answer;
use crate::types::shown::{Name, Shown};
use crate::values::{Value, count_of, named, number_value, signed, small};
use bits_text::number::number;
use bitvec::index::{BitEnd, BitIdx, BitMask, Limits};
use bitvec::mem::BitRegister;
use bitvec::order::{BitOrder, Lsb0};
use bitvec::ptr::span::BitSpan;

/// Writes the library's answer to a question of a kind; `None` where it is none.
pub fn write_answer<R: BitRegister>(out: &mut Answer, kind: &str, words: &[&str]) -> Option<()> {
    match words {
        [shown] if kind == "index_text" => write_texts::<R>(out, shown)?,
        [start] => {
            let (index, crossed) = step_of::<R>(kind, index_at(start)?)?;
            out.values(&[index, crossed]);
        }
        [start, by] if kind == "offset" => {
            let (words, index) = index_at::<R>(start)?.offset(signed(by)?);
            out.value(Value::Bit(words, index.into_inner()));
        }
        [start, len] => {
            let (words, tail) = words_met::<R>(kind, start, count_of(len)?)?;
            out.values(&[words, tail]);
        }
        _ => return None,
    }
    Some(())
}

/// Writes the mask of an order between two bounds; `None` where there is none.
pub fn write_mask<R: BitRegister, O: BitOrder<R>>(out: &mut Answer, words: &[&str]) -> Option<()> {
    let [from, upto] = words else {
        return None;
    };
    out.display(&mask_of::<R, O>(from, upto)?);
    Some(())
}

// The mask between the indices of two texts, each of which may be `-`.
fn mask_of<R: BitRegister, O: BitOrder<R>>(from: &str, upto: &str) -> Option<BitMask<R>> {
    let from = if from == "-" {
        None
    } else {
        Some(index_at(from)?)
    };
    let upto = if upto == "-" {
        None
    } else {
        Some(end_at(upto)?)
    };
    let start = from.unwrap_or(BitIdx::MIN).into_inner();
    let end = upto.unwrap_or(BitEnd::MAX).into_inner();
    if start > end {
        return None;
    }
    Some(O::mask(from, upto))
}

/// The index of a text.
pub fn index_at<R: BitRegister>(text: &str) -> Option<BitIdx<R>> {
    BitIdx::new(small(text)?).ok()
}

/// The end of a text.
pub fn end_at<R: BitRegister>(text: &str) -> Option<BitEnd<R>> {
    BitEnd::new(small(text)?)
}

// The index one further or one back, and whether that crosses into another register.
fn step_of<R: BitRegister>(kind: &str, start: BitIdx<R>) -> Option<(Value, Value)> {
    let (index, crossed) = match kind {
        "next" => start.next(),
        "prev" => start.prev(),
        _ => return None,
    };
    Some((number_value(index.into_inner()), Value::Truth(crossed)))
}

// The words that a range of bits meets, and its end in the last: from an index on, from an end on,
// or as a span.
fn words_met<R: BitRegister>(kind: &str, start: &str, len: usize) -> Option<(Value, Value)> {
    let (elements, tail) = match kind {
        "span" => index_at::<R>(start)?.span(len),
        "end_span" => end_at::<R>(start)?.span(len),
        "elements" => words_of_span::<R>(index_at(start)?, len)?,
        _ => return None,
    };
    Some((Value::Number(elements), number_value(tail.into_inner())))
}

// The words that a span meets, and its end in the last.
fn words_of_span<R: BitRegister>(start: BitIdx<R>, len: usize) -> Option<(usize, BitEnd<R>)> {
    let span: BitSpan<R, Lsb0> = BitSpan::new(0, start, len).ok()?;
    Some((span.elements(), span.tail()))
}

const NAMES: [(&str, Name); 6] = [
    ("BitIdx", Name::Index),
    ("BitIdxError", Name::Error),
    ("BitEnd", Name::End),
    ("BitPos", Name::Position),
    ("BitSel", Name::Selector),
    ("BitMask", Name::Mask),
];

// Writes the texts of a value, which is named by the first of them, its type with its number: in
// full, plainly, and of an index in binary too. An end, a position and a mask have the least of
// theirs for the plain text.
fn write_texts<R: BitRegister>(out: &mut Answer, text: &str) -> Option<()> {
    let (name, number) = value_of(R::name_text(), text)?;
    let value = Shown::<R>::of(name, number)?;
    let plain = match name {
        Name::End | Name::Position | Name::Mask => Shown::<R>::of(name, 0)?,
        _ => Shown::of(name, number)?,
    };
    out.debug(&value);
    out.push(" ");
    out.display(&plain);
    if let Name::Index = name {
        out.push(" ");
        out.display(&plain.binary());
    }
    Some(())
}

// The name of a type of a register and the number, from a text as `BitEnd<u16>(10000)`. The number
// of an error is decimal, and each other binary.
fn value_of(register: &str, shown: &str) -> Option<(Name, u128)> {
    let (name, rest) = shown.split_once('<')?;
    let (of, digits) = rest.split_once(">(")?;
    if of != register {
        return None;
    }
    let radix = if name == "BitIdxError" { 10 } else { 2 };
    let number = number(digits.strip_suffix(')')?, radix, u128::MAX)?;
    Some((named(&NAMES, name)?, number))
}
