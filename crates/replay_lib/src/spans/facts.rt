//! What a span is, which no memory and no order changes.

use crate::answer::Answer;
use crate::pointers::parts_value;
use crate::spans::{pointer_of, span_at};
use crate::values::{Value, count_of, number_value};
use bitvec::mem::BitRegister;
use bitvec::order::Lsb0;
use bitvec::ptr::span::{BitSpan, BitSpanError};

// What is asked of a span alone.
#[derive(Clone, Copy)]
pub(super) enum Fact {
    New,
    FromBitptr,
    At,
    Elements,
    Tail,
    Len,
    IsEmpty,
    RawParts,
    ToBitptr,
    ToBitptrRange,
    Fits,
    SplitAt,
    Range,
    IsDisjoint,
    Equals,
}

pub(super) const FACTS: [(&str, Fact); 15] = [
    ("new", Fact::New),
    ("from_bitptr", Fact::FromBitptr),
    ("at", Fact::At),
    ("elements", Fact::Elements),
    ("tail", Fact::Tail),
    ("len", Fact::Len),
    ("is_empty", Fact::IsEmpty),
    ("raw_parts", Fact::RawParts),
    ("to_bitptr", Fact::ToBitptr),
    ("to_bitptr_range", Fact::ToBitptrRange),
    ("fits", Fact::Fits),
    ("split_at", Fact::SplitAt),
    ("range", Fact::Range),
    ("is_disjoint", Fact::IsDisjoint),
    ("equals", Fact::Equals),
];

// Writes the answer to a question of a span alone; `None` where there is none.
pub(super) fn write_answer<R: BitRegister>(
    out: &mut Answer,
    start: &str,
    len: &str,
    fact: Fact,
    words: &[&str],
) -> Option<()> {
    if let Fact::New | Fact::FromBitptr | Fact::At = fact {
        match made::<R>(start, count_of(len)?, fact)? {
            Ok(span) => out.value(numbers_of(span)),
            Err(error) => out.debug(&error),
        }
        return Some(());
    }
    let span = span_at::<R, Lsb0>(start, len)?;
    match (fact, words) {
        (Fact::ToBitptrRange, []) => out.values(&ends(span)),
        (_, []) => out.value(own(span, fact)?),
        (Fact::Fits, [n]) => out.value(Value::Truth(span.fits(count_of(n)?))),
        (Fact::SplitAt, [n]) => write_halves(out, span, count_of(n)?)?,
        (Fact::Range, [from, to]) => out.value(part(span, count_of(from)?, count_of(to)?)?),
        (_, [start, len]) => {
            let (way, back) = with(span, fact, span_at(start, len)?)?;
            out.values(&[Value::Truth(way), Value::Truth(back)]);
        }
        _ => return None,
    }
    Some(())
}

// The span that a call makes, `new` of a word and a bit, `from_bitptr` or `at` of a place.
fn made<R: BitRegister>(
    start: &str,
    len: usize,
    fact: Fact,
) -> Option<Result<BitSpan<R, Lsb0>, BitSpanError<R>>> {
    match fact {
        Fact::New => {
            let (word, bit) = pointer_of::<R, Lsb0>(start)?.raw_parts();
            Some(BitSpan::new(word, bit, len))
        }
        Fact::FromBitptr => Some(BitSpan::from_bitptr(pointer_of(start)?, len)),
        Fact::At => Some(BitSpan::at(count_of(start)?, len)),
        _ => None,
    }
}

// The word, the head and the length of a span.
pub(super) fn numbers_of<R: BitRegister>(span: BitSpan<R, Lsb0>) -> Value {
    let (word, head, len) = span.raw_parts();
    Value::Span(word, head.into_inner(), len)
}

// What a span answers to a call.
fn own<R: BitRegister>(span: BitSpan<R, Lsb0>, fact: Fact) -> Option<Value> {
    match fact {
        Fact::Elements => Some(Value::Number(span.elements())),
        Fact::Tail => Some(number_value(span.tail().into_inner())),
        Fact::Len => Some(Value::Number(span.len())),
        Fact::IsEmpty => Some(Value::Truth(span.is_empty())),
        Fact::RawParts => Some(numbers_of(span)),
        Fact::ToBitptr => Some(parts_value(span.to_bitptr())),
        _ => None,
    }
}

// The two ends of a span's range of pointers, and whether its start is the span's pointer.
fn ends<R: BitRegister>(span: BitSpan<R, Lsb0>) -> [Value; 3] {
    let range = span.to_bitptr_range();
    let is_start = range.start() == span.to_bitptr();
    [
        parts_value(range.start()),
        parts_value(range.end()),
        Value::Truth(is_start),
    ]
}

// Writes the spans of a span's first bits and of the others.
fn write_halves<R: BitRegister>(out: &mut Answer, span: BitSpan<R, Lsb0>, n: usize) -> Option<()> {
    if n > span.len() {
        return None;
    }
    let (first, second) = span.split_at(n);
    out.item(&[numbers_of(first)]);
    out.item(&[numbers_of(second)]);
    Some(())
}

// The part of a span from one of its bits to before another.
fn part<R: BitRegister>(span: BitSpan<R, Lsb0>, from: usize, to: usize) -> Option<Value> {
    if from <= to && to <= span.len() {
        Some(numbers_of(span.range(from, to)))
    } else {
        None
    }
}

// What two spans are to each other, asked of the one and of the other.
fn with<R: BitRegister>(
    here: BitSpan<R, Lsb0>,
    fact: Fact,
    there: BitSpan<R, Lsb0>,
) -> Option<(bool, bool)> {
    match fact {
        Fact::IsDisjoint => Some((here.is_disjoint(&there), there.is_disjoint(&here))),
        Fact::Equals => Some((here == there, there == here)),
        _ => None,
    }
}
