//! Pointers to bits, their ranges, and the refusals of spans.

use crate::answer::Answer;
use crate::index::index_at;
use crate::values::{Value, count_of, named, signed};
use bitvec::index::BitIdx;
use bitvec::mem::BitRegister;
use bitvec::order::Lsb0;
use bitvec::ptr::range::{BitPtrRange, EmptyRange};
use bitvec::ptr::single::BitPtr;
use bitvec::ptr::span::{BitSpan, BitSpanError};
use std::ops::{Bound, Range};

mod calls;

/// Writes the library's answer to a question of a kind; `None` where it is none.
///
/// A range is named by the place of its start and its length, or, as `BitPtrRange`, by its ends,
/// each a word and a bit.
pub fn write_answer<R: BitRegister>(out: &mut Answer, kind: &str, words: &[&str]) -> Option<()> {
    match kind {
        "BitPtr" => calls::write_answer::<R>(out, words),
        "range" => {
            let [start, count, steps @ ..] = words else {
                return None;
            };
            let range = range_of(bit_at::<R>(start)?, count_of(count)?)?;
            write_range(out, range, Shown::Places, steps)
        }
        "BitPtrRange" => write_range_of_ends::<R>(out, words),
        _ => {
            let [word, bit, details @ ..] = words else {
                return None;
            };
            let first = pointer::<R>(word, bit)?;
            match details {
                [word, bit] if kind == "offset_from" => {
                    write_distance(out, first, pointer(word, bit)?)?
                }
                _ => out.value(value_of(kind, first, details)?),
            }
            Some(())
        }
    }
}

// What a pointer answers to a question of a kind: whether there is a span, or the pointer after a
// step.
fn value_of<R: BitRegister>(kind: &str, first: BitPtr<R, Lsb0>, details: &[&str]) -> Option<Value> {
    match details {
        [len] if kind == "span_new" => {
            Some(Value::Name(match BitSpan::from_bitptr(first, count_of(len)?) {
                Ok(_) => "ok",
                Err(BitSpanError::TooLong(_)) => "too_long",
                Err(BitSpanError::TooHigh(..)) => "too_high",
            }))
        }
        [name, count] if kind == "step" => {
            Some(pointer_value(stepped(first, named(&STEPS, name)?, count)?, Shown::Parts))
        }
        _ => None,
    }
}

/// The pointer to a bit of a word.
pub fn pointer<R: BitRegister>(word: &str, bit: &str) -> Option<BitPtr<R, Lsb0>> {
    Some(BitPtr::new(signed(word)?, index_at(bit)?))
}

// A step of a pointer.
#[derive(Clone, Copy)]
enum Step {
    Offset,
    WrappingOffset,
    Add,
    Sub,
    WrappingAdd,
    WrappingSub,
}

const STEPS: [(&str, Step); 6] = [
    ("offset", Step::Offset),
    ("wrapping_offset", Step::WrappingOffset),
    ("add", Step::Add),
    ("sub", Step::Sub),
    ("wrapping_add", Step::WrappingAdd),
    ("wrapping_sub", Step::WrappingSub),
];

// The pointer after a step by a number of bits; `None` where the step may not be taken.
fn stepped<R: BitRegister>(
    start: BitPtr<R, Lsb0>,
    step: Step,
    count: &str,
) -> Option<BitPtr<R, Lsb0>> {
    match step {
        Step::WrappingOffset => Some(start.wrapping_offset(signed(count)?)),
        Step::WrappingAdd => Some(start.wrapping_add(count_of(count)?)),
        Step::WrappingSub => Some(start.wrapping_sub(count_of(count)?)),
        Step::Offset => {
            let by = signed(count)?;
            if start.can_offset(by) {
                Some(start.offset(by))
            } else {
                None
            }
        }
        Step::Add => added(start, count_of(count)?),
        Step::Sub => subtracted(start, count_of(count)?),
    }
}

// The pointer `count` bits on, where there is one.
fn added<R: BitRegister>(start: BitPtr<R, Lsb0>, count: usize) -> Option<BitPtr<R, Lsb0>> {
    let by = isize::try_from(count).ok()?;
    if start.can_offset(by) {
        Some(start.add(count))
    } else {
        None
    }
}

// The pointer `count` bits back, where there is one.
fn subtracted<R: BitRegister>(start: BitPtr<R, Lsb0>, count: usize) -> Option<BitPtr<R, Lsb0>> {
    let by = isize::try_from(count).ok()?;
    if start.can_offset(-by) {
        Some(start.sub(count))
    } else {
        None
    }
}

// Writes the distance from an origin, and how the two pointers compare.
fn write_distance<R: BitRegister>(
    out: &mut Answer,
    pointer: BitPtr<R, Lsb0>,
    origin: BitPtr<R, Lsb0>,
) -> Option<()> {
    if !pointer.can_offset_from(origin) {
        return None;
    }
    let distance = pointer.offset_from(origin) as i128;
    out.values(&[
        Value::Signed(distance),
        Value::Comparison(pointer.cmp(&origin)),
    ]);
    Some(())
}

// How the pointers of a range are written: by their places, or by word and bit.
#[derive(Clone, Copy)]
enum Shown {
    Places,
    Parts,
}

// Writes the answers of the range between two pointers, or of one that has a name.
fn write_range_of_ends<R: BitRegister>(out: &mut Answer, words: &[&str]) -> Option<()> {
    let (range, steps): (BitPtrRange<R, Lsb0>, &[&str]) = match words {
        [name, steps @ ..] if *name == "EMPTY" => (BitPtrRange::EMPTY, steps),
        [name, steps @ ..] if *name == "default" => (BitPtrRange::default(), steps),
        [from, first, upto, past, steps @ ..] => {
            (
                range_between(pointer(from, first)?..pointer(upto, past)?)?,
                steps,
            )
        }
        _ => return None,
    };
    write_range(out, range, Shown::Parts, steps)
}

// Writes the answers of a range to its calls, and its two ends after them; `None` where one of them
// is no call.
fn write_range<R: BitRegister>(
    out: &mut Answer,
    range: BitPtrRange<R, Lsb0>,
    shown: Shown,
    steps: &[&str],
) -> Option<()> {
    let mut range = range;
    let calls = out.joined(steps);
    for call in calls.trim_end().split(';') {
        out.begin_item();
        let answer = range_answer(&mut range, shown, call)?;
        write_range_answer(out, answer);
    }
    out.push(" ");
    write_range_answer(out, ends_answer(range.start()..range.end(), shown));
    Some(())
}

// The range of `count` bits from a pointer on.
fn range_of<R: BitRegister>(start: BitPtr<R, Lsb0>, count: usize) -> Option<BitPtrRange<R, Lsb0>> {
    if start.can_offset(isize::try_from(count).ok()?) {
        Some(start.range(count))
    } else {
        None
    }
}

// The range between two pointers.
fn range_between<R: BitRegister>(ends: Range<BitPtr<R, Lsb0>>) -> Option<BitPtrRange<R, Lsb0>> {
    if BitPtrRange::can_range(&ends) {
        Some(BitPtrRange::from_range(ends))
    } else {
        None
    }
}

// The pointer to the bit at a place, which may be before the first word.
fn bit_at<R: BitRegister>(place: &str) -> Option<BitPtr<R, Lsb0>> {
    let place = place.parse::<i128>().ok()?;
    let width = i128::from(R::BITS);
    let word = isize::try_from(place.checked_div_euclid(width)?).ok()?;
    let bit = u8::try_from(place.checked_rem_euclid(width)?).ok()?;
    Some(BitPtr::new(word, BitIdx::new(bit).ok()?))
}

// The place of a pointer's bit.
fn place_of<R: BitRegister>(pointer: BitPtr<R, Lsb0>) -> i128 {
    let bit = pointer.bit().into_inner();
    pointer.address() as i128 * i128::from(R::BITS) + i128::from(bit)
}

// What a range answers to a call.
#[derive(Clone, Copy)]
enum RangeAnswer {
    One(Value),
    Included(Value),
    Excluded(Value),
    Ends(Value, Value),
}

// Writes what a range answers.
fn write_range_answer(out: &mut Answer, answer: RangeAnswer) {
    match answer {
        RangeAnswer::One(value) => out.value(value),
        RangeAnswer::Included(value) => {
            out.push("Included ");
            out.value(value);
        }
        RangeAnswer::Excluded(value) => {
            out.push("Excluded ");
            out.value(value);
        }
        RangeAnswer::Ends(start, end) => {
            out.value(start);
            out.push("..");
            out.value(end);
        }
    }
}

// What is asked of a range.
#[derive(Clone, Copy)]
enum RangeCall {
    Next,
    NextBack,
    Nth,
    NthBack,
    Len,
    IsEmpty,
    StartBound,
    EndBound,
    IntoRange,
    Into,
}

const RANGE_CALLS: [(&str, RangeCall); 10] = [
    ("next", RangeCall::Next),
    ("next_back", RangeCall::NextBack),
    ("nth", RangeCall::Nth),
    ("nth_back", RangeCall::NthBack),
    ("len", RangeCall::Len),
    ("is_empty", RangeCall::IsEmpty),
    ("start_bound", RangeCall::StartBound),
    ("end_bound", RangeCall::EndBound),
    ("into_range", RangeCall::IntoRange),
    ("into", RangeCall::Into),
];

// A range's answer to a call; `None` where it is no call.
fn range_answer<R: BitRegister>(
    range: &mut BitPtrRange<R, Lsb0>,
    shown: Shown,
    text: &str,
) -> Option<RangeAnswer> {
    let (name, rest) = text.split_once(' ').unwrap_or((text, "0"));
    if name == "contains" {
        let pointer = shown_pointer(shown, rest)?;
        return Some(RangeAnswer::One(Value::Truth(range.contains(&pointer))));
    }
    let call = named(&RANGE_CALLS, name)?;
    match moved(range, call, count_of(rest)?) {
        Some(pointer) => Some(RangeAnswer::One(pointer_or_missing(pointer, shown))),
        None => still_answer(range, call, shown),
    }
}

// The pointer that a range gives to a call that takes one or more; `None` where the call takes
// none.
fn moved<R: BitRegister>(
    range: &mut BitPtrRange<R, Lsb0>,
    call: RangeCall,
    n: usize,
) -> Option<Option<BitPtr<R, Lsb0>>> {
    match call {
        RangeCall::Next => Some(range.next()),
        RangeCall::NextBack => Some(range.next_back()),
        RangeCall::Nth => Some(range.nth(n)),
        RangeCall::NthBack => Some(range.nth_back(n)),
        _ => None,
    }
}

// A range's answer to a call that changes nothing of it.
fn still_answer<R: BitRegister>(
    range: &BitPtrRange<R, Lsb0>,
    call: RangeCall,
    shown: Shown,
) -> Option<RangeAnswer> {
    match call {
        RangeCall::Len => Some(RangeAnswer::One(Value::Number(range.len()))),
        RangeCall::IsEmpty => Some(RangeAnswer::One(Value::Truth(range.is_empty()))),
        RangeCall::StartBound => bound_answer(range.start_bound(), shown),
        RangeCall::EndBound => bound_answer(range.end_bound(), shown),
        RangeCall::IntoRange => Some(ends_answer(range.clone().ok()?.into_range(), shown)),
        RangeCall::Into => Some(ends_answer(range.clone().ok()?.into(), shown)),
        _ => None,
    }
}

// The pointer that a text shows, as the range's are.
fn shown_pointer<R: BitRegister>(shown: Shown, text: &str) -> Option<BitPtr<R, Lsb0>> {
    match shown {
        Shown::Places => bit_at(text),
        Shown::Parts => {
            let (word, bit) = text.split_once(' ')?;
            pointer(word, bit)
        }
    }
}

// A pointer by its place, or by word and bit.
fn pointer_value<R: BitRegister>(pointer: BitPtr<R, Lsb0>, shown: Shown) -> Value {
    match shown {
        Shown::Places => Value::Signed(place_of(pointer)),
        Shown::Parts => parts_value(pointer),
    }
}

/// A pointer by word and bit.
pub fn parts_value<R: BitRegister>(pointer: BitPtr<R, Lsb0>) -> Value {
    let (word, bit) = pointer.raw_parts();
    Value::Bit(word, bit.into_inner())
}

// A pointer, where there is one.
fn pointer_or_missing<R: BitRegister>(pointer: Option<BitPtr<R, Lsb0>>, shown: Shown) -> Value {
    match pointer {
        Some(pointer) => pointer_value(pointer, shown),
        None => Value::Missing,
    }
}

// A bound, where it is at a pointer.
fn bound_answer<R: BitRegister>(
    bound: Bound<&BitPtr<R, Lsb0>>,
    shown: Shown,
) -> Option<RangeAnswer> {
    match bound {
        Bound::Included(pointer) => Some(RangeAnswer::Included(pointer_value(*pointer, shown))),
        Bound::Excluded(pointer) => Some(RangeAnswer::Excluded(pointer_value(*pointer, shown))),
        Bound::Unbounded => None,
    }
}

// The two ends of a range of the standard library.
fn ends_answer<R: BitRegister>(ends: Range<BitPtr<R, Lsb0>>, shown: Shown) -> RangeAnswer {
    RangeAnswer::Ends(
        pointer_value(ends.start, shown),
        pointer_value(ends.end, shown),
    )
}
