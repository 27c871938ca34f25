//! Questions of a span or a slice beside another one, in a memory of its own.
//!
//! There is a copy of the code for each two registers and two orders, so they are few: the first is
//! of bytes or of words of 64 bits under any order, the second of bytes under `lsb0`, of words of
//! 16 bits under `msb0`, or of words of 64 bits under either.

use bits_text::names::{Call, under};
use bitvec::mem::BitRegister;
use bitvec::order::{BitOrder, Lsb0, Msb0};
use bitvec::ptr::span::BitSpan;
use bitvec_slice::slice::{BitSlice, BitSliceMut};
use replay_lib::answer::{Answer, Text};
use replay_lib::spans::span_at;
use replay_lib::values::{Value, named, place_value};
use std::alloc::Global;
use std::cmp::Ordering;
use std::marker::PhantomData;

/// How many words a question has.
pub const WORDS: usize = 11;

/// Writes the answer to a question of two spans or slices; `None` where the words ask none.
///
/// The calls are `equals`, `equals_each`, `copy_from` and `copy_from_bitslice`, the questions
/// `is_subset`, `intersects`, `count_and`, `first_and`, `first_and_not`, `first_difference`,
/// `compare`, `find` and `contains`, and `asked` for the first seven of these.
pub fn write_answer(out: &mut Answer, words: &[&str]) -> Option<()> {
    let [order, register, memory, start, len, name, there @ ..] = words else {
        return None;
    };
    let first = First {
        alloc: out.alloc,
        name,
        here: Place { memory, start, len },
        there,
    };
    out.take(first_answer_at(order, register, &first)?)
}

/// The answer of a call for the order and the register of the first, or of a slice alone, or `None`
/// where there is none of these names.
pub fn first_answer_at<C: Call>(order: &str, register: &str, call: &C) -> Option<C::Answer> {
    match register {
        "u8" => under::<u8, C>(order, call),
        "u64" => under::<u64, C>(order, call),
        _ => None,
    }
}

// A question of two: the first, and the words of the second.
#[derive(Drop)]
struct First<'a, 't> {
    alloc: &'a Global,
    name: &'t str,
    here: Place<'t>,
    there: &'t [&'t str],
}

impl<'a> Call for First<'a, '_> {
    type Answer = Text<'a>;

    // The answer for a register and an order of the first.
    fn at<R: BitRegister, O: BitOrder<R>>(&self) -> Self::Answer {
        let mut out = Answer::new(self.alloc);
        let is_question = self.write::<R, O>(&mut out);
        out.finish(is_question)
    }
}

impl First<'_, '_> {
    // Writes the answer.
    fn write<R: BitRegister, O: BitOrder<R>>(&self, out: &mut Answer) -> Option<()> {
        let [order, register, memory, start, len] = self.there else {
            return None;
        };
        let two = Two::<R, O> {
            alloc: out.alloc,
            name: self.name,
            here: self.here,
            there: Place { memory, start, len },
            of: PhantomData,
        };
        out.take(answer_at(order, register, &two)?)
    }
}

// The answer of a call for the order and the register of the second, or `None` where there is none
// of these names.
fn answer_at<C: Call>(order: &str, register: &str, call: &C) -> Option<C::Answer> {
    match register {
        "u8" if order == "lsb0" => Some(call.at::<u8, Lsb0>()),
        "u16" if order == "msb0" => Some(call.at::<u16, Msb0>()),
        "u64" if order == "lsb0" => Some(call.at::<u64, Lsb0>()),
        "u64" if order == "msb0" => Some(call.at::<u64, Msb0>()),
        _ => None,
    }
}

// The texts of a memory and of a span in it.
#[derive(Clone, Copy, Drop)]
struct Place<'t> {
    memory: &'t str,
    start: &'t str,
    len: &'t str,
}

// A question of two, for a register and an order of the first.
#[derive(Drop)]
struct Two<'a, 't, R: BitRegister, O> {
    alloc: &'a Global,
    name: &'t str,
    here: Place<'t>,
    there: Place<'t>,
    of: PhantomData<(R, O)>,
}

impl<'a, R: BitRegister, O: BitOrder<R>> Call for Two<'a, '_, R, O> {
    type Answer = Text<'a>;

    // The answer for a register and an order of the second.
    fn at<S: BitRegister, P: BitOrder<S>>(&self) -> Self::Answer {
        let mut out = Answer::new(self.alloc);
        let is_question = self.write::<S, P>(&mut out);
        out.finish(is_question)
    }
}

impl<R: BitRegister, O: BitOrder<R>> Two<'_, '_, R, O> {
    // Writes the answer.
    fn write<S: BitRegister, P: BitOrder<S>>(&self, out: &mut Answer) -> Option<()> {
        let span = span_at::<R, O>(self.here.start, self.here.len)?;
        let there = span_at::<S, P>(self.there.start, self.there.len)?;
        let mut memory = out.memory::<R>(self.here.memory)?;
        let mut other = out.memory::<S>(self.there.memory)?;
        if let Some(way) = named(&COPIES, self.name) {
            copied(way, span, &mut memory, there, &other)?;
            out.words(&memory);
            return Some(());
        }
        let here = BitSlice::new(span, &memory)?;
        if self.name == "equals_each" {
            return write_equal_each(out, here, there, &mut other);
        }
        write_asked(out, self.name, here, BitSlice::new(there, &other)?)
    }
}

// Ways to copy the bits of the second to the first.
#[derive(Clone, Copy)]
enum Copying {
    Spans,
    Slices,
}

const COPIES: [(&str, Copying); 2] = [
    ("copy_from", Copying::Spans),
    ("copy_from_bitslice", Copying::Slices),
];

// Copies the bits of the second to the first; `None` where they have not as many bits, or where one
// is not in its memory.
fn copied<R: BitRegister, O: BitOrder<R>, S: BitRegister, P: BitOrder<S>>(
    way: Copying,
    span: BitSpan<R, O>,
    memory: &mut [R],
    there: BitSpan<S, P>,
    other: &[S],
) -> Option<()> {
    if !span.fits(memory.len()) || !there.fits(other.len()) || span.len() != there.len() {
        return None;
    }
    match way {
        Copying::Spans => span.copy_from(memory, there, other),
        Copying::Slices => {
            let source = BitSlice::new(there, other)?;
            let Ok(mut slice) = BitSliceMut::new(span, memory) else {
                return None;
            };
            if source.len() != slice.len() {
                return None;
            }
            slice.copy_from_bitslice(source);
        }
    }
    Some(())
}

// What is asked of two slices.
#[derive(Clone, Copy)]
enum Question {
    Equals,
    IsSubset,
    Intersects,
    CountAnd,
    FirstAnd,
    FirstAndNot,
    FirstDifference,
    Compare,
    Find,
    Contains,
}

const QUESTIONS: [(&str, Question); 10] = [
    ("equals", Question::Equals),
    ("is_subset", Question::IsSubset),
    ("intersects", Question::Intersects),
    ("count_and", Question::CountAnd),
    ("first_and", Question::FirstAnd),
    ("first_and_not", Question::FirstAndNot),
    ("first_difference", Question::FirstDifference),
    ("compare", Question::Compare),
    ("find", Question::Find),
    ("contains", Question::Contains),
];

// What `asked` asks, of slices of two lengths only the last two.
const ASKED: [Question; 7] = [
    Question::IsSubset,
    Question::Intersects,
    Question::CountAnd,
    Question::FirstAnd,
    Question::FirstAndNot,
    Question::FirstDifference,
    Question::Compare,
];

// Writes the answer to a question of two slices, or to all in turn.
fn write_asked<R: BitRegister, O: BitOrder<R>, S: BitRegister, P: BitOrder<S>>(
    out: &mut Answer,
    name: &str,
    here: BitSlice<R, O>,
    there: BitSlice<S, P>,
) -> Option<()> {
    if name != "asked" {
        out.value(value_of(named(&QUESTIONS, name)?, here, there)?);
        return Some(());
    }
    for question in ASKED.iter() {
        if let Some(value) = value_of(*question, here, there) {
            out.item(&[value]);
        }
    }
    Some(())
}

// The answer to a question of two slices; `None` where it is one of slices of one length, and these
// have two.
fn value_of<R: BitRegister, O: BitOrder<R>, S: BitRegister, P: BitOrder<S>>(
    question: Question,
    here: BitSlice<R, O>,
    there: BitSlice<S, P>,
) -> Option<Value> {
    match question {
        Question::Equals => Some(equality(here.equals(&there), there.equals(&here))),
        Question::FirstDifference => Some(place_value(here.first_difference(&there))),
        Question::Compare => Some(comparison(here.compare(&there))),
        Question::Find => Some(place_value(here.find(&there))),
        Question::Contains => Some(Value::Truth(here.contains(&there))),
        _ if here.len() != there.len() => None,
        _ => value_of_one_length(question, here, there),
    }
}

// The answer to a question of two slices of one length.
fn value_of_one_length<R: BitRegister, O: BitOrder<R>, S: BitRegister, P: BitOrder<S>>(
    question: Question,
    here: BitSlice<R, O>,
    there: BitSlice<S, P>,
) -> Option<Value> {
    if here.len() != there.len() {
        return None;
    }
    match question {
        Question::IsSubset => Some(Value::Truth(here.is_subset(&there))),
        Question::Intersects => Some(Value::Truth(here.intersects(&there))),
        Question::CountAnd => Some(Value::Number(here.count_and(&there))),
        Question::FirstAnd => Some(place_value(here.first_and(&there))),
        Question::FirstAndNot => Some(place_value(here.first_and_not(&there))),
        _ => None,
    }
}

// Whether two are equal, asked of the one and of the other.
fn equality(way: bool, back: bool) -> Value {
    Value::Name(match (way, back) {
        (true, true) => "true",
        (false, false) => "false",
        _ => "one way",
    })
}

// The name of an ordering.
fn comparison(ordering: Ordering) -> Value {
    Value::Name(match ordering {
        Ordering::Less => "less",
        Ordering::Equal => "equal",
        Ordering::Greater => "greater",
    })
}

// Writes whether two slices have the same bits, and then for each bit of the second whether they
// have them with it turned over.
fn write_equal_each<R: BitRegister, O: BitOrder<R>, S: BitRegister, P: BitOrder<S>>(
    out: &mut Answer,
    here: BitSlice<R, O>,
    there: BitSpan<S, P>,
    other: &mut [S],
) -> Option<()> {
    write_equal(out, here, there, other)?;
    for i in 0..there.len() {
        turn_over(there, other, i);
        write_equal(out, here, there, other)?;
        turn_over(there, other, i);
    }
    Some(())
}

// Writes whether two slices have the same bits.
fn write_equal<R: BitRegister, O: BitOrder<R>, S: BitRegister, P: BitOrder<S>>(
    out: &mut Answer,
    here: BitSlice<R, O>,
    there: BitSpan<S, P>,
    other: &[S],
) -> Option<()> {
    let there = BitSlice::new(there, other)?;
    out.item(&[value_of(Question::Equals, here, there)?]);
    Some(())
}

// Turns a bit of a span over, where the span has it.
fn turn_over<S: BitRegister, P: BitOrder<S>>(span: BitSpan<S, P>, memory: &mut [S], i: usize) {
    if span.fits(memory.len()) && i < span.len() {
        let bit = span.read(memory, i);
        span.write(memory, i, !bit);
    }
}
