//! A question to the library, for the register and the order that it names.

use crate::line::Topic;
use crate::{beside, numbers, program, slices};
use bits_text::names::{self, Call};
use bitvec::mem::BitRegister;
use bitvec::order::BitOrder;
use replay_lib::answer::{Answer, Text};
use replay_lib::{
    candidates, combinations, copies, domains, index, memories, numerals, orders, pairs, pointers,
    registers, spans, types,
};
use std::alloc::Global;

/// The library's answer to a question of a kind, as text, or `None` where it has none.
///
/// The words are those of the question, after its kind.
pub fn answer<'a>(alloc: &'a Global, topic: Topic, kind: &str, words: &[&str]) -> Text<'a> {
    match topic {
        Topic::Numerals | Topic::Program | Topic::Copies | Topic::Combinations | Topic::Numbers => {
            plain_answer(alloc, topic, words)
        }
        Topic::Spans | Topic::Slices if words.len() == beside::WORDS => {
            plain_answer(alloc, topic, words)
        }
        Topic::Slices => slice_answer(alloc, words),
        Topic::Registers | Topic::Index | Topic::Types | Topic::Candidates | Topic::Pointers => {
            let [register, words @ ..] = words else {
                return Ok(None);
            };
            answer_at(alloc, topic, kind, ("lsb0", register), words)
        }
        _ => {
            let [order, register, words @ ..] = words else {
                return Ok(None);
            };
            answer_at(alloc, topic, kind, (order, register), words)
        }
    }
}

// The answer to a question that names no register, or that finds its registers itself.
fn plain_answer<'a>(alloc: &'a Global, topic: Topic, words: &[&str]) -> Text<'a> {
    let mut out = Answer::new(alloc);
    let is_question = write_plain(&mut out, topic, words);
    out.finish(is_question)
}

// Writes the answer to such a question.
fn write_plain(out: &mut Answer, topic: Topic, words: &[&str]) -> Option<()> {
    match topic {
        Topic::Numerals => numerals::write_answer(out, words),
        Topic::Program => program::write_answer(out, words),
        Topic::Numbers => numbers::write_answer(out, words),
        Topic::Copies => copies::write_answer(out, words),
        Topic::Combinations => combinations::write_answer(out, words),
        Topic::Spans | Topic::Slices => beside::write_answer(out, words),
        _ => None,
    }
}

// The answer to a question for an order and a register; where every order has the same, under
// `lsb0`.
fn answer_at<'a>(
    alloc: &'a Global,
    topic: Topic,
    kind: &str,
    names: (&str, &str),
    words: &[&str],
) -> Text<'a> {
    let question = Question {
        alloc,
        topic,
        kind,
        words,
    };
    names::answer_at(names.0, names.1, &question).unwrap_or(Ok(None))
}

// The words of a question after its order and its register.
#[derive(Drop)]
struct Question<'a, 't> {
    alloc: &'a Global,
    topic: Topic,
    kind: &'t str,
    words: &'t [&'t str],
}

impl<'a> Call for Question<'a, '_> {
    type Answer = Text<'a>;

    fn at<R: BitRegister, O: BitOrder<R>>(&self) -> Self::Answer {
        let mut out = Answer::new(self.alloc);
        let is_question = self.write_answer::<R, O>(&mut out);
        out.finish(is_question)
    }
}

impl Question<'_, '_> {
    // Writes the library's answer; `None` where there is none.
    fn write_answer<R: BitRegister, O: BitOrder<R>>(&self, out: &mut Answer) -> Option<()> {
        let (kind, words) = (self.kind, self.words);
        match self.topic {
            Topic::Registers => registers::write_answer::<R>(out, words),
            Topic::Index => index::write_answer::<R>(out, kind, words),
            Topic::Types => types::write_answer::<R>(out, kind, words),
            Topic::Candidates => candidates::write_answer::<R>(out, words),
            Topic::Pointers => pointers::write_answer::<R>(out, kind, words),
            Topic::Masks => index::write_mask::<R, O>(out, words),
            Topic::Orders => orders::write_answer::<R, O>(out, words),
            Topic::Memories => memories::write_answer::<R, O>(out, kind, words),
            Topic::Pairs => pairs::write_answer::<R, O>(out, kind, words),
            Topic::Spans => spans::write_answer::<R, O>(out, words),
            Topic::Domains => domains::write_answer::<R, O>(out, kind, words),
            _ => None,
        }
    }
}

// The answer to a question of a slice. There is a copy of its code for each register and order, and
// lines name few.
fn slice_answer<'a>(alloc: &'a Global, words: &[&str]) -> Text<'a> {
    let [order, register, words @ ..] = words else {
        return Ok(None);
    };
    let question = SliceQuestion { alloc, words };
    beside::first_answer_at(order, register, &question).unwrap_or(Ok(None))
}

// The words of a question of a slice after its order and its register.
#[derive(Drop)]
struct SliceQuestion<'a, 't> {
    alloc: &'a Global,
    words: &'t [&'t str],
}

impl<'a> Call for SliceQuestion<'a, '_> {
    type Answer = Text<'a>;

    fn at<R: BitRegister, O: BitOrder<R>>(&self) -> Self::Answer {
        let mut out = Answer::new(self.alloc);
        let is_question = slices::write_answer::<R, O>(&mut out, self.words);
        out.finish(is_question)
    }
}
