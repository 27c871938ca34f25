//! The lines of a file of answers.
//!
//! A line asks one public call: its kind, the words of the question, and the answer behind ` -> `.
//! The answers of the Rust crate's own code came in older forms, and keep these.

use replay_lib::values::named;
use std::alloc::{AllocError, Global};

/// What a line asks of.
#[derive(Clone, Copy, Drop)]
pub enum Topic {
    /// Numbers as texts.
    Numerals,
    /// Registers.
    Registers,
    /// Indices and ends.
    Index,
    /// Index types: what makes them, their ranges and texts, and masks as sets.
    Types,
    /// Masks of orders.
    Masks,
    /// Orders.
    Orders,
    /// Candidates that are no orders.
    Candidates,
    /// Pointers, ranges and the refusals of spans.
    Pointers,
    /// Bits of one memory.
    Memories,
    /// Bits of two memories.
    Pairs,
    /// Copies and combinations by their words.
    Copies,
    /// Combinations of bits.
    Combinations,
    /// Spans.
    Spans,
    /// The words that a span meets.
    Domains,
    /// The lines of the program `bits`.
    Program,
    /// Slices.
    Slices,
    /// Numbers in slices.
    Numbers,
}

/// A line: what is asked, and the answer.
#[derive(Drop)]
pub struct Line<'t, 'a> {
    /// What it asks of.
    pub topic: Topic,
    /// The words of the question, after its kind.
    pub question: Vec<&'t str, &'a Global>,
    /// The answer's text.
    pub answer: &'t str,
}

// How the text after a kind falls into question and answer.
#[derive(Clone, Copy)]
enum Form {
    // The question is the first words, as many as `asked`, and the answer begins after `before` of
    // them.
    Words { asked: usize, before: usize },
    // This text stands between them.
    Between(&'static str),
}

impl Form {
    // The text that has the words of the question first, and the answer; `None` where there is no
    // answer.
    fn parts<'t>(self, text: &'t str) -> Option<(&'t str, &'t str)> {
        match self {
            Form::Between(mark) => text.split_once(mark),
            Form::Words { before, .. } => Some((text, after_words(text, before)?)),
        }
    }
}

// What the lines of a kind ask of, and their form.
const KINDS: [(&str, (Topic, Form)); 46] = [
    (
        "next",
        (
            Topic::Index,
            Form::Words {
                asked: 2,
                before: 2,
            },
        ),
    ),
    (
        "prev",
        (
            Topic::Index,
            Form::Words {
                asked: 2,
                before: 2,
            },
        ),
    ),
    (
        "offset",
        (
            Topic::Index,
            Form::Words {
                asked: 3,
                before: 3,
            },
        ),
    ),
    (
        "span",
        (
            Topic::Index,
            Form::Words {
                asked: 3,
                before: 3,
            },
        ),
    ),
    (
        "end_span",
        (
            Topic::Index,
            Form::Words {
                asked: 3,
                before: 3,
            },
        ),
    ),
    (
        "elements",
        (
            Topic::Index,
            Form::Words {
                asked: 3,
                before: 3,
            },
        ),
    ),
    (
        "mask",
        (
            Topic::Masks,
            Form::Words {
                asked: 4,
                before: 4,
            },
        ),
    ),
    (
        "index_text",
        (
            Topic::Index,
            Form::Words {
                asked: 2,
                before: 1,
            },
        ),
    ),
    ("domain", (Topic::Domains, Form::Between(" : "))),
    ("back", (Topic::Domains, Form::Between(" : "))),
    ("mixed", (Topic::Domains, Form::Between(" : "))),
    ("bit_domain", (Topic::Domains, Form::Between(" : "))),
    ("text", (Topic::Domains, Form::Between(" : "))),
    ("numeral", (Topic::Numerals, Form::Between(" -> "))),
    ("BitRegister", (Topic::Registers, Form::Between(" -> "))),
    ("BitIdx", (Topic::Types, Form::Between(" -> "))),
    ("BitEnd", (Topic::Types, Form::Between(" -> "))),
    ("BitPos", (Topic::Types, Form::Between(" -> "))),
    ("BitSel", (Topic::Types, Form::Between(" -> "))),
    ("BitMask", (Topic::Types, Form::Between(" -> "))),
    ("BitOrder", (Topic::Orders, Form::Between(" -> "))),
    ("verify", (Topic::Candidates, Form::Between(" -> "))),
    ("span_new", (Topic::Pointers, Form::Between(" -> "))),
    ("step", (Topic::Pointers, Form::Between(" -> "))),
    ("offset_from", (Topic::Pointers, Form::Between(" -> "))),
    ("range", (Topic::Pointers, Form::Between(" -> "))),
    ("BitPtr", (Topic::Pointers, Form::Between(" -> "))),
    ("BitPtrRange", (Topic::Pointers, Form::Between(" -> "))),
    ("read", (Topic::Memories, Form::Between(" -> "))),
    ("write", (Topic::Memories, Form::Between(" -> "))),
    ("replace", (Topic::Memories, Form::Between(" -> "))),
    ("swap", (Topic::Memories, Form::Between(" -> "))),
    ("copy", (Topic::Memories, Form::Between(" -> "))),
    ("swap2", (Topic::Pairs, Form::Between(" -> "))),
    ("copy2", (Topic::Pairs, Form::Between(" -> "))),
    ("copy_through", (Topic::Copies, Form::Between(" -> "))),
    ("combine_through", (Topic::Copies, Form::Between(" -> "))),
    ("combine", (Topic::Combinations, Form::Between(" -> "))),
    ("BitSpan", (Topic::Spans, Form::Between(" -> "))),
    ("domain_mut", (Topic::Domains, Form::Between(" -> "))),
    ("partial", (Topic::Domains, Form::Between(" -> "))),
    ("region", (Topic::Domains, Form::Between(" -> "))),
    ("default", (Topic::Domains, Form::Between(" -> "))),
    ("bits", (Topic::Program, Form::Between(" -> "))),
    ("BitSlice", (Topic::Slices, Form::Between(" -> "))),
    ("BitField", (Topic::Numbers, Form::Between(" -> "))),
];

impl<'t, 'a> Line<'t, 'a> {
    /// The line of a kind with this text after it; `None` where there is no such kind, or where the
    /// text has no answer.
    pub fn of(alloc: &'a Global, kind: &str, text: &'t str) -> Result<Option<Self>, AllocError> {
        let Some((topic, form)) = named(&KINDS, kind) else {
            return Ok(None);
        };
        let Some((question, answer)) = form.parts(text) else {
            return Ok(None);
        };
        let mut question: Vec<&'t str, &'a Global> = question.split(' ').collect(alloc)?;
        if let Form::Words { asked, .. } = form {
            question.truncate(asked);
        }
        Ok(Some(Line {
            topic,
            question,
            answer,
        }))
    }
}

// What stands after `count` words of a text; `None` where nothing does.
fn after_words<'t>(text: &'t str, count: usize) -> Option<&'t str> {
    let mut rest = text;
    for _ in 0..count {
        let (_, after) = rest.split_once(' ')?;
        rest = after;
    }
    Some(rest)
}
