//! One part of one word, read or edited.

use crate::answer::Answer;
use crate::domains::edits::Edit;
use crate::values::{small, word_value};
use bitvec::domain::{Domain, PartialElementMut};
use bitvec::index::BitIdx;
use bitvec::mem::BitRegister;
use bitvec::order::BitOrder;
use bitvec::ptr::span::BitSpan;

// Writes the value before each edit of the part of a word from a head to before a tail, each a name
// and an argument, and the word after them. A span of no bits has no part, so no edit changes one.
pub(super) fn write_answer<R: BitRegister, O: BitOrder<R>>(
    out: &mut Answer,
    memory: &mut [R],
    head: &str,
    tail: &str,
    edits: &[&str],
) -> Option<()> {
    let span = span_between::<R, O>(small(head)?, small(tail)?)?;
    if !span.fits(memory.len()) {
        return None;
    }
    match edits {
        [_, _] if span.is_empty() => out.value(word_value(joined(span.domain(memory)))),
        [load, _] if *load == "load" && !span.is_empty() => {
            out.value(word_value(span.part(memory, 0).load_value()))
        }
        _ => write_in_turn(out, span, memory, edits)?,
    }
    out.push(" ");
    out.words(memory);
    Some(())
}

// Makes edits of one part in turn, and writes the value before each.
fn write_in_turn<R: BitRegister, O: BitOrder<R>>(
    out: &mut Answer,
    span: BitSpan<R, O>,
    memory: &mut [R],
    edits: &[&str],
) -> Option<()> {
    if !span.fits(memory.len()) || span.is_empty() {
        return None;
    }
    let mut part = span.part_mut(memory, 0);
    let mut name = "";
    for word in edits {
        if name == "" {
            name = word;
            continue;
        }
        out.item(&[word_value(old_of(&mut part, name, word)?)]);
        name = "";
    }
    Some(())
}

// The value of a part, which an edit changes then.
fn old_of<R: BitRegister, O: BitOrder<R>>(
    part: &mut PartialElementMut<R, O>,
    edit: &str,
    argument: &str,
) -> Option<R> {
    if edit == "load" {
        return Some(part.load_value());
    }
    Some(Edit::<R>::of_name(edit, argument)?.edit_part(part))
}

// The span of the bits of a memory's first word from a head to before a tail.
fn span_between<R: BitRegister, O>(head: u8, tail: u8) -> Option<BitSpan<R, O>> {
    if tail < head || tail > R::BITS {
        return None;
    }
    BitSpan::new(0, BitIdx::new(head).ok()?, usize::from(tail - head)).ok()
}

// The digits of all items of a domain, and zero where it has none.
fn joined<R: BitRegister, O: BitOrder<R>>(domain: Domain<R, O>) -> R {
    let mut all = R::ZERO;
    for item in domain {
        all = all.or(item);
    }
    all
}
