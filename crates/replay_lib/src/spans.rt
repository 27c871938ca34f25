//! Questions of spans: what they are, and what is read and written through them in a memory.
//!
//! A span begins at a place of the memory, or at a bit of a word, as `-1:9`.

use crate::answer::Answer;
use crate::index::index_at;
use crate::values::{count_of, named, signed};
use bits_text::places::pointer_at;
use bitvec::mem::BitRegister;
use bitvec::order::BitOrder;
use bitvec::ptr::single::BitPtr;
use bitvec::ptr::span::BitSpan;

mod edits;
mod facts;
mod parts;
mod reads;
mod values;

/// Writes the library's answer to a question; `None` where the words ask none.
pub fn write_answer<R: BitRegister, O: BitOrder<R>>(
    out: &mut Answer,
    words: &[&str],
) -> Option<()> {
    match words {
        [name] => values::write_value::<R>(out, name),
        [case, number, form] => values::write_error::<R>(out, case, number, form),
        [memory, start, len, name, details @ ..] => match named(&facts::FACTS, name) {
            Some(fact) => facts::write_answer::<R>(out, start, len, fact, details),
            None => {
                let mut memory = out.memory::<R>(memory)?;
                let span = span_at::<R, O>(start, len)?;
                write_through(out, span, &mut memory, name, details)
            }
        },
        _ => None,
    }
}

// Writes the answer to a question of what a span reads or writes in a memory; `None` where it does
// not fit it, or there is none.
fn write_through<R: BitRegister, O: BitOrder<R>>(
    out: &mut Answer,
    span: BitSpan<R, O>,
    memory: &mut [R],
    name: &str,
    details: &[&str],
) -> Option<()> {
    if !span.fits(memory.len()) {
        return None;
    }
    if let Some(read) = named(&reads::READS, name) {
        return reads::write_answer(out, span, memory, read, details);
    }
    if let Some(part) = named(&parts::PARTS, name) {
        return parts::write_answer(out, span, memory, part, details);
    }
    edits::write_answer(out, span, memory, named(&edits::EDITS, name)?, details)?;
    out.words(memory);
    Some(())
}

/// The span of `len` bits from a place on, or from a bit of a word on; `None` where there is none.
pub fn span_at<R: BitRegister, O>(start: &str, len: &str) -> Option<BitSpan<R, O>> {
    BitSpan::from_bitptr(pointer_of(start)?, count_of(len)?).ok()
}

// The pointer to the bit at a place, or to a bit of a word.
fn pointer_of<R: BitRegister, O>(text: &str) -> Option<BitPtr<R, O>> {
    match text.split_once(':') {
        Some((word, bit)) => Some(BitPtr::new(signed(word)?, index_at(bit)?)),
        None => Some(pointer_at(count_of(text)? as u64)),
    }
}
