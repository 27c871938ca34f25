//! Questions of the words and parts of words that a span meets in a memory.

ghost use Rattle.std.specs.Prelude.{length};
ghost use Rattle.bitvec.specs.BitSpan.{span_of};
ghost use Rattle.bitvec.specs.Span.{Fits};

use crate::answer::Answer;
use crate::spans::span_at;
use crate::values::named;
use bitvec::domain::Domain;
use bitvec::mem::BitRegister;
use bitvec::order::BitOrder;
use bitvec::ptr::span::BitSpan;
use std::fmt::{self, Write as _};

mod edits;
mod items;
mod made;
mod partial;

/// Writes the answer to a question of a domain; `None` where the words ask none.
///
/// The kinds are `domain`, `back`, `mixed`, `bit_domain`, `domain_mut` and `text` of a span's
/// domain, `partial` of one part of a word, `region` of a region that is made of a span's parts and
/// other words, and `default` of the domains of no span.
pub fn write_answer<R: BitRegister, O: BitOrder<R>>(
    out: &mut Answer,
    kind: &str,
    words: &[&str],
) -> Option<()> {
    let [memory, details @ ..] = words else {
        return None;
    };
    if kind == "default" {
        let (head, body, tail) = made::shape::<R, O>(memory)?;
        out.values(&[head, body, tail]);
        return Some(());
    }
    let mut memory = out.memory::<R>(memory)?;
    match (kind, details) {
        ("region", [start, len, body, pattern]) => {
            let body = out.memory::<R>(body)?;
            made::write_region(out, span_at::<R, O>(start, len)?, &memory, &body, pattern)
        }
        ("partial", [head, tail, edits @ ..]) => {
            partial::write_answer::<R, O>(out, &mut memory, head, tail, edits)
        }
        (_, [start, len, details @ ..]) => {
            write_of_span(
                out,
                kind,
                span_at::<R, O>(start, len)?,
                &mut memory,
                details,
            )
        }
        _ => None,
    }
}

// Writes the answer to a question of a span in a memory; `None` where it does not fit it, or there
// is none.
fn write_of_span<R: BitRegister, O: BitOrder<R>>(
    out: &mut Answer,
    kind: &str,
    span: BitSpan<R, O>,
    memory: &mut [R],
    details: &[&str],
) -> Option<()> {
    if !span.fits(memory.len()) {
        return None;
    }
    match (kind, details) {
        ("domain", []) => items::write_parts(out, span, memory),
        ("back", []) => items::write_back(out, span.domain(memory)),
        ("bit_domain", []) => items::write_bits(out, span, memory),
        ("mixed", [pattern]) => items::write_mixed(out, span.domain(memory), pattern),
        ("text", [form]) => write_shown(out, span.domain(memory), form),
        ("domain_mut", [name, argument]) => {
            edits::write_edited(out, span, memory, edits::Edit::of_name(name, argument)?)
        }
        _ => None,
    }
}

// A form of text.
#[derive(Clone, Copy, Drop)]
enum Form {
    Decimal,
    Binary,
    Octal,
    LowerHex,
    UpperHex,
}

const FORMS: [(&str, Form); 5] = [
    ("d", Form::Decimal),
    ("b", Form::Binary),
    ("o", Form::Octal),
    ("x", Form::LowerHex),
    ("X", Form::UpperHex),
];

// A domain in a form, for format texts.
#[derive(Drop)]
struct Shown<'a, R: BitRegister, O> {
    domain: Domain<'a, R, O>,
    form: Form,
}

impl<'a, R: BitRegister, O: BitOrder<R>> fmt::Display for Shown<'a, R, O> {
    fn fmt<W: fmt::Write>(&self, f: &mut fmt::Formatter<W>) -> fmt::Result {
        match self.form {
            Form::Decimal => fmt::Display::fmt(&self.domain, f),
            Form::Binary => fmt::Binary::fmt(&self.domain, f),
            Form::Octal => fmt::Octal::fmt(&self.domain, f),
            Form::LowerHex => fmt::LowerHex::fmt(&self.domain, f),
            Form::UpperHex => fmt::UpperHex::fmt(&self.domain, f),
        }
    }
}

// Writes a domain in the form of a name, and under a width, which it does not follow, where the
// name begins with one, as `>20x`; `None` where there is no such form.
fn write_shown<R: BitRegister, O: BitOrder<R>>(
    out: &mut Answer,
    domain: Domain<R, O>,
    name: &str,
) -> Option<()> {
    let wide = name.strip_prefix(">20");
    let form = named(&FORMS, wide.unwrap_or(name))?;
    let shown = Shown { domain, form };
    let written = match wide {
        Some(_) => write!(out.text, "{shown:>20}"),
        None => write!(out.text, "{shown}"),
    };
    out.note(written);
    Some(())
}
