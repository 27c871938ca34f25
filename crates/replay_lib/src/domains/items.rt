//! The parts, the items and the bits of a domain.

ghost use Rattle.std.specs.Prelude.{◌↔◌, IsTrue, length};
ghost use Rattle.bitvec.specs.Parts.{HasShortBody};
ghost use Rattle.bitvec.specs.Domain.{domain_parts};
ghost use Rattle.bitvec.specs.BitSpan.{span_of};
ghost use Rattle.bitvec.specs.Span.{Fits};

use crate::answer::Answer;
use crate::values::{Value, number_value, word_or_missing, word_value};
use bitvec::domain::{BitDomain, BitWords, Domain, PartialElement};
use bitvec::mem::BitRegister;
use bitvec::order::BitOrder;
use bitvec::ptr::span::{BitSpan, SpanLimits};

// Writes each part and whole word of a span's domain, with its place in the memory and its value.
pub(super) fn write_parts<R: BitRegister, O: BitOrder<R>>(
    out: &mut Answer,
    span: BitSpan<R, O>,
    memory: &[R],
) -> Option<()>
    requires { Fits R.BITS (span_of span) (length memory.now) }
{
    let at = usize::try_from(span.address()).ok()?;
    match span.domain(memory) {
        Domain::Enclave(part) => write_part(out, "enclave", at, part.load_value()),
        Domain::Region { head, body, tail } => write_region(out, at, head, body, tail),
    }
    out.end_list();
    Some(())
}

// Writes the parts of a region whose first word has this place.
fn write_region<R: BitRegister, O: BitOrder<R>>(
    out: &mut Answer,
    at: usize,
    head: Option<PartialElement<R, O>>,
    body: &[R],
    tail: Option<PartialElement<R, O>>,
) {
    let mut at = at;
    if let Some(part) = head {
        write_part(out, "head", at, part.load_value());
        at = at.saturating_add(1);
    }
    for word in body {
        write_part(out, "body", at, *word);
        at = at.saturating_add(1);
    }
    if let Some(part) = tail {
        write_part(out, "tail", at, part.load_value());
    }
}

// Writes which part it is, its word, and its value.
fn write_part<R: BitRegister>(out: &mut Answer, part: &'static str, at: usize, value: R) {
    out.item(&[Value::Name(part), Value::Number(at), word_value(value)]);
}

// Writes the items from the back on.
pub(super) fn write_back<R: BitRegister, O: BitOrder<R>>(
    out: &mut Answer,
    domain: Domain<R, O>,
) -> Option<()> {
    for value in domain.rev() {
        out.item(&[word_value(value)]);
    }
    out.end_list();
    Some(())
}

// Writes an item for each letter of a pattern, `f` from the front and `b` from the back, with the
// number of items after it.
pub(super) fn write_mixed<R: BitRegister, O: BitOrder<R>>(
    out: &mut Answer,
    domain: Domain<R, O>,
    pattern: &str,
) -> Option<()> {
    let mut domain = domain;
    for letter in pattern.chars() {
        let item = match letter {
            'f' => domain.next(),
            'b' => domain.next_back(),
            _ => return None,
        };
        out.item(&[word_or_missing(item), Value::Number(left(&domain)?)]);
    }
    out.end_list();
    Some(())
}

// How many items are left, where the whole words are no more than a span's.
fn left<R: BitRegister, O: BitOrder<R>>(domain: &Domain<R, O>) -> Option<usize> {
    if has_short_body(domain) {
        Some(domain.len())
    } else {
        None
    }
}

// Whether a domain's whole words are no more than a span's bits can fill.
fn has_short_body<R: BitRegister, O: BitOrder<R>>(domain: &Domain<R, O>) -> bool
    ensures { IsTrue result ↔ HasShortBody R.BITS (domain_parts R.number domain.now) }
{
    match *domain {
        Domain::Enclave(_) => true,
        Domain::Region { body, .. } => {
            body.len() <= BitSpan::<R, O>::REGION_MAX_BITS / usize::from(R::BITS)
        }
    }
}

// Writes the variant, and the bits of each part by their first word, their head and their number.
pub(super) fn write_bits<R: BitRegister, O: BitOrder<R>>(
    out: &mut Answer,
    span: BitSpan<R, O>,
    memory: &[R],
) -> Option<()>
    requires { Fits R.BITS (span_of span) (length memory.now) }
{
    let at = usize::try_from(span.address()).ok()?;
    match span.bit_domain(memory) {
        BitDomain::Enclave(all) => {
            out.push("enclave ");
            out.values(&stretch(at, all));
        }
        BitDomain::Region { head, body, tail } => {
            let body_at = at.saturating_add(usize::from(!head.is_empty()));
            let tail_at = body_at.saturating_add(body.words().len());
            out.push("region ");
            out.values(&stretch(at, head));
            out.item(&stretch(body_at, body));
            out.item(&stretch(tail_at, tail));
        }
    }
    Some(())
}

// The first word of a stretch of bits, or that it has none, the index of the first in it, and how
// many there are.
fn stretch<R: BitRegister, O: BitOrder<R>>(at: usize, bits: BitWords<R, O>) -> [Value; 3] {
    let first = if bits.is_empty() {
        Value::Missing
    } else {
        Value::Number(at)
    };
    [
        first,
        number_value(bits.head().into_inner()),
        Value::Number(bits.len()),
    ]
}
