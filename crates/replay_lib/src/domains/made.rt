//! Domains that no span has: of parts and words of one's own, and of nothing.

use crate::answer::Answer;
use crate::domains::items;
use crate::values::Value;
use bitvec::domain::{BitDomain, BitDomainMut, Domain, DomainMut};
use bitvec::mem::BitRegister;
use bitvec::order::BitOrder;
use bitvec::ptr::span::BitSpan;

// Writes the items of a region whose head and whose tail are both the head of a span, round other
// words, from the front and from the back as a pattern's letters say; `None` where there is no such
// region.
pub(super) fn write_region<R: BitRegister, O: BitOrder<R>>(
    out: &mut Answer,
    span: BitSpan<R, O>,
    memory: &[R],
    body: &[R],
    pattern: &str,
) -> Option<()> {
    if !span.fits(memory.len()) {
        return None;
    }
    let (head, _, _) = span.domain(memory).region()?;
    let domain = Domain::Region {
        head,
        body,
        tail: head,
    };
    items::write_mixed(out, domain, pattern)
}

// Which parts the domain of a name has by default: whether there is a head, how many whole words,
// and whether there is a tail, or how many bits are in each of the three.
pub(super) fn shape<R: BitRegister, O: BitOrder<R>>(name: &str) -> Option<(Value, Value, Value)> {
    match name {
        "Domain" => {
            let (head, body, tail) = Domain::<R, O>::default().region()?;
            Some(parts(head.is_some(), body.len(), tail.is_some()))
        }
        "DomainMut" => {
            let (head, body, tail) = DomainMut::<R, O>::default().region()?;
            Some(parts(head.is_some(), body.len(), tail.is_some()))
        }
        "BitDomain" => {
            let (head, body, tail) = BitDomain::<R, O>::default().region()?;
            Some(lens(head.len(), body.len(), tail.len()))
        }
        "BitDomainMut" => {
            let (head, body, tail) = BitDomainMut::<R, O>::default().region()?;
            Some(lens(head.len(), body.len(), tail.len()))
        }
        _ => None,
    }
}

fn parts(has_head: bool, words: usize, has_tail: bool) -> (Value, Value, Value) {
    (
        Value::Truth(has_head),
        Value::Number(words),
        Value::Truth(has_tail),
    )
}

fn lens(head: usize, body: usize, tail: usize) -> (Value, Value, Value) {
    (
        Value::Number(head),
        Value::Number(body),
        Value::Number(tail),
    )
}
