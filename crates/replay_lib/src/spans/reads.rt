//! What is read through a span.

ghost use Rattle.std.specs.Prelude.{length};
ghost use Rattle.bitvec.specs.BitSpan.{span_of};
ghost use Rattle.bitvec.specs.Span.{Fits};

use crate::answer::Answer;
use crate::values::{Value, count_of, digit_value, number_value, word_value};
use bitvec::domain::{BitWords, PartialElement};
use bitvec::mem::BitRegister;
use bitvec::order::BitOrder;
use bitvec::ptr::span::BitSpan;
use std::alloc::AllocError;
use std::fmt::{Debug, Write as _};

// What a span reads.
#[derive(Clone, Copy)]
pub(super) enum Read {
    Bit,
    Bits,
    DomainLen,
    Enclave,
    Region,
    BitEnclave,
    BitRegion,
    IsShown,
}

pub(super) const READS: [(&str, Read); 8] = [
    ("read", Read::Bit),
    ("bits", Read::Bits),
    ("domain_len", Read::DomainLen),
    ("enclave", Read::Enclave),
    ("region", Read::Region),
    ("bit_enclave", Read::BitEnclave),
    ("bit_region", Read::BitRegion),
    ("is_shown", Read::IsShown),
];

// Writes the answer to a question of what a span reads in a memory; `None` where there is none.
// What is not there is `-`.
pub(super) fn write_answer<R: BitRegister, O: BitOrder<R>>(
    out: &mut Answer,
    span: BitSpan<R, O>,
    memory: &[R],
    read: Read,
    details: &[&str],
) -> Option<()>
    requires { Fits R.BITS (span_of span) (length memory.now) }
{
    match (read, details) {
        (Read::Bit, [i]) => out.value(bit(span, memory, count_of(i)?)?),
        (Read::Bits, []) => write_bits(out, span, memory),
        (Read::DomainLen, []) => out.value(Value::Number(span.domain(memory).len())),
        (Read::Enclave, []) => out.value(part_value(span.domain(memory).enclave())),
        (Read::Region, []) => match span.domain(memory).region() {
            Some((head, body, tail)) => {
                out.values(&[
                    part_value(head),
                    Value::Number(body.len()),
                    part_value(tail),
                ])
            }
            None => out.push("-"),
        },
        (Read::BitEnclave, []) => match span.bit_domain(memory).enclave() {
            Some(all) => write_stretch(out, all),
            None => out.push("-"),
        },
        (Read::BitRegion, []) => match span.bit_domain(memory).region() {
            Some((head, body, tail)) => {
                write_stretch(out, head);
                out.push(";");
                write_stretch(out, body);
                out.push(";");
                write_stretch(out, tail);
            }
            None => out.push("-"),
        },
        (Read::IsShown, []) => write_shown(out, span, memory)?,
        _ => return None,
    }
    Some(())
}

// One bit of a span; `None` where the span has it not.
fn bit<R: BitRegister, O: BitOrder<R>>(span: BitSpan<R, O>, memory: &[R], i: usize) -> Option<Value>
    requires { Fits R.BITS (span_of span) (length memory.now) }
{
    if i < span.len() {
        Some(digit_value(span.read(memory, i)))
    } else {
        None
    }
}

// Writes each bit of a span, read by the pointer to it, and `-` for none.
fn write_bits<R: BitRegister, O: BitOrder<R>>(out: &mut Answer, span: BitSpan<R, O>, memory: &[R])
    requires { Fits R.BITS (span_of span) (length memory.now) }
{
    for index in 0..span.len() {
        out.value(digit_value(span.bitptr(index).read(memory)));
    }
    out.end_list();
}

// The value of a part.
fn part_value<R: BitRegister, O: BitOrder<R>>(part: Option<PartialElement<R, O>>) -> Value {
    match part {
        Some(part) => word_value(part.load_value()),
        None => Value::Missing,
    }
}

// Writes the head of a stretch of bits, its length, its words, and each bit of it.
fn write_stretch<R: BitRegister, O: BitOrder<R>>(out: &mut Answer, bits: BitWords<R, O>) {
    out.values(&[
        number_value(bits.head().into_inner()),
        Value::Number(bits.len()),
    ]);
    out.push(" ");
    out.words(bits.words());
    out.push(if bits.is_empty() { " -" } else { " " });
    for index in 0..bits.len() {
        out.value(digit_value(bits.read(index)));
    }
}

// Writes of a span, its range of pointers, its part and the bits of that whether each has a text
// for a programmer, which none promises; `None` where the span has not one part alone.
fn write_shown<R: BitRegister, O: BitOrder<R>>(
    out: &mut Answer,
    span: BitSpan<R, O>,
    memory: &[R],
) -> Option<()>
    requires { Fits R.BITS (span_of span) (length memory.now) }
{
    let part = span.domain(memory).enclave()?;
    let range = span.to_bitptr_range();
    let bits = part.into_bitslice();
    write_is_shown(out, &span);
    out.push(" ");
    write_is_shown(out, &range);
    out.push(" ");
    write_is_shown(out, &part);
    out.push(" ");
    write_is_shown(out, &bits);
    Some(())
}

// Writes whether a value has a text for a programmer.
fn write_is_shown<T: Debug>(out: &mut Answer, value: &T) {
    let mut text = String::new(out.alloc);
    let written: Result<(), AllocError> = write!(text, "{value:?}");
    out.note(written);
    out.value(Value::Truth(!text.is_empty()));
}
