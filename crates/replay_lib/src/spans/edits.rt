//! What is written through a span.

ghost use Rattle.std.specs.Prelude.{length};
ghost use Rattle.bitvec.specs.BitSpan.{span_of};
ghost use Rattle.bitvec.specs.Span.{Fits};

use crate::answer::Answer;
use crate::values::{count_of, digit_value, is_one};
use bitvec::mem::BitRegister;
use bitvec::order::BitOrder;
use bitvec::ptr::span::BitSpan;
use std::alloc::{AllocError, Global};

// What a span writes.
#[derive(Clone, Copy)]
pub(super) enum Edit {
    WriteBits,
    Fill,
    WriteEach,
    Replace,
    Write,
    Swap,
    CopyWithin,
}

pub(super) const EDITS: [(&str, Edit); 7] = [
    ("write_bits", Edit::WriteBits),
    ("fill", Edit::Fill),
    ("write_each", Edit::WriteEach),
    ("replace", Edit::Replace),
    ("write", Edit::Write),
    ("swap", Edit::Swap),
    ("copy_within", Edit::CopyWithin),
];

// Edits a memory through a span, and writes the bit before it and a space where the call gives
// that; `None` where there is no such edit.
pub(super) fn write_answer<R: BitRegister, O: BitOrder<R>>(
    out: &mut Answer,
    span: BitSpan<R, O>,
    memory: &mut [R],
    edit: Edit,
    words: &[&str],
) -> Option<()>
    requires { Fits R.BITS (span_of span) (length memory.old) }
{
    match (edit, words) {
        (Edit::WriteBits, [list]) => write_bits(out, span, memory, list)?,
        (Edit::Fill, [bit]) => span.fill(memory, is_one(bit)?),
        (Edit::WriteEach, [bit]) => write_each(span, memory, is_one(bit)?),
        (Edit::Replace, [index, bit]) => {
            let before = replaced(span, memory, count_of(index)?, is_one(bit)?)?;
            out.value(digit_value(before));
            out.push(" ");
        }
        (Edit::Write, [index, bit]) => written(span, memory, count_of(index)?, is_one(bit)?)?,
        (Edit::Swap, [one, two]) => swapped(span, memory, count_of(one)?, count_of(two)?)?,
        (Edit::CopyWithin, [from, to, count]) => {
            copied(
                span,
                memory,
                count_of(from)?,
                count_of(to)?,
                count_of(count)?,
            )?
        }
        _ => return None,
    }
    Some(())
}

// Writes a list of bits, given by their digits; `None` where the span has not as many bits.
fn write_bits<R: BitRegister, O: BitOrder<R>>(
    out: &mut Answer,
    span: BitSpan<R, O>,
    memory: &mut [R],
    list: &str,
) -> Option<()>
    requires { Fits R.BITS (span_of span) (length memory.old) }
{
    let Ok(bits) = bits_of(out.alloc, list) else {
        out.note(Err(AllocError));
        return None;
    };
    if bits.len() != span.len() {
        return None;
    }
    span.write_bits(memory, &bits);
    Some(())
}

// The bits of a text of their digits, or of `-` for none.
fn bits_of<'a>(alloc: &'a Global, list: &str) -> Result<Vec<bool, &'a Global>, AllocError> {
    let mut bits = Vec::new(alloc);
    if list != "-" {
        for digit in list.chars() {
            bits.push(digit == '1')?;
        }
    }
    Ok(bits)
}

// Writes each bit of a span by the pointer to it.
fn write_each<R: BitRegister, O: BitOrder<R>>(span: BitSpan<R, O>, memory: &mut [R], bit: bool) {
    if span.fits(memory.len()) {
        for index in 0..span.len() {
            span.bitptr(index).write(memory, bit);
        }
    }
}

// Replaces a bit, and gives the bit before; `None` where the span has it not.
fn replaced<R: BitRegister, O: BitOrder<R>>(
    span: BitSpan<R, O>,
    memory: &mut [R],
    i: usize,
    bit: bool,
) -> Option<bool>
    requires { Fits R.BITS (span_of span) (length memory.old) }
{
    if i < span.len() {
        Some(span.replace(memory, i, bit))
    } else {
        None
    }
}

// Writes a bit.
fn written<R: BitRegister, O: BitOrder<R>>(
    span: BitSpan<R, O>,
    memory: &mut [R],
    i: usize,
    bit: bool,
) -> Option<()>
    requires { Fits R.BITS (span_of span) (length memory.old) }
{
    if i >= span.len() {
        return None;
    }
    span.write(memory, i, bit);
    Some(())
}

// Exchanges two bits.
fn swapped<R: BitRegister, O: BitOrder<R>>(
    span: BitSpan<R, O>,
    memory: &mut [R],
    i: usize,
    j: usize,
) -> Option<()>
    requires { Fits R.BITS (span_of span) (length memory.old) }
{
    if i >= span.len() || j >= span.len() {
        return None;
    }
    span.swap(memory, i, j);
    Some(())
}

// Copies bits inside a span; `None` where a range does not end within it.
fn copied<R: BitRegister, O: BitOrder<R>>(
    span: BitSpan<R, O>,
    memory: &mut [R],
    from: usize,
    to: usize,
    count: usize,
) -> Option<()>
    requires { Fits R.BITS (span_of span) (length memory.old) }
{
    let len = span.len();
    if count > len || from > len - count || to > len - count {
        return None;
    }
    span.copy_within(memory, from, to, count);
    Some(())
}
