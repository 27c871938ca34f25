//! One part of a span, and the parts that a span lends.

ghost use Rattle.std.specs.Prelude.{length, ◌<◌};
ghost use Rattle.bitvec.specs.BitSpan.{span_of};
ghost use Rattle.bitvec.specs.Place.{words_met};
ghost use Rattle.bitvec.specs.Span.{Fits};

use crate::answer::Answer;
use crate::values::{
    Value, count_of, digit_value, is_one, number_value, word_or_missing, word_value,
};
use bitvec::domain::BitWordsMut;
use bitvec::mem::BitRegister;
use bitvec::order::BitOrder;
use bitvec::ptr::span::BitSpan;

// What is asked of a span's parts.
#[derive(Clone, Copy)]
pub(super) enum Part {
    RegionMut,
    Part,
    PartMut,
    PartBitsMut,
    BitRegionMut,
}

pub(super) const PARTS: [(&str, Part); 5] = [
    ("region_mut", Part::RegionMut),
    ("part", Part::Part),
    ("part_mut", Part::PartMut),
    ("part_bits_mut", Part::PartBitsMut),
    ("bit_region_mut", Part::BitRegionMut),
];

// Writes the answer to a question of a span's parts; `None` where there is none.
pub(super) fn write_answer<R: BitRegister, O: BitOrder<R>>(
    out: &mut Answer,
    span: BitSpan<R, O>,
    memory: &mut [R],
    part: Part,
    details: &[&str],
) -> Option<()>
    requires { Fits R.BITS (span_of span) (length memory.old) }
{
    match (part, details) {
        (Part::RegionMut, []) => write_region(out, span, memory),
        (Part::Part | Part::PartMut, [k]) => {
            let k = count_of(k)?;
            if k >= span.elements() {
                return None;
            }
            write_part(out, span, memory, part, k);
        }
        (Part::PartBitsMut, [k, i, bit]) => {
            write_part_bit(out, span, memory, count_of(k)?, count_of(i)?, is_one(bit)?)?
        }
        (Part::BitRegionMut, [head, body, tail, bit]) => {
            let places = [count_of(head), count_of(body), count_of(tail)];
            replace_each(out, span, memory, places, is_one(bit)?);
            out.push(" ");
            out.words(memory);
        }
        _ => return None,
    }
    Some(())
}

// Writes the head's value, how many whole words there are, and the tail's value, of what a span
// lends for writing; `-` for an enclave.
fn write_region<R: BitRegister, O: BitOrder<R>>(
    out: &mut Answer,
    span: BitSpan<R, O>,
    memory: &mut [R],
)
    requires { Fits R.BITS (span_of span) (length memory.old) }
{
    let Some((head, body, tail)) = span.domain_mut(memory).region() else {
        out.push("-");
        return;
    };
    let count = body.len();
    let head = match head {
        Some(part) => Some(part.load_value()),
        None => None,
    };
    let tail = match tail {
        Some(part) => Some(part.load_value()),
        None => None,
    };
    out.values(&[
        word_or_missing(head),
        Value::Number(count),
        word_or_missing(tail),
    ]);
}

// Writes the head and the tail of a part, for reading or for writing, both again as its bounds, its
// mask and its value.
fn write_part<R: BitRegister, O: BitOrder<R>>(
    out: &mut Answer,
    span: BitSpan<R, O>,
    memory: &mut [R],
    part: Part,
    k: usize,
)
    requires fits { Fits R.BITS (span_of span) (length memory.old) }
    requires met { k < words_met R.BITS (span_of span).head (span_of span).len }
{
    let (head, tail, bounds, mask, value) = match part {
        Part::PartMut => {
            let part = span.part_mut(memory, k);
            let (head, tail) = (part.head(), part.tail());
            (head, tail, part.bounds(), part.mask(), part.load_value())
        }
        _ => {
            let part = span.part(memory, k);
            let (head, tail) = (part.head(), part.tail());
            (head, tail, part.bounds(), part.mask(), part.load_value())
        }
    };
    out.values(&[
        number_value(head.into_inner()),
        number_value(tail.into_inner()),
        number_value(bounds.0.into_inner()),
        number_value(bounds.1.into_inner()),
        word_value(mask.into_inner()),
        word_value(value),
    ]);
}

// A bit of a stretch of bits before it becomes another and afterwards, and nothing where the
// stretch has no such bit.
fn replaced<R: BitRegister, O: BitOrder<R>>(
    bits: &mut BitWordsMut<R, O>,
    index: Option<usize>,
    bit: bool,
) -> Option<(bool, bool)> {
    let i = index?;
    if i >= bits.len() {
        return None;
    }
    let before = bits.replace(i, bit);
    Some((before, bits.read(i)))
}

// Writes a bit before and after, or `-` where there is none.
fn write_replaced(out: &mut Answer, both: Option<(bool, bool)>) {
    match both {
        Some((before, after)) => out.item(&[digit_value(before), digit_value(after)]),
        None => out.item(&[Value::Missing]),
    }
}

// Makes a bit of one part another, by the bits that the part lends, and writes it before and after,
// and the memory; `None` where there is no such part.
fn write_part_bit<R: BitRegister, O: BitOrder<R>>(
    out: &mut Answer,
    span: BitSpan<R, O>,
    memory: &mut [R],
    k: usize,
    index: usize,
    bit: bool,
) -> Option<()>
    requires { Fits R.BITS (span_of span) (length memory.old) }
{
    if k >= span.elements() {
        return None;
    }
    let mut bits = span.part_mut(memory, k).into_bitslice();
    write_replaced(out, replaced(&mut bits, Some(index), bit));
    drop(bits);
    out.push(" ");
    out.words(memory);
    Some(())
}

// Makes a bit of each part of a region another, and writes each before and after; `-` for an
// enclave.
fn replace_each<R: BitRegister, O: BitOrder<R>>(
    out: &mut Answer,
    span: BitSpan<R, O>,
    memory: &mut [R],
    places: [Option<usize>; 3],
    bit: bool,
)
    requires { Fits R.BITS (span_of span) (length memory.old) }
{
    let Some((mut head, mut body, mut tail)) = span.bit_domain_mut(memory).region() else {
        out.push("-");
        return;
    };
    let [in_head, in_body, in_tail] = places;
    write_replaced(out, replaced(&mut head, in_head, bit));
    write_replaced(out, replaced(&mut body, in_body, bit));
    write_replaced(out, replaced(&mut tail, in_tail, bit));
}
