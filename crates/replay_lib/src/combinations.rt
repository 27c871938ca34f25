//! Combinations of bits in two memories and within one, by the operators on sets and by one of our
//! own.
//!
//! There is a copy of the code for each operator, so they are asked of few registers: bits within a
//! memory of bytes or of words of 64 bits, and bits of bytes with those of bytes or of words of 16
//! bits.

ghost use Rattle.std.specs.Prelude.{not};

use crate::answer::Answer;
use crate::memories::{Range, range_of, range_start};
use crate::values::named;
use bits_text::hilo::HiLo;
use bits_text::number::place;
use bitvec::mem::BitRegister;
use bitvec::order::{BitOrder, Lsb0, Msb0};
use bitvec_ptr::ptr::combine::{And, AndNot, Combine, Or, Source, Xor};

// The source's bit turned over.
struct Opposite;

impl Combine for Opposite {
    ghost of = { λ t s. not s };

    fn ground<R: BitRegister>(old: R) -> R {
        old.not()
    }

    fn word<R: BitRegister>(_old: R, with: R) -> R {
        with.not()
    }
}

// What a target's bit becomes.
#[derive(Clone, Copy)]
enum Operator {
    Source,
    And,
    Or,
    Xor,
    AndNot,
    Opposite,
}

const OPERATORS: [(&str, Operator); 6] = [
    ("source", Operator::Source),
    ("and", Operator::And),
    ("or", Operator::Or),
    ("xor", Operator::Xor),
    ("and_not", Operator::AndNot),
    ("opposite", Operator::Opposite),
];

/// Writes the library's answer to a question; `None` where the words ask none.
///
/// The words are an order, a register and an operator, and then `within` and a memory, or two
/// memories, the second behind an order and a register, and two places and a length. Where the
/// second place is `each`, it is each in turn at which the length ends in the memory.
pub fn write_answer(out: &mut Answer, words: &[&str]) -> Option<()> {
    let [order, register, operator, details @ ..] = words else {
        return None;
    };
    let operator = named(&OPERATORS, operator)?;
    match (*order, *register) {
        ("lsb0", "u8") => write_of_order::<Lsb0>(out, operator, details),
        ("msb0", "u8") => write_of_order::<Msb0>(out, operator, details),
        ("hilo", "u8") => write_of_order::<HiLo>(out, operator, details),
        ("lsb0", "u64") => write_within::<u64, Lsb0>(out, operator, details),
        ("msb0", "u64") => write_within::<u64, Msb0>(out, operator, details),
        _ => None,
    }
}

// Writes the memory after a combination of bits of bytes of an order.
fn write_of_order<O: BitOrder<u8>>(
    out: &mut Answer,
    operator: Operator,
    words: &[&str],
) -> Option<()> {
    let [memory, order, register, other, from, to, count] = words else {
        return write_within::<u8, O>(out, operator, words);
    };
    let memory = out.memory::<u8>(memory)?;
    let range = [*from, *to, *count];
    match (*order, *register) {
        ("lsb0", "u8") => write_two::<O, u8, Lsb0>(out, operator, &memory, other, range),
        ("lsb0", "u16") => write_two::<O, u16, Lsb0>(out, operator, &memory, other, range),
        ("msb0", "u16") => write_two::<O, u16, Msb0>(out, operator, &memory, other, range),
        _ => None,
    }
}

// Writes a memory after a combination within it.
fn write_within<R: BitRegister, O: BitOrder<R>>(
    out: &mut Answer,
    operator: Operator,
    words: &[&str],
) -> Option<()> {
    let [_, memory, from, to, count] = words else {
        return None;
    };
    let mut memory = out.memory::<R>(memory)?;
    let range = range_of(from, to, count)?;
    match operator {
        Operator::Source => combined_within::<Source, R, O>(&mut memory, range)?,
        Operator::And => combined_within::<And, R, O>(&mut memory, range)?,
        Operator::Or => combined_within::<Or, R, O>(&mut memory, range)?,
        Operator::Xor => combined_within::<Xor, R, O>(&mut memory, range)?,
        Operator::AndNot => combined_within::<AndNot, R, O>(&mut memory, range)?,
        Operator::Opposite => combined_within::<Opposite, R, O>(&mut memory, range)?,
    }
    out.words(&memory);
    Some(())
}

// Combines bits of a memory with others of it; `None` where one of the ranges passes it.
fn combined_within<C: Combine, R: BitRegister, O: BitOrder<R>>(
    memory: &mut [R],
    range: Range,
) -> Option<()> {
    let from = range_start::<R, O>(memory.len(), range.from, range.count)?;
    let to = range_start::<R, O>(memory.len(), range.to, range.count)?;
    from.combine_within::<C>(memory, to, range.count as usize);
    Some(())
}

// Writes a memory after a combination with bits of another, or after each where the words say so,
// each from the memory as it was.
fn write_two<O: BitOrder<u8>, S: BitRegister, P: BitOrder<S>>(
    out: &mut Answer,
    operator: Operator,
    memory: &[u8],
    target: &str,
    range: [&str; 3],
) -> Option<()> {
    let [from, to, count] = range;
    if to != "each" {
        let range = range_of(from, to, count)?;
        return write_one::<O, S, P>(out, operator, memory, target, range);
    }
    let count = place(count)?;
    let bits = (out.memory::<S>(target)?.len() as u64).saturating_mul(u64::from(S::BITS));
    for to in 0..bits.saturating_sub(count).saturating_add(1) {
        out.begin_item();
        let from = place(from)?;
        write_one::<O, S, P>(out, operator, memory, target, Range { from, to, count })?;
    }
    Some(())
}

// Writes a memory after one combination with bits of another.
fn write_one<O: BitOrder<u8>, S: BitRegister, P: BitOrder<S>>(
    out: &mut Answer,
    operator: Operator,
    memory: &[u8],
    target: &str,
    range: Range,
) -> Option<()> {
    let mut target = out.memory::<S>(target)?;
    match operator {
        Operator::Source => combined::<Source, O, S, P>(memory, &mut target, range)?,
        Operator::And => combined::<And, O, S, P>(memory, &mut target, range)?,
        Operator::Or => combined::<Or, O, S, P>(memory, &mut target, range)?,
        Operator::Xor => combined::<Xor, O, S, P>(memory, &mut target, range)?,
        Operator::AndNot => combined::<AndNot, O, S, P>(memory, &mut target, range)?,
        Operator::Opposite => combined::<Opposite, O, S, P>(memory, &mut target, range)?,
    }
    out.words(&target);
    Some(())
}

// Combines bits of a memory with those of a target; `None` where one of the ranges passes it.
fn combined<C: Combine, O: BitOrder<u8>, S: BitRegister, P: BitOrder<S>>(
    memory: &[u8],
    target: &mut [S],
    range: Range,
) -> Option<()> {
    let from = range_start::<u8, O>(memory.len(), range.from, range.count)?;
    let to = range_start::<S, P>(target.len(), range.to, range.count)?;
    from.combine_to::<C, S, P>(memory, to, target, range.count as usize);
    Some(())
}
