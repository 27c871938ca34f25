//! Questions of two memories, each with a register and an order of its own: two bits exchanged, a
//! range of bits copied.
//!
//! There is a copy of the code for each two registers and two orders, so little more than the calls
//! themselves has all four as parameters.

use crate::answer::{Answer, Text};
use crate::memories::{Range, pointer_in, range_of, range_start};
use crate::values::named;
use bits_text::names::{self, Call};
use bits_text::number::place;
use bitvec::mem::BitRegister;
use bitvec::order::BitOrder;
use std::alloc::Global;
use std::marker::PhantomData;

/// Writes the answer to a question of two memories; `None` where the words ask none.
///
/// The kinds are `swap2` and `copy2`, and a copy may name its call last. The words are those after
/// the order and the register of the first memory.
pub fn write_answer<R: BitRegister, O: BitOrder<R>>(
    out: &mut Answer,
    kind: &str,
    words: &[&str],
) -> Option<()> {
    let [memory, order, register, other, places @ ..] = words else {
        return None;
    };
    let pair = Pair::<R, O> {
        alloc: out.alloc,
        memory,
        other,
        deed: deed_of(kind, places)?,
        of: PhantomData,
    };
    out.take(names::answer_at(order, register, &pair)?)
}

// Ways to copy between two memories.
#[derive(Clone, Copy)]
enum Copying {
    To,
    ToNonoverlapping,
    From,
    FromNonoverlapping,
}

const COPYINGS: [(&str, Copying); 4] = [
    ("copy_to", Copying::To),
    ("copy_to_nonoverlapping", Copying::ToNonoverlapping),
    ("copy_from", Copying::From),
    ("copy_from_nonoverlapping", Copying::FromNonoverlapping),
];

// What is done with two memories: the first place is one of the first memory, the second of the
// second.
#[derive(Clone, Copy)]
enum Deed {
    Swap(u64, u64),
    Copy(Copying, Range),
}

// What the words of a kind ask to be done.
fn deed_of(kind: &str, words: &[&str]) -> Option<Deed> {
    match words {
        [one, two] if kind == "swap2" => Some(Deed::Swap(place(one)?, place(two)?)),
        [from, to, count] if kind == "copy2" => {
            Some(Deed::Copy(Copying::To, range_of(from, to, count)?))
        }
        [from, to, count, name] if kind == "copy2" => {
            Some(Deed::Copy(named(&COPYINGS, name)?, range_of(from, to, count)?))
        }
        _ => None,
    }
}

// What is done between two memories, for a register and an order of the first.
#[derive(Drop)]
struct Pair<'a, 't, R: BitRegister, O> {
    alloc: &'a Global,
    memory: &'t str,
    other: &'t str,
    deed: Deed,
    of: PhantomData<(R, O)>,
}

impl<'a, R: BitRegister, O: BitOrder<R>> Call for Pair<'a, '_, R, O> {
    type Answer = Text<'a>;

    // The answer for a register and an order of the second memory.
    fn at<S: BitRegister, P: BitOrder<S>>(&self) -> Self::Answer {
        let mut out = Answer::new(self.alloc);
        let is_question = self.write_done::<S, P>(&mut out);
        out.finish(is_question)
    }
}

impl<R: BitRegister, O: BitOrder<R>> Pair<'_, '_, R, O> {
    // Does what is asked, and writes the second memory, behind the first where both change.
    fn write_done<S: BitRegister, P: BitOrder<S>>(&self, out: &mut Answer) -> Option<()> {
        let mut memory = out.memory::<R>(self.memory)?;
        let mut other = out.memory::<S>(self.other)?;
        match self.deed {
            Deed::Swap(one, two) => {
                let one = pointer_in::<R, O>(memory.len(), one)?;
                let two = pointer_in::<S, P>(other.len(), two)?;
                one.swap(&mut memory, two, &mut other);
                out.words(&memory);
                out.push(" ");
            }
            Deed::Copy(copying, range) => {
                copied::<R, O, S, P>(copying, range, &memory, &mut other)?
            }
        }
        out.words(&other);
        Some(())
    }
}

// Copies bits of a memory to those of another; `None` where one of the ranges passes its memory.
fn copied<R: BitRegister, O: BitOrder<R>, S: BitRegister, P: BitOrder<S>>(
    copying: Copying,
    range: Range,
    memory: &[R],
    other: &mut [S],
) -> Option<()> {
    let from = range_start::<R, O>(memory.len(), range.from, range.count)?;
    let to = range_start::<S, P>(other.len(), range.to, range.count)?;
    let count = range.count as usize;
    match copying {
        Copying::To => from.copy_to(memory, to, other, count),
        Copying::ToNonoverlapping => from.copy_to_nonoverlapping(memory, to, other, count),
        Copying::From => to.copy_from(other, from, memory, count),
        Copying::FromNonoverlapping => to.copy_from_nonoverlapping(other, from, memory, count),
    }
    Some(())
}
