//! The ranges of index types, by the calls that are made of them.

use crate::answer::Answer;
use crate::index::{end_at, index_at};
use crate::values::{Value, number_value, word_value};
use bitvec::index::range::{EndRange, IdxRange, PosRange, SelRange};
use bitvec::index::{BitEnd, BitIdx, BitPos, BitSel};
use bitvec::mem::BitRegister;

// Writes the answers of a range to its calls; `None` where one of them is no call.
pub(super) fn write_answer<R: BitRegister>(
    out: &mut Answer,
    kind: &str,
    name: &str,
    words: &[&str],
) -> Option<()> {
    match (name, words) {
        ("range_all", calls) => write_answers(out, range_of_all::<R>(kind)?, calls),
        ("range_from", [start, calls @ ..]) if kind == "BitEnd" => {
            let ends = Range::<R>::Ends(BitEnd::range_from(index_at(start)?));
            write_answers(out, ends, calls)
        }
        ("range", [start, end, calls @ ..]) if kind == "BitIdx" => {
            write_answers(
                out,
                indices_between::<R>(index_at(start)?, end_at(end)?)?,
                calls,
            )
        }
        _ => None,
    }
}

// A range of a register.
#[derive(Drop)]
enum Range<R: BitRegister> {
    Indices(IdxRange<R>),
    Ends(EndRange<R>),
    Positions(PosRange<R>),
    Selectors(SelRange<R>),
}

// The range of all values of a type.
fn range_of_all<R: BitRegister>(kind: &str) -> Option<Range<R>> {
    match kind {
        "BitIdx" => Some(Range::Indices(BitIdx::range_all())),
        "BitPos" => Some(Range::Positions(BitPos::range_all())),
        "BitSel" => Some(Range::Selectors(BitSel::range_all())),
        _ => None,
    }
}

// The range of the indices from one to before an end; `None` where the end is below it.
fn indices_between<R: BitRegister>(start: BitIdx<R>, end: BitEnd<R>) -> Option<Range<R>> {
    if start.into_inner() > end.into_inner() {
        return None;
    }
    Some(Range::Indices(start.range(end)))
}

// How many items an iterator of a known length gives, counted one by one.
fn counted<I: ExactSizeIterator>(items: I) -> usize
where
    I::Item: Drop,
    requires { I.can_next items }
{
    // The call says that the count fits, and costs nothing.
    let _len = items.len();
    items.count()
}

impl<R: BitRegister> Range<R> {
    // The next value.
    fn next(&mut self) -> Option<Value> {
        match self {
            Range::Indices(range) => Some(number_value(range.next()?.into_inner())),
            Range::Ends(range) => Some(number_value(range.next()?.into_inner())),
            Range::Positions(range) => Some(number_value(range.next()?.into_inner())),
            Range::Selectors(range) => Some(word_value(range.next()?.into_inner())),
        }
    }

    // The next value from the back.
    fn next_back(&mut self) -> Option<Value> {
        match self {
            Range::Indices(range) => Some(number_value(range.next_back()?.into_inner())),
            Range::Ends(range) => Some(number_value(range.next_back()?.into_inner())),
            Range::Positions(range) => Some(number_value(range.next_back()?.into_inner())),
            Range::Selectors(range) => Some(word_value(range.next_back()?.into_inner())),
        }
    }

    // How many values there are still.
    fn len(&self) -> usize {
        match self {
            Range::Indices(range) => range.len(),
            Range::Ends(range) => range.len(),
            Range::Positions(range) => range.len(),
            Range::Selectors(range) => range.len(),
        }
    }

    // How many values come, counted one by one.
    fn count(self) -> usize {
        match self {
            Range::Indices(range) => counted(range),
            Range::Ends(range) => counted(range),
            Range::Positions(range) => counted(range),
            Range::Selectors(range) => counted(range),
        }
    }

    // What the range answers to a call; `None` where it is no call.
    fn answer(&mut self, call: &str) -> Option<Value> {
        match call {
            "next" => Some(self.next().unwrap_or(Value::Missing)),
            "next_back" => Some(self.next_back().unwrap_or(Value::Missing)),
            "len" => Some(Value::Number(self.len())),
            _ => None,
        }
    }
}

// Writes the answers of a range to its calls, of which `count` can only be the last; `None` where
// one of them is no call of it.
fn write_answers<R: BitRegister>(out: &mut Answer, range: Range<R>, calls: &[&str]) -> Option<()> {
    let mut range = range;
    let mut is_first = true;
    for call in calls {
        if !is_first {
            out.push(" ");
        }
        is_first = false;
        if *call == "count" {
            out.value(Value::Number(range.count()));
            return Some(());
        }
        out.value(range.answer(call)?);
    }
    Some(())
}
