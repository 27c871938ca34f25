//! Index types: what makes them, their numbers, ranges and texts; and masks as sets.

use crate::answer::Answer;
use crate::index::index_at;
use crate::values::{Value, named, number_value, small, word_at, word_value};
use bits_text::number::number;
use bitvec::index::{BitEnd, BitIdx, BitPos, BitSel, Limits};
use bitvec::mem::BitRegister;

mod masks;
mod ranges;
pub mod shown;

use shown::{Name, Shown, write_shown};

// What is asked of an index type.
#[derive(Clone, Copy)]
enum Call {
    Min,
    Max,
    Default,
    New,
    NewUnchecked,
    Error,
    Select,
    Mask,
}

const CALLS: [(&str, Call); 8] = [
    ("MIN", Call::Min),
    ("MAX", Call::Max),
    ("default", Call::Default),
    ("new", Call::New),
    ("new_unchecked", Call::NewUnchecked),
    ("error", Call::Error),
    ("select", Call::Select),
    ("mask", Call::Mask),
];

/// Writes the library's answer to a question of a kind; `None` where the words ask none.
///
/// The kinds are `BitIdx`, `BitEnd`, `BitPos`, `BitSel` and `BitMask`. The words are a call and
/// what it is asked of: words in hexadecimal, other numbers in decimal.
pub fn write_answer<R: BitRegister>(out: &mut Answer, kind: &str, words: &[&str]) -> Option<()> {
    match words {
        [call, value, format] if *call == "format" => {
            write_shown(out, &shown_of::<R>(kind, value)?, format)?
        }
        [call, one, other] if *call == "cmp" => {
            let (one, other): (BitIdx<R>, BitIdx<R>) = (index_at(one)?, index_at(other)?);
            out.value(Value::Comparison(one.cmp(&other)));
        }
        [call, details @ ..] if call.starts_with("range") => {
            ranges::write_answer::<R>(out, kind, call, details)?
        }
        _ if kind == "BitMask" => out.value(masks::value_of::<R>(words)?),
        [call] => out.value(value_of::<R>(kind, named(&CALLS, call)?, "0")?),
        [call, n] => out.value(value_of::<R>(kind, named(&CALLS, call)?, n)?),
        _ => return None,
    }
    Some(())
}

// The value whose text is asked; of a number that is no index its error.
fn shown_of<R: BitRegister>(kind: &str, value: &str) -> Option<Shown<R>> {
    let (name, n) = named_number(kind, value)?;
    match (name, Shown::of(name, n)) {
        (Name::Index, None) => Shown::of(Name::Error, n),
        (_, shown) => shown,
    }
}

// The type whose text is asked, and the number of the value: of a selector or a mask its digits in
// hexadecimal.
fn named_number(kind: &str, value: &str) -> Option<(Name, u128)> {
    let name = match kind {
        "BitSel" => Name::Selector,
        "BitMask" => Name::Mask,
        "BitEnd" => Name::End,
        "BitPos" => Name::Position,
        _ => Name::Index,
    };
    let n = match name {
        Name::Selector | Name::Mask => number(value, 16, u128::MAX)?,
        _ => u128::from(small(value)?),
    };
    Some((name, n))
}

// What a call answers of a type, with a number.
fn value_of<R: BitRegister>(kind: &str, call: Call, n: &str) -> Option<Value> {
    match kind {
        "BitIdx" => of_index::<R>(call, small(n)?),
        "BitEnd" => of_end::<R>(call, small(n)?),
        "BitPos" => of_position::<R>(call, small(n)?),
        "BitSel" => of_selector::<R>(call, word_at(n)?),
        _ => None,
    }
}

// What a call answers of an index or a number that may be none.
fn of_index<R: BitRegister>(call: Call, n: u8) -> Option<Value> {
    let number = match call {
        Call::Min => BitIdx::<R>::MIN.into_inner(),
        Call::Max => BitIdx::<R>::MAX.into_inner(),
        Call::Default => BitIdx::<R>::default().into_inner(),
        Call::Error => BitIdx::<R>::new(n).err()?.into_inner(),
        _ => match (call, BitIdx::<R>::new(n)) {
            (Call::New, Ok(index)) => index.into_inner(),
            (Call::New, Err(_)) => return Some(Value::Missing),
            (Call::NewUnchecked, Ok(_)) => BitIdx::<R>::new_unchecked(n).into_inner(),
            _ => return None,
        },
    };
    Some(number_value(number))
}

// What a call answers of an end or a number that may be none.
fn of_end<R: BitRegister>(call: Call, n: u8) -> Option<Value> {
    let number = match call {
        Call::Min => BitEnd::<R>::MIN.into_inner(),
        Call::Max => BitEnd::<R>::MAX.into_inner(),
        Call::Default => BitEnd::<R>::default().into_inner(),
        _ => match (call, BitEnd::<R>::new(n)) {
            (Call::New, Some(end)) => end.into_inner(),
            (Call::New, None) => return Some(Value::Missing),
            (Call::NewUnchecked, Some(_)) => BitEnd::<R>::new_unchecked(n).into_inner(),
            _ => return None,
        },
    };
    Some(number_value(number))
}

// What a call answers of a position or a number that may be none, or its selector or mask.
fn of_position<R: BitRegister>(call: Call, n: u8) -> Option<Value> {
    let number = match call {
        Call::Min => BitPos::<R>::MIN.into_inner(),
        Call::Max => BitPos::<R>::MAX.into_inner(),
        Call::Default => BitPos::<R>::default().into_inner(),
        _ => match (call, BitPos::<R>::new(n)) {
            (Call::New, Some(position)) => position.into_inner(),
            (Call::New, None) => return Some(Value::Missing),
            (Call::NewUnchecked, Some(_)) => BitPos::<R>::new_unchecked(n).into_inner(),
            (Call::Select, Some(position)) => {
                return Some(word_value(position.select().into_inner()));
            }
            (Call::Mask, Some(position)) => return Some(word_value(position.mask().into_inner())),
            _ => return None,
        },
    };
    Some(number_value(number))
}

// The selector that a call makes of a word, or its mask, or that there is none.
fn of_selector<R: BitRegister>(call: Call, word: R) -> Option<Value> {
    match (call, BitSel::new(word)) {
        (Call::New, Some(selector)) => Some(word_value(selector.into_inner())),
        (Call::New, None) => Some(Value::Missing),
        (Call::NewUnchecked, Some(_)) => Some(word_value(BitSel::new_unchecked(word).into_inner())),
        (Call::Mask, Some(selector)) => Some(word_value(selector.mask().into_inner())),
        _ => None,
    }
}
