//! Registers: constants, functions, comparisons and counts of words.

use crate::answer::Answer;
use crate::values::{
    Value, count_of, named, number_value, small, word_at, word_or_missing, word_value,
};
use bits_text::number::number;
use bitvec::mem::{BitElement, BitRegister, bits_of, elts};

// What is asked of words of a register.
#[derive(Clone, Copy)]
enum Call {
    Constants,
    Elements,
    BitsOf,
    Elts,
    FromU128,
    Not,
    CountOnes,
    ToU128,
    Shl,
    Shr,
    And,
    Or,
    Xor,
    Cmp,
    Eq,
}

const CALLS: [(&str, Call); 15] = [
    ("constants", Call::Constants),
    ("elements", Call::Elements),
    ("bits_of", Call::BitsOf),
    ("elts", Call::Elts),
    ("from_u128", Call::FromU128),
    ("not", Call::Not),
    ("count_ones", Call::CountOnes),
    ("to_u128", Call::ToU128),
    ("shl", Call::Shl),
    ("shr", Call::Shr),
    ("and", Call::And),
    ("or", Call::Or),
    ("xor", Call::Xor),
    ("cmp", Call::Cmp),
    ("eq", Call::Eq),
];

/// Writes the library's answer to a question; `None` where the words ask none.
///
/// The words are a call and what it is asked of: words in hexadecimal, other numbers in decimal.
pub fn write_answer<R: BitRegister>(out: &mut Answer, words: &[&str]) -> Option<()> {
    let [name, details @ ..] = words else {
        return None;
    };
    match (named(&CALLS, name)?, details) {
        (Call::Constants, []) => out.values(&constants::<R>()),
        (Call::Elements, [one, other]) => {
            out.values(&elements::<R>(word_at(one)?, word_at(other)?))
        }
        (call, []) => out.value(of_register::<R>(call, 0)?),
        (Call::Elts, [bits]) => out.value(of_register::<R>(Call::Elts, count_of(bits)?)?),
        (Call::FromU128, [n]) => {
            out.value(word_or_missing(R::from_u128(number(n, 16, u128::MAX)?)))
        }
        (call, [word]) => out.value(of_word::<R>(call, word_at(word)?)?),
        (Call::Shl, [word, count]) => out.value(shifted::<R>(true, word_at(word)?, small(count)?)?),
        (Call::Shr, [word, count]) => {
            out.value(shifted::<R>(false, word_at(word)?, small(count)?)?)
        }
        (call, [one, other]) => out.value(of_words::<R>(call, word_at(one)?, word_at(other)?)?),
        _ => return None,
    }
    Some(())
}

// The width, the two numbers of an index, the name as a constant and as a call, the numbers of the
// constants 0, 1 and all ones, and of the default.
fn constants<R: BitRegister>() -> [Value; 9] {
    [
        number_value(R::BITS),
        number_value(R::INDX),
        number_value(R::MASK),
        Value::Name(R::NAME),
        Value::Name(R::name_text()),
        word_value(R::ZERO),
        word_value(R::ONE),
        word_value(R::ALL),
        word_value(R::default()),
    ]
}

// The words of two memories of one word, how the two compare, whether they are equal, and the word
// of the default.
fn elements<R: BitRegister>(one: R, other: R) -> [Value; 5] {
    let (one, other) = (BitElement::new(one), BitElement::new(other));
    [
        word_value(one.elem),
        word_value(other.elem),
        Value::Comparison(one.cmp(&other)),
        Value::Truth(one == other),
        word_value(BitElement::<R>::default().elem),
    ]
}

// What a call answers of the register itself.
fn of_register<R: BitRegister>(call: Call, n: usize) -> Option<Value> {
    match call {
        Call::BitsOf => Some(Value::Number(bits_of::<R>())),
        Call::Elts => Some(Value::Number(elts::<R>(n))),
        _ => None,
    }
}

// What a call answers of a word.
fn of_word<R: BitRegister>(call: Call, word: R) -> Option<Value> {
    match call {
        Call::Not => Some(word_value(word.not())),
        Call::CountOnes => Some(Value::Number(word.count_ones() as usize)),
        Call::ToU128 => Some(Value::Word(word.to_u128())),
        _ => None,
    }
}

// A word with its digits moved up or down; `None` where the count is not below the width.
fn shifted<R: BitRegister>(is_up: bool, word: R, n: u8) -> Option<Value> {
    if n >= R::BITS {
        return None;
    }
    Some(word_value(if is_up { word.shl(n) } else { word.shr(n) }))
}

// What a call answers of two words.
fn of_words<R: BitRegister>(call: Call, one: R, other: R) -> Option<Value> {
    match call {
        Call::And => Some(word_value(one.and(other))),
        Call::Or => Some(word_value(one.or(other))),
        Call::Xor => Some(word_value(one.xor(other))),
        Call::Cmp => Some(Value::Comparison(one.cmp(&other))),
        Call::Eq => Some(Value::Truth(one == other)),
        _ => None,
    }
}
