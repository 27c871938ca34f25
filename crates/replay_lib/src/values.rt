//! Values as answers, names in tables, and words and numbers from text.

use bits_text::number::number;
use bitvec::mem::BitRegister;
use std::cmp::Ordering;

/// What a call answers.
#[derive(Clone, Copy)]
pub enum Value {
    /// A number, which is written in decimal.
    Number(usize),
    /// A number with a sign, which is written in decimal.
    Signed(i128),
    /// The number of a word, which is written in hexadecimal.
    Word(u128),
    /// A word and a bit of it, both written in decimal.
    Bit(isize, u8),
    /// A word, a bit of it and a length, all written in decimal.
    Span(isize, u8, usize),
    /// Whether something is so.
    Truth(bool),
    /// How two values compare.
    Comparison(Ordering),
    /// A name.
    Name(&'static str),
    /// That there is no such value.
    Missing,
}

/// The number of a small value, as an answer.
pub fn number_value(n: u8) -> Value {
    Value::Number(usize::from(n))
}

/// A bit as its digit, as an answer.
pub fn digit_value(bit: bool) -> Value {
    Value::Name(if bit { "1" } else { "0" })
}

/// A place or a count, as an answer.
pub fn place_value(place: Option<usize>) -> Value {
    match place {
        Some(n) => Value::Number(n),
        None => Value::Missing,
    }
}

/// A bit that may be missing, as an answer.
pub fn bit_value(bit: Option<bool>) -> Value {
    match bit {
        Some(bit) => digit_value(bit),
        None => Value::Missing,
    }
}

/// A word, as an answer.
pub fn word_value<R: BitRegister>(word: R) -> Value {
    Value::Word(word.to_u128())
}

/// A word that may be missing, as an answer.
pub fn word_or_missing<R: BitRegister>(word: Option<R>) -> Value {
    match word {
        Some(word) => word_value(word),
        None => Value::Missing,
    }
}

/// What a table has under a name.
pub fn named<T: Copy>(table: &[(&'static str, T)], name: &str) -> Option<T> {
    for (known, value) in table {
        if *known == name {
            return Some(*value);
        }
    }
    None
}

/// The word of a hexadecimal text; `None` where the register has no room for it.
pub fn word_at<R: BitRegister>(text: &str) -> Option<R> {
    R::from_u128(number(text, 16, u128::MAX)?)
}

/// The number of a text.
pub fn count_of(text: &str) -> Option<usize> {
    text.parse::<usize>().ok()
}

/// The small number of a text.
pub fn small(text: &str) -> Option<u8> {
    text.parse::<u8>().ok()
}

/// The number with a sign of a text.
pub fn signed(text: &str) -> Option<isize> {
    text.parse::<isize>().ok()
}

/// The numbers of at most three texts, and zeros for those that are not there.
pub fn numbers(texts: &[&str]) -> Option<[usize; 3]> {
    match texts {
        [] => Some([0, 0, 0]),
        [one] => Some([count_of(one)?, 0, 0]),
        [one, two] => Some([count_of(one)?, count_of(two)?, 0]),
        [one, two, three] => Some([count_of(one)?, count_of(two)?, count_of(three)?]),
        _ => None,
    }
}

/// Whether a bit is one; `None` where the text is no bit.
pub fn is_one(bit: &str) -> Option<bool> {
    match bit {
        "0" => Some(false),
        "1" => Some(true),
        _ => None,
    }
}
