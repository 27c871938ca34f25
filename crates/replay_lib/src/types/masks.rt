//! Masks as sets of positions.

use crate::values::{Value, named, small, word_at, word_value};
use bitvec::index::{BitMask, BitPos, BitSel, MaskLimits};
use bitvec::mem::BitRegister;

// What is asked of masks.
#[derive(Clone, Copy)]
enum Call {
    Zero,
    All,
    Default,
    Not,
    And,
    Or,
    Test,
    Combine,
    Insert,
    Sum,
}

const CALLS: [(&str, Call); 10] = [
    ("ZERO", Call::Zero),
    ("ALL", Call::All),
    ("default", Call::Default),
    ("not", Call::Not),
    ("and", Call::And),
    ("or", Call::Or),
    ("test", Call::Test),
    ("combine", Call::Combine),
    ("insert", Call::Insert),
    ("sum", Call::Sum),
];

// What a call answers of masks; `None` where the words are no call.
pub(super) fn value_of<R: BitRegister>(words: &[&str]) -> Option<Value> {
    let [name, details @ ..] = words else {
        return None;
    };
    let call = named(&CALLS, name)?;
    let mask = match details {
        [] => plain::<R>(call, R::ZERO)?,
        [mask] => plain(call, word_at::<R>(mask)?)?,
        [mask, with] => return value_with(call, BitMask::new(word_at::<R>(mask)?), word_at(with)?),
        [one, two, three] => sum::<R>(small(one)?, small(two)?, small(three)?)?,
        _ => return None,
    };
    Some(word_value(mask.into_inner()))
}

// The mask that a call names, or the complement of one.
fn plain<R: BitRegister>(call: Call, mask: R) -> Option<BitMask<R>> {
    match call {
        Call::Zero => Some(BitMask::ZERO),
        Call::All => Some(BitMask::ALL),
        Call::Default => Some(BitMask::default()),
        Call::Not => Some(!BitMask::new(mask)),
        _ => None,
    }
}

// What a call answers of a mask with a word.
fn value_with<R: BitRegister>(call: Call, mask: BitMask<R>, with: R) -> Option<Value> {
    let mut mask = mask;
    match call {
        Call::And => Some(word_value((mask & with).into_inner())),
        Call::Or => Some(word_value((mask | with).into_inner())),
        Call::Test => Some(Value::Truth(mask.test(BitSel::new(with)?))),
        Call::Combine => Some(word_value(mask.combine(BitSel::new(with)?).into_inner())),
        Call::Insert => {
            mask.insert(BitSel::new(with)?);
            Some(word_value(mask.into_inner()))
        }
        _ => None,
    }
}

// The mask of the selectors of three positions.
fn sum<R: BitRegister>(one: u8, two: u8, three: u8) -> Option<BitMask<R>> {
    let positions = [BitPos::new(one)?, BitPos::new(two)?, BitPos::new(three)?].into_iter();
    Some(BitMask::sum(positions.map(|position: BitPos<R>| position.select())))
}
