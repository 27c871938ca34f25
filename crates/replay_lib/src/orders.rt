//! Orders: the place of an index, the masks of the first indices, the sums of selectors, and the
//! direction.

use crate::answer::Answer;
use crate::index::{end_at, index_at};
use crate::values::{Value, number_value, word_value};
use bitvec::index::{BitEnd, BitIdx, BitMask};
use bitvec::mem::BitRegister;
use bitvec::order::{BitOrder, Direction, Lsb0, Msb0, direction_of, plain_select};

/// Writes the library's answer to a question; `None` where the words ask none.
pub fn write_answer<R: BitRegister, O: BitOrder<R>>(
    out: &mut Answer,
    words: &[&str],
) -> Option<()> {
    match words {
        [call] if *call == "direction" => out.debug(&direction_of::<R, O>()),
        [call, index] if *call == "places" => out.values(&places::<R, O>(index_at(index)?)),
        [call, end] if *call == "prefix" => {
            out.value(prefix::<R>(direction_of::<R, O>(), end_at(end)?)?)
        }
        [call, from, upto] if *call == "sum" => {
            out.value(sum::<R, O>(index_at(from)?, end_at(upto)?)?)
        }
        _ => return None,
    }
    Some(())
}

// The position, the selector and the mask of an index, and the selector by its position alone.
fn places<R: BitRegister, O: BitOrder<R>>(index: BitIdx<R>) -> [Value; 4] {
    [
        number_value(index.position::<O>().into_inner()),
        word_value(index.select::<O>().into_inner()),
        word_value(index.mask::<O>().into_inner()),
        word_value(plain_select::<R, O>(index).into_inner()),
    ]
}

// The mask of the indices before an end, which the orders `Lsb0` and `Msb0` alone have a call for.
fn prefix<R: BitRegister>(direction: Direction, end: BitEnd<R>) -> Option<Value> {
    let mask = match direction {
        Direction::Rises => Lsb0::prefix(end),
        Direction::Falls => Msb0::prefix(end),
        Direction::Other => return None,
    };
    Some(word_value(mask.into_inner()))
}

// The union of the selectors of the indices from one to before an end, which is not below it.
fn sum<R: BitRegister, O: BitOrder<R>>(from: BitIdx<R>, upto: BitEnd<R>) -> Option<Value> {
    if from.into_inner() > upto.into_inner() {
        return None;
    }
    let indices = from.range(upto);
    let mask = BitMask::sum(indices.map(|index: BitIdx<R>| index.select::<O>()));
    Some(word_value(mask.into_inner()))
}
