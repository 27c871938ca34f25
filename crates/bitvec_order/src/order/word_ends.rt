//! The first and the last index at which a word has a one.

ghost use Rattle.std.specs.Prelude.{MatchOption};
ghost use Rattle.bitvec_order.specs.WordEnds.{HasNoIndex, IsFirstIndex, IsLastIndex};

use crate::index::{BitIdx, BitMask};
use crate::order::{BitOrder, Direction, direction_of};
use bitvec_mem::mem;
use bitvec_mem::mem::BitRegister;

// The first index at which a word has a one, found index by index.
fn first_index_singly<R: BitRegister, O: BitOrder<R>>(word: R) -> Option<u8>
    ensures { MatchOption result (HasNoIndex R.BITS O.at_of (R.number word))
        (IsFirstIndex R.BITS O.at_of (R.number word)) }
{
    if word.to_u128() == 0 {
        return None;
    }
    let mask = BitMask::new(word);
    for index in 0..R::BITS {
        if mask.test(O::select(BitIdx::new_unchecked(index))) {
            return Some(index);
        }
    }
    None
}

/// The first index at which a word has a one, and `None` where it has none.
///
/// Constant time where the order rises or falls, else at most one step for each index. Not in the
/// Rust crate.
///
/// # Examples
///
/// ```
/// assert_eq!(rt; first_index::<u8, Lsb0>(0x28), Some(3));
/// assert_eq!(rt; first_index::<u8, Msb0>(0x28), Some(2));
/// assert_eq!(rt; first_index::<u8, Msb0>(0x00), None);
/// ```
#[inline(always)]
pub fn first_index<R: BitRegister, O: BitOrder<R>>(word: R) -> Option<u8>
    ensures { MatchOption result (HasNoIndex R.BITS O.at_of (R.number word))
        (IsFirstIndex R.BITS O.at_of (R.number word)) }
{
    match direction_of::<R, O>() {
        Direction::Rises => mem::lowest_one(word),
        Direction::Falls => match mem::highest_one(word) {
            Some(position) => Some(R::BITS - 1 - position),
            None => None,
        },
        Direction::Other => first_index_singly::<R, O>(word),
    }
}

// The last index at which a word has a one, found index by index.
fn last_index_singly<R: BitRegister, O: BitOrder<R>>(word: R) -> Option<u8>
    ensures { MatchOption result (HasNoIndex R.BITS O.at_of (R.number word))
        (IsLastIndex R.BITS O.at_of (R.number word)) }
{
    let mask = BitMask::new(word);
    let mut end = R::BITS;
    while 0 < end {
        end -= 1;
        if mask.test(O::select(BitIdx::new_unchecked(end))) {
            return Some(end);
        }
    }
    None
}

/// The last index at which a word has a one, and `None` where it has none.
///
/// Constant time where the order rises or falls, else at most one step for each index. Not in the
/// Rust crate.
///
/// # Examples
///
/// ```
/// assert_eq!(rt; last_index::<u8, Lsb0>(0x28), Some(5));
/// assert_eq!(rt; last_index::<u8, Msb0>(0x28), Some(4));
/// assert_eq!(rt; last_index::<u8, Msb0>(0x00), None);
/// ```
#[inline(always)]
pub fn last_index<R: BitRegister, O: BitOrder<R>>(word: R) -> Option<u8>
    ensures { MatchOption result (HasNoIndex R.BITS O.at_of (R.number word))
        (IsLastIndex R.BITS O.at_of (R.number word)) }
{
    match direction_of::<R, O>() {
        Direction::Rises => mem::highest_one(word),
        Direction::Falls => match mem::lowest_one(word) {
            Some(position) => Some(R::BITS - 1 - position),
            None => None,
        },
        Direction::Other => last_index_singly::<R, O>(word),
    }
}
