//! The lowest and the highest digit of a word that is one, and the word without its lowest.

ghost use Rattle.std.specs.Prelude.{◌^◌, ◌<◌, MatchOption};
ghost use Rattle.bitvec_mem.specs.Ones.{HasNoOne, IsLowestOne, IsHighestOne, IsWithoutLowestOne};

use crate::mem::BitRegister;

/// The position of the lowest digit of a word that is one, and `None` where none is.
///
/// Constant time. Not in the Rust crate, which calls `trailing_zeros` of the word.
///
/// # Examples
///
/// ```
/// assert_eq!(rt; lowest_one(0x28u8), Some(3));
/// assert_eq!(rt; lowest_one(0x00u8), None);
/// ```
#[inline(always)]
pub fn lowest_one<R: BitRegister>(word: R) -> Option<u8>
    ensures { MatchOption result (HasNoOne R.BITS (R.number word))
        (IsLowestOne R.BITS (R.number word)) }
{
    let number = word.to_u128();
    if number == 0 {
        return None;
    }
    Some(number.trailing_zeros() as u8)
}

/// The position of the highest digit of a word that is one, and `None` where none is.
///
/// Constant time. Not in the Rust crate, which calls `leading_zeros` of the word.
///
/// # Examples
///
/// ```
/// assert_eq!(rt; highest_one(0x28u8), Some(5));
/// assert_eq!(rt; highest_one(0x00u8), None);
/// ```
#[inline(always)]
pub fn highest_one<R: BitRegister>(word: R) -> Option<u8>
    ensures { MatchOption result (HasNoOne R.BITS (R.number word))
        (IsHighestOne R.BITS (R.number word)) }
{
    let number = word.to_u128();
    if number == 0 {
        return None;
    }
    // (a word of at most 64 bits is counted in a register of the machine)
    if number < 1 << 64 {
        let low = number as u64;
        return Some((63 - low.leading_zeros()) as u8);
    }
    Some((127 - number.leading_zeros()) as u8)
}

/// A word with its lowest digit that is one made zero: every other digit stays. Zero stays zero.
///
/// Constant time, and no position is asked for: the digits that the word and the word less one have
/// in common. Not in the Rust crate.
///
/// # Examples
///
/// ```
/// assert_eq!(rt; without_lowest_one(0x28u8), 0x20);
/// assert_eq!(rt; without_lowest_one(0x00u8), 0x00);
/// ```
#[inline(always)]
pub fn without_lowest_one<R: BitRegister>(word: R) -> R
    ensures below { R.number result < 2 ^ R.BITS }
    ensures digits { IsWithoutLowestOne R.BITS (R.number word) (R.number result) }
{
    let number = word.to_u128();
    R::from_u128(number & number.wrapping_sub(1)).unwrap_or(R::ZERO)
}
