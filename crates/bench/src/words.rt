//! Memories, and their bits read by a plain loop.

ghost use Rattle.std.specs.Prelude.{◌<◌};

use bits_text::hilo::HiLo;
use bitvec::mem::BitRegister;
use bitvec::order::{Lsb0, Msb0};
use std::alloc::AllocError;

/// Half a page in words. Memories begin at one place of their pages; a target of another begins so
/// many words behind it, since a load waits for a store whose address has the same low digits.
pub const APART: usize = 256;

/// Words that look random, the same at each call.
pub fn words(rt: HostRuntime, count: usize) -> Result<Vec<u64>, AllocError> {
    let mut words = Vec::new(rt.alloc());
    let mut word: u64 = 1;
    for _ in 0..count {
        word = word
            .wrapping_mul(6364136223846793005)
            .wrapping_add(1442695040888963407);
        words.push(word)?;
    }
    Ok(words)
}

/// Bytes that look random, the same at each call.
pub fn bytes(rt: HostRuntime, count: usize) -> Result<Vec<u8>, AllocError> {
    let words = words(rt, count)?;
    words
        .iter()
        .map(|word| (*word >> 56) as u8)
        .collect(rt.alloc())
}

/// Words of another register that look random, the same at each call.
pub fn words_of<R: BitRegister>(rt: HostRuntime, count: usize) -> Result<Vec<R>, AllocError> {
    let mut made = Vec::new(rt.alloc());
    let most = R::ALL.to_u128();
    for word in words(rt, count)? {
        let number = (u128::from(word) << 64 | u128::from(!word)) & most;
        made.push(R::from_u128(number).unwrap_or(R::ZERO))?;
    }
    Ok(made)
}

/// The position of an index by a formula, beside the library's.
pub trait Formula {
    /// The position of an index in a word of `width` bits.
    fn position(width: usize, index: usize) -> usize
        requires { index < width };
}

impl Formula for Lsb0 {
    fn position(_width: usize, index: usize) -> usize {
        index
    }
}

impl Formula for Msb0 {
    fn position(width: usize, index: usize) -> usize {
        width - 1 - index
    }
}

impl Formula for HiLo {
    fn position(_width: usize, index: usize) -> usize {
        index ^ 4
    }
}

/// The bit at a place of a memory; false behind its end.
pub fn bit<R: BitRegister, F: Formula>(words: &[R], place: usize) -> bool {
    let width = usize::from(R::BITS);
    let position = F::position(width, place % width);
    match words.get(place / width) {
        Some(word) if position < 128 => (word.to_u128() >> position) & 1 == 1,
        _ => false,
    }
}

/// Writes a bit of a memory.
pub fn put<F: Formula>(words: &mut [u64], place: usize, is_one: bool) {
    let position = F::position(64, place % 64);
    if let Some(word) = words.get_mut(place / 64)
        && position < 64
    {
        let digit = 1 << position as u32;
        *word = if is_one {
            *word | digit
        } else {
            *word & !digit
        };
    }
}

/// Whether a memory was made of another by a copy of `count` bits, and no other bit changed: bit by
/// bit.
pub fn is_copied<R: BitRegister, F: Formula, R2: BitRegister, F2: Formula>(
    source: &[R],
    from: usize,
    before: &[R2],
    after: &[R2],
    to: usize,
    count: usize,
) -> bool {
    for place in 0..512 * usize::from(R2::BITS) {
        let wanted = if place >= to && place - to < count {
            bit::<R, F>(source, from.saturating_add(place - to))
        } else {
            bit::<R2, F2>(before, place)
        };
        if bit::<R2, F2>(after, place) != wanted {
            return false;
        }
    }
    true
}
