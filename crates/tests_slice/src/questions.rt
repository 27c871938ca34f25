//! Questions of each slice of three bytes and of another, of bytes or of words of 16 bits, beside
//! the lists of their bits; and of slices of six words of 64 bits.

ghost use Rattle.std.specs.Prelude.{◌+◌, ◌≤◌, ◌<◌, length};

use crate::lists::Mix;
use bitvec::index::BitIdx;
use bitvec::mem::BitRegister;
use bitvec::order::{BitOrder, Lsb0, Msb0};
use bitvec::ptr::span::BitSpan;
use bitvec_slice::slice::BitSlice;

// The first place at which one list has the one bit and the other the other.
fn first(list: &[bool], others: &[bool], wanted: (bool, bool)) -> Option<usize> {
    let mut pairs = list.iter().zip(others.iter());
    pairs.position(|pair| (*pair.0, *pair.1) == wanted)
}

// Whether two slices of one length answer as their lists do.
fn answers<R: BitRegister, O: BitOrder<R>, S: BitRegister, P: BitOrder<S>>(
    slice: BitSlice<'_, R, O>,
    other: BitSlice<'_, S, P>,
    list: &[bool],
    others: &[bool],
) -> bool {
    if slice.len() != other.len() {
        return false;
    }
    let both = first(list, others, (true, true));
    let alone = first(list, others, (true, false));
    let pairs = list.iter().zip(others.iter());
    slice.is_subset(&other) == alone.is_none()
        && slice.intersects(&other) == both.is_some()
        && slice.count_and(&other) == pairs.filter(|pair| *pair.0 && *pair.1).count()
        && slice.first_and(&other) == both
        && slice.first_and_not(&other) == alone
}

// Whether two slices of any lengths differ and compare as their lists do.
fn compares<R: BitRegister, O: BitOrder<R>, S: BitRegister, P: BitOrder<S>>(
    slice: BitSlice<'_, R, O>,
    other: BitSlice<'_, S, P>,
    list: &[bool],
    others: &[bool],
) -> bool {
    let mut pairs = list.iter().zip(others.iter());
    slice.first_difference(&other) == pairs.position(|pair| pair.0 != pair.1)
        && slice.compare(&other) == list.cmp(others)
}

// A memory, but its bits from a place on are those of a list.
fn with_bits<R: BitRegister, O: BitOrder<R>, const W: usize>(
    memory: [R; W],
    list: &[bool],
    start: usize,
) -> [R; W]
    requires { start + length list.now ≤ 384 }
{
    let width = usize::from(R::BITS);
    let mut words = memory;
    for i in 0..list.len() {
        let place = start + i;
        let (word, index) = (place / width, BitIdx::new_unchecked((place % width) as u8));
        if word < words.len() {
            let bit = R::ONE.shl(O::at(index).into_inner());
            let others = words[word].and(bit.not());
            words[word] = if list[i] { others.or(bit) } else { others };
        }
    }
    words
}

// Whether slices of two memories, which begin at two places and get the bits of two lists, answer
// as these do.
fn asks<
    R: BitRegister,
    O: BitOrder<R>,
    S: BitRegister,
    P: BitOrder<S>,
    const W: usize,
    const V: usize,
>(memory: [R; W], start: usize, list: &[bool], other: [S; V], from: usize, others: &[bool]) -> bool
    requires here { start + length list.now ≤ 384 }
    requires there { from + length others.now ≤ 384 }
{
    let words = with_bits::<R, O, W>(memory, list, start);
    let other_words = with_bits::<S, P, V>(other, others, from);
    let span = BitSpan::<R, O>::at(start, list.len()).unwrap_or_default();
    let there = BitSpan::<S, P>::at(from, others.len()).unwrap_or_default();
    let (slice, other) = (
        BitSlice::new(span, &words),
        BitSlice::new(there, &other_words),
    );
    let (Some(slice), Some(other)) = (slice, other) else {
        return false;
    };
    let is_answered = list.len() != others.len() || answers(slice, other, list, others);
    is_answered && compares(slice, other, list, others)
}

// Bits that follow no short rule, others for each number.
fn bits_of(number: usize) -> [bool; 321] {
    let mut bits = [false; 321];
    for i in 0..321usize {
        let sum = number.wrapping_add(i.wrapping_mul(i));
        bits[i] = sum.wrapping_mul(0x9E37_79B9_7F4A_7C15) >> 63 == 1;
    }
    bits
}

// Whether a slice of `len` bits and one of the same do, and it and one of these with one turned
// over, each `step`th in turn.
fn asks_of_its_bits<
    R: BitRegister,
    O: BitOrder<R>,
    S: BitRegister,
    P: BitOrder<S>,
    const W: usize,
    const V: usize,
>(memory: [R; W], start: usize, other: [S; V], from: usize, len: usize, step: usize) -> bool
    requires inside { len ≤ 321 }
    requires here { start + len ≤ 384 }
    requires there { from + len ≤ 384 }
    requires some { 0 < step }
{
    let bits = bits_of(start + len);
    let mut others = bits;
    let list = &bits[..len];
    if !asks::<R, O, S, P, W, V>(memory, start, list, other, from, &others[..len]) {
        return false;
    }
    for i in 0..len {
        others[i] = !bits[i];
        let is_asked = i % step != 0
            || asks::<R, O, S, P, W, V>(memory, start, list, other, from, &others[..len]);
        if !is_asked {
            return false;
        }
        others[i] = bits[i];
    }
    true
}

// Whether a slice and one of each of the sixteen functions of two lists do, the first of which has
// the slice's bits: digit 2a + b of the function's number is what it has of the bits a and b.
fn asks_of_functions<
    R: BitRegister,
    O: BitOrder<R>,
    S: BitRegister,
    P: BitOrder<S>,
    const W: usize,
    const V: usize,
>(memory: [R; W], start: usize, other: [S; V], from: usize, len: usize) -> bool
    requires inside { len ≤ 321 }
    requires here { start + len ≤ 384 }
    requires there { from + len ≤ 384 }
{
    let (bits, with) = (bits_of(start + len), bits_of(from + 384));
    for function in 0..16u8 {
        let mut others = [false; 321];
        for i in 0..len {
            let digit = 2 * u8::from(bits[i]) + u8::from(with[i]);
            others[i] = (function >> digit) & 1 == 1;
        }
        if !asks::<R, O, S, P, W, V>(memory, start, &bits[..len], other, from, &others[..len]) {
            return false;
        }
    }
    true
}

/// Bits that lie beside those of a slice.
const BYTES: [u8; 3] = [0x5C, 0x2E, 0xF3];

// Whether a slice of bytes and one of each length do, which begins as it does, or as it does but
// for the last bit that both have. Behind what both have, each bit is turned over.
fn asks_of_two_lengths<O: BitOrder<u8>, S: BitRegister, P: BitOrder<S>>(
    start: usize,
    other: [S; 4],
    from: usize,
    len: usize,
) -> bool
    requires inside { len ≤ 24 }
    requires here { start ≤ 24 }
    requires there { from ≤ 8 }
{
    let bits = bits_of(start + len);
    let own = bits;
    let list = &own[..len];
    for other_len in 0..25 {
        let mut others = bits;
        for i in len..24 {
            others[i] = !bits[i];
        }
        let begun = &others[..other_len];
        if !asks::<u8, O, S, P, 3, 4>(BYTES, start, list, other, from, begun) {
            return false;
        }
        let common = len.min(other_len);
        if 0 < common {
            others[common - 1] = !bits[common - 1];
        }
        let differing = &others[..other_len];
        if !asks::<u8, O, S, P, 3, 4>(BYTES, start, list, other, from, differing) {
            return false;
        }
    }
    true
}

// Whether every slice of three bytes does, beside slices of four words of a register.
fn each_slice<O: BitOrder<u8>, S: BitRegister, P: BitOrder<S>>(other: [S; 4]) -> bool {
    for start in 0..25 {
        for len in 0..25 - start {
            // Any of the first nine places.
            let from = (start + 3 * len) % 9;
            let is_asked = asks_of_its_bits::<u8, O, S, P, 3, 4>(BYTES, start, other, from, len, 1)
                && asks_of_functions::<u8, O, S, P, 3, 4>(BYTES, start, other, from, len)
                && asks_of_two_lengths::<O, S, P>(start, other, from, len);
            if !is_asked {
                return false;
            }
        }
    }
    true
}

#[test]
fn each_slice_is_asked(rt: HostRuntime) {
    let (bytes, words) = ([0xC6, 0x35, 0x9A, 0xB1], [0x39C6, 0x6B35, 0x1E4D, 0xA972]);
    assert!(rt; each_slice::<Lsb0, u8, Lsb0>(bytes));
    assert!(rt; each_slice::<Msb0, u8, Lsb0>(bytes));
    assert!(rt; each_slice::<Mix, u8, Lsb0>(bytes));
    assert!(rt; each_slice::<Mix, u8, Mix>(bytes));
    assert!(rt; each_slice::<Lsb0, u16, Msb0>(words));
    assert!(rt; each_slice::<Msb0, u16, Msb0>(words));
    assert!(rt; each_slice::<Mix, u16, Msb0>(words));
}

/// Words of which the same is true.
const WORDS: [u64; 6] = [0x9E37_79B9_7F4A_7C15; 6];

// Whether slices of six words of 64 bits do, or of as many bits in others, of lengths about whole
// words.
fn each_wide_slice<R: BitRegister, O: BitOrder<R>, P: BitOrder<u64>, const W: usize>(
    memory: [R; W],
    start: usize,
    from: usize,
) -> bool
    requires here { start ≤ 63 }
    requires there { from ≤ 63 }
{
    for words in 0..6 {
        for more in 0..3usize {
            let len = (64 * words + more).saturating_sub(1);
            let is_asked = asks_of_its_bits::<R, O, u64, P, W, 6>(
                memory, start, WORDS, from, len, 61,
            ) && asks_of_functions::<R, O, u64, P, W, 6>(memory, start, WORDS, from, len);
            if !is_asked {
                return false;
            }
        }
    }
    true
}

// Whether they do at any two of three places of a word.
fn each_two_places<R: BitRegister, O: BitOrder<R>, P: BitOrder<u64>, const W: usize>(
    memory: [R; W],
) -> bool {
    for i in 0..3 {
        for j in 0..3 {
            if !each_wide_slice::<R, O, P, W>(memory, 63 * i / 2, 63 * j / 2) {
                return false;
            }
        }
    }
    true
}

#[test]
fn wide_slices_are_asked(rt: HostRuntime) {
    assert!(rt; each_two_places::<u64, Lsb0, Lsb0, 6>(WORDS));
    assert!(rt; each_two_places::<u64, Lsb0, Msb0, 6>(WORDS));
    assert!(rt; each_two_places::<u64, Msb0, Lsb0, 6>(WORDS));
    assert!(rt; each_two_places::<u64, Msb0, Msb0, 6>(WORDS));
    assert!(rt; each_two_places::<u8, Mix, Lsb0, 48>([0xA7; 48]));
    assert!(rt; each_two_places::<u8, Mix, Msb0, 48>([0xA7; 48]));
}
