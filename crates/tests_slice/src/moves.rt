//! Shifts, rotations both ways, copies and comparisons of each slice of three bytes under orders
//! that rise, that fall and that are a table, beside the list of its bits.

ghost use Rattle.std.specs.Prelude.{◌+◌, ◌≤◌, length};
ghost use Rattle.bitvec_slice.specs.BitSliceMut.{lent_len};

use crate::lists::{MEMORY, Mix, bits_of, span_at};
use bitvec::index::BitIdx;
use bitvec::order::{BitOrder, Lsb0, Msb0};
use bitvec::ptr::span::BitSpan;
use bitvec_slice::slice::{BitSlice, BitSliceMut};

/// A move of bits by a number of places: two shifts, two rotations, and two copies of those that
/// stay inside.
#[derive(Clone, Copy)]
enum Move {
    ShiftLeft,
    ShiftRight,
    RotateLeft,
    RotateRight,
    CopyFront,
    CopyBack,
}

/// Each of them.
const MOVES: [Move; 6] = [
    Move::ShiftLeft,
    Move::ShiftRight,
    Move::RotateLeft,
    Move::RotateRight,
    Move::CopyFront,
    Move::CopyBack,
];

// Moves the bits of a slice.
fn move_bits<O: BitOrder<u8>>(slice: &mut BitSliceMut<'_, u8, O>, by: usize, how: Move)
    requires { by ≤ lent_len slice.old }
{
    let len = slice.len();
    match how {
        Move::ShiftLeft => slice.shift_left(by),
        Move::ShiftRight => slice.shift_right(by),
        Move::RotateLeft => slice.rotate_left(by),
        Move::RotateRight => slice.rotate_right(by),
        Move::CopyFront => slice.copy_within(by..len, 0),
        Move::CopyBack => slice.copy_within(0..len - by, by),
    }
}

// Moves the elements of a list.
fn move_elements(list: &mut [bool], by: usize, how: Move)
    requires { by ≤ length list.old }
{
    let rest = list.len() - by;
    match how {
        Move::ShiftLeft => {
            list.rotate_left(by);
            list[rest..].fill(false);
        }
        Move::ShiftRight => {
            list.rotate_right(by);
            list[..by].fill(false);
        }
        Move::RotateLeft => list.rotate_left(by),
        Move::RotateRight => list.rotate_right(by),
        Move::CopyFront => list.copy_within(by.., 0),
        Move::CopyBack => list.copy_within(..rest, by),
    }
}

// Whether a move leaves the list so, and every other bit as before.
fn moves<O: BitOrder<u8>>(start: usize, len: usize, by: usize, how: Move) -> bool
    requires list { start + len ≤ 24 }
    requires inside { by ≤ len }
{
    let mut memory = MEMORY;
    let mut bits = bits_of::<O>(&memory);
    if let Ok(mut slice) = BitSliceMut::new(span_at::<O>(start, len), &mut memory) {
        if by <= slice.len() {
            move_bits(&mut slice, by, how);
        }
    }
    move_elements(&mut bits[start..start + len], by, how);
    bits_of::<O>(&memory) == bits
}

// Whether each move by any number of places does.
fn makes_moves<O: BitOrder<u8>>(start: usize, len: usize) -> bool
    requires { start + len ≤ 24 }
{
    for by in 0..len + 1 {
        for how in MOVES {
            if !moves::<O>(start, len, by, how) {
                return false;
            }
        }
    }
    true
}

// A memory of two words whose bits from a place on are those of a list, and whose others are ones.
// Index i has position 15 - i.
fn words_with(list: &[bool], start: usize) -> [u16; 2]
    requires { start + length list.now ≤ 32 }
{
    let mut words = [0xFFFF; 2];
    for i in 0..list.len() {
        if !list[i] {
            let place = start + i;
            words[place / 16] ^= 0x8000 >> (place % 16);
        }
    }
    words
}

// The span of `len` bits of two words from a place on.
fn wide_span_at(start: usize, len: usize) -> BitSpan<u16, Msb0> {
    let head = BitIdx::new_unchecked((start % 16) as u8);
    BitSpan::new((start / 16) as isize, head, len).unwrap_or_default()
}

// Whether a slice takes the bits of one of two words, and leaves every other bit as before.
fn copies<O: BitOrder<u8>>(start: usize, len: usize) -> bool
    requires { start + len ≤ 24 }
{
    let mut memory = MEMORY;
    let mut bits = bits_of::<O>(&memory);
    // The list of the source is the bits of the memory from its other end on.
    let list = &bits_of::<O>(&memory)[24 - len..];
    let from = start % 9;
    let words = words_with(list, from);
    let Some(source) = BitSlice::new(wide_span_at(from, len), &words) else {
        return false;
    };
    if let Ok(mut slice) = BitSliceMut::new(span_at::<O>(start, len), &mut memory) {
        if source.len() == slice.len() {
            slice.copy_from_bitslice(source);
        }
    }
    bits[start..start + len].copy_from_slice(list);
    bits_of::<O>(&memory) == bits
}

// Whether a slice equals that of two words.
fn equals<O: BitOrder<u8>>(start: usize, len: usize, words: &[u16; 2], from: usize) -> bool {
    let memory = MEMORY;
    let slice = BitSlice::new(span_at::<O>(start, len), &memory);
    let other = BitSlice::new(wide_span_at(from, len), words);
    match (slice, other) {
        (Some(slice), Some(other)) => slice.equals(&other) && other.equals(&slice),
        _ => false,
    }
}

// Whether a slice equals one of two words exactly where their lists are the same.
fn compares<O: BitOrder<u8>>(start: usize, len: usize) -> bool
    requires { start + len ≤ 24 }
{
    let mut bits = bits_of::<O>(&MEMORY);
    let from = start % 9;
    let words = words_with(&bits[start..start + len], from);
    if !equals::<O>(start, len, &words, from) {
        return false;
    }
    for i in start..start + len {
        bits[i] = !bits[i];
        let words = words_with(&bits[start..start + len], from);
        if equals::<O>(start, len, &words, from) {
            return false;
        }
        bits[i] = !bits[i];
    }
    true
}

// Whether every slice does as its list does.
fn each_slice<O: BitOrder<u8>>() -> bool {
    for start in 0..25 {
        for len in 0..25 - start {
            let moves = makes_moves::<O>(start, len);
            if !moves || !copies::<O>(start, len) || !compares::<O>(start, len) {
                return false;
            }
        }
    }
    true
}

#[test]
fn each_slice_is_moved_copied_and_compared(rt: HostRuntime) {
    assert!(rt; each_slice::<Lsb0>());
    assert!(rt; each_slice::<Msb0>());
    assert!(rt; each_slice::<Mix>());
}
