//! Reads, fills, reversals and swaps of each slice of three bytes under orders that rise, that fall
//! and that are a table, beside the list of its bits.

ghost use Rattle.std.specs.Prelude.{◌+◌, ◌≤◌};
ghost use Rattle.tests_slice.specs.Orders.{mixed_position, mixed_one_to_one};

use bitvec::index::BitIdx;
use bitvec::order::{BitOrder, ByPosition, Lsb0, Msb0, OneToOne, Positions};
use bitvec::ptr::span::BitSpan;
use bitvec_slice::slice::{BitSlice, BitSliceMut};

/// The positions of a byte by a table.
pub struct Mixed;

impl Positions<u8> for Mixed {
    ghost at_of = { mixed_position };

    fn position(index: u8) -> u8 {
        [6, 3, 0, 5, 2, 7, 4, 1][usize::from(index)]
    }
}

impl OneToOne<u8> for Mixed {
    ghost one_to_one = { mixed_one_to_one };
}

/// The order of these positions, for bytes alone.
pub type Mix = ByPosition<Mixed>;

/// Three bytes.
pub const MEMORY: [u8; 3] = [0x5C, 0x00, 0xF3];

/// The bits of a memory, each by the position of its index.
pub fn bits_of<O: BitOrder<u8>>(memory: &[u8; 3]) -> [bool; 24] {
    let mut bits = [false; 24];
    for place in 0..24 {
        let index = BitIdx::new_unchecked((place % 8) as u8);
        let position = O::at(index).into_inner();
        bits[place] = (memory[place / 8] >> position) & 1 == 1;
    }
    bits
}

/// The span of `len` bits from a place on.
pub fn span_at<O>(start: usize, len: usize) -> BitSpan<u8, O> {
    let head = BitIdx::new_unchecked((start % 8) as u8);
    BitSpan::new((start / 8) as isize, head, len).unwrap_or_default()
}

// How many bits of a list are the same as `bit`.
fn count(list: &[bool], bit: bool) -> usize {
    list.iter().filter(|b| **b == bit).count()
}

// Whether a slice shows a list, by each call that reads.
fn shows<O: BitOrder<u8>>(slice: BitSlice<'_, u8, O>, list: &[bool]) -> bool {
    let same = list
        .iter()
        .enumerate()
        .all(|(i, bit)| slice.get(i) == Some(*bit));
    let first = list.iter().position(|bit| *bit);
    let first_zero = list.iter().position(|bit| !*bit);
    same && slice.len() == list.len()
        && slice.get(list.len()).is_none()
        && slice.count_ones() == count(list, true)
        && slice.count_zeros() == count(list, false)
        && slice.first_one() == first
        && slice.first_zero() == first_zero
        && slice.any() == first.is_some()
        && slice.all_ones() == first_zero.is_none()
}

// Whether a slice shows where the last one and the last zero of a list are, and each of its ones
// and zeros from both ends.
fn finds<O: BitOrder<u8>>(slice: BitSlice<'_, u8, O>, list: &[bool]) -> bool {
    let (mut ones, mut zeros) = (slice.iter_ones(), slice.iter_zeros());
    let is_in_order = list.iter().enumerate().all(|(i, bit)| {
        let next = if *bit { ones.next() } else { zeros.next() };
        next == Some(i)
    });
    let (mut ones, mut zeros) = (slice.iter_ones(), slice.iter_zeros());
    let is_in_order_back = list.iter().enumerate().rev().all(|(i, bit)| {
        let next = if *bit {
            ones.next_back()
        } else {
            zeros.next_back()
        };
        next == Some(i)
    });
    is_in_order
        && is_in_order_back
        && slice.last_one() == list.iter().rposition(|bit| *bit)
        && slice.last_zero() == list.iter().rposition(|bit| !*bit)
}

// Whether a slice shows how many zeros and ones begin and end a list.
fn shows_ends<O: BitOrder<u8>>(slice: BitSlice<'_, u8, O>, list: &[bool]) -> bool {
    let all = list.len();
    let zeros = list.iter().position(|bit| *bit).unwrap_or(all);
    let ones = list.iter().position(|bit| !*bit).unwrap_or(all);
    let zeros_back = list.iter().rev().position(|bit| *bit).unwrap_or(all);
    let ones_back = list.iter().rev().position(|bit| !*bit).unwrap_or(all);
    slice.leading_zeros() == zeros
        && slice.leading_ones() == ones
        && slice.trailing_zeros() == zeros_back
        && slice.trailing_ones() == ones_back
}

// Whether the bits of a slice, taken from the front and the back by turns, are those of a list.
fn takes_turns<O: BitOrder<u8>>(slice: BitSlice<'_, u8, O>, list: &[bool]) -> bool {
    let (mut ours, mut theirs) = (slice.iter(), list.iter());
    for i in 0..list.len() + 1 {
        let (bit, element) = if i % 2 == 0 {
            (ours.next(), theirs.next())
        } else {
            (ours.next_back(), theirs.next_back())
        };
        if bit != element.copied() {
            return false;
        }
    }
    true
}

// Whether a list begins with `count` zeros.
fn is_row(list: &[bool], count: usize) -> bool {
    match list.get(..count) {
        Some(row) => row.iter().all(|bit| !*bit),
        None => false,
    }
}

// Whether a slice shows where a number of zeros stand in a row in a list, for each number to 9.
fn finds_rows<O: BitOrder<u8>>(slice: BitSlice<'_, u8, O>, list: &[bool]) -> bool {
    for count in 0..10 {
        let place = (0..list.len() + 1).find(|i| match list.get(*i..) {
            Some(rest) => is_row(rest, count),
            None => false,
        });
        if slice.find_zeros(count) != place {
            return false;
        }
    }
    true
}

// Whether a slice shows the bits of its span, as a slice for reading and as one for writing.
fn reads<O: BitOrder<u8>>(start: usize, len: usize) -> bool
    requires { start + len ≤ 24 }
{
    let mut memory = MEMORY;
    let bits = bits_of::<O>(&memory);
    let list = &bits[start..start + len];
    let Some(slice) = BitSlice::new(span_at::<O>(start, len), &memory) else {
        return false;
    };
    if !shows(slice, list) || !shows_ends(slice, list) || !takes_turns(slice, list) {
        return false;
    }
    if !finds(slice, list) || !finds_rows(slice, list) {
        return false;
    }
    let Ok(slice) = BitSliceMut::new(span_at::<O>(start, len), &mut memory) else {
        return false;
    };
    shows(slice.as_bitslice(), list)
}

// Whether a slice that is turned round leaves its list so, and every other bit as before.
fn reverses<O: BitOrder<u8>>(start: usize, len: usize) -> bool
    requires { start + len ≤ 24 }
{
    let mut memory = MEMORY;
    let mut bits = bits_of::<O>(&memory);
    if let Ok(mut slice) = BitSliceMut::new(span_at::<O>(start, len), &mut memory) {
        slice.reverse();
    }
    bits[start..start + len].reverse();
    bits_of::<O>(&memory) == bits
}

// The same of a fill of all bits but the first and the last third.
fn fills<O: BitOrder<u8>>(start: usize, len: usize) -> bool
    requires { start + len ≤ 24 }
{
    let mut memory = MEMORY;
    let mut bits = bits_of::<O>(&memory);
    if let Ok(mut slice) = BitSliceMut::new(span_at::<O>(start, len), &mut memory) {
        let third = slice.len() / 3;
        slice.fill_range(third, slice.len() - third, true);
    }
    bits[start..start + len][len / 3..len - len / 3].fill(true);
    bits_of::<O>(&memory) == bits
}

// The same of bits that change places.
fn swaps<O: BitOrder<u8>>(start: usize, len: usize) -> bool
    requires { start + len ≤ 24 }
{
    if len == 0 {
        return true;
    }
    let mut memory = MEMORY;
    let mut bits = bits_of::<O>(&memory);
    if let Ok(mut slice) = BitSliceMut::new(span_at::<O>(start, len), &mut memory) {
        let count = slice.len();
        if 0 < count {
            slice.swap(count / 2, count - 1);
        }
    }
    bits[start..start + len].swap(len / 2, len - 1);
    bits_of::<O>(&memory) == bits
}

// Whether every slice does as its list does.
fn each_slice<O: BitOrder<u8>>() -> bool {
    for start in 0..25 {
        for len in 0..25 - start {
            let is_read = reads::<O>(start, len) && reverses::<O>(start, len);
            if !is_read || !fills::<O>(start, len) || !swaps::<O>(start, len) {
                return false;
            }
        }
    }
    true
}

#[test]
fn each_slice_of_three_bytes(rt: HostRuntime) {
    assert!(rt; each_slice::<Lsb0>());
    assert!(rt; each_slice::<Msb0>());
    assert!(rt; each_slice::<Mix>());
}
