//! The number in each slice of three bytes, and one that is stored there, beside the list of its
//! bits.

ghost use Rattle.std.specs.Prelude.{◌+◌, ◌≤◌};

use crate::lists::{MEMORY, bits_of, span_at};
use bitvec::order::{Lsb0, Msb0};
use bitvec_slice::field::Sequential;
use bitvec_slice::slice::{BitSlice, BitSliceMut};

// The number of the bits from one place to before another: the digits of each word of eight bits,
// the first word's lowest, or highest.
fn number_of<O: Sequential<u8>>(bits: &[bool; 24], start: usize, end: usize, is_be: bool) -> u32 {
    let mut number = 0;
    for step in 0..24 {
        // From the highest digit of the highest word on.
        let (word, digit) = (step / 8, step % 8);
        let word = if is_be { word } else { 2 - word };
        let index = if O::RISES { 7 - digit } else { digit };
        let place = 8 * word + index;
        if start <= place && place < end {
            number = (number << 1) | u32::from(bits[place]);
        }
    }
    number
}

// The number whose two's complement has `len` digits, those of a number.
fn signed_of(number: u32, len: usize) -> i64
    requires { len ≤ 24 }
{
    let number = i64::from(number);
    if len == 0 || number < 1 << (len - 1) {
        number
    } else {
        number - (1 << len)
    }
}

// Whether a slice loads the numbers of its list.
fn loads<O: Sequential<u8>>(start: usize, len: usize) -> bool
    requires { start + len ≤ 24 }
{
    let memory = MEMORY;
    let bits = bits_of::<O>(&memory);
    let low = number_of::<O>(&bits, start, start + len, false);
    let high = number_of::<O>(&bits, start, start + len, true);
    match BitSlice::new(span_at::<O>(start, len), &memory) {
        Some(slice) if slice.len() <= 24 => {
            slice.load_le::<u32>() == low
                && slice.load_be::<u32>() == high
                && slice.load_signed_le::<i64>() == signed_of(low, len)
                && slice.load_signed_be::<i64>() == signed_of(high, len)
        }
        _ => false,
    }
}

/// A way to store a number.
#[derive(Clone, Copy)]
enum Store {
    Le,
    Be,
    SignedLe,
    SignedBe,
}

/// Each of them.
const STORES: [Store; 4] = [Store::Le, Store::Be, Store::SignedLe, Store::SignedBe];

/// A number of 32 digits, and the signed one that has the same.
const NUMBER: u32 = 0xA5B3_C96D;

const SIGNED: i32 = -0x5A4C_3693;

// Whether a slice that stores a number has the lowest digits of it, and every other bit is as
// before.
fn stores<O: Sequential<u8>>(start: usize, len: usize, how: Store) -> bool
    requires { start + len ≤ 24 }
{
    let mut memory = MEMORY;
    let bits = bits_of::<O>(&memory);
    if let Ok(mut slice) = BitSliceMut::new(span_at::<O>(start, len), &mut memory) {
        if slice.len() <= 24 {
            match how {
                Store::Le => slice.store_le(NUMBER),
                Store::Be => slice.store_be(NUMBER),
                Store::SignedLe => slice.store_signed_le(SIGNED),
                Store::SignedBe => slice.store_signed_be(SIGNED),
            }
        }
    }
    let is_be = matches!(how, Store::Be | Store::SignedBe);
    let (stored, end) = (bits_of::<O>(&memory), start + len);
    number_of::<O>(&stored, start, end, is_be) == NUMBER & ((1 << len) - 1)
        && stored[..start] == bits[..start]
        && stored[end..] == bits[end..]
}

// Whether every slice does as its list does.
fn each_slice<O: Sequential<u8>>() -> bool {
    for start in 0..25 {
        for len in 0..25 - start {
            let is_stored = STORES.iter().all(|how| stores::<O>(start, len, *how));
            if !loads::<O>(start, len) || !is_stored {
                return false;
            }
        }
    }
    true
}

#[test]
fn each_number_in_three_bytes(rt: HostRuntime) {
    assert!(rt; each_slice::<Lsb0>());
    assert!(rt; each_slice::<Msb0>());
}
