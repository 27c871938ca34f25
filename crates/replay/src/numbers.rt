//! Questions of numbers in slices, under `lsb0` and `msb0`.
//!
//! A slice that does not lie in its memory is `none`.

use bits_text::number::number;
use bitvec::mem::BitRegister;
use bitvec::order::{Lsb0, Msb0};
use bitvec_slice::field::Sequential;
use bitvec_slice::slice::{BitSlice, BitSliceMut};
use replay_lib::answer::Answer;
use replay_lib::spans::span_at;
use replay_lib::values::{Value, named};

mod signed;

// Which byte of a number comes first.
#[derive(Clone, Copy)]
enum End {
    Little,
    Big,
}

const LOADS: [(&str, End); 2] = [("load_le", End::Little), ("load_be", End::Big)];

const STORES: [(&str, End); 2] = [("store_le", End::Little), ("store_be", End::Big)];

// The type of a number.
#[derive(Clone, Copy)]
enum Kind {
    U8,
    U16,
    U32,
    U64,
    U128,
}

const KINDS: [(&str, Kind); 5] = [
    ("u8", Kind::U8),
    ("u16", Kind::U16),
    ("u32", Kind::U32),
    ("u64", Kind::U64),
    ("u128", Kind::U128),
];

/// Writes the library's answer to a question; `None` where the words ask none.
///
/// The calls are `load_le`, `load_be`, `store_le` and `store_be`, each with the type of the number,
/// and those of signed numbers, as `load_signed_le`.
pub fn write_answer(out: &mut Answer, words: &[&str]) -> Option<()> {
    let [order, register, details @ ..] = words else {
        return None;
    };
    match (*order, *register) {
        ("lsb0", "u8") => write_of::<u8, Lsb0>(out, details),
        ("lsb0", "u16") => write_of::<u16, Lsb0>(out, details),
        ("lsb0", "u32") => write_of::<u32, Lsb0>(out, details),
        ("lsb0", "u64") => write_of::<u64, Lsb0>(out, details),
        ("msb0", "u8") => write_of::<u8, Msb0>(out, details),
        ("msb0", "u16") => write_of::<u16, Msb0>(out, details),
        ("msb0", "u32") => write_of::<u32, Msb0>(out, details),
        ("msb0", "u64") => write_of::<u64, Msb0>(out, details),
        _ => None,
    }
}

// The same for a register and an order.
fn write_of<R: BitRegister, O: Sequential<R>>(out: &mut Answer, words: &[&str]) -> Option<()> {
    let [memory, start, len, name, kind, details @ ..] = words else {
        return None;
    };
    let span = span_at::<R, O>(start, len)?;
    let mut memory = out.memory::<R>(memory)?;
    let Ok(mut slice) = BitSliceMut::new(span, &mut memory) else {
        out.push("none");
        return Some(());
    };
    match details {
        [] => out.value(value_of(slice.as_bitslice(), name, kind)?),
        [value] => {
            stored_text(&mut slice, name, kind, value)?;
            drop(slice);
            out.words(&memory);
        }
        _ => return None,
    }
    Some(())
}

// The number that a slice is as one of a type.
fn value_of<R: BitRegister, O: Sequential<R>>(
    slice: BitSlice<R, O>,
    name: &str,
    kind: &str,
) -> Option<Value> {
    match named(&KINDS, kind) {
        Some(kind) => Some(Value::Word(loaded(slice, named(&LOADS, name)?, kind)?)),
        None => signed::value_of(slice, name, kind),
    }
}

// The same for a type that is unsigned.
fn loaded<R: BitRegister, O: Sequential<R>>(
    slice: BitSlice<R, O>,
    end: End,
    kind: Kind,
) -> Option<u128> {
    match kind {
        Kind::U8 => loaded_as::<R, O, u8>(slice, end),
        Kind::U16 => loaded_as::<R, O, u16>(slice, end),
        Kind::U32 => loaded_as::<R, O, u32>(slice, end),
        Kind::U64 => loaded_as::<R, O, u64>(slice, end),
        Kind::U128 => loaded_as::<R, O, u128>(slice, end),
    }
}

// The number of a type; `None` where the slice has more bits than it.
fn loaded_as<R: BitRegister, O: Sequential<R>, N: BitRegister>(
    slice: BitSlice<R, O>,
    end: End,
) -> Option<u128> {
    if slice.len() > usize::from(N::BITS) {
        return None;
    }
    let number = match end {
        End::Little => slice.load_le::<N>(),
        End::Big => slice.load_be::<N>(),
    };
    Some(number.to_u128())
}

// Stores the number of a text; `None` where it is none of the type, or where there is no such call.
fn stored_text<R: BitRegister, O: Sequential<R>>(
    slice: &mut BitSliceMut<R, O>,
    name: &str,
    kind: &str,
    value: &str,
) -> Option<()> {
    match named(&KINDS, kind) {
        Some(kind) => {
            stored(
                slice,
                named(&STORES, name)?,
                kind,
                number(value, 16, u128::MAX)?,
            )
        }
        None => signed::stored_text(slice, name, kind, value),
    }
}

// Stores a number of a type.
fn stored<R: BitRegister, O: Sequential<R>>(
    slice: &mut BitSliceMut<R, O>,
    end: End,
    kind: Kind,
    value: u128,
) -> Option<()> {
    match kind {
        Kind::U8 => stored_as::<R, O, u8>(slice, end, value),
        Kind::U16 => stored_as::<R, O, u16>(slice, end, value),
        Kind::U32 => stored_as::<R, O, u32>(slice, end, value),
        Kind::U64 => stored_as::<R, O, u64>(slice, end, value),
        Kind::U128 => stored_as::<R, O, u128>(slice, end, value),
    }
}

// The same for a type.
fn stored_as<R: BitRegister, O: Sequential<R>, N: BitRegister>(
    slice: &mut BitSliceMut<R, O>,
    end: End,
    value: u128,
) -> Option<()> {
    let value = N::from_u128(value)?;
    if slice.len() > usize::from(N::BITS) {
        return None;
    }
    match end {
        End::Little => slice.store_le(value),
        End::Big => slice.store_be(value),
    }
    Some(())
}
