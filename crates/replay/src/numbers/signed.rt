//! Questions of signed numbers in slices, and their answers in decimal.

use crate::numbers::End;
use bitvec::mem::BitRegister;
use bitvec_slice::field::{Sequential, SignedNumber};
use bitvec_slice::slice::{BitSlice, BitSliceMut};
use replay_lib::values::{Value, named};

const LOADS: [(&str, End); 2] = [
    ("load_signed_le", End::Little),
    ("load_signed_be", End::Big),
];

const STORES: [(&str, End); 2] = [
    ("store_signed_le", End::Little),
    ("store_signed_be", End::Big),
];

// The type of a number.
#[derive(Clone, Copy)]
enum Kind {
    I8,
    I16,
    I32,
    I64,
    Isize,
    I128,
}

const KINDS: [(&str, Kind); 6] = [
    ("i8", Kind::I8),
    ("i16", Kind::I16),
    ("i32", Kind::I32),
    ("i64", Kind::I64),
    ("isize", Kind::Isize),
    ("i128", Kind::I128),
];

// The signed number that a slice is as one of a type.
pub(super) fn value_of<R: BitRegister, O: Sequential<R>>(
    slice: BitSlice<R, O>,
    name: &str,
    kind: &str,
) -> Option<Value> {
    let end = named(&LOADS, name)?;
    let number = match named(&KINDS, kind)? {
        Kind::I8 => loaded_as::<R, O, i8>(slice, end)?,
        Kind::I16 => loaded_as::<R, O, i16>(slice, end)?,
        Kind::I32 => loaded_as::<R, O, i32>(slice, end)?,
        Kind::I64 => loaded_as::<R, O, i64>(slice, end)?,
        Kind::Isize => loaded_as::<R, O, isize>(slice, end)?,
        Kind::I128 => loaded_as::<R, O, i128>(slice, end)?,
    };
    Some(Value::Signed(number))
}

// The same for a type; `None` where the slice has more bits than it.
fn loaded_as<R: BitRegister, O: Sequential<R>, N: SignedNumber>(
    slice: BitSlice<R, O>,
    end: End,
) -> Option<i128> {
    if slice.len() > usize::from(N::BITS) {
        return None;
    }
    let number = match end {
        End::Little => slice.load_signed_le::<N>(),
        End::Big => slice.load_signed_be::<N>(),
    };
    Some(number.to_i128())
}

// Stores the signed number of a text; `None` where it is none of the type, or where there is no
// such call.
pub(super) fn stored_text<R: BitRegister, O: Sequential<R>>(
    slice: &mut BitSliceMut<R, O>,
    name: &str,
    kind: &str,
    value: &str,
) -> Option<()> {
    let end = named(&STORES, name)?;
    let value = value.parse::<i128>().ok()?;
    match named(&KINDS, kind)? {
        Kind::I8 => stored_as::<R, O, i8>(slice, end, value),
        Kind::I16 => stored_as::<R, O, i16>(slice, end, value),
        Kind::I32 => stored_as::<R, O, i32>(slice, end, value),
        Kind::I64 => stored_as::<R, O, i64>(slice, end, value),
        Kind::Isize => stored_as::<R, O, isize>(slice, end, value),
        Kind::I128 => stored_as::<R, O, i128>(slice, end, value),
    }
}

// The same for a type.
fn stored_as<R: BitRegister, O: Sequential<R>, N: SignedNumber>(
    slice: &mut BitSliceMut<R, O>,
    end: End,
    value: i128,
) -> Option<()> {
    let value = N::from_i128(value)?;
    if slice.len() > usize::from(N::BITS) {
        return None;
    }
    match end {
        End::Little => slice.store_signed_le(value),
        End::Big => slice.store_signed_be(value),
    }
    Some(())
}
