//! What slices write.

use bitvec::mem::BitRegister;
use bitvec::order::BitOrder;
use bitvec_slice::slice::BitSliceMut;
use replay_lib::answer::Answer;
use replay_lib::values::{digit_value, named};

// A move of all bits of a slice by a number.
#[derive(Clone, Copy)]
pub(super) enum Move {
    RotateLeft,
    RotateRight,
    ShiftLeft,
    ShiftRight,
    CopyToFront,
    CopyToBack,
}

pub(super) const MOVES: [(&str, Move); 6] = [
    ("rotate_left", Move::RotateLeft),
    ("rotate_right", Move::RotateRight),
    ("shift_left", Move::ShiftLeft),
    ("shift_right", Move::ShiftRight),
    ("copy_to_front", Move::CopyToFront),
    ("copy_to_back", Move::CopyToBack),
];

// Another edit of a slice.
#[derive(Clone, Copy)]
enum Edit {
    Set,
    Swap,
    Fill,
    FillRange,
    CopyWithin,
    Reverse,
}

const EDITS: [(&str, Edit); 6] = [
    ("set", Edit::Set),
    ("swap", Edit::Swap),
    ("fill", Edit::Fill),
    ("fill_range", Edit::FillRange),
    ("copy_within", Edit::CopyWithin),
    ("reverse", Edit::Reverse),
];

// Edits a slice, and writes the bit before it and a space where the call gives that; `None` where
// there is no such edit.
pub(super) fn write_before<R: BitRegister, O: BitOrder<R>>(
    out: &mut Answer,
    slice: &mut BitSliceMut<R, O>,
    name: &str,
    n: [usize; 3],
) -> Option<()> {
    if let Some(by) = named(&MOVES, name) {
        return moved(slice, by, n[0]);
    }
    if name == "replace" {
        out.value(digit_value(replaced(slice, n[0], bit_of(n[1])?)?));
        out.push(" ");
        return Some(());
    }
    let edit = named(&EDITS, name)?;
    match edit {
        Edit::FillRange | Edit::CopyWithin => edited_between(slice, edit, n),
        _ => edited(slice, edit, n),
    }
}

// The bit that a number is.
fn bit_of(n: usize) -> Option<bool> {
    match n {
        0 => Some(false),
        1 => Some(true),
        _ => None,
    }
}

// Replaces a bit, and gives the bit before.
fn replaced<R: BitRegister, O: BitOrder<R>>(
    slice: &mut BitSliceMut<R, O>,
    i: usize,
    bit: bool,
) -> Option<bool> {
    if i < slice.len() {
        Some(slice.replace(i, bit))
    } else {
        None
    }
}

// Moves the bits of a slice by a number of places, which are at most as many.
pub(super) fn moved<R: BitRegister, O: BitOrder<R>>(
    slice: &mut BitSliceMut<R, O>,
    by: Move,
    n: usize,
) -> Option<()> {
    let len = slice.len();
    if n > len {
        return None;
    }
    match by {
        Move::RotateLeft => slice.rotate_left(n),
        Move::RotateRight => slice.rotate_right(n),
        Move::ShiftLeft => slice.shift_left(n),
        Move::ShiftRight => slice.shift_right(n),
        Move::CopyToFront => slice.copy_within(n..len, 0),
        Move::CopyToBack => slice.copy_within(0..len - n, n),
    }
    Some(())
}

// Edits single bits of a slice, or all.
fn edited<R: BitRegister, O: BitOrder<R>>(
    slice: &mut BitSliceMut<R, O>,
    edit: Edit,
    n: [usize; 3],
) -> Option<()> {
    let [i, with, _] = n;
    let len = slice.len();
    match edit {
        Edit::Set if i < len => slice.set(i, bit_of(with)?),
        Edit::Swap if i < len && with < len => slice.swap(i, with),
        Edit::Fill => slice.fill(bit_of(i)?),
        Edit::Reverse => slice.reverse(),
        _ => return None,
    }
    Some(())
}

// Edits the bits of a slice from one to before another.
fn edited_between<R: BitRegister, O: BitOrder<R>>(
    slice: &mut BitSliceMut<R, O>,
    edit: Edit,
    n: [usize; 3],
) -> Option<()> {
    let [from, to, with] = n;
    let len = slice.len();
    if from > to || to > len {
        return None;
    }
    match edit {
        Edit::FillRange => slice.fill_range(from, to, bit_of(with)?),
        Edit::CopyWithin if with <= len - (to - from) => slice.copy_within(from..to, with),
        _ => return None,
    }
    Some(())
}
