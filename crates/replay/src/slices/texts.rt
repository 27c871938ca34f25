//! Slices as texts.

use bitvec::mem::BitRegister;
use bitvec::order::BitOrder;
use bitvec_slice::slice::{BitSlice, BitSliceMut, TextError};
use replay_lib::answer::Answer;
use std::fmt::{self, Display, Write as _};

// A slice as its `Binary` shows it, since a format takes that of numbers alone.
#[derive(Drop)]
struct AsBinary<'a, T>(&'a T);

impl<T: fmt::Binary> Display for AsBinary<'_, T> {
    fn fmt<W: fmt::Write>(&self, f: &mut fmt::Formatter<W>) -> fmt::Result {
        fmt::Binary::fmt(self.0, f)
    }
}

// Writes the digits of a slice, the same as `{:b}` has them, and its list.
pub(super) fn write_texts<R: BitRegister, O: BitOrder<R>>(
    out: &mut Answer,
    slice: &BitSlice<R, O>,
) {
    let binary = AsBinary(slice);
    let written = write!(out.text, "<{slice}> <{binary}> {slice:?}");
    out.note(written);
}

// Reads the bits of a slice from a text in angle brackets, and writes why it is refused and a space
// where it is; `None` where there are no such brackets.
pub(super) fn write_read<R: BitRegister, O: BitOrder<R>>(
    out: &mut Answer,
    slice: &mut BitSliceMut<R, O>,
    text: &str,
) -> Option<()> {
    let digits = text.strip_prefix('<')?.strip_suffix('>')?;
    match slice.copy_from_text(digits) {
        Ok(()) => {}
        Err(error) => write_refusal(out, error),
    }
    Some(())
}

// Writes why a text is refused, and a space.
fn write_refusal(out: &mut Answer, error: TextError) {
    let written = match error {
        TextError::NotADigit(at) => write!(out.text, "not_a_digit {at} "),
        TextError::OtherLength(digits) => write!(out.text, "other_length {digits} "),
    };
    out.note(written);
}
