//! The pieces of slices.

use crate::slices::reads::{is_front, write_list};
use bitvec::mem::BitRegister;
use bitvec::order::BitOrder;
use bitvec_slice::slice::{BitSlice, Chunks, ChunksExact, RChunks, Windows};
use replay_lib::answer::Answer;
use replay_lib::values::count_of;

// A way to cut a slice into pieces of a length.
#[derive(Clone, Copy)]
pub(super) enum Cut {
    Chunks,
    ChunksExact,
    RChunks,
    Windows,
}

pub(super) const CUTS: [(&str, Cut); 4] = [
    ("chunks", Cut::Chunks),
    ("chunks_exact", Cut::ChunksExact),
    ("rchunks", Cut::RChunks),
    ("windows", Cut::Windows),
];

// What goes over the pieces of a slice.
#[derive(Drop)]
enum Pieces<'a, R: BitRegister, O: BitOrder<R>> {
    Chunks(Chunks<'a, R, O>),
    ChunksExact(ChunksExact<'a, R, O>),
    RChunks(RChunks<'a, R, O>),
    Windows(Windows<'a, R, O>),
}

// The pieces of a slice, each of a length that is not zero.
fn pieces_of<'a, R: BitRegister, O: BitOrder<R>>(
    slice: BitSlice<'a, R, O>,
    cut: Cut,
    n: usize,
) -> Option<Pieces<'a, R, O>> {
    if n == 0 {
        return None;
    }
    match cut {
        Cut::Chunks => Some(Pieces::Chunks(slice.chunks(n))),
        Cut::ChunksExact => Some(Pieces::ChunksExact(slice.chunks_exact(n))),
        Cut::RChunks => Some(Pieces::RChunks(slice.rchunks(n))),
        Cut::Windows => Some(Pieces::Windows(slice.windows(n))),
    }
}

// The next piece from the front, or from the back.
fn next_piece<'a, R: BitRegister, O: BitOrder<R>>(
    pieces: &mut Pieces<'a, R, O>,
    is_front: bool,
) -> Option<BitSlice<'a, R, O>> {
    match (pieces, is_front) {
        (Pieces::Chunks(pieces), true) => pieces.next(),
        (Pieces::Chunks(pieces), false) => pieces.next_back(),
        (Pieces::ChunksExact(pieces), true) => pieces.next(),
        (Pieces::ChunksExact(pieces), false) => pieces.next_back(),
        (Pieces::RChunks(pieces), true) => pieces.next(),
        (Pieces::RChunks(pieces), false) => pieces.next_back(),
        (Pieces::Windows(pieces), true) => pieces.next(),
        (Pieces::Windows(pieces), false) => pieces.next_back(),
    }
}

// Writes a piece for each letter of a pattern, `f` from the front and `b` from the back, or `-`
// where none is left.
pub(super) fn write_pieces<R: BitRegister, O: BitOrder<R>>(
    out: &mut Answer,
    slice: BitSlice<R, O>,
    cut: Cut,
    details: &[&str],
) -> Option<()> {
    let [n, pattern] = details else {
        return None;
    };
    let mut pieces = pieces_of(slice, cut, count_of(n)?)?;
    for letter in pattern.chars() {
        out.begin_item();
        match next_piece(&mut pieces, is_front(letter)?) {
            Some(piece) => write_list(out, piece),
            None => out.push("-"),
        }
    }
    Some(())
}
