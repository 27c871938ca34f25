//! Questions of slices.
//!
//! A slice that does not lie in its memory is `none`.

use bitvec::mem::BitRegister;
use bitvec::order::BitOrder;
use bitvec::ptr::span::BitSpan;
use bitvec_slice::slice::{BitSlice, BitSliceMut};
use replay_lib::answer::Answer;
use replay_lib::spans::span_at;
use replay_lib::values::{named, numbers};

mod edits;
mod pieces;
mod reads;
mod texts;

/// Writes the library's answer to a question; `None` where the words ask none.
pub fn write_answer<R: BitRegister, O: BitOrder<R>>(
    out: &mut Answer,
    words: &[&str],
) -> Option<()> {
    let [memory, start, len, name, details @ ..] = words else {
        return None;
    };
    match details {
        [each] if *each == "each" => {
            let span = span_at::<R, O>(start, len)?;
            write_moves(out, memory, span, named(&edits::MOVES, name)?)
        }
        _ => {
            let span = span_at::<R, O>(start, len)?;
            let mut memory = out.memory::<R>(memory)?;
            write_of_slice(out, span, &mut memory, name, details)
        }
    }
}

// Writes the answer to a question of one slice: what one for reading reads, or, with no such call,
// what one for writing does.
fn write_of_slice<R: BitRegister, O: BitOrder<R>>(
    out: &mut Answer,
    span: BitSpan<R, O>,
    memory: &mut [R],
    name: &str,
    details: &[&str],
) -> Option<()> {
    let Some(slice) = BitSlice::new(span, memory) else {
        out.push("none");
        return Some(());
    };
    if let Some(read) = named(&reads::READS, name) {
        out.value(reads::value_of(slice, read, numbers(details)?));
        return Some(());
    }
    if let Some(list) = named(&reads::LISTS, name) {
        return reads::write_list_of(out, slice, list, details);
    }
    if let Some(cut) = named(&pieces::CUTS, name) {
        return pieces::write_pieces(out, slice, cut, details);
    }
    if name == "reads" {
        reads::write_reads(out, slice);
        out.push(";");
    }
    let Ok(mut slice) = BitSliceMut::new(span, memory) else {
        return None;
    };
    match details {
        [] if name == "reads" => {
            reads::write_reads(out, slice.as_bitslice());
            return Some(());
        }
        [text] if name == "copy_from_text" => texts::write_read(out, &mut slice, text)?,
        _ => edits::write_before(out, &mut slice, name, numbers(details)?)?,
    }
    drop(slice);
    out.words(memory);
    Some(())
}

// Writes a memory after a move of a slice's bits by no place, after one by one place, and so on up
// to their number, each from the memory as it was.
fn write_moves<R: BitRegister, O: BitOrder<R>>(
    out: &mut Answer,
    memory: &str,
    span: BitSpan<R, O>,
    by: edits::Move,
) -> Option<()> {
    for n in 0..span.len().saturating_add(1) {
        let mut words = out.memory::<R>(memory)?;
        let Ok(mut slice) = BitSliceMut::new(span, &mut words) else {
            return None;
        };
        edits::moved(&mut slice, by, n)?;
        drop(slice);
        out.begin_item();
        out.words(&words);
    }
    Some(())
}
