//! A reversal and a rotation of the bits of a slice, under a rising and a falling order.

ghost use Rattle.std.specs.Prelude.{⊤};

use crate::timer::{Job, Mode, Name, tell, time};
use crate::words::{Formula, bit, words};
use bitvec::order::{BitOrder, Lsb0, Msb0};
use bitvec::ptr::span::BitSpan;
use bitvec_slice::slice::BitSliceMut;
use std::io;

// An edit of all bits of a slice.
#[derive(Clone, Copy)]
enum Edit {
    Reverse,
    RotateLeft(usize),
}

impl Edit {
    // Where the bit comes from that is bit `i` of `len` afterwards.
    fn source(self, i: usize, len: usize) -> usize {
        match self {
            Edit::Reverse => len.saturating_sub(1).saturating_sub(i),
            Edit::RotateLeft(by) if i < len.saturating_sub(by) => i.saturating_add(by),
            Edit::RotateLeft(by) => i.saturating_sub(len.saturating_sub(by)),
        }
    }
}

// A slice and its edit.
#[derive(Drop)]
struct Editing<'a, O: BitOrder<u64>> {
    slice: BitSliceMut<'a, u64, O>,
    edit: Edit,
}

impl<O: BitOrder<u64>> Job for Editing<'_, O> {
    ghost ready = { λ _. ⊤ };

    #[inline(never)]
    fn go(&mut self) {
        match self.edit {
            Edit::Reverse => self.slice.reverse(),
            Edit::RotateLeft(by) if by <= self.slice.len() => self.slice.rotate_left(by),
            Edit::RotateLeft(_) => {}
        }
    }
}

// Whether a memory is another but for `len` bits from place 3 on, which are edited: bit by bit.
fn is_edited<F: Formula>(before: &[u64], after: &[u64], len: usize, edit: Edit) -> bool {
    (0..before.len().saturating_mul(64)).all(|place| {
        let inside = place >= 3 && place - 3 < len;
        let source = if inside {
            edit.source(place - 3, len).saturating_add(3)
        } else {
            place
        };
        bit::<u64, F>(after, place) == bit::<u64, F>(before, source)
    })
}

// Edits all bits of a memory but the first three and the last four.
fn edit_most<O: BitOrder<u64> + Formula>(
    rt: HostRuntime,
    mode: Mode,
    name: Name,
    edit: Edit,
) -> io::Result<()> {
    let before = words(rt, mode.words())?;
    let mut memory = words(rt, mode.words())?;
    let len = mode.words() * 64 - 7;
    let span: Result<BitSpan<u64, O>, _> = BitSpan::at(3, len);
    let Ok(span) = span else {
        return Ok(());
    };
    if !span.fits(memory.len()) {
        return Ok(());
    }
    let slice = BitSliceMut::new_unchecked(span, &mut memory);
    let mut job = Editing { slice, edit };
    if mode != Mode::Compare {
        return time(rt, name, mode.units(), &mut job);
    }
    job.go();
    drop(job);
    tell(rt, name, is_edited::<O>(&before, &memory, len, edit))
}

fn one_order<O: BitOrder<u64> + Formula>(
    rt: HostRuntime,
    mode: Mode,
    kind: &str,
) -> io::Result<()> {
    let name = |group| Name {
        group,
        kind,
        unit: "word",
    };
    edit_most::<O>(rt, mode, name("reverse-"), Edit::Reverse)?;
    edit_most::<O>(rt, mode, name("rotate-left-"), Edit::RotateLeft(1000))
}

/// The reversal and the rotation.
pub fn edits(rt: HostRuntime, mode: Mode) -> io::Result<()> {
    one_order::<Lsb0>(rt, mode, "lsb0")?;
    one_order::<Msb0>(rt, mode, "msb0")
}
