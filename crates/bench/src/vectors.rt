//! Vectors of bits that grow: bit by bit, by a list of truth values at once, by a slice that lies
//! otherwise in its words, and by a bit before all others.

ghost use Rattle.std.specs.Prelude.{⊤};

use crate::timer::{Job, Mode, Name, tell, time};
use crate::words::{bit, words};
use bitvec::order::Lsb0;
use bitvec::ptr::span::BitSpan;
use bitvec_slice::slice::BitSlice;
use bitvec_vec::vec::BitVec;
use std::alloc::AllocError;
use std::io;

// How a vector grows.
#[derive(Clone, Copy)]
enum Growth {
    // From nothing, by one bit after another.
    Push,
    // From nothing, by a list at once.
    Bools,
    // Behind three bits, by a slice.
    Extend,
    // By a bit before all others; the last is taken away again.
    Front,
}

// A vector, and what it grows by.
#[derive(Drop)]
struct Growing<'a> {
    vec: BitVec<u64, Lsb0>,
    list: &'a [bool],
    slice: BitSlice<'a, u64, Lsb0>,
    growth: Growth,
}

// Puts the bits of a list behind the others, one after another.
#[inline(never)]
fn push_all(vec: &mut BitVec<u64, Lsb0>, list: &[bool]) -> Result<(), AllocError> {
    for bit in list {
        vec.push(*bit)?;
    }
    Ok(())
}

impl Job for Growing<'_> {
    ghost ready = { λ _. ⊤ };

    #[inline(never)]
    fn go(&mut self) {
        let _ = match self.growth {
            Growth::Push => {
                self.vec.clear();
                push_all(&mut self.vec, self.list)
            }
            Growth::Bools => {
                self.vec.clear();
                self.vec.extend_from_bools(self.list)
            }
            Growth::Extend => {
                self.vec.truncate(3);
                self.vec.extend_from_bitslice(self.slice)
            }
            Growth::Front => {
                let done = self.vec.insert(0, true);
                self.vec.pop();
                done
            }
        };
    }
}

// Whether a vector has as many bits, each of them what a plain loop says: the first are ones, and
// behind them come those of a memory from a place on.
fn is_grown(
    vec: &BitVec<u64, Lsb0>,
    len: usize,
    ones: usize,
    memory: &[u64],
    place: usize,
) -> bool {
    vec.len() == len
        && vec.iter().enumerate().all(|(i, is_one)| {
            let wanted = i < ones
                || bit::<u64, Lsb0>(memory, i.saturating_sub(ones).saturating_add(place));
            is_one == wanted
        })
}

// A vector before its first growth.
fn begun(
    rt: HostRuntime,
    slice: BitSlice<'_, u64, Lsb0>,
    growth: Growth,
) -> Result<BitVec<u64, Lsb0>, AllocError> {
    match growth {
        Growth::Push | Growth::Bools => Ok(BitVec::new(rt.alloc())),
        Growth::Extend => BitVec::repeat(rt.alloc(), true, 3),
        Growth::Front => BitVec::from_bitslice(rt.alloc(), slice),
    }
}

// Lets a vector grow, and compares or times.
fn grow(rt: HostRuntime, mode: Mode, name: Name, growth: Growth) -> io::Result<()> {
    let memory = words(rt, mode.words())?;
    let len = mode.words() * 64 - 7;
    let span: BitSpan<u64, Lsb0> = BitSpan::at(5, len).unwrap();
    let Some(slice) = BitSlice::new(span, &memory) else {
        return Ok(());
    };
    let mut list = Vec::new(rt.alloc());
    for i in 0..mode.words() {
        list.push(bit::<u64, Lsb0>(&memory, i))?;
    }
    let vec = begun(rt, slice, growth)?;
    let mut job = Growing {
        vec,
        list: &list,
        slice,
        growth,
    };
    if mode != Mode::Compare {
        return time(rt, name, mode.units(), &mut job);
    }
    job.go();
    let agrees = match growth {
        Growth::Push | Growth::Bools => is_grown(&job.vec, mode.words(), 0, &memory, 0),
        Growth::Extend => is_grown(&job.vec, len + 3, 3, &memory, 5),
        Growth::Front => is_grown(&job.vec, len, 1, &memory, 5),
    };
    tell(rt, name, agrees)
}

/// Pushes, a list of truth values put behind, a slice put behind, and a bit put in front. Beside
/// `vec-push-bools` stands by hand a push of each value to std's `Vec<bool>`.
pub fn vectors(rt: HostRuntime, mode: Mode) -> io::Result<()> {
    let name = |kind, unit| Name {
        group: "vec-",
        kind,
        unit,
    };
    grow(rt, mode, name("push", "bit"), Growth::Push)?;
    grow(rt, mode, name("push-bools", "bit"), Growth::Bools)?;
    grow(rt, mode, name("extend-shifted", "word"), Growth::Extend)?;
    grow(rt, mode, name("insert-front", "word"), Growth::Front)
}
