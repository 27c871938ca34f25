//! Set operators between two memories and inside one.

ghost use Rattle.std.specs.Prelude.{◌<◌, length};
ghost use Rattle.bitvec.specs.BitPtr.{ptr_of};
ghost use Rattle.bitvec.specs.Steps.{RangeIsIn};

use crate::timer::{Job, Mode, Name, tell, time};
use crate::words::{APART, Formula, bit, words};
use bitvec::order::{BitOrder, Lsb0, Msb0};
use bitvec::ptr::combine::{Combine, Or, Xor};
use bitvec::ptr::single::BitPtr;
use std::io;
use std::marker::PhantomData;

// An operator from one memory to another.
#[derive(Drop)]
struct Across<'a, C: Combine, O: BitOrder<u64>, O2: BitOrder<u64>> {
    source: &'a [u64],
    from: BitPtr<u64, O>,
    target: &'a mut [u64],
    to: BitPtr<u64, O2>,
    count: usize,
    of: PhantomData<C>,
}

impl<C: Combine, O: BitOrder<u64>, O2: BitOrder<u64>> Job for Across<'_, C, O, O2> {
    ghost ready = { λ s. RangeIsIn 64 (ptr_of s.from) (length s.source.now) s.count
        × RangeIsIn 64 (ptr_of s.to) (length s.target.now) s.count };

    #[inline(never)]
    fn go(&mut self) {
        self.from
            .combine_to::<C, u64, O2>(self.source, self.to, self.target, self.count);
    }
}

// An operator inside one memory.
#[derive(Drop)]
struct Within<'a, C: Combine, O: BitOrder<u64>> {
    memory: &'a mut [u64],
    from: BitPtr<u64, O>,
    to: BitPtr<u64, O>,
    count: usize,
    of: PhantomData<C>,
}

impl<C: Combine, O: BitOrder<u64>> Job for Within<'_, C, O> {
    ghost ready = { λ s. RangeIsIn 64 (ptr_of s.from) (length s.memory.now) s.count
        × RangeIsIn 64 (ptr_of s.to) (length s.memory.now) s.count };

    #[inline(never)]
    fn go(&mut self) {
        self.from
            .combine_within::<C>(self.memory, self.to, self.count);
    }
}

/// An operator on two bits by a formula, beside the library's.
trait Bits {
    /// The new bit of the target, of its own and of the source's.
    fn of(ours: bool, theirs: bool) -> bool;
}

impl Bits for Or {
    fn of(ours: bool, theirs: bool) -> bool {
        ours | theirs
    }
}

impl Bits for Xor {
    fn of(ours: bool, theirs: bool) -> bool {
        ours ^ theirs
    }
}

// From which place to which place an operator goes, and how many bits it takes.
#[derive(Clone, Copy)]
struct Ends {
    from: usize,
    to: usize,
    count: usize,
}

// Whether a memory was made of another by an operator, and no other bit changed: bit by bit.
fn is_combined<C: Bits, F: Formula, F2: Formula>(
    source: &[u64],
    before: &[u64],
    after: &[u64],
    ends: Ends,
) -> bool {
    (0..512 * 64).all(|place| {
        let ours = bit::<u64, F2>(before, place);
        let wanted = if place >= ends.to && place - ends.to < ends.count {
            let theirs = bit::<u64, F>(source, ends.from.saturating_add(place - ends.to));
            C::of(ours, theirs)
        } else {
            ours
        };
        bit::<u64, F2>(after, place) == wanted
    })
}

fn combine_across<C: Combine + Bits, O: BitOrder<u64> + Formula, O2: BitOrder<u64> + Formula>(
    rt: HostRuntime,
    mode: Mode,
    name: Name,
    ends: Ends,
    units: u32,
) -> io::Result<()>
    requires { 0 < units }
{
    let source = words(rt, mode.words())?;
    let before = words(rt, mode.words().saturating_add(APART))?;
    let mut room = words(rt, mode.words().saturating_add(APART))?;
    let apart = APART.min(room.len()).min(before.len());
    let (_, before) = before.split_at(apart);
    let (_, target) = room.split_at_mut(apart);
    let (from, to): (BitPtr<u64, O>, BitPtr<u64, O2>) = (
        BitPtr::at(ends.from),
        BitPtr::at(ends.to),
    );
    let count = ends.count;
    if !from.run_in(source.len(), count) || !to.run_in(target.len(), count) {
        return Ok(());
    }
    let mut job: Across<C, O, O2> = Across {
        source: &source,
        from,
        target,
        to,
        count,
        of: PhantomData,
    };
    if mode != Mode::Compare {
        return time(rt, name, units, &mut job);
    }
    job.go();
    let agrees = is_combined::<C, O, O2>(&source, before, job.target, ends);
    tell(rt, name, agrees)
}

fn combine_within<C: Combine + Bits, O: BitOrder<u64> + Formula>(
    rt: HostRuntime,
    mode: Mode,
    name: Name,
    ends: Ends,
) -> io::Result<()> {
    let before = words(rt, mode.words())?;
    let mut memory = words(rt, mode.words())?;
    let (from, to): (BitPtr<u64, O>, BitPtr<u64, O>) = (BitPtr::at(ends.from), BitPtr::at(ends.to));
    let count = ends.count;
    if !from.run_in(memory.len(), count) || !to.run_in(memory.len(), count) {
        return Ok(());
    }
    let mut job: Within<C, O> = Within {
        memory: &mut memory,
        from,
        to,
        count,
        of: PhantomData,
    };
    if mode != Mode::Compare {
        return time(rt, name, mode.units(), &mut job);
    }
    job.go();
    let agrees = is_combined::<C, O, O>(&before, &before, &memory, ends);
    tell(rt, name, agrees)
}

// The operators of one order.
fn one_order<O: BitOrder<u64> + Formula>(
    rt: HostRuntime,
    mode: Mode,
    group: &str,
) -> io::Result<()> {
    let name = |kind, unit| Name { group, kind, unit };
    let units = mode.units();
    let count = (mode.words() - 4) * 64;
    let (from, to) = (64, 64);
    let aligned = Ends { from, to, count };
    combine_across::<Or, O, O>(rt, mode, name("aligned", "word"), aligned, units)?;
    let (from, to) = (64 + 3, 64 + 14);
    let shifted = Ends { from, to, count };
    combine_across::<Or, O, O>(rt, mode, name("shifted", "word"), shifted, units)?;
    let few = Ends {
        count: 200,
        ..shifted
    };
    combine_across::<Or, O, O>(rt, mode, name("200-bits", "edit"), few, 1)?;
    let count = mode.words() * 64 - 3;
    let (from, to) = (0, 3);
    let within = Ends { from, to, count };
    combine_within::<Or, O>(rt, mode, name("within-shifted", "word"), within)
}

/// Each of the operators.
pub fn sets(rt: HostRuntime, mode: Mode) -> io::Result<()> {
    one_order::<Lsb0>(rt, mode, "or-lsb0-")?;
    one_order::<Msb0>(rt, mode, "or-msb0-")?;
    let name = Name {
        group: "xor-lsb0-",
        kind: "msb0",
        unit: "word",
    };
    let (from, to) = (64 + 3, 64 + 14);
    let count = (mode.words() - 4) * 64;
    let ends = Ends { from, to, count };
    combine_across::<Xor, Lsb0, Msb0>(rt, mode, name, ends, mode.units())
}
