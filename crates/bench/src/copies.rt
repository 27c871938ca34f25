//! Copies between two memories and inside one.

ghost use Rattle.std.specs.Prelude.{◌<◌, length};
ghost use Rattle.bitvec.specs.BitPtr.{ptr_of};
ghost use Rattle.bitvec.specs.Steps.{RangeIsIn};

use crate::timer::{Job, Mode, Name, tell, time};
use crate::words::{Formula, bytes, is_copied, words, words_of};
use bits_text::hilo::HiLo;
use bitvec::index::{BitIdx, Limits};
use bitvec::mem::BitRegister;
use bitvec::order::{BitOrder, Lsb0, Msb0};
use bitvec::ptr::single::BitPtr;
use std::io;

// A copy from one memory to another.
#[derive(Drop)]
struct Across<'a, R: BitRegister, O: BitOrder<R>, R2: BitRegister, O2: BitOrder<R2>> {
    source: &'a [R],
    from: BitPtr<R, O>,
    target: &'a mut [R2],
    to: BitPtr<R2, O2>,
    count: usize,
}

impl<R: BitRegister, O: BitOrder<R>, R2: BitRegister, O2: BitOrder<R2>> Job
    for Across<'_, R, O, R2, O2> {
    ghost ready = { λ s. RangeIsIn R.BITS (ptr_of s.from) (length s.source.now) s.count
        × RangeIsIn R2.BITS (ptr_of s.to) (length s.target.now) s.count };

    #[inline(never)]
    fn go(&mut self) {
        self.from
            .copy_to(self.source, self.to, self.target, self.count);
    }
}

// A copy inside one memory.
#[derive(Drop)]
struct Within<'a, O: BitOrder<u64>> {
    memory: &'a mut [u64],
    from: BitPtr<u64, O>,
    to: BitPtr<u64, O>,
    count: usize,
}

impl<O: BitOrder<u64>> Job for Within<'_, O> {
    ghost ready = { λ s. RangeIsIn 64 (ptr_of s.from) (length s.memory.now) s.count
        × RangeIsIn 64 (ptr_of s.to) (length s.memory.now) s.count };

    #[inline(never)]
    fn go(&mut self) {
        self.from.copy_within(self.memory, self.to, self.count);
    }
}

// The place of a bit.
#[derive(Clone, Copy)]
struct Place {
    word: u8,
    bit: u8,
}

impl Place {
    fn pointer<R: BitRegister, O>(self) -> BitPtr<R, O> {
        let bit = BitIdx::new(self.bit).unwrap_or(BitIdx::MIN);
        BitPtr::new(isize::from(self.word), bit)
    }

    // The place as a number, in a memory of words of `width` bits.
    fn number(self, width: u8) -> usize {
        let words = usize::from(self.word).saturating_mul(usize::from(width));
        words.saturating_add(usize::from(self.bit))
    }
}

// From where to where a copy goes, and how many bits it takes.
#[derive(Clone, Copy)]
struct Ends {
    from: Place,
    to: Place,
    count: usize,
}

// How many words of 64 bits `count` bits fill, where they are more than a few.
fn units(count: usize) -> u32
    ensures { 0 < result }
{
    u32::try_from(count / 64).unwrap_or(1).max(1)
}

fn copy_across<
    R: BitRegister,
    O: BitOrder<R> + Formula,
    R2: BitRegister,
    O2: BitOrder<R2> + Formula,
>(rt: HostRuntime, mode: Mode, name: Name, source: &[R], ends: Ends, units: u32) -> io::Result<()>
    requires { 0 < units }
{
    let from: BitPtr<R, O> = ends.from.pointer();
    let to: BitPtr<R2, O2> = ends.to.pointer();
    let count = ends.count;
    let before: Vec<R2> = words_of(rt, mode.words())?;
    let mut target: Vec<R2> = words_of(rt, mode.words())?;
    if !from.run_in(source.len(), count) || !to.run_in(target.len(), count) {
        return Ok(());
    }
    let mut job: Across<R, O, R2, O2> = Across {
        source,
        from,
        target: &mut target,
        to,
        count,
    };
    if mode != Mode::Compare {
        return time(rt, name, units, &mut job);
    }
    job.go();
    let (start, end) = (ends.from.number(R::BITS), ends.to.number(R2::BITS));
    let agrees = is_copied::<R, O, R2, O2>(source, start, &before, &target, end, count);
    tell(rt, name, agrees)
}

fn copy_within<O: BitOrder<u64> + Formula>(
    rt: HostRuntime,
    mode: Mode,
    name: Name,
    ends: Ends,
) -> io::Result<()> {
    let from: BitPtr<u64, O> = ends.from.pointer();
    let to: BitPtr<u64, O> = ends.to.pointer();
    let count = ends.count;
    let before = words(rt, mode.words())?;
    let mut memory = words(rt, mode.words())?;
    if !from.run_in(memory.len(), count) || !to.run_in(memory.len(), count) {
        return Ok(());
    }
    let mut job: Within<O> = Within {
        memory: &mut memory,
        from,
        to,
        count,
    };
    if mode != Mode::Compare {
        return time(rt, name, units(count), &mut job);
    }
    job.go();
    let (start, end) = (ends.from.number(64), ends.to.number(64));
    let agrees = is_copied::<u64, O, u64, O>(&before, start, &before, &memory, end, count);
    tell(rt, name, agrees)
}

const FRONT: Place = Place { word: 1, bit: 0 };

const LOW: Place = Place { word: 1, bit: 3 };

const NEAR: Place = Place { word: 1, bit: 14 };

const HIGH: Place = Place { word: 3, bit: 14 };

fn one_order<O: BitOrder<u64> + Formula>(
    rt: HostRuntime,
    mode: Mode,
    group: &str,
    source: &[u64],
) -> io::Result<()> {
    let count = (mode.words() - 4) * 64;
    let units = units(count);
    let ends = |from: Place, to: Place| Ends { from, to, count };
    let name = Name {
        group,
        kind: "aligned",
        unit: "word",
    };
    copy_across::<u64, O, u64, O>(rt, mode, name, source, ends(FRONT, FRONT), units)?;
    let name = Name {
        group,
        kind: "shifted",
        unit: "word",
    };
    copy_across::<u64, O, u64, O>(rt, mode, name, source, ends(LOW, NEAR), units)?;
    let name = Name {
        group,
        kind: "down",
        unit: "word",
    };
    copy_within::<O>(rt, mode, name, ends(HIGH, LOW))?;
    let name = Name {
        group,
        kind: "up",
        unit: "word",
    };
    copy_within::<O>(rt, mode, name, ends(LOW, HIGH))
}

/// Each of the copies.
pub fn copies(rt: HostRuntime, mode: Mode) -> io::Result<()> {
    let source = words(rt, mode.words())?;
    one_order::<Lsb0>(rt, mode, "copy-lsb0-", &source)?;
    one_order::<Msb0>(rt, mode, "copy-msb0-", &source)?;
    let (from, to) = (LOW, NEAR);
    let name = Name {
        group: "copy-lsb0-",
        kind: "shifted-200-bits",
        unit: "copy",
    };
    let count = 200;
    copy_across::<u64, Lsb0, u64, Lsb0>(rt, mode, name, &source, Ends { from, to, count }, 1)?;
    let name = Name {
        group: "copy-u8-",
        kind: "u64",
        unit: "word",
    };
    let count = (mode.words() - 4) * 8;
    let bytes = bytes(rt, mode.words())?;
    copy_across::<u8, Lsb0, u64, Lsb0>(
        rt,
        mode,
        name,
        &bytes,
        Ends { from, to, count },
        units(count),
    )?;
    let count = (mode.words() - 4) * 64;
    let name = Name {
        group: "copy-lsb0-",
        kind: "msb0",
        unit: "word",
    };
    copy_across::<u64, Lsb0, u64, Msb0>(
        rt,
        mode,
        name,
        &source,
        Ends { from, to, count },
        units(count),
    )?;
    let name = Name {
        group: "copy-hilo-",
        kind: "shifted",
        unit: "word",
    };
    copy_across::<u64, HiLo, u64, HiLo>(
        rt,
        mode,
        name,
        &source,
        Ends { from, to, count },
        units(count),
    )?;
    wide_copies(rt, mode, &source)
}

// Copies of words of 128 bits, and from them and to them.
fn wide_copies(rt: HostRuntime, mode: Mode, source: &[u64]) -> io::Result<()> {
    let wide: Vec<u128> = words_of(rt, mode.words())?;
    let count = (mode.words() - 4) * 64;
    let units = units(count);
    let (from, to) = (LOW, NEAR);
    let ends = Ends { from, to, count };
    let group = "copy-u128-";
    let name = Name {
        group,
        kind: "shifted",
        unit: "word",
    };
    copy_across::<u128, Lsb0, u128, Lsb0>(rt, mode, name, &wide, ends, units)?;
    let name = Name {
        group,
        kind: "u64",
        unit: "word",
    };
    copy_across::<u128, Lsb0, u64, Lsb0>(rt, mode, name, &wide, ends, units)?;
    let name = Name {
        group: "copy-u64-",
        kind: "u128",
        unit: "word",
    };
    copy_across::<u64, Lsb0, u128, Lsb0>(rt, mode, name, source, ends, units)
}
