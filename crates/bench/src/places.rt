//! Fields of 13 bits one behind the other, and bits and short copies at places in no order, under a
//! rising and a falling order.

ghost use Rattle.std.specs.Prelude.{⊤};

use crate::timer::{Job, Mode, Name, tell, time};
use crate::words::{Formula, bit, put, words};
use bitvec::order::{Lsb0, Msb0};
use bitvec::ptr::single::BitPtr;
use bitvec::ptr::span::BitSpan;
use bitvec_slice::field::Sequential;
use bitvec_slice::slice::{BitSlice, BitSliceMut};
use std::alloc::AllocError;
use std::io;

// What is done at each place.
#[derive(Clone, Copy)]
enum Act {
    // 13 bits are loaded as a number: little-endian under a rising order, big-endian under a
    // falling one.
    Load,
    // 13 bits are stored.
    Store,
    // A bit is read.
    Get,
    // A bit is written.
    Set,
    // Up to 64 bits are copied from another memory.
    Copy,
}

// The places in a memory at which something is done, and another memory of as many words.
#[derive(Drop)]
struct Acts<'a, 'b, O: Sequential<u64>> {
    span: BitSpan<u64, O>,
    memory: &'b mut [u64],
    other: &'a [u64],
    places: &'a [usize],
    act: Act,
    sum: u64,
}

// The number of a field of a memory, and 0 where it does not lie in it.
fn load<O: Sequential<u64>>(part: BitSpan<u64, O>, memory: &[u64]) -> u64 {
    match BitSlice::new(part, memory) {
        Some(field) if field.len() <= 64 => {
            if O::RISES {
                field.load_le()
            } else {
                field.load_be()
            }
        }
        _ => 0,
    }
}

// How many bits a copy to a place takes: 1 to 64.
fn length_at(place: usize) -> usize {
    (place ^ place >> 7) % 64 + 1
}

// Where it takes them from.
fn source_of(place: usize) -> usize {
    place ^ 0x2A5
}

// The sum of the fields at some places.
fn load_all<O: Sequential<u64>>(memory: &[u64], places: &[usize]) -> u64 {
    let mut sum: u64 = 0;
    for place in places {
        let part: Result<BitSpan<u64, O>, _> = BitSpan::at(*place, 13);
        if let Ok(part) = part {
            sum = sum.wrapping_add(load(part, memory));
        }
    }
    sum
}

// The sum of the bits at some places.
fn get_all<O: Sequential<u64>>(slice: &BitSlice<'_, u64, O>, places: &[usize]) -> u64 {
    let mut sum: u64 = 0;
    for place in places {
        sum = sum.wrapping_add(u64::from(slice.get(*place).unwrap_or(false)));
    }
    sum
}

// Stores a field at a place.
fn store<O: Sequential<u64>>(part: BitSpan<u64, O>, memory: &mut [u64], value: u64) {
    if !part.fits(memory.len()) || part.len() > 64 {
        return;
    }
    let mut slice = BitSliceMut::new_unchecked(part, memory);
    if O::RISES {
        slice.store_le(value);
    } else {
        slice.store_be(value);
    }
}

// Stores a field at each of some places.
fn store_all<O: Sequential<u64>>(memory: &mut [u64], places: &[usize]) {
    for place in places {
        let part: Result<BitSpan<u64, O>, _> = BitSpan::at(*place, 13);
        if let Ok(part) = part {
            store(part, memory, *place as u64);
        }
    }
}

// Writes a bit at each of some places.
fn set_all<O: Sequential<u64>>(slice: &mut BitSliceMut<'_, u64, O>, places: &[usize]) {
    for place in places {
        if *place < slice.len() {
            slice.set(*place, *place % 3 == 0);
        }
    }
}

// Copies some bits to each of some places.
fn copy_all<O: Sequential<u64>>(source: &[u64], memory: &mut [u64], places: &[usize]) {
    for place in places {
        let count = length_at(*place);
        let from: BitPtr<u64, O> = BitPtr::at(source_of(*place));
        let to: BitPtr<u64, O> = BitPtr::at(*place);
        if from.run_in(source.len(), count) && to.run_in(memory.len(), count) {
            from.copy_to(source, to, memory, count);
        }
    }
}

// What is loaded or read, or 0.
fn sum_all<O: Sequential<u64>>(
    span: BitSpan<u64, O>,
    memory: &[u64],
    places: &[usize],
    act: Act,
) -> u64 {
    match (BitSlice::new(span, memory), act) {
        (_, Act::Load) => load_all::<O>(memory, places),
        (Some(slice), Act::Get) => get_all(&slice, places),
        _ => 0,
    }
}

// What is stored, written or copied.
fn put_all<O: Sequential<u64>>(
    span: BitSpan<u64, O>,
    memory: &mut [u64],
    other: &[u64],
    places: &[usize],
    act: Act,
) {
    match act {
        Act::Store => store_all::<O>(memory, places),
        Act::Copy => copy_all::<O>(other, memory, places),
        Act::Set if span.fits(memory.len()) => {
            let mut slice = BitSliceMut::new_unchecked(span, memory);
            set_all(&mut slice, places);
        }
        _ => {}
    }
}

impl<O: Sequential<u64>> Job for Acts<'_, '_, O> {
    ghost ready = { λ _. ⊤ };

    #[inline(never)]
    fn go(&mut self) {
        let (span, other, places) = (self.span, self.other, self.places);
        let act = self.act;
        let memory = &mut *self.memory;
        put_all(span, memory, other, places, act);
        self.sum = sum_all(span, memory, places, act);
    }
}

// The sum of what is loaded or read, bit by bit.
fn plain_sum<F: Formula>(words: &[u64], places: &[usize], act: Act, rises: bool) -> u64 {
    let count: u32 = if let Act::Load = act { 13 } else { 1 };
    let mut sum: u64 = 0;
    for place in places {
        for j in 0..count {
            let up = if rises {
                j
            } else {
                count.saturating_sub(1 + j)
            };
            if bit::<u64, F>(words, place.saturating_add(j as usize)) {
                sum = sum.wrapping_add(1 << (up % 64));
            }
        }
    }
    sum
}

// What is stored, written or copied at one place, bit by bit.
fn plain_put<F: Formula>(words: &mut [u64], other: &[u64], place: usize, act: Act, rises: bool) {
    let count = match act {
        Act::Store => 13,
        Act::Set => 1,
        Act::Copy => length_at(place),
        _ => 0,
    };
    for j in 0..count {
        let is_one = match act {
            Act::Store => {
                let up = if rises { j } else { 12usize.saturating_sub(j) };
                place >> (up % 64) as u32 & 1 == 1
            }
            Act::Copy => bit::<u64, F>(other, source_of(place).saturating_add(j)),
            _ => place % 3 == 0,
        };
        put::<F>(words, place.saturating_add(j), is_one);
    }
}

// Places one behind the other at a distance of 13 bits, as many as words, or as many in no order.
fn places_of(rt: HostRuntime, mode: Mode, act: Act) -> Result<Vec<usize>, AllocError> {
    let mut places = Vec::new(rt.alloc());
    let many = mode.words() * 128 - 1024;
    for (n, word) in (0..mode.words()).zip(words(rt, mode.words())?) {
        places.push(match act {
            Act::Load | Act::Store => n.saturating_mul(13),
            _ => (word >> 20) as usize % many,
        })?;
    }
    Ok(places)
}

// Does it at all places, and compares or times.
fn act_at_all<O: Sequential<u64> + Formula>(
    rt: HostRuntime,
    mode: Mode,
    name: Name,
    act: Act,
) -> io::Result<()> {
    let count = mode.words() * 2;
    let mut before = words(rt, count)?;
    let mut memory = words(rt, count)?;
    let other = words(rt, count + 17)?;
    let places = places_of(rt, mode, act)?;
    let span: Result<BitSpan<u64, O>, _> = BitSpan::at(0, count * 64);
    let Ok(span) = span else {
        return Ok(());
    };
    let mut job = Acts {
        span,
        memory: &mut memory,
        other: &other,
        places: &places,
        act,
        sum: 0,
    };
    if mode != Mode::Compare {
        return time(rt, name, mode.units(), &mut job);
    }
    job.go();
    let sum = job.sum;
    if let Act::Load | Act::Get = act {
        return tell(
            rt,
            name,
            sum == plain_sum::<O>(&before, &places, act, O::RISES),
        );
    }
    for place in places.iter() {
        plain_put::<O>(&mut before, &other, *place, act, O::RISES);
    }
    tell(rt, name, before == memory)
}

fn one_order<O: Sequential<u64> + Formula>(
    rt: HostRuntime,
    mode: Mode,
    kind: &str,
) -> io::Result<()> {
    let name = |group, unit| Name { group, kind, unit };
    act_at_all::<O>(rt, mode, name("load-13-", "field"), Act::Load)?;
    act_at_all::<O>(rt, mode, name("store-13-", "field"), Act::Store)?;
    act_at_all::<O>(rt, mode, name("get-random-", "bit"), Act::Get)?;
    act_at_all::<O>(rt, mode, name("set-random-", "bit"), Act::Set)?;
    act_at_all::<O>(rt, mode, name("copy-short-", "copy"), Act::Copy)
}

/// Fields, bits and short copies.
pub fn all_acts(rt: HostRuntime, mode: Mode) -> io::Result<()> {
    one_order::<Lsb0>(rt, mode, "lsb0")?;
    one_order::<Msb0>(rt, mode, "msb0")
}
