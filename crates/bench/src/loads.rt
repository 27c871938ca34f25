//! Fields of 13 bits of a memory of bytes, one behind the other, under a rising and a falling
//! order.

ghost use Rattle.std.specs.Prelude.{⊤};

use crate::timer::{Job, Mode, Name, tell, time};
use crate::words::{Formula, bit, bytes};
use bitvec::order::{Lsb0, Msb0};
use bitvec::ptr::span::BitSpan;
use bitvec_slice::field::Sequential;
use bitvec_slice::slice::BitSlice;
use std::io;
use std::marker::PhantomData;

// So many fields of bytes, and the sum of their numbers.
#[derive(Drop)]
struct Fields<'a, O: Sequential<u8>> {
    memory: &'a [u8],
    fields: usize,
    sum: u64,
    of: PhantomData<O>,
}

// The number of a field, little-endian under a rising order and big-endian under a falling one, and
// 0 where it does not lie in the bytes.
fn load<O: Sequential<u8>>(memory: &[u8], place: usize) -> u64 {
    let part: Result<BitSpan<u8, O>, _> = BitSpan::at(place, 13);
    let Ok(part) = part else {
        return 0;
    };
    match BitSlice::new(part, memory) {
        Some(field) if field.len() <= 64 => {
            if O::RISES {
                field.load_le()
            } else {
                field.load_be()
            }
        }
        _ => 0,
    }
}

impl<O: Sequential<u8>> Job for Fields<'_, O> {
    ghost ready = { λ _. ⊤ };

    #[inline(never)]
    fn go(&mut self) {
        let mut sum: u64 = 0;
        for n in 0..self.fields {
            sum = sum.wrapping_add(load::<O>(self.memory, n.wrapping_mul(13)));
        }
        self.sum = sum;
    }
}

// The sum of the fields, bit by bit.
fn plain_sum<F: Formula>(memory: &[u8], fields: usize, rises: bool) -> u64 {
    let mut sum: u64 = 0;
    for n in 0..fields {
        for j in 0..13u32 {
            let up = if rises { j } else { 12u32.saturating_sub(j) };
            let place = n.saturating_mul(13).saturating_add(j as usize);
            if bit::<u8, F>(memory, place) {
                sum = sum.wrapping_add(1 << (up % 64));
            }
        }
    }
    sum
}

// Loads all fields, and compares or times.
fn load_all<O: Sequential<u8> + Formula>(
    rt: HostRuntime,
    mode: Mode,
    kind: &str,
) -> io::Result<()> {
    let memory = bytes(rt, mode.words() * 8)?;
    let fields = mode.words();
    let name = Name {
        group: "load-13-u8-",
        kind,
        unit: "field",
    };
    let mut job: Fields<O> = Fields {
        memory: &memory,
        fields,
        sum: 0,
        of: PhantomData,
    };
    if mode != Mode::Compare {
        return time(rt, name, mode.units(), &mut job);
    }
    job.go();
    let sum = plain_sum::<O>(&memory, fields, O::RISES);
    tell(rt, name, job.sum == sum)
}

/// The loads of both orders.
pub fn loads(rt: HostRuntime, mode: Mode) -> io::Result<()> {
    load_all::<Lsb0>(rt, mode, "lsb0")?;
    load_all::<Msb0>(rt, mode, "msb0")
}
