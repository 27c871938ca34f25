//! Numbers read and written one behind the other, under a rising and a falling order: of 13 bits,
//! of widths from a list, and Exp-Golomb codes.

ghost use Rattle.std.specs.Prelude.{⊤, ◌≤◌, length};
ghost use Rattle.bitvec.specs.BitSpan.{span_of};
ghost use Rattle.bitvec.specs.Span.{Fits};

use crate::timer::{Job, Mode, Name, tell, time};
use crate::words::{Formula, bit, put, words};
use bitvec::mem::BitRegister;
use bitvec::order::{Lsb0, Msb0};
use bitvec::ptr::span::BitSpan;
use bitvec_slice::field::Sequential;
use bitvec_slice::slice::BitSlice;
use bitvec_stream::error::{ReadError, WriteError};
use bitvec_stream::reader::BitReader;
use bitvec_stream::writer::BitWriter;
use std::alloc::AllocError;
use std::io;

// The widths of numbers that stand one behind the other, again and again.
const WIDTHS: [usize; 24] = [
    7, 13, 1, 24, 5, 18, 11, 2, 22, 9, 16, 3, 20, 8, 14, 6, 23, 10, 4, 19, 12, 17, 21, 15,
];

// What is done with each number.
#[derive(Clone, Copy)]
enum Act {
    // 13 bits are read, the lowest digit first under a rising order, the highest under a falling
    // one.
    Read,
    // As many as a list says are read so.
    ReadMixed,
    // 13 bits are written so.
    Write,
    // A code is read.
    ReadCode,
}

// Numbers one behind the other from the first bit of a span on, and the sum of those that are read.
#[derive(Drop)]
struct Numbers<'a, 'b, O: Sequential<u64>> {
    span: BitSpan<u64, O>,
    memory: &'b mut [u64],
    widths: &'a [usize],
    act: Act,
    sum: u64,
}

// The next number.
#[inline(always)]
fn read<O: Sequential<u64>>(
    reader: &mut BitReader<'_, u64, O>,
    width: usize,
) -> Result<u64, ReadError>
    requires { width ≤ 64 }
{
    if O::RISES {
        reader.read_le(width)
    } else {
        reader.read_be(width)
    }
}

// The sum of numbers of 13 bits.
#[inline(never)]
fn read_all<O: Sequential<u64>>(
    mut reader: BitReader<'_, u64, O>,
    count: usize,
) -> Result<u64, ReadError> {
    let mut sum: u64 = 0;
    for _ in 0..count {
        sum = sum.wrapping_add(read(&mut reader, 13)?);
    }
    Ok(sum)
}

// The sum of numbers of some widths.
#[inline(never)]
fn read_mixed<O: Sequential<u64>>(
    mut reader: BitReader<'_, u64, O>,
    widths: &[usize],
) -> Result<u64, ReadError> {
    let mut sum: u64 = 0;
    for width in widths {
        sum = sum.wrapping_add(read(&mut reader, *width % 32)?);
    }
    Ok(sum)
}

// The sum of numbers that are read as codes.
#[inline(never)]
fn read_codes<O: Sequential<u64>>(
    mut reader: BitReader<'_, u64, O>,
    count: usize,
) -> Result<u64, ReadError> {
    let mut sum: u64 = 0;
    for _ in 0..count {
        sum = sum.wrapping_add(reader.read_exp_golomb::<u64>()?);
    }
    Ok(sum)
}

// Writes numbers of 13 bits from the first bit of a span on.
#[inline(never)]
fn write_all<O: Sequential<u64>>(
    span: BitSpan<u64, O>,
    memory: &mut [u64],
    count: usize,
) -> Result<(), WriteError>
    requires { Fits 64 (span_of span) (length memory.old) }
{
    let mut writer = BitWriter::over_unchecked(span, memory);
    for n in 0..count {
        let value = (n % 8192) as u64;
        if O::RISES {
            writer.write_le(13, value)?;
        } else {
            writer.write_be(13, value)?;
        }
    }
    Ok(())
}

impl<O: Sequential<u64>> Job for Numbers<'_, '_, O> {
    ghost ready = { λ _. ⊤ };

    #[inline(never)]
    fn go(&mut self) {
        let (span, widths) = (self.span, self.widths);
        let memory = &mut *self.memory;
        if !span.fits(memory.len()) {
            return;
        }
        if let Act::Write = self.act {
            let _ = write_all(span, memory, widths.len());
            return;
        }
        let Some(slice) = BitSlice::new(span, memory) else {
            return;
        };
        let reader = BitReader::new(slice);
        let sum = match self.act {
            Act::Read => read_all(reader, widths.len()),
            Act::ReadMixed => read_mixed(reader, widths),
            _ => read_codes(reader, widths.len()),
        };
        self.sum = sum.unwrap_or(0);
    }
}

// The number of some bits from a place on, bit by bit, the first the lowest digit or the highest.
fn plain_number<F: Formula>(words: &[u64], place: usize, width: usize, rises: bool) -> u64 {
    let mut number: u64 = 0;
    for j in 0..width {
        let up = if rises {
            j
        } else {
            width.saturating_sub(1 + j)
        };
        if bit::<u64, F>(words, place.saturating_add(j)) {
            number |= 1 << (up % 64) as u32;
        }
    }
    number
}

// The sum of such numbers.
fn plain_sum<F: Formula>(words: &[u64], widths: &[usize], rises: bool) -> u64 {
    let (mut sum, mut place) = (0u64, 0usize);
    for width in widths {
        sum = sum.wrapping_add(plain_number::<F>(words, place, *width, rises));
        place = place.saturating_add(*width);
    }
    sum
}

// Writes the digits of a number from a place on, bit by bit.
fn plain_put<F: Formula>(words: &mut [u64], place: usize, width: usize, number: u64, rises: bool) {
    for j in 0..width {
        let up = if rises {
            j
        } else {
            width.saturating_sub(1 + j)
        };
        let is_one = number >> (up % 64) as u32 & 1 == 1;
        put::<F>(words, place.saturating_add(j), is_one);
    }
}

// The number whose code is made of a word: of at most 8 digits, small ones more often.
fn coded(word: u64) -> u64 {
    (word >> 40 & 0xFF) >> (word >> 61) as u32
}

// A memory with the codes of numbers one behind the other, made bit by bit, and the sum of those
// numbers.
fn codes<F: Formula>(rt: HostRuntime, count: usize) -> Result<(Vec<u64>, u64), AllocError> {
    let mut memory = vec![in rt.alloc(); 0; count]?;
    let (mut sum, mut place) = (0u64, 0usize);
    for word in words(rt, count)? {
        let number = coded(word);
        let more = number.saturating_add(1).max(1).ilog2() as usize;
        let width = more.saturating_mul(2).saturating_add(1);
        plain_put::<F>(&mut memory, place, width, number.saturating_add(1), false);
        place = place.saturating_add(width);
        sum = sum.wrapping_add(number);
    }
    Ok((memory, sum))
}

// As many widths of a list as words, or 13 as often.
fn widths(rt: HostRuntime, mode: Mode, act: Act) -> Result<Vec<usize>, AllocError> {
    let mut widths = Vec::new(rt.alloc());
    for k in 0..mode.words() {
        widths.push(match act {
            Act::ReadMixed => WIDTHS[k % 24],
            _ => 13,
        })?;
    }
    Ok(widths)
}

// Does it with all numbers, and compares or times.
fn act_on_all<O: Sequential<u64> + Formula>(
    rt: HostRuntime,
    mode: Mode,
    name: Name,
    act: Act,
) -> io::Result<()> {
    let count = mode.words();
    let (coded, coded_sum) = codes::<O>(rt, count)?;
    let mut memory = if let Act::ReadCode = act {
        coded
    } else {
        words(rt, count)?
    };
    let widths = widths(rt, mode, act)?;
    let span: Result<BitSpan<u64, O>, _> = BitSpan::at(0, count * 64);
    let Ok(span) = span else {
        return Ok(());
    };
    let mut wanted = words(rt, count)?;
    let sum = match act {
        Act::ReadCode => coded_sum,
        _ => plain_sum::<O>(&memory, &widths, O::RISES),
    };
    let mut job = Numbers {
        span,
        memory: &mut memory,
        widths: &widths,
        act,
        sum: 0,
    };
    if mode != Mode::Compare {
        return time(rt, name, mode.units(), &mut job);
    }
    job.go();
    let read = job.sum;
    let is_right = match act {
        Act::Write => {
            for n in 0..count {
                let number = (n % 8192) as u64;
                plain_put::<O>(&mut wanted, n.saturating_mul(13), 13, number, O::RISES);
            }
            wanted == memory
        }
        _ => read == sum,
    };
    tell(rt, name, is_right)
}

/// Numbers that are read and written.
pub fn streams(rt: HostRuntime, mode: Mode) -> io::Result<()> {
    let name = |group, kind, unit| Name { group, kind, unit };
    act_on_all::<Msb0>(
        rt,
        mode,
        name("stream-read-13-", "msb0", "number"),
        Act::Read,
    )?;
    let mixed = name("stream-read-mixed-", "msb0", "number");
    act_on_all::<Msb0>(rt, mode, mixed, Act::ReadMixed)?;
    act_on_all::<Lsb0>(
        rt,
        mode,
        name("stream-read-13-", "lsb0", "number"),
        Act::Read,
    )?;
    act_on_all::<Msb0>(
        rt,
        mode,
        name("stream-write-13-", "msb0", "number"),
        Act::Write,
    )?;
    act_on_all::<Msb0>(
        rt,
        mode,
        name("stream-golomb-", "read", "code"),
        Act::ReadCode,
    )
}
