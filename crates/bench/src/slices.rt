//! What slices count, find, compare and give bit by bit, under a rising and a falling order.

ghost use Rattle.std.specs.Prelude.{◌≡◌};
ghost use Rattle.bitvec_slice.specs.BitSlice.{slice_len};

use crate::timer::{Job, Mode, Name, tell, time};
use crate::words::{Formula, bit, words};
use bitvec::order::{BitOrder, Lsb0, Msb0};
use bitvec::ptr::single::BitPtr;
use bitvec::ptr::span::BitSpan;
use bitvec_slice::slice::BitSlice;
use std::alloc::AllocError;
use std::cmp::Ordering;
use std::io;

// A question to a slice, whose answer is a number.
#[derive(Clone, Copy)]
enum Ask {
    // How many bits are one.
    Ones,
    // The first one.
    First,
    // The last one.
    Last,
    // The sum of the indices of the ones.
    Sum,
    // The first of that many zeros in a row.
    Zeros(usize),
    // How many bits are one, each asked for in turn.
    Bits,
    // Whether another slice has the same bits.
    Equal,
    // Whether each one is one of another slice too.
    Subset,
    // How many bits are one here and in another slice.
    Both,
    // Which of this slice and another comes first: 0, 1 where neither does, or 2.
    Compare,
    // The sum of the indices of the ones, each sought from behind the one before it.
    Next,
    // The sum of the indices of the ones that are no ones of another slice.
    Without,
    // How many bits are one here or in another slice.
    Either,
}

// The sum of the indices of a slice's ones.
fn sum_of_ones<O: BitOrder<u64>>(slice: &BitSlice<'_, u64, O>) -> usize {
    let mut sum: usize = 0;
    for i in slice.iter_ones() {
        sum = sum.wrapping_add(i);
    }
    sum
}

// The sum of the indices of a slice's ones, each sought from behind the one before it.
fn sum_by_next<O: BitOrder<u64>>(slice: &BitSlice<'_, u64, O>) -> usize {
    let (mut sum, mut from) = (0usize, 0usize);
    for _ in 0..slice.len() {
        let Some(i) = slice.next_one(from) else {
            return sum;
        };
        sum = sum.wrapping_add(i);
        from = i.wrapping_add(1);
    }
    sum
}

// The sum of the indices of a slice's ones that are no ones of another.
fn sum_without<O: BitOrder<u64>>(
    slice: &BitSlice<'_, u64, O>,
    other: &BitSlice<'_, u64, O>,
) -> usize {
    let mut sum: usize = 0;
    for i in slice.iter_ones() {
        if let Some(false) = other.get(i) {
            sum = sum.wrapping_add(i);
        }
    }
    sum
}

// How many bits of a slice are one, each taken in turn.
fn count_in_turn<O: BitOrder<u64>>(slice: &BitSlice<'_, u64, O>) -> usize {
    let mut bits = slice.iter();
    let mut count: usize = 0;
    for _ in 0..slice.len() {
        if let Some(true) = bits.next() {
            count = count.wrapping_add(1);
        }
    }
    count
}

// Which of two comes first, as a number.
fn place_of(ordering: Ordering) -> usize {
    match ordering {
        Ordering::Less => 0,
        Ordering::Equal => 1,
        Ordering::Greater => 2,
    }
}

// Two slices, and what is asked of the first.
#[derive(Drop)]
struct Reading<'a, O: BitOrder<u64>> {
    slice: BitSlice<'a, u64, O>,
    other: BitSlice<'a, u64, O>,
    ask: Ask,
    answer: usize,
}

impl<O: BitOrder<u64>> Job for Reading<'_, O> {
    ghost ready = { λ s. slice_len s.other ≡ slice_len s.slice };

    #[inline(never)]
    fn go(&mut self) {
        self.answer = match self.ask {
            Ask::Ones => self.slice.count_ones(),
            Ask::First => self.slice.first_one().unwrap_or(0),
            Ask::Last => self.slice.last_one().unwrap_or(0),
            Ask::Sum => sum_of_ones(&self.slice),
            Ask::Zeros(count) => self.slice.find_zeros(count).unwrap_or(0),
            Ask::Bits => count_in_turn(&self.slice),
            Ask::Equal => usize::from(self.slice.equals(&self.other)),
            Ask::Subset => usize::from(self.slice.is_subset(&self.other)),
            Ask::Both => self.slice.count_and(&self.other),
            Ask::Compare => place_of(self.slice.compare(&self.other)),
            Ask::Next => sum_by_next(&self.slice),
            Ask::Without => sum_without(&self.slice, &self.other),
            Ask::Either => self.slice.count_or(&self.other),
        };
    }
}

// A number of bits of a memory from a place on, and as many of another from another place on.
#[derive(Clone, Copy)]
struct Pair<'a> {
    words: &'a [u64],
    place: usize,
    other: &'a [u64],
    beside: usize,
    len: usize,
}

impl Pair<'_> {
    // Bit i of the first.
    fn bit<F: Formula>(self, i: usize) -> bool {
        bit::<u64, F>(self.words, self.place.saturating_add(i))
    }

    // The first of `count` zeros in a row.
    fn zeros<F: Formula>(self, count: usize) -> usize {
        let mut run: usize = 0;
        for i in 0..self.len {
            run = if self.bit::<F>(i) {
                0
            } else {
                run.saturating_add(1)
            };
            if run >= count {
                return i.saturating_sub(count.saturating_sub(1));
            }
        }
        0
    }

    // Bit i of the second.
    fn other_bit<F: Formula>(self, i: usize) -> bool {
        bit::<u64, F>(self.other, self.beside.saturating_add(i))
    }

    // Which of the two comes first, as a number: the one that has a zero where they first differ.
    fn order<F: Formula>(self) -> usize {
        for i in 0..self.len {
            if self.bit::<F>(i) != self.other_bit::<F>(i) {
                return if self.bit::<F>(i) { 2 } else { 0 };
            }
        }
        1
    }

    // The answer, bit by bit.
    fn answer<F: Formula>(self, ask: Ask) -> usize {
        let mut ones = (0..self.len).filter(|i| self.bit::<F>(*i));
        match ask {
            Ask::Ones | Ask::Bits => ones.count(),
            Ask::First => ones.next().unwrap_or(0),
            Ask::Last => ones.last().unwrap_or(0),
            Ask::Sum | Ask::Next => ones.fold(0, |sum: usize, i| sum.wrapping_add(i)),
            Ask::Without => ones
                .filter(|i| !self.other_bit::<F>(*i))
                .fold(0, |sum: usize, i| sum.wrapping_add(i)),
            Ask::Either => (0..self.len)
                .filter(|i| self.bit::<F>(*i) || self.other_bit::<F>(*i))
                .count(),
            Ask::Zeros(count) => self.zeros::<F>(count),
            Ask::Equal => {
                usize::from((0..self.len).all(|i| self.bit::<F>(i) == self.other_bit::<F>(i)))
            }
            Ask::Subset => usize::from(ones.all(|i| self.other_bit::<F>(i))),
            Ask::Both => ones.filter(|i| self.other_bit::<F>(*i)).count(),
            Ask::Compare => self.order::<F>(),
        }
    }
}

// Asks, and compares or times.
fn read<O: BitOrder<u64> + Formula>(
    rt: HostRuntime,
    mode: Mode,
    name: Name,
    ask: Ask,
    pair: Pair,
) -> io::Result<()> {
    let here: Result<BitSpan<u64, O>, _> = BitSpan::at(pair.place, pair.len);
    let there: Result<BitSpan<u64, O>, _> = BitSpan::at(pair.beside, pair.len);
    let (Ok(here), Ok(there)) = (here, there) else {
        return Ok(());
    };
    let slice = BitSlice::new(here, pair.words);
    let (Some(slice), Some(other)) = (slice, BitSlice::new(there, pair.other)) else {
        return Ok(());
    };
    let mut job = Reading {
        slice,
        other,
        ask,
        answer: 0,
    };
    if mode != Mode::Compare {
        return time(rt, name, mode.units(), &mut job);
    }
    job.go();
    tell(rt, name, job.answer == pair.answer::<O>(ask))
}

// Words of which each n-th has one digit that is one, and all others are zero.
fn sparse(rt: HostRuntime, count: usize, n: usize) -> Result<Vec<u64>, AllocError> {
    let mut words = Vec::new(rt.alloc());
    for k in 0..count {
        let is_one = n == 0 || k % n == n / 2;
        words.push(if is_one { 1 << (k % 61) as u32 } else { 0 })?;
    }
    Ok(words)
}

// Words with no two zeros in a row too many, but for the last two, which are zero.
fn crowded(rt: HostRuntime, count: usize, ones: u64) -> Result<Vec<u64>, AllocError> {
    let mut words = words(rt, count)?;
    for word in words.iter_mut() {
        *word = (*word & *word >> 7 & *word >> 13) | ones;
    }
    for word in words.iter_mut().rev().take(2) {
        *word = 0;
    }
    Ok(words)
}

// The words of a memory with all bits zero but one digit of one word.
fn one_bit(rt: HostRuntime, count: usize, at: usize) -> Result<Vec<u64>, AllocError> {
    let mut memory = vec![in rt.alloc(); 0; count]?;
    if let Some(word) = memory.get_mut(at) {
        *word = 1 << 31;
    }
    Ok(memory)
}

// The words of a memory, the last first.
fn turned(rt: HostRuntime, words: &[u64]) -> Result<Vec<u64>, AllocError> {
    words.iter().rev().copied().collect(rt.alloc())
}

// The words of a memory with bits of another from a place on, moved to another place.
fn moved<O: BitOrder<u64>>(rt: HostRuntime, pair: Pair) -> Result<Vec<u64>, AllocError> {
    let mut memory = vec![in rt.alloc(); 0; pair.words.len()]?;
    let (from, to) = (
        BitPtr::<u64, O>::at(pair.place),
        BitPtr::<u64, O>::at(pair.beside),
    );
    if from.run_in(pair.words.len(), pair.len) && to.run_in(memory.len(), pair.len) {
        from.copy_to(pair.words, to, &mut memory, pair.len);
    }
    Ok(memory)
}

// All bits of a memory but the first three and the last four.
fn most(words: &[u64]) -> Pair<'_> {
    let len = words.len().saturating_mul(64).saturating_sub(7);
    Pair {
        words,
        place: 3,
        other: words,
        beside: 3,
        len,
    }
}

// What is found in memories made for it.
fn finds<O: BitOrder<u64> + Formula>(rt: HostRuntime, mode: Mode, kind: &str) -> io::Result<()> {
    let count = mode.words();
    let name = |group| Name {
        group,
        kind,
        unit: "word",
    };
    let memory = one_bit(rt, count, count - 1)?;
    read::<O>(rt, mode, name("first-one-"), Ask::First, most(&memory))?;
    let memory = one_bit(rt, count, 0)?;
    read::<O>(rt, mode, name("last-one-"), Ask::Last, most(&memory))?;
    let memory = sparse(rt, count, 0)?;
    read::<O>(rt, mode, name("ones-64th-"), Ask::Sum, most(&memory))?;
    read::<O>(rt, mode, name("next-64th-"), Ask::Next, most(&memory))?;
    let memory = sparse(rt, count, 64)?;
    read::<O>(rt, mode, name("ones-4096th-"), Ask::Sum, most(&memory))?;
    read::<O>(rt, mode, name("next-4096th-"), Ask::Next, most(&memory))?;
    let memory = crowded(rt, count, 0x0101_0101_0101_0101)?;
    read::<O>(
        rt,
        mode,
        name("find-zeros-8-"),
        Ask::Zeros(8),
        most(&memory),
    )?;
    let memory = crowded(rt, count, 1 << 31)?;
    read::<O>(
        rt,
        mode,
        name("find-zeros-64-"),
        Ask::Zeros(64),
        most(&memory),
    )
}

// What is asked of words that look random.
fn one_order<O: BitOrder<u64> + Formula>(
    rt: HostRuntime,
    mode: Mode,
    kind: &str,
    words: &[u64],
) -> io::Result<()> {
    let name = |group| Name {
        group,
        kind,
        unit: "word",
    };
    let whole = most(words);
    read::<O>(rt, mode, name("count-ones-"), Ask::Ones, whole)?;
    read::<O>(rt, mode, name("ones-half-"), Ask::Sum, whole)?;
    read::<O>(rt, mode, name("next-half-"), Ask::Next, whole)?;
    read::<O>(rt, mode, name("iter-bits-"), Ask::Bits, whole)?;
    let copy = crate::words::words(rt, words.len())?;
    let other = copy.as_slice();
    let aligned = Pair { other, ..whole };
    read::<O>(rt, mode, name("equal-"), Ask::Equal, aligned)?;
    read::<O>(rt, mode, name("subset-aligned-"), Ask::Subset, aligned)?;
    read::<O>(rt, mode, name("count-and-aligned-"), Ask::Both, aligned)?;
    let copy = turned(rt, words)?;
    let other = copy.as_slice();
    let unlike = Pair { other, ..whole };
    read::<O>(rt, mode, name("without-walked-"), Ask::Without, unlike)?;
    read::<O>(rt, mode, name("either-counted-"), Ask::Either, unlike)?;
    let len = words.len().saturating_sub(1).saturating_mul(64);
    let shifted = Pair {
        beside: 14,
        len,
        ..whole
    };
    let copy = moved::<O>(rt, shifted)?;
    let other = copy.as_slice();
    let shifted = Pair { other, ..shifted };
    read::<O>(rt, mode, name("equal-shifted-"), Ask::Equal, shifted)?;
    read::<O>(rt, mode, name("subset-shifted-"), Ask::Subset, shifted)?;
    read::<O>(rt, mode, name("count-and-shifted-"), Ask::Both, shifted)?;
    read::<O>(rt, mode, name("cmp-shifted-"), Ask::Compare, shifted)?;
    finds::<O>(rt, mode, kind)
}

/// What is read of all bits of a memory but the first three and the last four.
pub fn slices(rt: HostRuntime, mode: Mode) -> io::Result<()> {
    let words = words(rt, mode.words())?;
    one_order::<Lsb0>(rt, mode, "lsb0", &words)?;
    one_order::<Msb0>(rt, mode, "msb0", &words)
}
