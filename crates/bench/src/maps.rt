//! Blocks that maps of 1048576 blocks, or of as many as the memories have bits as they grow, hand
//! out and take back, beside a list of truth values.

ghost use Rattle.std.specs.Prelude.{⊤, ◌≤◌};

use crate::timer::{Job, Mode, Name, tell, time};
use bitvec::order::Lsb0;
use freemap::leveled::summary_words_for;
use freemap::map::has_room;
use freemap::{FreeMap, LeveledMap, TwoLevels, two_levels};
use std::alloc::AllocError;
use std::io;

// In how many words a map's blocks lie: a power of two.
fn words_of(mode: Mode) -> usize
    ensures some { 16 ≤ result }
    ensures few { result ≤ 1048576 }
{
    match mode {
        Mode::Compare => 4096,
        Mode::Time => 16384,
        Mode::Grow(size) => size.words(),
    }
}

// How many ranges a history has room for.
const SLOTS: usize = 4096;

// A map that is asked for blocks.
trait Blocks {
    // Hands out the lowest free block.
    fn alloc(&mut self) -> Option<usize>;

    // Hands out the lowest free block from one on.
    fn alloc_at_or_after(&mut self, block: usize) -> Option<usize>;

    // Hands out the first free blocks in a row.
    fn alloc_run(&mut self, count: usize) -> Option<usize>;

    // Hands out these blocks, and returns the first; `None` where one of them is in use.
    fn reserve(&mut self, at: usize, count: usize) -> Option<usize>;

    // Takes blocks back where all are in use.
    fn give_back(&mut self, at: usize, count: usize);

    // Hands out the lowest free block, and takes it back.
    fn one(&mut self) -> Option<usize>;

    // Hands out the first free blocks in a row, and takes them back.
    fn run(&mut self, count: usize) -> Option<usize>;

    // Hands out these blocks, and takes them back.
    fn these(&mut self, at: usize, count: usize) -> Option<usize>;
}

impl Blocks for TwoLevels<'_, Lsb0> {
    #[inline(always)]
    fn alloc(&mut self) -> Option<usize> {
        LeveledMap::alloc(self)
    }

    #[inline(always)]
    fn alloc_at_or_after(&mut self, block: usize) -> Option<usize> {
        LeveledMap::alloc_at_or_after(self, block)
    }

    #[inline(always)]
    fn alloc_run(&mut self, count: usize) -> Option<usize> {
        LeveledMap::alloc_run(self, count)
    }

    #[inline(always)]
    fn reserve(&mut self, at: usize, count: usize) -> Option<usize> {
        LeveledMap::reserve(self, at, count).then_some(at)
    }

    #[inline(always)]
    fn give_back(&mut self, at: usize, count: usize) {
        if self.as_map().is_in_use(at, count) {
            self.free(at, count);
        }
    }

    #[inline(always)]
    fn one(&mut self) -> Option<usize> {
        let at = LeveledMap::alloc(self)?;
        self.free(at, 1);
        Some(at)
    }

    #[inline(always)]
    fn run(&mut self, count: usize) -> Option<usize> {
        let at = LeveledMap::alloc_run(self, count)?;
        self.free(at, count);
        Some(at)
    }

    #[inline(always)]
    fn these(&mut self, at: usize, count: usize) -> Option<usize> {
        if !LeveledMap::reserve(self, at, count) {
            return None;
        }
        self.give_back(at, count);
        Some(at)
    }
}

// The same by a truth value for each block.
#[derive(Drop)]
struct Plain<'a> {
    used: &'a mut [bool],
}

impl Plain<'_> {
    // The first `count` blocks in a row that are all free, from block `from` on.
    fn first(&self, from: usize, count: usize) -> Option<usize> {
        let mut run: usize = 0;
        for block in from..self.used.len() {
            run = if self.used[block] {
                0
            } else {
                run.saturating_add(1)
            };
            if run >= count {
                return Some(block.saturating_sub(count.saturating_sub(1)));
            }
        }
        None
    }

    // Whether there are these blocks, and each is in use, or free.
    fn are(&self, at: usize, count: usize, used: bool) -> bool {
        let len = self.used.len();
        at <= len && count <= len - at && self.used[at..at + count].iter().all(|u| *u == used)
    }

    // Makes blocks be in use, or free.
    fn mark(&mut self, at: usize, count: usize, used: bool) {
        let begin = at.min(self.used.len());
        for block in self.used[begin..].iter_mut().take(count) {
            *block = used;
        }
    }

    // Puts the first of blocks that were found in use.
    fn take(&mut self, at: Option<usize>, count: usize) -> Option<usize> {
        self.mark(at?, count, true);
        at
    }
}

impl Blocks for Plain<'_> {
    fn alloc(&mut self) -> Option<usize> {
        let at = self.first(0, 1);
        self.take(at, 1)
    }

    fn alloc_at_or_after(&mut self, block: usize) -> Option<usize> {
        let at = self.first(block, 1);
        self.take(at, 1)
    }

    fn alloc_run(&mut self, count: usize) -> Option<usize> {
        let at = self.first(0, count);
        self.take(at, count)
    }

    fn reserve(&mut self, at: usize, count: usize) -> Option<usize> {
        let at = self.are(at, count, false).then_some(at);
        self.take(at, count)
    }

    fn give_back(&mut self, at: usize, count: usize) {
        if self.are(at, count, true) {
            self.mark(at, count, false);
        }
    }

    fn one(&mut self) -> Option<usize> {
        self.first(0, 1)
    }

    fn run(&mut self, count: usize) -> Option<usize> {
        self.first(0, count)
    }

    fn these(&mut self, at: usize, count: usize) -> Option<usize> {
        self.are(at, count, false).then_some(at)
    }
}

// What is done with a map.
#[derive(Clone, Copy)]
enum Task {
    // The lowest free block is handed out and taken back.
    One,
    // So many are, one by one, and then taken back, one by one.
    Many(usize),
    // The first run of that many free blocks is.
    Run(usize),
    // So many blocks from block 3 on are.
    Long(usize),
    // So many calls of each kind, in no order, on blocks whose numbers have only digits of another.
    Calls(u32, usize),
}

// Hands out blocks one by one, and takes them back.
#[inline(always)]
fn many<M: Blocks>(map: &mut M, live: &mut [(usize, usize)], count: usize) -> usize {
    let mut sum: usize = 0;
    for range in live.iter_mut().take(count) {
        let at = map.alloc().unwrap_or(0);
        *range = (at, 1);
        sum = sum.wrapping_mul(31).wrapping_add(at);
    }
    all_back(map, live);
    sum
}

// Takes all ranges back that are live.
#[inline(always)]
fn all_back<M: Blocks>(map: &mut M, live: &mut [(usize, usize)]) {
    for range in live.iter_mut() {
        let (at, count) = *range;
        if count > 0 {
            map.give_back(at, count);
        }
        *range = (0, 0);
    }
}

// One call of a history: a live range is taken back, or one is handed out, as a number that is
// drawn says.
#[inline(always)]
fn call<M: Blocks>(map: &mut M, range: (usize, usize), draw: usize) -> (usize, usize) {
    let (at, count) = range;
    if count > 0 {
        map.give_back(at, count);
        return (0, 0);
    }
    let many = (draw >> 4) % 16 + 1;
    let (at, count) = match draw % 16 {
        0..=7 => (map.alloc(), 1),
        8..=12 => (map.alloc_run(many), many),
        13 | 14 => (map.alloc_at_or_after(draw), 1),
        _ => (map.reserve(draw, many), many),
    };
    match at {
        Some(at) => (at, count),
        None => (0, 0),
    }
}

// So many calls, and all ranges taken back at the end.
#[inline(always)]
fn history<M: Blocks>(
    map: &mut M,
    live: &mut [(usize, usize)],
    calls: u32,
    digits: usize,
) -> usize {
    let mut word: u64 = 1;
    let mut sum: usize = 0;
    for _ in 0..calls {
        word = word
            .wrapping_mul(6364136223846793005)
            .wrapping_add(1442695040888963407);
        if let Some(range) = live.get_mut((word >> 48) as usize % SLOTS) {
            *range = call(map, *range, (word >> 20) as usize & digits);
            sum = sum.wrapping_mul(31).wrapping_add(range.0);
        }
    }
    all_back(map, live);
    sum
}

// Does a task, and answers what it was told.
#[inline(always)]
fn answer<M: Blocks>(map: &mut M, live: &mut [(usize, usize)], task: Task) -> usize {
    match task {
        Task::One => map.one().unwrap_or(0),
        Task::Many(count) => many(map, live, count),
        Task::Run(count) => map.run(count).unwrap_or(0),
        Task::Long(count) => map.these(3, count).unwrap_or(0),
        Task::Calls(calls, digits) => history(map, live, calls, digits),
    }
}

// A map with levels, the ranges that are live, and a task.
#[derive(Drop)]
struct Leveled<'a, 'b> {
    map: TwoLevels<'a, Lsb0>,
    live: &'b mut [(usize, usize)],
    task: Task,
    answer: usize,
}

impl Job for Leveled<'_, '_> {
    ghost ready = { λ _. ⊤ };

    #[inline(never)]
    fn go(&mut self) {
        self.answer = answer(&mut self.map, self.live, self.task);
    }
}

// A map without levels.
#[derive(Drop)]
struct Scanned<'a> {
    map: FreeMap<'a, Lsb0>,
    answer: usize,
}

impl Job for Scanned<'_> {
    ghost ready = { λ _. ⊤ };

    #[inline(never)]
    fn go(&mut self) {
        if let Some(at) = self.map.alloc() {
            self.map.free(at, 1);
            self.answer = at;
        }
    }
}

// Whether each bit of a memory says whether a block is in use, rising from the first word on.
fn shows(words: &[u64], used: &[bool]) -> bool {
    used.iter().enumerate().all(|(block, used)| {
        let word = words.get(block / 64).copied().unwrap_or(0);
        (word >> (block % 64) as u32 & 1 == 1) == *used
    })
}

// A truth value for each bit of a memory that is compared; none of one that is timed.
fn truths(rt: HostRuntime, mode: Mode, words: &[u64]) -> Result<Vec<bool>, AllocError> {
    let mut used = Vec::new(rt.alloc());
    if mode != Mode::Compare {
        return Ok(used);
    }
    for word in words {
        for bit in 0..64u32 {
            used.push(*word >> bit & 1 == 1)?;
        }
    }
    Ok(used)
}

// The map under levels that words have, where they have room for both.
fn map_of<'a>(
    words: &'a mut [u64],
    summary: &'a mut [u64],
    blocks: usize,
) -> Option<TwoLevels<'a, Lsb0>> {
    if !has_room(words.len(), blocks) {
        return None;
    }
    let map = FreeMap::from_words_unchecked(words, blocks);
    if summary.len() < summary_words_for(map.blocks()) {
        return None;
    }
    Some(two_levels(map, summary))
}

// Does a task with a map of words under levels, and compares or times.
fn with_levels(
    rt: HostRuntime,
    mode: Mode,
    name: Name,
    units: u32,
    task: Task,
    mut words: Vec<u64>,
) -> io::Result<()> {
    let blocks = words.len().saturating_mul(64);
    let mut used = truths(rt, mode, &words)?;
    let mut live = vec![in rt.alloc(); (0, 0); SLOTS]?;
    let mut summary = vec![in rt.alloc(); 0; summary_words_for(blocks)]?;
    let Some(map) = map_of(&mut words, &mut summary, blocks) else {
        return Ok(());
    };
    if units == 0 {
        return Ok(());
    }
    let mut job = Leveled {
        map,
        live: &mut live,
        task,
        answer: 0,
    };
    if mode != Mode::Compare {
        return time(rt, name, units, &mut job);
    }
    job.go();
    let found = job.answer;
    drop(job);
    let mut plain = Plain { used: &mut used };
    let agrees = found == answer(&mut plain, &mut live, task);
    drop(plain);
    tell(rt, name, agrees && shows(&words, &used))
}

// Hands out one block of a map without levels, and compares or times.
fn without_levels(rt: HostRuntime, mode: Mode, name: Name, mut words: Vec<u64>) -> io::Result<()> {
    let blocks = words.len().saturating_mul(64);
    let mut used = truths(rt, mode, &words)?;
    if !has_room(words.len(), blocks) {
        return Ok(());
    }
    let map = FreeMap::from_words_unchecked(&mut words, blocks);
    let mut job = Scanned { map, answer: 0 };
    if mode != Mode::Compare {
        return time(rt, name, 1, &mut job);
    }
    job.go();
    let found = job.answer;
    drop(job);
    let mut plain = Plain { used: &mut used };
    let agrees = plain.one() == Some(found);
    drop(plain);
    tell(rt, name, agrees && shows(&words, &used))
}

// Words of which each is the same, but for the last.
fn uniform(rt: HostRuntime, count: usize, word: u64, last: u64) -> Result<Vec<u64>, AllocError> {
    let mut words = vec![in rt.alloc(); word; count]?;
    if let Some(place) = words.last_mut() {
        *place = last;
    }
    Ok(words)
}

// Words with no eight zeros in a row but in the last one.
fn fragmented(rt: HostRuntime, count: usize) -> Result<Vec<u64>, AllocError> {
    let mut words = Vec::new(rt.alloc());
    let mut word: u64 = 1;
    for _ in 1..count {
        word = word
            .wrapping_mul(6364136223846793005)
            .wrapping_add(1442695040888963407);
        words.push((word & word >> 7 & word >> 13) | 0x0101_0101_0101_0101)?;
    }
    words.push(0)?;
    Ok(words)
}

/// What free maps hand out and take back.
pub fn maps(rt: HostRuntime, mode: Mode) -> io::Result<()> {
    let name = |kind, unit| Name {
        group: "map-",
        kind,
        unit,
    };
    let count = words_of(mode);
    let even = |word| uniform(rt, count, word, word);
    let full = || uniform(rt, count, u64::MAX, u64::MAX >> 1);
    let many = if mode == Mode::Compare {
        512
    } else {
        (count * 32).min(SLOTS)
    };
    with_levels(rt, mode, name("alloc-last", "block"), 1, Task::One, full()?)?;
    without_levels(rt, mode, name("alloc-last-scan", "block"), full()?)?;
    let (some, task) = (many as u32, Task::Many(many));
    let half = even(0x5555_5555_5555_5555)?;
    with_levels(rt, mode, name("alloc-empty", "block"), some, task, even(0)?)?;
    with_levels(rt, mode, name("alloc-half", "block"), some, task, half)?;
    let units = count as u32;
    let words = fragmented(rt, count)?;
    with_levels(rt, mode, name("run-8", "word"), units, Task::Run(8), words)?;
    let task = Task::Long(count * 64 - 7);
    with_levels(rt, mode, name("free-long", "word"), units, task, even(0)?)?;
    let calls = if mode == Mode::Compare {
        4000
    } else {
        1_000_000
    };
    let task = Task::Calls(calls, count * 64 - 1);
    with_levels(rt, mode, name("history", "call"), calls, task, even(0)?)
}
