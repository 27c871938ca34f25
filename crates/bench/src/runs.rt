//! Runs of requests through the spans of one memory, and the test of these spans.

ghost use Rattle.std.specs.Prelude.{◌≡◌, ◌<◌, length};
ghost use Rattle.bitvec.specs.BitSpan.{span_of};
ghost use Rattle.bitvec.specs.Run.{CanRun};

use crate::timer::{Job, Mode, Name, tell, time};
use crate::words::words;
use bitvec::index::BitIdx;
use bitvec::order::Lsb0;
use bitvec::ptr::span::BitSpan;
use bitvec::run::{Command, Reply, Request, can_run, can_run_in, run};
use std::alloc::AllocError;
use std::io;

// A run of requests.
#[derive(Drop)]
struct Requests<'a> {
    spans: &'a [BitSpan<u64, Lsb0>],
    memory: &'a mut [u64],
    requests: &'a [Request<u64>],
    replies: &'a mut [Reply<u64>],
}

impl Job for Requests<'_> {
    ghost ready = { λ s. CanRun 64 span_of s.spans.now (length s.memory.now)
        × (length s.replies.now ≡ length s.requests.now) };

    #[inline(never)]
    fn go(&mut self) {
        run(self.spans, self.memory, self.requests, self.replies);
    }
}

// The test of some spans, and how often it was passed.
#[derive(Drop)]
struct Test<'a> {
    spans: &'a [BitSpan<u64, Lsb0>],
    words: usize,
    passed: u64,
}

impl Job for Test<'_> {
    ghost ready = { λ s. Unit {0} };

    #[inline(never)]
    fn go(&mut self) {
        if can_run(self.spans, self.words) {
            self.passed = self.passed.wrapping_add(1);
        }
    }
}

// The same of spans in any order, with room for a number for each.
#[derive(Drop)]
struct TestInRoom<'a, 'b> {
    spans: &'a [BitSpan<u64, Lsb0>],
    words: usize,
    room: &'b mut [usize],
    passed: u64,
}

impl Job for TestInRoom<'_, '_> {
    ghost ready = { λ s. length s.room.now ≡ length s.spans.now };

    #[inline(never)]
    fn go(&mut self) {
        let (spans, words) = (self.spans, self.words);
        let room = &mut *self.room;
        if can_run_in(spans, words, room) {
            self.passed = self.passed.wrapping_add(1);
        }
    }
}

// Spans of ten bits, one behind the other.
fn rising(rt: HostRuntime, count: u32) -> Result<Vec<BitSpan<u64, Lsb0>>, AllocError> {
    let mut spans = Vec::new(rt.alloc());
    for n in 0..count {
        let place = (n as usize).saturating_mul(10);
        let head = BitIdx::new_unchecked((place % 64) as u8);
        if let Ok(span) = BitSpan::new((place / 64) as isize, head, 10) {
            spans.push(span)?;
        }
    }
    Ok(spans)
}

// Stores into some spans, in no order.
fn stores(rt: HostRuntime, count: u32, spans: u32) -> Result<Vec<Request<u64>>, AllocError>
    requires { 0 < spans }
{
    let mut requests = Vec::new(rt.alloc());
    for n in 0..count {
        let span = (u64::from(n) * 7919 % u64::from(spans)) as usize;
        let command = Command::Store(0, u64::from(n).wrapping_mul(0x9E37_79B9_7F4A_7C15));
        requests.push(Request { span, command })?;
    }
    Ok(requests)
}

// Fills of stretches of spans of ten bits, in no order.
fn fills(rt: HostRuntime, count: u32, spans: u32) -> Result<Vec<Request<u64>>, AllocError>
    requires { 0 < spans }
{
    let mut requests = Vec::new(rt.alloc());
    for n in 0..count {
        let span = (u64::from(n) * 7919 % u64::from(spans)) as usize;
        let command = Command::Fill {
            from: (n % 4) as usize,
            to: (n % 6) as usize + 5,
            value: n % 3 != 0,
        };
        requests.push(Request { span, command })?;
    }
    Ok(requests)
}

fn no_replies(rt: HostRuntime, count: usize) -> Result<Vec<Reply<u64>>, AllocError> {
    Ok(vec![in rt.alloc(); Reply::Done; count]?)
}

// The word that a store into a span returns, and the store itself, bit by bit.
fn store(memory: &mut [u64], place: usize, len: usize, number: u64) -> u64 {
    let mut old = 0;
    if let Some(word) = memory.get_mut(place / 64) {
        for i in 0..64u32 {
            let digit = 1 << i;
            let covered = i as usize >= place % 64 && i as usize - place % 64 < len;
            if covered {
                old |= *word & digit;
                *word = (*word & !digit) | (number & digit);
            }
        }
    }
    old
}

// A fill of a stretch, bit by bit.
fn fill(memory: &mut [u64], place: usize, len: usize, value: bool) {
    for i in 0..len {
        let place = place.saturating_add(i);
        let digit = 1 << (place % 64) as u32;
        if let Some(word) = memory.get_mut(place / 64) {
            *word = if value { *word | digit } else { *word & !digit };
        }
    }
}

// Whether a reply is what a command gives of a span of ten bits from a place on; the command is
// done to the memory.
fn is_step(memory: &mut [u64], place: usize, command: Command<u64>, reply: Reply<u64>) -> bool {
    match command {
        Command::Store(_, number) => reply == Reply::Word(store(memory, place, 10, number)),
        Command::Fill { from, to, value } => {
            let place = place.saturating_add(from);
            fill(memory, place, to.saturating_sub(from), value);
            reply == Reply::Done
        }
        _ => false,
    }
}

// Whether a memory and its replies are what requests to spans of ten bits give, one after another.
fn is_run(
    before: &mut [u64],
    after: &[u64],
    requests: &[Request<u64>],
    replies: &[Reply<u64>],
) -> bool {
    for (request, reply) in requests.iter().zip(replies) {
        let place = request.span.saturating_mul(10);
        if !is_step(before, place, request.command, *reply) {
            return false;
        }
    }
    *before == *after
}

// How many spans and requests a run has.
fn counts(mode: Mode) -> (u32, u32)
    ensures spans { 0 < result.0 }
    ensures requests { 0 < result.1 }
{
    match mode {
        Mode::Compare => (200, 4000),
        Mode::Time => (2000, 1_000_000),
        Mode::Grow(_) => (mode.units(), mode.units()),
    }
}

// Runs requests through as many spans as the mode has.
fn run_all(rt: HostRuntime, mode: Mode, kind: &str, requests: &[Request<u64>]) -> io::Result<()> {
    let (spans, count) = counts(mode);
    let spans = rising(rt, spans)?;
    let mut before = words(rt, mode.words())?;
    let mut memory = words(rt, mode.words())?;
    let mut replies = no_replies(rt, requests.len())?;
    if !can_run(&spans, memory.len()) || replies.len() != requests.len() {
        return Ok(());
    }
    let mut job = Requests {
        spans: &spans,
        memory: &mut memory,
        requests,
        replies: &mut replies,
    };
    let name = Name {
        group: "run-",
        kind,
        unit: "request",
    };
    if mode != Mode::Compare {
        return time(rt, name, count, &mut job);
    }
    job.go();
    let agrees = is_run(&mut before, &memory, requests, &replies);
    tell(rt, name, agrees)
}

// Whether the test passes spans of ten bits one behind the other, in either direction, and not
// where one of them stands twice.
fn is_right(rt: HostRuntime, count: u32, words: usize) -> Result<bool, AllocError> {
    let mut spans = rising(rt, count)?;
    let rises = can_run(&spans, words);
    spans.reverse();
    let falls = can_run(&spans, words);
    if let Some(first) = spans.first() {
        let first = *first;
        spans.push(first)?;
    }
    Ok(rises && falls && !can_run(&spans, words))
}

fn test_spans(rt: HostRuntime, mode: Mode, kind: &str, count: u32) -> io::Result<()>
    requires { 0 < count }
{
    let name = Name {
        group: "can-run-",
        kind,
        unit: "span",
    };
    if mode == Mode::Compare {
        let agrees = is_right(rt, count / 10, mode.words())?;
        return tell(rt, name, agrees);
    }
    let spans = rising(rt, count)?;
    let mut job = Test {
        spans: &spans,
        words: mode.words(),
        passed: 0,
    };
    time(rt, name, count, &mut job)
}

// How the places of spans follow one another.
#[derive(Clone, Copy, PartialEq, Eq)]
enum Order {
    Falling,
    Shuffled,
}

// Spans of ten bits, in another order than that of their places.
fn in_order(
    rt: HostRuntime,
    count: u32,
    order: Order,
) -> Result<Vec<BitSpan<u64, Lsb0>>, AllocError> {
    let rising = rising(rt, count)?;
    let mut spans = Vec::new(rt.alloc());
    for n in 0..rising.len() {
        let i = match order {
            Order::Falling => rising.len() - 1 - n,
            Order::Shuffled => n.wrapping_mul(7919) % rising.len(),
        };
        spans.push(rising[i])?;
    }
    Ok(spans)
}

// The test of spans in no order: it passes them, and not where one of them stands twice.
fn test_in_room(rt: HostRuntime, mode: Mode, kind: &str, order: Order) -> io::Result<()> {
    let count = match mode {
        Mode::Compare => 1000,
        Mode::Time => 16000,
        Mode::Grow(_) => mode.units(),
    };
    let mut spans = in_order(rt, count, order)?;
    let mut room = vec![in rt.alloc(); 0; spans.len()]?;
    if room.len() != spans.len() {
        return Ok(());
    }
    let mut job = TestInRoom {
        spans: &spans,
        words: mode.words(),
        room: &mut room,
        passed: 0,
    };
    let name = Name {
        group: "can-run-",
        kind,
        unit: "span",
    };
    if mode != Mode::Compare {
        return time(rt, name, count, &mut job);
    }
    job.go();
    let passes = job.passed == 1;
    if let [first, .., last] = &mut *spans {
        *first = *last;
    }
    tell(rt, name, passes && !can_run(&spans, mode.words()))
}

/// The run, and the test of its spans; as memories grow there are as many spans and requests as
/// words.
pub fn runs(rt: HostRuntime, mode: Mode) -> io::Result<()> {
    let (spans, count) = counts(mode);
    run_all(rt, mode, "store", &stores(rt, count, spans)?)?;
    run_all(rt, mode, "fill", &fills(rt, count, spans)?)?;
    if let Mode::Grow(_) = mode {
        test_spans(rt, mode, "rising", mode.units())?;
    } else {
        test_spans(rt, mode, "2000", 2000)?;
        test_spans(rt, mode, "4000", 4000)?;
    }
    test_in_room(rt, mode, "falling", Order::Falling)?;
    test_in_room(rt, mode, "shuffled", Order::Shuffled)
}
