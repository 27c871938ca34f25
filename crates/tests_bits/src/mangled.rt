//! Calls made ill-formed by cutting, doubling and exchanging pieces of well-formed ones.

ghost use Rattle.std.specs.Prelude.{◌<◌, ◌≤◌, length};

use super::calls::words;
use super::writers::Slow;
use bits_lib::answer::answer;
use std::alloc::{AllocError, Global};
use std::test::Fail;

// Numbers that look random, always the same ones.
#[derive(Drop)]
struct Numbers {
    state: u64,
}

impl Numbers {
    // A number below another.
    fn below(&mut self, end: usize) -> usize
        requires { 0 < end }
        ensures { result < end }
    {
        self.state = self
            .state
            .wrapping_mul(6364136223846793005)
            .wrapping_add(1442695040888963407);
        (self.state >> 33) as usize % end
    }

    // Where a piece of a line starts and ends; it has at most nine bytes.
    fn piece(&mut self, line: &[u8]) -> (usize, usize)
        ensures order { result.0 ≤ result.1 }
        ensures inside { result.1 ≤ length line.now }
    {
        let len = line.len();
        let start = self.below(len + 1);
        let end = start + self.below(10);
        if end < len {
            (start, end)
        } else {
            (start, len)
        }
    }
}

// A line with the bytes from a place to before another replaced.
fn replaced(
    alloc: Global,
    line: &[u8],
    from: usize,
    upto: usize,
    by: &[u8],
) -> Result<Vec<u8>, AllocError>
    requires order { from ≤ upto }
    requires inside { upto ≤ length line.now }
{
    let mut new = Vec::new(alloc);
    new.extend_from_slice(&line[..from])?;
    new.extend_from_slice(by)?;
    new.extend_from_slice(&line[upto..])?;
    Ok(new)
}

// A line with a piece cut out, doubled, or exchanged for one of another line.
fn mangled(
    alloc: Global,
    numbers: &mut Numbers,
    line: &[u8],
    other: &[u8],
) -> Result<Vec<u8>, AllocError> {
    let (from, upto) = numbers.piece(line);
    match numbers.below(3) {
        0 => replaced(alloc, line, from, upto, &[]),
        1 => replaced(alloc, line, from, from, &line[from..upto]),
        _ => {
            let (start, end) = numbers.piece(other);
            replaced(alloc, line, from, upto, &other[start..end])
        }
    }
}

// Well-formed calls, with answers and with faults.
const CALLS: [&str; 12] = [
    "domain lsb0 u8 12,34,56 4 8",
    "domain msb0 u32 0,ffffffff 34 28",
    "domain hilo u8 f3 4 8",
    "mask hilo u8 - 3",
    "mask msb0 u16 2 13",
    "mask lsb0 u8 5 3",
    "verify const",
    "verify hilo",
    "run lsb0 u8 0,0 2+4,6+4 1:store:0:ff,0:invert:0,1:swap:0:3,1:read:4,2:load:0",
    "run hilo u8 0 0+4,4+4 0:set:0,0:load:0,1:replace:2:1,1:copy:0:1:2",
    "run msb0 u64 123456789abcdef0 0+9,60+4 0:clear:0,1:copy:4:0:0",
    "run lsb0 usize 0 0+4,3+4 -",
];

// How many lines a text has; `None` where it does not end with a whole one.
fn lines(text: &[u8]) -> Option<usize> {
    if matches!(text.last(), Some(b'\n')) {
        Some(text.iter().filter(|b| **b == b'\n').count())
    } else {
        None
    }
}

// The line with one piece changed, or with two.
fn changed(alloc: Global, numbers: &mut Numbers, line: &str) -> Result<Vec<u8>, AllocError> {
    let other = CALLS[numbers.below(CALLS.len())];
    let bytes = mangled(alloc, numbers, line.as_bytes(), other.as_bytes())?;
    if numbers.below(2) == 0 {
        return mangled(alloc, numbers, &bytes, other.as_bytes());
    }
    Ok(bytes)
}

// The status that a line gets, and how many lines are printed.
fn outcome(alloc: Global, line: &str) -> Result<(u8, Option<usize>), AllocError> {
    let args = words(alloc, line)?;
    let mut out = Slow::new(alloc, usize::MAX, usize::MAX);
    let status = answer(&alloc, &args, &mut out);
    Ok((status, lines(&out.taken)))
}

#[test]
fn ill_formed_calls_have_one_line(rt: HostRuntime) -> Result<(), Fail> {
    let mut numbers = Numbers { state: 20 };
    let mut answered = 0u32;
    let mut refused = 0u32;
    for _ in 0..300 {
        for line in CALLS {
            let bytes = changed(rt.alloc(), &mut numbers, line)?;
            let line = str::from_utf8(&bytes).ok().ok_or("no text")?;
            let (status, count) = outcome(rt.alloc(), line)?;
            match (status, count) {
                (0, Some(_)) => answered = answered.saturating_add(1),
                (2 | 3, Some(1)) => refused = refused.saturating_add(1),
                _ => assert!(rt; false, "{status} at {line}"),
            }
        }
    }
    assert!(rt; answered > 0 && refused > 1000, "{answered} and {refused}");
    Ok(())
}
