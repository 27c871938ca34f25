//! Writers that take little at a time or fail, and what the program prints through them.

use super::calls::{FIRST, calls, words};
use bits_lib::answer::answer;
use std::alloc::{AllocError, Global};
use std::io;
use std::io::Write;
use std::test::Fail;
use tests_refusing::refusing::{Plan, Refusing};

/// A writer that takes at most `step` bytes a call, and fails once it has taken `limit`.
#[derive(Drop)]
pub struct Slow {
    /// What it has taken.
    pub taken: Vec<u8>,
    /// How many times it was flushed.
    pub flushes: usize,
    step: usize,
    limit: usize,
    flush_fails: bool,
}

impl Slow {
    pub fn new(alloc: Global, step: usize, limit: usize) -> Slow {
        Slow {
            taken: Vec::new(alloc),
            flushes: 0,
            step,
            limit,
            flush_fails: false,
        }
    }
}

impl Write for Slow {
    fn write(&mut self, buf: &[u8]) -> io::Result<usize> {
        if self.taken.len() >= self.limit {
            return Err(io::Error::from(io::ErrorKind::BrokenPipe));
        }
        let n = buf.len().min(self.step).min(self.limit - self.taken.len());
        self.taken.extend_from_slice(&buf[..n])?;
        Ok(n)
    }

    fn flush(&mut self) -> io::Result<()> {
        if self.flush_fails {
            return Err(io::Error::from(io::ErrorKind::BrokenPipe));
        }
        self.flushes = self.flushes.saturating_add(1);
        Ok(())
    }
}

// The status with which a line ends through a writer, whether that has taken just the text, and how
// many times it was flushed.
fn written(
    alloc: Global,
    line: &str,
    out: Slow,
    text: &[u8],
) -> Result<(u8, bool, usize), AllocError> {
    let args = words(alloc, line)?;
    let mut out = out;
    let status = answer(&alloc, &args, &mut out);
    Ok((status, out.taken.as_slice() == text, out.flushes))
}

#[test]
fn a_write_may_fail(rt: HostRuntime) -> Result<(), Fail> {
    for (line, _, want) in calls() {
        for limit in 0..want.len() {
            let out = Slow::new(rt.alloc(), 3, limit);
            let got = written(rt.alloc(), line, out, &want.as_bytes()[..limit])?;
            assert_eq!(rt; got, (4, true, 0), "at {limit} of {line}");
        }
    }
    Ok(())
}

#[test]
fn bytes_are_taken_one_at_a_time(rt: HostRuntime) -> Result<(), Fail> {
    for (line, status, want) in calls() {
        let out = Slow::new(rt.alloc(), 1, want.len());
        let got = written(rt.alloc(), line, out, want.as_bytes())?;
        assert_eq!(rt; got, (status, true, 1), "at {line}");
    }
    Ok(())
}

#[test]
fn a_flush_may_fail(rt: HostRuntime) -> Result<(), Fail> {
    for (line, _, want) in calls() {
        let mut out = Slow::new(rt.alloc(), 3, want.len());
        out.flush_fails = true;
        let got = written(rt.alloc(), line, out, want.as_bytes())?;
        assert_eq!(rt; got, (4, true, 0), "at {line}");
    }
    Ok(())
}

// The status with which a call ends that gets no memory, and whether the writer has taken just the
// text.
fn without_memory(
    alloc: Global,
    args: &[String],
    limit: usize,
    flush_fails: bool,
    text: &[u8],
) -> (u8, bool) {
    let none = Refusing::new(alloc, Plan::all_from(0));
    let mut out = Slow::new(alloc, 3, limit);
    out.flush_fails = flush_fails;
    let status = answer(&none, args, &mut out);
    (status, out.taken.as_slice() == text)
}

#[test]
fn want_of_memory_may_not_be_written(rt: HostRuntime) -> Result<(), Fail> {
    let args = words(rt.alloc(), FIRST)?;
    let want = b"out of memory\n".as_slice();
    for limit in 0..want.len() + 1 {
        let is_whole = limit == want.len();
        let got = without_memory(rt.alloc(), &args, limit, is_whole, &want[..limit]);
        assert_eq!(rt; got, (4, true), "at {limit}");
    }
    Ok(())
}
