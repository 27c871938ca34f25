//! Rounds of a job, and what is printed of it.

ghost use Rattle.std.specs.Prelude.{◌<◌, ◌≤◌};

use std::io;
use std::time::{Clock, Instant};

/// How many bits the memories have, as a power of two.
#[derive(Clone, Copy, PartialEq, Eq)]
pub enum Size {
    Bits10,
    Bits16,
    Bits22,
    Bits26,
}

impl Size {
    /// How many words of 64 bits these are.
    pub fn words(self) -> usize
        ensures some { 16 ≤ result }
        ensures few { result ≤ 1048576 }
    {
        match self {
            Size::Bits10 => 16,
            Size::Bits16 => 1024,
            Size::Bits22 => 65536,
            Size::Bits26 => 1_048_576,
        }
    }
}

/// What the program does with each job.
#[derive(Clone, Copy, PartialEq, Eq)]
pub enum Mode {
    /// It compares the job's result with that of a plain loop.
    Compare,
    /// It times the job, as `by_hand.rs` does.
    Time,
    /// It times the job at a size.
    Grow(Size),
}

impl Mode {
    /// How many words a memory has.
    pub fn words(self) -> usize
        ensures some { 16 ≤ result }
        ensures few { result ≤ 1048576 }
    {
        match self {
            Mode::Compare => 512,
            Mode::Time => 65536,
            Mode::Grow(size) => size.words(),
        }
    }

    /// The same as the number of a job's units.
    pub fn units(self) -> u32
        ensures some { 0 < result }
    {
        self.words() as u32
    }
}

/// The name of a job, in two parts, and the unit that its time is of.
#[derive(Clone, Copy)]
pub struct Name<'a> {
    pub group: &'a str,
    pub kind: &'a str,
    pub unit: &'a str,
}

/// A job that can be done again and again.
pub trait Job {
    // What the job needs, before each time and after.
    ghost ready: { Self → Type 0 };

    /// Does the job once.
    fn go(&mut self)
        requires { ready self.old }
        ensures { ready self.new };
}

// The nanoseconds that a job takes `repeats` times.
fn round<J: Job>(clock: &impl Clock, job: &mut J, repeats: u64) -> io::Result<u64>
    requires { J.ready job.old }
    ensures { J.ready job.new }
{
    let start = Instant::now(clock)?;
    for _ in 0..repeats {
        job.go();
    }
    let nanoseconds = start.elapsed(clock)?.as_nanos();
    Ok(u64::try_from(nanoseconds).unwrap_or(u64::MAX))
}

// How often a job has to be done for a round of two milliseconds, at most a million times.
fn repeats<J: Job>(clock: &impl Clock, job: &mut J) -> io::Result<u64>
    requires { J.ready job.old }
    ensures { J.ready job.new }
{
    for doublings in 0..20u32 {
        if round(clock, job, 1 << doublings)? >= 2_000_000 {
            return Ok(1 << doublings);
        }
    }
    Ok(1 << 20)
}

// The nanoseconds of the best of nine rounds.
fn best<J: Job>(clock: &impl Clock, job: &mut J, repeats: u64) -> io::Result<u64>
    requires { J.ready job.old }
    ensures { J.ready job.new }
{
    let mut least = u64::MAX;
    for _ in 0..9 {
        least = least.min(round(clock, job, repeats)?);
    }
    Ok(least)
}

/// Times a job of `units` units, and prints the nanoseconds of one of them.
pub fn time<J: Job>(rt: HostRuntime, name: Name, units: u32, job: &mut J) -> io::Result<()>
    requires ready { J.ready job.old }
    requires some { 0 < units }
{
    let repeats = repeats(&rt, job)?;
    let all = u128::from(best(&rt, job, repeats)?) * 1000;
    let thousandths = all / (u128::from(repeats.max(1)) * u128::from(units));
    let (whole, rest) = (thousandths / 1000, thousandths % 1000);
    println!(rt;
        "{}{} {} {whole}.{rest:03}",
        name.group, name.kind, name.unit
    )
}

/// Prints whether a job agrees with a plain loop.
pub fn tell(rt: HostRuntime, name: Name, agrees: bool) -> io::Result<()> {
    if agrees {
        println!(rt; "{}{} agrees", name.group, name.kind)
    } else {
        println!(rt; "{}{} differs", name.group, name.kind)
    }
}
