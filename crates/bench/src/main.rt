//! How long the layer's calls take, and whether they do what plain loops do.
//!
//! With no argument it copies, runs, fills and searches a few thousand words, lets vectors grow,
//! and hands out blocks of free maps, compares each memory or answer with what a plain loop makes,
//! and prints a line for each that agrees. With the argument `time` it prints a name, a unit and
//! the nanoseconds of one for each job. With `grow` it does so for memories of 1024, 65536, 4194304
//! and 67108864 bits, each behind a line that says so: what grows faster than its input shows.
#![tactic(auto)]

mod copies;
mod domains;
mod edits;
mod loads;
mod maps;
mod places;
mod runs;
mod sets;
mod slices;
mod streams;
mod timer;
mod vectors;
mod words;

use crate::timer::{Mode, Size};
use std::{env, io};

fn main(rt: HostRuntime) -> io::Result<()> {
    match env::args(&rt)?.nth(1) {
        Some(word) if word.as_str() == "time" => jobs(rt, Mode::Time),
        Some(word) if word.as_str() == "grow" => {
            grow(rt, Size::Bits10)?;
            grow(rt, Size::Bits16)?;
            grow(rt, Size::Bits22)?;
            grow(rt, Size::Bits26)
        }
        _ => jobs(rt, Mode::Compare),
    }
}

// All jobs at a size, which it says first.
fn grow(rt: HostRuntime, size: Size) -> io::Result<()> {
    println!(rt; "bits {}", size.words() * 64)?;
    jobs(rt, Mode::Grow(size))
}

// All jobs.
fn jobs(rt: HostRuntime, mode: Mode) -> io::Result<()> {
    copies::copies(rt, mode)?;
    sets::sets(rt, mode)?;
    runs::runs(rt, mode)?;
    domains::domains(rt, mode)?;
    slices::slices(rt, mode)?;
    edits::edits(rt, mode)?;
    places::all_acts(rt, mode)?;
    loads::loads(rt, mode)?;
    streams::streams(rt, mode)?;
    vectors::vectors(rt, mode)?;
    maps::maps(rt, mode)
}
