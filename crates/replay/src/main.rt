//! Concrete answers, each a line, asked of this library.
//!
//! `replay FILE..` goes over the lines of files, each a question and its answer, asks the library
//! the same question through its public calls, and counts the lines of each kind in which the two
//! answers are the same text. The lines of a file behind the word `but` are wrong on purpose: each
//! is to be named. No contract says that the answers agree: the stored output does, of the files
//! that lie in `data/`.
#![tactic(auto)]

mod beside;
mod line;
mod numbers;
mod program;
mod question;
mod report;
mod slices;

use report::Report;
use std::env::{self, Env};
use std::fs;
use std::io::{self, Write};
use std::process::ExitCode;
use std::rt::Files;

fn main(rt: HostRuntime) -> ExitCode {
    match replay(&rt) {
        Ok(true) => ExitCode::from(0),
        Ok(false) => ExitCode::from(1),
        Err(error) => {
            let _ = println!(rt; "fault: {error}");
            ExitCode::from(2)
        }
    }
}

// Prints the reports on the files that the arguments name, and tells whether there is one, and each
// comes to what it should.
fn replay<R: Env + Files + AllocGlobal + Print>(rt: &R) -> io::Result<bool> {
    let mut should_agree = true;
    let mut is_well = false;
    let mut is_first = true;
    for path in env::args(rt)?.skip(1) {
        if path.as_str() == "but" {
            should_agree = false;
        } else {
            let came = replay_file(rt, path.as_str(), should_agree)?;
            is_well = came && (is_first || is_well);
            is_first = false;
        }
    }
    if is_first {
        println!(rt; "usage: replay FILE.. [but FILE..]")?;
    }
    Ok(is_well)
}

// Prints the report on a file, and tells whether all its lines agree, or whether none does where
// they should not.
fn replay_file<R: Files + AllocGlobal + Print>(
    rt: &R,
    path: &str,
    should_agree: bool,
) -> io::Result<bool> {
    let alloc = rt.alloc();
    let lines = fs::read_to_string(rt, path)?;
    let report = Report::of(&alloc, lines.as_str())?;
    println!(rt; "{path}")?;
    let mut out = io::writer(rt);
    out.write_all(report.text().as_bytes())?;
    out.flush()?;
    Ok(if should_agree {
        report.agrees()
    } else {
        report.differs()
    })
}
