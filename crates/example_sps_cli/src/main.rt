//! Sequence parameter sets of H.264 streams, from the command line.
//!
//! Each argument is the bytes of one set, in hexadecimal with commas between them, and its fields
//! are printed, or why it is not read. The bytes that keep a start code from standing in a stream
//! (emulation prevention) are to be taken out before.
#![tactic(auto)]

mod answer;

use bits_text::arguments::arguments;
use std::env::Env;
use std::io;
use std::process::ExitCode;

fn main(rt: HostRuntime) -> ExitCode {
    ExitCode::from(status(&rt))
}

// The exit status.
fn status<R: Env + AllocGlobal + Print>(rt: &R) -> u8 {
    let mut out = io::writer(rt);
    match arguments(rt) {
        Ok(args) => answer::answer(&rt.alloc(), &args, &mut out),
        Err(error) => answer::unread(&mut out, error),
    }
}
