//! Bit addressing from the command line.
#![tactic(auto)]

use bits_lib::answer;
use bits_text::arguments::arguments;
use std::env::Env;
use std::io;
use std::process::ExitCode;

fn main(rt: HostRuntime) -> ExitCode {
    ExitCode::from(status(&rt))
}

// The exit status.
fn status<R: Env + AllocGlobal + Print>(rt: &R) -> u8 {
    let mut out = io::writer(rt);
    match arguments(rt) {
        Ok(args) => answer::answer(&rt.alloc(), &args, &mut out),
        Err(error) => answer::unread(&mut out, error),
    }
}
