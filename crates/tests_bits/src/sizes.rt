//! Calls with many words, spans and commands.

use super::writers::Slow;
use bits_lib::answer::answer;
use std::alloc::{AllocError, Global};
use std::fmt::Write as _;
use std::test::Fail;

// A memory of `words` bytes as text: first the given bytes, then zeros.
fn memory_text(alloc: Global, words: u32, first: &str, firsts: u32) -> Result<String, AllocError> {
    let mut text = String::new(alloc);
    for k in 0..words {
        if k > 0 {
            text.push_str(",")?;
        }
        text.push_str(if k < firsts { first } else { "0" })?;
    }
    Ok(text)
}

// The places of `spans` spans of four bits, one behind the other from place 0 on.
fn places(alloc: Global, spans: u32) -> Result<String, AllocError> {
    let mut text = String::new(alloc);
    for k in 0..spans {
        if k > 0 {
            text.push_str(",")?;
        }
        let start = u64::from(k) * 4;
        write!(text, "{start}+4")?;
    }
    Ok(text)
}

// The commands that give each of `spans` spans the byte 5a.
fn commands(alloc: Global, spans: u32) -> Result<String, AllocError> {
    let mut text = String::new(alloc);
    for k in 0..spans {
        if k > 0 {
            text.push_str(",")?;
        }
        write!(text, "{k}:store:0:5a")?;
    }
    Ok(text)
}

// The arguments of that run.
fn nibbles(alloc: Global, words: u32, spans: u32) -> Result<Vec<String>, AllocError> {
    let mut args = Vec::new(alloc);
    for word in ["run", "lsb0", "u8"] {
        args.push(String::from_str(alloc, word)?)?;
    }
    args.push(memory_text(alloc, words, "0", 0)?)?;
    args.push(places(alloc, spans)?)?;
    args.push(commands(alloc, spans)?)?;
    Ok(args)
}

// The text of its answer: each nibble was zero, and the first bytes are 5a.
fn nibbles_text(alloc: Global, words: u32, spans: u32) -> Result<String, AllocError> {
    let mut text = String::new(alloc);
    for _ in 0..spans {
        text.push_str("word 0\n")?;
    }
    let memory = memory_text(alloc, words, "5a", spans / 2)?;
    writeln!(text, "memory {memory}")?;
    Ok(text)
}

#[test]
fn runs_ten_thousand_commands_through_as_many_spans(rt: HostRuntime) -> Result<(), Fail> {
    let args = nibbles(rt.alloc(), 37_500, 10_000)?;
    let want = nibbles_text(rt.alloc(), 37_500, 10_000)?;
    let mut out = Slow::new(rt.alloc(), usize::MAX, usize::MAX);
    assert_eq!(rt; answer(&rt.alloc(), &args, &mut out), 0);
    assert!(rt; out.taken.as_slice() == want.as_bytes());
    Ok(())
}
