//! What the program prints where requests for memory are refused.

use super::calls::{FIRST, USAGE, words};
use super::writers::Slow;
use bits_lib::answer::answer;
use std::alloc::{AllocError, Global};
use std::test::Fail;
use tests_refusing::refusing::{Plan, Refusing};

// What a call came to: its status and its text, and whether a request for memory was refused.
#[derive(Drop)]
struct Outcome {
    status: u8,
    text: Vec<u8>,
    refused: bool,
}

impl Outcome {
    // Whether it has a status and a text.
    fn is(&self, status: u8, text: &[u8]) -> bool {
        self.status == status && self.text.as_slice() == text
    }

    // Whether it says that memory ran out.
    fn is_out_of_memory(&self) -> bool {
        self.is(3, b"out of memory\n")
    }
}

// The outcome of a call where that request for memory is refused, alone or with all after it.
fn called(alloc: Global, args: &[String], first: u64, alone: bool) -> Outcome {
    let plan = if alone {
        Plan::only(first)
    } else {
        Plan::all_from(first)
    };
    let memory = Refusing::new(alloc, plan);
    let mut out = Slow::new(alloc, 1000, usize::MAX);
    let status = answer(&memory, args, &mut out);
    Outcome {
        status,
        text: out.taken,
        refused: memory.asked() > first,
    }
}

// Whether each request for memory of a call, refused in turn, gives the line and the status of out
// of memory, or the whole answer with its own status; and how many requests there are.
fn stands(
    alloc: Global,
    line: &str,
    alone: bool,
    status: u8,
    want: &str,
) -> Result<Option<u64>, AllocError> {
    let args = words(alloc, line)?;
    for first in 0..1000 {
        let got = called(alloc, &args, first, alone);
        let whole = got.is(status, want.as_bytes());
        if !got.refused {
            return Ok(if whole { Some(first) } else { None });
        }
        if !whole && !got.is_out_of_memory() {
            return Ok(None);
        }
    }
    Ok(None)
}

// Whether a call stands each refusal, of one request or of one and all after it, and makes as many
// requests either way.
fn stands_all(alloc: Global, line: &str, status: u8, want: &str) -> Result<bool, AllocError> {
    let all = stands(alloc, line, false, status, want)?;
    let one = stands(alloc, line, true, status, want)?;
    Ok(all.is_some() && all == one)
}

#[test]
fn each_request_for_memory_may_be_refused(rt: HostRuntime) -> Result<(), Fail> {
    for (line, status, want) in [
        (FIRST, 0, "head 0 10\ntail 1 4\ntotal 2\n"),
        (
            "domain lsb0 u8 1,2,3,4,5,6,7,8,9 0 72",
            0,
            "body 0 1\nbody 1 2\nbody 2 3\nbody 3 4\nbody 4 5\nbody 5 6\nbody 6 7\nbody 7 8\n\
             body 8 9\ntotal 9\n",
        ),
        ("domain lsb0 u8 12 4 8", 2, "fault: span does not fit\n"),
        ("domain lsb0 u8 12,34,g 4 8", 2, USAGE),
        ("mask hilo u8 - 3", 0, "01110000\n"),
        (
            "mask lsb0 u8 8 -",
            2,
            "fault: the value 8 is too large to index into u8 (8 bits wide)\n",
        ),
        ("mask msb0 u8 5 3", 2, "fault: range reversed\n"),
        ("mask lsb0 u8 - 9", 2, "fault: end out of range\n"),
        ("verify hilo", 0, "ok\n"),
        (
            "verify badopen",
            0,
            "u8 mask - 8 got 00000000 want 11111111\n",
        ),
        ("verify good", 2, USAGE),
        (
            "run lsb0 u8 0,0 2+4,6+4 1:store:0:ff,0:invert:0,1:store:1:55,0:load:0,1:swap:0:3,\
             0:load:1,2:load:0",
            0,
            "word 0\nword 0\nword 0\nword 3c\ndone\npast end\nno span\nmemory bc,3\n",
        ),
        (
            "run lsb0 u8 0 0+9,0+2305843009213693952 0:load:0",
            2,
            "fault: Length 2305843009213693952 is too long to encode in a bit-slice, which can \
             only accept 2305843009213693951 bits\n",
        ),
        ("run lsb0 u8 0 0+4,3+4 -", 2, "fault: spans overlap\n"),
        ("run lsb0 u8 0,1 0+4 0:load:0,0:load", 2, USAGE),
    ] {
        assert!(rt; stands_all(rt.alloc(), line, status, want)?, "at {line}");
    }
    Ok(())
}

#[test]
fn no_memory_is_no_answer(rt: HostRuntime) -> Result<(), Fail> {
    for line in [
        FIRST,
        "mask lsb0 u8 8 -",
        "verify lsb0",
        "run lsb0 u8 0 - -",
    ] {
        let args = words(rt.alloc(), line)?;
        let got = called(rt.alloc(), &args, 0, false);
        assert!(rt; got.is_out_of_memory(), "at {line}");
    }
    Ok(())
}
