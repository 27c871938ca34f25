//! What the program is asked.

use std::alloc::{AllocError, Global};

/// The arguments of a line, each after a blank; two blanks stand round an empty one.
pub fn words(alloc: Global, line: &str) -> Result<Vec<String>, AllocError> {
    let mut all = Vec::new(alloc);
    if line.is_empty() {
        return Ok(all);
    }
    for word in line.split(' ') {
        all.push(String::from_str(alloc, word)?)?;
    }
    Ok(all)
}

/// The line that names the calls.
pub const USAGE: &str =
    "usage: bits domain ORDER REG WORDS START LEN | mask ORDER REG FROM UPTO | verify CANDIDATE | \
     run ORDER REG WORDS SPANS COMMANDS\n";

/// A call with an answer of several lines.
pub const FIRST: &str = "domain lsb0 u8 12,34,56 4 8";

/// Calls with their statuses and texts: one of each name, a fault and the usage line.
pub fn calls() -> [(&'static str, u8, &'static str); 6] {
    [
        (FIRST, 0, "head 0 10\ntail 1 4\ntotal 2\n"),
        ("mask hilo u8 - 3", 0, "01110000\n"),
        ("verify const", 0, "u8 repeated 1 position 0\n"),
        (
            "run lsb0 u8 0 0+4 0:load:0,0:read:4",
            0,
            "word 0\npast end\nmemory 0\n",
        ),
        ("run lsb0 u8 0 0+4,3+4 -", 2, "fault: spans overlap\n"),
        ("verify", 2, USAGE),
    ]
}
