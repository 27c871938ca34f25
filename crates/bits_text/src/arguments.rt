//! The arguments of a program.

use std::env::{self, Env};
use std::io;

/// Why a program's arguments are not read.
#[derive(Clone, Copy, PartialEq, Eq, Debug, Drop)]
pub enum ArgumentsError {
    /// One is not text: its bytes are not UTF-8.
    NotText,
    /// Memory for them was refused.
    OutOfMemory,
}

impl ArgumentsError {
    /// The line that each program prints of it, with the line's end. The status is then 3.
    pub fn line(self) -> &'static str {
        match self {
            ArgumentsError::NotText => "an argument is not text in UTF-8\n",
            ArgumentsError::OutOfMemory => "out of memory\n",
        }
    }
}

/// The arguments behind the program's name, each of them text.
pub fn arguments<R: Env + AllocGlobal>(rt: &R) -> Result<Vec<String>, ArgumentsError> {
    let all = match env::args(rt) {
        Ok(all) => all,
        Err(error) if error.kind() == io::ErrorKind::InvalidData => {
            return Err(ArgumentsError::NotText);
        }
        Err(_) => return Err(ArgumentsError::OutOfMemory),
    };
    let words: Result<Vec<String>, _> = all.skip(1).collect(rt.alloc());
    words.map_err(|_| ArgumentsError::OutOfMemory)
}
