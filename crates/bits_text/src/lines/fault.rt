//! Why there is no answer.

use std::alloc::{AllocError, Allocator};
use std::fmt::{self, Write as _};

/// Why there is no answer to a call.
#[derive(Debug, Drop)]
pub enum Fault<A: Allocator> {
    /// The arguments are not those of a call.
    Usage,
    /// The call asks for what is not there; the line says what.
    Line(String<A>),
    /// The allocator refused.
    OutOfMemory,
}

impl<A: Allocator> From<AllocError> for Fault<A> {
    fn from(_error: AllocError) -> Fault<A> {
        Fault::OutOfMemory
    }
}

impl<A: Allocator> Fault<A> {
    /// The fault of a line that names what is not there.
    pub fn line(alloc: A, what: &impl fmt::Display) -> Self {
        let mut line = String::new(alloc);
        match writeln!(line, "fault: {what}") {
            Ok(()) => Fault::Line(line),
            Err(_) => Fault::OutOfMemory,
        }
    }
}
