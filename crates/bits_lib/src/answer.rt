//! What the program `bits` prints, and the status that it ends with.

ghost use Rattle.std.specs.Prelude.{◌≡◌, ◌⊎◌};

use bits_text::arguments::ArgumentsError;
use bits_text::lines::fault::Fault;
use bits_text::lines::text;
use std::alloc::Allocator;
use std::io::Write;

/// The line that names the calls, which is the answer to arguments that are none.
pub const USAGE: &str =
    "usage: bits domain ORDER REG WORDS START LEN | mask ORDER REG FROM UPTO | verify CANDIDATE | \
     run ORDER REG WORDS SPANS COMMANDS\n";

// Writes a text whole and flushes once, and gives the status, or 4 where either fails.
fn send<W: Write>(out: &mut W, text: &str, status: u8) -> u8
    ensures { (result ≡ status) ⊎ (result ≡ 4) }
{
    if out.write_all(text.as_bytes()).is_err() || out.flush().is_err() {
        return 4;
    }
    status
}

/// The answer where the arguments are not read: a line that says why, and status 3.
pub fn unread<W: Write>(out: &mut W, error: ArgumentsError) -> u8
    ensures { (result ≡ 3) ⊎ (result ≡ 4) }
{
    send(out, error.line(), 3)
}

/// Writes the answer to the arguments, and gives the exit status.
///
/// Status 0 is an answer, 2 a fault of the arguments, 3 out of memory and 4 a write that failed.
/// The whole text is made before any of it is written.
pub fn answer<A: Allocator, W: Write>(alloc: &A, args: &[String], out: &mut W) -> u8
    ensures { (result ≡ 0) ⊎ (result ≡ 2) ⊎ (result ≡ 3) ⊎ (result ≡ 4) }
{
    match text(alloc, args) {
        Ok(text) => send(out, text.as_str(), 0),
        Err(Fault::Usage) => send(out, USAGE, 2),
        Err(Fault::Line(line)) => send(out, line.as_str(), 2),
        Err(Fault::OutOfMemory) => unread(out, ArgumentsError::OutOfMemory),
    }
}
