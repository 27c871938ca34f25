//! Why a stream refuses a call.

ghost use Rattle.std.specs.Prelude.{Some};

use std::error::Error;
use std::fmt;

/// Why nothing is read. The reader is then as it was.
#[derive(Clone, Copy, PartialEq, Eq, Debug, Drop)]
pub enum ReadError {
    /// Fewer bits are left than are to be read.
    TooFew,
    /// The bits that are left end before a run or a code does.
    Unended,
    /// The type has not the number that stands there.
    TooLarge,
}

/// Why nothing is written. The writer and its bits are then as they were.
#[derive(Clone, Copy, PartialEq, Eq, Debug, Drop)]
pub enum WriteError {
    /// There is room for fewer bits than are to be written.
    NoRoom,
    /// The number has more digits than are to be written.
    TooManyDigits,
}

/// A fixed text for each, whatever the caller's flags.
impl fmt::Display for ReadError {
    ghost use Rattle.bitvec_stream.specs.ErrorText.{read_error_text};

    ghost output = { λ error. Some (read_error_text error) };

    ghost styled_output = { λ error _. Some (read_error_text error) };

    fn fmt<W: fmt::Write>(&self, f: &mut fmt::Formatter<W>) -> fmt::Result {
        match *self {
            ReadError::TooFew => f.write_str("fewer bits are left"),
            ReadError::Unended => f.write_str("the bits end before the code"),
            ReadError::TooLarge => f.write_str("the number is too large for its type"),
        }
    }
}

impl Error for ReadError {}

/// A fixed text for each, whatever the caller's flags.
impl fmt::Display for WriteError {
    ghost use Rattle.bitvec_stream.specs.ErrorText.{write_error_text};

    ghost output = { λ error. Some (write_error_text error) };

    ghost styled_output = { λ error _. Some (write_error_text error) };

    fn fmt<W: fmt::Write>(&self, f: &mut fmt::Formatter<W>) -> fmt::Result {
        match *self {
            WriteError::NoRoom => f.write_str("there is room for fewer bits"),
            WriteError::TooManyDigits => f.write_str("the number has more digits"),
        }
    }
}

impl Error for WriteError {}
