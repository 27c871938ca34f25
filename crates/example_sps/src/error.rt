//! Why a parameter set is not read.

use bitvec_stream::error::ReadError;
use std::fmt;

/// Why a parameter set is not read.
#[derive(Clone, Copy, PartialEq, Eq, Debug, Drop)]
pub enum SpsError {
    /// The bits end, or have a number that is far too large.
    Bits(ReadError),
    /// A field has a number that the standard does not allow it.
    Number,
    /// An offset of a cycle of order counts is -2^31.
    Offset,
    /// There are fields, and direct motion is not told for blocks of 8 by 8.
    FieldsDirect,
    /// There are scaling lists, which are not read here.
    ScalingLists,
    /// The cropping leaves no pixel.
    Cropping,
    /// No stop bit ends the set, or ones stand behind it.
    Trailing,
}

impl From<ReadError> for SpsError {
    fn from(error: ReadError) -> SpsError {
        SpsError::Bits(error)
    }
}

/// A fixed text for each.
impl fmt::Display for SpsError {
    fn fmt<W: fmt::Write>(&self, f: &mut fmt::Formatter<W>) -> fmt::Result {
        match *self {
            SpsError::Bits(error) => write!(f, "{error}"),
            SpsError::Number => f.write_str("a number is not allowed in its field"),
            SpsError::Offset => f.write_str("an offset of the order counts is -2^31"),
            SpsError::FieldsDirect => {
                f.write_str("there are fields, and direct motion is not for blocks of 8 by 8")
            }
            SpsError::ScalingLists => f.write_str("scaling lists are not read"),
            SpsError::Cropping => f.write_str("the cropping leaves no pixel"),
            SpsError::Trailing => f.write_str("the set does not end in a stop bit and zeros"),
        }
    }
}
