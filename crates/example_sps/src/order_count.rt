//! How the pictures' places in the order of output are told.

use crate::error::SpsError;
use crate::sps::{Bits, number};
use std::fmt;

/// How the pictures' places in the order of output are told.
#[derive(Clone, Copy, PartialEq, Eq, Debug, Drop)]
pub enum OrderCount {
    /// The lowest digits of the place stand with each picture: this many.
    Digits(u32),
    /// The place follows from the frame's number, by a cycle of this many reference frames.
    Cycle(u32),
    /// The order of output is that of decoding.
    Decoding,
}

/// The type's number, and what belongs to it.
impl fmt::Display for OrderCount {
    fn fmt<W: fmt::Write>(&self, f: &mut fmt::Formatter<W>) -> fmt::Result {
        match *self {
            OrderCount::Digits(digits) => write!(f, "0 with {digits} bits"),
            OrderCount::Cycle(frames) => write!(f, "1 with {frames} frames"),
            OrderCount::Decoding => f.write_str("2"),
        }
    }
}

/// Reads the type of the order counts, and what belongs to it.
pub fn read(bits: &mut Bits<'_>) -> Result<OrderCount, SpsError> {
    match number(bits, 2)? {
        0 => Ok(OrderCount::Digits(number(bits, 12)? + 4)),
        1 => Ok(OrderCount::Cycle(read_cycle(bits)?)),
        _ => Ok(OrderCount::Decoding),
    }
}

// Reads the offsets of a cycle, and gives how many reference frames it has.
fn read_cycle(bits: &mut Bits<'_>) -> Result<u32, SpsError> {
    let _is_always_zero = bits.read_bit()?;
    let _for_others = offset(bits)?;
    let _from_top_to_bottom = offset(bits)?;
    let frames = number(bits, 255)?;
    for _ in 0..frames {
        let _for_frame = offset(bits)?;
    }
    Ok(frames)
}

// The next offset: `offset_for_non_ref_pic`, `offset_for_top_to_bottom_field` and
// `offset_for_ref_frame` are in the range of -2^31 + 1 to 2^31 - 1 (7.4.2.1.1).
fn offset(bits: &mut Bits<'_>) -> Result<i32, SpsError> {
    let offset = bits.read_signed_exp_golomb()?;
    if offset == i32::MIN {
        return Err(SpsError::Offset);
    }
    Ok(offset)
}
