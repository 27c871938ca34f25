//! The fields of a sequence parameter set, in the order of ITU-T H.264, 7.3.2.1.1. What a field may
//! be is in 7.4.2.1.1.

ghost use Rattle.std.specs.Prelude.{◌≤◌, IfOk};

use crate::error::SpsError;
use crate::order_count::{self, OrderCount};
use crate::picture::{self, Chroma, Cropping, Macroblocks};
use bitvec::order::Msb0;
use bitvec_slice::slice::BitSlice;
use bitvec_stream::reader::BitReader;

/// The bits of a set that are still to be read.
pub type Bits<'a> = BitReader<'a, u8, Msb0>;

/// A sequence parameter set.
#[derive(Clone, Copy, PartialEq, Debug, Drop)]
pub struct Sps {
    /// The profile, the constraints that the stream keeps to, and the level.
    pub head: Head,
    /// The set's number.
    pub id: u32,
    /// How samples of colour stand to those of light.
    pub chroma: Chroma,
    /// How many digits a frame's number has.
    pub frame_digits: u32,
    /// How places in the order of output are told.
    pub order_count: OrderCount,
    /// How many reference frames there are at most.
    pub reference_frames: u32,
    /// Whether frame numbers may be left out.
    pub has_gaps: bool,
    /// How many macroblocks a picture has.
    pub size: Macroblocks,
    /// Whether direct motion is told for blocks of 8 by 8.
    pub is_direct_8x8: bool,
    /// What is cut from a picture's sides.
    pub cropping: Option<Cropping>,
    /// How many pixels a frame has in a row and in a column.
    pub pixels: (u32, u32),
    /// Whether further parameters stand behind these, which are not read.
    pub has_more: bool,
}

/// The first three bytes of a set.
#[derive(Clone, Copy, PartialEq, Eq, Debug, Drop)]
pub struct Head {
    /// The profile.
    pub profile: u8,
    /// The constraints, the first in the highest digit.
    pub constraints: u8,
    /// Ten times the level.
    pub level: u8,
}

impl Head {
    fn read(bits: &mut Bits<'_>) -> Result<Head, SpsError> {
        let profile = bits.read_be(8)?;
        let constraints = bits.read_be(8)?;
        let level = bits.read_be(8)?;
        Ok(Head {
            profile,
            constraints,
            level,
        })
    }

    // Whether the profile is one of those that say how colour is sampled.
    fn is_high(self) -> bool {
        match self.profile {
            44 | 83 | 86 | 100 | 110 | 118 | 122 | 128 | 134 | 135 | 138 | 139 | 244 => true,
            _ => false,
        }
    }
}

/// The number of the next Exp-Golomb code, where it is at most `most`.
pub fn number(bits: &mut Bits<'_>, most: u32) -> Result<u32, SpsError>
    ensures { IfOk result (λ n. n ≤ most) }
{
    let n = bits.read_exp_golomb()?;
    if n <= most {
        Ok(n)
    } else {
        Err(SpsError::Number)
    }
}

/// The parameter set that some bytes are.
pub fn read(bytes: &[u8]) -> Result<Sps, SpsError> {
    let Ok(slice) = BitSlice::all(bytes) else {
        return Err(SpsError::Number);
    };
    let mut bits = BitReader::new(slice);
    let sps = read_fields(&mut bits)?;
    if !sps.has_more && !is_at_end(bits) {
        return Err(SpsError::Trailing);
    }
    Ok(sps)
}

fn read_fields(bits: &mut Bits<'_>) -> Result<Sps, SpsError> {
    let head = Head::read(bits)?;
    let id = number(bits, 31)?;
    let chroma = if head.is_high() {
        Chroma::read(bits)?
    } else {
        Chroma::PLAIN
    };
    let frame_digits = number(bits, 12)? + 4;
    let order_count = order_count::read(bits)?;
    let reference_frames = number(bits, 16)?;
    let has_gaps = bits.read_bit()?;
    let size = Macroblocks::read(bits)?;
    let is_direct_8x8 = read_direct(bits, size)?;
    let cropping = Cropping::read(bits)?;
    let pixels = picture::pixels(chroma, size, cropping).ok_or(SpsError::Cropping)?;
    let has_more = bits.read_bit()?;
    Ok(Sps {
        head,
        id,
        chroma,
        frame_digits,
        order_count,
        reference_frames,
        has_gaps,
        size,
        is_direct_8x8,
        cropping,
        pixels,
        has_more,
    })
}

// Whether direct motion is told for blocks of 8 by 8. Where `frame_mbs_only_flag` is 0,
// `direct_8x8_inference_flag` is 1 (7.4.2.1.1).
fn read_direct(bits: &mut Bits<'_>, size: Macroblocks) -> Result<bool, SpsError> {
    let is_direct_8x8 = bits.read_bit()?;
    if !size.is_frames_only && !is_direct_8x8 {
        return Err(SpsError::FieldsDirect);
    }
    Ok(is_direct_8x8)
}

// Whether just a one is left, and zeros behind it.
fn is_at_end(bits: Bits<'_>) -> bool {
    let mut bits = bits;
    match bits.read_bit() {
        Ok(true) => {}
        _ => return false,
    }
    match bits.read_slice(bits.remaining()) {
        Ok(rest) => rest.not_any(),
        Err(_) => false,
    }
}
