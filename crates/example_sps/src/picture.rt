//! The size of the pictures, and what is cut from it.

ghost use Rattle.std.specs.Prelude.{◌≤◌, IfOk};

use crate::error::SpsError;
use crate::sps::{Bits, number};

/// How samples of colour stand to those of light.
#[derive(Clone, Copy, PartialEq, Eq, Debug, Drop)]
pub struct Chroma {
    /// 0 for none, 1 for 4:2:0, 2 for 4:2:2, 3 for 4:4:4.
    pub format: u32,
    /// Whether the three colours of 4:4:4 are coded apart.
    pub is_apart: bool,
    /// The digits of a sample of light, and of colour.
    pub digits: (u32, u32),
}

impl Chroma {
    /// 4:2:0 with samples of 8 digits, as in the profiles that do not say.
    pub const PLAIN: Chroma = Chroma {
        format: 1,
        is_apart: false,
        digits: (8, 8),
    };

    /// Reads what the high profiles say of it.
    pub fn read(bits: &mut Bits<'_>) -> Result<Chroma, SpsError> {
        let format = number(bits, 3)?;
        let is_apart = format == 3 && bits.read_bit()?;
        let digits = (number(bits, 6)? + 8, number(bits, 6)? + 8);
        let _is_lossless_plain = bits.read_bit()?;
        if bits.read_bit()? {
            return Err(SpsError::ScalingLists);
        }
        Ok(Chroma {
            format,
            is_apart,
            digits,
        })
    }

    // How many columns and rows of pixels a unit of the cropping has, where pictures are frames.
    fn unit(self) -> (u32, u32)
        ensures columns { result.0 ≤ 2 }
        ensures rows { result.1 ≤ 2 }
    {
        match self.format {
            1 => (2, 2),
            2 => (2, 1),
            _ => (1, 1),
        }
    }
}

/// How many macroblocks a picture has, each of 16 by 16 pixels.
#[derive(Clone, Copy, PartialEq, Eq, Debug, Drop)]
pub struct Macroblocks {
    /// How many in a row.
    pub columns: u32,
    /// How many in a column of a frame, or of a field where there are fields.
    pub units: u32,
    /// Whether every picture is a frame.
    pub is_frames_only: bool,
    pub ghost columns_at_most: { columns ≤ 65536 },
    pub ghost units_at_most: { units ≤ 65536 },
}

impl Macroblocks {
    /// Reads the size.
    pub fn read(bits: &mut Bits<'_>) -> Result<Macroblocks, SpsError> {
        let columns = number(bits, 65535)? + 1;
        let units = number(bits, 65535)? + 1;
        let is_frames_only = bits.read_bit()?;
        if !is_frames_only {
            let _is_adaptive = bits.read_bit()?;
        }
        Ok(Macroblocks {
            columns,
            units,
            is_frames_only,
        })
    }

    // How many fields a frame has that the size is of.
    fn fields(self) -> u32
        ensures { result ≤ 2 }
    {
        if self.is_frames_only { 1 } else { 2 }
    }

    /// How many macroblocks a frame has in a row and in a column.
    pub fn of_frame(self) -> (u32, u32)
        ensures columns { result.0 ≤ 65536 }
        ensures rows { result.1 ≤ 131072 }
    {
        (self.columns, self.units * self.fields())
    }
}

/// What is cut from a picture's sides, in units: left, right, top and bottom.
#[derive(Clone, Copy, PartialEq, Eq, Debug, Drop)]
pub struct Cropping {
    /// From the left and the right.
    pub columns: (u32, u32),
    /// From the top and the bottom.
    pub rows: (u32, u32),
    pub ghost left: { columns.0 ≤ 1048576 },
    pub ghost right: { columns.1 ≤ 1048576 },
    pub ghost top: { rows.0 ≤ 1048576 },
    pub ghost bottom: { rows.1 ≤ 1048576 },
}

impl Cropping {
    /// Reads it, and `None` where nothing is cut.
    pub fn read(bits: &mut Bits<'_>) -> Result<Option<Cropping>, SpsError> {
        if !bits.read_bit()? {
            return Ok(None);
        }
        let columns = (number(bits, 1048576)?, number(bits, 1048576)?);
        let rows = (number(bits, 1048576)?, number(bits, 1048576)?);
        Ok(Some(Cropping { columns, rows }))
    }
}

/// How many pixels a frame has in a row and in a column, and `None` where the cropping leaves none.
pub fn pixels(chroma: Chroma, size: Macroblocks, cropping: Option<Cropping>) -> Option<(u32, u32)> {
    let (columns, rows) = size.of_frame();
    let Some(cropping) = cropping else {
        return Some((columns * 16, rows * 16));
    };
    let (wide, high) = if chroma.is_apart {
        (1, 1)
    } else {
        chroma.unit()
    };
    let cut = wide * (cropping.columns.0 + cropping.columns.1);
    let cut_rows = high * size.fields() * (cropping.rows.0 + cropping.rows.1);
    if cut < columns * 16 && cut_rows < rows * 16 {
        Some((columns * 16 - cut, rows * 16 - cut_rows))
    } else {
        None
    }
}
