//! The one digit writer that all texts of the layer use, in any base from 2 to 16.
//!
//! Not in the Rust crate: its texts go through the number types' formatting, which here would
//! follow the caller's flags. What is written here never does.

ghost use Rattle.std.specs.Prelude.{◌≡◌, ◌≤◌, ◌<◌, ◌+◌, ◌-◌, drop, IsAscii};
ghost use Rattle.std.specs.Fmt.{WritesStyledOnOk, WritesOnOk, digit_glyph};
ghost use Rattle.bitvec_mem.specs.Numeral.{numeral};

use std::fmt;

// The digit of a number below 16.
fn digit(d: u8, upper: bool) -> u8
    requires { d < 16 }
    ensures value { result ≡ digit_glyph upper d }
    ensures ascii { result < 128 }
{
    if d < 10 {
        b'0' + d
    } else if upper {
        b'A' + (d - 10)
    } else {
        b'a' + (d - 10)
    }
}

// Writes the digits of a number at the end of the buffer, and returns where they start.
fn encode(n: u128, base: u8, upper: bool, least: usize, out: &mut [u8; 128]) -> usize
    requires low { 2 ≤ base }
    requires high { base ≤ 16 }
    requires short { least ≤ 128 }
    ensures bound { result ≤ 128 }
    ensures value { drop result out.new ≡ numeral base upper least n }
    ensures ascii { IsAscii (numeral base upper least n) }
{
    let mut at = 128;
    let mut rest = n;
    let mut owed = least;
    while rest > 0 || owed > 0 {
        at -= 1;
        out[at] = digit((rest % base as u128) as u8, upper);
        rest /= base as u128;
        owed = owed.saturating_sub(1);
    }
    at
}

/// The digits of a number in the base, highest first, with zeros before them up to `least` digits,
/// and none for 0 where `least` is 0; `upper` chooses the letters' case. Requires a base from 2 to
/// 16, and at most 128 for `least`. The buffer is room to write in, and what it holds afterwards
/// is not said. Costs by the digits that are written. Not in the Rust crate.
pub fn numeral_in(n: u128, base: u8, upper: bool, least: usize, buffer: &mut [u8; 128]) -> &str
    requires low { 2 ≤ base }
    requires high { base ≤ 16 }
    requires short { least ≤ 128 }
    ensures { result.now ≡ numeral base upper least n }
{
    let start = encode(n, base, upper, least, buffer);
    unsafe { std::str::from_utf8_unchecked(&buffer[start..]) }
}

/// Writes the digits of a number in the base, highest first, with zeros before them up to `least`
/// digits, and none for 0 where `least` is 0; `upper` chooses the letters' case. Requires a base
/// from 2 to 16, and at most 128 for `least`.
///
/// The caller's flags change nothing. The contract says what is written where the call succeeds and
/// the formatter indents nothing. Costs by the digits that are written.
pub fn write_numeral<W: fmt::Write>(
    f: &mut fmt::Formatter<W>,
    n: u128,
    base: u8,
    upper: bool,
    least: usize,
) -> fmt::Result
    requires low { 2 ≤ base }
    requires high { base ≤ 16 }
    requires short { least ≤ 128 }
    ensures writes { WritesOnOk W.write_str_gives f.old result (numeral base upper least n) f.new }
    ensures styled { WritesStyledOnOk W.write_str_gives f.old result (numeral base upper least n)
        f.new }
{
    let mut buffer = [0u8; 128];
    f.write_str(numeral_in(n, base, upper, least, &mut buffer))
}
