//! Numbers as texts in a base.

ghost use Rattle.std.specs.Prelude.{◌≤◌};

use crate::answer::Answer;
use crate::values::{count_of, small};
use bits_text::number::number;
use bitvec_mem::numeral::write_numeral;
use std::fmt::{self, Write as _};

/// Writes the library's answer to a question; `None` where the words ask none.
///
/// The words are the number, the base, the case of its letters and the least count of digits, and
/// where a format with flags asks, `flags`.
pub fn write_answer(out: &mut Answer, words: &[&str]) -> Option<()> {
    let [n, base, case, least, flags @ ..] = words else {
        return None;
    };
    let numeral = numeral_of(n, base, case, least)?;
    let written = match flags {
        [] => write!(out.text, "{numeral}"),
        [word] if *word == "flags" => write!(out.text, "{numeral:+090.1}"),
        _ => return None,
    };
    out.note(written);
    Some(())
}

// A number to be written in a base.
#[derive(Clone, Copy)]
struct Numeral {
    n: u128,
    base: u8,
    upper: bool,
    least: usize,
    ghost low: { 2 ≤ base },
    ghost high: { base ≤ 16 },
    ghost short: { least ≤ 128 },
}

impl fmt::Display for Numeral {
    fn fmt<W: fmt::Write>(&self, f: &mut fmt::Formatter<W>) -> fmt::Result {
        write_numeral(f, self.n, self.base, self.upper, self.least)
    }
}

// The numeral of these texts; `None` where there is none of them.
fn numeral_of(n: &str, base: &str, case: &str, least: &str) -> Option<Numeral> {
    let n = number(n, 10, u128::MAX)?;
    let base = small(base)?;
    let least = count_of(least)?;
    let upper = match case {
        "lower" => false,
        "upper" => true,
        _ => return None,
    };
    if base < 2 || base > 16 || least > 128 {
        return None;
    }
    Some(Numeral {
        n,
        base,
        upper,
        least,
    })
}
