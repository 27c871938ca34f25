//! What the program prints, and the status that it ends with.

use bits_text::arguments::ArgumentsError;
use bits_text::words::words_of;
use example_sps::picture::Cropping;
use example_sps::sps::{self, Sps};
use std::alloc::{AllocError, Allocator};
use std::fmt::Write as _;
use std::io::Write;

const USAGE: &str = "usage: example_sps BYTES..\n";

// Writes a text whole and flushes once, and gives the status, or 4 where either fails.
fn send<W: Write>(out: &mut W, text: &str, status: u8) -> u8 {
    if out.write_all(text.as_bytes()).is_err() || out.flush().is_err() {
        return 4;
    }
    status
}

/// The answer where the arguments are not read: a line that says why, and status 3.
pub fn unread<W: Write>(out: &mut W, error: ArgumentsError) -> u8 {
    send(out, error.line(), 3)
}

/// Writes the answer to the arguments, and gives the exit status: 0 where each set is read, 2 where
/// one is not, or where an argument is no list of bytes, 3 out of memory and 4 a write that failed.
pub fn answer<A: Allocator, W: Write>(alloc: &A, args: &[String], out: &mut W) -> u8 {
    let mut text = String::new(alloc);
    match write_answers(alloc, args, &mut text) {
        Ok(Some(true)) => send(out, text.as_str(), 0),
        Ok(Some(false)) => send(out, text.as_str(), 2),
        Ok(None) => send(out, USAGE, 2),
        Err(_) => unread(out, ArgumentsError::OutOfMemory),
    }
}

// Writes the answer to each argument, and gives whether each set is read; `None` where an argument
// is no list of bytes, or there is none.
fn write_answers<A: Allocator, B: Allocator>(
    alloc: &A,
    args: &[String],
    text: &mut String<B>,
) -> Result<Option<bool>, AllocError> {
    let mut is_well = true;
    for arg in args {
        let Some(bytes) = words_of::<u8, A>(alloc, arg.as_str())? else {
            return Ok(None);
        };
        match sps::read(&bytes) {
            Ok(sps) => write_sps(text, &sps)?,
            Err(error) => {
                writeln!(text, "fault: {error}")?;
                is_well = false;
            }
        }
    }
    Ok(if args.is_empty() { None } else { Some(is_well) })
}

// "yes" or "no".
fn yes(is: bool) -> &'static str {
    if is { "yes" } else { "no" }
}

// Writes a line a field.
fn write_sps<B: Allocator>(text: &mut String<B>, sps: &Sps) -> Result<(), AllocError> {
    let head = sps.head;
    writeln!(
        text,
        "profile {} level {} set {}",
        head.profile, head.level, sps.id
    )?;
    writeln!(text, "constraints {:08b}", head.constraints)?;
    let chroma = sps.chroma;
    writeln!(
        text,
        "chroma {} digits {} {}",
        chroma.format, chroma.digits.0, chroma.digits.1
    )?;
    writeln!(text, "frame numbers of {} bits", sps.frame_digits)?;
    writeln!(text, "order counts of type {}", sps.order_count)?;
    writeln!(
        text,
        "reference frames {} gaps {}",
        sps.reference_frames,
        yes(sps.has_gaps)
    )?;
    let (columns, rows) = sps.size.of_frame();
    writeln!(
        text,
        "macroblocks {columns} by {rows} frames only {}",
        yes(sps.size.is_frames_only)
    )?;
    writeln!(text, "direct 8x8 {}", yes(sps.is_direct_8x8))?;
    write_cropping(text, sps.cropping)?;
    writeln!(text, "pixels {} by {}", sps.pixels.0, sps.pixels.1)?;
    writeln!(text, "further parameters {}", yes(sps.has_more))?;
    Ok(())
}

// Writes what is cut, in units.
fn write_cropping<B: Allocator>(
    text: &mut String<B>,
    cropping: Option<Cropping>,
) -> Result<(), AllocError> {
    match cropping {
        None => text.push_str("cropping none\n"),
        Some(cut) => {
            let (left, right) = cut.columns;
            let (top, bottom) = cut.rows;
            writeln!(
                text,
                "cropping left {left} right {right} top {top} bottom {bottom}"
            )?;
            Ok(())
        }
    }
}
