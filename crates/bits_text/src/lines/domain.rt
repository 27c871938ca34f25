//! The lines of `bits domain`: the items of a span's domain in a memory.

ghost use Rattle.std.specs.Prelude.{◌^◌, ◌<◌, length};
ghost use Rattle.bitvec.specs.BitSpan.{span_of};
ghost use Rattle.bitvec.specs.Span.{Fits};

use crate::lines::fault::Fault;
use crate::lines::spans::span_at;
use crate::names::Call;
use crate::number::place;
use crate::words::words_of;
use bitvec::domain::Domain;
use bitvec::mem::BitRegister;
use bitvec::order::BitOrder;
use bitvec::ptr::span::BitSpan;
use std::alloc::{AllocError, Allocator};
use std::fmt::Write as _;

/// The call `bits domain` with its words, start and length.
#[derive(Drop)]
pub struct DomainCall<'a, 't, A: Allocator> {
    /// Where the answer is made.
    pub alloc: &'a A,
    /// The memory.
    pub words: &'t str,
    /// The span's first place.
    pub start: &'t str,
    /// The span's length.
    pub len: &'t str,
}

impl<'a, A: Allocator> Call for DomainCall<'a, '_, A> {
    type Answer = Result<String<&'a A>, Fault<&'a A>>;

    // One line an item, and the number of items.
    fn at<R: BitRegister, O: BitOrder<R>>(&self) -> Self::Answer {
        let alloc = self.alloc;
        let Some(memory) = words_of::<R, A>(alloc, self.words)? else {
            return Err(Fault::Usage);
        };
        let (Some(start), Some(len)) = (place(self.start), place(self.len)) else {
            return Err(Fault::Usage);
        };
        let span = span_at::<R, O, A>(alloc, start, len)?;
        if !span.fits(memory.len()) {
            return Err(Fault::line(alloc, &"span does not fit"));
        }
        Ok(text_of(alloc, span, &memory)?)
    }
}

// A line an item of a span that fits, and the number of items.
fn text_of<'a, R: BitRegister, O: BitOrder<R>, A: Allocator>(
    alloc: &'a A,
    span: BitSpan<R, O>,
    memory: &[R],
) -> Result<String<&'a A>, AllocError>
    requires { Fits R.BITS (span_of span) (length memory.now) }
{
    let mut text = String::new(alloc);
    let total = write_items(&mut text, span.address() as u128, span.domain(memory))?;
    writeln!(text, "total {total}")?;
    Ok(text)
}

// Writes a line an item, and gives their number. Word numbers and counts are u128, in which no sum
// of two of them passes the type.
fn write_items<R: BitRegister, O: BitOrder<R>, A: Allocator>(
    text: &mut String<A>,
    first: u128,
    domain: Domain<R, O>,
) -> Result<u128, AllocError>
    requires { first < 2 ^ 64 }
{
    match domain {
        Domain::Enclave(part) => {
            write_item(text, "enclave", first, part.load_value())?;
            Ok(1)
        }
        Domain::Region { head, body, tail } => {
            let heads = u128::from(head.is_some());
            let tails = u128::from(tail.is_some());
            let bodies = body.len() as u128;
            if let Some(part) = head {
                write_item(text, "head", first, part.load_value())?;
            }
            for (k, word) in body.iter().enumerate() {
                write_item(text, "body", first + heads + k as u128, *word)?;
            }
            if let Some(part) = tail {
                write_item(text, "tail", first + heads + bodies, part.load_value())?;
            }
            Ok(heads + bodies + tails)
        }
    }
}

// Writes the line of an item: which part it is, its word, and its value in hexadecimal.
fn write_item<R: BitRegister, A: Allocator>(
    text: &mut String<A>,
    part: &str,
    word: u128,
    value: R,
) -> Result<(), AllocError> {
    let value = value.to_u128();
    writeln!(text, "{part} {word} {value:x}")
}
