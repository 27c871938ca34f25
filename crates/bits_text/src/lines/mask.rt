//! The line of `bits mask`: the mask of an order's indices between two bounds.

use crate::lines::fault::Fault;
use crate::names::Call;
use crate::number::number;
use bitvec::index::{BitEnd, BitIdx, BitMask};
use bitvec::mem::BitRegister;
use bitvec::order::BitOrder;
use std::alloc::Allocator;
use std::fmt::Write as _;

/// The call `bits mask` with its bounds.
#[derive(Drop)]
pub struct MaskCall<'a, 't, A: Allocator> {
    /// Where the answer is made.
    pub alloc: &'a A,
    /// The first index, or `-`.
    pub from: &'t str,
    /// The end of the indices, or `-`.
    pub upto: &'t str,
}

impl<'a, A: Allocator> Call for MaskCall<'a, '_, A> {
    type Answer = Result<String<&'a A>, Fault<&'a A>>;

    // The mask in binary.
    fn at<R: BitRegister, O: BitOrder<R>>(&self) -> Self::Answer {
        let alloc = self.alloc;
        let Some(from) = bound(self.from) else {
            return Err(Fault::Usage);
        };
        let Some(upto) = bound(self.upto) else {
            return Err(Fault::Usage);
        };
        let from = index(alloc, from)?;
        let upto = end(alloc, upto)?;
        let Some(mask) = mask_between::<R, O>(from, upto) else {
            return Err(Fault::line(alloc, &"range reversed"));
        };
        let mut text = String::new(alloc);
        writeln!(text, "{mask}")?;
        Ok(text)
    }
}

// The mask of an order between two bounds; `None` where they are reversed.
fn mask_between<R: BitRegister, O: BitOrder<R>>(
    from: Option<BitIdx<R>>,
    upto: Option<BitEnd<R>>,
) -> Option<BitMask<R>> {
    let start = match from {
        Some(index) => index.into_inner(),
        None => 0,
    };
    let limit = match upto {
        Some(end) => end.into_inner(),
        None => R::BITS,
    };
    if start > limit {
        return None;
    }
    Some(O::mask(from, upto))
}

// A decimal number of 8 bits, or `-` for an absent bound; `None` where the text is neither.
fn bound(text: &str) -> Option<Option<u8>> {
    if text == "-" {
        return Some(None);
    }
    let n = number(text, 10, u8::MAX as u128)?;
    Some(Some(n as u8))
}

fn index<'a, R: BitRegister, A: Allocator>(
    alloc: &'a A,
    n: Option<u8>,
) -> Result<Option<BitIdx<R>>, Fault<&'a A>> {
    let Some(n) = n else {
        return Ok(None);
    };
    match BitIdx::new(n) {
        Ok(index) => Ok(Some(index)),
        Err(error) => Err(Fault::line(alloc, &error)),
    }
}

fn end<'a, R: BitRegister, A: Allocator>(
    alloc: &'a A,
    n: Option<u8>,
) -> Result<Option<BitEnd<R>>, Fault<&'a A>> {
    let Some(n) = n else {
        return Ok(None);
    };
    match BitEnd::new(n) {
        Some(end) => Ok(Some(end)),
        None => Err(Fault::line(alloc, &"end out of range")),
    }
}
