//! Spans from numbers.

use crate::lines::fault::Fault;
use bitvec::mem::BitRegister;
use bitvec::ptr::span::BitSpan;
use std::alloc::Allocator;

/// The span of `len` bits from a place on, or the fault of its refusal.
pub fn span_at<'a, R: BitRegister, O, A: Allocator>(
    alloc: &'a A,
    start: u64,
    len: u64,
) -> Result<BitSpan<R, O>, Fault<&'a A>> {
    match BitSpan::at(start as usize, len as usize) {
        Ok(span) => Ok(span),
        Err(error) => Err(Fault::line(alloc, &error)),
    }
}
