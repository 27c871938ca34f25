//! Types and traits of `bitvec` and `bitvec_slice`, by the names of their modules.
//!
//! The tests of a prelude hand on as these what its line calls so: another item under a name would
//! be another type or trait.

use bitvec::{domain, index, mem, order, ptr, run};
use bitvec_slice::{field, slice};

/// What numbers bits, and what has them.
pub type Indices<R> = (
    index::BitIdx<R>,
    index::BitIdxError<R>,
    index::BitEnd<R>,
    index::BitPos<R>,
    index::BitSel<R>,
    index::BitMask<R>,
    mem::BitElement<R>,
);

/// Places, and why a span is refused.
pub type Places<R, O> = (
    ptr::single::BitPtr<R, O>,
    ptr::range::BitPtrRange<R, O>,
    ptr::span::BitSpan<R, O>,
    ptr::span::BitSpanError<R>,
);

/// Parts of a memory for reading.
pub type Parts<'a, R, O> = (
    domain::Domain<'a, R, O>,
    domain::BitDomain<'a, R, O>,
    domain::PartialElement<'a, R, O>,
    domain::BitWords<'a, R, O>,
);

/// Parts of a memory for writing.
pub type PartsMut<'a, R, O> = (
    domain::DomainMut<'a, R, O>,
    domain::BitDomainMut<'a, R, O>,
    domain::PartialElementMut<'a, R, O>,
    domain::BitWordsMut<'a, R, O>,
);

/// What a run is asked and replies.
pub type Commands<R> = (run::Command<R>, run::Request<R>, run::Reply<R>);

/// Slices, and why a text is refused.
pub type Slices<'a, R, O> = (slice::BitSlice<'a, R, O>, slice::TextError);

/// Iterators of slices.
pub type Iterators<'a, R, O> = (
    slice::Iter<'a, R, O>,
    slice::IterOnes<'a, R, O>,
    slice::IterZeros<'a, R, O>,
    slice::IterRuns<'a, R, O>,
    slice::Windows<'a, R, O>,
    slice::Chunks<'a, R, O>,
    slice::ChunksExact<'a, R, O>,
    slice::RChunks<'a, R, O>,
);

/// Takes types with the traits of the constants of indices, masks, pointers, ranges and spans.
pub fn have_constants<
    A: index::Limits,
    B: index::MaskLimits,
    C: ptr::single::Dangling,
    D: ptr::range::EmptyRange,
    E: ptr::span::SpanLimits,
>() {}

/// Takes types with the traits of registers, orders, numbers, operators and holders of bits.
pub fn have_traits<
    R: mem::BitRegister,
    A: order::BitAt<R>,
    B: order::OrderCandidate<R>,
    C: order::BitOrder<R>,
    D: field::Sequential<R>,
    N: field::SignedNumber,
    F: ptr::combine::Combine,
    H: slice::ReadBits<R, C>,
>() {}
