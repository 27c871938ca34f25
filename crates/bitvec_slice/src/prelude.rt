//! The slices and the layer under them by one name: `use bitvec_slice::prelude::*;`.
//!
//! It has every name of `bitvec::prelude`, so that no second import is wanted. The Rust crate's
//! prelude has its slices too.

pub use crate::field::{Sequential, SignedNumber};
pub use crate::slice::{
    BitSlice, BitSliceMut, Chunks, ChunksExact, Iter, IterOnes, IterRuns, IterZeros, RChunks,
    ReadBits, TextError, Windows,
};
pub use bitvec::prelude::{
    And, AndNot, BitAt, BitDomain, BitDomainMut, BitElement, BitEnd, BitIdx, BitIdxError, BitMask,
    BitOrder, BitPos, BitPtr, BitPtrRange, BitRegister, BitSel, BitSpan, BitSpanError, BitWords,
    BitWordsMut, Combine, Command, Dangling, Domain, DomainMut, EmptyRange, Limits, LocalBits,
    Lsb0, MaskLimits, Msb0, Or, OrderCandidate, PartialElement, PartialElementMut, Reply, Request,
    SpanLimits, Xor,
};
