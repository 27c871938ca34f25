//! The vectors and the layers under them by one name: `use bitvec_vec::prelude::*;`.

pub use crate::vec::{BitVec, FromTextError};
pub use bitvec_slice::prelude::{
    And, AndNot, BitAt, BitDomain, BitDomainMut, BitElement, BitEnd, BitIdx, BitIdxError, BitMask,
    BitOrder, BitPos, BitPtr, BitPtrRange, BitRegister, BitSel, BitSlice, BitSliceMut, BitSpan,
    BitSpanError, BitWords, BitWordsMut, Chunks, ChunksExact, Combine, Command, Dangling, Domain,
    DomainMut, EmptyRange, Iter, IterOnes, IterRuns, IterZeros, Limits, LocalBits, Lsb0,
    MaskLimits, Msb0, Or, OrderCandidate, PartialElement, PartialElementMut, RChunks, ReadBits,
    Reply, Request, Sequential, SignedNumber, SpanLimits, TextError, Windows, Xor,
};
