//! The layer's types and traits under one name, as the Rust crate has it: `use
//! bitvec::prelude::*;`.
//!
//! Besides the types and both orders it has the small traits that carry constants, so that
//! `BitIdx::<u8>::MAX` or `BitSpan::<u8, Lsb0>::EMPTY` are written as there. Functions keep the
//! names of their modules.

pub use crate::domain::{
    BitDomain, BitDomainMut, BitWords, BitWordsMut, Domain, DomainMut, PartialElement,
    PartialElementMut,
};
pub use crate::index::{BitEnd, BitIdx, BitIdxError, BitMask, BitPos, BitSel, Limits, MaskLimits};
pub use crate::mem::{BitElement, BitRegister};
pub use crate::order::{BitAt, BitOrder, LocalBits, Lsb0, Msb0, OrderCandidate};
pub use crate::ptr::combine::{And, AndNot, Combine, Or, Xor};
pub use crate::ptr::range::{BitPtrRange, EmptyRange};
pub use crate::ptr::single::{BitPtr, Dangling};
pub use crate::ptr::span::{BitSpan, BitSpanError, SpanLimits};
pub use crate::run::{Command, Reply, Request};
