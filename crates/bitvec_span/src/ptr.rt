//! Pointers to bits, ranges of them, and spans of bits.

pub use bitvec_ptr::ptr::{combine, range, single, writer};

pub mod span;
