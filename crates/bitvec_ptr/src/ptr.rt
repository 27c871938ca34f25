//! Pointers to bits, their ranges, and copies and other combinations of ranges of bits.

pub mod combine;
pub mod copy;
mod cursor;
pub mod range;
pub mod single;
pub mod writer;
