//! Slices of bits: a span with the memory that it reads or writes, seen as a list of truth values.
//!
//! The Rust crate's `BitSlice`, over the public items of `bitvec` alone. A contract speaks of a
//! slice's list, as that of a `&[bool]` would. Where the bits lie in words is asked by numbers and
//! whole words, and said by each call that gives a slice of a slice.
#![tactic(auto)]

pub mod field;
pub mod prelude;
pub mod slice;
