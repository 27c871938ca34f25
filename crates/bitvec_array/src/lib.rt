//! Arrays of bits by value, seen as lists of truth values.
//!
//! The Rust crate's `BitArray`. An array has its `N` words in itself, so it takes no memory, and is
//! copied as a number is. Its contract is that of a `[bool; 64 * N]`: a list whose length stays.
#![tactic(auto)]

pub mod array;
pub mod prelude;
