//! Vectors of bits, seen as lists of truth values.
//!
//! The Rust crate's `BitVec`. A vector owns the words that its bits lie in, and is the first thing
//! of this layer that takes memory; its contract is that of a `Vec<bool>`. What takes memory is
//! handed an allocator and answers a `Result`: where memory is refused, the list is as it was.
#![tactic(auto)]

pub mod prelude;
pub mod vec;
