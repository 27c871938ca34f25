//! Canonical Huffman codes as numbers: the code of each symbol is known by the lengths of all codes
//! alone.
//!
//! Nothing here speaks of bits in a memory, so a check takes seconds.
#![tactic(auto)]

pub mod code;
pub mod laws;
