//! Places of bits in a memory, pointers to them, and ranges of pointers.
#![tactic(auto)]

pub mod ptr;
