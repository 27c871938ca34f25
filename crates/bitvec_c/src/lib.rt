//! Bits in words, for callers in C.
//!
//! Each export is a call of `bitvec_call` for words of one width, and says its contract again at
//! that width. It tests what the library asks of its caller and returns a status: 0, or the first
//! of its conditions that does not hold, and then nothing is changed, but for the room that a run
//! of any number of spans is lent. A place counts the bits of a memory from 0 on, and a range has
//! the place of its first bit and a count.
#![tactic(auto)]

mod a_range;
mod counting;
mod moving;
mod numbers;
mod one_bit;
mod runs;
mod searching;
mod streams;
mod two_ranges;
mod version;
