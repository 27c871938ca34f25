//! Registers, the words that bits are addressed in, and the digits that texts print.
#![tactic(auto)]

pub mod mem;
pub mod numeral;
