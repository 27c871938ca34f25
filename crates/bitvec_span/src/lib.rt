//! Spans of bits, and the words and parts of words that they meet.
#![tactic(auto)]

pub mod domain;
mod lend;
pub mod ptr;
