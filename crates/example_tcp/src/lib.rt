//! The header of a TCP segment, ten numbers in a row, written and read by streams.
//!
//! The fields are those of RFC 9293, 3.1, without options.
#![tactic(auto)]

pub mod header;
pub mod laws;
mod numbers;
