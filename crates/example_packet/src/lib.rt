//! A packet header of four fields in one word, written and read through spans, under any order.
#![tactic(auto)]

pub mod field;
pub mod header;
