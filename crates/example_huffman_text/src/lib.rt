//! Texts of symbols in canonical Huffman codes, written and read by streams.
//!
//! A text is the codes of its symbols, one behind the other, each with its highest digit first, in
//! any register and any lawful order.
#![tactic(auto)]

pub mod error;
pub mod laws;
pub mod symbol;
pub mod text;
