//! Numbers in a row, read from a slice of bits and written into one.
//!
//! A [`BitReader`](reader::BitReader) keeps the place in a
//! [`BitSlice`](bitvec_slice::slice::BitSlice) and a [`BitWriter`](writer::BitWriter) that in a
//! span of a memory that it borrows. Each takes numbers of any width up to their type's, in any
//! register and any lawful order; a contract speaks of the list of bits that is left, or that was
//! written.
#![tactic(auto)]

pub mod error;
pub mod laws;
mod number;
pub mod prelude;
pub mod reader;
pub mod writer;
