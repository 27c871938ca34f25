//! Sequence parameter sets of H.264 streams.
//!
//! The bytes that keep a start code from standing in a stream (emulation prevention) are to be
//! taken out before.
#![tactic(auto)]

pub mod error;
pub mod order_count;
pub mod picture;
pub mod sps;
