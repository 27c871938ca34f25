//! Bit addressing: registers, bit indices, bit orders, and spans of bits with their domains.
//!
//! The layer under the slices of the Rust crate `bitvec`, under its names. Each module stands in a
//! crate of its own below this one, which hands them on.
#![tactic(auto)]

pub use bitvec_mem::mem;
pub use bitvec_order::index;
pub use bitvec_span::{domain, ptr};

pub mod laws;
pub mod order;
pub mod prelude;
pub mod run;
