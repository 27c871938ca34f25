//! An allocator that refuses some of the requests for memory, for tests.
#![tactic(auto)]

pub mod refusing;
