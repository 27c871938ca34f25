//! An allocator of pages and a Bloom filter, two small users of slices.
//!
//! Both are for every register and order, and say in their contracts what a caller of theirs wants
//! to know. No proof is written: an attribute names the lemmas by which counts follow an edit, and
//! the two loops of the filter say what they keep.
#![tactic(auto)]

pub mod bloom;
pub mod pages;
