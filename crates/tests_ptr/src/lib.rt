//! Pointers, their ranges and combinations: their laws, proved callers, and what the traits of
//! these types are.
//!
//! They are named by the crates that they stand in, so that the tests wait for these alone.
#![tactic(auto)]

#[cfg(test)]
mod combinations;
#[cfg(test)]
mod common;
#[cfg(test)]
mod ends;
#[cfg(test)]
mod examples;
#[cfg(test)]
mod lists;
#[cfg(test)]
mod pointer_laws;
#[cfg(test)]
mod pointers;
#[cfg(test)]
mod traits;
