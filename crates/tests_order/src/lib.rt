//! Registers, indices, orders, their verifier and what the traits of each of these types are.
//!
//! They are named by the crates that they stand in, so that the tests wait for these alone.
#![tactic(auto)]

#[cfg(test)]
mod common;
#[cfg(test)]
mod examples;
#[cfg(test)]
mod index;
#[cfg(test)]
mod order;
#[cfg(test)]
mod order_laws;
#[cfg(test)]
mod traits;
#[cfg(test)]
mod verifier;
