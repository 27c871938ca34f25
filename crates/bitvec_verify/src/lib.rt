//! The verifier of bit orders.
#![tactic(auto)]

pub mod verify;
