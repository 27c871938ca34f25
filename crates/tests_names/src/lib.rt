//! Types and traits by the names of their modules, with which tests compare the names of preludes.
#![tactic(auto)]

pub mod names;
