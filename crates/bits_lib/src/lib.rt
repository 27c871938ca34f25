//! What the program `bits` answers, and views of a memory as disjoint parts.
#![tactic(auto)]

pub mod answer;
pub mod view;
