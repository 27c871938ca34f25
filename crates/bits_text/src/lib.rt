//! What the programs read and write as text: arguments, numbers, places, memories, the names of
//! registers and orders, and the lines of the program `bits`.
#![tactic(auto)]

pub mod arguments;
pub mod hilo;
pub mod lines;
pub mod names;
pub mod number;
pub mod places;
pub mod words;
