//! What `replay` asks of registers, indices, orders, pointers, spans and domains, and how it writes
//! an answer.
#![tactic(auto)]

pub mod answer;
pub mod candidates;
pub mod combinations;
pub mod copies;
pub mod domains;
pub mod index;
pub mod memories;
pub mod numerals;
pub mod orders;
pub mod pairs;
pub mod pointers;
pub mod registers;
pub mod spans;
pub mod types;
pub mod values;
