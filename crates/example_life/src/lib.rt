//! Conway's life on a torus, a row of cells in each array of bits.
//!
//! A row has 64 cells, under any order: the words of arrays are of `usize` alone, so there is no
//! register to choose. Its next generation is made of whole words: eight rows are added by three
//! digits for each cell. The contract says it cell by cell.
#![tactic(auto)]

pub mod counts;
pub mod life;
mod rows;
