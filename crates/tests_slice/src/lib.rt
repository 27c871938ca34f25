//! Bit slices, by the names that a user writes.
#![tactic(auto)]

#[cfg(test)]
mod block_map;
#[cfg(test)]
mod bytes;
#[cfg(test)]
mod callers;
#[cfg(test)]
mod counts;
mod cursor;
#[cfg(test)]
mod digits;
#[cfg(test)]
mod examples;
#[cfg(test)]
mod header;
#[cfg(test)]
mod iters;
#[cfg(test)]
mod lists;
#[cfg(test)]
mod moves;
#[cfg(test)]
mod numbers;
#[cfg(test)]
mod pieces;
#[cfg(test)]
mod prelude;
#[cfg(test)]
mod questions;
#[cfg(test)]
mod sets;
#[cfg(test)]
mod signed;
#[cfg(test)]
mod texts;
#[cfg(test)]
mod traits;
#[cfg(test)]
mod two_sets;
#[cfg(test)]
mod words;
