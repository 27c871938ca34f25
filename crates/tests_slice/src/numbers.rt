//! Numbers in slices: those of signed types, of words and of 128 bits.

mod examples;
mod lists;
