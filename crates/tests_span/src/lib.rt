//! Spans, domains and parts of words: their laws, proved callers, and what the traits of these types
//! are.
//!
//! They are named by the crates that they stand in, so that the tests wait for these alone.
#![tactic(auto)]

#[cfg(test)]
mod bytes;
#[cfg(test)]
mod callers;
#[cfg(test)]
mod ends;
#[cfg(test)]
mod examples;
#[cfg(test)]
mod filled_domain;
#[cfg(test)]
mod isolation;
#[cfg(test)]
mod lent_bits;
#[cfg(test)]
mod span_laws;
#[cfg(test)]
mod texts;
#[cfg(test)]
mod traits;
