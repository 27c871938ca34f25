//! Runs of commands and their laws, and calls of worked examples, by the names that a user writes.
#![tactic(auto)]

#[cfg(test)]
mod examples;
#[cfg(test)]
mod laws;
#[cfg(test)]
mod names;
#[cfg(test)]
mod no_memory;
#[cfg(test)]
mod prelude;
#[cfg(test)]
mod traits;
