//! Streams, by the names that a user writes.
#![tactic(auto)]

#[cfg(test)]
mod back;
#[cfg(test)]
mod callers;
#[cfg(test)]
mod codes;
#[cfg(test)]
mod examples;
mod header;
#[cfg(test)]
mod prelude;
#[cfg(test)]
mod traits;
#[cfg(test)]
mod ways;
#[cfg(test)]
mod words;
