//! Arrays of bits, by the names that a user writes.
#![tactic(auto)]

#[cfg(test)]
mod callers;
#[cfg(test)]
mod counts;
#[cfg(test)]
mod examples;
#[cfg(test)]
mod prelude;
#[cfg(test)]
mod texts;
#[cfg(test)]
mod traits;
#[cfg(test)]
mod values;
