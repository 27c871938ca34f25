//! Free maps: callers, and the calls on stores of a few blocks.
#![tactic(auto)]

#[cfg(test)]
mod callers;
#[cfg(test)]
mod stores;
