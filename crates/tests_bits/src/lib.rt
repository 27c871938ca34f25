//! The statuses and writes of the program `bits`, views of disjoint parts, and orders that no crate
//! of the layer knows of.
#![tactic(auto)]

#[cfg(test)]
mod calls;
#[cfg(test)]
mod mangled;
#[cfg(test)]
mod memory;
#[cfg(test)]
mod orders;
#[cfg(test)]
mod parts;
#[cfg(test)]
mod sizes;
#[cfg(test)]
mod writers;
