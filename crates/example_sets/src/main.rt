//! Two programs of sets of numbers, each a set of bits: the first hundred primes by a sieve, and
//! the sums that can be had of some of a few numbers.
//!
//! A set of numbers is a memory in which bit n says whether n is in it. All numbers of a set are
//! moved up by k in one call, which is a union of the set with itself.
#![tactic(auto)]

mod primes;
mod sums;

use std::io;

fn main(rt: HostRuntime) -> io::Result<()> {
    println!(rt; "The first hundred primes:")?;
    primes::show(&rt)?;
    println!(rt; "Sums of some of 3, 34, 4, 12, 5 and 2, up to 60:")?;
    sums::show(&rt)
}
