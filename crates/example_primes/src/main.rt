//! The first hundred primes: a sieve that is a vector of bits, and the vector of the numbers that
//! are left in it.
//!
//! `primes_below` has the contract: the numbers that it collects rise, and are exactly the primes
//! below its bound.
#![tactic(auto)]

mod sieve;

use crate::sieve::primes_below;
use std::io;

// The hundredth prime is 541.
const BOUND: usize = 542;

fn main(rt: HostRuntime) -> io::Result<()> {
    let primes = primes_below(rt.alloc(), BOUND)?;
    let mut printed: usize = 0;
    for prime in primes.iter() {
        print!(rt; "{prime:4}")?;
        printed = printed.wrapping_add(1);
        if printed % 10 == 0 {
            println!(rt; "")?;
        }
    }
    Ok(())
}
