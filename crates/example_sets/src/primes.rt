//! A sieve of primes, by unions of sets.

use bitvec::order::Lsb0;
use bitvec::ptr::combine::Or;
use bitvec_slice::slice::{BitSlice, BitSliceMut};
use std::io;

// How many words the set has: the hundredth prime is 541.
const WORDS: usize = 9;

// How often a step is doubled before it passes the set, whose numbers are below 1024.
const DOUBLINGS: u32 = 10;

// Makes a memory the set of the multiples of `prime` from its square on.
//
// Each union doubles the numbers that are there: those of two steps, of four, of eight, and so on.
fn set_multiples(multiples: &mut [u64; WORDS], prime: usize) {
    let Ok(mut set) = BitSliceMut::<u64, Lsb0>::all(multiples) else {
        return;
    };
    set.fill(false);
    let len = set.len();
    let square = prime.saturating_mul(prime);
    if square < len {
        set.set(square, true);
    }
    let mut step = prime;
    for _ in 0..DOUBLINGS {
        let len = set.len();
        if step < len {
            set.combine_within::<Or>(0..len - step, step);
        }
        step = step.saturating_mul(2);
    }
}

// Takes the numbers of one set out of another.
fn take_out(primes: &mut [u64; WORDS], multiples: &[u64; WORDS]) {
    let Ok(others) = BitSlice::<u64, Lsb0>::all(multiples) else {
        return;
    };
    let Ok(mut set) = BitSliceMut::<u64, Lsb0>::all(primes) else {
        return;
    };
    if others.len() == set.len() {
        set.and_not_from(others);
    }
}

// The set of all primes that it has room for.
fn primes() -> [u64; WORDS] {
    let mut primes = [u64::MAX; WORDS];
    primes[0] ^= 0b11;
    let mut multiples = [0; WORDS];
    for number in 2..24u32 {
        if (primes[0] >> number) & 1 == 1 {
            set_multiples(&mut multiples, number as usize);
            take_out(&mut primes, &multiples);
        }
    }
    primes
}

/// Prints the first hundred primes, ten a line.
pub fn show(rt: &impl Print) -> io::Result<()> {
    let primes = primes();
    let Ok(set) = BitSlice::<u64, Lsb0>::all(&primes) else {
        return Ok(());
    };
    let mut printed: usize = 0;
    for prime in set.iter_ones() {
        if printed < 100 {
            print!(rt; "{prime:4}")?;
            printed += 1;
            if printed % 10 == 0 {
                println!(rt; "")?;
            }
        }
    }
    Ok(())
}
