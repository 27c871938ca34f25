//! A set of numbers as a vector in which bit n says whether n is in it: a sieve, and the numbers
//! that it leaves.

ghost use Rattle.std.specs.Prelude.{◌≡◌, ◌<◌, ◌≤◌, ◌↔◌, ℕ, IfOk, OnErr, Contains, length};
ghost use Rattle.std.specs.List.Sorted.{IsStrictlyIncreasing};
ghost use Rattle.bitvec_slice.specs.Bits.{ones_between};
ghost use Rattle.bitvec_vec.specs.BitVec.{vec_bits};
ghost use Rattle.example_primes.specs.Primes.{IsPrime, IsSetOf, LacksMultiples};

use bitvec::order::Lsb0;
use bitvec_slice::slice::ReadBits;
use bitvec_vec::vec::BitVec;
use std::alloc::{AllocError, Global};

// Takes the multiples of a number out of a set, but for the number itself.
fn take_multiples(set: &mut BitVec<u64, Lsb0>, number: usize)
    requires { 1 < number }
    ensures len { length (vec_bits set.new) ≡ length (vec_bits set.old) }
    ensures out { LacksMultiples number (vec_bits set.old) (vec_bits set.new) }
{
    let len = set.len();
    for times in 2..len / number + 1 {
        let multiple = times * number;
        if multiple < len {
            set.set(multiple, false);
        }
    }
}

// The set of the primes below a bound: what is left of the numbers from 2 on where, of each that is
// still there, the multiples are taken out. Below a bound of at most 2 there are none: the set has
// no numbers then, and takes no memory.
fn sieve(alloc: Global, bound: usize) -> Result<BitVec<u64, Lsb0>, AllocError>
    ensures len { IfOk result (λ set. 2 < bound → length (vec_bits set) ≡ bound) }
    ensures none { IfOk result (λ set. bound ≤ 2 → length (vec_bits set) ≡ 0) }
    ensures primes { IfOk result (λ set. IsSetOf IsPrime (vec_bits set)) }
    ensures full { OnErr result (2 < bound) }
{
    if bound <= 2 {
        return Ok(BitVec::new(alloc));
    }
    let mut set: BitVec<u64, Lsb0> = BitVec::repeat(alloc, false, 2)?;
    set.resize(bound, true)?;
    for number in 2..bound {
        if set.get_unchecked(number) {
            take_multiples(&mut set, number);
        }
    }
    Ok(set)
}

// The numbers of a set, in rising order. It refuses only where the set has a number.
fn numbers_of(alloc: Global, set: &BitVec<u64, Lsb0>) -> Result<Vec<usize>, AllocError>
    ensures numbers { IfOk result (λ numbers. numbers.items
        ≡ ones_between (vec_bits set.now) 0 (length (vec_bits set.now))) }
    ensures full { OnErr result
        (0 < length (ones_between (vec_bits set.now) 0 (length (vec_bits set.now)))) }
{
    let mut numbers = Vec::new(alloc);
    for number in set.iter_ones() {
        numbers.push(number)?;
    }
    Ok(numbers)
}

/// The primes below a bound, in rising order. It refuses where memory is refused; for a bound of at
/// most 2 there are no primes, and it asks for no memory and never refuses.
pub fn primes_below(alloc: Global, bound: usize) -> Result<Vec<usize>, AllocError>
    ensures rising { IfOk result (λ primes. IsStrictlyIncreasing primes.items) }
    ensures primes { IfOk result (λ primes. (n : ℕ) → Contains primes.items n
        ↔ (IsPrime n × (n < bound))) }
    ensures full { OnErr result (2 < bound) }
{
    let set = sieve(alloc, bound)?;
    let primes = numbers_of(alloc, &set)?;
    Ok(primes)
}
