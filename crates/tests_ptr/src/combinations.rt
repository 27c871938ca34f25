//! The operators on sets, as a caller writes them.

ghost use Rattle.std.specs.Prelude.{◌≡◌, ◌||◌, ◌&&◌, not};
ghost use Rattle.bitvec_ptr.specs.Memory.{memory_bits, list_with};

use crate::common::{bit_at, same};
use bitvec_order::order::Lsb0;
use bitvec_ptr::ptr::combine::{AndNot, Or};

// A set of numbers below 256: each number is in it whose bit is set.
type Set = [u64; 4];

// The numbers that are in the one set or in the other.
fn union(set: Set, other: Set) -> Set
    ensures { memory_bits 64 (λ i. i) result
        ≡ list_with ◌||◌ (memory_bits 64 (λ i. i) other) 0 (memory_bits 64 (λ i. i) set) 0 256 }
{
    let mut all = set;
    let first = bit_at::<u64, Lsb0>(0, 0);
    first.combine_to::<Or, u64, Lsb0>(&other, first, &mut all, 256);
    all
}

// The numbers that are in the one set and not in the other.
fn difference(set: Set, other: Set) -> Set
    ensures { memory_bits 64 (λ i. i) result ≡ list_with (λ t s. t && not s)
        (memory_bits 64 (λ i. i) other) 0 (memory_bits 64 (λ i. i) set) 0 256 }
{
    let mut left = set;
    let first = bit_at::<u64, Lsb0>(0, 0);
    first.combine_to::<AndNot, u64, Lsb0>(&other, first, &mut left, 256);
    left
}

#[test]
fn combines_sets(rt: HostRuntime) {
    let (set, other) = ([0b1100, 0, 0, 1 << 63], [0b1010, 7, 0, 1 << 63]);
    same(&rt, union(set, other), [0b1110, 7, 0, 1 << 63]);
    same(&rt, difference(set, other), [0b0100, 0, 0, 0]);
}
