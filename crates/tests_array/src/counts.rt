//! How many bits of an array are one behind an edit, and which they are: for every lawful order and
//! any number of words. A search finds each proof by what arrays hand it in one name.
#![tactic(auto, using(bitvec_array::proofs::ArrayRules::arrays))]

ghost use Rattle.std.specs.Prelude.{◌≡◌, ◌≤◌, ◌<◌, ◌+◌, ◌-◌, ◌&&◌, ◌||◌, not, if◌then◌else◌};
ghost use Rattle.std.specs.Prelude.{◌⊎◌, ℕ, MatchOption, true, length};
ghost use Rattle.bitvec.specs.Memory.{zip_with};
ghost use Rattle.bitvec.specs.Span.{element};
ghost use Rattle.bitvec.specs.Truths.{ones_in};
ghost use Rattle.bitvec_slice.specs.Bits.{zeros_in, AreFree};
ghost use Rattle.bitvec_array.specs.Array.{array_len};
ghost use Rattle.bitvec_array.specs.BitArray.{array_bits};

use bitvec::order::BitOrder;
use bitvec_array::array::BitArray;
use bitvec_slice::slice::ReadBits;

/// Takes the first number that a set lacks: one fewer is free then. `None` where none is.
pub fn take_one<O: BitOrder<usize>, const N: usize>(set: &mut BitArray<O, N>) -> Option<usize>
    ensures free { MatchOption result (zeros_in (array_bits set.old) ≡ 0)
        (λ _. zeros_in (array_bits set.new) + 1 ≡ zeros_in (array_bits set.old)) }
    ensures taken { MatchOption result (set.new ≡ set.old)
        (λ number. element (array_bits set.new) number ≡ true) }
{
    let number = set.first_zero()?;
    set.set(number, true);
    Some(number)
}

/// Takes `count` numbers in a row that a set lacks: as many fewer are free then, and what lies
/// beside them is as before. `None` where there are none.
pub fn take_many<O: BitOrder<usize>, const N: usize>(
    set: &mut BitArray<O, N>,
    count: usize,
) -> Option<usize>
    ensures free { MatchOption result (set.new ≡ set.old)
        (λ _. zeros_in (array_bits set.new) + count ≡ zeros_in (array_bits set.old)) }
    ensures beside { MatchOption result (set.new ≡ set.old)
        (λ at. (j : ℕ) → (j < at) ⊎ (at + count ≤ j)
        → element (array_bits set.new) j ≡ element (array_bits set.old) j) }
{
    let at = set.find_zeros(count)?;
    set.fill_range(at, at + count, true);
    Some(at)
}

/// Writes a bit, returns the one that was there, and says how many are one then.
pub fn write_over<O: BitOrder<usize>, const N: usize>(
    bits: &mut BitArray<O, N>,
    i: usize,
    bit: bool,
) -> bool
    requires { i < array_len N }
    ensures counted { ones_in (array_bits bits.new) + (if result then 1 else 0)
        ≡ ones_in (array_bits bits.old) + (if bit then 1 else 0) }
    ensures long { length (array_bits bits.new) ≡ length (array_bits bits.old) }
{
    bits.replace(i, bit)
}

/// How many numbers one set has and another lacks: with those that both have, all of the first.
pub fn ones_of_difference<O: BitOrder<usize>, const N: usize>(
    set: BitArray<O, N>,
    other: BitArray<O, N>,
) -> usize
    ensures { let xs = array_bits set in let ys = array_bits other
        in result + ones_in (zip_with (λ a b. a && b) xs ys) ≡ ones_in xs }
{
    let mut left = set;
    left.and_not(other);
    left.count_ones()
}

/// Whether a number is in exactly one of two sets, by their operators.
pub fn in_one_alone<O: BitOrder<usize>, const N: usize>(
    first: BitArray<O, N>,
    second: BitArray<O, N>,
    number: usize,
) -> bool
    requires { number < array_len N }
    ensures { result ≡ (element (array_bits first) number && not (element (array_bits second) number)) }
{
    (first & !second).get_unchecked(number)
}
