//! What equality, order, hash, copy, default and operators of arrays are.
//!
//! Each function does what its name says, and its contract is the promise: so a body of an impl
//! that breaks it is refused, though no contract of the layer names it.

ghost use Rattle.std.specs.Prelude.{◌≡◌, ◌↔◌, ◌&&◌, ◌||◌, IsTrue, Ok, false, map, not, replicate};
ghost use Rattle.std.specs.Cmp.Lexicographic.{slice_cmp};
ghost use Rattle.std.specs.Ordering.{bool_cmp};
ghost use Rattle.bitvec.specs.Digit.{exclusive_or};
ghost use Rattle.bitvec.specs.Memory.{zip_with};
ghost use Rattle.bitvec_slice.specs.BitSlice.{slice_bits};
ghost use Rattle.bitvec_array.specs.Array.{array_len};
ghost use Rattle.bitvec_array.specs.BitArray.{array_bits};

use bitvec::order::BitOrder;
use bitvec_array::array::BitArray;
use bitvec_slice::slice::BitSlice;
use std::alloc::AllocError;
use std::cmp::Ordering;
use std::hash::{Hash, Hasher};

// Arrays are compared by their bits.

fn compared_arrays<O: BitOrder<usize>, const N: usize>(
    here: &BitArray<O, N>,
    there: &BitArray<O, N>,
) -> (bool, Ordering)
    ensures equal { IsTrue result.0 ↔ (array_bits here.now ≡ array_bits there.now) }
    ensures order { result.1 ≡ slice_cmp bool_cmp (array_bits here.now) (array_bits there.now) }
{
    (*here == *there, here.cmp(there))
}

// An array is hashed as each slice of the same bits is.

fn hash_of_a_slice<O: BitOrder<usize>, H: Hasher, const N: usize>(
    array: &BitArray<O, N>,
    slice: BitSlice<'_, usize, O>,
    here: &mut H,
    there: &mut H,
)
    requires same { array_bits array.now ≡ slice_bits slice }
    requires state { here.old ≡ there.old }
    ensures { here.new ≡ there.new }
{
    array.hash(here);
    slice.hash(there);
}

// A copy is the same array, and a default has zeros alone.

fn copied_array<O: BitOrder<usize>, const N: usize>(
    array: &BitArray<O, N>,
) -> Result<BitArray<O, N>, AllocError>
    ensures { result ≡ Ok array.now }
{
    array.clone()
}

fn default_array<O: BitOrder<usize>, const N: usize>() -> BitArray<O, N>
    ensures { array_bits result ≡ replicate (array_len N) false }
{
    BitArray::default()
}

// Each operator combines bit by bit: those by value make an array, the others change one.

fn intersection<O: BitOrder<usize>, const N: usize>(
    here: BitArray<O, N>,
    there: BitArray<O, N>,
) -> BitArray<O, N>
    ensures { array_bits result ≡ zip_with (λ t s. t && s) (array_bits here) (array_bits there) }
{
    here & there
}

fn union_of<O: BitOrder<usize>, const N: usize>(
    here: BitArray<O, N>,
    there: BitArray<O, N>,
) -> BitArray<O, N>
    ensures { array_bits result ≡ zip_with (λ t s. t || s) (array_bits here) (array_bits there) }
{
    here | there
}

fn symmetric_difference<O: BitOrder<usize>, const N: usize>(
    here: BitArray<O, N>,
    there: BitArray<O, N>,
) -> BitArray<O, N>
    ensures { array_bits result ≡ zip_with exclusive_or (array_bits here) (array_bits there) }
{
    here ^ there
}

fn turned_array<O: BitOrder<usize>, const N: usize>(array: BitArray<O, N>) -> BitArray<O, N>
    ensures { array_bits result ≡ map not (array_bits array) }
{
    !array
}

fn cut_to_another<O: BitOrder<usize>, const N: usize>(
    array: BitArray<O, N>,
    other: BitArray<O, N>,
) -> BitArray<O, N>
    ensures { array_bits result
        ≡ zip_with (λ t s. t && s) (array_bits array) (array_bits other) }
{
    let mut both = array;
    both &= other;
    both
}

fn joined_with_another<O: BitOrder<usize>, const N: usize>(
    array: BitArray<O, N>,
    other: BitArray<O, N>,
) -> BitArray<O, N>
    ensures { array_bits result
        ≡ zip_with (λ t s. t || s) (array_bits array) (array_bits other) }
{
    let mut either = array;
    either |= other;
    either
}

fn turned_where_another_is<O: BitOrder<usize>, const N: usize>(
    array: BitArray<O, N>,
    other: BitArray<O, N>,
) -> BitArray<O, N>
    ensures { array_bits result
        ≡ zip_with exclusive_or (array_bits array) (array_bits other) }
{
    let mut one = array;
    one ^= other;
    one
}
