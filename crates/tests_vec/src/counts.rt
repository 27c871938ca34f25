//! How many bits of a vector are one behind an edit: for every register, every lawful order and
//! every allocator. A search finds each proof by the lemmas that slices have of counts.
#![tactic(auto, using(bitvec_slice::proofs::OneCountLemmas::slice_counts))]

ghost use Rattle.std.specs.Prelude.{◌≡◌, ◌≤◌, ◌<◌, ◌+◌, if◌then◌else◌, length};
ghost use Rattle.std.specs.Prelude.{IfOk, OnErr, MatchOption};
ghost use Rattle.bitvec.specs.Truths.{ones_in};
ghost use Rattle.bitvec_vec.specs.BitVec.{vec_bits};

use bitvec::mem::BitRegister;
use bitvec::order::BitOrder;
use bitvec_slice::slice::ReadBits;
use bitvec_vec::vec::BitVec;
use std::alloc::{AllocError, Allocator};

/// Puts a bit behind the others, and returns how many are one then: one more where the bit is one.
pub fn ones_behind_push<R: BitRegister, O: BitOrder<R>, A: Allocator>(
    bits: &mut BitVec<R, O, A>,
    bit: bool,
) -> Result<usize, AllocError>
    ensures counted { IfOk result (λ ones. ones
        ≡ ones_in (vec_bits bits.old) + (if bit then 1 else 0)) }
    ensures kept { OnErr result (ones_in (vec_bits bits.new) ≡ ones_in (vec_bits bits.old)) }
{
    bits.push(bit)?;
    Ok(bits.count_ones())
}

/// Takes the last bit away and returns it: one fewer is one where it was one.
pub fn pop_one<R: BitRegister, O: BitOrder<R>, A: Allocator>(
    bits: &mut BitVec<R, O, A>,
) -> Option<bool>
    ensures { MatchOption result (ones_in (vec_bits bits.old) ≡ 0)
        (λ bit. ones_in (vec_bits bits.new) + (if bit then 1 else 0)
        ≡ ones_in (vec_bits bits.old)) }
{
    let bit = bits.pop()?;
    Some(bit)
}

/// Puts a bit before bit `i`, and returns how many are one then.
pub fn ones_behind_insert<R: BitRegister, O: BitOrder<R>, A: Allocator>(
    bits: &mut BitVec<R, O, A>,
    i: usize,
    bit: bool,
) -> Result<usize, AllocError>
    requires { i ≤ length (vec_bits bits.old) }
    ensures counted { IfOk result (λ ones. ones
        ≡ ones_in (vec_bits bits.old) + (if bit then 1 else 0)) }
    ensures kept { OnErr result (ones_in (vec_bits bits.new) ≡ ones_in (vec_bits bits.old)) }
{
    bits.insert(i, bit)?;
    Ok(bits.count_ones())
}

/// Takes bit `i` away and returns it: one fewer is one where it was one.
pub fn remove_one<R: BitRegister, O: BitOrder<R>, A: Allocator>(
    bits: &mut BitVec<R, O, A>,
    i: usize,
) -> bool
    requires { i < length (vec_bits bits.old) }
    ensures { ones_in (vec_bits bits.new) + (if result then 1 else 0)
        ≡ ones_in (vec_bits bits.old) }
{
    bits.remove(i)
}
