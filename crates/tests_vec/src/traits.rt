//! What equality, order, hash and copy of vectors are, and equality and copy of refusals.
//!
//! Each function does what its name says, and its contract is the promise: so a body of an impl
//! that breaks it is refused, though no contract of the layer names it.

ghost use Rattle.std.specs.Prelude.{◌≡◌, ◌↔◌, IsTrue, IfOk, IsOk, Ok, []};
ghost use Rattle.std.specs.Cmp.Lexicographic.{slice_cmp};
ghost use Rattle.std.specs.Ordering.{bool_cmp};
ghost use Rattle.bitvec_slice.specs.BitSlice.{slice_bits};
ghost use Rattle.bitvec_vec.specs.BitVec.{vec_bits, bit_allocator};

use bitvec::mem::BitRegister;
use bitvec::order::{BitOrder, Lsb0};
use bitvec_slice::slice::BitSlice;
use bitvec_vec::vec::{BitVec, FromTextError};
use std::alloc::{AllocError, Allocator, Global};
use std::cmp::Ordering;
use std::hash::{Hash, Hasher};

// Vectors are compared by their bits.

fn compared_vectors<R: BitRegister, O: BitOrder<R>, A: Allocator>(
    here: &BitVec<R, O, A>,
    there: &BitVec<R, O, A>,
) -> (bool, Ordering)
    ensures equal { IsTrue result.0 ↔ (vec_bits here.now ≡ vec_bits there.now) }
    ensures order { result.1 ≡ slice_cmp bool_cmp (vec_bits here.now) (vec_bits there.now) }
{
    (*here == *there, here.cmp(there))
}

// A vector is hashed as each slice of the same bits is.

fn hash_of_a_slice<R: BitRegister, O: BitOrder<R>, A: Allocator, H: Hasher>(
    vec: &BitVec<R, O, A>,
    slice: BitSlice<'_, R, O>,
    here: &mut H,
    there: &mut H,
)
    requires same { vec_bits vec.now ≡ slice_bits slice }
    requires state { here.old ≡ there.old }
    ensures { here.new ≡ there.new }
{
    vec.hash(here);
    slice.hash(there);
}

// A copy has the same bits.

fn copied_vector<R: BitRegister, O: BitOrder<R>, A: Allocator + Clone>(
    vec: &BitVec<R, O, A>,
) -> Result<BitVec<R, O, A>, AllocError>
    ensures { IfOk result (λ copy. vec_bits copy ≡ vec_bits vec.now) }
{
    vec.clone()
}

// One of no bits is never refused, where the copy of the allocator is not.

fn copied_with_no_bits<R: BitRegister, O: BitOrder<R>, A: Allocator + Clone>(
    vec: &BitVec<R, O, A>,
) -> Result<BitVec<R, O, A>, AllocError>
    ensures { vec_bits vec.now ≡ [] → A.is_infallible (bit_allocator vec.now) → IsOk result }
{
    vec.clone()
}

fn no_bits_split_off<R: BitRegister, O: BitOrder<R>>(
    vec: &mut BitVec<R, O, Global>,
) -> Result<BitVec<R, O, Global>, AllocError>
    ensures done { IsOk result }
    ensures rest { IfOk result (λ rest. vec_bits rest ≡ []) }
    ensures bits { vec_bits vec.new ≡ vec_bits vec.old }
{
    let len = vec.len();
    vec.split_off(len)
}

// Without parameters a vector is of words of `usize`, in `Lsb0`, on the global allocator.

fn plain_vector(vec: BitVec) -> BitVec<usize, Lsb0, Global>
    ensures { result ≡ vec }
{
    vec
}

// Why a text is refused is its case, with its number.

fn equal_reasons(here: FromTextError, there: FromTextError) -> bool
    ensures { IsTrue result ↔ (here ≡ there) }
{
    here == there
}

fn copied_reason(reason: &FromTextError) -> Result<FromTextError, AllocError>
    ensures { result ≡ Ok reason.now }
{
    reason.clone()
}
