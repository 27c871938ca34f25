//! Copies of vectors, whether two have the same bits, their order, and what they are hashed as.

ghost use Rattle.std.specs.Prelude.{◌≡◌, ◌↔◌, [], IsTrue};
ghost use Rattle.std.specs.Cmp.Lexicographic.{slice_cmp};
ghost use Rattle.std.specs.Ordering.{bool_cmp};

use crate::vec::BitVec;
use bitvec::mem::BitRegister;
use bitvec::order::BitOrder;
use std::alloc::{AllocError, Allocator};
use std::cmp::Ordering;
use std::hash::{Hash, Hasher};

/// A copy of the bits in memory of its own. It refuses where memory is refused, or where the copy
/// of the allocator is. Of no bits it takes no memory, and never refuses if the copy of the
/// allocator cannot fail. Costs by words where the order's positions rise or fall, else by bits.
impl<R: BitRegister, O: BitOrder<R>, A: Allocator + Clone> Clone for BitVec<R, O, A> {
    ghost use Rattle.bitvec_vec.specs.BitVec.{vec_bits, bit_allocator};

    ghost is_clone = { λ vec copy. vec_bits copy ≡ vec_bits vec };

    ghost is_infallible = { λ vec. (vec_bits vec ≡ []) × A.is_infallible (bit_allocator vec) };

    fn clone(&self) -> Result<Self, AllocError> {
        let alloc = self.words.allocator().clone()?;
        BitVec::from_bitslice(alloc, self.as_bitslice())
    }
}

/// Whether the vectors have the same bits. What their words have behind the bits has no part in it.
/// By words where the order's positions rise or fall, else by bits.
impl<R: BitRegister, O: BitOrder<R>, A: Allocator> PartialEq for BitVec<R, O, A> {
    ghost use Rattle.std.specs.Bool.{beq};
    ghost use Rattle.std.specs.Cmp.{booleans_Decides, decided, on_per, partial_equiv_from_equiv};
    ghost use Rattle.std.specs.Cmp.Lexicographic.{lists_equiv, pointwise};
    ghost use Rattle.bitvec_vec.specs.BitVec.{vec_bits};

    ghost eq = { λ vec other. pointwise beq (vec_bits vec) (vec_bits other) };

    ghost laws = { on_per vec_bits
        (partial_equiv_from_equiv (lists_equiv (decided beq booleans_Decides))) };

    fn eq(&self, other: &Self) -> bool
        ensures value { result ≡ pointwise beq (vec_bits self.now) (vec_bits other.now) }
        ensures same { IsTrue result ↔ (vec_bits self.now ≡ vec_bits other.now) }
    {
        self.as_bitslice() == other.as_bitslice()
    }
}

impl<R: BitRegister, O: BitOrder<R>, A: Allocator> Eq for BitVec<R, O, A> {
    ghost use Rattle.std.specs.Bool.{beq};
    ghost use Rattle.std.specs.Cmp.{booleans_Decides, decided, on_equiv};
    ghost use Rattle.std.specs.Cmp.Lexicographic.{lists_equiv};
    ghost use Rattle.bitvec_vec.specs.BitVec.{vec_bits};

    ghost laws = { on_equiv vec_bits (lists_equiv (decided beq booleans_Decides)) };
}

/// A vector is hashed as a `&[bool]` of its bits is, and as their slice. By bits.
impl<R: BitRegister, O: BitOrder<R>, A: Allocator> Hash for BitVec<R, O, A> {
    ghost use Rattle.std.specs.Bool.{beq};
    ghost use Rattle.std.specs.Cmp.{booleans_Decides};
    ghost use Rattle.std.specs.Hash as fed;
    ghost use Rattle.std.specs.Hash.{items_Alike, on_Alike, same_Alike};
    ghost use Rattle.bitvec_vec.specs.BitVec.{vec_bits};

    ghost hash_input = { λ it. fed.slice fed.bool (vec_bits it) };

    ghost respects_eq = { (on_Alike vec_bits
        (items_Alike (same_Alike fed.bool booleans_Decides))).fed };

    fn hash<H: Hasher>(&self, state: &mut H) {
        self.as_bitslice().hash(state);
    }
}

/// The order of the slices of the bits, in which any two vectors compare.
impl<R: BitRegister, O: BitOrder<R>, A: Allocator> PartialOrd for BitVec<R, O, A> {
    ghost use Rattle.std.specs.Prelude.{Some, refl};
    ghost use Rattle.std.specs.Cmp.{bool_cmp_total, on_po, partial_order_from_agreeing_total};
    ghost use Rattle.std.specs.Cmp.Lexicographic.{lists_total, lists_ties};
    ghost use Rattle.bitvec_slice.specs.CompareLemmas.{bools_tied};
    ghost use Rattle.bitvec_vec.specs.BitVec.{vec_bits};

    ghost partial_cmp = { λ vec other. Some (slice_cmp bool_cmp (vec_bits vec) (vec_bits other)) };

    ghost laws = { on_po vec_bits (partial_order_from_agreeing_total (slice_cmp bool_cmp)
        (lists_total bool_cmp_total) (λ _ _. refl) (lists_ties bool_cmp bools_tied)) };

    fn partial_cmp(&self, other: &Self) -> Option<Ordering> {
        Some(self.cmp(other))
    }
}

/// The order of the lists of bits, in which `false` is before `true`, and a list before each that
/// it begins. As in the Rust crate.
impl<R: BitRegister, O: BitOrder<R>, A: Allocator> Ord for BitVec<R, O, A> {
    ghost use Rattle.std.specs.Prelude.{refl};
    ghost use Rattle.std.specs.Cmp.{bool_cmp_total, on_total};
    ghost use Rattle.std.specs.Cmp.Lexicographic.{lists_total, lists_ties};
    ghost use Rattle.bitvec_slice.specs.CompareLemmas.{bools_tied};
    ghost use Rattle.bitvec_vec.specs.BitVec.{vec_bits};

    ghost cmp = { λ vec other. slice_cmp bool_cmp (vec_bits vec) (vec_bits other) };

    ghost total = { on_total vec_bits (lists_total bool_cmp_total) };

    ghost matches_partial_cmp = { λ _ _. refl };

    ghost matches_eq = { λ vec other. lists_ties bool_cmp bools_tied
        (vec_bits vec) (vec_bits other) };

    fn cmp(&self, other: &Self) -> Ordering {
        self.as_bitslice().cmp(&other.as_bitslice())
    }
}
