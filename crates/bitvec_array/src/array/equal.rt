//! Whether two arrays have the same bits, their order, and what they are hashed as.

ghost use Rattle.std.specs.Prelude.{◌≡◌, ◌↔◌, IsTrue};
ghost use Rattle.std.specs.Cmp.Lexicographic.{slice_cmp};
ghost use Rattle.std.specs.Ordering.{bool_cmp};

use crate::array::BitArray;
use bitvec::order::BitOrder;
use std::cmp::Ordering;
use std::hash::{Hash, Hasher};

/// Whether the arrays have the same bits. By words where the order's positions rise or fall, else
/// by bits.
impl<O: BitOrder<usize>, const N: usize> PartialEq for BitArray<O, N> {
    ghost use Rattle.std.specs.Bool.{beq};
    ghost use Rattle.std.specs.Cmp.{booleans_Decides, decided, on_per, partial_equiv_from_equiv};
    ghost use Rattle.std.specs.Cmp.Lexicographic.{lists_equiv, pointwise};
    ghost use Rattle.bitvec_array.specs.BitArray.{array_bits};

    ghost eq = { λ array other. pointwise beq (array_bits array) (array_bits other) };

    ghost laws = { on_per array_bits
        (partial_equiv_from_equiv (lists_equiv (decided beq booleans_Decides))) };

    fn eq(&self, other: &Self) -> bool
        ensures value { result ≡ pointwise beq (array_bits self.now) (array_bits other.now) }
        ensures same { IsTrue result ↔ (array_bits self.now ≡ array_bits other.now) }
    {
        self.as_bitslice() == other.as_bitslice()
    }
}

impl<O: BitOrder<usize>, const N: usize> Eq for BitArray<O, N> {
    ghost use Rattle.std.specs.Bool.{beq};
    ghost use Rattle.std.specs.Cmp.{booleans_Decides, decided, on_equiv};
    ghost use Rattle.std.specs.Cmp.Lexicographic.{lists_equiv};
    ghost use Rattle.bitvec_array.specs.BitArray.{array_bits};

    ghost laws = { on_equiv array_bits (lists_equiv (decided beq booleans_Decides)) };
}

/// An array is hashed as a `&[bool]` of its bits is, and as their slice. By bits.
impl<O: BitOrder<usize>, const N: usize> Hash for BitArray<O, N> {
    ghost use Rattle.std.specs.Bool.{beq};
    ghost use Rattle.std.specs.Cmp.{booleans_Decides};
    ghost use Rattle.std.specs.Hash as fed;
    ghost use Rattle.std.specs.Hash.{items_Alike, on_Alike, same_Alike};
    ghost use Rattle.bitvec_array.specs.BitArray.{array_bits};

    ghost hash_input = { λ it. fed.slice fed.bool (array_bits it) };

    ghost respects_eq = { (on_Alike array_bits
        (items_Alike (same_Alike fed.bool booleans_Decides))).fed };

    fn hash<H: Hasher>(&self, state: &mut H) {
        self.as_bitslice().hash(state);
    }
}

/// The order of the slices of the bits, in which any two arrays compare.
impl<O: BitOrder<usize>, const N: usize> PartialOrd for BitArray<O, N> {
    ghost use Rattle.std.specs.Prelude.{Some, refl};
    ghost use Rattle.std.specs.Cmp.{bool_cmp_total, on_po, partial_order_from_agreeing_total};
    ghost use Rattle.std.specs.Cmp.Lexicographic.{lists_total, lists_ties};
    ghost use Rattle.bitvec_slice.specs.CompareLemmas.{bools_tied};
    ghost use Rattle.bitvec_array.specs.BitArray.{array_bits};

    ghost partial_cmp = { λ array other. Some
        (slice_cmp bool_cmp (array_bits array) (array_bits other)) };

    ghost laws = { on_po array_bits (partial_order_from_agreeing_total (slice_cmp bool_cmp)
        (lists_total bool_cmp_total) (λ _ _. refl) (lists_ties bool_cmp bools_tied)) };

    fn partial_cmp(&self, other: &Self) -> Option<Ordering> {
        Some(self.cmp(other))
    }
}

/// The order of the lists of bits, in which `false` is before `true`. As in the Rust crate.
impl<O: BitOrder<usize>, const N: usize> Ord for BitArray<O, N> {
    ghost use Rattle.std.specs.Prelude.{refl};
    ghost use Rattle.std.specs.Cmp.{bool_cmp_total, on_total};
    ghost use Rattle.std.specs.Cmp.Lexicographic.{lists_total, lists_ties};
    ghost use Rattle.bitvec_slice.specs.CompareLemmas.{bools_tied};
    ghost use Rattle.bitvec_array.specs.BitArray.{array_bits};

    ghost cmp = { λ array other. slice_cmp bool_cmp (array_bits array) (array_bits other) };

    ghost total = { on_total array_bits (lists_total bool_cmp_total) };

    ghost matches_partial_cmp = { λ _ _. refl };

    ghost matches_eq = { λ array other. lists_ties bool_cmp bools_tied
        (array_bits array) (array_bits other) };

    fn cmp(&self, other: &Self) -> Ordering {
        self.as_bitslice().cmp(&other.as_bitslice())
    }
}
