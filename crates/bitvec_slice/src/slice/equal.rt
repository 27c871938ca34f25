//! Whether two slices have the same bits, whatever their registers and orders are, and what they
//! are hashed as.

ghost use Rattle.std.specs.Prelude.{◌≡◌, ◌↔◌, IsTrue};
ghost use Rattle.bitvec_slice.specs.BitSlice.{slice_bits};
ghost use Rattle.bitvec_slice.specs.SameBits.{AreSameBits};

use crate::slice::BitSlice;
use bitvec::mem::BitRegister;
use bitvec::order::BitOrder;
use bitvec::ptr::combine::Xor;
use std::hash::{Hash, Hasher};

impl<'a, R: BitRegister, O: BitOrder<R>> BitSlice<'a, R, O> {
    // Whether another slice has the same bits, whatever its register and order are.
    fn has_bits<R2: BitRegister, O2: BitOrder<R2>>(&self, other: &BitSlice<'_, R2, O2>) -> bool
        ensures { IsTrue result ↔ (slice_bits self.now ≡ slice_bits other.now) }
    {
        if self.len() != other.len() {
            return false;
        }
        let (here, there) = (self.span, other.span);
        let first = here.first_with::<Xor, R2, O2>(self.memory, there, other.memory);
        first.is_none()
    }

    /// Whether another slice has the same bits, whatever its register and order are. By words where
    /// the positions of both orders rise or those of both fall, else by bits; it stops at the first
    /// word that differs. Not in the Rust crate, which has `==` between slices of two types.
    pub fn equals<R2: BitRegister, O2: BitOrder<R2>>(&self, other: &BitSlice<'_, R2, O2>) -> bool
        ensures list { IsTrue result ↔ (slice_bits self.now ≡ slice_bits other.now) }
        ensures each { IsTrue result ↔ AreSameBits (slice_bits self.now) (slice_bits other.now) }
    {
        self.has_bits(other)
    }
}

/// Whether the slices have the same bits, as [`equals`](BitSlice::equals).
impl<'a, R: BitRegister, O: BitOrder<R>> PartialEq for BitSlice<'a, R, O> {
    ghost use Rattle.std.specs.Bool.{beq};
    ghost use Rattle.std.specs.Cmp.{booleans_Decides, decided, on_per, partial_equiv_from_equiv};
    ghost use Rattle.std.specs.Cmp.Lexicographic.{lists_equiv, pointwise};

    ghost eq = { λ slice other. pointwise beq (slice_bits slice) (slice_bits other) };

    ghost laws = { on_per slice_bits
        (partial_equiv_from_equiv (lists_equiv (decided beq booleans_Decides))) };

    fn eq(&self, other: &Self) -> bool
        ensures value { result ≡ pointwise beq (slice_bits self.now) (slice_bits other.now) }
        ensures same { IsTrue result ↔ (slice_bits self.now ≡ slice_bits other.now) }
    {
        self.equals(other)
    }
}

impl<'a, R: BitRegister, O: BitOrder<R>> Eq for BitSlice<'a, R, O> {
    ghost use Rattle.std.specs.Bool.{beq};
    ghost use Rattle.std.specs.Cmp.{booleans_Decides, decided, on_equiv};
    ghost use Rattle.std.specs.Cmp.Lexicographic.{lists_equiv};

    ghost laws = { on_equiv slice_bits (lists_equiv (decided beq booleans_Decides)) };
}

/// A slice is hashed as a `&[bool]` of its bits is, so slices that
/// [`equals`](BitSlice::equals) finds equal are hashed alike, whatever their registers and orders
/// are. By bits. The Rust crate feeds the bits alone.
impl<'a, R: BitRegister, O: BitOrder<R>> Hash for BitSlice<'a, R, O> {
    ghost use Rattle.std.specs.Bool.{beq};
    ghost use Rattle.std.specs.Cmp.{booleans_Decides};
    ghost use Rattle.std.specs.Hash as fed;
    ghost use Rattle.std.specs.Hash.{items_Alike, on_Alike, same_Alike};

    ghost hash_input = { λ it. fed.slice fed.bool (slice_bits it) };

    ghost respects_eq = { (on_Alike slice_bits (items_Alike (same_Alike fed.bool booleans_Decides))).fed };

    fn hash<H: Hasher>(&self, state: &mut H) {
        state.write_usize(self.len());
        for i in 0..self.len() {
            self.get_unchecked(i).hash(state);
        }
    }
}
