//! What becomes of a bit of the target where one of the source meets it: that of a copy, and those
//! of the operators on sets.

ghost use Rattle.std.specs.Prelude.{◌≡◌, ℕ, ◌<◌, ◌&&◌, ◌||◌, Bool, not};
ghost use Rattle.bitvec_mem.specs.Digit.{digit, exclusive_or};

use bitvec_mem::mem::BitRegister;

/// What becomes of a bit of the target where one of the source meets it.
///
/// It is a type, which the calls `combine_to`, `combine_within`, `combine_through` and
/// `combine_within_through` of a [`BitPtr`](crate::ptr::single::BitPtr) are handed. Five stand
/// here, and a new one says its bit as the ghost `of` and has two functions on words: the source's
/// bits are gathered into the word that [`ground`](Combine::ground) gives, and
/// [`word`](Combine::word) combines the two words whole. There is such a word only where each bit
/// of the target has a bit of the source that leaves it as it is. Not in the Rust crate.
///
/// # Examples
///
/// ```
/// let memory = [0b0011u8];
/// let mut target = [0b0101u8];
/// let first: BitPtr<u8, Lsb0> = BitPtr::new(0, BitIdx::MIN);
/// first.combine_to::<AndNot, u8, Lsb0>(&memory, first, &mut target, 4);
/// assert_eq!(rt; target, [0b0100]);
/// ```
pub trait Combine {
    // The new bit: of the target's and the source's.
    ghost of: { Bool → Bool → Bool };

    /// The word that the source's bits are gathered into: `old` combined with it is `old`.
    fn ground<R: BitRegister>(old: R) -> R
        ensures { (p : ℕ) → p < R.BITS
            → of (digit (R.number old) p) (digit (R.number result) p) ≡ digit (R.number old) p };

    /// The target's word combined with a word of the source, bit by bit.
    fn word<R: BitRegister>(old: R, with: R) -> R
        ensures { (p : ℕ) → p < R.BITS → digit (R.number result) p
            ≡ of (digit (R.number old) p) (digit (R.number with) p) };
}

/// The source's bit, as in a copy. Not in the Rust crate.
pub struct Source;

/// Whether both bits are set, as for the intersection of two sets. Not in the Rust crate.
pub struct And;

/// Whether at least one of the bits is set, as for the union of two sets. Not in the Rust crate.
pub struct Or;

/// Whether just one of the bits is set, as for the symmetric difference of two sets. Not in the
/// Rust crate.
pub struct Xor;

/// Whether the target's bit alone is set, as for the difference of two sets. Not in the Rust crate.
pub struct AndNot;

impl Combine for Source {
    ghost of = { λ t s. s };

    fn ground<R: BitRegister>(old: R) -> R {
        old
    }

    fn word<R: BitRegister>(_old: R, with: R) -> R {
        with
    }
}

impl Combine for And {
    ghost of = { λ t s. t && s };

    fn ground<R: BitRegister>(_old: R) -> R {
        R::ALL
    }

    fn word<R: BitRegister>(old: R, with: R) -> R {
        old.and(with)
    }
}

impl Combine for Or {
    ghost of = { λ t s. t || s };

    fn ground<R: BitRegister>(_old: R) -> R {
        R::ZERO
    }

    fn word<R: BitRegister>(old: R, with: R) -> R {
        old.or(with)
    }
}

impl Combine for Xor {
    ghost of = { exclusive_or };

    fn ground<R: BitRegister>(_old: R) -> R {
        R::ZERO
    }

    fn word<R: BitRegister>(old: R, with: R) -> R {
        old.xor(with)
    }
}

impl Combine for AndNot {
    ghost of = { λ t s. t && not s };

    fn ground<R: BitRegister>(_old: R) -> R {
        R::ZERO
    }

    fn word<R: BitRegister>(old: R, with: R) -> R {
        old.and(with.not())
    }
}
