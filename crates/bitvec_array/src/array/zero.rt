//! The array of zeros as a constant.

ghost use Rattle.bitvec_array.specs.BitArray.{zero_array};

use crate::array::BitArray;
use bitvec::order::BitOrder;
use std::marker::PhantomData;

/// The array of zeros, as a constant of its type.
///
/// `BitArray::ZERO` is read with this trait in scope: a constant of a generic type can say its
/// value in a contract only as the item of a trait.
pub trait ZeroArray: Sized {
    /// Every bit zero.
    const ZERO: Self;

    ghost ZERO: { Self };
}

impl<O: BitOrder<usize>, const N: usize> ZeroArray for BitArray<O, N> {
    const ZERO: Self = BitArray {
        words: [0; N],
        of: PhantomData,
    };

    ghost ZERO = { zero_array };
}
