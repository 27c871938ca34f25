//! The order `hilo`, which no crate of the layer knows of. It writes the three calls of an order
//! itself.

ghost use Rattle.std.specs.Prelude.{◌≡◌, ℕ, ◌^◌, ◌≤◌};
ghost use Rattle.bitvec.specs.Order.{mask_start, mask_end, plain_mask_of};
ghost use Rattle.bitvec.specs.OrderLemmas.{plain_selects, plain_masks};
ghost use Rattle.bits_text.specs.HiLo.{swapped_index, swapped_one_to_one};

use bitvec::index::{BitEnd, BitIdx, BitMask, BitPos, BitSel};
use bitvec::mem::BitRegister;
use bitvec::order::{BitAt, BitOrder, OrderCandidate, plain_mask, plain_select};

/// The order that swaps the halves of each byte: index i has the position i xor 4.
#[derive(Clone, Copy, Debug, Default, PartialEq, Eq, PartialOrd, Ord, Hash)]
pub struct HiLo;

impl<R: BitRegister> BitAt<R> for HiLo {
    ghost at_of = { swapped_index };

    fn at(index: BitIdx<R>) -> BitPos<R>
        ensures { result ≡ swapped_index index }
    {
        BitPos::new_unchecked(index.into_inner() ^ 4)
    }
}

impl<R: BitRegister> OrderCandidate<R> for HiLo {
    ghost select_of = { λ i. 2 ^ swapped_index i };

    ghost mask_of = { λ from upto.
        plain_mask_of swapped_index (mask_start from) (mask_end R.BITS upto) };

    fn select(index: BitIdx<R>) -> BitSel<R>
        ensures { result ≡ 2 ^ swapped_index index }
    {
        plain_select::<R, HiLo>(index)
    }

    fn mask(from: Option<BitIdx<R>>, upto: Option<BitEnd<R>>) -> BitMask<R>
        requires { mask_start from ≤ mask_end R.BITS upto }
        ensures { result ≡ plain_mask_of swapped_index (mask_start from) (mask_end R.BITS upto) }
    {
        plain_mask::<R, HiLo>(from, upto)
    }
}

impl<R: BitRegister> BitOrder<R> for HiLo {
    ghost one_to_one = { swapped_one_to_one R.BITS R.INDX R.width_is_power_of_two
        R.exponent_at_least_3 };

    ghost selects = { plain_selects R.BITS swapped_index };

    ghost masks = { plain_masks R.BITS swapped_index
        (swapped_one_to_one R.BITS R.INDX R.width_is_power_of_two R.exponent_at_least_3).below };
}
