//! What an array is asked without a change, by the calls of its bits' slice, which has more.

ghost use Rattle.std.specs.Prelude.{◌≡◌, ◌^◌, ◌<◌, length};
ghost use Rattle.bitvec.specs.Span.{front_span};
ghost use Rattle.bitvec_array.specs.Array.{array_len};

use crate::array::BitArray;
use bitvec::order::BitOrder;
use bitvec_slice::slice::{BitSlice, Iter, ReadBits};

impl<O: BitOrder<usize>, const N: usize> ReadBits<usize, O> for BitArray<O, N> {
    ghost use Rattle.bitvec_array.specs.BitArray.{array_bits};

    ghost bits = { array_bits };

    fn as_bitslice(&self) -> BitSlice<'_, usize, O> {
        BitArray::as_bitslice(self)
    }
}

impl<O: BitOrder<usize>, const N: usize> BitArray<O, N> {
    ghost use Rattle.bitvec_slice.specs.Iter.{iter_span, iter_left};
    ghost use Rattle.bitvec_slice.specs.Iter.{GivesBitsInOrder, GivesBitsInReverse};
    ghost use Rattle.bitvec_array.specs.BitArray.{array_bits};

    /// Its bits as truth values, in order or from the back. Constant time, and so is each call of
    /// `next`.
    pub fn iter(&self) -> Iter<'_, usize, O>
        ensures rest { iter_left result ≡ array_bits self.now }
        ensures bound { length (iter_left result) < 2 ^ 64 }
        ensures span { iter_span result ≡ front_span (array_len N) }

        // Facts of the type, as of the iterator of a slice for reading.
        ensures runs { GivesBitsInOrder result }
        ensures runs_back { GivesBitsInReverse result }
    {
        self.as_bitslice().iter()
    }
}
