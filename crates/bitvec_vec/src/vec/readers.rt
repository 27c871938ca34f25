//! What a vector is asked without a change, by the calls of its bits' slice, which has more.

ghost use Rattle.std.specs.Prelude.{◌≡◌, ◌-◌, ◌^◌, ◌<◌, ◌≤◌, length, slice_range};
ghost use Rattle.bitvec.specs.Span.{front_span};
ghost use Rattle.bitvec_slice.specs.Numbers.{number_le, number_be};

use crate::vec::BitVec;
use bitvec::mem::BitRegister;
use bitvec::order::BitOrder;
use bitvec_slice::slice::{BitSlice, Iter, ReadBits};
use std::alloc::Allocator;

/// The questions of a slice, asked of a vector.
///
/// # Examples
///
/// ```
/// let bits = BitVec::<u8, Msb0>::from_text(rt.alloc(), "0010110010")?;
/// assert_eq!(rt; bits.count_ones(), 4);
/// assert_eq!(rt; bits.count_zeros(), 6);
/// assert_eq!(rt; bits.first_one(), Some(2));
/// assert_eq!(rt; bits.last_one(), Some(8));
/// assert_eq!(rt; bits.first_zero(), Some(0));
/// assert!(rt; bits.any() && bits.not_all());
/// let mut ones = bits.iter_ones();
/// assert_eq!(rt; ones.next(), Some(2));
/// assert_eq!(rt; ones.next_back(), Some(8));
/// assert_eq!(rt; ones.next(), Some(4));
/// ```
impl<R: BitRegister, O: BitOrder<R>, A: Allocator> ReadBits<R, O> for BitVec<R, O, A> {
    ghost use Rattle.bitvec_vec.specs.BitVec.{vec_bits};

    ghost bits = { vec_bits };

    fn as_bitslice(&self) -> BitSlice<'_, R, O> {
        BitVec::as_bitslice(self)
    }
}

impl<R: BitRegister, O: BitOrder<R>, A: Allocator> BitVec<R, O, A> {
    ghost use Rattle.bitvec_slice.specs.Iter.{iter_span, iter_left};
    ghost use Rattle.bitvec_slice.specs.Iter.{GivesBitsInOrder, GivesBitsInReverse};
    ghost use Rattle.bitvec_vec.specs.BitVec.{vec_bits};

    /// Its bits as truth values, in order or from the back. Constant time, and so is each call of
    /// `next`.
    pub fn iter(&self) -> Iter<'_, R, O>
        ensures rest { iter_left result ≡ vec_bits self.now }
        ensures bound { length (iter_left result) < 2 ^ 64 }
        ensures span { iter_span result ≡ front_span (length (vec_bits self.now)) }

        // Facts of the type, as of the iterator of a slice for reading.
        ensures runs { GivesBitsInOrder result }
        ensures runs_back { GivesBitsInReverse result }
    {
        self.as_bitslice().iter()
    }

    /// The number whose digits the bits from number `from` to before number `to` are, the first the
    /// lowest. No bits are 0.
    ///
    /// Requires that `from` is at most `to`, `to` at most the length, and that the part has no more
    /// bits than the number type has digits. By words where positions rise with the index, else by
    /// bits. Not in the Rust crate.
    pub fn load_digits_le<N: BitRegister>(&self, from: usize, to: usize) -> N
        requires ordered { from ≤ to }
        requires inside { to ≤ length (vec_bits self.now) }
        requires small { to - from ≤ N.BITS }
        ensures { N.number result ≡ number_le (slice_range (vec_bits self.now) from to) }
    {
        self.as_bitslice().load_digits_le(from, to)
    }

    /// The number whose digits the bits from number `from` to before number `to` are, the first the
    /// highest. No bits are 0.
    ///
    /// Requires that `from` is at most `to`, `to` at most the length, and that the part has no more
    /// bits than the number type has digits. By words where positions fall with the index, else by
    /// bits. Not in the Rust crate.
    pub fn load_digits_be<N: BitRegister>(&self, from: usize, to: usize) -> N
        requires ordered { from ≤ to }
        requires inside { to ≤ length (vec_bits self.now) }
        requires small { to - from ≤ N.BITS }
        ensures { N.number result ≡ number_be (slice_range (vec_bits self.now) from to) }
    {
        self.as_bitslice().load_digits_be(from, to)
    }
}
