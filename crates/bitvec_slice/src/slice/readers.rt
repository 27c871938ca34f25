//! What everything that holds bits is asked without a change: each call is that of its bits' slice.

ghost use Rattle.std.specs.Prelude.{◌≡◌, ◌↔◌, ◌-◌, ◌+◌, ◌^◌, ◌<◌, ◌≤◌, ℕ, IsTrue, MatchOption};
ghost use Rattle.std.specs.Prelude.{IsSome, IfSome, true, false, min, length, take, drop};
ghost use Rattle.std.specs.Prelude.{slice_range, Bool, List};
ghost use Rattle.bitvec.specs.Span.{element, span_upto, span_from, span_range};
ghost use Rattle.bitvec.specs.Truths.{ones_in, AllAre, IsFirst};
ghost use Rattle.bitvec_slice.specs.Bits.{zeros_in, IsLast, IsLastOf, BeginsWith, EndsWith, IsFirstFree};
ghost use Rattle.bitvec_slice.specs.Bits.{AllBetween, IsFirstBetween, IsLastBetween};
ghost use Rattle.bitvec_slice.specs.Bits.{ones_between, zeros_between};
ghost use Rattle.bitvec_slice.specs.SameBits.{AreSameBits};
ghost use Rattle.bitvec_slice.specs.BitSlice.{slice_bits, slice_memory, slice_span, slice_len};
ghost use Rattle.bitvec_slice.specs.Ones.{ones_left, zeros_left};

use crate::slice::{BitSlice, BitSliceMut, Iter, IterOnes, IterZeros};
use bitvec::mem::BitRegister;
use bitvec::order::BitOrder;

/// What holds bits: a [`BitSliceMut`], a vector, an array. The questions of a [`BitSlice`] are
/// asked of it as they are of its slice, and have the same contracts and costs.
///
/// An impl gives the list and the slice; the rest follows. In the Rust crate a slice for writing is
/// a reference to a slice, and a vector and an array dereference to one.
pub trait ReadBits<R: BitRegister, O: BitOrder<R>> {
    // its bits, in order
    ghost bits: { Self → List Bool };

    /// Its bits, for reading. Constant time.
    fn as_bitslice(&self) -> BitSlice<'_, R, O>
        ensures bits { slice_bits result ≡ bits self.now };

    /// The first bit, and `None` where there are no bits. Constant time.
    final fn first(&self) -> Option<bool>
        ensures { MatchOption result (length (bits self.now) ≡ 0)
            (λ bit. (0 < length (bits self.now))
            × (bit ≡ element (bits self.now) 0)) }
    {
        self.as_bitslice().first()
    }

    /// The last bit, and `None` where there are no bits. Constant time.
    final fn last(&self) -> Option<bool>
        ensures { IsLastOf (bits self.now) result }
    {
        self.as_bitslice().last()
    }

    /// How many bits are one. Costs by words.
    final fn count_ones(&self) -> usize
        ensures { result ≡ ones_in (bits self.now) }
    {
        self.as_bitslice().count_ones()
    }

    /// How many bits are zero. Costs by words.
    final fn count_zeros(&self) -> usize
        ensures { result ≡ zeros_in (bits self.now) }
    {
        self.as_bitslice().count_zeros()
    }

    /// The index of the first bit that is one, and `None` where none is. Costs as
    /// [`first_one`](BitSlice::first_one) of a [`BitSlice`] does, and so do the other finders here
    /// and the tests.
    final fn first_one(&self) -> Option<usize>
        ensures { MatchOption result (AllAre false (bits self.now))
            (IsFirst true (bits self.now)) }
    {
        self.as_bitslice().first_one()
    }

    /// The index of the first bit that is zero, and `None` where none is.
    final fn first_zero(&self) -> Option<usize>
        ensures { MatchOption result (AllAre true (bits self.now))
            (IsFirst false (bits self.now)) }
    {
        self.as_bitslice().first_zero()
    }

    /// The index of the last bit that is one, and `None` where none is.
    final fn last_one(&self) -> Option<usize>
        ensures { MatchOption result (AllAre false (bits self.now))
            (IsLast true (bits self.now)) }
    {
        self.as_bitslice().last_one()
    }

    /// The index of the last bit that is zero, and `None` where none is.
    final fn last_zero(&self) -> Option<usize>
        ensures { MatchOption result (AllAre true (bits self.now))
            (IsLast false (bits self.now)) }
    {
        self.as_bitslice().last_zero()
    }

    /// How many bits are zero before the first that is one; all, where none is.
    final fn leading_zeros(&self) -> usize
        ensures { BeginsWith false (bits self.now) result }
    {
        self.as_bitslice().leading_zeros()
    }

    /// How many bits are one before the first that is zero; all, where none is.
    final fn leading_ones(&self) -> usize
        ensures { BeginsWith true (bits self.now) result }
    {
        self.as_bitslice().leading_ones()
    }

    /// How many bits are zero behind the last that is one; all, where none is.
    final fn trailing_zeros(&self) -> usize
        ensures { EndsWith false (bits self.now) result }
    {
        self.as_bitslice().trailing_zeros()
    }

    /// How many bits are one behind the last that is zero; all, where none is.
    final fn trailing_ones(&self) -> usize
        ensures { EndsWith true (bits self.now) result }
    {
        self.as_bitslice().trailing_ones()
    }

    /// Whether some bit is one.
    final fn any(&self) -> bool
        ensures { (result ≡ false) ↔ AllAre false (bits self.now) }
    {
        self.as_bitslice().any()
    }

    /// Whether no bit is one.
    final fn not_any(&self) -> bool
        ensures { IsTrue result ↔ AllAre false (bits self.now) }
    {
        self.as_bitslice().not_any()
    }

    /// Whether every bit is one: `all` in the Rust crate, a name that makes a slice here.
    final fn all_ones(&self) -> bool
        ensures { IsTrue result ↔ AllAre true (bits self.now) }
    {
        self.as_bitslice().all_ones()
    }

    /// Whether some bit is zero.
    final fn not_all(&self) -> bool
        ensures { (result ≡ false) ↔ AllAre true (bits self.now) }
    {
        self.as_bitslice().not_all()
    }

    /// Whether every bit from index `from` to before index `to` is there and one. True where `to`
    /// is not past `from`.
    final fn all_in(&self, from: usize, to: usize) -> bool
        ensures { IsTrue result ↔ AllBetween true (bits self.now) from to }
    {
        self.as_bitslice().all_in(from, to)
    }

    /// Whether some bit from index `from` to before index `to` is there and one.
    final fn any_in(&self, from: usize, to: usize) -> bool
        ensures { (result ≡ false) ↔ AllBetween false (bits self.now) from to }
    {
        self.as_bitslice().any_in(from, to)
    }

    /// The index of the first bit that is one, from index `from` on, and `None` where none is.
    final fn next_one(&self, from: usize) -> Option<usize>
        ensures { let xs = bits self.now
            in MatchOption result (AllBetween false xs from (length xs))
            (IsFirstBetween true xs from (length xs)) }
    {
        self.as_bitslice().next_one(from)
    }

    /// The index of the first bit that is zero, from index `from` on, and `None` where none is.
    final fn next_zero(&self, from: usize) -> Option<usize>
        ensures { let xs = bits self.now
            in MatchOption result (AllBetween true xs from (length xs))
            (IsFirstBetween false xs from (length xs)) }
    {
        self.as_bitslice().next_zero(from)
    }

    /// The index of the last bit that is one, of those before index `before`, and `None` where none
    /// is. A `before` past the length is taken as the length.
    final fn previous_one(&self, before: usize) -> Option<usize>
        ensures { let xs = bits self.now
            in MatchOption result (AllBetween false xs 0 (min before (length xs)))
            (IsLastBetween true xs 0 (min before (length xs))) }
    {
        self.as_bitslice().previous_one(before)
    }

    /// The index of the last bit that is zero, of those before index `before`, and `None` where
    /// none is. A `before` past the length is taken as the length.
    final fn previous_zero(&self, before: usize) -> Option<usize>
        ensures { let xs = bits self.now
            in MatchOption result (AllBetween true xs 0 (min before (length xs)))
            (IsLastBetween false xs 0 (min before (length xs))) }
    {
        self.as_bitslice().previous_zero(before)
    }

    /// The first index from which on `count` bits are there and zero, and `None` where there is no
    /// such index. Costs as [`find_zeros`](BitSlice::find_zeros) of a [`BitSlice`] does. Not in the
    /// Rust crate.
    ///
    /// # Examples
    ///
    /// Three free blocks are found and taken.
    ///
    /// ```
    /// let mut memory = [0x93u8, 0x00];
    /// let mut blocks = BitSliceMut::<u8, Lsb0>::all_unchecked(&mut memory);
    /// assert_eq!(rt; blocks.count_ones(), 4);
    /// let at = blocks.find_zeros(3).ok_or("full")?;
    /// blocks.fill_range(at, at + 3, true);
    /// assert_eq!(rt; blocks.next_zero(0), Some(2));
    /// assert_eq!(rt; memory, [0x93, 0x07]);
    /// ```
    final fn find_zeros(&self, count: usize) -> Option<usize>
        ensures { IsFirstFree (bits self.now) count result }
    {
        self.as_bitslice().find_zeros(count)
    }

    /// The indices of the bits that are one, in rising order or from the back. Costs as
    /// [`BitSlice::iter_ones`].
    final fn iter_ones(&self) -> IterOnes<'_, R, O>
        ensures { ones_left result
            ≡ ones_between (bits self.now) 0 (length (bits self.now)) }
    {
        self.as_bitslice().iter_ones()
    }

    /// The indices of the bits that are zero, in rising order or from the back. Costs as
    /// [`BitSlice::iter_zeros`].
    final fn iter_zeros(&self) -> IterZeros<'_, R, O>
        ensures { zeros_left result
            ≡ zeros_between (bits self.now) 0 (length (bits self.now)) }
    {
        self.as_bitslice().iter_zeros()
    }

    /// Whether a slice has the same bits, whatever its register and order are. Costs as
    /// [`equals`](BitSlice::equals) of a [`BitSlice`] does.
    final fn equals<R2: BitRegister, O2: BitOrder<R2>>(&self, other: &BitSlice<'_, R2, O2>) -> bool
        ensures list { IsTrue result ↔ (bits self.now ≡ slice_bits other.now) }
        ensures each { IsTrue result ↔ AreSameBits (bits self.now) (slice_bits other.now) }
    {
        self.as_bitslice().equals(other)
    }
}

impl<'a, R: BitRegister, O: BitOrder<R>> ReadBits<R, O> for BitSlice<'a, R, O> {
    ghost bits = { slice_bits };

    #[inline(always)]
    fn as_bitslice(&self) -> BitSlice<'_, R, O>
        ensures bits { slice_bits result ≡ slice_bits self.now }

        // They lie where the slice lies.
        ensures memory { slice_memory result ≡ slice_memory self.now }
        ensures span { slice_span result ≡ slice_span self.now }
    {
        BitSlice::new_unchecked(self.span, self.memory)
    }
}

impl<'a, R: BitRegister, O: BitOrder<R>> ReadBits<R, O> for BitSliceMut<'a, R, O> {
    ghost use Rattle.bitvec_slice.specs.BitSliceMut.{lent_bits};

    ghost bits = { lent_bits };

    #[inline(always)]
    fn as_bitslice(&self) -> BitSlice<'_, R, O> {
        BitSliceMut::as_bitslice(self)
    }
}

impl<'a, R: BitRegister, O: BitOrder<R>> BitSliceMut<'a, R, O> {
    ghost use Rattle.bitvec_slice.specs.BitSliceMut.{lent_memory, lent_span, lent_len, lent_bits};
    ghost use Rattle.bitvec_slice.specs.Iter.{iter_memory, iter_span, iter_left};
    ghost use Rattle.bitvec_slice.specs.Iter.{GivesBitsInOrder, GivesBitsInReverse};

    /// The bits from number `from` to before number `to`, for reading, and `None` exactly where
    /// these are not in order or `to` passes the length. Constant time.
    pub fn get_range(&self, from: usize, to: usize) -> Option<BitSlice<'_, R, O>>
        ensures accepted { IsSome result ↔ ((from ≤ to) × (to ≤ lent_len self.now)) }
        ensures bits { IfSome result (λ part. slice_bits part
            ≡ slice_range (lent_bits self.now) from to) }
        ensures len { IfSome result (λ part. slice_len part ≡ to - from) }
        ensures memory { IfSome result (λ part. slice_memory part
            ≡ (lent_memory self.now).now) }
        ensures span { IfSome result (λ part. slice_span part
            ≡ span_range R.BITS (lent_span self.now) from to) }
    {
        self.as_bitslice().get_range(from, to)
    }

    /// Its bits as truth values, in order or from the back. Constant time, and so is each call of
    /// `next`.
    #[inline(always)]
    pub fn iter(&self) -> Iter<'_, R, O>
        ensures rest { iter_left result ≡ lent_bits self.now }
        ensures bound { length (iter_left result) < 2 ^ 64 }
        ensures memory { iter_memory result ≡ (lent_memory self.now).now }
        ensures span { iter_span result ≡ lent_span self.now }

        // Facts of the type, as of the iterator of a slice for reading.
        ensures runs { GivesBitsInOrder result }
        ensures runs_back { GivesBitsInReverse result }
    {
        self.as_bitslice().iter()
    }
}
