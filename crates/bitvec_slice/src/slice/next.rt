//! What is found in a part of a slice, by whole words.

ghost use Rattle.std.specs.Prelude.{◌≡◌, ◌↔◌, IsTrue, MatchOption, true, false, min, length};

use crate::slice::BitSlice;
use bitvec::mem::BitRegister;
use bitvec::order::BitOrder;

impl<'a, R: BitRegister, O: BitOrder<R>> BitSlice<'a, R, O> {
    ghost use Rattle.bitvec_slice.specs.BitSlice.{slice_bits};
    ghost use Rattle.bitvec_slice.specs.Bits.{AllBetween, IsFirstBetween, IsLastBetween};

    /// The index of the first bit that is one, from index `from` on, and `None` where none is: also
    /// where there are no bits from `from` on. Not in the Rust crate.
    ///
    /// By words. In an order that neither rises nor falls the first word, the last and the one that
    /// has the bit go bit by bit.
    ///
    /// # Examples
    ///
    /// ```
    /// let memory = [0x2Cu8];
    /// let span: BitSpan<u8, Lsb0> = BitSpan::new(0, BitIdx::new_unchecked(0), 8).unwrap();
    /// let slice = BitSlice::new(span, &memory).ok_or("outside")?;
    /// assert_eq!(rt; slice.next_one(3), Some(3));
    /// assert_eq!(rt; slice.next_one(4), Some(5));
    /// assert_eq!(rt; slice.next_one(6), None);
    /// assert_eq!(rt; slice.previous_one(5), Some(3));
    /// assert_eq!(rt; slice.previous_one(2), None);
    /// ```
    #[inline(always)]
    pub fn next_one(&self, from: usize) -> Option<usize>
        ensures { let xs = slice_bits self.now
            in MatchOption result (AllBetween false xs from (length xs))
            (IsFirstBetween true xs from (length xs)) }
    {
        self.first_between(from, self.len(), true)
    }

    /// The index of the first bit that is zero, from index `from` on, and `None` where none is:
    /// also where there are no bits from `from` on. Costs as [`next_one`](BitSlice::next_one) does.
    /// Not in the Rust crate.
    #[inline(always)]
    pub fn next_zero(&self, from: usize) -> Option<usize>
        ensures { let xs = slice_bits self.now
            in MatchOption result (AllBetween true xs from (length xs))
            (IsFirstBetween false xs from (length xs)) }
    {
        self.first_between(from, self.len(), false)
    }

    /// The index of the last bit that is one, of those before index `before`, and `None` where none
    /// is. A `before` past the length is taken as the length. Costs as
    /// [`next_one`](BitSlice::next_one) does. Not in the Rust crate.
    pub fn previous_one(&self, before: usize) -> Option<usize>
        ensures { let xs = slice_bits self.now
            in MatchOption result (AllBetween false xs 0 (min before (length xs)))
            (IsLastBetween true xs 0 (min before (length xs))) }
    {
        self.last_between(0, before.min(self.len()), true)
    }

    /// The index of the last bit that is zero, of those before index `before`, and `None` where
    /// none is. A `before` past the length is taken as the length. Costs as
    /// [`next_one`](BitSlice::next_one) does. Not in the Rust crate.
    pub fn previous_zero(&self, before: usize) -> Option<usize>
        ensures { let xs = slice_bits self.now
            in MatchOption result (AllBetween true xs 0 (min before (length xs)))
            (IsLastBetween false xs 0 (min before (length xs))) }
    {
        self.last_between(0, before.min(self.len()), false)
    }

    /// Whether every bit from index `from` to before index `to` is there and one. True where `to`
    /// is not past `from`. Costs as [`next_one`](BitSlice::next_one) does. Not in the Rust crate.
    ///
    /// # Examples
    ///
    /// ```
    /// let memory = [0x2Cu8];
    /// let span: BitSpan<u8, Lsb0> = BitSpan::new(0, BitIdx::new_unchecked(0), 8).unwrap();
    /// let slice = BitSlice::new(span, &memory).ok_or("outside")?;
    /// assert!(rt; slice.all_in(2, 4));
    /// assert!(rt; !slice.all_in(2, 5));
    /// assert!(rt; slice.any_in(4, 6));
    /// assert!(rt; !slice.any_in(6, 20));
    /// ```
    pub fn all_in(&self, from: usize, to: usize) -> bool
        ensures { IsTrue result ↔ AllBetween true (slice_bits self.now) from to }
    {
        if self.len() < to {
            return to <= from;
        }
        self.first_between(from, to, false).is_none()
    }

    /// Whether some bit from index `from` to before index `to` is there and one. Costs as
    /// [`next_one`](BitSlice::next_one) does. Not in the Rust crate.
    pub fn any_in(&self, from: usize, to: usize) -> bool
        ensures { (result ≡ false) ↔ AllBetween false (slice_bits self.now) from to }
    {
        self.first_between(from, to.min(self.len()), true).is_some()
    }
}
