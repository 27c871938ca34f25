//! The first run of zeros from an index on that begins at a multiple of a number.

ghost use Rattle.std.specs.Prelude.{◌<◌, ◌≤◌, ℕ, MatchOption};
ghost use Rattle.bitvec_slice.specs.Bits.{IsFirstFreeFrom};
ghost use Rattle.bitvec_slice.specs.Patterns.{AreFreeFrom, IsLeast};

use crate::slice::BitSlice;
use bitvec::mem::BitRegister;
use bitvec::order::BitOrder;

impl<'a, R: BitRegister, O: BitOrder<R>> BitSlice<'a, R, O> {
    ghost use Rattle.bitvec_slice.specs.BitSlice.{slice_len, slice_bits};

    // The first index from index `from` on from which on `count` bits are zero.
    fn zeros_after(&self, from: usize, count: usize) -> Option<usize>
        requires { from ≤ slice_len self.now }
        ensures { IsFirstFreeFrom (slice_bits self.now) from count result }
    {
        let (_, rest) = self.split_at(from);
        match rest.find_zeros(count) {
            Some(i) => Some(from + i),
            None => None,
        }
    }

    /// The first index, not before `start` and a multiple of `multiple_of`, from which on `count`
    /// bits are there and zero, and `None` where there is no such index. Requires that
    /// `multiple_of` is not 0; with 1 every index will do. Not in the Rust crate.
    ///
    /// Costs as [`find_zeros`](BitSlice::find_zeros) does, and once more for each run that is long
    /// enough, but not from a multiple on.
    ///
    /// # Examples
    ///
    /// ```
    /// let memory = [0x03u8, 0x10];
    /// let slice = BitSlice::<u8, Lsb0>::all_unchecked(&memory);
    /// assert_eq!(rt; slice.find_zeros_from(0, 3, 1), Some(2));
    /// assert_eq!(rt; slice.find_zeros_from(0, 3, 4), Some(4));
    /// assert_eq!(rt; slice.find_zeros_from(10, 3, 4), None);
    /// assert_eq!(rt; slice.find_zeros_from(10, 3, 1), Some(13));
    /// ```
    pub fn find_zeros_from(&self, start: usize, count: usize, multiple_of: usize) -> Option<usize>
        requires { 0 < multiple_of }
        ensures { let IsRun = AreFreeFrom (slice_bits self.now) start count multiple_of
            in MatchOption result ((i : ℕ) → ¬ IsRun i) (IsLeast IsRun) }
    {
        let len = self.len();
        let mut from = start;
        while from <= len {
            let at = self.zeros_after(from, count)?;
            let past = at % multiple_of;
            if past == 0 {
                return Some(at);
            }
            let gap = multiple_of - past;
            if len - at < gap {
                return None;
            }
            from = at + gap;
        }
        None
    }
}
