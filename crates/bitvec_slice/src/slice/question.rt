//! Questions of two slices, whatever their registers and orders are: no bit of either is moved.

ghost use Rattle.std.specs.Prelude.{◌≡◌, ◌↔◌, ◌&&◌, ◌||◌, IsTrue, true, false, not, MatchOption};
ghost use Rattle.std.specs.List.{AllZip};
ghost use Rattle.bitvec.specs.Digit.{exclusive_or};
ghost use Rattle.bitvec.specs.Memory.{zip_with};
ghost use Rattle.bitvec.specs.Truths.{ones_in, AllAre, IsFirst};

use crate::slice::BitSlice;
use bitvec::mem::BitRegister;
use bitvec::order::BitOrder;
use bitvec::ptr::combine::{And, AndNot, Or, Xor};

impl<'a, R: BitRegister, O: BitOrder<R>> BitSlice<'a, R, O> {
    ghost use Rattle.bitvec_slice.specs.BitSlice.{slice_len, slice_bits};

    /// Whether each bit that is set in the slice is set in another: whether the one set is a subset
    /// of the other.
    ///
    /// Requires that the other slice has the same length: [`len`](BitSlice::len) is the test. Stops
    /// at the first word that decides. By words where the positions of both orders rise or those of
    /// both fall, else by bits. Not in the Rust crate.
    ///
    /// # Examples
    ///
    /// ```
    /// let memory = [0x0Cu8];
    /// let span: BitSpan<u8, Lsb0> = BitSpan::at(0, 8).unwrap();
    /// let few = BitSlice::new(span, &memory).ok_or("outside")?;
    /// let words = [0x0038u16];
    /// let span: BitSpan<u16, Msb0> = BitSpan::at(8, 8).unwrap();
    /// let many = BitSlice::new(span, &words).ok_or("outside")?;
    /// assert!(rt; few.is_subset(&many));
    /// assert!(rt; !many.is_subset(&few));
    /// ```
    pub fn is_subset<R2: BitRegister, O2: BitOrder<R2>>(&self, other: &BitSlice<'_, R2, O2>) -> bool
        requires { slice_len other.now ≡ slice_len self.now }
        ensures { IsTrue result
            ↔ AllZip (λ x y. IsTrue x → IsTrue y) (slice_bits self.now) (slice_bits other.now) }
    {
        self.first_and_not(other).is_none()
    }

    /// Whether some bit is set in both slices: whether two sets have an element in common.
    ///
    /// Requires that the other slice has the same length: [`len`](BitSlice::len) is the test. Stops
    /// at the first word that decides. By words where the positions of both orders rise or those of
    /// both fall, else by bits. Not in the Rust crate.
    pub fn intersects<R2: BitRegister, O2: BitOrder<R2>>(
        &self,
        other: &BitSlice<'_, R2, O2>,
    ) -> bool
        requires { slice_len other.now ≡ slice_len self.now }
        ensures { (result ≡ false)
            ↔ AllAre false (zip_with (λ x y. x && y) (slice_bits self.now) (slice_bits other.now)) }
    {
        self.first_and(other).is_some()
    }

    /// How many bits are set in both slices: how many elements two sets have in common.
    ///
    /// Requires that the other slice has the same length: [`len`](BitSlice::len) is the test. By
    /// words where the positions of both orders rise or those of both fall, else by bits. Not in
    /// the Rust crate.
    ///
    /// # Examples
    ///
    /// ```
    /// let memory = [0x3Cu8, 0x03];
    /// let span: BitSpan<u8, Lsb0> = BitSpan::at(0, 10).unwrap();
    /// let here = BitSlice::new(span, &memory).ok_or("outside")?;
    /// let words = [0xFFF0u16];
    /// let span: BitSpan<u16, Lsb0> = BitSpan::at(0, 10).unwrap();
    /// let there = BitSlice::new(span, &words).ok_or("outside")?;
    /// assert_eq!(rt; here.count_and(&there), 4);
    /// assert_eq!(rt; here.count_or(&there), 8);
    /// assert_eq!(rt; here.first_and(&there), Some(4));
    /// assert_eq!(rt; here.first_and_not(&there), Some(2));
    /// assert!(rt; here.intersects(&there));
    /// ```
    pub fn count_and<R2: BitRegister, O2: BitOrder<R2>>(
        &self,
        other: &BitSlice<'_, R2, O2>,
    ) -> usize
        requires { slice_len other.now ≡ slice_len self.now }
        ensures { result
            ≡ ones_in (zip_with (λ x y. x && y) (slice_bits self.now) (slice_bits other.now)) }
    {
        let (here, there) = (self.span, other.span);
        here.count_with::<And, R2, O2>(self.memory, there, other.memory)
    }

    /// How many bits are set in one of two slices or in both: how many elements the union of two
    /// sets has.
    ///
    /// Requires that the other slice has the same length: [`len`](BitSlice::len) is the test. Costs
    /// as [`count_and`](BitSlice::count_and) does. Not in the Rust crate.
    pub fn count_or<R2: BitRegister, O2: BitOrder<R2>>(&self, other: &BitSlice<'_, R2, O2>) -> usize
        requires { slice_len other.now ≡ slice_len self.now }
        ensures { result
            ≡ ones_in (zip_with (λ x y. x || y) (slice_bits self.now) (slice_bits other.now)) }
    {
        let (here, there) = (self.span, other.span);
        here.count_with::<Or, R2, O2>(self.memory, there, other.memory)
    }

    /// The index of the first bit that is set in both slices, counted from 0, and `None` where none
    /// is.
    ///
    /// Requires that the other slice has the same length: [`len`](BitSlice::len) is the test. By
    /// words where the positions of both orders rise or those of both fall, else by bits. Not in
    /// the Rust crate.
    pub fn first_and<R2: BitRegister, O2: BitOrder<R2>>(
        &self,
        other: &BitSlice<'_, R2, O2>,
    ) -> Option<usize>
        requires { slice_len other.now ≡ slice_len self.now }
        ensures { let both = zip_with (λ x y. x && y) (slice_bits self.now) (slice_bits other.now)
            in MatchOption result (AllAre false both) (IsFirst true both) }
    {
        let (here, there) = (self.span, other.span);
        here.first_with::<And, R2, O2>(self.memory, there, other.memory)
    }

    /// The index of the first bit that is set in the slice and not in the other, counted from 0,
    /// and `None` where none is.
    ///
    /// Requires that the other slice has the same length: [`len`](BitSlice::len) is the test. By
    /// words where the positions of both orders rise or those of both fall, else by bits. Not in
    /// the Rust crate.
    pub fn first_and_not<R2: BitRegister, O2: BitOrder<R2>>(
        &self,
        other: &BitSlice<'_, R2, O2>,
    ) -> Option<usize>
        requires { slice_len other.now ≡ slice_len self.now }
        ensures { let alone = zip_with (λ x y. x && not y) (slice_bits self.now) (slice_bits
            other.now) in MatchOption result (AllAre false alone) (IsFirst true alone) }
    {
        let (here, there) = (self.span, other.span);
        here.first_with::<AndNot, R2, O2>(self.memory, there, other.memory)
    }

    /// The index of the first bit that is not the same in both slices, counted from 0, and `None`
    /// where there is none as far as both slices go. The two may have different lengths.
    ///
    /// By words where the positions of both orders rise or those of both fall, else by bits. Not in
    /// the Rust crate.
    ///
    /// # Examples
    ///
    /// ```
    /// let memory = [0x0Fu8, 0x0F];
    /// let span: BitSpan<u8, Lsb0> = BitSpan::at(0, 16).unwrap();
    /// let here = BitSlice::new(span, &memory).ok_or("outside")?;
    /// let words = [0x030Fu16];
    /// let span: BitSpan<u16, Lsb0> = BitSpan::at(0, 12).unwrap();
    /// let there = BitSlice::new(span, &words).ok_or("outside")?;
    /// assert_eq!(rt; here.first_difference(&there), Some(10));
    /// let span: BitSpan<u16, Lsb0> = BitSpan::at(0, 10).unwrap();
    /// let there = BitSlice::new(span, &words).ok_or("outside")?;
    /// assert_eq!(rt; here.first_difference(&there), None);
    /// ```
    pub fn first_difference<R2: BitRegister, O2: BitOrder<R2>>(
        &self,
        other: &BitSlice<'_, R2, O2>,
    ) -> Option<usize>
        ensures { let differ = zip_with exclusive_or (slice_bits self.now) (slice_bits other.now)
            in MatchOption result (AllAre false differ) (IsFirst true differ) }
    {
        let count = self.len().min(other.len());
        let here = self.span.range(0, count);
        let there = other.span.range(0, count);
        here.first_with::<Xor, R2, O2>(self.memory, there, other.memory)
    }
}
