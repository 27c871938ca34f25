//! Whether a slice has the bits of another, and where; and a slice without its first bit or last.

ghost use Rattle.std.specs.Prelude.{◌≡◌, ◌↔◌, ◌+◌, ◌-◌, ◌≤◌, ◌∷◌, ◌++◌, [], ℕ, IsTrue, MatchOption};
ghost use Rattle.std.specs.Prelude.{IfSome, false, length, take, drop};
ghost use Rattle.bitvec_slice.specs.Patterns.{HasAt, IsLeast};

use crate::slice::BitSlice;
use bitvec::mem::BitRegister;
use bitvec::order::BitOrder;

impl<'a, R: BitRegister, O: BitOrder<R>> BitSlice<'a, R, O> {
    ghost use Rattle.bitvec.specs.Span.{span_from, span_upto};
    ghost use Rattle.bitvec_slice.specs.BitSlice.{slice_memory, slice_span, slice_len, slice_bits};

    /// The first bit and the bits behind it, and `None` where there are no bits. Constant time. As
    /// in the Rust crate.
    ///
    /// # Examples
    ///
    /// ```
    /// let memory = [0x2Du8];
    /// let slice = BitSlice::<u8, Lsb0>::all_unchecked(&memory);
    /// let (bit, rest) = slice.split_first().ok_or("none")?;
    /// assert!(rt; bit);
    /// assert_eq!(rt; rest.len(), 7);
    /// assert_eq!(rt; rest.first_one(), Some(1));
    /// ```
    pub fn split_first(&self) -> Option<(bool, Self)>
        ensures bits { MatchOption result (length (slice_bits self.now) ≡ 0)
            (λ it. slice_bits self.now ≡ it.0 ∷ slice_bits it.1) }
        ensures memory { IfSome result (λ it. slice_memory it.1 ≡ slice_memory self.now) }
        ensures span { IfSome result (λ it. slice_span it.1
            ≡ span_from R.BITS (slice_span self.now) 1) }
    {
        let bit = self.first()?;
        let (_, rest) = self.split_at(1);
        Some((bit, rest))
    }

    /// The last bit and the bits before it, and `None` where there are no bits. Constant time. As
    /// in the Rust crate.
    pub fn split_last(&self) -> Option<(bool, Self)>
        ensures bits { MatchOption result (length (slice_bits self.now) ≡ 0)
            (λ it. slice_bits self.now ≡ slice_bits it.1 ++ (it.0 ∷ [])) }
        ensures memory { IfSome result (λ it. slice_memory it.1 ≡ slice_memory self.now) }
        ensures span { IfSome result (λ it. slice_span it.1
            ≡ span_upto (slice_span self.now) (slice_len self.now - 1)) }
    {
        let bit = self.last()?;
        let (rest, _) = self.split_at(self.len() - 1);
        Some((bit, rest))
    }

    // Whether the bits of another slice are those from index `i` on.
    fn has_at<R2: BitRegister, O2: BitOrder<R2>>(
        &self,
        pattern: &BitSlice<'_, R2, O2>,
        i: usize,
    ) -> bool
        requires { i + slice_len pattern.now ≤ slice_len self.now }
        ensures { IsTrue result ↔ HasAt (slice_bits self.now) (slice_bits pattern.now) i }
    {
        let (_, rest) = self.split_at(i);
        let (part, _) = rest.split_at(pattern.len());
        part.equals(pattern)
    }

    /// Whether the slice begins with the bits of another, whatever its register and order are.
    /// Costs as [`equals`](BitSlice::equals) does. As in the Rust crate.
    ///
    /// # Examples
    ///
    /// ```
    /// let memory = [0x2Du8];
    /// let slice = BitSlice::<u8, Lsb0>::all_unchecked(&memory);
    /// let other = [0xA0u8];
    /// let span: BitSpan<u8, Msb0> = BitSpan::at(0, 3).unwrap();
    /// let pattern = BitSlice::new(span, &other).ok_or("outside")?;
    /// assert!(rt; slice.starts_with(&pattern));
    /// assert!(rt; !slice.ends_with(&pattern));
    /// assert_eq!(rt; slice.find(&pattern), Some(0));
    /// let (_, rest) = slice.split_at(1);
    /// assert!(rt; rest.contains(&pattern));
    /// assert_eq!(rt; rest.find(&pattern), Some(2));
    /// ```
    pub fn starts_with<R2: BitRegister, O2: BitOrder<R2>>(
        &self,
        pattern: &BitSlice<'_, R2, O2>,
    ) -> bool
        ensures { let ys = slice_bits pattern.now
            in IsTrue result ↔ (take (length ys) (slice_bits self.now) ≡ ys) }
    {
        let count = pattern.len();
        if self.len() < count {
            return false;
        }
        let (part, _) = self.split_at(count);
        part.equals(pattern)
    }

    /// Whether the slice ends with the bits of another, whatever its register and order are. Costs
    /// as [`equals`](BitSlice::equals) does. As in the Rust crate.
    pub fn ends_with<R2: BitRegister, O2: BitOrder<R2>>(
        &self,
        pattern: &BitSlice<'_, R2, O2>,
    ) -> bool
        ensures { let xs = slice_bits self.now in let ys = slice_bits pattern.now
            in IsTrue result ↔ (drop (length xs - length ys) xs ≡ ys) }
    {
        let (len, count) = (self.len(), pattern.len());
        if len < count {
            return false;
        }
        let (_, part) = self.split_at(len - count);
        part.equals(pattern)
    }

    /// The first index from which on the slice has the bits of another, whatever its register and
    /// order are, and `None` where there is no such index. For no bits it is 0.
    ///
    /// Bits that are not the pattern's first are passed over by words; where one is, the pattern is
    /// compared, at the cost of [`equals`](BitSlice::equals). Not in the Rust crate.
    pub fn find<R2: BitRegister, O2: BitOrder<R2>>(
        &self,
        pattern: &BitSlice<'_, R2, O2>,
    ) -> Option<usize>
        ensures { let IsHere = HasAt (slice_bits self.now) (slice_bits pattern.now)
            in MatchOption result ((i : ℕ) → ¬ IsHere i) (IsLeast IsHere) }
    {
        let (len, count) = (self.len(), pattern.len());
        let Some(first) = pattern.first() else {
            return Some(0);
        };
        let mut from = 0;
        while from + count <= len {
            let i = self.first_between(from, len - count + 1, first)?;
            if self.has_at(pattern, i) {
                return Some(i);
            }
            from = i + 1;
        }
        None
    }

    /// Whether the slice has the bits of another somewhere, side by side. Costs as
    /// [`find`](BitSlice::find) does. As in the Rust crate.
    pub fn contains<R2: BitRegister, O2: BitOrder<R2>>(
        &self,
        pattern: &BitSlice<'_, R2, O2>,
    ) -> bool
        ensures { (result ≡ false)
            ↔ ((i : ℕ) → ¬ HasAt (slice_bits self.now) (slice_bits pattern.now) i) }
    {
        self.find(pattern).is_some()
    }
}
