//! The order of two slices, whatever their registers and orders are: that of their lists.

ghost use Rattle.std.specs.Prelude.{◌≡◌};
ghost use Rattle.std.specs.Cmp.Lexicographic.{slice_cmp};
ghost use Rattle.std.specs.Ordering.{bool_cmp};
ghost use Rattle.bitvec_slice.specs.BitSlice.{slice_bits};

use crate::slice::BitSlice;
use bitvec::mem::BitRegister;
use bitvec::order::BitOrder;
use std::cmp::Ordering;

impl<'a, R: BitRegister, O: BitOrder<R>> BitSlice<'a, R, O> {
    /// How the slice compares with another, bit by bit from the first on, as two `&[bool]` do. At
    /// the first difference the slice with the clear bit is less. Where there is none the shorter
    /// is.
    ///
    /// By words where the positions of both orders rise or those of both fall, else by bits. Not in
    /// the Rust crate, which has `partial_cmp` between slices of two types.
    ///
    /// # Examples
    ///
    /// ```
    /// let memory = [0x0Fu8];
    /// let span: BitSpan<u8, Lsb0> = BitSpan::at(0, 8).unwrap();
    /// let here = BitSlice::new(span, &memory).ok_or("outside")?;
    /// let words = [0xF0u16];
    /// let span: BitSpan<u16, Msb0> = BitSpan::at(8, 6).unwrap();
    /// let there = BitSlice::new(span, &words).ok_or("outside")?;
    /// assert_eq!(rt; here.compare(&there), Ordering::Greater);
    /// let span: BitSpan<u16, Lsb0> = BitSpan::at(0, 8).unwrap();
    /// let there = BitSlice::new(span, &words).ok_or("outside")?;
    /// assert_eq!(rt; there.compare(&here), Ordering::Less);
    /// ```
    pub fn compare<R2: BitRegister, O2: BitOrder<R2>>(
        &self,
        other: &BitSlice<'_, R2, O2>,
    ) -> Ordering
        ensures { result ≡ slice_cmp bool_cmp (slice_bits self.now) (slice_bits other.now) }
    {
        match self.first_difference(other) {
            Some(i) => self.get_unchecked(i).cmp(&other.get_unchecked(i)),
            None => self.len().cmp(&other.len()),
        }
    }
}

/// The order of [`compare`](BitSlice::compare), in which any two slices compare.
impl<'a, R: BitRegister, O: BitOrder<R>> PartialOrd for BitSlice<'a, R, O> {
    ghost use Rattle.std.specs.Prelude.{Some, refl};
    ghost use Rattle.std.specs.Cmp.{bool_cmp_total, on_po, partial_order_from_agreeing_total};
    ghost use Rattle.std.specs.Cmp.Lexicographic.{lists_total, lists_ties};
    ghost use Rattle.bitvec_slice.specs.CompareLemmas.{bools_tied};

    ghost partial_cmp = { λ slice other. Some (slice_cmp bool_cmp (slice_bits slice) (slice_bits other)) };

    ghost laws = { on_po slice_bits (partial_order_from_agreeing_total (slice_cmp bool_cmp)
        (lists_total bool_cmp_total) (λ _ _. refl) (lists_ties bool_cmp bools_tied)) };

    fn partial_cmp(&self, other: &Self) -> Option<Ordering> {
        Some(self.compare(other))
    }
}

/// The order of [`compare`](BitSlice::compare): that of the lists of bits, in which `false` is
/// before `true`, and a list before each that it begins. As in the Rust crate.
impl<'a, R: BitRegister, O: BitOrder<R>> Ord for BitSlice<'a, R, O> {
    ghost use Rattle.std.specs.Prelude.{refl};
    ghost use Rattle.std.specs.Cmp.{bool_cmp_total, on_total};
    ghost use Rattle.std.specs.Cmp.Lexicographic.{lists_total, lists_ties};
    ghost use Rattle.bitvec_slice.specs.CompareLemmas.{bools_tied};

    ghost cmp = { λ slice other. slice_cmp bool_cmp (slice_bits slice) (slice_bits other) };

    ghost total = { on_total slice_bits (lists_total bool_cmp_total) };

    ghost matches_partial_cmp = { λ _ _. refl };

    ghost matches_eq = { λ slice other. lists_ties bool_cmp bools_tied
        (slice_bits slice) (slice_bits other) };

    fn cmp(&self, other: &Self) -> Ordering {
        self.compare(other)
    }
}
