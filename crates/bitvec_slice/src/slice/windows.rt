//! The windows of a slice: a number of bits side by side, from each bit on.

ghost use Rattle.std.specs.Prelude.{◌≡◌, ⊤, ◌+◌, ◌-◌, ◌<◌, ◌≤◌, Some, length, take, drop, IfSome};
ghost use Rattle.std.specs.Prelude.{MatchOption, min};
ghost use Rattle.std.specs.List.{slice_get};
ghost use Rattle.std.specs.Iterator.{YieldsFirstBy, YieldsLastBy, item_count, at_most, UpTo};
ghost use Rattle.std.specs.Iterator.{MakesProgress};
ghost use Rattle.std.specs.Iterator.SizeHint.{IsWithinCount};
ghost use Rattle.bitvec_slice.specs.BitSlice.{slice_len, slice_bits};
ghost use Rattle.bitvec_slice.specs.Pieces.{windows_of};

use crate::slice::BitSlice;
use bitvec::mem::BitRegister;
use bitvec::order::BitOrder;
use std::alloc::AllocError;
use std::iter::FusedIterator;

/// Each `n` bits of a slice that are side by side, from [`BitSlice::windows`]: as slices of the
/// same memory, from both ends.
///
/// # Examples
///
/// ```
/// let memory = [0x0Bu8];
/// let span: BitSpan<u8, Lsb0> = BitSpan::new(0, BitIdx::new_unchecked(0), 4).unwrap();
/// let mut windows = BitSlice::new(span, &memory).ok_or("outside")?.windows(3);
/// assert_eq!(rt; windows.len(), 2);
/// assert_eq!(rt; windows.next().unwrap().last_one(), Some(1));
/// assert_eq!(rt; windows.next_back().unwrap().last_one(), Some(2));
/// assert!(rt; windows.next().is_none());
/// ```
#[derive(Drop)]
pub struct Windows<'a, R: BitRegister, O: BitOrder<R>> {
    rest: BitSlice<'a, R, O>,
    size: usize,
    pub ghost some: { 0 < size },
}

impl<'a, R: BitRegister, O: BitOrder<R>> Clone for Windows<'a, R, O> {
    ghost is_clone = { λ it copy. copy ≡ it };

    ghost is_infallible = { λ _. ⊤ };

    fn clone(&self) -> Result<Self, AllocError> {
        Ok(Windows {
            rest: self.rest,
            size: self.size,
        })
    }
}

impl<'a, R: BitRegister, O: BitOrder<R>> BitSlice<'a, R, O> {
    ghost use Rattle.bitvec_slice.specs.PieceIters.{windows_left, windows_rest, windows_size};

    /// Each `n` bits that are side by side, from the first `n` on: none, where there are less.
    /// Requires that `n` is not 0. Constant time, and so is each call of `next`. As in the Rust
    /// crate.
    pub fn windows(&self, n: usize) -> Windows<'a, R, O>
        requires { 0 < n }
        ensures pieces { windows_left result ≡ windows_of n (slice_bits self.now) }

        // They lie where the slice lies.
        ensures rest { windows_rest result ≡ self.now }
        ensures size { windows_size result ≡ n }
    {
        Windows {
            rest: *self,
            size: n,
        }
    }
}

impl<'a, R: BitRegister, O: BitOrder<R>> Windows<'a, R, O> {
    ghost use Rattle.bitvec_slice.specs.PieceIters.{windows_left, windows_rest, windows_size};
    ghost use Rattle.bitvec_slice.specs.PieceIters.{InRange, TakesFirst, TakesLast};

    /// Takes the window `n` places behind the first of those that are left, and drops those before
    /// it. Where there is none it returns `None`, and none is left.
    ///
    /// Constant time. In the Rust crate it is `nth` of the iterator trait.
    ///
    /// # Examples
    ///
    /// ```
    /// let memory = [0x2Cu8];
    /// let mut windows = BitSlice::<u8, Lsb0>::all_unchecked(&memory).windows(3);
    /// assert_eq!(rt; windows.nth(2).unwrap().count_ones(), 2);
    /// assert_eq!(rt; windows.len(), 3);
    /// assert!(rt; windows.nth(3).is_none());
    /// assert_eq!(rt; windows.len(), 0);
    /// ```
    pub fn nth(&mut self, n: usize) -> Option<BitSlice<'a, R, O>>
        ensures item { let left = windows_left self.old
            in MatchOption result (length left ≤ n)
            (λ window. slice_get left n ≡ Some (slice_bits window)) }
        ensures left { windows_left self.new ≡ drop (n + 1) (windows_left self.old) }
        ensures size { windows_size self.new ≡ windows_size self.old }

        // The window is the first behind `n` others, where they lie.
        ensures place { let rest = windows_rest self.old
            in let size = windows_size self.old
            in InRange rest (min n (slice_len rest)) (slice_len rest)
            (λ left. TakesFirst left size 1 result (windows_rest self.new)) }
    {
        let (_, rest) = self.rest.split_at(n.min(self.rest.len()));
        self.rest = rest;
        self.next()
    }

    /// Takes the window `n` places before the last of those that are left, and drops those behind
    /// it. Where there is none it returns `None`, and none is left.
    ///
    /// Constant time. In the Rust crate it is `nth_back` of the iterator trait.
    ///
    /// # Examples
    ///
    /// ```
    /// let memory = [0x2Cu8];
    /// let mut windows = BitSlice::<u8, Lsb0>::all_unchecked(&memory).windows(3);
    /// assert_eq!(rt; windows.nth_back(2).unwrap().first_one(), Some(0));
    /// assert_eq!(rt; windows.len(), 3);
    /// assert!(rt; windows.nth_back(3).is_none());
    /// assert_eq!(rt; windows.len(), 0);
    /// ```
    pub fn nth_back(&mut self, n: usize) -> Option<BitSlice<'a, R, O>>
        ensures item { let left = windows_left self.old
            in MatchOption result (length left ≤ n)
            (λ window. slice_get left (length left - (n + 1)) ≡ Some (slice_bits window)) }
        ensures left { let left = windows_left self.old
            in windows_left self.new ≡ take (length left - (n + 1)) left }
        ensures size { windows_size self.new ≡ windows_size self.old }

        // The window is the last before `n` others, where they lie.
        ensures place { let rest = windows_rest self.old
            in let size = windows_size self.old
            in InRange rest 0 (slice_len rest - n) (λ left. let len = slice_len left
            in TakesLast left (len - size) (len - 1) result (windows_rest self.new)) }
    {
        let (rest, _) = self.rest.split_at(self.rest.len().saturating_sub(n));
        self.rest = rest;
        self.next_back()
    }
}

impl<'a, R: BitRegister, O: BitOrder<R>> Iterator for Windows<'a, R, O> {
    type Item = BitSlice<'a, R, O>;

    ghost use Rattle.bitvec_slice.specs.PieceIters.{windows_left, windows_rest, windows_size};
    ghost use Rattle.bitvec_slice.specs.PieceIters.{TakesFirst};

    ghost next_gives = { YieldsFirstBy slice_bits windows_left };

    ghost remaining = { item_count windows_left };

    /// Takes the first of the windows that are left.
    fn next(&mut self) -> Option<BitSlice<'a, R, O>>
        ensures steps { YieldsFirstBy slice_bits windows_left self.old result self.new }
        ensures goes { MakesProgress (λ _. ⊤) (item_count windows_left)
            self.old result self.new }

        // The window is the first bits of what is left, and then one bit less is left.
        ensures place { let left = windows_rest self.old
            in TakesFirst left (windows_size self.old) 1 result (windows_rest self.new) }
        ensures size { windows_size self.new ≡ windows_size self.old }
    {
        if self.rest.len() < self.size {
            return None;
        }
        let (window, _) = self.rest.split_at(self.size);
        let (_, rest) = self.rest.split_at(1);
        self.rest = rest;
        Some(window)
    }

    fn size_hint(&self) -> (usize, Option<usize>)
        ensures lower { IsWithinCount result.0 (at_most (length (windows_left self.now))) }
        ensures upper { IfSome result.1 (UpTo (at_most (length (windows_left self.now)))) }
        ensures exact { (result.0 ≡ length (windows_left self.now)) × (result.1 ≡ Some result.0) }
    {
        let left = self.len();
        (left, Some(left))
    }
}

impl<'a, R: BitRegister, O: BitOrder<R>> DoubleEndedIterator for Windows<'a, R, O> {
    ghost use Rattle.bitvec_slice.specs.PieceIters.{windows_left, windows_rest, windows_size};
    ghost use Rattle.bitvec_slice.specs.PieceIters.{TakesLast};

    ghost next_back_gives = { YieldsLastBy slice_bits windows_left };

    /// Takes the last of the windows that are left.
    fn next_back(&mut self) -> Option<BitSlice<'a, R, O>>
        ensures steps { YieldsLastBy slice_bits windows_left self.old result self.new }
        ensures goes { MakesProgress (λ _. ⊤) (item_count windows_left)
            self.old result self.new }

        // The window is the last bits of what is left, and then one bit less is left.
        ensures place { let left = windows_rest self.old in let len = slice_len left in TakesLast
            left (len - windows_size self.old) (len - 1) result (windows_rest self.new) }
        ensures size { windows_size self.new ≡ windows_size self.old }
    {
        let len = self.rest.len();
        if len < self.size {
            return None;
        }
        let (_, window) = self.rest.split_at(len - self.size);
        let (rest, _) = self.rest.split_at(len - 1);
        self.rest = rest;
        Some(window)
    }
}

impl<'a, R: BitRegister, O: BitOrder<R>> ExactSizeIterator for Windows<'a, R, O> {
    fn len(&self) -> usize {
        self.rest.len().saturating_sub(self.size - 1)
    }
}

/// After `None` the iterator returns `None` for good.
impl<'a, R: BitRegister, O: BitOrder<R>> FusedIterator for Windows<'a, R, O> {}
