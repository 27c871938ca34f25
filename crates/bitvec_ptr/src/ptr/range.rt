//! Ranges of bit pointers: the places from a start to before an end.

ghost use Rattle.std.specs.Prelude.{◌≡◌, ⊤, ℕ, ℤ, pos, ◌+◌, ◌-◌, ◌<◌, ◌≤◌, ◌+ℤ◌, ◌≤ℤ◌, ◌<ℤ◌, ◌↔◌};
ghost use Rattle.std.specs.Prelude.{IsTrue, MatchOption, [], Some, IfSome, length};
ghost use Rattle.std.specs.Iterator.{YieldsFirstBy, YieldsLastBy, MakesProgress, item_count};
ghost use Rattle.std.specs.Iterator.{at_most, UpTo};
ghost use Rattle.std.specs.Iterator.SizeHint.{IsWithinCount};
ghost use Rattle.std.specs.Range.Bound.{bound_map};
ghost use Rattle.std.specs.declared.ops.Bound.TheVariants.{Included, Excluded};
ghost use Rattle.bitvec_ptr.specs.Place.{place_of, greatest_isize};
ghost use Rattle.bitvec_ptr.specs.Steps.{CanOffset, distance};
ghost use Rattle.bitvec_ptr.specs.BitPtr.{ptr_of};
ghost use Rattle.bitvec_ptr.specs.PtrRange.{PtrRange, CanRange, Holds, count_of, places_of};

use crate::ptr::single::{BitPtr, Dangling};
use bitvec_mem::mem::BitRegister;
use bitvec_order::order::Lsb0;
use std::alloc::AllocError;
use std::iter::FusedIterator;
use std::ops::{Bound, Range};

/// The pointers from a start to before an end.
///
/// The start is not past the end, and their distance is an `isize`. As an iterator it takes its
/// pointers from both ends.
///
/// # Examples
///
/// ```
/// let last: BitPtr<u8, Lsb0> = BitPtr::new(0, BitIdx::new_unchecked(7));
/// let mut range = last.range(2);
/// assert!(rt; range.next() == Some(last));
/// assert!(rt; range.next() == Some(BitPtr::new(1, BitIdx::new_unchecked(0))));
/// assert!(rt; range.next().is_none());
/// ```
#[derive(Drop)]
#[derive_where(PartialEq, Eq, Hash, Debug)]
pub struct BitPtrRange<R: BitRegister = usize, O = Lsb0> {
    start: BitPtr<R, O>,
    end: BitPtr<R, O>,
    pub ghost ordered: { place_of R.BITS (ptr_of start) ≤ℤ place_of R.BITS (ptr_of end) },
    pub ghost near: { distance R.BITS (ptr_of end) (ptr_of start) ≤ℤ greatest_isize },
}

impl<R: BitRegister, O> Clone for BitPtrRange<R, O> {
    ghost is_clone = { λ it copy. copy ≡ it };

    ghost is_infallible = { λ _. ⊤ };

    fn clone(&self) -> Result<Self, AllocError> {
        Ok(BitPtrRange {
            start: self.start,
            end: self.end,
        })
    }
}

/// The range that has no pointer.
///
/// `BitPtrRange::EMPTY` is read with this trait in scope, as [`Dangling`].
pub trait EmptyRange: Sized {
    /// From the first bit of the first word to before it.
    const EMPTY: Self;

    ghost EMPTY: { Self };
}

impl<R: BitRegister, O> EmptyRange for BitPtrRange<R, O> {
    ghost use Rattle.bitvec_ptr.specs.BitPtrRange.{empty_range};

    const EMPTY: Self = BitPtrRange {
        start: BitPtr::DANGLING,
        end: BitPtr::DANGLING,
    };

    ghost EMPTY = { empty_range };
}

impl<R: BitRegister, O> BitPtrRange<R, O> {
    ghost use Rattle.bitvec_ptr.specs.BitPtrRange.{range_of, TakesNth, TakesNthBack};

    /// Whether the start is not past the end, and their distance is an `isize`. Constant time. Not
    /// in the Rust crate.
    pub fn can_range(range: &Range<BitPtr<R, O>>) -> bool
        ensures { IsTrue result ↔ CanRange R.BITS (ptr_of range.now.start) (ptr_of range.now.end) }
    {
        range.start <= range.end && range.end.can_offset_from(range.start)
    }

    /// The range with these two ends: [`can_range`](BitPtrRange::can_range) is the test. Constant
    /// time.
    pub fn from_range(range: Range<BitPtr<R, O>>) -> Self
        requires { CanRange R.BITS (ptr_of range.start) (ptr_of range.end) }
        ensures { range_of result ≡ record { start = ptr_of range.start; end = ptr_of range.end } }
    {
        BitPtrRange {
            start: range.start,
            end: range.end,
        }
    }

    /// Its two ends. Constant time.
    pub fn into_range(self) -> Range<BitPtr<R, O>>
        ensures start { ptr_of result.start ≡ (range_of self).start }
        ensures end { ptr_of result.end ≡ (range_of self).end }
    {
        self.start..self.end
    }

    /// The first pointer of the range, and where it is empty the end. Constant time.
    pub fn start(&self) -> BitPtr<R, O>
        ensures { ptr_of result ≡ (range_of self.now).start }
    {
        self.start
    }

    /// The pointer one past the last. Constant time.
    pub fn end(&self) -> BitPtr<R, O>
        ensures { ptr_of result ≡ (range_of self.now).end }
    {
        self.end
    }

    /// Whether the range has no pointer. Constant time.
    pub fn is_empty(&self) -> bool
        ensures items { IsTrue result ↔ (places_of R.BITS (range_of self.now) ≡ []) }
        ensures ends { IsTrue result ↔ ((range_of self.now).start ≡ (range_of self.now).end) }
    {
        self.start == self.end
    }

    /// Whether a pointer is one of the range's. Constant time.
    pub fn contains(&self, pointer: &BitPtr<R, O>) -> bool
        ensures { IsTrue result ↔ Holds R.BITS (range_of self.now) (ptr_of pointer.now) }
    {
        self.start <= *pointer && *pointer < self.end
    }

    /// The bound that the range includes, its start. Constant time.
    pub fn start_bound(&self) -> Bound<&BitPtr<R, O>>
        ensures { bound_map (λ p. ptr_of p.now) result ≡ Included (range_of self.now).start }
    {
        Bound::Included(&self.start)
    }

    /// The bound that the range excludes, its end. Constant time.
    pub fn end_bound(&self) -> Bound<&BitPtr<R, O>>
        ensures { bound_map (λ p. ptr_of p.now) result ≡ Excluded (range_of self.now).end }
    {
        Bound::Excluded(&self.end)
    }

    // How many pointers are left.
    fn left(&self) -> usize
        ensures value { result ≡ count_of R.BITS (range_of self.now) }
        ensures short { pos result ≤ℤ isize.MAX }
        ensures word { (range_of self.now).end.word ≤ℤ isize.MAX }
    {
        (self.end.place() - self.start.place()) as usize
    }

    /// Takes the pointer `n` places after the start, and drops those before it.
    ///
    /// Where there is none it returns `None` and leaves the range empty, at its end. Constant time.
    pub fn nth(&mut self, n: usize) -> Option<BitPtr<R, O>>
        ensures end { (range_of self.new).end ≡ (range_of self.old).end }
        ensures item { TakesNth n self.old result self.new }
    {
        if n >= self.left() {
            self.start = self.end;
            return None;
        }
        let found = self.start.forward(n);
        self.start = found.forward(1);
        Some(found)
    }

    /// Takes the pointer `n` places before the last, and drops those after it.
    ///
    /// Where there is none it returns `None` and leaves the range empty, at its start. Constant
    /// time.
    pub fn nth_back(&mut self, n: usize) -> Option<BitPtr<R, O>>
        ensures start { (range_of self.new).start ≡ (range_of self.old).start }
        ensures item { TakesNthBack n self.old result self.new }
    {
        let count = self.left();
        if n >= count {
            self.end = self.start;
            return None;
        }
        let found = self.start.forward(count - 1 - n);
        self.end = found;
        Some(found)
    }
}

impl<R: BitRegister, O> BitPtr<R, O> {
    ghost use Rattle.bitvec_ptr.specs.BitPtrRange.{range_of};

    /// The range of the `count` pointers from this one on, which is asked as for
    /// [`add`](BitPtr::add). Constant time.
    pub fn range(self, count: usize) -> BitPtrRange<R, O>
        requires count { pos count ≤ℤ isize.MAX }
        requires inside { CanOffset R.BITS (ptr_of self) (pos count) }
        ensures start { (range_of result).start ≡ ptr_of self }
        ensures end { place_of R.BITS (range_of result).end
            ≡ place_of R.BITS (ptr_of self) +ℤ pos count }
        ensures count { count_of R.BITS (range_of result) ≡ count }
    {
        let end = self.add(count);
        BitPtrRange { start: self, end }
    }
}

/// The empty range, [`EMPTY`](EmptyRange::EMPTY).
impl<R: BitRegister, O> Default for BitPtrRange<R, O> {
    ghost use Rattle.bitvec_ptr.specs.BitPtrRange.{range_of};

    ghost is_default = { λ r. range_of r ≡ record {
      start = record { word = pos 0; bit = 0 };
      end = record { word = pos 0; bit = 0 };
    } };

    fn default() -> Self {
        Self::EMPTY
    }
}

/// The two ends, as [`into_range`](BitPtrRange::into_range).
impl<R: BitRegister, O> From<BitPtrRange<R, O>> for Range<BitPtr<R, O>> {
    ghost use Rattle.bitvec_ptr.specs.BitPtrRange.{range_of};

    ghost from_gives = { λ r range. (ptr_of range.start ≡ (range_of r).start)
        × (ptr_of range.end ≡ (range_of r).end) };

    fn from(range: BitPtrRange<R, O>) -> Self {
        range.into_range()
    }
}

impl<R: BitRegister, O> Iterator for BitPtrRange<R, O> {
    type Item = BitPtr<R, O>;

    ghost use Rattle.bitvec_ptr.specs.BitPtrRange.{range_of};

    ghost next_gives = { YieldsFirstBy (λ p. place_of R.BITS (ptr_of p))
        (λ r. places_of R.BITS (range_of r)) };

    ghost remaining = { item_count (λ r. places_of R.BITS (range_of r)) };

    fn next(&mut self) -> Option<BitPtr<R, O>>
        ensures steps { YieldsFirstBy (λ p. place_of R.BITS (ptr_of p))
            (λ r. places_of R.BITS (range_of r)) self.old result self.new }
        ensures goes { MakesProgress (λ _. ⊤) (item_count (λ r. places_of R.BITS (range_of r)))
            self.old result self.new }
        ensures end { (range_of self.new).end ≡ (range_of self.old).end }
        ensures start { MatchOption result
            ((range_of self.new).start ≡ (range_of self.old).start)
            (λ p. place_of R.BITS (range_of self.new).start ≡ place_of R.BITS (ptr_of p) +ℤ pos 1) }
        ensures last { count_of R.BITS (range_of self.old) ≡ 1 → (range_of self.new).start
            ≡ (range_of self.old).end }
    {
        self.nth(0)
    }

    fn size_hint(&self) -> (usize, Option<usize>)
        ensures lower { IsWithinCount result.0
            (at_most (length (places_of R.BITS (range_of self.now)))) }
        ensures upper { IfSome result.1
            (UpTo (at_most (length (places_of R.BITS (range_of self.now))))) }
        ensures exact { (result.0 ≡ count_of R.BITS (range_of self.now))
            × (result.1 ≡ Some result.0) }
    {
        let left = self.left();
        (left, Some(left))
    }
}

impl<R: BitRegister, O> DoubleEndedIterator for BitPtrRange<R, O> {
    ghost use Rattle.bitvec_ptr.specs.BitPtrRange.{range_of};

    ghost next_back_gives = { YieldsLastBy (λ p. place_of R.BITS (ptr_of p))
        (λ r. places_of R.BITS (range_of r)) };

    fn next_back(&mut self) -> Option<BitPtr<R, O>>
        ensures steps { YieldsLastBy (λ p. place_of R.BITS (ptr_of p))
            (λ r. places_of R.BITS (range_of r)) self.old result self.new }
        ensures goes { MakesProgress (λ _. ⊤) (item_count (λ r. places_of R.BITS (range_of r)))
            self.old result self.new }
        ensures start { (range_of self.new).start ≡ (range_of self.old).start }
        ensures end { MatchOption result
            ((range_of self.new).end ≡ (range_of self.old).end)
            (λ p. (range_of self.new).end ≡ ptr_of p) }
        ensures last { count_of R.BITS (range_of self.old) ≡ 1 → (range_of self.new).end
            ≡ (range_of self.old).start }
    {
        self.nth_back(0)
    }
}

impl<R: BitRegister, O> ExactSizeIterator for BitPtrRange<R, O> {
    fn len(&self) -> usize {
        self.left()
    }
}

/// After `None` the range returns `None` for good.
impl<R: BitRegister, O> FusedIterator for BitPtrRange<R, O> {}
