//! The iterators over a register's indices, ends, positions and selectors.
//!
//! Each gives its items in rising order. Taken from both ends in any mixture it gives each item
//! once, and then `None` for good. The Rust crate has them as unnamed types.

ghost use Rattle.std.specs.Prelude.{◌≡◌, ◌+◌, ◌≤◌, Some, IfSome, length};
ghost use Rattle.std.specs.Iterator.{at_most, UpTo};
ghost use Rattle.std.specs.Iterator.SizeHint.{IsWithinCount};
ghost use Rattle.bitvec_order.specs.Index.{numbers_between, powers_between};

use crate::index::{BitEnd, BitIdx, BitPos, BitSel, Limits};
use bitvec_mem::mem::BitRegister;
use std::iter::FusedIterator;
use std::marker::{Model, PhantomData};

/// Indices of a register in rising order, from [`BitIdx::range`] or [`BitIdx::range_all`].
///
/// # Examples
///
/// ```
/// let mut indices = BitIdx::<u8>::new_unchecked(3).range(BitEnd::new_unchecked(5));
/// assert_eq!(rt; indices.next(), Some(BitIdx::new_unchecked(3)));
/// assert_eq!(rt; indices.next(), Some(BitIdx::new_unchecked(4)));
/// assert_eq!(rt; indices.next(), None);
/// ```
#[derive(Drop)]
pub struct IdxRange<R: BitRegister> {
    from: u8,
    upto: u8,
    register: PhantomData<R>,
}

impl<R: BitRegister> Model for IdxRange<R> {
    ghost use Rattle.std.specs.Prelude.{ℕ, ◌≤◌, List};
    ghost use Rattle.bitvec_order.specs.Index.{numbers_between};

    ghost Value = { List ℕ };

    ghost view = { λ s. numbers_between s.from s.upto };

    ghost invariant = { λ s. (s.from ≤ s.upto) × (s.upto ≤ R.BITS) };
}

impl<R: BitRegister> BitIdx<R> {
    /// The indices from this one to before `upto`, which is not below it. Constant time.
    pub fn range(self, upto: BitEnd<R>) -> IdxRange<R>
        requires { self ≤ upto }
        ensures items { result ≡ numbers_between self upto }
        ensures count { self + length result ≡ upto }
        ensures short { length result ≤ 128 }
    {
        IdxRange {
            from: self.into_inner(),
            upto: upto.into_inner(),
            register: PhantomData,
        }
    }

    /// All indices of the register. Constant time.
    #[tactic(auto, using(crate::proofs::Ranges::range_lengths))]
    pub fn range_all() -> IdxRange<R>
        ensures items { result ≡ numbers_between 0 R.BITS }
        ensures count { length result ≡ R.BITS }
        ensures short { length result ≤ 128 }
    {
        Self::MIN.range(BitEnd::MAX)
    }
}

impl<R: BitRegister> Iterator for IdxRange<R> {
    type Item = BitIdx<R>;

    ghost use Rattle.std.specs.Iterator.{YieldsFirst, item_count};

    ghost next_gives = { YieldsFirst (λ items. items) };

    ghost remaining = { item_count (λ items. items) };

    fn next(&mut self) -> Option<BitIdx<R>> {
        if self.from == self.upto {
            return None;
        }
        let first = BitIdx::new_unchecked(self.from);
        self.from += 1;
        Some(first)
    }

    fn size_hint(&self) -> (usize, Option<usize>)
        ensures lower { IsWithinCount result.0 (at_most (length self.now)) }
        ensures upper { IfSome result.1 (UpTo (at_most (length self.now))) }
        ensures exact { (result.0 ≡ length self.now) × (result.1 ≡ Some result.0) }
    {
        let left = self.len();
        (left, Some(left))
    }
}

impl<R: BitRegister> DoubleEndedIterator for IdxRange<R> {
    ghost use Rattle.std.specs.Iterator.{YieldsLast};

    ghost next_back_gives = { YieldsLast (λ items. items) };

    fn next_back(&mut self) -> Option<BitIdx<R>> {
        if self.from == self.upto {
            return None;
        }
        self.upto -= 1;
        Some(BitIdx::new_unchecked(self.upto))
    }
}

impl<R: BitRegister> ExactSizeIterator for IdxRange<R> {
    #[tactic(auto, using(crate::proofs::Ranges::range_lengths))]
    fn len(&self) -> usize {
        usize::from(self.upto - self.from)
    }
}

impl<R: BitRegister> FusedIterator for IdxRange<R> {}

/// Ends of a register in rising order, from [`BitEnd::range_from`].
///
/// # Examples
///
/// ```
/// let mut ends = BitEnd::<u8>::range_from(BitIdx::new_unchecked(7));
/// assert_eq!(rt; ends.next(), Some(BitEnd::new_unchecked(7)));
/// assert_eq!(rt; ends.next(), Some(BitEnd::new_unchecked(8)));
/// assert_eq!(rt; ends.next(), None);
/// ```
#[derive(Drop)]
pub struct EndRange<R: BitRegister> {
    from: u8,
    before: u8,
    register: PhantomData<R>,
}

impl<R: BitRegister> Model for EndRange<R> {
    ghost use Rattle.std.specs.Prelude.{ℕ, ◌≤◌, ◌+◌, List};
    ghost use Rattle.bitvec_order.specs.Index.{numbers_between};

    ghost Value = { List ℕ };

    ghost view = { λ s. numbers_between s.from s.before };

    ghost invariant = { λ s. (s.from ≤ s.before) × (s.before ≤ R.BITS + 1) };
}

impl<R: BitRegister> BitEnd<R> {
    /// The ends from `from` to the width, both included. Constant time.
    pub fn range_from(from: BitIdx<R>) -> EndRange<R>
        ensures items { result ≡ numbers_between from (R.BITS + 1) }
        ensures count { from + length result ≡ R.BITS + 1 }
        ensures short { length result ≤ 129 }
    {
        EndRange {
            from: from.into_inner(),
            before: R::BITS + 1,
            register: PhantomData,
        }
    }
}

impl<R: BitRegister> Iterator for EndRange<R> {
    type Item = BitEnd<R>;

    ghost use Rattle.std.specs.Iterator.{YieldsFirst, item_count};

    ghost next_gives = { YieldsFirst (λ items. items) };

    ghost remaining = { item_count (λ items. items) };

    fn next(&mut self) -> Option<BitEnd<R>> {
        if self.from == self.before {
            return None;
        }
        let first = BitEnd::new_unchecked(self.from);
        self.from += 1;
        Some(first)
    }

    fn size_hint(&self) -> (usize, Option<usize>)
        ensures lower { IsWithinCount result.0 (at_most (length self.now)) }
        ensures upper { IfSome result.1 (UpTo (at_most (length self.now))) }
        ensures exact { (result.0 ≡ length self.now) × (result.1 ≡ Some result.0) }
    {
        let left = self.len();
        (left, Some(left))
    }
}

impl<R: BitRegister> DoubleEndedIterator for EndRange<R> {
    ghost use Rattle.std.specs.Iterator.{YieldsLast};

    ghost next_back_gives = { YieldsLast (λ items. items) };

    fn next_back(&mut self) -> Option<BitEnd<R>> {
        if self.from == self.before {
            return None;
        }
        self.before -= 1;
        Some(BitEnd::new_unchecked(self.before))
    }
}

impl<R: BitRegister> ExactSizeIterator for EndRange<R> {
    #[tactic(auto, using(crate::proofs::Ranges::range_lengths))]
    fn len(&self) -> usize {
        usize::from(self.before - self.from)
    }
}

impl<R: BitRegister> FusedIterator for EndRange<R> {}

/// Positions of a register in rising order, from [`BitPos::range_all`].
///
/// # Examples
///
/// ```
/// let mut positions = BitPos::<u16>::range_all();
/// assert_eq!(rt; positions.len(), 16);
/// assert_eq!(rt; positions.next(), Some(BitPos::MIN));
/// assert_eq!(rt; positions.next_back(), Some(BitPos::MAX));
/// ```
#[derive(Drop)]
pub struct PosRange<R: BitRegister> {
    indices: IdxRange<R>,
}

impl<R: BitRegister> Model for PosRange<R> {
    ghost use Rattle.std.specs.Prelude.{ℕ, List};

    ghost Value = { List ℕ };

    ghost view = { λ s. s.indices };
}

impl<R: BitRegister> BitPos<R> {
    /// All positions of the register.
    ///
    /// The Rust crate keeps it private. Constant time.
    pub fn range_all() -> PosRange<R>
        ensures items { result ≡ numbers_between 0 R.BITS }
        ensures count { length result ≡ R.BITS }
        ensures short { length result ≤ 128 }
    {
        PosRange {
            indices: BitIdx::range_all(),
        }
    }
}

impl<R: BitRegister> Iterator for PosRange<R> {
    type Item = BitPos<R>;

    ghost use Rattle.std.specs.Iterator.{YieldsFirst, item_count};

    ghost next_gives = { YieldsFirst (λ items. items) };

    ghost remaining = { item_count (λ items. items) };

    fn next(&mut self) -> Option<BitPos<R>> {
        let first = self.indices.next()?;
        Some(BitPos::new_unchecked(first.into_inner()))
    }

    fn size_hint(&self) -> (usize, Option<usize>)
        ensures lower { IsWithinCount result.0 (at_most (length self.now)) }
        ensures upper { IfSome result.1 (UpTo (at_most (length self.now))) }
        ensures exact { (result.0 ≡ length self.now) × (result.1 ≡ Some result.0) }
    {
        let left = self.len();
        (left, Some(left))
    }
}

impl<R: BitRegister> DoubleEndedIterator for PosRange<R> {
    ghost use Rattle.std.specs.Iterator.{YieldsLast};

    ghost next_back_gives = { YieldsLast (λ items. items) };

    fn next_back(&mut self) -> Option<BitPos<R>> {
        let last = self.indices.next_back()?;
        Some(BitPos::new_unchecked(last.into_inner()))
    }
}

impl<R: BitRegister> ExactSizeIterator for PosRange<R> {
    fn len(&self) -> usize {
        self.indices.len()
    }
}

impl<R: BitRegister> FusedIterator for PosRange<R> {}

/// Selectors of a register by rising position, from [`BitSel::range_all`].
///
/// # Examples
///
/// ```
/// let mut selectors = BitSel::<u8>::range_all();
/// assert_eq!(rt; selectors.next(), Some(BitSel::new_unchecked(0x01)));
/// assert_eq!(rt; selectors.next(), Some(BitSel::new_unchecked(0x02)));
/// assert_eq!(rt; selectors.next_back(), Some(BitSel::new_unchecked(0x80)));
/// ```
#[derive(Drop)]
pub struct SelRange<R: BitRegister> {
    positions: PosRange<R>,
}

impl<R: BitRegister> Model for SelRange<R> {
    ghost use Rattle.std.specs.Prelude.{ℕ, ◌^◌, List, map};

    ghost Value = { List ℕ };

    ghost view = { λ s. map (λ p. 2 ^ p) s.positions };
}

impl<R: BitRegister> BitSel<R> {
    /// All selectors of the register. Constant time.
    pub fn range_all() -> SelRange<R>
        ensures items { result ≡ powers_between 0 R.BITS }
        ensures count { length result ≡ R.BITS }
        ensures short { length result ≤ 128 }
    {
        SelRange {
            positions: BitPos::range_all(),
        }
    }
}

impl<R: BitRegister> Iterator for SelRange<R> {
    type Item = BitSel<R>;

    ghost use Rattle.std.specs.Iterator.{YieldsFirst, item_count};

    ghost next_gives = { YieldsFirst (λ items. items) };

    ghost remaining = { item_count (λ items. items) };

    fn next(&mut self) -> Option<BitSel<R>> {
        let first = self.positions.next()?;
        Some(first.select())
    }

    fn size_hint(&self) -> (usize, Option<usize>)
        ensures lower { IsWithinCount result.0 (at_most (length self.now)) }
        ensures upper { IfSome result.1 (UpTo (at_most (length self.now))) }
        ensures exact { (result.0 ≡ length self.now) × (result.1 ≡ Some result.0) }
    {
        let left = self.len();
        (left, Some(left))
    }
}

impl<R: BitRegister> DoubleEndedIterator for SelRange<R> {
    ghost use Rattle.std.specs.Iterator.{YieldsLast};

    ghost next_back_gives = { YieldsLast (λ items. items) };

    fn next_back(&mut self) -> Option<BitSel<R>> {
        let last = self.positions.next_back()?;
        Some(last.select())
    }
}

impl<R: BitRegister> ExactSizeIterator for SelRange<R> {
    fn len(&self) -> usize {
        self.positions.len()
    }
}

impl<R: BitRegister> FusedIterator for SelRange<R> {}
