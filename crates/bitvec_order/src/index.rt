//! Indices, ends, positions, selectors and masks of a register's bits.
//!
//! An index is a place in an order, from 0 to before the width; an order takes it to a position,
//! the place of a digit in the number. A selector is the power of two of a position, and a mask is
//! a set of positions, each as a number of the register.

ghost use Rattle.std.specs.Prelude.{⊤, pos, ◌+ℤ◌, ◌≡◌, ℕ, ◌+◌, ◌-◌, ◌*◌, ◌/◌, ◌%◌, ◌^◌, ◌<◌, ◌≤◌};
ghost use Rattle.std.specs.Prelude.{◌↔◌, ◌||◌, IsOk, IsErr, IsSome, IsNone, IfOk, IfErr, IfSome};
ghost use Rattle.std.specs.Prelude.{IsTrue};
ghost use Rattle.std.specs.Int.{w64, int_wrap, int_div_euclid, int_rem_euclid};
ghost use Rattle.bitvec_order.specs.Index.{HasOneDigit};
ghost use Rattle.bitvec_mem.specs.Digit.{digit};

use bitvec_mem::mem::BitRegister;
use std::alloc::AllocError;
use std::iter::Sum;
use std::marker::{Model, PhantomData};
use std::ops::{BitAnd, BitOr, Not};

pub mod range;
pub mod text;

/// The least and the greatest value of a type.
///
/// A constant of a generic type can say its value in a contract only as the item of a trait, so
/// `BitIdx::MIN` and the like are read with this trait in scope.
pub trait Limits: Sized {
    /// The least value.
    const MIN: Self;

    /// The greatest value.
    const MAX: Self;

    ghost MIN: { Self };

    ghost MAX: { Self };
}

/// The index of a bit in a register, from 0 to `MASK`.
///
/// # Examples
///
/// ```
/// let last = BitIdx::<u8>::new_unchecked(7);
/// assert_eq!(rt; last.next(), (BitIdx::MIN, true));
/// assert_eq!(rt; last.offset(-9), (-1, BitIdx::new_unchecked(6)));
/// ```
#[derive(Clone, Copy, PartialEq, Eq, PartialOrd, Ord, Hash, Default)]
pub struct BitIdx<R: BitRegister = usize> {
    idx: u8,
    register: PhantomData<R>,
}

impl<R: BitRegister> Model for BitIdx<R> {
    ghost Value = { ℕ };

    ghost view = { λ s. s.idx };

    ghost invariant = { λ s. s.idx < R.BITS };

    ghost inverse = { λ n. record { idx = n; register = record {} } };
}

impl<R: BitRegister> Limits for BitIdx<R> {
    const MIN: Self = BitIdx {
        idx: 0,
        register: PhantomData,
    };

    const MAX: Self = BitIdx {
        idx: R::MASK,
        register: PhantomData,
    };

    ghost MIN = { 0 };

    ghost MAX = { R.BITS - 1 };
}

impl<R: BitRegister> BitIdx<R> {
    /// The index `idx`; refuses a number that is not below the width, and the error holds it.
    /// Constant time.
    ///
    /// # Examples
    ///
    /// ```
    /// assert!(rt; BitIdx::<u8>::new(7).is_ok());
    /// assert!(rt; BitIdx::<u8>::new(8).is_err());
    /// assert!(rt; BitIdx::<u16>::new(8).is_ok());
    /// ```
    pub fn new(idx: u8) -> Result<Self, BitIdxError<R>>
        ensures accepted { IsOk result ↔ (idx < R.BITS) }
        ensures refused { IsErr result ↔ (R.BITS ≤ idx) }
        ensures value { IfOk result (λ index. index ≡ idx) }
        ensures error { IfErr result (λ error. error ≡ idx) }
    {
        if idx < R::BITS {
            Ok(BitIdx {
                idx,
                register: PhantomData,
            })
        } else {
            Err(BitIdxError {
                err: idx,
                register: PhantomData,
            })
        }
    }

    /// The index `idx`, which is below the width: `new` is the test. Constant time.
    pub fn new_unchecked(idx: u8) -> Self
        requires { idx < R.BITS }
        ensures { result ≡ idx }
    {
        BitIdx {
            idx,
            register: PhantomData,
        }
    }

    /// The number of the index. Constant time.
    pub fn into_inner(self) -> u8
        ensures value { result ≡ self }
        ensures below { self < R.BITS }
    {
        self.idx
    }

    /// The index one further, and whether that crosses into the next register, at its first index.
    /// Constant time.
    pub fn next(self) -> (Self, bool)
        ensures moved { result.0 ≡ (self + 1) % R.BITS }
        ensures crossed { IsTrue result.1 ↔ (self ≡ R.BITS - 1) }
    {
        if self.idx == R::MASK {
            (Self::MIN, true)
        } else {
            (Self::new_unchecked(self.idx + 1), false)
        }
    }

    /// The index one back, and whether that crosses into the register before, at its last index.
    /// Constant time.
    pub fn prev(self) -> (Self, bool)
        ensures moved { result.0 ≡ (self + R.BITS - 1) % R.BITS }
        ensures crossed { IsTrue result.1 ↔ (self ≡ 0) }
    {
        if self.idx == 0 {
            (Self::MAX, true)
        } else {
            (Self::new_unchecked(self.idx - 1), false)
        }
    }

    /// How many registers on the index lies that is `by` bits further, and that index.
    ///
    /// The sum of this index and `by` wraps at the end of `isize`; the registers are its floor by
    /// the width, below zero for a step back, and the index is its remainder. The Rust crate keeps
    /// it private. Constant time.
    pub fn offset(self, by: isize) -> (isize, Self)
        ensures carried { result.0 ≡ int_div_euclid (int_wrap w64 (pos self +ℤ by)) (pos R.BITS) }
        ensures index { pos result.1 ≡ int_rem_euclid (int_wrap w64 (pos self +ℤ by)) (pos R.BITS) }
    {
        let far = (self.idx as isize).wrapping_add(by);
        let width = isize::from(R::BITS);
        let carried = far.div_euclid(width);
        let index = far.rem_euclid(width) as u8;
        (carried, Self::new_unchecked(index))
    }

    /// How many registers `len` bits from this one on meet, and where they end in the last.
    ///
    /// For no bits that is no register, and this index as the end. No sum passes the type, whatever
    /// `len` is. Constant time.
    pub fn span(self, len: usize) -> (usize, BitEnd<R>)
        ensures empty { len ≡ 0 → (result.0 ≡ 0) × (result.1 ≡ self) }
        ensures elements { 0 < len → result.0 ≡ (self + len + (R.BITS - 1)) / R.BITS }
        ensures tail { 0 < len → result.1 ≡ (self + len - 1) % R.BITS + 1 }
    {
        if len == 0 {
            return (0, BitEnd::new_unchecked(self.idx));
        }
        let width = usize::from(R::BITS);
        let whole = len / width;
        let over = usize::from(self.idx) + len % width;
        if over == 0 {
            (whole, BitEnd::new_unchecked(R::BITS))
        } else if over <= width {
            (whole + 1, BitEnd::new_unchecked(over as u8))
        } else {
            (whole + 2, BitEnd::new_unchecked((over - width) as u8))
        }
    }
}

/// A number that is no index of a register, since it is at least the width.
///
/// # Examples
///
/// ```
/// let refused = BitIdx::<u8>::new(8);
/// let error = refused.err().ok_or("8 is below the width")?;
/// assert_eq!(rt; error.into_inner(), 8);
/// ```
#[derive(Clone, Copy, PartialEq, Eq, PartialOrd, Ord, Hash)]
pub struct BitIdxError<R: BitRegister = usize> {
    err: u8,
    register: PhantomData<R>,
}

impl<R: BitRegister> Model for BitIdxError<R> {
    ghost Value = { ℕ };

    ghost view = { λ s. s.err };

    ghost invariant = { λ s. R.BITS ≤ s.err };

    ghost inverse = { λ n. record { err = n; register = record {} } };
}

impl<R: BitRegister> BitIdxError<R> {
    /// The number that was refused. Constant time.
    pub fn into_inner(self) -> u8
        ensures value { result ≡ self }
        ensures above { R.BITS ≤ self }
    {
        self.err
    }
}

/// The end of a range of indices of a register, from 0 to the width inclusive.
///
/// # Examples
///
/// ```
/// let head = BitIdx::<u8>::new_unchecked(5);
/// let (words, end) = head.span(6);
/// assert_eq!(rt; words, 2);
/// assert_eq!(rt; end.into_inner(), 3);
/// ```
#[derive(Clone, Copy, PartialEq, Eq, PartialOrd, Ord, Hash, Default)]
pub struct BitEnd<R: BitRegister = usize> {
    end: u8,
    register: PhantomData<R>,
}

impl<R: BitRegister> Model for BitEnd<R> {
    ghost Value = { ℕ };

    ghost view = { λ s. s.end };

    ghost invariant = { λ s. s.end ≤ R.BITS };

    ghost inverse = { λ n. record { end = n; register = record {} } };
}

impl<R: BitRegister> Limits for BitEnd<R> {
    const MIN: Self = BitEnd {
        end: 0,
        register: PhantomData,
    };

    const MAX: Self = BitEnd {
        end: R::BITS,
        register: PhantomData,
    };

    ghost MIN = { 0 };

    ghost MAX = { R.BITS };
}

impl<R: BitRegister> BitEnd<R> {
    /// The end `end`; `None` where it passes the width. Constant time.
    pub fn new(end: u8) -> Option<Self>
        ensures accepted { IsSome result ↔ (end ≤ R.BITS) }
        ensures refused { IsNone result ↔ (R.BITS < end) }
        ensures value { IfSome result (λ made. made ≡ end) }
    {
        if end <= R::BITS {
            Some(BitEnd {
                end,
                register: PhantomData,
            })
        } else {
            None
        }
    }

    /// The end `end`, which does not pass the width: `new` is the test. Constant time.
    pub fn new_unchecked(end: u8) -> Self
        requires { end ≤ R.BITS }
        ensures { result ≡ end }
    {
        BitEnd {
            end,
            register: PhantomData,
        }
    }

    /// The number of the end. Constant time.
    pub fn into_inner(self) -> u8
        ensures value { result ≡ self }
        ensures below { self ≤ R.BITS }
    {
        self.end
    }

    /// How many registers `len` bits from this end on meet, and where they end in the last.
    ///
    /// An end at the width is the start of the next register. For no bits that is no register, and
    /// this end. No sum passes the type, whatever `len` is. Constant time.
    pub fn span(self, len: usize) -> (usize, BitEnd<R>)
        ensures empty { len ≡ 0 → (result.0 ≡ 0) × (result.1 ≡ self) }
        ensures elements { 0 < len → result.0 ≡ (self % R.BITS + len + (R.BITS - 1)) / R.BITS }
        ensures tail { 0 < len → result.1 ≡ (self % R.BITS + len - 1) % R.BITS + 1 }
    {
        if len == 0 {
            return (0, self);
        }
        BitIdx::new_unchecked(self.end % R::BITS).span(len)
    }
}

/// The position of a digit in a register, from 0 to `MASK`.
///
/// # Examples
///
/// ```
/// let index = BitIdx::<u8>::new_unchecked(3);
/// let position: BitPos<u8> = index.position::<Msb0>();
/// assert_eq!(rt; position.into_inner(), 4);
/// assert_eq!(rt; position.select().into_inner(), 0x10);
/// ```
#[derive(Clone, Copy, PartialEq, Eq, PartialOrd, Ord, Hash, Default)]
pub struct BitPos<R: BitRegister = usize> {
    pos: u8,
    register: PhantomData<R>,
}

impl<R: BitRegister> Model for BitPos<R> {
    ghost Value = { ℕ };

    ghost view = { λ s. s.pos };

    ghost invariant = { λ s. s.pos < R.BITS };

    ghost inverse = { λ n. record { pos = n; register = record {} } };
}

impl<R: BitRegister> Limits for BitPos<R> {
    const MIN: Self = BitPos {
        pos: 0,
        register: PhantomData,
    };

    const MAX: Self = BitPos {
        pos: R::MASK,
        register: PhantomData,
    };

    ghost MIN = { 0 };

    ghost MAX = { R.BITS - 1 };
}

impl<R: BitRegister> BitPos<R> {
    /// The position `pos`; `None` where it is not below the width. Constant time.
    pub fn new(pos: u8) -> Option<Self>
        ensures accepted { IsSome result ↔ (pos < R.BITS) }
        ensures refused { IsNone result ↔ (R.BITS ≤ pos) }
        ensures value { IfSome result (λ made. made ≡ pos) }
    {
        if pos < R::BITS {
            Some(BitPos {
                pos,
                register: PhantomData,
            })
        } else {
            None
        }
    }

    /// The position `pos`, which is below the width: `new` is the test. Constant time.
    pub fn new_unchecked(pos: u8) -> Self
        requires { pos < R.BITS }
        ensures { result ≡ pos }
    {
        BitPos {
            pos,
            register: PhantomData,
        }
    }

    /// The number of the position. Constant time.
    pub fn into_inner(self) -> u8
        ensures value { result ≡ self }
        ensures below { self < R.BITS }
    {
        self.pos
    }

    /// The selector of the position, two to its power. Constant time.
    pub fn select(self) -> BitSel<R>
        ensures value { result ≡ 2 ^ self }
        ensures below { self < R.BITS }
    {
        BitSel {
            sel: R::ONE.shl(self.pos),
        }
    }

    /// The mask with this position alone. Constant time.
    pub fn mask(self) -> BitMask<R>
        ensures value { result ≡ 2 ^ self }
        ensures below { self < R.BITS }
    {
        self.select().mask()
    }
}

/// A number of a register with one digit set: the selector of a position.
///
/// # Examples
///
/// ```
/// let selector: BitSel<u8> = BitIdx::new_unchecked(3).select::<Lsb0>();
/// assert_eq!(rt; selector.into_inner(), 0x08);
/// assert!(rt; BitSel::<u8>::new(0x18).is_none());
/// ```
#[derive(Copy, PartialEq, Eq, PartialOrd, Ord, Hash)]
pub struct BitSel<R: BitRegister = usize> {
    sel: R,
}

impl<R: BitRegister> Model for BitSel<R> {
    ghost Value = { ℕ };

    ghost view = { λ s. R.number s.sel };

    ghost invariant = { λ s. (R.number s.sel < 2 ^ R.BITS) × HasOneDigit R.BITS (R.number s.sel) };

    ghost inverse = { λ n. record { sel = R.from_number n } };

    ghost inverse_ok = { λ a h i. record { sel = R.number_back a.sel h.0 i } };
}

impl<R: BitRegister> Clone for BitSel<R> {
    ghost is_clone = { λ a b. b ≡ a };

    ghost is_infallible = { λ _. ⊤ };

    fn clone(&self) -> Result<Self, AllocError> {
        Ok(*self)
    }
}

impl<R: BitRegister> BitSel<R> {
    /// The selector `sel`; `None` where the count of its ones is not 1. Constant time.
    pub fn new(sel: R) -> Option<Self>
        ensures accepted { IsSome result ↔ HasOneDigit R.BITS (R.number sel) }
        ensures value { IfSome result (λ made. made ≡ R.number sel) }
    {
        if sel.count_ones() == 1 {
            Some(BitSel { sel })
        } else {
            None
        }
    }

    /// The selector `sel`, which has one digit set: `new` is the test. Constant time.
    pub fn new_unchecked(sel: R) -> Self
        requires { HasOneDigit R.BITS (R.number sel) }
        ensures { result ≡ R.number sel }
    {
        // The call says that the number is one of the register's, and costs nothing.
        let _number = sel.to_u128();
        BitSel { sel }
    }

    /// The number of the selector. Constant time.
    pub fn into_inner(self) -> R
        ensures value { R.number result ≡ self }
        ensures below { self < 2 ^ R.BITS }
        ensures one { HasOneDigit R.BITS self }
        ensures position { (p : ℕ) × (p < R.BITS) × (self ≡ 2 ^ p) }
    {
        self.sel
    }

    /// The mask with the selector's position alone. Constant time.
    pub fn mask(self) -> BitMask<R>
        ensures value { result ≡ self }
        ensures position { (p : ℕ) × (p < R.BITS) × (self ≡ 2 ^ p) }
    {
        BitMask {
            mask: self.into_inner(),
        }
    }
}

/// A set of positions of a register, as the number whose ones stand there.
///
/// # Examples
///
/// ```
/// let mut mask = BitMask::<u8>::ZERO;
/// mask.insert(BitIdx::new_unchecked(2).select::<Lsb0>());
/// mask.insert(BitIdx::new_unchecked(0).select::<Msb0>());
/// assert_eq!(rt; mask.into_inner(), 0x84);
/// assert!(rt; mask.test(BitIdx::new_unchecked(7).select::<Lsb0>()));
/// assert_eq!(rt; (!mask).into_inner(), 0x7B);
/// ```
#[derive(Copy, PartialEq, Eq, PartialOrd, Ord, Hash, Default)]
pub struct BitMask<R: BitRegister = usize> {
    mask: R,
}

impl<R: BitRegister> Model for BitMask<R> {
    ghost Value = { ℕ };

    ghost view = { λ s. R.number s.mask };

    ghost invariant = { λ s. R.number s.mask < 2 ^ R.BITS };

    ghost inverse = { λ n. record { mask = R.from_number n } };

    ghost inverse_ok = { λ a h i. record { mask = R.number_back a.mask h i } };
}

/// The mask with no position and the mask with all.
///
/// `BitMask::ZERO` and `BitMask::ALL` are read with this trait in scope, as those of [`Limits`].
pub trait MaskLimits: Sized {
    /// The mask with no position.
    const ZERO: Self;

    /// The mask with all positions.
    const ALL: Self;

    ghost ZERO: { Self };

    ghost ALL: { Self };
}

impl<R: BitRegister> MaskLimits for BitMask<R> {
    const ZERO: Self = BitMask { mask: R::ZERO };

    const ALL: Self = BitMask { mask: R::ALL };

    ghost ZERO = { 0 };

    ghost ALL = { 2 ^ R.BITS - 1 };
}

impl<R: BitRegister> Clone for BitMask<R> {
    ghost is_clone = { λ a b. b ≡ a };

    ghost is_infallible = { λ _. ⊤ };

    fn clone(&self) -> Result<Self, AllocError> {
        Ok(*self)
    }
}

impl<R: BitRegister> BitMask<R> {
    ghost use Rattle.std.specs.Iterator.{IsFinite};
    ghost use Rattle.std.specs.Iterator.Runs.{WholeRun};
    ghost use Rattle.bitvec_order.specs.Masks.{HasDigits, is_in_some};

    /// The mask `mask`: any number of the register is one. Constant time.
    pub fn new(mask: R) -> Self
        ensures { result ≡ R.number mask }
    {
        // The call says that the number is one of the register's, and costs nothing.
        let _number = mask.to_u128();
        BitMask { mask }
    }

    /// The number of the mask. Constant time.
    pub fn into_inner(self) -> R
        ensures value { R.number result ≡ self }
        ensures below { self < 2 ^ R.BITS }
    {
        self.mask
    }

    /// Whether the selector's position is in the mask. Constant time.
    pub fn test(&self, sel: BitSel<R>) -> bool
        ensures { (p : ℕ) → sel ≡ 2 ^ p → result ≡ digit self.now p }
    {
        self.mask.and(sel.sel) != R::ZERO
    }

    /// Adds the selector's position to the mask. Constant time.
    pub fn insert(&mut self, sel: BitSel<R>)
        ensures below { self.new < 2 ^ R.BITS }
        ensures digits { (p : ℕ) → p < R.BITS → digit self.new p
            ≡ (digit self.old p || digit sel p) }
    {
        self.mask = self.mask.or(sel.sel);
    }

    /// The mask with the selector's position added. Constant time.
    pub fn combine(self, sel: BitSel<R>) -> Self
        ensures below { result < 2 ^ R.BITS }
        ensures digits { (p : ℕ) → p < R.BITS → digit result p ≡ (digit self p || digit sel p) }
    {
        BitMask {
            mask: self.mask.or(sel.sel),
        }
    }

    /// The mask with the positions of all the selectors: their union, so a repeat counts once.
    ///
    /// It takes any iterator that ends. The Rust crate has this as `Sum` alone. Costs one step for
    /// each item.
    pub fn sum<I: Iterator<Item = BitSel<R>>>(iter: I) -> Self
        requires can { I.can_next iter }
        requires ends { IsFinite (I.remaining iter) }
        ensures union { WholeRun I.next_gives iter
            (λ p. HasDigits R.BITS result (is_in_some p.items)) }
    {
        iter.sum()
    }
}

/// The positions that are in the mask and are ones of `rhs`.
impl<R: BitRegister> BitAnd<R> for BitMask<R> {
    type Output = Self;

    ghost use Rattle.std.specs.Prelude.{◌&&◌};
    ghost use Rattle.bitvec_order.specs.Masks.{HasDigits};

    ghost bitand_gives = { λ m v r. HasDigits R.BITS r (λ p. digit m p && digit (R.number v) p) };

    fn bitand(self, rhs: R) -> Self {
        BitMask {
            mask: self.mask.and(rhs),
        }
    }
}

/// The positions that are in the mask or are ones of `rhs`.
impl<R: BitRegister> BitOr<R> for BitMask<R> {
    type Output = Self;

    ghost use Rattle.bitvec_order.specs.Masks.{HasDigits};

    ghost bitor_gives = { λ m v r. HasDigits R.BITS r (λ p. digit m p || digit (R.number v) p) };

    fn bitor(self, rhs: R) -> Self {
        BitMask {
            mask: self.mask.or(rhs),
        }
    }
}

/// The positions below the width that are not in the mask.
impl<R: BitRegister> Not for BitMask<R> {
    type Output = Self;

    ghost use Rattle.std.specs.Prelude.{not};
    ghost use Rattle.bitvec_order.specs.Masks.{HasDigits};

    ghost not_gives = { λ m r. HasDigits R.BITS r (λ p. not (digit m p)) };

    fn not(self) -> Self {
        BitMask {
            mask: self.mask.not(),
        }
    }
}

/// The union of the selectors, as [`BitMask::sum`].
impl<R: BitRegister> Sum<BitSel<R>> for BitMask<R> {
    ghost use Rattle.bitvec_order.specs.Masks.{HasDigits, is_in_some};

    ghost sum_gives = { λ sels r. HasDigits R.BITS r (is_in_some sels) };

    fn sum<I: Iterator<Item = BitSel<R>>>(iter: I) -> Self {
        let mut all = Self::ZERO;
        for sel in iter {
            all.insert(sel);
        }
        all
    }
}
