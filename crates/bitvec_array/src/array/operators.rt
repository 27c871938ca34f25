//! Sets of bits: arrays combined with each other or with a slice, and turned over.

ghost use Rattle.std.specs.Prelude.{◌≡◌, ◌&&◌, ◌||◌, not, map, length};
ghost use Rattle.bitvec.specs.Digit.{exclusive_or};
ghost use Rattle.bitvec.specs.Memory.{zip_with};
ghost use Rattle.bitvec_slice.specs.BitSlice.{slice_len, slice_bits};
ghost use Rattle.bitvec_array.specs.Array.{array_len, bits_in_words};

use crate::array::BitArray;
use crate::array::bit_array::span_of_all;
use bitvec::mem::BitRegister;
use bitvec::order::BitOrder;
use bitvec::ptr::combine::{And, AndNot, Combine, Or, Xor};
use bitvec_slice::slice::{BitSlice, BitSliceMut};
use std::ops::{BitAnd, BitAndAssign, BitOr, BitOrAssign, BitXor, BitXorAssign, Not};

// Combines the bits of a slice with those of `N` words.
fn combine_slice<C: Combine, O: BitOrder<usize>, const N: usize, R2: BitRegister, O2: BitOrder<R2>>(
    words: &mut [usize],
    source: BitSlice<'_, R2, O2>,
)
    requires many { length words.old ≡ N }
    requires same { slice_len source ≡ array_len N }
    ensures { bits_in_words O.at_of N words.new
        ≡ zip_with C.of (bits_in_words O.at_of N words.old) (slice_bits source.entry) }
{
    let mut bits = BitSliceMut::new_unchecked(span_of_all::<O, N>(), words);
    bits.combine_from::<C, R2, O2>(source);
}

impl<O: BitOrder<usize>, const N: usize> BitArray<O, N> {
    ghost use Rattle.bitvec_array.specs.BitArray.{array_bits};

    /// Combines the bits of a slice, of any register and order, with the array's: each bit becomes
    /// what `C` makes of it and of the slice's bit of that number.
    ///
    /// Requires that the slice has the array's length. By words where the positions of both orders
    /// rise or those of both fall, else by bits. Not in the Rust crate.
    ///
    /// # Examples
    ///
    /// ```
    /// let memory = [0xFFu8, 0, 0, 0, 0, 0, 0, 0x80];
    /// let slice = BitSlice::<u8, Lsb0>::all_unchecked(&memory);
    /// let mut bits: BitArray<Lsb0, 1> = BitArray::from_words([0x0F0F]);
    /// bits.combine_from::<AndNot, u8, Lsb0>(slice);
    /// assert_eq!(rt; bits.into_words(), [0x0F00]);
    /// ```
    pub fn combine_from<C: Combine, R2: BitRegister, O2: BitOrder<R2>>(
        &mut self,
        source: BitSlice<'_, R2, O2>,
    )
        requires { slice_len source ≡ array_len N }
        ensures { array_bits self.new
            ≡ zip_with C.of (array_bits self.old) (slice_bits source.entry) }
    {
        combine_slice::<C, O, N, R2, O2>(&mut self.words, source);
    }

    /// Leaves set those bits whose bit in a slice is set: the intersection of two sets.
    ///
    /// Requires that the slice has the array's length; it may be of any register and order. Costs
    /// as [`combine_from`](BitArray::combine_from) does. Not in the Rust crate.
    ///
    /// # Examples
    ///
    /// ```
    /// let memory = [0x0Fu8, 0, 0, 0, 0, 0, 0, 0x80];
    /// let slice = BitSlice::<u8, Lsb0>::all_unchecked(&memory);
    /// let mut bits: BitArray<Lsb0, 1> = BitArray::from_words([0x33]);
    /// bits.and_from(slice);
    /// assert_eq!(rt; bits.into_words(), [0x03]);
    /// ```
    pub fn and_from<R2: BitRegister, O2: BitOrder<R2>>(&mut self, source: BitSlice<'_, R2, O2>)
        requires { slice_len source ≡ array_len N }
        ensures { array_bits self.new
            ≡ zip_with (λ t s. t && s) (array_bits self.old) (slice_bits source.entry) }
    {
        self.combine_from::<And, R2, O2>(source);
    }

    /// Sets those bits whose bit in a slice is set: the union of two sets.
    ///
    /// Requires that the slice has the array's length; it may be of any register and order. Costs
    /// as [`combine_from`](BitArray::combine_from) does. Not in the Rust crate.
    pub fn or_from<R2: BitRegister, O2: BitOrder<R2>>(&mut self, source: BitSlice<'_, R2, O2>)
        requires { slice_len source ≡ array_len N }
        ensures { array_bits self.new
            ≡ zip_with (λ t s. t || s) (array_bits self.old) (slice_bits source.entry) }
    {
        self.combine_from::<Or, R2, O2>(source);
    }

    /// Turns over those bits whose bit in a slice is set: the symmetric difference of two sets.
    ///
    /// Requires that the slice has the array's length; it may be of any register and order. Costs
    /// as [`combine_from`](BitArray::combine_from) does. Not in the Rust crate.
    pub fn xor_from<R2: BitRegister, O2: BitOrder<R2>>(&mut self, source: BitSlice<'_, R2, O2>)
        requires { slice_len source ≡ array_len N }
        ensures { array_bits self.new
            ≡ zip_with exclusive_or (array_bits self.old) (slice_bits source.entry) }
    {
        self.combine_from::<Xor, R2, O2>(source);
    }

    /// Clears those bits whose bit in a slice is set: the difference of two sets.
    ///
    /// Requires that the slice has the array's length; it may be of any register and order. Costs
    /// as [`combine_from`](BitArray::combine_from) does. Not in the Rust crate.
    pub fn and_not_from<R2: BitRegister, O2: BitOrder<R2>>(&mut self, source: BitSlice<'_, R2, O2>)
        requires { slice_len source ≡ array_len N }
        ensures { array_bits self.new
            ≡ zip_with (λ t s. t && not s) (array_bits self.old) (slice_bits source.entry) }
    {
        self.combine_from::<AndNot, R2, O2>(source);
    }

    // Combines the bits of another array with the array's.
    fn combine<C: Combine>(&mut self, other: &Self)
        ensures { array_bits self.new ≡ zip_with C.of (array_bits self.old) (array_bits other.now) }
    {
        let span = span_of_all::<O, N>();
        span.combine_from::<C, usize, O>(&mut self.words, span, &other.words);
    }

    /// Clears those bits whose bit in another array is set: the difference of two sets. Costs as
    /// `&=` does. Not in the Rust crate.
    pub fn and_not(&mut self, other: Self)
        ensures { array_bits self.new
            ≡ zip_with (λ t s. t && not s) (array_bits self.old) (array_bits other) }
    {
        self.combine::<AndNot>(&other);
    }

    /// Turns each bit over, word by word. As `!`, but in place.
    pub fn invert(&mut self)
        ensures { array_bits self.new ≡ map not (array_bits self.old) }
    {
        span_of_all::<O, N>().invert(&mut self.words);
    }
}

/// Leaves set those bits whose bit in the other array is set: the intersection of two sets.
///
/// By words where the order's positions rise or fall, else by bits. As in the Rust crate.
///
/// # Examples
///
/// ```
/// let mut bits: BitArray<Lsb0, 1> = BitArray::from_words([0b0011]);
/// bits &= BitArray::from_words([0b0101]);
/// assert_eq!(rt; bits.into_words(), [0b0001]);
/// ```
impl<O: BitOrder<usize>, const N: usize> BitAndAssign for BitArray<O, N> {
    ghost use Rattle.bitvec_array.specs.BitArray.{array_bits};

    ghost bitand_assign_gives = { λ old other new. array_bits new
        ≡ zip_with (λ t s. t && s) (array_bits old) (array_bits other) };

    fn bitand_assign(&mut self, rhs: Self) {
        self.combine::<And>(&rhs);
    }
}

/// Sets those bits whose bit in the other array is set: the union of two sets.
///
/// By words where the order's positions rise or fall, else by bits. As in the Rust crate.
impl<O: BitOrder<usize>, const N: usize> BitOrAssign for BitArray<O, N> {
    ghost use Rattle.bitvec_array.specs.BitArray.{array_bits};

    ghost bitor_assign_gives = { λ old other new. array_bits new
        ≡ zip_with (λ t s. t || s) (array_bits old) (array_bits other) };

    fn bitor_assign(&mut self, rhs: Self) {
        self.combine::<Or>(&rhs);
    }
}

/// Turns over those bits whose bit in the other array is set: the symmetric difference of two sets.
///
/// By words where the order's positions rise or fall, else by bits. As in the Rust crate.
impl<O: BitOrder<usize>, const N: usize> BitXorAssign for BitArray<O, N> {
    ghost use Rattle.bitvec_array.specs.BitArray.{array_bits};

    ghost bitxor_assign_gives = { λ old other new. array_bits new
        ≡ zip_with exclusive_or (array_bits old) (array_bits other) };

    fn bitxor_assign(&mut self, rhs: Self) {
        self.combine::<Xor>(&rhs);
    }
}

/// The bits that are set in both arrays, as `&=` makes them.
///
/// # Examples
///
/// ```
/// let low: BitArray<Lsb0, 1> = BitArray::from_words([0b0011]);
/// let even: BitArray<Lsb0, 1> = BitArray::from_words([0b0101]);
/// assert_eq!(rt; (low & even).into_words(), [0b0001]);
/// assert_eq!(rt; (low | even).into_words(), [0b0111]);
/// assert_eq!(rt; (low ^ even).into_words(), [0b0110]);
/// assert_eq!(rt; (!low).get(1), Some(false));
/// assert_eq!(rt; (!low).get(2), Some(true));
/// ```
impl<O: BitOrder<usize>, const N: usize> BitAnd for BitArray<O, N> {
    ghost use Rattle.bitvec_array.specs.BitArray.{array_bits};

    type Output = BitArray<O, N>;

    ghost bitand_gives = { λ array other both. array_bits both
        ≡ zip_with (λ t s. t && s) (array_bits array) (array_bits other) };

    fn bitand(self, rhs: Self) -> BitArray<O, N> {
        let mut both = self;
        both &= rhs;
        both
    }
}

/// The bits that are set in one of the arrays or in both, as `|=` makes them.
impl<O: BitOrder<usize>, const N: usize> BitOr for BitArray<O, N> {
    ghost use Rattle.bitvec_array.specs.BitArray.{array_bits};

    type Output = BitArray<O, N>;

    ghost bitor_gives = { λ array other either. array_bits either
        ≡ zip_with (λ t s. t || s) (array_bits array) (array_bits other) };

    fn bitor(self, rhs: Self) -> BitArray<O, N> {
        let mut either = self;
        either |= rhs;
        either
    }
}

/// The bits that are set in one of the arrays alone, as `^=` makes them.
impl<O: BitOrder<usize>, const N: usize> BitXor for BitArray<O, N> {
    ghost use Rattle.bitvec_array.specs.BitArray.{array_bits};

    type Output = BitArray<O, N>;

    ghost bitxor_gives = { λ array other one. array_bits one
        ≡ zip_with exclusive_or (array_bits array) (array_bits other) };

    fn bitxor(self, rhs: Self) -> BitArray<O, N> {
        let mut one = self;
        one ^= rhs;
        one
    }
}

/// The bits turned over.
impl<O: BitOrder<usize>, const N: usize> Not for BitArray<O, N> {
    ghost use Rattle.bitvec_array.specs.BitArray.{array_bits};

    type Output = BitArray<O, N>;

    ghost not_gives = { λ array other. array_bits other ≡ map not (array_bits array) };

    fn not(self) -> BitArray<O, N> {
        let mut other = self;
        other.invert();
        other
    }
}
