//! Iterators over the indices of a slice's ones, and over those of its zeros.
//!
//! Each gives its indices in rising order from the front, and in falling order from the back. Taken
//! from both ends in any mixture it gives each index once, and then `None` for good.

ghost use Rattle.std.specs.Prelude.{◌≡◌, ⊤, true, false, length};
ghost use Rattle.bitvec_slice.specs.BitSlice.{slice_bits};
ghost use Rattle.bitvec_slice.specs.Bits.{ones_between, zeros_between};

use crate::slice::BitSlice;
use crate::slice::ahead::Ahead;
use bitvec::mem::BitRegister;
use bitvec::order::BitOrder;
use std::alloc::AllocError;
use std::iter::FusedIterator;

/// The indices of the bits that are one, in rising order, from [`BitSlice::iter_ones`].
///
/// # Examples
///
/// ```
/// let memory = [0x0Bu8];
/// let span: BitSpan<u8, Lsb0> = BitSpan::new(0, BitIdx::new_unchecked(0), 4).unwrap();
/// let mut ones = BitSlice::new(span, &memory).ok_or("outside")?.iter_ones();
/// assert_eq!(rt; ones.next(), Some(0));
/// assert_eq!(rt; ones.next_back(), Some(3));
/// assert_eq!(rt; ones.next(), Some(1));
/// assert_eq!(rt; ones.next(), None);
/// ```
#[derive(Drop)]
pub struct IterOnes<'a, R: BitRegister, O: BitOrder<R>> {
    ahead: Ahead<'a, R, O>,
    pub ghost of_ones: { ahead.bit ≡ true },
}

impl<'a, R: BitRegister, O: BitOrder<R>> Clone for IterOnes<'a, R, O> {
    ghost is_clone = { λ it copy. copy ≡ it };

    ghost is_infallible = { λ _. ⊤ };

    fn clone(&self) -> Result<Self, AllocError> {
        Ok(IterOnes {
            ahead: self.ahead.copied(),
        })
    }
}

/// The indices of the bits that are zero, in rising order, from [`BitSlice::iter_zeros`].
///
/// # Examples
///
/// ```
/// let memory = [0x0Bu8];
/// let span: BitSpan<u8, Lsb0> = BitSpan::new(0, BitIdx::new_unchecked(0), 4).unwrap();
/// let mut zeros = BitSlice::new(span, &memory).ok_or("outside")?.iter_zeros();
/// assert_eq!(rt; zeros.next(), Some(2));
/// assert_eq!(rt; zeros.next(), None);
/// ```
#[derive(Drop)]
pub struct IterZeros<'a, R: BitRegister, O: BitOrder<R>> {
    ahead: Ahead<'a, R, O>,
    pub ghost of_zeros: { ahead.bit ≡ false },
}

impl<'a, R: BitRegister, O: BitOrder<R>> Clone for IterZeros<'a, R, O> {
    ghost is_clone = { λ it copy. copy ≡ it };

    ghost is_infallible = { λ _. ⊤ };

    fn clone(&self) -> Result<Self, AllocError> {
        Ok(IterZeros {
            ahead: self.ahead.copied(),
        })
    }
}

impl<'a, R: BitRegister, O: BitOrder<R>> BitSlice<'a, R, O> {
    ghost use Rattle.bitvec_slice.specs.Ones.{ones_left, zeros_left};

    /// The indices of the bits that are one, counted from 0, in rising order.
    ///
    /// Constant time. All calls of `next` together go by words, and by the indices that they give.
    pub fn iter_ones(&self) -> IterOnes<'a, R, O>
        ensures { ones_left result
            ≡ ones_between (slice_bits self.now) 0 (length (slice_bits self.now)) }
    {
        IterOnes {
            ahead: Ahead::new(*self, true),
        }
    }

    /// The indices of the bits that are zero, counted from 0, in rising order.
    ///
    /// Constant time. All calls of `next` together go by words, and by the indices that they give.
    pub fn iter_zeros(&self) -> IterZeros<'a, R, O>
        ensures { zeros_left result
            ≡ zeros_between (slice_bits self.now) 0 (length (slice_bits self.now)) }
    {
        IterZeros {
            ahead: Ahead::new(*self, false),
        }
    }
}

impl<'a, R: BitRegister, O: BitOrder<R>> Iterator for IterOnes<'a, R, O> {
    type Item = usize;

    ghost use Rattle.std.specs.Iterator.{YieldsFirst, item_count};
    ghost use Rattle.bitvec_slice.specs.Ones.{ones_left};

    ghost next_gives = { YieldsFirst ones_left };

    ghost remaining = { item_count ones_left };

    // Inlined, so that a loop over them knows which bits are wanted.
    #[inline(always)]
    fn next(&mut self) -> Option<usize> {
        self.ahead.step()
    }
}

impl<'a, R: BitRegister, O: BitOrder<R>> DoubleEndedIterator for IterOnes<'a, R, O> {
    ghost use Rattle.std.specs.Iterator.{YieldsLast};
    ghost use Rattle.bitvec_slice.specs.Ones.{ones_left};

    ghost next_back_gives = { YieldsLast ones_left };

    fn next_back(&mut self) -> Option<usize> {
        self.ahead.step_back(true)
    }
}

/// After `None` the iterator returns `None` for good.
impl<'a, R: BitRegister, O: BitOrder<R>> FusedIterator for IterOnes<'a, R, O> {}

impl<'a, R: BitRegister, O: BitOrder<R>> Iterator for IterZeros<'a, R, O> {
    type Item = usize;

    ghost use Rattle.std.specs.Iterator.{YieldsFirst, item_count};
    ghost use Rattle.bitvec_slice.specs.Ones.{zeros_left};

    ghost next_gives = { YieldsFirst zeros_left };

    ghost remaining = { item_count zeros_left };

    // Inlined, so that a loop over them knows which bits are wanted.
    #[inline(always)]
    fn next(&mut self) -> Option<usize> {
        self.ahead.step()
    }
}

impl<'a, R: BitRegister, O: BitOrder<R>> DoubleEndedIterator for IterZeros<'a, R, O> {
    ghost use Rattle.std.specs.Iterator.{YieldsLast};
    ghost use Rattle.bitvec_slice.specs.Ones.{zeros_left};

    ghost next_back_gives = { YieldsLast zeros_left };

    fn next_back(&mut self) -> Option<usize> {
        self.ahead.step_back(false)
    }
}

/// After `None` the iterator returns `None` for good.
impl<'a, R: BitRegister, O: BitOrder<R>> FusedIterator for IterZeros<'a, R, O> {}
