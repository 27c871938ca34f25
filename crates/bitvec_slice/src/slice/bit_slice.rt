//! Slices of bits for reading, and their single bits.

ghost use Rattle.std.specs.Prelude.{◌≡◌, ⊤, ◌+◌, ◌-◌, ◌<◌, ◌≤◌, ◌↔◌, IsTrue, IsSome, IfSome, MatchOption};
ghost use Rattle.std.specs.Prelude.{length, map, slice_get};
ghost use Rattle.bitvec.specs.BitSpan.{span_of, list_by};
ghost use Rattle.bitvec.specs.Digit.{digit};
ghost use Rattle.bitvec.specs.Span.{Fits, element};
ghost use Rattle.bitvec_slice.specs.Bits.{IsLastOf};
ghost use Rattle.bitvec_slice.specs.Lengths.{HasLength};

use crate::field::word_met;
use bitvec::index::{BitIdx, BitMask};
use bitvec::mem;
use bitvec::mem::BitRegister;
use bitvec::order::BitOrder;
use bitvec::ptr::span::BitSpan;
use std::alloc::AllocError;

// The digit of a word at the position of an index.
#[inline(always)]
fn bit_at<R: BitRegister, O: BitOrder<R>>(word: R, index: BitIdx<R>) -> bool
    ensures { result ≡ digit (R.number word) (O.at_of index) }
{
    BitMask::new(word).test(index.select::<O>())
}

/// The bits of a span in a memory, for reading.
///
/// # Examples
///
/// ```
/// let memory = [0x2Cu8];
/// let span: BitSpan<u8, Lsb0> = BitSpan::new(0, BitIdx::new_unchecked(2), 4).unwrap();
/// let slice = BitSlice::new(span, &memory).ok_or("outside")?;
/// assert_eq!(rt; slice.get(0), Some(true));
/// assert_eq!(rt; slice.get(4), None);
/// assert_eq!(rt; slice.count_ones(), 3);
/// assert_eq!(rt; slice.first_zero(), Some(2));
/// ```
pub struct BitSlice<'a, R: BitRegister, O: BitOrder<R>> {
    pub(crate) memory: &'a [R],
    pub(crate) span: BitSpan<R, O>,
    pub ghost fits: { Fits R.BITS (span_of span) (length memory.now) },
    // The span's list has the length of the span, whatever the words of the memory are.
    pub ghost many: { HasLength R.BITS O.at_of (span_of span) },
}

impl<'a, R: BitRegister, O: BitOrder<R>> Clone for BitSlice<'a, R, O> {
    ghost is_clone = { λ it copy. copy ≡ it };

    ghost is_infallible = { λ _. ⊤ };

    fn clone(&self) -> Result<Self, AllocError> {
        Ok(*self)
    }
}

impl<'a, R: BitRegister, O: BitOrder<R>> Copy for BitSlice<'a, R, O> {}

impl<'a, R: BitRegister, O: BitOrder<R>> BitSlice<'a, R, O> {
    ghost use Rattle.bitvec_slice.specs.BitSlice.{slice_memory, slice_span, slice_len, slice_bits};

    /// The bits of a span in a memory. Requires that the span lies in it: [`fits`](BitSpan::fits)
    /// is the test. Constant time. Not in the Rust crate.
    #[inline(always)]
    pub fn new_unchecked(span: BitSpan<R, O>, memory: &'a [R]) -> Self
        requires { Fits R.BITS (span_of span) (length memory.now) }
        ensures memory { slice_memory result ≡ memory.now }
        ensures span { slice_span result ≡ span_of span }
        ensures bits { slice_bits result ≡ list_by span O.at_of memory.now }
    {
        BitSlice { memory, span }
    }

    /// The bits of a span in a memory, and `None` exactly where the span does not lie in it.
    /// Constant time.
    pub fn new(span: BitSpan<R, O>, memory: &'a [R]) -> Option<Self>
        ensures accepted { IsSome result ↔ Fits R.BITS (span_of span) (length memory.now) }
        ensures memory { IfSome result (λ slice. slice_memory slice ≡ memory.now) }
        ensures span { IfSome result (λ slice. slice_span slice ≡ span_of span) }
        ensures bits { IfSome result (λ slice. slice_bits slice
            ≡ list_by span O.at_of memory.now) }
    {
        if span.fits(memory.len()) {
            Some(Self::new_unchecked(span, memory))
        } else {
            None
        }
    }

    /// How many bits there are. Constant time.
    #[inline(always)]
    pub fn len(&self) -> usize
        ensures value { result ≡ slice_len self.now }
        ensures list { result ≡ length (slice_bits self.now) }
    {
        self.span.len()
    }

    /// Whether there are none. Constant time.
    #[inline(always)]
    pub fn is_empty(&self) -> bool
        ensures { IsTrue result ↔ (slice_len self.now ≡ 0) }
    {
        self.len() == 0
    }

    /// Bit `i`, and `None` where there are no more than `i` bits. Constant time.
    #[inline(always)]
    pub fn get(&self, i: usize) -> Option<bool>
        ensures { result ≡ slice_get (slice_bits self.now) i }
    {
        if i < self.len() {
            Some(self.get_unchecked(i))
        } else {
            None
        }
    }

    /// Bit `i`. Requires that there is one: [`len`](BitSlice::len) is the test. Constant time.
    #[inline(always)]
    pub fn get_unchecked(&self, i: usize) -> bool
        requires { i < slice_len self.now }
        ensures { result ≡ element (slice_bits self.now) i }
    {
        self.bit_at_place(self.head() + i)
    }

    // The bit at a place, which is counted from the first bit of the slice's first word.
    #[inline(always)]
    pub(super) fn bit_at_place(&self, place: usize) -> bool
        requires from { (slice_span self.now).head ≤ place }
        requires inside { place < (slice_span self.now).head + slice_len self.now }
        ensures { result ≡ element (slice_bits self.now) (place - (slice_span self.now).head) }
    {
        let width = mem::bits_of::<R>();
        let word = word_met(self.span, self.memory, place / width);
        bit_at::<R, O>(word, BitIdx::new_unchecked((place % width) as u8))
    }

    /// The first bit, and `None` where there are no bits. Constant time.
    #[inline(always)]
    pub fn first(&self) -> Option<bool>
        ensures { MatchOption result (length (slice_bits self.now) ≡ 0)
            (λ bit. (0 < length (slice_bits self.now)) × (bit ≡ element (slice_bits self.now) 0)) }
    {
        self.get(0)
    }

    /// The last bit, and `None` where there are no bits. Constant time.
    #[inline(always)]
    pub fn last(&self) -> Option<bool>
        ensures { IsLastOf (slice_bits self.now) result }
    {
        let count = self.len();
        if count == 0 {
            None
        } else {
            Some(self.get_unchecked(count - 1))
        }
    }
}
