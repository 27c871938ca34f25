//! Arrays of bits, and their single bits.

ghost use Rattle.std.specs.Prelude.{◌≡◌, ⊤, ◌<◌, ◌↔◌, [], IsTrue, length, slice_get, false};
ghost use Rattle.std.specs.Prelude.{replicate};
ghost use Rattle.bitvec.specs.BitSpan.{span_of};
ghost use Rattle.bitvec.specs.Place.{region_max_bits};
ghost use Rattle.bitvec.specs.Span.{Fits, element, front_span};
ghost use Rattle.bitvec_array.specs.Array.{array_len, bits_in_words};
ghost use types.Logic.{sem};

use bitvec::order::BitOrder;
use bitvec::ptr::span::BitSpan;
use bitvec_slice::slice::{BitSlice, BitSliceMut};
use std::alloc::AllocError;
use std::marker::PhantomData;

// The most bits that a span can have.
const MOST: usize = usize::MAX >> 3;

// The span of all bits of `N` words.
pub(crate) fn span_of_all<O, const N: usize>() -> BitSpan<usize, O>
    ensures span { span_of result ≡ front_span (array_len N) }
    ensures len { (span_of result).len ≡ array_len N }
    ensures fits { Fits 64 (span_of result) N }
{
    BitSpan::at_unchecked(0, N.saturating_mul(usize::BITS as usize).min(MOST))
}

/// The bits of `N` words of `usize`, 64 in each, by value.
///
/// Its contract is that of a `[bool; 64 * N]`: an array is its list of truth values, whose length
/// is [`len`](BitArray::len), and a copy of it is another list. It takes no memory.
///
/// No more bits are counted than a span can have, 2305843009213693951, so an array of more than
/// 2 to the power of 55 words would have no more than these.
///
/// # Examples
///
/// ```
/// let mut bits: BitArray<Lsb0, 2> = BitArray::zeros();
/// bits.set(70, true);
/// assert_eq!(rt; bits.len(), 128);
/// assert_eq!(rt; bits.get(70), Some(true));
/// assert_eq!(rt; bits.get(128), None);
/// assert_eq!(rt; bits.into_words(), [0, 0x40]);
/// ```
pub struct BitArray<O: BitOrder<usize>, const N: usize> {
    pub(crate) words: [usize; N],
    pub(crate) of: PhantomData<O>,

    // This holds of each array, and claims nothing: a contract can name the positions of a type's
    // order only where one of its ghost fields does.
    pub ghost positions: { O.at_of 0 ≡ O.at_of 0 },
}

impl<O: BitOrder<usize>, const N: usize> Clone for BitArray<O, N> {
    ghost is_clone = { λ it copy. copy ≡ it };

    ghost is_infallible = { λ _. ⊤ };

    fn clone(&self) -> Result<Self, AllocError> {
        Ok(BitArray {
            words: self.words,
            of: PhantomData,
        })
    }
}

impl<O: BitOrder<usize>, const N: usize> Copy for BitArray<O, N> {}

impl<O: BitOrder<usize>, const N: usize> BitArray<O, N> {
    ghost use Rattle.bitvec_slice.specs.BitSlice.{slice_span, slice_bits};
    ghost use Rattle.bitvec_slice.specs.BitSliceMut.{lent_span, lent_bits};
    ghost use Rattle.bitvec_array.specs.BitArray.{array_bits};
    ghost use Rattle.bitvec_array.specs.Lends.{array_follows};

    /// Every bit zero: [`ZERO`](crate::array::ZeroArray::ZERO), as a call. Costs by words.
    pub fn zeros() -> Self
        ensures { array_bits result ≡ replicate (array_len N) false }
    {
        BitArray {
            words: [0; N],
            of: PhantomData,
        }
    }

    /// The bits of some words, in order, by a copy of the words.
    /// [`from_words`](BitArray::from_words) is the same, by the name that vectors have for it.
    pub fn new(words: [usize; N]) -> Self
        ensures { array_bits result ≡ bits_in_words O.at_of N words.entry }
    {
        BitArray {
            words,
            of: PhantomData,
        }
    }

    /// The bits of some words, in order, by a copy of the words.
    ///
    /// # Examples
    ///
    /// ```
    /// let bits: BitArray<Msb0, 1> = BitArray::from_words([1]);
    /// assert_eq!(rt; bits.get(62), Some(false));
    /// assert_eq!(rt; bits.get(63), Some(true));
    /// ```
    pub fn from_words(words: [usize; N]) -> Self
        ensures { array_bits result ≡ bits_in_words O.at_of N words.entry }
    {
        Self::new(words)
    }

    /// The words that the bits lie in, by a copy. The Rust crate's `into_inner`.
    pub fn into_words(self) -> [usize; N]
        ensures words { length result ≡ N }
        ensures bits { bits_in_words O.at_of N result ≡ array_bits self }
    {
        self.words
    }

    /// How many bits there are: 64 for each word. Constant time.
    pub fn len(&self) -> usize
        ensures value { result ≡ array_len N }
        ensures list { result ≡ length (array_bits self.now) }
    {
        N.saturating_mul(usize::BITS as usize).min(MOST)
    }

    /// Whether there are none, as there are in an array of no words. Constant time.
    pub fn is_empty(&self) -> bool
        ensures { IsTrue result ↔ (array_bits self.now ≡ []) }
    {
        N == 0
    }

    /// Its bits, for reading: a slice that begins with the first bit of its first word. Constant
    /// time.
    pub fn as_bitslice(&self) -> BitSlice<'_, usize, O>
        ensures span { slice_span result ≡ front_span (array_len N) }
        ensures bits { slice_bits result ≡ array_bits self.now }
    {
        BitSlice::new_unchecked(span_of_all::<O, N>(), &self.words)
    }

    /// Its bits, borrowed for writing. Constant time.
    ///
    /// The array is lent until the slice is used for the last time, and then has the slice's list.
    /// Code whose proof is to know what the array's list becomes calls the array's own edits.
    ///
    /// # Examples
    ///
    /// ```
    /// let mut bits: BitArray<Lsb0, 1> = BitArray::zeros();
    /// let mut slice = bits.as_mut_bitslice();
    /// slice.fill_range(4, 8, true);
    /// drop(slice);
    /// assert_eq!(rt; bits.into_words(), [0xF0]);
    /// ```
    pub fn as_mut_bitslice(&mut self) -> BitSliceMut<'_, usize, O>
        ensures* writes_back { sem 𝓛 (array_follows O.row N.row self.entry result) }
        ensures span { lent_span result ≡ front_span (array_len N) }
        ensures bits { lent_bits result ≡ array_bits self.old }
    {
        let words = &mut self.words;
        BitSliceMut::new_unchecked(span_of_all::<O, N>(), &mut words[..])
    }

    /// Bit `i`, and `None` where there are no more than `i` bits. Constant time.
    pub fn get(&self, i: usize) -> Option<bool>
        ensures { result ≡ slice_get (array_bits self.now) i }
    {
        self.as_bitslice().get(i)
    }

    /// Bit `i`. Requires that there is one: [`len`](BitArray::len) is the test. Constant time.
    pub fn get_unchecked(&self, i: usize) -> bool
        requires { i < array_len N }
        ensures { result ≡ element (array_bits self.now) i }
    {
        span_of_all::<O, N>().read(&self.words, i)
    }
}

/// Every bit zero. As in the Rust crate.
impl<O: BitOrder<usize>, const N: usize> Default for BitArray<O, N> {
    ghost use Rattle.bitvec_array.specs.BitArray.{array_bits};

    ghost is_default = { λ array. array_bits array ≡ replicate (array_len N) false };

    fn default() -> Self {
        Self::zeros()
    }
}
