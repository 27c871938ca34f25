//! Vectors of bits, and their single bits.

ghost use Rattle.std.specs.Prelude.{◌≡◌, ◌≤◌, ◌<◌, ◌*◌, ◌↔◌, [], IsTrue, length, min};
ghost use Rattle.std.specs.Prelude.{slice_get, vec_len};
ghost use Rattle.bitvec.specs.Place.{region_max_bits};
ghost use Rattle.bitvec.specs.Span.{element, front_span};
ghost use Rattle.bitvec_vec.specs.Front.{words_for};
ghost use types.Logic.{sem};

use crate::vec::front::{MOST, span_of_front};
use bitvec::mem::BitRegister;
use bitvec::order::{BitOrder, Lsb0};
use bitvec::ptr::span::BitSpan;
use bitvec_slice::slice::{BitSlice, BitSliceMut};
use std::alloc::{Allocator, Global};
use std::marker::PhantomData;

/// A list of bits that can grow, in words of its own.
///
/// Its contract is that of a `Vec<bool>`: a vector is its list of truth values. It has the words
/// that the bits take, and no more. Those bits of the last word that lie behind the vector's are no
/// one's: no call tells of them.
///
/// A vector has at most 2305843009213693951 bits, as a span has. What would make it longer answers
/// `AllocError`, as where memory is refused, and leaves the list as it was; in the Rust crate both
/// panic.
///
/// A call that has the room it needs ([`capacity`](BitVec::capacity)) refuses nothing. Whether
/// memory that is asked for is refused is the allocator's to say. The contract that std gives an
/// allocator tells nothing of it, so no contract here does, as none of std's `Vec` does.
///
/// # Examples
///
/// ```
/// let mut bits = BitVec::<u8, Msb0>::new(rt.alloc());
/// bits.push(false)?;
/// bits.push(true)?;
/// assert_eq!(rt; bits.len(), 2);
/// assert_eq!(rt; bits.get(1), Some(true));
/// assert_eq!(rt; bits.pop(), Some(true));
/// assert_eq!(rt; bits.pop(), Some(false));
/// assert_eq!(rt; bits.pop(), None);
/// ```
#[derive(Drop)]
pub struct BitVec<R: BitRegister = usize, O: BitOrder<R> = Lsb0, A: Allocator = Global> {
    pub(crate) words: Vec<R, A>,
    pub(crate) len: usize,
    pub(crate) of: PhantomData<O>,
    pub ghost short: { len ≤ region_max_bits },
    pub ghost enough: { vec_len words ≡ words_for R.BITS len },
}

impl<R: BitRegister, O: BitOrder<R>, A: Allocator> BitVec<R, O, A> {
    ghost use Rattle.bitvec_slice.specs.BitSlice.{slice_span, slice_bits};
    ghost use Rattle.bitvec_slice.specs.BitSliceMut.{lent_span, lent_bits};
    ghost use Rattle.bitvec_vec.specs.BitVec.{vec_bits, bit_capacity};
    ghost use Rattle.bitvec_vec.specs.Lends.{vec_follows};

    /// How many bits there are. Constant time.
    pub fn len(&self) -> usize
        ensures { result ≡ length (vec_bits self.now) }
    {
        self.len
    }

    /// Whether there are none. Constant time.
    pub fn is_empty(&self) -> bool
        ensures { IsTrue result ↔ (vec_bits self.now ≡ []) }
    {
        self.len == 0
    }

    /// For how many bits there is room before memory is asked for. Constant time.
    pub fn capacity(&self) -> usize
        ensures { result ≡ bit_capacity self.now }
    {
        let bits = self.words.capacity().saturating_mul(usize::from(R::BITS));
        bits.min(MOST)
    }

    /// Its bits, for reading: a slice that begins with the first bit of its first word. Constant
    /// time.
    pub fn as_bitslice(&self) -> BitSlice<'_, R, O>
        ensures span { slice_span result ≡ front_span (length (vec_bits self.now)) }
        ensures bits { slice_bits result ≡ vec_bits self.now }
    {
        BitSlice::new_unchecked(span_of_front(self.len), self.words.as_slice())
    }

    /// Bit `i`, and `None` where there are no more than `i` bits. Constant time.
    pub fn get(&self, i: usize) -> Option<bool>
        ensures { result ≡ slice_get (vec_bits self.now) i }
    {
        if i < self.len {
            Some(self.get_unchecked(i))
        } else {
            None
        }
    }

    /// Bit `i`. Requires that there is one: [`len`](BitVec::len) is the test. Constant time.
    pub fn get_unchecked(&self, i: usize) -> bool
        requires { i < length (vec_bits self.now) }
        ensures { result ≡ element (vec_bits self.now) i }
    {
        let span: BitSpan<R, O> = span_of_front(self.len);
        span.read(self.words.as_slice(), i)
    }

    /// Its bits, borrowed for writing. Constant time.
    ///
    /// The vector is lent until the slice is used for the last time, and then has the slice's list.
    /// Code whose proof is to know what the vector's list becomes calls the vector's own edits.
    ///
    /// # Examples
    ///
    /// ```
    /// let mut bits = BitVec::<u8, Lsb0>::repeat(rt.alloc(), false, 10)?;
    /// let mut slice = bits.as_mut_bitslice();
    /// slice.invert();
    /// drop(slice);
    /// assert_eq!(rt; bits.as_bitslice().count_ones(), 10);
    /// ```
    pub fn as_mut_bitslice(&mut self) -> BitSliceMut<'_, R, O>
        ensures* writes_back { sem 𝓛 (vec_follows R.row O.row A.row A.Allocator self.entry result) }
        ensures span { lent_span result ≡ front_span (length (vec_bits self.old)) }
        ensures bits { lent_bits result ≡ vec_bits self.old }
    {
        BitSliceMut::new_unchecked(span_of_front(self.len), self.words.as_mut_slice())
    }
}
