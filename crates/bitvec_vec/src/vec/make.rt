//! How vectors are made, and their words.

ghost use Rattle.std.specs.Prelude.{◌≡◌, ◌≤◌, ◌<◌, ◌*◌, [], IfOk, OnErr, length, map, min};
ghost use Rattle.std.specs.Prelude.{replicate, vec_len, vec_capacity};
ghost use Rattle.bitvec.specs.Memory.{memory_bits};
ghost use Rattle.bitvec.specs.Place.{region_max_bits};
ghost use Rattle.bitvec_slice.specs.BitSlice.{slice_bits};
ghost use Rattle.bitvec_vec.specs.Front.{front_bits, words_for};

use crate::vec::BitVec;
use bitvec::mem::BitRegister;
use bitvec::order::BitOrder;
use bitvec_slice::slice::BitSlice;
use std::alloc::{AllocError, Allocator};
use std::marker::PhantomData;

impl<R: BitRegister, O: BitOrder<R>, A: Allocator> BitVec<R, O, A> {
    ghost use Rattle.bitvec_vec.specs.BitVec.{vec_bits, bit_capacity};

    /// No bits. Takes no memory. Constant time.
    pub fn new(alloc: A) -> Self
        ensures bits { vec_bits result ≡ [] }
        ensures capacity { bit_capacity result ≡ 0 }
    {
        BitVec {
            words: Vec::new(alloc),
            len: 0,
            of: PhantomData,
        }
    }

    /// No bits, and memory for `capacity` bits. It refuses where memory is refused, or where
    /// `capacity` is more than 2305843009213693951. For a capacity of 0 it asks for no memory, and
    /// never refuses. Costs one request to the allocator.
    pub fn with_capacity(alloc: A, capacity: usize) -> Result<Self, AllocError>
        ensures bits { IfOk result (λ vec. vec_bits vec ≡ []) }
        ensures capacity { IfOk result (λ vec. capacity ≤ bit_capacity vec) }
        ensures full { OnErr result (0 < capacity) }
    {
        let mut vec = BitVec::new(alloc);
        vec.reserve(capacity)?;
        Ok(vec)
    }

    /// The same bit `len` times. It refuses where memory is refused, or where there would be more
    /// than 2305843009213693951 bits; no bits take no memory, and are never refused. Costs by
    /// words.
    ///
    /// # Examples
    ///
    /// ```
    /// let zeros = BitVec::<u8, Msb0>::repeat(rt.alloc(), false, 50)?;
    /// let ones = BitVec::<u16, Lsb0>::repeat(rt.alloc(), true, 50)?;
    /// assert_eq!(rt; zeros.len(), 50);
    /// assert_eq!(rt; zeros.as_bitslice().count_ones(), 0);
    /// assert_eq!(rt; ones.as_bitslice().count_ones(), 50);
    /// ```
    pub fn repeat(alloc: A, bit: bool, len: usize) -> Result<Self, AllocError>
        ensures bits { IfOk result (λ vec. vec_bits vec ≡ replicate len bit) }
        ensures full { OnErr result (0 < len) }
    {
        let mut vec = BitVec::new(alloc);
        vec.resize(len, bit)?;
        Ok(vec)
    }

    /// The bits of a slice, of any register and order. It refuses where memory is refused; no bits
    /// take none, and are never refused. By words where the positions of both orders rise or those
    /// of both fall, else by bits.
    ///
    /// # Examples
    ///
    /// ```
    /// let memory = [0x2Cu8];
    /// let span: BitSpan<u8, Lsb0> = BitSpan::at(2, 4).unwrap();
    /// let slice = BitSlice::new(span, &memory).ok_or("outside")?;
    /// let bits = BitVec::<u32, Msb0>::from_bitslice(rt.alloc(), slice)?;
    /// assert_eq!(rt; bits.len(), 4);
    /// assert_eq!(rt; bits.get(0), Some(true));
    /// assert_eq!(rt; bits.get(2), Some(false));
    /// ```
    pub fn from_bitslice<R2: BitRegister, O2: BitOrder<R2>>(
        alloc: A,
        slice: BitSlice<'_, R2, O2>,
    ) -> Result<Self, AllocError>
        ensures bits { IfOk result (λ vec. vec_bits vec ≡ slice_bits slice.entry) }
        ensures full { OnErr result (0 < length (slice_bits slice.entry)) }
    {
        let mut vec = BitVec::new(alloc);
        vec.extend_from_bitslice(slice)?;
        Ok(vec)
    }

    /// Every bit of some words, in order, with the room that the words have. Requires that there
    /// are at most 2305843009213693951 bits. Constant time. The Rust crate's `from_vec`.
    ///
    /// # Examples
    ///
    /// ```
    /// let words = vec![in rt.alloc(); 0x81u8, 0x0F]?;
    /// assert!(rt; words.len() < 100);
    /// let bits = BitVec::<u8, Msb0>::from_words(words);
    /// assert_eq!(rt; bits.len(), 16);
    /// assert_eq!(rt; bits.get(7), Some(true));
    /// assert_eq!(rt; bits.get(8), Some(false));
    /// ```
    pub fn from_words(words: Vec<R, A>) -> Self
        requires { vec_len words * R.BITS ≤ region_max_bits }
        ensures bits { vec_bits result ≡ memory_bits R.BITS O.at_of (map R.number words.items) }
        ensures capacity { bit_capacity result
            ≡ min (vec_capacity words * R.BITS) region_max_bits }
    {
        let len = words.len() * usize::from(R::BITS);
        BitVec {
            words,
            len,
            of: PhantomData,
        }
    }

    /// The words that the bits lie in, and no others, with all their room. What the last word has
    /// behind the bits is not said. Constant time. The Rust crate's `into_vec`.
    pub fn into_words(self) -> Vec<R, A>
        ensures capacity { min (vec_capacity result * R.BITS) region_max_bits
            ≡ bit_capacity self }
        ensures words { vec_len result ≡ words_for R.BITS (length (vec_bits self)) }
        ensures bits { front_bits R.BITS O.at_of (length (vec_bits self))
            (map R.number result.items) ≡ vec_bits self }
    {
        let BitVec {
            words,
            len: _,
            of: _,
        } = self;
        words
    }
}
