//! Some bits of one word, for reading.

ghost use Rattle.std.specs.Prelude.{◌≡◌, ⊤, ◌<◌, ◌≤◌, length, map, slice_index};
ghost use Rattle.bitvec_order.specs.Order.{IsMaskOf};
ghost use Rattle.bitvec_span.specs.Parts.{value_of};

use bitvec_mem::mem::BitRegister;
use bitvec_order::index::{BitEnd, BitIdx, BitMask};
use bitvec_order::order::BitOrder;
use std::alloc::AllocError;
use std::marker::PhantomData;

/// Some bits of one word: those with indices from a head to before a tail.
///
/// # Examples
///
/// ```
/// let memory = [0x12u8, 0x34];
/// let span: BitSpan<u8, Lsb0> = BitSpan::new(0, BitIdx::new_unchecked(4), 8).unwrap();
/// let part = span.part(&memory, 1);
/// assert_eq!(rt; part.mask().into_inner(), 0x0F);
/// assert_eq!(rt; part.load_value(), 0x04);
/// ```
#[derive_where(Debug)]
pub struct PartialElement<'a, R: BitRegister, O> {
    pub(super) elem: &'a [R],
    pub(super) head: u8,
    pub(super) tail: u8,
    order: PhantomData<O>,
    pub ghost single: { length elem.now ≡ 1 },
    pub ghost head_in: { head < R.BITS },
    pub ghost tail_in: { tail ≤ R.BITS },
    pub ghost ordered: { head ≤ tail },
}

impl<'a, R: BitRegister, O> Clone for PartialElement<'a, R, O> {
    ghost is_clone = { λ it copy. copy ≡ it };

    ghost is_infallible = { λ _. ⊤ };

    fn clone(&self) -> Result<Self, AllocError> {
        Ok(*self)
    }
}

impl<'a, R: BitRegister, O> Copy for PartialElement<'a, R, O> {}

impl<'a, R: BitRegister, O> PartialElement<'a, R, O> {
    ghost use Rattle.bitvec_span.specs.Domain.{element_part};

    // The bits of the word `at` of a memory with indices from `head` to before `tail`.
    pub(super) fn new(memory: &'a [R], at: usize, head: BitIdx<R>, tail: BitEnd<R>) -> Self
        requires at { at < length memory.now }
        requires ordered { head ≤ tail }
        ensures { element_part R.number result ≡
            record { word = slice_index (map R.number memory.now) at; head = head; tail = tail } }
    {
        PartialElement {
            elem: &memory[at..at + 1],
            head: head.into_inner(),
            tail: tail.into_inner(),
            order: PhantomData,
        }
    }

    /// The index of the first bit. Constant time.
    pub fn head(&self) -> BitIdx<R>
        ensures { result ≡ (element_part R.number self.now).head }
    {
        BitIdx::new_unchecked(self.head)
    }

    /// One past the index of the last bit. Constant time.
    pub fn tail(&self) -> BitEnd<R>
        ensures { result ≡ (element_part R.number self.now).tail }
    {
        BitEnd::new_unchecked(self.tail)
    }

    /// The head and the tail. Constant time.
    pub fn bounds(&self) -> (BitIdx<R>, BitEnd<R>)
        ensures head { result.0 ≡ (element_part R.number self.now).head }
        ensures tail { result.1 ≡ (element_part R.number self.now).tail }
    {
        (self.head(), self.tail())
    }
}

impl<'a, R: BitRegister, O: BitOrder<R>> PartialElement<'a, R, O> {
    ghost use Rattle.bitvec_span.specs.Domain.{element_part};

    /// The positions of the bits. Constant time.
    pub fn mask(&self) -> BitMask<R>
        ensures { IsMaskOf R.BITS O.at_of (element_part R.number self.now).head
            (element_part R.number self.now).tail result }
    {
        O::mask(Some(self.head()), Some(self.tail()))
    }

    /// The digits of the word at the positions of the bits, where they stand in it, and all others
    /// zero. Constant time.
    pub fn load_value(&self) -> R
        ensures { R.number result ≡ value_of R.BITS O.at_of (element_part R.number self.now) }
    {
        let word = self.elem[0];
        let mask = self.mask().into_inner();
        word.and(mask)
    }
}
