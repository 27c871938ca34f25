//! Bits that lie one behind another in borrowed words.

ghost use Rattle.std.specs.Prelude.{◌≡◌, ⊤, ℕ, ◌+◌, ◌-◌, ◌*◌, ◌/◌, ◌<◌, ◌≤◌, ◌↔◌, ◌∷◌, [], IsTrue};
ghost use Rattle.std.specs.Prelude.{Some, length, map, slice_get, slice_set};
ghost use Rattle.std.proofs.Common.{zero-le};
ghost use Rattle.bitvec_ptr.specs.BitPtr.{ptr_of};
ghost use Rattle.bitvec_ptr.specs.Place.{words_met, memory_place};
ghost use Rattle.bitvec_ptr.specs.Steps.{IsIn};
ghost use Rattle.bitvec_span.specs.Span.{region_max_bits};
ghost use Rattle.bitvec_span.specs.BitParts.{bits_list, part_bits, optional_bits, body_bits};

use crate::domain::PartialElement;
use bitvec_mem::mem::BitRegister;
use bitvec_order::index::BitIdx;
use bitvec_order::order::BitOrder;
use bitvec_ptr::ptr::single::BitPtr;
use std::alloc::AllocError;
use std::marker::PhantomData;

/// Some bits that lie one behind another: borrowed words, the index of the first bit in the first
/// of them, and how many bits there are.
///
/// In place of the Rust crate's bit slices.
///
/// # Examples
///
/// ```
/// let memory = [0x12u8, 0x34];
/// let span: BitSpan<u8, Lsb0> = BitSpan::new(0, BitIdx::new_unchecked(4), 8).unwrap();
/// let bits = span.part(&memory, 0).into_bitslice();
/// assert!(rt; bits.len() == 4);
/// assert_eq!(rt; bits.read(0), true);
/// assert_eq!(rt; bits.read(3), false);
/// ```
#[derive_where(Debug)]
pub struct BitWords<'a, R: BitRegister, O> {
    words: &'a [R],
    head: u8,
    len: usize,
    order: PhantomData<O>,
    pub ghost head_in: { head ≤ R.BITS - 1 },
    pub ghost short: { len ≤ region_max_bits },
    pub ghost fits: { words_met R.BITS head len ≤ length words.now },
}

impl<'a, R: BitRegister, O> Clone for BitWords<'a, R, O> {
    ghost is_clone = { λ it copy. copy ≡ it };

    ghost is_infallible = { λ _. ⊤ };

    fn clone(&self) -> Result<Self, AllocError> {
        Ok(*self)
    }
}

impl<'a, R: BitRegister, O> Copy for BitWords<'a, R, O> {}

impl<'a, R: BitRegister, O> BitWords<'a, R, O> {
    ghost use Rattle.bitvec_span.specs.BitDomain.{word_bits};

    /// How many bits there are. Constant time.
    pub fn len(&self) -> usize
        ensures { result ≡ (word_bits R.number self.now).len }
    {
        self.len
    }

    /// Whether there are none. Constant time.
    pub fn is_empty(&self) -> bool
        ensures { IsTrue result ↔ ((word_bits R.number self.now).len ≡ 0) }
    {
        self.len == 0
    }

    /// The words in which the bits lie, with what else stands in them. Constant time.
    pub fn words(&self) -> &[R]
        ensures { map R.number result.now ≡ (word_bits R.number self.now).words }
    {
        self.words
    }

    /// The index of the first bit in the first word. Constant time.
    pub fn head(&self) -> BitIdx<R>
        ensures { result ≡ (word_bits R.number self.now).head }
    {
        BitIdx::new_unchecked(self.head)
    }
}

// The pointer to the bit `i` places after the bit `head` of a memory's first word.
pub(super) fn word_pointer<R: BitRegister, O>(head: u8, i: usize) -> BitPtr<R, O>
    requires head { head < R.BITS }
    requires short { i < region_max_bits }
    ensures place { memory_place R.BITS (ptr_of result) ≡ head + i }
    ensures inside { (words : ℕ) → head + i < words * R.BITS → IsIn (ptr_of result) words }
{
    let far = usize::from(head) + i;
    let width = usize::from(R::BITS);
    BitPtr::new(
        (far / width) as isize,
        BitIdx::new_unchecked((far % width) as u8),
    )
}

impl<'a, R: BitRegister, O: BitOrder<R>> BitWords<'a, R, O> {
    ghost use Rattle.bitvec_span.specs.BitDomain.{word_bits};

    /// Bit `i`. Requires that `i` is below the number of bits. Constant time.
    pub fn read(&self, i: usize) -> bool
        requires { i < (word_bits R.number self.now).len }
        ensures { slice_get (bits_list R.BITS O.at_of (word_bits R.number self.now)) i
            ≡ Some result }
    {
        word_pointer::<R, O>(self.head, i).read(self.words)
    }
}

impl<'a, R: BitRegister, O> Default for BitWords<'a, R, O> {
    ghost use Rattle.bitvec_span.specs.BitDomain.{word_bits};

    ghost is_default = { λ w. word_bits R.number w ≡ record { words = []; head = 0; len = 0 } };

    fn default() -> Self {
        BitWords {
            words: &[],
            head: 0,
            len: 0,
            order: PhantomData,
        }
    }
}

impl<'a, R: BitRegister, O> PartialElement<'a, R, O> {
    ghost use Rattle.bitvec_span.specs.Domain.{element_part};
    ghost use Rattle.bitvec_span.specs.BitDomain.{word_bits};

    /// The bits of the part, in its one word.
    ///
    /// The Rust crate gives a bit slice. Constant time.
    pub fn into_bitslice(self) -> BitWords<'a, R, O>
        ensures { word_bits R.number result ≡ part_bits (element_part R.number self.entry) }
    {
        BitWords {
            words: self.elem,
            head: self.head,
            len: usize::from(self.tail - self.head),
            order: PhantomData,
        }
    }
}

impl<'a, R: BitRegister, O> BitWords<'a, R, O> {
    ghost use Rattle.bitvec_span.specs.Domain.{optional_part};
    ghost use Rattle.bitvec_span.specs.BitDomain.{word_bits};

    // The bits of a part, or none.
    pub(super) fn of_part(part: Option<PartialElement<'a, R, O>>) -> Self
        ensures { word_bits R.number result ≡ optional_bits (optional_part R.number part.entry) }
    {
        let Some(part) = part else {
            return BitWords::default();
        };
        part.into_bitslice()
    }

    // All bits of whole words.
    pub(super) fn of_body(body: &'a [R]) -> Self
        requires { length body.now ≤ region_max_bits / R.BITS }
        ensures { word_bits R.number result ≡ body_bits R.BITS (map R.number body.now) }
    {
        BitWords {
            words: body,
            head: 0,
            len: body.len() * usize::from(R::BITS),
            order: PhantomData,
        }
    }
}
