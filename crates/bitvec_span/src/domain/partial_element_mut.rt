//! Parts of words for writing.

ghost use Rattle.std.specs.Prelude.{◌≡◌, ℕ, ◌<◌, ◌≤◌, ◌^◌, Bool, true, false, not, if◌then◌else◌};
ghost use Rattle.std.specs.Prelude.{length, map, slice_index, slice_set};
ghost use Rattle.bitvec_mem.specs.Digit.{digit};
ghost use Rattle.bitvec_order.specs.Order.{IsMaskOf};
ghost use Rattle.bitvec_ptr.specs.Place.{words_met, tail_of};
ghost use Rattle.bitvec_span.specs.Span.{Fits};
ghost use Rattle.bitvec_span.specs.Parts.{value_of};
ghost use Rattle.bitvec_span.specs.Slot.{slot_at, slot_of};
ghost use Rattle.bitvec_span.specs.BitParts.{part_bits};
ghost use Rattle.bitvec_span.specs.Stretch.{slot_stretch};

use crate::domain::BitWordsMut;
use crate::ptr::span::BitSpan;
use bitvec_mem::mem::BitRegister;
use bitvec_order::index::{BitEnd, BitIdx, BitMask, Limits};
use bitvec_order::order::BitOrder;
use std::marker::PhantomData;

/// Some bits of one word, borrowed for writing: those with indices from a head to before a tail.
///
/// It borrows the memory in which the word lies, and changes that word alone. In place of the Rust
/// crate's `PartialElement` over a mutable word.
///
/// # Examples
///
/// ```
/// let mut memory = [0x12u8, 0x34];
/// let span: BitSpan<u8, Lsb0> = BitSpan::new(0, BitIdx::new_unchecked(4), 8).unwrap();
/// let mut part = span.part_mut(&mut memory, 0);
/// assert_eq!(rt; part.store_value(0xAB), 0x10);
/// drop(part);
/// assert_eq!(rt; memory, [0xA2, 0x34]);
/// ```
#[derive_where(Debug)]
pub struct PartialElementMut<'a, R: BitRegister, O> {
    memory: &'a mut [R],
    word: usize,
    head: u8,
    tail: u8,
    order: PhantomData<O>,
    pub ghost in_memory: { word < length memory.now },
    pub ghost head_in: { head < R.BITS },
    pub ghost tail_in: { tail ≤ R.BITS },
    pub ghost ordered: { head ≤ tail },
}

impl<R: BitRegister, O> Drop for PartialElementMut<'_, R, O> {
    ghost use Rattle.bitvec_span.specs.PartialElementMut.{memory_of};

    fn drop(self)
        ensures { self.exit.0.now ≡ (memory_of self.entry).now }
    {
        let PartialElementMut {
            memory: _,
            word: _,
            head: _,
            tail: _,
            order: _,
        } = self;
    }
}

// A word with the digits of a mask taken from another.
fn stored<R: BitRegister>(old: R, mask: R, value: R) -> R
    ensures below { R.number result < 2 ^ R.BITS }
    ensures digits { (p : ℕ) → p < R.BITS → digit (R.number result) p
        ≡ (if digit (R.number mask) p then digit (R.number value) p else digit (R.number old) p) }
{
    old.and(mask.not()).or(value.and(mask))
}

impl<'a, R: BitRegister, O> PartialElementMut<'a, R, O> {
    ghost use Rattle.bitvec_span.specs.PartialElementMut.{memory_of, slot_in};

    // The bits of the word `word` of a memory with indices from `head` to before `tail`, for
    // writing.
    fn new(memory: &'a mut [R], word: usize, head: BitIdx<R>, tail: BitEnd<R>) -> Self
        requires word { word < length memory.old }
        requires ordered { head ≤ tail }
        ensures reference { (memory_of result).ghost_name ≡ memory.entry.ghost_name }
        ensures memory { (memory_of result).now ≡ memory.old }
        ensures slot { slot_in result ≡ record { word = word; head = head; tail = tail } }
    {
        PartialElementMut {
            memory,
            word,
            head: head.into_inner(),
            tail: tail.into_inner(),
            order: PhantomData,
        }
    }

    // The memory that it borrows, as the edits left it: the whole loan, past the part's word.
    pub(super) fn into_memory(self) -> &'a mut [R]
        ensures reference { result.ghost_name ≡ (memory_of self.entry).ghost_name }
        ensures memory { result.now ≡ (memory_of self.entry).now }
    {
        let PartialElementMut {
            memory,
            word: _,
            head: _,
            tail: _,
            order: _,
        } = self;
        memory
    }

    // The word in which the bits lie.
    fn word(&self) -> R
        ensures { R.number result ≡ slice_index (map R.number (memory_of self.now).now)
            (slot_in self.now).word }
    {
        self.memory[self.word]
    }

    // Puts a whole word in its place.
    fn put(&mut self, word: R)
        ensures reference { (memory_of self.new).ghost_name ≡ (memory_of self.old).ghost_name }
        ensures slot { slot_in self.new ≡ slot_in self.old }
        ensures memory { (memory_of self.new).now
            ≡ slice_set (memory_of self.old).now (slot_in self.old).word word }
    {
        let at = self.word;
        let memory = &mut *self.memory;
        memory[at] = word;
    }

    /// The index of the first bit. Constant time.
    pub fn head(&self) -> BitIdx<R>
        ensures { result ≡ (slot_in self.now).head }
    {
        BitIdx::new_unchecked(self.head)
    }

    /// One past the index of the last bit. Constant time.
    pub fn tail(&self) -> BitEnd<R>
        ensures { result ≡ (slot_in self.now).tail }
    {
        BitEnd::new_unchecked(self.tail)
    }

    /// The head and the tail. Constant time.
    pub fn bounds(&self) -> (BitIdx<R>, BitEnd<R>)
        ensures head { result.0 ≡ (slot_in self.now).head }
        ensures tail { result.1 ≡ (slot_in self.now).tail }
    {
        (self.head(), self.tail())
    }
}

impl<'a, R: BitRegister, O: BitOrder<R>> PartialElementMut<'a, R, O> {
    ghost use Rattle.bitvec_span.specs.PartialElementMut.{memory_of, slot_in, PartIsEdited};
    ghost use Rattle.bitvec_span.specs.DomainMut.{lent_part};

    /// The positions of the bits. Constant time.
    pub fn mask(&self) -> BitMask<R>
        ensures { IsMaskOf R.BITS O.at_of (slot_in self.now).head (slot_in self.now).tail result }
    {
        O::mask(Some(self.head()), Some(self.tail()))
    }

    /// The digits of the word at the positions of the bits, where they stand in it, and all others
    /// zero. Constant time.
    pub fn load_value(&self) -> R
        ensures { R.number result ≡ value_of R.BITS O.at_of (lent_part R.number self.now) }
    {
        self.word().and(self.mask().into_inner())
    }

    /// Puts the digits of `value` at the positions of the bits, without a shift, and returns the
    /// previous ones as [`load_value`](PartialElementMut::load_value) does.
    ///
    /// Every other digit stays, and every other word, and so the list of each span that is disjoint
    /// from the part. Constant time.
    pub fn store_value(&mut self, value: R) -> R
        ensures reference { (memory_of self.new).ghost_name ≡ (memory_of self.old).ghost_name }
        ensures slot { slot_in self.new ≡ slot_in self.old }
        ensures edit { PartIsEdited R.number R.BITS O.at_of
            (λ i. digit (R.number value) (O.at_of i)) self.old self.new (R.number result) }
    {
        let old = self.word();
        let mask = self.mask().into_inner();
        self.put(stored(old, mask, value));
        old.and(mask)
    }

    /// Turns each of the bits over, and returns the previous ones. Constant time.
    pub fn invert(&mut self) -> R
        ensures reference { (memory_of self.new).ghost_name ≡ (memory_of self.old).ghost_name }
        ensures slot { slot_in self.new ≡ slot_in self.old }
        ensures edit { PartIsEdited R.number R.BITS O.at_of
            (λ i. not (digit (lent_part R.number self.old).word (O.at_of i))) self.old self.new
            (R.number result) }
    {
        let turned = self.word().not();
        self.store_value(turned)
    }

    /// Makes each of the bits zero, and returns the previous ones. Constant time.
    pub fn clear(&mut self) -> R
        ensures reference { (memory_of self.new).ghost_name ≡ (memory_of self.old).ghost_name }
        ensures slot { slot_in self.new ≡ slot_in self.old }
        ensures edit { PartIsEdited R.number R.BITS O.at_of (λ i. false) self.old self.new
            (R.number result) }
    {
        self.store_value(R::ZERO)
    }

    /// Makes each of the bits one, and returns the previous ones. Constant time.
    pub fn set(&mut self) -> R
        ensures reference { (memory_of self.new).ghost_name ≡ (memory_of self.old).ghost_name }
        ensures slot { slot_in self.new ≡ slot_in self.old }
        ensures edit { PartIsEdited R.number R.BITS O.at_of (λ i. true) self.old self.new
            (R.number result) }
    {
        self.store_value(R::ALL)
    }
}

impl<'a, R: BitRegister, O> PartialElementMut<'a, R, O> {
    ghost use Rattle.bitvec_span.specs.PartialElementMut.{memory_of, slot_in};
    ghost use Rattle.bitvec_span.specs.BitWordsMut.{words_memory, stretch_in};
    ghost use Rattle.bitvec_span.specs.DomainMut.{lent_part};
    ghost use Rattle.bitvec_span.specs.BitDomainMut.{lent_word_bits};

    /// The bits of the part, in its one word. Constant time.
    pub fn into_bitslice(self) -> BitWordsMut<'a, R, O>
        ensures reference { (words_memory result).ghost_name ≡ (memory_of self.entry).ghost_name }
        ensures memory { (words_memory result).now ≡ (memory_of self.entry).now }
        ensures stretch { stretch_in result ≡ slot_stretch (slot_in self.entry) }
        ensures bits { lent_word_bits R.number result
            ≡ part_bits (lent_part R.number self.entry) }
    {
        let PartialElementMut {
            memory,
            word,
            head,
            tail,
            order,
        } = self;
        BitWordsMut {
            memory,
            first: word,
            count: 1,
            head,
            len: usize::from(tail - head),
            order,
        }
    }
}

impl<R: BitRegister, O> BitSpan<R, O> {
    ghost use Rattle.bitvec_span.specs.BitSpan.{span_of};
    ghost use Rattle.bitvec_span.specs.PartialElementMut.{memory_of, slot_in};

    /// The part of the `k`-th word that the span meets, counted from 0, for writing.
    ///
    /// Its bounds are those of [`part`](BitSpan::part), and so is what it requires. Constant time.
    /// Not in the Rust crate.
    pub fn part_mut<'a>(self, memory: &'a mut [R], k: usize) -> PartialElementMut<'a, R, O>
        requires fits { Fits R.BITS (span_of self) (length memory.old) }
        requires met { k < words_met R.BITS (span_of self).head (span_of self).len }
        ensures reference { (memory_of result).ghost_name ≡ memory.entry.ghost_name }
        ensures memory { (memory_of result).now ≡ memory.old }
        ensures slot { slot_in result ≡ slot_of R.BITS (span_of self) k }
    {
        let word = self.address() as usize + k;
        let (elements, tail) = self.extent();
        self.part_at(memory, word, k, elements, tail)
    }

    // The part of the `k`-th word that the span meets, as that of the word `word` of a memory. The
    // span meets `elements` words and ends before the index `tail` of the last.
    #[inline(always)]
    pub(super) fn part_at<'a>(
        self,
        memory: &'a mut [R],
        word: usize,
        k: usize,
        elements: usize,
        tail: BitEnd<R>,
    ) -> PartialElementMut<'a, R, O>
        requires word { word < length memory.old }
        requires met { k < elements }
        requires elements { elements ≡ words_met R.BITS (span_of self).head (span_of self).len }
        requires tail { tail ≡ tail_of R.BITS (span_of self).head (span_of self).len }
        ensures reference { (memory_of result).ghost_name ≡ memory.entry.ghost_name }
        ensures memory { (memory_of result).now ≡ memory.old }
        ensures slot { slot_in result ≡ slot_at R.BITS (span_of self) k word }
    {
        let (head, tail) = self.bounds_among(k, elements, tail);
        PartialElementMut::new(memory, word, head, tail)
    }
}
