//! Spans of bits: the interval of places from a bit of a word on.

ghost use Rattle.std.specs.Prelude.{◌≡◌, ⊤, ℕ, ℤ, pos, ◌+◌, ◌-◌, ◌*◌, ◌/◌, ◌%◌, ◌==◌};
ghost use Rattle.std.specs.Prelude.{if◌then◌else◌, ◌+ℤ◌, ◌≤ℤ◌, ◌<ℤ◌, ◌<◌, ◌≤◌, ◌↔◌, IsTrue, IsOk};
ghost use Rattle.std.specs.Prelude.{IfOk};
ghost use Rattle.std.specs.Int.{int_div_euclid};
ghost use Rattle.bitvec_ptr.specs.Place.{place_at, place_of, words_met, tail_of, greatest_isize};
ghost use Rattle.bitvec_ptr.specs.Steps.{CanOffset, IsIn};
ghost use Rattle.bitvec_span.specs.Span.{region_max_bits, Span, Fits, AreDisjoint};
ghost use Rattle.bitvec_span.specs.Span.{span_at, span_places, span_upto, span_from, span_range};
ghost use Rattle.bitvec_span.specs.Span.{word_behind, EndsTooHigh, HoldsFrom, ListsJoin};
ghost use Rattle.bitvec_span.specs.Span.{ListsRange, EditsRange};
ghost use Rattle.bitvec_span.specs.Parts.{part_head, part_tail};

mod combine;
mod edit;
mod error;
mod question;

pub use crate::ptr::span::error::BitSpanError;
use bitvec_mem::mem::{BitRegister, elts};
use bitvec_order::index::{BitEnd, BitIdx, Limits};
use bitvec_order::order::Lsb0;
use bitvec_ptr::ptr::range::BitPtrRange;
use bitvec_ptr::ptr::single::BitPtr;
use std::alloc::AllocError;
use std::marker::PhantomData;

// The greatest length of a span, in bits.
const MAX_BITS: usize = usize::MAX >> 3;

/// The interval of `len` places from the bit `head` of a word on.
///
/// A span names bits and holds none: it is handed the memory to each call that reads it. Its word
/// index may be negative or past any memory; [`fits`](BitSpan::fits) tests that it lies in one.
///
/// # Examples
///
/// ```
/// let memory = [0xC0u8, 0x01];
/// let span: BitSpan<u8, Lsb0> = BitSpan::new(0, BitIdx::new_unchecked(6), 4).unwrap();
/// assert_eq!(rt; (span.elements(), span.tail().into_inner()), (2, 2));
/// assert_eq!(rt; span.bitptr(2).read(&memory), true);
/// assert_eq!(rt; span.bitptr(3).read(&memory), false);
/// ```
#[derive_where(Copy, PartialEq, Eq, Debug)]
pub struct BitSpan<R: BitRegister = usize, O = Lsb0> {
    word: isize,
    head: u8,
    len: usize,
    of: PhantomData<(R, O)>,
    pub ghost in_word: { head ≤ R.BITS - 1 },
    pub ghost short: { len ≤ region_max_bits },
    pub ghost low: { int_div_euclid (place_at R.BITS word head +ℤ pos len) (pos R.BITS)
        ≤ℤ greatest_isize },
}

impl<R: BitRegister, O> Clone for BitSpan<R, O> {
    ghost is_clone = { λ it copy. copy ≡ it };

    ghost is_infallible = { λ _. ⊤ };

    fn clone(&self) -> Result<Self, AllocError> {
        Ok(*self)
    }
}

/// The span of no bits, and how many bits and words a span can meet.
///
/// `BitSpan::EMPTY` and the like are read with this trait in scope: a constant of a generic type
/// can say its value in a contract only as the item of a trait.
pub trait SpanLimits: Sized {
    /// No bits, from the first bit of the first word on.
    const EMPTY: Self;

    /// The greatest length, in bits.
    const REGION_MAX_BITS: usize;

    /// The greatest number of words that a span can meet.
    const REGION_MAX_ELTS: usize;

    ghost EMPTY: { Self };

    ghost REGION_MAX_BITS: { ℕ };

    ghost REGION_MAX_ELTS: { ℕ };
}

impl<R: BitRegister, O> SpanLimits for BitSpan<R, O> {
    ghost use Rattle.bitvec_span.specs.BitSpan.{empty_span};

    const EMPTY: Self = BitSpan {
        word: 0,
        head: 0,
        len: 0,
        of: PhantomData,
    };

    const REGION_MAX_BITS: usize = MAX_BITS;

    const REGION_MAX_ELTS: usize = elts::<R>(MAX_BITS) + 1;

    ghost EMPTY = { empty_span };

    ghost REGION_MAX_BITS = { region_max_bits };

    ghost REGION_MAX_ELTS = { region_max_bits / R.BITS +
        (if region_max_bits % R.BITS == 0 then 0 else 1) + 1 };
}

impl<R: BitRegister, O> BitSpan<R, O> {
    ghost use Rattle.bitvec_ptr.specs.BitPtr.{ptr_of};
    ghost use Rattle.bitvec_ptr.specs.BitPtrRange.{range_of};
    ghost use Rattle.bitvec_ptr.specs.PtrRange.{places_of};
    ghost use Rattle.bitvec_span.specs.BitSpan.{span_of};

    /// The span of `bits` bits from the bit `head` of a word on.
    ///
    /// It refuses, in this order: `TooLong(bits)` where there are more than 2305843009213693951,
    /// and `TooHigh(word)` where the word of the place behind its last bit passes the greatest
    /// `isize`. The bounds are the Rust crate's; there the second is an address that wraps.
    /// Constant time.
    ///
    /// # Examples
    ///
    /// ```
    /// let head = BitIdx::<u8>::new_unchecked(7);
    /// assert!(rt; BitSpan::<u8, Lsb0>::new(0, head, 12).is_ok());
    /// assert!(rt; BitSpan::<u8, Lsb0>::new(0, head, usize::MAX).is_err());
    /// assert!(rt; BitSpan::<u8, Lsb0>::new(isize::MAX, head, 1).is_err());
    /// ```
    pub fn new(word: isize, head: BitIdx<R>, bits: usize) -> Result<Self, BitSpanError<R>>
        ensures accepted { IsOk result
            ↔ ((bits ≤ region_max_bits)
            × (word_behind R.BITS (record { word = word; bit = head }) bits ≤ℤ isize.MAX)) }
        ensures too_long { (result ≡ Err (BitSpanError.TooLong bits))
            ↔ (region_max_bits < bits) }
        ensures too_high { (result ≡ Err (BitSpanError.TooHigh word (record {})))
            ↔ EndsTooHigh R.BITS (record { word = word; bit = head }) bits }
        ensures span { IfOk result (λ s. span_of s
            ≡ record { word = word; head = head; len = bits }) }
    {
        if bits > MAX_BITS {
            return Err(BitSpanError::TooLong(bits));
        }
        let met = (usize::from(head.into_inner()) + bits) / usize::from(R::BITS);
        if word > isize::MAX - met as isize {
            return Err(BitSpanError::TooHigh(word, PhantomData));
        }
        Ok(Self::new_unchecked(word, head, bits))
    }

    /// The span of `bits` bits from the bit `head` of a word on.
    ///
    /// Requires what [`new`](BitSpan::new) tests: at most 2305843009213693951 bits, and that the
    /// word of the place behind the last does not pass the greatest `isize`. Constant time. In
    /// place of the Rust crate's private `BitSpan::new_unchecked`.
    #[inline(always)]
    pub fn new_unchecked(word: isize, head: BitIdx<R>, bits: usize) -> Self
        requires short { bits ≤ region_max_bits }
        requires low { word_behind R.BITS (record { word = word; bit = head }) bits ≤ℤ isize.MAX }
        ensures { span_of result ≡ record { word = word; head = head; len = bits } }
    {
        BitSpan {
            word,
            head: head.into_inner(),
            len: bits,
            of: PhantomData,
        }
    }

    /// The span of `bits` bits from a pointer on, refused as [`new`](BitSpan::new) of its word and
    /// bit is.
    ///
    /// In place of the Rust crate's private `BitPtr::span`. Constant time.
    pub fn from_bitptr(pointer: BitPtr<R, O>, bits: usize) -> Result<Self, BitSpanError<R>>
        ensures accepted { IsOk result
            ↔ ((bits ≤ region_max_bits)
            × (word_behind R.BITS (ptr_of pointer) bits ≤ℤ isize.MAX)) }
        ensures too_long { (result ≡ Err (BitSpanError.TooLong bits))
            ↔ (region_max_bits < bits) }
        ensures too_high { (result ≡ Err (BitSpanError.TooHigh (ptr_of pointer).word (record {})))
            ↔ EndsTooHigh R.BITS (ptr_of pointer) bits }
        ensures span { IfOk result (λ s. span_of s
            ≡ record { word = (ptr_of pointer).word; head = (ptr_of pointer).bit; len = bits }) }
    {
        Self::new(pointer.address(), pointer.bit(), bits)
    }

    /// The span of `len` bits from the bit number `place` of a memory on, where the first bit of
    /// the first word has number 0.
    ///
    /// It refuses `TooLong(len)` where there are more than 2305843009213693951 bits. Constant time.
    /// Not in the Rust crate. It is the way to a span for who counts bits, as [`new`](BitSpan::new)
    /// is for who has a word and an index in it.
    ///
    /// # Examples
    ///
    /// ```
    /// let mut memory = [0x12u8, 0x34, 0x56];
    /// let span: BitSpan<u8, Lsb0> = BitSpan::at(4, 12).unwrap();
    /// span.fill(&mut memory, true);
    /// assert_eq!(rt; memory, [0xF2, 0xFF, 0x56]);
    /// ```
    pub fn at(place: usize, len: usize) -> Result<Self, BitSpanError<R>>
        ensures accepted { IsOk result ↔ (len ≤ region_max_bits) }
        ensures too_long { (result ≡ Err (BitSpanError.TooLong len)) ↔ (region_max_bits < len) }
        ensures span { IfOk result (λ s. span_of s ≡ span_at R.BITS place len) }
    {
        if len > MAX_BITS {
            return Err(BitSpanError::TooLong(len));
        }
        Ok(Self::at_unchecked(place, len))
    }

    /// The span of `len` bits from the bit number `place` of a memory on.
    ///
    /// Requires at most 2305843009213693951 bits. Constant time. Not in the Rust crate.
    pub fn at_unchecked(place: usize, len: usize) -> Self
        requires { len ≤ region_max_bits }
        ensures { span_of result ≡ span_at R.BITS place len }
    {
        let start: BitPtr<R, O> = BitPtr::at(place);
        BitSpan {
            word: start.address(),
            head: start.bit().into_inner(),
            len,
            of: PhantomData,
        }
    }

    /// The index of the first word. Constant time.
    pub fn address(&self) -> isize
        ensures { result ≡ (span_of self.now).word }
    {
        self.word
    }

    /// The index of the first bit in its word. Constant time.
    pub fn head(&self) -> BitIdx<R>
        ensures { result ≡ (span_of self.now).head }
    {
        BitIdx::new_unchecked(self.head)
    }

    /// The number of bits. Constant time.
    pub fn len(&self) -> usize
        ensures { result ≡ (span_of self.now).len }
    {
        self.len
    }

    /// Whether the span has no bits. Constant time.
    pub fn is_empty(&self) -> bool
        ensures { IsTrue result ↔ ((span_of self.now).len ≡ 0) }
    {
        self.len == 0
    }

    /// The index of the first word, that of the first bit in it, and the number of bits. Constant
    /// time.
    pub fn raw_parts(&self) -> (isize, BitIdx<R>, usize)
        ensures word { result.0 ≡ (span_of self.now).word }
        ensures head { result.1 ≡ (span_of self.now).head }
        ensures len { result.2 ≡ (span_of self.now).len }
    {
        (self.word, self.head(), self.len)
    }

    /// The pointer to the first bit, and for an empty span to where it would be.
    ///
    /// It may be moved on by up to the span's length, and by less than that it lies in each memory
    /// that the span [`fits`](BitSpan::fits). Constant time.
    pub fn to_bitptr(self) -> BitPtr<R, O>
        ensures pointer { ptr_of result
            ≡ record { word = (span_of self).word; bit = (span_of self).head } }
        ensures steps { (index : ℕ) → index ≤ (span_of self).len
            → CanOffset R.BITS (ptr_of result) (pos index) }
        ensures inside { HoldsFrom R.BITS (span_of self) (ptr_of result) }
    {
        BitPtr::new(self.word, self.head())
    }

    /// The pointer to bit `index` of the span.
    ///
    /// Requires an index below the length. The pointer lies in each memory that the span
    /// [`fits`](BitSpan::fits). Constant time. Not in the Rust crate.
    pub fn bitptr(self, index: usize) -> BitPtr<R, O>
        requires { index < (span_of self).len }
        ensures place { place_of R.BITS (ptr_of result)
            ≡ place_at R.BITS (span_of self).word (span_of self).head +ℤ pos index }
        ensures inside { (words : ℕ) → Fits R.BITS (span_of self) words
            → IsIn (ptr_of result) words }
    {
        self.to_bitptr().add(index)
    }

    /// The pointers to the span's bits, in order. Constant time.
    pub fn to_bitptr_range(self) -> BitPtrRange<R, O>
        ensures start { (range_of result).start
            ≡ record { word = (span_of self).word; bit = (span_of self).head } }
        ensures end { place_of R.BITS (range_of result).end
            ≡ place_at R.BITS (span_of self).word (span_of self).head
            +ℤ pos (span_of self).len }
        ensures places { places_of R.BITS (range_of result) ≡ span_places R.BITS (span_of self) }
    {
        self.to_bitptr().range(self.len)
    }

    // The first `mid` bits of the span.
    fn bits_before(self, mid: usize) -> Self
        requires { mid ≤ (span_of self).len }
        ensures { span_of result ≡ span_upto (span_of self) mid }
    {
        BitSpan {
            word: self.word,
            head: self.head,
            len: mid,
            of: PhantomData,
        }
    }

    // The bits of the span from its bit `mid` on; none where that is its end.
    fn bits_from(self, mid: usize) -> Self
        requires { mid ≤ (span_of self).len }
        ensures { span_of result ≡ span_from R.BITS (span_of self) mid }
    {
        let start = self.to_bitptr().add(mid);
        BitSpan {
            word: start.address(),
            head: start.bit().into_inner(),
            len: self.len - mid,
            of: PhantomData,
        }
    }

    /// The first `mid` bits of the span, and the bits behind them.
    ///
    /// Requires at most the length. At `u8`, the 8 bits from bit 2 of word 0 on, split at 3, are
    /// the 3 bits there and the 5 from bit 5 on; split at 6, the second part starts at bit 0 of
    /// word 1; and split at 8, it has no bits, at bit 2 of that word. Both parts lie in each memory
    /// that the span [`fits`](BitSpan::fits), where their lists of bits, joined, are the span's.
    /// Constant time. Not in the Rust crate.
    pub fn split_at(self, mid: usize) -> (Self, Self)
        requires { mid ≤ (span_of self).len }
        ensures first { span_of result.0 ≡ span_upto (span_of self) mid }
        ensures second { span_of result.1 ≡ span_from R.BITS (span_of self) mid }
        ensures disjoint { AreDisjoint R.BITS (span_of result.0) (span_of result.1) }
        ensures fit { (words : ℕ) → Fits R.BITS (span_of self) words
            → Fits R.BITS (span_of result.0) words × Fits R.BITS (span_of result.1) words }
        ensures lists { ListsJoin R.BITS (span_of result.0) (span_of result.1) (span_of self) }
        ensures apart { (other : Span) → AreDisjoint R.BITS (span_of self) other
            → AreDisjoint R.BITS (span_of result.0) other
            × AreDisjoint R.BITS (span_of result.1) other }
    {
        let first = self.bits_before(mid);
        let second = self.bits_from(mid);
        (first, second)
    }

    /// The bits of the span from its bit `from` to before its bit `to`.
    ///
    /// Requires that `from` is at most `to`, and `to` at most the length. The range lies in each
    /// memory that the span [`fits`](BitSpan::fits), its list there is that range of the span's
    /// list, and an edit of its list is one of the span's. Constant time. Not in the Rust crate.
    ///
    /// # Examples
    ///
    /// ```
    /// let mut memory = [0x00u8; 2];
    /// let span: BitSpan<u8, Lsb0> = BitSpan::at(2, 12).unwrap();
    /// span.range(2, 8).fill(&mut memory, true);
    /// assert_eq!(rt; memory, [0xF0, 0x03]);
    /// ```
    pub fn range(self, from: usize, to: usize) -> Self
        requires ordered { from ≤ to }
        requires inside { to ≤ (span_of self).len }
        ensures span { span_of result ≡ span_range R.BITS (span_of self) from to }
        ensures fit { (words : ℕ) → Fits R.BITS (span_of self) words
            → Fits R.BITS (span_of result) words }
        ensures list { ListsRange R.BITS (span_of self) from to (span_of result) }
        ensures edits { EditsRange R.BITS (span_of self) from to (span_of result) }
        ensures apart { (other : Span) → AreDisjoint R.BITS (span_of self) other
            → AreDisjoint R.BITS (span_of result) other }
    {
        self.bits_before(to).bits_from(from)
    }

    /// How many words the span meets, 0 for an empty one whatever its head.
    ///
    /// The Rust crate gives 1 for an empty span with a head above 0. Constant time.
    pub fn elements(&self) -> usize
        ensures value { result ≡ words_met R.BITS (span_of self.now).head (span_of self.now).len }
        ensures short { result ≤ region_max_bits }
    {
        self.extent().0
    }

    /// One past the index of the last bit in its word; for an empty span its head. Constant time.
    pub fn tail(&self) -> BitEnd<R>
        ensures { result ≡ tail_of R.BITS (span_of self.now).head (span_of self.now).len }
    {
        self.extent().1
    }

    // How many words the span meets, and one past the index of its last bit in the last of them.
    #[inline(always)]
    pub(crate) fn extent(&self) -> (usize, BitEnd<R>)
        ensures elements { result.0
            ≡ words_met R.BITS (span_of self.now).head (span_of self.now).len }
        ensures short { result.0 ≤ region_max_bits }
        ensures tail { result.1 ≡ tail_of R.BITS (span_of self.now).head (span_of self.now).len }
    {
        if self.len == 0 {
            return (0, BitEnd::new_unchecked(self.head));
        }
        let width = usize::from(R::BITS);
        let last = usize::from(self.head) + (self.len - 1);
        (
            last / width + 1,
            BitEnd::new_unchecked((last % width + 1) as u8),
        )
    }

    // The bounds of the span's bits in the `k`-th word, of those that it meets, where it ends
    // before the index `tail` of the last.
    #[inline(always)]
    pub(crate) fn bounds_among(
        &self,
        k: usize,
        elements: usize,
        tail: BitEnd<R>,
    ) -> (BitIdx<R>, BitEnd<R>)
        requires met { k < elements }
        requires elements { elements
            ≡ words_met R.BITS (span_of self.now).head (span_of self.now).len }
        requires tail { tail ≡ tail_of R.BITS (span_of self.now).head (span_of self.now).len }
        ensures head { result.0 ≡ part_head (span_of self.now).head k }
        ensures tail { result.1
            ≡ part_tail R.BITS (span_of self.now).head (span_of self.now).len k }
    {
        let head = if k == 0 { self.head() } else { BitIdx::MIN };
        let end = if k + 1 == elements { tail } else { BitEnd::MAX };
        (head, end)
    }

    /// Whether the words that the span meets are among the first `words` of a memory. For an empty
    /// span, which meets no word, it is whether its word is from 0 to `words`, so that the place
    /// behind the last word is let in. Constant time. Not in the Rust crate.
    ///
    /// # Examples
    ///
    /// ```
    /// let span: BitSpan<u8, Lsb0> = BitSpan::new(1, BitIdx::new_unchecked(4), 8).unwrap();
    /// assert!(rt; span.fits(3));
    /// assert!(rt; !span.fits(2));
    /// ```
    #[inline(always)]
    pub fn fits(&self, words: usize) -> bool
        ensures { IsTrue result ↔ Fits R.BITS (span_of self.now) words }
    {
        if self.word < 0 {
            return false;
        }
        let word = self.word as usize;
        if self.is_empty() {
            return word <= words;
        }
        let last = usize::from(self.head) + (self.len - 1);
        word + last / usize::from(R::BITS) < words
    }

    /// Whether no bit is in both spans, as it is where one of them has none. Not in the Rust crate.
    ///
    /// Spans of one word are disjoint too where their bits are. Constant time.
    pub fn is_disjoint(&self, other: &Self) -> bool
        ensures { IsTrue result ↔ AreDisjoint R.BITS (span_of self.now) (span_of other.now) }
    {
        if self.is_empty() || other.is_empty() {
            return true;
        }
        let here = self.to_bitptr_range();
        let there = other.to_bitptr_range();
        here.end() <= there.start() || there.end() <= here.start()
    }
}

/// The span of no bits, [`EMPTY`](SpanLimits::EMPTY).
impl<R: BitRegister, O> Default for BitSpan<R, O> {
    ghost use Rattle.bitvec_span.specs.BitSpan.{span_of};

    ghost is_default = { λ s. span_of s ≡ record { word = pos 0; head = 0; len = 0 } };

    fn default() -> Self {
        Self::EMPTY
    }
}
