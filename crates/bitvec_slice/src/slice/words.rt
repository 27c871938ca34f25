//! The words that a slice has whole.

ghost use Rattle.std.specs.Prelude.{◌≡◌, ℕ, ◌+◌, ◌/◌, ◌%◌, ◌<◌, ◌↔◌, IsTrue};
ghost use Rattle.bitvec.specs.Digit.{digit};
ghost use Rattle.bitvec.specs.Span.{element};
ghost use Rattle.bitvec_slice.specs.Words.{HasWord, HasElements, with_digits};

use crate::field::{put_word, word_met};
use crate::slice::{BitSlice, BitSliceMut};
use bitvec::mem;
use bitvec::mem::BitRegister;
use bitvec::order::BitOrder;

impl<'a, R: BitRegister, O: BitOrder<R>> BitSlice<'a, R, O> {
    ghost use Rattle.bitvec_slice.specs.BitSlice.{slice_span, slice_bits};

    /// The index of the first bit in its word, from 0 to before the width. Constant time. The Rust
    /// crate has it of a pointer to a slice.
    #[inline(always)]
    pub fn head(&self) -> usize
        ensures { result ≡ (slice_span self.now).head }
    {
        usize::from(self.span.head().into_inner())
    }

    /// Whether the slice has all bits of word `k`, counted from the word of its first bit: the test
    /// for [`whole_word`](BitSlice::whole_word). Constant time. Not in the Rust crate.
    #[inline(always)]
    pub fn has_word(&self, k: usize) -> bool
        ensures { IsTrue result ↔ HasWord R.BITS (slice_span self.now) k }
    {
        let width = mem::bits_of::<R>();
        let end = (self.head() + self.len()) / width;
        k < end && (0 < k || self.head() == 0)
    }

    /// The word that has the bits of word `k`, counted from the word of the first bit, where the
    /// order has them.
    ///
    /// Requires that the slice has all of them: [`has_word`](BitSlice::has_word) is the test.
    /// Constant time. Not in the Rust crate.
    #[inline(always)]
    pub fn whole_word(&self, k: usize) -> R
        requires { HasWord R.BITS (slice_span self.now) k }
        ensures { HasElements R.BITS O.at_of (slice_span self.now) k (R.number result) (element
            (slice_bits self.now)) }
    {
        word_met(self.span, self.memory, k)
    }
}

impl<'a, R: BitRegister, O: BitOrder<R>> BitSliceMut<'a, R, O> {
    ghost use Rattle.bitvec_slice.specs.BitSliceMut.{lent_span, lent_len, lent_bits, BecomesBits};

    /// The index of the first bit in its word, from 0 to before the width. Constant time. The Rust
    /// crate has it of a pointer to a slice.
    #[inline(always)]
    pub fn head(&self) -> usize
        ensures value { result ≡ (lent_span self.now).head }
        ensures below { result < R.BITS }
    {
        usize::from(self.span().head().into_inner())
    }

    /// Whether the slice has all bits of word `k`, counted from the word of its first bit: the test
    /// for [`whole_word`](BitSliceMut::whole_word). Constant time. Not in the Rust crate.
    #[inline(always)]
    pub fn has_word(&self, k: usize) -> bool
        ensures { IsTrue result ↔ HasWord R.BITS (lent_span self.now) k }
    {
        self.as_bitslice().has_word(k)
    }

    /// The word that has the bits of word `k`, counted from the word of the first bit, where the
    /// order has them.
    ///
    /// Requires that the slice has all of them: [`has_word`](BitSliceMut::has_word) is the test.
    /// Constant time. Not in the Rust crate.
    #[inline(always)]
    pub fn whole_word(&self, k: usize) -> R
        requires { HasWord R.BITS (lent_span self.now) k }
        ensures { HasElements R.BITS O.at_of (lent_span self.now) k (R.number result) (element
            (lent_bits self.now)) }
    {
        self.as_bitslice().whole_word(k)
    }

    // Makes the bits of word `k` the digits of a word.
    #[inline(always)]
    fn put_whole_word(&mut self, k: usize, word: R)
        requires { HasWord R.BITS (lent_span self.old) k }
        ensures { BecomesBits self.old self.new (with_digits R.BITS O.at_of
            (lent_span self.old).head (lent_bits self.old) k (R.number word)) }
    {
        let span = self.span();
        let memory = &mut *self.memory;
        put_word(span, memory, k, word, R::ALL);
    }

    /// Puts a word in place of word `k`, counted from the word of the first bit, and does not read
    /// what stands there. Each bit of it becomes the word's digit where the order has it.
    ///
    /// Requires that the slice has all bits of word `k`: [`has_word`](BitSliceMut::has_word) is the
    /// test. Constant time. Not in the Rust crate.
    ///
    /// # Examples
    ///
    /// ```
    /// let mut memory = [0x00u8, 0x00, 0x00];
    /// let span: BitSpan<u8, Lsb0> = BitSpan::at_unchecked(4, 16);
    /// let mut slice = BitSliceMut::new_unchecked(span, &mut memory);
    /// assert!(rt; !slice.has_word(0));
    /// assert!(rt; slice.has_word(1));
    /// slice.set_whole_word(1, 0xA5);
    /// assert_eq!(rt; slice.whole_word(1), 0xA5);
    /// assert_eq!(rt; memory, [0x00, 0xA5, 0x00]);
    /// ```
    #[inline(always)]
    pub fn set_whole_word(&mut self, k: usize, word: R)
        requires { HasWord R.BITS (lent_span self.old) k }
        ensures bits { BecomesBits self.old self.new (with_digits R.BITS O.at_of
            (lent_span self.old).head (lent_bits self.old) k (R.number word)) }
        ensures digits { (j : ℕ) → j < lent_len self.old → ((lent_span self.old).head + j) / R.BITS
            ≡ k → element (lent_bits self.new) j
            ≡ digit (R.number word) (O.at_of (((lent_span self.old).head + j) % R.BITS)) }
    {
        self.put_whole_word(k, word);
    }
}
