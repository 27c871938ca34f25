//! Questions of two spans: how many of their pairs of bits are one, and which is the first.

ghost use Rattle.std.specs.Prelude.{◌≡◌, true, false, length, MatchOption};
ghost use Rattle.bitvec_ptr.specs.Memory.{zip_with};
ghost use Rattle.bitvec_span.specs.Span.{Fits};
ghost use Rattle.bitvec_span.specs.BitSpan.{span_of, list_by};
ghost use Rattle.bitvec_span.specs.Truths.{ones_in, AllAre, IsFirst};

use crate::ptr::combine::Combine;
use crate::ptr::span::BitSpan;
use bitvec_mem::mem::BitRegister;
use bitvec_order::order::BitOrder;

impl<R: BitRegister, O: BitOrder<R>> BitSpan<R, O> {
    /// How many of the span's bits give a one with those of another span in a memory of its own, of
    /// any register and order.
    ///
    /// The span's bit stands for the target's and the other's for the source's, so with
    /// [`And`](crate::ptr::combine::And) it is how many are in both sets, with
    /// [`Xor`](crate::ptr::combine::Xor) in how many the two differ. Requires that each span
    /// [`fits`](BitSpan::fits) its memory, and that both have the same length. Nothing is copied or
    /// written. Costs by words where both orders rise, both fall, or are one order with both spans
    /// at the same bit of a word; else by bits. Not in the Rust crate.
    ///
    /// # Examples
    ///
    /// ```
    /// let memory = [0x3Cu8, 0x0F];
    /// let span: BitSpan<u8, Lsb0> = BitSpan::at(4, 8).unwrap();
    /// let others = [0x00F3u16];
    /// let other: BitSpan<u16, Msb0> = BitSpan::at(8, 8).unwrap();
    /// assert_eq!(rt; span.count_with::<And, u16, Msb0>(&memory, other, &others), 4);
    /// ```
    pub fn count_with<C: Combine, R2: BitRegister, O2: BitOrder<R2>>(
        self,
        memory: &[R],
        other: BitSpan<R2, O2>,
        other_memory: &[R2],
    ) -> usize
        requires fits { Fits R.BITS (span_of self) (length memory.now) }
        requires other_fits { Fits R2.BITS (span_of other) (length other_memory.now) }
        requires same { (span_of other).len ≡ (span_of self).len }
        ensures { result ≡ ones_in (zip_with C.of (list_by self O.at_of memory.now)
            (list_by other O2.at_of other_memory.now)) }
    {
        let from = self.to_bitptr();
        from.count_with::<C, R2, O2>(memory, other.to_bitptr(), other_memory, self.len())
    }

    /// The number of the first of the span's bits that gives a one with that of another span in a
    /// memory of its own, of any register and order, and `None` where none does.
    ///
    /// The span's bit stands for the target's and the other's for the source's, so with
    /// [`Xor`](crate::ptr::combine::Xor) it is the first at which the two differ, and with
    /// [`AndNot`](crate::ptr::combine::AndNot) there is none where the span is a subset of the
    /// other. It reads at most 63 of the span's words behind the one that decides, and of the other
    /// memory the words that hold the bits beside these. Requires that each span
    /// [`fits`](BitSpan::fits) its memory, and that both have the same length. Costs by words where
    /// both orders rise, both fall, or are one order with both spans at the same bit of a word;
    /// else by bits. Not in the Rust crate.
    ///
    /// # Examples
    ///
    /// ```
    /// let memory = [0x3Cu8, 0x0F];
    /// let span: BitSpan<u8, Lsb0> = BitSpan::at(4, 8).unwrap();
    /// let others = [0x00F3u16];
    /// let other: BitSpan<u16, Msb0> = BitSpan::at(8, 8).unwrap();
    /// assert_eq!(rt; span.first_with::<Xor, u16, Msb0>(&memory, other, &others), Some(2));
    /// assert_eq!(rt; span.first_with::<Xor, u8, Lsb0>(&memory, span, &memory), None);
    /// ```
    pub fn first_with<C: Combine, R2: BitRegister, O2: BitOrder<R2>>(
        self,
        memory: &[R],
        other: BitSpan<R2, O2>,
        other_memory: &[R2],
    ) -> Option<usize>
        requires fits { Fits R.BITS (span_of self) (length memory.now) }
        requires other_fits { Fits R2.BITS (span_of other) (length other_memory.now) }
        requires same { (span_of other).len ≡ (span_of self).len }
        ensures { let both = zip_with C.of (list_by self O.at_of memory.now)
            (list_by other O2.at_of other_memory.now)
            in MatchOption result (AllAre false both) (IsFirst true both) }
    {
        let from = self.to_bitptr();
        from.first_with::<C, R2, O2>(memory, other.to_bitptr(), other_memory, self.len())
    }
}
