//! Sets of bits: a span's bits combined with those of another span, or turned over.

ghost use Rattle.std.specs.Prelude.{◌≡◌, ◌+◌, ◌<◌, ◌≤◌, ◌&&◌, ◌||◌, Bool, not, length, map};
ghost use Rattle.bitvec_mem.specs.Digit.{exclusive_or};
ghost use Rattle.bitvec_ptr.specs.Memory.{zip_with, list_with};
ghost use Rattle.bitvec_ptr.specs.Place.{words_met, tail_of};
ghost use Rattle.bitvec_span.specs.Span.{Fits};
ghost use Rattle.bitvec_span.specs.BitSpan.{span_of, list_by, Becomes};
ghost use Rattle.bitvec_span.specs.Mapped.{with_mapped};

use crate::ptr::combine::{And, AndNot, Combine, Or, Xor};
use crate::ptr::span::BitSpan;
use bitvec_mem::mem::BitRegister;
use bitvec_order::index::BitEnd;
use bitvec_order::order::BitOrder;

impl<R: BitRegister, O: BitOrder<R>> BitSpan<R, O> {
    /// Combines the bits of another span in a memory of its own, of any register and order, with
    /// the span's, and leaves every other bit as it is.
    ///
    /// Each bit becomes what `C` makes of it and of the other span's bit of that number. Requires
    /// that each span [`fits`](BitSpan::fits) its memory, and that both have the same length. Costs
    /// by words where both orders rise, both fall, or are one order with both spans at the same bit
    /// of a word; else by bits. Not in the Rust crate.
    ///
    /// # Examples
    ///
    /// ```
    /// let source = [0x0Fu16];
    /// let from: BitSpan<u16, Msb0> = BitSpan::at(8, 8).unwrap();
    /// let mut memory = [0x30u8, 0x03];
    /// let span: BitSpan<u8, Lsb0> = BitSpan::at(4, 8).unwrap();
    /// span.combine_from::<Xor, u16, Msb0>(&mut memory, from, &source);
    /// assert_eq!(rt; memory, [0x30, 0x0C]);
    /// ```
    pub fn combine_from<C: Combine, R2: BitRegister, O2: BitOrder<R2>>(
        self,
        memory: &mut [R],
        source: BitSpan<R2, O2>,
        source_memory: &[R2],
    )
        requires source_fits { Fits R2.BITS (span_of source) (length source_memory.now) }
        requires fits { Fits R.BITS (span_of self) (length memory.old) }
        requires same { (span_of source).len ≡ (span_of self).len }
        ensures { Becomes self O.at_of memory.old memory.new
            (zip_with C.of (list_by self O.at_of memory.old)
            (list_by source O2.at_of source_memory.now)) }
    {
        let start = source.to_bitptr();
        start.combine_to::<C, R, O>(source_memory, self.to_bitptr(), memory, self.len());
    }

    /// Leaves set those of the span's bits whose bit in the other span is set, as
    /// [`combine_from`](BitSpan::combine_from) with [`And`] does.
    ///
    /// Costs by words where both orders rise, both fall, or are one order with both spans at the
    /// same bit of a word; else by bits. In place of the Rust crate's `BitSlice::bitand_assign`.
    ///
    /// # Examples
    ///
    /// ```
    /// let source = [0x0Fu8];
    /// let mut memory = [0x3Cu8];
    /// let span: BitSpan<u8, Lsb0> = BitSpan::at(0, 8).unwrap();
    /// span.and_from(&mut memory, span, &source);
    /// assert_eq!(rt; memory, [0x0C]);
    /// ```
    pub fn and_from<R2: BitRegister, O2: BitOrder<R2>>(
        self,
        memory: &mut [R],
        source: BitSpan<R2, O2>,
        source_memory: &[R2],
    )
        requires source_fits { Fits R2.BITS (span_of source) (length source_memory.now) }
        requires fits { Fits R.BITS (span_of self) (length memory.old) }
        requires same { (span_of source).len ≡ (span_of self).len }
        ensures { Becomes self O.at_of memory.old memory.new
            (zip_with (λ t s. t && s) (list_by self O.at_of memory.old)
            (list_by source O2.at_of source_memory.now)) }
    {
        self.combine_from::<And, R2, O2>(memory, source, source_memory);
    }

    /// Sets those of the span's bits whose bit in the other span is set, as
    /// [`combine_from`](BitSpan::combine_from) with [`Or`] does.
    ///
    /// Costs by words where both orders rise, both fall, or are one order with both spans at the
    /// same bit of a word; else by bits. In place of the Rust crate's `BitSlice::bitor_assign`.
    ///
    /// # Examples
    ///
    /// ```
    /// let source = [0x0Fu8];
    /// let mut memory = [0x3Cu8];
    /// let span: BitSpan<u8, Lsb0> = BitSpan::at(0, 8).unwrap();
    /// span.or_from(&mut memory, span, &source);
    /// assert_eq!(rt; memory, [0x3F]);
    /// ```
    pub fn or_from<R2: BitRegister, O2: BitOrder<R2>>(
        self,
        memory: &mut [R],
        source: BitSpan<R2, O2>,
        source_memory: &[R2],
    )
        requires source_fits { Fits R2.BITS (span_of source) (length source_memory.now) }
        requires fits { Fits R.BITS (span_of self) (length memory.old) }
        requires same { (span_of source).len ≡ (span_of self).len }
        ensures { Becomes self O.at_of memory.old memory.new
            (zip_with (λ t s. t || s) (list_by self O.at_of memory.old)
            (list_by source O2.at_of source_memory.now)) }
    {
        self.combine_from::<Or, R2, O2>(memory, source, source_memory);
    }

    /// Turns over those of the span's bits whose bit in the other span is set, as
    /// [`combine_from`](BitSpan::combine_from) with [`Xor`] does.
    ///
    /// Costs by words where both orders rise, both fall, or are one order with both spans at the
    /// same bit of a word; else by bits. In place of the Rust crate's `BitSlice::bitxor_assign`.
    ///
    /// # Examples
    ///
    /// ```
    /// let source = [0x0Fu8];
    /// let mut memory = [0x3Cu8];
    /// let span: BitSpan<u8, Lsb0> = BitSpan::at(0, 8).unwrap();
    /// span.xor_from(&mut memory, span, &source);
    /// assert_eq!(rt; memory, [0x33]);
    /// ```
    pub fn xor_from<R2: BitRegister, O2: BitOrder<R2>>(
        self,
        memory: &mut [R],
        source: BitSpan<R2, O2>,
        source_memory: &[R2],
    )
        requires source_fits { Fits R2.BITS (span_of source) (length source_memory.now) }
        requires fits { Fits R.BITS (span_of self) (length memory.old) }
        requires same { (span_of source).len ≡ (span_of self).len }
        ensures { Becomes self O.at_of memory.old memory.new
            (zip_with exclusive_or (list_by self O.at_of memory.old)
            (list_by source O2.at_of source_memory.now)) }
    {
        self.combine_from::<Xor, R2, O2>(memory, source, source_memory);
    }

    /// Clears those of the span's bits whose bit in the other span is set, as
    /// [`combine_from`](BitSpan::combine_from) with [`AndNot`] does.
    ///
    /// Costs by words where both orders rise, both fall, or are one order with both spans at the
    /// same bit of a word; else by bits. Not in the Rust crate.
    ///
    /// # Examples
    ///
    /// ```
    /// let source = [0x0Fu8];
    /// let mut memory = [0x3Cu8];
    /// let span: BitSpan<u8, Lsb0> = BitSpan::at(0, 8).unwrap();
    /// span.and_not_from(&mut memory, span, &source);
    /// assert_eq!(rt; memory, [0x30]);
    /// ```
    pub fn and_not_from<R2: BitRegister, O2: BitOrder<R2>>(
        self,
        memory: &mut [R],
        source: BitSpan<R2, O2>,
        source_memory: &[R2],
    )
        requires source_fits { Fits R2.BITS (span_of source) (length source_memory.now) }
        requires fits { Fits R.BITS (span_of self) (length memory.old) }
        requires same { (span_of source).len ≡ (span_of self).len }
        ensures { Becomes self O.at_of memory.old memory.new
            (zip_with (λ t s. t && not s) (list_by self O.at_of memory.old)
            (list_by source O2.at_of source_memory.now)) }
    {
        self.combine_from::<AndNot, R2, O2>(memory, source, source_memory);
    }

    /// Combines `count` of the span's bits, from its bit `from` on, with those from its bit `to`
    /// on, and leaves every other bit as it is. The two ranges may overlap, and each bit is
    /// combined with what was there before the call.
    ///
    /// Requires a span that [`fits`](BitSpan::fits), and that both ranges end within it. Costs by
    /// words where the order rises or falls, or both ranges begin at the same bit of a word; else
    /// by bits. Not in the Rust crate.
    ///
    /// # Examples
    ///
    /// Each bit is set where it or the one three places before it was.
    ///
    /// ```
    /// let mut memory = [0x01u8, 0x80];
    /// let span: BitSpan<u8, Lsb0> = BitSpan::at(0, 16).unwrap();
    /// span.combine_within::<Or>(&mut memory, 0, 3, 13);
    /// assert_eq!(rt; memory, [0x09, 0x80]);
    /// ```
    pub fn combine_within<C: Combine>(self, memory: &mut [R], from: usize, to: usize, count: usize)
        requires fits { Fits R.BITS (span_of self) (length memory.old) }
        requires source_inside { from + count ≤ (span_of self).len }
        requires target_inside { to + count ≤ (span_of self).len }
        ensures { let old = list_by self O.at_of memory.old
            in Becomes self O.at_of memory.old memory.new (list_with C.of old from old to count) }
    {
        let source = self.range(from, from + count);
        let target = self.range(to, to + count);
        source.combine_to_range::<C>(memory, target);
    }

    // Combines the bits of the span with those of another of the same length in the same memory.
    fn combine_to_range<C: Combine>(self, memory: &mut [R], target: Self)
        requires source_fits { Fits R.BITS (span_of self) (length memory.old) }
        requires fits { Fits R.BITS (span_of target) (length memory.old) }
        requires same { (span_of self).len ≡ (span_of target).len }
        ensures { Becomes target O.at_of memory.old memory.new
            (zip_with C.of (list_by target O.at_of memory.old) (list_by self O.at_of memory.old)) }
    {
        self.to_bitptr()
            .combine_within::<C>(memory, target.to_bitptr(), target.len());
    }

    /// Turns each bit of the span in a memory over, and leaves every other bit as it is.
    ///
    /// Requires a span that [`fits`](BitSpan::fits). Costs by words. In place of the Rust crate's
    /// `!` of a `BitSlice`.
    ///
    /// # Examples
    ///
    /// ```
    /// let mut memory = [0x12u8, 0x34, 0x56];
    /// let span: BitSpan<u8, Lsb0> = BitSpan::at(4, 16).unwrap();
    /// span.invert(&mut memory);
    /// assert_eq!(rt; memory, [0xE2, 0xCB, 0x59]);
    /// ```
    pub fn invert(self, memory: &mut [R])
        requires { Fits R.BITS (span_of self) (length memory.old) }
        ensures { Becomes self O.at_of memory.old memory.new
            (map not (list_by self O.at_of memory.old)) }
    {
        let (elements, tail) = self.extent();
        if elements == 0 {
            return;
        }
        self.invert_part(memory, 0, elements, tail);
        if elements == 1 {
            return;
        }
        self.invert_between(memory, elements - 1);
        self.invert_part(memory, elements - 1, elements, tail);
    }

    // Turns over each bit of the span in the `k`-th word that it meets, of `elements` words, where
    // it ends before the index `tail` of the last.
    #[inline(always)]
    fn invert_part(self, memory: &mut [R], k: usize, elements: usize, tail: BitEnd<R>)
        requires fits { Fits R.BITS (span_of self) (length memory.old) }
        requires met { k < elements }
        requires elements { elements ≡ words_met R.BITS (span_of self).head (span_of self).len }
        requires tail { tail ≡ tail_of R.BITS (span_of self).head (span_of self).len }
        ensures { Becomes self O.at_of memory.old memory.new (with_mapped not R.BITS (span_of
            self).head (list_by self O.at_of memory.old) k (k + 1)) }
    {
        let (head, tail) = self.bounds_among(k, elements, tail);
        let mask = O::mask(Some(head), Some(tail)).into_inner();
        let at = self.address() as usize + k;
        memory[at] = memory[at].xor(mask);
    }

    // Turns over each bit of the words behind the first and before the last, the word `last`.
    fn invert_between(self, memory: &mut [R], last: usize)
        requires fits { Fits R.BITS (span_of self) (length memory.old) }
        requires last { last + 1 ≡ words_met R.BITS (span_of self).head (span_of self).len }
        requires more { 1 ≤ last }
        ensures { Becomes self O.at_of memory.old memory.new (with_mapped not R.BITS (span_of
            self).head (list_by self O.at_of memory.old) 1 last) }
    {
        let first = self.address() as usize;
        for k in 1..last {
            memory[first + k] = memory[first + k].not();
        }
    }
}
