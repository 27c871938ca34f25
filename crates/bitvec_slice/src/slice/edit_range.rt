//! Edits of a part of a `BitSliceMut`: each says what the slice's list becomes, and that each
//! stretch beside the part is as before.

ghost use Rattle.std.specs.Prelude.{◌≡◌, ◌+◌, ◌-◌, ◌≤◌, ◌%◌, ◌^◌, length, map, not};
ghost use Rattle.std.specs.Prelude.{true, false, reverse, slice_range};
ghost use Rattle.bitvec.specs.BitSpan.{span_of};
ghost use Rattle.bitvec.specs.Memory.{zip_with};
ghost use Rattle.bitvec.specs.Span.{Fits, list_of};
ghost use Rattle.bitvec_slice.specs.Field.{field_number, field_list};
ghost use Rattle.bitvec_slice.specs.Ranges.{with_range, EditsRangeIn, KeepsStretches};

use crate::field::{Sequential, store};
use crate::slice::moves::reverse_bits;
use crate::slice::{BitSlice, BitSliceMut};
use bitvec::mem::BitRegister;
use bitvec::order::BitOrder;
use bitvec::ptr::combine::Combine;
use bitvec::ptr::span::BitSpan;

impl<'a, R: BitRegister, O: BitOrder<R>> BitSliceMut<'a, R, O> {
    ghost use Rattle.bitvec_slice.specs.BitSlice.{slice_len, slice_bits};
    ghost use Rattle.bitvec_slice.specs.BitSliceMut.{lent_memory, lent_span, lent_words, lent_len};
    ghost use Rattle.bitvec_slice.specs.BitSliceMut.{lent_bits, BecomesBits, BecomesRange};

    // The span of the bits from number `from` to before number `to`. An edit of its list is an edit
    // of that stretch of the slice's.
    pub(crate) fn part(&self, from: usize, to: usize) -> BitSpan<R, O>
        requires ordered { from ≤ to }
        requires inside { to ≤ lent_len self.now }
        ensures fits { Fits R.BITS (span_of result) (length (lent_memory self.now).now) }
        ensures len { (span_of result).len ≡ to - from }
        ensures head { (span_of result).head ≡ ((lent_span self.now).head + from) % R.BITS }
        ensures list { list_of R.BITS O.at_of (span_of result) (lent_words self.now)
            ≡ slice_range (lent_bits self.now) from to }
        ensures edits { EditsRangeIn R.BITS O.at_of (span_of result) (lent_span self.now) (lent_words
            self.now) (lent_bits self.now) from to }
    {
        self.span().range(from, to)
    }

    /// Puts the bits from number `from` to before number `to` in the opposite order. Costs as
    /// [`reverse`](BitSliceMut::reverse) does.
    ///
    /// Requires that `from` is at most `to`, and `to` at most the length. As `reverse` of a part
    /// for writing in the Rust crate.
    ///
    /// # Examples
    ///
    /// ```
    /// let mut memory = [0x13u8];
    /// let span: BitSpan<u8, Lsb0> = BitSpan::at(0, 8).unwrap();
    /// let mut slice = BitSliceMut::new_unchecked(span, &mut memory);
    /// slice.reverse_range(0, 4);
    /// slice.invert_range(4, 6);
    /// assert_eq!(rt; memory, [0x2C]);
    /// ```
    pub fn reverse_range(&mut self, from: usize, to: usize)
        requires ordered { from ≤ to }
        requires inside { to ≤ lent_len self.old }
        ensures bits { let xs = lent_bits self.old
            in BecomesBits self.old self.new
            (with_range xs from to (reverse (slice_range xs from to))) }
        ensures beside { KeepsStretches from to (lent_bits self.old) (lent_bits self.new) }
    {
        let part = self.part(from, to);
        let memory = &mut *self.memory;
        reverse_bits(part, memory);
    }

    /// Turns over each bit from number `from` to before number `to`, word by word.
    ///
    /// Requires that `from` is at most `to`, and `to` at most the length. As `!` of a part for
    /// writing in the Rust crate.
    pub fn invert_range(&mut self, from: usize, to: usize)
        requires ordered { from ≤ to }
        requires inside { to ≤ lent_len self.old }
        ensures bits { let xs = lent_bits self.old
            in BecomesBits self.old self.new
            (with_range xs from to (map not (slice_range xs from to))) }
        ensures beside { KeepsStretches from to (lent_bits self.old) (lent_bits self.new) }
    {
        let part = self.part(from, to);
        let memory = &mut *self.memory;
        part.invert(memory);
    }

    /// Copies the bits of another slice, of any register and order, to the bits from number `from`
    /// on, word by word.
    ///
    /// Requires that `from` plus the other slice's length is at most the length. As
    /// `copy_from_bitslice` of a part for writing in the Rust crate.
    ///
    /// # Examples
    ///
    /// ```
    /// let memory = [0xA0u8];
    /// let span: BitSpan<u8, Msb0> = BitSpan::at(0, 3).unwrap();
    /// let source = BitSlice::new(span, &memory).ok_or("outside")?;
    /// let mut words = [0x00u8];
    /// let span: BitSpan<u8, Lsb0> = BitSpan::at(0, 8).unwrap();
    /// let mut slice = BitSliceMut::new_unchecked(span, &mut words);
    /// slice.copy_from_range(4, source);
    /// assert_eq!(rt; words, [0x50]);
    /// ```
    pub fn copy_from_range<R2: BitRegister, O2: BitOrder<R2>>(
        &mut self,
        from: usize,
        source: BitSlice<'_, R2, O2>,
    )
        requires { from + slice_len source ≤ lent_len self.old }
        ensures bits { BecomesBits self.old self.new
            (with_range (lent_bits self.old) from (from + slice_len source.entry)
            (slice_bits source.entry)) }
        ensures beside { KeepsStretches from (from + slice_len source.entry) (lent_bits self.old)
            (lent_bits self.new) }
    {
        let part = self.part(from, from + source.len());
        let memory = &mut *self.memory;
        part.copy_from(memory, source.span, source.memory);
    }

    /// Combines the bits of another slice, of any register and order, with the bits from number
    /// `from` on. Each of these becomes what `C` makes of it and of the other slice's bit, up to
    /// the other slice's end.
    ///
    /// Requires that `from` plus the other slice's length is at most the length. Costs as
    /// [`combine_from`](BitSliceMut::combine_from) does. Not in the Rust crate.
    pub fn combine_from_range<C: Combine, R2: BitRegister, O2: BitOrder<R2>>(
        &mut self,
        from: usize,
        source: BitSlice<'_, R2, O2>,
    )
        requires { from + slice_len source ≤ lent_len self.old }
        ensures bits { let to = from + slice_len source.entry in BecomesRange self.old self.new from
            to (zip_with C.of (slice_range (lent_bits self.old) from to) (slice_bits source.entry)) }
        ensures beside { KeepsStretches from (from + slice_len source.entry) (lent_bits self.old)
            (lent_bits self.new) }
    {
        let part = self.part(from, from + source.len());
        let memory = &mut *self.memory;
        part.combine_from::<C, R2, O2>(memory, source.span, source.memory);
    }
}

impl<'a, R: BitRegister, O: Sequential<R>> BitSliceMut<'a, R, O> {
    ghost use Rattle.bitvec_slice.specs.BitSliceMut.{lent_head, lent_len, lent_bits, BecomesRange};

    /// Makes the bits from number `from` to before number `to` the lowest `to - from` digits of a
    /// number. [`load_le`](BitSlice::load_le) of that part gives these digits back. Costs by words.
    ///
    /// Requires that `from` is at most `to`, `to` at most the length, and that the part has no more
    /// bits than the number type has digits. As `store_le` of a part for writing in the Rust crate.
    #[inline(always)]
    pub fn store_le_range<N: BitRegister>(&mut self, from: usize, to: usize, value: N)
        requires ordered { from ≤ to }
        requires inside { to ≤ lent_len self.old }
        requires small { to - from ≤ N.BITS }
        ensures stored { BecomesRange self.old self.new from to (field_list false R.BITS O.RISES
            (lent_head self.old from) (to - from) (N.number value)) }
        ensures loaded { field_number false R.BITS O.RISES (lent_head self.old from) (slice_range
            (lent_bits self.new) from to) ≡ N.number value % 2 ^ (to - from) }
        ensures beside { KeepsStretches from to (lent_bits self.old) (lent_bits self.new) }
    {
        let part = self.part(from, to);
        let memory = &mut *self.memory;
        store(part, memory, value, false);
    }

    /// Makes the bits from number `from` to before number `to` the lowest `to - from` digits of a
    /// number. [`load_be`](BitSlice::load_be) of that part gives these digits back. Costs by words.
    ///
    /// Requires that `from` is at most `to`, `to` at most the length, and that the part has no more
    /// bits than the number type has digits. As `store_be` of a part for writing in the Rust crate.
    ///
    /// # Examples
    ///
    /// The length of an IPv4 packet, and the number of its protocol.
    ///
    /// ```
    /// let mut header = [0x00u8; 20];
    /// let mut bits = BitSliceMut::<u8, Msb0>::all_unchecked(&mut header);
    /// bits.store_be_range(16, 32, 1500u16);
    /// bits.store_be_range(72, 80, 6u8);
    /// assert_eq!(rt; header[2], 0x05);
    /// assert_eq!(rt; header[3], 0xDC);
    /// assert_eq!(rt; header[9], 6);
    /// ```
    #[inline(always)]
    pub fn store_be_range<N: BitRegister>(&mut self, from: usize, to: usize, value: N)
        requires ordered { from ≤ to }
        requires inside { to ≤ lent_len self.old }
        requires small { to - from ≤ N.BITS }
        ensures stored { BecomesRange self.old self.new from to (field_list true R.BITS O.RISES
            (lent_head self.old from) (to - from) (N.number value)) }
        ensures loaded { field_number true R.BITS O.RISES (lent_head self.old from) (slice_range
            (lent_bits self.new) from to) ≡ N.number value % 2 ^ (to - from) }
        ensures beside { KeepsStretches from to (lent_bits self.old) (lent_bits self.new) }
    {
        let part = self.part(from, to);
        let memory = &mut *self.memory;
        store(part, memory, value, true);
    }
}
