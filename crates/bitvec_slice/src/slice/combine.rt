//! Sets of bits: a `BitSliceMut` combined with another slice or with a range of its own, or turned
//! over.

ghost use Rattle.std.specs.Prelude.{◌≡◌, ◌≤◌, ◌+◌, ◌-◌, ◌&&◌, ◌||◌, Bool, not, map};
ghost use Rattle.bitvec.specs.Digit.{exclusive_or};
ghost use Rattle.bitvec.specs.Memory.{zip_with, list_with};
ghost use Rattle.bitvec_slice.specs.SameBits.{IsEach};

use crate::slice::{BitSlice, BitSliceMut};
use bitvec::mem::BitRegister;
use bitvec::order::BitOrder;
use bitvec::ptr::combine::{And, AndNot, Combine, Or, Xor};
use std::ops::Range;

impl<'a, R: BitRegister, O: BitOrder<R>> BitSliceMut<'a, R, O> {
    ghost use Rattle.bitvec_slice.specs.BitSlice.{slice_len, slice_bits};
    ghost use Rattle.bitvec_slice.specs.BitSliceMut.{lent_len, lent_bits, BecomesBits};

    /// Combines the bits of another slice, of any register and order, with the slice's: each bit
    /// becomes what `C` makes of it and of the other slice's bit of that number.
    ///
    /// Requires that the other slice has the same length. By words where the positions of both
    /// orders rise or those of both fall, else by bits. Not in the Rust crate.
    ///
    /// # Examples
    ///
    /// ```
    /// let memory = [0x0Fu16];
    /// let span: BitSpan<u16, Msb0> = BitSpan::at(8, 8).unwrap();
    /// let other = BitSlice::new(span, &memory).ok_or("outside")?;
    /// let mut words = [0x30u8, 0x03];
    /// let span: BitSpan<u8, Lsb0> = BitSpan::at(4, 8).unwrap();
    /// let mut slice = BitSliceMut::new_unchecked(span, &mut words);
    /// slice.combine_from::<Xor, u16, Msb0>(other);
    /// drop(slice);
    /// assert_eq!(rt; words, [0x30, 0x0C]);
    /// ```
    pub fn combine_from<C: Combine, R2: BitRegister, O2: BitOrder<R2>>(
        &mut self,
        source: BitSlice<'_, R2, O2>,
    )
        requires { slice_len source ≡ lent_len self.old }
        ensures bits { BecomesBits self.old self.new
            (zip_with C.of (lent_bits self.old) (slice_bits source.entry)) }
        ensures each { IsEach C.of (lent_bits self.old) (slice_bits source.entry)
            (lent_bits self.new) }
    {
        let span = self.span();
        let memory = &mut *self.memory;
        span.combine_from::<C, R2, O2>(memory, source.span, source.memory);
    }

    /// Leaves set those bits whose bit in another slice is set: the intersection of two sets.
    ///
    /// Requires that the other slice has the same length; it may be of any register and order. By
    /// words where the positions of both orders rise or those of both fall, else by bits. Not in
    /// the Rust crate, for `&=` between slices of one length.
    pub fn and_from<R2: BitRegister, O2: BitOrder<R2>>(&mut self, source: BitSlice<'_, R2, O2>)
        requires { slice_len source ≡ lent_len self.old }
        ensures bits { BecomesBits self.old self.new
            (zip_with (λ t s. t && s) (lent_bits self.old) (slice_bits source.entry)) }
        ensures each { IsEach (λ t s. t && s) (lent_bits self.old) (slice_bits source.entry)
            (lent_bits self.new) }
    {
        self.combine_from::<And, R2, O2>(source);
    }

    /// Sets those bits whose bit in another slice is set: the union of two sets.
    ///
    /// Requires that the other slice has the same length; it may be of any register and order. By
    /// words where the positions of both orders rise or those of both fall, else by bits. Not in
    /// the Rust crate, for `|=` between slices of one length.
    pub fn or_from<R2: BitRegister, O2: BitOrder<R2>>(&mut self, source: BitSlice<'_, R2, O2>)
        requires { slice_len source ≡ lent_len self.old }
        ensures bits { BecomesBits self.old self.new
            (zip_with (λ t s. t || s) (lent_bits self.old) (slice_bits source.entry)) }
        ensures each { IsEach (λ t s. t || s) (lent_bits self.old) (slice_bits source.entry)
            (lent_bits self.new) }
    {
        self.combine_from::<Or, R2, O2>(source);
    }

    /// Turns over those bits whose bit in another slice is set: the symmetric difference of two
    /// sets.
    ///
    /// Requires that the other slice has the same length; it may be of any register and order. By
    /// words where the positions of both orders rise or those of both fall, else by bits. Not in
    /// the Rust crate, for `^=` between slices of one length.
    pub fn xor_from<R2: BitRegister, O2: BitOrder<R2>>(&mut self, source: BitSlice<'_, R2, O2>)
        requires { slice_len source ≡ lent_len self.old }
        ensures bits { BecomesBits self.old self.new
            (zip_with exclusive_or (lent_bits self.old) (slice_bits source.entry)) }
        ensures each { IsEach exclusive_or (lent_bits self.old) (slice_bits source.entry)
            (lent_bits self.new) }
    {
        self.combine_from::<Xor, R2, O2>(source);
    }

    /// Clears those bits whose bit in another slice is set: the difference of two sets.
    ///
    /// Requires that the other slice has the same length; it may be of any register and order. By
    /// words where the positions of both orders rise or those of both fall, else by bits. Not in
    /// the Rust crate.
    pub fn and_not_from<R2: BitRegister, O2: BitOrder<R2>>(&mut self, source: BitSlice<'_, R2, O2>)
        requires { slice_len source ≡ lent_len self.old }
        ensures bits { BecomesBits self.old self.new
            (zip_with (λ t s. t && not s) (lent_bits self.old) (slice_bits source.entry)) }
        ensures each { IsEach (λ t s. t && not s) (lent_bits self.old) (slice_bits source.entry)
            (lent_bits self.new) }
    {
        self.combine_from::<AndNot, R2, O2>(source);
    }

    /// Combines the bits of a range with those of a range of the same length, from number `dest`
    /// on. The two ranges may overlap, and each bit is combined with what was there before the
    /// call.
    ///
    /// Requires that the range rises, and that both ranges of bits end within the length. By words
    /// where the order's positions rise or fall, else by bits. Not in the Rust crate.
    ///
    /// # Examples
    ///
    /// Each bit is set where it or the one three places before it was.
    ///
    /// ```
    /// let mut memory = [0x01u8, 0x80];
    /// let span: BitSpan<u8, Lsb0> = BitSpan::at(0, 16).unwrap();
    /// let mut slice = BitSliceMut::new_unchecked(span, &mut memory);
    /// slice.combine_within::<Or>(0..13, 3);
    /// drop(slice);
    /// assert_eq!(rt; memory, [0x09, 0x80]);
    /// ```
    pub fn combine_within<C: Combine>(&mut self, src: Range<usize>, dest: usize)
        requires ordered { src.start ≤ src.end }
        requires source_inside { src.end ≤ lent_len self.old }
        requires target_inside { dest + (src.end - src.start) ≤ lent_len self.old }
        ensures { let xs = lent_bits self.old
            in BecomesBits self.old self.new
            (list_with C.of xs src.start xs dest (src.end - src.start)) }
    {
        let span = self.span();
        let memory = &mut *self.memory;
        span.combine_within::<C>(memory, src.start, dest, src.end - src.start);
    }

    /// Turns each bit over, word by word. As `!` in the Rust crate, but in place.
    ///
    /// # Examples
    ///
    /// ```
    /// let mut memory = [0x12u8, 0x34];
    /// let span: BitSpan<u8, Lsb0> = BitSpan::at(4, 8).unwrap();
    /// let mut slice = BitSliceMut::new_unchecked(span, &mut memory);
    /// slice.invert();
    /// drop(slice);
    /// assert_eq!(rt; memory, [0xE2, 0x3B]);
    /// ```
    pub fn invert(&mut self)
        ensures { BecomesBits self.old self.new (map not (lent_bits self.old)) }
    {
        let span = self.span();
        let memory = &mut *self.memory;
        span.invert(memory);
    }
}
