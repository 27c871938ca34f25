//! The operators `&=`, `|=`, `^=` and `!` of a `BitSliceMut`.

ghost use Rattle.std.specs.Prelude.{◌-◌, ◌||◌, false, not, map, length};
ghost use Rattle.bitvec.specs.BitSpan.{span_of, list_by, Becomes};
ghost use Rattle.bitvec.specs.Digit.{exclusive_or};
ghost use Rattle.bitvec.specs.Span.{Fits};
ghost use Rattle.bitvec_slice.specs.BitSlice.{slice_bits};
ghost use Rattle.bitvec_slice.specs.Ranges.{with_common, only_common};

use crate::slice::{BitSlice, BitSliceMut};
use bitvec::mem::BitRegister;
use bitvec::order::BitOrder;
use bitvec::ptr::combine::{And, Combine, Or, Xor};
use bitvec::ptr::span::BitSpan;
use std::ops::{BitAndAssign, BitOrAssign, BitXorAssign, Not};

// Combines the bits of a slice with those of a span as far as both go, and changes no other bit.
fn combine_common<C: Combine, R: BitRegister, O: BitOrder<R>, R2: BitRegister, O2: BitOrder<R2>>(
    span: BitSpan<R, O>,
    memory: &mut [R],
    source: BitSlice<'_, R2, O2>,
)
    requires fits { Fits R.BITS (span_of span) (length memory.old) }
    ensures { Becomes span O.at_of memory.old memory.new (with_common C.of (list_by span O.at_of
        memory.old) (slice_bits source.entry)) }
{
    let count = span.len().min(source.len());
    let target = span.range(0, count);
    target.combine_from::<C, R2, O2>(memory, source.span.range(0, count), source.memory);
}

// Clears the bits of a span whose bit in a slice is clear, and those behind the slice's last, and
// changes no other bit.
fn and_common<R: BitRegister, O: BitOrder<R>, R2: BitRegister, O2: BitOrder<R2>>(
    span: BitSpan<R, O>,
    memory: &mut [R],
    source: BitSlice<'_, R2, O2>,
)
    requires fits { Fits R.BITS (span_of span) (length memory.old) }
    ensures { Becomes span O.at_of memory.old memory.new (only_common (list_by span O.at_of
        memory.old) (slice_bits source.entry)) }
{
    combine_common::<And, R, O, R2, O2>(span, memory, source);
    let (common, len) = (source.len(), span.len());
    if common < len {
        span.range(common, len).fill(memory, false);
    }
}

impl<'a, R: BitRegister, O: BitOrder<R>> BitSliceMut<'a, R, O> {
    ghost use Rattle.bitvec_slice.specs.BitSliceMut.{lent_bits, BecomesBits};

    // Combines the bits of another slice with the slice's as far as both go.
    fn combine_as_far<C: Combine, R2: BitRegister, O2: BitOrder<R2>>(
        &mut self,
        source: BitSlice<'_, R2, O2>,
    )
        ensures { BecomesBits self.old self.new
            (with_common C.of (lent_bits self.old) (slice_bits source.entry)) }
    {
        let span = self.span();
        let memory = &mut *self.memory;
        combine_common::<C, R, O, R2, O2>(span, memory, source);
    }
}

/// Leaves set those bits whose bit in the other slice is set. Where the other slice is shorter, the
/// bits behind its last are cleared, as by a slice that goes on with zeros.
///
/// By words where the positions of both orders rise or those of both fall, else by bits. As in the
/// Rust crate.
///
/// # Examples
///
/// ```
/// let memory = [0x0Fu8];
/// let span: BitSpan<u8, Lsb0> = BitSpan::at(0, 6).unwrap();
/// let other = BitSlice::new(span, &memory).ok_or("outside")?;
/// let mut words = [0xFCu8, 0xFF];
/// let span: BitSpan<u8, Lsb0> = BitSpan::at(0, 12).unwrap();
/// let mut slice = BitSliceMut::new_unchecked(span, &mut words);
/// slice &= other;
/// drop(slice);
/// assert_eq!(rt; words, [0x0C, 0xF0]);
/// ```
impl<'a, 'b, R: BitRegister, O: BitOrder<R>, R2: BitRegister, O2: BitOrder<R2>> BitAndAssign<
    BitSlice<'b, R2, O2>,
> for BitSliceMut<'a, R, O> {
    ghost use Rattle.bitvec_slice.specs.BitSliceMut.{lent_bits, BecomesBits};

    ghost bitand_assign_gives = { λ old source new. BecomesBits old new
        (only_common (lent_bits old) (slice_bits source)) };

    fn bitand_assign(&mut self, rhs: BitSlice<'b, R2, O2>) {
        let span = self.span();
        let memory = &mut *self.memory;
        and_common(span, memory, rhs);
    }
}

/// Sets those bits whose bit in the other slice is set. Where the other slice is shorter, the bits
/// behind its last stay, as by a slice that goes on with zeros.
///
/// By words where the positions of both orders rise or those of both fall, else by bits. As in the
/// Rust crate.
///
/// # Examples
///
/// ```
/// let memory = [0x0Fu8];
/// let span: BitSpan<u8, Lsb0> = BitSpan::at(0, 6).unwrap();
/// let other = BitSlice::new(span, &memory).ok_or("outside")?;
/// let mut words = [0xC0u8, 0x01];
/// let span: BitSpan<u8, Lsb0> = BitSpan::at(2, 12).unwrap();
/// let mut slice = BitSliceMut::new_unchecked(span, &mut words);
/// slice |= other;
/// drop(slice);
/// assert_eq!(rt; words, [0xFC, 0x01]);
/// ```
impl<'a, 'b, R: BitRegister, O: BitOrder<R>, R2: BitRegister, O2: BitOrder<R2>> BitOrAssign<
    BitSlice<'b, R2, O2>,
> for BitSliceMut<'a, R, O> {
    ghost use Rattle.bitvec_slice.specs.BitSliceMut.{lent_bits, BecomesBits};

    ghost bitor_assign_gives = { λ old source new. BecomesBits old new
        (with_common (λ t s. t || s) (lent_bits old) (slice_bits source)) };

    fn bitor_assign(&mut self, rhs: BitSlice<'b, R2, O2>) {
        self.combine_as_far::<Or, R2, O2>(rhs);
    }
}

/// Turns over those bits whose bit in the other slice is set. Where the other slice is shorter, the
/// bits behind its last stay, as by a slice that goes on with zeros.
///
/// By words where the positions of both orders rise or those of both fall, else by bits. As in the
/// Rust crate.
impl<'a, 'b, R: BitRegister, O: BitOrder<R>, R2: BitRegister, O2: BitOrder<R2>> BitXorAssign<
    BitSlice<'b, R2, O2>,
> for BitSliceMut<'a, R, O> {
    ghost use Rattle.bitvec_slice.specs.BitSliceMut.{lent_bits, BecomesBits};

    ghost bitxor_assign_gives = { λ old source new. BecomesBits old new
        (with_common exclusive_or (lent_bits old) (slice_bits source)) };

    fn bitxor_assign(&mut self, rhs: BitSlice<'b, R2, O2>) {
        self.combine_as_far::<Xor, R2, O2>(rhs);
    }
}

/// The slice with each bit turned over in its memory, as by [`invert`](BitSliceMut::invert). As in
/// the Rust crate.
impl<'a, R: BitRegister, O: BitOrder<R>> Not for BitSliceMut<'a, R, O> {
    ghost use Rattle.bitvec_slice.specs.BitSliceMut.{lent_bits, BecomesBits};

    type Output = BitSliceMut<'a, R, O>;

    ghost not_gives = { λ old new. BecomesBits old new (map not (lent_bits old)) };

    fn not(mut self) -> BitSliceMut<'a, R, O> {
        self.invert();
        self
    }
}
