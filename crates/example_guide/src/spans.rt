//! Spans whose numbers come from outside: each function tests what the call below it requires.

ghost use Rattle.std.specs.Prelude.{◌≡◌, ◌↔◌, IsTrue, IsFalse, IsSome, IfSome, length};
ghost use Rattle.std.specs.Prelude.{replicate};
ghost use Rattle.bitvec.specs.BitSpan.{span_of, list_by, Becomes};
ghost use Rattle.bitvec.specs.Span.{Fits};
ghost use Rattle.bitvec_slice.specs.BitSlice.{slice_bits, slice_len};
ghost use Rattle.bitvec.specs.Truths.{ones_in};

use bitvec::mem::BitRegister;
use bitvec::order::BitOrder;
use bitvec::ptr::span::BitSpan;
use bitvec_slice::slice::{BitSlice, BitSliceMut};

/// How many bits of a span are ones, and `None` exactly where the span does not lie in the memory.
pub fn ones_of<R: BitRegister, O: BitOrder<R>>(span: BitSpan<R, O>, memory: &[R]) -> Option<usize>
    ensures inside { IsSome result ↔ Fits R.BITS (span_of span) (length memory.now) }
    ensures ones { IfSome result (λ ones. ones ≡ ones_in (list_by span O.at_of memory.now)) }
{
    Some(BitSlice::new(span, memory)?.count_ones())
}

/// Makes each bit of a span the same, and returns whether the span lies in the memory.
pub fn fill_if_inside<R: BitRegister, O: BitOrder<R>>(
    span: BitSpan<R, O>,
    memory: &mut [R],
    bit: bool,
) -> bool
    ensures inside { IsTrue result ↔ Fits R.BITS (span_of span) (length memory.old) }
    ensures filled { IsTrue result → Becomes span O.at_of memory.old memory.new
        (replicate (span_of span).len bit) }
    ensures refused { IsFalse result → memory.new ≡ memory.old }
{
    if !span.fits(memory.len()) {
        return false;
    }
    span.fill(memory, bit);
    true
}

/// Copies the bits of a slice to a span, of any register and order, and returns whether the span
/// lies in the memory and has as many.
pub fn copy_if_inside<R: BitRegister, O: BitOrder<R>, R2: BitRegister, O2: BitOrder<R2>>(
    source: &BitSlice<'_, R, O>,
    span: BitSpan<R2, O2>,
    memory: &mut [R2],
) -> bool
    ensures inside { IsTrue result ↔ (Fits R2.BITS (span_of span) (length memory.old)
        × (slice_len source.now ≡ (span_of span).len)) }
    ensures copied { IsTrue result → Becomes span O2.at_of memory.old memory.new
        (slice_bits source.now) }
    ensures refused { IsFalse result → memory.new ≡ memory.old }
{
    if !span.fits(memory.len()) || source.len() != span.len() {
        return false;
    }
    let mut slice = BitSliceMut::new_unchecked(span, memory);
    slice.copy_from_bitslice(*source);
    true
}
