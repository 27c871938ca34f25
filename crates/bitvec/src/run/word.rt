//! The commands to one word of a span, each with what the whole memory is when the loan has ended.

ghost use Rattle.std.specs.Prelude.{ℕ, true, false, not, length};
ghost use Rattle.bitvec_mem.specs.Digit.{digit};
ghost use Rattle.bitvec_span.specs.Span.{Fits};
ghost use Rattle.bitvec_span.specs.BitSpan.{span_of};
ghost use Rattle.bitvec.specs.Words.{LoadsWord, EditsWord};

use crate::mem::BitRegister;
use crate::order::BitOrder;
use crate::ptr::span::BitSpan;

// Returns the span's bits in the `k`-th word that it meets.
pub(crate) fn load<R: BitRegister, O: BitOrder<R>>(
    span: BitSpan<R, O>,
    memory: &[R],
    k: usize,
) -> Option<R>
    requires { Fits R.BITS (span_of span) (length memory.now) }
    ensures { LoadsWord span k O.at_of memory.now result }
{
    if k < span.elements() {
        Some(span.part(memory, k).load_value())
    } else {
        None
    }
}

// Puts the digits of a number in place into that word.
pub(crate) fn store<R: BitRegister, O: BitOrder<R>>(
    span: BitSpan<R, O>,
    memory: &mut [R],
    k: usize,
    value: R,
) -> Option<R>
    requires { Fits R.BITS (span_of span) (length memory.old) }
    ensures { EditsWord span k O.at_of (λ word i. digit (R.number value) (O.at_of i))
        memory.old memory.new result }
{
    if k < span.elements() {
        let mut part = span.part_mut(memory, k);
        Some(part.store_value(value))
    } else {
        None
    }
}

// Turns the span's bits in that word over.
pub(crate) fn invert<R: BitRegister, O: BitOrder<R>>(
    span: BitSpan<R, O>,
    memory: &mut [R],
    k: usize,
) -> Option<R>
    requires { Fits R.BITS (span_of span) (length memory.old) }
    ensures { EditsWord span k O.at_of (λ word i. not (digit word (O.at_of i)))
        memory.old memory.new result }
{
    if k < span.elements() {
        let mut part = span.part_mut(memory, k);
        Some(part.invert())
    } else {
        None
    }
}

// Makes the span's bits in that word zero.
pub(crate) fn clear<R: BitRegister, O: BitOrder<R>>(
    span: BitSpan<R, O>,
    memory: &mut [R],
    k: usize,
) -> Option<R>
    requires { Fits R.BITS (span_of span) (length memory.old) }
    ensures { EditsWord span k O.at_of (λ word i. false) memory.old memory.new result }
{
    if k < span.elements() {
        let mut part = span.part_mut(memory, k);
        Some(part.clear())
    } else {
        None
    }
}

// Makes the span's bits in that word one.
pub(crate) fn set<R: BitRegister, O: BitOrder<R>>(
    span: BitSpan<R, O>,
    memory: &mut [R],
    k: usize,
) -> Option<R>
    requires { Fits R.BITS (span_of span) (length memory.old) }
    ensures { EditsWord span k O.at_of (λ word i. true) memory.old memory.new result }
{
    if k < span.elements() {
        let mut part = span.part_mut(memory, k);
        Some(part.set())
    } else {
        None
    }
}
