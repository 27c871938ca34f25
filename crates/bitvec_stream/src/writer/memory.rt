//! What a writer makes of the memory that it borrows, each time by a slice of its bits.

ghost use Rattle.std.specs.Prelude.{◌+◌, ◌≤◌, length, replicate};
ghost use Rattle.bitvec.specs.BitSpan.{span_of, list_by, Becomes};
ghost use Rattle.bitvec.specs.Span.{Fits};
ghost use Rattle.bitvec_slice.specs.BitSlice.{slice_len, slice_bits};
ghost use Rattle.bitvec_slice.specs.Ranges.{with_range};
ghost use Rattle.bitvec_slice.specs.Words.{HasWord, with_digits};
ghost use Rattle.bitvec_stream.specs.Numbers.{digits_le, digits_be};

use bitvec::mem::BitRegister;
use bitvec::order::BitOrder;
use bitvec::ptr::span::BitSpan;
use bitvec_slice::slice::{BitSlice, BitSliceMut};

/// Makes `count` bits of a span from number `at` on the same.
pub(super) fn fill_bits<R: BitRegister, O: BitOrder<R>>(
    span: BitSpan<R, O>,
    memory: &mut [R],
    at: usize,
    count: usize,
    bit: bool,
)
    requires fits { Fits R.BITS (span_of span) (length memory.old) }
    requires within { at + count ≤ (span_of span).len }
    ensures { Becomes span O.at_of memory.old memory.new
        (with_range (list_by span O.at_of memory.old) at (at + count) (replicate count bit)) }
{
    let mut slice = BitSliceMut::new_unchecked(span, memory);
    slice.fill_range(at, at + count, bit);
}

/// Makes the bits of a span from number `at` on those of a slice.
pub(super) fn copy_bits<R: BitRegister, O: BitOrder<R>, R2: BitRegister, O2: BitOrder<R2>>(
    span: BitSpan<R, O>,
    memory: &mut [R],
    at: usize,
    source: BitSlice<'_, R2, O2>,
)
    requires fits { Fits R.BITS (span_of span) (length memory.old) }
    requires within { at + slice_len source ≤ (span_of span).len }
    ensures { Becomes span O.at_of memory.old memory.new (with_range
        (list_by span O.at_of memory.old) at (at + slice_len source.entry)
        (slice_bits source.entry)) }
{
    let mut slice = BitSliceMut::new_unchecked(span, memory);
    slice.copy_from_range(at, source);
}

/// Makes `count` bits of a span from number `at` on the lowest digits of a number, the highest of
/// them first. Where a writer keeps a word, few writes come here: it is a function of its own so
/// that it takes no registers of a loop over the others.
#[cold]
#[inline(never)]
pub(super) fn store_be<R: BitRegister, O: BitOrder<R>, N: BitRegister>(
    span: BitSpan<R, O>,
    memory: &mut [R],
    at: usize,
    count: usize,
    digits: N,
)
    requires fits { Fits R.BITS (span_of span) (length memory.old) }
    requires within { at + count ≤ (span_of span).len }
    requires few { count ≤ N.BITS }
    ensures { Becomes span O.at_of memory.old memory.new (with_range
        (list_by span O.at_of memory.old) at (at + count) (digits_be count (N.number digits))) }
{
    let mut slice = BitSliceMut::new_unchecked(span, memory);
    slice.store_digits_be(at, at + count, digits);
}

/// The same, the lowest digit first.
#[inline(always)]
pub(super) fn store_le<R: BitRegister, O: BitOrder<R>, N: BitRegister>(
    span: BitSpan<R, O>,
    memory: &mut [R],
    at: usize,
    count: usize,
    digits: N,
)
    requires fits { Fits R.BITS (span_of span) (length memory.old) }
    requires within { at + count ≤ (span_of span).len }
    requires few { count ≤ N.BITS }
    ensures { Becomes span O.at_of memory.old memory.new (with_range
        (list_by span O.at_of memory.old) at (at + count) (digits_le count (N.number digits))) }
{
    let mut slice = BitSliceMut::new_unchecked(span, memory);
    slice.store_digits_le(at, at + count, digits);
}

/// Puts a word in place of word `k` of those that a span meets, which the span has whole.
#[inline(always)]
pub(super) fn put_word<R: BitRegister, O: BitOrder<R>>(
    span: BitSpan<R, O>,
    memory: &mut [R],
    k: usize,
    word: R,
)
    requires fits { Fits R.BITS (span_of span) (length memory.old) }
    requires whole { HasWord R.BITS (span_of span) k }
    ensures { Becomes span O.at_of memory.old memory.new (with_digits R.BITS O.at_of
        (span_of span).head (list_by span O.at_of memory.old) k (R.number word)) }
{
    let mut slice = BitSliceMut::new_unchecked(span, memory);
    slice.set_whole_word(k, word);
}
