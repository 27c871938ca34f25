//! Ranges of the bits of a memory, as the library names them.

ghost use Rattle.std.specs.Prelude.{◌≡◌, ℕ, ◌+◌, ◌*◌, ◌<◌, ◌≤◌, length, map};
ghost use Rattle.bitvec.specs.BitPtr.{ptr_of};
ghost use Rattle.bitvec.specs.BitSpan.{span_of};
ghost use Rattle.bitvec.specs.Place.{memory_place, region_max_bits};
ghost use Rattle.bitvec.specs.Span.{Fits, span_at};
ghost use Rattle.bitvec.specs.Steps.{IsIn, RangeIsIn};
ghost use Rattle.bitvec_slice.specs.BitSlice.{slice_span, slice_bits};
ghost use Rattle.bitvec_slice.specs.BitSliceMut.{lent_memory, lent_span};
ghost use Rattle.bitvec_call.specs.Range.{place_ptr, range_bits};

use bitvec::mem::BitRegister;
use bitvec::order::BitOrder;
use bitvec::ptr::single::BitPtr;
use bitvec::ptr::span::BitSpan;
use bitvec_slice::slice::{BitSlice, BitSliceMut};

/// The pointer to the bit at a place.
#[inline(always)]
pub(crate) fn pointer<R: BitRegister, O>(place: usize) -> BitPtr<R, O>
    ensures pointer { ptr_of result ≡ place_ptr R.BITS place }
    ensures index { memory_place R.BITS (ptr_of result) ≡ place }
    ensures inside { (words : ℕ) → place < words * R.BITS → IsIn (ptr_of result) words }
    ensures range_inside { (words count : ℕ) → place + count ≤ words * R.BITS
        → RangeIsIn R.BITS (ptr_of result) words count }
{
    BitPtr::at(place)
}

/// The span of the `count` bits from a place on.
#[inline(always)]
pub(crate) fn span<R: BitRegister, O>(start: usize, count: usize) -> BitSpan<R, O>
    requires { count ≤ region_max_bits }
    ensures span { span_of result ≡ span_at R.BITS start count }
    ensures fits { (words : ℕ) → start + count ≤ words * R.BITS
        → Fits R.BITS (span_of result) words }
{
    BitSpan::at_unchecked(start, count)
}

/// The bits of a range of a memory.
#[inline(always)]
pub(crate) fn bits<R: BitRegister, O: BitOrder<R>>(
    memory: &[R],
    start: usize,
    count: usize,
) -> BitSlice<'_, R, O>
    requires short { count ≤ region_max_bits }
    requires inside { start + count ≤ length memory.now * R.BITS }
    ensures span { slice_span result ≡ span_at R.BITS start count }
    ensures bits { slice_bits result
        ≡ range_bits R.BITS O.at_of start count (map R.number memory.now) }
{
    BitSlice::new(span::<R, O>(start, count), memory).unwrap()
}

/// The bits of a range of a memory, for writing.
#[inline(always)]
pub(crate) fn bits_mut<R: BitRegister, O: BitOrder<R>>(
    memory: &mut [R],
    start: usize,
    count: usize,
) -> BitSliceMut<'_, R, O>
    requires short { count ≤ region_max_bits }
    requires inside { start + count ≤ length memory.old * R.BITS }
    ensures reference { (lent_memory result).ghost_name ≡ memory.entry.ghost_name }
    ensures memory { (lent_memory result).now ≡ memory.old }
    ensures span { lent_span result ≡ span_at R.BITS start count }
{
    BitSliceMut::new_unchecked(span::<R, O>(start, count), memory)
}
