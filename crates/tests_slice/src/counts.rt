//! How many bits of a slice, or of a span, are one behind an edit: for every register and every
//! lawful order. A search finds each proof by the lemmas that slices have of counts.
#![tactic(auto, using(bitvec_slice::proofs::OneCountLemmas::slice_counts))]

ghost use Rattle.std.specs.Prelude.{◌≡◌, ◌<◌, ◌+◌, ◌||◌, ◌&&◌, if◌then◌else◌, length};
ghost use Rattle.std.specs.Prelude.{slice_set, true};
ghost use Rattle.bitvec.specs.BitSpan.{span_of, list_by};
ghost use Rattle.bitvec.specs.Memory.{zip_with};
ghost use Rattle.bitvec.specs.Span.{Fits, element};
ghost use Rattle.bitvec.specs.Truths.{ones_in};
ghost use Rattle.bitvec_slice.specs.Bits.{zeros_in};
ghost use Rattle.bitvec_slice.specs.BitSlice.{slice_len, slice_bits};
ghost use Rattle.bitvec_slice.specs.BitSliceMut.{lent_len, lent_bits, BecomesBits};

use bitvec::mem::BitRegister;
use bitvec::order::BitOrder;
use bitvec::ptr::span::BitSpan;
use bitvec_slice::slice::{BitSlice, BitSliceMut, ReadBits};

/// Adds a set to another, and returns how many numbers that has then: those of both, less those
/// that they have in common.
fn ones_of_union<'a, R: BitRegister, O: BitOrder<R>, R2: BitRegister, O2: BitOrder<R2>>(
    set: &mut BitSliceMut<'a, R, O>,
    other: BitSlice<'_, R2, O2>,
) -> usize
    requires { slice_len other ≡ lent_len set.old }
    ensures { let xs = lent_bits set.old in let ys = slice_bits other.entry
        in result + ones_in (zip_with (λ a b. a && b) xs ys) ≡ ones_in xs + ones_in ys }
{
    set.or_from(other);
    set.count_ones()
}

/// How many numbers the union of two sets has: those of both, less those that they have in common.
fn size_of_union<'a, R: BitRegister, O: BitOrder<R>, R2: BitRegister, O2: BitOrder<R2>>(
    set: BitSlice<'a, R, O>,
    other: BitSlice<'a, R2, O2>,
) -> usize
    requires { slice_len other ≡ slice_len set }
    ensures { let xs = slice_bits set.entry in let ys = slice_bits other.entry
        in result + ones_in (zip_with (λ a b. a && b) xs ys) ≡ ones_in xs + ones_in ys }
{
    set.count_or(&other)
}

/// Leaves in a set what another has too, and returns how many numbers that are: those of both, less
/// those of their union.
fn ones_in_common<'a, R: BitRegister, O: BitOrder<R>, R2: BitRegister, O2: BitOrder<R2>>(
    set: &mut BitSliceMut<'a, R, O>,
    other: BitSlice<'_, R2, O2>,
) -> usize
    requires { slice_len other ≡ lent_len set.old }
    ensures { let xs = lent_bits set.old in let ys = slice_bits other.entry
        in result + ones_in (zip_with (λ a b. a || b) xs ys) ≡ ones_in xs + ones_in ys }
{
    set.and_from(other);
    set.count_ones()
}

/// Exchanges two bits: as many are one as before.
fn exchange<'a, R: BitRegister, O: BitOrder<R>>(
    bits: &mut BitSliceMut<'a, R, O>,
    i: usize,
    j: usize,
)
    requires first { i < lent_len bits.old }
    requires second { j < lent_len bits.old }
    ensures { ones_in (lent_bits bits.new) ≡ ones_in (lent_bits bits.old) }
{
    bits.swap(i, j);
}

/// Writes a bit and returns the one that was there: what was there goes, and what is written comes.
fn write_over<'a, R: BitRegister, O: BitOrder<R>>(
    bits: &mut BitSliceMut<'a, R, O>,
    i: usize,
    bit: bool,
) -> bool
    requires { i < lent_len bits.old }
    ensures { ones_in (lent_bits bits.new) + (if result then 1 else 0)
        ≡ ones_in (lent_bits bits.old) + (if bit then 1 else 0) }
{
    bits.replace(i, bit)
}

/// Makes a bit one and exchanges it with another, and returns how many are zero then: one fewer
/// where it was zero.
fn mark_and_exchange<'a, R: BitRegister, O: BitOrder<R>>(
    bits: &mut BitSliceMut<'a, R, O>,
    i: usize,
    j: usize,
) -> usize
    requires first { i < lent_len bits.old }
    requires second { j < lent_len bits.old }
    ensures { result + (if element (lent_bits bits.old) i then 0 else 1)
        ≡ zeros_in (lent_bits bits.old) }
{
    bits.set(i, true);
    bits.swap(i, j);
    bits.count_zeros()
}

/// Turns each bit over: as many are one as were zero.
#[tactic(auto, using(bitvec_slice::proofs::OneCountLemmas::turned_counts))]
fn turn_all<'a, R: BitRegister, O: BitOrder<R>>(bits: &mut BitSliceMut<'a, R, O>) -> usize
    ensures { result ≡ zeros_in (lent_bits bits.old) }
{
    bits.invert();
    bits.count_ones()
}

/// Writes a bit of a span, and returns the one that was there: what was there goes, and what is
/// written comes.
fn write_in_span<R: BitRegister, O: BitOrder<R>>(
    span: BitSpan<R, O>,
    memory: &mut [R],
    i: usize,
    bit: bool,
) -> bool
    requires fits { Fits R.BITS (span_of span) (length memory.old) }
    requires inside { i < (span_of span).len }
    ensures { ones_in (list_by span O.at_of memory.new) + (if result then 1 else 0)
        ≡ ones_in (list_by span O.at_of memory.old) + (if bit then 1 else 0) }
{
    span.replace(memory, i, bit)
}

/// Exchanges two bits of a span: as many are one as before.
fn exchange_in_span<R: BitRegister, O: BitOrder<R>>(
    span: BitSpan<R, O>,
    memory: &mut [R],
    i: usize,
    j: usize,
)
    requires fits { Fits R.BITS (span_of span) (length memory.old) }
    requires first { i < (span_of span).len }
    requires second { j < (span_of span).len }
    ensures { ones_in (list_by span O.at_of memory.new)
        ≡ ones_in (list_by span O.at_of memory.old) }
{
    span.swap(memory, i, j);
}

/// Makes a bit one, and says so by the bits' list alone.
fn mark<'a, R: BitRegister, O: BitOrder<R>>(bits: &mut BitSliceMut<'a, R, O>, i: usize)
    requires { i < lent_len bits.old }
    ensures { BecomesBits bits.old bits.new (slice_set (lent_bits bits.old) i true) }
{
    bits.set(i, true);
}

/// Makes a bit one, and then the last: an edit's list is as long as before, by its record alone.
fn mark_and_the_last<'a, R: BitRegister, O: BitOrder<R>>(bits: &mut BitSliceMut<'a, R, O>, i: usize)
    requires { i < lent_len bits.old }
    ensures len { lent_len bits.new ≡ lent_len bits.old }
    ensures long { length (lent_bits bits.new) ≡ length (lent_bits bits.old) }
{
    let last = bits.len() - 1;
    mark(bits, i);
    bits.set(last, true);
}
