//! What equality, order, hash, copy and the operators of slices and copies of their iterators are.
//!
//! Each function does what its name says, and its contract is the promise: so a body of an impl
//! that breaks it is refused, though no contract of the layer names it.

ghost use Rattle.std.specs.Prelude.{◌≡◌, ◌↔◌, ◌-◌, ◌||◌, IsTrue, Ok, not};
ghost use Rattle.std.specs.Prelude.{map};
ghost use Rattle.std.specs.Cmp.Lexicographic.{slice_cmp};
ghost use Rattle.std.specs.Ordering.{bool_cmp, is_lt};
ghost use Rattle.bitvec.specs.Digit.{exclusive_or};
ghost use Rattle.bitvec_slice.specs.BitSlice.{slice_bits};
ghost use Rattle.bitvec_slice.specs.BitSliceMut.{lent_bits, BecomesBits};
ghost use Rattle.bitvec_slice.specs.Ranges.{with_common, only_common};

use bitvec::mem::BitRegister;
use bitvec::order::BitOrder;
use bitvec_slice::slice::{
    BitSlice, BitSliceMut, Chunks, ChunksExact, Iter, IterOnes, IterRuns, IterZeros, RChunks,
    TextError, Windows,
};
use std::alloc::AllocError;
use std::hash::{Hash, Hasher};

// Slices are compared by their bits, and a copy is of the same memory and the same place.

fn equal_slices<R: BitRegister, O: BitOrder<R>>(
    here: BitSlice<'_, R, O>,
    there: BitSlice<'_, R, O>,
) -> bool
    ensures { IsTrue result ↔ (slice_bits here.entry ≡ slice_bits there.entry) }
{
    here == there
}

fn is_before<R: BitRegister, O: BitOrder<R>>(
    here: BitSlice<'_, R, O>,
    there: BitSlice<'_, R, O>,
) -> bool
    ensures { result ≡ is_lt (slice_cmp bool_cmp (slice_bits here.entry) (slice_bits there.entry)) }
{
    here < there
}

// Slices are hashed as the lists of their bits are, so alike where these are the same, whatever the
// registers and orders are.

fn hash_of_a_list<R: BitRegister, O: BitOrder<R>, H: Hasher>(
    slice: BitSlice<'_, R, O>,
    list: &[bool],
    here: &mut H,
    there: &mut H,
)
    requires same { slice_bits slice ≡ list.now }
    requires state { here.old ≡ there.old }
    ensures { here.new ≡ there.new }
{
    slice.hash(here);
    list.hash(there);
}

fn hash_of_two_slices<R: BitRegister, O: BitOrder<R>, R2: BitRegister, O2: BitOrder<R2>, H: Hasher>(
    slice: BitSlice<'_, R, O>,
    other: BitSlice<'_, R2, O2>,
    here: &mut H,
    there: &mut H,
)
    requires same { slice_bits slice ≡ slice_bits other }
    requires state { here.old ≡ there.old }
    ensures { here.new ≡ there.new }
{
    slice.hash(here);
    other.hash(there);
}

fn copied_slice<'a, R: BitRegister, O: BitOrder<R>>(
    slice: &BitSlice<'a, R, O>,
) -> Result<BitSlice<'a, R, O>, AllocError>
    ensures { result ≡ Ok slice.now }
{
    slice.clone()
}

// The operators go bit by bit, and a slice that is shorter goes on with zeros.

fn keep_common<'a, R: BitRegister, O: BitOrder<R>, R2: BitRegister, O2: BitOrder<R2>>(
    slice: &mut BitSliceMut<'a, R, O>,
    other: BitSlice<'_, R2, O2>,
)
    ensures { BecomesBits slice.old slice.new (only_common (lent_bits slice.old) (slice_bits
        other.entry)) }
{
    *slice &= other;
}

fn add_ones<'a, R: BitRegister, O: BitOrder<R>, R2: BitRegister, O2: BitOrder<R2>>(
    slice: &mut BitSliceMut<'a, R, O>,
    other: BitSlice<'_, R2, O2>,
)
    ensures { BecomesBits slice.old slice.new (with_common (λ t s. t || s) (lent_bits slice.old)
        (slice_bits other.entry)) }
{
    *slice |= other;
}

fn turn_over_ones<'a, R: BitRegister, O: BitOrder<R>, R2: BitRegister, O2: BitOrder<R2>>(
    slice: &mut BitSliceMut<'a, R, O>,
    other: BitSlice<'_, R2, O2>,
)
    ensures { BecomesBits slice.old slice.new (with_common exclusive_or (lent_bits slice.old)
        (slice_bits other.entry)) }
{
    *slice ^= other;
}

fn turned_over<'a, R: BitRegister, O: BitOrder<R>>(
    slice: BitSliceMut<'a, R, O>,
) -> BitSliceMut<'a, R, O>
    ensures { BecomesBits slice.entry result (map not (lent_bits slice.entry)) }
{
    !slice
}

// A copy of an iterator has still to give what the iterator has.

fn copied_iterator<'a, R: BitRegister, O: BitOrder<R>>(
    bits: &Iter<'a, R, O>,
) -> Result<Iter<'a, R, O>, AllocError>
    ensures { result ≡ Ok bits.now }
{
    bits.clone()
}

fn copied_ones<'a, R: BitRegister, O: BitOrder<R>>(
    ones: &IterOnes<'a, R, O>,
) -> Result<IterOnes<'a, R, O>, AllocError>
    ensures { result ≡ Ok ones.now }
{
    ones.clone()
}

fn copied_zeros<'a, R: BitRegister, O: BitOrder<R>>(
    zeros: &IterZeros<'a, R, O>,
) -> Result<IterZeros<'a, R, O>, AllocError>
    ensures { result ≡ Ok zeros.now }
{
    zeros.clone()
}

fn copied_runs<'a, R: BitRegister, O: BitOrder<R>>(
    runs: &IterRuns<'a, R, O>,
) -> Result<IterRuns<'a, R, O>, AllocError>
    ensures { result ≡ Ok runs.now }
{
    runs.clone()
}

fn copied_windows<'a, R: BitRegister, O: BitOrder<R>>(
    windows: &Windows<'a, R, O>,
) -> Result<Windows<'a, R, O>, AllocError>
    ensures { result ≡ Ok windows.now }
{
    windows.clone()
}

fn copied_chunks<'a, R: BitRegister, O: BitOrder<R>>(
    chunks: &Chunks<'a, R, O>,
) -> Result<Chunks<'a, R, O>, AllocError>
    ensures { result ≡ Ok chunks.now }
{
    chunks.clone()
}

fn copied_chunks_exact<'a, R: BitRegister, O: BitOrder<R>>(
    chunks_exact: &ChunksExact<'a, R, O>,
) -> Result<ChunksExact<'a, R, O>, AllocError>
    ensures { result ≡ Ok chunks_exact.now }
{
    chunks_exact.clone()
}

fn copied_rchunks<'a, R: BitRegister, O: BitOrder<R>>(
    rchunks: &RChunks<'a, R, O>,
) -> Result<RChunks<'a, R, O>, AllocError>
    ensures { result ≡ Ok rchunks.now }
{
    rchunks.clone()
}

// Why a text is refused is its case and its number.

fn equal_reasons(here: TextError, there: TextError) -> bool
    ensures { IsTrue result ↔ (here ≡ there) }
{
    here == there
}

fn copied_reason(reason: &TextError) -> Result<TextError, AllocError>
    ensures { result ≡ Ok reason.now }
{
    reason.clone()
}
