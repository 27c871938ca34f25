//! The names that one line brings in, and what each stands for.
//!
//! Of an order and of an operator a contract says what the name does. Of each other name a function
//! takes what the line calls so, and hands it on as what its module calls so: another item under
//! the name would be another type or trait.

ghost use Rattle.std.specs.Prelude.{◌≡◌, ◌-◌, ◌<◌, ◌&&◌, ◌||◌, ℕ, not};
ghost use Rattle.bitvec.specs.Digit.{digit, exclusive_or};

use bitvec::ptr::{range, single, span};
use bitvec::{index, mem, order};
use bitvec_slice::{field, slice};
use bitvec_stream::prelude::*;
use bitvec_stream::{error, reader, writer};
use std::marker::PhantomData;
use tests_names::names::{
    Commands, Indices, Iterators, Parts, PartsMut, Places, Slices, have_traits,
};

// The orders and the operators.

fn position_in_lsb0<R: BitRegister>(index: BitIdx<R>) -> BitPos<R>
    ensures { result ≡ index }
{
    <Lsb0 as BitAt<R>>::at(index)
}

fn position_in_msb0<R: BitRegister>(index: BitIdx<R>) -> BitPos<R>
    ensures { result ≡ R.MASK - index }
{
    <Msb0 as BitAt<R>>::at(index)
}

fn position_in_local_bits<R: BitRegister>(index: BitIdx<R>) -> BitPos<R>
    ensures { result ≡ index }
{
    <LocalBits as BitAt<R>>::at(index)
}

fn and_of_words<R: BitRegister>(old: R, with: R) -> R
    ensures { (p : ℕ) → p < R.BITS → digit (R.number result) p
        ≡ (digit (R.number old) p && digit (R.number with) p) }
{
    And::word(old, with)
}

fn or_of_words<R: BitRegister>(old: R, with: R) -> R
    ensures { (p : ℕ) → p < R.BITS → digit (R.number result) p
        ≡ (digit (R.number old) p || digit (R.number with) p) }
{
    Or::word(old, with)
}

fn xor_of_words<R: BitRegister>(old: R, with: R) -> R
    ensures { (p : ℕ) → p < R.BITS → digit (R.number result) p
        ≡ exclusive_or (digit (R.number old) p) (digit (R.number with) p) }
{
    Xor::word(old, with)
}

fn and_not_of_words<R: BitRegister>(old: R, with: R) -> R
    ensures { (p : ℕ) → p < R.BITS → digit (R.number result) p
        ≡ (digit (R.number old) p && not (digit (R.number with) p)) }
{
    AndNot::word(old, with)
}

// The refusals.

fn read_error(error: ReadError) -> error::ReadError
    ensures { result ≡ error }
{
    error
}

fn write_error(error: WriteError) -> error::WriteError
    ensures { result ≡ error }
{
    error
}

// The other types.

fn reader_type<'a, R: BitRegister, O: BitOrder<R>>(
    of: PhantomData<BitReader<'a, R, O>>,
) -> PhantomData<reader::BitReader<'a, R, O>> {
    of
}

fn writer_type<'a, R: BitRegister, O: BitOrder<R>>(
    of: BitWriter<'a, R, O>,
) -> writer::BitWriter<'a, R, O> {
    of
}

fn indices<R: BitRegister>(
    of: PhantomData<
        (
            BitIdx<R>,
            BitIdxError<R>,
            BitEnd<R>,
            BitPos<R>,
            BitSel<R>,
            BitMask<R>,
            BitElement<R>,
        ),
    >,
) -> PhantomData<Indices<R>> {
    of
}

fn places<R: BitRegister, O>(
    of: PhantomData<
        (
            BitPtr<R, O>,
            BitPtrRange<R, O>,
            BitSpan<R, O>,
            BitSpanError<R>,
        ),
    >,
) -> PhantomData<Places<R, O>> {
    of
}

fn parts<'a, R: BitRegister, O>(
    of: PhantomData<
        (
            Domain<'a, R, O>,
            BitDomain<'a, R, O>,
            PartialElement<'a, R, O>,
            BitWords<'a, R, O>,
        ),
    >,
) -> PhantomData<Parts<'a, R, O>> {
    of
}

fn parts_for_writing<'a, R: BitRegister, O>(
    of: PhantomData<
        (
            DomainMut<'a, R, O>,
            BitDomainMut<'a, R, O>,
            PartialElementMut<'a, R, O>,
            BitWordsMut<'a, R, O>,
        ),
    >,
) -> PhantomData<PartsMut<'a, R, O>> {
    of
}

fn commands<R>(of: PhantomData<(Command<R>, Request<R>, Reply<R>)>) -> PhantomData<Commands<R>> {
    of
}

fn slices<'a, R: BitRegister, O: BitOrder<R>>(
    of: PhantomData<(BitSlice<'a, R, O>, TextError)>,
) -> PhantomData<Slices<'a, R, O>> {
    of
}

fn slice_for_writing<'a, R: BitRegister, O: BitOrder<R>>(
    of: BitSliceMut<'a, R, O>,
) -> slice::BitSliceMut<'a, R, O> {
    of
}

fn iterators<'a, R: BitRegister, O: BitOrder<R>>(
    of: PhantomData<
        (
            Iter<'a, R, O>,
            IterOnes<'a, R, O>,
            IterZeros<'a, R, O>,
            IterRuns<'a, R, O>,
            Windows<'a, R, O>,
            Chunks<'a, R, O>,
            ChunksExact<'a, R, O>,
            RChunks<'a, R, O>,
        ),
    >,
) -> PhantomData<Iterators<'a, R, O>> {
    of
}

// The traits: what has the module's has the line's, and the other way round.

fn has_constants<A: Limits, B: MaskLimits, C: Dangling, D: EmptyRange, E: SpanLimits>() {}

fn constants<
    A: index::Limits,
    B: index::MaskLimits,
    C: single::Dangling,
    D: range::EmptyRange,
    E: span::SpanLimits,
>() {
    has_constants::<A, B, C, D, E>()
}

fn has_orders<
    R: mem::BitRegister,
    A: BitAt<R>,
    B: OrderCandidate<R>,
    C: BitOrder<R>,
    D: Sequential<R>,
>() {}

fn orders<
    R: mem::BitRegister,
    A: order::BitAt<R>,
    B: order::OrderCandidate<R>,
    C: order::BitOrder<R>,
    D: field::Sequential<R>,
>() {
    has_orders::<R, A, B, C, D>()
}

fn traits<
    R: BitRegister,
    A: BitAt<R>,
    B: OrderCandidate<R>,
    C: BitOrder<R>,
    D: Sequential<R>,
    N: SignedNumber,
    F: Combine,
    H: ReadBits<R, C>,
>() {
    have_traits::<R, A, B, C, D, N, F, H>()
}
