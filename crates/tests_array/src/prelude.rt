//! The names that one line brings in, of arrays and of the layers under them.
//!
//! What each of the line's orders and operators does is proved, as the values that a test compares
//! would be the same of one under another's name. Of each other name the type, or the trait, is the
//! one of its module: each function hands on what it is given, under both names.

ghost use Rattle.std.specs.Prelude.{◌≡◌, ◌-◌, ◌<◌, ◌&&◌, ◌||◌, ℕ, not};
ghost use Rattle.bitvec.specs.Digit.{digit, exclusive_or};

use bitvec_array::array;
use bitvec_array::prelude::*;
use bitvec_slice::slice;
use std::marker::PhantomData;
use tests_names::names::{
    Commands, Indices, Iterators, Parts, PartsMut, Places, Slices, have_constants, have_traits,
};

fn position_in_lsb0<R: BitRegister>(index: BitIdx<R>) -> BitPos<R>
    ensures { result ≡ index }
{
    <Lsb0 as BitAt<R>>::at(index)
}

fn position_in_msb0<R: BitRegister>(index: BitIdx<R>) -> BitPos<R>
    ensures { result ≡ R.MASK - index }
{
    <Msb0 as BitAt<R>>::at(index)
}

fn position_in_local_bits<R: BitRegister>(index: BitIdx<R>) -> BitPos<R>
    ensures { result ≡ index }
{
    <LocalBits as BitAt<R>>::at(index)
}

fn and_of_words<R: BitRegister>(old: R, with: R) -> R
    ensures { (p : ℕ) → p < R.BITS → digit (R.number result) p
        ≡ (digit (R.number old) p && digit (R.number with) p) }
{
    And::word(old, with)
}

fn or_of_words<R: BitRegister>(old: R, with: R) -> R
    ensures { (p : ℕ) → p < R.BITS → digit (R.number result) p
        ≡ (digit (R.number old) p || digit (R.number with) p) }
{
    Or::word(old, with)
}

fn xor_of_words<R: BitRegister>(old: R, with: R) -> R
    ensures { (p : ℕ) → p < R.BITS → digit (R.number result) p
        ≡ exclusive_or (digit (R.number old) p) (digit (R.number with) p) }
{
    Xor::word(old, with)
}

fn and_not_of_words<R: BitRegister>(old: R, with: R) -> R
    ensures { (p : ℕ) → p < R.BITS → digit (R.number result) p
        ≡ (digit (R.number old) p && not (digit (R.number with) p)) }
{
    AndNot::word(old, with)
}

fn arrays<O: BitOrder<usize>, const N: usize>(
    of: PhantomData<BitArray<O, N>>,
) -> PhantomData<array::BitArray<O, N>> {
    of
}

fn indices<R: BitRegister>(
    of: PhantomData<
        (
            BitIdx<R>,
            BitIdxError<R>,
            BitEnd<R>,
            BitPos<R>,
            BitSel<R>,
            BitMask<R>,
            BitElement<R>,
        ),
    >,
) -> PhantomData<Indices<R>> {
    of
}

fn places<R: BitRegister, O>(
    of: PhantomData<
        (
            BitPtr<R, O>,
            BitPtrRange<R, O>,
            BitSpan<R, O>,
            BitSpanError<R>,
        ),
    >,
) -> PhantomData<Places<R, O>> {
    of
}

fn parts<'a, R: BitRegister, O>(
    of: PhantomData<
        (
            Domain<'a, R, O>,
            BitDomain<'a, R, O>,
            PartialElement<'a, R, O>,
            BitWords<'a, R, O>,
        ),
    >,
) -> PhantomData<Parts<'a, R, O>> {
    of
}

fn parts_for_writing<'a, R: BitRegister, O>(
    of: PhantomData<
        (
            DomainMut<'a, R, O>,
            BitDomainMut<'a, R, O>,
            PartialElementMut<'a, R, O>,
            BitWordsMut<'a, R, O>,
        ),
    >,
) -> PhantomData<PartsMut<'a, R, O>> {
    of
}

fn commands<R>(of: PhantomData<(Command<R>, Request<R>, Reply<R>)>) -> PhantomData<Commands<R>> {
    of
}

fn slices<'a, R: BitRegister, O: BitOrder<R>>(
    of: PhantomData<(BitSlice<'a, R, O>, TextError)>,
) -> PhantomData<Slices<'a, R, O>> {
    of
}

fn slice_for_writing<'a, R: BitRegister, O: BitOrder<R>>(
    of: BitSliceMut<'a, R, O>,
) -> slice::BitSliceMut<'a, R, O> {
    of
}

fn iterators<'a, R: BitRegister, O: BitOrder<R>>(
    of: PhantomData<
        (
            Iter<'a, R, O>,
            IterOnes<'a, R, O>,
            IterZeros<'a, R, O>,
            IterRuns<'a, R, O>,
            Windows<'a, R, O>,
            Chunks<'a, R, O>,
            ChunksExact<'a, R, O>,
            RChunks<'a, R, O>,
        ),
    >,
) -> PhantomData<Iterators<'a, R, O>> {
    of
}

// The traits.

fn traits<
    R: BitRegister,
    A: BitAt<R>,
    B: OrderCandidate<R>,
    C: BitOrder<R>,
    D: Sequential<R>,
    N: SignedNumber,
    F: Combine,
    H: ReadBits<R, C>,
>() {
    have_traits::<R, A, B, C, D, N, F, H>()
}

fn constants<A: Limits, B: MaskLimits, C: Dangling, D: EmptyRange, E: SpanLimits>() {
    have_constants::<A, B, C, D, E>()
}

fn has_zeros<Z: array::ZeroArray>() {}

fn zeros<Z: ZeroArray>() {
    has_zeros::<Z>()
}

// The traits of constants are those by which the constants are read.
#[test]
fn one_line_serves(rt: HostRuntime) {
    assert_eq!(rt; BitIdx::<u8>::MAX.into_inner(), 7);
    assert_eq!(rt; BitMask::<u16>::ALL.into_inner(), 0xFFFF);
    assert_eq!(rt; BitPtr::<u8, Msb0>::DANGLING.address(), 0);
    assert!(rt; BitPtrRange::<u8, LocalBits>::EMPTY.is_empty());
    assert!(rt; BitSpan::<u8, Lsb0>::EMPTY.is_empty());
    assert!(rt; BitArray::<Msb0, 2>::ZERO.not_any());
}
