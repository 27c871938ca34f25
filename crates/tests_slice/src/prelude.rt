//! The names that one line of the slices' prelude brings in.
//!
//! Which order, operator, iterator, type and trait each of the line's names stands for is proved:
//! of one under another's name the contract would be false, or the type another one.

ghost use Rattle.std.specs.Prelude.{◌≡◌, ◌-◌, ◌<◌, ◌≤◌, ◌&&◌, ◌||◌, ◌%◌, ℕ, ℤ, not, false};
ghost use Rattle.std.specs.Prelude.{length, take, IfErr};
ghost use Rattle.bitvec.specs.Digit.{digit, exclusive_or};
ghost use Rattle.bitvec.specs.Truths.{ones_in};
ghost use Rattle.bitvec_slice.specs.BitSlice.{slice_memory, slice_span, slice_len, slice_bits};
ghost use Rattle.bitvec_slice.specs.BitSliceMut.{lent_span, lent_len, lent_bits};
ghost use Rattle.bitvec_slice.specs.Bits.{ones_between, zeros_between};
ghost use Rattle.bitvec_slice.specs.Field.{field_number};
ghost use Rattle.bitvec_slice.specs.Iter.{iter_left};
ghost use Rattle.bitvec_slice.specs.Ones.{ones_left, zeros_left};
ghost use Rattle.bitvec_slice.specs.PieceIters.{windows_left, chunks_left, chunks_exact_left};
ghost use Rattle.bitvec_slice.specs.PieceIters.{rchunks_left};
ghost use Rattle.bitvec_slice.specs.Pieces.{windows_of, chunks_of, rchunks_of};
ghost use Rattle.bitvec_slice.specs.Runs.{runs_left};
ghost use Rattle.bitvec_slice.specs.Signed.{signed_of};
ghost use Rattle.bitvec_slice.specs.Stretches.{runs_from};
ghost use Rattle.bitvec_slice.specs.TextError.{IsRefusal};

use bitvec_slice::prelude::*;
use std::marker::PhantomData;

// The orders, by the position of an index.

fn position_in_lsb0<R: BitRegister>(index: BitIdx<R>) -> BitPos<R>
    ensures { result ≡ index }
{
    <Lsb0 as BitAt<R>>::at(index)
}

fn position_in_msb0<R: BitRegister>(index: BitIdx<R>) -> BitPos<R>
    ensures { result ≡ R.MASK - index }
{
    <Msb0 as BitAt<R>>::at(index)
}

fn position_in_local_bits<R: BitRegister>(index: BitIdx<R>) -> BitPos<R>
    ensures { result ≡ index }
{
    <LocalBits as BitAt<R>>::at(index)
}

// The operators, by the digits of two words.

fn and_of_words<R: BitRegister>(old: R, with: R) -> R
    ensures { (p : ℕ) → p < R.BITS → digit (R.number result) p
        ≡ (digit (R.number old) p && digit (R.number with) p) }
{
    And::word(old, with)
}

fn or_of_words<R: BitRegister>(old: R, with: R) -> R
    ensures { (p : ℕ) → p < R.BITS → digit (R.number result) p
        ≡ (digit (R.number old) p || digit (R.number with) p) }
{
    Or::word(old, with)
}

fn xor_of_words<R: BitRegister>(old: R, with: R) -> R
    ensures { (p : ℕ) → p < R.BITS → digit (R.number result) p
        ≡ exclusive_or (digit (R.number old) p) (digit (R.number with) p) }
{
    Xor::word(old, with)
}

fn and_not_of_words<R: BitRegister>(old: R, with: R) -> R
    ensures { (p : ℕ) → p < R.BITS → digit (R.number result) p
        ≡ (digit (R.number old) p && not (digit (R.number with) p)) }
{
    AndNot::word(old, with)
}

// A slice for reading, and its iterators, each by what it has still to give.

fn slice_of<'a, R: BitRegister, O: BitOrder<R>>(
    slice: bitvec_slice::slice::BitSlice<'a, R, O>,
) -> BitSlice<'a, R, O>
    ensures memory { slice_memory result ≡ slice_memory slice.entry }
    ensures span { slice_span result ≡ slice_span slice.entry }
{
    slice
}

fn bits_left<'a, R: BitRegister, O: BitOrder<R>>(slice: BitSlice<'a, R, O>) -> Iter<'a, R, O>
    ensures { iter_left result ≡ slice_bits slice.entry }
{
    slice.iter()
}

fn ones_of<'a, R: BitRegister, O: BitOrder<R>>(slice: BitSlice<'a, R, O>) -> IterOnes<'a, R, O>
    ensures { let bits = slice_bits slice.entry
        in ones_left result ≡ ones_between bits 0 (length bits) }
{
    slice.iter_ones()
}

fn zeros_of<'a, R: BitRegister, O: BitOrder<R>>(slice: BitSlice<'a, R, O>) -> IterZeros<'a, R, O>
    ensures { let bits = slice_bits slice.entry
        in zeros_left result ≡ zeros_between bits 0 (length bits) }
{
    slice.iter_zeros()
}

fn runs_of<'a, R: BitRegister, O: BitOrder<R>>(slice: BitSlice<'a, R, O>) -> IterRuns<'a, R, O>
    ensures { runs_left result ≡ runs_from (slice_bits slice.entry) 0 }
{
    slice.iter_runs()
}

fn pairs<'a, R: BitRegister, O: BitOrder<R>>(slice: BitSlice<'a, R, O>) -> Windows<'a, R, O>
    ensures { windows_left result ≡ windows_of 2 (slice_bits slice.entry) }
{
    slice.windows(2)
}

fn threes<'a, R: BitRegister, O: BitOrder<R>>(slice: BitSlice<'a, R, O>) -> Chunks<'a, R, O>
    ensures { chunks_left result ≡ chunks_of 3 (slice_bits slice.entry) }
{
    slice.chunks(3)
}

fn whole_threes<'a, R: BitRegister, O: BitOrder<R>>(
    slice: BitSlice<'a, R, O>,
) -> ChunksExact<'a, R, O>
    ensures { let bits = slice_bits slice.entry in chunks_exact_left result
        ≡ chunks_of 3 (take (length bits - length bits % 3) bits) }
{
    slice.chunks_exact(3)
}

fn threes_from_the_end<'a, R: BitRegister, O: BitOrder<R>>(
    slice: BitSlice<'a, R, O>,
) -> RChunks<'a, R, O>
    ensures { rchunks_left result ≡ rchunks_of 3 (slice_bits slice.entry) }
{
    slice.rchunks(3)
}

// A slice for writing, why it refuses a text, and numbers in it.

fn lent_slice<'a, R: BitRegister, O: BitOrder<R>>(
    slice: bitvec_slice::slice::BitSliceMut<'a, R, O>,
) -> BitSliceMut<'a, R, O>
    ensures span { lent_span result ≡ lent_span slice.entry }
    ensures bits { lent_bits result ≡ lent_bits slice.entry }
{
    slice
}

fn ones_of_loan<R: BitRegister, O: BitOrder<R>>(slice: &BitSliceMut<'_, R, O>) -> usize
    ensures { result ≡ ones_in (lent_bits slice.now) }
{
    slice.count_ones()
}

fn ones_of_holder<R: BitRegister, O: BitOrder<R>, B: ReadBits<R, O>>(holder: &B) -> usize
    ensures { result ≡ ones_in (B.bits holder.now) }
{
    holder.count_ones()
}

fn refusal<'a, R: BitRegister, O: BitOrder<R>>(
    slice: &mut BitSliceMut<'a, R, O>,
    text: &str,
) -> Result<(), TextError>
    ensures { IfErr result (IsRefusal (lent_len slice.old) text.now) }
{
    slice.copy_from_text(text)
}

fn number_in<R: BitRegister, O: Sequential<R>, N: BitRegister>(slice: BitSlice<'_, R, O>) -> N
    requires { slice_len slice ≤ N.BITS }
    ensures { N.number result
        ≡ field_number false R.BITS O.RISES (slice_span slice.entry).head (slice_bits slice.entry) }
{
    slice.load_le()
}

fn signed_in<R: BitRegister, O: Sequential<R>, N: SignedNumber>(slice: BitSlice<'_, R, O>) -> N
    requires { slice_len slice ≤ N.BITS }
    ensures { let bits = slice_bits slice.entry in N.number result ≡ signed_of (length bits)
        (field_number false R.BITS O.RISES (slice_span slice.entry).head bits) }
{
    slice.load_signed_le()
}

// Indices, ends, positions and masks of a word.

fn numbers(
    index: BitIdx,
    end: BitEnd,
    position: BitPos,
    error: BitIdxError,
) -> (
    bitvec::index::BitIdx,
    bitvec::index::BitEnd,
    bitvec::index::BitPos,
    bitvec::index::BitIdxError,
)
    ensures index { result.0 ≡ index }
    ensures end { result.1 ≡ end }
    ensures position { result.2 ≡ position }
    ensures error { result.3 ≡ error }
{
    (index, end, position, error)
}

fn words(
    element: BitElement,
    selector: BitSel,
    mask: BitMask,
) -> (
    bitvec::mem::BitElement,
    bitvec::index::BitSel,
    bitvec::index::BitMask,
)
    ensures element { result.0 ≡ element }
    ensures selector { result.1 ≡ selector }
    ensures mask { result.2 ≡ mask }
{
    (element, selector, mask)
}

// Places, and why a span is refused.

fn places(
    pointer: BitPtr,
    range: BitPtrRange,
    span: BitSpan,
    error: BitSpanError<u8>,
) -> (
    bitvec::ptr::single::BitPtr,
    bitvec::ptr::range::BitPtrRange,
    bitvec::ptr::span::BitSpan,
    bitvec::ptr::span::BitSpanError<u8>,
)
    ensures pointer { result.0 ≡ pointer }
    ensures range { result.1 ≡ range }
    ensures span { result.2 ≡ span }
    ensures error { result.3 ≡ error }
{
    (pointer, range, span, error)
}

// Commands, requests and replies.

fn commands(
    command: Command<u8>,
    request: Request<u8>,
    reply: Reply<u8>,
) -> (
    bitvec::run::Command<u8>,
    bitvec::run::Request<u8>,
    bitvec::run::Reply<u8>,
)
    ensures command { result.0 ≡ command }
    ensures request { result.1 ≡ request }
    ensures reply { result.2 ≡ reply }
{
    (command, request, reply)
}

// The words that a span meets, and the bits in them: each name is that type's alone.

fn domain<'a>(of: PhantomData<Domain<'a>>) -> PhantomData<bitvec::domain::Domain<'a>> {
    of
}

fn domain_mut<'a>(of: PhantomData<DomainMut<'a>>) -> PhantomData<bitvec::domain::DomainMut<'a>> {
    of
}

fn bit_domain<'a>(of: PhantomData<BitDomain<'a>>) -> PhantomData<bitvec::domain::BitDomain<'a>> {
    of
}

fn bit_domain_mut<'a>(
    of: PhantomData<BitDomainMut<'a>>,
) -> PhantomData<bitvec::domain::BitDomainMut<'a>> {
    of
}

fn part<'a>(
    of: PhantomData<PartialElement<'a, u8, Lsb0>>,
) -> PhantomData<bitvec::domain::PartialElement<'a, u8, Lsb0>> {
    of
}

fn part_mut<'a>(
    of: PhantomData<PartialElementMut<'a, u8, Lsb0>>,
) -> PhantomData<bitvec::domain::PartialElementMut<'a, u8, Lsb0>> {
    of
}

fn stretch<'a>(
    of: PhantomData<BitWords<'a, u8, Lsb0>>,
) -> PhantomData<bitvec::domain::BitWords<'a, u8, Lsb0>> {
    of
}

fn stretch_mut<'a>(
    of: PhantomData<BitWordsMut<'a, u8, Lsb0>>,
) -> PhantomData<bitvec::domain::BitWordsMut<'a, u8, Lsb0>> {
    of
}

// The traits: an order is a candidate, and each kind of number or place has its constants.

fn selected<R: BitRegister, O: BitOrder<R>>(index: BitIdx<R>) -> BitSel<R>
    ensures { result ≡ O.select_of index }
{
    <O as OrderCandidate<R>>::select(index)
}

fn combined<C: Combine>(old: u8, with: u8) -> u8
    ensures { (p : ℕ) → p < 8 → digit result p ≡ C.of (digit old p) (digit with p) }
{
    C::word(old, with)
}

#[test]
fn one_line_serves(rt: HostRuntime) {
    let pointer = <BitPtr<u8, Msb0> as Dangling>::DANGLING;
    assert_eq!(rt;
        (<BitIdx<u8> as Limits>::MAX.into_inner(), pointer.address()),
        (7, 0)
    );
    assert_eq!(rt; <BitMask<u16> as MaskLimits>::ALL.into_inner(), 0xFFFF);
    assert_eq!(rt;
        [
            <BitPtrRange<u8, LocalBits> as EmptyRange>::EMPTY.is_empty(),
            <BitSpan<u8, Lsb0> as SpanLimits>::EMPTY.is_empty()
        ],
        [true; 2]
    );
    assert_eq!(rt;
        (combined::<And>(0x0F, 0x3C), combined::<AndNot>(0x0F, 0x3C)),
        (0x0C, 0x03)
    );
    let memory = [0x4Du8];
    let slice = BitSlice::<u8, Msb0>::all_unchecked(&memory);
    assert_eq!(rt;
        (number_in::<_, _, u8>(slice), signed_in::<_, _, i8>(slice)),
        (0x4D, 0x4D)
    );
}
