//! Numbers in slices of bits.
//!
//! A slice of at most a number's width is loaded as that number, and a number is stored into one.
//! The bits that a word of the memory has of the slice are digits of the number as they are digits
//! of the word, in the same order. Little-endian has those of the first word lowest, big-endian
//! highest.

ghost use Rattle.std.specs.Prelude.{◌≡◌, ℕ, ◌+◌, ◌-◌, ◌*◌, ◌<◌, ◌≤◌, ◌==◌, ◌&&◌, ◌^◌, ◌%◌};
ghost use Rattle.std.specs.Prelude.{Bool, true, false, not, nat_lt, nat_abs, pos, ◌≤ℤ◌};
ghost use Rattle.std.specs.Prelude.{length, refl};
ghost use Rattle.bitvec.specs.BitSpan.{span_of, list_by, Becomes};
ghost use Rattle.bitvec.specs.Digit.{digit};
ghost use Rattle.bitvec.specs.Place.{words_met};
ghost use Rattle.bitvec.specs.Span.{Fits, element, with_word};
ghost use Rattle.bitvec_slice.specs.Field.{IsSequential, stretch_start, stretch_end};
ghost use Rattle.bitvec_slice.specs.Field.{digit_place, field_number, field_list, HasFieldDigits};
ghost use Rattle.bitvec_slice.specs.Field.{part_place, part_shift, IsWordPart, IsPlacedPart};
ghost use Rattle.bitvec_slice.specs.Words.{merged_digit, digit_from, HasElements, IsPartMask};

mod digits;
mod signed;

pub use self::signed::SignedNumber;
use crate::slice::{BitSlice, BitSliceMut};
use bitvec::mem::BitRegister;
use bitvec::order::{BitOrder, Lsb0, Msb0};
use bitvec::ptr::span::BitSpan;

/// An order whose positions rise with the index, or fall with it.
///
/// So the bits that a word has of a slice lie side by side in it, in their order or the other way.
pub trait Sequential<R: BitRegister>: BitOrder<R> {
    /// Whether positions rise with the index.
    const RISES: bool;

    ghost RISES: { Bool };

    ghost sequence: { IsSequential R.BITS RISES Self.at_of };
}

impl<R: BitRegister> Sequential<R> for Lsb0 {
    const RISES: bool = true;

    ghost RISES = { true };

    ghost sequence = { record { positions = λ i h. refl } };
}

impl<R: BitRegister> Sequential<R> for Msb0 {
    ghost use Rattle.std.proofs.Common.{ap};

    const RISES: bool = false;

    ghost RISES = { false };

    ghost sequence = { record { positions = λ i h. ap (λ n. n - i) R.mask_is_greatest_index } };
}

// How many bits lie before the `k`-th word that a span meets, from the first bit of the first word.
#[inline(always)]
fn before<R: BitRegister, O>(span: BitSpan<R, O>, k: usize) -> usize
    requires { k < words_met R.BITS (span_of span).head (span_of span).len }
    ensures value { result ≡ k * R.BITS }
    ensures below { result < (span_of span).head + (span_of span).len }
{
    k * usize::from(R::BITS)
}

// The numbers of the bits that the `k`-th word has of a span: the first, and one past the last.
#[inline(always)]
fn stretch<R: BitRegister, O>(span: BitSpan<R, O>, k: usize) -> (usize, usize)
    requires { k < words_met R.BITS (span_of span).head (span_of span).len }
    ensures start { result.0 ≡ stretch_start R.BITS (span_of span).head k }
    ensures end { result.1 ≡ stretch_end R.BITS (span_of span).head (span_of span).len k }
{
    let width = usize::from(R::BITS);
    let head = usize::from(span.head().into_inner());
    let before = before(span, k);
    let start = before.saturating_sub(head);
    let end = before + width - head;
    let len = span.len();
    (start, if end < len { end } else { len })
}

// How far up in its word the least digit of the `k`-th word's part lies.
#[inline(always)]
fn shift<R: BitRegister, O: Sequential<R>>(span: BitSpan<R, O>, k: usize) -> u8
    requires { k < words_met R.BITS (span_of span).head (span_of span).len }
    ensures value { result ≡ part_shift O.RISES R.BITS (span_of span).head (span_of span).len k }
    ensures below { result < R.BITS }
{
    if O::RISES {
        if k == 0 { span.head().into_inner() } else { 0 }
    } else {
        let width = usize::from(R::BITS);
        let head = usize::from(span.head().into_inner());
        let (_, end) = stretch(span, k);
        (before(span, k) + width - (head + end)) as u8
    }
}

// How far up in a number the part of the `k`-th word lies.
#[inline(always)]
fn place<R: BitRegister, O, N: BitRegister>(span: BitSpan<R, O>, k: usize, big: bool) -> u8
    requires met { k < words_met R.BITS (span_of span).head (span_of span).len }
    requires small { (span_of span).len ≤ N.BITS }
    ensures value { result ≡ part_place big R.BITS (span_of span).head (span_of span).len k }
    ensures below { result < N.BITS }
{
    let (start, end) = stretch(span, k);
    if big {
        (span.len() - end) as u8
    } else {
        start as u8
    }
}

// The number whose lowest `count` digits are one, and whose others are zero.
#[inline(always)]
fn low_ones<R: BitRegister>(count: usize) -> R
    requires some { 0 < count }
    requires within { count ≤ R.BITS }
    ensures below { R.number result < 2 ^ R.BITS }
    ensures digits { (p : ℕ) → p < R.BITS → digit (R.number result) p ≡ nat_lt p count }
{
    R::ALL.shr(R::BITS - count as u8)
}

// The `k`-th word that a span meets, whole.
#[inline(always)]
pub(crate) fn word_met<R: BitRegister, O: BitOrder<R>>(
    span: BitSpan<R, O>,
    memory: &[R],
    k: usize,
) -> R
    requires fits { Fits R.BITS (span_of span) (length memory.now) }
    requires met { k < words_met R.BITS (span_of span).head (span_of span).len }
    ensures { HasElements R.BITS O.at_of (span_of span) k (R.number result) (element (list_by span
        O.at_of memory.now)) }
{
    let words = &memory[span.address() as usize..];
    words[k]
}

// The part of the `k`-th word that a span meets, as a number.
#[inline(always)]
fn load_part<R: BitRegister, O: Sequential<R>>(span: BitSpan<R, O>, memory: &[R], k: usize) -> R
    requires fits { Fits R.BITS (span_of span) (length memory.now) }
    requires met { k < words_met R.BITS (span_of span).head (span_of span).len }
    ensures { IsWordPart O.RISES R.BITS (span_of span).head (span_of span).len k (element (list_by
        span O.at_of memory.now)) (R.number result) }
{
    let (start, end) = stretch(span, k);
    let word = word_met(span, memory, k);
    low_ones::<R>(end - start).and(word.shr(shift::<R, O>(span, k)))
}

// The same where the part lies in the number of the whole span.
#[inline(always)]
fn load_digits<R: BitRegister, O: Sequential<R>, N: BitRegister>(
    span: BitSpan<R, O>,
    memory: &[R],
    k: usize,
    big: bool,
) -> N
    requires fits { Fits R.BITS (span_of span) (length memory.now) }
    requires met { k < words_met R.BITS (span_of span).head (span_of span).len }
    requires small { (span_of span).len ≤ N.BITS }
    ensures part { IsPlacedPart big R.BITS O.RISES (span_of span).head (span_of span).len k (element
        (list_by span O.at_of memory.now)) (N.number result) }
    ensures below { N.number result < 2 ^ N.BITS }
{
    let part = load_part(span, memory, k).to_u128();
    N::from_u128(part)
        .unwrap()
        .shl(place::<R, O, N>(span, k, big))
}

// The number of a span as `load` gives it, whatever number of words the span meets.
#[inline(never)]
fn load_words<R: BitRegister, O: Sequential<R>, N: BitRegister>(
    span: BitSpan<R, O>,
    memory: &[R],
    big: bool,
) -> N
    requires fits { Fits R.BITS (span_of span) (length memory.now) }
    requires small { (span_of span).len ≤ N.BITS }
    ensures { N.number result ≡ field_number big R.BITS O.RISES (span_of span).head
        (list_by span O.at_of memory.now) }
{
    let mut number = N::ZERO;
    for k in 0..span.elements() {
        number = number.or(load_digits(span, memory, k, big));
    }
    number
}

// The digits of `low` from `by` on, and above them those of `high`.
#[inline(always)]
fn merged<R: BitRegister>(low: R, high: R, by: u8) -> R
    requires some { 0 < by }
    requires most { by < R.BITS }
    ensures below { R.number result < 2 ^ R.BITS }
    ensures digits { (p : ℕ) → p < R.BITS → digit (R.number result) p
        ≡ merged_digit R.BITS by (R.number low) (R.number high) p }
{
    low.shr(by).or(high.shl(R::BITS - by))
}

// The digits of a span of at most a word's bits in their order, from the lowest on. Above them
// stands what lies beside them in their words.
#[inline(always)]
fn load_joined<R: BitRegister, O: Sequential<R>>(span: BitSpan<R, O>, memory: &[R]) -> R
    requires fits { Fits R.BITS (span_of span) (length memory.now) }
    requires some { 0 < (span_of span).len }
    requires small { (span_of span).len ≤ R.BITS }
    ensures { (j : ℕ) → j < (span_of span).len → digit (R.number result)
        (digit_place (not O.RISES) R.BITS O.RISES (span_of span).head (span_of span).len j)
        ≡ element (list_by span O.at_of memory.now) j }
{
    let width = R::BITS;
    let head = span.head().into_inner();
    let end = head + span.len() as u8;
    let first = word_met(span, memory, 0);
    if end <= width {
        return if O::RISES {
            first.shr(head)
        } else {
            first.shr(width - end)
        };
    }
    let second = word_met(span, memory, 1);
    if O::RISES {
        merged(first, second, head)
    } else {
        merged(second, first, width - (end - width))
    }
}

// The number of a span of at most a word's bits, which has its digits in their order.
#[inline(always)]
fn load_near<R: BitRegister, O: Sequential<R>, N: BitRegister>(
    span: BitSpan<R, O>,
    memory: &[R],
) -> N
    requires fits { Fits R.BITS (span_of span) (length memory.now) }
    requires some { 0 < (span_of span).len }
    requires near { (span_of span).len ≤ R.BITS }
    requires small { (span_of span).len ≤ N.BITS }
    ensures { N.number result ≡ field_number (not O.RISES) R.BITS O.RISES (span_of span).head
        (list_by span O.at_of memory.now) }
{
    let digits = low_ones::<R>(span.len()).and(load_joined(span, memory));
    N::from_u128(digits.to_u128()).unwrap()
}

// Word `k` of a memory from a span's first word on, whole.
#[inline(always)]
fn word_from<R: BitRegister, O: BitOrder<R>>(span: BitSpan<R, O>, memory: &[R], k: usize) -> R
    requires first { pos 0 ≤ℤ (span_of span).word }
    requires there { nat_abs (span_of span).word + k < length memory.now }
    ensures { HasElements R.BITS O.at_of (span_of span) k (R.number result) (element (list_by span
        O.at_of memory.now)) }
{
    let words = &memory[span.address() as usize..];
    words[k]
}

// The number of a word of 8 bits.
#[inline(always)]
fn byte<R: BitRegister>(word: R) -> u32
    requires { R.BITS ≡ 8 }
    ensures value { result ≡ R.number word }
    ensures below { result < 256 }
{
    word.to_u128() as u32
}

// The number with the digits of four bytes side by side, those of `a` lowest.
#[inline(always)]
fn four_bytes<R: BitRegister>(a: R, b: R, c: R, d: R) -> u32
    requires { R.BITS ≡ 8 }
    ensures first { (p : ℕ) → p < 8 → digit result p ≡ digit (R.number a) p }
    ensures second { (p : ℕ) → p < 8 → digit result (8 + p) ≡ digit (R.number b) p }
    ensures third { (p : ℕ) → p < 8 → digit result (16 + p) ≡ digit (R.number c) p }
    ensures last { (p : ℕ) → p < 8 → digit result (24 + p) ≡ digit (R.number d) p }
{
    let low = byte(a) + byte(b) * 0x100;
    let high = byte(c) + byte(d) * 0x100;
    low + high * 0x1_0000
}

// The digits of a span in their order, from the lowest on, where it lies in four bytes that the
// memory has. Above them stands what lies beside them.
#[inline(always)]
fn load_four<R: BitRegister, O: Sequential<R>>(span: BitSpan<R, O>, memory: &[R]) -> u32
    requires bytes { R.BITS ≡ 8 }
    requires first { pos 0 ≤ℤ (span_of span).word }
    requires there { nat_abs (span_of span).word + 4 ≤ length memory.now }
    requires some { 0 < (span_of span).len }
    requires few { (span_of span).head + (span_of span).len ≤ 32 }
    ensures { (j : ℕ) → j < (span_of span).len → digit result
        (digit_place (not O.RISES) R.BITS O.RISES (span_of span).head (span_of span).len j)
        ≡ element (list_by span O.at_of memory.now) j }
{
    let first = word_from(span, memory, 0);
    let second = word_from(span, memory, 1);
    let third = word_from(span, memory, 2);
    let last = word_from(span, memory, 3);
    let head = span.head().into_inner();
    if O::RISES {
        return four_bytes(first, second, third, last).shr(head);
    }
    let end = head + span.len() as u8;
    four_bytes(last, third, second, first).shr(32 - end)
}

// The number of such a span, which has its digits in their order.
#[inline(always)]
fn load_bytes<R: BitRegister, O: Sequential<R>, N: BitRegister>(
    span: BitSpan<R, O>,
    memory: &[R],
) -> N
    requires bytes { R.BITS ≡ 8 }
    requires first { pos 0 ≤ℤ (span_of span).word }
    requires there { nat_abs (span_of span).word + 4 ≤ length memory.now }
    requires some { 0 < (span_of span).len }
    requires few { (span_of span).head + (span_of span).len ≤ 32 }
    requires small { (span_of span).len ≤ N.BITS }
    ensures { N.number result ≡ field_number (not O.RISES) R.BITS O.RISES (span_of span).head
        (list_by span O.at_of memory.now) }
{
    let digits = low_ones::<u32>(span.len()).and(load_four(span, memory));
    N::from_u128(digits.to_u128()).unwrap()
}

// Whether a span of bytes lies in four that its memory has.
#[inline(always)]
fn in_four_bytes<R: BitRegister, O>(span: BitSpan<R, O>, memory: &[R]) -> bool
    requires { Fits R.BITS (span_of span) (length memory.now) }
    ensures bytes { result ≡ true → R.BITS ≡ 8 }
    ensures there { result ≡ true → nat_abs (span_of span).word + 4 ≤ length memory.now }
    ensures few { result ≡ true → (span_of span).head + (span_of span).len ≤ 32 }
{
    R::BITS == 8
        && memory[span.address() as usize..].len() >= 4
        && usize::from(span.head().into_inner()) + span.len() <= 32
}

// The number of a span that meets two words or three, as `load` gives it.
#[inline(always)]
fn load_few<R: BitRegister, O: Sequential<R>, N: BitRegister>(
    span: BitSpan<R, O>,
    memory: &[R],
    elements: usize,
    big: bool,
) -> N
    requires fits { Fits R.BITS (span_of span) (length memory.now) }
    requires small { (span_of span).len ≤ N.BITS }
    requires met { elements ≡ words_met R.BITS (span_of span).head (span_of span).len }
    requires least { 2 ≤ elements }
    requires most { elements ≤ 3 }
    ensures { N.number result ≡ field_number big R.BITS O.RISES (span_of span).head
        (list_by span O.at_of memory.now) }
{
    let first: N = load_digits(span, memory, 0, big);
    let both = first.or(load_digits(span, memory, 1, big));
    if elements == 2 {
        return both;
    }
    both.or(load_digits(span, memory, 2, big))
}

// The number of a span that may meet several words, as `load` gives it.
#[inline(never)]
fn load_far<R: BitRegister, O: Sequential<R>, N: BitRegister>(
    span: BitSpan<R, O>,
    memory: &[R],
    big: bool,
) -> N
    requires fits { Fits R.BITS (span_of span) (length memory.now) }
    requires small { (span_of span).len ≤ N.BITS }
    ensures { N.number result ≡ field_number big R.BITS O.RISES (span_of span).head
        (list_by span O.at_of memory.now) }
{
    let elements = span.elements();
    if elements == 1 {
        return load_digits(span, memory, 0, big);
    }
    if elements >= 2 && elements <= 3 {
        return load_few(span, memory, elements, big);
    }
    load_words(span, memory, big)
}

// The number of a span, its first word's part lowest, or highest where `big`.
#[inline(always)]
fn load<R: BitRegister, O: Sequential<R>, N: BitRegister>(
    span: BitSpan<R, O>,
    memory: &[R],
    big: bool,
) -> N
    requires fits { Fits R.BITS (span_of span) (length memory.now) }
    requires small { (span_of span).len ≤ N.BITS }
    ensures { N.number result ≡ field_number big R.BITS O.RISES (span_of span).head
        (list_by span O.at_of memory.now) }
{
    let width = usize::from(R::BITS);
    if O::RISES != big && 0 < span.len() && span.len() <= width {
        return load_near(span, memory);
    }
    if O::RISES != big && 0 < span.len() && in_four_bytes(span, memory) {
        return load_bytes(span, memory);
    }
    load_far(span, memory, big)
}

/// The lowest `R::BITS` digits of a number as a word: what Rust's `as` makes of an integer.
///
/// Constant time. Not in the Rust crate.
///
/// # Examples
///
/// ```
/// assert_eq!(rt; low_digits::<u8, u32>(0x1234), 0x34);
/// assert_eq!(rt; low_digits::<u32, u8>(0xFF), 0xFF);
/// ```
#[inline(always)]
pub fn low_digits<R: BitRegister, N: BitRegister>(value: N) -> R
    ensures below { R.number result < 2 ^ R.BITS }
    ensures digits { (p : ℕ) → p < R.BITS
        → digit (R.number result) p ≡ digit (N.number value) p }
{
    let digits = value.to_u128() & R::ALL.to_u128();
    R::from_u128(digits).unwrap()
}

// The digits of a number that lie in the `k`-th word's part, where they lie in that word.
#[inline(always)]
fn word_digits<R: BitRegister, O: Sequential<R>, N: BitRegister>(
    span: BitSpan<R, O>,
    k: usize,
    value: N,
    big: bool,
) -> R
    requires met { k < words_met R.BITS (span_of span).head (span_of span).len }
    requires small { (span_of span).len ≤ N.BITS }
    ensures { HasElements R.BITS O.at_of (span_of span) k (R.number result) (λ j. digit (N.number
        value) (digit_place big R.BITS O.RISES (span_of span).head (span_of span).len j)) }
{
    let part = value.shr(place::<R, O, N>(span, k, big));
    low_digits::<R, N>(part).shl(shift::<R, O>(span, k))
}

// The positions of the bits that the `k`-th word has of a span, as a word whose digits there are
// one.
#[inline(always)]
fn word_mask<R: BitRegister, O: Sequential<R>>(span: BitSpan<R, O>, k: usize) -> R
    requires { k < words_met R.BITS (span_of span).head (span_of span).len }
    ensures { IsPartMask R.BITS O.at_of (span_of span) k (R.number result) }
{
    let (start, end) = stretch(span, k);
    low_ones::<R>(end - start).shl(shift::<R, O>(span, k))
}

// Puts the digits of a word that are one in a mask in their places in the `k`-th word that a span
// meets, where the mask has the span's positions there.
#[inline(always)]
pub(crate) fn put_word<R: BitRegister, O: BitOrder<R>>(
    span: BitSpan<R, O>,
    memory: &mut [R],
    k: usize,
    word: R,
    mask: R,
)
    requires fits { Fits R.BITS (span_of span) (length memory.old) }
    requires met { k < words_met R.BITS (span_of span).head (span_of span).len }
    requires mask { IsPartMask R.BITS O.at_of (span_of span) k (R.number mask) }
    ensures { (f : ℕ → Bool) → HasElements R.BITS O.at_of (span_of span) k (R.number word) f →
        Becomes span O.at_of memory.old memory.new (with_word R.BITS (span_of span).head (list_by
        span O.at_of memory.old) k f) }
{
    let place = span.address() as usize + k;
    let old = memory[place];
    memory[place] = old.and(mask.not()).or(word.and(mask));
}

// The same of a word that has no digit of one beside the mask's.
#[inline(always)]
fn put_digits<R: BitRegister, O: BitOrder<R>>(
    span: BitSpan<R, O>,
    memory: &mut [R],
    k: usize,
    word: R,
    mask: R,
)
    requires fits { Fits R.BITS (span_of span) (length memory.old) }
    requires met { k < words_met R.BITS (span_of span).head (span_of span).len }
    requires mask { IsPartMask R.BITS O.at_of (span_of span) k (R.number mask) }
    requires within { (i : ℕ) → i < R.BITS → digit (R.number mask) (O.at_of i) ≡ false
        → digit (R.number word) (O.at_of i) ≡ false }
    ensures { (f : ℕ → Bool) → HasElements R.BITS O.at_of (span_of span) k (R.number word) f →
        Becomes span O.at_of memory.old memory.new (with_word R.BITS (span_of span).head (list_by
        span O.at_of memory.old) k f) }
{
    let place = span.address() as usize + k;
    let old = memory[place];
    memory[place] = old.and(mask.not()).or(word);
}

// Makes the bits that the `k`-th word has of a span digits of a number, and changes no other bit.
#[inline(always)]
fn store_part<R: BitRegister, O: Sequential<R>, N: BitRegister>(
    span: BitSpan<R, O>,
    memory: &mut [R],
    k: usize,
    value: N,
    big: bool,
)
    requires fits { Fits R.BITS (span_of span) (length memory.old) }
    requires met { k < words_met R.BITS (span_of span).head (span_of span).len }
    requires small { (span_of span).len ≤ N.BITS }
    ensures { Becomes span O.at_of memory.old memory.new
        (with_word R.BITS (span_of span).head (list_by span O.at_of memory.old) k
        (element (field_list big R.BITS O.RISES (span_of span).head (span_of span).len
        (N.number value)))) }
{
    let word = word_digits(span, k, value, big);
    put_word(span, memory, k, word, word_mask(span, k));
}

// The same of every word that a span meets, one after the other.
#[inline(never)]
fn store_words<R: BitRegister, O: Sequential<R>, N: BitRegister>(
    span: BitSpan<R, O>,
    memory: &mut [R],
    value: N,
    big: bool,
)
    requires fits { Fits R.BITS (span_of span) (length memory.old) }
    requires small { (span_of span).len ≤ N.BITS }
    ensures { Becomes span O.at_of memory.old memory.new
        (field_list big R.BITS O.RISES (span_of span).head (span_of span).len (N.number value)) }
{
    for k in 0..span.elements() {
        store_part(span, memory, k, value, big);
    }
}

// The lowest digits of a word in their order, one for each bit of a span that lies in one word, at
// the places that the span has there. A word's other digits stand beside them.
#[inline(always)]
fn in_only<R: BitRegister, O: Sequential<R>>(span: BitSpan<R, O>, word: R) -> R
    requires some { 0 < (span_of span).len }
    requires within { (span_of span).head + (span_of span).len ≤ R.BITS }
    ensures { (i : ℕ) → i < R.BITS → digit (R.number result) (O.at_of i)
        ≡ digit_from O.RISES (span_of span).head (span_of span).len (R.number word) i }
{
    let head = span.head().into_inner();
    if O::RISES {
        return word.shl(head);
    }
    let end = head + span.len() as u8;
    word.shl(R::BITS - end)
}

// The same where a span of at most a word's bits lies in two: the places that it has in the first.
#[inline(always)]
fn in_first<R: BitRegister, O: Sequential<R>>(span: BitSpan<R, O>, word: R) -> R
    requires near { (span_of span).len ≤ R.BITS }
    requires over { R.BITS < (span_of span).head + (span_of span).len }
    requires below { R.number word < 2 ^ R.BITS }
    ensures { (i : ℕ) → i < R.BITS → digit (R.number result) (O.at_of i)
        ≡ digit_from O.RISES (span_of span).head (span_of span).len (R.number word) i }
{
    let head = span.head().into_inner();
    if O::RISES {
        return word.shl(head);
    }
    let over = head + span.len() as u8 - R::BITS;
    word.shr(over)
}

// The same: the places that it has in the second.
#[inline(always)]
fn in_second<R: BitRegister, O: Sequential<R>>(span: BitSpan<R, O>, word: R) -> R
    requires near { (span_of span).len ≤ R.BITS }
    requires over { R.BITS < (span_of span).head + (span_of span).len }
    requires below { R.number word < 2 ^ R.BITS }
    ensures { (i : ℕ) → i < R.BITS → digit (R.number result) (O.at_of i)
        ≡ digit_from O.RISES (span_of span).head (span_of span).len (R.number word) (R.BITS + i) }
{
    let head = span.head().into_inner();
    if O::RISES {
        return word.shr(R::BITS - head);
    }
    let over = head + span.len() as u8 - R::BITS;
    word.shl(R::BITS - over)
}

// Makes the bits of a span of at most a word's bits the lowest digits of a number in their order,
// in one word or in two, and changes no other bit.
#[inline(always)]
fn store_near<R: BitRegister, O: Sequential<R>, N: BitRegister>(
    span: BitSpan<R, O>,
    memory: &mut [R],
    value: N,
)
    requires fits { Fits R.BITS (span_of span) (length memory.old) }
    requires some { 0 < (span_of span).len }
    requires near { (span_of span).len ≤ R.BITS }
    ensures { Becomes span O.at_of memory.old memory.new
        (field_list (not O.RISES) R.BITS O.RISES (span_of span).head (span_of span).len
        (N.number value)) }
{
    let ones = low_ones::<R>(span.len());
    let digits = low_digits::<R, N>(value).and(ones);
    let end = usize::from(span.head().into_inner()) + span.len();
    if end <= usize::from(R::BITS) {
        let (word, mask) = (in_only(span, digits), in_only(span, ones));
        put_digits(span, memory, 0, word, mask);
        return;
    }
    let (word, mask) = (in_first(span, digits), in_first(span, ones));
    put_digits(span, memory, 0, word, mask);
    let (word, mask) = (in_second(span, digits), in_second(span, ones));
    put_digits(span, memory, 1, word, mask);
}

// Makes the bits of a span the digits of a number, a part of a word at a time, and changes no other
// bit.
#[inline(always)]
fn store_digits<R: BitRegister, O: Sequential<R>, N: BitRegister>(
    span: BitSpan<R, O>,
    memory: &mut [R],
    value: N,
    big: bool,
)
    requires fits { Fits R.BITS (span_of span) (length memory.old) }
    requires small { (span_of span).len ≤ N.BITS }
    ensures { Becomes span O.at_of memory.old memory.new
        (field_list big R.BITS O.RISES (span_of span).head (span_of span).len (N.number value)) }
{
    let width = usize::from(R::BITS);
    if O::RISES != big && 0 < span.len() && span.len() <= width {
        return store_near(span, memory, value);
    }
    let elements = span.elements();
    if elements == 1 {
        store_part(span, memory, 0, value, big);
    } else if elements == 2 {
        store_part(span, memory, 0, value, big);
        store_part(span, memory, 1, value, big);
    } else {
        store_words(span, memory, value, big);
    }
}

// Makes the bits of a span the digits of a number, those of its first word the lowest, or the
// highest where `big`, and changes no other bit.
#[inline(always)]
pub(crate) fn store<R: BitRegister, O: Sequential<R>, N: BitRegister>(
    span: BitSpan<R, O>,
    memory: &mut [R],
    value: N,
    big: bool,
)
    requires fits { Fits R.BITS (span_of span) (length memory.old) }
    requires small { length (list_by span O.at_of memory.old) ≤ N.BITS }
    ensures stored { Becomes span O.at_of memory.old memory.new
        (field_list big R.BITS O.RISES (span_of span).head
        (length (list_by span O.at_of memory.old)) (N.number value)) }
    ensures loaded { field_number big R.BITS O.RISES (span_of span).head
        (list_by span O.at_of memory.new)
        ≡ N.number value % 2 ^ length (list_by span O.at_of memory.old) }
{
    store_digits(span, memory, value, big);
}

impl<'a, R: BitRegister, O: Sequential<R>> BitSlice<'a, R, O> {
    ghost use Rattle.bitvec_slice.specs.BitSlice.{slice_span, slice_len, slice_bits};

    /// The number whose digits the bits are: those of one word in the word's own order, and those
    /// of the first word lowest. Requires no more bits than the number type has digits; the digits
    /// past the bits are zero.
    ///
    /// Under `Lsb0` the number of whole bytes is the one that std's `from_le_bytes` gives. Costs by
    /// words.
    ///
    /// # Examples
    ///
    /// ```
    /// let memory = [0x78u8, 0x56, 0x34, 0x12];
    /// let span: BitSpan<u8, Lsb0> = BitSpan::at(0, 32).unwrap();
    /// let slice = BitSlice::new(span, &memory).ok_or("outside")?;
    /// assert_eq!(rt; slice.load_le::<u32>(), 0x12345678);
    /// assert_eq!(rt; slice.load_le::<usize>(), 0x12345678);
    /// ```
    #[inline(always)]
    pub fn load_le<N: BitRegister>(&self) -> N
        requires { slice_len self.now ≤ N.BITS }
        ensures number { N.number result
            ≡ field_number false R.BITS O.RISES (slice_span self.now).head (slice_bits self.now) }
        ensures digits { HasFieldDigits false R.BITS O.RISES (slice_span self.now).head (slice_bits
            self.now) (N.number result) }
        ensures rising { O.RISES ≡ true → (j : ℕ) → j < length (slice_bits self.now)
            → digit (N.number result) j ≡ element (slice_bits self.now) j }
        ensures past { (j : ℕ) → length (slice_bits self.now) ≤ j
            → digit (N.number result) j ≡ false }
    {
        load(self.span, self.memory, false)
    }

    /// The number whose digits the bits are: those of one word in the word's own order, and those
    /// of the first word highest. Requires no more bits than the number type has digits; the digits
    /// past the bits are zero.
    ///
    /// Under `Msb0` the number of whole bytes is the one that std's `from_be_bytes` gives. Costs by
    /// words.
    ///
    /// # Examples
    ///
    /// ```
    /// let memory = [0x0123456789ABCDEFu64, 0xFEDCBA9876543210];
    /// let span: BitSpan<u64, Msb0> = BitSpan::at(0, 128).unwrap();
    /// let slice = BitSlice::new(span, &memory).ok_or("outside")?;
    /// assert_eq!(rt;
    ///     slice.load_be::<u128>(),
    ///     0x0123456789ABCDEF_FEDCBA9876543210
    /// );
    /// ```
    #[inline(always)]
    pub fn load_be<N: BitRegister>(&self) -> N
        requires { slice_len self.now ≤ N.BITS }
        ensures number { N.number result
            ≡ field_number true R.BITS O.RISES (slice_span self.now).head (slice_bits self.now) }
        ensures digits { HasFieldDigits true R.BITS O.RISES (slice_span self.now).head (slice_bits
            self.now) (N.number result) }
        ensures falling { let xs = slice_bits self.now in O.RISES ≡ false → (j : ℕ) → j < length xs
            → digit (N.number result) j ≡ element xs (length xs - 1 - j) }
        ensures past { (j : ℕ) → length (slice_bits self.now) ≤ j
            → digit (N.number result) j ≡ false }
    {
        load(self.span, self.memory, true)
    }
}

impl<'a, R: BitRegister, O: Sequential<R>> BitSliceMut<'a, R, O> {
    ghost use Rattle.bitvec_slice.specs.BitSliceMut.{lent_span, lent_len, lent_bits};
    ghost use Rattle.bitvec_slice.specs.BitSliceMut.{BecomesBits};

    /// The number that [`load_le`](BitSlice::load_le) of [`as_bitslice`](BitSliceMut::as_bitslice)
    /// gives. Requires no more bits than the number type has digits. Costs by words.
    #[inline(always)]
    pub fn load_le<N: BitRegister>(&self) -> N
        requires { lent_len self.now ≤ N.BITS }
        ensures number { N.number result
            ≡ field_number false R.BITS O.RISES (lent_span self.now).head (lent_bits self.now) }
        ensures digits { HasFieldDigits false R.BITS O.RISES (lent_span self.now).head (lent_bits
            self.now) (N.number result) }
        ensures rising { O.RISES ≡ true → (j : ℕ) → j < length (lent_bits self.now)
            → digit (N.number result) j ≡ element (lent_bits self.now) j }
        ensures past { (j : ℕ) → length (lent_bits self.now) ≤ j
            → digit (N.number result) j ≡ false }
    {
        self.as_bitslice().load_le()
    }

    /// The number that [`load_be`](BitSlice::load_be) of [`as_bitslice`](BitSliceMut::as_bitslice)
    /// gives. Requires no more bits than the number type has digits. Costs by words.
    #[inline(always)]
    pub fn load_be<N: BitRegister>(&self) -> N
        requires { lent_len self.now ≤ N.BITS }
        ensures number { N.number result
            ≡ field_number true R.BITS O.RISES (lent_span self.now).head (lent_bits self.now) }
        ensures digits { HasFieldDigits true R.BITS O.RISES (lent_span self.now).head (lent_bits
            self.now) (N.number result) }
        ensures falling { let xs = lent_bits self.now in O.RISES ≡ false → (j : ℕ) → j < length xs →
            digit (N.number result) j ≡ element xs (length xs - 1 - j) }
        ensures past { (j : ℕ) → length (lent_bits self.now) ≤ j
            → digit (N.number result) j ≡ false }
    {
        self.as_bitslice().load_be()
    }

    /// Makes the bits the lowest digits of a number, one for each bit, so that
    /// [`load_le`](BitSliceMut::load_le) gives these back. Requires no more bits than the number
    /// type has digits. Costs by words.
    #[inline(always)]
    pub fn store_le<N: BitRegister>(&mut self, value: N)
        requires { lent_len self.old ≤ N.BITS }
        ensures stored { BecomesBits self.old self.new
            (field_list false R.BITS O.RISES (lent_span self.old).head
            (length (lent_bits self.old)) (N.number value)) }
        ensures loaded { field_number false R.BITS O.RISES (lent_span self.new).head
            (lent_bits self.new) ≡ N.number value % 2 ^ length (lent_bits self.old) }
    {
        let span = self.span();
        let memory = &mut *self.memory;
        store(span, memory, value, false);
    }

    /// Makes the bits the lowest digits of a number, one for each bit, so that
    /// [`load_be`](BitSliceMut::load_be) gives these back. Requires no more bits than the number
    /// type has digits. Costs by words.
    #[inline(always)]
    pub fn store_be<N: BitRegister>(&mut self, value: N)
        requires { lent_len self.old ≤ N.BITS }
        ensures stored { BecomesBits self.old self.new
            (field_list true R.BITS O.RISES (lent_span self.old).head
            (length (lent_bits self.old)) (N.number value)) }
        ensures loaded { field_number true R.BITS O.RISES (lent_span self.new).head
            (lent_bits self.new) ≡ N.number value % 2 ^ length (lent_bits self.old) }
    {
        let span = self.span();
        let memory = &mut *self.memory;
        store(span, memory, value, true);
    }
}
