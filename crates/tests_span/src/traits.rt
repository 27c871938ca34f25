//! What equality, order, hash, copy and default of spans, of their refusals and of domains are, and
//! what each name stands for.
//!
//! Each function does what its name says, and its contract is the promise: so a body of an impl
//! that breaks it is refused, though no contract of the layer names it.

ghost use Rattle.std.specs.Prelude.{◌≡◌, ◌↔◌, pos, IsTrue, Ok};
ghost use Rattle.std.specs.Ordering.{nat_cmp, int_cmp};
ghost use Rattle.std.specs.declared.cmp.Ordering.TheVariants.{Less};
ghost use Rattle.bitvec_span.specs.BitDomain.{bit_parts};
ghost use Rattle.bitvec_span.specs.BitDomainMut.{lent_bit_parts};
ghost use Rattle.bitvec_span.specs.BitParts.{bit_region, no_bits};
ghost use Rattle.bitvec_span.specs.BitSpan.{span_of};

use bitvec_mem::mem::BitRegister;
use bitvec_order::order::{Lsb0, Msb0};
use bitvec_ptr::ptr::single::BitPtr;
use bitvec_span::domain::{BitDomain, BitDomainMut, BitWords, Domain, DomainMut, PartialElement};
use bitvec_span::ptr::span::{BitSpan, BitSpanError};
use std::alloc::AllocError;
use std::cmp::Ordering;
use std::hash::{Hash, Hasher};
use std::marker::PhantomData;

// A span is its word, its head and its length.

fn equal_spans<R: BitRegister, O>(here: BitSpan<R, O>, there: BitSpan<R, O>) -> bool
    ensures { IsTrue result ↔ (span_of here ≡ span_of there) }
{
    here == there
}

fn copied_span<R: BitRegister, O>(span: &BitSpan<R, O>) -> Result<BitSpan<R, O>, AllocError>
    ensures { result ≡ Ok span.now }
{
    span.clone()
}

fn default_span<R: BitRegister, O>() -> BitSpan<R, O>
    ensures { span_of result ≡ record { word = pos 0; head = 0; len = 0 } }
{
    BitSpan::default()
}

// A part, a domain and their bits are what they show: a copy is the same one.

fn copied_part<'a, R: BitRegister, O>(
    part: &PartialElement<'a, R, O>,
) -> Result<PartialElement<'a, R, O>, AllocError>
    ensures { result ≡ Ok part.now }
{
    part.clone()
}

fn copied_domain<'a, R: BitRegister, O>(
    domain: &Domain<'a, R, O>,
) -> Result<Domain<'a, R, O>, AllocError>
    ensures { result ≡ Ok domain.now }
{
    domain.clone()
}

fn copied_bits<'a, R: BitRegister, O>(
    bits: &BitWords<'a, R, O>,
) -> Result<BitWords<'a, R, O>, AllocError>
    ensures { result ≡ Ok bits.now }
{
    bits.clone()
}

fn copied_bit_domain<'a, R: BitRegister, O>(
    domain: &BitDomain<'a, R, O>,
) -> Result<BitDomain<'a, R, O>, AllocError>
    ensures { result ≡ Ok domain.now }
{
    domain.clone()
}

fn default_bit_domain<'a, R: BitRegister, O>() -> BitDomain<'a, R, O>
    ensures { bit_parts R.number result ≡ bit_region no_bits no_bits no_bits }
{
    BitDomain::default()
}

fn default_bit_domain_mut<'a, R: BitRegister, O>() -> BitDomainMut<'a, R, O>
    ensures { lent_bit_parts R.number result ≡ bit_region no_bits no_bits no_bits }
{
    BitDomainMut::default()
}

// A refused span: `TooLong` comes before `TooHigh`, and the same case goes by its number.

fn equal_refusals<R>(here: BitSpanError<R>, there: BitSpanError<R>) -> bool
    ensures { IsTrue result ↔ (here ≡ there) }
{
    here == there
}

fn too_long_before_too_high<R>(bits: usize, word: isize) -> Ordering
    ensures { result ≡ Less }
{
    let long: BitSpanError<R> = BitSpanError::TooLong(bits);
    long.cmp(&BitSpanError::TooHigh(word, PhantomData))
}

fn order_of_too_long<R>(here: usize, there: usize) -> Ordering
    ensures { result ≡ nat_cmp here there }
{
    let long: BitSpanError<R> = BitSpanError::TooLong(here);
    long.cmp(&BitSpanError::TooLong(there))
}

fn order_of_too_high<R>(here: isize, there: isize) -> Ordering
    ensures { result ≡ int_cmp here there }
{
    let high: BitSpanError<R> = BitSpanError::TooHigh(here, PhantomData);
    high.cmp(&BitSpanError::TooHigh(there, PhantomData))
}

fn hash_of_too_long<R, H: Hasher>(bits: usize, here: &mut H, there: &mut H)
    requires { here.old ≡ there.old }
    ensures { here.new ≡ there.new }
{
    let long: BitSpanError<R> = BitSpanError::TooLong(bits);
    long.hash(here);
    0isize.hash(there);
    bits.hash(there);
}

fn hash_of_too_high<R, H: Hasher>(word: isize, here: &mut H, there: &mut H)
    requires { here.old ≡ there.old }
    ensures { here.new ≡ there.new }
{
    let high: BitSpanError<R> = BitSpanError::TooHigh(word, PhantomData);
    high.hash(here);
    1isize.hash(there);
    word.hash(there);
}

fn copied_refusal<R>(refusal: &BitSpanError<R>) -> Result<BitSpanError<R>, AllocError>
    ensures { result ≡ Ok refusal.now }
{
    refusal.clone()
}

// Without parameters each type is that of `usize` and of `Lsb0`.

fn plain_span(span: BitSpan) -> BitSpan<usize, Lsb0>
    ensures { result ≡ span }
{
    span
}

fn plain_domain<'a>(of: PhantomData<Domain<'a>>) -> PhantomData<Domain<'a, usize, Lsb0>> {
    of
}

fn plain_domain_mut<'a>(of: PhantomData<DomainMut<'a>>) -> PhantomData<DomainMut<'a, usize, Lsb0>> {
    of
}

fn plain_bit_domain<'a>(of: PhantomData<BitDomain<'a>>) -> PhantomData<BitDomain<'a, usize, Lsb0>> {
    of
}

fn plain_bit_domain_mut<'a>(
    of: PhantomData<BitDomainMut<'a>>,
) -> PhantomData<BitDomainMut<'a, usize, Lsb0>> {
    of
}

// A span and a pointer in one record, which is copied whatever the order is.
#[derive_where(Clone, Copy)]
struct Marked<R: BitRegister, O> {
    span: BitSpan<R, O>,
    pointer: BitPtr<R, O>,
}

// One of several records, in code that asks nothing of the order.
fn copied<R: BitRegister, O>(all: &[Marked<R, O>], k: usize) -> Option<Marked<R, O>> {
    all.get(k).copied()
}

// Whether a copy of a record of a span is that span, and its pointer the span's.
fn is_copied(span: BitSpan<u32, Msb0>) -> Option<[bool; 2]> {
    let pointer = span.to_bitptr();
    let found = copied(&[Marked { span, pointer }], 0)?;
    Some([found.span == span, found.pointer == pointer])
}

#[test]
fn is_copied_out_of_a_slice(rt: HostRuntime) {
    let span = BitSpan::at(40, 3).unwrap_or_default();
    assert_eq!(rt; is_copied(span), Some([true; 2]));
}
