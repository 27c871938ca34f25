//! The examples in the documents of spans, of domains and of parts.

use bitvec_mem::mem::BitRegister;
use bitvec_order::index::BitIdx;
use bitvec_order::order::{BitOrder, Lsb0, Msb0};
use bitvec_ptr::ptr::combine::{And, Or, Xor};
use bitvec_span::domain::BitDomain;
use bitvec_span::ptr::span::{BitSpan, BitSpanError};
use std::marker::PhantomData;
use std::test::Fail;

#[test]
fn a_span(rt: HostRuntime) {
    let memory = [0xC0u8, 0x01];
    let span: BitSpan<u8, Lsb0> = BitSpan::new(0, BitIdx::new_unchecked(6), 4).unwrap();
    assert_eq!(rt; (span.elements(), span.tail().into_inner()), (2, 2));
    assert_eq!(rt; span.bitptr(2).read(&memory), true);
    assert_eq!(rt; span.bitptr(3).read(&memory), false);
}

#[test]
fn a_new_span(rt: HostRuntime) {
    let head = BitIdx::<u8>::new_unchecked(7);
    assert!(rt; BitSpan::<u8, Lsb0>::new(0, head, 12).is_ok());
    assert!(rt; BitSpan::<u8, Lsb0>::new(0, head, usize::MAX).is_err());
    assert!(rt; BitSpan::<u8, Lsb0>::new(isize::MAX, head, 1).is_err());
}

#[test]
fn an_error_of_a_span(rt: HostRuntime) {
    let head = BitIdx::<u8>::new_unchecked(7);
    let long = BitSpan::<u8, Lsb0>::new(0, head, usize::MAX);
    assert!(rt; long == Err(BitSpanError::TooLong(usize::MAX)));
    let high = BitSpan::<u8, Lsb0>::new(isize::MAX, head, 1);
    assert!(rt; high == Err(BitSpanError::TooHigh(isize::MAX, PhantomData)));
}

#[test]
fn a_span_by_the_number_of_a_bit(rt: HostRuntime) {
    let mut memory = [0x12u8, 0x34, 0x56];
    let span: BitSpan<u8, Lsb0> = BitSpan::at(4, 12).unwrap();
    span.fill(&mut memory, true);
    assert_eq!(rt; memory, [0xF2, 0xFF, 0x56]);
}

#[test]
fn a_range_of_a_span(rt: HostRuntime) {
    let mut memory = [0x00u8; 2];
    let span: BitSpan<u8, Lsb0> = BitSpan::at(2, 12).unwrap();
    span.range(2, 8).fill(&mut memory, true);
    assert_eq!(rt; memory, [0xF0, 0x03]);
}

#[test]
fn a_span_combined_with_another(rt: HostRuntime) {
    let source = [0x0Fu16];
    let from: BitSpan<u16, Msb0> = BitSpan::at(8, 8).unwrap();
    let mut memory = [0x30u8, 0x03];
    let span: BitSpan<u8, Lsb0> = BitSpan::at(4, 8).unwrap();
    span.combine_from::<Xor, u16, Msb0>(&mut memory, from, &source);
    assert_eq!(rt; memory, [0x30, 0x0C]);
}

#[test]
fn the_pairs_of_two_spans_are_counted(rt: HostRuntime) {
    let memory = [0x3Cu8, 0x0F];
    let span: BitSpan<u8, Lsb0> = BitSpan::at(4, 8).unwrap();
    let others = [0x00F3u16];
    let other: BitSpan<u16, Msb0> = BitSpan::at(8, 8).unwrap();
    assert_eq!(rt;
        span.count_with::<And, u16, Msb0>(&memory, other, &others),
        4
    );
}

#[test]
fn where_two_spans_differ_first(rt: HostRuntime) {
    let memory = [0x3Cu8, 0x0F];
    let span: BitSpan<u8, Lsb0> = BitSpan::at(4, 8).unwrap();
    let others = [0x00F3u16];
    let other: BitSpan<u16, Msb0> = BitSpan::at(8, 8).unwrap();
    assert_eq!(rt;
        span.first_with::<Xor, u16, Msb0>(&memory, other, &others),
        Some(2)
    );
    assert_eq!(rt;
        span.first_with::<Xor, u8, Lsb0>(&memory, span, &memory),
        None
    );
}

#[test]
fn the_intersection_of_two_spans(rt: HostRuntime) {
    let source = [0x0Fu8];
    let mut memory = [0x3Cu8];
    let span: BitSpan<u8, Lsb0> = BitSpan::at(0, 8).unwrap();
    span.and_from(&mut memory, span, &source);
    assert_eq!(rt; memory, [0x0C]);
}

#[test]
fn the_union_of_two_spans(rt: HostRuntime) {
    let source = [0x0Fu8];
    let mut memory = [0x3Cu8];
    let span: BitSpan<u8, Lsb0> = BitSpan::at(0, 8).unwrap();
    span.or_from(&mut memory, span, &source);
    assert_eq!(rt; memory, [0x3F]);
}

#[test]
fn the_symmetric_difference_of_two_spans(rt: HostRuntime) {
    let source = [0x0Fu8];
    let mut memory = [0x3Cu8];
    let span: BitSpan<u8, Lsb0> = BitSpan::at(0, 8).unwrap();
    span.xor_from(&mut memory, span, &source);
    assert_eq!(rt; memory, [0x33]);
}

#[test]
fn the_difference_of_two_spans(rt: HostRuntime) {
    let source = [0x0Fu8];
    let mut memory = [0x3Cu8];
    let span: BitSpan<u8, Lsb0> = BitSpan::at(0, 8).unwrap();
    span.and_not_from(&mut memory, span, &source);
    assert_eq!(rt; memory, [0x30]);
}

#[test]
fn a_span_combined_with_a_range_of_its_own(rt: HostRuntime) {
    let mut memory = [0x01u8, 0x80];
    let span: BitSpan<u8, Lsb0> = BitSpan::at(0, 16).unwrap();
    span.combine_within::<Or>(&mut memory, 0, 3, 13);
    assert_eq!(rt; memory, [0x09, 0x80]);
}

#[test]
fn a_span_turned_over(rt: HostRuntime) {
    let mut memory = [0x12u8, 0x34, 0x56];
    let span: BitSpan<u8, Lsb0> = BitSpan::at(4, 16).unwrap();
    span.invert(&mut memory);
    assert_eq!(rt; memory, [0xE2, 0xCB, 0x59]);
}

#[test]
fn a_bit_through_a_span(rt: HostRuntime) {
    let mut memory = [0x00u8; 2];
    let span: BitSpan<u8, Lsb0> = BitSpan::at(6, 4).unwrap();
    span.write(&mut memory, 2, true);
    assert_eq!(rt; memory, [0x00, 0x01]);
    assert!(rt; span.read(&memory, 2));
}

#[test]
fn a_copy_from_another_span(rt: HostRuntime) {
    let source = [0x0Fu16];
    let from: BitSpan<u16, Msb0> = BitSpan::at(8, 8).unwrap();
    let mut memory = [0x00u8; 2];
    let span: BitSpan<u8, Lsb0> = BitSpan::at(4, 8).unwrap();
    span.copy_from(&mut memory, from, &source);
    assert_eq!(rt; memory, [0x00, 0x0F]);
}

#[test]
fn a_span_that_fits(rt: HostRuntime) {
    let span: BitSpan<u8, Lsb0> = BitSpan::new(1, BitIdx::new_unchecked(4), 8).unwrap();
    assert!(rt; span.fits(3));
    assert!(rt; !span.fits(2));
}

#[test]
fn the_domain_of_a_span(rt: HostRuntime) {
    let memory = [0x12u8, 0x34, 0x56];
    let span: BitSpan<u8, Lsb0> = BitSpan::new(0, BitIdx::new_unchecked(4), 16).unwrap();
    let mut domain = span.domain(&memory);
    assert_eq!(rt; domain.next(), Some(0x10));
    assert_eq!(rt; domain.next(), Some(0x34));
    assert_eq!(rt; domain.next(), Some(0x06));
    assert_eq!(rt; domain.next(), None);
}

#[test]
fn each_item_of_a_domain(rt: HostRuntime) {
    let memory = [0x12u8, 0x34, 0x56];
    let span: BitSpan<u8, Lsb0> = BitSpan::new(0, BitIdx::new_unchecked(4), 16).unwrap();
    let mut sum = 0;
    span.domain(&memory).each(|word| sum ^= word);
    assert_eq!(rt; sum, 0x10 ^ 0x34 ^ 0x06);
}

#[test]
fn a_span_is_filled(rt: HostRuntime) {
    let mut memory = [0x12u8, 0x34, 0x56];
    let span: BitSpan<u8, Lsb0> = BitSpan::new(0, BitIdx::new_unchecked(4), 12).unwrap();
    span.fill(&mut memory, true);
    assert_eq!(rt; memory, [0xF2, 0xFF, 0x56]);
}

#[test]
fn a_part(rt: HostRuntime) {
    let memory = [0x12u8, 0x34];
    let span: BitSpan<u8, Lsb0> = BitSpan::new(0, BitIdx::new_unchecked(4), 8).unwrap();
    let part = span.part(&memory, 1);
    assert_eq!(rt; part.mask().into_inner(), 0x0F);
    assert_eq!(rt; part.load_value(), 0x04);
}

#[test]
fn a_part_for_writing(rt: HostRuntime) {
    let mut memory = [0x12u8, 0x34];
    let span: BitSpan<u8, Lsb0> = BitSpan::new(0, BitIdx::new_unchecked(4), 8).unwrap();
    let mut part = span.part_mut(&mut memory, 0);
    assert_eq!(rt; part.store_value(0xAB), 0x10);
    drop(part);
    assert_eq!(rt; memory, [0xA2, 0x34]);
}

#[test]
fn a_domain(rt: HostRuntime) -> Result<(), Fail> {
    let memory = [0x12u8, 0x34, 0x56];
    let span: BitSpan<u8, Lsb0> = BitSpan::new(0, BitIdx::new_unchecked(4), 16).unwrap();
    let (head, body, tail) = span.domain(&memory).region().ok_or("an enclave")?;
    assert_eq!(rt; head.ok_or("no head")?.load_value(), 0x10);
    assert_eq!(rt; body, [0x34].as_slice());
    assert_eq!(rt; tail.ok_or("no tail")?.load_value(), 0x06);
    Ok(())
}

#[test]
fn a_domain_for_writing(rt: HostRuntime) -> Result<(), Fail> {
    let mut memory = [0x12u8, 0x34];
    let span: BitSpan<u8, Lsb0> = BitSpan::new(0, BitIdx::new_unchecked(2), 4).unwrap();
    let mut part = span.domain_mut(&mut memory).enclave().ok_or("a region")?;
    assert_eq!(rt; part.invert(), 0x10);
    drop(part);
    assert_eq!(rt; memory, [0x2E, 0x34]);
    Ok(())
}

fn whole_bits<R: BitRegister, O: BitOrder<R>>(span: BitSpan<R, O>, memory: &[R]) -> usize {
    if !span.fits(memory.len()) {
        return 0;
    }
    match span.bit_domain(memory) {
        BitDomain::Enclave(_) => 0,
        BitDomain::Region { body, .. } => body.len(),
    }
}

#[test]
fn a_domain_of_bits(rt: HostRuntime) {
    let memory = [0x12u8, 0x34, 0x56];
    let span: BitSpan<u8, Lsb0> = BitSpan::new(0, BitIdx::new_unchecked(4), 14).unwrap();
    assert_eq!(rt; whole_bits(span, &memory), 8);
}

fn set_first<R: BitRegister, O: BitOrder<R>>(span: BitSpan<R, O>, memory: &mut [R]) {
    if span.fits(memory.len()) {
        if let Some(mut bits) = span.bit_domain_mut(memory).enclave() {
            if !bits.is_empty() {
                bits.replace(0, true);
            }
        }
    }
}

#[test]
fn a_domain_of_bits_for_writing(rt: HostRuntime) {
    let mut memory = [0x12u8, 0x34];
    let span: BitSpan<u8, Lsb0> = BitSpan::new(0, BitIdx::new_unchecked(2), 4).unwrap();
    set_first(span, &mut memory);
    assert_eq!(rt; memory, [0x16, 0x34]);
}

#[test]
fn bits_of_words(rt: HostRuntime) {
    let memory = [0x12u8, 0x34];
    let span: BitSpan<u8, Lsb0> = BitSpan::new(0, BitIdx::new_unchecked(4), 8).unwrap();
    let bits = span.part(&memory, 0).into_bitslice();
    assert!(rt; bits.len() == 4);
    assert_eq!(rt; bits.read(0), true);
    assert_eq!(rt; bits.read(3), false);
}

#[test]
fn bits_of_words_for_writing(rt: HostRuntime) {
    let mut memory = [0x12u8, 0x34];
    let span: BitSpan<u8, Lsb0> = BitSpan::new(0, BitIdx::new_unchecked(4), 8).unwrap();
    let mut bits = span.part_mut(&mut memory, 0).into_bitslice();
    assert!(rt; bits.len() == 4);
    assert_eq!(rt; bits.replace(3, true), false);
    drop(bits);
    assert_eq!(rt; memory, [0x92, 0x34]);
}
