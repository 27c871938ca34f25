//! The examples in the documents of bit slices.

use bitvec::index::BitIdx;
use bitvec::order::{Lsb0, Msb0};
use bitvec::ptr::combine::{Or, Xor};
use bitvec::ptr::span::BitSpan;
use bitvec_slice::field::low_digits;
use bitvec_slice::slice::{BitSlice, BitSliceMut, ReadBits};
use std::cmp::Ordering;
use std::test::Fail;

#[test]
fn a_bit_slice(rt: HostRuntime) -> Result<(), Fail> {
    let memory = [0x2Cu8];
    let span: BitSpan<u8, Lsb0> = BitSpan::new(0, BitIdx::new_unchecked(2), 4).unwrap();
    let slice = BitSlice::new(span, &memory).ok_or("outside")?;
    assert_eq!(rt; slice.get(0), Some(true));
    assert_eq!(rt; slice.get(4), None);
    assert_eq!(rt; slice.count_ones(), 3);
    assert_eq!(rt; slice.first_zero(), Some(2));
    Ok(())
}

#[test]
fn a_bit_slice_for_writing(rt: HostRuntime) -> Result<(), Fail> {
    let mut memory = [0x00u8, 0xFF];
    let span: BitSpan<u8, Msb0> = BitSpan::new(0, BitIdx::new_unchecked(4), 8).unwrap();
    let mut slice = BitSliceMut::new_unchecked(span, &mut memory);
    slice.reverse();
    assert_eq!(rt; memory, [0x0F, 0x0F]);
    Ok(())
}

#[test]
fn the_parts_of_a_bit_slice(rt: HostRuntime) -> Result<(), Fail> {
    let mut memory = [0x00u8; 2];
    let mut slice = BitSliceMut::<u8, Msb0>::all_unchecked(&mut memory);
    slice.set(0, true);
    let (span, words) = slice.into_parts();
    assert_eq!(rt; span.len(), 16);
    assert_eq!(rt; words[0], 0x80);
    Ok(())
}

#[test]
fn an_iterator(rt: HostRuntime) -> Result<(), Fail> {
    let memory = [0x0Bu8];
    let span: BitSpan<u8, Lsb0> = BitSpan::new(0, BitIdx::new_unchecked(0), 4).unwrap();
    let mut bits = BitSlice::new(span, &memory).ok_or("outside")?.iter();
    assert_eq!(rt; bits.next(), Some(true));
    assert_eq!(rt; bits.next_back(), Some(true));
    assert_eq!(rt; bits.len(), 2);
    Ok(())
}

#[test]
fn an_iterator_over_ones(rt: HostRuntime) -> Result<(), Fail> {
    let memory = [0x0Bu8];
    let span: BitSpan<u8, Lsb0> = BitSpan::new(0, BitIdx::new_unchecked(0), 4).unwrap();
    let mut ones = BitSlice::new(span, &memory).ok_or("outside")?.iter_ones();
    assert_eq!(rt; ones.next(), Some(0));
    assert_eq!(rt; ones.next_back(), Some(3));
    assert_eq!(rt; ones.next(), Some(1));
    assert_eq!(rt; ones.next(), None);
    Ok(())
}

#[test]
fn an_iterator_over_zeros(rt: HostRuntime) -> Result<(), Fail> {
    let memory = [0x0Bu8];
    let span: BitSpan<u8, Lsb0> = BitSpan::new(0, BitIdx::new_unchecked(0), 4).unwrap();
    let mut zeros = BitSlice::new(span, &memory).ok_or("outside")?.iter_zeros();
    assert_eq!(rt; zeros.next(), Some(2));
    assert_eq!(rt; zeros.next(), None);
    Ok(())
}

#[test]
fn the_next_one_and_the_previous(rt: HostRuntime) -> Result<(), Fail> {
    let memory = [0x2Cu8];
    let span: BitSpan<u8, Lsb0> = BitSpan::new(0, BitIdx::new_unchecked(0), 8).unwrap();
    let slice = BitSlice::new(span, &memory).ok_or("outside")?;
    assert_eq!(rt; slice.next_one(3), Some(3));
    assert_eq!(rt; slice.next_one(4), Some(5));
    assert_eq!(rt; slice.next_one(6), None);
    assert_eq!(rt; slice.previous_one(5), Some(3));
    assert_eq!(rt; slice.previous_one(2), None);
    Ok(())
}

#[test]
fn all_and_any_in_a_range(rt: HostRuntime) -> Result<(), Fail> {
    let memory = [0x2Cu8];
    let span: BitSpan<u8, Lsb0> = BitSpan::new(0, BitIdx::new_unchecked(0), 8).unwrap();
    let slice = BitSlice::new(span, &memory).ok_or("outside")?;
    assert!(rt; slice.all_in(2, 4));
    assert!(rt; !slice.all_in(2, 5));
    assert!(rt; slice.any_in(4, 6));
    assert!(rt; !slice.any_in(6, 20));
    Ok(())
}

#[test]
fn an_iterator_over_stretches_of_ones(rt: HostRuntime) -> Result<(), Fail> {
    let memory = [0x6Eu8];
    let span: BitSpan<u8, Lsb0> = BitSpan::new(0, BitIdx::new_unchecked(0), 8).unwrap();
    let mut runs = BitSlice::new(span, &memory).ok_or("outside")?.iter_runs();
    assert_eq!(rt; runs.next(), Some((1, 3)));
    assert_eq!(rt; runs.next(), Some((5, 2)));
    assert_eq!(rt; runs.next(), None);
    Ok(())
}

#[test]
fn windows_passed_over(rt: HostRuntime) {
    let memory = [0x2Cu8];
    let mut windows = BitSlice::<u8, Lsb0>::all_unchecked(&memory).windows(3);
    assert_eq!(rt; windows.nth(2).unwrap().count_ones(), 2);
    assert_eq!(rt; windows.len(), 3);
    assert!(rt; windows.nth(3).is_none());
    assert_eq!(rt; windows.len(), 0);
}

#[test]
fn windows_passed_over_from_the_back(rt: HostRuntime) {
    let memory = [0x2Cu8];
    let mut windows = BitSlice::<u8, Lsb0>::all_unchecked(&memory).windows(3);
    assert_eq!(rt; windows.nth_back(2).unwrap().first_one(), Some(0));
    assert_eq!(rt; windows.len(), 3);
    assert!(rt; windows.nth_back(3).is_none());
    assert_eq!(rt; windows.len(), 0);
}

#[test]
fn chunks_passed_over(rt: HostRuntime) {
    let memory = [0x2Cu8];
    let mut chunks = BitSlice::<u8, Lsb0>::all_unchecked(&memory).chunks(3);
    assert_eq!(rt; chunks.nth(1).unwrap().count_ones(), 2);
    assert_eq!(rt; chunks.len(), 1);
    assert!(rt; chunks.nth(1).is_none());
    assert_eq!(rt; chunks.len(), 0);
}

#[test]
fn chunks_passed_over_from_the_back(rt: HostRuntime) {
    let memory = [0x2Cu8];
    let mut chunks = BitSlice::<u8, Lsb0>::all_unchecked(&memory).chunks(3);
    assert_eq!(rt; chunks.nth_back(1).unwrap().count_ones(), 2);
    assert_eq!(rt; chunks.len(), 1);
    assert!(rt; chunks.nth_back(1).is_none());
    assert_eq!(rt; chunks.len(), 0);
}

#[test]
fn chunks_from_the_back_passed_over(rt: HostRuntime) {
    let memory = [0x2Cu8];
    let mut chunks = BitSlice::<u8, Lsb0>::all_unchecked(&memory).rchunks(3);
    assert_eq!(rt; chunks.nth(1).unwrap().first_zero(), Some(2));
    assert_eq!(rt; chunks.len(), 1);
    assert!(rt; chunks.nth(1).is_none());
    assert_eq!(rt; chunks.len(), 0);
}

#[test]
fn chunks_from_the_back_passed_over_from_the_back(rt: HostRuntime) {
    let memory = [0x2Cu8];
    let mut chunks = BitSlice::<u8, Lsb0>::all_unchecked(&memory).rchunks(3);
    assert_eq!(rt; chunks.nth_back(1).unwrap().first_zero(), Some(2));
    assert_eq!(rt; chunks.len(), 1);
    assert!(rt; chunks.nth_back(1).is_none());
    assert_eq!(rt; chunks.len(), 0);
}

#[test]
fn whole_chunks_passed_over(rt: HostRuntime) {
    let memory = [0x2Cu8];
    let mut chunks = BitSlice::<u8, Lsb0>::all_unchecked(&memory).chunks_exact(3);
    assert_eq!(rt; chunks.nth(1).unwrap().count_ones(), 2);
    assert!(rt; chunks.nth(0).is_none());
    assert_eq!(rt; chunks.remainder().len(), 2);
}

#[test]
fn whole_chunks_passed_over_from_the_back(rt: HostRuntime) {
    let memory = [0x2Cu8];
    let mut chunks = BitSlice::<u8, Lsb0>::all_unchecked(&memory).chunks_exact(3);
    assert_eq!(rt; chunks.nth_back(1).unwrap().count_ones(), 1);
    assert!(rt; chunks.nth_back(0).is_none());
    assert_eq!(rt; chunks.remainder().len(), 2);
}

#[test]
fn the_windows_of_a_slice(rt: HostRuntime) -> Result<(), Fail> {
    let memory = [0x0Bu8];
    let span: BitSpan<u8, Lsb0> = BitSpan::new(0, BitIdx::new_unchecked(0), 4).unwrap();
    let mut windows = BitSlice::new(span, &memory).ok_or("outside")?.windows(3);
    assert_eq!(rt; windows.len(), 2);
    assert_eq!(rt; windows.next().unwrap().last_one(), Some(1));
    assert_eq!(rt; windows.next_back().unwrap().last_one(), Some(2));
    assert!(rt; windows.next().is_none());
    Ok(())
}

#[test]
fn the_pieces_from_the_front(rt: HostRuntime) -> Result<(), Fail> {
    let memory = [0x2Cu8];
    let span: BitSpan<u8, Lsb0> = BitSpan::new(0, BitIdx::new_unchecked(0), 8).unwrap();
    let mut chunks = BitSlice::new(span, &memory).ok_or("outside")?.chunks(3);
    assert_eq!(rt; chunks.len(), 3);
    assert_eq!(rt; chunks.next().unwrap().first_one(), Some(2));
    assert_eq!(rt; chunks.next_back().unwrap().len(), 2);
    assert_eq!(rt; chunks.next().unwrap().first_one(), Some(0));
    assert!(rt; chunks.next().is_none());
    Ok(())
}

#[test]
fn the_pieces_from_the_back(rt: HostRuntime) -> Result<(), Fail> {
    let memory = [0x2Cu8];
    let span: BitSpan<u8, Lsb0> = BitSpan::new(0, BitIdx::new_unchecked(0), 8).unwrap();
    let mut chunks = BitSlice::new(span, &memory).ok_or("outside")?.rchunks(3);
    assert_eq!(rt; chunks.len(), 3);
    assert_eq!(rt; chunks.next().unwrap().last_one(), Some(0));
    assert_eq!(rt; chunks.next_back().unwrap().len(), 2);
    assert_eq!(rt; chunks.next().unwrap().last_one(), Some(1));
    assert!(rt; chunks.next().is_none());
    Ok(())
}

#[test]
fn the_whole_pieces(rt: HostRuntime) -> Result<(), Fail> {
    let memory = [0x2Cu8];
    let span: BitSpan<u8, Lsb0> = BitSpan::new(0, BitIdx::new_unchecked(0), 8).unwrap();
    let mut chunks = BitSlice::new(span, &memory)
        .ok_or("outside")?
        .chunks_exact(3);
    assert_eq!(rt; chunks.len(), 2);
    assert_eq!(rt; chunks.next().unwrap().first_one(), Some(2));
    assert_eq!(rt; chunks.next().unwrap().first_one(), Some(0));
    assert!(rt; chunks.next().is_none());
    assert_eq!(rt; chunks.remainder().len(), 2);
    Ok(())
}

#[test]
fn a_slice_combined_with_another(rt: HostRuntime) -> Result<(), Fail> {
    let memory = [0x0Fu16];
    let span: BitSpan<u16, Msb0> = BitSpan::at(8, 8).unwrap();
    let other = BitSlice::new(span, &memory).ok_or("outside")?;
    let mut words = [0x30u8, 0x03];
    let span: BitSpan<u8, Lsb0> = BitSpan::at(4, 8).unwrap();
    let mut slice = BitSliceMut::new_unchecked(span, &mut words);
    slice.combine_from::<Xor, u16, Msb0>(other);
    drop(slice);
    assert_eq!(rt; words, [0x30, 0x0C]);
    Ok(())
}

#[test]
fn a_slice_combined_with_a_range_of_its_own(rt: HostRuntime) {
    let mut memory = [0x01u8, 0x80];
    let span: BitSpan<u8, Lsb0> = BitSpan::at(0, 16).unwrap();
    let mut slice = BitSliceMut::new_unchecked(span, &mut memory);
    slice.combine_within::<Or>(0..13, 3);
    drop(slice);
    assert_eq!(rt; memory, [0x09, 0x80]);
}

#[test]
fn a_slice_turned_over(rt: HostRuntime) {
    let mut memory = [0x12u8, 0x34];
    let span: BitSpan<u8, Lsb0> = BitSpan::at(4, 8).unwrap();
    let mut slice = BitSliceMut::new_unchecked(span, &mut memory);
    slice.invert();
    drop(slice);
    assert_eq!(rt; memory, [0xE2, 0x3B]);
}

#[test]
fn the_intersection_of_two_slices(rt: HostRuntime) -> Result<(), Fail> {
    let memory = [0x0Fu8];
    let span: BitSpan<u8, Lsb0> = BitSpan::at(0, 6).unwrap();
    let other = BitSlice::new(span, &memory).ok_or("outside")?;
    let mut words = [0xFCu8, 0xFF];
    let span: BitSpan<u8, Lsb0> = BitSpan::at(0, 12).unwrap();
    let mut slice = BitSliceMut::new_unchecked(span, &mut words);
    slice &= other;
    drop(slice);
    assert_eq!(rt; words, [0x0C, 0xF0]);
    Ok(())
}

#[test]
fn the_union_of_two_slices(rt: HostRuntime) -> Result<(), Fail> {
    let memory = [0x0Fu8];
    let span: BitSpan<u8, Lsb0> = BitSpan::at(0, 6).unwrap();
    let other = BitSlice::new(span, &memory).ok_or("outside")?;
    let mut words = [0xC0u8, 0x01];
    let span: BitSpan<u8, Lsb0> = BitSpan::at(2, 12).unwrap();
    let mut slice = BitSliceMut::new_unchecked(span, &mut words);
    slice |= other;
    drop(slice);
    assert_eq!(rt; words, [0xFC, 0x01]);
    Ok(())
}

#[test]
fn a_subset_of_a_slice(rt: HostRuntime) -> Result<(), Fail> {
    let memory = [0x0Cu8];
    let span: BitSpan<u8, Lsb0> = BitSpan::at(0, 8).unwrap();
    let few = BitSlice::new(span, &memory).ok_or("outside")?;
    let words = [0x0038u16];
    let span: BitSpan<u16, Msb0> = BitSpan::at(8, 8).unwrap();
    let many = BitSlice::new(span, &words).ok_or("outside")?;
    assert!(rt; few.is_subset(&many));
    assert!(rt; !many.is_subset(&few));
    Ok(())
}

#[test]
fn what_two_slices_have_in_common(rt: HostRuntime) -> Result<(), Fail> {
    let memory = [0x3Cu8, 0x03];
    let span: BitSpan<u8, Lsb0> = BitSpan::at(0, 10).unwrap();
    let here = BitSlice::new(span, &memory).ok_or("outside")?;
    let words = [0xFFF0u16];
    let span: BitSpan<u16, Lsb0> = BitSpan::at(0, 10).unwrap();
    let there = BitSlice::new(span, &words).ok_or("outside")?;
    assert_eq!(rt; here.count_and(&there), 4);
    assert_eq!(rt; here.count_or(&there), 8);
    assert_eq!(rt; here.first_and(&there), Some(4));
    assert_eq!(rt; here.first_and_not(&there), Some(2));
    assert!(rt; here.intersects(&there));
    Ok(())
}

#[test]
fn the_first_difference_of_two_slices(rt: HostRuntime) -> Result<(), Fail> {
    let memory = [0x0Fu8, 0x0F];
    let span: BitSpan<u8, Lsb0> = BitSpan::at(0, 16).unwrap();
    let here = BitSlice::new(span, &memory).ok_or("outside")?;
    let words = [0x030Fu16];
    let span: BitSpan<u16, Lsb0> = BitSpan::at(0, 12).unwrap();
    let there = BitSlice::new(span, &words).ok_or("outside")?;
    assert_eq!(rt; here.first_difference(&there), Some(10));
    let span: BitSpan<u16, Lsb0> = BitSpan::at(0, 10).unwrap();
    let there = BitSlice::new(span, &words).ok_or("outside")?;
    assert_eq!(rt; here.first_difference(&there), None);
    Ok(())
}

#[test]
fn the_order_of_two_slices(rt: HostRuntime) -> Result<(), Fail> {
    let memory = [0x0Fu8];
    let span: BitSpan<u8, Lsb0> = BitSpan::at(0, 8).unwrap();
    let here = BitSlice::new(span, &memory).ok_or("outside")?;
    let words = [0xF0u16];
    let span: BitSpan<u16, Msb0> = BitSpan::at(8, 6).unwrap();
    let there = BitSlice::new(span, &words).ok_or("outside")?;
    assert_eq!(rt; here.compare(&there), Ordering::Greater);
    let span: BitSpan<u16, Lsb0> = BitSpan::at(0, 8).unwrap();
    let there = BitSlice::new(span, &words).ok_or("outside")?;
    assert_eq!(rt; there.compare(&here), Ordering::Less);
    Ok(())
}

#[test]
fn a_run_of_zeros_taken(rt: HostRuntime) -> Result<(), Fail> {
    let mut memory = [0x93u8, 0x00];
    let mut blocks = BitSliceMut::<u8, Lsb0>::all_unchecked(&mut memory);
    assert_eq!(rt; blocks.count_ones(), 4);
    let at = blocks.find_zeros(3).ok_or("full")?;
    blocks.fill_range(at, at + 3, true);
    assert_eq!(rt; blocks.next_zero(0), Some(2));
    assert_eq!(rt; memory, [0x93, 0x07]);
    Ok(())
}

#[test]
fn parts_of_a_slice_turned(rt: HostRuntime) {
    let mut memory = [0x13u8];
    let span: BitSpan<u8, Lsb0> = BitSpan::at(0, 8).unwrap();
    let mut slice = BitSliceMut::new_unchecked(span, &mut memory);
    slice.reverse_range(0, 4);
    slice.invert_range(4, 6);
    assert_eq!(rt; memory, [0x2C]);
}

#[test]
fn a_slice_copied_into_a_range(rt: HostRuntime) -> Result<(), Fail> {
    let memory = [0xA0u8];
    let span: BitSpan<u8, Msb0> = BitSpan::at(0, 3).unwrap();
    let source = BitSlice::new(span, &memory).ok_or("outside")?;
    let mut words = [0x00u8];
    let span: BitSpan<u8, Lsb0> = BitSpan::at(0, 8).unwrap();
    let mut slice = BitSliceMut::new_unchecked(span, &mut words);
    slice.copy_from_range(4, source);
    assert_eq!(rt; words, [0x50]);
    Ok(())
}

#[test]
fn fields_of_a_header(rt: HostRuntime) {
    let mut header = [0x00u8; 20];
    let mut bits = BitSliceMut::<u8, Msb0>::all_unchecked(&mut header);
    bits.store_be_range(16, 32, 1500u16);
    bits.store_be_range(72, 80, 6u8);
    assert_eq!(rt; header[2], 0x05);
    assert_eq!(rt; header[3], 0xDC);
    assert_eq!(rt; header[9], 6);
}

#[test]
fn the_first_bit_and_the_others(rt: HostRuntime) -> Result<(), Fail> {
    let memory = [0x2Du8];
    let slice = BitSlice::<u8, Lsb0>::all_unchecked(&memory);
    let (bit, rest) = slice.split_first().ok_or("none")?;
    assert!(rt; bit);
    assert_eq!(rt; rest.len(), 7);
    assert_eq!(rt; rest.first_one(), Some(1));
    Ok(())
}

#[test]
fn bits_of_one_slice_in_another(rt: HostRuntime) -> Result<(), Fail> {
    let memory = [0x2Du8];
    let slice = BitSlice::<u8, Lsb0>::all_unchecked(&memory);
    let other = [0xA0u8];
    let span: BitSpan<u8, Msb0> = BitSpan::at(0, 3).unwrap();
    let pattern = BitSlice::new(span, &other).ok_or("outside")?;
    assert!(rt; slice.starts_with(&pattern));
    assert!(rt; !slice.ends_with(&pattern));
    assert_eq!(rt; slice.find(&pattern), Some(0));
    let (_, rest) = slice.split_at(1);
    assert!(rt; rest.contains(&pattern));
    assert_eq!(rt; rest.find(&pattern), Some(2));
    Ok(())
}

#[test]
fn a_run_of_zeros_at_a_multiple(rt: HostRuntime) {
    let memory = [0x03u8, 0x10];
    let slice = BitSlice::<u8, Lsb0>::all_unchecked(&memory);
    assert_eq!(rt; slice.find_zeros_from(0, 3, 1), Some(2));
    assert_eq!(rt; slice.find_zeros_from(0, 3, 4), Some(4));
    assert_eq!(rt; slice.find_zeros_from(10, 3, 4), None);
    assert_eq!(rt; slice.find_zeros_from(10, 3, 1), Some(13));
}

#[test]
fn the_lowest_digits_of_a_number(rt: HostRuntime) {
    assert_eq!(rt; low_digits::<u8, u32>(0x1234), 0x34);
    assert_eq!(rt; low_digits::<u32, u8>(0xFF), 0xFF);
}

#[test]
fn numbers_under_any_order(rt: HostRuntime) {
    let memory = [0x2Cu8];
    let slice = BitSlice::<u8, Msb0>::all_unchecked(&memory);
    assert_eq!(rt; slice.load_digits_le::<u32>(2, 6), 13);
    assert_eq!(rt; slice.load_digits_be::<u32>(2, 6), 11);
}

#[test]
fn a_number_stored_under_any_order(rt: HostRuntime) {
    let mut memory = [0x00u8];
    let mut slice = BitSliceMut::<u8, Msb0>::all_unchecked(&mut memory);
    slice.store_digits_le(2, 6, 13u32);
    assert_eq!(rt; memory, [0x2C]);
}

#[test]
fn a_whole_word(rt: HostRuntime) {
    let mut memory = [0x00u8, 0x00, 0x00];
    let span: BitSpan<u8, Lsb0> = BitSpan::at_unchecked(4, 16);
    let mut slice = BitSliceMut::new_unchecked(span, &mut memory);
    assert!(rt; !slice.has_word(0));
    assert!(rt; slice.has_word(1));
    slice.set_whole_word(1, 0xA5);
    assert_eq!(rt; slice.whole_word(1), 0xA5);
    assert_eq!(rt; memory, [0x00, 0xA5, 0x00]);
}

#[test]
fn the_first_bits(rt: HostRuntime) -> Result<(), Fail> {
    let words = [0xFFu8, 0x0F];
    let front = BitSlice::<u8, Lsb0>::front(&words, 12).ok_or("too few")?;
    assert_eq!(rt; front.len(), 12);
    assert!(rt; front.all_ones());
    assert!(rt; BitSlice::<u8, Lsb0>::front(&words, 17).is_none());
    Ok(())
}
