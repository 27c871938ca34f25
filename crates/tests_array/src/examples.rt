//! The examples in the documents of arrays.

use bitvec::order::{Lsb0, Msb0};
use bitvec::ptr::combine::{AndNot, Or, Xor};
use bitvec_array::array::BitArray;
use bitvec_slice::slice::BitSlice;
use std::test::Fail;

#[test]
fn an_array(rt: HostRuntime) -> Result<(), Fail> {
    let mut bits: BitArray<Lsb0, 2> = BitArray::zeros();
    bits.set(70, true);
    assert_eq!(rt; bits.len(), 128);
    assert_eq!(rt; bits.get(70), Some(true));
    assert_eq!(rt; bits.get(128), None);
    assert_eq!(rt; bits.into_words(), [0, 0x40]);
    Ok(())
}

#[test]
fn bits_of_words(rt: HostRuntime) -> Result<(), Fail> {
    let bits: BitArray<Msb0, 1> = BitArray::from_words([1]);
    assert_eq!(rt; bits.get(62), Some(false));
    assert_eq!(rt; bits.get(63), Some(true));
    Ok(())
}

#[test]
fn bits_for_writing(rt: HostRuntime) -> Result<(), Fail> {
    let mut bits: BitArray<Lsb0, 1> = BitArray::zeros();
    let mut slice = bits.as_mut_bitslice();
    slice.fill_range(4, 8, true);
    drop(slice);
    assert_eq!(rt; bits.into_words(), [0xF0]);
    Ok(())
}

#[test]
fn a_slice_into_an_array(rt: HostRuntime) -> Result<(), Fail> {
    let memory = [0xFFu8, 0, 0, 0, 0, 0, 0, 0x80];
    let slice = BitSlice::<u8, Lsb0>::all_unchecked(&memory);
    let mut bits: BitArray<Lsb0, 1> = BitArray::from_words([0x0F0F]);
    bits.combine_from::<AndNot, u8, Lsb0>(slice);
    assert_eq!(rt; bits.into_words(), [0x0F00]);
    Ok(())
}

#[test]
fn an_intersection(rt: HostRuntime) -> Result<(), Fail> {
    let mut bits: BitArray<Lsb0, 1> = BitArray::from_words([0b0011]);
    bits &= BitArray::from_words([0b0101]);
    assert_eq!(rt; bits.into_words(), [0b0001]);
    Ok(())
}

#[test]
fn operators(rt: HostRuntime) -> Result<(), Fail> {
    let low: BitArray<Lsb0, 1> = BitArray::from_words([0b0011]);
    let even: BitArray<Lsb0, 1> = BitArray::from_words([0b0101]);
    assert_eq!(rt; (low & even).into_words(), [0b0001]);
    assert_eq!(rt; (low | even).into_words(), [0b0111]);
    assert_eq!(rt; (low ^ even).into_words(), [0b0110]);
    assert_eq!(rt; (!low).get(1), Some(false));
    assert_eq!(rt; (!low).get(2), Some(true));
    Ok(())
}

#[test]
fn an_array_reversed(rt: HostRuntime) -> Result<(), Fail> {
    let mut bits: BitArray<Msb0, 1> = BitArray::from_words([0b1011]);
    bits.reverse();
    assert_eq!(rt; bits.into_words(), [0b1101 << 60]);
    Ok(())
}

#[test]
fn an_array_rotated(rt: HostRuntime) -> Result<(), Fail> {
    let mut bits: BitArray<Lsb0, 1> = BitArray::from_words([0b1011]);
    bits.rotate_right(60);
    assert_eq!(rt; bits.into_words(), [0b1011 << 60]);
    Ok(())
}

#[test]
fn a_number_in_an_array(rt: HostRuntime) -> Result<(), Fail> {
    let mut bits: BitArray<Lsb0, 1> = BitArray::zeros();
    bits.store_digits_le(4, 9, 43u32);
    assert_eq!(rt; bits.load_digits_le::<u8>(4, 9), 11);
    assert_eq!(rt; bits.into_words(), [11 << 4]);
    Ok(())
}

#[test]
fn a_part_in_another_order(rt: HostRuntime) -> Result<(), Fail> {
    let mut bits: BitArray<Lsb0, 1> = BitArray::from_words([0x13]);
    bits.reverse_range(0, 4);
    bits.invert_range(4, 6);
    assert_eq!(rt; bits.into_words(), [0x2C]);
    Ok(())
}

#[test]
fn a_slice_with_a_part(rt: HostRuntime) -> Result<(), Fail> {
    let memory = [0x0Fu8];
    let slice = BitSlice::<u8, Lsb0>::all_unchecked(&memory);
    let mut bits: BitArray<Lsb0, 1> = BitArray::from_words([0x3300]);
    bits.combine_from_range::<Xor, u8, Lsb0>(8, slice);
    assert_eq!(rt; bits.into_words(), [0x3C00]);
    Ok(())
}

#[test]
fn a_part_with_another(rt: HostRuntime) -> Result<(), Fail> {
    let mut bits: BitArray<Lsb0, 1> = BitArray::from_words([0x8001]);
    bits.combine_within::<Or>(0..13, 3);
    assert_eq!(rt; bits.into_words(), [0x8009]);
    Ok(())
}

#[test]
fn an_intersection_with_a_slice(rt: HostRuntime) -> Result<(), Fail> {
    let memory = [0x0Fu8, 0, 0, 0, 0, 0, 0, 0x80];
    let slice = BitSlice::<u8, Lsb0>::all_unchecked(&memory);
    let mut bits: BitArray<Lsb0, 1> = BitArray::from_words([0x33]);
    bits.and_from(slice);
    assert_eq!(rt; bits.into_words(), [0x03]);
    Ok(())
}
