//! The examples in the documents of numbers in slices.

use bitvec::order::{Lsb0, Msb0};
use bitvec::ptr::span::BitSpan;
use bitvec_slice::slice::{BitSlice, BitSliceMut};
use std::test::Fail;

#[test]
fn a_number_of_a_word(rt: HostRuntime) -> Result<(), Fail> {
    let memory = [0x78u8, 0x56, 0x34, 0x12];
    let span: BitSpan<u8, Lsb0> = BitSpan::at(0, 32).unwrap();
    let slice = BitSlice::new(span, &memory).ok_or("outside")?;
    assert_eq!(rt; slice.load_le::<u32>(), 0x12345678);
    assert_eq!(rt; slice.load_le::<usize>(), 0x12345678);
    Ok(())
}

#[test]
fn a_number_of_128_bits(rt: HostRuntime) -> Result<(), Fail> {
    let memory = [0x0123456789ABCDEFu64, 0xFEDCBA9876543210];
    let span: BitSpan<u64, Msb0> = BitSpan::at(0, 128).unwrap();
    let slice = BitSlice::new(span, &memory).ok_or("outside")?;
    assert_eq!(rt;
        slice.load_be::<u128>(),
        0x0123456789ABCDEF_FEDCBA9876543210
    );
    Ok(())
}

#[test]
fn a_signed_number(rt: HostRuntime) -> Result<(), Fail> {
    let memory = [0x2Cu8];
    let span: BitSpan<u8, Lsb0> = BitSpan::at(2, 4).unwrap();
    let slice = BitSlice::new(span, &memory).ok_or("outside")?;
    assert_eq!(rt; slice.load_le::<u8>(), 11);
    assert_eq!(rt; slice.load_signed_le::<i8>(), -5);
    Ok(())
}

#[test]
fn a_signed_number_stored(rt: HostRuntime) {
    let mut memory = [0u8];
    let span: BitSpan<u8, Lsb0> = BitSpan::at(2, 4).unwrap();
    let mut slice = BitSliceMut::new_unchecked(span, &mut memory);
    slice.store_signed_le(-5i32);
    assert_eq!(rt; slice.load_signed_le::<i64>(), -5);
    drop(slice);
    assert_eq!(rt; memory, [0x2C]);
}
