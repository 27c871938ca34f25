//! The examples in the documents of vectors.

use bitvec::order::{Lsb0, Msb0};
use bitvec::ptr::combine::{AndNot, Or, Xor};
use bitvec::ptr::span::BitSpan;
use bitvec_slice::slice::{BitSlice, ReadBits};
use bitvec_vec::vec::{BitVec, FromTextError};
use std::test::Fail;

#[test]
fn a_vector(rt: HostRuntime) -> Result<(), Fail> {
    let mut bits = BitVec::<u8, Msb0>::new(rt.alloc());
    bits.push(false)?;
    bits.push(true)?;
    assert_eq!(rt; bits.len(), 2);
    assert_eq!(rt; bits.get(1), Some(true));
    assert_eq!(rt; bits.pop(), Some(true));
    assert_eq!(rt; bits.pop(), Some(false));
    assert_eq!(rt; bits.pop(), None);
    Ok(())
}

#[test]
fn a_bit_more(rt: HostRuntime) -> Result<(), Fail> {
    let mut bits = BitVec::<u16, Lsb0>::new(rt.alloc());
    bits.push(true)?;
    assert_eq!(rt; bits.get(0), Some(true));
    Ok(())
}

#[test]
fn repeated_bits(rt: HostRuntime) -> Result<(), Fail> {
    let zeros = BitVec::<u8, Msb0>::repeat(rt.alloc(), false, 50)?;
    let ones = BitVec::<u16, Lsb0>::repeat(rt.alloc(), true, 50)?;
    assert_eq!(rt; zeros.len(), 50);
    assert_eq!(rt; zeros.as_bitslice().count_ones(), 0);
    assert_eq!(rt; ones.as_bitslice().count_ones(), 50);
    Ok(())
}

#[test]
fn bits_of_a_slice(rt: HostRuntime) -> Result<(), Fail> {
    let memory = [0x2Cu8];
    let span: BitSpan<u8, Lsb0> = BitSpan::at(2, 4).unwrap();
    let slice = BitSlice::new(span, &memory).ok_or("outside")?;
    let bits = BitVec::<u32, Msb0>::from_bitslice(rt.alloc(), slice)?;
    assert_eq!(rt; bits.len(), 4);
    assert_eq!(rt; bits.get(0), Some(true));
    assert_eq!(rt; bits.get(2), Some(false));
    Ok(())
}

#[test]
fn bits_of_words(rt: HostRuntime) -> Result<(), Fail> {
    let words = vec![in rt.alloc(); 0x81u8, 0x0F]?;
    assert!(rt; words.len() < 100);
    let bits = BitVec::<u8, Msb0>::from_words(words);
    assert_eq!(rt; bits.len(), 16);
    assert_eq!(rt; bits.get(7), Some(true));
    assert_eq!(rt; bits.get(8), Some(false));
    Ok(())
}

#[test]
fn another_length(rt: HostRuntime) -> Result<(), Fail> {
    let mut bits = BitVec::<u8, Lsb0>::repeat(rt.alloc(), false, 2)?;
    bits.resize(5, true)?;
    let text = format!(in rt.alloc(); "{}", bits.as_bitslice())?;
    assert_eq!(rt; text.as_str(), "00111");
    bits.resize(1, true)?;
    assert_eq!(rt; bits.len(), 1);
    Ok(())
}

#[test]
fn a_slice_behind(rt: HostRuntime) -> Result<(), Fail> {
    let memory = [0b1011u8];
    let span: BitSpan<u8, Lsb0> = BitSpan::at(0, 4).unwrap();
    let slice = BitSlice::new(span, &memory).ok_or("outside")?;
    let mut bits = BitVec::<u16, Msb0>::repeat(rt.alloc(), false, 2)?;
    bits.extend_from_bitslice(slice)?;
    let text = format!(in rt.alloc(); "{}", bits.as_bitslice())?;
    assert_eq!(rt; text.as_str(), "001101");
    Ok(())
}

#[test]
fn truth_values_behind(rt: HostRuntime) -> Result<(), Fail> {
    let mut bits = BitVec::<u8, Msb0>::repeat(rt.alloc(), false, 2)?;
    bits.extend_from_bools(&[true, false, true])?;
    assert_eq!(rt; format!(in rt.alloc(); "{bits}")?.as_str(), "00101");
    Ok(())
}

#[test]
fn bits_of_truth_values(rt: HostRuntime) -> Result<(), Fail> {
    let bits = BitVec::<u8, Lsb0>::from_bools(rt.alloc(), &[true, true, false])?;
    assert_eq!(rt; bits.len(), 3);
    assert_eq!(rt; format!(in rt.alloc(); "{bits}")?.as_str(), "110");
    Ok(())
}

#[test]
fn bits_put_in(rt: HostRuntime) -> Result<(), Fail> {
    let mut bits = BitVec::<usize, Lsb0>::repeat(rt.alloc(), false, 5)?;
    assert_eq!(rt; bits.len(), 5);
    bits.insert(4, true)?;
    assert_eq!(rt; format!(in rt.alloc(); "{bits}")?.as_str(), "000010");
    bits.insert(2, true)?;
    assert_eq!(rt; format!(in rt.alloc(); "{bits}")?.as_str(), "0010010");
    Ok(())
}

#[test]
fn a_bit_taken_out(rt: HostRuntime) -> Result<(), Fail> {
    let mut bits = BitVec::<u8, Lsb0>::repeat(rt.alloc(), false, 4)?;
    assert_eq!(rt; bits.len(), 4);
    bits.insert(2, true)?;
    assert_eq!(rt; bits.len(), 5);
    assert!(rt; bits.remove(2));
    assert_eq!(rt; format!(in rt.alloc(); "{bits}")?.as_str(), "0000");
    Ok(())
}

#[test]
fn the_last_in_its_place(rt: HostRuntime) -> Result<(), Fail> {
    let mut bits = BitVec::<u8, Msb0>::repeat(rt.alloc(), false, 4)?;
    bits.push(true)?;
    assert_eq!(rt; bits.len(), 5);
    assert!(rt; !bits.swap_remove(1));
    assert_eq!(rt; format!(in rt.alloc(); "{bits}")?.as_str(), "0100");
    Ok(())
}

#[test]
fn two_vectors(rt: HostRuntime) -> Result<(), Fail> {
    let mut bits = BitVec::<u16, Msb0>::repeat(rt.alloc(), false, 10)?;
    let mut more = BitVec::<u32, Lsb0>::repeat(rt.alloc(), true, 10)?;
    bits.append(&mut more)?;
    assert_eq!(rt; bits.len(), 20);
    assert_eq!(rt; bits.as_bitslice().count_ones(), 10);
    assert!(rt; more.is_empty());
    Ok(())
}

#[test]
fn the_rest_of_a_vector(rt: HostRuntime) -> Result<(), Fail> {
    let mut bits = BitVec::<u8, Lsb0>::repeat(rt.alloc(), false, 2)?;
    bits.push(true)?;
    assert_eq!(rt; bits.len(), 3);
    let rest = bits.split_off(1)?;
    assert_eq!(rt; format!(in rt.alloc(); "{bits}")?.as_str(), "0");
    assert_eq!(rt; format!(in rt.alloc(); "{rest}")?.as_str(), "01");
    Ok(())
}

#[test]
fn bits_for_writing(rt: HostRuntime) -> Result<(), Fail> {
    let mut bits = BitVec::<u8, Lsb0>::repeat(rt.alloc(), false, 10)?;
    let mut slice = bits.as_mut_bitslice();
    slice.invert();
    drop(slice);
    assert_eq!(rt; bits.as_bitslice().count_ones(), 10);
    Ok(())
}

#[test]
fn bits_of_a_text(rt: HostRuntime) -> Result<(), Fail> {
    let bits = BitVec::<u8, Msb0>::from_text(rt.alloc(), "001011")?;
    assert_eq!(rt; bits.len(), 6);
    assert_eq!(rt; bits.get(2), Some(true));
    assert_eq!(rt; format!(in rt.alloc(); "{bits}")?.as_str(), "001011");
    match BitVec::<u8, Msb0>::from_text(rt.alloc(), "01x1") {
        Ok(_) => assert!(rt; false),
        Err(error) => assert_eq!(rt; error, FromTextError::NotADigit(2)),
    }
    Ok(())
}

#[test]
fn sets_combined(rt: HostRuntime) -> Result<(), Fail> {
    let mut bits = BitVec::<u8, Msb0>::from_text(rt.alloc(), "001110")?;
    let memory = [0b010110u16];
    let span: BitSpan<u16, Lsb0> = BitSpan::at(0, 6).unwrap();
    let other = BitSlice::new(span, &memory).ok_or("outside")?;
    if bits.len() == other.len() {
        bits.combine_from::<AndNot, u16, Lsb0>(other);
    }
    assert_eq!(rt; format!(in rt.alloc(); "{bits}")?.as_str(), "000100");
    Ok(())
}

#[test]
fn what_two_sets_have(rt: HostRuntime) -> Result<(), Fail> {
    let mut bits = BitVec::<u8, Lsb0>::from_text(rt.alloc(), "0011")?;
    let other = BitVec::<u32, Msb0>::from_text(rt.alloc(), "0101")?;
    if bits.len() == other.len() {
        bits.and_from(other.as_bitslice());
    }
    assert_eq!(rt; format!(in rt.alloc(); "{bits}")?.as_str(), "0001");
    Ok(())
}

#[test]
fn all_bits_turned(rt: HostRuntime) -> Result<(), Fail> {
    let mut bits = BitVec::<u8, Msb0>::from_text(rt.alloc(), "0011100111")?;
    bits.invert();
    assert_eq!(rt; format!(in rt.alloc(); "{bits}")?.as_str(), "1100011000");
    Ok(())
}

#[test]
fn the_opposite_order(rt: HostRuntime) -> Result<(), Fail> {
    let mut bits = BitVec::<u8, Msb0>::from_text(rt.alloc(), "0010110010")?;
    bits.reverse();
    assert_eq!(rt; format!(in rt.alloc(); "{bits}")?.as_str(), "0100110100");
    Ok(())
}

#[test]
fn the_first_behind_the_others(rt: HostRuntime) -> Result<(), Fail> {
    let mut bits = BitVec::<u8, Lsb0>::from_text(rt.alloc(), "001011")?;
    if 2 <= bits.len() {
        bits.rotate_left(2);
    }
    assert_eq!(rt; format!(in rt.alloc(); "{bits}")?.as_str(), "101100");
    Ok(())
}

#[test]
fn a_number_in_a_vector(rt: HostRuntime) -> Result<(), Fail> {
    let mut bits = BitVec::<u8, Lsb0>::repeat(rt.alloc(), false, 12)?;
    if 9 <= bits.len() {
        bits.store_digits_be(4, 9, 11u32);
        assert_eq!(rt; bits.load_digits_be::<u8>(4, 9), 11);
    }
    assert_eq!(rt; format!(in rt.alloc(); "{bits}")?.as_str(), "000001011000");
    Ok(())
}

#[test]
fn questions_of_a_vector(rt: HostRuntime) -> Result<(), Fail> {
    let bits = BitVec::<u8, Msb0>::from_text(rt.alloc(), "0010110010")?;
    assert_eq!(rt; bits.count_ones(), 4);
    assert_eq!(rt; bits.count_zeros(), 6);
    assert_eq!(rt; bits.first_one(), Some(2));
    assert_eq!(rt; bits.last_one(), Some(8));
    assert_eq!(rt; bits.first_zero(), Some(0));
    assert!(rt; bits.any() && bits.not_all());
    let mut ones = bits.iter_ones();
    assert_eq!(rt; ones.next(), Some(2));
    assert_eq!(rt; ones.next_back(), Some(8));
    assert_eq!(rt; ones.next(), Some(4));
    Ok(())
}

#[test]
fn a_part_in_another_order(rt: HostRuntime) -> Result<(), Fail> {
    let mut bits = BitVec::<u8, Lsb0>::from_words(vec![in rt.alloc(); 0x13u8]?);
    assert!(rt; bits.len() == 8);
    bits.reverse_range(0, 4);
    bits.invert_range(4, 6);
    assert_eq!(rt; bits.load_digits_le::<u8>(0, 8), 0x2C);
    Ok(())
}

#[test]
fn a_slice_with_a_part(rt: HostRuntime) -> Result<(), Fail> {
    let memory = [0x0Fu8];
    let slice = BitSlice::<u8, Lsb0>::all_unchecked(&memory);
    let mut bits = BitVec::<u16, Lsb0>::from_words(vec![in rt.alloc(); 0x3300u16]?);
    assert!(rt; bits.len() == 16);
    bits.combine_from_range::<Xor, u8, Lsb0>(8, slice);
    assert_eq!(rt;
        format!(in rt.alloc(); "{bits}")?.as_str(),
        "0000000000111100"
    );
    Ok(())
}

#[test]
fn a_part_with_another(rt: HostRuntime) -> Result<(), Fail> {
    let mut bits = BitVec::<u16, Lsb0>::from_words(vec![in rt.alloc(); 0x8001u16]?);
    assert!(rt; bits.len() == 16);
    bits.combine_within::<Or>(0..13, 3);
    assert_eq!(rt;
        format!(in rt.alloc(); "{bits}")?.as_str(),
        "1001000000000001"
    );
    Ok(())
}
