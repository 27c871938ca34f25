//! Each edit, question and trait of arrays once.

use bitvec::order::{Lsb0, Msb0};
use bitvec_array::array::{BitArray, ZeroArray};
use bitvec_slice::slice::ReadBits;
use std::cmp::Ordering;
use std::test::Fail;

#[test]
fn edits(rt: HostRuntime) -> Result<(), Fail> {
    let mut bits: BitArray<Msb0, 2> = BitArray::ZERO;
    bits.fill_range(60, 68, true);
    assert_eq!(rt; bits.count_ones(), 8);
    assert_eq!(rt; bits.first_one(), Some(60));
    assert_eq!(rt; bits.last_one(), Some(67));
    bits.copy_within(60..70, 10);
    bits.swap(0, 17);
    assert!(rt; bits.replace(0, false));
    let other = bits;
    bits.fill(true);
    assert!(rt; bits.all_ones());
    assert_eq!(rt; bits.count_zeros(), 0);
    bits.and_not(other);
    assert_eq!(rt; bits.count_zeros(), other.count_ones());
    assert_eq!(rt; other.count_ones(), 15);
    Ok(())
}

#[test]
fn comparisons_and_texts(rt: HostRuntime) -> Result<(), Fail> {
    let less: BitArray<Lsb0, 1> = BitArray::from_words([0b1110]);
    let more: BitArray<Lsb0, 1> = BitArray::from_words([0b0001]);
    assert!(rt; less != more);
    assert!(rt; less < more);
    assert_eq!(rt; more.cmp(&less), Ordering::Greater);
    assert!(rt; less == less.clone()?);
    let none: BitArray<Lsb0, 1> = BitArray::default();
    assert!(rt; none == BitArray::ZERO);
    let text = format!(in rt.alloc(); "{less}")?;
    assert!(rt; text.as_str().starts_with("01110000"));
    assert_eq!(rt; text.len(), 64);
    let list = format!(in rt.alloc(); "{more:?}")?;
    assert!(rt; list.as_str().starts_with("[1, 0, 0"));
    Ok(())
}
