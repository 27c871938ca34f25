//! Keys that are inserted into a filter, and those of two filters in one.

use bitvec::order::{Lsb0, Msb0};
use bitvec_slice::slice::BitSliceMut;
use example_pages::bloom::Bloom;
use std::test::Fail;

// Of 16 bits a key sets number `low + i * high`, by 16, for i from 0 to 3, where `low` and `high`
// are its lower and its upper 32 digits: 5, 8, 11 and 14.
const STEPS_OF_3: u64 = 0x0000_0003_0000_0005;
// 7, four times.
const SEVEN: u64 = 7;
// 15, 0, 1 and 2.
const STEPS_OF_1: u64 = 0x0000_0001_0000_000F;

#[test]
fn what_was_inserted_is_found(rt: HostRuntime) -> Result<(), Fail> {
    let mut memory = [0xFFu8, 0xFF];
    let mut filter = Bloom::new(BitSliceMut::<u8, Msb0>::all_unchecked(&mut memory)).ok_or(
        "no bits",
    )?;
    assert_eq!(rt; filter.count_set(), 0);
    assert!(rt; !filter.contains(SEVEN));
    filter.insert(STEPS_OF_3);
    assert!(rt; filter.contains(STEPS_OF_3));
    assert!(rt; !filter.contains(SEVEN));
    filter.insert(SEVEN);
    assert!(rt; filter.contains(SEVEN));
    assert_eq!(rt; filter.count_set(), 5);

    // Never inserted, but bit 5 is set; bit 6 is not.
    assert!(rt; filter.contains(5));
    assert!(rt; !filter.contains(6));
    assert_eq!(rt; memory, [0x05, 0x92]);
    Ok(())
}

#[test]
fn a_union_finds_the_keys_of_both(rt: HostRuntime) -> Result<(), Fail> {
    let mut memory = [0u8; 2];
    let mut words = [0xFFFF_FFFFu32];
    let mut filter = Bloom::new(BitSliceMut::<u8, Msb0>::all_unchecked(&mut memory)).ok_or(
        "no bits",
    )?;
    filter.insert(STEPS_OF_3);
    let Ok(front) = BitSliceMut::<u32, Lsb0>::front(&mut words, 16) else {
        return Err(Fail::from("few words"));
    };
    let mut other = Bloom::new(front).ok_or("no bits")?;
    other.insert(STEPS_OF_1);
    assert!(rt; !filter.contains(STEPS_OF_1));
    assert_eq!(rt; filter.len(), other.len());
    if filter.len() == other.len() {
        filter.unite(&other);
    }
    assert!(rt; filter.contains(STEPS_OF_3));
    assert!(rt; filter.contains(STEPS_OF_1));
    assert!(rt; !other.contains(STEPS_OF_3));
    assert_eq!(rt; filter.count_set(), 8);
    assert_eq!(rt; memory, [0xE4, 0x93]);
    assert_eq!(rt; words, [0xFFFF_8007]);

    // A filter has at least one bit.
    assert!(rt; Bloom::new(BitSliceMut::<u8, Msb0>::all_unchecked(&mut [])).is_none());
    Ok(())
}
