//! Pages that are handed out and taken back, and what the words of the map are then.

use bitvec::order::{Lsb0, Msb0};
use example_pages::pages::Pages;
use std::test::Fail;

// Pages 0 to 127 are the bits of the first two words, and pages 128 to 175 the lowest 48 of the
// third, whose highest 16 are no concern of the map.
#[test]
fn pages_go_out_and_come_back(rt: HostRuntime) -> Result<(), Fail> {
    let mut words = [0u64, 0, 0xFFFF_0000_0000_0000];
    let Ok(mut pages) = Pages::<u64, Lsb0>::over(&mut words, 176) else {
        return Err(Fail::from("few words"));
    };
    assert_eq!(rt; pages.len(), 176);
    assert_eq!(rt; pages.alloc(), Some(0));
    assert_eq!(rt; pages.alloc_run(100), Some(1));
    assert_eq!(rt; pages.alloc_run(100), None);
    assert_eq!(rt; pages.count_free(), 75);
    assert_eq!(rt; pages.alloc_run(75), Some(101));
    assert_eq!(rt; pages.alloc(), None);
    assert_eq!(rt; pages.count_free(), 0);
    assert!(rt; pages.are_in_use(50, 20));
    if pages.are_in_use(50, 20) {
        pages.free(50, 20);
    }
    assert_eq!(rt; pages.count_free(), 20);
    assert_eq!(rt; pages.alloc_run(3), Some(50));
    assert!(rt; !pages.are_in_use(50, 20));
    assert!(rt; !pages.are_in_use(170, 7));

    // Pages 53 to 69 are free: bits 53 to 63 of the first word, and 0 to 5 of the second.
    assert_eq!(rt; words[0], 0x001F_FFFF_FFFF_FFFF);
    assert_eq!(rt; words[1], 0xFFFF_FFFF_FFFF_FFC0);
    assert_eq!(rt; words[2], 0xFFFF_FFFF_FFFF_FFFF);
    Ok(())
}

// In bytes whose first bit is the highest: pages 4, 5, 6, 9, 10 and 11 are free.
#[test]
fn pages_are_handed_out_of_a_map_that_was_stored(rt: HostRuntime) -> Result<(), Fail> {
    let mut words = [0xF1u8, 0x8F];
    assert!(rt; Pages::<u8, Msb0>::over(&mut words, 17).is_err());
    let Ok(mut pages) = Pages::<u8, Msb0>::over(&mut words, 12) else {
        return Err(Fail::from("few words"));
    };
    assert_eq!(rt; pages.count_free(), 6);
    assert_eq!(rt; pages.alloc_run(4), None);
    assert_eq!(rt; pages.alloc_run(3), Some(4));
    assert_eq!(rt; pages.alloc(), Some(9));
    if pages.are_in_use(7, 2) {
        pages.free(7, 2);
    }
    assert_eq!(rt; pages.count_free(), 4);
    assert_eq!(rt; words, [0xFE, 0x4F]);
    Ok(())
}
