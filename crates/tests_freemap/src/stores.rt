//! The calls on stores of a few blocks.

ghost use Rattle.std.specs.Prelude.{◌≡◌, Ok};

use bitvec::order::{BitOrder, Lsb0, Msb0};
use freemap::leveled::summary_words_for;
use freemap::map::{has_room, words_for};
use freemap::{FreeMap, FreeRuns, two_levels};
use std::alloc::AllocError;
use std::test::Fail;

// A copy of an iterator over free runs has still to give what the iterator has.
fn copied_runs<'a, O: BitOrder<u64>>(runs: &FreeRuns<'a, O>) -> Result<FreeRuns<'a, O>, AllocError>
    ensures { result ≡ Ok runs.now }
{
    runs.clone()
}

#[test]
fn runs_come_and_go(rt: HostRuntime) -> Result<(), Fail> {
    let mut words = [0u64; 2];
    let mut map = FreeMap::<Lsb0>::new_unchecked(&mut words, 100);
    assert_eq!(rt; map.alloc_run(20), Some(0));
    assert_eq!(rt; map.alloc(), Some(20));
    if map.is_in_use(4, 12) {
        map.free(4, 12);
    }
    assert_eq!(rt; map.alloc_run_aligned(8, 8), Some(8));
    assert_eq!(rt; map.count_free(), 83);
    assert_eq!(rt; map.alloc_at_or_after(70), Some(70));
    assert_eq!(rt; map.alloc_run(80), None);
    assert_eq!(rt; map.alloc_run(29), Some(21));
    assert!(rt; !map.reserve(69, 2));
    assert!(rt; map.reserve(71, 29));
    assert!(rt; !map.reserve(100, 1));
    assert_eq!(rt; words, [0x0003_FFFF_FFFF_FF0F, 0x0000_000F_FFFF_FFC0]);
    Ok(())
}

#[test]
fn free_runs(rt: HostRuntime) -> Result<(), Fail> {
    let mut words = [0x00FF_0000_0000_0F0Fu64];
    let map = FreeMap::<Lsb0>::from_words_unchecked(&mut words, 64);
    assert_eq!(rt; map.next_free_run(0), Some((4, 4)));
    assert_eq!(rt; map.next_free_run(8), Some((12, 36)));
    assert_eq!(rt; map.next_free_run(48), Some((56, 8)));
    assert_eq!(rt; map.next_free_run(64), None);
    assert_eq!(rt; map.largest_run(), 36);
    assert!(rt; map.is_free(12, 36) && !map.is_free(12, 37));
    assert!(rt; map.is_in_use(48, 8) && !map.is_in_use(48, 9));
    Ok(())
}

#[test]
fn all_free_runs(rt: HostRuntime) -> Result<(), Fail> {
    let mut words = [0x00FF_0000_0000_0F0Fu64];
    let map = FreeMap::<Lsb0>::from_words_unchecked(&mut words, 64);
    let mut runs = map.iter_free_runs();
    assert_eq!(rt; runs.next(), Some((4, 4)));
    assert_eq!(rt; runs.next(), Some((12, 36)));
    assert_eq!(rt; runs.next(), Some((56, 8)));
    assert_eq!(rt; runs.next(), None);
    Ok(())
}

#[test]
fn free_runs_across_words(rt: HostRuntime) -> Result<(), Fail> {
    let mut words = [0x0FFF_FFFF_FFFF_FFFFu64, 0, 0x8000_0000_0000_00F0];
    let mut summary = [0; 2];
    let map = FreeMap::<Lsb0>::from_words_unchecked(&mut words, 191);
    let map = two_levels(map, &mut summary);
    let mut runs = map.iter_free_runs();
    assert_eq!(rt; runs.next(), Some((60, 72)));
    assert_eq!(rt; runs.clone().unwrap().next(), Some((136, 55)));
    assert_eq!(rt; runs.next(), Some((136, 55)));
    assert_eq!(rt; runs.next(), None);
    Ok(())
}

#[test]
fn other_orders_and_rooms(rt: HostRuntime) -> Result<(), Fail> {
    let mut words = [0u64; 1];
    let Ok(mut map) = FreeMap::<Msb0>::new(&mut words, 10) else {
        return Ok(());
    };
    assert_eq!(rt; map.alloc_run(3), Some(0));
    assert_eq!(rt; map.blocks(), 10);
    assert_eq!(rt; words, [0xE000_0000_0000_0000]);
    assert!(rt; FreeMap::<Msb0>::new(&mut words, 65).is_err());
    assert_eq!(rt; words_for(65), 2);
    assert!(rt; has_room(1, 64) && !has_room(1, 65));
    Ok(())
}

#[test]
fn levels(rt: HostRuntime) -> Result<(), Fail> {
    let mut words = [0u64; 80];
    let mut summary = [u64::MAX; 3];
    assert_eq!(rt; summary_words_for(5000), 3);
    let map = FreeMap::<Lsb0>::new_unchecked(&mut words, 5000);
    let mut map = two_levels(map, &mut summary);
    assert!(rt; map.reserve(0, 4900));
    assert_eq!(rt; map.alloc(), Some(4900));
    assert_eq!(rt; map.alloc_run_aligned(8, 8), Some(4904));
    assert_eq!(rt; map.alloc_run(4), Some(4912));
    assert_eq!(rt; map.alloc(), Some(4901));
    assert_eq!(rt; map.as_map().count_free(), 86);
    if map.as_map().is_in_use(100, 200) {
        map.free(100, 200);
    }
    assert_eq!(rt; map.alloc_run(200), Some(100));
    assert_eq!(rt; map.alloc_at_or_after(4903), Some(4903));
    assert_eq!(rt; map.alloc_at_or_after(4904), Some(4916));
    assert!(rt; map.reserve(4902, 1) && map.reserve(4917, 83));
    assert_eq!(rt; map.alloc(), None);
    assert_eq!(rt; map.alloc_at_or_after(0), None);
    assert_eq!(rt; map.as_map().largest_run(), 0);
    Ok(())
}

#[test]
fn runs_behind_full_words(rt: HostRuntime) -> Result<(), Fail> {
    let mut words = [0; 800];
    let mut summary = [0; 14];
    let map = FreeMap::<Lsb0>::new_unchecked(&mut words, 51200);
    let mut map = two_levels(map, &mut summary);
    assert!(rt; map.reserve(0, 8) && map.reserve(16, 19240));
    assert!(rt; map.reserve(19272, 25528) && map.reserve(44864, 6336));
    assert_eq!(rt; map.alloc_run(17), Some(44800));
    assert_eq!(rt; map.alloc_run(9), Some(19256));
    assert_eq!(rt; map.alloc_run_aligned(8, 32), Some(44832));
    assert_eq!(rt; map.alloc_run(64), None);
    assert_eq!(rt; map.alloc_run_aligned(3, 7), Some(44821));
    assert_eq!(rt; map.next_free_run(44800), Some((44817, 4)));
    Ok(())
}
