//! Callers: one whose contract is the history of its calls, and others that are proved with no
//! file.

ghost use Rattle.std.specs.Prelude.{◌≡◌, ℕ, ◌%◌, ◌≤◌, List, ◌∷◌, IfSome, IsTrue, length, slice_get};
ghost use Rattle.bitvec_slice.specs.Bits.{AreFree};
ghost use Rattle.freemap.specs.Blocks.{word_count, AreInUse};
ghost use Rattle.freemap.specs.FreeRuns.{free_runs};
ghost use Rattle.freemap.specs.History.{Owns, OwnsMore};
ghost use Rattle.freemap.specs.Leveled.{map_of, level_loans};
ghost use Rattle.freemap.specs.Loans.{behind_levels, behind_loans};
ghost use Rattle.freemap.specs.Map.{in_use};
ghost use Rattle.freemap.specs.Summary.{summary_words};

use bitvec::order::{BitOrder, Lsb0};
use freemap::{FreeMap, Level, LeveledMap, PlainLevel, TwoLevels, two_levels};
use std::test::Fail;

/// Takes two runs and gives the first back; `None` where there are not both. Whatever ranges were
/// live before are live still, the second run is one more, and they hold what is in use.
fn two_and_back<O: BitOrder<u64>>(
    map: &mut FreeMap<'_, O>,
    first: usize,
    second: usize,
) -> Option<usize>
    ensures { (live : List (ℕ × ℕ)) → Owns (in_use map.old) live
        → IfSome result (λ at. Owns (in_use map.new) ((at, second) ∷ live)) }
{
    let at = map.alloc_run(first)?;
    let then = map.alloc_run(second)?;
    map.free(at, first);
    Some(then)
}

/// Hands out a block from a hint on, and the lowest one where there is none.
fn near<O: BitOrder<u64>>(map: &mut FreeMap<'_, O>, hint: usize) -> Option<usize>
    ensures owned { OwnsMore (in_use map.old) (in_use map.new) 1 result }
    ensures handed { IfSome result (λ at. AreInUse (in_use map.new) at 1) }
{
    match map.alloc_at_or_after(hint) {
        Some(at) => Some(at),
        None => map.alloc(),
    }
}

/// Hands out a page of eight blocks, which begins at a multiple of eight.
fn page<O: BitOrder<u64>>(map: &mut FreeMap<'_, O>) -> Option<usize>
    ensures { IfSome result (λ at. (at % 8 ≡ 0) × AreInUse (in_use map.new) at 8) }
{
    map.alloc_run_aligned(8, 8)
}

/// Puts the first four blocks in use, where they are free.
fn header<O: BitOrder<u64>>(map: &mut FreeMap<'_, O>) -> bool
    ensures { IsTrue result → AreInUse (in_use map.new) 0 4 }
{
    map.reserve(0, 4)
}

/// Takes blocks back and hands out the same ones, which cannot fail.
fn again<O: BitOrder<u64>>(map: &mut FreeMap<'_, O>, at: usize, count: usize) -> bool
    requires { AreInUse (in_use map.old) at count }
    ensures { IsTrue result }
{
    map.free(at, count);
    map.reserve(at, count)
}

/// The first hole of a map, which the next run of free blocks from block 0 on would fill.
fn first_hole<O: BitOrder<u64>>(map: &FreeMap<'_, O>) -> Option<(usize, usize)>
    ensures { result ≡ slice_get (free_runs (in_use map.now)) 0 }
{
    map.iter_free_runs().next()
}

/// The same two calls under levels, whatever they are.
fn again_under<O: BitOrder<u64>, S: Level>(
    map: &mut LeveledMap<'_, O, S>,
    at: usize,
    count: usize,
) -> bool
    requires { AreInUse (in_use (map_of map.old)) at count }
    ensures { IsTrue result }
{
    map.free(at, count);
    map.reserve(at, count)
}

/// Hands out a page under levels.
fn page_under<O: BitOrder<u64>, S: Level>(map: &mut LeveledMap<'_, O, S>) -> Option<usize>
    ensures { IfSome result (λ at. (at % 8 ≡ 0) × AreInUse (in_use (map_of map.new)) at 8) }
{
    map.alloc_run_aligned(8, 8)
}

/// Hands out two blocks. The levels lend the same words then, and what is no mark is as before.
fn two_under<O: BitOrder<u64>, S: Level>(map: &mut LeveledMap<'_, O, S>) -> Option<(usize, usize)>
    ensures { level_loans map.new ≡ level_loans map.old }
{
    let first = map.alloc()?;
    let second = map.alloc_run(1)?;
    Some((first, second))
}

/// A map under two levels, of which a page is handed out. What lies behind the marks is as it was.
fn page_of_two<'a, O: BitOrder<u64>>(
    map: FreeMap<'a, O>,
    summary: &'a mut [u64],
) -> TwoLevels<'a, O>
    requires { summary_words (length (in_use map)) ≤ length summary.old }
    ensures { behind_loans (level_loans result)
        ≡ behind_levels (λ i. i) (word_count (length (in_use map.entry))) summary.old }
{
    let mut map = two_levels(map, summary);
    map.alloc_run(8);
    map
}

#[test]
fn two_and_one_back(rt: HostRuntime) -> Result<(), Fail> {
    let mut words = [0u64; 1];
    let mut map = FreeMap::<Lsb0>::new_unchecked(&mut words, 64);
    assert_eq!(rt; two_and_back(&mut map, 3, 5), Some(3));
    assert_eq!(rt; words, [0xF8]);
    Ok(())
}

#[test]
fn pages_and_holes(rt: HostRuntime) -> Result<(), Fail> {
    let mut words = [0u64; 1];
    let mut map = FreeMap::<Lsb0>::new_unchecked(&mut words, 64);
    assert!(rt; header(&mut map) && !header(&mut map));
    assert_eq!(rt; page(&mut map), Some(8));
    assert_eq!(rt; near(&mut map, 40), Some(40));
    assert_eq!(rt; near(&mut map, 64), Some(4));
    assert_eq!(rt; first_hole(&map), Some((5, 3)));
    if map.is_in_use(8, 8) {
        assert!(rt; again(&mut map, 8, 8));
    }
    assert_eq!(rt; words, [0x0000_0100_0000_FF1F]);
    Ok(())
}

#[test]
fn pages_under_levels(rt: HostRuntime) -> Result<(), Fail> {
    let mut words = [0u64; 2];
    let mut summary = [0u64; 2];
    let map = FreeMap::<Lsb0>::new_unchecked(&mut words, 128);
    let mut map = two_levels(map, &mut summary);
    assert_eq!(rt; page_under(&mut map), Some(0));
    assert_eq!(rt; page_under(&mut map), Some(8));
    if map.as_map().is_in_use(0, 16) {
        assert!(rt; again_under(&mut map, 0, 16));
    }
    assert_eq!(rt; map.as_map().count_free(), 112);
    Ok(())
}

#[test]
fn one_level(rt: HostRuntime) -> Result<(), Fail> {
    let mut words = [0u64; 2];
    let mut marks = [u64::MAX];
    let map = FreeMap::<Lsb0>::new_unchecked(&mut words, 128);
    let level = PlainLevel::new_unchecked(&mut marks, 2);
    let mut map = LeveledMap::over(map, level);
    assert_eq!(rt; map.alloc_run(63), Some(0));
    assert_eq!(rt; two_under(&mut map), Some((63, 64)));
    assert_eq!(rt; marks, [0xFFFF_FFFF_FFFF_FFFD]);
    Ok(())
}

#[test]
fn words_behind_two_levels(rt: HostRuntime) -> Result<(), Fail> {
    let mut words = [0u64; 2];
    let mut summary = [u64::MAX; 3];
    let map = FreeMap::<Lsb0>::new_unchecked(&mut words, 128);
    let mut map = page_of_two(map, &mut summary);
    assert_eq!(rt; map.alloc_run(56), Some(8));
    let behind = u64::MAX;
    assert_eq!(rt; summary, [behind - 2, behind - 1, behind]);
    Ok(())
}
