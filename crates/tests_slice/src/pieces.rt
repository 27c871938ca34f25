//! Pieces of slices, where they lie.

ghost use Rattle.std.specs.Prelude.{◌-◌, ◌<◌, IfSome};
ghost use Rattle.bitvec_slice.specs.BitSlice.{slice_len};
ghost use Rattle.bitvec_slice.specs.PieceIters.{IsRangeOf};

use bitvec::mem::BitRegister;
use bitvec::order::{BitOrder, Lsb0};
use bitvec_slice::slice::BitSlice;

/// The first window of `n` bits.
fn first_window<'a, R: BitRegister, O: BitOrder<R>>(
    slice: BitSlice<'a, R, O>,
    n: usize,
) -> Option<BitSlice<'a, R, O>>
    requires { 0 < n }
    ensures { IfSome result (λ window. IsRangeOf slice.entry 0 n window) }
{
    slice.windows(n).next()
}

/// The last window of `n` bits.
fn last_window<'a, R: BitRegister, O: BitOrder<R>>(
    slice: BitSlice<'a, R, O>,
    n: usize,
) -> Option<BitSlice<'a, R, O>>
    requires { 0 < n }
    ensures { let len = slice_len slice.entry
        in IfSome result (λ window. IsRangeOf slice.entry (len - n) len window) }
{
    slice.windows(n).next_back()
}

#[test]
fn windows_lie_in_the_slice(rt: HostRuntime) {
    let memory = [0b0110_0101u8];
    let slice = BitSlice::<u8, Lsb0>::all_unchecked(&memory);
    assert_eq!(rt; first_window(slice, 3).map(|it| it.count_ones()), Some(2));
    assert_eq!(rt;
        last_window(slice, 3).map(|it| it.first_one()),
        Some(Some(0))
    );
    assert!(rt; first_window(slice, 9).is_none());
}

#[test]
fn windows_are_passed_over(rt: HostRuntime) {
    let memory = [0b0110_0101u8];
    let slice = BitSlice::<u8, Lsb0>::all_unchecked(&memory);
    let mut windows = slice.windows(3);
    assert_eq!(rt; windows.nth(1).map(|it| it.first_one()), Some(Some(1)));
    assert_eq!(rt; windows.nth_back(1).map(|it| it.count_ones()), Some(2));
    assert_eq!(rt; windows.len(), 2);
    assert!(rt; windows.nth(2).is_none());
    assert_eq!(rt; windows.len(), 0);
    let mut windows = slice.windows(3);
    assert!(rt; windows.nth_back(6).is_none());
    assert_eq!(rt; windows.len(), 0);
}

#[test]
fn chunks_are_passed_over_as_far_as_they_go(rt: HostRuntime) {
    let memory = [0b0110_0101u8, 0b1000_0111];
    let slice = BitSlice::<u8, Lsb0>::all_unchecked(&memory);
    for n in 0..5 {
        let mut one_by_one = slice.chunks(5);
        let mut from_back = slice.chunks(5);
        for _ in 0..n {
            let _passed = one_by_one.next();
            let _passed = from_back.next_back();
        }
        let mut chunks = slice.chunks(5);
        assert!(rt;
            chunks.nth(n).map(|it| it.count_ones()) == one_by_one.next().map(|it| it.count_ones())
        );
        assert_eq!(rt; chunks.len(), one_by_one.len());
        let mut chunks = slice.chunks(5);
        assert!(rt;
            chunks.nth_back(n).map(|it| it.count_ones())
                == from_back.next_back().map(|it| it.count_ones())
        );
        assert_eq!(rt; chunks.len(), from_back.len());
    }
    let mut chunks = slice.chunks(usize::MAX);
    assert!(rt; chunks.nth(usize::MAX).is_none());
    assert_eq!(rt; chunks.len(), 0);
    let mut chunks = slice.chunks(usize::MAX);
    assert_eq!(rt; chunks.nth_back(0).map(|it| it.len()), Some(16));
}

#[test]
fn rchunks_are_passed_over_as_far_as_they_go(rt: HostRuntime) {
    let memory = [0b0110_0101u8, 0b1000_0111];
    let slice = BitSlice::<u8, Lsb0>::all_unchecked(&memory);
    for n in 0..5 {
        let mut one_by_one = slice.rchunks(5);
        let mut from_back = slice.rchunks(5);
        for _ in 0..n {
            let _passed = one_by_one.next();
            let _passed = from_back.next_back();
        }
        let mut chunks = slice.rchunks(5);
        assert!(rt;
            chunks.nth(n).map(|it| it.count_ones()) == one_by_one.next().map(|it| it.count_ones())
        );
        assert_eq!(rt; chunks.len(), one_by_one.len());
        let mut chunks = slice.rchunks(5);
        assert!(rt;
            chunks.nth_back(n).map(|it| it.count_ones())
                == from_back.next_back().map(|it| it.count_ones())
        );
        assert_eq!(rt; chunks.len(), from_back.len());
    }
    let mut chunks = slice.rchunks(usize::MAX);
    assert!(rt; chunks.nth(usize::MAX).is_none());
    assert_eq!(rt; chunks.len(), 0);
    let mut chunks = slice.rchunks(usize::MAX);
    assert_eq!(rt; chunks.nth_back(0).map(|it| it.len()), Some(16));
}

#[test]
fn whole_chunks_are_passed_over_and_the_remainder_stays(rt: HostRuntime) {
    let memory = [0b0110_0101u8, 0b1000_0111];
    let mut chunks = BitSlice::<u8, Lsb0>::all_unchecked(&memory).chunks_exact(5);
    assert_eq!(rt; chunks.nth(1).map(|it| it.count_ones()), Some(4));
    assert_eq!(rt; chunks.nth_back(0).map(|it| it.first_one()), Some(Some(0)));
    assert!(rt; chunks.nth(0).is_none());
    assert_eq!(rt; chunks.remainder().first_one(), Some(0));
}
