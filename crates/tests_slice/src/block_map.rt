//! A map of blocks, a bit each, in words that its user lends: set where a block is in use.

ghost use Rattle.std.specs.Prelude.{◌≡◌, ℕ, ◌+◌, ◌*◌, ◌≤◌, true, false, IfSome, IfNone, MatchOption};
ghost use Rattle.std.specs.Prelude.{length, replicate};
ghost use Rattle.bitvec.specs.Memory.{memory_bits};
ghost use Rattle.bitvec.specs.Place.{region_max_bits};
ghost use Rattle.bitvec.specs.Span.{with_filled};
ghost use Rattle.bitvec.specs.Truths.{ones_in};
ghost use Rattle.bitvec_slice.specs.Bits.{AreFree};
ghost use Rattle.tests_slice.specs.Blocks.{used_blocks};

use bitvec::mem::BitRegister;
use bitvec::order::{BitOrder, Lsb0, Msb0};
use bitvec_slice::slice::{BitSlice, BitSliceMut};

/// The words of a map of 4096 blocks, none of which is in use.
fn free_map() -> [u64; 64]
    ensures { memory_bits 64 (λ i. i) result ≡ replicate 4096 false }
{
    [0; 64]
}

/// How many blocks are in use.
fn count_used<R: BitRegister, O: BitOrder<R>>(words: &[R]) -> usize
    requires { length words.now * R.BITS ≤ region_max_bits }
    ensures { result ≡ ones_in (used_blocks R.number R.BITS O.at_of words.now) }
{
    BitSlice::<R, O>::all_unchecked(words).count_ones()
}

/// Takes the first `count` blocks in a row that are free, and returns the first of them.
fn alloc_run<R: BitRegister, O: BitOrder<R>>(words: &mut [R], count: usize) -> Option<usize>
    requires { length words.old * R.BITS ≤ region_max_bits }
    ensures none { let used = used_blocks R.number R.BITS O.at_of words.old in MatchOption result
        ((at : ℕ) → ¬ AreFree used at count) (λ at. AreFree used at count) }
    ensures fits { IfSome result (λ at. at + count ≤ length words.old * R.BITS) }
    ensures kept { IfNone result (words.new ≡ words.old) }
    ensures taken { let used = used_blocks R.number R.BITS O.at_of in IfSome result (λ at. used
        words.new ≡ with_filled (used words.old) at (at + count) true) }
{
    let Some(at) = BitSlice::<R, O>::all_unchecked(words).find_zeros(count) else {
        return None;
    };
    let mut blocks = BitSliceMut::<R, O>::all_unchecked(words);
    blocks.fill_range(at, at + count, true);
    Some(at)
}

/// Gives `count` blocks back, from block `at` on.
fn free_run<R: BitRegister, O: BitOrder<R>>(words: &mut [R], at: usize, count: usize)
    requires short { length words.old * R.BITS ≤ region_max_bits }
    requires inside { at + count ≤ length words.old * R.BITS }
    ensures { let used = used_blocks R.number R.BITS O.at_of in used words.new ≡ with_filled (used
        words.old) at (at + count) false }
{
    let mut blocks = BitSliceMut::<R, O>::all_unchecked(words);
    blocks.fill_range(at, at + count, false);
}

#[test]
fn blocks_are_taken_and_given_back(rt: HostRuntime) {
    let mut words = free_map();
    assert_eq!(rt; alloc_run::<u64, Lsb0>(&mut words, 70), Some(0));
    assert_eq!(rt; alloc_run::<u64, Lsb0>(&mut words, 10), Some(70));
    assert_eq!(rt; count_used::<u64, Msb0>(&words), 80);
    free_run::<u64, Lsb0>(&mut words, 8, 60);
    assert_eq!(rt; alloc_run::<u64, Lsb0>(&mut words, 61), Some(80));
    assert_eq!(rt; alloc_run::<u64, Lsb0>(&mut words, 60), Some(8));
    assert_eq!(rt; alloc_run::<u64, Lsb0>(&mut words, 4096), None);
    assert_eq!(rt; count_used::<u64, Lsb0>(&words), 141);
}
