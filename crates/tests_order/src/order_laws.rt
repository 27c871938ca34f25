//! Laws of masks and of the verifier's scan. Each function takes and returns nothing; its contract
//! is the law.

ghost use Rattle.std.specs.Prelude.{◌≡◌, ℕ, ◌+◌, ◌*◌, length};
ghost use Rattle.bitvec_order.specs.Masks.{HasDisjointMasks};
ghost use Rattle.bitvec_verify.specs.Scan.{index_tests, pair_tests, absent_tests};

use bitvec_mem::mem::BitRegister;
use bitvec_order::order::{BitOrder, Lsb0, Msb0};

/// Where two ranges of indices do not meet, their masks have no position in common, in any order.
fn masks_are_disjoint<R: BitRegister, O: BitOrder<R>>()
    ensures { HasDisjointMasks R.BITS O.mask_of }
{}

/// How many tests a scan has, by the width of the register.
///
/// A register of 8, 16, 32, 64 or 128 bits has 44, 152, 560, 2,144 or 8,384 masks of two present
/// bounds, and twice its width plus two with an absent bound.
fn scan_counts()
    ensures pairs_8 { length (pair_tests 8) ≡ 44 }
    ensures pairs_16 { length (pair_tests 16) ≡ 152 }
    ensures pairs_32 { length (pair_tests 32) ≡ 560 }
    ensures pairs_64 { length (pair_tests 64) ≡ 2144 }
    ensures pairs_128 { length (pair_tests 128) ≡ 8384 }
    ensures absent_128 { length (absent_tests 128) ≡ 258 }
    ensures pairs { (width : ℕ) → 2 * length (pair_tests width) ≡ width * (width + 3) }
    ensures absent { (width : ℕ) → length (absent_tests width) ≡ 2 * width + 2 }
    ensures indices { (width : ℕ) → length (index_tests width) ≡ 2 * width }
{}

#[test]
fn laws_of_masks_and_scans() {
    masks_are_disjoint::<u8, Lsb0>();
    masks_are_disjoint::<usize, Msb0>();
    scan_counts();
}
