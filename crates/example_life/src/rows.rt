//! Rows combined cell by cell, which stay as they are.
//!
//! An array under an order that is a parameter is copied by `clone` alone: the borrow checker does
//! not yet cover a copy of such a value from behind a reference.

#![tactic(auto, using(crate::proofs::LifeLemmas::cells))]

ghost use Rattle.std.specs.Prelude.{◌≡◌, ◌<◌, ◌&&◌, ◌||◌, ℕ, not, false};
ghost use Rattle.bitvec.specs.Digit.{exclusive_or};
ghost use Rattle.bitvec.specs.Span.{element};
ghost use Rattle.bitvec_array.specs.Array.{array_len};
ghost use Rattle.bitvec_array.specs.BitArray.{array_bits};

use bitvec_array::prelude::{BitArray, BitOrder};

// A row in which no cell lives.
pub(crate) fn none<O: BitOrder<usize>, const N: usize>() -> BitArray<O, N>
    ensures { (j : ℕ) → j < array_len N → element (array_bits result) j ≡ false }
{
    BitArray::zeros()
}

// The same row once more.
pub(crate) fn copy_of<O: BitOrder<usize>, const N: usize>(row: &BitArray<O, N>) -> BitArray<O, N>
    ensures { result ≡ row.now }
{
    row.clone().unwrap()
}

// The cells that live in both rows.
pub(crate) fn both<O: BitOrder<usize>, const N: usize>(
    row: &BitArray<O, N>,
    other: &BitArray<O, N>,
) -> BitArray<O, N>
    ensures { (j : ℕ) → j < array_len N → element (array_bits result) j
        ≡ (element (array_bits row.now) j && element (array_bits other.now) j) }
{
    copy_of(row) & copy_of(other)
}

// Those that live in one of them.
pub(crate) fn either<O: BitOrder<usize>, const N: usize>(
    row: &BitArray<O, N>,
    other: &BitArray<O, N>,
) -> BitArray<O, N>
    ensures { (j : ℕ) → j < array_len N → element (array_bits result) j
        ≡ (element (array_bits row.now) j || element (array_bits other.now) j) }
{
    copy_of(row) | copy_of(other)
}

// Those that live in exactly one of them.
pub(crate) fn one_alone<O: BitOrder<usize>, const N: usize>(
    row: &BitArray<O, N>,
    other: &BitArray<O, N>,
) -> BitArray<O, N>
    ensures { (j : ℕ) → j < array_len N → element (array_bits result) j
        ≡ exclusive_or (element (array_bits row.now) j) (element (array_bits other.now) j) }
{
    copy_of(row) ^ copy_of(other)
}

// Those that do not live in a row.
pub(crate) fn turned<O: BitOrder<usize>, const N: usize>(row: &BitArray<O, N>) -> BitArray<O, N>
    ensures { (j : ℕ) → j < array_len N → element (array_bits result) j
        ≡ not (element (array_bits row.now) j) }
{
    !copy_of(row)
}
