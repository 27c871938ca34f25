//! Rows and grids of cells, and the next generation of each.

ghost use Rattle.std.specs.Prelude.{◌≡◌, ◌+◌, ◌<◌, ℕ, length, map};
ghost use Rattle.bitvec.specs.Span.{element};
ghost use Rattle.bitvec_array.specs.Array.{array_len};
ghost use Rattle.bitvec_array.specs.BitArray.{array_bits};
ghost use Rattle.example_life.specs.Counts.{CountsTo};
ghost use Rattle.example_life.specs.Rule.{place_before, place_behind, beside, around, next_cell};
ghost use Rattle.example_life.specs.Rule.{cell_after, IsNext};

use crate::counts::{Counts, Row};
use crate::rows::copy_of;
use bitvec_array::prelude::{BitArray, BitOrder};

// The row with each cell where the one behind it was, and the first cell last.
fn left<O: BitOrder<usize>, const N: usize>(row: &BitArray<O, N>) -> BitArray<O, N>
    ensures { let xs = array_bits row.now in (j : ℕ) → j < array_len N
        → element (array_bits result) j ≡ element xs (place_behind (length xs) j) }
{
    let mut turned = copy_of(row);
    if N == 0 {
        return turned;
    }
    turned.rotate_left(1);
    turned
}

// The row with each cell where the one before it was, and the last cell first.
fn right<O: BitOrder<usize>, const N: usize>(row: &BitArray<O, N>) -> BitArray<O, N>
    ensures { let xs = array_bits row.now in (j : ℕ) → j < array_len N
        → element (array_bits result) j ≡ element xs (place_before (length xs) j) }
{
    let mut turned = copy_of(row);
    if N == 0 {
        return turned;
    }
    turned.rotate_right(1);
    turned
}

// One more for each cell that lives beside one in a row.
fn plus_beside<O: BitOrder<usize>>(counts: &Counts<O>, row: &Row<O>) -> Counts<O>
    ensures { (j n : ℕ) → j < 64 → CountsTo counts.now j n
        → CountsTo result j (n + beside (array_bits row.now) j) }
{
    counts.plus(&right(row)).plus(&left(row))
}

// The same with the cell itself, of a row above or below.
fn plus_around<O: BitOrder<usize>>(counts: &Counts<O>, row: &Row<O>) -> Counts<O>
    ensures { (j n : ℕ) → j < 64 → CountsTo counts.now j n
        → CountsTo result j (n + around (array_bits row.now) j) }
{
    plus_beside(counts, row).plus(row)
}

/// The next generation of a row, by the rows above and below it. Each row goes round at its ends.
pub fn next_row<O: BitOrder<usize>>(above: &Row<O>, row: &Row<O>, below: &Row<O>) -> Row<O>
    ensures { (j : ℕ) → j < 64 → element (array_bits result) j
        ≡ next_cell (array_bits above.now) (array_bits row.now) (array_bits below.now) j }
{
    let above_it = plus_around(&Counts::zero(), above);
    let beside_it = plus_beside(&above_it, row);
    plus_around(&beside_it, below).lives(row)
}

// The place before one of `many`, where the last is before the first.
#[tactic(auto, using(crate::proofs::LifeLemmas::places))]
fn before(many: usize, i: usize) -> usize
    requires { i < many }
    ensures place { result ≡ place_before many i }
    ensures below { result < many }
{
    if 0 < i { i - 1 } else { many - 1 }
}

// The place behind it.
#[tactic(auto, using(crate::proofs::LifeLemmas::places))]
fn behind(many: usize, i: usize) -> usize
    requires { i < many }
    ensures place { result ≡ place_behind many i }
    ensures below { result < many }
{
    if i + 1 < many { i + 1 } else { 0 }
}

// The next generation of a grid's row.
fn row_after<O: BitOrder<usize>>(rows: &[Row<O>], i: usize) -> Row<O>
    requires { i < length rows.now }
    ensures { (j : ℕ) → j < 64 → element (array_bits result) j
        ≡ cell_after (map array_bits rows.now) i j }
{
    let height = rows.len();
    let (above, below) = (before(height, i), behind(height, i));
    next_row(&rows[above], &rows[i], &rows[below])
}

/// The next generation of a grid, whose last row is above the first.
pub fn next<O: BitOrder<usize>>(rows: &[Row<O>], out: &mut [Row<O>])
    requires { length out.old ≡ length rows.now }
    ensures { IsNext (map array_bits rows.now) (map array_bits out.new) }
{
    for i in 0..rows.len() {
        out[i] = row_after(rows, i);
    }
}
