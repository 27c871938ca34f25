//! A number for each cell of a row, by its digits.

ghost use Rattle.std.specs.Prelude.{◌≡◌, ◌+◌, ◌<◌, ℕ};
ghost use Rattle.bitvec.specs.Span.{element};
ghost use Rattle.bitvec_array.specs.BitArray.{array_bits};
ghost use Rattle.example_life.specs.Rule.{one_if, lives};

use crate::rows::{both, either, none, one_alone, turned};
use bitvec_array::prelude::{BitArray, BitOrder};

/// A row of 64 cells, under any order.
pub type Row<O> = BitArray<O, 1>;

/// For each cell of a row a number from 0 to 3, or that it is more.
#[derive(Drop)]
pub struct Counts<O: BitOrder<usize>> {
    ones: Row<O>,
    twos: Row<O>,
    fours: Row<O>,
}

impl<O: BitOrder<usize>> Counts<O> {
    ghost use Rattle.example_life.specs.Counts.{CountsTo};

    /// 0 for each cell.
    pub fn zero() -> Self
        ensures { (j : ℕ) → j < 64 → CountsTo result j 0 }
    {
        Counts {
            ones: none(),
            twos: none(),
            fours: none(),
        }
    }

    /// One more for each cell of another row that lives.
    pub fn plus(&self, cells: &Row<O>) -> Self
        ensures { (j n : ℕ) → j < 64 → CountsTo self.now j n
            → CountsTo result j (n + one_if (element (array_bits cells.now) j)) }
    {
        let carry = both(&self.ones, cells);
        let ones = one_alone(&self.ones, cells);
        let twos = one_alone(&self.twos, &carry);
        let fours = either(&self.fours, &both(&self.twos, &carry));
        Counts { ones, twos, fours }
    }

    /// Whether each cell of a row lives next, where these are the numbers of its neighbours that
    /// live: with three neighbours, or alive and with two.
    pub fn lives(&self, row: &Row<O>) -> Row<O>
        ensures { (j n : ℕ) → j < 64 → CountsTo self.now j n
            → element (array_bits result) j ≡ lives (element (array_bits row.now) j) n }
    {
        let few = both(&self.twos, &turned(&self.fours));
        both(&few, &either(&self.ones, row))
    }
}
