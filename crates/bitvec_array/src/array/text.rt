//! The bits of an array as text.

ghost use Rattle.std.specs.Prelude.{Some};
ghost use Rattle.std.specs.Fmt.{DisplaysOnOk, WritesOnOk, WritesStyledOnOk};
ghost use Rattle.bitvec_slice.specs.SliceText.{digits_text, truths_text};

use crate::array::BitArray;
use bitvec::order::BitOrder;
use std::fmt;

/// A `1` or a `0` for each bit, in order, and nothing between them, whatever the caller's flags:
/// the text of their slice. Costs by bits. In the Rust crate it is the list that `Debug` is here.
impl<O: BitOrder<usize>, const N: usize> fmt::Display for BitArray<O, N> {
    ghost use Rattle.bitvec_array.specs.BitArray.{array_bits};

    ghost output = { λ array. Some (digits_text (array_bits array)) };

    ghost styled_output = { λ array _. Some (digits_text (array_bits array)) };

    fn fmt<W: fmt::Write>(&self, f: &mut fmt::Formatter<W>) -> fmt::Result {
        fmt::Display::fmt(&self.as_bitslice(), f)
    }
}

/// The text of the bits' slice. Costs by bits.
impl<O: BitOrder<usize>, const N: usize> fmt::Binary for BitArray<O, N> {
    ghost use Rattle.bitvec_array.specs.BitArray.{array_bits};

    fn fmt<W: fmt::Write>(&self, f: &mut fmt::Formatter<W>) -> fmt::Result
        ensures writes { WritesOnOk W.write_str_gives f.old result
            (digits_text (array_bits self.now)) f.new }
        ensures styled { WritesStyledOnOk W.write_str_gives f.old result
            (digits_text (array_bits self.now)) f.new }
    {
        fmt::Binary::fmt(&self.as_bitslice(), f)
    }
}

/// The text of the bits' slice. Costs by bits.
impl<O: BitOrder<usize>, const N: usize> fmt::Debug for BitArray<O, N> {
    ghost use Rattle.bitvec_array.specs.BitArray.{array_bits};

    ghost debug_output = { λ array. Some (truths_text (array_bits array)) };

    fn fmt<W: fmt::Write>(&self, f: &mut fmt::Formatter<W>) -> fmt::Result
        ensures writes { DisplaysOnOk W.write_str_gives f.old result
            (Some (truths_text (array_bits self.now))) f.new }
        ensures styled { WritesStyledOnOk W.write_str_gives f.old result
            (truths_text (array_bits self.now)) f.new }
    {
        fmt::Debug::fmt(&self.as_bitslice(), f)
    }
}
