//! The texts of indices, ends, positions, selectors, masks and the error of an index.
//!
//! They are those of the Rust crate without flags, and none follows the caller's flags, as a width
//! or a fill. The contracts say what is written where a call succeeds and the formatter indents
//! nothing.

ghost use Rattle.std.specs.Prelude.{◌≡◌, ◌⊎◌, ◌+◌, ◌≤◌, false, Some, codes};
ghost use Rattle.std.specs.Fmt.{DisplaysOnOk, WritesOnOk, WritesStyledOnOk};
ghost use Rattle.bitvec_mem.specs.Numeral.{numeral};
ghost use Rattle.bitvec_order.specs.Text.{binary_text, decimal_text, debug_text, too_large_text};

use crate::index::{BitEnd, BitIdx, BitIdxError, BitMask, BitPos, BitSel};
use bitvec_mem::mem::BitRegister;
use bitvec_mem::numeral::write_numeral;
use std::error::Error;
use std::fmt;

// A type's name, the register's name in angle brackets, and a number in parentheses.
fn write_debug<R: BitRegister, W: fmt::Write>(
    f: &mut fmt::Formatter<W>,
    type_name: &str,
    n: u128,
    base: u8,
    least: usize,
) -> fmt::Result
    requires base { (base ≡ 2) ⊎ (base ≡ 10) }
    requires short { least ≤ 128 }
    ensures writes { WritesOnOk W.write_str_gives f.old result
        (debug_text type_name.now R.name (numeral base false least n)) f.new }
    ensures styled { WritesStyledOnOk W.write_str_gives f.old result
        (debug_text type_name.now R.name (numeral base false least n)) f.new }
{
    f.write_str(type_name)?;
    f.write_str("<")?;
    f.write_str(R::name_text())?;
    f.write_str(">(")?;
    write_numeral(f, n, base, false, least)?;
    f.write_str(")")
}

/// The number in binary, with zeros before it up to `R::INDX` digits.
impl<R: BitRegister> fmt::Binary for BitIdx<R> {
    fn fmt<W: fmt::Write>(&self, f: &mut fmt::Formatter<W>) -> fmt::Result
        ensures writes { WritesOnOk W.write_str_gives f.old result (binary_text R.INDX self.now)
            f.new }
        ensures styled { WritesStyledOnOk W.write_str_gives f.old result
            (binary_text R.INDX self.now) f.new }
    {
        let index = u128::from(self.into_inner());
        write_numeral(f, index, 2, false, usize::from(R::INDX))
    }
}

impl<R: BitRegister> fmt::Display for BitIdx<R> {
    ghost output = { λ i. Some (binary_text R.INDX i) };

    ghost styled_output = { λ i _. Some (binary_text R.INDX i) };

    fn fmt<W: fmt::Write>(&self, f: &mut fmt::Formatter<W>) -> fmt::Result {
        fmt::Binary::fmt(self, f)
    }
}

impl<R: BitRegister> fmt::Debug for BitIdx<R> {
    ghost debug_output = { λ i. Some (debug_text (codes "BitIdx") R.name (binary_text R.INDX i)) };

    fn fmt<W: fmt::Write>(&self, f: &mut fmt::Formatter<W>) -> fmt::Result
        ensures writes { DisplaysOnOk W.write_str_gives f.old result
            (Some (debug_text (codes "BitIdx") R.name (binary_text R.INDX self.now))) f.new }
        ensures styled { WritesStyledOnOk W.write_str_gives f.old result
            (debug_text (codes "BitIdx") R.name (binary_text R.INDX self.now)) f.new }
    {
        let index = u128::from(self.into_inner());
        write_debug::<R, W>(f, "BitIdx", index, 2, usize::from(R::INDX))
    }
}

impl<R: BitRegister> fmt::Display for BitIdxError<R> {
    ghost output = { λ e. Some (too_large_text e R.name R.BITS) };

    ghost styled_output = { λ e _. Some (too_large_text e R.name R.BITS) };

    fn fmt<W: fmt::Write>(&self, f: &mut fmt::Formatter<W>) -> fmt::Result {
        f.write_str("the value ")?;
        write_numeral(f, u128::from(self.into_inner()), 10, false, 1)?;
        f.write_str(" is too large to index into ")?;
        f.write_str(R::name_text())?;
        f.write_str(" (")?;
        write_numeral(f, u128::from(R::BITS), 10, false, 1)?;
        f.write_str(" bits wide)")
    }
}

impl<R: BitRegister> fmt::Debug for BitIdxError<R> {
    ghost debug_output = { λ e. Some (debug_text (codes "BitIdxError") R.name (decimal_text e)) };

    fn fmt<W: fmt::Write>(&self, f: &mut fmt::Formatter<W>) -> fmt::Result
        ensures writes { DisplaysOnOk W.write_str_gives f.old result
            (Some (debug_text (codes "BitIdxError") R.name (decimal_text self.now))) f.new }
        ensures styled { WritesStyledOnOk W.write_str_gives f.old result
            (debug_text (codes "BitIdxError") R.name (decimal_text self.now)) f.new }
    {
        write_debug::<R, W>(f, "BitIdxError", u128::from(self.into_inner()), 10, 1)
    }
}

impl<R: BitRegister> Error for BitIdxError<R> {}

/// The number in binary, to one digit more than an index, so that the width fits.
impl<R: BitRegister> fmt::Binary for BitEnd<R> {
    fn fmt<W: fmt::Write>(&self, f: &mut fmt::Formatter<W>) -> fmt::Result
        ensures writes { WritesOnOk W.write_str_gives f.old result
            (binary_text (R.INDX + 1) self.now) f.new }
        ensures styled { WritesStyledOnOk W.write_str_gives f.old result
            (binary_text (R.INDX + 1) self.now) f.new }
    {
        let end = u128::from(self.into_inner());
        write_numeral(f, end, 2, false, usize::from(R::INDX) + 1)
    }
}

impl<R: BitRegister> fmt::Display for BitEnd<R> {
    ghost output = { λ e. Some (binary_text (R.INDX + 1) e) };

    ghost styled_output = { λ e _. Some (binary_text (R.INDX + 1) e) };

    fn fmt<W: fmt::Write>(&self, f: &mut fmt::Formatter<W>) -> fmt::Result {
        fmt::Binary::fmt(self, f)
    }
}

impl<R: BitRegister> fmt::Debug for BitEnd<R> {
    ghost debug_output = { λ e. Some
        (debug_text (codes "BitEnd") R.name (binary_text (R.INDX + 1) e)) };

    fn fmt<W: fmt::Write>(&self, f: &mut fmt::Formatter<W>) -> fmt::Result
        ensures writes { DisplaysOnOk W.write_str_gives f.old result
            (Some (debug_text (codes "BitEnd") R.name (binary_text (R.INDX + 1) self.now))) f.new }
        ensures styled { WritesStyledOnOk W.write_str_gives f.old result
            (debug_text (codes "BitEnd") R.name (binary_text (R.INDX + 1) self.now)) f.new }
    {
        let end = u128::from(self.into_inner());
        write_debug::<R, W>(f, "BitEnd", end, 2, usize::from(R::INDX) + 1)
    }
}

/// The number in binary, with zeros before it up to `R::INDX` digits.
impl<R: BitRegister> fmt::Binary for BitPos<R> {
    fn fmt<W: fmt::Write>(&self, f: &mut fmt::Formatter<W>) -> fmt::Result
        ensures writes { WritesOnOk W.write_str_gives f.old result (binary_text R.INDX self.now)
            f.new }
        ensures styled { WritesStyledOnOk W.write_str_gives f.old result
            (binary_text R.INDX self.now) f.new }
    {
        let position = u128::from(self.into_inner());
        write_numeral(f, position, 2, false, usize::from(R::INDX))
    }
}

impl<R: BitRegister> fmt::Display for BitPos<R> {
    ghost output = { λ p. Some (binary_text R.INDX p) };

    ghost styled_output = { λ p _. Some (binary_text R.INDX p) };

    fn fmt<W: fmt::Write>(&self, f: &mut fmt::Formatter<W>) -> fmt::Result {
        fmt::Binary::fmt(self, f)
    }
}

impl<R: BitRegister> fmt::Debug for BitPos<R> {
    ghost debug_output = { λ p. Some (debug_text (codes "BitPos") R.name (binary_text R.INDX p)) };

    fn fmt<W: fmt::Write>(&self, f: &mut fmt::Formatter<W>) -> fmt::Result
        ensures writes { DisplaysOnOk W.write_str_gives f.old result
            (Some (debug_text (codes "BitPos") R.name (binary_text R.INDX self.now))) f.new }
        ensures styled { WritesStyledOnOk W.write_str_gives f.old result
            (debug_text (codes "BitPos") R.name (binary_text R.INDX self.now)) f.new }
    {
        let position = u128::from(self.into_inner());
        write_debug::<R, W>(f, "BitPos", position, 2, usize::from(R::INDX))
    }
}

/// The number in binary, with zeros before it up to `R::BITS` digits.
impl<R: BitRegister> fmt::Binary for BitSel<R> {
    fn fmt<W: fmt::Write>(&self, f: &mut fmt::Formatter<W>) -> fmt::Result
        ensures writes { WritesOnOk W.write_str_gives f.old result (binary_text R.BITS self.now)
            f.new }
        ensures styled { WritesStyledOnOk W.write_str_gives f.old result
            (binary_text R.BITS self.now) f.new }
    {
        let selector = self.into_inner().to_u128();
        write_numeral(f, selector, 2, false, usize::from(R::BITS))
    }
}

impl<R: BitRegister> fmt::Display for BitSel<R> {
    ghost output = { λ s. Some (binary_text R.BITS s) };

    ghost styled_output = { λ s _. Some (binary_text R.BITS s) };

    fn fmt<W: fmt::Write>(&self, f: &mut fmt::Formatter<W>) -> fmt::Result {
        fmt::Binary::fmt(self, f)
    }
}

impl<R: BitRegister> fmt::Debug for BitSel<R> {
    ghost debug_output = { λ s. Some (debug_text (codes "BitSel") R.name (binary_text R.BITS s)) };

    fn fmt<W: fmt::Write>(&self, f: &mut fmt::Formatter<W>) -> fmt::Result
        ensures writes { DisplaysOnOk W.write_str_gives f.old result
            (Some (debug_text (codes "BitSel") R.name (binary_text R.BITS self.now))) f.new }
        ensures styled { WritesStyledOnOk W.write_str_gives f.old result
            (debug_text (codes "BitSel") R.name (binary_text R.BITS self.now)) f.new }
    {
        let selector = self.into_inner().to_u128();
        write_debug::<R, W>(f, "BitSel", selector, 2, usize::from(R::BITS))
    }
}

/// The number in binary, with zeros before it up to `R::BITS` digits.
impl<R: BitRegister> fmt::Binary for BitMask<R> {
    fn fmt<W: fmt::Write>(&self, f: &mut fmt::Formatter<W>) -> fmt::Result
        ensures writes { WritesOnOk W.write_str_gives f.old result (binary_text R.BITS self.now)
            f.new }
        ensures styled { WritesStyledOnOk W.write_str_gives f.old result
            (binary_text R.BITS self.now) f.new }
    {
        let mask = self.into_inner().to_u128();
        write_numeral(f, mask, 2, false, usize::from(R::BITS))
    }
}

impl<R: BitRegister> fmt::Display for BitMask<R> {
    ghost output = { λ m. Some (binary_text R.BITS m) };

    ghost styled_output = { λ m _. Some (binary_text R.BITS m) };

    fn fmt<W: fmt::Write>(&self, f: &mut fmt::Formatter<W>) -> fmt::Result {
        fmt::Binary::fmt(self, f)
    }
}

impl<R: BitRegister> fmt::Debug for BitMask<R> {
    ghost debug_output = { λ m. Some (debug_text (codes "BitMask") R.name (binary_text R.BITS m)) };

    fn fmt<W: fmt::Write>(&self, f: &mut fmt::Formatter<W>) -> fmt::Result
        ensures writes { DisplaysOnOk W.write_str_gives f.old result
            (Some (debug_text (codes "BitMask") R.name (binary_text R.BITS self.now))) f.new }
        ensures styled { WritesStyledOnOk W.write_str_gives f.old result
            (debug_text (codes "BitMask") R.name (binary_text R.BITS self.now)) f.new }
    {
        let mask = self.into_inner().to_u128();
        write_debug::<R, W>(f, "BitMask", mask, 2, usize::from(R::BITS))
    }
}
