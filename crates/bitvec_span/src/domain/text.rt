//! The texts of domains: their items in a base, without leading zeros, a comma and a space between
//! them, in square brackets.
//!
//! They are those of the Rust crate without flags, and none follows the caller's flags. The
//! contracts say what is written where a call succeeds and the formatter indents nothing.

ghost use Rattle.std.specs.Prelude.{◌≡◌, ◌≤◌, ◌++◌, Some, codes, true, false};
ghost use Rattle.std.specs.Fmt.{WritesStyledOnOk, WritesOnOk};
ghost use Rattle.bitvec_span.specs.Parts.{items};
ghost use Rattle.bitvec_span.specs.ItemText.{list_text, rest_text};
ghost use Rattle.bitvec_span.specs.Domain.{domain_parts};

use crate::domain::Domain;
use bitvec_mem::mem::BitRegister;
use bitvec_mem::numeral::write_numeral;
use bitvec_order::order::BitOrder;
use std::fmt;

// The items, each after a comma and a space.
fn write_rest<'a, R: BitRegister, O: BitOrder<R>, W: fmt::Write>(
    rest: Domain<'a, R, O>,
    f: &mut fmt::Formatter<W>,
    base: u8,
    upper: bool,
) -> fmt::Result
    requires low { 2 ≤ base }
    requires high { base ≤ 16 }
    ensures { WritesStyledOnOk W.write_str_gives f.old result
        (rest_text base upper (items R.BITS O.at_of (domain_parts R.number rest.entry))) f.new }
{
    for word in rest {
        f.write_str(", ")?;
        write_numeral(f, word.to_u128(), base, upper, 1)?;
    }
    Ok(())
}

// The items in brackets.
fn write_items<'a, R: BitRegister, O: BitOrder<R>, W: fmt::Write>(
    domain: &Domain<'a, R, O>,
    f: &mut fmt::Formatter<W>,
    base: u8,
    upper: bool,
) -> fmt::Result
    requires low { 2 ≤ base }
    requires high { base ≤ 16 }
    ensures styled { WritesStyledOnOk W.write_str_gives f.old result
        (list_text base upper (items R.BITS O.at_of (domain_parts R.number domain.now))) f.new }
    ensures writes { WritesOnOk W.write_str_gives f.old result
        (list_text base upper (items R.BITS O.at_of (domain_parts R.number domain.now))) f.new }
{
    let mut rest = *domain;
    let Some(first) = rest.next() else {
        return f.write_str("[]");
    };
    f.write_str("[")?;
    write_numeral(f, first.to_u128(), base, upper, 1)?;
    write_rest(rest, f, base, upper)?;
    f.write_str("]")
}

/// The items in decimal.
impl<'a, R: BitRegister, O: BitOrder<R>> fmt::Display for Domain<'a, R, O> {
    ghost use Rattle.std.specs.Prelude.{Some, false};
    ghost use Rattle.bitvec_span.specs.Parts.{items};
    ghost use Rattle.bitvec_span.specs.ItemText.{list_text};
    ghost use Rattle.bitvec_span.specs.Domain.{domain_parts};

    ghost output = { λ d. Some
        (list_text 10 false (items R.BITS O.at_of (domain_parts R.number d))) };

    ghost styled_output = { λ d _. Some
        (list_text 10 false (items R.BITS O.at_of (domain_parts R.number d))) };

    fn fmt<W: fmt::Write>(&self, f: &mut fmt::Formatter<W>) -> fmt::Result {
        write_items(self, f, 10, false)
    }
}

/// The items in binary.
impl<'a, R: BitRegister, O: BitOrder<R>> fmt::Binary for Domain<'a, R, O> {
    ghost use Rattle.bitvec_span.specs.Domain.{domain_parts};

    fn fmt<W: fmt::Write>(&self, f: &mut fmt::Formatter<W>) -> fmt::Result
        ensures writes { WritesOnOk W.write_str_gives f.old result
            (list_text 2 false (items R.BITS O.at_of (domain_parts R.number self.now))) f.new }
        ensures styled { WritesStyledOnOk W.write_str_gives f.old result
            (list_text 2 false (items R.BITS O.at_of (domain_parts R.number self.now))) f.new }
    {
        write_items(self, f, 2, false)
    }
}

/// The items in octal.
impl<'a, R: BitRegister, O: BitOrder<R>> fmt::Octal for Domain<'a, R, O> {
    ghost use Rattle.bitvec_span.specs.Domain.{domain_parts};

    fn fmt<W: fmt::Write>(&self, f: &mut fmt::Formatter<W>) -> fmt::Result
        ensures writes { WritesOnOk W.write_str_gives f.old result
            (list_text 8 false (items R.BITS O.at_of (domain_parts R.number self.now))) f.new }
        ensures styled { WritesStyledOnOk W.write_str_gives f.old result
            (list_text 8 false (items R.BITS O.at_of (domain_parts R.number self.now))) f.new }
    {
        write_items(self, f, 8, false)
    }
}

/// The items in hexadecimal, with small letters.
impl<'a, R: BitRegister, O: BitOrder<R>> fmt::LowerHex for Domain<'a, R, O> {
    ghost use Rattle.bitvec_span.specs.Domain.{domain_parts};

    fn fmt<W: fmt::Write>(&self, f: &mut fmt::Formatter<W>) -> fmt::Result
        ensures writes { WritesOnOk W.write_str_gives f.old result
            (list_text 16 false (items R.BITS O.at_of (domain_parts R.number self.now))) f.new }
        ensures styled { WritesStyledOnOk W.write_str_gives f.old result
            (list_text 16 false (items R.BITS O.at_of (domain_parts R.number self.now))) f.new }
    {
        write_items(self, f, 16, false)
    }
}

/// The items in hexadecimal, with capital letters.
impl<'a, R: BitRegister, O: BitOrder<R>> fmt::UpperHex for Domain<'a, R, O> {
    ghost use Rattle.bitvec_span.specs.Domain.{domain_parts};

    fn fmt<W: fmt::Write>(&self, f: &mut fmt::Formatter<W>) -> fmt::Result
        ensures writes { WritesOnOk W.write_str_gives f.old result
            (list_text 16 true (items R.BITS O.at_of (domain_parts R.number self.now))) f.new }
        ensures styled { WritesStyledOnOk W.write_str_gives f.old result
            (list_text 16 true (items R.BITS O.at_of (domain_parts R.number self.now))) f.new }
    {
        write_items(self, f, 16, true)
    }
}
