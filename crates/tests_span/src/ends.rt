//! Spans at the ends of the number types.
//!
//! Each condition at its edge is known from the contracts alone, by a function that calls without a
//! test or says what the test returns.

ghost use Rattle.std.specs.Prelude.{◌≡◌, pos, IsTrue};
ghost use Rattle.bitvec_span.specs.BitSpan.{span_of};

use bitvec_order::index::{BitIdx, Limits};
use bitvec_order::order::Lsb0;
use bitvec_span::ptr::span::BitSpan;

// The first byte of the lowest word, a span without a test.
fn lowest() -> BitSpan<u8, Lsb0>
    ensures { span_of result ≡ record { word = isize.MIN; head = 0; len = 8 } }
{
    BitSpan::new(isize::MIN, BitIdx::MIN, 8).unwrap()
}

// The last bit that a span has, a span without a test.
fn highest() -> BitSpan<u8, Lsb0>
    ensures { span_of result ≡ record { word = isize.MAX; head = 6; len = 1 } }
{
    BitSpan::new(isize::MAX, BitIdx::new_unchecked(6), 1).unwrap()
}

// Whether the lowest span fits a memory.
fn lowest_fits(lowest: BitSpan<u8, Lsb0>, words: usize) -> bool
    requires { span_of lowest ≡ record { word = isize.MIN; head = 0; len = 8 } }
    ensures { ¬ IsTrue result }
{
    lowest.fits(words)
}

// Whether the two are apart.
fn ends_are_apart(lowest: BitSpan<u8, Lsb0>, highest: BitSpan<u8, Lsb0>) -> bool
    requires lowest { span_of lowest ≡ record { word = isize.MIN; head = 0; len = 8 } }
    requires highest { span_of highest ≡ record { word = isize.MAX; head = 6; len = 1 } }
    ensures { IsTrue result }
{
    lowest.is_disjoint(&highest)
}

// Whether the empty span fits a memory of no words.
fn nothing_fits_nowhere(nothing: BitSpan<u8, Lsb0>) -> bool
    requires { span_of nothing ≡ record { word = pos 0; head = 0; len = 0 } }
    ensures { IsTrue result }
{
    nothing.fits(0)
}
