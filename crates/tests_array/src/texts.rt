//! Arrays as texts.

use bitvec::order::{Lsb0, Msb0};
use bitvec_array::array::{BitArray, ZeroArray};
use std::fmt;
use std::test::Fail;

// An array as its `Binary` shows it, since a format takes that of numbers alone.
#[derive(Drop)]
struct AsBinary<'a, T>(&'a T);

impl<T: fmt::Binary> fmt::Display for AsBinary<'_, T> {
    fn fmt<W: fmt::Write>(&self, f: &mut fmt::Formatter<W>) -> fmt::Result {
        fmt::Binary::fmt(self.0, f)
    }
}

// The 64 bits of a word whose first byte is 0xC1 and whose last is 0x35.
const DIGITS: &str = "1100000100000000000000000000000000000000000000000000000000110101";

#[test]
fn digits_and_lists(rt: HostRuntime) -> Result<(), Fail> {
    let bits: BitArray<Msb0, 1> = BitArray::from_words([0xC100000000000035]);
    assert_eq!(rt; format!(in rt.alloc(); "{bits}")?.as_str(), DIGITS);
    assert_eq!(rt;
        format!(in rt.alloc(); "{}", AsBinary(&bits))?.as_str(),
        DIGITS
    );
    let list = format!(in rt.alloc(); "{bits:?}")?;
    assert!(rt; list.as_str().starts_with("[1, 1, 0, 0, 0, 0, 0, 1, 0, 0"));
    assert!(rt; list.as_str().ends_with("0, 0, 1, 1, 0, 1, 0, 1]"));
    assert_eq!(rt; list.len(), 192);
    let none: BitArray<Lsb0, 0> = BitArray::ZERO;
    assert_eq!(rt; format!(in rt.alloc(); "{none}")?.as_str(), "");
    assert_eq!(rt; format!(in rt.alloc(); "{}", AsBinary(&none))?.as_str(), "");
    assert_eq!(rt; format!(in rt.alloc(); "{none:?}")?.as_str(), "[]");
    Ok(())
}

// The bits of 17 words of which each third is one.
#[test]
fn more_than_a_thousand_bits(rt: HostRuntime) -> Result<(), Fail> {
    let mut bits: BitArray<Lsb0, 17> = BitArray::ZERO;
    let mut digits = String::new(rt.alloc());
    let mut list = String::from_str(rt.alloc(), "[")?;
    for i in 0..1088usize {
        let is_third = i % 3 == 0;
        bits.set(i, is_third);
        if i != 0 {
            list.push_str(", ")?;
        }
        digits.push_str(if is_third { "1" } else { "0" })?;
        list.push_str(if is_third { "1" } else { "0" })?;
    }
    list.push_str("]")?;
    assert!(rt; format!(in rt.alloc(); "{bits}")? == digits);
    assert!(rt; format!(in rt.alloc(); "{}", AsBinary(&bits))? == digits);
    assert!(rt; format!(in rt.alloc(); "{bits:?}")? == list);
    Ok(())
}
