//! Vectors, and why a text is not read as one, as texts.

use bitvec::order::{Lsb0, Msb0};
use bitvec_vec::vec::{BitVec, FromTextError};
use std::fmt;
use std::test::Fail;

// A vector as its `Binary` shows it, since a format takes that of numbers alone.
#[derive(Drop)]
struct AsBinary<'a, T>(&'a T);

impl<T: fmt::Binary> fmt::Display for AsBinary<'_, T> {
    fn fmt<W: fmt::Write>(&self, f: &mut fmt::Formatter<W>) -> fmt::Result {
        fmt::Binary::fmt(self.0, f)
    }
}

#[test]
fn digits_and_lists(rt: HostRuntime) -> Result<(), Fail> {
    let bits = BitVec::<u8, Msb0>::from_text(rt.alloc(), "0010110010")?;
    assert_eq!(rt; format!(in rt.alloc(); "{bits}")?.as_str(), "0010110010");
    assert_eq!(rt;
        format!(in rt.alloc(); "{}", AsBinary(&bits))?.as_str(),
        "0010110010"
    );
    let list = format!(in rt.alloc(); "{bits:?}")?;
    assert_eq!(rt; list.as_str(), "[0, 0, 1, 0, 1, 1, 0, 0, 1, 0]");
    let none = BitVec::<u32, Lsb0>::new(rt.alloc());
    assert_eq!(rt; format!(in rt.alloc(); "{none}")?.as_str(), "");
    assert_eq!(rt; format!(in rt.alloc(); "{}", AsBinary(&none))?.as_str(), "");
    assert_eq!(rt; format!(in rt.alloc(); "{none:?}")?.as_str(), "[]");
    Ok(())
}

// Bits of which each third is one, as many as a text of any size has.
#[test]
fn more_than_a_thousand_bits(rt: HostRuntime) -> Result<(), Fail> {
    let mut bits = BitVec::<u16, Lsb0>::new(rt.alloc());
    let mut digits = String::new(rt.alloc());
    let mut list = String::from_str(rt.alloc(), "[")?;
    for i in 0..1100u32 {
        let is_third = i % 3 == 0;
        bits.push(is_third)?;
        if i != 0 {
            list.push_str(", ")?;
        }
        digits.push_str(if is_third { "1" } else { "0" })?;
        list.push_str(if is_third { "1" } else { "0" })?;
    }
    list.push_str("]")?;
    assert!(rt; format!(in rt.alloc(); "{bits}")? == digits);
    assert!(rt; format!(in rt.alloc(); "{}", AsBinary(&bits))? == digits);
    assert!(rt; format!(in rt.alloc(); "{bits:?}")? == list);
    Ok(())
}

#[test]
fn refused_texts(rt: HostRuntime) -> Result<(), Fail> {
    let character = FromTextError::NotADigit(20);
    let text = format!(in rt.alloc(); "{character}")?;
    assert_eq!(rt; text.as_str(), "character 20 is neither 0 nor 1");
    let memory = FromTextError::NoMemory;
    assert_eq!(rt;
        format!(in rt.alloc(); "{memory}")?.as_str(),
        "there is no memory"
    );
    Ok(())
}
