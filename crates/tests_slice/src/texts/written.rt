//! Texts that are written: a contract says what a text is where a call succeeds, and these that it
//! does, of long slices too.

use bitvec_slice::prelude::{BitSlice, BitSliceMut, Lsb0, Msb0, TextError};
use std::test::Fail;

#[test]
fn why_a_text_is_refused(rt: HostRuntime) -> Result<(), Fail> {
    let (character, count) = (TextError::NotADigit(2), TextError::OtherLength(0));
    let text = format!(in rt.alloc(); "{character}")?;
    assert_eq!(rt; text.as_str(), "character 2 is neither 0 nor 1");
    let text = format!(in rt.alloc(); "{count}")?;
    assert_eq!(rt; text.as_str(), "0 digits for another number of bits");
    let far = TextError::NotADigit(usize::MAX);
    let text = format!(in rt.alloc(); "{far}")?;
    assert_eq!(rt;
        text.as_str(),
        "character 18446744073709551615 is neither 0 nor 1"
    );
    let many = TextError::OtherLength(1234567890);
    let text = format!(in rt.alloc(); "{many:>60}")?;
    assert_eq!(rt;
        text.as_str(),
        "1234567890 digits for another number of bits"
    );
    Ok(())
}

#[test]
fn a_slice_for_writing_as_text(rt: HostRuntime) -> Result<(), Fail> {
    let mut memory = [0x2Cu8];
    let mut slice = BitSliceMut::<u8, Msb0>::all_unchecked(&mut memory);
    slice.set(0, true);
    let text = format!(in rt.alloc(); "{slice}")?;
    assert_eq!(rt; text.as_str(), "10101100");
    let text = format!(in rt.alloc(); "{slice:?}")?;
    assert_eq!(rt; text.as_str(), "[1, 0, 1, 0, 1, 1, 0, 0]");
    let mut none: [u8; 0] = [];
    let slice = BitSliceMut::<u8, Msb0>::all_unchecked(&mut none);
    let text = format!(in rt.alloc(); "<{slice}>{slice:?}")?;
    assert_eq!(rt; text.as_str(), "<>[]");
    Ok(())
}

// Whether a text has a digit for each bit, and nothing beside them.
fn are_digits(text: &str, bits: &[bool]) -> bool {
    let digits = text.as_bytes();
    digits.len() == bits.len()
        && digits
            .iter()
            .zip(bits.iter())
            .all(|(digit, bit)| *digit == if *bit { b'1' } else { b'0' })
}

// Whether a text has a digit for each bit in brackets, with a comma and a space between two.
fn is_listed(text: &str, bits: &[bool]) -> bool {
    let Some(inner) = text
        .strip_prefix('[')
        .and_then(|text| text.strip_suffix(']'))
    else {
        return false;
    };
    for (digit, bit) in inner.split(", ").zip(bits.iter()) {
        if digit != (if *bit { "1" } else { "0" }) {
            return false;
        }
    }
    // (so there is one for each bit)
    inner.len().wrapping_add(2) == bits.len().wrapping_mul(3)
}

#[test]
fn long_slices_as_texts(rt: HostRuntime) -> Result<(), Fail> {
    let mut memory = [0x9E37_79B9u32; 40];
    let mut bits = [false; 1280];
    for (i, bit) in bits.iter_mut().enumerate() {
        *bit = (0x9E37_79B9u32 >> (i % 32)) & 1 == 1;
    }
    let slice = BitSlice::<u32, Lsb0>::all_unchecked(&memory);
    let text = format!(in rt.alloc(); "{slice}")?;
    assert!(rt; are_digits(text.as_str(), &bits));
    let text = format!(in rt.alloc(); "{slice:?}")?;
    assert!(rt; is_listed(text.as_str(), &bits));
    let slice = BitSliceMut::<u32, Lsb0>::all_unchecked(&mut memory);
    let text = format!(in rt.alloc(); "{slice}")?;
    assert!(rt; are_digits(text.as_str(), &bits));
    let text = format!(in rt.alloc(); "{slice:?}")?;
    assert!(rt; is_listed(text.as_str(), &bits));
    Ok(())
}
