//! The code of RFC 1951, 3.2.2, and lengths that are refused.

use example_huffman::code::{Code, LengthsError};
use std::test::Fail;

// Symbols A to H have the lengths 3, 3, 3, 3, 3, 2, 4 and 4. So F is 00, A 010, B 011, C 100, D 101,
// E 110, G 1110 and H 1111.
const LENGTHS: [u8; 8] = [3, 3, 3, 3, 3, 2, 4, 4];

#[test]
fn the_codes_of_the_standard(rt: HostRuntime) -> Result<(), Fail> {
    let code = Code::new(&LENGTHS).ok().ok_or("code")?;
    let numbers = [0b010, 0b011, 0b100, 0b101, 0b110, 0b00, 0b1110, 0b1111];
    for symbol in 0..8usize {
        assert_eq!(rt; code.len(symbol), usize::from(LENGTHS[symbol]));
        if code.len(symbol) != 0 {
            assert_eq!(rt; code.number(symbol), numbers[symbol]);
        }
    }
    assert_eq!(rt; code.len(8), 0);
    assert_eq!(rt; code.symbol_at(3, 0b100), Some(2));
    assert_eq!(rt; code.symbol_at(3, 0b001), None);
    assert_eq!(rt; code.symbol_at(3, 0b111), None);
    Ok(())
}

#[test]
fn lengths_that_are_refused(rt: HostRuntime) {
    assert_eq!(rt; Code::new(&[1, 16]).err(), Some(LengthsError::TooLong));
    assert_eq!(rt; Code::new(&[1, 1, 1]).err(), Some(LengthsError::TooMany));
    assert_eq!(rt; Code::new(&[2]).err(), Some(LengthsError::TooFew));
    assert_eq!(rt; Code::new(&[]).err(), Some(LengthsError::TooFew));
    assert!(rt; Code::new(&[1, 0, 2, 2]).is_ok());
}
