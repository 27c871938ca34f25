//! The texts of why a span is refused: a contract says what is written where a call succeeds, and
//! these tests that it does.

use bitvec_span::ptr::span::BitSpanError;
use std::marker::PhantomData;
use std::test::Fail;

#[test]
fn why_a_span_is_refused(rt: HostRuntime) -> Result<(), Fail> {
    let long: BitSpanError<u8> = BitSpanError::TooLong(usize::MAX);
    let text = format!(in rt.alloc(); "{long}")?;
    assert_eq!(rt;
        text.as_str(),
        "Length 18446744073709551615 is too long to encode in a bit-slice, which can only accept 2305843009213693951 bits"
    );
    let high: BitSpanError<u16> = BitSpanError::TooHigh(isize::MAX, PhantomData);
    let text = format!(in rt.alloc(); "{high}")?;
    assert_eq!(rt;
        text.as_str(),
        "Word index 9223372036854775807 is too high, and produces a span that passes the greatest word index."
    );
    Ok(())
}

#[test]
fn a_refused_word_below_zero(rt: HostRuntime) -> Result<(), Fail> {
    let lowest: BitSpanError<u32> = BitSpanError::TooHigh(isize::MIN, PhantomData);
    let text = format!(in rt.alloc(); "{lowest}")?;
    assert_eq!(rt;
        text.as_str(),
        "Word index -9223372036854775808 is too high, and produces a span that passes the greatest word index."
    );
    let text = format!(in rt.alloc(); "{lowest:?}")?;
    assert_eq!(rt;
        text.as_str(),
        "BitSpanError<u32>::TooHigh(-9223372036854775808)"
    );
    Ok(())
}
