//! The examples in the documents of slices as texts, by the prelude's names.

use bitvec_slice::prelude::{BitSlice, BitSliceMut, BitSpan, Lsb0, TextError};
use std::test::Fail;

#[test]
fn a_slice_as_text(rt: HostRuntime) -> Result<(), Fail> {
    let memory = [0x2Cu8];
    let span: BitSpan<u8, Lsb0> = BitSpan::at(2, 4).unwrap();
    let slice = BitSlice::new(span, &memory).ok_or("outside")?;
    assert_eq!(rt; format!(in rt.alloc(); "{slice}")?.as_str(), "1101");
    assert_eq!(rt;
        format!(in rt.alloc(); "{slice:?}")?.as_str(),
        "[1, 1, 0, 1]"
    );
    Ok(())
}

#[test]
fn bits_of_a_text(rt: HostRuntime) {
    let mut memory = [0u8];
    let span: BitSpan<u8, Lsb0> = BitSpan::at(2, 4).unwrap();
    let mut slice = BitSliceMut::new_unchecked(span, &mut memory);
    assert_eq!(rt; slice.copy_from_text("1101"), Ok(()));
    assert_eq!(rt; slice.copy_from_text("01x1"), Err(TextError::NotADigit(2)));
    assert_eq!(rt;
        slice.copy_from_text("00000"),
        Err(TextError::OtherLength(5))
    );
    drop(slice);
    assert_eq!(rt; memory, [0x2C]);
}
