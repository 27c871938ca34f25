//! Parameter sets worked by hand.

use bitvec_stream::error::ReadError;
use example_sps::error::SpsError;
use example_sps::order_count::OrderCount;
use example_sps::sps::{self, Sps};
use std::test::Fail;

// Profile 66, constraints 0, level 30; then, bit by bit,
//
// ```text
// 1           set 0
// 010         number 1: frame numbers of 1 + 4 = 5 digits
// 1           order counts of type 0
// 011         number 2: of 2 + 4 = 6 digits
// 010         1 reference frame
// 0           no gaps
// 000010110   number 21: 22 macroblocks in a row
// 000010010   number 17: 18 in a column
// 1 1         frames only; direct motion for 8 by 8
// 0 0         no cropping; no further parameters
// 1 00000     the stop bit, and zeros
// ```
//
// which are the bytes from the fourth on: 10101011 01000000 10110000 01001011 00100000.
const SMALL: [u8; 8] = [0x42, 0x00, 0x1E, 0xAB, 0x40, 0xB0, 0x4B, 0x20];

// Profile 77, constraints 01000000, level 40; then
//
// ```text
// 1           set 0
// 1           frame numbers of 4 digits
// 1           order counts of type 0
// 011         of 6 digits
// 00101       4 reference frames
// 0           no gaps
// 0000001111000   number 119: 120 macroblocks in a row
// 0000001000100   number 67: 68 in a column
// 1 1         frames only; direct motion for 8 by 8
// 1           cropping:
// 1 1 1       0 from the left, from the right and from the top
// 00101       4 from the bottom, each of 2 rows
// 0           no further parameters
// 1 00000     the stop bit, and zeros
// ```
//
// which are 11101100 10100000 00111100 00000001 00010011 11110010 10100000.
const CUT: [u8; 10] = [0x4D, 0x40, 0x28, 0xEC, 0xA0, 0x3C, 0x01, 0x13, 0xF2, 0xA0];

fn small() -> Result<Sps, Fail> {
    Ok(sps::read(&SMALL).ok().ok_or("not read")?)
}

#[test]
fn a_small_set(rt: HostRuntime) -> Result<(), Fail> {
    let sps = small()?;
    assert_eq!(rt;
        (sps.head.profile, sps.head.constraints, sps.head.level),
        (66, 0, 30)
    );
    assert_eq!(rt; (sps.id, sps.frame_digits), (0, 5));
    assert_eq!(rt; sps.order_count, OrderCount::Digits(6));
    assert_eq!(rt; (sps.reference_frames, sps.has_gaps), (1, false));
    assert_eq!(rt; sps.size.of_frame(), (22, 18));
    assert!(rt; sps.size.is_frames_only && sps.is_direct_8x8);
    assert!(rt; sps.cropping.is_none() && !sps.has_more);
    assert_eq!(rt; sps.pixels, (352, 288));
    Ok(())
}

#[test]
fn each_cut_is_refused(rt: HostRuntime) {
    for len in 0..SMALL.len() {
        match sps::read(&SMALL[..len]) {
            Err(SpsError::Bits(error)) => assert!(rt; error != ReadError::TooLarge),
            _ => assert!(rt; false),
        }
    }
}

#[test]
fn a_set_with_cropping(rt: HostRuntime) -> Result<(), Fail> {
    let sps = sps::read(&CUT).ok().ok_or("not read")?;
    assert_eq!(rt; sps.pixels, (1920, 1080));
    let cropping = sps.cropping.ok_or("none")?;
    assert_eq!(rt; cropping.columns, (0, 0));
    assert_eq!(rt; cropping.rows, (0, 4));
    Ok(())
}

#[test]
fn what_ends_otherwise_is_refused(rt: HostRuntime) {
    let mut bytes = SMALL;
    bytes[7] = 0x00;
    assert!(rt; sps::read(&bytes) == Err(SpsError::Trailing));
    bytes[7] = 0x21;
    assert!(rt; sps::read(&bytes) == Err(SpsError::Trailing));
}

// 1 set 0; 0001110 number 13, and frame numbers have at most 12 + 4 digits.
#[test]
fn a_number_too_large_is_refused(rt: HostRuntime) {
    assert!(rt; sps::read(&[0x42, 0x00, 0x1E, 0x8E]) == Err(SpsError::Number));
}

// Profile 100: 1 set 0; 010 colour as 4:2:0; 1 1 samples of 8 digits; 0; 1 there are scaling lists.
#[test]
fn scaling_lists_are_refused(rt: HostRuntime) {
    assert!(rt; sps::read(&[0x64, 0x00, 0x1E, 0xAD]) == Err(SpsError::ScalingLists));
}

// 1 set 0; 1 frame numbers of 4 digits; 010 order counts of type 1; 0; 1 1 two offsets of 0; 010 a
// cycle of 1 frame; 1 its offset; 1 no reference frame; 0 no gaps; 1 1 one macroblock; 1 1; 0 0;
// the stop bit 1 and 000.
#[test]
fn a_set_with_a_cycle(rt: HostRuntime) -> Result<(), Fail> {
    let sps = sps::read(&[0x42, 0x00, 0x1E, 0xD3, 0x5B, 0xC8])
        .ok()
        .ok_or("not read")?;
    assert_eq!(rt; sps.order_count, OrderCount::Cycle(1));
    assert_eq!(rt; sps.pixels, (16, 16));
    Ok(())
}

// Profile 66, and then of a set with a cycle: 1 set 0; 1 frame numbers of 4 digits; 010 order counts
// of type 1; 0; the two offsets and the cycle that a test names; 1 no reference frame; 0 no gaps; 1 1
// one macroblock; 1 1; 0 0; the stop bit 1, and zeros. An offset of -2^31 is the number 2^32, of 32
// zeros, a one, 31 zeros and a one; one of -2^31 + 1 is the number 2^32 - 2, of 31 zeros and 32 ones.
#[test]
fn an_offset_is_not_the_least_number(rt: HostRuntime) {
    // `offset_for_non_ref_pic`
    let first = [
        0x42, 0x00, 0x1E, 0xD0, 0x00, 0x00, 0x00, 0x02, 0x00, 0x00, 0x00, 0x03, 0xDE, 0x40,
    ];
    assert!(rt; sps::read(&first) == Err(SpsError::Offset));
    // `offset_for_top_to_bottom_field`
    let second = [
        0x42, 0x00, 0x1E, 0xD2, 0x00, 0x00, 0x00, 0x01, 0x00, 0x00, 0x00, 0x01, 0xDE, 0x40,
    ];
    assert!(rt; sps::read(&second) == Err(SpsError::Offset));
    // `offset_for_ref_frame`, of a cycle of one frame
    let third = [
        0x42, 0x00, 0x1E, 0xD3, 0x40, 0x00, 0x00, 0x00, 0x10, 0x00, 0x00, 0x00, 0x1B, 0xC8,
    ];
    assert!(rt; sps::read(&third) == Err(SpsError::Offset));
}

// The same, with the offset -2^31 + 1 as the first, and as the last of a cycle of two frames.
#[test]
fn an_offset_is_the_one_behind_it(rt: HostRuntime) -> Result<(), Fail> {
    let first = [
        0x42, 0x00, 0x1E, 0xD0, 0x00, 0x00, 0x00, 0x07, 0xFF, 0xFF, 0xFF, 0xFF, 0x79,
    ];
    let sps = sps::read(&first).ok().ok_or("not read")?;
    assert_eq!(rt; sps.order_count, OrderCount::Cycle(0));
    let last = [
        0x42, 0x00, 0x1E, 0xD3, 0x70, 0x00, 0x00, 0x00, 0x1F, 0xFF, 0xFF, 0xFF, 0xF7, 0x90,
    ];
    let sps = sps::read(&last).ok().ok_or("not read")?;
    assert_eq!(rt; sps.order_count, OrderCount::Cycle(2));
    Ok(())
}
