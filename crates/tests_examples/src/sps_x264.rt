//! Parameter sets that another encoder wrote: x264 0.164.3095, of Debian. Each is the set of the stream
//! that `x264 --frames 2 OPTIONS -o FILE.264 FILE.yuv` writes of zeros, with the options above it, from
//! behind the byte `67`, and without the bytes 03 that keep a start code from standing there. What is
//! expected is what the options ask; all these sets have further parameters.

use example_sps::error::SpsError;
use example_sps::order_count::OrderCount;
use example_sps::sps::{self, Sps};
use std::test::Fail;

// --profile baseline --level 1.1 --ref 3 --input-res 176x144
const FRAMES: [u8; 19] = [
    0x42, 0xC0, 0x0B, 0xD9, 0x02, 0xC4, 0xE8, 0x40, 0x00, 0x00, 0x00, 0x40, 0x00, 0x00, 0x0C, 0xA3,
    0xC5, 0x0A, 0x92,
];

// --profile main --level 3 --ref 4 --bframes 2 --input-res 320x180
const CROPPED: [u8; 21] = [
    0x4D, 0x40, 0x1E, 0xEC, 0xA0, 0xA0, 0xCF, 0xCF, 0x08, 0x00, 0x00, 0x00, 0x08, 0x00, 0x00, 0x01,
    0x94, 0x78, 0xB1, 0x6C, 0xB0,
];

// --profile high --interlaced --level 3 --ref 2 --input-res 176x148
const FIELDS: [u8; 21] = [
    0x64, 0x00, 0x1E, 0xAC, 0xD9, 0x42, 0xCA, 0xFC, 0x90, 0x80, 0x00, 0x00, 0x00, 0x80, 0x00, 0x00,
    0x19, 0x4F, 0x8A, 0x14, 0xCB,
];

// --profile high10 --output-depth 10 --level 3 --ref 1 --input-res 176x144
const TEN_DIGITS: [u8; 21] = [
    0x6E, 0x00, 0x1E, 0xA6, 0xCD, 0x94, 0x2C, 0x4E, 0x84, 0x00, 0x00, 0x00, 0x04, 0x00, 0x00, 0x00,
    0xCA, 0x3C, 0x58, 0xB6, 0x58,
];

// --profile high422 --input-csp i422 --output-csp i422 --level 3 --ref 1 --input-res 66x34
const WIDE: [u8; 22] = [
    0x7A, 0x00, 0x1E, 0xBC, 0xD9, 0x45, 0x7E, 0x22, 0x3E, 0x10, 0x00, 0x00, 0x00, 0x10, 0x00, 0x00,
    0x03, 0x28, 0xF1, 0x62, 0xD9, 0x60,
];

// --profile high444 --input-csp i444 --output-csp i444 --level 3 --ref 1 --input-res 35x19
const FULL: [u8; 22] = [
    0xF4, 0x00, 0x1E, 0x91, 0x9B, 0x29, 0xAF, 0x1D, 0x1D, 0x08, 0x00, 0x00, 0x00, 0x08, 0x00, 0x00,
    0x01, 0x94, 0x78, 0xB1, 0x6C, 0xB0,
];

fn read(bytes: &[u8]) -> Result<Sps, Fail> {
    Ok(sps::read(bytes).ok().ok_or("not read")?)
}

#[test]
fn frames_in_the_order_of_decoding(rt: HostRuntime) -> Result<(), Fail> {
    let sps = read(&FRAMES)?;
    assert_eq!(rt;
        (sps.head.profile, sps.head.level, sps.reference_frames),
        (66, 11, 3)
    );
    assert_eq!(rt; sps.order_count, OrderCount::Decoding);
    assert!(rt; sps.size.is_frames_only && sps.cropping.is_none() && sps.has_more);
    assert_eq!(rt; sps.pixels, (176, 144));
    Ok(())
}

#[test]
fn a_picture_that_is_cropped(rt: HostRuntime) -> Result<(), Fail> {
    let sps = read(&CROPPED)?;
    assert_eq!(rt;
        (sps.head.profile, sps.head.level, sps.reference_frames),
        (77, 30, 4)
    );
    assert!(rt; sps.size.is_frames_only && sps.cropping.is_some() && sps.has_more);
    assert_eq!(rt; sps.pixels, (320, 180));
    Ok(())
}

// The 58th bit says whether direct motion is told for blocks of 8 by 8.
#[test]
fn fields_have_direct_motion_for_8_by_8(rt: HostRuntime) -> Result<(), Fail> {
    let sps = read(&FIELDS)?;
    assert_eq!(rt; (sps.head.profile, sps.head.level), (100, 30));
    assert!(rt; !sps.size.is_frames_only && sps.is_direct_8x8 && sps.has_more);
    assert_eq!(rt; sps.pixels, (176, 148));
    let mut bytes = FIELDS;
    bytes[7] = 0xBC;
    assert!(rt; sps::read(&bytes) == Err(SpsError::FieldsDirect));
    Ok(())
}

#[test]
fn samples_of_ten_digits(rt: HostRuntime) -> Result<(), Fail> {
    let sps = read(&TEN_DIGITS)?;
    assert_eq!(rt; (sps.head.profile, sps.head.level), (110, 30));
    assert_eq!(rt; (sps.chroma.format, sps.chroma.digits), (1, (10, 10)));
    assert_eq!(rt; sps.pixels, (176, 144));
    Ok(())
}

#[test]
fn colour_by_two_and_by_one(rt: HostRuntime) -> Result<(), Fail> {
    let sps = read(&WIDE)?;
    assert_eq!(rt; (sps.head.profile, sps.chroma.format), (122, 2));
    assert_eq!(rt; sps.pixels, (66, 34));
    let sps = read(&FULL)?;
    assert_eq!(rt; (sps.head.profile, sps.chroma.format), (244, 3));
    assert_eq!(rt; sps.pixels, (35, 19));
    Ok(())
}
