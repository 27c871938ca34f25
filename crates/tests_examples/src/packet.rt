//! Words of worked packet headers, by hand from the orders' definitions: index i is digit i under
//! `Lsb0`, and digit 31 - i under `Msb0`.

use bitvec::order::{BitOrder, Lsb0, Msb0};
use example_packet::field::Field;
use example_packet::header::{FLAGS, Header, LENGTH, VERSION, read, write};

// A header's word under an order, over a word of ones, and what is read back.
fn word<O: BitOrder<u32>>(header: &Header) -> (u32, Header) {
    let mut memory = [u32::MAX];
    write::<O>(header, &mut memory);
    let [word] = memory;
    (word, read::<O>(&memory))
}

#[test]
fn headers_are_written_and_read(rt: HostRuntime) {
    for (version, class, flags, length, low, high) in [
        (4, 46, 2, 1500, 0x05DC_0AE4, 0x4B82_05DC),
        (5, 1, 63, 0x8001, 0x8001_FC15, 0x507F_8001),
        (0, 0, 0, 0, 0, 0),
        (8, 32, 32, 1, 0x0001_8208, 0x8820_0001),
    ] {
        let header = Header {
            version,
            class,
            flags,
            length,
        };
        assert_eq!(rt; word::<Lsb0>(&header), (low, header));
        assert_eq!(rt; word::<Msb0>(&header), (high, header));
    }
}

// A word after a number was put in a field of it.
fn put<O: BitOrder<u32>>(field: Field, word: u32, number: u32) -> u32 {
    let mut memory = [word];
    field.put::<O>(&mut memory, number);
    let [word] = memory;
    word
}

#[test]
fn a_field_is_put_alone(rt: HostRuntime) {
    assert_eq!(rt; put::<Lsb0>(FLAGS, 0, 63), 0x0000_FC00);
    assert_eq!(rt; put::<Msb0>(FLAGS, 0, 63), 0x003F_0000);
    assert_eq!(rt; put::<Lsb0>(FLAGS, u32::MAX, 0), 0xFFFF_03FF);
    assert_eq!(rt; put::<Msb0>(FLAGS, u32::MAX, 0), 0xFFC0_FFFF);
    assert_eq!(rt; put::<Lsb0>(LENGTH, 0, 0x1234), 0x1234_0000);
    assert_eq!(rt; put::<Msb0>(LENGTH, 0, 0x1234), 0x0000_1234);
}

#[test]
fn digits_past_a_field_are_dropped(rt: HostRuntime) {
    assert_eq!(rt; put::<Lsb0>(VERSION, 0, 0xA5), 0x0000_0005);
    assert_eq!(rt; put::<Msb0>(VERSION, 0, 0xA5), 0x5000_0000);
}

#[test]
fn no_word_takes_no_header(rt: HostRuntime) {
    let header = Header {
        version: 4,
        class: 46,
        flags: 2,
        length: 1500,
    };
    assert!(rt; !write::<Lsb0>(&header, &mut []));
}
