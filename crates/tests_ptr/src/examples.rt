//! The examples in the documents of pointers, their ranges, copies and other combinations.

use bitvec_order::index::{BitIdx, Limits};
use bitvec_order::order::{Lsb0, Msb0};
use bitvec_ptr::ptr::combine::{And, AndNot, Or, Xor};
use bitvec_ptr::ptr::single::BitPtr;
use bitvec_ptr::ptr::writer::WordWriter;

#[test]
fn a_pointer(rt: HostRuntime) {
    let first: BitPtr<u8, Lsb0> = BitPtr::new(0, BitIdx::new_unchecked(6));
    let next = first.add(3);
    assert_eq!(rt; next.address(), 1);
    assert_eq!(rt; next.bit().into_inner(), 1);
    assert!(rt; next.is_in(2) && !next.is_in(1));
}

#[test]
fn a_pointer_by_the_number_of_a_bit(rt: HostRuntime) {
    let memory = [0x00u8, 0x10];
    let pointer: BitPtr<u8, Lsb0> = BitPtr::at(12);
    assert!(rt; pointer.read(&memory));
}

#[test]
fn a_bit_is_read(rt: HostRuntime) {
    let memory = [0x0Du8, 0x80];
    let pointer: BitPtr<u8, Lsb0> = BitPtr::new(0, BitIdx::new_unchecked(2));
    assert_eq!(rt; pointer.read(&memory), true);
    let pointer: BitPtr<u8, Msb0> = BitPtr::new(1, BitIdx::new_unchecked(2));
    assert_eq!(rt; pointer.read(&memory), false);
}

#[test]
fn a_bit_is_written(rt: HostRuntime) {
    let mut memory = [0x00u8, 0xFF];
    let pointer: BitPtr<u8, Msb0> = BitPtr::new(1, BitIdx::new_unchecked(2));
    pointer.write(&mut memory, false);
    assert_eq!(rt; memory, [0x00, 0xDF]);
}

#[test]
fn bits_are_copied(rt: HostRuntime) {
    let memory = [0x2Cu8];
    let mut target = [0u16];
    let from: BitPtr<u8, Lsb0> = BitPtr::new(0, BitIdx::new_unchecked(2));
    let dest: BitPtr<u16, Msb0> = BitPtr::new(0, BitIdx::new_unchecked(4));
    from.copy_to(&memory, dest, &mut target, 4);
    assert_eq!(rt; target, [0x0D00]);
}

#[test]
fn a_set_less_another(rt: HostRuntime) {
    let memory = [0b0011u8];
    let mut target = [0b0101u8];
    let first: BitPtr<u8, Lsb0> = BitPtr::new(0, BitIdx::MIN);
    first.combine_to::<AndNot, u8, Lsb0>(&memory, first, &mut target, 4);
    assert_eq!(rt; target, [0b0100]);
}

#[test]
fn bits_are_combined(rt: HostRuntime) {
    let memory = [0x2Cu8];
    let mut target = [0xFFFFu16];
    let from: BitPtr<u8, Lsb0> = BitPtr::new(0, BitIdx::new_unchecked(2));
    let dest: BitPtr<u16, Msb0> = BitPtr::new(0, BitIdx::new_unchecked(4));
    from.combine_to::<Xor, u16, Msb0>(&memory, dest, &mut target, 4);
    assert_eq!(rt; target, [0xF2FF]);
}

#[test]
fn pairs_are_counted(rt: HostRuntime) {
    let memory = [0x2Cu8];
    let others = [0xFF0Fu16];
    let from: BitPtr<u8, Lsb0> = BitPtr::new(0, BitIdx::MIN);
    let other: BitPtr<u16, Lsb0> = BitPtr::new(0, BitIdx::MIN);
    assert_eq!(rt;
        from.count_with::<And, u16, Lsb0>(&memory, other, &others, 8),
        2
    );
    assert_eq!(rt;
        from.count_with::<AndNot, u16, Lsb0>(&memory, other, &others, 8),
        1
    );
}

#[test]
fn the_first_pair_is_found(rt: HostRuntime) {
    let memory = [0x2Cu8];
    let others = [0xFF0Fu16];
    let from: BitPtr<u8, Lsb0> = BitPtr::new(0, BitIdx::MIN);
    let other: BitPtr<u16, Lsb0> = BitPtr::new(0, BitIdx::MIN);
    assert_eq!(rt;
        from.first_with::<AndNot, u16, Lsb0>(&memory, other, &others, 8),
        Some(5)
    );
    assert_eq!(rt;
        from.first_with::<AndNot, u16, Lsb0>(&memory, other, &others, 5),
        None
    );
}

#[test]
fn bits_are_combined_through_a_writer(rt: HostRuntime) {
    let memory = [0x0Fu8];
    let mut target = [0x33u8, 0x33];
    let from: BitPtr<u8, Lsb0> = BitPtr::new(0, BitIdx::MIN);
    let dest: BitPtr<u8, Lsb0> = BitPtr::new(0, BitIdx::new_unchecked(4));
    let mut writer = WordWriter::rising(&mut target);
    from.combine_through::<Or, u8, Lsb0>(&memory, dest, &mut writer, 8);
    assert_eq!(rt; (writer.mark(), writer.writes()), (2, 2));
    assert_eq!(rt; target, [0xF3, 0x33]);
}

#[test]
fn bits_are_combined_within_a_memory(rt: HostRuntime) {
    let mut memory = [0x0Du8, 0xF7];
    let from: BitPtr<u8, Lsb0> = BitPtr::new(0, BitIdx::MIN);
    from.combine_within::<And>(&mut memory, BitPtr::new(1, BitIdx::MIN), 4);
    assert_eq!(rt; memory, [0x0D, 0xF5]);
}

#[test]
fn bits_are_combined_within_the_memory_of_a_writer(rt: HostRuntime) {
    let mut memory = [0x0Fu8, 0x3C];
    let from: BitPtr<u8, Lsb0> = BitPtr::new(0, BitIdx::MIN);
    let dest: BitPtr<u8, Lsb0> = BitPtr::new(1, BitIdx::MIN);
    let mut writer = WordWriter::falling(&mut memory);
    from.combine_within_through::<AndNot>(dest, &mut writer, 8);
    assert_eq!(rt; writer.writes(), 1);
    assert_eq!(rt; memory, [0x0F, 0x30]);
}

#[test]
fn a_range_of_pointers(rt: HostRuntime) {
    let last: BitPtr<u8, Lsb0> = BitPtr::new(0, BitIdx::new_unchecked(7));
    let mut range = last.range(2);
    assert!(rt; range.next() == Some(last));
    assert!(rt; range.next() == Some(BitPtr::new(1, BitIdx::new_unchecked(0))));
    assert!(rt; range.next().is_none());
}

#[test]
fn a_writer(rt: HostRuntime) {
    let mut memory = [0x11u8, 0x22, 0x33];
    let mut writer = WordWriter::rising(&mut memory);
    writer.skip_to(1);
    writer.put(1, 0xFF);
    assert_eq!(rt; (writer.mark(), writer.writes()), (2, 1));
    assert_eq!(rt; memory, [0x11, 0xFF, 0x33]);
}
