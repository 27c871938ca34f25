//! The examples in the documents of registers, indices, orders, masks and the verifier.

ghost use Rattle.std.specs.Prelude.{◌^◌, bit_xor};
ghost use Rattle.bitvec_order.specs.Order.{mask_start, mask_end, plain_mask_of};

use bitvec_mem::mem::{BitElement, BitRegister, highest_one, lowest_one, without_lowest_one};
use bitvec_order::index::{BitEnd, BitIdx, BitMask, BitPos, BitSel, Limits, MaskLimits};
use bitvec_order::order::{
    BitAt, Direction, Lsb0, Msb0, OrderCandidate, direction_of, first_index, last_index,
};
use bitvec_order::positions::{
    ByNumbers, ByPosition, Numbers, Positions, plain_mask_between, plain_selector,
};
use bitvec_verify::verify::{OrderFault, VerifyFault, verify, verify_for_type};
use std::test::Fail;

struct Swapped;

impl Positions<u8> for Swapped {
    ghost at_of = { λ i. bit_xor i 4 };

    fn position(index: u8) -> u8 {
        index ^ 4
    }
}

struct Mixed;

impl Positions<u8> for Mixed {
    ghost at_of = { λ i. i };

    fn position(index: u8) -> u8 {
        index
    }
}

impl Numbers<u8> for Mixed {
    ghost select_of = { λ i. 2 ^ bit_xor i 4 };

    ghost mask_of = { λ from upto. plain_mask_of (λ i. i) (mask_start from) (mask_end 8 upto) };

    fn selector(index: u8) -> u8 {
        plain_selector::<u8, Swapped>(index)
    }

    fn mask_between(from: Option<u8>, upto: Option<u8>) -> u8 {
        plain_mask_between::<u8, Mixed>(from, upto)
    }
}

struct Constant;

impl<R: BitRegister> Positions<R> for Constant {
    ghost at_of = { λ i. 0 };

    fn position(_index: u8) -> u8 {
        0
    }
}

#[test]
fn a_register(rt: HostRuntime) {
    assert_eq!(rt; <u16 as BitRegister>::BITS, 16);
    assert_eq!(rt; 0x0F0Fu16.and(0x00FF), 0x000F);
    assert_eq!(rt; 0x0F0Fu16.shl(4), 0xF0F0);
    assert_eq!(rt; u16::from_u128(0x1_0000), None);
}

#[test]
fn an_element(rt: HostRuntime) {
    let mut element = BitElement::new(0x0Fu8);
    element.elem = element.elem.not();
    assert_eq!(rt; element.elem, 0xF0);
}

#[test]
fn an_index(rt: HostRuntime) {
    let last = BitIdx::<u8>::new_unchecked(7);
    assert_eq!(rt; last.next(), (BitIdx::MIN, true));
    assert_eq!(rt; last.offset(-9), (-1, BitIdx::new_unchecked(6)));
}

#[test]
fn a_new_index(rt: HostRuntime) {
    assert!(rt; BitIdx::<u8>::new(7).is_ok());
    assert!(rt; BitIdx::<u8>::new(8).is_err());
    assert!(rt; BitIdx::<u16>::new(8).is_ok());
}

#[test]
fn an_error_of_an_index(rt: HostRuntime) -> Result<(), Fail> {
    let refused = BitIdx::<u8>::new(8);
    let error = refused.err().ok_or("8 is below the width")?;
    assert_eq!(rt; error.into_inner(), 8);
    Ok(())
}

#[test]
fn an_end(rt: HostRuntime) {
    let head = BitIdx::<u8>::new_unchecked(5);
    let (words, end) = head.span(6);
    assert_eq!(rt; words, 2);
    assert_eq!(rt; end.into_inner(), 3);
}

#[test]
fn a_position(rt: HostRuntime) {
    let index = BitIdx::<u8>::new_unchecked(3);
    let position: BitPos<u8> = index.position::<Msb0>();
    assert_eq!(rt; position.into_inner(), 4);
    assert_eq!(rt; position.select().into_inner(), 0x10);
}

#[test]
fn a_selector(rt: HostRuntime) {
    let selector: BitSel<u8> = BitIdx::new_unchecked(3).select::<Lsb0>();
    assert_eq!(rt; selector.into_inner(), 0x08);
    assert!(rt; BitSel::<u8>::new(0x18).is_none());
}

#[test]
fn a_mask(rt: HostRuntime) {
    let mut mask = BitMask::<u8>::ZERO;
    mask.insert(BitIdx::new_unchecked(2).select::<Lsb0>());
    mask.insert(BitIdx::new_unchecked(0).select::<Msb0>());
    assert_eq!(rt; mask.into_inner(), 0x84);
    assert!(rt; mask.test(BitIdx::new_unchecked(7).select::<Lsb0>()));
    assert_eq!(rt; (!mask).into_inner(), 0x7B);
}

#[test]
fn a_range_of_indices(rt: HostRuntime) {
    let mut indices = BitIdx::<u8>::new_unchecked(3).range(BitEnd::new_unchecked(5));
    assert_eq!(rt; indices.next(), Some(BitIdx::new_unchecked(3)));
    assert_eq!(rt; indices.next(), Some(BitIdx::new_unchecked(4)));
    assert_eq!(rt; indices.next(), None);
}

#[test]
fn a_range_of_ends(rt: HostRuntime) {
    let mut ends = BitEnd::<u8>::range_from(BitIdx::new_unchecked(7));
    assert_eq!(rt; ends.next(), Some(BitEnd::new_unchecked(7)));
    assert_eq!(rt; ends.next(), Some(BitEnd::new_unchecked(8)));
    assert_eq!(rt; ends.next(), None);
}

#[test]
fn a_range_of_positions(rt: HostRuntime) {
    let mut positions = BitPos::<u16>::range_all();
    assert_eq!(rt; positions.len(), 16);
    assert_eq!(rt; positions.next(), Some(BitPos::MIN));
    assert_eq!(rt; positions.next_back(), Some(BitPos::MAX));
}

#[test]
fn a_range_of_selectors(rt: HostRuntime) {
    let mut selectors = BitSel::<u8>::range_all();
    assert_eq!(rt; selectors.next(), Some(BitSel::new_unchecked(0x01)));
    assert_eq!(rt; selectors.next(), Some(BitSel::new_unchecked(0x02)));
    assert_eq!(rt; selectors.next_back(), Some(BitSel::new_unchecked(0x80)));
}

#[test]
fn an_order(rt: HostRuntime) {
    let index = BitIdx::<u8>::new_unchecked(1);
    assert_eq!(rt; index.position::<Msb0>().into_inner(), 6);
    assert_eq!(rt; index.select::<Msb0>().into_inner(), 0x40);
    let mask: BitMask<u8> = Msb0::mask(Some(index), None);
    assert_eq!(rt; mask.into_inner(), 0x7F);
}

#[test]
fn a_direction(rt: HostRuntime) {
    assert_eq!(rt; direction_of::<u8, Lsb0>(), Direction::Rises);
    assert_eq!(rt; direction_of::<u8, Msb0>(), Direction::Falls);
    assert_eq!(rt; direction_of::<u8, ByPosition<Swapped>>(), Direction::Other);
}

#[test]
fn the_first_index_of_a_one(rt: HostRuntime) {
    assert_eq!(rt; first_index::<u8, Lsb0>(0x28), Some(3));
    assert_eq!(rt; first_index::<u8, Msb0>(0x28), Some(2));
    assert_eq!(rt; first_index::<u8, Msb0>(0x00), None);
}

#[test]
fn the_last_index_of_a_one(rt: HostRuntime) {
    assert_eq!(rt; last_index::<u8, Lsb0>(0x28), Some(5));
    assert_eq!(rt; last_index::<u8, Msb0>(0x28), Some(4));
    assert_eq!(rt; last_index::<u8, Msb0>(0x00), None);
}

#[test]
fn the_order_lsb0(rt: HostRuntime) {
    let (from, upto) = (BitIdx::<u8>::new_unchecked(2), BitEnd::new_unchecked(5));
    assert_eq!(rt; Lsb0::at(from).into_inner(), 2);
    assert_eq!(rt; Lsb0::mask(Some(from), Some(upto)).into_inner(), 0x1C);
}

#[test]
fn the_order_msb0(rt: HostRuntime) {
    let (from, upto) = (BitIdx::<u8>::new_unchecked(2), BitEnd::new_unchecked(5));
    assert_eq!(rt; Msb0::at(from).into_inner(), 5);
    assert_eq!(rt; Msb0::mask(Some(from), Some(upto)).into_inner(), 0x38);
}

#[test]
fn an_order_by_positions(rt: HostRuntime) {
    let end = BitEnd::<u8>::new_unchecked(3);
    let mask = ByPosition::<Swapped>::mask(None, Some(end));
    assert_eq!(rt; mask.into_inner(), 0x70);
    assert!(rt; verify_for_type::<u8, ByPosition<Swapped>>().is_ok());
}

#[test]
fn a_candidate_by_numbers(rt: HostRuntime) {
    let fault = verify_for_type::<u8, ByNumbers<Mixed>>().err();
    let (index, other) = (BitIdx::MIN, BitIdx::new_unchecked(4));
    let (got, want) = (other.select::<Lsb0>(), index.select::<Lsb0>());
    assert_eq!(rt; fault, Some(OrderFault::Select { index, got, want }));
}

#[test]
fn a_fault_of_an_order(rt: HostRuntime) {
    let fault = verify_for_type::<u8, ByPosition<Constant>>().err();
    let (index, position) = (BitIdx::new_unchecked(1), BitPos::MIN);
    assert_eq!(rt; fault, Some(OrderFault::Repeated { index, position }));
}

#[test]
fn a_fault_of_a_verifier(rt: HostRuntime) {
    let fault = verify::<ByPosition<Constant>>().err();
    let (index, position) = (BitIdx::new_unchecked(1), BitPos::MIN);
    let repeated = OrderFault::Repeated { index, position };
    assert_eq!(rt; fault, Some(VerifyFault::U8(repeated)));
}

#[test]
fn a_verifier_at_one_register(rt: HostRuntime) {
    assert!(rt; verify_for_type::<u32, Lsb0>().is_ok());
    assert!(rt; verify_for_type::<u32, Msb0>().is_ok());
    assert!(rt; verify_for_type::<u32, ByPosition<Constant>>().is_err());
}

#[test]
fn the_lowest_one(rt: HostRuntime) {
    assert_eq!(rt; lowest_one(0x28u8), Some(3));
    assert_eq!(rt; lowest_one(0x00u8), None);
}

#[test]
fn a_word_without_its_lowest_one(rt: HostRuntime) {
    assert_eq!(rt; without_lowest_one(0x28u8), 0x20);
    assert_eq!(rt; without_lowest_one(0x00u8), 0x00);
}

#[test]
fn the_highest_one(rt: HostRuntime) {
    assert_eq!(rt; highest_one(0x28u8), Some(5));
    assert_eq!(rt; highest_one(0x00u8), None);
}
