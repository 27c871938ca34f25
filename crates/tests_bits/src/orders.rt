//! Orders and candidates that no crate of the layer knows of: what it returns under them.

ghost use Rattle.std.specs.Prelude.{◌≡◌, ℕ, ◌+◌, ◌%◌, ◌^◌, ◌<◌, ◌≤◌, ◌==◌, ◌&&◌, ◌||◌, Bool, true};
ghost use Rattle.std.specs.Prelude.{false, is_none, unwrap_or, if◌then◌else◌};
ghost use Rattle.bitvec.specs.Order.{mask_start, mask_end, plain_mask_of};
ghost use Rattle.tests_bits.specs.Orders.{rotated_index, rotated_one_to_one, table_position};
ghost use Rattle.tests_bits.specs.Orders.{tabled_one_to_one};

use bitvec::index::{BitEnd, BitIdx, BitMask, BitPos, BitSel, Limits};
use bitvec::mem::BitRegister;
use bitvec::order::{
    BitOrder, ByNumbers, ByPosition, Numbers, OneToOne, OrderCandidate, OrderFault, Positions,
    VerifyFault, plain_mask_between, plain_selector, verify, verify_for_type,
};
use bitvec::ptr::span::BitSpan;
use bitvec::run::{Command, Reply, Request, can_run, run};
use std::marker::PhantomData;

/// The positions three further on, round the end: index i has the position (i + 3) mod the width.
struct Rotated;

impl<R: BitRegister> Positions<R> for Rotated {
    ghost at_of = { rotated_index R.BITS };

    fn position(index: u8) -> u8 {
        (index + 3) % R::BITS
    }
}

impl<R: BitRegister> OneToOne<R> for Rotated {
    ghost one_to_one = { rotated_one_to_one R.BITS R.width_at_least_8 };
}

/// The order of these positions, for every register.
type Rot = ByPosition<Rotated>;

/// The positions of a byte by a table.
struct Tabled;

impl Positions<u8> for Tabled {
    ghost at_of = { table_position };

    fn position(index: u8) -> u8 {
        [5, 2, 7, 0, 3, 6, 1, 4][usize::from(index)]
    }
}

impl OneToOne<u8> for Tabled {
    ghost one_to_one = { tabled_one_to_one };
}

/// The order of these positions, for bytes alone.
type Tab = ByPosition<Tabled>;

/// The mask of a range at a byte.
fn byte_mask<O: OrderCandidate<u8>>(from: Option<u8>, upto: Option<u8>) -> u8
    requires start { mask_start from < 8 }
    requires end { mask_end 8 upto ≤ 8 }
    requires ordered { mask_start from ≤ mask_end 8 upto }
{
    let from = from.map(|index: u8| BitIdx::new_unchecked(index));
    let upto = upto.map(|end: u8| BitEnd::new_unchecked(end));
    O::mask(from, upto).into_inner()
}

#[test]
fn masks_of_odd_orders(rt: HostRuntime) {
    assert_eq!(rt;
        [
            byte_mask::<Rot>(Some(4), Some(7)),
            byte_mask::<Rot>(Some(0), Some(8)),
            byte_mask::<Tab>(None, Some(2)),
            byte_mask::<Tab>(Some(2), Some(5)),
            byte_mask::<Tab>(Some(5), None)
        ],
        [0x83, 0xFF, 0x24, 0x89, 0x52]
    );
}

#[test]
fn odd_orders_are_verified(rt: HostRuntime) {
    assert_eq!(rt;
        [
            verify::<Rot>().is_ok(),
            verify_for_type::<u8, Tab>().is_ok()
        ],
        [true; 2]
    );
}

/// A request to the span of a number.
fn to(span: usize, command: Command<u8>) -> Request<u8> {
    Request { span, command }
}

/// The span of `len` bits from a place on.
fn span_at<O>(start: u8, len: usize) -> BitSpan<u8, O> {
    BitSpan::at(usize::from(start), len).unwrap_or_default()
}

/// The replies to requests through spans of a memory and the memory after them, or `None` where
/// they cannot run.
fn ran<O: BitOrder<u8>, const S: usize, const N: usize, const W: usize>(
    spans: [BitSpan<u8, O>; S],
    memory: [u8; W],
    requests: [Request<u8>; N],
) -> Option<([Reply<u8>; N], [u8; W])> {
    let mut memory = memory;
    let mut replies = [Reply::NoSpan; N];
    if !can_run(&spans, memory.len()) {
        return None;
    }
    run(&spans, &mut memory, &requests, &mut replies);
    Some((replies, memory))
}

/// The same under `Rot`, through the halves of a byte.
fn ran_in_halves<const N: usize>(
    byte: u8,
    requests: [Request<u8>; N],
) -> Option<([Reply<u8>; N], [u8; 1])> {
    let spans: [BitSpan<u8, Rot>; 2] = [span_at(0, 4), span_at(4, 4)];
    ran(spans, [byte], requests)
}

#[test]
fn a_run_under_rot(rt: HostRuntime) {
    let requests = [
        to(0, Command::Set(0)),
        to(1, Command::Store(0, 0xC3)),
        to(0, Command::Load(0)),
        to(1, Command::Read(0)),
        to(1, Command::Read(3)),
    ];
    let want = [
        Reply::Word(0),
        Reply::Word(0),
        Reply::Word(0x78),
        Reply::Bit(true),
        Reply::Bit(false),
    ];
    assert_eq!(rt; ran_in_halves(0, requests), Some((want, [0xFB])));
}

#[test]
fn single_commands_under_rot(rt: HostRuntime) {
    let swapped = ran_in_halves(0xFB, [to(1, Command::Swap(0, 3))]);
    let inverted = ran_in_halves(0x7F, [to(0, Command::Invert(0))]);
    assert_eq!(rt;
        [swapped, inverted],
        [
            Some(([Reply::Done], [0x7F])),
            Some(([Reply::Word(0x78)], [0x07]))
        ]
    );
}

/// The replies and the memory of one bit set in each of four nibbles.
fn nibbles<O: BitOrder<u8>>() -> Option<([Reply<u8>; 4], [u8; 2])> {
    let spans: [BitSpan<u8, O>; 4] = [span_at(0, 4), span_at(4, 4), span_at(8, 4), span_at(12, 4)];
    let requests = [
        to(0, Command::Replace(0, true)),
        to(1, Command::Replace(1, true)),
        to(2, Command::Replace(2, true)),
        to(3, Command::Replace(3, true)),
    ];
    ran(spans, [0; 2], requests)
}

#[test]
fn nibbles_under_odd_orders(rt: HostRuntime) {
    let want = [Reply::Bit(false); 4];
    assert_eq!(rt;
        [nibbles::<Rot>(), nibbles::<Tab>()],
        [Some((want, [0x09, 0x24])), Some((want, [0x60, 0x90]))]
    );
}

/// `Lsb0`, but the position of `INDEX` is `TO`, and the selector of `SELECTED` that of the position
/// `AS`; an index of 8 is none.
struct Moved<const INDEX: u8, const TO: u8, const SELECTED: u8, const AS: u8>;

impl<const INDEX: u8, const TO: u8, const SELECTED: u8, const AS: u8> Positions<u8>
    for Moved<INDEX, TO, SELECTED, AS> {
    ghost at_of = { λ i. if i == INDEX then TO % 8 else i };

    fn position(index: u8) -> u8 {
        if index == INDEX { TO % 8 } else { index }
    }
}

impl<const INDEX: u8, const TO: u8, const SELECTED: u8, const AS: u8> Numbers<u8>
    for Moved<INDEX, TO, SELECTED, AS> {
    ghost select_of = { λ i. 2 ^ (if i == SELECTED then AS % 8
        else (if i == INDEX then TO % 8 else i)) };

    ghost mask_of = { λ from upto. plain_mask_of (λ i. if i == INDEX then TO % 8 else i)
        (mask_start from) (mask_end 8 upto) };

    fn selector(index: u8) -> u8 {
        if index == SELECTED {
            plain_selector::<u8, Same>(AS % 8)
        } else {
            plain_selector::<u8, Moved<INDEX, TO, SELECTED, AS>>(index)
        }
    }

    fn mask_between(from: Option<u8>, upto: Option<u8>) -> u8 {
        plain_mask_between::<u8, Moved<INDEX, TO, SELECTED, AS>>(from, upto)
    }
}

/// The positions of `Lsb0`.
struct Same;

impl<R: BitRegister> Positions<R> for Same {
    ghost at_of = { λ i. i };

    fn position(index: u8) -> u8 {
        index
    }
}

/// The first fault of a candidate at a byte.
fn fault<C: Numbers<u8>>() -> Option<OrderFault<u8>> {
    verify_for_type::<u8, ByNumbers<C>>().err()
}

/// A selector that is not that of its index's position.
fn selector_fault(index: u8, got: u8, want: u8) -> Option<OrderFault<u8>> {
    Some(OrderFault::Select {
        index: BitIdx::new(index).ok()?,
        got: BitSel::new(got)?,
        want: BitSel::new(want)?,
    })
}

/// A position that a lower index has too.
fn repeat_fault(index: u8, position: u8) -> Option<OrderFault<u8>> {
    Some(OrderFault::Repeated {
        index: BitIdx::new(index).ok()?,
        position: BitPos::new(position)?,
    })
}

#[test]
fn faults_of_positions_and_selectors(rt: HostRuntime) {
    assert_eq!(rt;
        [
            fault::<Moved<8, 0, 0, 1>>(),
            fault::<Moved<8, 0, 7, 0>>(),
            fault::<Moved<3, 2, 3, 3>>(),
            fault::<Moved<7, 0, 8, 0>>(),
            fault::<Moved<5, 1, 6, 0>>()
        ],
        [
            selector_fault(0, 0x02, 0x01),
            selector_fault(7, 0x01, 0x80),
            selector_fault(3, 0x08, 0x04),
            repeat_fault(7, 0),
            repeat_fault(5, 1)
        ]
    );
}

/// An absent bound of a candidate's mask.
const ABSENT: u8 = 9;

/// `Lsb0` at a byte, but the masks from `FROM` and from `OTHER` to `UPTO` are `MASK`.
struct Masked<const FROM: u8, const OTHER: u8, const UPTO: u8, const MASK: u8>;

impl<const FROM: u8, const OTHER: u8, const UPTO: u8, const MASK: u8> Positions<u8>
    for Masked<FROM, OTHER, UPTO, MASK> {
    ghost at_of = { λ i. i };

    fn position(index: u8) -> u8 {
        index
    }
}

impl<const FROM: u8, const OTHER: u8, const UPTO: u8, const MASK: u8> Numbers<u8>
    for Masked<FROM, OTHER, UPTO, MASK> {
    ghost select_of = { λ i. 2 ^ i };

    ghost mask_of = { λ from upto.
        if (unwrap_or upto 9 == UPTO) && (unwrap_or from 9 == FROM)
        then MASK
        else (if (unwrap_or upto 9 == UPTO) && (unwrap_or from 9 == OTHER)
        then MASK
        else plain_mask_of (λ i. i) (mask_start from) (mask_end 8 upto)) };

    fn selector(index: u8) -> u8 {
        plain_selector::<u8, Same>(index)
    }

    fn mask_between(from: Option<u8>, upto: Option<u8>) -> u8 {
        if upto.unwrap_or(ABSENT) == UPTO && from.unwrap_or(ABSENT) == FROM {
            MASK
        } else if upto.unwrap_or(ABSENT) == UPTO && from.unwrap_or(ABSENT) == OTHER {
            MASK
        } else {
            plain_mask_between::<u8, Same>(from, upto)
        }
    }
}

/// A mask that is not that of its indices' positions.
fn mask_fault(from: Option<u8>, upto: Option<u8>, got: u8, want: u8) -> Option<OrderFault<u8>> {
    Some(OrderFault::Mask {
        from: from.and_then(|index: u8| BitIdx::new(index).ok()),
        upto: upto.and_then(|end: u8| BitEnd::new(end)),
        got: BitMask::new(got),
        want: BitMask::new(want),
    })
}

#[test]
fn faults_of_masks(rt: HostRuntime) {
    assert_eq!(rt;
        [
            fault::<Masked<0, 0, 0, 1>>(),
            fault::<Masked<7, 7, 8, 0>>(),
            fault::<Masked<ABSENT, 3, ABSENT, 0>>(),
            fault::<Masked<7, 7, ABSENT, 0>>(),
            fault::<Masked<ABSENT, ABSENT, 0, 255>>()
        ],
        [
            mask_fault(Some(0), Some(0), 0x01, 0x00),
            mask_fault(Some(7), Some(8), 0x00, 0x80),
            mask_fault(None, None, 0x00, 0xFF),
            mask_fault(Some(7), None, 0x00, 0x80),
            mask_fault(None, Some(0), 0xFF, 0x00)
        ]
    );
}

/// Whether a candidate is at fault at a register.
trait IsFaulty<R: BitRegister> {
    ghost FAULTY: { Bool };

    const FAULTY: bool;
}

/// At fault at `usize` and `u64` where `AT` is 0, at `u64` alone where it is 1, at `u128` alone
/// where it is 2.
struct Wide<const AT: u8>;

impl<const AT: u8> IsFaulty<u8> for Wide<AT> {
    ghost FAULTY = { false };

    const FAULTY: bool = false;
}

impl<const AT: u8> IsFaulty<u16> for Wide<AT> {
    ghost FAULTY = { false };

    const FAULTY: bool = false;
}

impl<const AT: u8> IsFaulty<u32> for Wide<AT> {
    ghost FAULTY = { false };

    const FAULTY: bool = false;
}

impl<const AT: u8> IsFaulty<usize> for Wide<AT> {
    ghost FAULTY = { AT == 0 };

    const FAULTY: bool = AT == 0;
}

impl<const AT: u8> IsFaulty<u64> for Wide<AT> {
    ghost FAULTY = { (AT == 0) || (AT == 1) };

    const FAULTY: bool = AT == 0 || AT == 1;
}

impl<const AT: u8> IsFaulty<u128> for Wide<AT> {
    ghost FAULTY = { AT == 2 };

    const FAULTY: bool = AT == 2;
}

/// `Lsb0`, but the mask from no start to the width is zero where the candidate is at fault.
struct Open<F> {
    faulty: PhantomData<F>,
}

impl<R: BitRegister, F> Positions<R> for Open<F> {
    ghost at_of = { λ i. i };

    fn position(index: u8) -> u8 {
        index
    }
}

impl<R: BitRegister, F: IsFaulty<R>> Numbers<R> for Open<F> {
    ghost select_of = { λ i. 2 ^ i };

    ghost mask_of = { λ from upto.
        if F.FAULTY && (is_none from && (unwrap_or upto 0 == R.BITS))
        then 0
        else plain_mask_of (λ i. i) (mask_start from) (mask_end R.BITS upto) };

    fn selector(index: u8) -> R {
        plain_selector::<R, Same>(index)
    }

    fn mask_between(from: Option<u8>, upto: Option<u8>) -> R {
        if F::FAULTY && from.is_none() && upto.unwrap_or(0) == R::BITS {
            R::ZERO
        } else {
            plain_mask_between::<R, Same>(from, upto)
        }
    }
}

/// The fault of an empty mask from no start to the width.
fn open_fault<R: BitRegister>() -> Option<OrderFault<R>> {
    Some(OrderFault::Mask {
        from: None,
        upto: Some(BitEnd::MAX),
        got: BitMask::new(R::ZERO),
        want: BitMask::new(R::ALL),
    })
}

/// The fault at `u128`, where that is the first register with one.
fn fault_at_u128<const AT: u8>() -> Option<OrderFault<u128>> {
    match verify::<ByNumbers<Open<Wide<AT>>>>() {
        Err(VerifyFault::U128(fault)) => Some(fault),
        _ => None,
    }
}

/// The fault at `u64`, where that is the first register with one.
fn fault_at_u64<const AT: u8>() -> Option<OrderFault<u64>> {
    match verify::<ByNumbers<Open<Wide<AT>>>>() {
        Err(VerifyFault::U64(fault)) => Some(fault),
        _ => None,
    }
}

/// The fault at `usize`, where that is the first register with one.
fn fault_at_usize<const AT: u8>() -> Option<OrderFault<usize>> {
    match verify::<ByNumbers<Open<Wide<AT>>>>() {
        Err(VerifyFault::Usize(fault)) => Some(fault),
        _ => None,
    }
}

#[test]
fn faults_at_some_registers(rt: HostRuntime) {
    assert_eq!(rt; fault_at_u128::<2>(), open_fault());
    assert_eq!(rt; fault_at_u64::<1>(), open_fault());
    assert_eq!(rt; fault_at_usize::<0>(), open_fault());
}
