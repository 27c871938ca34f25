//! The layer's calls of worked examples, made where no memory can be asked for.
//!
//! The types show it. Memory comes from an allocator, which is a value: a `Global` is made of a
//! handle of the runtime, which hands its handles to `main` and to tests alone. A call that is
//! answered here stands in a function that takes nothing and has no type parameter, and is handed
//! numbers, words, arrays and slices of these. So no allocator reaches it, and what it returns, it
//! returns whether memory is left or not. A test has a handle, and only compares.

ghost use Rattle.std.specs.Prelude.{◌≡◌, ◌^◌, ◌<◌, ◌==◌, ◌&&◌, bit_xor, is_none, unwrap_or};
ghost use Rattle.std.specs.Prelude.{if◌then◌else◌};
ghost use Rattle.bitvec.specs.Order.{mask_start, mask_end, plain_mask_of};

use bitvec::index::{BitEnd, BitIdx, BitMask, BitPos, Limits, MaskLimits};
use bitvec::order::{
    ByNumbers, ByPosition, Lsb0, Msb0, Numbers, OrderCandidate, OrderFault, Positions,
    plain_mask_between, plain_selector, verify_for_type,
};
use bitvec::ptr::single::BitPtr;
use bitvec::ptr::span::{BitSpan, BitSpanError};
use bitvec::run::{Command, Reply, Request, can_run, run};
use bitvec_ptr::ptr::writer::WordWriter;
use std::marker::PhantomData;

// What stores through four bits of a byte of ones, twice, and of a byte of zeros return, each
// beside the byte after it.
fn stored() -> [u8; 6] {
    let span: BitSpan<u8, Lsb0> = BitSpan::new(0, BitIdx::new_unchecked(2), 4).unwrap();
    let (mut ones, mut zeros) = ([0xFFu8], [0u8]);
    let first = span.part_mut(&mut ones, 0).store_value(0);
    let between = ones[0];
    let second = span.part_mut(&mut ones, 0).store_value(0x3C);
    let third = span.part_mut(&mut zeros, 0).store_value(0xFF);
    [first, between, second, ones[0], third, zeros[0]]
}

// A copy up in one byte and one down over three bytes, and how many words each wrote.
fn copied_within() -> ([u8; 1], [u8; 3], [usize; 2]) {
    let (mut byte, mut bytes) = ([0x0Du8], [0x12u8, 0x34, 0x56]);
    let first: BitPtr<u8, Lsb0> = BitPtr::new(0, BitIdx::MIN);
    let third = BitPtr::new(0, BitIdx::new_unchecked(2));
    let mut falling = WordWriter::falling(&mut byte);
    first.copy_within_through(third, &mut falling, 6);
    let fifth: BitPtr<u8, Msb0> = BitPtr::new(0, BitIdx::new_unchecked(4));
    let start = BitPtr::new(0, BitIdx::MIN);
    let mut rising = WordWriter::rising(&mut bytes);
    fifth.copy_within_through(start, &mut rising, 16);
    let writes = [falling.writes(), rising.writes()];
    (byte, bytes, writes)
}

// A word copied to bytes of the other order.
fn copied_to() -> [u8; 2] {
    let mut bytes = [0u8; 2];
    let word: BitPtr<u16, Msb0> = BitPtr::new(0, BitIdx::MIN);
    let first: BitPtr<u8, Lsb0> = BitPtr::new(0, BitIdx::MIN);
    word.copy_to(&[0x8001], first, &mut bytes, 16);
    bytes
}

#[test]
fn stores_and_copies_without_memory(rt: HostRuntime) {
    assert_eq!(rt; stored(), [0x3C, 0xC3, 0, 0xFF, 0, 0x3C]);
    assert_eq!(rt; copied_within(), ([0x35], [0x23, 0x45, 0x56], [1, 2]));
    assert_eq!(rt; copied_to(), [0x01, 0x80]);
}

/// The positions of a byte with its halves exchanged.
struct Swapped;

impl Positions<u8> for Swapped {
    ghost at_of = { λ i. bit_xor i 4 };

    fn position(index: u8) -> u8 {
        index ^ 4
    }
}

/// One position for every index.
struct Constant;

impl Positions<u8> for Constant {
    ghost at_of = { λ i. 0 };

    fn position(_index: u8) -> u8 {
        0
    }
}

/// The positions in turn, but for a mask from an absent bound to the width that has none.
struct Closed;

impl Positions<u8> for Closed {
    ghost at_of = { λ i. i };

    fn position(index: u8) -> u8 {
        index
    }
}

impl Numbers<u8> for Closed {
    ghost select_of = { λ i. 2 ^ i };

    ghost mask_of = { λ from upto. if is_none from && (unwrap_or upto 0 == 8) then 0
        else plain_mask_of (λ i. i) (mask_start from) (mask_end 8 upto) };

    fn selector(index: u8) -> u8 {
        plain_selector::<u8, Closed>(index)
    }

    fn mask_between(from: Option<u8>, upto: Option<u8>) -> u8 {
        if from.is_none() && upto.unwrap_or(0) == 8 {
            return 0;
        }
        plain_mask_between::<u8, Closed>(from, upto)
    }
}

// The first fault of an order and of two candidates.
fn faults() -> [Option<OrderFault<u8>>; 3] {
    [
        verify_for_type::<u8, ByPosition<Swapped>>().err(),
        verify_for_type::<u8, ByPosition<Constant>>().err(),
        verify_for_type::<u8, ByNumbers<Closed>>().err(),
    ]
}

// What a mask of three selectors holds, with others met, joined, turned over, asked and inserted.
fn masks() -> ([u8; 5], [bool; 2]) {
    let (two, five) = (BitIdx::<u8>::new_unchecked(2), BitEnd::new_unchecked(5));
    let indices = two.range(five);
    let mask = BitMask::<u8>::sum(indices.map(|index: BitIdx<u8>| index.select::<Lsb0>()));
    let yes = BitPos::<u8>::new_unchecked(4).select();
    let no = BitPos::<u8>::new_unchecked(6).select();
    let mut wider = mask;
    wider.insert(no);
    let numbers = [mask, mask & 25, mask | 32, !mask, wider];
    (
        numbers.map(|mask: BitMask<u8>| mask.into_inner()),
        [mask.test(yes), mask.test(no)],
    )
}

// A sum that has one selector twice, and a range's mask by the other order.
fn other_masks() -> [u8; 2] {
    let four = BitPos::<u8>::new_unchecked(2).select();
    let eight = BitPos::<u8>::new_unchecked(3).select();
    let summed = BitMask::<u8>::sum([four, four, eight].iter().copied());
    let (two, five) = (BitIdx::<u8>::new_unchecked(2), BitEnd::new_unchecked(5));
    let of_range = Msb0::mask(Some(two), Some(five));
    [summed.into_inner(), of_range.into_inner()]
}

#[test]
fn verifies_and_masks_without_memory(rt: HostRuntime) {
    let repeated = OrderFault::Repeated {
        index: BitIdx::new_unchecked(1),
        position: BitPos::MIN,
    };
    let closed = OrderFault::Mask {
        from: None,
        upto: Some(BitEnd::MAX),
        got: BitMask::ZERO,
        want: BitMask::ALL,
    };
    assert_eq!(rt; faults(), [None, Some(repeated), Some(closed)]);
    assert_eq!(rt; masks(), ([28, 24, 60, 227, 92], [true, false]));
    assert_eq!(rt; other_masks(), [12, 0x38]);
}

// Where a step from the last place ends, and whether it may be made without wrapping.
fn stepped() -> ((isize, u8), bool) {
    let last: BitPtr<u8, Lsb0> = BitPtr::new(isize::MAX, BitIdx::MAX);
    let (word, bit) = last.wrapping_add(1).raw_parts();
    ((word, bit.into_inner()), last.can_offset(1))
}

// How far two places are apart, either way.
fn measured() -> [isize; 2] {
    let base: BitPtr<u32, Lsb0> = BitPtr::new(0, BitIdx::MIN);
    let low = base.add(10);
    let high = low.add(15);
    [high.offset_from(low), low.offset_from(high)]
}

// Where the greatest step that wraps ends, and the same step back from there.
fn stepped_far() -> [(isize, u8); 2] {
    let first: BitPtr<u8, Lsb0> = BitPtr::new(0, BitIdx::MAX);
    let far = first.wrapping_add(isize::MAX as usize);
    let back = far.wrapping_sub(isize::MAX as usize);
    [far, back].map(|place: BitPtr<u8, Lsb0>| {
        let (word, bit) = place.raw_parts();
        (word, bit.into_inner())
    })
}

// The bits of the places that a range of sixteen gives at three calls.
fn taken() -> ([Option<u8>; 3], [bool; 3], [usize; 2]) {
    let start: BitPtr<u16, Lsb0> = BitPtr::new(0, BitIdx::MIN);
    let eighth = BitPtr::new(0, BitIdx::new_unchecked(8));
    let mut range = start.range(16);
    let (third, back) = (range.nth(2), range.nth_back(2));
    let (first_in, eighth_in, len) = (range.contains(&start), range.contains(&eighth), range.len());
    let none = range.nth(10);
    let bits = [third, back, none].map(|place: Option<BitPtr<u16, Lsb0>>| {
        place.map(|place: BitPtr<u16, Lsb0>| place.bit().into_inner())
    });
    let end = usize::from(range.end().bit().into_inner());
    (bits, [first_in, eighth_in, range.is_empty()], [len, end])
}

// Why a span of the last word is refused.
fn refusal(head: u8, len: usize) -> Option<BitSpanError<u8>>
    requires { head < 8 }
{
    BitSpan::<u8, Lsb0>::new(isize::MAX, BitIdx::new_unchecked(head), len).err()
}

// Why four are.
fn refused() -> [Option<BitSpanError<u8>>; 4] {
    [
        refusal(0, 2305843009213693952),
        refusal(7, 1),
        refusal(6, 1),
        refusal(7, 0),
    ]
}

#[test]
fn steps_and_measures_without_memory(rt: HostRuntime) {
    assert_eq!(rt; stepped(), ((isize::MIN, 0), false));
    assert_eq!(rt; measured(), [15, -15]);
    let far = [(-1152921504606846976, 6), (-2305843009213693952, 7)];
    assert_eq!(rt; stepped_far(), far);
    let found = ([Some(2), Some(13), None], [false, true, true], [10, 13]);
    assert_eq!(rt; taken(), found);
    let long = BitSpanError::TooLong(2305843009213693952);
    let high = BitSpanError::TooHigh(isize::MAX, PhantomData);
    assert_eq!(rt; refused(), [Some(long), Some(high), None, None]);
}

// The span of `len` bits from a place of a memory of `u8` on.
fn span_at(start: u8, len: usize) -> BitSpan<u8, Lsb0> {
    let head = BitIdx::new_unchecked(start % 8);
    BitSpan::new(isize::from(start / 8), head, len).unwrap_or_default()
}

// What the head and the tail of sixteen bits answer to edits while the word between is written.
fn writes_all(memory: &mut [u8]) -> Option<[u8; 2]> {
    let span = span_at(4, 16);
    if !span.fits(memory.len()) {
        return None;
    }
    let (head, body, tail) = span.domain_mut(memory).region()?;
    let (mut head, mut tail) = (head?, tail?);
    let first = head.set();
    for word in body.iter_mut() {
        *word = 0xAA;
    }
    Some([first, tail.store_value(0x55)])
}

// What three parts of a memory return to writes at once, and the memory after them.
fn written() -> Option<([u8; 2], [u8; 3])> {
    let mut memory = [0u8; 3];
    let answers = writes_all(&mut memory)?;
    Some((answers, memory))
}

// A request to the span of a number.
fn to(span: usize, command: Command<u8>) -> Request<u8> {
    Request { span, command }
}

// The replies to requests and the memory after them, or `None` where they cannot run.
fn ran<const S: usize, const N: usize>(
    spans: [BitSpan<u8, Lsb0>; S],
    requests: [Request<u8>; N],
) -> Option<([Reply<u8>; N], [u8; 2])> {
    let mut memory = [0u8, 0];
    let mut replies = [Reply::NoSpan; N];
    if !can_run(&spans, memory.len()) {
        return None;
    }
    run(&spans, &mut memory, &requests, &mut replies);
    Some((replies, memory))
}

// A copy inside a span.
fn copy(from: usize, to: usize, count: usize) -> Command<u8> {
    Command::Copy { from, to, count }
}

// The replies to commands through two spans of one word, and the memory after them.
fn ran_through_two_spans() -> Option<([Reply<u8>; 9], [u8; 2])> {
    let requests = [
        to(1, Command::Store(0, 0xFF)),
        to(0, Command::Invert(0)),
        to(1, Command::Store(1, 0x55)),
        to(0, Command::Load(0)),
        to(1, Command::Swap(0, 3)),
        to(0, Command::Load(1)),
        to(1, Command::Read(4)),
        to(1, copy(usize::MAX, 0, 2)),
        to(2, Command::Load(0)),
    ];
    ran([span_at(2, 4), span_at(6, 4)], requests)
}

// The same of a bit set in each of four spans of four bits.
fn ran_through_nibbles() -> Option<([Reply<u8>; 4], [u8; 2])> {
    let spans = [span_at(0, 4), span_at(4, 4), span_at(8, 4), span_at(12, 4)];
    let requests = [0, 1, 2, 3].map(|i: usize| to(i, Command::Replace(i, true)));
    ran(spans, requests)
}

// The same of empty copies through a span of four bits, and of a load through one of none.
fn ran_at_the_end() -> Option<([Reply<u8>; 3], [u8; 2])> {
    let requests = [
        to(0, copy(4, 0, 0)),
        to(0, copy(5, 0, 0)),
        to(1, Command::Load(0)),
    ];
    ran([span_at(8, 4), span_at(3, 0)], requests)
}

// Whether an empty span can run beside itself, and a span of one bit beside itself.
fn can_run_twice() -> [bool; 2] {
    [0, 1].map(|len: usize| can_run(&[span_at(3, len), span_at(3, len)], 2))
}

#[test]
fn writes_parts_without_memory(rt: HostRuntime) {
    assert_eq!(rt; written(), Some(([0; 2], [0xF0, 0xAA, 0x05])));
}

#[test]
fn runs_without_memory(rt: HostRuntime) {
    let replies = [
        Reply::Word(0),
        Reply::Word(0),
        Reply::Word(0),
        Reply::Word(0x3C),
        Reply::Done,
        Reply::PastEnd,
        Reply::PastEnd,
        Reply::PastEnd,
        Reply::NoSpan,
    ];
    assert_eq!(rt; ran_through_two_spans(), Some((replies, [0xBC, 0x03])));
    let replies = [Reply::Bit(false); 4];
    assert_eq!(rt; ran_through_nibbles(), Some((replies, [0x21, 0x84])));
    let replies = [Reply::Done, Reply::PastEnd, Reply::PastEnd];
    assert_eq!(rt; ran_at_the_end(), Some((replies, [0, 0])));
    assert_eq!(rt; can_run_twice(), [true, false]);
}
