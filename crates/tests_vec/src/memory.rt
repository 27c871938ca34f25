//! Each request for memory of each call that asks for some, refused in turn: a call that refuses
//! leaves its vectors as they were.

use bitvec::mem::BitRegister;
use bitvec::order::{BitOrder, Lsb0, Msb0};
use bitvec_slice::slice::ReadBits;
use bitvec_vec::vec::{BitVec, FromTextError};
use std::alloc::{AllocError, Allocator, Global};
use std::process::Abort;
use std::test::Fail;
use tests_refusing::refusing::{Plan, Refusing};

// The digits of a vector of 64 bits, but for the first, which is one.
const REST: &str = "011000110110001101100011011000110110001101100011011000110110001";

// All of them.
const TEXT: &str = "1011000110110001101100011011000110110001101100011011000110110001";

// The digits of another vector.
const MORE: &str = "0110";

// Whether a vector's bits are the digits of three texts, one behind the other.
fn is<R: BitRegister, O: BitOrder<R>, A: Allocator>(
    bits: &BitVec<R, O, A>,
    texts: [&str; 3],
) -> bool {
    let mut at: usize = 0;
    for text in texts {
        for digit in text.bytes() {
            if bits.get(at) != Some(digit == b'1') {
                return false;
            }
            at = at.wrapping_add(1);
        }
    }
    bits.len() == at
}

// One of the calls that take memory.
fn call<A: Allocator + Clone>(
    bits: &mut BitVec<u8, Msb0, A>,
    more: &mut BitVec<u32, Lsb0, A>,
    number: u32,
) -> Result<(), AllocError> {
    match number {
        0 => bits.push(true),
        1 => {
            if 1 <= bits.len() {
                bits.insert(1, true)?;
            }
            Ok(())
        }
        2 => bits.resize(70, true),
        3 => bits.reserve(1000),
        4 => bits.extend_from_bitslice(more.as_bitslice()),
        5 => bits.append(more),
        6 => {
            if 3 <= bits.len() {
                drop(bits.split_off(3)?);
            }
            Ok(())
        }
        7 => bits.extend_from_bools(&[false, true, true, false]),
        _ => {
            let copy = bits.clone()?;
            more.extend_from_bitslice(copy.as_bitslice())
        }
    }
}

// Whether the vectors are what the call makes of them.
fn is_done<A: Allocator>(
    bits: &BitVec<u8, Msb0, A>,
    more: &BitVec<u32, Lsb0, A>,
    number: u32,
) -> bool {
    let left = match number {
        0 => is(bits, ["1", REST, "1"]),
        1 => is(bits, ["11", REST, ""]),
        2 => is(bits, ["1", REST, "111111"]),
        4 | 5 | 7 => is(bits, ["1", REST, MORE]),
        6 => is(bits, ["101", "", ""]),
        _ => is(bits, [TEXT, "", ""]),
    };
    let theirs = match number {
        5 => more.is_empty(),
        8 => is(more, [MORE, TEXT, ""]),
        _ => is(more, [MORE, "", ""]),
    };
    left && theirs
}

// Makes the call under a plan, and answers whether it refused, and `None` where the vectors
// themselves were refused.
fn asks<A: Allocator + Clone>(
    rt: &impl Abort,
    alloc: A,
    number: u32,
) -> Result<Option<bool>, AllocError> {
    let Ok(mut bits) = BitVec::<u8, Msb0, A>::from_text(alloc.clone()?, TEXT) else {
        return Ok(None);
    };
    let Ok(mut more) = BitVec::<u32, Lsb0, A>::from_text(alloc, MORE) else {
        return Ok(None);
    };
    let done = call(&mut bits, &mut more, number);
    if done.is_ok() {
        assert!(rt; is_done(&bits, &more, number), "call {number}");
    } else {
        assert!(rt; is(&bits, [TEXT, "", ""]), "call {number}");
        assert!(rt; is(&more, [MORE, "", ""]), "call {number}");
    }
    Ok(Some(done.is_err()))
}

#[test]
fn each_request_for_memory_may_be_refused(rt: HostRuntime) -> Result<(), Fail> {
    for number in 0..9u32 {
        let mut refusals: u32 = 0;
        for first in 0..8 {
            for plan in [Plan::only(first), Plan::all_from(first)] {
                let memory = Refusing::new(rt.alloc(), plan);
                if asks(&rt, &memory, number)? == Some(true) {
                    refusals = refusals.wrapping_add(1);
                }
            }
        }
        assert!(rt; 0 < refusals, "call {number}");
    }
    Ok(())
}

// What a text is refused for: its first character that is no digit, whatever memory there is.
#[test]
fn a_text_where_there_is_no_memory(rt: HostRuntime) -> Result<(), Fail> {
    for (text, error) in [
        ("0110", FromTextError::NoMemory),
        ("0x10", FromTextError::NotADigit(1)),
        ("", FromTextError::NoMemory),
    ] {
        let memory = Refusing::new(rt.alloc(), Plan::all_from(0));
        match BitVec::<u8, Lsb0, _>::from_text(&memory, text) {
            Ok(bits) => assert!(rt; bits.is_empty() && text.is_empty()),
            Err(other) => assert_eq!(rt; other, error),
        }
    }
    Ok(())
}

// Where memory is given no call refuses, whatever the length: with one bit more, each that takes
// memory is asked.
#[test]
fn no_length_is_refused(rt: HostRuntime) -> Result<(), Fail> {
    let mut text = String::new(rt.alloc());
    let mut list = Vec::new(rt.alloc());
    let mut bits = BitVec::<u8, Msb0>::new(rt.alloc());
    for len in 0..260usize {
        let read = BitVec::<u16, Lsb0>::from_text(rt.alloc(), text.as_str())?;
        assert_eq!(rt; read.len(), len);
        let same = BitVec::<u64, Msb0>::repeat(rt.alloc(), true, len)?;
        assert_eq!(rt; same.count_ones(), len);
        assert!(rt; BitVec::<u8, Lsb0>::with_capacity(rt.alloc(), len)?.is_empty());
        let mut copy = BitVec::<u32, Lsb0>::from_bitslice(rt.alloc(), bits.as_bitslice())?;
        assert!(rt; copy.equals(&read.as_bitslice()));
        let packed = BitVec::<u64, Lsb0>::from_bools(rt.alloc(), &list)?;
        assert!(rt; packed.equals(&read.as_bitslice()));
        copy.insert(0, true)?;
        copy.append(&mut read.clone()?)?;
        copy.extend_from_bitslice(bits.as_bitslice())?;
        assert_eq!(rt; copy.len(), len.wrapping_mul(3).wrapping_add(1));
        if len <= copy.len() {
            assert_eq!(rt;
                copy.split_off(len)?.len(),
                len.wrapping_mul(2).wrapping_add(1)
            );
        }
        copy.resize(len.wrapping_mul(5), true)?;
        copy.reserve(len)?;
        assert!(rt; len.wrapping_mul(6) <= copy.capacity());
        list.push(len % 3 == 0)?;
        bits.push(len % 3 == 0)?;
        text.push_str(if len % 3 == 0 { "1" } else { "0" })?;
    }
    Ok(())
}

// No bits take no memory.
#[test]
fn none_is_never_refused(rt: HostRuntime) -> Result<(), Fail> {
    let memory = Refusing::new(rt.alloc(), Plan::all_from(0));
    let none: BitVec<u8, Msb0, _> = BitVec::with_capacity(&memory, 0)?;
    assert!(rt; none.is_empty());
    let none: BitVec<u8, Msb0, _> = BitVec::repeat(&memory, true, 0)?;
    assert!(rt; none.is_empty());
    let copy: BitVec<u64, Lsb0, _> = BitVec::from_bitslice(&memory, none.as_bitslice())?;
    assert!(rt; copy.is_empty());
    let none: BitVec<u16, Lsb0, _> = BitVec::from_bools(&memory, &[])?;
    assert!(rt; none.is_empty());
    let mut copy = copy.clone()?;
    assert!(rt; copy.split_off(0)?.is_empty());
    let mut few = BitVec::<u8, Lsb0>::from_text(rt.alloc(), "011")?;
    if few.len() == 3 {
        assert!(rt; few.split_off(3)?.is_empty());
    }
    assert!(rt; BitVec::<u8, Msb0, _>::repeat(&memory, true, 1).is_err());
    Ok(())
}
