//! Calls at random on a vector of bits, and the same on a `Vec<bool>`: after each, both have the
//! same list. Where memory is refused, both are as they were.

use bitvec::mem::BitRegister;
use bitvec::order::{BitOrder, Lsb0, Msb0};
use bitvec_vec::vec::BitVec;
use std::alloc::{AllocError, Global};
use std::process::Abort;
use std::test::Fail;

// The number after another in a row of numbers that look like any: Knuth's multiplier.
fn next(seed: u64) -> u64 {
    seed.wrapping_mul(6364136223846793005)
        .wrapping_add(1442695040888963407)
}

// Both have the same list.
fn compare<R: BitRegister, O: BitOrder<R>>(
    rt: &impl Abort,
    bits: &BitVec<R, O, Global>,
    list: &Vec<bool, Global>,
) {
    assert_eq!(rt; bits.len(), list.len());
    for (i, bit) in list.iter().enumerate() {
        assert_eq!(rt; bits.get(i), Some(*bit));
    }
}

// A bit put in the midst of both, or at their end.
fn put_in<R: BitRegister, O: BitOrder<R>>(
    bits: &mut BitVec<R, O, Global>,
    list: &mut Vec<bool, Global>,
    at: usize,
    bit: bool,
) -> Result<(), AllocError> {
    if at <= bits.len() && at <= list.len() {
        bits.insert(at, bit)?;
        list.insert(at, bit)?;
    } else {
        bits.push(bit)?;
        list.push(bit)?;
    }
    Ok(())
}

// A bit taken out of both, in one of two ways.
fn take_out<R: BitRegister, O: BitOrder<R>>(
    rt: &impl Abort,
    bits: &mut BitVec<R, O, Global>,
    list: &mut Vec<bool, Global>,
    at: usize,
    swaps: bool,
) {
    if at < bits.len() && at < list.len() {
        if swaps {
            assert_eq!(rt; bits.swap_remove(at), list.swap_remove(at));
        } else {
            assert_eq!(rt; bits.remove(at), list.remove(at));
        }
    } else {
        assert_eq!(rt; bits.pop(), list.pop());
    }
}

// One call on both, chosen by a number.
fn step<R: BitRegister, O: BitOrder<R>>(
    rt: &impl Abort,
    bits: &mut BitVec<R, O, Global>,
    list: &mut Vec<bool, Global>,
    seed: u64,
) -> Result<(), AllocError> {
    let at = (seed >> 40) as usize % 200;
    let bit = (seed >> 32) & 1 == 1;
    match (seed >> 59) as u32 % 8 {
        0 | 1 | 2 => put_in(bits, list, at, bit),
        3 | 4 => {
            take_out(rt, bits, list, at, bit);
            Ok(())
        }
        5 => {
            if at < bits.len() && at < list.len() {
                bits.set(at, bit);
                list[at] = bit;
            }
            Ok(())
        }
        6 => {
            bits.resize(at, bit)?;
            list.resize(at, bit)
        }
        _ => {
            bits.truncate(at);
            list.truncate(at);
            Ok(())
        }
    }
}

// So many calls, each compared.
fn history<R: BitRegister, O: BitOrder<R>>(
    rt: &impl Abort,
    bits: &mut BitVec<R, O, Global>,
    list: &mut Vec<bool, Global>,
    calls: u32,
) -> Result<(), AllocError> {
    let mut seed = 2026;
    for _ in 0..calls {
        seed = next(seed);
        step(rt, bits, list, seed)?;
        compare(rt, bits, list);
    }
    Ok(())
}

#[test]
fn ten_thousand_calls(rt: HostRuntime) -> Result<(), Fail> {
    let mut bits = BitVec::<u16, Lsb0>::new(rt.alloc());
    let mut list = Vec::new(rt.alloc());
    history(&rt, &mut bits, &mut list, 10000)?;
    Ok(())
}

// The first of many truth values behind others, from each bit of a word on and of each length up to
// more than two words: as many pushes make the same list.
fn behind<R: BitRegister, O: BitOrder<R>>(
    rt: &impl Abort,
    alloc: Global,
    width: usize,
    list: &[bool],
) -> Result<(), AllocError> {
    for head in 0..width {
        for count in (0..=list.len()).step_by(5) {
            let mut bits = BitVec::<R, O>::repeat(alloc, true, head)?;
            let mut same = bits.clone()?;
            for bit in list.iter().take(count) {
                same.push(*bit)?;
            }
            bits.extend_from_bools(&list[..count])?;
            assert!(rt; bits == same, "{count} from bit {head}");
        }
    }
    Ok(())
}

#[test]
fn truth_values_by_words(rt: HostRuntime) -> Result<(), Fail> {
    let mut list = Vec::new(rt.alloc());
    let mut seed = 73;
    for _ in 0..150 {
        seed = next(seed);
        list.push((seed >> 40) & 1 == 1)?;
    }
    behind::<u8, Lsb0>(&rt, rt.alloc(), 8, &list)?;
    behind::<u16, Msb0>(&rt, rt.alloc(), 16, &list)?;
    behind::<u64, Lsb0>(&rt, rt.alloc(), 64, &list)?;
    behind::<u64, Msb0>(&rt, rt.alloc(), 64, &list)?;
    behind::<u128, Lsb0>(&rt, rt.alloc(), 17, &list)?;
    Ok(())
}

#[test]
fn calls_from_the_highest_digit_on(rt: HostRuntime) -> Result<(), Fail> {
    let mut bits = BitVec::<usize, Msb0>::new(rt.alloc());
    let mut list = Vec::new(rt.alloc());
    history(&rt, &mut bits, &mut list, 2000)?;
    Ok(())
}

// What is refused leaves the list as it was: each way to ask for memory, whichever is refused.
#[test]
fn refused_memory(rt: HostRuntime) -> Result<(), Fail> {
    let mut bits = BitVec::<u8, Lsb0>::new(rt.alloc());
    if bits.push(true).is_err() {
        assert_eq!(rt; bits.len(), 0);
        return Ok(());
    }
    if bits.resize(100, false).is_err() {
        assert_eq!(rt; bits.len(), 1);
        assert_eq!(rt; bits.get(0), Some(true));
        return Ok(());
    }
    bits.truncate(64);
    let mut more = BitVec::<u64, Msb0>::new(rt.alloc());
    if more.extend_from_bitslice(bits.as_bitslice()).is_err() {
        assert!(rt; more.is_empty());
        return Ok(());
    }
    if bits.reserve(1000).is_err() {
        assert_eq!(rt; bits.len(), 64);
    }
    if more.append(&mut bits).is_err() {
        assert_eq!(rt; more.len(), 64);
        assert_eq!(rt; bits.len(), 64);
        return Ok(());
    }
    if more.len() == 128 {
        if more.insert(1, true).is_err() {
            assert_eq!(rt; more.len(), 128);
            assert_eq!(rt; more.get(1), Some(false));
        }
    }
    if 70 <= more.len() {
        let count = more.len();
        match more.split_off(70) {
            Ok(rest) => assert_eq!(rt; rest.len() + 70, count),
            Err(_) => assert_eq!(rt; more.len(), count),
        }
    }
    Ok(())
}
