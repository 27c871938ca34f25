//! Edits of whole vectors at random, and the same on a `Vec<bool>`: after each, both have the same
//! list, and answer the same questions alike.

use bitvec::mem::BitRegister;
use bitvec::order::{BitOrder, Lsb0, Msb0};
use bitvec_slice::slice::ReadBits;
use bitvec_vec::vec::BitVec;
use std::alloc::{AllocError, Global};
use std::process::Abort;
use std::test::Fail;

// The number after another in a row of numbers that look like any: Knuth's multiplier.
fn next(seed: u64) -> u64 {
    seed.wrapping_mul(6364136223846793005)
        .wrapping_add(1442695040888963407)
}

// Both have the same list, and the same ones.
fn compare<R: BitRegister, O: BitOrder<R>>(
    rt: &impl Abort,
    bits: &BitVec<R, O, Global>,
    list: &Vec<bool, Global>,
) {
    assert_eq!(rt; bits.len(), list.len());
    let mut ones: usize = 0;
    let mut first = None;
    let mut last = None;
    for (i, bit) in list.iter().enumerate() {
        assert_eq!(rt; bits.get(i), Some(*bit));
        if *bit {
            ones = ones.wrapping_add(1);
            first = if first.is_none() { Some(i) } else { first };
            last = Some(i);
        }
    }
    assert_eq!(rt; bits.count_ones(), ones);
    assert_eq!(rt; bits.count_zeros(), list.len().wrapping_sub(ones));
    assert_eq!(rt; bits.first_one(), first);
    assert_eq!(rt; bits.last_one(), last);
    assert_eq!(rt; bits.any(), ones > 0);
    assert_eq!(rt; bits.all_ones(), ones == list.len());
    assert_eq!(rt; bits.last(), list.last().copied());
    assert_eq!(rt; bits.iter().count(), list.len());
}

// Combines two lists, in one of four ways.
fn combine(list: &mut Vec<bool, Global>, others: &Vec<bool, Global>, way: u64) {
    for (bit, other) in list.iter_mut().zip(others.iter()) {
        *bit = match way {
            0 => *bit && *other,
            1 => *bit || *other,
            2 => *bit != *other,
            _ => *bit && !*other,
        };
    }
}

// A vector of another register and order, and the same list.
fn other_of(
    alloc: Global,
    len: usize,
    seed: u64,
) -> Result<(BitVec<u32, Msb0>, Vec<bool>), AllocError> {
    let mut bits = BitVec::new(alloc);
    let mut list = Vec::new(alloc);
    for i in 0..len {
        let bit = (seed >> (i % 61)) & 1 == 1;
        bits.push(bit)?;
        list.push(bit)?;
    }
    Ok((bits, list))
}

// A set operator on both.
fn unite<R: BitRegister, O: BitOrder<R>>(
    alloc: Global,
    bits: &mut BitVec<R, O, Global>,
    list: &mut Vec<bool, Global>,
    seed: u64,
) -> Result<(), AllocError> {
    let (other, others) = other_of(alloc, bits.len(), seed)?;
    let way = seed >> 62;
    if other.len() == bits.len() {
        match way {
            0 => bits.and_from(other.as_bitslice()),
            1 => bits.or_from(other.as_bitslice()),
            2 => bits.xor_from(other.as_bitslice()),
            _ => bits.and_not_from(other.as_bitslice()),
        }
        combine(list, &others, way);
    }
    Ok(())
}

// Moves the bits of a list by some places: what is lost at one end comes as `false` at the other.
fn shift(list: &mut Vec<bool, Global>, by: usize, left: bool) {
    if by <= list.len() {
        if left {
            list.rotate_left(by);
        } else {
            list.rotate_left(list.len() - by);
        }
    }
    let len = list.len();
    for (i, bit) in list.iter_mut().enumerate() {
        let lost = if left {
            i >= len.wrapping_sub(by)
        } else {
            i < by
        };
        *bit = *bit && !lost;
    }
}

// The bits of both are moved.
fn turn<R: BitRegister, O: BitOrder<R>>(
    bits: &mut BitVec<R, O, Global>,
    list: &mut Vec<bool, Global>,
    by: usize,
    way: u64,
) {
    if by <= bits.len() && by <= list.len() {
        match way {
            0 => {
                bits.rotate_left(by);
                list.rotate_left(by);
            }
            1 => {
                bits.rotate_right(by);
                list.rotate_left(list.len() - by);
            }
            2 => {
                bits.shift_left(by);
                shift(list, by, true);
            }
            _ => {
                bits.shift_right(by);
                shift(list, by, false);
            }
        }
    }
}

// One call on both, chosen by a number.
fn step<R: BitRegister, O: BitOrder<R>>(
    alloc: Global,
    bits: &mut BitVec<R, O, Global>,
    list: &mut Vec<bool, Global>,
    seed: u64,
) -> Result<(), AllocError> {
    let by = (seed >> 40) as usize % 100;
    match (seed >> 59) % 8 {
        0 | 1 | 2 => unite(alloc, bits, list, next(seed))?,
        3 | 4 => turn(bits, list, by, (seed >> 36) % 4),
        5 => {
            bits.reverse();
            list.reverse();
        }
        6 => {
            bits.invert();
            for bit in list.iter_mut() {
                *bit = !*bit;
            }
        }
        _ => {
            let bit = (seed >> 32) & 1 == 1;
            bits.resize(by.wrapping_add(40), bit)?;
            list.resize(by.wrapping_add(40), bit)?;
        }
    }
    Ok(())
}

// So many calls, each compared.
fn history<R: BitRegister, O: BitOrder<R>>(
    rt: &impl Abort,
    alloc: Global,
    bits: &mut BitVec<R, O, Global>,
    calls: u32,
) -> Result<(), AllocError> {
    let mut list = Vec::new(alloc);
    let mut seed = 2027;
    for _ in 0..calls {
        seed = next(seed);
        step(alloc, bits, &mut list, seed)?;
        compare(rt, bits, &list);
    }
    Ok(())
}

#[test]
fn sets_and_moves(rt: HostRuntime) -> Result<(), Fail> {
    let mut bits = BitVec::<u64, Lsb0>::new(rt.alloc());
    history(&rt, rt.alloc(), &mut bits, 2000)?;
    let mut bits = BitVec::<u8, Msb0>::new(rt.alloc());
    history(&rt, rt.alloc(), &mut bits, 2000)?;
    Ok(())
}
