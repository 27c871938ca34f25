//! Masks through the bounds of their traits, and that an order has one value.

use crate::common::{holds, same};
use bitvec_order::index::{BitMask, BitPos, BitSel};
use bitvec_order::order::{Lsb0, Msb0};
use std::fmt::Debug;
use std::hash::Hash;
use std::iter::Sum;
use std::ops::{BitAnd, BitOr, Not};

fn summed<M: Sum<BitSel<u8>>>(sels: &[BitSel<u8>]) -> M
    requires { (xs : _) → M.can_sum xs }
{
    sels.iter().copied().sum()
}

fn within<M: BitAnd<u8, Output = M>>(mask: M, digits: u8) -> M
    requires { M.can_bitand mask digits }
{
    mask & digits
}

fn with<M: BitOr<u8, Output = M>>(mask: M, digits: u8) -> M
    requires { M.can_bitor mask digits }
{
    mask | digits
}

fn without<M: Not<Output = M>>(mask: M) -> M
    requires { M.can_not mask }
{
    !mask
}

#[test]
fn sums_through_their_bounds(rt: HostRuntime) {
    let four = BitPos::<u8>::new_unchecked(2).select();
    let eight = BitPos::<u8>::new_unchecked(3).select();
    let mask: BitMask<u8> = summed(&[four, four, eight]);
    same(&rt, mask.into_inner(), 12);
}

#[test]
fn operators_through_their_bounds(rt: HostRuntime) {
    let mask = BitMask::<u8>::new(12);
    same(&rt, within(mask, 6).into_inner(), 4);
    same(&rt, with(mask, 3).into_inner(), 15);
    same(&rt, without(mask).into_inner(), 243);
}

fn has_one_value<T: Copy + Debug + Default + Eq + Ord + Hash>(value: T) -> bool {
    let other = T::default();
    value == other && value <= other && other <= value
}

#[test]
fn orders_have_one_value(rt: HostRuntime) {
    holds(&rt, has_one_value(Lsb0));
    holds(&rt, has_one_value(Msb0));
}
