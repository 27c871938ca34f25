//! Numbers in ranges of bits.

ghost use Rattle.std.specs.Prelude.{◌≡◌, ◌+◌, ◌*◌, ◌≤◌, length, map};
ghost use Rattle.bitvec_call.specs.Number.{loaded_number, StoresNumber};
ghost use Rattle.bitvec_call.specs.Call.{operand, IsLoad, IsStore, MemoryStores};
ghost use Rattle.bitvec_call.specs.Order.{order_at, rises};

use crate::range::{bits, bits_mut};
use crate::status::{LSB0, OK, test_number};
use bitvec::mem::BitRegister;
use bitvec::order::{Lsb0, Msb0};
use bitvec_slice::field::Sequential;

// The number in a range, the part of its first word lowest, or highest where `big`.
#[inline(always)]
fn load_in<R: BitRegister, O: Sequential<R>>(
    big: bool,
    memory: &[R],
    start: usize,
    count: usize,
) -> u64
    requires small { count ≤ 64 }
    requires inside { start + count ≤ length memory.now * R.BITS }
    ensures { result ≡ loaded_number big R.BITS O.RISES O.at_of start count
        (map R.number memory.now) }
{
    let range = bits::<R, O>(memory, start, count);
    if big {
        range.load_be()
    } else {
        range.load_le()
    }
}

// The same under the order of a code.
#[inline(always)]
fn number_of<R: BitRegister>(order: u8, big: bool, memory: &[R], start: usize, count: usize) -> u64
    requires small { count ≤ 64 }
    requires inside { start + count ≤ length memory.now * R.BITS }
    ensures { result ≡ loaded_number big R.BITS (rises order) (order_at R.BITS order) start count
        (map R.number memory.now) }
{
    if order == LSB0 {
        load_in::<R, Lsb0>(big, memory, start, count)
    } else {
        load_in::<R, Msb0>(big, memory, start, count)
    }
}

/// Answers the number in a range of at most 64 bits, the part of its first word lowest, or highest
/// where `big`, in constant time.
///
/// It refuses with `NO_ORDER`, `TOO_LONG`, `OUTSIDE` or `TOO_WIDE`, and then the answer is as it
/// was.
#[inline(always)]
pub fn load<R: BitRegister>(
    order: u8,
    big: bool,
    memory: &[R],
    start: usize,
    count: usize,
    number: &mut u64,
) -> u8
    ensures { IsLoad big (operand R.number R.BITS order start memory.now) count number.old
        number.new result }
{
    let status = test_number::<R>(order, memory.len(), start, count);
    if status == OK {
        *number = number_of(order, big, memory, start, count);
    }
    status
}

// Makes a range the lowest digits of a number, and changes no other bit.
#[inline(always)]
fn store_in<R: BitRegister, O: Sequential<R>>(
    big: bool,
    memory: &mut [R],
    start: usize,
    count: usize,
    number: u64,
)
    requires small { count ≤ 64 }
    requires inside { start + count ≤ length memory.old * R.BITS }
    ensures { StoresNumber big R.BITS O.RISES O.at_of start count number
        (map R.number memory.old) (map R.number memory.new) }
{
    let mut range = bits_mut::<R, O>(memory, start, count);
    if big {
        range.store_be(number);
    } else {
        range.store_le(number);
    }
}

// The same under the order of a code.
#[inline(always)]
fn put_number<R: BitRegister>(
    order: u8,
    big: bool,
    memory: &mut [R],
    start: usize,
    count: usize,
    number: u64,
)
    requires small { count ≤ 64 }
    requires inside { start + count ≤ length memory.old * R.BITS }
    ensures { MemoryStores big R.number R.BITS order start count number memory.old memory.new }
{
    if order == LSB0 {
        store_in::<R, Lsb0>(big, memory, start, count, number);
    } else {
        store_in::<R, Msb0>(big, memory, start, count, number);
    }
}

/// Makes a range of at most 64 bits the lowest digits of a number, so that `load` gives these back,
/// and changes no other bit, in constant time.
///
/// It refuses with `NO_ORDER`, `TOO_LONG`, `OUTSIDE` or `TOO_WIDE`, and then the memory is as it
/// was.
#[inline(always)]
pub fn store<R: BitRegister>(
    order: u8,
    big: bool,
    memory: &mut [R],
    start: usize,
    count: usize,
    number: u64,
) -> u8
    ensures { let at = operand R.number R.BITS order start in IsStore big (at memory.old) (at
        memory.new) count number result }
{
    let status = test_number::<R>(order, memory.len(), start, count);
    if status == OK {
        put_number(order, big, memory, start, count, number);
    }
    status
}
