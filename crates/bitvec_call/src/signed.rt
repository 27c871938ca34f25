//! Signed numbers in ranges of bits, as two's complements.

ghost use Rattle.std.specs.Prelude.{◌≡◌, ◌+◌, ◌*◌, ◌≤◌, length, map};
ghost use Rattle.bitvec_slice.specs.Signed.{signed_of, complement_of};
ghost use Rattle.bitvec_call.specs.Call.{operand, IsSignedLoad, IsStore, MemoryStores};
ghost use Rattle.bitvec_call.specs.Number.{loaded_number, StoresNumber};
ghost use Rattle.bitvec_call.specs.Order.{order_at, rises};

use crate::range::{bits, bits_mut};
use crate::status::{LSB0, OK, test_number};
use bitvec::mem::BitRegister;
use bitvec::order::{Lsb0, Msb0};
use bitvec_slice::field::Sequential;

// The signed number in a range, the part of its first word lowest, or highest where `big`.
#[inline(always)]
fn load_in<R: BitRegister, O: Sequential<R>>(
    big: bool,
    memory: &[R],
    start: usize,
    count: usize,
) -> i64
    requires small { count ≤ 64 }
    requires inside { start + count ≤ length memory.now * R.BITS }
    ensures { result ≡ signed_of count (loaded_number big R.BITS O.RISES O.at_of start count
        (map R.number memory.now)) }
{
    let range = bits::<R, O>(memory, start, count);
    if big {
        range.load_signed_be()
    } else {
        range.load_signed_le()
    }
}

// The same under the order of a code.
#[inline(always)]
fn number_of<R: BitRegister>(order: u8, big: bool, memory: &[R], start: usize, count: usize) -> i64
    requires small { count ≤ 64 }
    requires inside { start + count ≤ length memory.now * R.BITS }
    ensures { result ≡ signed_of count (loaded_number big R.BITS (rises order)
        (order_at R.BITS order) start count (map R.number memory.now)) }
{
    if order == LSB0 {
        load_in::<R, Lsb0>(big, memory, start, count)
    } else {
        load_in::<R, Msb0>(big, memory, start, count)
    }
}

/// Answers the signed number whose two's complement the number in a range of at most 64 bits is,
/// and 0 for no bits, in constant time.
///
/// It refuses with `NO_ORDER`, `TOO_LONG`, `OUTSIDE` or `TOO_WIDE`, and then the answer is as it
/// was.
#[inline(always)]
pub fn load_signed<R: BitRegister>(
    order: u8,
    big: bool,
    memory: &[R],
    start: usize,
    count: usize,
    number: &mut i64,
) -> u8
    ensures { IsSignedLoad big (operand R.number R.BITS order start memory.now) count number.old
        number.new result }
{
    let status = test_number::<R>(order, memory.len(), start, count);
    if status == OK {
        *number = number_of(order, big, memory, start, count);
    }
    status
}

// Makes a range the lowest digits of a signed number's two's complement, and changes no other bit.
#[inline(always)]
fn store_in<R: BitRegister, O: Sequential<R>>(
    big: bool,
    memory: &mut [R],
    start: usize,
    count: usize,
    number: i64,
)
    requires small { count ≤ 64 }
    requires inside { start + count ≤ length memory.old * R.BITS }
    ensures { StoresNumber big R.BITS O.RISES O.at_of start count (complement_of count number)
        (map R.number memory.old) (map R.number memory.new) }
{
    let mut range = bits_mut::<R, O>(memory, start, count);
    if big {
        range.store_signed_be(number);
    } else {
        range.store_signed_le(number);
    }
}

// The same under the order of a code.
#[inline(always)]
fn put_number<R: BitRegister>(
    order: u8,
    big: bool,
    memory: &mut [R],
    start: usize,
    count: usize,
    number: i64,
)
    requires small { count ≤ 64 }
    requires inside { start + count ≤ length memory.old * R.BITS }
    ensures { MemoryStores big R.number R.BITS order start count (complement_of count number)
        memory.old memory.new }
{
    if order == LSB0 {
        store_in::<R, Lsb0>(big, memory, start, count, number);
    } else {
        store_in::<R, Msb0>(big, memory, start, count, number);
    }
}

/// Makes a range of at most 64 bits the lowest digits of a signed number's two's complement, and
/// changes no other bit, in constant time.
///
/// It refuses with `NO_ORDER`, `TOO_LONG`, `OUTSIDE` or `TOO_WIDE`, and then the memory is as it
/// was.
#[inline(always)]
pub fn store_signed<R: BitRegister>(
    order: u8,
    big: bool,
    memory: &mut [R],
    start: usize,
    count: usize,
    number: i64,
) -> u8
    ensures { let at = operand R.number R.BITS order start in IsStore big (at memory.old)
        (at memory.new) count (complement_of count number) result }
{
    let status = test_number::<R>(order, memory.len(), start, count);
    if status == OK {
        put_number(order, big, memory, start, count, number);
    }
    status
}
