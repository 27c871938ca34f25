//! Numbers: exports for callers in C. Written by `.ci/exports`.

ghost use Rattle.bitvec_slice.specs.Signed.{complement_of};
ghost use Rattle.bitvec_call.specs.Call.{u8_at, u16_at, u32_at, u64_at, IsLoad, IsSignedLoad};
ghost use Rattle.bitvec_call.specs.Call.{IsStore};

use bitvec_call::number::{load, store};
use bitvec_call::signed::{load_signed, store_signed};

/// Writes to `number` the number whose digits the bits of a range are; its other digits are 0.
///
/// In words of 8 bits. It refuses with `NO_ORDER`, `TOO_LONG`, `OUTSIDE` or `TOO_WIDE`.
#[inline(always)]
#[unsafe(no_mangle)]
pub extern "C" fn bitvec_c_load_u8(
    order: u8,
    big_endian: bool,
    memory: &[u8],
    start: usize,
    count: usize,
    number: &mut u64,
) -> u8
    ensures { IsLoad big_endian (u8_at order start memory.now) count number.old number.new result }
{
    load(order, big_endian, memory, start, count, number)
}

/// As `bitvec_c_load_u8`, of words of 16 bits.
#[inline(always)]
#[unsafe(no_mangle)]
pub extern "C" fn bitvec_c_load_u16(
    order: u8,
    big_endian: bool,
    memory: &[u16],
    start: usize,
    count: usize,
    number: &mut u64,
) -> u8
    ensures { IsLoad big_endian (u16_at order start memory.now) count number.old number.new result }
{
    load(order, big_endian, memory, start, count, number)
}

/// As `bitvec_c_load_u8`, of words of 32 bits.
#[inline(always)]
#[unsafe(no_mangle)]
pub extern "C" fn bitvec_c_load_u32(
    order: u8,
    big_endian: bool,
    memory: &[u32],
    start: usize,
    count: usize,
    number: &mut u64,
) -> u8
    ensures { IsLoad big_endian (u32_at order start memory.now) count number.old number.new result }
{
    load(order, big_endian, memory, start, count, number)
}

/// As `bitvec_c_load_u8`, of words of 64 bits.
#[inline(always)]
#[unsafe(no_mangle)]
pub extern "C" fn bitvec_c_load_u64(
    order: u8,
    big_endian: bool,
    memory: &[u64],
    start: usize,
    count: usize,
    number: &mut u64,
) -> u8
    ensures { IsLoad big_endian (u64_at order start memory.now) count number.old number.new result }
{
    load(order, big_endian, memory, start, count, number)
}

/// Makes the bits of a range the lowest digits of a number, so that bitvec_c_load_W gives them
/// back. Its other digits are dropped.
///
/// In words of 8 bits. It refuses with `NO_ORDER`, `TOO_LONG`, `OUTSIDE` or `TOO_WIDE`.
#[inline(always)]
#[unsafe(no_mangle)]
pub extern "C" fn bitvec_c_store_u8(
    order: u8,
    big_endian: bool,
    memory: &mut [u8],
    start: usize,
    count: usize,
    number: u64,
) -> u8
    ensures { let at = u8_at order start in IsStore big_endian (at memory.old) (at memory.new) count
        number result }
{
    store(order, big_endian, memory, start, count, number)
}

/// As `bitvec_c_store_u8`, of words of 16 bits.
#[inline(always)]
#[unsafe(no_mangle)]
pub extern "C" fn bitvec_c_store_u16(
    order: u8,
    big_endian: bool,
    memory: &mut [u16],
    start: usize,
    count: usize,
    number: u64,
) -> u8
    ensures { let at = u16_at order start in IsStore big_endian (at memory.old) (at memory.new)
        count number result }
{
    store(order, big_endian, memory, start, count, number)
}

/// As `bitvec_c_store_u8`, of words of 32 bits.
#[inline(always)]
#[unsafe(no_mangle)]
pub extern "C" fn bitvec_c_store_u32(
    order: u8,
    big_endian: bool,
    memory: &mut [u32],
    start: usize,
    count: usize,
    number: u64,
) -> u8
    ensures { let at = u32_at order start in IsStore big_endian (at memory.old) (at memory.new)
        count number result }
{
    store(order, big_endian, memory, start, count, number)
}

/// As `bitvec_c_store_u8`, of words of 64 bits.
#[inline(always)]
#[unsafe(no_mangle)]
pub extern "C" fn bitvec_c_store_u64(
    order: u8,
    big_endian: bool,
    memory: &mut [u64],
    start: usize,
    count: usize,
    number: u64,
) -> u8
    ensures { let at = u64_at order start in IsStore big_endian (at memory.old) (at memory.new)
        count number result }
{
    store(order, big_endian, memory, start, count, number)
}

/// Writes to `number` the signed number whose two's complement of `count` digits bitvec_c_load_W
/// gives. For no bits it is 0.
///
/// In words of 8 bits. It refuses with `NO_ORDER`, `TOO_LONG`, `OUTSIDE` or `TOO_WIDE`.
#[inline(always)]
#[unsafe(no_mangle)]
pub extern "C" fn bitvec_c_load_signed_u8(
    order: u8,
    big_endian: bool,
    memory: &[u8],
    start: usize,
    count: usize,
    number: &mut i64,
) -> u8
    ensures { IsSignedLoad big_endian (u8_at order start memory.now) count number.old number.new
        result }
{
    load_signed(order, big_endian, memory, start, count, number)
}

/// As `bitvec_c_load_signed_u8`, of words of 16 bits.
#[inline(always)]
#[unsafe(no_mangle)]
pub extern "C" fn bitvec_c_load_signed_u16(
    order: u8,
    big_endian: bool,
    memory: &[u16],
    start: usize,
    count: usize,
    number: &mut i64,
) -> u8
    ensures { IsSignedLoad big_endian (u16_at order start memory.now) count number.old number.new
        result }
{
    load_signed(order, big_endian, memory, start, count, number)
}

/// As `bitvec_c_load_signed_u8`, of words of 32 bits.
#[inline(always)]
#[unsafe(no_mangle)]
pub extern "C" fn bitvec_c_load_signed_u32(
    order: u8,
    big_endian: bool,
    memory: &[u32],
    start: usize,
    count: usize,
    number: &mut i64,
) -> u8
    ensures { IsSignedLoad big_endian (u32_at order start memory.now) count number.old number.new
        result }
{
    load_signed(order, big_endian, memory, start, count, number)
}

/// As `bitvec_c_load_signed_u8`, of words of 64 bits.
#[inline(always)]
#[unsafe(no_mangle)]
pub extern "C" fn bitvec_c_load_signed_u64(
    order: u8,
    big_endian: bool,
    memory: &[u64],
    start: usize,
    count: usize,
    number: &mut i64,
) -> u8
    ensures { IsSignedLoad big_endian (u64_at order start memory.now) count number.old number.new
        result }
{
    load_signed(order, big_endian, memory, start, count, number)
}

/// Makes the bits of a range the lowest digits of a signed number's two's complement, so that
/// bitvec_c_load_signed_W gives back a number that has no more digits.
///
/// In words of 8 bits. It refuses with `NO_ORDER`, `TOO_LONG`, `OUTSIDE` or `TOO_WIDE`.
#[inline(always)]
#[unsafe(no_mangle)]
pub extern "C" fn bitvec_c_store_signed_u8(
    order: u8,
    big_endian: bool,
    memory: &mut [u8],
    start: usize,
    count: usize,
    number: i64,
) -> u8
    ensures { let at = u8_at order start in IsStore big_endian (at memory.old) (at memory.new) count
        (complement_of count number) result }
{
    store_signed(order, big_endian, memory, start, count, number)
}

/// As `bitvec_c_store_signed_u8`, of words of 16 bits.
#[inline(always)]
#[unsafe(no_mangle)]
pub extern "C" fn bitvec_c_store_signed_u16(
    order: u8,
    big_endian: bool,
    memory: &mut [u16],
    start: usize,
    count: usize,
    number: i64,
) -> u8
    ensures { let at = u16_at order start in IsStore big_endian (at memory.old) (at memory.new)
        count (complement_of count number) result }
{
    store_signed(order, big_endian, memory, start, count, number)
}

/// As `bitvec_c_store_signed_u8`, of words of 32 bits.
#[inline(always)]
#[unsafe(no_mangle)]
pub extern "C" fn bitvec_c_store_signed_u32(
    order: u8,
    big_endian: bool,
    memory: &mut [u32],
    start: usize,
    count: usize,
    number: i64,
) -> u8
    ensures { let at = u32_at order start in IsStore big_endian (at memory.old) (at memory.new)
        count (complement_of count number) result }
{
    store_signed(order, big_endian, memory, start, count, number)
}

/// As `bitvec_c_store_signed_u8`, of words of 64 bits.
#[inline(always)]
#[unsafe(no_mangle)]
pub extern "C" fn bitvec_c_store_signed_u64(
    order: u8,
    big_endian: bool,
    memory: &mut [u64],
    start: usize,
    count: usize,
    number: i64,
) -> u8
    ensures { let at = u64_at order start in IsStore big_endian (at memory.old) (at memory.new)
        count (complement_of count number) result }
{
    store_signed(order, big_endian, memory, start, count, number)
}
