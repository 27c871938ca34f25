//! One bit: exports for callers in C. Written by `.ci/exports`.

ghost use Rattle.bitvec_call.specs.Call.{u8_at, u16_at, u32_at, u64_at, IsBitRead, IsBitWrite};
ghost use Rattle.bitvec_call.specs.Call.{IsReplacement, IsExchange};

use bitvec_call::bit::{get, set};
use bitvec_call::exchange::{replace, swap};

/// Writes to `bit` the bit at a place.
///
/// In words of 8 bits. It refuses with `NO_ORDER` or `OUTSIDE`.
#[inline(always)]
#[unsafe(no_mangle)]
pub extern "C" fn bitvec_c_get_u8(order: u8, memory: &[u8], place: usize, bit: &mut bool) -> u8
    ensures { IsBitRead (u8_at order place memory.now) bit.old bit.new result }
{
    get(order, memory, place, bit)
}

/// As `bitvec_c_get_u8`, of words of 16 bits.
#[inline(always)]
#[unsafe(no_mangle)]
pub extern "C" fn bitvec_c_get_u16(order: u8, memory: &[u16], place: usize, bit: &mut bool) -> u8
    ensures { IsBitRead (u16_at order place memory.now) bit.old bit.new result }
{
    get(order, memory, place, bit)
}

/// As `bitvec_c_get_u8`, of words of 32 bits.
#[inline(always)]
#[unsafe(no_mangle)]
pub extern "C" fn bitvec_c_get_u32(order: u8, memory: &[u32], place: usize, bit: &mut bool) -> u8
    ensures { IsBitRead (u32_at order place memory.now) bit.old bit.new result }
{
    get(order, memory, place, bit)
}

/// As `bitvec_c_get_u8`, of words of 64 bits.
#[inline(always)]
#[unsafe(no_mangle)]
pub extern "C" fn bitvec_c_get_u64(order: u8, memory: &[u64], place: usize, bit: &mut bool) -> u8
    ensures { IsBitRead (u64_at order place memory.now) bit.old bit.new result }
{
    get(order, memory, place, bit)
}

/// Makes the bit at a place the same as `bit`.
///
/// In words of 8 bits. It refuses with `NO_ORDER` or `OUTSIDE`.
#[inline(always)]
#[unsafe(no_mangle)]
pub extern "C" fn bitvec_c_set_u8(order: u8, memory: &mut [u8], place: usize, bit: bool) -> u8
    ensures { let at = u8_at order place in IsBitWrite (at memory.old) (at memory.new) bit result }
{
    set(order, memory, place, bit)
}

/// As `bitvec_c_set_u8`, of words of 16 bits.
#[inline(always)]
#[unsafe(no_mangle)]
pub extern "C" fn bitvec_c_set_u16(order: u8, memory: &mut [u16], place: usize, bit: bool) -> u8
    ensures { let at = u16_at order place in IsBitWrite (at memory.old) (at memory.new) bit result }
{
    set(order, memory, place, bit)
}

/// As `bitvec_c_set_u8`, of words of 32 bits.
#[inline(always)]
#[unsafe(no_mangle)]
pub extern "C" fn bitvec_c_set_u32(order: u8, memory: &mut [u32], place: usize, bit: bool) -> u8
    ensures { let at = u32_at order place in IsBitWrite (at memory.old) (at memory.new) bit result }
{
    set(order, memory, place, bit)
}

/// As `bitvec_c_set_u8`, of words of 64 bits.
#[inline(always)]
#[unsafe(no_mangle)]
pub extern "C" fn bitvec_c_set_u64(order: u8, memory: &mut [u64], place: usize, bit: bool) -> u8
    ensures { let at = u64_at order place in IsBitWrite (at memory.old) (at memory.new) bit result }
{
    set(order, memory, place, bit)
}

/// Writes to `before` the bit at a place, and makes it the same as `bit`.
///
/// In words of 8 bits. It refuses with `NO_ORDER` or `OUTSIDE`.
#[inline(always)]
#[unsafe(no_mangle)]
pub extern "C" fn bitvec_c_replace_u8(
    order: u8,
    memory: &mut [u8],
    place: usize,
    bit: bool,
    before: &mut bool,
) -> u8
    ensures { let at = u8_at order place in IsReplacement (at memory.old) (at memory.new) bit
        before.old before.new result }
{
    replace(order, memory, place, bit, before)
}

/// As `bitvec_c_replace_u8`, of words of 16 bits.
#[inline(always)]
#[unsafe(no_mangle)]
pub extern "C" fn bitvec_c_replace_u16(
    order: u8,
    memory: &mut [u16],
    place: usize,
    bit: bool,
    before: &mut bool,
) -> u8
    ensures { let at = u16_at order place in IsReplacement (at memory.old) (at memory.new) bit
        before.old before.new result }
{
    replace(order, memory, place, bit, before)
}

/// As `bitvec_c_replace_u8`, of words of 32 bits.
#[inline(always)]
#[unsafe(no_mangle)]
pub extern "C" fn bitvec_c_replace_u32(
    order: u8,
    memory: &mut [u32],
    place: usize,
    bit: bool,
    before: &mut bool,
) -> u8
    ensures { let at = u32_at order place in IsReplacement (at memory.old) (at memory.new) bit
        before.old before.new result }
{
    replace(order, memory, place, bit, before)
}

/// As `bitvec_c_replace_u8`, of words of 64 bits.
#[inline(always)]
#[unsafe(no_mangle)]
pub extern "C" fn bitvec_c_replace_u64(
    order: u8,
    memory: &mut [u64],
    place: usize,
    bit: bool,
    before: &mut bool,
) -> u8
    ensures { let at = u64_at order place in IsReplacement (at memory.old) (at memory.new) bit
        before.old before.new result }
{
    replace(order, memory, place, bit, before)
}

/// Exchanges the bits at two places, which may be the same one.
///
/// In words of 8 bits. It refuses with `NO_ORDER` or `OUTSIDE`.
#[inline(always)]
#[unsafe(no_mangle)]
pub extern "C" fn bitvec_c_swap_u8(
    order: u8,
    memory: &mut [u8],
    place: usize,
    other_place: usize,
) -> u8
    ensures { let at = u8_at order place in IsExchange (at memory.old) (at memory.new) other_place
        result }
{
    swap(order, memory, place, other_place)
}

/// As `bitvec_c_swap_u8`, of words of 16 bits.
#[inline(always)]
#[unsafe(no_mangle)]
pub extern "C" fn bitvec_c_swap_u16(
    order: u8,
    memory: &mut [u16],
    place: usize,
    other_place: usize,
) -> u8
    ensures { let at = u16_at order place in IsExchange (at memory.old) (at memory.new) other_place
        result }
{
    swap(order, memory, place, other_place)
}

/// As `bitvec_c_swap_u8`, of words of 32 bits.
#[inline(always)]
#[unsafe(no_mangle)]
pub extern "C" fn bitvec_c_swap_u32(
    order: u8,
    memory: &mut [u32],
    place: usize,
    other_place: usize,
) -> u8
    ensures { let at = u32_at order place in IsExchange (at memory.old) (at memory.new) other_place
        result }
{
    swap(order, memory, place, other_place)
}

/// As `bitvec_c_swap_u8`, of words of 64 bits.
#[inline(always)]
#[unsafe(no_mangle)]
pub extern "C" fn bitvec_c_swap_u64(
    order: u8,
    memory: &mut [u64],
    place: usize,
    other_place: usize,
) -> u8
    ensures { let at = u64_at order place in IsExchange (at memory.old) (at memory.new) other_place
        result }
{
    swap(order, memory, place, other_place)
}
