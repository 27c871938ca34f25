//! A range: exports for callers in C. Written by `.ci/exports`.

ghost use Rattle.std.specs.Prelude.{not, map, reverse, replicate};
ghost use Rattle.bitvec_call.specs.Call.{u8_at, u16_at, u32_at, u64_at, IsEdit};

use bitvec_call::edit::{Edit, edit_all};
use bitvec_call::fill::fill;

/// Makes each bit of a range the same as `bit`.
///
/// In words of 8 bits. It refuses with `NO_ORDER`, `TOO_LONG` or `OUTSIDE`. It costs by words.
#[unsafe(no_mangle)]
pub extern "C" fn bitvec_c_fill_u8(
    order: u8,
    memory: &mut [u8],
    start: usize,
    count: usize,
    bit: bool,
) -> u8
    ensures { let at = u8_at order start in IsEdit (at memory.old) (at memory.new) count (λ xs.
        replicate count bit) result }
{
    fill(order, memory, start, count, bit)
}

/// As `bitvec_c_fill_u8`, of words of 16 bits.
#[unsafe(no_mangle)]
pub extern "C" fn bitvec_c_fill_u16(
    order: u8,
    memory: &mut [u16],
    start: usize,
    count: usize,
    bit: bool,
) -> u8
    ensures { let at = u16_at order start in IsEdit (at memory.old) (at memory.new) count (λ xs.
        replicate count bit) result }
{
    fill(order, memory, start, count, bit)
}

/// As `bitvec_c_fill_u8`, of words of 32 bits.
#[unsafe(no_mangle)]
pub extern "C" fn bitvec_c_fill_u32(
    order: u8,
    memory: &mut [u32],
    start: usize,
    count: usize,
    bit: bool,
) -> u8
    ensures { let at = u32_at order start in IsEdit (at memory.old) (at memory.new) count (λ xs.
        replicate count bit) result }
{
    fill(order, memory, start, count, bit)
}

/// As `bitvec_c_fill_u8`, of words of 64 bits.
#[unsafe(no_mangle)]
pub extern "C" fn bitvec_c_fill_u64(
    order: u8,
    memory: &mut [u64],
    start: usize,
    count: usize,
    bit: bool,
) -> u8
    ensures { let at = u64_at order start in IsEdit (at memory.old) (at memory.new) count (λ xs.
        replicate count bit) result }
{
    fill(order, memory, start, count, bit)
}

/// Turns over each bit of a range.
///
/// In words of 8 bits. It refuses with `NO_ORDER`, `TOO_LONG` or `OUTSIDE`. It costs by words.
#[unsafe(no_mangle)]
pub extern "C" fn bitvec_c_invert_u8(order: u8, memory: &mut [u8], start: usize, count: usize) -> u8
    ensures { let at = u8_at order start in IsEdit (at memory.old) (at memory.new) count (map not)
        result }
{
    edit_all(order, memory, start, count, Edit::Invert)
}

/// As `bitvec_c_invert_u8`, of words of 16 bits.
#[unsafe(no_mangle)]
pub extern "C" fn bitvec_c_invert_u16(
    order: u8,
    memory: &mut [u16],
    start: usize,
    count: usize,
) -> u8
    ensures { let at = u16_at order start in IsEdit (at memory.old) (at memory.new) count (map not)
        result }
{
    edit_all(order, memory, start, count, Edit::Invert)
}

/// As `bitvec_c_invert_u8`, of words of 32 bits.
#[unsafe(no_mangle)]
pub extern "C" fn bitvec_c_invert_u32(
    order: u8,
    memory: &mut [u32],
    start: usize,
    count: usize,
) -> u8
    ensures { let at = u32_at order start in IsEdit (at memory.old) (at memory.new) count (map not)
        result }
{
    edit_all(order, memory, start, count, Edit::Invert)
}

/// As `bitvec_c_invert_u8`, of words of 64 bits.
#[unsafe(no_mangle)]
pub extern "C" fn bitvec_c_invert_u64(
    order: u8,
    memory: &mut [u64],
    start: usize,
    count: usize,
) -> u8
    ensures { let at = u64_at order start in IsEdit (at memory.old) (at memory.new) count (map not)
        result }
{
    edit_all(order, memory, start, count, Edit::Invert)
}

/// Puts the bits of a range in the opposite order.
///
/// In words of 8 bits. It refuses with `NO_ORDER`, `TOO_LONG` or `OUTSIDE`. It costs by words.
#[unsafe(no_mangle)]
pub extern "C" fn bitvec_c_reverse_u8(
    order: u8,
    memory: &mut [u8],
    start: usize,
    count: usize,
) -> u8
    ensures { let at = u8_at order start in IsEdit (at memory.old) (at memory.new) count reverse
        result }
{
    edit_all(order, memory, start, count, Edit::Reverse)
}

/// As `bitvec_c_reverse_u8`, of words of 16 bits.
#[unsafe(no_mangle)]
pub extern "C" fn bitvec_c_reverse_u16(
    order: u8,
    memory: &mut [u16],
    start: usize,
    count: usize,
) -> u8
    ensures { let at = u16_at order start in IsEdit (at memory.old) (at memory.new) count reverse
        result }
{
    edit_all(order, memory, start, count, Edit::Reverse)
}

/// As `bitvec_c_reverse_u8`, of words of 32 bits.
#[unsafe(no_mangle)]
pub extern "C" fn bitvec_c_reverse_u32(
    order: u8,
    memory: &mut [u32],
    start: usize,
    count: usize,
) -> u8
    ensures { let at = u32_at order start in IsEdit (at memory.old) (at memory.new) count reverse
        result }
{
    edit_all(order, memory, start, count, Edit::Reverse)
}

/// As `bitvec_c_reverse_u8`, of words of 64 bits.
#[unsafe(no_mangle)]
pub extern "C" fn bitvec_c_reverse_u64(
    order: u8,
    memory: &mut [u64],
    start: usize,
    count: usize,
) -> u8
    ensures { let at = u64_at order start in IsEdit (at memory.old) (at memory.new) count reverse
        result }
{
    edit_all(order, memory, start, count, Edit::Reverse)
}
