//! Moving: exports for callers in C. Written by `.ci/exports`.

ghost use Rattle.std.specs.Prelude.{◌-◌, ◌++◌, false, length, take, drop, replicate};
ghost use Rattle.bitvec_call.specs.Call.{u8_at, u16_at, u32_at, u64_at, IsMove, IsCopy, IsPut};

use bitvec_call::convert::convert;
use bitvec_call::copy::{copy, copy_within};
use bitvec_call::edit::{Edit, try_edit};

/// Copies bits of one memory to another, under one order. The two arrays share no word.
///
/// In words of 8 bits. It refuses with `NO_ORDER`, `TOO_LONG` or `OUTSIDE`. It costs by words.
#[unsafe(no_mangle)]
pub extern "C" fn bitvec_c_copy_u8(
    order: u8,
    target: &mut [u8],
    target_start: usize,
    source: &[u8],
    source_start: usize,
    count: usize,
) -> u8
    ensures { let at = u8_at order in IsCopy (at source_start source.now) (at target_start
        target.old) (at target_start target.new) count result }
{
    copy(order, source, source_start, target, target_start, count)
}

/// As `bitvec_c_copy_u8`, of words of 16 bits.
#[unsafe(no_mangle)]
pub extern "C" fn bitvec_c_copy_u16(
    order: u8,
    target: &mut [u16],
    target_start: usize,
    source: &[u16],
    source_start: usize,
    count: usize,
) -> u8
    ensures { let at = u16_at order in IsCopy (at source_start source.now) (at target_start
        target.old) (at target_start target.new) count result }
{
    copy(order, source, source_start, target, target_start, count)
}

/// As `bitvec_c_copy_u8`, of words of 32 bits.
#[unsafe(no_mangle)]
pub extern "C" fn bitvec_c_copy_u32(
    order: u8,
    target: &mut [u32],
    target_start: usize,
    source: &[u32],
    source_start: usize,
    count: usize,
) -> u8
    ensures { let at = u32_at order in IsCopy (at source_start source.now) (at target_start
        target.old) (at target_start target.new) count result }
{
    copy(order, source, source_start, target, target_start, count)
}

/// As `bitvec_c_copy_u8`, of words of 64 bits.
#[unsafe(no_mangle)]
pub extern "C" fn bitvec_c_copy_u64(
    order: u8,
    target: &mut [u64],
    target_start: usize,
    source: &[u64],
    source_start: usize,
    count: usize,
) -> u8
    ensures { let at = u64_at order in IsCopy (at source_start source.now) (at target_start
        target.old) (at target_start target.new) count result }
{
    copy(order, source, source_start, target, target_start, count)
}

/// Copies bits of a memory to another place of it. The two ranges may overlap: the target gets the
/// bits as they were before.
///
/// In words of 8 bits. It refuses with `NO_ORDER`, `TOO_LONG` or `OUTSIDE`. It costs by words.
#[unsafe(no_mangle)]
pub extern "C" fn bitvec_c_copy_within_u8(
    order: u8,
    memory: &mut [u8],
    target_start: usize,
    source_start: usize,
    count: usize,
) -> u8
    ensures { let at = u8_at order in IsCopy (at source_start memory.old) (at target_start
        memory.old) (at target_start memory.new) count result }
{
    copy_within(order, memory, source_start, target_start, count)
}

/// As `bitvec_c_copy_within_u8`, of words of 16 bits.
#[unsafe(no_mangle)]
pub extern "C" fn bitvec_c_copy_within_u16(
    order: u8,
    memory: &mut [u16],
    target_start: usize,
    source_start: usize,
    count: usize,
) -> u8
    ensures { let at = u16_at order in IsCopy (at source_start memory.old) (at target_start
        memory.old) (at target_start memory.new) count result }
{
    copy_within(order, memory, source_start, target_start, count)
}

/// As `bitvec_c_copy_within_u8`, of words of 32 bits.
#[unsafe(no_mangle)]
pub extern "C" fn bitvec_c_copy_within_u32(
    order: u8,
    memory: &mut [u32],
    target_start: usize,
    source_start: usize,
    count: usize,
) -> u8
    ensures { let at = u32_at order in IsCopy (at source_start memory.old) (at target_start
        memory.old) (at target_start memory.new) count result }
{
    copy_within(order, memory, source_start, target_start, count)
}

/// As `bitvec_c_copy_within_u8`, of words of 64 bits.
#[unsafe(no_mangle)]
pub extern "C" fn bitvec_c_copy_within_u64(
    order: u8,
    memory: &mut [u64],
    target_start: usize,
    source_start: usize,
    count: usize,
) -> u8
    ensures { let at = u64_at order in IsCopy (at source_start memory.old) (at target_start
        memory.old) (at target_start memory.new) count result }
{
    copy_within(order, memory, source_start, target_start, count)
}

/// Copies bits of a memory of words of one width to one of words of another, each under an order of
/// its own. The two memories share no word.
///
/// In words of 8 and 8 bits. It refuses with `NO_ORDER`, `TOO_LONG` or `OUTSIDE`. It costs by words
/// where the orders are the same, else by bits.
#[unsafe(no_mangle)]
pub extern "C" fn bitvec_c_copy_u8_to_u8(
    order: u8,
    target: &mut [u8],
    target_start: usize,
    source_order: u8,
    source: &[u8],
    source_start: usize,
    count: usize,
) -> u8
    ensures { IsPut (u8_at source_order source_start source.now) (u8_at order) target_start
        target.old target.new count result }
{
    convert::<u8, u8>(
        source_order,
        source,
        source_start,
        order,
        target,
        target_start,
        count,
    )
}

/// As `bitvec_c_copy_u8_to_u8`, of words of 8 and 16 bits.
#[unsafe(no_mangle)]
pub extern "C" fn bitvec_c_copy_u8_to_u16(
    order: u8,
    target: &mut [u16],
    target_start: usize,
    source_order: u8,
    source: &[u8],
    source_start: usize,
    count: usize,
) -> u8
    ensures { IsPut (u8_at source_order source_start source.now) (u16_at order) target_start
        target.old target.new count result }
{
    convert::<u8, u16>(
        source_order,
        source,
        source_start,
        order,
        target,
        target_start,
        count,
    )
}

/// As `bitvec_c_copy_u8_to_u8`, of words of 8 and 32 bits.
#[unsafe(no_mangle)]
pub extern "C" fn bitvec_c_copy_u8_to_u32(
    order: u8,
    target: &mut [u32],
    target_start: usize,
    source_order: u8,
    source: &[u8],
    source_start: usize,
    count: usize,
) -> u8
    ensures { IsPut (u8_at source_order source_start source.now) (u32_at order) target_start
        target.old target.new count result }
{
    convert::<u8, u32>(
        source_order,
        source,
        source_start,
        order,
        target,
        target_start,
        count,
    )
}

/// As `bitvec_c_copy_u8_to_u8`, of words of 8 and 64 bits.
#[unsafe(no_mangle)]
pub extern "C" fn bitvec_c_copy_u8_to_u64(
    order: u8,
    target: &mut [u64],
    target_start: usize,
    source_order: u8,
    source: &[u8],
    source_start: usize,
    count: usize,
) -> u8
    ensures { IsPut (u8_at source_order source_start source.now) (u64_at order) target_start
        target.old target.new count result }
{
    convert::<u8, u64>(
        source_order,
        source,
        source_start,
        order,
        target,
        target_start,
        count,
    )
}

/// As `bitvec_c_copy_u8_to_u8`, of words of 16 and 8 bits.
#[unsafe(no_mangle)]
pub extern "C" fn bitvec_c_copy_u16_to_u8(
    order: u8,
    target: &mut [u8],
    target_start: usize,
    source_order: u8,
    source: &[u16],
    source_start: usize,
    count: usize,
) -> u8
    ensures { IsPut (u16_at source_order source_start source.now) (u8_at order) target_start
        target.old target.new count result }
{
    convert::<u16, u8>(
        source_order,
        source,
        source_start,
        order,
        target,
        target_start,
        count,
    )
}

/// As `bitvec_c_copy_u8_to_u8`, of words of 16 and 16 bits.
#[unsafe(no_mangle)]
pub extern "C" fn bitvec_c_copy_u16_to_u16(
    order: u8,
    target: &mut [u16],
    target_start: usize,
    source_order: u8,
    source: &[u16],
    source_start: usize,
    count: usize,
) -> u8
    ensures { IsPut (u16_at source_order source_start source.now) (u16_at order) target_start
        target.old target.new count result }
{
    convert::<u16, u16>(
        source_order,
        source,
        source_start,
        order,
        target,
        target_start,
        count,
    )
}

/// As `bitvec_c_copy_u8_to_u8`, of words of 16 and 32 bits.
#[unsafe(no_mangle)]
pub extern "C" fn bitvec_c_copy_u16_to_u32(
    order: u8,
    target: &mut [u32],
    target_start: usize,
    source_order: u8,
    source: &[u16],
    source_start: usize,
    count: usize,
) -> u8
    ensures { IsPut (u16_at source_order source_start source.now) (u32_at order) target_start
        target.old target.new count result }
{
    convert::<u16, u32>(
        source_order,
        source,
        source_start,
        order,
        target,
        target_start,
        count,
    )
}

/// As `bitvec_c_copy_u8_to_u8`, of words of 16 and 64 bits.
#[unsafe(no_mangle)]
pub extern "C" fn bitvec_c_copy_u16_to_u64(
    order: u8,
    target: &mut [u64],
    target_start: usize,
    source_order: u8,
    source: &[u16],
    source_start: usize,
    count: usize,
) -> u8
    ensures { IsPut (u16_at source_order source_start source.now) (u64_at order) target_start
        target.old target.new count result }
{
    convert::<u16, u64>(
        source_order,
        source,
        source_start,
        order,
        target,
        target_start,
        count,
    )
}

/// As `bitvec_c_copy_u8_to_u8`, of words of 32 and 8 bits.
#[unsafe(no_mangle)]
pub extern "C" fn bitvec_c_copy_u32_to_u8(
    order: u8,
    target: &mut [u8],
    target_start: usize,
    source_order: u8,
    source: &[u32],
    source_start: usize,
    count: usize,
) -> u8
    ensures { IsPut (u32_at source_order source_start source.now) (u8_at order) target_start
        target.old target.new count result }
{
    convert::<u32, u8>(
        source_order,
        source,
        source_start,
        order,
        target,
        target_start,
        count,
    )
}

/// As `bitvec_c_copy_u8_to_u8`, of words of 32 and 16 bits.
#[unsafe(no_mangle)]
pub extern "C" fn bitvec_c_copy_u32_to_u16(
    order: u8,
    target: &mut [u16],
    target_start: usize,
    source_order: u8,
    source: &[u32],
    source_start: usize,
    count: usize,
) -> u8
    ensures { IsPut (u32_at source_order source_start source.now) (u16_at order) target_start
        target.old target.new count result }
{
    convert::<u32, u16>(
        source_order,
        source,
        source_start,
        order,
        target,
        target_start,
        count,
    )
}

/// As `bitvec_c_copy_u8_to_u8`, of words of 32 and 32 bits.
#[unsafe(no_mangle)]
pub extern "C" fn bitvec_c_copy_u32_to_u32(
    order: u8,
    target: &mut [u32],
    target_start: usize,
    source_order: u8,
    source: &[u32],
    source_start: usize,
    count: usize,
) -> u8
    ensures { IsPut (u32_at source_order source_start source.now) (u32_at order) target_start
        target.old target.new count result }
{
    convert::<u32, u32>(
        source_order,
        source,
        source_start,
        order,
        target,
        target_start,
        count,
    )
}

/// As `bitvec_c_copy_u8_to_u8`, of words of 32 and 64 bits.
#[unsafe(no_mangle)]
pub extern "C" fn bitvec_c_copy_u32_to_u64(
    order: u8,
    target: &mut [u64],
    target_start: usize,
    source_order: u8,
    source: &[u32],
    source_start: usize,
    count: usize,
) -> u8
    ensures { IsPut (u32_at source_order source_start source.now) (u64_at order) target_start
        target.old target.new count result }
{
    convert::<u32, u64>(
        source_order,
        source,
        source_start,
        order,
        target,
        target_start,
        count,
    )
}

/// As `bitvec_c_copy_u8_to_u8`, of words of 64 and 8 bits.
#[unsafe(no_mangle)]
pub extern "C" fn bitvec_c_copy_u64_to_u8(
    order: u8,
    target: &mut [u8],
    target_start: usize,
    source_order: u8,
    source: &[u64],
    source_start: usize,
    count: usize,
) -> u8
    ensures { IsPut (u64_at source_order source_start source.now) (u8_at order) target_start
        target.old target.new count result }
{
    convert::<u64, u8>(
        source_order,
        source,
        source_start,
        order,
        target,
        target_start,
        count,
    )
}

/// As `bitvec_c_copy_u8_to_u8`, of words of 64 and 16 bits.
#[unsafe(no_mangle)]
pub extern "C" fn bitvec_c_copy_u64_to_u16(
    order: u8,
    target: &mut [u16],
    target_start: usize,
    source_order: u8,
    source: &[u64],
    source_start: usize,
    count: usize,
) -> u8
    ensures { IsPut (u64_at source_order source_start source.now) (u16_at order) target_start
        target.old target.new count result }
{
    convert::<u64, u16>(
        source_order,
        source,
        source_start,
        order,
        target,
        target_start,
        count,
    )
}

/// As `bitvec_c_copy_u8_to_u8`, of words of 64 and 32 bits.
#[unsafe(no_mangle)]
pub extern "C" fn bitvec_c_copy_u64_to_u32(
    order: u8,
    target: &mut [u32],
    target_start: usize,
    source_order: u8,
    source: &[u64],
    source_start: usize,
    count: usize,
) -> u8
    ensures { IsPut (u64_at source_order source_start source.now) (u32_at order) target_start
        target.old target.new count result }
{
    convert::<u64, u32>(
        source_order,
        source,
        source_start,
        order,
        target,
        target_start,
        count,
    )
}

/// As `bitvec_c_copy_u8_to_u8`, of words of 64 and 64 bits.
#[unsafe(no_mangle)]
pub extern "C" fn bitvec_c_copy_u64_to_u64(
    order: u8,
    target: &mut [u64],
    target_start: usize,
    source_order: u8,
    source: &[u64],
    source_start: usize,
    count: usize,
) -> u8
    ensures { IsPut (u64_at source_order source_start source.now) (u64_at order) target_start
        target.old target.new count result }
{
    convert::<u64, u64>(
        source_order,
        source,
        source_start,
        order,
        target,
        target_start,
        count,
    )
}

/// Moves each of the `count` bits from `start` on `by` places towards the first, so that the first
/// `by` are lost, and makes the last `by` zero.
///
/// In words of 8 bits. It refuses with `NO_ORDER`, `TOO_LONG` or `OUTSIDE` (also where `by` is past
/// `count`). It costs by words.
#[unsafe(no_mangle)]
pub extern "C" fn bitvec_c_shift_left_u8(
    order: u8,
    memory: &mut [u8],
    start: usize,
    count: usize,
    by: usize,
) -> u8
    ensures { let at = u8_at order start in IsMove by (at memory.old) (at memory.new) count (λ xs.
        drop by xs ++ replicate by false) result }
{
    try_edit(order, memory, start, count, Edit::ShiftLeft(by))
}

/// As `bitvec_c_shift_left_u8`, of words of 16 bits.
#[unsafe(no_mangle)]
pub extern "C" fn bitvec_c_shift_left_u16(
    order: u8,
    memory: &mut [u16],
    start: usize,
    count: usize,
    by: usize,
) -> u8
    ensures { let at = u16_at order start in IsMove by (at memory.old) (at memory.new) count (λ xs.
        drop by xs ++ replicate by false) result }
{
    try_edit(order, memory, start, count, Edit::ShiftLeft(by))
}

/// As `bitvec_c_shift_left_u8`, of words of 32 bits.
#[unsafe(no_mangle)]
pub extern "C" fn bitvec_c_shift_left_u32(
    order: u8,
    memory: &mut [u32],
    start: usize,
    count: usize,
    by: usize,
) -> u8
    ensures { let at = u32_at order start in IsMove by (at memory.old) (at memory.new) count (λ xs.
        drop by xs ++ replicate by false) result }
{
    try_edit(order, memory, start, count, Edit::ShiftLeft(by))
}

/// As `bitvec_c_shift_left_u8`, of words of 64 bits.
#[unsafe(no_mangle)]
pub extern "C" fn bitvec_c_shift_left_u64(
    order: u8,
    memory: &mut [u64],
    start: usize,
    count: usize,
    by: usize,
) -> u8
    ensures { let at = u64_at order start in IsMove by (at memory.old) (at memory.new) count (λ xs.
        drop by xs ++ replicate by false) result }
{
    try_edit(order, memory, start, count, Edit::ShiftLeft(by))
}

/// Moves each of the `count` bits from `start` on `by` places towards the last, so that the last
/// `by` are lost, and makes the first `by` zero.
///
/// In words of 8 bits. It refuses with `NO_ORDER`, `TOO_LONG` or `OUTSIDE` (also where `by` is past
/// `count`). It costs by words.
#[unsafe(no_mangle)]
pub extern "C" fn bitvec_c_shift_right_u8(
    order: u8,
    memory: &mut [u8],
    start: usize,
    count: usize,
    by: usize,
) -> u8
    ensures { let at = u8_at order start in IsMove by (at memory.old) (at memory.new) count (λ xs.
        replicate by false ++ take (length xs - by) xs) result }
{
    try_edit(order, memory, start, count, Edit::ShiftRight(by))
}

/// As `bitvec_c_shift_right_u8`, of words of 16 bits.
#[unsafe(no_mangle)]
pub extern "C" fn bitvec_c_shift_right_u16(
    order: u8,
    memory: &mut [u16],
    start: usize,
    count: usize,
    by: usize,
) -> u8
    ensures { let at = u16_at order start in IsMove by (at memory.old) (at memory.new) count (λ xs.
        replicate by false ++ take (length xs - by) xs) result }
{
    try_edit(order, memory, start, count, Edit::ShiftRight(by))
}

/// As `bitvec_c_shift_right_u8`, of words of 32 bits.
#[unsafe(no_mangle)]
pub extern "C" fn bitvec_c_shift_right_u32(
    order: u8,
    memory: &mut [u32],
    start: usize,
    count: usize,
    by: usize,
) -> u8
    ensures { let at = u32_at order start in IsMove by (at memory.old) (at memory.new) count (λ xs.
        replicate by false ++ take (length xs - by) xs) result }
{
    try_edit(order, memory, start, count, Edit::ShiftRight(by))
}

/// As `bitvec_c_shift_right_u8`, of words of 64 bits.
#[unsafe(no_mangle)]
pub extern "C" fn bitvec_c_shift_right_u64(
    order: u8,
    memory: &mut [u64],
    start: usize,
    count: usize,
    by: usize,
) -> u8
    ensures { let at = u64_at order start in IsMove by (at memory.old) (at memory.new) count (λ xs.
        replicate by false ++ take (length xs - by) xs) result }
{
    try_edit(order, memory, start, count, Edit::ShiftRight(by))
}

/// Puts the first `by` of the `count` bits from `start` on behind the others.
///
/// In words of 8 bits. It refuses with `NO_ORDER`, `TOO_LONG` or `OUTSIDE` (also where `by` is past
/// `count`). It costs by words.
#[unsafe(no_mangle)]
pub extern "C" fn bitvec_c_rotate_left_u8(
    order: u8,
    memory: &mut [u8],
    start: usize,
    count: usize,
    by: usize,
) -> u8
    ensures { let at = u8_at order start in IsMove by (at memory.old) (at memory.new) count (λ xs.
        drop by xs ++ take by xs) result }
{
    try_edit(order, memory, start, count, Edit::RotateLeft(by))
}

/// As `bitvec_c_rotate_left_u8`, of words of 16 bits.
#[unsafe(no_mangle)]
pub extern "C" fn bitvec_c_rotate_left_u16(
    order: u8,
    memory: &mut [u16],
    start: usize,
    count: usize,
    by: usize,
) -> u8
    ensures { let at = u16_at order start in IsMove by (at memory.old) (at memory.new) count (λ xs.
        drop by xs ++ take by xs) result }
{
    try_edit(order, memory, start, count, Edit::RotateLeft(by))
}

/// As `bitvec_c_rotate_left_u8`, of words of 32 bits.
#[unsafe(no_mangle)]
pub extern "C" fn bitvec_c_rotate_left_u32(
    order: u8,
    memory: &mut [u32],
    start: usize,
    count: usize,
    by: usize,
) -> u8
    ensures { let at = u32_at order start in IsMove by (at memory.old) (at memory.new) count (λ xs.
        drop by xs ++ take by xs) result }
{
    try_edit(order, memory, start, count, Edit::RotateLeft(by))
}

/// As `bitvec_c_rotate_left_u8`, of words of 64 bits.
#[unsafe(no_mangle)]
pub extern "C" fn bitvec_c_rotate_left_u64(
    order: u8,
    memory: &mut [u64],
    start: usize,
    count: usize,
    by: usize,
) -> u8
    ensures { let at = u64_at order start in IsMove by (at memory.old) (at memory.new) count (λ xs.
        drop by xs ++ take by xs) result }
{
    try_edit(order, memory, start, count, Edit::RotateLeft(by))
}
