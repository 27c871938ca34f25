//! Two ranges: exports for callers in C. Written by `.ci/exports`.

ghost use Rattle.bitvec_call.specs.Call.{u8_at, u16_at, u32_at, u64_at, both, either, differ};
ghost use Rattle.bitvec_call.specs.Call.{but_not, IsComparison, IsCombination, IsCombinationOf};
ghost use Rattle.bitvec_call.specs.Call.{IsCombinationWithin, CountsPairs, FindsPair};

use bitvec::ptr::combine::{And, AndNot, Or, Xor};
use bitvec_call::combine::{combine, combine_of, combine_within};
use bitvec_call::find::equal;
use bitvec_call::question::{count_with, first_with};
use bitvec_call::seek::first;

/// Leaves one those bits of the target whose bit in the source is one: an intersection.
///
/// In words of 8 bits. It refuses with `NO_ORDER`, `TOO_LONG` or `OUTSIDE`. It costs by words where
/// the orders are the same, else by bits.
#[unsafe(no_mangle)]
pub extern "C" fn bitvec_c_and_u8(
    order: u8,
    target: &mut [u8],
    target_start: usize,
    source_order: u8,
    source: &[u8],
    source_start: usize,
    count: usize,
) -> u8
    ensures { IsCombination both (u8_at source_order source_start source.now) (u8_at order)
        target_start target.old target.new count result }
{
    combine::<And, u8, u8>(
        source_order,
        source,
        source_start,
        order,
        target,
        target_start,
        count,
    )
}

/// As `bitvec_c_and_u8`, of words of 16 bits.
#[unsafe(no_mangle)]
pub extern "C" fn bitvec_c_and_u16(
    order: u8,
    target: &mut [u16],
    target_start: usize,
    source_order: u8,
    source: &[u16],
    source_start: usize,
    count: usize,
) -> u8
    ensures { IsCombination both (u16_at source_order source_start source.now) (u16_at order)
        target_start target.old target.new count result }
{
    combine::<And, u16, u16>(
        source_order,
        source,
        source_start,
        order,
        target,
        target_start,
        count,
    )
}

/// As `bitvec_c_and_u8`, of words of 32 bits.
#[unsafe(no_mangle)]
pub extern "C" fn bitvec_c_and_u32(
    order: u8,
    target: &mut [u32],
    target_start: usize,
    source_order: u8,
    source: &[u32],
    source_start: usize,
    count: usize,
) -> u8
    ensures { IsCombination both (u32_at source_order source_start source.now) (u32_at order)
        target_start target.old target.new count result }
{
    combine::<And, u32, u32>(
        source_order,
        source,
        source_start,
        order,
        target,
        target_start,
        count,
    )
}

/// As `bitvec_c_and_u8`, of words of 64 bits.
#[unsafe(no_mangle)]
pub extern "C" fn bitvec_c_and_u64(
    order: u8,
    target: &mut [u64],
    target_start: usize,
    source_order: u8,
    source: &[u64],
    source_start: usize,
    count: usize,
) -> u8
    ensures { IsCombination both (u64_at source_order source_start source.now) (u64_at order)
        target_start target.old target.new count result }
{
    combine::<And, u64, u64>(
        source_order,
        source,
        source_start,
        order,
        target,
        target_start,
        count,
    )
}

/// Makes one those bits of the target whose bit in the source is one: a union.
///
/// In words of 8 bits. It refuses with `NO_ORDER`, `TOO_LONG` or `OUTSIDE`. It costs by words where
/// the orders are the same, else by bits.
#[unsafe(no_mangle)]
pub extern "C" fn bitvec_c_or_u8(
    order: u8,
    target: &mut [u8],
    target_start: usize,
    source_order: u8,
    source: &[u8],
    source_start: usize,
    count: usize,
) -> u8
    ensures { IsCombination either (u8_at source_order source_start source.now) (u8_at order)
        target_start target.old target.new count result }
{
    combine::<Or, u8, u8>(
        source_order,
        source,
        source_start,
        order,
        target,
        target_start,
        count,
    )
}

/// As `bitvec_c_or_u8`, of words of 16 bits.
#[unsafe(no_mangle)]
pub extern "C" fn bitvec_c_or_u16(
    order: u8,
    target: &mut [u16],
    target_start: usize,
    source_order: u8,
    source: &[u16],
    source_start: usize,
    count: usize,
) -> u8
    ensures { IsCombination either (u16_at source_order source_start source.now) (u16_at order)
        target_start target.old target.new count result }
{
    combine::<Or, u16, u16>(
        source_order,
        source,
        source_start,
        order,
        target,
        target_start,
        count,
    )
}

/// As `bitvec_c_or_u8`, of words of 32 bits.
#[unsafe(no_mangle)]
pub extern "C" fn bitvec_c_or_u32(
    order: u8,
    target: &mut [u32],
    target_start: usize,
    source_order: u8,
    source: &[u32],
    source_start: usize,
    count: usize,
) -> u8
    ensures { IsCombination either (u32_at source_order source_start source.now) (u32_at order)
        target_start target.old target.new count result }
{
    combine::<Or, u32, u32>(
        source_order,
        source,
        source_start,
        order,
        target,
        target_start,
        count,
    )
}

/// As `bitvec_c_or_u8`, of words of 64 bits.
#[unsafe(no_mangle)]
pub extern "C" fn bitvec_c_or_u64(
    order: u8,
    target: &mut [u64],
    target_start: usize,
    source_order: u8,
    source: &[u64],
    source_start: usize,
    count: usize,
) -> u8
    ensures { IsCombination either (u64_at source_order source_start source.now) (u64_at order)
        target_start target.old target.new count result }
{
    combine::<Or, u64, u64>(
        source_order,
        source,
        source_start,
        order,
        target,
        target_start,
        count,
    )
}

/// Turns over those bits of the target whose bit in the source is one: a symmetric difference.
///
/// In words of 8 bits. It refuses with `NO_ORDER`, `TOO_LONG` or `OUTSIDE`. It costs by words where
/// the orders are the same, else by bits.
#[unsafe(no_mangle)]
pub extern "C" fn bitvec_c_xor_u8(
    order: u8,
    target: &mut [u8],
    target_start: usize,
    source_order: u8,
    source: &[u8],
    source_start: usize,
    count: usize,
) -> u8
    ensures { IsCombination differ (u8_at source_order source_start source.now) (u8_at order)
        target_start target.old target.new count result }
{
    combine::<Xor, u8, u8>(
        source_order,
        source,
        source_start,
        order,
        target,
        target_start,
        count,
    )
}

/// As `bitvec_c_xor_u8`, of words of 16 bits.
#[unsafe(no_mangle)]
pub extern "C" fn bitvec_c_xor_u16(
    order: u8,
    target: &mut [u16],
    target_start: usize,
    source_order: u8,
    source: &[u16],
    source_start: usize,
    count: usize,
) -> u8
    ensures { IsCombination differ (u16_at source_order source_start source.now) (u16_at order)
        target_start target.old target.new count result }
{
    combine::<Xor, u16, u16>(
        source_order,
        source,
        source_start,
        order,
        target,
        target_start,
        count,
    )
}

/// As `bitvec_c_xor_u8`, of words of 32 bits.
#[unsafe(no_mangle)]
pub extern "C" fn bitvec_c_xor_u32(
    order: u8,
    target: &mut [u32],
    target_start: usize,
    source_order: u8,
    source: &[u32],
    source_start: usize,
    count: usize,
) -> u8
    ensures { IsCombination differ (u32_at source_order source_start source.now) (u32_at order)
        target_start target.old target.new count result }
{
    combine::<Xor, u32, u32>(
        source_order,
        source,
        source_start,
        order,
        target,
        target_start,
        count,
    )
}

/// As `bitvec_c_xor_u8`, of words of 64 bits.
#[unsafe(no_mangle)]
pub extern "C" fn bitvec_c_xor_u64(
    order: u8,
    target: &mut [u64],
    target_start: usize,
    source_order: u8,
    source: &[u64],
    source_start: usize,
    count: usize,
) -> u8
    ensures { IsCombination differ (u64_at source_order source_start source.now) (u64_at order)
        target_start target.old target.new count result }
{
    combine::<Xor, u64, u64>(
        source_order,
        source,
        source_start,
        order,
        target,
        target_start,
        count,
    )
}

/// Makes zero those bits of the target whose bit in the source is one: a difference.
///
/// In words of 8 bits. It refuses with `NO_ORDER`, `TOO_LONG` or `OUTSIDE`. It costs by words where
/// the orders are the same, else by bits.
#[unsafe(no_mangle)]
pub extern "C" fn bitvec_c_and_not_u8(
    order: u8,
    target: &mut [u8],
    target_start: usize,
    source_order: u8,
    source: &[u8],
    source_start: usize,
    count: usize,
) -> u8
    ensures { IsCombination but_not (u8_at source_order source_start source.now) (u8_at order)
        target_start target.old target.new count result }
{
    combine::<AndNot, u8, u8>(
        source_order,
        source,
        source_start,
        order,
        target,
        target_start,
        count,
    )
}

/// As `bitvec_c_and_not_u8`, of words of 16 bits.
#[unsafe(no_mangle)]
pub extern "C" fn bitvec_c_and_not_u16(
    order: u8,
    target: &mut [u16],
    target_start: usize,
    source_order: u8,
    source: &[u16],
    source_start: usize,
    count: usize,
) -> u8
    ensures { IsCombination but_not (u16_at source_order source_start source.now) (u16_at order)
        target_start target.old target.new count result }
{
    combine::<AndNot, u16, u16>(
        source_order,
        source,
        source_start,
        order,
        target,
        target_start,
        count,
    )
}

/// As `bitvec_c_and_not_u8`, of words of 32 bits.
#[unsafe(no_mangle)]
pub extern "C" fn bitvec_c_and_not_u32(
    order: u8,
    target: &mut [u32],
    target_start: usize,
    source_order: u8,
    source: &[u32],
    source_start: usize,
    count: usize,
) -> u8
    ensures { IsCombination but_not (u32_at source_order source_start source.now) (u32_at order)
        target_start target.old target.new count result }
{
    combine::<AndNot, u32, u32>(
        source_order,
        source,
        source_start,
        order,
        target,
        target_start,
        count,
    )
}

/// As `bitvec_c_and_not_u8`, of words of 64 bits.
#[unsafe(no_mangle)]
pub extern "C" fn bitvec_c_and_not_u64(
    order: u8,
    target: &mut [u64],
    target_start: usize,
    source_order: u8,
    source: &[u64],
    source_start: usize,
    count: usize,
) -> u8
    ensures { IsCombination but_not (u64_at source_order source_start source.now) (u64_at order)
        target_start target.old target.new count result }
{
    combine::<AndNot, u64, u64>(
        source_order,
        source,
        source_start,
        order,
        target,
        target_start,
        count,
    )
}

/// Leaves one those bits of a range whose bit in another range of the same array is one. The two
/// ranges may overlap: each bit is combined with what was there before.
///
/// In words of 8 bits. It refuses with `NO_ORDER`, `TOO_LONG` or `OUTSIDE`. It costs by words.
#[unsafe(no_mangle)]
pub extern "C" fn bitvec_c_and_within_u8(
    order: u8,
    memory: &mut [u8],
    target_start: usize,
    source_start: usize,
    count: usize,
) -> u8
    ensures { IsCombinationWithin both (u8_at order) source_start target_start memory.old memory.new
        count result }
{
    combine_within::<And, u8>(order, memory, source_start, target_start, count)
}

/// As `bitvec_c_and_within_u8`, of words of 16 bits.
#[unsafe(no_mangle)]
pub extern "C" fn bitvec_c_and_within_u16(
    order: u8,
    memory: &mut [u16],
    target_start: usize,
    source_start: usize,
    count: usize,
) -> u8
    ensures { IsCombinationWithin both (u16_at order) source_start target_start memory.old
        memory.new count result }
{
    combine_within::<And, u16>(order, memory, source_start, target_start, count)
}

/// As `bitvec_c_and_within_u8`, of words of 32 bits.
#[unsafe(no_mangle)]
pub extern "C" fn bitvec_c_and_within_u32(
    order: u8,
    memory: &mut [u32],
    target_start: usize,
    source_start: usize,
    count: usize,
) -> u8
    ensures { IsCombinationWithin both (u32_at order) source_start target_start memory.old
        memory.new count result }
{
    combine_within::<And, u32>(order, memory, source_start, target_start, count)
}

/// As `bitvec_c_and_within_u8`, of words of 64 bits.
#[unsafe(no_mangle)]
pub extern "C" fn bitvec_c_and_within_u64(
    order: u8,
    memory: &mut [u64],
    target_start: usize,
    source_start: usize,
    count: usize,
) -> u8
    ensures { IsCombinationWithin both (u64_at order) source_start target_start memory.old
        memory.new count result }
{
    combine_within::<And, u64>(order, memory, source_start, target_start, count)
}

/// Makes one those bits of a range whose bit in another range of the same array is one. The two
/// ranges may overlap, as in bitvec_c_and_within_W.
///
/// In words of 8 bits. It refuses with `NO_ORDER`, `TOO_LONG` or `OUTSIDE`. It costs by words.
#[unsafe(no_mangle)]
pub extern "C" fn bitvec_c_or_within_u8(
    order: u8,
    memory: &mut [u8],
    target_start: usize,
    source_start: usize,
    count: usize,
) -> u8
    ensures { IsCombinationWithin either (u8_at order) source_start target_start memory.old
        memory.new count result }
{
    combine_within::<Or, u8>(order, memory, source_start, target_start, count)
}

/// As `bitvec_c_or_within_u8`, of words of 16 bits.
#[unsafe(no_mangle)]
pub extern "C" fn bitvec_c_or_within_u16(
    order: u8,
    memory: &mut [u16],
    target_start: usize,
    source_start: usize,
    count: usize,
) -> u8
    ensures { IsCombinationWithin either (u16_at order) source_start target_start memory.old
        memory.new count result }
{
    combine_within::<Or, u16>(order, memory, source_start, target_start, count)
}

/// As `bitvec_c_or_within_u8`, of words of 32 bits.
#[unsafe(no_mangle)]
pub extern "C" fn bitvec_c_or_within_u32(
    order: u8,
    memory: &mut [u32],
    target_start: usize,
    source_start: usize,
    count: usize,
) -> u8
    ensures { IsCombinationWithin either (u32_at order) source_start target_start memory.old
        memory.new count result }
{
    combine_within::<Or, u32>(order, memory, source_start, target_start, count)
}

/// As `bitvec_c_or_within_u8`, of words of 64 bits.
#[unsafe(no_mangle)]
pub extern "C" fn bitvec_c_or_within_u64(
    order: u8,
    memory: &mut [u64],
    target_start: usize,
    source_start: usize,
    count: usize,
) -> u8
    ensures { IsCombinationWithin either (u64_at order) source_start target_start memory.old
        memory.new count result }
{
    combine_within::<Or, u64>(order, memory, source_start, target_start, count)
}

/// Turns over those bits of a range whose bit in another range of the same array is one. The two
/// ranges may overlap, as in bitvec_c_and_within_W.
///
/// In words of 8 bits. It refuses with `NO_ORDER`, `TOO_LONG` or `OUTSIDE`. It costs by words.
#[unsafe(no_mangle)]
pub extern "C" fn bitvec_c_xor_within_u8(
    order: u8,
    memory: &mut [u8],
    target_start: usize,
    source_start: usize,
    count: usize,
) -> u8
    ensures { IsCombinationWithin differ (u8_at order) source_start target_start memory.old
        memory.new count result }
{
    combine_within::<Xor, u8>(order, memory, source_start, target_start, count)
}

/// As `bitvec_c_xor_within_u8`, of words of 16 bits.
#[unsafe(no_mangle)]
pub extern "C" fn bitvec_c_xor_within_u16(
    order: u8,
    memory: &mut [u16],
    target_start: usize,
    source_start: usize,
    count: usize,
) -> u8
    ensures { IsCombinationWithin differ (u16_at order) source_start target_start memory.old
        memory.new count result }
{
    combine_within::<Xor, u16>(order, memory, source_start, target_start, count)
}

/// As `bitvec_c_xor_within_u8`, of words of 32 bits.
#[unsafe(no_mangle)]
pub extern "C" fn bitvec_c_xor_within_u32(
    order: u8,
    memory: &mut [u32],
    target_start: usize,
    source_start: usize,
    count: usize,
) -> u8
    ensures { IsCombinationWithin differ (u32_at order) source_start target_start memory.old
        memory.new count result }
{
    combine_within::<Xor, u32>(order, memory, source_start, target_start, count)
}

/// As `bitvec_c_xor_within_u8`, of words of 64 bits.
#[unsafe(no_mangle)]
pub extern "C" fn bitvec_c_xor_within_u64(
    order: u8,
    memory: &mut [u64],
    target_start: usize,
    source_start: usize,
    count: usize,
) -> u8
    ensures { IsCombinationWithin differ (u64_at order) source_start target_start memory.old
        memory.new count result }
{
    combine_within::<Xor, u64>(order, memory, source_start, target_start, count)
}

/// Makes zero those bits of a range whose bit in another range of the same array is one. The two
/// ranges may overlap, as in bitvec_c_and_within_W.
///
/// In words of 8 bits. It refuses with `NO_ORDER`, `TOO_LONG` or `OUTSIDE`. It costs by words.
#[unsafe(no_mangle)]
pub extern "C" fn bitvec_c_and_not_within_u8(
    order: u8,
    memory: &mut [u8],
    target_start: usize,
    source_start: usize,
    count: usize,
) -> u8
    ensures { IsCombinationWithin but_not (u8_at order) source_start target_start memory.old
        memory.new count result }
{
    combine_within::<AndNot, u8>(order, memory, source_start, target_start, count)
}

/// As `bitvec_c_and_not_within_u8`, of words of 16 bits.
#[unsafe(no_mangle)]
pub extern "C" fn bitvec_c_and_not_within_u16(
    order: u8,
    memory: &mut [u16],
    target_start: usize,
    source_start: usize,
    count: usize,
) -> u8
    ensures { IsCombinationWithin but_not (u16_at order) source_start target_start memory.old
        memory.new count result }
{
    combine_within::<AndNot, u16>(order, memory, source_start, target_start, count)
}

/// As `bitvec_c_and_not_within_u8`, of words of 32 bits.
#[unsafe(no_mangle)]
pub extern "C" fn bitvec_c_and_not_within_u32(
    order: u8,
    memory: &mut [u32],
    target_start: usize,
    source_start: usize,
    count: usize,
) -> u8
    ensures { IsCombinationWithin but_not (u32_at order) source_start target_start memory.old
        memory.new count result }
{
    combine_within::<AndNot, u32>(order, memory, source_start, target_start, count)
}

/// As `bitvec_c_and_not_within_u8`, of words of 64 bits.
#[unsafe(no_mangle)]
pub extern "C" fn bitvec_c_and_not_within_u64(
    order: u8,
    memory: &mut [u64],
    target_start: usize,
    source_start: usize,
    count: usize,
) -> u8
    ensures { IsCombinationWithin but_not (u64_at order) source_start target_start memory.old
        memory.new count result }
{
    combine_within::<AndNot, u64>(order, memory, source_start, target_start, count)
}

/// Makes one those bits of the target whose bits in both other ranges are one, and its other bits
/// zero: an intersection.
///
/// In words of 8 bits. It refuses with `NO_ORDER`, `TOO_LONG` or `OUTSIDE`. It costs by words.
#[unsafe(no_mangle)]
pub extern "C" fn bitvec_c_and_of_u8(
    order: u8,
    target: &mut [u8],
    target_start: usize,
    first: &[u8],
    first_start: usize,
    second: &[u8],
    second_start: usize,
    count: usize,
) -> u8
    ensures { IsCombinationOf both (u8_at order) first_start first.now second_start second.now
        target_start target.old target.new count result }
{
    combine_of::<And, u8>(
        order,
        first,
        first_start,
        second,
        second_start,
        target,
        target_start,
        count,
    )
}

/// As `bitvec_c_and_of_u8`, of words of 16 bits.
#[unsafe(no_mangle)]
pub extern "C" fn bitvec_c_and_of_u16(
    order: u8,
    target: &mut [u16],
    target_start: usize,
    first: &[u16],
    first_start: usize,
    second: &[u16],
    second_start: usize,
    count: usize,
) -> u8
    ensures { IsCombinationOf both (u16_at order) first_start first.now second_start second.now
        target_start target.old target.new count result }
{
    combine_of::<And, u16>(
        order,
        first,
        first_start,
        second,
        second_start,
        target,
        target_start,
        count,
    )
}

/// As `bitvec_c_and_of_u8`, of words of 32 bits.
#[unsafe(no_mangle)]
pub extern "C" fn bitvec_c_and_of_u32(
    order: u8,
    target: &mut [u32],
    target_start: usize,
    first: &[u32],
    first_start: usize,
    second: &[u32],
    second_start: usize,
    count: usize,
) -> u8
    ensures { IsCombinationOf both (u32_at order) first_start first.now second_start second.now
        target_start target.old target.new count result }
{
    combine_of::<And, u32>(
        order,
        first,
        first_start,
        second,
        second_start,
        target,
        target_start,
        count,
    )
}

/// As `bitvec_c_and_of_u8`, of words of 64 bits.
#[unsafe(no_mangle)]
pub extern "C" fn bitvec_c_and_of_u64(
    order: u8,
    target: &mut [u64],
    target_start: usize,
    first: &[u64],
    first_start: usize,
    second: &[u64],
    second_start: usize,
    count: usize,
) -> u8
    ensures { IsCombinationOf both (u64_at order) first_start first.now second_start second.now
        target_start target.old target.new count result }
{
    combine_of::<And, u64>(
        order,
        first,
        first_start,
        second,
        second_start,
        target,
        target_start,
        count,
    )
}

/// Makes one those bits of the target whose bit in at least one of two other ranges is one, and its
/// other bits zero: a union.
///
/// In words of 8 bits. It refuses with `NO_ORDER`, `TOO_LONG` or `OUTSIDE`. It costs by words.
#[unsafe(no_mangle)]
pub extern "C" fn bitvec_c_or_of_u8(
    order: u8,
    target: &mut [u8],
    target_start: usize,
    first: &[u8],
    first_start: usize,
    second: &[u8],
    second_start: usize,
    count: usize,
) -> u8
    ensures { IsCombinationOf either (u8_at order) first_start first.now second_start second.now
        target_start target.old target.new count result }
{
    combine_of::<Or, u8>(
        order,
        first,
        first_start,
        second,
        second_start,
        target,
        target_start,
        count,
    )
}

/// As `bitvec_c_or_of_u8`, of words of 16 bits.
#[unsafe(no_mangle)]
pub extern "C" fn bitvec_c_or_of_u16(
    order: u8,
    target: &mut [u16],
    target_start: usize,
    first: &[u16],
    first_start: usize,
    second: &[u16],
    second_start: usize,
    count: usize,
) -> u8
    ensures { IsCombinationOf either (u16_at order) first_start first.now second_start second.now
        target_start target.old target.new count result }
{
    combine_of::<Or, u16>(
        order,
        first,
        first_start,
        second,
        second_start,
        target,
        target_start,
        count,
    )
}

/// As `bitvec_c_or_of_u8`, of words of 32 bits.
#[unsafe(no_mangle)]
pub extern "C" fn bitvec_c_or_of_u32(
    order: u8,
    target: &mut [u32],
    target_start: usize,
    first: &[u32],
    first_start: usize,
    second: &[u32],
    second_start: usize,
    count: usize,
) -> u8
    ensures { IsCombinationOf either (u32_at order) first_start first.now second_start second.now
        target_start target.old target.new count result }
{
    combine_of::<Or, u32>(
        order,
        first,
        first_start,
        second,
        second_start,
        target,
        target_start,
        count,
    )
}

/// As `bitvec_c_or_of_u8`, of words of 64 bits.
#[unsafe(no_mangle)]
pub extern "C" fn bitvec_c_or_of_u64(
    order: u8,
    target: &mut [u64],
    target_start: usize,
    first: &[u64],
    first_start: usize,
    second: &[u64],
    second_start: usize,
    count: usize,
) -> u8
    ensures { IsCombinationOf either (u64_at order) first_start first.now second_start second.now
        target_start target.old target.new count result }
{
    combine_of::<Or, u64>(
        order,
        first,
        first_start,
        second,
        second_start,
        target,
        target_start,
        count,
    )
}

/// Makes one those bits of the target whose bits in two other ranges differ, and its other bits
/// zero: a symmetric difference.
///
/// In words of 8 bits. It refuses with `NO_ORDER`, `TOO_LONG` or `OUTSIDE`. It costs by words.
#[unsafe(no_mangle)]
pub extern "C" fn bitvec_c_xor_of_u8(
    order: u8,
    target: &mut [u8],
    target_start: usize,
    first: &[u8],
    first_start: usize,
    second: &[u8],
    second_start: usize,
    count: usize,
) -> u8
    ensures { IsCombinationOf differ (u8_at order) first_start first.now second_start second.now
        target_start target.old target.new count result }
{
    combine_of::<Xor, u8>(
        order,
        first,
        first_start,
        second,
        second_start,
        target,
        target_start,
        count,
    )
}

/// As `bitvec_c_xor_of_u8`, of words of 16 bits.
#[unsafe(no_mangle)]
pub extern "C" fn bitvec_c_xor_of_u16(
    order: u8,
    target: &mut [u16],
    target_start: usize,
    first: &[u16],
    first_start: usize,
    second: &[u16],
    second_start: usize,
    count: usize,
) -> u8
    ensures { IsCombinationOf differ (u16_at order) first_start first.now second_start second.now
        target_start target.old target.new count result }
{
    combine_of::<Xor, u16>(
        order,
        first,
        first_start,
        second,
        second_start,
        target,
        target_start,
        count,
    )
}

/// As `bitvec_c_xor_of_u8`, of words of 32 bits.
#[unsafe(no_mangle)]
pub extern "C" fn bitvec_c_xor_of_u32(
    order: u8,
    target: &mut [u32],
    target_start: usize,
    first: &[u32],
    first_start: usize,
    second: &[u32],
    second_start: usize,
    count: usize,
) -> u8
    ensures { IsCombinationOf differ (u32_at order) first_start first.now second_start second.now
        target_start target.old target.new count result }
{
    combine_of::<Xor, u32>(
        order,
        first,
        first_start,
        second,
        second_start,
        target,
        target_start,
        count,
    )
}

/// As `bitvec_c_xor_of_u8`, of words of 64 bits.
#[unsafe(no_mangle)]
pub extern "C" fn bitvec_c_xor_of_u64(
    order: u8,
    target: &mut [u64],
    target_start: usize,
    first: &[u64],
    first_start: usize,
    second: &[u64],
    second_start: usize,
    count: usize,
) -> u8
    ensures { IsCombinationOf differ (u64_at order) first_start first.now second_start second.now
        target_start target.old target.new count result }
{
    combine_of::<Xor, u64>(
        order,
        first,
        first_start,
        second,
        second_start,
        target,
        target_start,
        count,
    )
}

/// Makes one those bits of the target whose bit in the first of two other ranges is one and in the
/// second zero, and its other bits zero: a difference.
///
/// In words of 8 bits. It refuses with `NO_ORDER`, `TOO_LONG` or `OUTSIDE`. It costs by words.
#[unsafe(no_mangle)]
pub extern "C" fn bitvec_c_and_not_of_u8(
    order: u8,
    target: &mut [u8],
    target_start: usize,
    first: &[u8],
    first_start: usize,
    second: &[u8],
    second_start: usize,
    count: usize,
) -> u8
    ensures { IsCombinationOf but_not (u8_at order) first_start first.now second_start second.now
        target_start target.old target.new count result }
{
    combine_of::<AndNot, u8>(
        order,
        first,
        first_start,
        second,
        second_start,
        target,
        target_start,
        count,
    )
}

/// As `bitvec_c_and_not_of_u8`, of words of 16 bits.
#[unsafe(no_mangle)]
pub extern "C" fn bitvec_c_and_not_of_u16(
    order: u8,
    target: &mut [u16],
    target_start: usize,
    first: &[u16],
    first_start: usize,
    second: &[u16],
    second_start: usize,
    count: usize,
) -> u8
    ensures { IsCombinationOf but_not (u16_at order) first_start first.now second_start second.now
        target_start target.old target.new count result }
{
    combine_of::<AndNot, u16>(
        order,
        first,
        first_start,
        second,
        second_start,
        target,
        target_start,
        count,
    )
}

/// As `bitvec_c_and_not_of_u8`, of words of 32 bits.
#[unsafe(no_mangle)]
pub extern "C" fn bitvec_c_and_not_of_u32(
    order: u8,
    target: &mut [u32],
    target_start: usize,
    first: &[u32],
    first_start: usize,
    second: &[u32],
    second_start: usize,
    count: usize,
) -> u8
    ensures { IsCombinationOf but_not (u32_at order) first_start first.now second_start second.now
        target_start target.old target.new count result }
{
    combine_of::<AndNot, u32>(
        order,
        first,
        first_start,
        second,
        second_start,
        target,
        target_start,
        count,
    )
}

/// As `bitvec_c_and_not_of_u8`, of words of 64 bits.
#[unsafe(no_mangle)]
pub extern "C" fn bitvec_c_and_not_of_u64(
    order: u8,
    target: &mut [u64],
    target_start: usize,
    first: &[u64],
    first_start: usize,
    second: &[u64],
    second_start: usize,
    count: usize,
) -> u8
    ensures { IsCombinationOf but_not (u64_at order) first_start first.now second_start second.now
        target_start target.old target.new count result }
{
    combine_of::<AndNot, u64>(
        order,
        first,
        first_start,
        second,
        second_start,
        target,
        target_start,
        count,
    )
}

/// Writes to `same` whether two ranges have the same bits, in order.
///
/// In words of 8 bits. It refuses with `NO_ORDER`, `TOO_LONG` or `OUTSIDE`. It costs by words, up
/// to the first difference.
#[unsafe(no_mangle)]
pub extern "C" fn bitvec_c_equal_u8(
    order: u8,
    memory: &[u8],
    start: usize,
    other: &[u8],
    other_start: usize,
    count: usize,
    same: &mut bool,
) -> u8
    ensures { let at = u8_at order in IsComparison (at start memory.now) (at other_start other.now)
        count same.old same.new result }
{
    equal(order, memory, start, other, other_start, count, same)
}

/// As `bitvec_c_equal_u8`, of words of 16 bits.
#[unsafe(no_mangle)]
pub extern "C" fn bitvec_c_equal_u16(
    order: u8,
    memory: &[u16],
    start: usize,
    other: &[u16],
    other_start: usize,
    count: usize,
    same: &mut bool,
) -> u8
    ensures { let at = u16_at order in IsComparison (at start memory.now) (at other_start other.now)
        count same.old same.new result }
{
    equal(order, memory, start, other, other_start, count, same)
}

/// As `bitvec_c_equal_u8`, of words of 32 bits.
#[unsafe(no_mangle)]
pub extern "C" fn bitvec_c_equal_u32(
    order: u8,
    memory: &[u32],
    start: usize,
    other: &[u32],
    other_start: usize,
    count: usize,
    same: &mut bool,
) -> u8
    ensures { let at = u32_at order in IsComparison (at start memory.now) (at other_start other.now)
        count same.old same.new result }
{
    equal(order, memory, start, other, other_start, count, same)
}

/// As `bitvec_c_equal_u8`, of words of 64 bits.
#[unsafe(no_mangle)]
pub extern "C" fn bitvec_c_equal_u64(
    order: u8,
    memory: &[u64],
    start: usize,
    other: &[u64],
    other_start: usize,
    count: usize,
    same: &mut bool,
) -> u8
    ensures { let at = u64_at order in IsComparison (at start memory.now) (at other_start other.now)
        count same.old same.new result }
{
    equal(order, memory, start, other, other_start, count, same)
}

/// Writes to `ones` how many bits of a range are one whose bit in the other range is one too.
///
/// In words of 8 bits. It refuses with `NO_ORDER`, `TOO_LONG` or `OUTSIDE`. It costs by words where
/// the orders are the same, else by bits.
#[unsafe(no_mangle)]
pub extern "C" fn bitvec_c_count_and_u8(
    order: u8,
    memory: &[u8],
    start: usize,
    other_order: u8,
    other: &[u8],
    other_start: usize,
    count: usize,
    ones: &mut usize,
) -> u8
    ensures { CountsPairs both (u8_at order start memory.now) (u8_at other_order other_start
        other.now) count ones.old ones.new result }
{
    count_with::<And, u8, u8>(
        order,
        memory,
        start,
        other_order,
        other,
        other_start,
        count,
        ones,
    )
}

/// As `bitvec_c_count_and_u8`, of words of 16 bits.
#[unsafe(no_mangle)]
pub extern "C" fn bitvec_c_count_and_u16(
    order: u8,
    memory: &[u16],
    start: usize,
    other_order: u8,
    other: &[u16],
    other_start: usize,
    count: usize,
    ones: &mut usize,
) -> u8
    ensures { CountsPairs both (u16_at order start memory.now) (u16_at other_order other_start
        other.now) count ones.old ones.new result }
{
    count_with::<And, u16, u16>(
        order,
        memory,
        start,
        other_order,
        other,
        other_start,
        count,
        ones,
    )
}

/// As `bitvec_c_count_and_u8`, of words of 32 bits.
#[unsafe(no_mangle)]
pub extern "C" fn bitvec_c_count_and_u32(
    order: u8,
    memory: &[u32],
    start: usize,
    other_order: u8,
    other: &[u32],
    other_start: usize,
    count: usize,
    ones: &mut usize,
) -> u8
    ensures { CountsPairs both (u32_at order start memory.now) (u32_at other_order other_start
        other.now) count ones.old ones.new result }
{
    count_with::<And, u32, u32>(
        order,
        memory,
        start,
        other_order,
        other,
        other_start,
        count,
        ones,
    )
}

/// As `bitvec_c_count_and_u8`, of words of 64 bits.
#[unsafe(no_mangle)]
pub extern "C" fn bitvec_c_count_and_u64(
    order: u8,
    memory: &[u64],
    start: usize,
    other_order: u8,
    other: &[u64],
    other_start: usize,
    count: usize,
    ones: &mut usize,
) -> u8
    ensures { CountsPairs both (u64_at order start memory.now) (u64_at other_order other_start
        other.now) count ones.old ones.new result }
{
    count_with::<And, u64, u64>(
        order,
        memory,
        start,
        other_order,
        other,
        other_start,
        count,
        ones,
    )
}

/// Writes to `index` the index of the first bit of a range that is one and whose bit in the other
/// range is one too, or `count` where there is none.
///
/// In words of 8 bits. It refuses with `NO_ORDER`, `TOO_LONG` or `OUTSIDE`. It costs by words where
/// the orders are the same, else by bits, up to that bit.
#[unsafe(no_mangle)]
pub extern "C" fn bitvec_c_first_and_u8(
    order: u8,
    memory: &[u8],
    start: usize,
    other_order: u8,
    other: &[u8],
    other_start: usize,
    count: usize,
    index: &mut usize,
) -> u8
    ensures { FindsPair both (u8_at order start memory.now) (u8_at other_order other_start
        other.now) count index.old index.new result }
{
    first_with::<And, u8, u8>(
        order,
        memory,
        start,
        other_order,
        other,
        other_start,
        count,
        index,
    )
}

/// As `bitvec_c_first_and_u8`, of words of 16 bits.
#[unsafe(no_mangle)]
pub extern "C" fn bitvec_c_first_and_u16(
    order: u8,
    memory: &[u16],
    start: usize,
    other_order: u8,
    other: &[u16],
    other_start: usize,
    count: usize,
    index: &mut usize,
) -> u8
    ensures { FindsPair both (u16_at order start memory.now) (u16_at other_order other_start
        other.now) count index.old index.new result }
{
    first_with::<And, u16, u16>(
        order,
        memory,
        start,
        other_order,
        other,
        other_start,
        count,
        index,
    )
}

/// As `bitvec_c_first_and_u8`, of words of 32 bits.
#[unsafe(no_mangle)]
pub extern "C" fn bitvec_c_first_and_u32(
    order: u8,
    memory: &[u32],
    start: usize,
    other_order: u8,
    other: &[u32],
    other_start: usize,
    count: usize,
    index: &mut usize,
) -> u8
    ensures { FindsPair both (u32_at order start memory.now) (u32_at other_order other_start
        other.now) count index.old index.new result }
{
    first_with::<And, u32, u32>(
        order,
        memory,
        start,
        other_order,
        other,
        other_start,
        count,
        index,
    )
}

/// As `bitvec_c_first_and_u8`, of words of 64 bits.
#[unsafe(no_mangle)]
pub extern "C" fn bitvec_c_first_and_u64(
    order: u8,
    memory: &[u64],
    start: usize,
    other_order: u8,
    other: &[u64],
    other_start: usize,
    count: usize,
    index: &mut usize,
) -> u8
    ensures { FindsPair both (u64_at order start memory.now) (u64_at other_order other_start
        other.now) count index.old index.new result }
{
    first_with::<And, u64, u64>(
        order,
        memory,
        start,
        other_order,
        other,
        other_start,
        count,
        index,
    )
}

/// Writes to `index` the index of the first bit of a range that is one and whose bit in the other
/// range is zero, or `count` where there is none.
///
/// In words of 8 bits. It refuses with `NO_ORDER`, `TOO_LONG` or `OUTSIDE`. It costs by words where
/// the orders are the same, else by bits, up to that bit.
#[unsafe(no_mangle)]
pub extern "C" fn bitvec_c_first_and_not_u8(
    order: u8,
    memory: &[u8],
    start: usize,
    other_order: u8,
    other: &[u8],
    other_start: usize,
    count: usize,
    index: &mut usize,
) -> u8
    ensures { FindsPair but_not (u8_at order start memory.now) (u8_at other_order other_start
        other.now) count index.old index.new result }
{
    first_with::<AndNot, u8, u8>(
        order,
        memory,
        start,
        other_order,
        other,
        other_start,
        count,
        index,
    )
}

/// As `bitvec_c_first_and_not_u8`, of words of 16 bits.
#[unsafe(no_mangle)]
pub extern "C" fn bitvec_c_first_and_not_u16(
    order: u8,
    memory: &[u16],
    start: usize,
    other_order: u8,
    other: &[u16],
    other_start: usize,
    count: usize,
    index: &mut usize,
) -> u8
    ensures { FindsPair but_not (u16_at order start memory.now) (u16_at other_order other_start
        other.now) count index.old index.new result }
{
    first_with::<AndNot, u16, u16>(
        order,
        memory,
        start,
        other_order,
        other,
        other_start,
        count,
        index,
    )
}

/// As `bitvec_c_first_and_not_u8`, of words of 32 bits.
#[unsafe(no_mangle)]
pub extern "C" fn bitvec_c_first_and_not_u32(
    order: u8,
    memory: &[u32],
    start: usize,
    other_order: u8,
    other: &[u32],
    other_start: usize,
    count: usize,
    index: &mut usize,
) -> u8
    ensures { FindsPair but_not (u32_at order start memory.now) (u32_at other_order other_start
        other.now) count index.old index.new result }
{
    first_with::<AndNot, u32, u32>(
        order,
        memory,
        start,
        other_order,
        other,
        other_start,
        count,
        index,
    )
}

/// As `bitvec_c_first_and_not_u8`, of words of 64 bits.
#[unsafe(no_mangle)]
pub extern "C" fn bitvec_c_first_and_not_u64(
    order: u8,
    memory: &[u64],
    start: usize,
    other_order: u8,
    other: &[u64],
    other_start: usize,
    count: usize,
    index: &mut usize,
) -> u8
    ensures { FindsPair but_not (u64_at order start memory.now) (u64_at other_order other_start
        other.now) count index.old index.new result }
{
    first_with::<AndNot, u64, u64>(
        order,
        memory,
        start,
        other_order,
        other,
        other_start,
        count,
        index,
    )
}

/// Writes to `index` the index of the first bit of a range that is not the same in the other range,
/// or `count` where there is none. The bit at that index tells which of the two is less.
///
/// In words of 8 bits. It refuses with `NO_ORDER`, `TOO_LONG` or `OUTSIDE`. It costs by words where
/// the orders are the same, else by bits, up to that bit.
#[unsafe(no_mangle)]
pub extern "C" fn bitvec_c_first_difference_u8(
    order: u8,
    memory: &[u8],
    start: usize,
    other_order: u8,
    other: &[u8],
    other_start: usize,
    count: usize,
    index: &mut usize,
) -> u8
    ensures { FindsPair differ (u8_at order start memory.now) (u8_at other_order other_start
        other.now) count index.old index.new result }
{
    first_with::<Xor, u8, u8>(
        order,
        memory,
        start,
        other_order,
        other,
        other_start,
        count,
        index,
    )
}

/// As `bitvec_c_first_difference_u8`, of words of 16 bits.
#[unsafe(no_mangle)]
pub extern "C" fn bitvec_c_first_difference_u16(
    order: u8,
    memory: &[u16],
    start: usize,
    other_order: u8,
    other: &[u16],
    other_start: usize,
    count: usize,
    index: &mut usize,
) -> u8
    ensures { FindsPair differ (u16_at order start memory.now) (u16_at other_order other_start
        other.now) count index.old index.new result }
{
    first_with::<Xor, u16, u16>(
        order,
        memory,
        start,
        other_order,
        other,
        other_start,
        count,
        index,
    )
}

/// As `bitvec_c_first_difference_u8`, of words of 32 bits.
#[unsafe(no_mangle)]
pub extern "C" fn bitvec_c_first_difference_u32(
    order: u8,
    memory: &[u32],
    start: usize,
    other_order: u8,
    other: &[u32],
    other_start: usize,
    count: usize,
    index: &mut usize,
) -> u8
    ensures { FindsPair differ (u32_at order start memory.now) (u32_at other_order other_start
        other.now) count index.old index.new result }
{
    first_with::<Xor, u32, u32>(
        order,
        memory,
        start,
        other_order,
        other,
        other_start,
        count,
        index,
    )
}

/// As `bitvec_c_first_difference_u8`, of words of 64 bits.
#[unsafe(no_mangle)]
pub extern "C" fn bitvec_c_first_difference_u64(
    order: u8,
    memory: &[u64],
    start: usize,
    other_order: u8,
    other: &[u64],
    other_start: usize,
    count: usize,
    index: &mut usize,
) -> u8
    ensures { FindsPair differ (u64_at order start memory.now) (u64_at other_order other_start
        other.now) count index.old index.new result }
{
    first_with::<Xor, u64, u64>(
        order,
        memory,
        start,
        other_order,
        other,
        other_start,
        count,
        index,
    )
}

/// The same as bitvec_c_first_difference_W, where the words of the two memories may have other
/// widths.
///
/// In words of 8 and 8 bits. It refuses with `NO_ORDER`, `TOO_LONG` or `OUTSIDE`. It costs by words
/// where the orders are the same, else by bits, up to that bit.
#[unsafe(no_mangle)]
pub extern "C" fn bitvec_c_first_difference_u8_with_u8(
    order: u8,
    memory: &[u8],
    start: usize,
    other_order: u8,
    other: &[u8],
    other_start: usize,
    count: usize,
    index: &mut usize,
) -> u8
    ensures { FindsPair differ (u8_at order start memory.now) (u8_at other_order other_start
        other.now) count index.old index.new result }
{
    first_with::<Xor, u8, u8>(
        order,
        memory,
        start,
        other_order,
        other,
        other_start,
        count,
        index,
    )
}

/// As `bitvec_c_first_difference_u8_with_u8`, of words of 8 and 16 bits.
#[unsafe(no_mangle)]
pub extern "C" fn bitvec_c_first_difference_u8_with_u16(
    order: u8,
    memory: &[u8],
    start: usize,
    other_order: u8,
    other: &[u16],
    other_start: usize,
    count: usize,
    index: &mut usize,
) -> u8
    ensures { FindsPair differ (u8_at order start memory.now) (u16_at other_order other_start
        other.now) count index.old index.new result }
{
    first_with::<Xor, u8, u16>(
        order,
        memory,
        start,
        other_order,
        other,
        other_start,
        count,
        index,
    )
}

/// As `bitvec_c_first_difference_u8_with_u8`, of words of 8 and 32 bits.
#[unsafe(no_mangle)]
pub extern "C" fn bitvec_c_first_difference_u8_with_u32(
    order: u8,
    memory: &[u8],
    start: usize,
    other_order: u8,
    other: &[u32],
    other_start: usize,
    count: usize,
    index: &mut usize,
) -> u8
    ensures { FindsPair differ (u8_at order start memory.now) (u32_at other_order other_start
        other.now) count index.old index.new result }
{
    first_with::<Xor, u8, u32>(
        order,
        memory,
        start,
        other_order,
        other,
        other_start,
        count,
        index,
    )
}

/// As `bitvec_c_first_difference_u8_with_u8`, of words of 8 and 64 bits.
#[unsafe(no_mangle)]
pub extern "C" fn bitvec_c_first_difference_u8_with_u64(
    order: u8,
    memory: &[u8],
    start: usize,
    other_order: u8,
    other: &[u64],
    other_start: usize,
    count: usize,
    index: &mut usize,
) -> u8
    ensures { FindsPair differ (u8_at order start memory.now) (u64_at other_order other_start
        other.now) count index.old index.new result }
{
    first_with::<Xor, u8, u64>(
        order,
        memory,
        start,
        other_order,
        other,
        other_start,
        count,
        index,
    )
}

/// As `bitvec_c_first_difference_u8_with_u8`, of words of 16 and 8 bits.
#[unsafe(no_mangle)]
pub extern "C" fn bitvec_c_first_difference_u16_with_u8(
    order: u8,
    memory: &[u16],
    start: usize,
    other_order: u8,
    other: &[u8],
    other_start: usize,
    count: usize,
    index: &mut usize,
) -> u8
    ensures { FindsPair differ (u16_at order start memory.now) (u8_at other_order other_start
        other.now) count index.old index.new result }
{
    first_with::<Xor, u16, u8>(
        order,
        memory,
        start,
        other_order,
        other,
        other_start,
        count,
        index,
    )
}

/// As `bitvec_c_first_difference_u8_with_u8`, of words of 16 and 16 bits.
#[unsafe(no_mangle)]
pub extern "C" fn bitvec_c_first_difference_u16_with_u16(
    order: u8,
    memory: &[u16],
    start: usize,
    other_order: u8,
    other: &[u16],
    other_start: usize,
    count: usize,
    index: &mut usize,
) -> u8
    ensures { FindsPair differ (u16_at order start memory.now) (u16_at other_order other_start
        other.now) count index.old index.new result }
{
    first_with::<Xor, u16, u16>(
        order,
        memory,
        start,
        other_order,
        other,
        other_start,
        count,
        index,
    )
}

/// As `bitvec_c_first_difference_u8_with_u8`, of words of 16 and 32 bits.
#[unsafe(no_mangle)]
pub extern "C" fn bitvec_c_first_difference_u16_with_u32(
    order: u8,
    memory: &[u16],
    start: usize,
    other_order: u8,
    other: &[u32],
    other_start: usize,
    count: usize,
    index: &mut usize,
) -> u8
    ensures { FindsPair differ (u16_at order start memory.now) (u32_at other_order other_start
        other.now) count index.old index.new result }
{
    first_with::<Xor, u16, u32>(
        order,
        memory,
        start,
        other_order,
        other,
        other_start,
        count,
        index,
    )
}

/// As `bitvec_c_first_difference_u8_with_u8`, of words of 16 and 64 bits.
#[unsafe(no_mangle)]
pub extern "C" fn bitvec_c_first_difference_u16_with_u64(
    order: u8,
    memory: &[u16],
    start: usize,
    other_order: u8,
    other: &[u64],
    other_start: usize,
    count: usize,
    index: &mut usize,
) -> u8
    ensures { FindsPair differ (u16_at order start memory.now) (u64_at other_order other_start
        other.now) count index.old index.new result }
{
    first_with::<Xor, u16, u64>(
        order,
        memory,
        start,
        other_order,
        other,
        other_start,
        count,
        index,
    )
}

/// As `bitvec_c_first_difference_u8_with_u8`, of words of 32 and 8 bits.
#[unsafe(no_mangle)]
pub extern "C" fn bitvec_c_first_difference_u32_with_u8(
    order: u8,
    memory: &[u32],
    start: usize,
    other_order: u8,
    other: &[u8],
    other_start: usize,
    count: usize,
    index: &mut usize,
) -> u8
    ensures { FindsPair differ (u32_at order start memory.now) (u8_at other_order other_start
        other.now) count index.old index.new result }
{
    first_with::<Xor, u32, u8>(
        order,
        memory,
        start,
        other_order,
        other,
        other_start,
        count,
        index,
    )
}

/// As `bitvec_c_first_difference_u8_with_u8`, of words of 32 and 16 bits.
#[unsafe(no_mangle)]
pub extern "C" fn bitvec_c_first_difference_u32_with_u16(
    order: u8,
    memory: &[u32],
    start: usize,
    other_order: u8,
    other: &[u16],
    other_start: usize,
    count: usize,
    index: &mut usize,
) -> u8
    ensures { FindsPair differ (u32_at order start memory.now) (u16_at other_order other_start
        other.now) count index.old index.new result }
{
    first_with::<Xor, u32, u16>(
        order,
        memory,
        start,
        other_order,
        other,
        other_start,
        count,
        index,
    )
}

/// As `bitvec_c_first_difference_u8_with_u8`, of words of 32 and 32 bits.
#[unsafe(no_mangle)]
pub extern "C" fn bitvec_c_first_difference_u32_with_u32(
    order: u8,
    memory: &[u32],
    start: usize,
    other_order: u8,
    other: &[u32],
    other_start: usize,
    count: usize,
    index: &mut usize,
) -> u8
    ensures { FindsPair differ (u32_at order start memory.now) (u32_at other_order other_start
        other.now) count index.old index.new result }
{
    first_with::<Xor, u32, u32>(
        order,
        memory,
        start,
        other_order,
        other,
        other_start,
        count,
        index,
    )
}

/// As `bitvec_c_first_difference_u8_with_u8`, of words of 32 and 64 bits.
#[unsafe(no_mangle)]
pub extern "C" fn bitvec_c_first_difference_u32_with_u64(
    order: u8,
    memory: &[u32],
    start: usize,
    other_order: u8,
    other: &[u64],
    other_start: usize,
    count: usize,
    index: &mut usize,
) -> u8
    ensures { FindsPair differ (u32_at order start memory.now) (u64_at other_order other_start
        other.now) count index.old index.new result }
{
    first_with::<Xor, u32, u64>(
        order,
        memory,
        start,
        other_order,
        other,
        other_start,
        count,
        index,
    )
}

/// As `bitvec_c_first_difference_u8_with_u8`, of words of 64 and 8 bits.
#[unsafe(no_mangle)]
pub extern "C" fn bitvec_c_first_difference_u64_with_u8(
    order: u8,
    memory: &[u64],
    start: usize,
    other_order: u8,
    other: &[u8],
    other_start: usize,
    count: usize,
    index: &mut usize,
) -> u8
    ensures { FindsPair differ (u64_at order start memory.now) (u8_at other_order other_start
        other.now) count index.old index.new result }
{
    first_with::<Xor, u64, u8>(
        order,
        memory,
        start,
        other_order,
        other,
        other_start,
        count,
        index,
    )
}

/// As `bitvec_c_first_difference_u8_with_u8`, of words of 64 and 16 bits.
#[unsafe(no_mangle)]
pub extern "C" fn bitvec_c_first_difference_u64_with_u16(
    order: u8,
    memory: &[u64],
    start: usize,
    other_order: u8,
    other: &[u16],
    other_start: usize,
    count: usize,
    index: &mut usize,
) -> u8
    ensures { FindsPair differ (u64_at order start memory.now) (u16_at other_order other_start
        other.now) count index.old index.new result }
{
    first_with::<Xor, u64, u16>(
        order,
        memory,
        start,
        other_order,
        other,
        other_start,
        count,
        index,
    )
}

/// As `bitvec_c_first_difference_u8_with_u8`, of words of 64 and 32 bits.
#[unsafe(no_mangle)]
pub extern "C" fn bitvec_c_first_difference_u64_with_u32(
    order: u8,
    memory: &[u64],
    start: usize,
    other_order: u8,
    other: &[u32],
    other_start: usize,
    count: usize,
    index: &mut usize,
) -> u8
    ensures { FindsPair differ (u64_at order start memory.now) (u32_at other_order other_start
        other.now) count index.old index.new result }
{
    first_with::<Xor, u64, u32>(
        order,
        memory,
        start,
        other_order,
        other,
        other_start,
        count,
        index,
    )
}

/// As `bitvec_c_first_difference_u8_with_u8`, of words of 64 and 64 bits.
#[unsafe(no_mangle)]
pub extern "C" fn bitvec_c_first_difference_u64_with_u64(
    order: u8,
    memory: &[u64],
    start: usize,
    other_order: u8,
    other: &[u64],
    other_start: usize,
    count: usize,
    index: &mut usize,
) -> u8
    ensures { FindsPair differ (u64_at order start memory.now) (u64_at other_order other_start
        other.now) count index.old index.new result }
{
    first_with::<Xor, u64, u64>(
        order,
        memory,
        start,
        other_order,
        other,
        other_start,
        count,
        index,
    )
}
