//! Searching: exports for callers in C. Written by `.ci/exports`.

ghost use Rattle.std.specs.Prelude.{◌≡◌, false, not};
ghost use Rattle.bitvec_slice.specs.Bits.{BeginsWith};
ghost use Rattle.bitvec_call.specs.Call.{u8_at, u16_at, u32_at, u64_at, IsAnswer, IsSearch};
ghost use Rattle.bitvec_call.specs.Seek.{IsLastOr, IsNextOr, IsPreviousOr, IsFreeOr, IsFreeFromOr};

use bitvec_call::find::first_one;
use bitvec_call::next::{find_zeros_from, next, previous};
use bitvec_call::seek::{find_zeros, first, last};

/// Writes to `index` the index of the first bit that is one.
///
/// In words of 8 bits. It refuses with `NO_ORDER`, `TOO_LONG` or `OUTSIDE`. It costs by words, up
/// to that bit.
#[unsafe(no_mangle)]
pub extern "C" fn bitvec_c_first_one_u8(
    order: u8,
    memory: &[u8],
    start: usize,
    count: usize,
    index: &mut usize,
) -> u8
    ensures { IsAnswer (u8_at order start memory.now) count (λ xs. BeginsWith false xs index.new)
        (index.new ≡ index.old) result }
{
    first_one(order, memory, start, count, index)
}

/// As `bitvec_c_first_one_u8`, of words of 16 bits.
#[unsafe(no_mangle)]
pub extern "C" fn bitvec_c_first_one_u16(
    order: u8,
    memory: &[u16],
    start: usize,
    count: usize,
    index: &mut usize,
) -> u8
    ensures { IsAnswer (u16_at order start memory.now) count (λ xs. BeginsWith false xs index.new)
        (index.new ≡ index.old) result }
{
    first_one(order, memory, start, count, index)
}

/// As `bitvec_c_first_one_u8`, of words of 32 bits.
#[unsafe(no_mangle)]
pub extern "C" fn bitvec_c_first_one_u32(
    order: u8,
    memory: &[u32],
    start: usize,
    count: usize,
    index: &mut usize,
) -> u8
    ensures { IsAnswer (u32_at order start memory.now) count (λ xs. BeginsWith false xs index.new)
        (index.new ≡ index.old) result }
{
    first_one(order, memory, start, count, index)
}

/// As `bitvec_c_first_one_u8`, of words of 64 bits.
#[unsafe(no_mangle)]
pub extern "C" fn bitvec_c_first_one_u64(
    order: u8,
    memory: &[u64],
    start: usize,
    count: usize,
    index: &mut usize,
) -> u8
    ensures { IsAnswer (u64_at order start memory.now) count (λ xs. BeginsWith false xs index.new)
        (index.new ≡ index.old) result }
{
    first_one(order, memory, start, count, index)
}

/// Writes to `index` the index of the first bit that is the same as `bit`.
///
/// In words of 8 bits. It refuses with `NO_ORDER`, `TOO_LONG` or `OUTSIDE`. It costs by words, up
/// to that bit.
#[unsafe(no_mangle)]
pub extern "C" fn bitvec_c_first_u8(
    order: u8,
    memory: &[u8],
    start: usize,
    count: usize,
    bit: bool,
    index: &mut usize,
) -> u8
    ensures { IsAnswer (u8_at order start memory.now) count (λ xs. BeginsWith (not bit) xs
        index.new) (index.new ≡ index.old) result }
{
    first(order, memory, start, count, bit, index)
}

/// As `bitvec_c_first_u8`, of words of 16 bits.
#[unsafe(no_mangle)]
pub extern "C" fn bitvec_c_first_u16(
    order: u8,
    memory: &[u16],
    start: usize,
    count: usize,
    bit: bool,
    index: &mut usize,
) -> u8
    ensures { IsAnswer (u16_at order start memory.now) count (λ xs. BeginsWith (not bit) xs
        index.new) (index.new ≡ index.old) result }
{
    first(order, memory, start, count, bit, index)
}

/// As `bitvec_c_first_u8`, of words of 32 bits.
#[unsafe(no_mangle)]
pub extern "C" fn bitvec_c_first_u32(
    order: u8,
    memory: &[u32],
    start: usize,
    count: usize,
    bit: bool,
    index: &mut usize,
) -> u8
    ensures { IsAnswer (u32_at order start memory.now) count (λ xs. BeginsWith (not bit) xs
        index.new) (index.new ≡ index.old) result }
{
    first(order, memory, start, count, bit, index)
}

/// As `bitvec_c_first_u8`, of words of 64 bits.
#[unsafe(no_mangle)]
pub extern "C" fn bitvec_c_first_u64(
    order: u8,
    memory: &[u64],
    start: usize,
    count: usize,
    bit: bool,
    index: &mut usize,
) -> u8
    ensures { IsAnswer (u64_at order start memory.now) count (λ xs. BeginsWith (not bit) xs
        index.new) (index.new ≡ index.old) result }
{
    first(order, memory, start, count, bit, index)
}

/// Writes to `index` the index of the last bit that is the same as `bit`.
///
/// In words of 8 bits. It refuses with `NO_ORDER`, `TOO_LONG` or `OUTSIDE`. It costs by words, down
/// to that bit.
#[unsafe(no_mangle)]
pub extern "C" fn bitvec_c_last_u8(
    order: u8,
    memory: &[u8],
    start: usize,
    count: usize,
    bit: bool,
    index: &mut usize,
) -> u8
    ensures { IsSearch (u8_at order start memory.now) count (IsLastOr bit) index.old index.new
        result }
{
    last(order, memory, start, count, bit, index)
}

/// As `bitvec_c_last_u8`, of words of 16 bits.
#[unsafe(no_mangle)]
pub extern "C" fn bitvec_c_last_u16(
    order: u8,
    memory: &[u16],
    start: usize,
    count: usize,
    bit: bool,
    index: &mut usize,
) -> u8
    ensures { IsSearch (u16_at order start memory.now) count (IsLastOr bit) index.old index.new
        result }
{
    last(order, memory, start, count, bit, index)
}

/// As `bitvec_c_last_u8`, of words of 32 bits.
#[unsafe(no_mangle)]
pub extern "C" fn bitvec_c_last_u32(
    order: u8,
    memory: &[u32],
    start: usize,
    count: usize,
    bit: bool,
    index: &mut usize,
) -> u8
    ensures { IsSearch (u32_at order start memory.now) count (IsLastOr bit) index.old index.new
        result }
{
    last(order, memory, start, count, bit, index)
}

/// As `bitvec_c_last_u8`, of words of 64 bits.
#[unsafe(no_mangle)]
pub extern "C" fn bitvec_c_last_u64(
    order: u8,
    memory: &[u64],
    start: usize,
    count: usize,
    bit: bool,
    index: &mut usize,
) -> u8
    ensures { IsSearch (u64_at order start memory.now) count (IsLastOr bit) index.old index.new
        result }
{
    last(order, memory, start, count, bit, index)
}

/// Writes to `index` the index of the first bit, of those from index `from` on, that is the same as
/// `bit`.
///
/// In words of 8 bits. It refuses with `NO_ORDER`, `TOO_LONG` or `OUTSIDE`. It costs by words, up
/// to that bit.
#[unsafe(no_mangle)]
pub extern "C" fn bitvec_c_next_u8(
    order: u8,
    memory: &[u8],
    start: usize,
    count: usize,
    from: usize,
    bit: bool,
    index: &mut usize,
) -> u8
    ensures { IsSearch (u8_at order start memory.now) count (IsNextOr bit from) index.old index.new
        result }
{
    next(order, memory, start, count, from, bit, index)
}

/// As `bitvec_c_next_u8`, of words of 16 bits.
#[unsafe(no_mangle)]
pub extern "C" fn bitvec_c_next_u16(
    order: u8,
    memory: &[u16],
    start: usize,
    count: usize,
    from: usize,
    bit: bool,
    index: &mut usize,
) -> u8
    ensures { IsSearch (u16_at order start memory.now) count (IsNextOr bit from) index.old index.new
        result }
{
    next(order, memory, start, count, from, bit, index)
}

/// As `bitvec_c_next_u8`, of words of 32 bits.
#[unsafe(no_mangle)]
pub extern "C" fn bitvec_c_next_u32(
    order: u8,
    memory: &[u32],
    start: usize,
    count: usize,
    from: usize,
    bit: bool,
    index: &mut usize,
) -> u8
    ensures { IsSearch (u32_at order start memory.now) count (IsNextOr bit from) index.old index.new
        result }
{
    next(order, memory, start, count, from, bit, index)
}

/// As `bitvec_c_next_u8`, of words of 64 bits.
#[unsafe(no_mangle)]
pub extern "C" fn bitvec_c_next_u64(
    order: u8,
    memory: &[u64],
    start: usize,
    count: usize,
    from: usize,
    bit: bool,
    index: &mut usize,
) -> u8
    ensures { IsSearch (u64_at order start memory.now) count (IsNextOr bit from) index.old index.new
        result }
{
    next(order, memory, start, count, from, bit, index)
}

/// Writes to `index` the index of the last bit, of those before index `before`, that is the same as
/// `bit`.
///
/// In words of 8 bits. It refuses with `NO_ORDER`, `TOO_LONG` or `OUTSIDE`. It costs by words, down
/// to that bit.
#[unsafe(no_mangle)]
pub extern "C" fn bitvec_c_previous_u8(
    order: u8,
    memory: &[u8],
    start: usize,
    count: usize,
    before: usize,
    bit: bool,
    index: &mut usize,
) -> u8
    ensures { IsSearch (u8_at order start memory.now) count (IsPreviousOr bit before) index.old
        index.new result }
{
    previous(order, memory, start, count, before, bit, index)
}

/// As `bitvec_c_previous_u8`, of words of 16 bits.
#[unsafe(no_mangle)]
pub extern "C" fn bitvec_c_previous_u16(
    order: u8,
    memory: &[u16],
    start: usize,
    count: usize,
    before: usize,
    bit: bool,
    index: &mut usize,
) -> u8
    ensures { IsSearch (u16_at order start memory.now) count (IsPreviousOr bit before) index.old
        index.new result }
{
    previous(order, memory, start, count, before, bit, index)
}

/// As `bitvec_c_previous_u8`, of words of 32 bits.
#[unsafe(no_mangle)]
pub extern "C" fn bitvec_c_previous_u32(
    order: u8,
    memory: &[u32],
    start: usize,
    count: usize,
    before: usize,
    bit: bool,
    index: &mut usize,
) -> u8
    ensures { IsSearch (u32_at order start memory.now) count (IsPreviousOr bit before) index.old
        index.new result }
{
    previous(order, memory, start, count, before, bit, index)
}

/// As `bitvec_c_previous_u8`, of words of 64 bits.
#[unsafe(no_mangle)]
pub extern "C" fn bitvec_c_previous_u64(
    order: u8,
    memory: &[u64],
    start: usize,
    count: usize,
    before: usize,
    bit: bool,
    index: &mut usize,
) -> u8
    ensures { IsSearch (u64_at order start memory.now) count (IsPreviousOr bit before) index.old
        index.new result }
{
    previous(order, memory, start, count, before, bit, index)
}

/// Writes to `index` the first index from which on `zeros` bits are in the range and zero. For 0
/// zeros it is 0.
///
/// In words of 8 bits. It refuses with `NO_ORDER`, `TOO_LONG` or `OUTSIDE`. It costs by words,
/// where a run is no longer than a word, else by bits in words that are not zero.
#[unsafe(no_mangle)]
pub extern "C" fn bitvec_c_find_zeros_u8(
    order: u8,
    memory: &[u8],
    start: usize,
    count: usize,
    zeros: usize,
    index: &mut usize,
) -> u8
    ensures { IsSearch (u8_at order start memory.now) count (IsFreeOr zeros) index.old index.new
        result }
{
    find_zeros(order, memory, start, count, zeros, index)
}

/// As `bitvec_c_find_zeros_u8`, of words of 16 bits.
#[unsafe(no_mangle)]
pub extern "C" fn bitvec_c_find_zeros_u16(
    order: u8,
    memory: &[u16],
    start: usize,
    count: usize,
    zeros: usize,
    index: &mut usize,
) -> u8
    ensures { IsSearch (u16_at order start memory.now) count (IsFreeOr zeros) index.old index.new
        result }
{
    find_zeros(order, memory, start, count, zeros, index)
}

/// As `bitvec_c_find_zeros_u8`, of words of 32 bits.
#[unsafe(no_mangle)]
pub extern "C" fn bitvec_c_find_zeros_u32(
    order: u8,
    memory: &[u32],
    start: usize,
    count: usize,
    zeros: usize,
    index: &mut usize,
) -> u8
    ensures { IsSearch (u32_at order start memory.now) count (IsFreeOr zeros) index.old index.new
        result }
{
    find_zeros(order, memory, start, count, zeros, index)
}

/// As `bitvec_c_find_zeros_u8`, of words of 64 bits.
#[unsafe(no_mangle)]
pub extern "C" fn bitvec_c_find_zeros_u64(
    order: u8,
    memory: &[u64],
    start: usize,
    count: usize,
    zeros: usize,
    index: &mut usize,
) -> u8
    ensures { IsSearch (u64_at order start memory.now) count (IsFreeOr zeros) index.old index.new
        result }
{
    find_zeros(order, memory, start, count, zeros, index)
}

/// Writes to `index` the first index, not before `from` and a multiple of `multiple_of`, from which
/// on `zeros` bits are in the range and zero. A `multiple_of` of 0 is taken as 1.
///
/// In words of 8 bits. It refuses with `NO_ORDER`, `TOO_LONG` or `OUTSIDE`. It costs as
/// bitvec_c_find_zeros_W, and once more for each run that is long enough, but not from a multiple
/// on.
#[unsafe(no_mangle)]
pub extern "C" fn bitvec_c_find_zeros_from_u8(
    order: u8,
    memory: &[u8],
    start: usize,
    count: usize,
    from: usize,
    zeros: usize,
    multiple_of: usize,
    index: &mut usize,
) -> u8
    ensures { IsSearch (u8_at order start memory.now) count (IsFreeFromOr from zeros multiple_of)
        index.old index.new result }
{
    find_zeros_from(order, memory, start, count, from, zeros, multiple_of, index)
}

/// As `bitvec_c_find_zeros_from_u8`, of words of 16 bits.
#[unsafe(no_mangle)]
pub extern "C" fn bitvec_c_find_zeros_from_u16(
    order: u8,
    memory: &[u16],
    start: usize,
    count: usize,
    from: usize,
    zeros: usize,
    multiple_of: usize,
    index: &mut usize,
) -> u8
    ensures { IsSearch (u16_at order start memory.now) count (IsFreeFromOr from zeros multiple_of)
        index.old index.new result }
{
    find_zeros_from(order, memory, start, count, from, zeros, multiple_of, index)
}

/// As `bitvec_c_find_zeros_from_u8`, of words of 32 bits.
#[unsafe(no_mangle)]
pub extern "C" fn bitvec_c_find_zeros_from_u32(
    order: u8,
    memory: &[u32],
    start: usize,
    count: usize,
    from: usize,
    zeros: usize,
    multiple_of: usize,
    index: &mut usize,
) -> u8
    ensures { IsSearch (u32_at order start memory.now) count (IsFreeFromOr from zeros multiple_of)
        index.old index.new result }
{
    find_zeros_from(order, memory, start, count, from, zeros, multiple_of, index)
}

/// As `bitvec_c_find_zeros_from_u8`, of words of 64 bits.
#[unsafe(no_mangle)]
pub extern "C" fn bitvec_c_find_zeros_from_u64(
    order: u8,
    memory: &[u64],
    start: usize,
    count: usize,
    from: usize,
    zeros: usize,
    multiple_of: usize,
    index: &mut usize,
) -> u8
    ensures { IsSearch (u64_at order start memory.now) count (IsFreeFromOr from zeros multiple_of)
        index.old index.new result }
{
    find_zeros_from(order, memory, start, count, from, zeros, multiple_of, index)
}
