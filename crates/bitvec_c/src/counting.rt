//! Counting: exports for callers in C. Written by `.ci/exports`.

ghost use Rattle.std.specs.Prelude.{◌≡◌};
ghost use Rattle.bitvec.specs.Truths.{ones_in};
ghost use Rattle.bitvec_call.specs.Call.{u8_at, u16_at, u32_at, u64_at, IsAnswer};

use bitvec_call::find::count_ones;

/// Writes to `ones` how many bits of a range are one.
///
/// In words of 8 bits. It refuses with `NO_ORDER`, `TOO_LONG` or `OUTSIDE`. It costs by words.
#[unsafe(no_mangle)]
pub extern "C" fn bitvec_c_count_ones_u8(
    order: u8,
    memory: &[u8],
    start: usize,
    count: usize,
    ones: &mut usize,
) -> u8
    ensures { IsAnswer (u8_at order start memory.now) count (λ xs. ones.new ≡ ones_in xs) (ones.new
        ≡ ones.old) result }
{
    count_ones(order, memory, start, count, ones)
}

/// As `bitvec_c_count_ones_u8`, of words of 16 bits.
#[unsafe(no_mangle)]
pub extern "C" fn bitvec_c_count_ones_u16(
    order: u8,
    memory: &[u16],
    start: usize,
    count: usize,
    ones: &mut usize,
) -> u8
    ensures { IsAnswer (u16_at order start memory.now) count (λ xs. ones.new ≡ ones_in xs) (ones.new
        ≡ ones.old) result }
{
    count_ones(order, memory, start, count, ones)
}

/// As `bitvec_c_count_ones_u8`, of words of 32 bits.
#[unsafe(no_mangle)]
pub extern "C" fn bitvec_c_count_ones_u32(
    order: u8,
    memory: &[u32],
    start: usize,
    count: usize,
    ones: &mut usize,
) -> u8
    ensures { IsAnswer (u32_at order start memory.now) count (λ xs. ones.new ≡ ones_in xs) (ones.new
        ≡ ones.old) result }
{
    count_ones(order, memory, start, count, ones)
}

/// As `bitvec_c_count_ones_u8`, of words of 64 bits.
#[unsafe(no_mangle)]
pub extern "C" fn bitvec_c_count_ones_u64(
    order: u8,
    memory: &[u64],
    start: usize,
    count: usize,
    ones: &mut usize,
) -> u8
    ensures { IsAnswer (u64_at order start memory.now) count (λ xs. ones.new ≡ ones_in xs) (ones.new
        ≡ ones.old) result }
{
    count_ones(order, memory, start, count, ones)
}
