//! Streams: exports for callers in C. Written by `.ci/exports`.

ghost use Rattle.bitvec_call.specs.Call.{u8_at, u16_at, u32_at, u64_at};
ghost use Rattle.bitvec_call.specs.Stream.{IsRead, IsSignedRead, IsUnaryRead, IsCodeRead};
ghost use Rattle.bitvec_call.specs.Stream.{IsSignedCodeRead, IsNumberWrite, IsSignedWrite};
ghost use Rattle.bitvec_call.specs.Stream.{IsUnaryWrite, IsCodeWrite, IsSignedCodeWrite};

use bitvec_call::read::{read, read_signed};
use bitvec_call::read_code::{read_exp_golomb, read_signed_exp_golomb, read_unary};
use bitvec_call::write::{write, write_signed};
use bitvec_call::write_code::{write_exp_golomb, write_signed_exp_golomb, write_unary};

/// Writes to `number` the number of the next `count` bits: the first is its lowest digit or, where
/// `big_endian`, the highest, whatever the order and the width are. For no bits it is 0.
///
/// In words of 8 bits. It refuses with `NO_ORDER`, `TOO_LONG`, `OUTSIDE`, `TOO_WIDE` (`count` is
/// past 64) or `TOO_FEW`. It costs by words.
#[unsafe(no_mangle)]
pub extern "C" fn bitvec_c_read_u8(
    order: u8,
    big_endian: bool,
    memory: &[u8],
    place: &mut usize,
    end: usize,
    count: usize,
    number: &mut u64,
) -> u8
    ensures { IsRead big_endian (u8_at order place.old memory.now) end place.new count number.old
        number.new result }
{
    read(order, big_endian, memory, place, end, count, number)
}

/// As `bitvec_c_read_u8`, of words of 16 bits.
#[unsafe(no_mangle)]
pub extern "C" fn bitvec_c_read_u16(
    order: u8,
    big_endian: bool,
    memory: &[u16],
    place: &mut usize,
    end: usize,
    count: usize,
    number: &mut u64,
) -> u8
    ensures { IsRead big_endian (u16_at order place.old memory.now) end place.new count number.old
        number.new result }
{
    read(order, big_endian, memory, place, end, count, number)
}

/// As `bitvec_c_read_u8`, of words of 32 bits.
#[unsafe(no_mangle)]
pub extern "C" fn bitvec_c_read_u32(
    order: u8,
    big_endian: bool,
    memory: &[u32],
    place: &mut usize,
    end: usize,
    count: usize,
    number: &mut u64,
) -> u8
    ensures { IsRead big_endian (u32_at order place.old memory.now) end place.new count number.old
        number.new result }
{
    read(order, big_endian, memory, place, end, count, number)
}

/// As `bitvec_c_read_u8`, of words of 64 bits.
#[unsafe(no_mangle)]
pub extern "C" fn bitvec_c_read_u64(
    order: u8,
    big_endian: bool,
    memory: &[u64],
    place: &mut usize,
    end: usize,
    count: usize,
    number: &mut u64,
) -> u8
    ensures { IsRead big_endian (u64_at order place.old memory.now) end place.new count number.old
        number.new result }
{
    read(order, big_endian, memory, place, end, count, number)
}

/// Writes to `number` the signed number whose two's complement of `count` digits that is. For no
/// bits it is 0.
///
/// In words of 8 bits. It refuses with `NO_ORDER`, `TOO_LONG`, `OUTSIDE`, `TOO_WIDE` (`count` is
/// past 64) or `TOO_FEW`. It costs by words.
#[unsafe(no_mangle)]
pub extern "C" fn bitvec_c_read_signed_u8(
    order: u8,
    big_endian: bool,
    memory: &[u8],
    place: &mut usize,
    end: usize,
    count: usize,
    number: &mut i64,
) -> u8
    ensures { IsSignedRead big_endian (u8_at order place.old memory.now) end place.new count
        number.old number.new result }
{
    read_signed(order, big_endian, memory, place, end, count, number)
}

/// As `bitvec_c_read_signed_u8`, of words of 16 bits.
#[unsafe(no_mangle)]
pub extern "C" fn bitvec_c_read_signed_u16(
    order: u8,
    big_endian: bool,
    memory: &[u16],
    place: &mut usize,
    end: usize,
    count: usize,
    number: &mut i64,
) -> u8
    ensures { IsSignedRead big_endian (u16_at order place.old memory.now) end place.new count
        number.old number.new result }
{
    read_signed(order, big_endian, memory, place, end, count, number)
}

/// As `bitvec_c_read_signed_u8`, of words of 32 bits.
#[unsafe(no_mangle)]
pub extern "C" fn bitvec_c_read_signed_u32(
    order: u8,
    big_endian: bool,
    memory: &[u32],
    place: &mut usize,
    end: usize,
    count: usize,
    number: &mut i64,
) -> u8
    ensures { IsSignedRead big_endian (u32_at order place.old memory.now) end place.new count
        number.old number.new result }
{
    read_signed(order, big_endian, memory, place, end, count, number)
}

/// As `bitvec_c_read_signed_u8`, of words of 64 bits.
#[unsafe(no_mangle)]
pub extern "C" fn bitvec_c_read_signed_u64(
    order: u8,
    big_endian: bool,
    memory: &[u64],
    place: &mut usize,
    end: usize,
    count: usize,
    number: &mut i64,
) -> u8
    ensures { IsSignedRead big_endian (u64_at order place.old memory.now) end place.new count
        number.old number.new result }
{
    read_signed(order, big_endian, memory, place, end, count, number)
}

/// Writes to `count` how many bits are the same as `bit` before the first that is not, which is
/// taken too.
///
/// In words of 8 bits. It refuses with `NO_ORDER`, `TOO_LONG`, `OUTSIDE` or `TOO_FEW` (all bits
/// that are left are the same as `bit`, also where none is left). It costs by words.
#[unsafe(no_mangle)]
pub extern "C" fn bitvec_c_read_unary_u8(
    order: u8,
    memory: &[u8],
    place: &mut usize,
    end: usize,
    bit: bool,
    count: &mut usize,
) -> u8
    ensures { IsUnaryRead bit (u8_at order place.old memory.now) end place.new count.old count.new
        result }
{
    read_unary(order, memory, place, end, bit, count)
}

/// As `bitvec_c_read_unary_u8`, of words of 16 bits.
#[unsafe(no_mangle)]
pub extern "C" fn bitvec_c_read_unary_u16(
    order: u8,
    memory: &[u16],
    place: &mut usize,
    end: usize,
    bit: bool,
    count: &mut usize,
) -> u8
    ensures { IsUnaryRead bit (u16_at order place.old memory.now) end place.new count.old count.new
        result }
{
    read_unary(order, memory, place, end, bit, count)
}

/// As `bitvec_c_read_unary_u8`, of words of 32 bits.
#[unsafe(no_mangle)]
pub extern "C" fn bitvec_c_read_unary_u32(
    order: u8,
    memory: &[u32],
    place: &mut usize,
    end: usize,
    bit: bool,
    count: &mut usize,
) -> u8
    ensures { IsUnaryRead bit (u32_at order place.old memory.now) end place.new count.old count.new
        result }
{
    read_unary(order, memory, place, end, bit, count)
}

/// As `bitvec_c_read_unary_u8`, of words of 64 bits.
#[unsafe(no_mangle)]
pub extern "C" fn bitvec_c_read_unary_u64(
    order: u8,
    memory: &[u64],
    place: &mut usize,
    end: usize,
    bit: bool,
    count: &mut usize,
) -> u8
    ensures { IsUnaryRead bit (u64_at order place.old memory.now) end place.new count.old count.new
        result }
{
    read_unary(order, memory, place, end, bit, count)
}

/// Writes to `number` the number of an Exp-Golomb code, ue(v) of ITU-T H.264 and H.265: as many
/// zeros as the number and one have binary digits, less one, and then these digits, the highest
/// first. So 1 is 0, 010 is 1, 011 is 2 and 00100 is 3.
///
/// In words of 8 bits. It refuses with `NO_ORDER`, `TOO_LONG`, `OUTSIDE`, `TOO_FEW` (the bits end
/// before a code does) or `TOO_LARGE` (the number has more than 64 digits). It costs by words.
#[unsafe(no_mangle)]
pub extern "C" fn bitvec_c_read_exp_golomb_u8(
    order: u8,
    memory: &[u8],
    place: &mut usize,
    end: usize,
    number: &mut u64,
) -> u8
    ensures { IsCodeRead (u8_at order place.old memory.now) end place.new number.old number.new
        result }
{
    read_exp_golomb(order, memory, place, end, number)
}

/// As `bitvec_c_read_exp_golomb_u8`, of words of 16 bits.
#[unsafe(no_mangle)]
pub extern "C" fn bitvec_c_read_exp_golomb_u16(
    order: u8,
    memory: &[u16],
    place: &mut usize,
    end: usize,
    number: &mut u64,
) -> u8
    ensures { IsCodeRead (u16_at order place.old memory.now) end place.new number.old number.new
        result }
{
    read_exp_golomb(order, memory, place, end, number)
}

/// As `bitvec_c_read_exp_golomb_u8`, of words of 32 bits.
#[unsafe(no_mangle)]
pub extern "C" fn bitvec_c_read_exp_golomb_u32(
    order: u8,
    memory: &[u32],
    place: &mut usize,
    end: usize,
    number: &mut u64,
) -> u8
    ensures { IsCodeRead (u32_at order place.old memory.now) end place.new number.old number.new
        result }
{
    read_exp_golomb(order, memory, place, end, number)
}

/// As `bitvec_c_read_exp_golomb_u8`, of words of 64 bits.
#[unsafe(no_mangle)]
pub extern "C" fn bitvec_c_read_exp_golomb_u64(
    order: u8,
    memory: &[u64],
    place: &mut usize,
    end: usize,
    number: &mut u64,
) -> u8
    ensures { IsCodeRead (u64_at order place.old memory.now) end place.new number.old number.new
        result }
{
    read_exp_golomb(order, memory, place, end, number)
}

/// Writes to `number` the signed number of one, se(v) there: the codes of 0, 1, 2, 3, 4 and so on
/// are those of 0, 1, -1, 2, -2 and so on.
///
/// In words of 8 bits. It refuses with `NO_ORDER`, `TOO_LONG`, `OUTSIDE`, `TOO_FEW` (the bits end
/// before a code does) or `TOO_LARGE` (an int64_t has not the number). It costs by words.
#[unsafe(no_mangle)]
pub extern "C" fn bitvec_c_read_signed_exp_golomb_u8(
    order: u8,
    memory: &[u8],
    place: &mut usize,
    end: usize,
    number: &mut i64,
) -> u8
    ensures { IsSignedCodeRead (u8_at order place.old memory.now) end place.new number.old
        number.new result }
{
    read_signed_exp_golomb(order, memory, place, end, number)
}

/// As `bitvec_c_read_signed_exp_golomb_u8`, of words of 16 bits.
#[unsafe(no_mangle)]
pub extern "C" fn bitvec_c_read_signed_exp_golomb_u16(
    order: u8,
    memory: &[u16],
    place: &mut usize,
    end: usize,
    number: &mut i64,
) -> u8
    ensures { IsSignedCodeRead (u16_at order place.old memory.now) end place.new number.old
        number.new result }
{
    read_signed_exp_golomb(order, memory, place, end, number)
}

/// As `bitvec_c_read_signed_exp_golomb_u8`, of words of 32 bits.
#[unsafe(no_mangle)]
pub extern "C" fn bitvec_c_read_signed_exp_golomb_u32(
    order: u8,
    memory: &[u32],
    place: &mut usize,
    end: usize,
    number: &mut i64,
) -> u8
    ensures { IsSignedCodeRead (u32_at order place.old memory.now) end place.new number.old
        number.new result }
{
    read_signed_exp_golomb(order, memory, place, end, number)
}

/// As `bitvec_c_read_signed_exp_golomb_u8`, of words of 64 bits.
#[unsafe(no_mangle)]
pub extern "C" fn bitvec_c_read_signed_exp_golomb_u64(
    order: u8,
    memory: &[u64],
    place: &mut usize,
    end: usize,
    number: &mut i64,
) -> u8
    ensures { IsSignedCodeRead (u64_at order place.old memory.now) end place.new number.old
        number.new result }
{
    read_signed_exp_golomb(order, memory, place, end, number)
}

/// Makes the next `count` bits the digits of a number: the first becomes its lowest digit or, where
/// `big_endian`, the highest, whatever the order and the width are.
///
/// In words of 8 bits. It refuses with `NO_ORDER`, `TOO_LONG`, `OUTSIDE`, `TOO_WIDE` (`count` is
/// past 64), `TOO_FEW` or `TOO_LARGE` (the number is not below 2^count, where bitvec_c_store_W
/// drops its highest digits). It costs by words.
#[unsafe(no_mangle)]
pub extern "C" fn bitvec_c_write_u8(
    order: u8,
    big_endian: bool,
    memory: &mut [u8],
    place: &mut usize,
    end: usize,
    count: usize,
    number: u64,
) -> u8
    ensures { let at = u8_at order place.old in IsNumberWrite big_endian (at memory.old) (at
        memory.new) end place.new count number result }
{
    write(order, big_endian, memory, place, end, count, number)
}

/// As `bitvec_c_write_u8`, of words of 16 bits.
#[unsafe(no_mangle)]
pub extern "C" fn bitvec_c_write_u16(
    order: u8,
    big_endian: bool,
    memory: &mut [u16],
    place: &mut usize,
    end: usize,
    count: usize,
    number: u64,
) -> u8
    ensures { let at = u16_at order place.old in IsNumberWrite big_endian (at memory.old) (at
        memory.new) end place.new count number result }
{
    write(order, big_endian, memory, place, end, count, number)
}

/// As `bitvec_c_write_u8`, of words of 32 bits.
#[unsafe(no_mangle)]
pub extern "C" fn bitvec_c_write_u32(
    order: u8,
    big_endian: bool,
    memory: &mut [u32],
    place: &mut usize,
    end: usize,
    count: usize,
    number: u64,
) -> u8
    ensures { let at = u32_at order place.old in IsNumberWrite big_endian (at memory.old) (at
        memory.new) end place.new count number result }
{
    write(order, big_endian, memory, place, end, count, number)
}

/// As `bitvec_c_write_u8`, of words of 64 bits.
#[unsafe(no_mangle)]
pub extern "C" fn bitvec_c_write_u64(
    order: u8,
    big_endian: bool,
    memory: &mut [u64],
    place: &mut usize,
    end: usize,
    count: usize,
    number: u64,
) -> u8
    ensures { let at = u64_at order place.old in IsNumberWrite big_endian (at memory.old) (at
        memory.new) end place.new count number result }
{
    write(order, big_endian, memory, place, end, count, number)
}

/// Makes them the digits of a signed number's two's complement.
///
/// In words of 8 bits. It refuses with `NO_ORDER`, `TOO_LONG`, `OUTSIDE`, `TOO_WIDE` (`count` is
/// past 64), `TOO_FEW` or `TOO_LARGE` (the number is below -2^(count - 1) or not below 2^(count -
/// 1), or for no bits not 0). It costs by words.
#[unsafe(no_mangle)]
pub extern "C" fn bitvec_c_write_signed_u8(
    order: u8,
    big_endian: bool,
    memory: &mut [u8],
    place: &mut usize,
    end: usize,
    count: usize,
    number: i64,
) -> u8
    ensures { let at = u8_at order place.old in IsSignedWrite big_endian (at memory.old) (at
        memory.new) end place.new count number result }
{
    write_signed(order, big_endian, memory, place, end, count, number)
}

/// As `bitvec_c_write_signed_u8`, of words of 16 bits.
#[unsafe(no_mangle)]
pub extern "C" fn bitvec_c_write_signed_u16(
    order: u8,
    big_endian: bool,
    memory: &mut [u16],
    place: &mut usize,
    end: usize,
    count: usize,
    number: i64,
) -> u8
    ensures { let at = u16_at order place.old in IsSignedWrite big_endian (at memory.old) (at
        memory.new) end place.new count number result }
{
    write_signed(order, big_endian, memory, place, end, count, number)
}

/// As `bitvec_c_write_signed_u8`, of words of 32 bits.
#[unsafe(no_mangle)]
pub extern "C" fn bitvec_c_write_signed_u32(
    order: u8,
    big_endian: bool,
    memory: &mut [u32],
    place: &mut usize,
    end: usize,
    count: usize,
    number: i64,
) -> u8
    ensures { let at = u32_at order place.old in IsSignedWrite big_endian (at memory.old) (at
        memory.new) end place.new count number result }
{
    write_signed(order, big_endian, memory, place, end, count, number)
}

/// As `bitvec_c_write_signed_u8`, of words of 64 bits.
#[unsafe(no_mangle)]
pub extern "C" fn bitvec_c_write_signed_u64(
    order: u8,
    big_endian: bool,
    memory: &mut [u64],
    place: &mut usize,
    end: usize,
    count: usize,
    number: i64,
) -> u8
    ensures { let at = u64_at order place.old in IsSignedWrite big_endian (at memory.old) (at
        memory.new) end place.new count number result }
{
    write_signed(order, big_endian, memory, place, end, count, number)
}

/// Makes the next `count` bits the same as `bit`, and the one behind them the other.
///
/// In words of 8 bits. It refuses with `NO_ORDER`, `TOO_LONG`, `OUTSIDE` or `TOO_FEW` (no more than
/// `count` bits are left). It costs by words.
#[unsafe(no_mangle)]
pub extern "C" fn bitvec_c_write_unary_u8(
    order: u8,
    memory: &mut [u8],
    place: &mut usize,
    end: usize,
    bit: bool,
    count: usize,
) -> u8
    ensures { let at = u8_at order place.old in IsUnaryWrite bit (at memory.old) (at memory.new) end
        place.new count result }
{
    write_unary(order, memory, place, end, bit, count)
}

/// As `bitvec_c_write_unary_u8`, of words of 16 bits.
#[unsafe(no_mangle)]
pub extern "C" fn bitvec_c_write_unary_u16(
    order: u8,
    memory: &mut [u16],
    place: &mut usize,
    end: usize,
    bit: bool,
    count: usize,
) -> u8
    ensures { let at = u16_at order place.old in IsUnaryWrite bit (at memory.old) (at memory.new)
        end place.new count result }
{
    write_unary(order, memory, place, end, bit, count)
}

/// As `bitvec_c_write_unary_u8`, of words of 32 bits.
#[unsafe(no_mangle)]
pub extern "C" fn bitvec_c_write_unary_u32(
    order: u8,
    memory: &mut [u32],
    place: &mut usize,
    end: usize,
    bit: bool,
    count: usize,
) -> u8
    ensures { let at = u32_at order place.old in IsUnaryWrite bit (at memory.old) (at memory.new)
        end place.new count result }
{
    write_unary(order, memory, place, end, bit, count)
}

/// As `bitvec_c_write_unary_u8`, of words of 64 bits.
#[unsafe(no_mangle)]
pub extern "C" fn bitvec_c_write_unary_u64(
    order: u8,
    memory: &mut [u64],
    place: &mut usize,
    end: usize,
    bit: bool,
    count: usize,
) -> u8
    ensures { let at = u64_at order place.old in IsUnaryWrite bit (at memory.old) (at memory.new)
        end place.new count result }
{
    write_unary(order, memory, place, end, bit, count)
}

/// Writes the Exp-Golomb code of a number, as above: each number has one, of at most 129 bits.
///
/// In words of 8 bits. It refuses with `NO_ORDER`, `TOO_LONG`, `OUTSIDE` or `TOO_FEW`. It costs by
/// words.
#[unsafe(no_mangle)]
pub extern "C" fn bitvec_c_write_exp_golomb_u8(
    order: u8,
    memory: &mut [u8],
    place: &mut usize,
    end: usize,
    number: u64,
) -> u8
    ensures { let at = u8_at order place.old in IsCodeWrite (at memory.old) (at memory.new) end
        place.new number result }
{
    write_exp_golomb(order, memory, place, end, number)
}

/// As `bitvec_c_write_exp_golomb_u8`, of words of 16 bits.
#[unsafe(no_mangle)]
pub extern "C" fn bitvec_c_write_exp_golomb_u16(
    order: u8,
    memory: &mut [u16],
    place: &mut usize,
    end: usize,
    number: u64,
) -> u8
    ensures { let at = u16_at order place.old in IsCodeWrite (at memory.old) (at memory.new) end
        place.new number result }
{
    write_exp_golomb(order, memory, place, end, number)
}

/// As `bitvec_c_write_exp_golomb_u8`, of words of 32 bits.
#[unsafe(no_mangle)]
pub extern "C" fn bitvec_c_write_exp_golomb_u32(
    order: u8,
    memory: &mut [u32],
    place: &mut usize,
    end: usize,
    number: u64,
) -> u8
    ensures { let at = u32_at order place.old in IsCodeWrite (at memory.old) (at memory.new) end
        place.new number result }
{
    write_exp_golomb(order, memory, place, end, number)
}

/// As `bitvec_c_write_exp_golomb_u8`, of words of 64 bits.
#[unsafe(no_mangle)]
pub extern "C" fn bitvec_c_write_exp_golomb_u64(
    order: u8,
    memory: &mut [u64],
    place: &mut usize,
    end: usize,
    number: u64,
) -> u8
    ensures { let at = u64_at order place.old in IsCodeWrite (at memory.old) (at memory.new) end
        place.new number result }
{
    write_exp_golomb(order, memory, place, end, number)
}

/// Writes the code of a signed number, as above, of at most 129 bits too.
///
/// In words of 8 bits. It refuses with `NO_ORDER`, `TOO_LONG`, `OUTSIDE` or `TOO_FEW`. It costs by
/// words.
#[unsafe(no_mangle)]
pub extern "C" fn bitvec_c_write_signed_exp_golomb_u8(
    order: u8,
    memory: &mut [u8],
    place: &mut usize,
    end: usize,
    number: i64,
) -> u8
    ensures { let at = u8_at order place.old in IsSignedCodeWrite (at memory.old) (at memory.new)
        end place.new number result }
{
    write_signed_exp_golomb(order, memory, place, end, number)
}

/// As `bitvec_c_write_signed_exp_golomb_u8`, of words of 16 bits.
#[unsafe(no_mangle)]
pub extern "C" fn bitvec_c_write_signed_exp_golomb_u16(
    order: u8,
    memory: &mut [u16],
    place: &mut usize,
    end: usize,
    number: i64,
) -> u8
    ensures { let at = u16_at order place.old in IsSignedCodeWrite (at memory.old) (at memory.new)
        end place.new number result }
{
    write_signed_exp_golomb(order, memory, place, end, number)
}

/// As `bitvec_c_write_signed_exp_golomb_u8`, of words of 32 bits.
#[unsafe(no_mangle)]
pub extern "C" fn bitvec_c_write_signed_exp_golomb_u32(
    order: u8,
    memory: &mut [u32],
    place: &mut usize,
    end: usize,
    number: i64,
) -> u8
    ensures { let at = u32_at order place.old in IsSignedCodeWrite (at memory.old) (at memory.new)
        end place.new number result }
{
    write_signed_exp_golomb(order, memory, place, end, number)
}

/// As `bitvec_c_write_signed_exp_golomb_u8`, of words of 64 bits.
#[unsafe(no_mangle)]
pub extern "C" fn bitvec_c_write_signed_exp_golomb_u64(
    order: u8,
    memory: &mut [u64],
    place: &mut usize,
    end: usize,
    number: i64,
) -> u8
    ensures { let at = u64_at order place.old in IsSignedCodeWrite (at memory.old) (at memory.new)
        end place.new number result }
{
    write_signed_exp_golomb(order, memory, place, end, number)
}
