//! Callers of vectors whose contracts speak of lists of truth values, as those of functions over a
//! `Vec<bool>` would: for every register, every lawful order and every allocator.

ghost use Rattle.std.specs.Prelude.{◌≡◌, ◌≤◌, ◌<◌, ◌||◌, ◌∷◌, ◌++◌, [], if◌then◌else◌};
ghost use Rattle.std.specs.Prelude.{IfOk, OnErr, Some, is_ok, not, length, map, take, drop};
ghost use Rattle.std.specs.Prelude.{true, false, replicate, reverse, slice_set};
ghost use Rattle.std.specs.List.{insert, filter};
ghost use Rattle.bitvec.specs.Memory.{zip_with};
ghost use Rattle.bitvec.specs.Truths.{ones_in};
ghost use Rattle.bitvec_slice.specs.Field.{field_number};
ghost use Rattle.bitvec_vec.specs.BitVec.{vec_bits, bit_capacity};

use bitvec::mem::BitRegister;
use bitvec::order::BitOrder;
use bitvec_slice::field::Sequential;
use bitvec_slice::slice::ReadBits;
use bitvec_vec::vec::BitVec;
use std::alloc::{AllocError, Allocator};

/// Puts two bits behind the others, or none where memory is refused.
pub fn push_both<R: BitRegister, O: BitOrder<R>, A: Allocator>(
    bits: &mut BitVec<R, O, A>,
    first: bool,
    second: bool,
) -> Result<(), AllocError>
    ensures { vec_bits bits.new ≡ (if is_ok result
        then vec_bits bits.old ++ first ∷ second ∷ [] else vec_bits bits.old) }
{
    bits.push(first)?;
    if bits.push(second).is_err() {
        bits.truncate(bits.len() - 1);
        return Err(AllocError);
    }
    Ok(())
}

/// Two lists of truth values, one behind the other, as a vector of bits.
pub fn joined<R: BitRegister, O: BitOrder<R>, A: Allocator>(
    alloc: A,
    first: &[bool],
    second: &[bool],
) -> Result<BitVec<R, O, A>, AllocError>
    ensures { IfOk result (λ bits. vec_bits bits ≡ first.now ++ second.now) }
{
    let mut bits = BitVec::from_bools(alloc, first)?;
    bits.extend_from_bools(second)?;
    Ok(bits)
}

/// Puts a bit behind the others and takes it away again.
pub fn push_and_pop<R: BitRegister, O: BitOrder<R>, A: Allocator>(
    bits: &mut BitVec<R, O, A>,
    bit: bool,
) -> Result<Option<bool>, AllocError>
    ensures same { vec_bits bits.new ≡ vec_bits bits.old }
    ensures bit { IfOk result (λ popped. popped ≡ Some bit) }
{
    bits.push(bit)?;
    Ok(bits.pop())
}

/// The union of two sets of as many numbers, as a vector of its own.
pub fn union_of<R: BitRegister, O: BitOrder<R>, A: Allocator, R2: BitRegister, O2: BitOrder<R2>>(
    alloc: A,
    set: &BitVec<R, O, A>,
    other: &BitVec<R2, O2, A>,
) -> Result<BitVec<R, O, A>, AllocError>
    requires { length (vec_bits other.now) ≡ length (vec_bits set.now) }
    ensures { IfOk result (λ both. vec_bits both
        ≡ zip_with (λ t s. t || s) (vec_bits set.now) (vec_bits other.now)) }
{
    let mut both = BitVec::from_bitslice(alloc, set.as_bitslice())?;
    both.or_from(other.as_bitslice());
    Ok(both)
}

/// Those bits of a vector that are one, in a vector of their own.
pub fn ones_alone<R: BitRegister, O: BitOrder<R>, A: Allocator>(
    alloc: A,
    bits: &BitVec<R, O, A>,
) -> Result<BitVec<R, O, A>, AllocError>
    ensures { IfOk result (λ ones. vec_bits ones ≡ filter (λ bit. bit) (vec_bits bits.now)) }
{
    let mut ones = BitVec::new(alloc);
    for i in 0..bits.len() {
        let bit = bits.get_unchecked(i);
        if bit {
            ones.push(bit)?;
        }
    }
    Ok(ones)
}

/// A vector's list put before another bit, and turned back to front.
pub fn led_and_turned<R: BitRegister, O: BitOrder<R>, A: Allocator>(
    bits: &mut BitVec<R, O, A>,
    bit: bool,
) -> Result<(), AllocError>
    ensures { vec_bits bits.new ≡ (if is_ok result
        then reverse (insert (vec_bits bits.old) 0 bit) else vec_bits bits.old) }
{
    bits.insert(0, bit)?;
    bits.reverse();
    Ok(())
}

/// The bits from number `at` on are taken away, turned over, and put back.
pub fn turn_the_rest<R: BitRegister, O: BitOrder<R>, A: Allocator + Clone>(
    bits: &mut BitVec<R, O, A>,
    at: usize,
) -> Result<(), AllocError>
    requires { at ≤ length (vec_bits bits.old) }
    ensures { IfOk result (λ _. vec_bits bits.new
        ≡ take at (vec_bits bits.old) ++ map not (drop at (vec_bits bits.old))) }
{
    let mut rest = bits.split_off(at)?;
    rest.invert();
    bits.append(&mut rest)
}

/// A set that has one number of as many as are asked for.
pub fn one_number<R: BitRegister, O: BitOrder<R>, A: Allocator>(
    alloc: A,
    count: usize,
    number: usize,
) -> Result<BitVec<R, O, A>, AllocError>
    requires { number < count }
    ensures set { IfOk result (λ set. vec_bits set
        ≡ slice_set (replicate count false) number true) }
    ensures refused { OnErr result (0 < count) }
{
    let mut set = BitVec::repeat(alloc, false, count)?;
    set.set(number, true);
    Ok(set)
}

/// Makes a vector longer, in one of five ways. Where memory is refused, its list and its room stay.
pub fn made_longer<R: BitRegister, O: BitOrder<R>, A: Allocator>(
    bits: &mut BitVec<R, O, A>,
    more: &mut BitVec<R, O, A>,
    values: &[bool],
    way: u8,
) -> Result<(), AllocError>
    ensures list { OnErr result (vec_bits bits.new ≡ vec_bits bits.old) }
    ensures room { OnErr result (bit_capacity bits.new ≡ bit_capacity bits.old) }
{
    match way {
        0 => bits.resize(values.len(), false),
        1 => bits.insert(0, true),
        2 => bits.append(more),
        3 => bits.extend_from_bitslice(more.as_bitslice()),
        _ => bits.extend_from_bools(values),
    }
}

/// The number that a vector's bits are, big-endian: they begin with the first bit of a word.
pub fn number_of<R: BitRegister, O: Sequential<R>, A: Allocator>(bits: &BitVec<R, O, A>) -> u128
    requires { length (vec_bits bits.now) ≤ 128 }
    ensures { result ≡ field_number true R.BITS O.RISES 0 (vec_bits bits.now) }
{
    bits.as_bitslice().load_be()
}

/// How many bits of a vector are one.
pub fn ones_of<R: BitRegister, O: BitOrder<R>, A: Allocator>(bits: &BitVec<R, O, A>) -> usize
    ensures { result ≡ ones_in (vec_bits bits.now) }
{
    bits.count_ones()
}
