//! Combinations of each range of three bytes with each of three other bytes or of two words of 16
//! bits, and with each of the same words, beside the lists of their bits; and of two words of 64
//! bits with themselves, at each distance.

ghost use Rattle.std.specs.Prelude.{◌+◌, ◌≤◌, ◌<◌};
ghost use Rattle.tests_ptr.specs.Orders.{exchanged_index, exchanged_one_to_one};

use bitvec_mem::mem::BitRegister;
use bitvec_order::index::BitIdx;
use bitvec_order::order::{BitOrder, Lsb0, Msb0};
use bitvec_order::positions::{ByPosition, OneToOne, Positions};
use bitvec_ptr::ptr::combine::{And, AndNot, Combine, Or, Xor};
use bitvec_ptr::ptr::single::BitPtr;

/// The positions of a byte with its halves exchanged.
struct Exchanged;

impl Positions<u8> for Exchanged {
    ghost at_of = { exchanged_index };

    fn position(index: u8) -> u8 {
        (index + 4) % 8
    }
}

impl OneToOne<u8> for Exchanged {
    ghost one_to_one = { exchanged_one_to_one };
}

/// The order of these positions, for bytes alone.
type HiLo = ByPosition<Exchanged>;

/// A combination, and what it makes of two truth values.
trait Operator: Combine {
    /// What becomes of the target's.
    fn of(target: bool, source: bool) -> bool;
}

impl Operator for And {
    fn of(target: bool, source: bool) -> bool {
        target && source
    }
}

impl Operator for Or {
    fn of(target: bool, source: bool) -> bool {
        target || source
    }
}

impl Operator for Xor {
    fn of(target: bool, source: bool) -> bool {
        target != source
    }
}

impl Operator for AndNot {
    fn of(target: bool, source: bool) -> bool {
        target && !source
    }
}

/// Three bytes.
const SOURCE: [u8; 3] = [0x5C, 0x2E, 0xF3];

// The bits of a memory, each by the position of its index, and zeros behind its end.
fn bits_of<R: BitRegister, O: BitOrder<R>, const N: usize>(memory: &[R]) -> [bool; N] {
    let width = usize::from(R::BITS);
    let mut bits = [false; N];
    for place in 0..N {
        if let Some(word) = memory.get(place / width) {
            let index = BitIdx::new_unchecked((place % width) as u8);
            let position = O::at(index).into_inner();
            bits[place] = word.shr(position).and(R::ONE) == R::ONE;
        }
    }
    bits
}

// Whether a combination makes of each bit of a range what the operator makes of it and of its bit
// of the source, and leaves every other bit as before.
fn combines<C: Operator, O: BitOrder<u8>, R: BitRegister, P: BitOrder<R>, const W: usize>(
    target: [R; W],
    from: usize,
    to: usize,
    count: usize,
) -> bool
    requires source { from + count ≤ 24 }
    requires target { to + count ≤ 32 }
{
    let mut memory = target;
    let source = bits_of::<u8, O, 24>(&SOURCE);
    let mut bits = bits_of::<R, P, 32>(&memory);
    let (start, dest) = (BitPtr::<u8, O>::at(from), BitPtr::<R, P>::at(to));
    if !start.run_in(SOURCE.len(), count) || !dest.run_in(memory.len(), count) {
        return false;
    }
    start.combine_to::<C, R, P>(&SOURCE, dest, &mut memory, count);
    for i in 0..count {
        bits[to + i] = C::of(bits[to + i], source[from + i]);
    }
    bits_of::<R, P, 32>(&memory) == bits
}

// Whether each combination does, of any range of the source with any of a target of `len` bits.
fn combines_each<C: Operator, O: BitOrder<u8>, R: BitRegister, P: BitOrder<R>, const W: usize>(
    target: [R; W],
    len: usize,
) -> bool
    requires least { 24 ≤ len }
    requires most { len ≤ 32 }
{
    for count in 0..25 {
        for from in 0..25 - count {
            for to in 0..len + 1 - count {
                if !combines::<C, O, R, P, W>(target, from, to, count) {
                    return false;
                }
            }
        }
    }
    true
}

// The same of each operator.
fn combines_by_each<O: BitOrder<u8>, R: BitRegister, P: BitOrder<R>, const W: usize>(
    target: [R; W],
    len: usize,
) -> bool
    requires least { 24 ≤ len }
    requires most { len ≤ 32 }
{
    combines_each::<And, O, R, P, W>(target, len)
        && combines_each::<Or, O, R, P, W>(target, len)
        && combines_each::<Xor, O, R, P, W>(target, len)
        && combines_each::<AndNot, O, R, P, W>(target, len)
}

// The same of each target.
fn combines_with_each<O: BitOrder<u8>>() -> bool {
    let (bytes, words) = ([0xC6, 0x35, 0x9A], [0x39C6, 0x6B35]);
    combines_by_each::<O, u8, Lsb0, 3>(bytes, 24)
        && combines_by_each::<O, u8, HiLo, 3>(bytes, 24)
        && combines_by_each::<O, u16, Lsb0, 2>(words, 32)
        && combines_by_each::<O, u16, Msb0, 2>(words, 32)
}

#[test]
fn each_range_of_two_memories(rt: HostRuntime) {
    assert!(rt; combines_with_each::<Lsb0>());
    assert!(rt; combines_with_each::<Msb0>());
    assert!(rt; combines_with_each::<HiLo>());
}

// Whether a combination within a memory of these bits does.
fn combines_within<C: Operator, R: BitRegister, O: BitOrder<R>, const W: usize, const N: usize>(
    memory: [R; W],
    source: [bool; N],
    from: usize,
    to: usize,
    count: usize,
) -> bool
    requires source { from + count ≤ N }
    requires target { to + count ≤ N }
{
    let mut memory = memory;
    let mut bits = source;
    let (start, dest) = (BitPtr::<R, O>::at(from), BitPtr::<R, O>::at(to));
    if !start.run_in(memory.len(), count) || !dest.run_in(memory.len(), count) {
        return false;
    }
    start.combine_within::<C>(&mut memory, dest, count);
    for i in 0..count {
        bits[to + i] = C::of(source[to + i], source[from + i]);
    }
    bits_of::<R, O, N>(&memory) == bits
}

// Whether each combination does, of any two ranges of `N` bits.
fn combines_each_within<
    C: Operator,
    R: BitRegister,
    O: BitOrder<R>,
    const W: usize,
    const N: usize,
>(memory: [R; W], bits: [bool; N]) -> bool
    requires { N ≤ 32 }
{
    for count in 0..N + 1 {
        for from in 0..N + 1 - count {
            for to in 0..N + 1 - count {
                if !combines_within::<C, R, O, W, N>(memory, bits, from, to, count) {
                    return false;
                }
            }
        }
    }
    true
}

// The same of each operator.
fn combines_within_by_each<R: BitRegister, O: BitOrder<R>, const W: usize, const N: usize>(
    memory: [R; W],
    bits: [bool; N],
) -> bool
    requires { N ≤ 32 }
{
    combines_each_within::<And, R, O, W, N>(memory, bits)
        && combines_each_within::<Or, R, O, W, N>(memory, bits)
        && combines_each_within::<Xor, R, O, W, N>(memory, bits)
        && combines_each_within::<AndNot, R, O, W, N>(memory, bits)
}

// The same of three bytes.
fn combines_within_bytes<O: BitOrder<u8>>() -> bool {
    combines_within_by_each::<u8, O, 3, 24>(SOURCE, bits_of::<u8, O, 24>(&SOURCE))
}

// The same of two words of 16 bits.
fn combines_within_words<O: BitOrder<u16>>() -> bool {
    let words = [0x39C6, 0x6B35];
    combines_within_by_each::<u16, O, 2, 32>(words, bits_of::<u16, O, 32>(&words))
}

#[test]
fn each_two_ranges_of_a_memory(rt: HostRuntime) {
    assert!(rt; combines_within_bytes::<Lsb0>());
    assert!(rt; combines_within_bytes::<Msb0>());
    assert!(rt; combines_within_bytes::<HiLo>());
    assert!(rt; combines_within_words::<Lsb0>());
    assert!(rt; combines_within_words::<Msb0>());
}

// Whether each combination of two words of 64 bits with themselves does, at each distance.
fn combines_at_each_distance<C: Operator, O: BitOrder<u64>>() -> bool {
    let words = [0x9E37_79B9_7F4A_7C15, 0x3C6E_F372_FE94_F82B];
    let bits = bits_of::<u64, O, 128>(&words);
    for distance in 0..128 {
        let count = 128 - distance;
        let rises = combines_within::<C, u64, O, 2, 128>(words, bits, distance, 0, count);
        if !rises || !combines_within::<C, u64, O, 2, 128>(words, bits, 0, distance, count) {
            return false;
        }
    }
    true
}

// The same of each operator.
fn combines_at_each_distance_by_each<O: BitOrder<u64>>() -> bool {
    combines_at_each_distance::<And, O>()
        && combines_at_each_distance::<Or, O>()
        && combines_at_each_distance::<Xor, O>()
        && combines_at_each_distance::<AndNot, O>()
}

#[test]
fn each_distance_in_two_words(rt: HostRuntime) {
    assert!(rt; combines_at_each_distance_by_each::<Lsb0>());
    assert!(rt; combines_at_each_distance_by_each::<Msb0>());
}
