//! Parts of one memory.

ghost use Rattle.std.specs.Prelude.{◌≡◌, ◌<◌, [], ◌∷◌, length, map, replicate, slice_set, true};
ghost use Rattle.bitvec.specs.BitSpan.{span_of};
ghost use Rattle.bitvec.specs.Run.{CanRun};
ghost use Rattle.bitvec.specs.Span.{list_of};
ghost use Rattle.tests_bits.specs.Beside.{KeepsBitsBeside, KeepsListsBeside};

use bits_lib::view::Parts;
use bitvec::mem::BitRegister;
use bitvec::order::{BitOrder, Lsb0};
use bitvec::ptr::span::BitSpan;
use bitvec::run::can_run;

// The span of `len` bits from a place of a memory of `u8` on.
fn span_at(start: u8, len: usize) -> BitSpan<u8, Lsb0> {
    BitSpan::at(usize::from(start), len).unwrap_or_default()
}

// Sixteen bits, split at 8 and each half at 4.
fn nibbles() -> [BitSpan<u8, Lsb0>; 4] {
    let whole: BitSpan<u8, Lsb0> = BitSpan::at_unchecked(0, 16);
    let (low, high) = whole.split_at(8);
    let (first, second) = low.split_at(4);
    let (third, fourth) = high.split_at(4);
    [first, second, third, fourth]
}

// Whether the first two parts are the same after one bit of each part is set, and after the first
// two are filled, with the memory of a view that ends before the fill.
fn written() -> Option<(bool, bool, [u8; 2], [u8; 2])> {
    let mut memory = [0u8, 0];
    let mut set = Parts::new(&mut memory, nibbles())?;
    for part in 0..4 {
        if part < set.len(part) {
            set.set(part, part, true);
        }
    }
    let before = set.same(0, 1);
    drop(set);
    let between = memory;
    let mut filled = Parts::new(&mut memory, nibbles())?;
    for part in 0..2 {
        let len = filled.len(part);
        filled.fill(part, 0, len, true);
    }
    let after = filled.same(0, 1);
    drop(filled);
    Some((before, after, between, memory))
}

#[test]
fn bits_are_set_and_parts_are_filled(rt: HostRuntime) {
    assert_eq!(rt; written(), Some((false, true, [0x21, 0x84], [0xFF, 0x84])));
}

// The bits of a part of a memory.
fn bits_of(memory: &mut [u8; 2], part: usize) -> Option<[bool; 4]>
    requires { part < 4 }
{
    let parts = Parts::new(memory, nibbles())?;
    let mut bits = [false; 4];
    for i in 0..4 {
        if i < parts.len(part) {
            bits[i] = parts.get(part, i);
        }
    }
    Some(bits)
}

#[test]
fn bits_are_read(rt: HostRuntime) {
    let mut memory = [0x21, 0x84];
    let bits = [
        bits_of(&mut memory, 0),
        bits_of(&mut memory, 1),
        bits_of(&mut memory, 2),
        bits_of(&mut memory, 3),
    ];
    assert_eq!(rt;
        bits,
        [
            Some([true, false, false, false]),
            Some([false, true, false, false]),
            Some([false, false, true, false]),
            Some([false, false, false, true])
        ]
    );
}

// A memory after stretches of its parts are filled.
fn filled() -> Option<[u8; 2]> {
    let mut memory = [0u8, 0xFF];
    let mut parts = Parts::new(&mut memory, [span_at(2, 8), span_at(10, 2)])?;
    if parts.len(0) != 8 || parts.len(1) != 2 {
        return None;
    }
    parts.fill(0, 1, 5, true);
    parts.fill(0, 7, 8, false);
    parts.fill(1, 1, 1, false);
    drop(parts);
    Some(memory)
}

#[test]
fn a_stretch_inside_a_part_is_filled(rt: HostRuntime) {
    assert_eq!(rt; filled(), Some([0x78, 0xFD]));
}

#[test]
fn spans_that_overlap_or_do_not_fit_are_refused(rt: HostRuntime) {
    let mut memory = [0u8, 0];
    for (a, b, is_lent) in [
        (span_at(0, 4), span_at(3, 4), false),
        (span_at(0, 4), span_at(4, 13), false),
        (span_at(0, 4), span_at(4, 12), true),
        (span_at(4, 12), span_at(0, 4), true),
        (span_at(3, 0), span_at(0, 16), true),
    ] {
        assert_eq!(rt; Parts::new(&mut memory, [a, b]).is_some(), is_lent);
    }
}

// Sets a bit of one part and fills another, and knows the whole memory when the view is gone, and
// the list of each span beside the parts.
fn write_two_parts<R: BitRegister, O: BitOrder<R>>(
    memory: &mut [R],
    a: BitSpan<R, O>,
    b: BitSpan<R, O>,
)
    requires can_run { CanRun R.BITS span_of (a ∷ b ∷ []) (length memory.old) }
    requires inside { 1 < (span_of a).len }
    ensures first { list_of R.BITS O.at_of (span_of a) (map R.number memory.new)
        ≡ slice_set (list_of R.BITS O.at_of (span_of a) (map R.number memory.old)) 1 true }
    ensures second { list_of R.BITS O.at_of (span_of b) (map R.number memory.new)
        ≡ replicate (span_of b).len true }
    ensures others { KeepsBitsBeside R.BITS O.at_of (span_of a ∷ span_of b ∷ [])
        (map R.number memory.old) (map R.number memory.new) }
    ensures apart { KeepsListsBeside R.BITS O.at_of (span_of a ∷ span_of b ∷ [])
        (map R.number memory.old) (map R.number memory.new) }
    ensures words { length memory.new ≡ length memory.old }
{
    let mut parts = Parts::new_unchecked(memory, [a, b]);
    parts.set(0, 1, true);
    let len = parts.len(1);
    parts.fill(1, 0, len, true);
}

// A memory after two of its parts are written.
fn two_parts() -> Option<[u8; 2]> {
    let mut memory = [0x81u8, 0];
    let (a, b) = (span_at(4, 3), span_at(7, 4));
    if !can_run(&[a, b], memory.len()) || a.len() <= 1 {
        return None;
    }
    write_two_parts(&mut memory, a, b);
    Some(memory)
}

#[test]
fn two_parts_are_written(rt: HostRuntime) {
    assert_eq!(rt; two_parts(), Some([0xA1, 0x07]));
}
