//! Sets of bits in two memories, and the operators.

ghost use Rattle.std.specs.Prelude.{◌≡◌, ◌↔◌, ◌||◌, IsTrue, IsFalse, length, map};
ghost use Rattle.bitvec.specs.BitSpan.{span_of, list_by};
ghost use Rattle.bitvec.specs.Memory.{zip_with};
ghost use Rattle.bitvec.specs.Span.{Fits, KeepsOthers};

use bitvec::mem::BitRegister;
use bitvec::order::{BitOrder, Lsb0, Msb0};
use bitvec::ptr::span::BitSpan;
use bitvec_slice::slice::{BitSlice, BitSliceMut};
use std::test::Fail;

/// The union of two sets, in the place of the first.
fn unite<R: BitRegister, O: BitOrder<R>, R2: BitRegister, O2: BitOrder<R2>>(
    span: BitSpan<R, O>,
    memory: &mut [R],
    other: BitSpan<R2, O2>,
    other_memory: &[R2],
) -> bool
    requires { (span_of other).len ≡ (span_of span).len }
    ensures fits { IsTrue result ↔ (Fits R.BITS (span_of span) (length memory.old)
        × Fits R2.BITS (span_of other) (length other_memory.now)) }
    ensures list { IsTrue result → list_by span O.at_of memory.new
        ≡ zip_with (λ a b. a || b) (list_by span O.at_of memory.old)
        (list_by other O2.at_of other_memory.now) }
    ensures others { KeepsOthers R.BITS O.at_of (span_of span) (map R.number memory.old)
        (map R.number memory.new) }
    ensures words { length memory.new ≡ length memory.old }
    ensures refused { IsFalse result → memory.new ≡ memory.old }
{
    if !span.fits(memory.len()) {
        return false;
    }
    let Some(source) = BitSlice::new(other, other_memory) else {
        return false;
    };
    let mut slice = BitSliceMut::new_unchecked(span, memory);
    slice.or_from(source);
    true
}

#[test]
fn two_sets_are_united(rt: HostRuntime) {
    let members = [0x8001u16];
    let other: BitSpan<u16, Msb0> = BitSpan::at(0, 16).unwrap();
    let mut memory = [0x00u8, 0x18, 0x00];
    let span: BitSpan<u8, Lsb0> = BitSpan::at(4, 16).unwrap();
    assert!(rt; unite(span, &mut memory, other, &members));
    assert_eq!(rt; memory, [0x10, 0x18, 0x08]);
    assert!(rt; !unite(span, &mut memory[..2], other, &members));
}

#[test]
fn a_difference_and_its_complement(rt: HostRuntime) -> Result<(), Fail> {
    let members = [0x3Cu8];
    let span: BitSpan<u8, Lsb0> = BitSpan::at(0, 8).unwrap();
    let other = BitSlice::new(span, &members).ok_or("outside")?;
    let mut memory = [0x0Fu8];
    let mut slice = BitSliceMut::new_unchecked(span, &mut memory);
    slice.and_not_from(other);
    let mut turned = !slice;
    turned.and_from(other);
    turned ^= other;
    turned.xor_from(other);
    drop(turned);
    assert_eq!(rt; memory, [0x3C]);
    Ok(())
}
