//! Two sets, a bit each for what they may have: their union and their intersection, and which of
//! them is a subset.

ghost use Rattle.std.specs.Prelude.{◌≡◌, ◌||◌, ◌&&◌, IsTrue};
ghost use Rattle.bitvec.specs.Memory.{zip_with};
ghost use Rattle.bitvec_slice.specs.BitSlice.{slice_len, slice_bits};
ghost use Rattle.bitvec_slice.specs.BitSliceMut.{lent_len, lent_bits, BecomesBits};

use bitvec::mem::BitRegister;
use bitvec::order::{BitOrder, Lsb0, Msb0};
use bitvec_slice::slice::{BitSlice, BitSliceMut};

/// Adds a set to another, and answers whether it is a subset of that now.
fn unite<'a, R: BitRegister, O: BitOrder<R>, R2: BitRegister, O2: BitOrder<R2>>(
    set: &mut BitSliceMut<'a, R, O>,
    other: BitSlice<'_, R2, O2>,
) -> bool
    requires { slice_len other ≡ lent_len set.old }
    ensures united { BecomesBits set.old set.new
        (zip_with (λ a b. a || b) (lent_bits set.old) (slice_bits other.entry)) }
    ensures subset { IsTrue result }
{
    set.or_from(other);
    other.is_subset(&set.as_bitslice())
}

/// Leaves in a set what another has too, and answers whether it is a subset of that now.
fn intersect<'a, R: BitRegister, O: BitOrder<R>, R2: BitRegister, O2: BitOrder<R2>>(
    set: &mut BitSliceMut<'a, R, O>,
    other: BitSlice<'_, R2, O2>,
) -> bool
    requires { slice_len other ≡ lent_len set.old }
    ensures common { BecomesBits set.old set.new
        (zip_with (λ a b. a && b) (lent_bits set.old) (slice_bits other.entry)) }
    ensures subset { IsTrue result }
{
    set.and_from(other);
    set.as_bitslice().is_subset(&other)
}

#[test]
fn sets_grow_and_shrink(rt: HostRuntime) {
    let others = [0x8003u16];
    let other = BitSlice::<u16, Lsb0>::all_unchecked(&others);
    let mut bytes = [0x40u8, 0x00];
    let mut set = BitSliceMut::<u8, Msb0>::all_unchecked(&mut bytes);
    assert!(rt; unite(&mut set, other));
    assert!(rt; intersect(&mut set, other));
    drop(set);
    assert_eq!(rt; bytes, [0xC0, 0x01]);
}
