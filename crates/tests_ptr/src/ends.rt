//! Pointers and ranges at the ends of the number types.
//!
//! Each condition at its edge is known from the contracts alone, by a function that calls without a
//! test or says what the test returns. The answers there are lines of the program `replay`.

ghost use Rattle.std.specs.Prelude.{◌≡◌, pos, ◌-ℤ◌, IsTrue};
ghost use Rattle.bitvec_ptr.specs.BitPtr.{ptr_of};
ghost use Rattle.bitvec_ptr.specs.BitPtrRange.{range_of};
ghost use Rattle.bitvec_ptr.specs.PtrRange.{count_of};

use crate::common::{bit_at, holds, same};
use bitvec_order::order::Lsb0;
use bitvec_ptr::ptr::range::BitPtrRange;
use bitvec_ptr::ptr::single::BitPtr;

// The greatest word that a pointer a distance of an `isize` from place 0 has.
const FAR: isize = 1152921504606846975;

// Whether a step goes back from the lowest place.
fn steps_back(lowest: BitPtr<u8, Lsb0>) -> bool
    requires { ptr_of lowest ≡ record { word = isize.MIN; bit = 0 } }
    ensures { ¬ IsTrue result }
{
    lowest.can_offset(-1)
}

// The greatest distance, measured without a test.
fn greatest_distance(far: BitPtr<u8, Lsb0>, origin: BitPtr<u8, Lsb0>) -> isize
    requires far { ptr_of far ≡ record { word = pos 1152921504606846975; bit = 7 } }
    requires origin { ptr_of origin ≡ record { word = pos 0; bit = 0 } }
    ensures { result ≡ isize.MAX }
{
    far.offset_from(origin)
}

// The least distance, measured without a test.
fn least_distance(far: BitPtr<u8, Lsb0>, origin: BitPtr<u8, Lsb0>) -> isize
    requires far { ptr_of far ≡ record { word = pos 0 -ℤ pos 1152921504606846976; bit = 0 } }
    requires origin { ptr_of origin ≡ record { word = pos 0; bit = 0 } }
    ensures { result ≡ isize.MIN }
{
    far.offset_from(origin)
}

// Whether a distance past the greatest can be measured.
fn measures_past(far: BitPtr<u8, Lsb0>, origin: BitPtr<u8, Lsb0>) -> bool
    requires far { ptr_of far ≡ record { word = pos 1152921504606846976; bit = 0 } }
    requires origin { ptr_of origin ≡ record { word = pos 0; bit = 0 } }
    ensures { ¬ IsTrue result }
{
    far.can_offset_from(origin)
}

// The greatest range, made without a test.
fn greatest_range(start: BitPtr<u8, Lsb0>, end: BitPtr<u8, Lsb0>) -> BitPtrRange<u8, Lsb0>
    requires start { ptr_of start ≡ record { word = pos 0; bit = 0 } }
    requires end { ptr_of end ≡ record { word = pos 1152921504606846975; bit = 7 } }
    ensures { pos (count_of 8 (range_of result)) ≡ isize.MAX }
{
    BitPtrRange::from_range(start..end)
}

#[test]
fn each_edge_is_as_its_contract_says(rt: HostRuntime) {
    holds(&rt, !steps_back(bit_at(isize::MIN, 0)));
    let origin = bit_at(0, 0);
    let (greatest, least) = (bit_at(FAR, 7), bit_at(-1152921504606846976, 0));
    same(&rt, greatest_distance(greatest, origin), isize::MAX);
    same(&rt, least_distance(least, origin), isize::MIN);
    holds(&rt, !measures_past(bit_at(FAR + 1, 0), origin));
    let range = greatest_range(origin, greatest);
    same(&rt, range.len(), isize::MAX as usize);
}
