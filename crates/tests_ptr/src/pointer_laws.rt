//! Laws of pointers, read off the contracts of the calls that each names.

ghost use Rattle.std.specs.Prelude.{◌≡◌, pos, neg_ℤ, ◌+◌, ◌+ℤ◌, ◌≤ℤ◌, ◌<ℤ◌, ◌↔◌, IsTrue};
ghost use Rattle.std.specs.Ordering.{MatchOrdering};
ghost use Rattle.std.specs.Int.{w64, int_wrap};
ghost use Rattle.bitvec_ptr.specs.BitPtr.{ptr_of};
ghost use Rattle.bitvec_ptr.specs.Place.{Ptr, place_of};
ghost use Rattle.bitvec_ptr.specs.Steps.{CanOffset, distance, wrapped_ptr};

use crate::common::{bit_at, holds, parts, same};
use bitvec_mem::mem::BitRegister;
use bitvec_order::order::Lsb0;
use bitvec_ptr::ptr::single::BitPtr;
use std::cmp::Ordering;

/// How far a pointer has come by a step is the step's count.
///
/// It is so of any pointer whose place is as many bits on as the step says.
fn offset_from_undoes_offset<R: BitRegister, O>(pointer: BitPtr<R, O>, count: isize) -> isize
    requires { CanOffset R.BITS (ptr_of pointer) count }
    ensures answer { result ≡ count }
    ensures law { (moved : Ptr) → place_of R.BITS moved ≡ place_of R.BITS (ptr_of pointer) +ℤ count
        → distance R.BITS moved (ptr_of pointer) ≡ count }
{
    pointer.offset(count).offset_from(pointer)
}

/// A step that wraps and the same step back end where they began, where the bit and the count have
/// a sum that is an `isize`.
fn wrapping_sub_undoes_wrapping_add<R: BitRegister, O>(
    pointer: BitPtr<R, O>,
    count: usize,
) -> BitPtr<R, O>
    requires { pos ((ptr_of pointer).bit + count) ≤ℤ isize.MAX }
    ensures answer { ptr_of result ≡ ptr_of pointer }
    ensures law { wrapped_ptr R.BITS
        (wrapped_ptr R.BITS (ptr_of pointer) (int_wrap w64 (pos count)))
        (int_wrap w64 (neg_ℤ (pos count))) ≡ ptr_of pointer }
{
    pointer.wrapping_add(count).wrapping_sub(count)
}

/// Pointers compare as their places do.
fn pointers_compare_as_places<R: BitRegister, O>(
    here: BitPtr<R, O>,
    there: BitPtr<R, O>,
) -> Ordering
    ensures { let a = place_of R.BITS (ptr_of here) in let b = place_of R.BITS (ptr_of there)
        in MatchOrdering result (a <ℤ b) (a ≡ b) (b <ℤ a) }
{
    here.cmp(&there)
}

/// Pointers are equal exactly where they have one place.
fn pointers_are_equal_at_one_place<R: BitRegister, O>(
    here: BitPtr<R, O>,
    there: BitPtr<R, O>,
) -> bool
    ensures { IsTrue result ↔ (place_of R.BITS (ptr_of here) ≡ place_of R.BITS (ptr_of there)) }
{
    here == there
}

#[test]
fn steps_and_places_of_pointers(rt: HostRuntime) {
    let pointer = bit_at::<u8, Lsb0>(2, 5);
    same(&rt, offset_from_undoes_offset(pointer, -30), -30);
    let back = wrapping_sub_undoes_wrapping_add(pointer, 100);
    same(&rt, parts(back), (2, 5));
    let next = pointer.add(1);
    same(
        &rt,
        pointers_compare_as_places(pointer, next),
        Ordering::Less,
    );
    holds(&rt, !pointers_are_equal_at_one_place(pointer, next));
}
