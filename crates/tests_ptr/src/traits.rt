//! What equality, hash, copy and default of pointers and of their ranges are, and what their names
//! alone stand for.
//!
//! Each function does what its name says, and its contract is the promise: so a body of an impl
//! that breaks it is refused, though no contract of the layer names it.

ghost use Rattle.std.specs.Prelude.{◌≡◌, ◌↔◌, pos, IsTrue, Ok};
ghost use Rattle.bitvec_ptr.specs.BitPtr.{ptr_of};
ghost use Rattle.bitvec_ptr.specs.BitPtrRange.{range_of};

use bitvec_mem::mem::BitRegister;
use bitvec_order::order::Lsb0;
use bitvec_ptr::ptr::range::BitPtrRange;
use bitvec_ptr::ptr::single::BitPtr;
use std::alloc::AllocError;
use std::hash::{Hash, Hasher};
use std::ops::Range;

// A pointer is its word and its bit, a range its two ends.

fn equal_pointers<R: BitRegister, O>(here: BitPtr<R, O>, there: BitPtr<R, O>) -> bool
    ensures { IsTrue result ↔ (ptr_of here ≡ ptr_of there) }
{
    here == there
}

fn hash_of_a_pointer<R: BitRegister, O, H: Hasher>(
    pointer: BitPtr<R, O>,
    here: &mut H,
    there: &mut H,
)
    requires { here.old ≡ there.old }
    ensures { here.new ≡ there.new }
{
    pointer.hash(here);
    pointer.address().hash(there);
    pointer.bit().hash(there);
}

fn copied_pointer<R: BitRegister, O>(pointer: &BitPtr<R, O>) -> Result<BitPtr<R, O>, AllocError>
    ensures { result ≡ Ok pointer.now }
{
    pointer.clone()
}

fn equal_ranges<R: BitRegister, O>(here: &BitPtrRange<R, O>, there: &BitPtrRange<R, O>) -> bool
    ensures { IsTrue result ↔ (range_of here.now ≡ range_of there.now) }
{
    *here == *there
}

fn hash_of_a_range<R: BitRegister, O, H: Hasher>(
    range: &BitPtrRange<R, O>,
    here: &mut H,
    there: &mut H,
)
    requires { here.old ≡ there.old }
    ensures { here.new ≡ there.new }
{
    range.hash(here);
    range.start().hash(there);
    range.end().hash(there);
}

fn copied_range<R: BitRegister, O>(
    range: &BitPtrRange<R, O>,
) -> Result<BitPtrRange<R, O>, AllocError>
    ensures { result ≡ Ok range.now }
{
    range.clone()
}

fn ends_of_range<R: BitRegister, O>(range: BitPtrRange<R, O>) -> Range<BitPtr<R, O>>
    ensures start { ptr_of result.start ≡ (range_of range).start }
    ensures end { ptr_of result.end ≡ (range_of range).end }
{
    range.into()
}

fn default_range<R: BitRegister, O>() -> BitPtrRange<R, O>
    ensures { range_of result ≡ record {
      start = record { word = pos 0; bit = 0 };
      end = record { word = pos 0; bit = 0 };
    } }
{
    BitPtrRange::default()
}

// Without parameters each type is that of `usize` and of `Lsb0`.

fn plain_pointer(pointer: BitPtr) -> BitPtr<usize, Lsb0>
    ensures { result ≡ pointer }
{
    pointer
}

fn plain_range(range: BitPtrRange) -> BitPtrRange<usize, Lsb0>
    ensures { result ≡ range }
{
    range
}
