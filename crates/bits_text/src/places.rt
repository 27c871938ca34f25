//! Places of bits, counted from a memory's first on.

ghost use Rattle.std.specs.Prelude.{◌≡◌, ◌/◌, ◌%◌, pos};
ghost use Rattle.bitvec.specs.BitPtr.{ptr_of};

use bitvec::mem::BitRegister;
use bitvec::ptr::single::BitPtr;

/// The pointer to the bit at a place.
pub fn pointer_at<R: BitRegister, O>(at: u64) -> BitPtr<R, O>
    ensures word { (ptr_of result).word ≡ pos (at / R.BITS) }
    ensures bit { (ptr_of result).bit ≡ at % R.BITS }
{
    BitPtr::at(at as usize)
}
