//! What the tests share. Each is proved once, so a test that calls it costs less than one that
//! compares and branches of its own.

ghost use Rattle.std.specs.Prelude.{◌≡◌, ◌<◌, IsTrue};
ghost use Rattle.bitvec_ptr.specs.BitPtr.{ptr_of};

use bitvec_mem::mem::BitRegister;
use bitvec_order::index::BitIdx;
use bitvec_ptr::ptr::single::BitPtr;
use std::fmt::Debug;
use std::process::Abort;

/// Fails where two values differ, and shows both.
pub fn same<T: PartialEq + Debug + Drop>(rt: &impl Abort, found: T, wanted: T) {
    assert_eq!(rt; found, wanted);
}

/// Fails where a condition does not hold.
pub fn holds(rt: &impl Abort, condition: bool)
    ensures { IsTrue condition }
{
    assert!(rt; condition);
}

/// The pointer to a bit of a word.
pub fn bit_at<R: BitRegister, O>(word: isize, bit: u8) -> BitPtr<R, O>
    requires { bit < R.BITS }
    ensures { ptr_of result ≡ record { word = word; bit = bit } }
{
    BitPtr::new(word, BitIdx::new_unchecked(bit))
}

/// Its word and its bit.
pub fn parts<R: BitRegister, O>(pointer: BitPtr<R, O>) -> (isize, u8) {
    let (word, bit) = pointer.raw_parts();
    (word, bit.into_inner())
}
