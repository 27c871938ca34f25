//! Places in a memory that the copies go over.

ghost use Rattle.std.specs.Prelude.{◌≡◌, ⊤, ℕ, pos, nat_abs, ◌+◌, ◌-◌, ◌*◌, ◌<◌, ◌≤◌, ◌≤ℤ◌, true};
ghost use Rattle.std.specs.Prelude.{false, length, map};
ghost use Rattle.bitvec_ptr.specs.BitPtr.{ptr_of, ptr_place};
ghost use Rattle.bitvec_ptr.specs.Memory.{bit_of};

use crate::ptr::single::{BitPtr, bit_at};
use bitvec_mem::mem::BitRegister;
use bitvec_order::index::BitIdx;
use bitvec_order::order::BitOrder;
use std::alloc::AllocError;
use std::marker::PhantomData;

// A place counted from the first of a memory on: the index of a word, and that of a bit in it.
//
// It is no single number, since the places of a long memory pass the type.
#[derive_where(Copy)]
pub(super) struct Cursor<R: BitRegister> {
    pub(super) word: usize,
    pub(super) bit: u8,
    of: PhantomData<R>,
    pub ghost in_word: { bit ≤ R.BITS - 1 },
}

impl<R: BitRegister> Clone for Cursor<R> {
    ghost is_clone = { λ it copy. copy ≡ it };

    ghost is_infallible = { λ _. ⊤ };

    fn clone(&self) -> Result<Self, AllocError> {
        Ok(*self)
    }
}

impl<R: BitRegister> Cursor<R> {
    ghost use Rattle.bitvec_ptr.specs.Cursor.{cursor_place};

    // The place of a bit of a word.
    pub(super) fn new(word: usize, bit: u8) -> Self
        requires { bit < R.BITS }
        ensures word { result.word ≡ word }
        ensures bit { result.bit ≡ bit }
    {
        Cursor {
            word,
            bit,
            of: PhantomData,
        }
    }

    // The place of a pointer.
    pub(super) fn at<O>(pointer: BitPtr<R, O>) -> Self
        requires { pos 0 ≤ℤ (ptr_of pointer).word }
        ensures word { result.word ≡ nat_abs (ptr_of pointer).word }
        ensures bit { result.bit ≡ (ptr_of pointer).bit }
        ensures place { cursor_place result ≡ ptr_place pointer }
    {
        Cursor::new(pointer.address() as usize, pointer.bit().into_inner())
    }

    // The next place.
    pub(super) fn next(self) -> Self
        requires { self.word < usize.MAX }
        ensures { cursor_place result ≡ cursor_place self + 1 }
    {
        if self.bit < R::MASK {
            Cursor::new(self.word, self.bit + 1)
        } else {
            Cursor::new(self.word + 1, 0)
        }
    }

    // The place `count` places on.
    pub(super) fn advanced(self, count: usize) -> Self
        requires { cursor_place self + count < 18446744073709551616 * R.BITS }
        ensures { cursor_place result ≡ cursor_place self + count }
    {
        let width = usize::from(R::BITS);
        let bit = usize::from(self.bit) + count % width;
        Cursor::new(self.word + count / width + bit / width, (bit % width) as u8)
    }

    // The place `count * R2::BITS` places on: as far as `count` words of another register go.
    #[inline(always)]
    pub(super) fn words_on<R2: BitRegister>(self, count: usize) -> Self
        requires short { count * R2.BITS ≤ usize.MAX }
        requires inside { cursor_place self + count * R2.BITS < 18446744073709551616 * R.BITS }
        ensures place { cursor_place result ≡ cursor_place self + count * R2.BITS }
        ensures bit { R.BITS ≡ R2.BITS → result.bit ≡ self.bit }
    {
        if R::BITS == R2::BITS {
            let word = self.word + count;
            return Cursor::new(word, self.bit);
        }
        let width = usize::from(R2::BITS);
        let places = count * width;
        self.advanced(places)
    }

    // Whether the place is at or before another.
    pub(super) fn is_at_most(self, other: Self) -> bool
        ensures yes { result ≡ true → cursor_place self ≤ cursor_place other }
        ensures no { result ≡ false → cursor_place other < cursor_place self }
    {
        if self.word == other.word {
            return self.bit <= other.bit;
        }
        self.word < other.word
    }

    // The bit at the place.
    pub(super) fn read<O: BitOrder<R>>(self, memory: &[R]) -> bool
        requires { self.word < length memory.now }
        ensures { result ≡ bit_of R.BITS O.at_of (map R.number memory.now) (cursor_place self) }
    {
        bit_at::<R, O>(memory[self.word], BitIdx::new_unchecked(self.bit))
    }
}
