//! Sets of bits: a vector combined with a slice, or turned over.

ghost use Rattle.std.specs.Prelude.{◌≡◌, ◌≤◌, ◌&&◌, ◌||◌, not, length, map};
ghost use Rattle.bitvec.specs.Digit.{exclusive_or};
ghost use Rattle.bitvec.specs.Memory.{zip_with};
ghost use Rattle.bitvec.specs.Place.{region_max_bits};
ghost use Rattle.bitvec_slice.specs.BitSlice.{slice_len, slice_bits};
ghost use Rattle.bitvec_vec.specs.Front.{front_of, words_for};

use crate::vec::BitVec;
use crate::vec::front::span_of_front;
use bitvec::mem::BitRegister;
use bitvec::order::BitOrder;
use bitvec::ptr::combine::{And, AndNot, Combine, Or, Xor};
use bitvec::ptr::span::BitSpan;
use bitvec_slice::slice::{BitSlice, BitSliceMut};
use std::alloc::Allocator;

// Combines the bits of a slice with the first `len` of some words.
fn combine_slice<C: Combine, R: BitRegister, O: BitOrder<R>, R2: BitRegister, O2: BitOrder<R2>>(
    words: &mut [R],
    len: usize,
    source: BitSlice<'_, R2, O2>,
)
    requires short { len ≤ region_max_bits }
    requires room { words_for R.BITS len ≤ length words.old }
    requires same { slice_len source ≡ len }
    ensures { let bits = front_of R.BITS O.at_of R.number len in bits words.new
        ≡ zip_with C.of (bits words.old) (slice_bits source.entry) }
{
    let span: BitSpan<R, O> = span_of_front(len);
    let mut bits = BitSliceMut::new_unchecked(span, words);
    bits.combine_from::<C, R2, O2>(source);
}

impl<R: BitRegister, O: BitOrder<R>, A: Allocator> BitVec<R, O, A> {
    ghost use Rattle.bitvec_vec.specs.BitVec.{vec_bits, bit_capacity};

    /// Combines the bits of a slice, of any register and order, with the vector's: each bit becomes
    /// what `C` makes of it and of the slice's bit of that number.
    ///
    /// Requires that the slice has the vector's length. By words where the positions of both orders
    /// rise or those of both fall, else by bits. Not in the Rust crate.
    ///
    /// # Examples
    ///
    /// ```
    /// let mut bits = BitVec::<u8, Msb0>::from_text(rt.alloc(), "001110")?;
    /// let memory = [0b010110u16];
    /// let span: BitSpan<u16, Lsb0> = BitSpan::at(0, 6).unwrap();
    /// let other = BitSlice::new(span, &memory).ok_or("outside")?;
    /// if bits.len() == other.len() {
    ///     bits.combine_from::<AndNot, u16, Lsb0>(other);
    /// }
    /// assert_eq!(rt; format!(in rt.alloc(); "{bits}")?.as_str(), "000100");
    /// ```
    pub fn combine_from<C: Combine, R2: BitRegister, O2: BitOrder<R2>>(
        &mut self,
        source: BitSlice<'_, R2, O2>,
    )
        requires { length (slice_bits source) ≡ length (vec_bits self.old) }
        ensures bits { vec_bits self.new
            ≡ zip_with C.of (vec_bits self.old) (slice_bits source.entry) }
        ensures capacity { bit_capacity self.new ≡ bit_capacity self.old }
    {
        combine_slice::<C, R, O, R2, O2>(self.words.as_mut_slice(), self.len, source);
    }

    /// Leaves set those bits whose bit in a slice is set: the intersection of two sets.
    ///
    /// Requires that the slice has the vector's length; it may be of any register and order. Costs
    /// as [`combine_from`](BitVec::combine_from) does. Not in the Rust crate, for `&=` between
    /// vectors of one length.
    ///
    /// # Examples
    ///
    /// ```
    /// let mut bits = BitVec::<u8, Lsb0>::from_text(rt.alloc(), "0011")?;
    /// let other = BitVec::<u32, Msb0>::from_text(rt.alloc(), "0101")?;
    /// if bits.len() == other.len() {
    ///     bits.and_from(other.as_bitslice());
    /// }
    /// assert_eq!(rt; format!(in rt.alloc(); "{bits}")?.as_str(), "0001");
    /// ```
    pub fn and_from<R2: BitRegister, O2: BitOrder<R2>>(&mut self, source: BitSlice<'_, R2, O2>)
        requires { length (slice_bits source) ≡ length (vec_bits self.old) }
        ensures bits { vec_bits self.new
            ≡ zip_with (λ t s. t && s) (vec_bits self.old) (slice_bits source.entry) }
        ensures capacity { bit_capacity self.new ≡ bit_capacity self.old }
    {
        self.combine_from::<And, R2, O2>(source);
    }

    /// Sets those bits whose bit in a slice is set: the union of two sets.
    ///
    /// Requires that the slice has the vector's length; it may be of any register and order. Costs
    /// as [`combine_from`](BitVec::combine_from) does. Not in the Rust crate, for `|=` between
    /// vectors of one length.
    pub fn or_from<R2: BitRegister, O2: BitOrder<R2>>(&mut self, source: BitSlice<'_, R2, O2>)
        requires { length (slice_bits source) ≡ length (vec_bits self.old) }
        ensures bits { vec_bits self.new
            ≡ zip_with (λ t s. t || s) (vec_bits self.old) (slice_bits source.entry) }
        ensures capacity { bit_capacity self.new ≡ bit_capacity self.old }
    {
        self.combine_from::<Or, R2, O2>(source);
    }

    /// Turns over those bits whose bit in a slice is set: the symmetric difference of two sets.
    ///
    /// Requires that the slice has the vector's length; it may be of any register and order. Costs
    /// as [`combine_from`](BitVec::combine_from) does. Not in the Rust crate, for `^=` between
    /// vectors of one length.
    pub fn xor_from<R2: BitRegister, O2: BitOrder<R2>>(&mut self, source: BitSlice<'_, R2, O2>)
        requires { length (slice_bits source) ≡ length (vec_bits self.old) }
        ensures bits { vec_bits self.new
            ≡ zip_with exclusive_or (vec_bits self.old) (slice_bits source.entry) }
        ensures capacity { bit_capacity self.new ≡ bit_capacity self.old }
    {
        self.combine_from::<Xor, R2, O2>(source);
    }

    /// Clears those bits whose bit in a slice is set: the difference of two sets.
    ///
    /// Requires that the slice has the vector's length; it may be of any register and order. Costs
    /// as [`combine_from`](BitVec::combine_from) does. Not in the Rust crate.
    pub fn and_not_from<R2: BitRegister, O2: BitOrder<R2>>(&mut self, source: BitSlice<'_, R2, O2>)
        requires { length (slice_bits source) ≡ length (vec_bits self.old) }
        ensures bits { vec_bits self.new
            ≡ zip_with (λ t s. t && not s) (vec_bits self.old) (slice_bits source.entry) }
        ensures capacity { bit_capacity self.new ≡ bit_capacity self.old }
    {
        self.combine_from::<AndNot, R2, O2>(source);
    }

    /// Turns each bit over, word by word. As `!` in the Rust crate, but in place.
    ///
    /// # Examples
    ///
    /// ```
    /// let mut bits = BitVec::<u8, Msb0>::from_text(rt.alloc(), "0011100111")?;
    /// bits.invert();
    /// assert_eq!(rt; format!(in rt.alloc(); "{bits}")?.as_str(), "1100011000");
    /// ```
    pub fn invert(&mut self)
        ensures bits { vec_bits self.new ≡ map not (vec_bits self.old) }
        ensures capacity { bit_capacity self.new ≡ bit_capacity self.old }
    {
        let span: BitSpan<R, O> = span_of_front(self.len);
        span.invert(self.words.as_mut_slice());
    }
}
