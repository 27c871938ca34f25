//! Room for more bits, and appends of more than one.

ghost use Rattle.std.specs.Prelude.{◌≡◌, ◌≤◌, ◌<◌, ◌+◌, ◌-◌, ◌++◌, is_ok, if◌then◌else◌};
ghost use Rattle.std.specs.Prelude.{length, take, replicate, OnOk, OnErr};

use crate::vec::BitVec;
use crate::vec::front::{MOST, fit_words, words_of_bits};
use bitvec::mem::BitRegister;
use bitvec::order::BitOrder;
use bitvec_slice::slice::BitSlice;
use std::alloc::{AllocError, Allocator};

impl<R: BitRegister, O: BitOrder<R>, A: Allocator> BitVec<R, O, A> {
    ghost use Rattle.bitvec_slice.specs.BitSlice.{slice_bits};
    ghost use Rattle.bitvec_vec.specs.BitVec.{vec_bits, bit_capacity};

    /// Makes room for `additional` more bits: these can be put behind the others, and no memory is
    /// asked for.
    ///
    /// It refuses where memory is refused, or where there would be more than 2305843009213693951
    /// bits, and then the room stays too. The list stays, whatever the answer. Costs at most one
    /// request to the allocator, and a copy of the words where it gives another place.
    pub fn reserve(&mut self, additional: usize) -> Result<(), AllocError>
        ensures bits { vec_bits self.new ≡ vec_bits self.old }
        ensures ok { OnOk result
            (length (vec_bits self.old) + additional ≤ bit_capacity self.new) }
        ensures capacity { bit_capacity self.old ≤ bit_capacity self.new }
        ensures full { OnErr result
            (bit_capacity self.old < length (vec_bits self.old) + additional) }
        ensures refused { OnErr result (bit_capacity self.new ≡ bit_capacity self.old) }
    {
        if MOST - self.len < additional {
            return Err(AllocError);
        }
        let words = words_of_bits::<R>(self.len + additional);
        self.words.reserve(words - self.words.len())
    }

    // Makes the vector longer by `count` bits, which may be anything.
    pub(crate) fn lengthen(&mut self, count: usize) -> Result<(), AllocError>
        ensures begins { take (length (vec_bits self.old)) (vec_bits self.new)
            ≡ vec_bits self.old }
        ensures len { length (vec_bits self.new) ≡ (if is_ok result
            then length (vec_bits self.old) + count else length (vec_bits self.old)) }
        ensures capacity { bit_capacity self.old ≤ bit_capacity self.new }
        ensures full { OnErr result
            (bit_capacity self.old < length (vec_bits self.old) + count) }
        ensures refused { OnErr result (bit_capacity self.new ≡ bit_capacity self.old) }
    {
        if MOST - self.len < count {
            return Err(AllocError);
        }
        let len = self.len + count;
        fit_words(&mut self.words, self.len, len)?;
        self.len = len;
        Ok(())
    }

    /// Makes the length `len`: takes away the bits behind it, or puts copies of `bit` behind the
    /// others.
    ///
    /// Where memory is refused, the list and the room are as they were. Costs by the words that are
    /// new.
    ///
    /// # Examples
    ///
    /// ```
    /// let mut bits = BitVec::<u8, Lsb0>::repeat(rt.alloc(), false, 2)?;
    /// bits.resize(5, true)?;
    /// let text = format!(in rt.alloc(); "{}", bits.as_bitslice())?;
    /// assert_eq!(rt; text.as_str(), "00111");
    /// bits.resize(1, true)?;
    /// assert_eq!(rt; bits.len(), 1);
    /// ```
    pub fn resize(&mut self, len: usize, bit: bool) -> Result<(), AllocError>
        ensures bits { let xs = vec_bits self.old in vec_bits self.new
            ≡ (if is_ok result then take len xs ++ replicate (len - length xs) bit else xs) }
        ensures capacity { bit_capacity self.old ≤ bit_capacity self.new }
        ensures full { OnErr result (bit_capacity self.old < len) }
        ensures refused { OnErr result (bit_capacity self.new ≡ bit_capacity self.old) }
    {
        let from = self.len;
        if len <= from {
            self.truncate(len);
            return Ok(());
        }
        self.lengthen(len - from)?;
        self.fill_range(from, len, bit);
        Ok(())
    }

    /// Puts the bits of a slice, of any register and order, behind the others.
    ///
    /// Where memory is refused, the list and the room are as they were. By words where the
    /// positions of both orders rise or those of both fall, else by bits.
    ///
    /// # Examples
    ///
    /// ```
    /// let memory = [0b1011u8];
    /// let span: BitSpan<u8, Lsb0> = BitSpan::at(0, 4).unwrap();
    /// let slice = BitSlice::new(span, &memory).ok_or("outside")?;
    /// let mut bits = BitVec::<u16, Msb0>::repeat(rt.alloc(), false, 2)?;
    /// bits.extend_from_bitslice(slice)?;
    /// let text = format!(in rt.alloc(); "{}", bits.as_bitslice())?;
    /// assert_eq!(rt; text.as_str(), "001101");
    /// ```
    pub fn extend_from_bitslice<R2: BitRegister, O2: BitOrder<R2>>(
        &mut self,
        slice: BitSlice<'_, R2, O2>,
    ) -> Result<(), AllocError>
        ensures bits { vec_bits self.new ≡ (if is_ok result
            then vec_bits self.old ++ slice_bits slice.entry else vec_bits self.old) }
        ensures capacity { bit_capacity self.old ≤ bit_capacity self.new }
        ensures full { OnErr result (bit_capacity self.old
            < length (vec_bits self.old) + length (slice_bits slice.entry)) }
        ensures refused { OnErr result (bit_capacity self.new ≡ bit_capacity self.old) }
    {
        let from = self.len;
        self.lengthen(slice.len())?;
        self.copy_from_range(from, slice);
        Ok(())
    }
}
