//! Edits at the end of a vector.

ghost use Rattle.std.specs.Prelude.{◌≡◌, ◌≤◌, ◌<◌, ◌+◌, ◌-◌, ◌∷◌, ◌++◌, [], is_ok, if◌then◌else◌};
ghost use Rattle.std.specs.Prelude.{length, take, replicate, OnOk, OnErr, MatchOption};

use crate::vec::BitVec;
use crate::vec::front::{make_room, put_last, words_of_bits};
use bitvec::mem::BitRegister;
use bitvec::order::BitOrder;
use std::alloc::{AllocError, Allocator};

impl<R: BitRegister, O: BitOrder<R>, A: Allocator> BitVec<R, O, A> {
    ghost use Rattle.bitvec_vec.specs.BitVec.{vec_bits, bit_capacity};

    /// Puts a bit behind the others.
    ///
    /// Where memory is refused, the list is as it was. Constant time where there is room
    /// ([`capacity`](BitVec::capacity)); else one request to the allocator, and a copy of the words
    /// where it gives another place.
    ///
    /// # Examples
    ///
    /// ```
    /// let mut bits = BitVec::<u16, Lsb0>::new(rt.alloc());
    /// bits.push(true)?;
    /// assert_eq!(rt; bits.get(0), Some(true));
    /// ```
    #[inline(always)]
    pub fn push(&mut self, bit: bool) -> Result<(), AllocError>
        ensures bits { vec_bits self.new
            ≡ (if is_ok result then vec_bits self.old ++ bit ∷ [] else vec_bits self.old) }
        ensures capacity { bit_capacity self.old ≤ bit_capacity self.new }
        ensures full { OnErr result (bit_capacity self.old ≤ length (vec_bits self.old)) }
    {
        let len = self.len;
        make_room(&mut self.words, len)?;
        put_last::<R, O>(self.words.as_mut_slice(), len, bit);
        self.len = len + 1;
        Ok(())
    }

    /// Takes the last bit away and returns it, and `None` where there are no bits. Constant time.
    #[inline(always)]
    pub fn pop(&mut self) -> Option<bool>
        ensures bits { MatchOption result ((vec_bits self.old ≡ []) × (vec_bits self.new ≡ []))
            (λ bit. vec_bits self.old ≡ vec_bits self.new ++ bit ∷ []) }
        ensures capacity { bit_capacity self.new ≡ bit_capacity self.old }
    {
        let len = self.len;
        if len == 0 {
            return None;
        }
        let last = self.get_unchecked(len - 1);
        self.truncate(len - 1);
        Some(last)
    }

    /// Takes away the bits from number `len` on, and does nothing where there are none. Constant
    /// time.
    pub fn truncate(&mut self, len: usize)
        ensures bits { vec_bits self.new ≡ take len (vec_bits self.old) }
        ensures capacity { bit_capacity self.new ≡ bit_capacity self.old }
    {
        if self.len <= len {
            return;
        }
        self.words.truncate(words_of_bits::<R>(len));
        self.len = len;
    }

    /// Takes all bits away. The memory stays. Constant time.
    pub fn clear(&mut self)
        ensures bits { vec_bits self.new ≡ [] }
        ensures capacity { bit_capacity self.new ≡ bit_capacity self.old }
    {
        self.truncate(0);
    }
}
