//! Bits put in and taken out in the midst of a vector, and vectors joined and cut.

ghost use Rattle.std.specs.Prelude.{◌≡◌, ◌≤◌, ◌<◌, ◌+◌, ◌++◌, [], is_ok, if◌then◌else◌, false};
ghost use Rattle.std.specs.Prelude.{length, take, drop, OnErr, IfOk, IsOk};
ghost use Rattle.std.specs.List.{insert, remove, swap_remove};
ghost use Rattle.bitvec.specs.Span.{element};

use crate::vec::BitVec;
use bitvec::mem::BitRegister;
use bitvec::order::BitOrder;
use std::alloc::{AllocError, Allocator};

impl<R: BitRegister, O: BitOrder<R>, A: Allocator> BitVec<R, O, A> {
    ghost use Rattle.bitvec_vec.specs.BitVec.{vec_bits, bit_capacity};

    /// Puts a bit before bit `i`, or behind all bits where `i` is the length. Requires that `i` is
    /// at most the length: [`len`](BitVec::len) is the test.
    ///
    /// Where memory is refused, the list and the room are as they were. Costs by the words of the
    /// bits behind where the order's positions rise or fall, else by these bits.
    ///
    /// # Examples
    ///
    /// ```
    /// let mut bits = BitVec::<usize, Lsb0>::repeat(rt.alloc(), false, 5)?;
    /// assert_eq!(rt; bits.len(), 5);
    /// bits.insert(4, true)?;
    /// assert_eq!(rt; format!(in rt.alloc(); "{bits}")?.as_str(), "000010");
    /// bits.insert(2, true)?;
    /// assert_eq!(rt; format!(in rt.alloc(); "{bits}")?.as_str(), "0010010");
    /// ```
    pub fn insert(&mut self, i: usize, bit: bool) -> Result<(), AllocError>
        requires { i ≤ length (vec_bits self.old) }
        ensures bits { vec_bits self.new ≡ (if is_ok result
            then insert (vec_bits self.old) i bit else vec_bits self.old) }
        ensures capacity { bit_capacity self.old ≤ bit_capacity self.new }
        ensures full { OnErr result (bit_capacity self.old ≤ length (vec_bits self.old)) }
        ensures refused { OnErr result (bit_capacity self.new ≡ bit_capacity self.old) }
    {
        let len = self.len;
        self.lengthen(1)?;
        self.copy_within(i..len, i + 1);
        self.set(i, bit);
        Ok(())
    }

    /// Takes bit `i` away and returns it; those behind it move up by one. Requires that there is
    /// one: [`len`](BitVec::len) is the test. Costs by the words of the bits behind where the
    /// order's positions rise or fall, else by these bits.
    ///
    /// # Examples
    ///
    /// ```
    /// let mut bits = BitVec::<u8, Lsb0>::repeat(rt.alloc(), false, 4)?;
    /// assert_eq!(rt; bits.len(), 4);
    /// bits.insert(2, true)?;
    /// assert_eq!(rt; bits.len(), 5);
    /// assert!(rt; bits.remove(2));
    /// assert_eq!(rt; format!(in rt.alloc(); "{bits}")?.as_str(), "0000");
    /// ```
    pub fn remove(&mut self, i: usize) -> bool
        requires { i < length (vec_bits self.old) }
        ensures removed { result ≡ element (vec_bits self.old) i }
        ensures bits { vec_bits self.new ≡ remove (vec_bits self.old) i }
        ensures capacity { bit_capacity self.new ≡ bit_capacity self.old }
    {
        let len = self.len;
        let bit = self.get_unchecked(i);
        self.copy_within(i + 1..len, i);
        self.truncate(len - 1);
        bit
    }

    /// Takes bit `i` away and returns it, and puts the last bit in its place. Requires that there
    /// is one: [`len`](BitVec::len) is the test. Constant time.
    ///
    /// # Examples
    ///
    /// ```
    /// let mut bits = BitVec::<u8, Msb0>::repeat(rt.alloc(), false, 4)?;
    /// bits.push(true)?;
    /// assert_eq!(rt; bits.len(), 5);
    /// assert!(rt; !bits.swap_remove(1));
    /// assert_eq!(rt; format!(in rt.alloc(); "{bits}")?.as_str(), "0100");
    /// ```
    pub fn swap_remove(&mut self, i: usize) -> bool
        requires { i < length (vec_bits self.old) }
        ensures removed { result ≡ element (vec_bits self.old) i }
        ensures bits { vec_bits self.new ≡ swap_remove (vec_bits self.old) i false }
        ensures capacity { bit_capacity self.new ≡ bit_capacity self.old }
    {
        let last = self.len - 1;
        let bit = self.get_unchecked(i);
        self.swap(i, last);
        self.truncate(last);
        bit
    }

    /// Puts the bits of another vector, of any register and order, behind the others, and leaves it
    /// with none.
    ///
    /// Where memory is refused, both lists and their room are as they were. Costs as
    /// [`extend_from_bitslice`](BitVec::extend_from_bitslice) does.
    ///
    /// # Examples
    ///
    /// ```
    /// let mut bits = BitVec::<u16, Msb0>::repeat(rt.alloc(), false, 10)?;
    /// let mut more = BitVec::<u32, Lsb0>::repeat(rt.alloc(), true, 10)?;
    /// bits.append(&mut more)?;
    /// assert_eq!(rt; bits.len(), 20);
    /// assert_eq!(rt; bits.as_bitslice().count_ones(), 10);
    /// assert!(rt; more.is_empty());
    /// ```
    pub fn append<R2: BitRegister, O2: BitOrder<R2>, A2: Allocator>(
        &mut self,
        other: &mut BitVec<R2, O2, A2>,
    ) -> Result<(), AllocError>
        ensures bits { vec_bits self.new ≡ (if is_ok result
            then vec_bits self.old ++ vec_bits other.old else vec_bits self.old) }
        ensures other { vec_bits other.new ≡ (if is_ok result then [] else vec_bits other.old) }
        ensures room { bit_capacity other.new ≡ bit_capacity other.old }
        ensures capacity { bit_capacity self.old ≤ bit_capacity self.new }
        ensures full { OnErr result (bit_capacity self.old
            < length (vec_bits self.old) + length (vec_bits other.old)) }
        ensures refused { OnErr result (bit_capacity self.new ≡ bit_capacity self.old) }
    {
        self.extend_from_bitslice(other.as_bitslice())?;
        other.clear();
        Ok(())
    }
}

impl<R: BitRegister, O: BitOrder<R>, A: Allocator + Clone> BitVec<R, O, A> {
    ghost use Rattle.bitvec_vec.specs.BitVec.{vec_bits, bit_capacity, bit_allocator};

    /// Takes the bits from number `at` on away, and returns them as a vector of their own. Requires
    /// that `at` is at most the length: [`len`](BitVec::len) is the test.
    ///
    /// Where memory is refused, and so where the copy of the allocator is, the list is as it was.
    /// Where `at` is the length there are no bits to copy, and it never refuses if the copy of the
    /// allocator cannot fail. Costs by words where the order's positions rise or fall, else by
    /// bits.
    ///
    /// # Examples
    ///
    /// ```
    /// let mut bits = BitVec::<u8, Lsb0>::repeat(rt.alloc(), false, 2)?;
    /// bits.push(true)?;
    /// assert_eq!(rt; bits.len(), 3);
    /// let rest = bits.split_off(1)?;
    /// assert_eq!(rt; format!(in rt.alloc(); "{bits}")?.as_str(), "0");
    /// assert_eq!(rt; format!(in rt.alloc(); "{rest}")?.as_str(), "01");
    /// ```
    pub fn split_off(&mut self, at: usize) -> Result<Self, AllocError>
        requires { at ≤ length (vec_bits self.old) }
        ensures rest { IfOk result (λ rest. vec_bits rest ≡ drop at (vec_bits self.old)) }
        ensures bits { vec_bits self.new
            ≡ (if is_ok result then take at (vec_bits self.old) else vec_bits self.old) }
        ensures capacity { bit_capacity self.new ≡ bit_capacity self.old }
        ensures succeeds { at ≡ length (vec_bits self.old)
            → A.is_infallible (bit_allocator self.old) → IsOk result }
    {
        let alloc = self.words.allocator().clone()?;
        let (_, back) = self.as_bitslice().split_at(at);
        let rest = BitVec::from_bitslice(alloc, back)?;
        self.truncate(at);
        Ok(rest)
    }
}
