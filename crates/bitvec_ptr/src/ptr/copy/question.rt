//! Questions of two ranges of bits: how many of their pairs are one, and which is the first.

ghost use Rattle.std.specs.Prelude.{◌≡◌, length};
ghost use Rattle.bitvec_mem.specs.Digit.{count_below};
ghost use Rattle.bitvec_ptr.specs.BitPtr.{ptr_of};
ghost use Rattle.bitvec_ptr.specs.Pairs.{pair_by, FindsFirst};
ghost use Rattle.bitvec_ptr.specs.Steps.{RangeIsIn};

use crate::ptr::combine::Combine;
use crate::ptr::copy::pairs::{count_pairs, first_pair};
use crate::ptr::cursor::Cursor;
use crate::ptr::single::BitPtr;
use bitvec_mem::mem::BitRegister;
use bitvec_order::order::BitOrder;

impl<R: BitRegister, O: BitOrder<R>> BitPtr<R, O> {
    /// How many of `count` bits of `memory`, from this pointer on, give a one with those of another
    /// memory from `other` on: [`run_in`](BitPtr::run_in) is the test of each range.
    ///
    /// Bit j of this range stands for the target's bit and bit j of the other for the source's, so
    /// with [`And`](crate::ptr::combine::And) it is how many are in both sets, and with
    /// [`AndNot`](crate::ptr::combine::AndNot) how many are in this one alone. Nothing is copied
    /// or written. Costs by words where both orders rise, both fall, or are one order with both
    /// ranges at the same bit of a word; else by bits. Not in the Rust crate.
    ///
    /// # Examples
    ///
    /// ```
    /// let memory = [0x2Cu8];
    /// let others = [0xFF0Fu16];
    /// let from: BitPtr<u8, Lsb0> = BitPtr::new(0, BitIdx::MIN);
    /// let other: BitPtr<u16, Lsb0> = BitPtr::new(0, BitIdx::MIN);
    /// assert_eq!(rt; from.count_with::<And, u16, Lsb0>(&memory, other, &others, 8), 2);
    /// assert_eq!(rt; from.count_with::<AndNot, u16, Lsb0>(&memory, other, &others, 8), 1);
    /// ```
    pub fn count_with<C: Combine, R2: BitRegister, O2: BitOrder<R2>>(
        self,
        memory: &[R],
        other: BitPtr<R2, O2>,
        other_memory: &[R2],
        count: usize,
    ) -> usize
        requires here { RangeIsIn R.BITS (ptr_of self) (length memory.now) count }
        requires there { RangeIsIn R2.BITS (ptr_of other) (length other_memory.now) count }
        ensures { result ≡ count_below
            (pair_by C.of self O.at_of memory.now other O2.at_of other_memory.now) count }
    {
        if count == 0 {
            return 0;
        }
        let (to, from) = (Cursor::at(self), Cursor::at(other));
        count_pairs::<C, R, O, R2, O2>(memory, to, other_memory, from, count)
    }

    /// The number of the first of `count` bits of `memory`, from this pointer on, that gives a one
    /// with that of another memory from `other` on, and `None` where none does:
    /// [`run_in`](BitPtr::run_in) is the test of each range.
    ///
    /// Bit j of this range stands for the target's bit and bit j of the other for the source's, so
    /// with [`Xor`](crate::ptr::combine::Xor) it is the first at which the two differ, and with
    /// [`AndNot`](crate::ptr::combine::AndNot) there is none where this is a subset of the other.
    /// It reads at most 63 words of this range behind the one that decides, and of the other as
    /// many as hold the bits beside these. Nothing is copied or written.
    /// Costs by words where both orders rise, both fall, or are one order with both ranges
    /// at the same bit of a word; else by bits. Not in the Rust crate.
    ///
    /// # Examples
    ///
    /// ```
    /// let memory = [0x2Cu8];
    /// let others = [0xFF0Fu16];
    /// let from: BitPtr<u8, Lsb0> = BitPtr::new(0, BitIdx::MIN);
    /// let other: BitPtr<u16, Lsb0> = BitPtr::new(0, BitIdx::MIN);
    /// assert_eq!(rt; from.first_with::<AndNot, u16, Lsb0>(&memory, other, &others, 8), Some(5));
    /// assert_eq!(rt; from.first_with::<AndNot, u16, Lsb0>(&memory, other, &others, 5), None);
    /// ```
    pub fn first_with<C: Combine, R2: BitRegister, O2: BitOrder<R2>>(
        self,
        memory: &[R],
        other: BitPtr<R2, O2>,
        other_memory: &[R2],
        count: usize,
    ) -> Option<usize>
        requires here { RangeIsIn R.BITS (ptr_of self) (length memory.now) count }
        requires there { RangeIsIn R2.BITS (ptr_of other) (length other_memory.now) count }
        ensures { FindsFirst (pair_by C.of self O.at_of memory.now other O2.at_of other_memory.now)
            count result }
    {
        if count == 0 {
            return None;
        }
        let (to, from) = (Cursor::at(self), Cursor::at(other));
        first_pair::<C, R, O, R2, O2>(memory, to, other_memory, from, count)
    }
}
