//! Truth values put behind the bits of a vector, by words.

ghost use Rattle.std.specs.Prelude.{◌≡◌, ◌≤◌, ◌<◌, ◌+◌, ◌%◌, ◌++◌, is_ok, if◌then◌else◌};
ghost use Rattle.std.specs.Prelude.{length, take, OnErr, IfOk};
ghost use Rattle.bitvec.specs.Digit.{digit};
ghost use Rattle.bitvec.specs.Memory.{tabulate};
ghost use Rattle.bitvec.specs.Order.{number_of};
ghost use Rattle.bitvec.specs.Span.{element};

use crate::vec::BitVec;
use crate::vec::front::one_where;
use bitvec::index::BitIdx;
use bitvec::mem::BitRegister;
use bitvec::order::BitOrder;
use std::alloc::{AllocError, Allocator};

// The word that has each of some truth values, as many as its bits, at the index of its number.
#[inline(always)]
fn word_of_bools<R: BitRegister, O: BitOrder<R>>(bits: &[bool]) -> R
    requires { length bits.now ≡ R.BITS }
    ensures { R.number result ≡ number_of O.at_of (element bits.now) R.BITS }
{
    let mut word = R::ZERO;
    for i in 0..R::BITS {
        let position = BitIdx::<R>::new_unchecked(i).position::<O>();
        let one: R = one_where(bits[usize::from(i)]);
        word = word.or(one.shl(position.into_inner()));
    }
    word
}

impl<R: BitRegister, O: BitOrder<R>, A: Allocator> BitVec<R, O, A> {
    ghost use Rattle.bitvec_vec.specs.BitVec.{vec_bits, bit_capacity};

    // Puts the bits of a word behind the others, which fill their words. There is room for it.
    #[inline(always)]
    fn push_word(&mut self, word: R)
        requires whole { length (vec_bits self.old) % R.BITS ≡ 0 }
        requires room { length (vec_bits self.old) + R.BITS ≤ bit_capacity self.old }
        ensures bits { vec_bits self.new ≡ vec_bits self.old
            ++ tabulate R.BITS (λ i. digit (R.number word) (O.at_of i)) }
        ensures capacity { bit_capacity self.old ≤ bit_capacity self.new }
    {
        let len = self.len;
        let _ = self.words.push(word);
        self.len = len + usize::from(R::BITS);
    }

    // Puts the first of some truth values behind the bits, and returns how many: as many as fill a
    // word where the bits fill theirs, else one. There is room for all.
    #[inline(always)]
    fn push_some(&mut self, bits: &[bool]) -> usize
        requires some { 0 < length bits.now }
        requires room { length (vec_bits self.old) + length bits.now ≤ bit_capacity self.old }
        ensures some { 0 < result }
        ensures inside { result ≤ length bits.now }
        ensures bits { vec_bits self.new ≡ vec_bits self.old ++ take result bits.now }
        ensures capacity { bit_capacity self.old ≤ bit_capacity self.new }
    {
        let width = usize::from(R::BITS);
        if self.len % width != 0 || bits.len() < width {
            let _ = self.push(bits[0]);
            return 1;
        }
        self.push_word(word_of_bools::<R, O>(&bits[..width]));
        width
    }

    /// Puts truth values behind the bits, in their order.
    ///
    /// Where memory is refused, the list and the room are as they were. Costs by words: a word is
    /// made of as many values as it has bits, and written once; those before the first whole word
    /// and behind the last cost as [`push`](BitVec::push) does. In the Rust crate it is `extend` of
    /// an iterator.
    ///
    /// # Examples
    ///
    /// ```
    /// let mut bits = BitVec::<u8, Msb0>::repeat(rt.alloc(), false, 2)?;
    /// bits.extend_from_bools(&[true, false, true])?;
    /// assert_eq!(rt; format!(in rt.alloc(); "{bits}")?.as_str(), "00101");
    /// ```
    pub fn extend_from_bools(&mut self, bits: &[bool]) -> Result<(), AllocError>
        ensures bits { vec_bits self.new
            ≡ (if is_ok result then vec_bits self.old ++ bits.now else vec_bits self.old) }
        ensures capacity { bit_capacity self.old ≤ bit_capacity self.new }
        ensures full { OnErr result
            (bit_capacity self.old < length (vec_bits self.old) + length bits.now) }
        ensures refused { OnErr result (bit_capacity self.new ≡ bit_capacity self.old) }
    {
        self.reserve(bits.len())?;
        let mut done = 0;
        while done < bits.len() {
            done += self.push_some(&bits[done..]);
        }
        Ok(())
    }

    /// The bits of a list of truth values, in its order. It refuses where memory is refused; no
    /// bits take none, and are never refused. Costs as
    /// [`extend_from_bools`](BitVec::extend_from_bools) does. In the Rust crate it is `collect` of
    /// an iterator.
    ///
    /// # Examples
    ///
    /// ```
    /// let bits = BitVec::<u8, Lsb0>::from_bools(rt.alloc(), &[true, true, false])?;
    /// assert_eq!(rt; bits.len(), 3);
    /// assert_eq!(rt; format!(in rt.alloc(); "{bits}")?.as_str(), "110");
    /// ```
    pub fn from_bools(alloc: A, bits: &[bool]) -> Result<Self, AllocError>
        ensures bits { IfOk result (λ vec. vec_bits vec ≡ bits.now) }
        ensures full { OnErr result (0 < length bits.now) }
    {
        let mut vec = BitVec::new(alloc);
        vec.extend_from_bools(bits)?;
        Ok(vec)
    }
}
