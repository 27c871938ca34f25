//! Bits that lie one behind another in words borrowed for writing.

ghost use Rattle.std.specs.Prelude.{◌≡◌, ℕ, ◌+◌, ◌-◌, ◌*◌, ◌<◌, ◌≤◌, ◌↔◌, IsTrue, Some, length};
ghost use Rattle.std.specs.Prelude.{map, slice_get, slice_set};
ghost use Rattle.bitvec_ptr.specs.Place.{words_met};
ghost use Rattle.bitvec_span.specs.Span.{region_max_bits};
ghost use Rattle.bitvec_span.specs.BitParts.{bits_list};
ghost use Rattle.bitvec_span.specs.Stretch.{stretch_bits};

use crate::domain::bit_words::word_pointer;
use bitvec_mem::mem::BitRegister;
use bitvec_order::index::BitIdx;
use bitvec_order::order::BitOrder;
use std::marker::PhantomData;

/// Some bits that lie one behind another in words borrowed for writing: the words, the index of the
/// first bit in the first of them, and how many bits there are.
///
/// It borrows the memory in which the words lie, and changes these bits alone. In place of the Rust
/// crate's mutable bit slices.
///
/// # Examples
///
/// ```
/// let mut memory = [0x12u8, 0x34];
/// let span: BitSpan<u8, Lsb0> = BitSpan::new(0, BitIdx::new_unchecked(4), 8).unwrap();
/// let mut bits = span.part_mut(&mut memory, 0).into_bitslice();
/// assert!(rt; bits.len() == 4);
/// assert_eq!(rt; bits.replace(3, true), false);
/// drop(bits);
/// assert_eq!(rt; memory, [0x92, 0x34]);
/// ```
#[derive_where(Debug)]
pub struct BitWordsMut<'a, R: BitRegister, O> {
    pub(super) memory: &'a mut [R],
    pub(super) first: usize,
    pub(super) count: usize,
    pub(super) head: u8,
    pub(super) len: usize,
    pub(super) order: PhantomData<O>,
    pub ghost in_memory: { first + count ≤ length memory.now },
    pub ghost head_in: { head ≤ R.BITS - 1 },
    pub ghost short: { len ≤ region_max_bits },
    pub ghost fits: { words_met R.BITS head len ≤ count },
}

impl<R: BitRegister, O> Drop for BitWordsMut<'_, R, O> {
    ghost use Rattle.bitvec_span.specs.BitWordsMut.{words_memory};

    fn drop(self)
        ensures { self.exit.0.now ≡ (words_memory self.entry).now }
    {
        let BitWordsMut {
            memory: _,
            first: _,
            count: _,
            head: _,
            len: _,
            order: _,
        } = self;
    }
}

/// No bits, in no words; in the Rust crate, the empty bit slice.
impl<'a, R: BitRegister, O> Default for BitWordsMut<'a, R, O> {
    ghost use Rattle.std.specs.Prelude.{[], ◌≡◌};
    ghost use Rattle.bitvec_span.specs.Stretch.{no_stretch};
    ghost use Rattle.bitvec_span.specs.BitWordsMut.{words_memory, stretch_in};

    ghost is_default = { λ stretch. (stretch_in stretch ≡ no_stretch)
        × ((words_memory stretch).now ≡ []) };

    fn default() -> Self {
        BitWordsMut {
            memory: &mut [],
            first: 0,
            count: 0,
            head: 0,
            len: 0,
            order: PhantomData,
        }
    }
}

impl<'a, R: BitRegister, O> BitWordsMut<'a, R, O> {
    ghost use Rattle.bitvec_span.specs.BitWordsMut.{words_memory, stretch_in};

    // The memory that it borrows, as the edits left it: the whole loan, past the stretch's words.
    pub(super) fn into_memory(self) -> &'a mut [R]
        ensures reference { result.ghost_name ≡ (words_memory self.entry).ghost_name }
        ensures memory { result.now ≡ (words_memory self.entry).now }
    {
        let BitWordsMut {
            memory,
            first: _,
            count: _,
            head: _,
            len: _,
            order: _,
        } = self;
        memory
    }

    /// How many bits there are. Constant time.
    pub fn len(&self) -> usize
        ensures { result ≡ (stretch_in self.now).len }
    {
        self.len
    }

    /// Whether there are none. Constant time.
    pub fn is_empty(&self) -> bool
        ensures { IsTrue result ↔ ((stretch_in self.now).len ≡ 0) }
    {
        self.len == 0
    }

    /// The words in which the bits lie, with what else stands in them. Constant time.
    pub fn words(&self) -> &[R]
        ensures { map R.number result.now
            ≡ (stretch_bits (stretch_in self.now)
            (map R.number (words_memory self.now).now)).words }
    {
        &self.memory[self.first..self.first + self.count]
    }

    /// The index of the first bit in the first word. Constant time.
    pub fn head(&self) -> BitIdx<R>
        ensures { result ≡ (stretch_in self.now).head }
    {
        BitIdx::new_unchecked(self.head)
    }
}

impl<'a, R: BitRegister, O: BitOrder<R>> BitWordsMut<'a, R, O> {
    ghost use Rattle.bitvec_span.specs.BitWordsMut.{words_memory, all_bits, stretch_in};
    ghost use Rattle.bitvec_span.specs.BitWordsMut.{bit_number};

    /// Bit `i`. Requires that `i` is below the number of bits. Constant time.
    pub fn read(&self, i: usize) -> bool
        requires { i < (stretch_in self.now).len }
        ensures { slice_get (bits_list R.BITS O.at_of
            (stretch_bits (stretch_in self.now) (map R.number (words_memory self.now).now))) i
            ≡ Some result }
    {
        word_pointer::<R, O>(self.head, i).read(self.words())
    }

    /// Writes bit `i`, and returns the bit before; no other bit of the memory changes. Requires
    /// that `i` is below the number of bits. Constant time.
    pub fn replace(&mut self, i: usize, bit: bool) -> bool
        requires { i < (stretch_in self.old).len }
        ensures reference { (words_memory self.new).ghost_name
            ≡ (words_memory self.old).ghost_name }
        ensures stretch { stretch_in self.new ≡ stretch_in self.old }
        ensures previous { slice_get
            (bits_list R.BITS O.at_of
            (stretch_bits (stretch_in self.old) (map R.number (words_memory self.old).now))) i
            ≡ Some result }
        ensures bits { all_bits self.new O.at_of
            ≡ slice_set (all_bits self.old O.at_of) (bit_number R.BITS self.old i) bit }
        ensures words { length (words_memory self.new).now ≡ length (words_memory self.old).now }
    {
        let pointer = word_pointer::<R, O>(self.head, i);
        pointer.replace(&mut self.memory[self.first..self.first + self.count], bit)
    }
}
