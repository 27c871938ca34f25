//! Pointers to single bits: a word of a memory and the index of a bit in it.

ghost use Rattle.std.specs.Prelude.{◌≡◌, ⊤, ℕ, ℤ, pos, neg_ℤ, ◌+◌, ◌-◌, ◌/◌, ◌==◌, if◌then◌else◌};
ghost use Rattle.std.specs.Prelude.{Some, length, map, slice_get, slice_set, swap, ◌<◌, ◌≤◌, ◌+ℤ◌};
ghost use Rattle.std.specs.Prelude.{◌≤ℤ◌, ◌↔◌, ◌%◌, IsTrue, FitsSigned};
ghost use Rattle.std.specs.Int.{w64, int_wrap};
ghost use Rattle.bitvec_ptr.specs.Place.{place_of, words_met};
ghost use Rattle.bitvec_mem.specs.Digit.{digit};
ghost use Rattle.bitvec_ptr.specs.Steps.{CanOffset, wrapped_ptr, distance, IsIn, RangeIsIn};

use bitvec_mem::mem::BitRegister;
use bitvec_order::index::{BitIdx, BitMask};
use bitvec_order::order::{BitOrder, Lsb0};
use std::alloc::AllocError;
use std::marker::PhantomData;

/// A pointer to a bit: the index of a word, and the index of the bit in that word.
///
/// A pointer names a bit and holds no memory: it is handed one to each call that reads or writes.
/// Its word index may be negative or past any memory; [`is_in`](BitPtr::is_in) tests that it lies
/// in one. Its place is the whole number of its word times the width, plus its bit, and pointers
/// compare as their places do.
///
/// # Examples
///
/// ```
/// let first: BitPtr<u8, Lsb0> = BitPtr::new(0, BitIdx::new_unchecked(6));
/// let next = first.add(3);
/// assert_eq!(rt; next.address(), 1);
/// assert_eq!(rt; next.bit().into_inner(), 1);
/// assert!(rt; next.is_in(2) && !next.is_in(1));
/// ```
#[derive_where(Copy, PartialEq, Eq, PartialOrd, Ord, Hash, Debug)]
pub struct BitPtr<R: BitRegister = usize, O = Lsb0> {
    word: isize,
    bit: u8,
    of: PhantomData<(R, O)>,
    pub ghost in_word: { bit ≤ R.BITS - 1 },
}

impl<R: BitRegister, O> Clone for BitPtr<R, O> {
    ghost is_clone = { λ it copy. copy ≡ it };

    ghost is_infallible = { λ _. ⊤ };

    fn clone(&self) -> Result<Self, AllocError> {
        Ok(*self)
    }
}

/// The pointer that nothing needs.
///
/// `BitPtr::DANGLING` is read with this trait in scope: a constant of a generic type can say its
/// value in a contract only as the item of a trait.
pub trait Dangling: Sized {
    /// The first bit of the first word.
    const DANGLING: Self;

    ghost DANGLING: { Self };
}

impl<R: BitRegister, O> Dangling for BitPtr<R, O> {
    ghost use Rattle.bitvec_ptr.specs.BitPtr.{dangling};

    const DANGLING: Self = BitPtr {
        word: 0,
        bit: 0,
        of: PhantomData,
    };

    ghost DANGLING = { dangling };
}

impl<R: BitRegister, O> BitPtr<R, O> {
    ghost use Rattle.bitvec_ptr.specs.BitPtr.{ptr_of};

    /// The pointer to the bit `bit` of the word `word`, which may be any word. Constant time. In
    /// place of the Rust crate's `new`, which takes an address and refuses one that is not aligned.
    pub fn new(word: isize, bit: BitIdx<R>) -> Self
        ensures { ptr_of result ≡ record { word = word; bit = bit } }
    {
        BitPtr {
            word,
            bit: bit.into_inner(),
            of: PhantomData,
        }
    }

    /// The pointer to the bit number `place` of a memory, where the first bit of the first word has
    /// number 0. Constant time. Not in the Rust crate.
    ///
    /// # Examples
    ///
    /// ```
    /// let memory = [0x00u8, 0x10];
    /// let pointer: BitPtr<u8, Lsb0> = BitPtr::at(12);
    /// assert!(rt; pointer.read(&memory));
    /// ```
    pub fn at(place: usize) -> Self
        ensures { ptr_of result
            ≡ record { word = pos (place / R.BITS); bit = place % R.BITS } }
    {
        let bits = usize::from(R::BITS);
        BitPtr {
            word: (place / bits) as isize,
            bit: (place % bits) as u8,
            of: PhantomData,
        }
    }

    /// The first bit of a word, taken as a memory of one. Constant time.
    pub fn from_ref(_word: &R) -> Self
        ensures { ptr_of result ≡ record { word = pos 0; bit = 0 } }
    {
        Self::DANGLING
    }

    /// The same of a word that may be written, which stays as it is. Constant time.
    pub fn from_mut(word: &mut R) -> Self
        ensures first { ptr_of result ≡ record { word = pos 0; bit = 0 } }
        ensures same { word.new ≡ word.old }
    {
        Self::from_ref(word)
    }

    /// The first bit of a memory. Constant time.
    pub fn from_slice(_words: &[R]) -> Self
        ensures { ptr_of result ≡ record { word = pos 0; bit = 0 } }
    {
        Self::DANGLING
    }

    /// The same of a memory that may be written, which stays as it is. Constant time.
    pub fn from_mut_slice(words: &mut [R]) -> Self
        ensures first { ptr_of result ≡ record { word = pos 0; bit = 0 } }
        ensures same { words.new ≡ words.old }
    {
        Self::from_slice(words)
    }

    /// Another name of [`from_mut_slice`](BitPtr::from_mut_slice). Constant time.
    pub fn from_slice_mut(words: &mut [R]) -> Self
        ensures first { ptr_of result ≡ record { word = pos 0; bit = 0 } }
        ensures same { words.new ≡ words.old }
    {
        Self::from_mut_slice(words)
    }

    /// The index of the word. Constant time.
    pub fn address(self) -> isize
        ensures { result ≡ (ptr_of self).word }
    {
        self.word
    }

    /// The index of the bit in its word. Constant time.
    pub fn bit(self) -> BitIdx<R>
        ensures value { result ≡ (ptr_of self).bit }
        ensures below { (ptr_of self).bit < R.BITS }
    {
        BitIdx::new_unchecked(self.bit)
    }

    /// The index of the word, and that of the bit in it. Constant time.
    pub fn raw_parts(self) -> (isize, BitIdx<R>)
        ensures word { result.0 ≡ (ptr_of self).word }
        ensures bit { result.1 ≡ (ptr_of self).bit }
    {
        (self.word, self.bit())
    }

    /// Another name of [`raw_parts`](BitPtr::raw_parts). Constant time.
    pub fn to_raw_parts(self) -> (isize, BitIdx<R>)
        ensures word { result.0 ≡ (ptr_of self).word }
        ensures bit { result.1 ≡ (ptr_of self).bit }
    {
        self.raw_parts()
    }

    // The place, which is far from the ends of the type.
    pub(crate) fn place(self) -> i128
        ensures value { result ≡ place_of R.BITS (ptr_of self) }
        ensures least { neg_ℤ (pos 2361183241434822606848) ≤ℤ result }
        ensures greatest { result ≤ℤ pos 2361183241434822606848 }
        ensures word { (ptr_of self).word ≤ℤ isize.MAX }
    {
        self.word as i128 * i128::from(R::BITS) + i128::from(self.bit)
    }

    /// Whether a step by `count` bits stays in range.
    ///
    /// It does exactly where the bit and `count` have a sum that is an `isize`, and the word on
    /// which the step ends is one too. Constant time. Not in the Rust crate.
    pub fn can_offset(self, count: isize) -> bool
        ensures { IsTrue result ↔ CanOffset R.BITS (ptr_of self) count }
    {
        let Some(_) = isize::from(self.bit).checked_add(count) else {
            return false;
        };
        let (words, _) = self.bit().offset(count);
        self.word.checked_add(words).is_some()
    }

    /// The pointer `count` bits on, or back where `count` is negative:
    /// [`can_offset`](BitPtr::can_offset) is the test. Constant time.
    pub fn offset(self, count: isize) -> Self
        requires { CanOffset R.BITS (ptr_of self) count }
        ensures { place_of R.BITS (ptr_of result) ≡ place_of R.BITS (ptr_of self) +ℤ count }
    {
        let (words, bit) = self.bit().offset(count);
        Self::new(self.word + words, bit)
    }

    // The pointer `count` bits on, for any place that has a word.
    pub(crate) fn forward(self, count: usize) -> Self
        requires short { pos count ≤ℤ isize.MAX }
        requires inside { ((ptr_of self).word +ℤ pos (((ptr_of self).bit + count) / R.BITS))
            ≤ℤ isize.MAX }
        ensures { place_of R.BITS (ptr_of result) ≡ place_of R.BITS (ptr_of self) +ℤ pos count }
    {
        let far = usize::from(self.bit) + count;
        let width = usize::from(R::BITS);
        let bit = BitIdx::new_unchecked((far % width) as u8);
        Self::new(self.word + (far / width) as isize, bit)
    }

    /// The pointer `count` bits on, where `count` is an `isize` and
    /// [`can_offset`](BitPtr::can_offset) holds of it. Constant time.
    pub fn add(self, count: usize) -> Self
        requires count { pos count ≤ℤ isize.MAX }
        requires inside { CanOffset R.BITS (ptr_of self) (pos count) }
        ensures { place_of R.BITS (ptr_of result) ≡ place_of R.BITS (ptr_of self) +ℤ pos count }
    {
        self.offset(count as isize)
    }

    /// The pointer `count` bits back, where `count` is an `isize` and
    /// [`can_offset`](BitPtr::can_offset) holds of its negative. Constant time.
    pub fn sub(self, count: usize) -> Self
        requires count { pos count ≤ℤ isize.MAX }
        requires inside { CanOffset R.BITS (ptr_of self) (neg_ℤ (pos count)) }
        ensures { place_of R.BITS (ptr_of result) +ℤ pos count ≡ place_of R.BITS (ptr_of self) }
    {
        self.offset(-(count as isize))
    }

    /// The pointer `count` bits on, for any `count`: the sum of bit and `count` wraps at the ends
    /// of `isize`, and so does that of the words. Constant time.
    pub fn wrapping_offset(self, count: isize) -> Self
        ensures { ptr_of result ≡ wrapped_ptr R.BITS (ptr_of self) count }
    {
        let (words, bit) = self.bit().offset(count);
        Self::new(self.word.wrapping_add(words), bit)
    }

    /// [`wrapping_offset`](BitPtr::wrapping_offset) by `count`, which wraps to an `isize`. Constant
    /// time.
    pub fn wrapping_add(self, count: usize) -> Self
        ensures { ptr_of result ≡ wrapped_ptr R.BITS (ptr_of self) (int_wrap w64 (pos count)) }
    {
        self.wrapping_offset(count.cast_signed())
    }

    /// [`wrapping_offset`](BitPtr::wrapping_offset) by the negative of `count`, which wraps to an
    /// `isize`.
    ///
    /// It undoes [`wrapping_add`](BitPtr::wrapping_add) where the bit and `count` have a sum that
    /// is an `isize`. Constant time.
    pub fn wrapping_sub(self, count: usize) -> Self
        ensures { ptr_of result ≡ wrapped_ptr R.BITS (ptr_of self)
            (int_wrap w64 (neg_ℤ (pos count))) }
    {
        self.wrapping_offset(count.cast_signed().wrapping_neg())
    }

    /// Whether the distance from `origin` is an `isize`. Constant time. Not in the Rust crate.
    pub fn can_offset_from(self, origin: Self) -> bool
        ensures { IsTrue result ↔ FitsSigned w64 (distance R.BITS (ptr_of self) (ptr_of origin)) }
    {
        isize::try_from(self.place() - origin.place()).is_ok()
    }

    /// How many bits this pointer is past `origin`, negative where it is before:
    /// [`can_offset_from`](BitPtr::can_offset_from) is the test. Constant time.
    pub fn offset_from(self, origin: Self) -> isize
        requires { FitsSigned w64 (distance R.BITS (ptr_of self) (ptr_of origin)) }
        ensures { result ≡ distance R.BITS (ptr_of self) (ptr_of origin) }
    {
        (self.place() - origin.place()) as isize
    }

    /// Whether the pointer's word is one of `words` words. Constant time. Not in the Rust crate.
    pub fn is_in(self, words: usize) -> bool
        ensures { IsTrue result ↔ IsIn (ptr_of self) words }
    {
        0 <= self.word && (self.word as usize) < words
    }

    // How many words `count` bits from this one on meet. Nothing but `count == 0` is asked, since
    // it is by chance whether a few bits pass the end of a word.
    pub(crate) fn elements(self, count: usize) -> usize
        ensures { result ≡ words_met R.BITS (ptr_of self).bit count }
    {
        if count == 0 {
            return 0;
        }
        let width = usize::from(R::BITS);
        let before = count - 1;
        let over = usize::from(self.bit) + before % width;
        before / width + over / width + 1
    }

    /// Whether the words that `count` bits from this one on meet are among the first `words` of a
    /// memory. For no bits, which meet no word, it is whether the pointer's word is from 0 to
    /// `words`, so that the place behind the last word is let in. Constant time. Not in the Rust
    /// crate.
    pub fn run_in(self, words: usize, count: usize) -> bool
        ensures { IsTrue result ↔ RangeIsIn R.BITS (ptr_of self) words count }
    {
        let elements = self.elements(count);
        0 <= self.word && elements <= words && self.word as usize <= words - elements
    }
}

// The bit of a word at an index.
pub(crate) fn bit_at<R: BitRegister, O: BitOrder<R>>(word: R, index: BitIdx<R>) -> bool
    ensures { result ≡ digit (R.number word) (O.at_of index) }
{
    BitMask::new(word).test(index.select::<O>())
}

// A word with another bit at an index.
pub(crate) fn with_bit<R: BitRegister, O: BitOrder<R>>(word: R, index: BitIdx<R>, bit: bool) -> R
    ensures { (j : ℕ) → j < R.BITS → digit (R.number result) (O.at_of j)
        ≡ (if j == index then bit else digit (R.number word) (O.at_of j)) }
{
    let selector = index.select::<O>().into_inner();
    if bit {
        word.or(selector)
    } else {
        word.and(selector.not())
    }
}

impl<R: BitRegister, O: BitOrder<R>> BitPtr<R, O> {
    ghost use Rattle.bitvec_ptr.specs.BitPtr.{ptr_of, ptr_place, bits_by, pointed_bit};

    /// The pointer's bit in a memory that has its word: [`is_in`](BitPtr::is_in) is the test.
    /// Constant time.
    ///
    /// # Examples
    ///
    /// ```
    /// let memory = [0x0Du8, 0x80];
    /// let pointer: BitPtr<u8, Lsb0> = BitPtr::new(0, BitIdx::new_unchecked(2));
    /// assert_eq!(rt; pointer.read(&memory), true);
    /// let pointer: BitPtr<u8, Msb0> = BitPtr::new(1, BitIdx::new_unchecked(2));
    /// assert_eq!(rt; pointer.read(&memory), false);
    /// ```
    pub fn read(self, memory: &[R]) -> bool
        requires { IsIn (ptr_of self) (length memory.now) }
        ensures { slice_get (bits_by self O.at_of memory.now) (ptr_place self) ≡ Some result }
    {
        bit_at::<R, O>(memory[self.word as usize], self.bit())
    }

    /// Writes the pointer's bit in a memory that has its word, and changes no other bit:
    /// [`is_in`](BitPtr::is_in) is the test. Constant time.
    ///
    /// # Examples
    ///
    /// ```
    /// let mut memory = [0x00u8, 0xFF];
    /// let pointer: BitPtr<u8, Msb0> = BitPtr::new(1, BitIdx::new_unchecked(2));
    /// pointer.write(&mut memory, false);
    /// assert_eq!(rt; memory, [0x00, 0xDF]);
    /// ```
    pub fn write(self, memory: &mut [R], bit: bool)
        requires { IsIn (ptr_of self) (length memory.old) }
        ensures bits { bits_by self O.at_of memory.new ≡ slice_set (bits_by self O.at_of memory.old)
            (ptr_place self) bit }
        ensures words { length memory.new ≡ length memory.old }
    {
        let at = self.word as usize;
        memory[at] = with_bit::<R, O>(memory[at], self.bit(), bit);
    }

    /// Writes the pointer's bit as [`write`](BitPtr::write) does, and returns the bit before.
    /// Constant time.
    pub fn replace(self, memory: &mut [R], bit: bool) -> bool
        requires { IsIn (ptr_of self) (length memory.old) }
        ensures previous { slice_get (bits_by self O.at_of memory.old) (ptr_place self)
            ≡ Some result }
        ensures bits { bits_by self O.at_of memory.new ≡ slice_set (bits_by self O.at_of memory.old)
            (ptr_place self) bit }
        ensures words { length memory.new ≡ length memory.old }
    {
        let previous = self.read(memory);
        self.write(memory, bit);
        previous
    }

    /// Exchanges the pointer's bit in `memory` with the bit of `with` in `other`, and changes no
    /// other bit: [`is_in`](BitPtr::is_in) is the test of each. Constant time.
    pub fn swap<R2: BitRegister, O2: BitOrder<R2>>(
        self,
        memory: &mut [R],
        with: BitPtr<R2, O2>,
        other: &mut [R2],
    )
        requires self_in { IsIn (ptr_of self) (length memory.old) }
        requires with_in { IsIn (ptr_of with) (length other.old) }
        ensures bits { bits_by self O.at_of memory.new ≡ slice_set (bits_by self O.at_of memory.old)
            (ptr_place self) (pointed_bit with O2.at_of other.old) }
        ensures other_bits { bits_by with O2.at_of other.new ≡ slice_set
            (bits_by with O2.at_of other.old) (ptr_place with)
            (pointed_bit self O.at_of memory.old) }
        ensures words { length memory.new ≡ length memory.old }
        ensures other_words { length other.new ≡ length other.old }
    {
        let theirs = with.read(other);
        let ours = self.replace(memory, theirs);
        with.write(other, ours);
    }

    /// Exchanges two bits of one memory, and changes no other bit: [`is_in`](BitPtr::is_in) is the
    /// test of each. Constant time. In place of the Rust crate's `swap` where both pointers are
    /// into one memory.
    pub fn swap_within(self, memory: &mut [R], with: Self)
        requires self_in { IsIn (ptr_of self) (length memory.old) }
        requires with_in { IsIn (ptr_of with) (length memory.old) }
        ensures bits { bits_by self O.at_of memory.new ≡ swap (bits_by self O.at_of memory.old)
            (ptr_place self) (ptr_place with) }
        ensures words { length memory.new ≡ length memory.old }
    {
        let theirs = with.read(memory);
        let ours = self.replace(memory, theirs);
        with.write(memory, ours);
    }
}

/// The first bit of a word, as [`from_ref`](BitPtr::from_ref).
impl<'a, R: BitRegister, O> From<&'a R> for BitPtr<R, O> {
    ghost use Rattle.bitvec_ptr.specs.BitPtr.{ptr_of};

    ghost from_gives = { λ _ ptr. ptr_of ptr ≡ record { word = pos 0; bit = 0 } };

    fn from(word: &'a R) -> Self {
        Self::from_ref(word)
    }
}

/// The first bit of a word, as [`from_mut`](BitPtr::from_mut).
impl<'a, R: BitRegister, O> From<&'a mut R> for BitPtr<R, O> {
    ghost use Rattle.bitvec_ptr.specs.BitPtr.{ptr_of};

    ghost from_gives = { λ _ ptr. ptr_of ptr ≡ record { word = pos 0; bit = 0 } };

    fn from(word: &'a mut R) -> Self
        ensures first { ptr_of result ≡ record { word = pos 0; bit = 0 } }
        ensures same { word.new ≡ word.old }
    {
        Self::from_mut(word)
    }
}
