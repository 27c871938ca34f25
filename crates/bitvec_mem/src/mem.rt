//! Unsigned numbers of a fixed width, seen by their binary digits.
//!
//! The trait [`BitRegister`] is the only thing that the layers above know of a word.

ghost use Rattle.std.specs.Prelude.{◌≡◌, ⊤, ℕ, List, codes, ◌+◌, ◌-◌, ◌*◌, ◌/◌, ◌%◌, ◌^◌, ◌<◌, ◌≤◌};
ghost use Rattle.std.specs.Prelude.{◌↔◌, ◌==◌, ◌&&◌, ◌||◌, if◌then◌else◌, not, true, false, IsNone};
ghost use Rattle.std.specs.Prelude.{IfSome, refl};
ghost use Rattle.std.specs.Ordering.{nat_cmp};
ghost use Rattle.bitvec_mem.specs.Digit.{digit, exclusive_or, count_below};

mod ones;
mod registers;

pub use self::ones::{highest_one, lowest_one, without_lowest_one};
use std::alloc::AllocError;
use std::fmt::Debug;
use std::hash::Hash;

/// An unsigned number of a fixed width, the word that a memory is made of.
///
/// Each function says its result digit by digit, so code that is generic in the register needs
/// nothing else. In the Rust crate the trait stands for the processor's register types.
///
/// # Examples
///
/// ```
/// assert_eq!(rt; <u16 as BitRegister>::BITS, 16);
/// assert_eq!(rt; 0x0F0Fu16.and(0x00FF), 0x000F);
/// assert_eq!(rt; 0x0F0Fu16.shl(4), 0xF0F0);
/// assert_eq!(rt; u16::from_u128(0x1_0000), None);
/// ```
pub trait BitRegister: Copy + Default + Eq + Ord + Hash + Debug {
    /// The width in bits, a power of two from 8 to 128.
    const BITS: u8;

    /// The number of bits that an index below `BITS` needs.
    const INDX: u8;

    /// The greatest index of a bit, `BITS - 1`.
    const MASK: u8;

    /// The number 0.
    const ZERO: Self;

    /// The number 1.
    const ONE: Self;

    /// The number whose `BITS` digits are all one.
    const ALL: Self;

    /// The type's name, as texts print it.
    const NAME: &'static str;

    ghost BITS: { ℕ };

    ghost INDX: { ℕ };

    ghost MASK: { ℕ };

    ghost ZERO: { Self };

    ghost ONE: { Self };

    ghost ALL: { Self };

    // The bytes of `NAME`.
    ghost name: { List ℕ };

    // The number that a value is.
    ghost number: { Self → ℕ };

    // The value that a number is.
    ghost from_number: { ℕ → Self };

    ghost number_back: { (a : Self) → number a < 2 ^ BITS → from_number (number a) ≡ a };

    /// `NAME`, with a contract: a constant that is a text can't have one.
    fn name_text() -> &'static str
        ensures { result.now ≡ name };

    /// The digits that are one in both.
    fn and(self, with: Self) -> Self
        ensures below { number result < 2 ^ BITS }
        ensures digits { (p : ℕ) → p < BITS
            → digit (number result) p ≡ (digit (number self) p && digit (number with) p) };

    /// The digits that are one in at least one of the two.
    fn or(self, with: Self) -> Self
        ensures below { number result < 2 ^ BITS }
        ensures digits { (p : ℕ) → p < BITS
            → digit (number result) p ≡ (digit (number self) p || digit (number with) p) };

    /// The digits that are one in just one of the two.
    fn xor(self, with: Self) -> Self
        ensures below { number result < 2 ^ BITS }
        ensures digits { (p : ℕ) → p < BITS → digit (number result) p
            ≡ exclusive_or (digit (number self) p) (digit (number with) p) };

    /// Each digit turned over.
    fn not(self) -> Self
        ensures below { number result < 2 ^ BITS }
        ensures digits { (p : ℕ) → p < BITS
            → digit (number result) p ≡ not (digit (number self) p) };

    /// Each digit moved `n` positions up; the lowest `n` become zero, and the highest `n` are lost.
    /// Requires that `n` is below the width.
    fn shl(self, n: u8) -> Self
        requires { n < BITS }
        ensures below { number result < 2 ^ BITS }
        ensures low { (p : ℕ) → p < n → digit (number result) p ≡ false }
        ensures moved { (p : ℕ) → n + p < BITS
            → digit (number result) (n + p) ≡ digit (number self) p };

    /// Each digit moved `n` positions down; the highest `n` become zero, and the lowest `n` are
    /// lost. Requires that `n` is below the width.
    fn shr(self, n: u8) -> Self
        requires { n < BITS }
        ensures below { number result < 2 ^ BITS }
        ensures moved { (p : ℕ) → n + p < BITS
            → digit (number result) p ≡ digit (number self) (n + p) }
        ensures high { (p : ℕ) → p < BITS → BITS ≤ n + p → digit (number result) p ≡ false };

    /// How many digits are one.
    fn count_ones(self) -> u32
        ensures count { result ≡ count_below (digit (number self)) BITS }
        ensures below { number self < 2 ^ BITS };

    /// The number of the value. In place of the Rust crate's conversions.
    fn to_u128(self) -> u128
        ensures number { result ≡ number self }
        ensures below { number self < 2 ^ BITS };

    /// The value of the number; `None` where `n` is `2^BITS` or more. Not in the Rust crate.
    fn from_u128(n: u128) -> Option<Self>
        ensures refused { IsNone result ↔ (2 ^ BITS ≤ n) }
        ensures made { IfSome result (λ value. number value ≡ n) };

    ghost width_is_power_of_two: { BITS ≡ 2 ^ INDX };

    ghost exponent_at_least_3: { 3 ≤ INDX };

    ghost exponent_at_most_7: { INDX ≤ 7 };

    // These two follow from the laws above; with them, divisors and casts need no proof.
    ghost width_at_least_8: { 8 ≤ BITS };

    ghost width_at_most_128: { BITS ≤ 128 };

    ghost mask_is_greatest_index: { MASK ≡ BITS - 1 };

    ghost zero_is_0: { number ZERO ≡ 0 };

    ghost one_is_1: { number ONE ≡ 1 };

    ghost all_is_greatest: { number ALL ≡ 2 ^ BITS - 1 };

    ghost digits_injective: { (a b : Self) → number a < 2 ^ BITS → number b < 2 ^ BITS
        → ((p : ℕ) → p < BITS → digit (number a) p ≡ digit (number b) p) → a ≡ b };

    ghost eq_compares_numbers: { (a b : Self) → number a < 2 ^ BITS → number b < 2 ^ BITS
        → Self.eq a b ≡ (number a == number b) };

    ghost cmp_compares_numbers: { (a b : Self) → number a < 2 ^ BITS → number b < 2 ^ BITS
        → Self.cmp a b ≡ nat_cmp (number a) (number b) };

    ghost default_is_zero: { (a : Self) → Self.is_default a → a ≡ ZERO };
}

/// The width of a register in bits. Constant time.
pub fn bits_of<R: BitRegister>() -> usize
    ensures value { result ≡ R.BITS }
    ensures least { 8 ≤ result }
    ensures greatest { result ≤ 128 }
{
    R::BITS as usize
}

/// How many registers hold `bits` bits: `bits / BITS`, and one more where a remainder is left.
/// Constant time.
pub const fn elts<R: BitRegister>(bits: usize) -> usize
    ensures { result ≡ bits / R.BITS + (if bits % R.BITS == 0 then 0 else 1) }
{
    let width = R::BITS as usize;
    if bits % width == 0 {
        bits / width
    } else {
        bits / width + 1
    }
}

/// One register, as a memory of a single word.
///
/// It is copied, compared, hashed and made by default as its `elem` is. In the Rust crate it stands
/// for atomic and shared words too.
///
/// # Examples
///
/// ```
/// let mut element = BitElement::new(0x0Fu8);
/// element.elem = element.elem.not();
/// assert_eq!(rt; element.elem, 0xF0);
/// ```
#[derive(Copy, PartialEq, Eq, PartialOrd, Ord, Hash, Default, Debug)]
pub struct BitElement<R: BitRegister = usize> {
    /// The word.
    pub elem: R,
}

impl<R: BitRegister> Clone for BitElement<R> {
    ghost is_clone = { λ it copy. copy ≡ it };

    ghost is_infallible = { λ _. ⊤ };

    fn clone(&self) -> Result<Self, AllocError> {
        Ok(*self)
    }
}

impl<R: BitRegister> BitElement<R> {
    /// The memory of the word `elem`. Constant time.
    pub fn new(elem: R) -> Self
        ensures { result.elem ≡ elem }
    {
        BitElement { elem }
    }
}
