//! Signed numbers in slices of bits, as two's complements.

ghost use Rattle.std.specs.Prelude.{◌≡◌, ℕ, ℤ, ◌^◌, ◌<◌, ◌≤◌, ◌↔◌, IsSome, IfSome, false, true};
ghost use Rattle.std.specs.Prelude.{length};
ghost use Rattle.std.proofs.Common.{lit≤};
ghost use Rattle.bitvec_slice.specs.Field.{field_number, field_list};
ghost use Rattle.bitvec_slice.specs.Signed.{signed_of, complement_of, FitsSignedDigits};

use crate::field::Sequential;
use crate::slice::{BitSlice, BitSliceMut};
use bitvec::mem::BitRegister;

/// A signed number type: `i8`, `i16`, `i32`, `i64`, `isize` or `i128`.
///
/// Not in the Rust crate, where one call takes signed and unsigned numbers.
pub trait SignedNumber: Copy {
    /// The width in bits, at most 128.
    const BITS: u8;

    ghost BITS: { ℕ };

    // The number that a value is.
    ghost number: { Self → ℤ };

    // The number is all of a value.
    ghost number_injective: { (a b : Self) → number a ≡ number b → a ≡ b };

    /// The number of the value.
    fn to_i128(self) -> i128
        ensures number { result ≡ number self }
        ensures digits { FitsSignedDigits BITS (number self) };

    /// The value of the number; `None` where it has more than `BITS` digits.
    fn from_i128(n: i128) -> Option<Self>
        ensures accepted { IsSome result ↔ FitsSignedDigits BITS n }
        ensures made { IfSome result (λ value. number value ≡ n) };

    ghost width_at_most_128: { BITS ≤ 128 };
}

impl SignedNumber for i8 {
    const BITS: u8 = 8;

    ghost BITS = { 8 };

    ghost number = { λ z. z };

    ghost number_injective = { λ a b same. same };

    fn to_i128(self) -> i128 {
        i128::from(self)
    }

    fn from_i128(n: i128) -> Option<i8> {
        i8::try_from(n).ok()
    }

    ghost width_at_most_128 = { lit≤ tt };
}

impl SignedNumber for i16 {
    const BITS: u8 = 16;

    ghost BITS = { 16 };

    ghost number = { λ z. z };

    ghost number_injective = { λ a b same. same };

    fn to_i128(self) -> i128 {
        i128::from(self)
    }

    fn from_i128(n: i128) -> Option<i16> {
        i16::try_from(n).ok()
    }

    ghost width_at_most_128 = { lit≤ tt };
}

impl SignedNumber for i32 {
    const BITS: u8 = 32;

    ghost BITS = { 32 };

    ghost number = { λ z. z };

    ghost number_injective = { λ a b same. same };

    fn to_i128(self) -> i128 {
        i128::from(self)
    }

    fn from_i128(n: i128) -> Option<i32> {
        i32::try_from(n).ok()
    }

    ghost width_at_most_128 = { lit≤ tt };
}

impl SignedNumber for i64 {
    const BITS: u8 = 64;

    ghost BITS = { 64 };

    ghost number = { λ z. z };

    ghost number_injective = { λ a b same. same };

    fn to_i128(self) -> i128 {
        i128::from(self)
    }

    fn from_i128(n: i128) -> Option<i64> {
        i64::try_from(n).ok()
    }

    ghost width_at_most_128 = { lit≤ tt };
}

impl SignedNumber for isize {
    const BITS: u8 = isize::BITS as u8;

    ghost BITS = { 64 };

    ghost number = { λ z. z };

    ghost number_injective = { λ a b same. same };

    fn to_i128(self) -> i128 {
        self as i128
    }

    fn from_i128(n: i128) -> Option<isize> {
        isize::try_from(n).ok()
    }

    ghost width_at_most_128 = { lit≤ tt };
}

impl SignedNumber for i128 {
    const BITS: u8 = 128;

    ghost BITS = { 128 };

    ghost number = { λ z. z };

    ghost number_injective = { λ a b same. same };

    fn to_i128(self) -> i128 {
        self
    }

    fn from_i128(n: i128) -> Option<i128> {
        Some(n)
    }

    ghost width_at_most_128 = { lit≤ tt };
}

// The signed number whose two's complement has these `len` digits.
#[inline(always)]
fn signed_number(digits: u128, len: usize) -> i128
    requires short { len ≤ 128 }
    requires below { digits < 2 ^ len }
    ensures value { result ≡ signed_of len digits }
    ensures fits { FitsSignedDigits len (signed_of len digits) }
{
    if len == 0 {
        return 0;
    }
    let ones = u128::MAX >> (128 - len);
    if digits <= ones / 2 {
        digits as i128
    } else {
        -1 - (ones - digits) as i128
    }
}

// The same as a value of a type that is wide enough.
#[inline(always)]
fn signed_value<N: SignedNumber>(digits: u128, len: usize) -> N
    requires wide { len ≤ N.BITS }
    requires below { digits < 2 ^ len }
    ensures { N.number result ≡ signed_of len digits }
{
    N::from_i128(signed_number(digits, len)).unwrap()
}

impl<'a, R: BitRegister, O: Sequential<R>> BitSlice<'a, R, O> {
    ghost use Rattle.bitvec_slice.specs.BitSlice.{slice_span, slice_len, slice_bits};

    /// The signed number whose two's complement the bits are, in the order of
    /// [`load_le`](BitSlice::load_le): that call's number, less two to the length where the
    /// highest of its digits is one. No bits are 0.
    ///
    /// Requires no more bits than the number type has. Costs by words. In the Rust crate it is the
    /// call of the unsigned numbers.
    ///
    /// # Examples
    ///
    /// ```
    /// let memory = [0x2Cu8];
    /// let span: BitSpan<u8, Lsb0> = BitSpan::at(2, 4).unwrap();
    /// let slice = BitSlice::new(span, &memory).ok_or("outside")?;
    /// assert_eq!(rt; slice.load_le::<u8>(), 11);
    /// assert_eq!(rt; slice.load_signed_le::<i8>(), -5);
    /// ```
    pub fn load_signed_le<N: SignedNumber>(&self) -> N
        requires { slice_len self.now ≤ N.BITS }
        ensures { let bits = slice_bits self.now in N.number result ≡ signed_of (length bits)
            (field_number false R.BITS O.RISES (slice_span self.now).head bits) }
    {
        signed_value(self.load_le(), self.len())
    }

    /// The signed number whose two's complement the bits are, in the order of
    /// [`load_be`](BitSlice::load_be): that call's number, less two to the length where the
    /// highest of its digits is one. No bits are 0.
    ///
    /// Requires no more bits than the number type has. Costs by words. In the Rust crate it is the
    /// call of the unsigned numbers.
    pub fn load_signed_be<N: SignedNumber>(&self) -> N
        requires { slice_len self.now ≤ N.BITS }
        ensures { let bits = slice_bits self.now in N.number result ≡ signed_of (length bits)
            (field_number true R.BITS O.RISES (slice_span self.now).head bits) }
    {
        signed_value(self.load_be(), self.len())
    }
}

impl<'a, R: BitRegister, O: Sequential<R>> BitSliceMut<'a, R, O> {
    ghost use Rattle.bitvec_slice.specs.BitSliceMut.{lent_span, lent_len, lent_bits, BecomesBits};

    /// The number that [`load_signed_le`](BitSlice::load_signed_le) of
    /// [`as_bitslice`](BitSliceMut::as_bitslice) gives. Requires no more bits than the number type
    /// has. Costs by words.
    pub fn load_signed_le<N: SignedNumber>(&self) -> N
        requires { lent_len self.now ≤ N.BITS }
        ensures { let bits = lent_bits self.now in N.number result ≡ signed_of (length bits)
            (field_number false R.BITS O.RISES (lent_span self.now).head bits) }
    {
        self.as_bitslice().load_signed_le()
    }

    /// The number that [`load_signed_be`](BitSlice::load_signed_be) of
    /// [`as_bitslice`](BitSliceMut::as_bitslice) gives. Requires no more bits than the number type
    /// has. Costs by words.
    pub fn load_signed_be<N: SignedNumber>(&self) -> N
        requires { lent_len self.now ≤ N.BITS }
        ensures { let bits = lent_bits self.now in N.number result ≡ signed_of (length bits)
            (field_number true R.BITS O.RISES (lent_span self.now).head bits) }
    {
        self.as_bitslice().load_signed_be()
    }

    /// Makes the bits the lowest digits of a signed number's two's complement, one for each bit, in
    /// the order of [`store_le`](BitSliceMut::store_le). Where the number has no more digits than
    /// there are bits, [`load_signed_le`](BitSliceMut::load_signed_le) gives it back.
    ///
    /// Requires no more bits than the number type has. Costs by words. In the Rust crate it is the
    /// call of the unsigned numbers.
    ///
    /// # Examples
    ///
    /// ```
    /// let mut memory = [0u8];
    /// let span: BitSpan<u8, Lsb0> = BitSpan::at(2, 4).unwrap();
    /// let mut slice = BitSliceMut::new_unchecked(span, &mut memory);
    /// slice.store_signed_le(-5i32);
    /// assert_eq!(rt; slice.load_signed_le::<i64>(), -5);
    /// drop(slice);
    /// assert_eq!(rt; memory, [0x2C]);
    /// ```
    pub fn store_signed_le<N: SignedNumber>(&mut self, value: N)
        requires { lent_len self.old ≤ N.BITS }
        ensures stored { let count = length (lent_bits self.old)
            in BecomesBits self.old self.new (field_list false R.BITS O.RISES
            (lent_span self.old).head count (complement_of count (N.number value))) }
        ensures loaded { let count = length (lent_bits self.old) in FitsSignedDigits count (N.number
            value) → signed_of count (field_number false R.BITS O.RISES (lent_span self.new).head
            (lent_bits self.new)) ≡ N.number value }
    {
        self.store_le(value.to_i128().cast_unsigned());
    }

    /// Makes the bits the lowest digits of a signed number's two's complement, one for each bit, in
    /// the order of [`store_be`](BitSliceMut::store_be). Where the number has no more digits than
    /// there are bits, [`load_signed_be`](BitSliceMut::load_signed_be) gives it back.
    ///
    /// Requires no more bits than the number type has. Costs by words. In the Rust crate it is the
    /// call of the unsigned numbers.
    pub fn store_signed_be<N: SignedNumber>(&mut self, value: N)
        requires { lent_len self.old ≤ N.BITS }
        ensures stored { let count = length (lent_bits self.old)
            in BecomesBits self.old self.new (field_list true R.BITS O.RISES
            (lent_span self.old).head count (complement_of count (N.number value))) }
        ensures loaded { let count = length (lent_bits self.old) in FitsSignedDigits count (N.number
            value) → signed_of count (field_number true R.BITS O.RISES (lent_span self.new).head
            (lent_bits self.new)) ≡ N.number value }
    {
        self.store_be(value.to_i128().cast_unsigned());
    }
}
