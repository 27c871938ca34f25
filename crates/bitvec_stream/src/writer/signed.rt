//! Signed numbers in `count` bits, as two's complements, where the caller says the count.

ghost use Rattle.std.specs.Prelude.{◌≡◌, pos, ◌-◌, ◌^◌, ◌<◌, ◌≤◌, ◌↔◌, Err, IsTrue, IsOk};
ghost use Rattle.std.specs.Prelude.{MatchResult, length};
ghost use Rattle.bitvec_slice.specs.Signed.{complement_of, FitsSignedDigits};
ghost use Rattle.bitvec_stream.specs.Numbers.{digits_le, digits_be};

use crate::error::WriteError;
use crate::writer::BitWriter;
use bitvec::mem::BitRegister;
use bitvec::order::BitOrder;
use bitvec_slice::field::SignedNumber;

// The greatest signed number of `count` digits.
fn greatest_of(count: usize) -> i128
    requires some { 0 < count }
    requires most { count ≤ 128 }
    ensures { result ≡ pos (2 ^ (count - 1) - 1) }
{
    ((u128::MAX >> (128 - count)) / 2) as i128
}

// Whether a signed number has `count` digits.
fn has_signed_digits(number: i128, count: usize) -> bool
    requires { count ≤ 128 }
    ensures { IsTrue result ↔ FitsSignedDigits count number }
{
    if count == 0 {
        return number == 0;
    }
    let greatest = greatest_of(count);
    if greatest < number {
        return false;
    }
    if number < -1 - greatest {
        return false;
    }
    true
}

impl<'a, R: BitRegister, O: BitOrder<R>> BitWriter<'a, R, O> {
    ghost use Rattle.bitvec_stream.specs.Writer.{room, Writes};

    /// Writes the two's complement of a signed number in `count` bits, the first the highest digit.
    /// It refuses with `NoRoom` exactly where there is room for fewer, and else with
    /// `TooManyDigits` exactly where the number has more digits. That is where twice the number is
    /// below minus two to the `count`, or not below two to the `count`.
    ///
    /// Requires that `count` is at most the width of the number's type: `count <= N::BITS`. Costs
    /// by words where the order's positions fall, else by bits. Not in the Rust crate.
    ///
    /// # Examples
    ///
    /// ```
    /// let mut memory = [0x0Fu8];
    /// let mut writer = BitWriter::<u8, Msb0>::all_unchecked(&mut memory);
    /// assert_eq!(rt; writer.write_signed_be(4, 8i32), Err(WriteError::TooManyDigits));
    /// assert_eq!(rt; writer.write_signed_be(4, -5i32), Ok(()));
    /// drop(writer);
    /// assert_eq!(rt; memory, [0xBF]);
    /// ```
    pub fn write_signed_be<N: SignedNumber>(
        &mut self,
        count: usize,
        value: N,
    ) -> Result<(), WriteError>
        requires { count ≤ N.BITS }
        ensures accepted { IsOk result
            ↔ ((count ≤ length (room self.old)) × FitsSignedDigits count (N.number value)) }
        ensures no_room { (result ≡ Err WriteError.NoRoom) ↔ (length (room self.old) < count) }
        ensures written { MatchResult result
            (λ _. Writes self.old self.new
            (digits_be count (complement_of count (N.number value))))
            (λ _. self.new ≡ self.old) }
    {
        if self.remaining() < count {
            return Err(WriteError::NoRoom);
        }
        let number = value.to_i128();
        if !has_signed_digits(number, count) {
            return Err(WriteError::TooManyDigits);
        }
        self.put_be(count, number.cast_unsigned());
        Ok(())
    }

    /// Writes the two's complement of a signed number in `count` bits, the first the lowest digit.
    /// It refuses as [`write_signed_be`](BitWriter::write_signed_be) does.
    ///
    /// Requires that `count` is at most the width of the number's type: `count <= N::BITS`. Costs
    /// by words where the order's positions rise, else by bits. Not in the Rust crate.
    pub fn write_signed_le<N: SignedNumber>(
        &mut self,
        count: usize,
        value: N,
    ) -> Result<(), WriteError>
        requires { count ≤ N.BITS }
        ensures accepted { IsOk result
            ↔ ((count ≤ length (room self.old)) × FitsSignedDigits count (N.number value)) }
        ensures no_room { (result ≡ Err WriteError.NoRoom) ↔ (length (room self.old) < count) }
        ensures written { MatchResult result
            (λ _. Writes self.old self.new
            (digits_le count (complement_of count (N.number value))))
            (λ _. self.new ≡ self.old) }
    {
        if self.remaining() < count {
            return Err(WriteError::NoRoom);
        }
        let number = value.to_i128();
        if !has_signed_digits(number, count) {
            return Err(WriteError::TooManyDigits);
        }
        self.put_le(count, number.cast_unsigned());
        Ok(())
    }
}
