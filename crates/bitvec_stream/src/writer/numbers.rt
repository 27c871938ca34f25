//! Numbers in `count` bits, where the caller says the count.

ghost use Rattle.std.specs.Prelude.{◌≡◌, ◌+◌, ◌^◌, ◌<◌, ◌≤◌, ◌↔◌, Err, IsTrue, IsOk, IfOk, MatchResult};
ghost use Rattle.std.specs.Prelude.{length};
ghost use Rattle.bitvec_stream.specs.Numbers.{digits_le, digits_be};

use crate::error::WriteError;
use crate::number::lowest;
use crate::writer::{BitWriter, memory};
use bitvec::mem;
use bitvec::mem::BitRegister;
use bitvec::order::BitOrder;

// Whether a number has no digit from digit `count` on.
#[inline(always)]
fn has_digits<N: BitRegister>(number: N, count: usize) -> bool
    requires { count ≤ N.BITS }
    ensures { IsTrue result ↔ (N.number number < 2 ^ count) }
{
    let digits = number.to_u128();
    count == mem::bits_of::<N>() || digits >> count == 0
}

impl<'a, R: BitRegister, O: BitOrder<R>> BitWriter<'a, R, O> {
    ghost use Rattle.bitvec_stream.specs.Writer.{room, Writes};

    // Why a number is refused that has more than `count` digits: there may be no room either.
    fn refusal(&self, count: usize) -> WriteError
        ensures room { (result ≡ WriteError.NoRoom) ↔ (length (room self.now) < count) }
        ensures digits { (result ≡ WriteError.TooManyDigits) ↔ (count ≤ length (room self.now)) }
    {
        if self.remaining() < count {
            WriteError::NoRoom
        } else {
            WriteError::TooManyDigits
        }
    }

    // Writes the `count` lowest digits of a number, the highest of them first. There is room for
    // them.
    #[inline(always)]
    pub(super) fn put_be<N: BitRegister>(&mut self, count: usize, digits: N)
        requires few { count ≤ N.BITS }
        requires inside { count ≤ length (room self.old) }
        ensures { Writes self.old self.new (digits_be count (N.number digits)) }
    {
        if 0 < count && count <= self.kept {
            self.put_kept(count, lowest(count, digits));
        } else if self.is_across(count) {
            self.put_across(count, lowest(count, digits));
        } else {
            self.put_past(count, digits);
        }
    }

    // Writes the `count` lowest digits of a number, the lowest first. There is room for them.
    #[inline(always)]
    pub(super) fn put_le<N: BitRegister>(&mut self, count: usize, digits: N)
        requires few { count ≤ N.BITS }
        requires inside { count ≤ length (room self.old) }
        ensures { Writes self.old self.new (digits_le count (N.number digits)) }
    {
        let position = self.position();
        self.kept = 0;
        memory::store_le(self.span, self.memory, position, count, digits);
        self.end = position + count;
    }

    /// Writes a number in `count` bits, the first the highest digit. It refuses with `NoRoom`
    /// exactly where there is room for fewer, and else with `TooManyDigits` exactly where the
    /// number is not below two to the `count`.
    ///
    /// Requires that `count` is at most the width of the number's type: `count <= N::BITS`. Costs
    /// by words where the order's positions fall, else by bits. Not in the Rust crate.
    #[inline(always)]
    pub fn write_be<N: BitRegister>(&mut self, count: usize, value: N) -> Result<(), WriteError>
        requires { count ≤ N.BITS }
        ensures accepted { IsOk result
            ↔ ((count ≤ length (room self.old)) × (N.number value < 2 ^ count)) }
        ensures no_room { (result ≡ Err WriteError.NoRoom) ↔ (length (room self.old) < count) }
        ensures left { IfOk result (λ _. length (room self.new) + count
            ≡ length (room self.old)) }
        ensures written { MatchResult result
            (λ _. Writes self.old self.new (digits_be count (N.number value)))
            (λ _. self.new ≡ self.old) }
    {
        if !has_digits(value, count) {
            return Err(self.refusal(count));
        }
        if 0 < count && count <= self.kept {
            self.put_kept(count, value);
        } else if self.is_across(count) {
            self.put_across(count, value);
        } else if count <= self.remaining() {
            self.put_past(count, value);
        } else {
            return Err(WriteError::NoRoom);
        }
        Ok(())
    }

    /// Writes a number in `count` bits, the first the lowest digit. It refuses with `NoRoom`
    /// exactly where there is room for fewer, and else with `TooManyDigits` exactly where the
    /// number is not below two to the `count`.
    ///
    /// Requires that `count` is at most the width of the number's type: `count <= N::BITS`. Costs
    /// by words where the order's positions rise, else by bits. Not in the Rust crate.
    ///
    /// # Examples
    ///
    /// ```
    /// let mut memory = [0xFFu8];
    /// let mut writer = BitWriter::<u8, Lsb0>::all_unchecked(&mut memory);
    /// assert_eq!(rt; writer.write_le(2, 0u32), Ok(()));
    /// assert_eq!(rt; writer.write_le(3, 11u32), Err(WriteError::TooManyDigits));
    /// assert_eq!(rt; writer.write_le(4, 11u32), Ok(()));
    /// assert_eq!(rt; writer.remaining(), 2);
    /// drop(writer);
    /// assert_eq!(rt; memory, [0xEC]);
    /// ```
    pub fn write_le<N: BitRegister>(&mut self, count: usize, value: N) -> Result<(), WriteError>
        requires { count ≤ N.BITS }
        ensures accepted { IsOk result
            ↔ ((count ≤ length (room self.old)) × (N.number value < 2 ^ count)) }
        ensures no_room { (result ≡ Err WriteError.NoRoom) ↔ (length (room self.old) < count) }
        ensures left { IfOk result (λ _. length (room self.new) + count
            ≡ length (room self.old)) }
        ensures written { MatchResult result
            (λ _. Writes self.old self.new (digits_le count (N.number value)))
            (λ _. self.new ≡ self.old) }
    {
        if self.remaining() < count {
            return Err(WriteError::NoRoom);
        }
        if !has_digits(value, count) {
            return Err(WriteError::TooManyDigits);
        }
        self.put_le(count, value);
        Ok(())
    }
}
