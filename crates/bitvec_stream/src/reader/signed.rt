//! Signed numbers of `count` bits, as two's complements, where the caller says the count.

ghost use Rattle.std.specs.Prelude.{◌≡◌, ◌≤◌, ◌↔◌, IsOk, IfOk, length, take};
ghost use Rattle.bitvec_slice.specs.Signed.{signed_of};
ghost use Rattle.bitvec_stream.specs.Numbers.{number_le, number_be};

use crate::error::ReadError;
use crate::number::{load_signed_be, load_signed_le};
use crate::reader::BitReader;
use bitvec::mem::BitRegister;
use bitvec::order::BitOrder;
use bitvec_slice::field::SignedNumber;

impl<'a, R: BitRegister, O: BitOrder<R>> BitReader<'a, R, O> {
    ghost use Rattle.bitvec_stream.specs.Reader.{unread, PassesOrTooFew};

    /// The signed number whose two's complement the next `count` bits are, the first the highest
    /// digit. No bits are 0. It refuses with `TooFew` exactly where fewer are left.
    ///
    /// Requires that `count` is at most the width of the number's type: `count <= N::BITS`. Costs
    /// by words where the order's positions fall, else by bits. Not in the Rust crate.
    ///
    /// # Examples
    ///
    /// ```
    /// let memory = [0xB0u8];
    /// let mut reader = BitReader::new(BitSlice::<u8, Msb0>::all_unchecked(&memory));
    /// assert_eq!(rt; reader.peek_be::<u8>(4), Ok(11));
    /// assert_eq!(rt; reader.read_signed_be::<i8>(4), Ok(-5));
    /// assert_eq!(rt; reader.read_signed_be::<i64>(4), Ok(0));
    /// ```
    pub fn read_signed_be<N: SignedNumber>(&mut self, count: usize) -> Result<N, ReadError>
        requires { count ≤ N.BITS }
        ensures accepted { IsOk result ↔ (count ≤ length (unread self.old)) }
        ensures number { IfOk result (λ value. N.number value
            ≡ signed_of count (number_be (take count (unread self.old)))) }
        ensures moved { PassesOrTooFew self.old self.new count result }
    {
        let part = self.read_slice(count)?;
        Ok(load_signed_be(part))
    }

    /// The signed number whose two's complement the next `count` bits are, the first the lowest
    /// digit. No bits are 0. It refuses with `TooFew` exactly where fewer are left.
    ///
    /// Requires that `count` is at most the width of the number's type: `count <= N::BITS`. Costs
    /// by words where the order's positions rise, else by bits. Not in the Rust crate.
    pub fn read_signed_le<N: SignedNumber>(&mut self, count: usize) -> Result<N, ReadError>
        requires { count ≤ N.BITS }
        ensures accepted { IsOk result ↔ (count ≤ length (unread self.old)) }
        ensures number { IfOk result (λ value. N.number value
            ≡ signed_of count (number_le (take count (unread self.old)))) }
        ensures moved { PassesOrTooFew self.old self.new count result }
    {
        let part = self.read_slice(count)?;
        Ok(load_signed_le(part))
    }
}
