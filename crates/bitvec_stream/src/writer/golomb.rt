//! Numbers as Exp-Golomb codes.

ghost use Rattle.std.specs.Prelude.{◌≡◌, ◌+◌, ◌-◌, ◌^◌, ◌<◌, ◌≤◌, ◌↔◌, IsOk, MatchResult, length};
ghost use Rattle.bitvec_stream.specs.Golomb.{golomb, signed_place};

use crate::error::WriteError;
use crate::writer::BitWriter;
use bitvec::mem::BitRegister;
use bitvec::order::BitOrder;
use bitvec_slice::field::SignedNumber;

// The place of a number's highest digit, and the number without that digit.
fn without_top(digits: u128) -> (usize, u128)
    requires { 0 < digits }
    ensures place { result.0 ≤ 127 }
    ensures low { result.1 < 2 ^ result.0 }
    ensures whole { 2 ^ result.0 + result.1 ≡ digits }
{
    let top = digits.ilog2();
    (top as usize, digits - (1 << top))
}

impl<'a, R: BitRegister, O: BitOrder<R>> BitWriter<'a, R, O> {
    ghost use Rattle.bitvec_stream.specs.Writer.{room, Writes, WritesOrNoRoom};

    // Writes `zeros` zeros, a one, and `zeros` digits of the number `low`, the highest first.
    fn put_code(&mut self, zeros: usize, low: u128) -> Result<(), WriteError>
        requires most { zeros ≤ 128 }
        requires below { low < 2 ^ zeros }
        ensures accepted { let code = golomb (2 ^ zeros + low - 1)
            in IsOk result ↔ (length code ≤ length (room self.old)) }
        ensures written { let code = golomb (2 ^ zeros + low - 1) in WritesOrNoRoom self.old
            self.new code result }
    {
        if self.remaining() < 2 * zeros + 1 {
            return Err(WriteError::NoRoom);
        }
        self.fill(false, zeros);
        self.fill(true, 1);
        self.put_be(zeros, low);
        Ok(())
    }

    // Writes the code of one less than a number.
    fn put_digits(&mut self, digits: u128) -> Result<(), WriteError>
        requires { 0 < digits }
        ensures accepted { IsOk result ↔ (length (golomb (digits - 1)) ≤ length (room self.old)) }
        ensures written { WritesOrNoRoom self.old self.new (golomb (digits - 1)) result }
    {
        let (zeros, low) = without_top(digits);
        self.put_code(zeros, low)
    }

    /// Writes a number's Exp-Golomb code, as `ue(v)` of ITU-T H.264 and H.265:
    /// [`read_exp_golomb`](crate::reader::BitReader::read_exp_golomb) says which it is. It refuses
    /// with `NoRoom` exactly where there is room for fewer bits. Costs as
    /// [`write_be`](BitWriter::write_be). Not in the Rust crate.
    ///
    /// # Examples
    ///
    /// ```
    /// let mut memory = [0x00u8; 2];
    /// let mut writer = BitWriter::<u8, Msb0>::all_unchecked(&mut memory);
    /// for number in 0u8..4 {
    ///     assert_eq!(rt; writer.write_exp_golomb(number), Ok(()));
    /// }
    /// assert_eq!(rt; writer.write_exp_golomb(3u8), Err(WriteError::NoRoom));
    /// drop(writer);
    /// assert_eq!(rt; memory, [0xA6, 0x40]);
    /// ```
    pub fn write_exp_golomb<N: BitRegister>(&mut self, value: N) -> Result<(), WriteError>
        ensures accepted { let code = golomb (N.number value)
            in IsOk result ↔ (length code ≤ length (room self.old)) }
        ensures written { WritesOrNoRoom self.old self.new (golomb (N.number value)) result }
    {
        let number = value.to_u128();
        if number == u128::MAX {
            return self.put_code(128, 0);
        }
        self.put_digits(number + 1)
    }

    /// Writes a signed number's Exp-Golomb code, as `se(v)` of ITU-T H.264 and H.265:
    /// [`read_signed_exp_golomb`](crate::reader::BitReader::read_signed_exp_golomb) says which it
    /// is. It refuses with `NoRoom` exactly where there is room for fewer bits. Costs as
    /// [`write_be`](BitWriter::write_be). Not in the Rust crate.
    pub fn write_signed_exp_golomb<N: SignedNumber>(&mut self, value: N) -> Result<(), WriteError>
        ensures accepted { let code = golomb (signed_place (N.number value))
            in IsOk result ↔ (length code ≤ length (room self.old)) }
        ensures written { WritesOrNoRoom self.old self.new (golomb (signed_place (N.number value)))
            result }
    {
        let number = value.to_i128();
        if number > 0 {
            return self.put_digits(2 * number as u128);
        }
        if number == i128::MIN {
            return self.put_code(128, 1);
        }
        self.put_digits(2 * (-number) as u128 + 1)
    }
}
