//! Numbers as Exp-Golomb codes.

ghost use Rattle.std.specs.Prelude.{◌≡◌, ◌+◌, ◌<◌, ◌≤◌, ◌^◌, ℕ, MatchOption, MatchResult};
ghost use Rattle.std.specs.Prelude.{IsTrue, ◌↔◌, ◌-◌, true, length};
ghost use Rattle.bitvec.specs.Span.{element};
ghost use Rattle.bitvec_slice.specs.BitSlice.{slice_bits};
ghost use Rattle.bitvec_stream.specs.Golomb.{golomb, StartsWith, IsCode, signed_place};
ghost use Rattle.bitvec_stream.specs.Golomb.{IsSignedLacking};
ghost use Rattle.bitvec_stream.specs.Numbers.{number_be};
ghost use Rattle.bitvec_stream.specs.Reader.{unread};
ghost use Rattle.bitvec_stream.specs.Refusals.{IsCodeRefusal};

use crate::error::ReadError;
use crate::number::load_be;
use crate::reader::BitReader;
use bitvec::mem::BitRegister;
use bitvec::order::BitOrder;
use bitvec_slice::field::SignedNumber;
use bitvec_slice::slice::BitSlice;

// One less than the number of a slice's bits, the first the highest digit, and `None` where that is
// no number of 128 digits.
fn code_number<R: BitRegister, O: BitOrder<R>>(digits: BitSlice<'_, R, O>) -> Option<u128>
    requires { element (slice_bits digits) 0 ≡ true }
    ensures { let above = number_be (slice_bits digits.entry)
        in MatchOption result (2 ^ 128 < above) (λ n. (n + 1 ≡ above) × (n < 2 ^ 128)) }
{
    if digits.len() <= 128 {
        return Some(load_be(digits) - 1);
    }
    if 129 < digits.len() {
        return None;
    }
    let (_, low) = digits.split_at(1);
    if low.not_any() { Some(u128::MAX) } else { None }
}

// The same as a value of a type that has it.
fn code_value<R: BitRegister, O: BitOrder<R>, N: BitRegister>(
    digits: BitSlice<'_, R, O>,
) -> Option<N>
    requires { element (slice_bits digits) 0 ≡ true }
    ensures { let above = number_be (slice_bits digits.entry)
        in MatchOption result (2 ^ N.BITS < above) (λ value. N.number value + 1 ≡ above) }
{
    match code_number(digits) {
        Some(number) => N::from_u128(number),
        None => None,
    }
}

// Whether the number of a slice's bits, the first the highest digit, is two to the 128 and one.
fn is_least<R: BitRegister, O: BitOrder<R>>(digits: BitSlice<'_, R, O>) -> bool
    requires { element (slice_bits digits) 0 ≡ true }
    ensures { IsTrue result ↔ (number_be (slice_bits digits.entry) ≡ 2 ^ 128 + 1) }
{
    if digits.len() != 129 {
        return false;
    }
    let (_, low) = digits.split_at(1);
    load_be(low) == 1
}

// The signed number whose code has these digits, from its first one on, and `None` where it has
// more than 128 digits.
fn signed_code_number<R: BitRegister, O: BitOrder<R>>(digits: BitSlice<'_, R, O>) -> Option<i128>
    requires { element (slice_bits digits) 0 ≡ true }
    ensures { let above = number_be (slice_bits digits.entry)
        in MatchOption result (IsSignedLacking 128 (above - 1))
        (λ z. signed_place z + 1 ≡ above) }
{
    match code_number(digits) {
        Some(u128::MAX) => None,
        Some(n) if n % 2 == 0 => Some(-((n / 2) as i128)),
        Some(n) => Some((n / 2 + 1) as i128),
        None if is_least(digits) => Some(i128::MIN),
        None => None,
    }
}

// The same as a value of a type that has it.
fn signed_code_value<R: BitRegister, O: BitOrder<R>, N: SignedNumber>(
    digits: BitSlice<'_, R, O>,
) -> Option<N>
    requires { element (slice_bits digits) 0 ≡ true }
    ensures { let above = number_be (slice_bits digits.entry)
        in MatchOption result (IsSignedLacking N.BITS (above - 1))
        (λ value. signed_place (N.number value) + 1 ≡ above) }
{
    match signed_code_number(digits) {
        Some(number) => N::from_i128(number),
        None => None,
    }
}

// The number whose code a reader's bits begin with, and how long that code is, whatever it is.
#[cold]
#[inline(never)]
fn far_code<R: BitRegister, O: BitOrder<R>, N: BitRegister>(
    reader: BitReader<'_, R, O>,
) -> Result<(N, usize), ReadError>
    ensures { MatchResult result
        (λ it. let code = golomb (N.number it.0)
        in StartsWith (unread reader.entry) code × (it.1 ≡ length code))
        (IsCodeRefusal (λ n. 2 ^ N.BITS ≤ n) (unread reader.entry)) }
{
    let digits = reader.code()?;
    match code_value(digits) {
        Some(value) => Ok((value, 2 * digits.len() - 1)),
        None => Err(ReadError::TooLarge),
    }
}

impl<'a, R: BitRegister, O: BitOrder<R>> BitReader<'a, R, O> {
    ghost use Rattle.bitvec_stream.specs.Reader.{unread, Passes};

    // The digits of the code that the bits that are left begin with, from its first one on.
    fn code(&self) -> Result<BitSlice<'a, R, O>, ReadError>
        ensures { MatchResult result (λ digits. IsCode (unread self.now) (slice_bits digits))
            (λ error. (error ≡ ReadError.Unended)
            × ((n : ℕ) → ¬ StartsWith (unread self.now) (golomb n))) }
    {
        match self.run_of(false) {
            Some(zeros) => {
                let first = self.position() + zeros;
                match self.slice.get_range(first, first + zeros + 1) {
                    Some(digits) => Ok(digits),
                    None => Err(ReadError::Unended),
                }
            }
            None => Err(ReadError::Unended),
        }
    }

    /// The number whose Exp-Golomb code the bits that are left begin with, as `ue(v)` of ITU-T
    /// H.264 and H.265. The code of `n` is the binary digits of `n + 1`, the highest first, and
    /// before them one zero fewer than there are digits. So `1` is 0, `010` is 1, `011` is 2 and
    /// `00100` is 3.
    ///
    /// It refuses with `Unended` exactly where the bits that are left begin with no number's code,
    /// as they end before it does. It refuses with `TooLarge` exactly where they begin with the
    /// code of a number that passes the type. Costs as [`read_be`](BitReader::read_be). Not in the
    /// Rust crate.
    ///
    /// # Examples
    ///
    /// ```
    /// let memory = [0xA6u8, 0x42];
    /// let mut reader = BitReader::new(BitSlice::<u8, Msb0>::all_unchecked(&memory));
    /// assert_eq!(rt; reader.read_exp_golomb::<u8>(), Ok(0));
    /// assert_eq!(rt; reader.read_exp_golomb::<u8>(), Ok(1));
    /// assert_eq!(rt; reader.read_exp_golomb::<u8>(), Ok(2));
    /// assert_eq!(rt; reader.read_exp_golomb::<u8>(), Ok(3));
    /// assert_eq!(rt; reader.read_exp_golomb::<u8>(), Err(ReadError::Unended));
    /// assert_eq!(rt; reader.remaining(), 4);
    /// ```
    #[inline(always)]
    pub fn read_exp_golomb<N: BitRegister>(&mut self) -> Result<N, ReadError>
        ensures value { MatchResult result
            (λ value. StartsWith (unread self.old) (golomb (N.number value)))
            (IsCodeRefusal (λ n. 2 ^ N.BITS ≤ n) (unread self.old)) }
        ensures moved { MatchResult result
            (λ value. Passes self.old self.new (length (golomb (N.number value))))
            (λ _. self.new ≡ self.old) }
    {
        if let Some((count, above)) = self.kept_code() {
            return match N::from_u128(above.to_u128() - 1) {
                Some(value) => {
                    self.pass_kept(count);
                    Ok(value)
                }
                None => Err(ReadError::TooLarge),
            };
        }
        if let Some(chunk) = self.chunk() {
            if let Some((count, above)) = self.joined_code(chunk) {
                return match N::from_u128(above.to_u128() - 1) {
                    Some(value) => {
                        self.pass_into(chunk, count);
                        Ok(value)
                    }
                    None => Err(ReadError::TooLarge),
                };
            }
        }
        let (value, count) = far_code(Self::at(self.slice, self.position()))?;
        self.pass(count);
        Ok(value)
    }

    /// The signed number whose Exp-Golomb code the bits that are left begin with, as `se(v)` of
    /// ITU-T H.264 and H.265. The codes of 0, 1, 2, 3, 4 and so on are those of 0, 1, -1, 2, -2 and
    /// so on. It refuses as [`read_exp_golomb`](BitReader::read_exp_golomb) does, and costs as
    /// much. Not in the Rust crate.
    pub fn read_signed_exp_golomb<N: SignedNumber>(&mut self) -> Result<N, ReadError>
        ensures value { MatchResult result
            (λ value. StartsWith (unread self.old) (golomb (signed_place (N.number value))))
            (IsCodeRefusal (IsSignedLacking N.BITS) (unread self.old)) }
        ensures moved { MatchResult result
            (λ value. Passes self.old self.new (length (golomb (signed_place (N.number value)))))
            (λ _. self.new ≡ self.old) }
    {
        let digits = self.code()?;
        match signed_code_value(digits) {
            Some(value) => {
                self.pass(2 * digits.len() - 1);
                Ok(value)
            }
            None => Err(ReadError::TooLarge),
        }
    }
}
