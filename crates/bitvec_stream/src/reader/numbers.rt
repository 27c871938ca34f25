//! Numbers of `count` bits, where the caller says the count.

ghost use Rattle.std.specs.Prelude.{◌≡◌, ◌+◌, ◌≤◌, ◌↔◌, ◌++◌, IsOk, IfOk, IfErr};
ghost use Rattle.std.specs.Prelude.{length, take};
ghost use Rattle.bitvec_stream.specs.Numbers.{number_le, number_be, digits_le, digits_be};
ghost use Rattle.bitvec_stream.specs.Reader.{unread};

use crate::error::ReadError;
use crate::reader::BitReader;
use bitvec::mem::BitRegister;
use bitvec::order::{BitOrder, Direction, direction_of};

// The number of a reader's next `count` bits, the first the highest digit, apart from the calls
// that read what is kept.
#[cold]
#[inline(never)]
fn far_be<R: BitRegister, O: BitOrder<R>, N: BitRegister>(
    reader: BitReader<'_, R, O>,
    count: usize,
) -> N
    requires small { count ≤ N.BITS }
    requires inside { count ≤ length (unread reader) }
    ensures { N.number result ≡ number_be (take count (unread reader.entry)) }
{
    let position = reader.position();
    reader.slice.load_digits_be(position, position + count)
}

// The same, the first the lowest digit.
#[cold]
#[inline(never)]
fn far_le<R: BitRegister, O: BitOrder<R>, N: BitRegister>(
    reader: BitReader<'_, R, O>,
    count: usize,
) -> N
    requires small { count ≤ N.BITS }
    requires inside { count ≤ length (unread reader) }
    ensures { N.number result ≡ number_le (take count (unread reader.entry)) }
{
    let position = reader.position();
    reader.slice.load_digits_le(position, position + count)
}

impl<'a, R: BitRegister, O: BitOrder<R>> BitReader<'a, R, O> {
    ghost use Rattle.bitvec_stream.specs.Reader.{unread, PassesOrTooFew};

    // What `read_be` does where the bits are neither kept nor those of one more word, or where
    // positions do not fall.
    #[inline(always)]
    fn read_far_be<N: BitRegister>(&mut self, count: usize) -> Result<N, ReadError>
        requires { count ≤ N.BITS }
        ensures accepted { IsOk result ↔ (count ≤ length (unread self.old)) }
        ensures number { IfOk result (λ value. N.number value
            ≡ number_be (take count (unread self.old))) }
        ensures digits { IfOk result (λ value. unread self.old
            ≡ digits_be count (N.number value) ++ unread self.new) }
        ensures left { IfOk result (λ _. length (unread self.new) + count
            ≡ length (unread self.old)) }
        ensures moved { PassesOrTooFew self.old self.new count result }
    {
        if self.remaining() < count {
            return Err(ReadError::TooFew);
        }
        let value = far_be(Self::at(self.slice, self.position()), count);
        self.pass(count);
        Ok(value)
    }

    // The same of `read_le`, where positions do not rise.
    #[inline(always)]
    fn read_far_le<N: BitRegister>(&mut self, count: usize) -> Result<N, ReadError>
        requires { count ≤ N.BITS }
        ensures accepted { IsOk result ↔ (count ≤ length (unread self.old)) }
        ensures number { IfOk result (λ value. N.number value
            ≡ number_le (take count (unread self.old))) }
        ensures digits { IfOk result (λ value. unread self.old
            ≡ digits_le count (N.number value) ++ unread self.new) }
        ensures left { IfOk result (λ _. length (unread self.new) + count
            ≡ length (unread self.old)) }
        ensures moved { PassesOrTooFew self.old self.new count result }
    {
        if self.remaining() < count {
            return Err(ReadError::TooFew);
        }
        let value = far_le(Self::at(self.slice, self.position()), count);
        self.pass(count);
        Ok(value)
    }

    /// The number of the next `count` bits, the first the highest digit. No bits are 0. It refuses
    /// with `TooFew` exactly where fewer are left.
    ///
    /// Requires that `count` is at most the width of the number's type: `count <= N::BITS`. Costs
    /// by words where the order's positions fall, else by bits. Not in the Rust crate.
    #[inline(always)]
    pub fn read_be<N: BitRegister>(&mut self, count: usize) -> Result<N, ReadError>
        requires { count ≤ N.BITS }
        ensures accepted { IsOk result ↔ (count ≤ length (unread self.old)) }
        ensures number { IfOk result (λ value. N.number value
            ≡ number_be (take count (unread self.old))) }
        ensures digits { IfOk result (λ value. unread self.old
            ≡ digits_be count (N.number value) ++ unread self.new) }
        ensures left { IfOk result (λ _. length (unread self.new) + count
            ≡ length (unread self.old)) }
        ensures moved { PassesOrTooFew self.old self.new count result }
    {
        if direction_of::<R, O>() == Direction::Falls {
            if let Some(value) = self.read_near(count) {
                return Ok(value);
            }
        }
        self.read_far_be(count)
    }

    /// The number of the next `count` bits, the first the lowest digit. No bits are 0. It refuses
    /// with `TooFew` exactly where fewer are left.
    ///
    /// Requires that `count` is at most the width of the number's type: `count <= N::BITS`. Costs
    /// by words where the order's positions rise, else by bits. Not in the Rust crate.
    ///
    /// # Examples
    ///
    /// ```
    /// let memory = [0x2Cu8];
    /// let mut reader = BitReader::new(BitSlice::<u8, Lsb0>::all_unchecked(&memory));
    /// assert_eq!(rt; reader.read_le::<u32>(2), Ok(0));
    /// assert_eq!(rt; reader.peek_be::<u32>(4), Ok(13));
    /// assert_eq!(rt; reader.read_le::<u32>(4), Ok(11));
    /// assert_eq!(rt; reader.read_le::<u32>(3), Err(ReadError::TooFew));
    /// ```
    #[inline(always)]
    pub fn read_le<N: BitRegister>(&mut self, count: usize) -> Result<N, ReadError>
        requires { count ≤ N.BITS }
        ensures accepted { IsOk result ↔ (count ≤ length (unread self.old)) }
        ensures number { IfOk result (λ value. N.number value
            ≡ number_le (take count (unread self.old))) }
        ensures digits { IfOk result (λ value. unread self.old
            ≡ digits_le count (N.number value) ++ unread self.new) }
        ensures left { IfOk result (λ _. length (unread self.new) + count
            ≡ length (unread self.old)) }
        ensures moved { PassesOrTooFew self.old self.new count result }
    {
        if direction_of::<R, O>() == Direction::Rises {
            if let Some(value) = self.read_near(count) {
                return Ok(value);
            }
        }
        self.read_far_le(count)
    }

    /// What [`read_be`](BitReader::read_be) gives; the reader stays before the bits. Requires and
    /// costs the same. Not in the Rust crate.
    pub fn peek_be<N: BitRegister>(&self, count: usize) -> Result<N, ReadError>
        requires { count ≤ N.BITS }
        ensures accepted { IsOk result ↔ (count ≤ length (unread self.now)) }
        ensures number { IfOk result (λ value. N.number value
            ≡ number_be (take count (unread self.now))) }
        ensures refused { IfErr result (λ error. error ≡ ReadError.TooFew) }
    {
        if self.remaining() < count {
            return Err(ReadError::TooFew);
        }
        let position = self.position();
        Ok(self.slice.load_digits_be(position, position + count))
    }

    /// What [`read_le`](BitReader::read_le) gives; the reader stays before the bits. Requires and
    /// costs the same. Not in the Rust crate.
    #[inline(always)]
    pub fn peek_le<N: BitRegister>(&self, count: usize) -> Result<N, ReadError>
        requires { count ≤ N.BITS }
        ensures accepted { IsOk result ↔ (count ≤ length (unread self.now)) }
        ensures number { IfOk result (λ value. N.number value
            ≡ number_le (take count (unread self.now))) }
        ensures refused { IfErr result (λ error. error ≡ ReadError.TooFew) }
    {
        if self.remaining() < count {
            return Err(ReadError::TooFew);
        }
        let position = self.position();
        Ok(self.slice.load_digits_le(position, position + count))
    }
}
