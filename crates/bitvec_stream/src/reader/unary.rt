//! Numbers in unary: for `n`, `n` equal bits and one that differs.

ghost use Rattle.std.specs.Prelude.{◌≡◌, ◌+◌, ◌<◌, MatchOption, MatchResult, length};
ghost use Rattle.bitvec.specs.Truths.{AllAre};
ghost use Rattle.bitvec_slice.specs.Bits.{BeginsWith};

use crate::error::ReadError;
use crate::reader::BitReader;
use bitvec::mem::BitRegister;
use bitvec::order::BitOrder;

impl<'a, R: BitRegister, O: BitOrder<R>> BitReader<'a, R, O> {
    ghost use Rattle.bitvec_stream.specs.Reader.{unread, Passes};

    // How many of the bits that are left are `bit` before the first that is not; `None` where all
    // are.
    pub(super) fn run_of(&self, bit: bool) -> Option<usize>
        ensures { MatchOption result (AllAre bit (unread self.now))
            (λ count. (count < length (unread self.now)) × BeginsWith bit (unread self.now) count) }
    {
        let position = self.position();
        let found = if bit {
            self.slice.next_zero(position)
        } else {
            self.slice.next_one(position)
        };
        match found {
            Some(index) => Some(index - position),
            None => None,
        }
    }

    /// How many bits are `bit` before the first that is not, which is read too. It refuses with
    /// `Unended` exactly where all that are left are `bit`, also where none is left.
    ///
    /// Costs as [`next_one`](bitvec_slice::slice::BitSlice::next_one) does. Not in the Rust crate.
    ///
    /// # Examples
    ///
    /// ```
    /// let memory = [0xE4u8];
    /// let mut reader = BitReader::new(BitSlice::<u8, Msb0>::all_unchecked(&memory));
    /// assert_eq!(rt; reader.read_unary(true), Ok(3));
    /// assert_eq!(rt; reader.read_unary(false), Ok(1));
    /// assert_eq!(rt; reader.read_unary(false), Err(ReadError::Unended));
    /// assert_eq!(rt; reader.remaining(), 2);
    /// ```
    pub fn read_unary(&mut self, bit: bool) -> Result<usize, ReadError>
        ensures value { MatchResult result
            (λ count. (count < length (unread self.old)) × BeginsWith bit (unread self.old) count)
            (λ error. (error ≡ ReadError.Unended) × AllAre bit (unread self.old)) }
        ensures moved { MatchResult result (λ count. Passes self.old self.new (count + 1))
            (λ _. self.new ≡ self.old) }
    {
        match self.run_of(bit) {
            Some(count) => {
                self.pass(count + 1);
                Ok(count)
            }
            None => Err(ReadError::Unended),
        }
    }
}
