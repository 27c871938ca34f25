//! Numbers in unary: for `n`, `n` equal bits and one that differs.

ghost use Rattle.std.specs.Prelude.{◌<◌, ◌≤◌, ◌↔◌, ◌∷◌, ◌++◌, [], IsOk, not};
ghost use Rattle.std.specs.Prelude.{length};
ghost use Rattle.std.specs.Prelude.{replicate};

use crate::error::WriteError;
use crate::writer::{BitWriter, memory};
use bitvec::mem::BitRegister;
use bitvec::order::BitOrder;

impl<'a, R: BitRegister, O: BitOrder<R>> BitWriter<'a, R, O> {
    ghost use Rattle.bitvec_stream.specs.Writer.{room, Writes, WritesOrNoRoom};

    // Writes the same bit `count` times.
    pub(super) fn fill(&mut self, bit: bool, count: usize)
        requires { count ≤ length (room self.old) }
        ensures { Writes self.old self.new (replicate count bit) }
    {
        let position = self.position();
        self.kept = 0;
        memory::fill_bits(self.span, self.memory, position, count, bit);
        self.end = position + count;
    }

    /// Writes `count` bits that are `bit`, and one that is not, so that
    /// [`read_unary`](crate::reader::BitReader::read_unary) gives the count back. It refuses with
    /// `NoRoom` exactly where there is room for fewer. Costs by words. Not in the Rust crate.
    ///
    /// # Examples
    ///
    /// ```
    /// let mut memory = [0x00u8];
    /// let mut writer = BitWriter::<u8, Msb0>::all_unchecked(&mut memory);
    /// assert_eq!(rt; writer.write_unary(true, 3), Ok(()));
    /// assert_eq!(rt; writer.write_unary(false, 1), Ok(()));
    /// assert_eq!(rt; writer.write_unary(false, 2), Err(WriteError::NoRoom));
    /// drop(writer);
    /// assert_eq!(rt; memory, [0xE4]);
    /// ```
    pub fn write_unary(&mut self, bit: bool, count: usize) -> Result<(), WriteError>
        ensures accepted { IsOk result ↔ (count < length (room self.old)) }
        ensures written { WritesOrNoRoom self.old self.new (replicate count bit ++ (not bit ∷ []))
            result }
    {
        if self.remaining() <= count {
            return Err(WriteError::NoRoom);
        }
        self.fill(bit, count);
        self.fill(!bit, 1);
        Ok(())
    }
}
