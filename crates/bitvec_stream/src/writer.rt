//! A writer of numbers that stand one behind the other into a slice of bits.

ghost use Rattle.std.specs.Prelude.{◌≡◌, ◌+◌, ◌*◌, ◌<◌, ◌≤◌, ◌%◌, ◌↔◌, ◌∷◌, ◌++◌, [], IsOk, IfOk};
ghost use Rattle.std.specs.Prelude.{Bool, List, drop, length, map};
ghost use Rattle.bitvec.specs.BitSpan.{span_of, list_by};
ghost use Rattle.bitvec.specs.Memory.{memory_bits};
ghost use Rattle.bitvec.specs.Place.{region_max_bits};
ghost use Rattle.bitvec.specs.Span.{Fits, span_upto, span_from, front_span};
ghost use Rattle.bitvec_slice.specs.BitSlice.{slice_memory, slice_span, slice_len, slice_bits};
ghost use Rattle.bitvec_slice.specs.BitSliceMut.{lent_memory, lent_span, lent_bits};
ghost use Rattle.bitvec_slice.specs.Lengths.{HasLength};
ghost use Rattle.bitvec_slice.specs.Whole.{ShowsMemory};
ghost use Rattle.bitvec_stream.specs.Multiples.{to_multiple};
ghost use Rattle.bitvec_stream.specs.Window.{IsKnown};

mod golomb;
mod memory;
mod numbers;
mod signed;
mod unary;
mod window;

use crate::error::WriteError;
use bitvec::mem::BitRegister;
use bitvec::order::BitOrder;
use bitvec::ptr::span::BitSpan;
use bitvec_slice::slice::{BitSlice, BitSliceMut};

/// The bits of a span in a memory, borrowed for writing, and the place among them behind those that
/// were written.
///
/// The memory is lent until the writer is used for the last time, and then has what was written in
/// its place and every other bit as it was. Where a call refuses, it writes nothing and the writer
/// is as it was. Not in the Rust crate.
///
/// # Examples
///
/// The first numbers of an IPv4 header.
///
/// ```
/// let mut header = [0x00u8; 4];
/// let mut writer = BitWriter::<u8, Msb0>::all_unchecked(&mut header);
/// assert_eq!(rt; writer.write_be(4, 4u8), Ok(()));
/// assert_eq!(rt; writer.write_be(4, 5u8), Ok(()));
/// assert_eq!(rt; writer.skip(8), Ok(()));
/// assert_eq!(rt; writer.write_be(16, 1500u16), Ok(()));
/// assert_eq!(rt; writer.write_bit(true), Err(WriteError::NoRoom));
/// drop(writer);
/// assert_eq!(rt; header, [0x45, 0x00, 0x05, 0xDC]);
/// ```
#[derive(Drop)]
pub struct BitWriter<'a, R: BitRegister, O: BitOrder<R>> {
    memory: &'a mut [R],
    span: BitSpan<R, O>,
    // How many bits were written, or stand behind those in a word that is known; and of them, how
    // many stand there: 0 where no word is known.
    end: usize,
    kept: usize,
    // Which word of those that the span meets that is, and its number. A value of type `R` beside
    // the loan would hide from the checker what the memory has when the loan ends.
    word: usize,
    window: u128,
    pub ghost fits: { Fits R.BITS (span_of span) (length memory.now) },
    // The span's list has the length of the span, whatever the words of the memory are.
    pub ghost many: { HasLength R.BITS O.at_of (span_of span) },
    pub ghost within: { end ≤ (span_of span).len },
    pub ghost behind: { kept ≤ end },
    pub ghost shown: { IsKnown R.BITS O.at_of (span_of span).head (list_by span O.at_of memory.now)
        end kept word window },
}

impl<'a, R: BitRegister, O: BitOrder<R>> BitWriter<'a, R, O> {
    ghost use Rattle.bitvec_stream.specs.Writer.{target_memory, target_span, target_bits};
    ghost use Rattle.bitvec_stream.specs.Writer.{bits_written, written, room, WritesOrNoRoom};
    ghost use Rattle.bitvec_stream.specs.Writer.{Writes, SkipsOrNoRoom};

    /// A writer before the first bit of a span in a memory. Requires that the span lies in it:
    /// [`fits`](BitSpan::fits) is the test. Constant time. Not in the Rust crate.
    pub fn over_unchecked(span: BitSpan<R, O>, memory: &'a mut [R]) -> Self
        requires { Fits R.BITS (span_of span) (length memory.old) }
        ensures reference { (target_memory result).ghost_name ≡ memory.entry.ghost_name }
        ensures memory { (target_memory result).now ≡ memory.old }
        ensures span { target_span result ≡ span_of span }
        ensures position { bits_written result ≡ 0 }
        ensures room { room result ≡ list_by span O.at_of memory.old }
    {
        BitWriter {
            memory,
            span,
            end: 0,
            kept: 0,
            word: 0,
            window: 0,
        }
    }

    /// A writer before the first bit of a memory. Requires that there are at most
    /// 2305843009213693951 bits. Constant time. Not in the Rust crate.
    pub fn all_unchecked(memory: &'a mut [R]) -> Self
        requires { length memory.old * R.BITS ≤ region_max_bits }
        ensures reference { (target_memory result).ghost_name ≡ memory.entry.ghost_name }
        ensures memory { (target_memory result).now ≡ memory.old }
        ensures span { target_span result ≡ front_span (length memory.old * R.BITS) }
        ensures position { bits_written result ≡ 0 }
        ensures room { room result ≡ memory_bits R.BITS O.at_of (map R.number memory.old) }
        ensures whole { ShowsMemory R.BITS O.at_of (target_span result) (length memory.old) }
    {
        Self::new(BitSliceMut::all_unchecked(memory))
    }

    /// A writer before the first bit of a slice. Constant time. Not in the Rust crate.
    ///
    /// A proof follows the memory through [`over_unchecked`](BitWriter::over_unchecked) and
    /// [`all_unchecked`](BitWriter::all_unchecked), and not through a slice by value.
    pub fn new(slice: BitSliceMut<'a, R, O>) -> Self
        ensures reference { (target_memory result).ghost_name
            ≡ (lent_memory slice.entry).ghost_name }
        ensures memory { (target_memory result).now ≡ (lent_memory slice.entry).now }
        ensures span { target_span result ≡ lent_span slice.entry }
        ensures position { bits_written result ≡ 0 }
        ensures room { room result ≡ lent_bits slice.entry }
    {
        let (span, memory) = slice.into_parts();
        Self::over_unchecked(span, memory)
    }

    // The bits that it may write, with those that it wrote, for reading.
    #[inline(always)]
    fn slice(&self) -> BitSlice<'_, R, O>
        ensures memory { slice_memory result ≡ (target_memory self.now).now }
        ensures span { slice_span result ≡ target_span self.now }
        ensures bits { slice_bits result ≡ target_bits self.now }
    {
        BitSlice::new_unchecked(self.span, &*self.memory)
    }

    /// How many bits were written or passed over. Constant time. Not in the Rust crate.
    pub fn position(&self) -> usize
        ensures value { result ≡ bits_written self.now }
        ensures list { result ≡ length (written self.now) }
    {
        self.end - self.kept
    }

    /// For how many bits there is room. Constant time. Not in the Rust crate.
    pub fn remaining(&self) -> usize
        ensures { result ≡ length (room self.now) }
    {
        self.span.len() - self.position()
    }

    /// What was written or passed over, for reading. Constant time. Not in the Rust crate.
    ///
    /// # Examples
    ///
    /// ```
    /// let mut memory = [0x00u8; 2];
    /// let mut writer = BitWriter::<u8, Lsb0>::all_unchecked(&mut memory);
    /// writer.write_le(5, 11u8)?;
    /// assert_eq!(rt; writer.written().len(), 5);
    /// let mut reader = BitReader::new(writer.written());
    /// assert_eq!(rt; reader.read_le::<u8>(5), Ok(11));
    /// ```
    pub fn written(&self) -> BitSlice<'_, R, O>
        ensures bits { slice_bits result ≡ written self.now }
        ensures memory { slice_memory result ≡ (target_memory self.now).now }
        ensures span { slice_span result ≡ span_upto (target_span self.now) (bits_written self.now) }
    {
        let (written, _) = self.slice().split_at(self.position());
        written
    }

    /// What was written or passed over behind the first `from` bits of it, for reading. Requires
    /// that there are as many. Constant time. Not in the Rust crate.
    ///
    /// # Examples
    ///
    /// ```
    /// let mut memory = [0x00u8; 2];
    /// let mut writer = BitWriter::<u8, Lsb0>::all_unchecked(&mut memory);
    /// writer.write_le(3, 6u8)?;
    /// let before = writer.position();
    /// writer.write_le(5, 11u8)?;
    /// let mut reader = BitReader::new(writer.written_from(before));
    /// assert_eq!(rt; reader.read_le::<u8>(5), Ok(11));
    /// assert_eq!(rt; reader.remaining(), 0);
    /// ```
    pub fn written_from(&self, from: usize) -> BitSlice<'_, R, O>
        requires { from ≤ length (written self.now) }
        ensures bits { slice_bits result ≡ drop from (written self.now) }
        ensures memory { slice_memory result ≡ (target_memory self.now).now }
        ensures span { slice_span result ≡ span_from R.BITS
            (span_upto (target_span self.now) (bits_written self.now)) from }

        // Behind whatever stood there when `from` bits were written: these are what came since.
        ensures since { (before bits : List Bool) → length before ≡ from
            → written self.now ≡ before ++ bits → slice_bits result ≡ bits }
    {
        let (_, behind) = self.written().split_at(from);
        behind
    }

    /// The whole slice, with what was written in its first [`position`](BitWriter::position) bits
    /// and the rest as it was. Constant time. Not in the Rust crate.
    pub fn finish(self) -> BitSliceMut<'a, R, O>
        ensures reference { (lent_memory result).ghost_name
            ≡ (target_memory self.entry).ghost_name }
        ensures memory { (lent_memory result).now ≡ (target_memory self.entry).now }
        ensures span { lent_span result ≡ target_span self.entry }
        ensures bits { lent_bits result ≡ written self.entry ++ room self.entry }
    {
        BitSliceMut::new_unchecked(self.span, self.memory)
    }

    /// Writes a bit. It refuses with `NoRoom` exactly where there is room for none. Constant time.
    /// Not in the Rust crate.
    pub fn write_bit(&mut self, bit: bool) -> Result<(), WriteError>
        ensures accepted { IsOk result ↔ (0 < length (room self.old)) }
        ensures written { WritesOrNoRoom self.old self.new (bit ∷ []) result }
    {
        let position = self.position();
        if self.span.len() <= position {
            return Err(WriteError::NoRoom);
        }
        self.kept = 0;
        self.span.write(self.memory, position, bit);
        self.end = position + 1;
        Ok(())
    }

    // Writes the bits of a slice, for which there is room.
    fn put_slice<R2: BitRegister, O2: BitOrder<R2>>(&mut self, source: BitSlice<'_, R2, O2>)
        requires { slice_len source ≤ length (room self.old) }
        ensures { Writes self.old self.new (slice_bits source.entry) }
    {
        let (position, count) = (self.position(), source.len());
        self.kept = 0;
        memory::copy_bits(self.span, self.memory, position, source);
        self.end = position + count;
    }

    /// Writes the bits of a slice, of any register and order. It refuses with `NoRoom` exactly
    /// where there is room for fewer. Costs by words where both orders rise, both fall, or are one
    /// order with both places at the same bit of a word; else by bits. Not in the Rust crate.
    ///
    /// # Examples
    ///
    /// ```
    /// let source = [0xA0u8];
    /// let part = BitSlice::<u8, Msb0>::all_unchecked(&source);
    /// let mut memory = [0x0000u16];
    /// let mut writer = BitWriter::<u16, Lsb0>::all_unchecked(&mut memory);
    /// writer.skip(4)?;
    /// writer.write_slice(part)?;
    /// assert_eq!(rt; writer.write_slice(part), Err(WriteError::NoRoom));
    /// assert_eq!(rt; writer.position(), 12);
    /// drop(writer);
    /// assert_eq!(rt; memory, [0x0050]);
    /// ```
    pub fn write_slice<R2: BitRegister, O2: BitOrder<R2>>(
        &mut self,
        source: BitSlice<'_, R2, O2>,
    ) -> Result<(), WriteError>
        ensures accepted { IsOk result ↔ (slice_len source.entry ≤ length (room self.old)) }
        ensures written { WritesOrNoRoom self.old self.new (slice_bits source.entry) result }
    {
        if self.remaining() < source.len() {
            return Err(WriteError::NoRoom);
        }
        self.put_slice(source);
        Ok(())
    }

    /// Passes over `count` bits, which stay as they are. It refuses with `NoRoom` exactly where
    /// there is room for fewer. Constant time. Not in the Rust crate.
    pub fn skip(&mut self, count: usize) -> Result<(), WriteError>
        ensures accepted { IsOk result ↔ (count ≤ length (room self.old)) }
        ensures skipped { SkipsOrNoRoom self.old self.new count result }
    {
        if self.remaining() < count {
            return Err(WriteError::NoRoom);
        }
        let position = self.position();
        self.kept = 0;
        self.end = position + count;
        Ok(())
    }

    /// Passes over as few bits as bring the [`position`](BitWriter::position) to a multiple of
    /// `of`, and over none where it is one; they stay as they are. It refuses with `NoRoom` exactly
    /// where there is room for fewer.
    ///
    /// Requires that `of` is not 0. Constant time. Not in the Rust crate.
    pub fn skip_to_multiple(&mut self, of: usize) -> Result<(), WriteError>
        requires { 0 < of }
        ensures accepted { let count = to_multiple of (bits_written self.old)
            in IsOk result ↔ (count ≤ length (room self.old)) }
        ensures skipped { let count = to_multiple of (bits_written self.old) in SkipsOrNoRoom
            self.old self.new count result }
        ensures multiple { IfOk result (λ _. bits_written self.new % of ≡ 0) }
        ensures near { IfOk result (λ _. bits_written self.new < bits_written self.old + of) }
    {
        self.skip((of - self.position() % of) % of)
    }
}
