//! A header's ten numbers, and how they stand in bits.

ghost use Rattle.std.specs.Prelude.{◌≡◌, ◌↔◌, ◌+◌, ◌^◌, ◌<◌, ◌≤◌, ◌++◌, Err, length};
ghost use Rattle.std.specs.Prelude.{IsTrue, IsOk, IfOk, MatchResult};
ghost use Rattle.bitvec_stream.specs.Numbers.{digits_be};
ghost use Rattle.bitvec_stream.specs.Reader.{unread, Passes, PassesOrTooFew};
ghost use Rattle.bitvec_stream.specs.Writer.{room, Writes};

use crate::numbers::{next, put};
use bitvec_stream::prelude::{BitOrder, BitReader, BitRegister, BitWriter, ReadError, WriteError};

/// How many bits a header has.
pub const BITS: usize = 160;

/// The numbers of a header, in the order in which they stand there.
#[derive(Clone, Copy, PartialEq, Eq, Debug, Drop)]
pub struct Header {
    /// The sender's port.
    pub source: u16,
    /// The receiver's port.
    pub destination: u16,
    /// The number of the first byte of data, or with SYN the number before it.
    pub sequence: u32,
    /// With ACK, the number of the byte that the sender waits for.
    pub acknowledgment: u32,
    /// How many words of 32 bits stand before the data. In 4 bits.
    pub offset: u8,
    /// Zero, until there is a use for it. In 4 bits.
    pub reserved: u8,
    /// CWR, ECE, URG, ACK, PSH, RST, SYN and FIN, the first in the highest digit.
    pub flags: u8,
    /// How many bytes from `acknowledgment` on the sender takes.
    pub window: u16,
    /// The sum of the segment, by which a receiver sees damage.
    pub checksum: u16,
    /// With URG, how far behind `sequence` the urgent data end.
    pub urgent: u16,
}

impl Header {
    ghost use Rattle.example_tcp.specs.Header.{header_bits, HeaderFits};

    /// Whether each number has at most as many digits as its field has bits. So it is exactly where
    /// `offset` and `reserved` are below 16. Constant time.
    #[tactic(auto, using(crate::proofs::HeaderLemmas::fits))]
    pub fn fits(self) -> bool
        ensures fits { IsTrue result ↔ HeaderFits self }
        ensures few { IsTrue result ↔ ((self.offset < 16) × (self.reserved < 16)) }
    {
        self.offset < 16 && self.reserved < 16
    }

    /// Writes the header. It refuses with `NoRoom` exactly where there is room for fewer than 160
    /// bits, and else with `TooManyDigits` exactly where a number does not [fit](Header::fits).
    /// Then nothing is written, and the writer is as it was. Costs as ten calls of `write_be`.
    ///
    /// # Examples
    ///
    /// A segment that opens a connection, by hand: from port 50001 to port 443, with 5 words before
    /// the data and SYN alone.
    ///
    /// ```
    /// let header = Header {
    ///     source: 50001,
    ///     destination: 443,
    ///     sequence: 0x12345678,
    ///     acknowledgment: 0,
    ///     offset: 5,
    ///     reserved: 0,
    ///     flags: 0b0000_0010,
    ///     window: 64240,
    ///     checksum: 0xBEEF,
    ///     urgent: 0,
    /// };
    /// let mut memory = [0x00u8; 20];
    /// let mut writer = BitWriter::<u8, Msb0>::all_unchecked(&mut memory);
    /// assert_eq!(rt; header.write(&mut writer), Ok(()));
    /// assert_eq!(rt; header.write(&mut writer), Err(WriteError::NoRoom));
    /// drop(writer);
    /// assert_eq!(rt; memory[12], 0x50);
    /// ```
    pub fn write<R: BitRegister, O: BitOrder<R>>(
        self,
        writer: &mut BitWriter<'_, R, O>,
    ) -> Result<(), WriteError>
        ensures accepted { IsOk result ↔ ((160 ≤ length (room writer.old)) × HeaderFits self) }
        ensures no_room { (result ≡ Err WriteError.NoRoom) ↔ (length (room writer.old) < 160) }
        ensures written { MatchResult result (λ _. Writes writer.old writer.new (header_bits self))
            (λ _. writer.new ≡ writer.old) }
    {
        if writer.remaining() < BITS {
            return Err(WriteError::NoRoom);
        }
        if !self.fits() {
            return Err(WriteError::TooManyDigits);
        }
        self.put_ports(writer);
        self.put_bytes(writer);
        self.put_control(writer);
        self.put_sum(writer);
        Ok(())
    }

    // Writes the ports.
    fn put_ports<R: BitRegister, O: BitOrder<R>>(self, writer: &mut BitWriter<'_, R, O>)
        requires { 32 ≤ length (room writer.old) }
        ensures written { Writes writer.old writer.new
            (digits_be 16 self.source ++ digits_be 16 self.destination) }
        ensures left { length (room writer.new) + 32 ≡ length (room writer.old) }
    {
        put(writer, 16, self.source);
        put(writer, 16, self.destination);
    }

    // Writes the numbers of bytes.
    fn put_bytes<R: BitRegister, O: BitOrder<R>>(self, writer: &mut BitWriter<'_, R, O>)
        requires { 64 ≤ length (room writer.old) }
        ensures written { Writes writer.old writer.new
            (digits_be 32 self.sequence ++ digits_be 32 self.acknowledgment) }
        ensures left { length (room writer.new) + 64 ≡ length (room writer.old) }
    {
        put(writer, 32, self.sequence);
        put(writer, 32, self.acknowledgment);
    }

    // Writes what stands between the numbers of bytes and the sum.
    fn put_control<R: BitRegister, O: BitOrder<R>>(self, writer: &mut BitWriter<'_, R, O>)
        requires inside { 32 ≤ length (room writer.old) }
        requires offset { self.offset < 16 }
        requires reserved { self.reserved < 16 }
        ensures written { Writes writer.old writer.new
            (digits_be 4 self.offset ++ digits_be 4 self.reserved
            ++ digits_be 8 self.flags ++ digits_be 16 self.window) }
        ensures left { length (room writer.new) + 32 ≡ length (room writer.old) }
    {
        put(writer, 4, self.offset);
        put(writer, 4, self.reserved);
        put(writer, 8, self.flags);
        put(writer, 16, self.window);
    }

    // Writes the sum and what stands behind it.
    fn put_sum<R: BitRegister, O: BitOrder<R>>(self, writer: &mut BitWriter<'_, R, O>)
        requires { 32 ≤ length (room writer.old) }
        ensures written { Writes writer.old writer.new
            (digits_be 16 self.checksum ++ digits_be 16 self.urgent) }
        ensures left { length (room writer.new) + 32 ≡ length (room writer.old) }
    {
        put(writer, 16, self.checksum);
        put(writer, 16, self.urgent);
    }

    /// Reads a header, of which each number then [fits](Header::fits). It refuses with `TooFew`
    /// exactly where fewer than 160 bits are left, and then the reader is as it was. Costs as ten
    /// calls of `read_be`.
    ///
    /// # Examples
    ///
    /// ```
    /// let mut reader = BitReader::new(BitSlice::<u8, Msb0>::all_unchecked(&memory));
    /// let header = Header::read(&mut reader)?;
    /// assert_eq!(rt; header.destination, 443);
    /// assert_eq!(rt; Header::read(&mut reader), Err(ReadError::TooFew));
    /// ```
    #[tactic(auto, using(crate::proofs::HeaderLemmas::header_fits))]
    pub fn read<R: BitRegister, O: BitOrder<R>>(
        reader: &mut BitReader<'_, R, O>,
    ) -> Result<Self, ReadError>
        ensures accepted { IsOk result ↔ (160 ≤ length (unread reader.old)) }
        ensures bits { IfOk result (λ it. unread reader.old ≡ header_bits it ++ unread reader.new) }
        ensures fits { IfOk result HeaderFits }
        ensures moved { PassesOrTooFew reader.old reader.new 160 result }
    {
        if reader.remaining() < BITS {
            return Err(ReadError::TooFew);
        }
        let (source, destination) = read_ports(reader);
        let (sequence, acknowledgment) = read_bytes(reader);
        let (offset, reserved, flags, window) = read_control(reader);
        let (checksum, urgent) = read_sum(reader);
        Ok(Header {
            source,
            destination,
            sequence,
            acknowledgment,
            offset,
            reserved,
            flags,
            window,
            checksum,
            urgent,
        })
    }
}

// Reads the ports.
fn read_ports<R: BitRegister, O: BitOrder<R>>(reader: &mut BitReader<'_, R, O>) -> (u16, u16)
    requires { 32 ≤ length (unread reader.old) }
    ensures bits { unread reader.old
        ≡ digits_be 16 result.0 ++ digits_be 16 result.1 ++ unread reader.new }
    ensures moved { Passes reader.old reader.new 32 }
    ensures left { length (unread reader.new) + 32 ≡ length (unread reader.old) }
{
    let source = next(reader, 16);
    let destination = next(reader, 16);
    (source, destination)
}

// Reads the numbers of bytes.
fn read_bytes<R: BitRegister, O: BitOrder<R>>(reader: &mut BitReader<'_, R, O>) -> (u32, u32)
    requires { 64 ≤ length (unread reader.old) }
    ensures bits { unread reader.old
        ≡ digits_be 32 result.0 ++ digits_be 32 result.1 ++ unread reader.new }
    ensures moved { Passes reader.old reader.new 64 }
    ensures left { length (unread reader.new) + 64 ≡ length (unread reader.old) }
{
    let sequence = next(reader, 32);
    let acknowledgment = next(reader, 32);
    (sequence, acknowledgment)
}

// Reads what stands between the numbers of bytes and the sum.
fn read_control<R: BitRegister, O: BitOrder<R>>(
    reader: &mut BitReader<'_, R, O>,
) -> (u8, u8, u8, u16)
    requires { 32 ≤ length (unread reader.old) }
    ensures bits { unread reader.old ≡ digits_be 4 result.0 ++ digits_be 4 result.1
        ++ digits_be 8 result.2 ++ digits_be 16 result.3 ++ unread reader.new }
    ensures offset { result.0 < 16 }
    ensures reserved { result.1 < 16 }
    ensures moved { Passes reader.old reader.new 32 }
    ensures left { length (unread reader.new) + 32 ≡ length (unread reader.old) }
{
    let offset = next(reader, 4);
    let reserved = next(reader, 4);
    let flags = next(reader, 8);
    let window = next(reader, 16);
    (offset, reserved, flags, window)
}

// Reads the sum and what stands behind it.
fn read_sum<R: BitRegister, O: BitOrder<R>>(reader: &mut BitReader<'_, R, O>) -> (u16, u16)
    requires { 32 ≤ length (unread reader.old) }
    ensures bits { unread reader.old
        ≡ digits_be 16 result.0 ++ digits_be 16 result.1 ++ unread reader.new }
    ensures moved { Passes reader.old reader.new 32 }
    ensures left { length (unread reader.new) + 32 ≡ length (unread reader.old) }
{
    let checksum = next(reader, 16);
    let urgent = next(reader, 16);
    (checksum, urgent)
}
