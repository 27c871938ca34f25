//! A reader of numbers that stand one behind the other in a slice of bits.

ghost use Rattle.std.specs.Prelude.{◌≡◌, ⊤, ◌+◌, ◌-◌, ◌<◌, ◌≤◌, ◌%◌, ◌↔◌, IsTrue, IsOk, IfOk};
ghost use Rattle.std.specs.Prelude.{IfErr, length, take};
ghost use Rattle.bitvec.specs.Span.{element};
ghost use Rattle.bitvec_slice.specs.BitSlice.{slice_memory, slice_span, slice_len, slice_bits};
ghost use Rattle.bitvec_stream.specs.Multiples.{to_multiple};
ghost use Rattle.bitvec_stream.specs.Window.{Keeps};

mod golomb;
mod numbers;
mod signed;
mod unary;
mod window;

use crate::error::ReadError;
use bitvec::mem::BitRegister;
use bitvec::order::{BitOrder, Direction, direction_of};
use bitvec_slice::slice::BitSlice;
use std::alloc::AllocError;

/// A slice, and the place in it behind the bits that were read.
///
/// Where a call refuses, it reads nothing and the reader is as it was. Not in the Rust crate.
///
/// # Examples
///
/// The first numbers of an IPv4 header.
///
/// ```
/// let header = [0x45u8, 0x00, 0x05, 0xDC];
/// let mut reader = BitReader::new(BitSlice::<u8, Msb0>::all_unchecked(&header));
/// assert_eq!(rt; reader.read_be::<u8>(4), Ok(4));
/// assert_eq!(rt; reader.read_be::<u8>(4), Ok(5));
/// assert_eq!(rt; reader.skip(8), Ok(()));
/// assert_eq!(rt; reader.read_be::<u16>(16), Ok(1500));
/// assert_eq!(rt; reader.read_bit(), Err(ReadError::TooFew));
/// ```
#[derive(Drop)]
pub struct BitReader<'a, R: BitRegister, O: BitOrder<R>> {
    slice: BitSlice<'a, R, O>,
    // How many bits were read, or are kept in the window; and of them, how many are kept.
    loaded: usize,
    kept: usize,
    // The bits that are kept: the first is the word's first under the order, the others follow.
    window: R,
    pub ghost within: { loaded ≤ slice_len slice },
    pub ghost behind: { kept ≤ loaded },
    pub ghost few: { kept < R.BITS },
    pub ghost shown: { Keeps R.BITS O.at_of (slice_bits slice) (loaded - kept) kept
        (R.number window) },
}

impl<'a, R: BitRegister, O: BitOrder<R>> Clone for BitReader<'a, R, O> {
    ghost is_clone = { λ it copy. copy ≡ it };

    ghost is_infallible = { λ _. ⊤ };

    fn clone(&self) -> Result<Self, AllocError> {
        Ok(BitReader {
            slice: self.slice,
            loaded: self.loaded,
            kept: self.kept,
            window: self.window,
        })
    }
}

impl<'a, R: BitRegister, O: BitOrder<R>> BitReader<'a, R, O> {
    ghost use Rattle.bitvec_stream.specs.Reader.{source, bits_read, unread, next_span, Passes, PassesOrTooFew};

    /// A reader before the first bit of a slice. Constant time. Not in the Rust crate.
    pub fn new(slice: BitSlice<'a, R, O>) -> Self
        ensures source { source result ≡ slice.entry }
        ensures position { bits_read result ≡ 0 }
        ensures rest { unread result ≡ slice_bits slice.entry }
    {
        Self::at(slice, 0)
    }

    // A reader behind the first `position` bits of a slice.
    #[inline(always)]
    fn at(slice: BitSlice<'a, R, O>, position: usize) -> Self
        requires { position ≤ slice_len slice }
        ensures source { source result ≡ slice.entry }
        ensures position { bits_read result ≡ position }
    {
        BitReader {
            slice,
            loaded: position,
            kept: 0,
            window: R::ZERO,
        }
    }

    /// How many bits were read or passed over. Constant time. Not in the Rust crate.
    pub fn position(&self) -> usize
        ensures value { result ≡ bits_read self.now }
        ensures rest { result + length (unread self.now) ≡ slice_len (source self.now) }
    {
        self.loaded - self.kept
    }

    /// How many bits are left. Constant time. Not in the Rust crate.
    pub fn remaining(&self) -> usize
        ensures { result ≡ length (unread self.now) }
    {
        self.slice.len() - self.position()
    }

    /// Whether no bit is left. Constant time. Not in the Rust crate.
    pub fn is_empty(&self) -> bool
        ensures { IsTrue result ↔ (length (unread self.now) ≡ 0) }
    {
        self.remaining() == 0
    }

    // Passes over `count` bits, which are left.
    #[inline(always)]
    fn pass(&mut self, count: usize)
        requires { count ≤ length (unread self.old) }
        ensures { Passes self.old self.new count }
    {
        if 0 < count && count <= self.kept {
            if let Direction::Rises | Direction::Falls = direction_of::<R, O>() {
                self.pass_kept(count);
                return;
            }
        }
        *self = Self::behind(self.slice, self.position() + count);
    }

    /// The next bit. It refuses with `TooFew` exactly where none is left. Constant time. Not in the
    /// Rust crate.
    pub fn read_bit(&mut self) -> Result<bool, ReadError>
        ensures accepted { IsOk result ↔ (0 < length (unread self.old)) }
        ensures value { IfOk result (λ bit. bit ≡ element (unread self.old) 0) }
        ensures moved { PassesOrTooFew self.old self.new 1 result }
    {
        let position = self.position();
        if self.slice.len() <= position {
            return Err(ReadError::TooFew);
        }
        let bit = self.slice.get_unchecked(position);
        self.pass(1);
        Ok(bit)
    }

    /// The next `count` bits as a slice of the same memory; the reader stays before them. It
    /// refuses with `TooFew` exactly where fewer are left. Constant time. Not in the Rust crate.
    pub fn peek_slice(&self, count: usize) -> Result<BitSlice<'a, R, O>, ReadError>
        ensures accepted { IsOk result ↔ (count ≤ length (unread self.now)) }
        ensures bits { IfOk result (λ part. slice_bits part ≡ take count (unread self.now)) }
        ensures len { IfOk result (λ part. slice_len part ≡ count) }
        ensures memory { IfOk result (λ part. slice_memory part ≡ slice_memory (source self.now)) }
        ensures span { IfOk result (λ part. slice_span part ≡ next_span R.BITS self.now count) }
        ensures refused { IfErr result (λ error. error ≡ ReadError.TooFew) }
    {
        if count > self.remaining() {
            return Err(ReadError::TooFew);
        }
        let (_, rest) = self.slice.split_at(self.position());
        let (part, _) = rest.split_at(count);
        Ok(part)
    }

    /// The next `count` bits as a slice of the same memory. It refuses with `TooFew` exactly where
    /// fewer are left. Constant time. Not in the Rust crate.
    ///
    /// # Examples
    ///
    /// ```
    /// let memory = [0x2Cu8, 0xFF];
    /// let mut reader = BitReader::new(BitSlice::<u8, Lsb0>::all_unchecked(&memory));
    /// let part = reader.read_slice(6)?;
    /// assert_eq!(rt; part.count_ones(), 3);
    /// assert_eq!(rt; reader.position(), 6);
    /// assert!(rt; reader.read_slice(11).is_err());
    /// assert_eq!(rt; reader.remaining(), 10);
    /// ```
    pub fn read_slice(&mut self, count: usize) -> Result<BitSlice<'a, R, O>, ReadError>
        ensures accepted { IsOk result ↔ (count ≤ length (unread self.old)) }
        ensures bits { IfOk result (λ part. slice_bits part ≡ take count (unread self.old)) }
        ensures len { IfOk result (λ part. slice_len part ≡ count) }
        ensures memory { IfOk result (λ part. slice_memory part ≡ slice_memory (source self.old)) }
        ensures span { IfOk result (λ part. slice_span part ≡ next_span R.BITS self.old count) }
        ensures moved { PassesOrTooFew self.old self.new count result }
    {
        let part = self.peek_slice(count)?;
        self.pass(count);
        Ok(part)
    }

    /// Passes over `count` bits. It refuses with `TooFew` exactly where fewer are left. Constant
    /// time. Not in the Rust crate.
    pub fn skip(&mut self, count: usize) -> Result<(), ReadError>
        ensures accepted { IsOk result ↔ (count ≤ length (unread self.old)) }
        ensures moved { PassesOrTooFew self.old self.new count result }
    {
        if self.remaining() < count {
            return Err(ReadError::TooFew);
        }
        self.pass(count);
        Ok(())
    }

    /// Passes over as few bits as bring the [`position`](BitReader::position) to a multiple of
    /// `of`, and over none where it is one. It refuses with `TooFew` exactly where fewer are left.
    ///
    /// Requires that `of` is not 0. Constant time. Not in the Rust crate.
    pub fn skip_to_multiple(&mut self, of: usize) -> Result<(), ReadError>
        requires { 0 < of }
        ensures accepted { let count = to_multiple of (bits_read self.old)
            in IsOk result ↔ (count ≤ length (unread self.old)) }
        ensures moved { let count = to_multiple of (bits_read self.old) in PassesOrTooFew self.old
            self.new count result }
        ensures multiple { IfOk result (λ _. bits_read self.new % of ≡ 0) }
        ensures near { IfOk result (λ _. bits_read self.new < bits_read self.old + of) }
    {
        self.skip((of - self.position() % of) % of)
    }
}
