//! The pieces of a slice, each of one number of bits: from its front or from its back on.

ghost use Rattle.std.specs.Prelude.{◌≡◌, ⊤, ◌-◌, ◌%◌, ◌<◌, Some, length, min, take, drop, IfSome};
ghost use Rattle.std.specs.Iterator.{YieldsFirstBy, YieldsLastBy, item_count, at_most, UpTo};
ghost use Rattle.std.specs.Iterator.{MakesProgress};
ghost use Rattle.std.specs.Iterator.SizeHint.{IsWithinCount};
ghost use Rattle.std.specs.Slice.Iter.{chunk_count};
ghost use Rattle.bitvec_slice.specs.BitSlice.{slice_len, slice_bits};
ghost use Rattle.bitvec_slice.specs.Pieces.{chunks_of, rchunks_of};

mod nth;

use crate::slice::BitSlice;
use bitvec::mem::BitRegister;
use bitvec::order::BitOrder;
use std::alloc::AllocError;
use std::iter::FusedIterator;

// How many pieces of `size` bits `bits` bits make, the last of which may have less.
fn count_of(bits: usize, size: usize) -> usize
    requires { 0 < size }
    ensures { result ≡ chunk_count bits size }
{
    if bits == 0 {
        return 0;
    }
    (bits - 1) / size + 1
}

/// The pieces of a slice from its first bit on, from [`BitSlice::chunks`]: as slices of the same
/// memory, from both ends. The last piece has what is left.
///
/// # Examples
///
/// ```
/// let memory = [0x2Cu8];
/// let span: BitSpan<u8, Lsb0> = BitSpan::new(0, BitIdx::new_unchecked(0), 8).unwrap();
/// let mut chunks = BitSlice::new(span, &memory).ok_or("outside")?.chunks(3);
/// assert_eq!(rt; chunks.len(), 3);
/// assert_eq!(rt; chunks.next().unwrap().first_one(), Some(2));
/// assert_eq!(rt; chunks.next_back().unwrap().len(), 2);
/// assert_eq!(rt; chunks.next().unwrap().first_one(), Some(0));
/// assert!(rt; chunks.next().is_none());
/// ```
#[derive(Drop)]
pub struct Chunks<'a, R: BitRegister, O: BitOrder<R>> {
    rest: BitSlice<'a, R, O>,
    size: usize,
    pub ghost some: { 0 < size },
}

impl<'a, R: BitRegister, O: BitOrder<R>> Clone for Chunks<'a, R, O> {
    ghost is_clone = { λ it copy. copy ≡ it };

    ghost is_infallible = { λ _. ⊤ };

    fn clone(&self) -> Result<Self, AllocError> {
        Ok(Chunks {
            rest: self.rest,
            size: self.size,
        })
    }
}

/// The pieces of a slice from its last bit on, from [`BitSlice::rchunks`]: as slices of the same
/// memory, from both ends. The first piece is the slice's end, and the last has what is left.
///
/// # Examples
///
/// ```
/// let memory = [0x2Cu8];
/// let span: BitSpan<u8, Lsb0> = BitSpan::new(0, BitIdx::new_unchecked(0), 8).unwrap();
/// let mut chunks = BitSlice::new(span, &memory).ok_or("outside")?.rchunks(3);
/// assert_eq!(rt; chunks.len(), 3);
/// assert_eq!(rt; chunks.next().unwrap().last_one(), Some(0));
/// assert_eq!(rt; chunks.next_back().unwrap().len(), 2);
/// assert_eq!(rt; chunks.next().unwrap().last_one(), Some(1));
/// assert!(rt; chunks.next().is_none());
/// ```
#[derive(Drop)]
pub struct RChunks<'a, R: BitRegister, O: BitOrder<R>> {
    rest: BitSlice<'a, R, O>,
    size: usize,
    pub ghost some: { 0 < size },
}

impl<'a, R: BitRegister, O: BitOrder<R>> Clone for RChunks<'a, R, O> {
    ghost is_clone = { λ it copy. copy ≡ it };

    ghost is_infallible = { λ _. ⊤ };

    fn clone(&self) -> Result<Self, AllocError> {
        Ok(RChunks {
            rest: self.rest,
            size: self.size,
        })
    }
}

/// The whole pieces of a slice from its first bit on, from [`BitSlice::chunks_exact`]: as slices of
/// the same memory, from both ends. What is left behind the last is the
/// [`remainder`](ChunksExact::remainder).
///
/// # Examples
///
/// ```
/// let memory = [0x2Cu8];
/// let span: BitSpan<u8, Lsb0> = BitSpan::new(0, BitIdx::new_unchecked(0), 8).unwrap();
/// let mut chunks = BitSlice::new(span, &memory)
///     .ok_or("outside")?
///     .chunks_exact(3);
/// assert_eq!(rt; chunks.len(), 2);
/// assert_eq!(rt; chunks.next().unwrap().first_one(), Some(2));
/// assert_eq!(rt; chunks.next().unwrap().first_one(), Some(0));
/// assert!(rt; chunks.next().is_none());
/// assert_eq!(rt; chunks.remainder().len(), 2);
/// ```
#[derive(Drop)]
pub struct ChunksExact<'a, R: BitRegister, O: BitOrder<R>> {
    whole: Chunks<'a, R, O>,
    remainder: BitSlice<'a, R, O>,
}

impl<'a, R: BitRegister, O: BitOrder<R>> Clone for ChunksExact<'a, R, O> {
    ghost is_clone = { λ it copy. copy ≡ it };

    ghost is_infallible = { λ _. ⊤ };

    fn clone(&self) -> Result<Self, AllocError> {
        Ok(ChunksExact {
            whole: self.whole.clone()?,
            remainder: self.remainder,
        })
    }
}

impl<'a, R: BitRegister, O: BitOrder<R>> ChunksExact<'a, R, O> {
    ghost use Rattle.bitvec_slice.specs.PieceIters.{chunks_remainder, remainder_of};

    /// The bits behind the last whole piece. Constant time. As in the Rust crate.
    pub fn remainder(&self) -> BitSlice<'a, R, O>
        ensures bits { slice_bits result ≡ chunks_remainder self.now }
        ensures place { result ≡ remainder_of self.now }
    {
        self.remainder
    }
}

impl<'a, R: BitRegister, O: BitOrder<R>> BitSlice<'a, R, O> {
    ghost use Rattle.bitvec_slice.specs.PieceIters.{chunks_left, chunks_rest, chunks_size};
    ghost use Rattle.bitvec_slice.specs.PieceIters.{rchunks_left, rchunks_rest, rchunks_size};
    ghost use Rattle.bitvec_slice.specs.PieceIters.{chunks_exact_left, chunks_remainder};
    ghost use Rattle.bitvec_slice.specs.PieceIters.{chunks_exact_rest, chunks_exact_size};
    ghost use Rattle.bitvec_slice.specs.PieceIters.{remainder_of, IsRangeOf};

    /// The bits in pieces of `n`, from the first bit on; the last piece has what is left. Requires
    /// that `n` is not 0. Constant time, and so is each call of `next`. As in the Rust crate.
    pub fn chunks(&self, n: usize) -> Chunks<'a, R, O>
        requires { 0 < n }
        ensures pieces { chunks_left result ≡ chunks_of n (slice_bits self.now) }

        // They lie where the slice lies.
        ensures rest { chunks_rest result ≡ self.now }
        ensures size { chunks_size result ≡ n }
    {
        Chunks {
            rest: *self,
            size: n,
        }
    }

    /// The bits in pieces of `n`, from the first bit on, without the bits behind the last whole
    /// piece: these are the [`remainder`](ChunksExact::remainder). Requires that `n` is not 0.
    /// Constant time, and so is each call of `next`. As in the Rust crate.
    pub fn chunks_exact(&self, n: usize) -> ChunksExact<'a, R, O>
        requires { 0 < n }
        ensures pieces { let xs = slice_bits self.now
            in chunks_exact_left result ≡ chunks_of n (take (length xs - length xs % n) xs) }
        ensures remainder { let xs = slice_bits self.now
            in chunks_remainder result ≡ drop (length xs - length xs % n) xs }

        // They lie where the slice lies, and the remainder behind them.
        ensures rest { let len = slice_len self.now
            in IsRangeOf self.now 0 (len - len % n) (chunks_exact_rest result) }
        ensures size { chunks_exact_size result ≡ n }
        ensures behind { let len = slice_len self.now
            in IsRangeOf self.now (len - len % n) len (remainder_of result) }
    {
        let len = self.len();
        let (whole, remainder) = self.split_at(len - len % n);
        ChunksExact {
            whole: whole.chunks(n),
            remainder,
        }
    }

    /// The bits in pieces of `n`, from the last bit on, so that the first piece is the slice's end;
    /// the last has what is left. Requires that `n` is not 0. Constant time, and so is each call of
    /// `next`. As in the Rust crate.
    pub fn rchunks(&self, n: usize) -> RChunks<'a, R, O>
        requires { 0 < n }
        ensures pieces { rchunks_left result ≡ rchunks_of n (slice_bits self.now) }

        // They lie where the slice lies.
        ensures rest { rchunks_rest result ≡ self.now }
        ensures size { rchunks_size result ≡ n }
    {
        RChunks {
            rest: *self,
            size: n,
        }
    }
}

impl<'a, R: BitRegister, O: BitOrder<R>> Iterator for Chunks<'a, R, O> {
    type Item = BitSlice<'a, R, O>;

    ghost use Rattle.bitvec_slice.specs.PieceIters.{chunks_left, chunks_rest, chunks_size};
    ghost use Rattle.bitvec_slice.specs.PieceIters.{TakesFirstPiece};

    ghost next_gives = { YieldsFirstBy slice_bits chunks_left };

    ghost remaining = { item_count chunks_left };

    /// Takes the first of the pieces that are left.
    fn next(&mut self) -> Option<BitSlice<'a, R, O>>
        ensures steps { YieldsFirstBy slice_bits chunks_left self.old result self.new }
        ensures goes { MakesProgress (λ _. ⊤) (item_count chunks_left)
            self.old result self.new }

        // The piece is the first bits of what is left, and then those behind it are left.
        ensures place { TakesFirstPiece (chunks_rest self.old) (chunks_size self.old) result
            (chunks_rest self.new) }
        ensures size { chunks_size self.new ≡ chunks_size self.old }
    {
        let len = self.rest.len();
        if len == 0 {
            return None;
        }
        let (chunk, rest) = self.rest.split_at(self.size.min(len));
        self.rest = rest;
        Some(chunk)
    }

    fn size_hint(&self) -> (usize, Option<usize>)
        ensures lower { IsWithinCount result.0 (at_most (length (chunks_left self.now))) }
        ensures upper { IfSome result.1 (UpTo (at_most (length (chunks_left self.now)))) }
        ensures exact { (result.0 ≡ length (chunks_left self.now)) × (result.1 ≡ Some result.0) }
    {
        let left = self.len();
        (left, Some(left))
    }
}

impl<'a, R: BitRegister, O: BitOrder<R>> DoubleEndedIterator for Chunks<'a, R, O> {
    ghost use Rattle.bitvec_slice.specs.PieceIters.{chunks_left, chunks_rest, chunks_size};
    ghost use Rattle.bitvec_slice.specs.PieceIters.{TakesLastPiece};

    ghost next_back_gives = { YieldsLastBy slice_bits chunks_left };

    /// Takes the last of the pieces that are left.
    fn next_back(&mut self) -> Option<BitSlice<'a, R, O>>
        ensures steps { YieldsLastBy slice_bits chunks_left self.old result self.new }
        ensures goes { MakesProgress (λ _. ⊤) (item_count chunks_left)
            self.old result self.new }

        // The piece is the last bits of what is left, and then those before it are left.
        ensures place { TakesLastPiece (chunks_rest self.old) (chunks_size self.old) result
            (chunks_rest self.new) }
        ensures size { chunks_size self.new ≡ chunks_size self.old }
    {
        let len = self.rest.len();
        if len == 0 {
            return None;
        }
        let (rest, chunk) = self.rest.split_at((len - 1) / self.size * self.size);
        self.rest = rest;
        Some(chunk)
    }
}

impl<'a, R: BitRegister, O: BitOrder<R>> ExactSizeIterator for Chunks<'a, R, O> {
    fn len(&self) -> usize {
        count_of(self.rest.len(), self.size)
    }
}

/// After `None` the iterator returns `None` for good.
impl<'a, R: BitRegister, O: BitOrder<R>> FusedIterator for Chunks<'a, R, O> {}

impl<'a, R: BitRegister, O: BitOrder<R>> Iterator for RChunks<'a, R, O> {
    type Item = BitSlice<'a, R, O>;

    ghost use Rattle.bitvec_slice.specs.PieceIters.{rchunks_left, rchunks_rest, rchunks_size};
    ghost use Rattle.bitvec_slice.specs.PieceIters.{TakesLast};

    ghost next_gives = { YieldsFirstBy slice_bits rchunks_left };

    ghost remaining = { item_count rchunks_left };

    /// Takes the first of the pieces that are left.
    fn next(&mut self) -> Option<BitSlice<'a, R, O>>
        ensures steps { YieldsFirstBy slice_bits rchunks_left self.old result self.new }
        ensures goes { MakesProgress (λ _. ⊤) (item_count rchunks_left)
            self.old result self.new }

        // The piece is the last bits of what is left, and then those before it are left.
        ensures place { let left = rchunks_rest self.old
            in let cut = slice_len left - rchunks_size self.old
            in TakesLast left cut cut result (rchunks_rest self.new) }
        ensures size { rchunks_size self.new ≡ rchunks_size self.old }
    {
        let len = self.rest.len();
        if len == 0 {
            return None;
        }
        let (rest, chunk) = self.rest.split_at(len.saturating_sub(self.size));
        self.rest = rest;
        Some(chunk)
    }

    fn size_hint(&self) -> (usize, Option<usize>)
        ensures lower { IsWithinCount result.0 (at_most (length (rchunks_left self.now))) }
        ensures upper { IfSome result.1 (UpTo (at_most (length (rchunks_left self.now)))) }
        ensures exact { (result.0 ≡ length (rchunks_left self.now)) × (result.1 ≡ Some result.0) }
    {
        let left = self.len();
        (left, Some(left))
    }
}

impl<'a, R: BitRegister, O: BitOrder<R>> DoubleEndedIterator for RChunks<'a, R, O> {
    ghost use Rattle.bitvec_slice.specs.PieceIters.{rchunks_left, rchunks_rest, rchunks_size};
    ghost use Rattle.bitvec_slice.specs.PieceIters.{TakesLastRPiece};

    ghost next_back_gives = { YieldsLastBy slice_bits rchunks_left };

    /// Takes the last of the pieces that are left.
    fn next_back(&mut self) -> Option<BitSlice<'a, R, O>>
        ensures steps { YieldsLastBy slice_bits rchunks_left self.old result self.new }
        ensures goes { MakesProgress (λ _. ⊤) (item_count rchunks_left)
            self.old result self.new }

        // The piece is the first bits of what is left, and then those behind it are left.
        ensures place { TakesLastRPiece (rchunks_rest self.old) (rchunks_size self.old) result
            (rchunks_rest self.new) }
        ensures size { rchunks_size self.new ≡ rchunks_size self.old }
    {
        let len = self.rest.len();
        if len == 0 {
            return None;
        }
        let (chunk, rest) = self.rest.split_at(len - (len - 1) / self.size * self.size);
        self.rest = rest;
        Some(chunk)
    }
}

impl<'a, R: BitRegister, O: BitOrder<R>> ExactSizeIterator for RChunks<'a, R, O> {
    fn len(&self) -> usize {
        count_of(self.rest.len(), self.size)
    }
}

/// After `None` the iterator returns `None` for good.
impl<'a, R: BitRegister, O: BitOrder<R>> FusedIterator for RChunks<'a, R, O> {}

impl<'a, R: BitRegister, O: BitOrder<R>> Iterator for ChunksExact<'a, R, O> {
    type Item = BitSlice<'a, R, O>;

    ghost use Rattle.bitvec_slice.specs.PieceIters.{chunks_exact_left, chunks_exact_rest};
    ghost use Rattle.bitvec_slice.specs.PieceIters.{chunks_exact_size, remainder_of};
    ghost use Rattle.bitvec_slice.specs.PieceIters.{TakesFirstPiece};

    ghost next_gives = { YieldsFirstBy slice_bits chunks_exact_left };

    ghost remaining = { item_count chunks_exact_left };

    /// Takes the first of the pieces that are left.
    fn next(&mut self) -> Option<BitSlice<'a, R, O>>
        ensures steps { YieldsFirstBy slice_bits chunks_exact_left self.old result self.new }
        ensures goes { MakesProgress (λ _. ⊤) (item_count chunks_exact_left)
            self.old result self.new }

        // The piece is the first bits of what is left, and then those behind it are left.
        ensures place { TakesFirstPiece (chunks_exact_rest self.old) (chunks_exact_size self.old)
            result (chunks_exact_rest self.new) }
        ensures size { chunks_exact_size self.new ≡ chunks_exact_size self.old }
        ensures behind { remainder_of self.new ≡ remainder_of self.old }
    {
        self.whole.next()
    }

    fn size_hint(&self) -> (usize, Option<usize>)
        ensures lower { IsWithinCount result.0 (at_most (length (chunks_exact_left self.now))) }
        ensures upper { IfSome result.1 (UpTo (at_most (length (chunks_exact_left self.now)))) }
        ensures exact { (result.0 ≡ length (chunks_exact_left self.now))
            × (result.1 ≡ Some result.0) }
    {
        let left = self.len();
        (left, Some(left))
    }
}

impl<'a, R: BitRegister, O: BitOrder<R>> DoubleEndedIterator for ChunksExact<'a, R, O> {
    ghost use Rattle.bitvec_slice.specs.PieceIters.{chunks_exact_left, chunks_exact_rest};
    ghost use Rattle.bitvec_slice.specs.PieceIters.{chunks_exact_size, remainder_of};
    ghost use Rattle.bitvec_slice.specs.PieceIters.{TakesLastPiece};

    ghost next_back_gives = { YieldsLastBy slice_bits chunks_exact_left };

    /// Takes the last of the pieces that are left.
    fn next_back(&mut self) -> Option<BitSlice<'a, R, O>>
        ensures steps { YieldsLastBy slice_bits chunks_exact_left self.old result self.new }
        ensures goes { MakesProgress (λ _. ⊤) (item_count chunks_exact_left)
            self.old result self.new }

        // The piece is the last bits of what is left, and then those before it are left.
        ensures place { TakesLastPiece (chunks_exact_rest self.old) (chunks_exact_size self.old)
            result (chunks_exact_rest self.new) }
        ensures size { chunks_exact_size self.new ≡ chunks_exact_size self.old }
        ensures behind { remainder_of self.new ≡ remainder_of self.old }
    {
        self.whole.next_back()
    }
}

impl<'a, R: BitRegister, O: BitOrder<R>> ExactSizeIterator for ChunksExact<'a, R, O> {
    fn len(&self) -> usize {
        self.whole.len()
    }
}

/// After `None` the iterator returns `None` for good.
impl<'a, R: BitRegister, O: BitOrder<R>> FusedIterator for ChunksExact<'a, R, O> {}
