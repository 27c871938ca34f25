//! A piece behind others, or before them, at once.

ghost use Rattle.std.specs.Prelude.{◌≡◌, ◌+◌, ◌-◌, ◌*◌, ◌≤◌, Some, length, min, take, drop};
ghost use Rattle.std.specs.Prelude.{MatchOption};
ghost use Rattle.std.specs.List.{slice_get};
ghost use Rattle.bitvec_slice.specs.BitSlice.{slice_len, slice_bits};

use crate::slice::{BitSlice, Chunks, ChunksExact, RChunks};
use bitvec::mem::BitRegister;
use bitvec::order::BitOrder;

// How many of `bits` bits `count` pieces of `size` bits have.
fn bits_in(count: usize, size: usize, bits: usize) -> usize
    ensures { result ≡ min (count * size) bits }
{
    count.saturating_mul(size).min(bits)
}

impl<'a, R: BitRegister, O: BitOrder<R>> Chunks<'a, R, O> {
    ghost use Rattle.bitvec_slice.specs.PieceIters.{chunks_left, chunks_rest, chunks_size};
    ghost use Rattle.bitvec_slice.specs.PieceIters.{InRange, TakesFirstPiece, TakesLastPiece};

    /// Takes the piece `n` places behind the first of those that are left, and drops those before
    /// it. Where there is none it returns `None`, and none is left.
    ///
    /// Constant time. In the Rust crate it is `nth` of the iterator trait.
    ///
    /// # Examples
    ///
    /// ```
    /// let memory = [0x2Cu8];
    /// let mut chunks = BitSlice::<u8, Lsb0>::all_unchecked(&memory).chunks(3);
    /// assert_eq!(rt; chunks.nth(1).unwrap().count_ones(), 2);
    /// assert_eq!(rt; chunks.len(), 1);
    /// assert!(rt; chunks.nth(1).is_none());
    /// assert_eq!(rt; chunks.len(), 0);
    /// ```
    pub fn nth(&mut self, n: usize) -> Option<BitSlice<'a, R, O>>
        ensures item { let left = chunks_left self.old
            in MatchOption result (length left ≤ n)
            (λ piece. slice_get left n ≡ Some (slice_bits piece)) }
        ensures left { chunks_left self.new ≡ drop (n + 1) (chunks_left self.old) }
        ensures size { chunks_size self.new ≡ chunks_size self.old }

        // The piece is the first behind `n` others, where they lie.
        ensures place { let rest = chunks_rest self.old
            in let size = chunks_size self.old
            in InRange rest (min (n * size) (slice_len rest)) (slice_len rest)
            (λ left. TakesFirstPiece left size result (chunks_rest self.new)) }
    {
        let passed = bits_in(n, self.size, self.rest.len());
        let (_, rest) = self.rest.split_at(passed);
        self.rest = rest;
        self.next()
    }

    /// Takes the piece `n` places before the last of those that are left, and drops those behind
    /// it. Where there is none it returns `None`, and none is left.
    ///
    /// Constant time. In the Rust crate it is `nth_back` of the iterator trait.
    ///
    /// # Examples
    ///
    /// ```
    /// let memory = [0x2Cu8];
    /// let mut chunks = BitSlice::<u8, Lsb0>::all_unchecked(&memory).chunks(3);
    /// assert_eq!(rt; chunks.nth_back(1).unwrap().count_ones(), 2);
    /// assert_eq!(rt; chunks.len(), 1);
    /// assert!(rt; chunks.nth_back(1).is_none());
    /// assert_eq!(rt; chunks.len(), 0);
    /// ```
    pub fn nth_back(&mut self, n: usize) -> Option<BitSlice<'a, R, O>>
        ensures item { let left = chunks_left self.old
            in MatchOption result (length left ≤ n)
            (λ piece. slice_get left (length left - (n + 1)) ≡ Some (slice_bits piece)) }
        ensures left { let left = chunks_left self.old
            in chunks_left self.new ≡ take (length left - (n + 1)) left }
        ensures size { chunks_size self.new ≡ chunks_size self.old }

        // The piece is the last before `n` others, where they lie.
        ensures place { let rest = chunks_rest self.old
            in let size = chunks_size self.old
            in let kept = length (chunks_left self.old) - n
            in InRange rest 0 (min (kept * size) (slice_len rest))
            (λ left. TakesLastPiece left size result (chunks_rest self.new)) }
    {
        let kept = self.len().saturating_sub(n);
        let (rest, _) = self
            .rest
            .split_at(bits_in(kept, self.size, self.rest.len()));
        self.rest = rest;
        self.next_back()
    }
}

impl<'a, R: BitRegister, O: BitOrder<R>> RChunks<'a, R, O> {
    ghost use Rattle.bitvec_slice.specs.PieceIters.{rchunks_left, rchunks_rest, rchunks_size};
    ghost use Rattle.bitvec_slice.specs.PieceIters.{InRange, TakesLast, TakesLastRPiece};

    /// Takes the piece `n` places behind the first of those that are left, and drops those before
    /// it. Where there is none it returns `None`, and none is left.
    ///
    /// Constant time. In the Rust crate it is `nth` of the iterator trait.
    ///
    /// # Examples
    ///
    /// ```
    /// let memory = [0x2Cu8];
    /// let mut chunks = BitSlice::<u8, Lsb0>::all_unchecked(&memory).rchunks(3);
    /// assert_eq!(rt; chunks.nth(1).unwrap().first_zero(), Some(2));
    /// assert_eq!(rt; chunks.len(), 1);
    /// assert!(rt; chunks.nth(1).is_none());
    /// assert_eq!(rt; chunks.len(), 0);
    /// ```
    pub fn nth(&mut self, n: usize) -> Option<BitSlice<'a, R, O>>
        ensures item { let left = rchunks_left self.old
            in MatchOption result (length left ≤ n)
            (λ piece. slice_get left n ≡ Some (slice_bits piece)) }
        ensures left { rchunks_left self.new ≡ drop (n + 1) (rchunks_left self.old) }
        ensures size { rchunks_size self.new ≡ rchunks_size self.old }

        // The piece is the first behind `n` others, where they lie.
        ensures place { let rest = rchunks_rest self.old
            in let size = rchunks_size self.old
            in InRange rest 0 (slice_len rest - n * size) (λ left. let cut = slice_len left - size
            in TakesLast left cut cut result (rchunks_rest self.new)) }
    {
        let len = self.rest.len();
        let (rest, _) = self.rest.split_at(len - bits_in(n, self.size, len));
        self.rest = rest;
        self.next()
    }

    /// Takes the piece `n` places before the last of those that are left, and drops those behind
    /// it. Where there is none it returns `None`, and none is left.
    ///
    /// Constant time. In the Rust crate it is `nth_back` of the iterator trait.
    ///
    /// # Examples
    ///
    /// ```
    /// let memory = [0x2Cu8];
    /// let mut chunks = BitSlice::<u8, Lsb0>::all_unchecked(&memory).rchunks(3);
    /// assert_eq!(rt; chunks.nth_back(1).unwrap().first_zero(), Some(2));
    /// assert_eq!(rt; chunks.len(), 1);
    /// assert!(rt; chunks.nth_back(1).is_none());
    /// assert_eq!(rt; chunks.len(), 0);
    /// ```
    pub fn nth_back(&mut self, n: usize) -> Option<BitSlice<'a, R, O>>
        ensures item { let left = rchunks_left self.old
            in MatchOption result (length left ≤ n)
            (λ piece. slice_get left (length left - (n + 1)) ≡ Some (slice_bits piece)) }
        ensures left { let left = rchunks_left self.old
            in rchunks_left self.new ≡ take (length left - (n + 1)) left }
        ensures size { rchunks_size self.new ≡ rchunks_size self.old }

        // The piece is the last before `n` others, where they lie.
        ensures place { let rest = rchunks_rest self.old
            in let size = rchunks_size self.old
            in let kept = length (rchunks_left self.old) - n
            in InRange rest (slice_len rest - kept * size) (slice_len rest)
            (λ left. TakesLastRPiece left size result (rchunks_rest self.new)) }
    {
        let kept = self.len().saturating_sub(n);
        let len = self.rest.len();
        let (_, rest) = self.rest.split_at(len - bits_in(kept, self.size, len));
        self.rest = rest;
        self.next_back()
    }
}

impl<'a, R: BitRegister, O: BitOrder<R>> ChunksExact<'a, R, O> {
    ghost use Rattle.bitvec_slice.specs.PieceIters.{chunks_exact_left, chunks_exact_rest};
    ghost use Rattle.bitvec_slice.specs.PieceIters.{chunks_exact_size, InRange, TakesFirstPiece};
    ghost use Rattle.bitvec_slice.specs.PieceIters.{TakesLastPiece};
    ghost use Rattle.bitvec_slice.specs.PieceIters.{remainder_of};

    /// Takes the piece `n` places behind the first of those that are left, and drops those before
    /// it. Where there is none it returns `None`, and none is left.
    ///
    /// Constant time. In the Rust crate it is `nth` of the iterator trait.
    ///
    /// # Examples
    ///
    /// ```
    /// let memory = [0x2Cu8];
    /// let mut chunks = BitSlice::<u8, Lsb0>::all_unchecked(&memory).chunks_exact(3);
    /// assert_eq!(rt; chunks.nth(1).unwrap().count_ones(), 2);
    /// assert!(rt; chunks.nth(0).is_none());
    /// assert_eq!(rt; chunks.remainder().len(), 2);
    /// ```
    pub fn nth(&mut self, n: usize) -> Option<BitSlice<'a, R, O>>
        ensures item { let left = chunks_exact_left self.old
            in MatchOption result (length left ≤ n)
            (λ piece. slice_get left n ≡ Some (slice_bits piece)) }
        ensures left { chunks_exact_left self.new ≡ drop (n + 1) (chunks_exact_left self.old) }
        ensures size { chunks_exact_size self.new ≡ chunks_exact_size self.old }
        ensures behind { remainder_of self.new ≡ remainder_of self.old }

        // The piece is the first behind `n` others, where they lie.
        ensures place { let rest = chunks_exact_rest self.old
            in let size = chunks_exact_size self.old
            in InRange rest (min (n * size) (slice_len rest)) (slice_len rest)
            (λ left. TakesFirstPiece left size result (chunks_exact_rest self.new)) }
    {
        self.whole.nth(n)
    }

    /// Takes the piece `n` places before the last of those that are left, and drops those behind
    /// it. Where there is none it returns `None`, and none is left.
    ///
    /// Constant time. In the Rust crate it is `nth_back` of the iterator trait.
    ///
    /// # Examples
    ///
    /// ```
    /// let memory = [0x2Cu8];
    /// let mut chunks = BitSlice::<u8, Lsb0>::all_unchecked(&memory).chunks_exact(3);
    /// assert_eq!(rt; chunks.nth_back(1).unwrap().count_ones(), 1);
    /// assert!(rt; chunks.nth_back(0).is_none());
    /// assert_eq!(rt; chunks.remainder().len(), 2);
    /// ```
    pub fn nth_back(&mut self, n: usize) -> Option<BitSlice<'a, R, O>>
        ensures item { let left = chunks_exact_left self.old
            in MatchOption result (length left ≤ n)
            (λ piece. slice_get left (length left - (n + 1)) ≡ Some (slice_bits piece)) }
        ensures left { let left = chunks_exact_left self.old
            in chunks_exact_left self.new ≡ take (length left - (n + 1)) left }
        ensures size { chunks_exact_size self.new ≡ chunks_exact_size self.old }
        ensures behind { remainder_of self.new ≡ remainder_of self.old }

        // The piece is the last before `n` others, where they lie.
        ensures place { let rest = chunks_exact_rest self.old
            in let size = chunks_exact_size self.old
            in let kept = length (chunks_exact_left self.old) - n
            in InRange rest 0 (min (kept * size) (slice_len rest))
            (λ left. TakesLastPiece left size result (chunks_exact_rest self.new)) }
    {
        self.whole.nth_back(n)
    }
}
