//! Slices of a whole memory.

ghost use Rattle.std.specs.Prelude.{◌≡◌, pos, ◌*◌, ◌-◌, ◌^◌, ◌<◌, ◌≤◌, ◌↔◌, IsOk, IfOk, IfErr};
ghost use Rattle.std.specs.Prelude.{IsSome, IfSome, Err, min, length, take, map};
ghost use Rattle.bitvec.specs.BitSpan.{span_of};
ghost use Rattle.bitvec.specs.Memory.{memory_bits};
ghost use Rattle.bitvec.specs.Place.{region_max_bits};
ghost use Rattle.bitvec.specs.Span.{Fits, front_span};
ghost use Rattle.bitvec_slice.specs.Whole.{ShowsMemory, IsFront};

use crate::slice::{BitSlice, BitSliceMut};
use bitvec::index::{BitIdx, Limits};
use bitvec::mem::BitRegister;
use bitvec::order::BitOrder;
use bitvec::ptr::span::{BitSpan, BitSpanError};

// The span of all bits of a memory of `words` words.
fn span_of_all<R: BitRegister, O>(words: usize) -> Result<BitSpan<R, O>, BitSpanError<R>>
    ensures accepted { IsOk result ↔ (words * R.BITS ≤ region_max_bits) }
    ensures refused { (result ≡ Err (BitSpanError.TooLong (min (words * R.BITS) usize.MAX)))
        ↔ (region_max_bits < words * R.BITS) }
    ensures span { IfOk result (λ span. span_of span ≡ front_span (words * R.BITS)) }
    ensures fits { IfOk result (λ span. Fits R.BITS (span_of span) words) }
{
    BitSpan::new(0, BitIdx::MIN, words.saturating_mul(usize::from(R::BITS)))
}

// The span of the first `len` bits of a memory of `words` words.
fn span_of_front<R: BitRegister, O>(words: usize, len: usize) -> Option<BitSpan<R, O>>
    ensures accepted { IsSome result ↔ IsFront R.BITS len words }
    ensures span { IfSome result (λ span. span_of span ≡ front_span len) }
    ensures fits { IfSome result (λ span. Fits R.BITS (span_of span) words) }
{
    let span = BitSpan::new(0, BitIdx::MIN, len).ok()?;
    if span.fits(words) { Some(span) } else { None }
}

impl<'a, R: BitRegister, O: BitOrder<R>> BitSlice<'a, R, O> {
    ghost use Rattle.bitvec_slice.specs.BitSlice.{slice_memory, slice_span, slice_bits};

    /// Every bit of a memory. Requires that there are at most 2305843009213693951. Constant time.
    /// Not in the Rust crate.
    pub fn all_unchecked(memory: &'a [R]) -> Self
        requires { length memory.now * R.BITS ≤ region_max_bits }
        ensures memory { slice_memory result ≡ memory.now }
        ensures span { slice_span result ≡ front_span (length memory.now * R.BITS) }
        ensures bits { slice_bits result ≡ memory_bits R.BITS O.at_of (map R.number memory.now) }
        ensures whole { ShowsMemory R.BITS O.at_of (slice_span result) (length memory.now) }
    {
        Self::all(memory).unwrap()
    }

    /// Every bit of a memory.
    ///
    /// It refuses with `TooLong` of the number of bits, or of `usize::MAX` where that is passed, a
    /// memory of more than 2305843009213693951 bits. Constant time.
    pub fn all(memory: &'a [R]) -> Result<Self, BitSpanError<R>>
        ensures accepted { IsOk result ↔ (length memory.now * R.BITS ≤ region_max_bits) }
        ensures refused { let bits = length memory.now * R.BITS
            in (result ≡ Err (BitSpanError.TooLong (min bits usize.MAX)))
            ↔ (region_max_bits < bits) }
        ensures memory { IfOk result (λ slice. slice_memory slice ≡ memory.now) }
        ensures span { IfOk result (λ slice. slice_span slice
            ≡ front_span (length memory.now * R.BITS)) }
        ensures bits { IfOk result (λ slice. slice_bits slice
            ≡ memory_bits R.BITS O.at_of (map R.number memory.now)) }
        ensures whole { IfOk result (λ slice. ShowsMemory R.BITS O.at_of (slice_span slice)
            (length memory.now)) }
    {
        let span = span_of_all(memory.len())?;
        Ok(BitSlice { memory, span })
    }

    /// The first `len` bits of a memory, and `None` exactly where it has fewer, or `len` is more
    /// than 2305843009213693951. Constant time. Not in the Rust crate.
    ///
    /// # Examples
    ///
    /// ```
    /// let words = [0xFFu8, 0x0F];
    /// let front = BitSlice::<u8, Lsb0>::front(&words, 12).ok_or("too few")?;
    /// assert_eq!(rt; front.len(), 12);
    /// assert!(rt; front.all_ones());
    /// assert!(rt; BitSlice::<u8, Lsb0>::front(&words, 17).is_none());
    /// ```
    pub fn front(memory: &'a [R], len: usize) -> Option<Self>
        ensures accepted { IsSome result ↔ IsFront R.BITS len (length memory.now) }
        ensures memory { IfSome result (λ slice. slice_memory slice ≡ memory.now) }
        ensures span { IfSome result (λ slice. slice_span slice ≡ front_span len) }
        ensures bits { IfSome result (λ slice. slice_bits slice
            ≡ take len (memory_bits R.BITS O.at_of (map R.number memory.now))) }
    {
        let span = span_of_front(memory.len(), len)?;
        Some(BitSlice::new_unchecked(span, memory))
    }

    /// The first `len` bits of a memory. Requires that it has them, and that `len` is at most
    /// 2305843009213693951: [`front`](BitSlice::front) is the test. Constant time. Not in the Rust
    /// crate.
    pub fn front_unchecked(memory: &'a [R], len: usize) -> Self
        requires { IsFront R.BITS len (length memory.now) }
        ensures memory { slice_memory result ≡ memory.now }
        ensures span { slice_span result ≡ front_span len }
        ensures bits { slice_bits result
            ≡ take len (memory_bits R.BITS O.at_of (map R.number memory.now)) }
    {
        Self::front(memory, len).unwrap()
    }
}

impl<'a, R: BitRegister, O: BitOrder<R>> BitSliceMut<'a, R, O> {
    ghost use Rattle.bitvec_slice.specs.BitSliceMut.{lent_memory, lent_span, lent_bits};

    /// Every bit of a memory. Requires that there are at most 2305843009213693951. Constant time.
    /// Not in the Rust crate.
    pub fn all_unchecked(memory: &'a mut [R]) -> Self
        requires { length memory.old * R.BITS ≤ region_max_bits }
        ensures reference { (lent_memory result).ghost_name ≡ memory.entry.ghost_name }
        ensures memory { (lent_memory result).now ≡ memory.old }
        ensures span { lent_span result ≡ front_span (length memory.old * R.BITS) }
        ensures bits { lent_bits result ≡ memory_bits R.BITS O.at_of (map R.number memory.old) }
        ensures whole { ShowsMemory R.BITS O.at_of (lent_span result) (length memory.old) }
    {
        let span = span_of_all(memory.len()).unwrap();
        Self::new_unchecked(span, memory)
    }

    /// Every bit of a memory.
    ///
    /// It refuses as [`all`](BitSlice::all) of a [`BitSlice`] does, and then gives the memory back
    /// as it was. Constant time.
    pub fn all(memory: &'a mut [R]) -> Result<Self, (BitSpanError<R>, &'a mut [R])>
        ensures accepted { IsOk result ↔ (length memory.old * R.BITS ≤ region_max_bits) }
        ensures refused { let bits = length memory.old * R.BITS
            in IfErr result (λ it. it.0 ≡ BitSpanError.TooLong (min bits usize.MAX)) }

        // What is given back is the loan itself, and its words stay.
        ensures back { IfErr result (λ it. it.1.ghost_name ≡ memory.entry.ghost_name) }
        ensures kept { IfErr result (λ it. it.1.now ≡ memory.old) }
        ensures reference { IfOk result (λ slice. (lent_memory slice).ghost_name
            ≡ memory.entry.ghost_name) }
        ensures memory { IfOk result (λ slice. (lent_memory slice).now ≡ memory.old) }
        ensures span { IfOk result (λ slice. lent_span slice
            ≡ front_span (length memory.old * R.BITS)) }
        ensures bits { IfOk result (λ slice. lent_bits slice
            ≡ memory_bits R.BITS O.at_of (map R.number memory.old)) }
        ensures whole { IfOk result (λ slice. ShowsMemory R.BITS O.at_of (lent_span slice)
            (length memory.old)) }
    {
        match span_of_all(memory.len()) {
            Ok(span) => Ok(Self::new_unchecked(span, memory)),
            Err(error) => Err((error, memory)),
        }
    }

    /// The first `len` bits of a memory. Requires that it has them, and that `len` is at most
    /// 2305843009213693951: [`front`](BitSlice::front) of a [`BitSlice`] is the test. Constant time.
    /// Not in the Rust crate.
    pub fn front_unchecked(memory: &'a mut [R], len: usize) -> Self
        requires { IsFront R.BITS len (length memory.old) }
        ensures reference { (lent_memory result).ghost_name ≡ memory.entry.ghost_name }
        ensures memory { (lent_memory result).now ≡ memory.old }
        ensures span { lent_span result ≡ front_span len }
        ensures bits { lent_bits result
            ≡ take len (memory_bits R.BITS O.at_of (map R.number memory.old)) }
    {
        let span = span_of_front(memory.len(), len).unwrap();
        Self::new_unchecked(span, memory)
    }

    /// The first `len` bits of a memory.
    ///
    /// It refuses where [`front`](BitSlice::front) of a [`BitSlice`] does, and then gives the memory
    /// back as it was. Constant time. Not in the Rust crate.
    pub fn front(memory: &'a mut [R], len: usize) -> Result<Self, &'a mut [R]>
        ensures accepted { IsOk result ↔ IsFront R.BITS len (length memory.old) }

        // What is given back is the loan itself, and its words stay.
        ensures back { IfErr result (λ it. it.ghost_name ≡ memory.entry.ghost_name) }
        ensures kept { IfErr result (λ it. it.now ≡ memory.old) }
        ensures reference { IfOk result (λ slice. (lent_memory slice).ghost_name
            ≡ memory.entry.ghost_name) }
        ensures memory { IfOk result (λ slice. (lent_memory slice).now ≡ memory.old) }
        ensures span { IfOk result (λ slice. lent_span slice ≡ front_span len) }
        ensures bits { IfOk result (λ slice. lent_bits slice
            ≡ take len (memory_bits R.BITS O.at_of (map R.number memory.old))) }
    {
        match span_of_front(memory.len(), len) {
            Some(span) => Ok(Self::new_unchecked(span, memory)),
            None => Err(memory),
        }
    }
}
