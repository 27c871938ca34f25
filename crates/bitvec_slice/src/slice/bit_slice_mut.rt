//! Slices of bits for writing.

ghost use Rattle.std.specs.Prelude.{◌≡◌, ◌<◌, ◌↔◌, IsTrue, IsOk, IfOk, IfErr, length};
ghost use Rattle.std.specs.Prelude.{slice_get, slice_set, ◌==◌, if◌then◌else◌, ℕ};
ghost use Rattle.bitvec.specs.BitSpan.{span_of, list_by, Becomes};
ghost use Rattle.bitvec.specs.Digit.{digit};
ghost use Rattle.std.specs.Prelude.{pos, ◌+◌, ◌≤◌, ◌+ℤ◌, ◌≤ℤ◌};
ghost use Rattle.std.specs.Int.{int_div_euclid};
ghost use Rattle.bitvec.specs.Place.{place_at, region_max_bits, greatest_isize};
ghost use Rattle.bitvec.specs.Span.{Fits, element};
ghost use Rattle.bitvec_slice.specs.Bits.{AllBetween};
ghost use Rattle.bitvec_slice.specs.Lengths.{HasLength};
ghost use Rattle.bitvec_slice.specs.Ranges.{KeepsBeside};

use crate::slice::BitSlice;
use bitvec::index::BitIdx;
use bitvec::mem;
use bitvec::mem::BitRegister;
use bitvec::order::BitOrder;
use bitvec::ptr::span::BitSpan;
use std::marker::PhantomData;

// A word with another bit at an index.
#[inline(always)]
fn with_bit<R: BitRegister, O: BitOrder<R>>(word: R, index: BitIdx<R>, bit: bool) -> R
    ensures { (j : ℕ) → j < R.BITS → digit (R.number result) (O.at_of j)
        ≡ (if j == index then bit else digit (R.number word) (O.at_of j)) }
{
    let selector = index.select::<O>().into_inner();
    if bit {
        word.or(selector)
    } else {
        word.and(selector.not())
    }
}

// Writes bit `i` of a span into its word, and changes no other bit.
#[inline(always)]
fn put_bit<R: BitRegister, O: BitOrder<R>>(
    span: BitSpan<R, O>,
    memory: &mut [R],
    i: usize,
    bit: bool,
)
    requires fits { Fits R.BITS (span_of span) (length memory.old) }
    requires inside { i < (span_of span).len }
    ensures { Becomes span O.at_of memory.old memory.new
        (slice_set (list_by span O.at_of memory.old) i bit) }
{
    let width = mem::bits_of::<R>();
    let place = usize::from(span.head().into_inner()) + i;
    let index = BitIdx::new_unchecked((place % width) as u8);
    let at = span.address() as usize + place / width;
    memory[at] = with_bit::<R, O>(memory[at], index, bit);
}

/// The bits of a span in a memory, borrowed for writing.
///
/// The memory is lent until the slice is used for the last time, and then has the slice's list in
/// its place and every other bit as it was. So it need not be dropped by hand.
///
/// # Examples
///
/// ```
/// let mut memory = [0x00u8, 0xFF];
/// let span: BitSpan<u8, Msb0> = BitSpan::new(0, BitIdx::new_unchecked(4), 8).unwrap();
/// let mut slice = BitSliceMut::new_unchecked(span, &mut memory);
/// slice.reverse();
/// assert_eq!(rt; memory, [0x0F, 0x0F]);
/// ```
#[derive(Drop)]
pub struct BitSliceMut<'a, R: BitRegister, O: BitOrder<R>> {
    pub(crate) memory: &'a mut [R],
    word: isize,
    head: u8,
    len: usize,
    of: PhantomData<O>,
    pub ghost in_word: { head < R.BITS },
    pub ghost short: { len ≤ region_max_bits },
    pub ghost low: { int_div_euclid (place_at R.BITS word head +ℤ pos len) (pos R.BITS)
        ≤ℤ greatest_isize },
    pub ghost fits: { Fits R.BITS (record { word = word; head = head; len = len })
        (length memory.now) },
    // The span's list has the length of the span, whatever the words of the memory are.
    pub ghost many: { HasLength R.BITS O.at_of (record { word = word; head = head; len = len }) },
}

impl<'a, R: BitRegister, O: BitOrder<R>> BitSliceMut<'a, R, O> {
    ghost use Rattle.bitvec_slice.specs.BitSliceMut.{lent_memory, lent_span, lent_len, lent_bits};
    ghost use Rattle.bitvec_slice.specs.BitSliceMut.{BecomesBits};
    ghost use Rattle.bitvec_slice.specs.BitSlice.{slice_memory, slice_span, slice_bits};

    // The index of the first word.
    #[inline(always)]
    fn word(&self) -> isize
        ensures { result ≡ (lent_span self.now).word }
    {
        self.word
    }

    // The span of its bits.
    #[inline(always)]
    pub(crate) fn span(&self) -> BitSpan<R, O>
        ensures { span_of result ≡ lent_span self.now }
    {
        BitSpan::new_unchecked(self.word(), BitIdx::new_unchecked(self.head), self.len)
    }

    /// The bits of a span in a memory. Requires that the span lies in it: [`fits`](BitSpan::fits)
    /// is the test. Constant time. Not in the Rust crate.
    #[inline(always)]
    pub fn new_unchecked(span: BitSpan<R, O>, memory: &'a mut [R]) -> Self
        requires { Fits R.BITS (span_of span) (length memory.old) }
        ensures reference { (lent_memory result).ghost_name ≡ memory.entry.ghost_name }
        ensures memory { (lent_memory result).now ≡ memory.old }
        ensures span { lent_span result ≡ span_of span }
    {
        BitSliceMut {
            memory,
            word: span.address(),
            head: span.head().into_inner(),
            len: span.len(),
            of: PhantomData,
        }
    }

    /// The bits of a span in a memory. It refuses exactly where the span does not lie in it, and
    /// then gives the memory back as it was. Constant time.
    pub fn new(span: BitSpan<R, O>, memory: &'a mut [R]) -> Result<Self, &'a mut [R]>
        ensures accepted { IsOk result ↔ Fits R.BITS (span_of span) (length memory.old) }
        ensures reference { IfOk result (λ slice. (lent_memory slice).ghost_name
            ≡ memory.entry.ghost_name) }
        ensures memory { IfOk result (λ slice. (lent_memory slice).now ≡ memory.old) }
        ensures span { IfOk result (λ slice. lent_span slice ≡ span_of span) }

        // What is given back is the loan itself, and its words stay.
        ensures back { IfErr result (λ rest. rest.ghost_name ≡ memory.entry.ghost_name) }
        ensures kept { IfErr result (λ rest. rest.now ≡ memory.old) }
    {
        if span.fits(memory.len()) {
            Ok(Self::new_unchecked(span, memory))
        } else {
            Err(memory)
        }
    }

    /// Its bits, for reading. Constant time.
    #[inline(always)]
    pub fn as_bitslice(&self) -> BitSlice<'_, R, O>
        ensures memory { slice_memory result ≡ (lent_memory self.now).now }
        ensures span { slice_span result ≡ lent_span self.now }
        ensures bits { slice_bits result ≡ lent_bits self.now }
    {
        BitSlice::new_unchecked(self.span(), &*self.memory)
    }

    /// The span of its bits, and the memory that it borrows, as it is: what
    /// [`new_unchecked`](BitSliceMut::new_unchecked) takes. Constant time. Not in the Rust crate.
    ///
    /// # Examples
    ///
    /// ```
    /// let mut memory = [0x00u8; 2];
    /// let mut slice = BitSliceMut::<u8, Msb0>::all_unchecked(&mut memory);
    /// slice.set(0, true);
    /// let (span, words) = slice.into_parts();
    /// assert_eq!(rt; span.len(), 16);
    /// assert_eq!(rt; words[0], 0x80);
    /// ```
    pub fn into_parts(self) -> (BitSpan<R, O>, &'a mut [R])
        ensures span { span_of result.0 ≡ lent_span self.entry }
        ensures reference { result.1.ghost_name ≡ (lent_memory self.entry).ghost_name }
        ensures memory { result.1.now ≡ (lent_memory self.entry).now }
    {
        (self.span(), self.memory)
    }

    /// How many bits there are. Constant time.
    #[inline(always)]
    pub fn len(&self) -> usize
        ensures value { result ≡ lent_len self.now }
        ensures list { result ≡ length (lent_bits self.now) }
    {
        self.len
    }

    /// Whether there are none. Constant time.
    #[inline(always)]
    pub fn is_empty(&self) -> bool
        ensures { IsTrue result ↔ (lent_len self.now ≡ 0) }
    {
        self.len() == 0
    }

    /// Bit `i`, and `None` where there are no more than `i` bits. Constant time.
    #[inline(always)]
    pub fn get(&self, i: usize) -> Option<bool>
        ensures { result ≡ slice_get (lent_bits self.now) i }
    {
        self.as_bitslice().get(i)
    }

    /// Bit `i`. Requires that there is one: [`len`](BitSliceMut::len) is the test. Constant time.
    #[inline(always)]
    pub fn get_unchecked(&self, i: usize) -> bool
        requires { i < lent_len self.now }
        ensures { result ≡ element (lent_bits self.now) i }
    {
        self.as_bitslice().get_unchecked(i)
    }

    /// Writes bit `i`. Requires that there is one: [`len`](BitSliceMut::len) is the test. Constant
    /// time.
    #[inline(always)]
    pub fn set(&mut self, i: usize, bit: bool)
        requires { i < lent_len self.old }
        ensures bits { BecomesBits self.old self.new (slice_set (lent_bits self.old) i bit) }
        ensures filled { AllBetween bit (lent_bits self.new) i (i + 1) }
        ensures beside { KeepsBeside i (i + 1) (lent_bits self.old) (lent_bits self.new) }
    {
        let span = self.span();
        let memory = &mut *self.memory;
        put_bit(span, memory, i, bit);
    }
}
