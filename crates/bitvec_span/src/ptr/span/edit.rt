//! Edits of a span's bits in a memory that it fits: each says what the span's list becomes, and
//! leaves every other bit of the memory as it is.

ghost use Rattle.std.specs.Prelude.{◌≡◌, ℕ, ◌+◌, ◌<◌, ◌≤◌, if◌then◌else◌, length, replicate};
ghost use Rattle.std.specs.Prelude.{slice_set};
ghost use Rattle.std.specs.List.{swap};
ghost use Rattle.bitvec_mem.specs.Digit.{digit};
ghost use Rattle.bitvec_order.specs.Order.{IsMaskOf};
ghost use Rattle.bitvec_ptr.specs.Memory.{list_with_copy};
ghost use Rattle.bitvec_ptr.specs.Place.{words_met};
ghost use Rattle.bitvec_span.specs.Span.{Fits, element, with_words};
ghost use Rattle.bitvec_span.specs.BitSpan.{span_of, list_by, Becomes};
ghost use Rattle.bitvec_span.specs.Parts.{part_head, part_tail};

use crate::ptr::span::BitSpan;
use bitvec_mem::mem::BitRegister;
use bitvec_order::order::BitOrder;

// The word whose bits are all the same.
fn same_bits<R: BitRegister>(bit: bool) -> R
    ensures { (p : ℕ) → p < R.BITS → digit (R.number result) p ≡ bit }
{
    if bit { R::ALL } else { R::ZERO }
}

// The word with the digits of a mask all the same.
#[inline(always)]
fn filled<R: BitRegister>(word: R, mask: R, bit: bool) -> R
    ensures { (p : ℕ) → p < R.BITS → digit (R.number result) p
        ≡ (if digit (R.number mask) p then bit else digit (R.number word) p) }
{
    if bit {
        word.or(mask)
    } else {
        word.and(mask.not())
    }
}

impl<R: BitRegister, O: BitOrder<R>> BitSpan<R, O> {
    /// Bit `i` of the span, in a memory that the span [`fits`](BitSpan::fits).
    ///
    /// Requires that there is one. Constant time. In place of the Rust crate's
    /// `BitSlice::get_unchecked`.
    pub fn read(self, memory: &[R], i: usize) -> bool
        requires fits { Fits R.BITS (span_of self) (length memory.now) }
        requires inside { i < (span_of self).len }
        ensures { result ≡ element (list_by self O.at_of memory.now) i }
    {
        self.bitptr(i).read(memory)
    }

    /// Writes bit `i` of the span, and leaves every other bit as it is.
    ///
    /// Requires a span that [`fits`](BitSpan::fits), and that there is such a bit. Constant time.
    /// In place of the Rust crate's `BitSlice::set_unchecked`.
    ///
    /// # Examples
    ///
    /// ```
    /// let mut memory = [0x00u8; 2];
    /// let span: BitSpan<u8, Lsb0> = BitSpan::at(6, 4).unwrap();
    /// span.write(&mut memory, 2, true);
    /// assert_eq!(rt; memory, [0x00, 0x01]);
    /// assert!(rt; span.read(&memory, 2));
    /// ```
    pub fn write(self, memory: &mut [R], i: usize, bit: bool)
        requires fits { Fits R.BITS (span_of self) (length memory.old) }
        requires inside { i < (span_of self).len }
        ensures { Becomes self O.at_of memory.old memory.new
            (slice_set (list_by self O.at_of memory.old) i bit) }
    {
        self.bitptr(i).write(memory, bit);
    }

    /// Writes bit `i` of the span as [`write`](BitSpan::write) does, and returns the bit that was
    /// there.
    ///
    /// Constant time. In place of the Rust crate's `BitSlice::replace_unchecked`.
    pub fn replace(self, memory: &mut [R], i: usize, bit: bool) -> bool
        requires fits { Fits R.BITS (span_of self) (length memory.old) }
        requires inside { i < (span_of self).len }
        ensures previous { result ≡ element (list_by self O.at_of memory.old) i }
        ensures becomes { Becomes self O.at_of memory.old memory.new
            (slice_set (list_by self O.at_of memory.old) i bit) }
    {
        let previous = self.read(memory, i);
        self.write(memory, i, bit);
        previous
    }

    /// Exchanges bits `i` and `j` of the span, and leaves every other bit as it is.
    ///
    /// Requires a span that [`fits`](BitSpan::fits), and that there are both bits; they may be one.
    /// Constant time. In place of the Rust crate's `BitSlice::swap_unchecked`.
    pub fn swap(self, memory: &mut [R], i: usize, j: usize)
        requires fits { Fits R.BITS (span_of self) (length memory.old) }
        requires first { i < (span_of self).len }
        requires second { j < (span_of self).len }
        ensures { Becomes self O.at_of memory.old memory.new
            (swap (list_by self O.at_of memory.old) i j) }
    {
        let first = self.read(memory, i);
        let second = self.read(memory, j);
        self.write(memory, i, second);
        self.write(memory, j, first);
    }

    /// Copies `count` of the span's bits, from its bit `from` on, to those from its bit `to` on,
    /// and leaves every other bit as it is. The two ranges may overlap, and what is copied is what
    /// was there before the call.
    ///
    /// Requires a span that [`fits`](BitSpan::fits), and that both ranges end within it. Costs by
    /// words where the order rises or falls, or both ranges begin at the same bit of a word; else
    /// by bits. In place of the Rust crate's `BitSlice::copy_within_unchecked`.
    pub fn copy_within(self, memory: &mut [R], from: usize, to: usize, count: usize)
        requires fits { Fits R.BITS (span_of self) (length memory.old) }
        requires source_inside { from + count ≤ (span_of self).len }
        requires target_inside { to + count ≤ (span_of self).len }
        ensures { let old = list_by self O.at_of memory.old
            in Becomes self O.at_of memory.old memory.new (list_with_copy old from old to count) }
    {
        let source = self.range(from, from + count);
        let target = self.range(to, to + count);
        source.copy_to_range(memory, target);
    }

    // Copies the bits of the span to those of another of the same length in the same memory.
    fn copy_to_range(self, memory: &mut [R], target: Self)
        requires source_fits { Fits R.BITS (span_of self) (length memory.old) }
        requires fits { Fits R.BITS (span_of target) (length memory.old) }
        requires same { (span_of self).len ≡ (span_of target).len }
        ensures { Becomes target O.at_of memory.old memory.new (list_by self O.at_of memory.old) }
    {
        self.to_bitptr()
            .copy_within(memory, target.to_bitptr(), target.len());
    }

    /// Copies the bits of another span in a memory of its own, of any register and order, to the
    /// span's, and leaves every other bit as it is.
    ///
    /// Requires that each span [`fits`](BitSpan::fits) its memory, and that both have the same
    /// length. Costs by words where both orders rise, both fall, or are one order with both spans
    /// at the same bit of a word; else by bits. In place of the Rust crate's
    /// `BitSlice::copy_from_bitslice`.
    ///
    /// # Examples
    ///
    /// ```
    /// let source = [0x0Fu16];
    /// let from: BitSpan<u16, Msb0> = BitSpan::at(8, 8).unwrap();
    /// let mut memory = [0x00u8; 2];
    /// let span: BitSpan<u8, Lsb0> = BitSpan::at(4, 8).unwrap();
    /// span.copy_from(&mut memory, from, &source);
    /// assert_eq!(rt; memory, [0x00, 0x0F]);
    /// ```
    pub fn copy_from<R2: BitRegister, O2: BitOrder<R2>>(
        self,
        memory: &mut [R],
        source: BitSpan<R2, O2>,
        source_memory: &[R2],
    )
        requires source_fits { Fits R2.BITS (span_of source) (length source_memory.now) }
        requires fits { Fits R.BITS (span_of self) (length memory.old) }
        requires same { (span_of source).len ≡ (span_of self).len }
        ensures { Becomes self O.at_of memory.old memory.new
            (list_by source O2.at_of source_memory.now) }
    {
        let start = source.to_bitptr();
        start.copy_to(source_memory, self.to_bitptr(), memory, self.len());
    }

    /// Makes each bit of the span in a memory the same, and leaves every other bit as it is.
    ///
    /// Requires a span that [`fits`](BitSpan::fits). Costs by words. Not in the Rust crate.
    ///
    /// # Examples
    ///
    /// ```
    /// let mut memory = [0x12u8, 0x34, 0x56];
    /// let span: BitSpan<u8, Lsb0> = BitSpan::new(0, BitIdx::new_unchecked(4), 12).unwrap();
    /// span.fill(&mut memory, true);
    /// assert_eq!(rt; memory, [0xF2, 0xFF, 0x56]);
    /// ```
    pub fn fill(self, memory: &mut [R], bit: bool)
        requires { Fits R.BITS (span_of self) (length memory.old) }
        ensures { Becomes self O.at_of memory.old memory.new (replicate (span_of self).len bit) }
    {
        let elements = self.elements();
        if elements == 0 {
            return;
        }
        self.fill_part(memory, 0, bit);
        if elements == 1 {
            return;
        }
        self.fill_between(memory, elements - 1, bit);
        self.fill_part(memory, elements - 1, bit);
    }

    // Makes each bit of the span in the `k`-th word that it meets the same.
    fn fill_part(self, memory: &mut [R], k: usize, bit: bool)
        requires fits { Fits R.BITS (span_of self) (length memory.old) }
        requires met { k < words_met R.BITS (span_of self).head (span_of self).len }
        ensures { Becomes self O.at_of memory.old memory.new (with_words R.BITS (span_of self).head
            (list_by self O.at_of memory.old) k (k + 1) bit) }
    {
        let word = self.address() as usize + k;
        let mask = self.mask_among(k);
        memory[word] = filled(memory[word], mask, bit);
    }

    // The positions of the span's bits in the `k`-th word that it meets.
    #[inline(always)]
    fn mask_among(self, k: usize) -> R
        requires { k < words_met R.BITS (span_of self).head (span_of self).len }
        ensures { IsMaskOf R.BITS O.at_of (part_head (span_of self).head k)
            (part_tail R.BITS (span_of self).head (span_of self).len k) (R.number result) }
    {
        let (elements, tail) = self.extent();
        let (head, tail) = self.bounds_among(k, elements, tail);
        O::mask(Some(head), Some(tail)).into_inner()
    }

    // Makes each bit of the words behind the first and before the last, the word `last`, the same.
    fn fill_between(self, memory: &mut [R], last: usize, bit: bool)
        requires fits { Fits R.BITS (span_of self) (length memory.old) }
        requires last { last + 1 ≡ words_met R.BITS (span_of self).head (span_of self).len }
        requires more { 1 ≤ last }
        ensures { Becomes self O.at_of memory.old memory.new (with_words R.BITS (span_of self).head
            (list_by self O.at_of memory.old) 1 last bit) }
    {
        let word = same_bits(bit);
        let first = self.address() as usize;
        for k in 1..last {
            memory[first + k] = word;
        }
    }

    /// Makes the bits of the span in a memory those of a list of the same length, and leaves every
    /// other bit as it is.
    ///
    /// Requires a span that [`fits`](BitSpan::fits). Costs by bits. In place of the Rust crate's
    /// `BitSlice::clone_from_bitslice`.
    pub fn write_bits(self, memory: &mut [R], bits: &[bool])
        requires fits { Fits R.BITS (span_of self) (length memory.old) }
        requires len { length bits.now ≡ (span_of self).len }
        ensures { Becomes self O.at_of memory.old memory.new bits.now }
    {
        for i in 0..self.len() {
            self.write(memory, i, bits[i]);
        }
    }
}
