//! Copies and other combinations of ranges of bits, between two memories and inside one.
//!
//! A copy is the combination that takes the source's bit, so all of them are one engine.
//!
//! Where a cost hangs on the orders, two of them are one order where their words have one width
//! and each index has one position under both.

ghost use Rattle.std.specs.Prelude.{◌≡◌, ℕ, ℤ, pos, nat_abs, ◌+◌, ◌*◌, ◌<◌, ◌≤◌, ◌+ℤ◌, ◌≤ℤ◌, true};
ghost use Rattle.std.specs.Prelude.{false, length, map};
ghost use Rattle.std.specs.Int.{int_div_euclid};
ghost use Rattle.bitvec_ptr.specs.BitPtr.{ptr_of, ptr_place, bits_by, bits_with_copy, bits_with};
ghost use Rattle.bitvec_ptr.specs.BitPtr.{far_edge};
ghost use Rattle.bitvec_ptr.specs.Place.{place_of, words_met, region_max_bits};
ghost use Rattle.bitvec_ptr.specs.Steps.{RangeIsIn, AreApart};
ghost use Rattle.bitvec_ptr.specs.WordWriter.{writer_memory, writer_of};

mod gather;
mod pairs;
mod question;
mod words;

use crate::ptr::combine::{Combine, Source};
use crate::ptr::copy::words::{combine_bits, combine_bits_within};
use crate::ptr::cursor::Cursor;
use crate::ptr::single::BitPtr;
use crate::ptr::writer::{WordWriter, near_edge};
use bitvec_mem::mem::BitRegister;
use bitvec_order::order::BitOrder;

impl<R: BitRegister, O: BitOrder<R>> BitPtr<R, O> {
    /// Copies `count` bits of `memory`, from this pointer on, to those from `dest` on of the memory
    /// that the writer borrows, and puts each word that they meet once and no other word.
    ///
    /// Requires that [`run_in`](BitPtr::run_in) holds of each range, and, where there are bits to
    /// copy, that the mark stands at the target: before its first word if the writer is a rising
    /// one, after its last if it is a falling one. Then the mark stands at the target's other edge,
    /// and [`writes`](WordWriter::writes) has grown by the number of words that the target meets.
    /// With count 0 the writer stays as it is. Costs by words where both orders rise, both fall, or
    /// are one order with both ranges at the same bit of a word; else by bits. Not in the Rust
    /// crate.
    #[inline(always)]
    pub fn copy_through<R2: BitRegister, O2: BitOrder<R2>>(
        self,
        memory: &[R],
        dest: BitPtr<R2, O2>,
        writer: &mut WordWriter<R2>,
        count: usize,
    )
        requires from_in { RangeIsIn R.BITS (ptr_of self) (length memory.now) count }
        requires to_in { RangeIsIn R2.BITS (ptr_of dest) (length (writer_of writer.old).words)
            count }
        requires rising { 0 < count → (writer_of writer.old).rising ≡ true
            → (writer_of writer.old).mark ≡ nat_abs (ptr_of dest).word }
        requires falling { 0 < count → (writer_of writer.old).rising ≡ false
            → (writer_of writer.old).mark ≡ far_edge dest count }
        ensures reference { (writer_memory writer.new).ghost_name
            ≡ (writer_memory writer.old).ghost_name }
        ensures direction { (writer_of writer.new).rising ≡ (writer_of writer.old).rising }
        ensures len { length (writer_of writer.new).words ≡ length (writer_of writer.old).words }
        ensures writes { (writer_of writer.new).writes
            ≡ (writer_of writer.old).writes + words_met R2.BITS (ptr_of dest).bit count }
        ensures rising_mark { 0 < count → (writer_of writer.old).rising ≡ true
            → (writer_of writer.new).mark ≡ far_edge dest count }
        ensures falling_mark { 0 < count → (writer_of writer.old).rising ≡ false
            → (writer_of writer.new).mark ≡ nat_abs (ptr_of dest).word }
        ensures bits { bits_by dest O2.at_of (writer_of writer.new).words ≡ bits_with_copy self
            O.at_of memory.now dest O2.at_of (writer_of writer.old).words count }
        ensures none { count ≡ 0 → writer_of writer.new ≡ writer_of writer.old }
    {
        self.combine_through::<Source, R2, O2>(memory, dest, writer, count);
    }

    /// Combines `count` bits of `memory`, from this pointer on, with those from `dest` on of the
    /// memory that the writer borrows, and puts each word that they meet once and no other word.
    ///
    /// Bit j of the target's range becomes what `C` makes of it and of bit j of this range,
    /// whatever their registers and orders are. What is required, and how the mark and the count of
    /// writes move, is as for [`copy_through`](BitPtr::copy_through), which is this call with
    /// [`Source`]. Costs by words where both orders rise, both fall, or are one order with both
    /// ranges at the same bit of a word; else by bits. Not in the Rust crate.
    ///
    /// # Examples
    ///
    /// ```
    /// let memory = [0x0Fu8];
    /// let mut target = [0x33u8, 0x33];
    /// let from: BitPtr<u8, Lsb0> = BitPtr::new(0, BitIdx::MIN);
    /// let dest: BitPtr<u8, Lsb0> = BitPtr::new(0, BitIdx::new_unchecked(4));
    /// let mut writer = WordWriter::rising(&mut target);
    /// from.combine_through::<Or, u8, Lsb0>(&memory, dest, &mut writer, 8);
    /// assert_eq!(rt; (writer.mark(), writer.writes()), (2, 2));
    /// assert_eq!(rt; target, [0xF3, 0x33]);
    /// ```
    #[inline(always)]
    pub fn combine_through<C: Combine, R2: BitRegister, O2: BitOrder<R2>>(
        self,
        memory: &[R],
        dest: BitPtr<R2, O2>,
        writer: &mut WordWriter<R2>,
        count: usize,
    )
        requires from_in { RangeIsIn R.BITS (ptr_of self) (length memory.now) count }
        requires to_in { RangeIsIn R2.BITS (ptr_of dest) (length (writer_of writer.old).words)
            count }
        requires rising { 0 < count → (writer_of writer.old).rising ≡ true
            → (writer_of writer.old).mark ≡ nat_abs (ptr_of dest).word }
        requires falling { 0 < count → (writer_of writer.old).rising ≡ false
            → (writer_of writer.old).mark ≡ far_edge dest count }
        ensures reference { (writer_memory writer.new).ghost_name
            ≡ (writer_memory writer.old).ghost_name }
        ensures direction { (writer_of writer.new).rising ≡ (writer_of writer.old).rising }
        ensures len { length (writer_of writer.new).words ≡ length (writer_of writer.old).words }
        ensures writes { (writer_of writer.new).writes
            ≡ (writer_of writer.old).writes + words_met R2.BITS (ptr_of dest).bit count }
        ensures rising_mark { 0 < count → (writer_of writer.old).rising ≡ true
            → (writer_of writer.new).mark ≡ far_edge dest count }
        ensures falling_mark { 0 < count → (writer_of writer.old).rising ≡ false
            → (writer_of writer.new).mark ≡ nat_abs (ptr_of dest).word }
        ensures bits { bits_by dest O2.at_of (writer_of writer.new).words
            ≡ bits_with C.of self O.at_of memory.now dest O2.at_of (writer_of writer.old).words
            count }
        ensures none { count ≡ 0 → writer_of writer.new ≡ writer_of writer.old }
    {
        if count == 0 {
            return;
        }
        combine_bits::<C, R, O, R2, O2>(memory, Cursor::at(self), writer, Cursor::at(dest), count);
    }

    /// Copies `count` bits inside the memory that the writer borrows, from this pointer on, to
    /// those from `dest` on, and puts each word that they meet once and no other word.
    ///
    /// The two ranges may overlap, and what is copied is what was there before the call. Requires
    /// what [`copy_through`](BitPtr::copy_through) does, and, where there are bits to copy, a
    /// rising writer where `dest` is at or before this pointer and a falling one otherwise. Mark
    /// and writes move as there. Costs by words where both orders rise, both fall, or are one order
    /// with both ranges at the same bit of a word; else by bits. Not in the Rust crate.
    #[inline(always)]
    pub fn copy_within_through(self, dest: Self, writer: &mut WordWriter<R>, count: usize)
        requires from_in { RangeIsIn R.BITS (ptr_of self) (length (writer_of writer.old).words)
            count }
        requires to_in { RangeIsIn R.BITS (ptr_of dest) (length (writer_of writer.old).words)
            count }
        requires rising { 0 < count → (writer_of writer.old).rising ≡ true
            → (writer_of writer.old).mark ≡ nat_abs (ptr_of dest).word }
        requires falling { 0 < count → (writer_of writer.old).rising ≡ false
            → (writer_of writer.old).mark ≡ far_edge dest count }
        requires needs_rising { 0 < count → ptr_place dest ≤ ptr_place self
            → (writer_of writer.old).rising ≡ true }
        requires needs_falling { 0 < count → ptr_place self < ptr_place dest
            → (writer_of writer.old).rising ≡ false }
        ensures reference { (writer_memory writer.new).ghost_name
            ≡ (writer_memory writer.old).ghost_name }
        ensures direction { (writer_of writer.new).rising ≡ (writer_of writer.old).rising }
        ensures len { length (writer_of writer.new).words ≡ length (writer_of writer.old).words }
        ensures writes { (writer_of writer.new).writes
            ≡ (writer_of writer.old).writes + words_met R.BITS (ptr_of dest).bit count }
        ensures rising_mark { 0 < count → (writer_of writer.old).rising ≡ true
            → (writer_of writer.new).mark ≡ far_edge dest count }
        ensures falling_mark { 0 < count → (writer_of writer.old).rising ≡ false
            → (writer_of writer.new).mark ≡ nat_abs (ptr_of dest).word }
        ensures bits { let old = (writer_of writer.old).words
            in bits_by self O.at_of (writer_of writer.new).words
            ≡ bits_with_copy self O.at_of old dest O.at_of old count }
        ensures none { count ≡ 0 → writer_of writer.new ≡ writer_of writer.old }
    {
        self.combine_within_through::<Source>(dest, writer, count);
    }

    /// Combines `count` bits inside the memory that the writer borrows, from this pointer on, with
    /// those from `dest` on, and puts each word that they meet once and no other word.
    ///
    /// The two ranges may overlap, and each bit is combined with what was there before the call.
    /// What is required, and how the mark and the count of writes move, is as for
    /// [`copy_within_through`](BitPtr::copy_within_through), which is this call with [`Source`].
    /// Costs by words where both orders rise, both fall, or are one order with both ranges at the
    /// same bit of a word; else by bits. Not in the Rust crate.
    ///
    /// # Examples
    ///
    /// ```
    /// let mut memory = [0x0Fu8, 0x3C];
    /// let from: BitPtr<u8, Lsb0> = BitPtr::new(0, BitIdx::MIN);
    /// let dest: BitPtr<u8, Lsb0> = BitPtr::new(1, BitIdx::MIN);
    /// let mut writer = WordWriter::falling(&mut memory);
    /// from.combine_within_through::<AndNot>(dest, &mut writer, 8);
    /// assert_eq!(rt; writer.writes(), 1);
    /// assert_eq!(rt; memory, [0x0F, 0x30]);
    /// ```
    #[inline(always)]
    pub fn combine_within_through<C: Combine>(
        self,
        dest: Self,
        writer: &mut WordWriter<R>,
        count: usize,
    )
        requires from_in { RangeIsIn R.BITS (ptr_of self) (length (writer_of writer.old).words)
            count }
        requires to_in { RangeIsIn R.BITS (ptr_of dest) (length (writer_of writer.old).words)
            count }
        requires rising { 0 < count → (writer_of writer.old).rising ≡ true
            → (writer_of writer.old).mark ≡ nat_abs (ptr_of dest).word }
        requires falling { 0 < count → (writer_of writer.old).rising ≡ false
            → (writer_of writer.old).mark ≡ far_edge dest count }
        requires needs_rising { 0 < count → ptr_place dest ≤ ptr_place self
            → (writer_of writer.old).rising ≡ true }
        requires needs_falling { 0 < count → ptr_place self < ptr_place dest
            → (writer_of writer.old).rising ≡ false }
        ensures reference { (writer_memory writer.new).ghost_name
            ≡ (writer_memory writer.old).ghost_name }
        ensures direction { (writer_of writer.new).rising ≡ (writer_of writer.old).rising }
        ensures len { length (writer_of writer.new).words ≡ length (writer_of writer.old).words }
        ensures writes { (writer_of writer.new).writes
            ≡ (writer_of writer.old).writes + words_met R.BITS (ptr_of dest).bit count }
        ensures rising_mark { 0 < count → (writer_of writer.old).rising ≡ true
            → (writer_of writer.new).mark ≡ far_edge dest count }
        ensures falling_mark { 0 < count → (writer_of writer.old).rising ≡ false
            → (writer_of writer.new).mark ≡ nat_abs (ptr_of dest).word }
        ensures bits { let old = (writer_of writer.old).words
            in bits_by self O.at_of (writer_of writer.new).words
            ≡ bits_with C.of self O.at_of old dest O.at_of old count }
        ensures none { count ≡ 0 → writer_of writer.new ≡ writer_of writer.old }
    {
        if count == 0 {
            return;
        }
        combine_bits_within::<C, R, O>(Cursor::at(self), writer, Cursor::at(dest), count);
    }

    /// Copies `count` bits of `memory`, from this pointer on, to those of `target` from `dest` on,
    /// and changes no other bit: [`run_in`](BitPtr::run_in) is the test of each range.
    ///
    /// Bit j of the one range becomes bit j of the other, whatever their registers and orders are.
    /// The Rust crate's call is handed no memory, since its pointers are addresses. Costs by words
    /// where both orders rise, both fall, or are one order with both ranges at the same bit of a
    /// word; else by bits.
    ///
    /// # Examples
    ///
    /// ```
    /// let memory = [0x2Cu8];
    /// let mut target = [0u16];
    /// let from: BitPtr<u8, Lsb0> = BitPtr::new(0, BitIdx::new_unchecked(2));
    /// let dest: BitPtr<u16, Msb0> = BitPtr::new(0, BitIdx::new_unchecked(4));
    /// from.copy_to(&memory, dest, &mut target, 4);
    /// assert_eq!(rt; target, [0x0D00]);
    /// ```
    pub fn copy_to<R2: BitRegister, O2: BitOrder<R2>>(
        self,
        memory: &[R],
        dest: BitPtr<R2, O2>,
        target: &mut [R2],
        count: usize,
    )
        requires from_in { RangeIsIn R.BITS (ptr_of self) (length memory.now) count }
        requires to_in { RangeIsIn R2.BITS (ptr_of dest) (length target.old) count }
        ensures bits { bits_by dest O2.at_of target.new
            ≡ bits_with_copy self O.at_of memory.now dest O2.at_of target.old count }
        ensures words { length target.new ≡ length target.old }
    {
        let to = Cursor::at(dest);
        let mut writer = WordWriter::rising(target);
        writer.skip_to(to.word);
        self.copy_through(memory, dest, &mut writer, count);
    }

    /// Combines `count` bits of `memory`, from this pointer on, with those of `target` from `dest`
    /// on, and changes no other bit: [`run_in`](BitPtr::run_in) is the test of each range.
    ///
    /// Bit j of the target's range becomes what `C` makes of it and of bit j of this range,
    /// whatever their registers and orders are. With [`Source`] it is [`copy_to`](BitPtr::copy_to).
    /// Costs by words where both orders rise, both fall, or are one order with both ranges at the
    /// same bit of a word; else by bits. Not in the Rust crate.
    ///
    /// # Examples
    ///
    /// ```
    /// let memory = [0x2Cu8];
    /// let mut target = [0xFFFFu16];
    /// let from: BitPtr<u8, Lsb0> = BitPtr::new(0, BitIdx::new_unchecked(2));
    /// let dest: BitPtr<u16, Msb0> = BitPtr::new(0, BitIdx::new_unchecked(4));
    /// from.combine_to::<Xor, u16, Msb0>(&memory, dest, &mut target, 4);
    /// assert_eq!(rt; target, [0xF2FF]);
    /// ```
    pub fn combine_to<C: Combine, R2: BitRegister, O2: BitOrder<R2>>(
        self,
        memory: &[R],
        dest: BitPtr<R2, O2>,
        target: &mut [R2],
        count: usize,
    )
        requires from_in { RangeIsIn R.BITS (ptr_of self) (length memory.now) count }
        requires to_in { RangeIsIn R2.BITS (ptr_of dest) (length target.old) count }
        ensures bits { bits_by dest O2.at_of target.new
            ≡ bits_with C.of self O.at_of memory.now dest O2.at_of target.old count }
        ensures words { length target.new ≡ length target.old }
    {
        let to = Cursor::at(dest);
        let mut writer = WordWriter::rising(target);
        writer.skip_to(to.word);
        self.combine_through::<C, R2, O2>(memory, dest, &mut writer, count);
    }

    /// Another name of [`copy_to`](BitPtr::copy_to), since two memories never overlap. Costs by
    /// words where both orders rise, both fall, or are one order with both ranges at the same bit
    /// of a word; else by bits.
    pub fn copy_to_nonoverlapping<R2: BitRegister, O2: BitOrder<R2>>(
        self,
        memory: &[R],
        dest: BitPtr<R2, O2>,
        target: &mut [R2],
        count: usize,
    )
        requires from_in { RangeIsIn R.BITS (ptr_of self) (length memory.now) count }
        requires to_in { RangeIsIn R2.BITS (ptr_of dest) (length target.old) count }
        ensures bits { bits_by dest O2.at_of target.new
            ≡ bits_with_copy self O.at_of memory.now dest O2.at_of target.old count }
        ensures words { length target.new ≡ length target.old }
    {
        self.copy_to(memory, dest, target, count);
    }

    /// Copies `count` bits of `source`, from `src` on, to those of `memory` from this pointer on,
    /// and changes no other bit: [`run_in`](BitPtr::run_in) is the test of each range.
    ///
    /// It is [`copy_to`](BitPtr::copy_to) with the two sides in each other's place. Costs by words
    /// where both orders rise, both fall, or are one order with both ranges at the same bit of a
    /// word; else by bits.
    pub fn copy_from<R2: BitRegister, O2: BitOrder<R2>>(
        self,
        memory: &mut [R],
        src: BitPtr<R2, O2>,
        source: &[R2],
        count: usize,
    )
        requires from_in { RangeIsIn R2.BITS (ptr_of src) (length source.now) count }
        requires to_in { RangeIsIn R.BITS (ptr_of self) (length memory.old) count }
        ensures bits { bits_by self O.at_of memory.new
            ≡ bits_with_copy src O2.at_of source.now self O.at_of memory.old count }
        ensures words { length memory.new ≡ length memory.old }
    {
        src.copy_to(source, self, memory, count);
    }

    /// Another name of [`copy_from`](BitPtr::copy_from), since two memories never overlap. As in
    /// the Rust crate. Costs by words where both orders rise, both fall, or are one order with both
    /// ranges at the same bit of a word; else by bits.
    pub fn copy_from_nonoverlapping<R2: BitRegister, O2: BitOrder<R2>>(
        self,
        memory: &mut [R],
        src: BitPtr<R2, O2>,
        source: &[R2],
        count: usize,
    )
        requires from_in { RangeIsIn R2.BITS (ptr_of src) (length source.now) count }
        requires to_in { RangeIsIn R.BITS (ptr_of self) (length memory.old) count }
        ensures bits { bits_by self O.at_of memory.new
            ≡ bits_with_copy src O2.at_of source.now self O.at_of memory.old count }
        ensures words { length memory.new ≡ length memory.old }
    {
        self.copy_from(memory, src, source, count);
    }

    /// Copies `count` bits of a memory, from this pointer on, to those from `dest` on, and changes
    /// no other bit: [`run_in`](BitPtr::run_in) is the test of each range.
    ///
    /// The two ranges may overlap, and what is copied is what was there before the call. Costs by
    /// words where both orders rise, both fall, or are one order with both ranges at the same bit
    /// of a word; else by bits. In place of the Rust crate's `copy_to` where both pointers are into
    /// one memory.
    pub fn copy_within(self, memory: &mut [R], dest: Self, count: usize)
        requires from_in { RangeIsIn R.BITS (ptr_of self) (length memory.old) count }
        requires to_in { RangeIsIn R.BITS (ptr_of dest) (length memory.old) count }
        ensures bits { bits_by self O.at_of memory.new
            ≡ bits_with_copy self O.at_of memory.old dest O.at_of memory.old count }
        ensures words { length memory.new ≡ length memory.old }
    {
        self.combine_within::<Source>(memory, dest, count);
    }

    /// Combines `count` bits of a memory, from this pointer on, with those from `dest` on, and
    /// changes no other bit: [`run_in`](BitPtr::run_in) is the test of each range.
    ///
    /// The two ranges may overlap, and each bit is combined with what was there before the call.
    /// With [`Source`] it is [`copy_within`](BitPtr::copy_within). Costs by words where both orders
    /// rise, both fall, or are one order with both ranges at the same bit of a word; else by bits.
    /// Not in the Rust crate.
    ///
    /// # Examples
    ///
    /// ```
    /// let mut memory = [0x0Du8, 0xF7];
    /// let from: BitPtr<u8, Lsb0> = BitPtr::new(0, BitIdx::MIN);
    /// from.combine_within::<And>(&mut memory, BitPtr::new(1, BitIdx::MIN), 4);
    /// assert_eq!(rt; memory, [0x0D, 0xF5]);
    /// ```
    pub fn combine_within<C: Combine>(self, memory: &mut [R], dest: Self, count: usize)
        requires from_in { RangeIsIn R.BITS (ptr_of self) (length memory.old) count }
        requires to_in { RangeIsIn R.BITS (ptr_of dest) (length memory.old) count }
        ensures bits { bits_by self O.at_of memory.new
            ≡ bits_with C.of self O.at_of memory.old dest O.at_of memory.old count }
        ensures words { length memory.new ≡ length memory.old }
    {
        let to = Cursor::at(dest);
        let rising = to.is_at_most(Cursor::at(self));
        let edge = near_edge(rising, to.word, dest.elements(count));
        let mut writer = WordWriter::standing_at(memory, rising, edge);
        self.combine_within_through::<C>(dest, &mut writer, count);
    }

    /// Copies `count` bits of a memory, from `src` on, to those from this pointer on, and changes
    /// no other bit: [`run_in`](BitPtr::run_in) is the test of each range.
    ///
    /// It is [`copy_within`](BitPtr::copy_within) with the two sides in each other's place. Costs
    /// by words where both orders rise, both fall, or are one order with both ranges at the same
    /// bit of a word; else by bits. In place of the Rust crate's `copy_from` where both pointers
    /// are into one memory.
    pub fn copy_from_within(self, memory: &mut [R], src: Self, count: usize)
        requires from_in { RangeIsIn R.BITS (ptr_of src) (length memory.old) count }
        requires to_in { RangeIsIn R.BITS (ptr_of self) (length memory.old) count }
        ensures bits { bits_by self O.at_of memory.new
            ≡ bits_with_copy src O.at_of memory.old self O.at_of memory.old count }
        ensures words { length memory.new ≡ length memory.old }
    {
        src.copy_within(memory, self, count);
    }

    /// Copies as [`copy_within`](BitPtr::copy_within) does, between two ranges that have no place
    /// in common.
    ///
    /// Each is to be short enough for a span: at most 2305843009213693951 bits, and an `isize` for
    /// the word of the place after the last. Costs by words where both orders rise, both fall, or
    /// are one order with both ranges at the same bit of a word; else by bits. In place of the Rust
    /// crate's `copy_to_nonoverlapping` where both pointers are into one memory.
    pub fn copy_within_nonoverlapping(self, memory: &mut [R], dest: Self, count: usize)
        requires from_in { RangeIsIn R.BITS (ptr_of self) (length memory.old) count }
        requires to_in { RangeIsIn R.BITS (ptr_of dest) (length memory.old) count }
        requires short { count ≤ region_max_bits }
        requires from_low { int_div_euclid (place_of R.BITS (ptr_of self) +ℤ pos count) (pos R.BITS)
            ≤ℤ isize.MAX }
        requires to_low { int_div_euclid (place_of R.BITS (ptr_of dest) +ℤ pos count) (pos R.BITS)
            ≤ℤ isize.MAX }
        requires apart { AreApart R.BITS (ptr_of self) (ptr_of dest) count }
        ensures bits { bits_by self O.at_of memory.new
            ≡ bits_with_copy self O.at_of memory.old dest O.at_of memory.old count }
        ensures words { length memory.new ≡ length memory.old }
    {
        self.copy_within(memory, dest, count);
    }
}
