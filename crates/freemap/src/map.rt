//! The map, how it is made, and what it is asked.

ghost use Rattle.std.specs.Prelude.{◌≡◌, ◌↔◌, ◌+◌, ◌*◌, ◌/◌, ◌≤◌, ◌<◌, true, false, IsTrue, IsOk};
ghost use Rattle.std.specs.Prelude.{IfOk, IfErr, MatchOption, Some, length, replicate};
ghost use Rattle.bitvec.specs.Place.{region_max_bits};
ghost use Rattle.bitvec.specs.Span.{KeepsOthers, BecomesList, element, with_filled, front_span};
ghost use Rattle.bitvec_slice.specs.Bits.{AreFree, zeros_in};
ghost use Rattle.bitvec_slice.specs.BitSlice.{slice_bits};
ghost use Rattle.freemap.specs.Blocks.{stored_blocks, word_count, HasRoom};
ghost use Rattle.freemap.specs.Blocks.{AreInUse, IsLowest};
ghost use Rattle.freemap.specs.Summary.{IsFull, IsFullFrom, IsFirstFreeOf};

use bitvec::mem;
use bitvec::mem::BitRegister;
use bitvec::order::{BitOrder, first_index};
use bitvec::ptr::single::BitPtr;
use bitvec::ptr::span::BitSpan;
use bitvec_slice::slice::{BitSlice, BitSliceMut};
use std::marker::PhantomData;

// The most bits that a span can have.
const MOST: usize = usize::MAX >> 3;

/// How many words a map of `blocks` blocks takes, with a bit for each block. Constant time.
pub fn words_for(blocks: usize) -> usize
    ensures { result ≡ word_count blocks }
{
    mem::elts::<u64>(blocks)
}

/// Whether `words` words have room for a map of `blocks` blocks, and `blocks` is at most
/// 2305843009213693951, the most that a map can have. Constant time.
pub fn has_room(words: usize, blocks: usize) -> bool
    ensures { IsTrue result ↔ HasRoom words blocks }
{
    blocks <= MOST && words_for(blocks) <= words
}

/// Which blocks of a store are in use. It lies in words that the caller lends, from the first bit
/// on, and a bit is one where its block is in use.
///
/// The words are lent until the map is used for the last time, and have then what it became; every
/// bit behind those of the blocks is as it was. So the words can be stored, and read back by
/// [`from_words`](FreeMap::from_words).
///
/// # Examples
///
/// ```
/// let mut words = [0u64; 2];
/// let mut map = FreeMap::<Lsb0>::new_unchecked(&mut words, 100);
/// assert_eq!(rt; map.alloc_run(20), Some(0));
/// assert_eq!(rt; map.alloc(), Some(20));
/// if map.is_in_use(4, 12) {
///     map.free(4, 12);
/// }
/// assert_eq!(rt; map.alloc_run_aligned(8, 8), Some(8));
/// assert_eq!(rt; map.count_free(), 83);
/// ```
#[derive(Drop)]
pub struct FreeMap<'a, O: BitOrder<u64>> {
    words: &'a mut [u64],
    blocks: usize,
    of: PhantomData<O>,
    pub ghost room: { HasRoom (length words.now) blocks },
}

// Makes `count` blocks from block `at` on be in use, or free, in the words of a map.
fn fill_words<O: BitOrder<u64>>(
    words: &mut [u64],
    blocks: usize,
    at: usize,
    count: usize,
    used: bool,
)
    requires room { HasRoom (length words.old) blocks }
    requires inside { at + count ≤ blocks }
    ensures { BecomesList 64 O.at_of (front_span blocks) words.old words.new
        (with_filled (stored_blocks O.at_of blocks words.old) at (at + count) used) }
{
    let span: BitSpan<u64, O> = BitSpan::at_unchecked(0, blocks);
    let mut bits = BitSliceMut::new_unchecked(span, words);
    bits.fill_range(at, at + count, used);
}

// The same of one block.
#[inline(always)]
fn set_in_words<O: BitOrder<u64>>(words: &mut [u64], blocks: usize, at: usize, used: bool)
    requires room { HasRoom (length words.old) blocks }
    requires inside { at < blocks }
    ensures { BecomesList 64 O.at_of (front_span blocks) words.old words.new
        (with_filled (stored_blocks O.at_of blocks words.old) at (at + 1) used) }
{
    let pointer: BitPtr<u64, O> = BitPtr::at(at);
    pointer.write(words, used);
}

// The lowest free block of word `w` of the words of a map.
#[inline(always)]
fn free_in_words<O: BitOrder<u64>>(words: &[u64], blocks: usize, w: usize) -> Option<usize>
    requires room { HasRoom (length words.now) blocks }
    requires inside { w < word_count blocks }
    ensures { let used = stored_blocks O.at_of blocks words.now
        in MatchOption result (IsFull used w) (IsFirstFreeOf used w) }
{
    let i = first_index::<u64, O>(words[w].not())?;
    let block = w * 64 + usize::from(i);
    if block < blocks { Some(block) } else { None }
}

impl<'a, O: BitOrder<u64>> FreeMap<'a, O> {
    ghost use Rattle.freemap.specs.Map.{map_words, in_use, BecomesBlocks};

    // Its bits, for reading.
    pub(crate) fn bits(&self) -> BitSlice<'_, u64, O>
        ensures { slice_bits result ≡ in_use self.now }
    {
        BitSlice::new_unchecked(BitSpan::at_unchecked(0, self.blocks), &*self.words)
    }

    // Makes `count` blocks from block `at` on be in use, or free.
    pub(crate) fn mark(&mut self, at: usize, count: usize, used: bool)
        requires { at + count ≤ length (in_use self.old) }
        ensures { BecomesBlocks self.old self.new
            (with_filled (in_use self.old) at (at + count) used) }
    {
        if count == 1 {
            self.set(at, used);
        } else {
            self.fill(at, count, used);
        }
    }

    // The same of any number, by words.
    fn fill(&mut self, at: usize, count: usize, used: bool)
        requires { at + count ≤ length (in_use self.old) }
        ensures { BecomesBlocks self.old self.new
            (with_filled (in_use self.old) at (at + count) used) }
    {
        fill_words::<O>(self.words, self.blocks, at, count, used);
    }

    // The same of one block.
    #[inline(always)]
    pub(crate) fn set(&mut self, at: usize, used: bool)
        requires { at < length (in_use self.old) }
        ensures { BecomesBlocks self.old self.new
            (with_filled (in_use self.old) at (at + 1) used) }
    {
        set_in_words::<O>(self.words, self.blocks, at, used);
    }

    /// A map of `blocks` blocks that are all free. Requires that the words have room:
    /// [`has_room`] is the test. Costs by words.
    pub fn new_unchecked(words: &'a mut [u64], blocks: usize) -> Self
        requires { HasRoom (length words.old) blocks }
        ensures reference { (map_words result).ghost_name ≡ words.entry.ghost_name }
        ensures free { in_use result ≡ replicate blocks false }
        ensures others { KeepsOthers 64 O.at_of (front_span blocks) words.old
            (map_words result).now }
        ensures words { length (map_words result).now ≡ length words.old }
    {
        let mut map = Self::from_words_unchecked(words, blocks);
        map.mark(0, blocks, false);
        map
    }

    /// A map of `blocks` blocks that are all free. It refuses exactly where the words have no room
    /// for it, and then gives them back as they were. Costs by words.
    pub fn new(words: &'a mut [u64], blocks: usize) -> Result<Self, &'a mut [u64]>
        ensures accepted { IsOk result ↔ HasRoom (length words.old) blocks }
        ensures reference { IfOk result (λ map. (map_words map).ghost_name
            ≡ words.entry.ghost_name) }
        ensures free { IfOk result (λ map. in_use map ≡ replicate blocks false) }
        ensures others { IfOk result (λ map. KeepsOthers 64 O.at_of (front_span blocks) words.old
            (map_words map).now) }
        ensures words { IfOk result (λ map. length (map_words map).now ≡ length words.old) }

        // What is given back is the loan itself, and its words stay.
        ensures back { IfErr result (λ rest. rest.ghost_name ≡ words.entry.ghost_name) }
        ensures kept { IfErr result (λ rest. rest.now ≡ words.old) }
    {
        if has_room(words.len(), blocks) {
            Ok(Self::new_unchecked(words, blocks))
        } else {
            Err(words)
        }
    }

    /// The map of `blocks` blocks that words have, as they were stored. Requires that the words
    /// have room: [`has_room`] is the test. Constant time.
    pub fn from_words_unchecked(words: &'a mut [u64], blocks: usize) -> Self
        requires { HasRoom (length words.old) blocks }
        ensures reference { (map_words result).ghost_name ≡ words.entry.ghost_name }
        ensures stored { in_use result ≡ stored_blocks O.at_of blocks words.old }
        ensures words { (map_words result).now ≡ words.old }
    {
        FreeMap {
            words,
            blocks,
            of: PhantomData,
        }
    }

    /// The map of `blocks` blocks that words have, as they were stored. It refuses exactly where
    /// they are too few for it, or there would be more than 2305843009213693951 blocks, and then
    /// gives them back as they were. Constant time.
    pub fn from_words(words: &'a mut [u64], blocks: usize) -> Result<Self, &'a mut [u64]>
        ensures accepted { IsOk result ↔ HasRoom (length words.old) blocks }
        ensures reference { IfOk result (λ map. (map_words map).ghost_name
            ≡ words.entry.ghost_name) }
        ensures stored { IfOk result (λ map. in_use map
            ≡ stored_blocks O.at_of blocks words.old) }
        ensures words { IfOk result (λ map. (map_words map).now ≡ words.old) }

        // What is given back is the loan itself, and its words stay.
        ensures back { IfErr result (λ rest. rest.ghost_name ≡ words.entry.ghost_name) }
        ensures kept { IfErr result (λ rest. rest.now ≡ words.old) }
    {
        if has_room(words.len(), blocks) {
            Ok(Self::from_words_unchecked(words, blocks))
        } else {
            Err(words)
        }
    }

    /// How many blocks there are. The words that are lent say which are in use, as
    /// [`from_words`](FreeMap::from_words) reads them. Constant time.
    pub fn blocks(&self) -> usize
        ensures count { result ≡ length (in_use self.now) }
        ensures stored { in_use self.now
            ≡ stored_blocks O.at_of result (map_words self.now).now }
    {
        self.blocks
    }

    /// Whether there are `count` blocks from block `at` on, and each is in use. Costs by words.
    pub fn is_in_use(&self, at: usize, count: usize) -> bool
        ensures { IsTrue result ↔ AreInUse (in_use self.now) at count }
    {
        if !self.has_blocks(at, count) {
            return false;
        }
        if count == 1 {
            return self.is_set(at);
        }
        self.bits().all_in(at, at + count)
    }

    /// Whether there are `count` blocks from block `at` on, and each is free. Costs by words.
    pub fn is_free(&self, at: usize, count: usize) -> bool
        ensures { IsTrue result ↔ AreFree (in_use self.now) at count }
    {
        if !self.has_blocks(at, count) {
            return false;
        }
        if count == 1 {
            return !self.is_set(at);
        }
        !self.bits().any_in(at, at + count)
    }

    /// How many blocks are free. Costs by words.
    pub fn count_free(&self) -> usize
        ensures { result ≡ zeros_in (in_use self.now) }
    {
        self.bits().count_zeros()
    }

    // Whether block `block` is in use.
    #[inline(always)]
    pub(crate) fn is_set(&self, block: usize) -> bool
        requires { block < length (in_use self.now) }
        ensures { result ≡ element (in_use self.now) block }
    {
        let span: BitSpan<u64, O> = BitSpan::at_unchecked(0, self.blocks);
        span.read(&*self.words, block)
    }

    // The lowest free block of word `w`.
    #[inline(always)]
    pub(crate) fn free_in_word(&self, w: usize) -> Option<usize>
        requires { w < word_count (length (in_use self.now)) }
        ensures { MatchOption result (IsFull (in_use self.now) w)
            (IsFirstFreeOf (in_use self.now) w) }
    {
        free_in_words::<O>(&*self.words, self.blocks, w)
    }

    // Puts one block in use, and returns whether its word is full then.
    #[inline(always)]
    pub(crate) fn put_in_use(&mut self, at: usize) -> bool
        requires { at < length (in_use self.old) }
        ensures becomes { BecomesBlocks self.old self.new
            (with_filled (in_use self.old) at (at + 1) true) }
        ensures full { IsTrue result ↔ IsFull (in_use self.new) (at / 64) }
    {
        let blocks = self.blocks;
        let words = &mut *self.words;
        set_in_words::<O>(words, blocks, at, true);
        free_in_words::<O>(words, blocks, at / 64).is_none()
    }

    // The lowest free block from block `block` on in its word.
    #[inline(never)]
    pub(crate) fn free_to_word_end(&self, block: usize) -> Option<usize>
        ensures { MatchOption result (IsFullFrom (in_use self.now) block)
            (λ at. IsLowest (λ b. (block ≤ b) × AreFree (in_use self.now) b 1) (Some at)) }
    {
        if self.blocks <= block {
            return None;
        }
        let end = self.blocks.min((block / 64 + 1) * 64);
        let part = self.bits().get_range(block, end)?;
        match part.first_zero() {
            Some(i) => Some(block + i),
            None => None,
        }
    }

    // Whether no block of word `w` is free.
    #[inline(always)]
    pub(crate) fn is_word_full(&self, w: usize) -> bool
        requires { w < word_count (length (in_use self.now)) }
        ensures { IsTrue result ↔ IsFull (in_use self.now) w }
    {
        self.free_in_word(w).is_none()
    }

    // Whether there are `count` blocks from block `at` on.
    fn has_blocks(&self, at: usize, count: usize) -> bool
        ensures { IsTrue result ↔ (at + count ≤ length (in_use self.now)) }
    {
        at <= self.blocks && count <= self.blocks - at
    }
}
