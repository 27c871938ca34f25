//! A writer of words that goes through a memory in one direction and keeps count.
//!
//! The words of a memory that is lent to a writer are reached by [`get`](WordWriter::get) and
//! [`put`](WordWriter::put) alone, so the count misses no write.

ghost use Rattle.std.specs.Prelude.{◌≡◌, ◌+◌, ◌<◌, ◌≤◌, Some, true, false, length, slice_get};
ghost use Rattle.std.specs.Prelude.{slice_set};

// The edge of `count` words from the word `first` on to which a writer comes first.
pub(super) fn near_edge(rising: bool, first: usize, count: usize) -> usize
    requires { first + count ≤ usize.MAX }
    ensures rising { rising ≡ true → result ≡ first }
    ensures falling { rising ≡ false → result ≡ first + count }
    ensures most { result ≤ first + count }
{
    if rising {
        return first;
    }
    first + count
}

/// The words of a memory, written by rising or by falling index, each of them at most once.
///
/// The mark is an edge between two words. A rising writer puts no word below its mark, a falling
/// one none at or above it, and each `put` moves the mark over the word that it wrote. When the
/// loan ends, the memory is the writer's words. Not in the Rust crate.
///
/// # Examples
///
/// ```
/// let mut memory = [0x11u8, 0x22, 0x33];
/// let mut writer = WordWriter::rising(&mut memory);
/// writer.skip_to(1);
/// writer.put(1, 0xFF);
/// assert_eq!(rt; (writer.mark(), writer.writes()), (2, 1));
/// assert_eq!(rt; memory, [0x11, 0xFF, 0x33]);
/// ```
#[derive(Drop)]
pub struct WordWriter<'a, R> {
    words: &'a mut [R],
    rising: bool,
    mark: usize,
    writes: usize,
    pub ghost mark_in: { mark ≤ length words.now },
    pub ghost rising_writes: { rising ≡ true → writes ≤ mark },
    pub ghost falling_writes: { rising ≡ false → writes + mark ≤ length words.now },
}

impl<'a, R: Copy> WordWriter<'a, R> {
    ghost use Rattle.bitvec_ptr.specs.WordWriter.{writer_memory, writer_of};

    /// A writer of a memory's words by rising index. Its mark is 0, before the first word. Constant
    /// time.
    pub fn rising(words: &'a mut [R]) -> Self
        ensures reference { (writer_memory result).ghost_name ≡ words.entry.ghost_name }
        ensures words { (writer_of result).words ≡ words.old }
        ensures direction { (writer_of result).rising ≡ true }
        ensures mark { (writer_of result).mark ≡ 0 }
        ensures writes { (writer_of result).writes ≡ 0 }
    {
        WordWriter {
            words,
            rising: true,
            mark: 0,
            writes: 0,
        }
    }

    /// A writer of a memory's words by falling index. Its mark is the number of words, after the
    /// last. Constant time.
    pub fn falling(words: &'a mut [R]) -> Self
        ensures reference { (writer_memory result).ghost_name ≡ words.entry.ghost_name }
        ensures words { (writer_of result).words ≡ words.old }
        ensures direction { (writer_of result).rising ≡ false }
        ensures mark { (writer_of result).mark ≡ length words.old }
        ensures writes { (writer_of result).writes ≡ 0 }
    {
        let mark = words.len();
        WordWriter {
            words,
            rising: false,
            mark,
            writes: 0,
        }
    }

    // A writer of a memory's words, by rising or by falling index, whose mark stands at an edge.
    pub(super) fn standing_at(words: &'a mut [R], rising: bool, mark: usize) -> Self
        requires { mark ≤ length words.old }
        ensures reference { (writer_memory result).ghost_name ≡ words.entry.ghost_name }
        ensures words { (writer_of result).words ≡ words.old }
        ensures direction { (writer_of result).rising ≡ rising }
        ensures mark { (writer_of result).mark ≡ mark }
        ensures writes { (writer_of result).writes ≡ 0 }
    {
        WordWriter {
            words,
            rising,
            mark,
            writes: 0,
        }
    }

    /// Whether words are put by rising index. Constant time.
    pub fn is_rising(&self) -> bool
        ensures { result ≡ (writer_of self.now).rising }
    {
        self.rising
    }

    /// How many words the memory has. Constant time.
    pub fn len(&self) -> usize
        ensures { result ≡ length (writer_of self.now).words }
    {
        self.words.len()
    }

    /// The mark, an edge between two words: that before the word of this index, or, where there is
    /// no such word, after the last. Constant time.
    pub fn mark(&self) -> usize
        ensures { result ≡ (writer_of self.now).mark }
    {
        self.mark
    }

    /// How many words were put, at most the number of words on the side of the mark that the writer
    /// comes from. Constant time.
    pub fn writes(&self) -> usize
        ensures value { result ≡ (writer_of self.now).writes }
        ensures most { result ≤ length (writer_of self.now).words }
        ensures rising { (writer_of self.now).rising ≡ true → result ≤ (writer_of self.now).mark }
        ensures falling { (writer_of self.now).rising ≡ false
            → result + (writer_of self.now).mark ≤ length (writer_of self.now).words }
    {
        self.writes
    }

    /// Word `k` as it is now. Requires that there is one. Constant time.
    pub fn get(&self, k: usize) -> R
        requires { k < length (writer_of self.now).words }
        ensures { slice_get (writer_of self.now).words k ≡ Some result }
    {
        self.words[k]
    }

    /// Puts a word in the place of word `k`, and moves the mark over it.
    ///
    /// Requires that there is a word `k`, and that it is not below the mark of a rising writer, or
    /// below that of a falling one: so no word is put twice. Constant time.
    pub fn put(&mut self, k: usize, word: R)
        requires inside { k < length (writer_of self.old).words }
        requires rising { (writer_of self.old).rising ≡ true → (writer_of self.old).mark ≤ k }
        requires falling { (writer_of self.old).rising ≡ false → k < (writer_of self.old).mark }
        ensures reference { (writer_memory self.new).ghost_name
            ≡ (writer_memory self.old).ghost_name }
        ensures words { (writer_of self.new).words ≡ slice_set (writer_of self.old).words k word }
        ensures direction { (writer_of self.new).rising ≡ (writer_of self.old).rising }
        ensures rising_mark { (writer_of self.old).rising ≡ true → (writer_of self.new).mark
            ≡ k + 1 }
        ensures falling_mark { (writer_of self.old).rising ≡ false → (writer_of self.new).mark ≡ k }
        ensures writes { (writer_of self.new).writes ≡ (writer_of self.old).writes + 1 }
    {
        self.words[k] = word;
        self.mark = if self.rising { k + 1 } else { k };
        self.writes += 1;
    }

    /// Moves the mark to `k` and puts no word.
    ///
    /// Requires that this is on the writer's way: not below the mark of a rising writer nor past
    /// the last word, or not above the mark of a falling one. Constant time.
    pub fn skip_to(&mut self, k: usize)
        requires inside { k ≤ length (writer_of self.old).words }
        requires rising { (writer_of self.old).rising ≡ true → (writer_of self.old).mark ≤ k }
        requires falling { (writer_of self.old).rising ≡ false → k ≤ (writer_of self.old).mark }
        ensures reference { (writer_memory self.new).ghost_name
            ≡ (writer_memory self.old).ghost_name }
        ensures words { (writer_of self.new).words ≡ (writer_of self.old).words }
        ensures direction { (writer_of self.new).rising ≡ (writer_of self.old).rising }
        ensures mark { (writer_of self.new).mark ≡ k }
        ensures writes { (writer_of self.new).writes ≡ (writer_of self.old).writes }
    {
        self.mark = k;
    }
}
