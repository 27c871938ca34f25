//! Disjoint parts of one memory, lent for writing at once.
//!
//! Each part is the bits of a span, and is seen as a list of truth values of its own: what is
//! written through one part changes the list of no other, even where they share a word.

ghost use Rattle.std.specs.Prelude.{◌≡◌, ◌≢◌, ℕ, ◌<◌, ◌≤◌, ◌↔◌, IsTrue, length, map};
ghost use Rattle.std.specs.Prelude.{slice_set, IsSome, IfSome, All};
ghost use Rattle.bitvec.specs.BitSpan.{span_of};
ghost use Rattle.bitvec.specs.Span.{element, with_filled};
ghost use Rattle.bitvec.specs.Run.{CanRun};
ghost use Rattle.bits_lib.specs.Interval.{interval_span, IsSpan};

use bitvec::index::BitIdx;
use bitvec::mem::BitRegister;
use bitvec::order::BitOrder;
use bitvec::ptr::span::BitSpan;
use bitvec::run::can_run;
use std::marker::PhantomData;

// A span by its numbers.
//
// A view keeps its spans so, since an `Option` of a loan gets no generated proof where it holds a
// type with ghost fields.
#[derive(Clone, Copy)]
struct Interval {
    word: isize,
    head: u8,
    len: usize,
}

impl Interval {
    // The index of the first word.
    fn word(self) -> isize
        ensures { result ≡ (interval_span self).word }
    {
        self.word
    }
}

// Spans by their numbers.
fn intervals_of<R: BitRegister, O, const N: usize>(spans: &[BitSpan<R, O>; N]) -> [Interval; N]
    ensures { map interval_span result ≡ map span_of spans.now }
{
    let mut intervals = [Interval {
        word: 0,
        head: 0,
        len: 0,
    }; N];
    for i in 0..N {
        let span = spans[i];
        intervals[i] = Interval {
            word: span.address(),
            head: span.head().into_inner(),
            len: span.len(),
        };
    }
    intervals
}

/// Parts of one memory, each the bits of a span, of which no two have a bit in common.
///
/// The memory is lent until the view is gone, and then has the parts' lists in their places and
/// every other bit as it was.
pub struct Parts<'a, R: BitRegister, O: BitOrder<R>, const N: usize> {
    memory: &'a mut [R],
    intervals: [Interval; N],
    of: PhantomData<O>,
    pub ghost spans: { All (IsSpan R.BITS) (map interval_span intervals) },
    pub ghost can_run: { CanRun R.BITS (λ span. span) (map interval_span intervals)
        (length memory.now) },
}

impl<R: BitRegister, O: BitOrder<R>, const N: usize> Drop for Parts<'_, R, O, N> {
    ghost use Rattle.bits_lib.specs.View.{view_memory};

    fn drop(self)
        ensures { self.exit.0.now ≡ (view_memory self.entry).now }
    {
        let Parts {
            memory: _,
            intervals: _,
            of: _,
        } = self;
    }
}

// Whether spans may be the parts of a memory of `words` words.
//
// It takes them by value, so that the proof of [`Parts::new`] has no loan of them to follow.
fn accepts<R: BitRegister, O, const N: usize>(spans: [BitSpan<R, O>; N], words: usize) -> bool
    ensures { IsTrue result ↔ CanRun R.BITS span_of spans words }
{
    can_run(&spans, words)
}

impl<'a, R: BitRegister, O: BitOrder<R>, const N: usize> Parts<'a, R, O, N> {
    ghost use Rattle.std.specs.Borrow.{sem, Array, RestsIfNone};
    ghost use Rattle.bits_lib.specs.View.{view_memory, part_spans, part_span, part_list};
    ghost use Rattle.bits_lib.specs.View.{KeepsOutsideParts, KeepsApart};

    // Where a part lies.
    fn span(&self, part: usize) -> BitSpan<R, O>
        requires { part < N }
        ensures { span_of result ≡ part_span self.now part }
    {
        let intervals = &self.intervals;
        let interval = intervals[part];
        let head = BitIdx::new_unchecked(interval.head);
        BitSpan::new(interval.word(), head, interval.len).unwrap()
    }

    /// The parts of a memory by their spans: [`can_run`] of them and of the memory's length is the
    /// test.
    pub fn new_unchecked(memory: &'a mut [R], spans: [BitSpan<R, O>; N]) -> Self
        requires { CanRun R.BITS span_of spans (length memory.old) }
        ensures reference { (view_memory result).ghost_name ≡ memory.entry.ghost_name }
        ensures memory { (view_memory result).now ≡ memory.old }
        ensures spans { part_spans result ≡ map span_of spans }
    {
        let intervals = intervals_of(&spans);
        Parts {
            memory,
            intervals,
            of: PhantomData,
        }
    }

    /// The parts of a memory by their spans, and `None` exactly where these are refused by
    /// [`can_run`]: where one does not lie in the memory, or two have a bit in common. The words
    /// of a memory that is refused stay as they are.
    pub fn new(memory: &'a mut [R], spans: [BitSpan<R, O>; N]) -> Option<Self>
        ensures* kept { sem 𝓛 (RestsIfNone (Array R.row 0) memory.entry
            (λ parts. (view_memory parts).ghost_name) result (λ words. words ≡ memory.old)) }
        ensures accepted { IsSome result ↔ CanRun R.BITS span_of spans (length memory.old) }
        ensures reference { IfSome result (λ parts. (view_memory parts).ghost_name
            ≡ memory.entry.ghost_name) }
        ensures memory { IfSome result (λ parts. (view_memory parts).now ≡ memory.old) }
        ensures spans { IfSome result (λ parts. part_spans parts ≡ map span_of spans) }
    {
        if accepts(spans, memory.len()) {
            Some(Self::new_unchecked(memory, spans))
        } else {
            None
        }
    }

    /// How many bits a part has. Requires that there is such a part.
    pub fn len(&self, part: usize) -> usize
        requires { part < N }
        ensures { result ≡ (part_span self.now part).len }
    {
        self.span(part).len()
    }

    /// Bit `i` of a part. Requires that there is such a part, and that it has such a bit.
    pub fn get(&self, part: usize, i: usize) -> bool
        requires part { part < N }
        requires inside { i < (part_span self.now part).len }
        ensures { result ≡ element (part_list self.now part) i }
    {
        self.span(part).read(self.memory, i)
    }

    /// Writes bit `i` of a part, and changes no other bit of the memory. Requires that there is
    /// such a part, and that it has such a bit.
    pub fn set(&mut self, part: usize, i: usize, bit: bool)
        requires part { part < N }
        requires inside { i < (part_span self.old part).len }
        ensures reference { (view_memory self.new).ghost_name
            ≡ (view_memory self.old).ghost_name }
        ensures spans { part_spans self.new ≡ part_spans self.old }
        ensures edited { part_list self.new part ≡ slice_set (part_list self.old part) i bit }
        ensures kept { (s : ℕ) → s ≢ part → part_list self.new s ≡ part_list self.old s }
        ensures others { KeepsOutsideParts self.old self.new }
        ensures apart { KeepsApart self.old self.new }
        ensures words { length (view_memory self.new).now ≡ length (view_memory self.old).now }
    {
        let own = self.span(part);
        let memory = &mut *self.memory;
        own.write(memory, i, bit);
    }

    /// Makes the bits of a part from number `from` to before number `to` the same, and changes no
    /// other bit of the memory. Requires that `from` is not past `to`, nor `to` past the part's
    /// length.
    pub fn fill(&mut self, part: usize, from: usize, to: usize, bit: bool)
        requires part { part < N }
        requires ordered { from ≤ to }
        requires inside { to ≤ (part_span self.old part).len }
        ensures reference { (view_memory self.new).ghost_name
            ≡ (view_memory self.old).ghost_name }
        ensures spans { part_spans self.new ≡ part_spans self.old }
        ensures edited { part_list self.new part
            ≡ with_filled (part_list self.old part) from to bit }
        ensures kept { (s : ℕ) → s ≢ part → part_list self.new s ≡ part_list self.old s }
        ensures others { KeepsOutsideParts self.old self.new }
        ensures apart { KeepsApart self.old self.new }
        ensures words { length (view_memory self.new).now ≡ length (view_memory self.old).now }
    {
        let range = self.span(part).range(from, to);
        let memory = &mut *self.memory;
        range.fill(memory, bit);
    }

    /// Whether two parts have equal lists. Requires that there are such parts.
    pub fn same(&self, a: usize, b: usize) -> bool
        requires first { a < N }
        requires second { b < N }
        ensures { IsTrue result ↔ (part_list self.now a ≡ part_list self.now b) }
    {
        let count = self.len(a);
        if self.len(b) != count {
            return false;
        }
        for i in 0..count {
            if self.get(a, i) != self.get(b, i) {
                return false;
            }
        }
        true
    }
}
