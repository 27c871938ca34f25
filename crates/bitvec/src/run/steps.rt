//! One command through one span, each with what it does to the span's list and to the whole memory.

ghost use Rattle.std.specs.Prelude.{◌≡◌, ℕ, ◌+◌, ◌≤◌, ◌↔◌, IsTrue, length, map};
ghost use Rattle.bitvec_span.specs.Span.{Fits};
ghost use Rattle.bitvec_span.specs.BitSpan.{span_of};
ghost use Rattle.bitvec.specs.Commands.{reply_number};
ghost use Rattle.bitvec.specs.Run.{IsStep};
ghost use Rattle.bitvec.specs.declared.run.command.Command.TheVariants.{Load, Store, Set, Clear};
ghost use Rattle.bitvec.specs.declared.run.command.Command.TheVariants.{Invert, Read, Replace};
ghost use Rattle.bitvec.specs.declared.run.command.Command.TheVariants.{Swap, Copy, Fill};

use crate::mem::BitRegister;
use crate::order::BitOrder;
use crate::ptr::span::BitSpan;
use crate::run::command::{Command, Reply};
use crate::run::word;

// Returns the value of a word of the span.
fn load<R: BitRegister, O: BitOrder<R>>(span: BitSpan<R, O>, memory: &[R], k: usize) -> Reply<R>
    requires { Fits R.BITS (span_of span) (length memory.now) }
    ensures { IsStep R.number R.BITS O.at_of (span_of span) (map R.number memory.now) (Load k)
        (reply_number R.number result) (map R.number memory.now) }
{
    match word::load(span, memory, k) {
        Some(word) => Reply::Word(word),
        None => Reply::PastEnd,
    }
}

// Puts the digits of a number in place into a word of the span.
fn store<R: BitRegister, O: BitOrder<R>>(
    span: BitSpan<R, O>,
    memory: &mut [R],
    k: usize,
    value: R,
) -> Reply<R>
    requires { Fits R.BITS (span_of span) (length memory.old) }
    ensures { IsStep R.number R.BITS O.at_of (span_of span) (map R.number memory.old)
        (Store k value) (reply_number R.number result) (map R.number memory.new) }
{
    match word::store(span, memory, k, value) {
        Some(word) => Reply::Word(word),
        None => Reply::PastEnd,
    }
}

// Makes the span's bits in a word one.
fn set<R: BitRegister, O: BitOrder<R>>(span: BitSpan<R, O>, memory: &mut [R], k: usize) -> Reply<R>
    requires { Fits R.BITS (span_of span) (length memory.old) }
    ensures { IsStep R.number R.BITS O.at_of (span_of span) (map R.number memory.old) (Set k)
        (reply_number R.number result) (map R.number memory.new) }
{
    match word::set(span, memory, k) {
        Some(word) => Reply::Word(word),
        None => Reply::PastEnd,
    }
}

// Makes the span's bits in a word zero.
fn clear<R: BitRegister, O: BitOrder<R>>(
    span: BitSpan<R, O>,
    memory: &mut [R],
    k: usize,
) -> Reply<R>
    requires { Fits R.BITS (span_of span) (length memory.old) }
    ensures { IsStep R.number R.BITS O.at_of (span_of span) (map R.number memory.old) (Clear k)
        (reply_number R.number result) (map R.number memory.new) }
{
    match word::clear(span, memory, k) {
        Some(word) => Reply::Word(word),
        None => Reply::PastEnd,
    }
}

// Turns the span's bits in a word over.
fn invert<R: BitRegister, O: BitOrder<R>>(
    span: BitSpan<R, O>,
    memory: &mut [R],
    k: usize,
) -> Reply<R>
    requires { Fits R.BITS (span_of span) (length memory.old) }
    ensures { IsStep R.number R.BITS O.at_of (span_of span) (map R.number memory.old) (Invert k)
        (reply_number R.number result) (map R.number memory.new) }
{
    match word::invert(span, memory, k) {
        Some(word) => Reply::Word(word),
        None => Reply::PastEnd,
    }
}

// Returns a bit of the span.
fn read<R: BitRegister, O: BitOrder<R>>(span: BitSpan<R, O>, memory: &[R], index: usize) -> Reply<R>
    requires { Fits R.BITS (span_of span) (length memory.now) }
    ensures { IsStep R.number R.BITS O.at_of (span_of span) (map R.number memory.now) (Read index)
        (reply_number R.number result) (map R.number memory.now) }
{
    if index < span.len() {
        Reply::Bit(span.read(memory, index))
    } else {
        Reply::PastEnd
    }
}

// Writes a bit of the span, and returns it as it was.
fn replace<R: BitRegister, O: BitOrder<R>>(
    span: BitSpan<R, O>,
    memory: &mut [R],
    index: usize,
    bit: bool,
) -> Reply<R>
    requires { Fits R.BITS (span_of span) (length memory.old) }
    ensures { IsStep R.number R.BITS O.at_of (span_of span) (map R.number memory.old)
        (Replace index bit) (reply_number R.number result) (map R.number memory.new) }
{
    if index < span.len() {
        Reply::Bit(span.replace(memory, index, bit))
    } else {
        Reply::PastEnd
    }
}

// Exchanges two bits of the span.
fn swap<R: BitRegister, O: BitOrder<R>>(
    span: BitSpan<R, O>,
    memory: &mut [R],
    index: usize,
    with: usize,
) -> Reply<R>
    requires { Fits R.BITS (span_of span) (length memory.old) }
    ensures { IsStep R.number R.BITS O.at_of (span_of span) (map R.number memory.old)
        (Swap index with) (reply_number R.number result) (map R.number memory.new) }
{
    let len = span.len();
    if index < len && with < len {
        span.swap(memory, index, with);
        Reply::Done
    } else {
        Reply::PastEnd
    }
}

// Whether two runs of `count` of `len` bits end within them.
fn can_copy(len: usize, from: usize, to: usize, count: usize) -> bool
    ensures { IsTrue result ↔ ((from + count ≤ len) × (to + count ≤ len)) }
{
    count <= len && from <= len - count && to <= len - count
}

// Copies bits inside the span.
fn copy<R: BitRegister, O: BitOrder<R>>(
    span: BitSpan<R, O>,
    memory: &mut [R],
    from: usize,
    to: usize,
    count: usize,
) -> Reply<R>
    requires { Fits R.BITS (span_of span) (length memory.old) }
    ensures { IsStep R.number R.BITS O.at_of (span_of span) (map R.number memory.old)
        (Copy from to count) (reply_number R.number result) (map R.number memory.new) }
{
    if can_copy(span.len(), from, to, count) {
        span.copy_within(memory, from, to, count);
        Reply::Done
    } else {
        Reply::PastEnd
    }
}

// Whether a stretch from one place to before another is one of `len` bits.
fn can_fill(len: usize, from: usize, to: usize) -> bool
    ensures { IsTrue result ↔ ((from ≤ to) × (to ≤ len)) }
{
    from <= to && to <= len
}

// Makes a stretch of the span's bits the same.
fn fill<R: BitRegister, O: BitOrder<R>>(
    span: BitSpan<R, O>,
    memory: &mut [R],
    from: usize,
    to: usize,
    value: bool,
) -> Reply<R>
    requires { Fits R.BITS (span_of span) (length memory.old) }
    ensures { IsStep R.number R.BITS O.at_of (span_of span) (map R.number memory.old)
        (Fill from to value) (reply_number R.number result) (map R.number memory.new) }
{
    if can_fill(span.len(), from, to) {
        span.range(from, to).fill(memory, value);
        Reply::Done
    } else {
        Reply::PastEnd
    }
}

/// Gives one span of a memory a command, and returns what [`run`](crate::run::run) replies to it.
///
/// Requires a span that [`fits`](BitSpan::fits). It replies [`Reply::PastEnd`] where the command
/// names a word or a bit past the span's end, or is a `Fill` that ends before it begins, and the
/// memory stays then; it never replies [`Reply::NoSpan`]. Otherwise the span has the list that the
/// command leaves, and every other bit of the memory is as before, and so is the list of every span
/// that is disjoint from this one. A `Copy` costs as the span's
/// [`copy_within`](BitSpan::copy_within), a `Fill` by words, and each other command constant time.
/// Not in the Rust crate.
///
/// # Examples
///
/// ```
/// let span: BitSpan<u8, Lsb0> = BitSpan::at(4, 8).unwrap();
/// let mut memory = [0x12u8, 0x34];
/// let reply = step(span, &mut memory, Command::Replace(7, true));
/// assert_eq!(rt; reply, Reply::Bit(false));
/// assert_eq!(rt; memory, [0x12, 0x3C]);
/// let reply = step(span, &mut memory, Command::Replace(8, true));
/// assert_eq!(rt; reply, Reply::PastEnd);
/// assert_eq!(rt; memory, [0x12, 0x3C]);
/// ```
pub fn step<R: BitRegister, O: BitOrder<R>>(
    span: BitSpan<R, O>,
    memory: &mut [R],
    command: Command<R>,
) -> Reply<R>
    requires { Fits R.BITS (span_of span) (length memory.old) }
    ensures { IsStep R.number R.BITS O.at_of (span_of span) (map R.number memory.old)
        command (reply_number R.number result) (map R.number memory.new) }
{
    match command {
        Command::Load(k) => load(span, memory, k),
        Command::Store(k, value) => store(span, memory, k, value),
        Command::Set(k) => set(span, memory, k),
        Command::Clear(k) => clear(span, memory, k),
        Command::Invert(k) => invert(span, memory, k),
        Command::Read(index) => read(span, memory, index),
        Command::Replace(index, bit) => replace(span, memory, index, bit),
        Command::Swap(index, with) => swap(span, memory, index, with),
        Command::Copy { from, to, count } => copy(span, memory, from, to, count),
        Command::Fill { from, to, value } => fill(span, memory, from, to, value),
    }
}
