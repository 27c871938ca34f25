//! What is asked of a span, and what it returns.

/// A command to one span. Not in the Rust crate.
///
/// A `k` counts the words that the span meets, from 0 on; a bit is named by its place in the span,
/// from 0 to before the span's length. Which commands are refused, [`Reply::PastEnd`] says.
///
/// # Examples
///
/// ```
/// let span: BitSpan<u8, Lsb0> = BitSpan::new(0, BitIdx::new_unchecked(1), 6).unwrap();
/// let mut memory = [0x9Bu8];
/// let command = Command::Store(0, 0x24);
/// let requests = [Request { span: 0, command }];
/// let mut replies = [Reply::NoSpan];
/// run(&[span], &mut memory, &requests, &mut replies);
/// assert_eq!(rt; replies, [Reply::Word(0x1A)]);
/// assert_eq!(rt; memory, [0xA5]);
/// ```
#[derive(Clone, Copy, PartialEq, Eq, Debug)]
pub enum Command<R> {
    /// Returns the span's bits in its word `k`, each as the digit that it has there, and all others
    /// zero.
    Load(usize),
    /// Puts the digits of the number in the places of the span's bits in its word `k`, and returns
    /// as `Load` did before.
    Store(usize, R),
    /// Makes the span's bits in its word `k` one, and returns as `Load` did before.
    Set(usize),
    /// Makes the span's bits in its word `k` zero, and returns as `Load` did before.
    Clear(usize),
    /// Turns the span's bits in its word `k` over, and returns as `Load` did before.
    Invert(usize),
    /// Returns a bit.
    Read(usize),
    /// Writes a bit, and returns it as it was.
    Replace(usize, bool),
    /// Exchanges two bits.
    Swap(usize, usize),
    /// Copies bits inside the span, as they were before; the two runs may overlap.
    Copy {
        /// The first bit that is copied.
        from: usize,
        /// Where it is copied to.
        to: usize,
        /// How many bits are copied.
        count: usize,
    },
    /// Makes a stretch of bits the same.
    Fill {
        /// The first bit that is written.
        from: usize,
        /// The place behind the last.
        to: usize,
        /// What each of them becomes.
        value: bool,
    },
}

/// A command to the span of a number, from 0 on. Not in the Rust crate.
///
/// # Examples
///
/// ```
/// let low: BitSpan<u8, Lsb0> = BitSpan::new(0, BitIdx::new_unchecked(0), 3).unwrap();
/// let high = BitSpan::new(0, BitIdx::new_unchecked(3), 5).unwrap();
/// let mut memory = [0xFAu8];
/// let command = Command::Clear(0);
/// let requests = [Request { span: 1, command }];
/// let mut replies = [Reply::NoSpan];
/// run(&[low, high], &mut memory, &requests, &mut replies);
/// assert_eq!(rt; memory, [0x02]);
/// ```
#[derive(Clone, Copy, PartialEq, Eq, Debug)]
pub struct Request<R> {
    /// The number of the span in the list of spans.
    pub span: usize,
    /// What is asked of it.
    pub command: Command<R>,
}

/// The reply to a request. Not in the Rust crate.
///
/// # Examples
///
/// ```
/// let span: BitSpan<u8, Lsb0> = BitSpan::new(0, BitIdx::new_unchecked(4), 8).unwrap();
/// let mut memory = [0x12u8, 0x34];
/// let command = Command::Load(1);
/// let requests = [Request { span: 0, command }, Request { span: 1, command }];
/// let mut replies = [Reply::NoSpan; 2];
/// run(&[span], &mut memory, &requests, &mut replies);
/// assert_eq!(rt; replies, [Reply::Word(0x04), Reply::NoSpan]);
/// ```
#[derive(Clone, Copy, PartialEq, Eq, Debug)]
pub enum Reply<R> {
    /// A word, to `Load`, `Store`, `Set`, `Clear` and `Invert`.
    Word(R),
    /// A bit, to `Read` and `Replace`.
    Bit(bool),
    /// To `Swap`, `Copy` and `Fill`.
    Done,
    /// The command is refused and changes nothing: `k` is at least the number of words that the
    /// span meets, a bit's place is at least the span's length, `from + count` or `to + count` of a
    /// `Copy`, as whole numbers, passes the length, or a `Fill` has its `from` past its `to`, or
    /// its `to` past the length.
    PastEnd,
    /// There is no span of that number, and nothing is changed.
    NoSpan,
}
