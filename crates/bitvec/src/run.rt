//! Commands through disjoint spans of one memory.
//!
//! Each span's list of bits goes its own way: what its commands answer, and what they leave, is
//! what they give on that list alone. None of it is in the Rust crate.

ghost use Rattle.std.specs.Prelude.{◌≡◌, ℕ, pos, ◌≤ℤ◌, ◌<◌, ◌≤◌, ◌↔◌, IsTrue, IfSome, None, All};
ghost use Rattle.std.specs.Prelude.{nat_abs, ◌+◌, ◌*◌, ◌%◌, ◌^◌};
ghost use Rattle.std.specs.Prelude.{AllPairs, List, [], ◌∷◌, length, map};
ghost use Rattle.std.specs.Int.{w64, cast_unsigned};
ghost use Rattle.bitvec_span.specs.Span.{AreDisjoint, Fits};
ghost use Rattle.bitvec_span.specs.BitSpan.{span_of};
ghost use Rattle.bitvec.specs.Commands.{reply_number, reply_numbers};
ghost use Rattle.bitvec.specs.Run.{CanRun, IsRun, IsRising, span_in};

use crate::mem::BitRegister;
use crate::order::BitOrder;
use crate::ptr::span::BitSpan;

mod command;
mod steps;
mod word;

pub use self::command::{Command, Reply, Request};
pub use self::steps::step;

// Whether a span has no bit in common with any of the others.
fn is_apart<R: BitRegister, O>(span: BitSpan<R, O>, others: &[BitSpan<R, O>]) -> bool
    ensures { IsTrue result ↔ All (λ other. AreDisjoint R.BITS (span_of span) (span_of other))
        others.now }
{
    others.iter().all(|other| span.is_disjoint(other))
}

// Whether no two spans have a bit in common, each tested with each.
fn are_apart<R: BitRegister, O>(spans: &[BitSpan<R, O>]) -> bool
    ensures { IsTrue result ↔ AllPairs (λ a b. AreDisjoint R.BITS (span_of a) (span_of b))
        spans.now }
{
    for i in 0..spans.len() {
        if !is_apart(spans[i], &spans[i + 1..]) {
            return false;
        }
    }
    true
}

// The number of a span's first bit in its memory; the word's distance from word 0 counts.
fn start<R: BitRegister, O>(span: BitSpan<R, O>) -> u128
    ensures { result ≡ nat_abs (span_of span).word * R.BITS + (span_of span).head }
{
    let head = span.head().into_inner();
    span.address().unsigned_abs() as u128 * u128::from(R::BITS) + u128::from(head)
}

// The number of the bit behind a span's last.
fn end<R: BitRegister, O>(span: BitSpan<R, O>) -> u128
    ensures { result ≡ nat_abs (span_of span).word * R.BITS + (span_of span).head
        + (span_of span).len }
{
    start(span) + span.len() as u128
}

// Whether each span lies within a memory of `words` words.
fn all_fit<R: BitRegister, O>(spans: &[BitSpan<R, O>], words: usize) -> bool
    ensures { IsTrue result ↔ All (λ span. Fits R.BITS (span_of span) words) spans.now }
{
    spans.iter().all(|span| span.fits(words))
}

// So few words that the number of each of their bits, and of a bit as far behind them as a span
// is long, is a `usize` in each register. No memory of today has more.
const FEW_WORDS: usize = (usize::MAX >> 9) + 1;

// Whether a span's first word is one of `words` words, or the edge behind them.
#[inline(always)]
fn starts_within<R: BitRegister, O>(span: BitSpan<R, O>, words: usize) -> bool
    ensures { IsTrue result
        ↔ ((pos 0 ≤ℤ (span_of span).word) × (nat_abs (span_of span).word ≤ words)) }
{
    0 <= span.address() && span.address() as usize <= words
}

// The number of a span's first bit, where its word is one of few.
#[inline(always)]
fn first_bit<R: BitRegister, O>(span: BitSpan<R, O>) -> usize
    requires low { pos 0 ≤ℤ (span_of span).word }
    requires few { nat_abs (span_of span).word ≤ 36028797018963968 }
    ensures { result ≡ nat_abs (span_of span).word * R.BITS + (span_of span).head }
{
    let head = usize::from(span.head().into_inner());
    span.address() as usize * usize::from(R::BITS) + head
}

// The number of the first span that does not lie within `words` words, or within `FEW_WORDS`, or
// that has bits and starts before the end of one before it; `None` where there is no such span.
fn first_out_of_order<R: BitRegister, O>(spans: &[BitSpan<R, O>], words: usize) -> Option<usize>
    ensures within { IfSome result (λ i. i < length spans.now) }
    ensures can_run { result ≡ None → CanRun R.BITS span_of spans.now words }
{
    let words = words.min(FEW_WORDS);
    let limit = words * usize::from(R::BITS);
    let mut upto = 0;
    for i in 0..spans.len() {
        let span = spans[i];
        if !starts_within(span, words) {
            return Some(i);
        }
        if !span.is_empty() {
            let start = first_bit(span);
            let end = start + span.len();
            if start < upto || limit < end {
                return Some(i);
            }
            upto = end;
        }
    }
    None
}

/// Whether each span lies within a memory of `words` words and no two have a bit in common: the
/// test of [`run`].
///
/// Spans whose places rise, each that has bits behind the one before it that has, take one pass.
/// The first that does not lie so is tested with each before it. Where it meets none of them, each
/// span is tested with each, which [`can_run_in`] spares who has room for a number for each. Not in
/// the Rust crate.
///
/// # Examples
///
/// ```
/// let low: BitSpan<u8, Lsb0> = BitSpan::new(0, BitIdx::new_unchecked(0), 3).unwrap();
/// let high = BitSpan::new(0, BitIdx::new_unchecked(3), 5).unwrap();
/// assert!(rt; can_run(&[low, high], 1));
/// assert!(rt; !can_run(&[low, high], 0));
/// assert!(rt; !can_run(&[low, low], 1));
/// ```
pub fn can_run<R: BitRegister, O>(spans: &[BitSpan<R, O>], words: usize) -> bool
    ensures { IsTrue result ↔ CanRun R.BITS span_of spans.now words }
{
    match first_out_of_order(spans, words) {
        None => true,
        Some(i) => all_fit(spans, words) && is_apart(spans[i], &spans[..i]) && are_apart(spans),
    }
}

// The word of a span's first bit above the bit's index in it, as one number: it rises as the places
// of spans from word 0 on do.
fn key<R: BitRegister, O>(span: BitSpan<R, O>) -> u128
    ensures { result ≡ cast_unsigned w64 (span_of span).word * 18446744073709551616
        + (span_of span).head }
{
    let word = span.address().cast_unsigned();
    word as u128 * 0x1_0000_0000_0000_0000 + u128::from(span.head().into_inner())
}

// That of a span of a list, and 0 where there is no such span.
fn key_of<R: BitRegister, O>(spans: &[BitSpan<R, O>], i: usize) -> u128
    ensures { result ≡ cast_unsigned w64 (span_in span_of spans.now i).word * 18446744073709551616
        + (span_in span_of spans.now i).head }
{
    if i < spans.len() { key(spans[i]) } else { 0 }
}

// The number of the first bit of a span of a list, and 0 where there is no such span. What passes a
// `usize`, as a word before word 0 does, wraps.
#[inline(always)]
fn near_key_of<R: BitRegister, O>(spans: &[BitSpan<R, O>], i: usize) -> usize
    ensures { let span = span_in span_of spans.now i in result
        ≡ (cast_unsigned w64 span.word * R.BITS % 2 ^ 64 + span.head) % 2 ^ 64 }
{
    if i < spans.len() {
        let word = spans[i].address().cast_unsigned();
        let head = usize::from(spans[i].head().into_inner());
        word.wrapping_mul(usize::from(R::BITS)).wrapping_add(head)
    } else {
        0
    }
}

// Puts the numbers of spans in few words in an order in which their first bits rise.
fn sort_near_places<R: BitRegister, O>(spans: &[BitSpan<R, O>], order: &mut [usize])
    requires room { length order.old ≡ length spans.now }
    requires fit { All (λ span. pos 0 ≤ℤ (span_of span).word) spans.now }
    requires near { All (λ span. nat_abs (span_of span).word ≤ 36028797018963968) spans.now }
    ensures { IsRising R.BITS span_of spans.now order.new }
{
    for i in 0..order.len() {
        order[i] = i;
    }
    order.sort_unstable_by_key(|i| near_key_of(spans, *i));
}

// Puts the numbers of the spans in an order in which their first bits rise.
fn sort_places<R: BitRegister, O>(spans: &[BitSpan<R, O>], order: &mut [usize])
    requires room { length order.old ≡ length spans.now }
    requires fit { All (λ span. pos 0 ≤ℤ (span_of span).word) spans.now }
    ensures { IsRising R.BITS span_of spans.now order.new }
{
    for i in 0..order.len() {
        order[i] = i;
    }
    order.sort_unstable_by_key(|i| key_of(spans, *i));
}

// Whether no two spans have a bit in common, by one pass in an order in which their places rise:
// the start of each is tested with the end of the last one before it that has bits.
fn sorted_apart<R: BitRegister, O>(spans: &[BitSpan<R, O>], order: &[usize]) -> bool
    requires rising { IsRising R.BITS span_of spans.now order.now }
    requires fit { All (λ span. pos 0 ≤ℤ (span_of span).word) spans.now }
    ensures { IsTrue result ↔ AllPairs (λ a b. AreDisjoint R.BITS (span_of a) (span_of b))
        spans.now }
{
    let mut upto = 0;
    for i in 0..order.len() {
        let number = order[i];
        let span = spans[number];
        if !span.is_empty() {
            if start(span) < upto {
                return false;
            }
            upto = end(span);
        }
    }
    true
}

// The same of spans in few words.
fn near_apart<R: BitRegister, O>(spans: &[BitSpan<R, O>], order: &[usize]) -> bool
    requires rising { IsRising R.BITS span_of spans.now order.now }
    requires fit { All (λ span. pos 0 ≤ℤ (span_of span).word) spans.now }
    requires near { All (λ span. nat_abs (span_of span).word ≤ 36028797018963968) spans.now }
    ensures { IsTrue result ↔ AllPairs (λ a b. AreDisjoint R.BITS (span_of a) (span_of b))
        spans.now }
{
    let mut upto = 0;
    for i in 0..order.len() {
        let index = order[i];
        let span = spans[index];
        if !span.is_empty() {
            let start = first_bit(span);
            if start < upto {
                return false;
            }
            upto = start + span.len();
        }
    }
    true
}

/// The answer of [`can_run`], found in time n log n for n spans whatever their order, with room for
/// a number for each.
///
/// The room has n numbers. Where all spans fit, it holds their numbers afterwards, each once, in an
/// order in which their first bits rise; where one does not, it stays as it was. Not in the Rust
/// crate.
///
/// # Examples
///
/// ```
/// let low: BitSpan<u8, Lsb0> = BitSpan::new(0, BitIdx::new_unchecked(0), 3).unwrap();
/// let high = BitSpan::new(0, BitIdx::new_unchecked(3), 5).unwrap();
/// let mut order = [0; 2];
/// assert!(rt; can_run_in(&[high, low], 1, &mut order));
/// assert_eq!(rt; order, [1, 0]);
/// assert!(rt; !can_run_in(&[high, high], 1, &mut order));
/// ```
pub fn can_run_in<R: BitRegister, O>(
    spans: &[BitSpan<R, O>],
    words: usize,
    order: &mut [usize],
) -> bool
    requires { length order.old ≡ length spans.now }
    ensures answer { IsTrue result ↔ CanRun R.BITS span_of spans.now words }
    ensures order { All (λ span. Fits R.BITS (span_of span) words) spans.now
        → IsRising R.BITS span_of spans.now order.new }
    ensures kept { ¬ All (λ span. Fits R.BITS (span_of span) words) spans.now
        → order.new ≡ order.old }
    ensures len { length order.new ≡ length order.old }
{
    if !all_fit(spans, words) {
        return false;
    }
    if words <= FEW_WORDS {
        sort_near_places(spans, order);
        return near_apart(spans, order);
    }
    sort_places(spans, order);
    sorted_apart(spans, order)
}

// Serves one request.
fn serve<R: BitRegister, O: BitOrder<R>>(
    spans: &[BitSpan<R, O>],
    memory: &mut [R],
    request: Request<R>,
) -> Reply<R>
    requires { CanRun R.BITS span_of spans.now (length memory.old) }
    ensures { IsRun R.number R.BITS O.at_of span_of spans.now (map R.number memory.old)
        (request ∷ []) (reply_number R.number result ∷ [])
        (map R.number memory.new) }
{
    if request.span < spans.len() {
        let span = spans[request.span];
        step(span, memory, request.command)
    } else {
        Reply::NoSpan
    }
}

/// Gives the spans of one memory the commands of the requests, in their order, and writes reply n
/// to request n.
///
/// [`can_run`] of the memory's length is the test of the spans, and there is one reply for each
/// request. Each span's replies are those that its own list of bits gives under its own commands
/// alone; a request that names no span gets [`Reply::NoSpan`]. In the end each span has the list
/// that its commands leave, and every other bit of the memory is as before. A refused command
/// changes nothing. Each request costs what its command does: constant time for one word or bit,
/// else as the span's `copy_within` or `fill`. Not in the Rust crate.
///
/// # Examples
///
/// ```
/// let low: BitSpan<u8, Lsb0> = BitSpan::new(0, BitIdx::new_unchecked(0), 3).unwrap();
/// let high = BitSpan::new(0, BitIdx::new_unchecked(3), 5).unwrap();
/// let mut memory = [0x5Au8];
/// let command = Command::Invert(0);
/// let requests = [Request { span: 0, command }, Request { span: 1, command }];
/// let mut replies = [Reply::NoSpan; 2];
/// run(&[low, high], &mut memory, &requests, &mut replies);
/// assert_eq!(rt; replies, [Reply::Word(0x02), Reply::Word(0x58)]);
/// assert_eq!(rt; memory, [0xA5]);
/// ```
pub fn run<R: BitRegister, O: BitOrder<R>>(
    spans: &[BitSpan<R, O>],
    memory: &mut [R],
    requests: &[Request<R>],
    replies: &mut [Reply<R>],
)
    requires can_run { CanRun R.BITS span_of spans.now (length memory.old) }
    requires room { length replies.old ≡ length requests.now }
    ensures { IsRun R.number R.BITS O.at_of span_of spans.now (map R.number memory.old)
        requests.now (reply_numbers R.number replies.new) (map R.number memory.new) }
{
    for n in 0..requests.len() {
        let request = requests[n];
        replies[n] = serve(spans, memory, request);
    }
}
