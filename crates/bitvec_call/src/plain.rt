//! Spans, requests and replies by plain numbers, as C has them.

ghost use Rattle.std.specs.Prelude.{◌≡◌, ℕ, ◌+◌, ◌*◌, ◌≤◌, ◌^◌, ◌%◌, ◌↔◌, IsTrue, All, length};
ghost use Rattle.bitvec.specs.Commands.{reply_number};
ghost use Rattle.bitvec.specs.Laws.{AreSameCommands, IsSameNumber};
ghost use Rattle.bitvec.specs.Span.{AreDisjoint};
ghost use Rattle.bitvec_call.specs.Plain.{plain_span, AllShort, AllInside, AllApart, lowest};
ghost use Rattle.bitvec_call.specs.Plain.{plain_command, AreCommands, reply_of, IsPlainReply};

use crate::status::MAX_BITS;
use bitvec::mem::BitRegister;
use bitvec::run::{Command, Reply};

// The greatest code of a command.
const LAST_COMMAND: u8 = 9;

/// A range of bits: the place of its first, and how many it has.
#[derive(Clone, Copy)]
#[repr(C)]
pub struct PlainSpan {
    /// The place of the first bit.
    pub start: usize,
    /// How many bits there are.
    pub count: usize,
}

/// A command to the span of a number.
///
/// The codes are those of the library's commands, in their order: 0 loads the span's bits in its
/// word `a`, 1 stores the number there, 2 sets, 3 clears and 4 inverts them; 5 reads bit `a`, 6
/// replaces it by the number's lowest digit; 7 swaps bits `a` and `b`; 8 copies `count` bits from
/// `a` to `b`; 9 makes the bits from `a` to before `b` the number's lowest digit.
#[derive(Clone, Copy)]
#[repr(C)]
pub struct PlainRequest {
    /// The number of the span in the list of spans.
    pub span: usize,
    /// The number of a word of the span, or that of a bit.
    pub a: usize,
    /// The number of another bit.
    pub b: usize,
    /// How many bits are copied.
    pub count: usize,
    /// The number that is stored; its lowest digit is the bit that is written.
    pub number: u64,
    /// The code of the command.
    pub command: u8,
}

/// The reply to a request.
#[derive(Clone, Copy)]
#[repr(C)]
pub struct PlainReply {
    /// The word or the bit, and else 0.
    pub number: u64,
    /// What the reply is: 0 a word, 1 a bit, 2 that the command is done, 3 that it names a word or
    /// a bit past the end of its span or fills from behind where it fills to, 4 that there is no
    /// such span.
    pub kind: u8,
}

// Whether a range ends before a place, or right there.
fn ends_by(span: PlainSpan, place: usize) -> bool
    ensures { IsTrue result ↔ (span.start + span.count ≤ place) }
{
    span.count <= place && span.start <= place - span.count
}

// Whether two ranges have no bit in common.
fn are_disjoint<R: BitRegister>(span: PlainSpan, other: PlainSpan) -> bool
    ensures { IsTrue result ↔ AreDisjoint R.BITS (plain_span R.BITS span)
        (plain_span R.BITS other) }
{
    if span.count == 0 || other.count == 0 {
        return true;
    }
    if ends_by(span, other.start) {
        return true;
    }
    ends_by(other, span.start)
}

// Whether a range has no bit in common with any of the others.
fn is_apart<R: BitRegister>(span: PlainSpan, others: &[PlainSpan]) -> bool
    ensures { IsTrue result ↔ All (λ other. AreDisjoint R.BITS (plain_span R.BITS span)
        (plain_span R.BITS other)) others.now }
{
    others.iter().all(|other| are_disjoint::<R>(span, *other))
}

/// Whether no two ranges have a bit in common, each tested with each.
pub(crate) fn are_apart<R: BitRegister>(spans: &[PlainSpan]) -> bool
    ensures { IsTrue result ↔ AllApart R.BITS spans.now }
{
    for i in 0..spans.len() {
        if !is_apart::<R>(spans[i], &spans[i + 1..]) {
            return false;
        }
    }
    true
}

/// Whether each range has no more bits than a span can have.
pub(crate) fn are_short(spans: &[PlainSpan]) -> bool
    ensures { IsTrue result ↔ AllShort spans.now }
{
    spans.iter().all(|span| span.count <= MAX_BITS)
}

/// Whether each request has the code of a command.
pub(crate) fn are_commands(requests: &[PlainRequest]) -> bool
    ensures { IsTrue result ↔ AreCommands requests.now }
{
    requests
        .iter()
        .all(|request| request.command <= LAST_COMMAND)
}

// The word that a number is with no digits past the word's width.
fn word_of<R: BitRegister>(number: u64) -> R
    requires { R.BITS ≤ 64 }
    ensures { R.number result ≡ number % 2 ^ R.BITS }
{
    R::from_u128(u128::from(number) % (R::ALL.to_u128() + 1)).unwrap()
}

// Whether the lowest digit of a number is one.
fn bit_of_number(number: u64) -> bool
    ensures { result ≡ lowest number }
{
    number % 2 == 1
}

// The command of a request that names bits.
fn bit_command<R: BitRegister>(request: &PlainRequest) -> Command<R>
    requires bits { 5 ≤ request.now.command }
    requires command { request.now.command ≤ 9 }
    ensures { AreSameCommands R.number (λ n. n) IsSameNumber result
        (plain_command R.BITS request.now) }
{
    let value = bit_of_number(request.number);
    match request.command {
        5 => Command::Read(request.a),
        6 => Command::Replace(request.a, value),
        7 => Command::Swap(request.a, request.b),
        8 => Command::Copy {
            from: request.a,
            to: request.b,
            count: request.count,
        },
        _ => Command::Fill {
            from: request.a,
            to: request.b,
            value,
        },
    }
}

/// The command of a request.
pub(crate) fn command_of<R: BitRegister>(request: &PlainRequest) -> Command<R>
    requires narrow { R.BITS ≤ 64 }
    requires command { request.now.command ≤ 9 }
    ensures { AreSameCommands R.number (λ n. n) IsSameNumber result
        (plain_command R.BITS request.now) }
{
    match request.command {
        0 => Command::Load(request.a),
        1 => Command::Store(request.a, word_of(request.number)),
        2 => Command::Set(request.a),
        3 => Command::Clear(request.a),
        4 => Command::Invert(request.a),
        _ => bit_command(request),
    }
}

/// A reply by its kind and its number.
pub(crate) fn plain_reply<R: BitRegister>(reply: Reply<R>) -> PlainReply
    requires { R.BITS ≤ 64 }
    ensures reply { reply_of result ≡ reply_number R.number reply }
    ensures plain { IsPlainReply result }
{
    let (number, kind) = match reply {
        Reply::Word(word) => (word.to_u128() as u64, 0),
        Reply::Bit(bit) => (u64::from(bit), 1),
        Reply::Done => (0, 2),
        Reply::PastEnd => (0, 3),
        Reply::NoSpan => (0, 4),
    };
    PlainReply { number, kind }
}
