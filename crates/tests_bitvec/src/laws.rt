//! Laws of runs: what each says of any two calls of `run`.

ghost use Rattle.std.specs.Prelude.{◌≡◌, ◌^◌, ◌<◌, All, length, map};
ghost use Rattle.std.specs.List.{AllZip};
ghost use Rattle.bitvec.specs.Memory.{memory_bits};
ghost use Rattle.bitvec.specs.BitSpan.{span_of};
ghost use Rattle.bitvec.specs.Commands.{reply_numbers};
ghost use Rattle.bitvec.specs.Run.{CanRun};
ghost use Rattle.tests_bitvec.specs.LongerRuns.{IsRunOfBoth, IsRunFromFill};
ghost use Rattle.tests_bitvec.specs.SameLists.{HaveSameLists, RepliesAgree};
ghost use Rattle.tests_bitvec.specs.SameRuns.{OrderBetweenSpansDoesNotMatter, RunsJoin};
ghost use Rattle.tests_bitvec.specs.SameRuns.{RunsAreCut};
ghost use Rattle.bitvec.specs.Laws.{AreSameRequests, IsSameNumber, IsTurned};
ghost use Rattle.bitvec.specs.Laws.{IsBitCommand, HaveSameOwnCommands};
ghost use Rattle.bitvec.specs.Laws.{HaveSameOwnReplies};

use bitvec::index::BitIdx;
use bitvec::laws::{bit_commands, turned_orders};
use bitvec::mem::BitRegister;
use bitvec::order::{BitOrder, Lsb0, Msb0};
use bitvec::ptr::span::BitSpan;
use bitvec::run::{Command, Reply, Request, can_run, run};

/// The same bit commands in two memories, each of a register and under an order of its own, whose
/// spans have equal lists: each span has the same replies, and they end with equal lists.
fn run_bit_commands<R: BitRegister, O: BitOrder<R>, R2: BitRegister, O2: BitOrder<R2>>(
    spans: &[BitSpan<R, O>],
    here: &mut [R],
    requests: &[Request<R>],
    replies: &mut [Reply<R>],
    other_spans: &[BitSpan<R2, O2>],
    there: &mut [R2],
    other_requests: &[Request<R2>],
    other_replies: &mut [Reply<R2>],
)
    requires can_run { CanRun R.BITS span_of spans.now (length here.old) }
    requires other_can_run { CanRun R2.BITS span_of other_spans.now (length there.old) }
    requires room { length replies.old ≡ length requests.now }
    requires other_room { length other_replies.old ≡ length other_requests.now }
    requires same_lists { HaveSameLists R.BITS O.at_of span_of spans.now (map R.number here.old)
        R2.BITS O2.at_of span_of other_spans.now (map R2.number there.old) }
    requires bit_commands { All (λ request. IsBitCommand request.command) requests.now }
    requires same_requests { AllZip (AreSameRequests R.number R2.number IsSameNumber) requests.now
        other_requests.now }
    ensures same_replies { RepliesAgree IsSameNumber (length spans.now) R.number requests.now
        replies.new R2.number other_requests.now other_replies.new }
    ensures same_lists { HaveSameLists R.BITS O.at_of span_of spans.now (map R.number here.new)
        R2.BITS O2.at_of span_of other_spans.now (map R2.number there.new) }
{
    bit_commands::<R, O, R2, O2>();
    run(spans, here, requests, replies);
    run(other_spans, there, other_requests, other_replies);
}

/// The same requests, the numbers of `Store` turned, in two memories with the same bits under two
/// orders: each span has the same replies, the numbers of `Word` turned, and they end with equal
/// lists.
fn run_turned<R: BitRegister, O: BitOrder<R>, O2: BitOrder<R>>(
    spans: &[BitSpan<R, O>],
    here: &mut [R],
    requests: &[Request<R>],
    replies: &mut [Reply<R>],
    other_spans: &[BitSpan<R, O2>],
    there: &mut [R],
    other_requests: &[Request<R>],
    other_replies: &mut [Reply<R>],
)
    requires can_run { CanRun R.BITS span_of spans.now (length here.old) }
    requires other_can_run { CanRun R.BITS span_of other_spans.now (length there.old) }
    requires room { length replies.old ≡ length requests.now }
    requires other_room { length other_replies.old ≡ length other_requests.now }
    requires same_spans { map span_of spans.now ≡ map span_of other_spans.now }
    requires same_bits { memory_bits R.BITS O.at_of (map R.number here.old)
        ≡ memory_bits R.BITS O2.at_of (map R.number there.old) }
    requires same_requests { AllZip
        (AreSameRequests R.number R.number (IsTurned R.BITS O.at_of O2.at_of)) requests.now
        other_requests.now }
    ensures same_replies { RepliesAgree (IsTurned R.BITS O.at_of O2.at_of) (length spans.now)
        R.number requests.now replies.new R.number other_requests.now other_replies.new }
    ensures same_lists { HaveSameLists R.BITS O.at_of span_of spans.now (map R.number here.new)
        R.BITS O2.at_of span_of other_spans.now (map R.number there.new) }
{
    turned_orders::<R, O, O2>();
    run(spans, here, requests, replies);
    run(other_spans, there, other_requests, other_replies);
}

/// How the commands of different spans stand among each other does not matter, nor which requests
/// name no span. It takes and returns nothing; its contract is the law.
fn order_between_spans_does_not_matter<R: BitRegister, O: BitOrder<R>>()
    ensures { OrderBetweenSpansDoesNotMatter R.number R.BITS O.at_of }
{}

// The number of each word is one of the register's: `to_u128` says so of the word that it is called
// on.
fn numbers_are_below<R: BitRegister>(memory: &[R])
    ensures { All (λ word. R.number word < 2 ^ R.BITS) memory.now }
{
    for word in memory {
        let _number = word.to_u128();
    }
}

/// Two runs in equal memories of requests that give each span the same commands in the same order:
/// the same replies to each span, and the same memory.
fn run_in_two_orders<R: BitRegister, O: BitOrder<R>>(
    spans: &[BitSpan<R, O>],
    here: &mut [R],
    requests: &[Request<R>],
    replies: &mut [Reply<R>],
    there: &mut [R],
    other_requests: &[Request<R>],
    other_replies: &mut [Reply<R>],
)
    requires can_run { CanRun R.BITS span_of spans.now (length here.old) }
    requires room { length replies.old ≡ length requests.now }
    requires other_room { length other_replies.old ≡ length other_requests.now }
    requires same_memory { here.old ≡ there.old }
    requires same_commands { HaveSameOwnCommands (length spans.now) requests.now
        other_requests.now }
    ensures same_replies { HaveSameOwnReplies (length spans.now)
        requests.now (reply_numbers R.number replies.new)
        other_requests.now (reply_numbers R.number other_replies.new) }
    ensures same_memory { here.new ≡ there.new }
{
    order_between_spans_does_not_matter::<R, O>();
    run(spans, here, requests, replies);
    run(spans, there, other_requests, other_replies);
    numbers_are_below(here);
    numbers_are_below(there);
}

/// A run that goes on by another is the run of both lists of requests, and a run can be cut at any
/// request. It takes and returns nothing; its contracts are the laws.
fn runs_join_and_are_cut<R: BitRegister, O: BitOrder<R>>()
    ensures join { RunsJoin R.number R.BITS O.at_of }
    ensures cut { RunsAreCut R.number R.BITS O.at_of }
{}

/// Two runs in turn in one memory: they are the run of the requests of both.
fn run_on<R: BitRegister, O: BitOrder<R>>(
    spans: &[BitSpan<R, O>],
    memory: &mut [R],
    requests: &[Request<R>],
    replies: &mut [Reply<R>],
    more: &[Request<R>],
    others: &mut [Reply<R>],
)
    requires can_run { CanRun R.BITS span_of spans.now (length memory.old) }
    requires room { length replies.old ≡ length requests.now }
    requires other_room { length others.old ≡ length more.now }
    ensures { IsRunOfBoth R.number R.BITS O.at_of span_of spans.now memory.old requests.now more.now
        replies.new others.new memory.new }
{
    run(spans, memory, requests, replies);
    run(spans, memory, more, others);
}

/// An edit of a span, and then a run: they are one run, whose first request is the edit.
fn fill_and_run<R: BitRegister, O: BitOrder<R>>(
    spans: &[BitSpan<R, O>],
    memory: &mut [R],
    requests: &[Request<R>],
    replies: &mut [Reply<R>],
)
    requires can_run { CanRun R.BITS span_of spans.now (length memory.old) }
    requires some { 0 < length spans.now }
    requires room { length replies.old ≡ length requests.now }
    ensures { IsRunFromFill R.number R.BITS O.at_of span_of spans.now memory.old requests.now
        replies.new memory.new }
{
    spans[0].fill(memory, true);
    run(spans, memory, requests, replies);
}

// The replies and the byte that the same commands to its two halves make of 0x5A in two orders.
fn halves_in_two_orders() -> Option<([Reply<u8>; 4], [u8; 1], [Reply<u8>; 5], [u8; 1])> {
    let low: BitSpan<u8, Lsb0> = BitSpan::new(0, BitIdx::new(0).ok()?, 4).ok()?;
    let high: BitSpan<u8, Lsb0> = BitSpan::new(0, BitIdx::new(4).ok()?, 4).ok()?;
    let spans = [low, high];
    let mut here = [0x5A];
    let mut there = [0x5A];
    if !can_run(&spans, here.len()) {
        return None;
    }
    let set = Request {
        span: 0,
        command: Command::Set(0),
    };
    let replace = Request {
        span: 0,
        command: Command::Replace(1, false),
    };
    let invert = Request {
        span: 1,
        command: Command::Invert(0),
    };
    let swap = Request {
        span: 1,
        command: Command::Swap(0, 1),
    };
    let nowhere = Request {
        span: 2,
        command: Command::Set(0),
    };
    let requests = [set, replace, invert, swap];
    let other_requests = [invert, set, nowhere, swap, replace];
    let mut replies = [Reply::NoSpan; 4];
    let mut other_replies = [Reply::NoSpan; 5];
    run_in_two_orders(
        &spans,
        &mut here,
        &requests,
        &mut replies,
        &mut there,
        &other_requests,
        &mut other_replies,
    );
    Some((replies, here, other_replies, there))
}

#[test]
fn halves_of_a_byte_in_two_orders(rt: HostRuntime) {
    let replies = [
        Reply::Word(0x0A),
        Reply::Bit(true),
        Reply::Word(0x50),
        Reply::Done,
    ];
    let other_replies = [
        Reply::Word(0x50),
        Reply::Word(0x0A),
        Reply::NoSpan,
        Reply::Done,
        Reply::Bit(true),
    ];
    let want = (replies, [0x9D], other_replies, [0x9D]);
    assert_eq!(rt; halves_in_two_orders(), Some(want));
}

// The replies of the same bit commands to the low half of 0x0D under `Lsb0` and to four bits of
// 0x02C0 under `Msb0`, which are the same four.
fn bit_commands_in_two_memories() -> Option<([Reply<u8>; 3], [u8; 1], [Reply<u16>; 3], [u16; 1])> {
    let low: BitSpan<u8, Lsb0> = BitSpan::new(0, BitIdx::new_unchecked(0), 4).ok()?;
    let high: BitSpan<u16, Msb0> = BitSpan::new(0, BitIdx::new_unchecked(6), 4).ok()?;
    let mut here = [0x0D];
    let mut there = [0x02C0];
    if !can_run(&[low], 1) || !can_run(&[high], 1) {
        return None;
    }
    let requests = [
        Request {
            span: 0,
            command: Command::Read(0),
        },
        Request {
            span: 0,
            command: Command::Swap(0, 1),
        },
        Request {
            span: 0,
            command: Command::Replace(3, false),
        },
    ];
    let other_requests = [
        Request {
            span: 0,
            command: Command::Read(0),
        },
        Request {
            span: 0,
            command: Command::Swap(0, 1),
        },
        Request {
            span: 0,
            command: Command::Replace(3, false),
        },
    ];
    let mut replies = [Reply::NoSpan; 3];
    let mut other_replies = [Reply::NoSpan; 3];
    run_bit_commands(
        &[low],
        &mut here,
        &requests,
        &mut replies,
        &[high],
        &mut there,
        &other_requests,
        &mut other_replies,
    );
    Some((replies, here, other_replies, there))
}

#[test]
fn bit_commands_under_two_orders(rt: HostRuntime) {
    let replies = [Reply::Bit(true), Reply::Done, Reply::Bit(true)];
    let other_replies = [Reply::Bit(true), Reply::Done, Reply::Bit(true)];
    let want = (replies, [0x06], other_replies, [0x0180]);
    assert_eq!(rt; bit_commands_in_two_memories(), Some(want));
}

// The replies to stores of 0x0D under `Lsb0` and of 0xB0 under `Msb0` in a byte of zeros, and to
// the loads after them.
fn turned_in_two_memories() -> Option<([Reply<u8>; 2], [u8; 1], [Reply<u8>; 2], [u8; 1])> {
    let span: BitSpan<u8, Lsb0> = BitSpan::new(0, BitIdx::new_unchecked(0), 8).ok()?;
    let other: BitSpan<u8, Msb0> = BitSpan::new(0, BitIdx::new_unchecked(0), 8).ok()?;
    let mut here = [0];
    let mut there = [0];
    if !can_run(&[span], 1) || !can_run(&[other], 1) {
        return None;
    }
    let requests = [
        Request {
            span: 0,
            command: Command::Store(0, 0x0D),
        },
        Request {
            span: 0,
            command: Command::Load(0),
        },
    ];
    let other_requests = [
        Request {
            span: 0,
            command: Command::Store(0, 0xB0),
        },
        Request {
            span: 0,
            command: Command::Load(0),
        },
    ];
    let mut replies = [Reply::NoSpan; 2];
    let mut other_replies = [Reply::NoSpan; 2];
    run_turned(
        &[span],
        &mut here,
        &requests,
        &mut replies,
        &[other],
        &mut there,
        &other_requests,
        &mut other_replies,
    );
    Some((replies, here, other_replies, there))
}

#[test]
fn a_byte_turned(rt: HostRuntime) {
    let replies = [Reply::Word(0), Reply::Word(0x0D)];
    let other_replies = [Reply::Word(0), Reply::Word(0xB0)];
    let want = (replies, [0x0D], other_replies, [0xB0]);
    assert_eq!(rt; turned_in_two_memories(), Some(want));
}
