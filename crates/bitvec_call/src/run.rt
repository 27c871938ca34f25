//! Runs of commands through disjoint spans of one memory.

ghost use Rattle.std.specs.Prelude.{◌≡◌, ◌≤◌, ◌↔◌, IsTrue, [], ◌∷◌, length, map};
ghost use Rattle.bitvec.specs.Run.{CanRun};
ghost use Rattle.bitvec_call.specs.Call.{operand};
ghost use Rattle.bitvec_call.specs.Order.{order_at};
ghost use Rattle.bitvec_call.specs.Plain.{plain_span, AllShort, AllInside, AreCommands, IsPlainRun};
ghost use Rattle.bitvec_call.specs.RunStatus.{IsSpansStatus, IsRunStatus, IsRunOf};
ghost use Rattle.bitvec_call.specs.RunStatus.{IsFirstFailed, requests_conditions};
ghost use Rattle.bitvec_call.specs.Status.{ok};

use crate::plain::{
    PlainReply, PlainRequest, PlainSpan, are_apart, are_commands, are_short, command_of,
    plain_reply,
};
use crate::range::span;
use crate::status::{
    LSB0, MAX_SPANS, MSB0, NO_COMMAND, NO_ORDER, NO_ROOM, OK, OUTSIDE, OVERLAP, TOO_LONG,
    TOO_MANY_SPANS, is_inside,
};
use bitvec::mem::BitRegister;
use bitvec::order::{BitOrder, Lsb0, Msb0};
use bitvec::run::{Reply, step};

// Whether each range ends within `words` words.
pub(crate) fn are_inside<R: BitRegister>(spans: &[PlainSpan], words: usize) -> bool
    ensures { IsTrue result ↔ AllInside R.BITS words spans.now }
{
    spans
        .iter()
        .all(|range| is_inside::<R>(words, range.start, range.count))
}

/// The status of an order and of the at most 64 spans of a run in a memory of `words` words: each
/// lies in it, and no two have a bit in common. It tests each with each.
///
/// It is `OK`, `NO_ORDER`, `TOO_MANY_SPANS`, `TOO_LONG`, `OUTSIDE` or `OVERLAP`.
pub fn test_spans<R: BitRegister>(order: u8, spans: &[PlainSpan], words: usize) -> u8
    ensures status { IsSpansStatus R.BITS order spans.now words result }
    ensures short { result ≡ ok → AllShort spans.now }
    ensures can_run { result ≡ ok → CanRun R.BITS (plain_span R.BITS) spans.now words }
{
    if order > MSB0 {
        return NO_ORDER;
    }
    if spans.len() > MAX_SPANS {
        return TOO_MANY_SPANS;
    }
    if !are_short(spans) {
        return TOO_LONG;
    }
    if !are_inside::<R>(spans, words) {
        return OUTSIDE;
    }
    if !are_apart::<R>(spans) {
        return OVERLAP;
    }
    OK
}

// The status of requests with `replies` replies.
pub(crate) fn test_requests(requests: &[PlainRequest], replies: usize) -> u8
    ensures status { IsFirstFailed (requests_conditions requests.now replies) result }
    ensures room { result ≡ ok → replies ≡ length requests.now }
    ensures commands { result ≡ ok → AreCommands requests.now }
{
    if replies != requests.len() {
        return NO_ROOM;
    }
    if !are_commands(requests) {
        return NO_COMMAND;
    }
    OK
}

// The status of a run with `replies` replies.
fn test_run<R: BitRegister>(
    order: u8,
    spans: &[PlainSpan],
    words: usize,
    requests: &[PlainRequest],
    replies: usize,
) -> u8
    ensures status { IsRunStatus R.BITS order spans.now words requests.now replies result }
    ensures short { result ≡ ok → AllShort spans.now }
    ensures can_run { result ≡ ok → CanRun R.BITS (plain_span R.BITS) spans.now words }
    ensures room { result ≡ ok → replies ≡ length requests.now }
    ensures commands { result ≡ ok → AreCommands requests.now }
{
    let status = test_spans::<R>(order, spans, words);
    if status != OK {
        return status;
    }
    test_requests(requests, replies)
}

// Serves one request.
fn serve<R: BitRegister, O: BitOrder<R>>(
    spans: &[PlainSpan],
    memory: &mut [R],
    request: &PlainRequest,
) -> PlainReply
    requires narrow { R.BITS ≤ 64 }
    requires short { AllShort spans.now }
    requires can_run { CanRun R.BITS (plain_span R.BITS) spans.now (length memory.old) }
    requires command { request.now.command ≤ 9 }
    ensures { IsPlainRun R.BITS O.at_of spans.now (map R.number memory.old) (request.now ∷ [])
        (result ∷ []) (map R.number memory.new) }
{
    if request.span < spans.len() {
        let range = spans[request.span];
        let own = span::<R, O>(range.start, range.count);
        let command = command_of(request);
        plain_reply(step(own, memory, command))
    } else {
        plain_reply::<R>(Reply::NoSpan)
    }
}

// Serves the requests in their order, and writes reply n to request n.
fn run_in<R: BitRegister, O: BitOrder<R>>(
    spans: &[PlainSpan],
    memory: &mut [R],
    requests: &[PlainRequest],
    replies: &mut [PlainReply],
)
    requires narrow { R.BITS ≤ 64 }
    requires short { AllShort spans.now }
    requires can_run { CanRun R.BITS (plain_span R.BITS) spans.now (length memory.old) }
    requires replies { length replies.old ≡ length requests.now }
    requires commands { AreCommands requests.now }
    ensures { IsPlainRun R.BITS O.at_of spans.now (map R.number memory.old) requests.now
        replies.new (map R.number memory.new) }
{
    for n in 0..requests.len() {
        replies[n] = serve::<R, O>(spans, memory, &requests[n]);
    }
}

// The same under the order of a code.
pub(crate) fn run_requests<R: BitRegister>(
    order: u8,
    spans: &[PlainSpan],
    memory: &mut [R],
    requests: &[PlainRequest],
    replies: &mut [PlainReply],
)
    requires narrow { R.BITS ≤ 64 }
    requires short { AllShort spans.now }
    requires can_run { CanRun R.BITS (plain_span R.BITS) spans.now (length memory.old) }
    requires replies { length replies.old ≡ length requests.now }
    requires commands { AreCommands requests.now }
    ensures { IsPlainRun R.BITS (order_at R.BITS order) spans.now (map R.number memory.old)
        requests.now replies.new (map R.number memory.new) }
{
    if order == LSB0 {
        run_in::<R, Lsb0>(spans, memory, requests, replies);
    } else {
        run_in::<R, Msb0>(spans, memory, requests, replies);
    }
}

/// Serves the requests in their order, each through the span that it names, and writes reply n to
/// request n. It costs the tests, and what the commands cost: copies and fills by words, each other
/// one constant.
///
/// It refuses as `test_spans`, or with `NO_ROOM` or `NO_COMMAND`, and then the memory and the
/// replies are as they were. Words are of at most 64 bits.
pub fn run_plain<R: BitRegister>(
    order: u8,
    spans: &[PlainSpan],
    memory: &mut [R],
    requests: &[PlainRequest],
    replies: &mut [PlainReply],
) -> u8
    requires narrow { R.BITS ≤ 64 }
    ensures { let at = operand R.number R.BITS order 0 in IsRunOf spans.now (at memory.old)
        (at memory.new) requests.now replies.old replies.new result }
{
    let count = replies.len();
    let status = test_run::<R>(order, spans, memory.len(), requests, count);
    if status == OK {
        run_requests(order, spans, memory, requests, replies);
    }
    status
}
