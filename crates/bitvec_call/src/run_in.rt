//! Runs of commands through any number of spans, with room for the number of each.

ghost use Rattle.std.specs.Prelude.{◌≡◌, ◌≤◌, ◌++◌, length};
ghost use Rattle.bitvec.specs.Run.{CanRun};
ghost use Rattle.bitvec_call.specs.Call.{operand};
ghost use Rattle.bitvec_call.specs.Plain.{plain_span, AllShort, AreCommands};
ghost use Rattle.bitvec_call.specs.RunStatus.{IsFirstFailed, IsRoomyRun, IsRoomAfter};
ghost use Rattle.bitvec_call.specs.RunStatus.{roomy_conditions, requests_conditions};
ghost use Rattle.bitvec_call.specs.Status.{ok};

use crate::plain::{PlainReply, PlainRequest, PlainSpan};
use crate::run::{run_requests, test_requests};
use crate::sorted::test_spans_in;
use crate::status::OK;
use bitvec::mem::BitRegister;

// The status of a run with `replies` replies.
fn test_run_in<R: BitRegister>(
    order: u8,
    spans: &[PlainSpan],
    words: usize,
    requests: &[PlainRequest],
    replies: usize,
    room: &mut [usize],
) -> u8
    ensures status { IsFirstFailed (roomy_conditions R.BITS order spans.now words (length room.old)
        ++ requests_conditions requests.now replies) result }
    ensures short { result ≡ ok → AllShort spans.now }
    ensures can_run { result ≡ ok → CanRun R.BITS (plain_span R.BITS) spans.now words }
    ensures replies { result ≡ ok → replies ≡ length requests.now }
    ensures commands { result ≡ ok → AreCommands requests.now }
    ensures room { IsRoomAfter R.BITS order spans.now words room.old room.new }
{
    let status = test_spans_in::<R>(order, spans, words, room);
    if status != OK {
        return status;
    }
    test_requests(requests, replies)
}

/// Serves the requests in their order through any number of spans, and writes reply n to request n.
/// There is room for the number of each span, and it costs the test of these, and the commands.
///
/// It refuses as `test_spans_in` of `sorted`, or with `NO_ROOM` or `NO_COMMAND`, and then the
/// memory and the replies are as they were; the room is as that test leaves it. Words are of at
/// most 64 bits.
pub fn run_plain_in<R: BitRegister>(
    order: u8,
    spans: &[PlainSpan],
    memory: &mut [R],
    requests: &[PlainRequest],
    replies: &mut [PlainReply],
    room: &mut [usize],
) -> u8
    requires narrow { R.BITS ≤ 64 }
    ensures run { let at = operand R.number R.BITS order 0 in IsRoomyRun room.old spans.now
        (at memory.old) (at memory.new) requests.now replies.old replies.new result }
    ensures room { IsRoomAfter R.BITS order spans.now (length memory.old) room.old room.new }
{
    let count = replies.len();
    let status = test_run_in::<R>(order, spans, memory.len(), requests, count, room);
    if status == OK {
        run_requests(order, spans, memory, requests, replies);
    }
    status
}
