//! Runs: exports for callers in C. Written by `.ci/exports`.

ghost use Rattle.std.specs.Prelude.{length};
ghost use Rattle.bitvec_call.specs.Call.{u8_at, u16_at, u32_at, u64_at};
ghost use Rattle.bitvec_call.specs.RunStatus.{IsSpansTest, IsRunOf, IsRoomyRun, IsRoomAfter};
ghost use Rattle.bitvec_call.specs.RunStatus.{spans_conditions, roomy_conditions};

use bitvec_call::plain::{PlainReply, PlainRequest, PlainSpan};
use bitvec_call::run::{run_plain, test_spans};
use bitvec_call::run_in::run_plain_in;
use bitvec_call::sorted::test_spans_in;

/// Tests the spans of a run for a memory of this many words: each lies in it, and no two have a bit
/// in common.
///
/// In words of 8 bits. It refuses with `NO_ORDER`, `TOO_MANY_SPANS`, `TOO_LONG`, `OUTSIDE` or
/// `OVERLAP`. It costs at most 2016 such tests, of each span with each.
#[unsafe(no_mangle)]
pub extern "C" fn bitvec_c_can_run_u8(order: u8, words: usize, spans: &[PlainSpan]) -> u8
    ensures { IsSpansTest 8 (spans_conditions 8 order spans.now words) spans.now words result }
{
    test_spans::<u8>(order, spans, words)
}

/// As `bitvec_c_can_run_u8`, of words of 16 bits.
#[unsafe(no_mangle)]
pub extern "C" fn bitvec_c_can_run_u16(order: u8, words: usize, spans: &[PlainSpan]) -> u8
    ensures { IsSpansTest 16 (spans_conditions 16 order spans.now words) spans.now words result }
{
    test_spans::<u16>(order, spans, words)
}

/// As `bitvec_c_can_run_u8`, of words of 32 bits.
#[unsafe(no_mangle)]
pub extern "C" fn bitvec_c_can_run_u32(order: u8, words: usize, spans: &[PlainSpan]) -> u8
    ensures { IsSpansTest 32 (spans_conditions 32 order spans.now words) spans.now words result }
{
    test_spans::<u32>(order, spans, words)
}

/// As `bitvec_c_can_run_u8`, of words of 64 bits.
#[unsafe(no_mangle)]
pub extern "C" fn bitvec_c_can_run_u64(order: u8, words: usize, spans: &[PlainSpan]) -> u8
    ensures { IsSpansTest 64 (spans_conditions 64 order spans.now words) spans.now words result }
{
    test_spans::<u64>(order, spans, words)
}

/// Serves the requests in their order, each through the span that it names, and writes the n-th
/// reply to the n-th request. It tests what bitvec_c_can_run_W does, and `NO_ROOM` and
/// `NO_COMMAND`, before it serves the first.
///
/// In words of 8 bits. It refuses with `NO_ORDER`, `TOO_MANY_SPANS`, `TOO_LONG`, `OUTSIDE`,
/// `OVERLAP`, `NO_ROOM` or `NO_COMMAND`. It costs these tests, and what the commands cost, `COPY`
/// and `FILL` by words, each other one constant.
#[unsafe(no_mangle)]
pub extern "C" fn bitvec_c_run_u8(
    order: u8,
    memory: &mut [u8],
    spans: &[PlainSpan],
    requests: &[PlainRequest],
    replies: &mut [PlainReply],
) -> u8
    ensures { let at = u8_at order 0 in IsRunOf spans.now (at memory.old) (at memory.new)
        requests.now replies.old replies.new result }
{
    run_plain(order, spans, memory, requests, replies)
}

/// As `bitvec_c_run_u8`, of words of 16 bits.
#[unsafe(no_mangle)]
pub extern "C" fn bitvec_c_run_u16(
    order: u8,
    memory: &mut [u16],
    spans: &[PlainSpan],
    requests: &[PlainRequest],
    replies: &mut [PlainReply],
) -> u8
    ensures { let at = u16_at order 0 in IsRunOf spans.now (at memory.old) (at memory.new)
        requests.now replies.old replies.new result }
{
    run_plain(order, spans, memory, requests, replies)
}

/// As `bitvec_c_run_u8`, of words of 32 bits.
#[unsafe(no_mangle)]
pub extern "C" fn bitvec_c_run_u32(
    order: u8,
    memory: &mut [u32],
    spans: &[PlainSpan],
    requests: &[PlainRequest],
    replies: &mut [PlainReply],
) -> u8
    ensures { let at = u32_at order 0 in IsRunOf spans.now (at memory.old) (at memory.new)
        requests.now replies.old replies.new result }
{
    run_plain(order, spans, memory, requests, replies)
}

/// As `bitvec_c_run_u8`, of words of 64 bits.
#[unsafe(no_mangle)]
pub extern "C" fn bitvec_c_run_u64(
    order: u8,
    memory: &mut [u64],
    spans: &[PlainSpan],
    requests: &[PlainRequest],
    replies: &mut [PlainReply],
) -> u8
    ensures { let at = u64_at order 0 in IsRunOf spans.now (at memory.old) (at memory.new)
        requests.now replies.old replies.new result }
{
    run_plain(order, spans, memory, requests, replies)
}

/// Tests any number of spans as bitvec_c_can_run_W does: `room` has as many numbers as there are
/// spans, or the call refuses with `NO_ROOM`. Where the status is `OK` or `OVERLAP` it holds the
/// numbers of the spans in an order in which their first bits rise; else it is as it was.
///
/// In words of 8 bits. It refuses with `NO_ORDER`, `NO_ROOM`, `TOO_LONG`, `OUTSIDE` or `OVERLAP`.
/// It costs n log n for n spans.
#[unsafe(no_mangle)]
pub extern "C" fn bitvec_c_can_run_in_u8(
    order: u8,
    words: usize,
    spans: &[PlainSpan],
    room: &mut [usize],
) -> u8
    ensures tested { IsSpansTest 8 (roomy_conditions 8 order spans.now words (length room.old))
        spans.now words result }
    ensures room { IsRoomAfter 8 order spans.now words room.old room.new }
{
    test_spans_in::<u8>(order, spans, words, room)
}

/// As `bitvec_c_can_run_in_u8`, of words of 16 bits.
#[unsafe(no_mangle)]
pub extern "C" fn bitvec_c_can_run_in_u16(
    order: u8,
    words: usize,
    spans: &[PlainSpan],
    room: &mut [usize],
) -> u8
    ensures tested { IsSpansTest 16 (roomy_conditions 16 order spans.now words (length room.old))
        spans.now words result }
    ensures room { IsRoomAfter 16 order spans.now words room.old room.new }
{
    test_spans_in::<u16>(order, spans, words, room)
}

/// As `bitvec_c_can_run_in_u8`, of words of 32 bits.
#[unsafe(no_mangle)]
pub extern "C" fn bitvec_c_can_run_in_u32(
    order: u8,
    words: usize,
    spans: &[PlainSpan],
    room: &mut [usize],
) -> u8
    ensures tested { IsSpansTest 32 (roomy_conditions 32 order spans.now words (length room.old))
        spans.now words result }
    ensures room { IsRoomAfter 32 order spans.now words room.old room.new }
{
    test_spans_in::<u32>(order, spans, words, room)
}

/// As `bitvec_c_can_run_in_u8`, of words of 64 bits.
#[unsafe(no_mangle)]
pub extern "C" fn bitvec_c_can_run_in_u64(
    order: u8,
    words: usize,
    spans: &[PlainSpan],
    room: &mut [usize],
) -> u8
    ensures tested { IsSpansTest 64 (roomy_conditions 64 order spans.now words (length room.old))
        spans.now words result }
    ensures room { IsRoomAfter 64 order spans.now words room.old room.new }
{
    test_spans_in::<u64>(order, spans, words, room)
}

/// Serves the requests through any number of spans, which are tested as bitvec_c_can_run_in_W does.
/// Where that test would answer `OK` or `OVERLAP`, `room` holds the numbers of the spans
/// afterwards, also where the run is refused; else it is as it was.
///
/// In words of 8 bits. It refuses with `NO_ORDER`, `NO_ROOM`, `TOO_LONG`, `OUTSIDE`, `OVERLAP` or
/// `NO_COMMAND`. It costs as bitvec_c_run_W, with these tests.
#[unsafe(no_mangle)]
pub extern "C" fn bitvec_c_run_in_u8(
    order: u8,
    memory: &mut [u8],
    spans: &[PlainSpan],
    requests: &[PlainRequest],
    replies: &mut [PlainReply],
    room: &mut [usize],
) -> u8
    ensures run { let at = u8_at order 0 in IsRoomyRun room.old spans.now (at memory.old) (at
        memory.new) requests.now replies.old replies.new result }
    ensures room { IsRoomAfter 8 order spans.now (length memory.old) room.old room.new }
{
    run_plain_in(order, spans, memory, requests, replies, room)
}

/// As `bitvec_c_run_in_u8`, of words of 16 bits.
#[unsafe(no_mangle)]
pub extern "C" fn bitvec_c_run_in_u16(
    order: u8,
    memory: &mut [u16],
    spans: &[PlainSpan],
    requests: &[PlainRequest],
    replies: &mut [PlainReply],
    room: &mut [usize],
) -> u8
    ensures run { let at = u16_at order 0 in IsRoomyRun room.old spans.now (at memory.old) (at
        memory.new) requests.now replies.old replies.new result }
    ensures room { IsRoomAfter 16 order spans.now (length memory.old) room.old room.new }
{
    run_plain_in(order, spans, memory, requests, replies, room)
}

/// As `bitvec_c_run_in_u8`, of words of 32 bits.
#[unsafe(no_mangle)]
pub extern "C" fn bitvec_c_run_in_u32(
    order: u8,
    memory: &mut [u32],
    spans: &[PlainSpan],
    requests: &[PlainRequest],
    replies: &mut [PlainReply],
    room: &mut [usize],
) -> u8
    ensures run { let at = u32_at order 0 in IsRoomyRun room.old spans.now (at memory.old) (at
        memory.new) requests.now replies.old replies.new result }
    ensures room { IsRoomAfter 32 order spans.now (length memory.old) room.old room.new }
{
    run_plain_in(order, spans, memory, requests, replies, room)
}

/// As `bitvec_c_run_in_u8`, of words of 64 bits.
#[unsafe(no_mangle)]
pub extern "C" fn bitvec_c_run_in_u64(
    order: u8,
    memory: &mut [u64],
    spans: &[PlainSpan],
    requests: &[PlainRequest],
    replies: &mut [PlainReply],
    room: &mut [usize],
) -> u8
    ensures run { let at = u64_at order 0 in IsRoomyRun room.old spans.now (at memory.old) (at
        memory.new) requests.now replies.old replies.new result }
    ensures room { IsRoomAfter 64 order spans.now (length memory.old) room.old room.new }
{
    run_plain_in(order, spans, memory, requests, replies, room)
}
