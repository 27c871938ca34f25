//! Spans in the order in which they start, so that however many are tested in little time.

ghost use Rattle.std.specs.Prelude.{◌≡◌, ◌↔◌, ◌+◌, IsTrue, ◌≤◌, AllPairs, length};
ghost use Rattle.bitvec.specs.Run.{CanRun, IsRising, start_in};
ghost use Rattle.bitvec_call.specs.Plain.{plain_span, AllShort, AllApart};
ghost use Rattle.bitvec_call.specs.RunStatus.{IsFirstFailed, IsRoomAfter, roomy_conditions};
ghost use Rattle.bitvec_call.specs.Status.{ok};

use crate::plain::{PlainSpan, are_short};
use crate::run::are_inside;
use crate::status::{MSB0, NO_ORDER, NO_ROOM, OK, OUTSIDE, OVERLAP, TOO_LONG};
use bitvec::mem::BitRegister;

// The place of the first bit of the span of a number, and 0 where there is no such span.
fn start_of<R: BitRegister>(spans: &[PlainSpan], i: usize) -> usize
    ensures { result ≡ start_in R.BITS (plain_span R.BITS) spans.now i }
{
    if i < spans.len() { spans[i].start } else { 0 }
}

// Puts the numbers of the spans in an order in which their first bits rise.
fn sort_places<R: BitRegister>(spans: &[PlainSpan], room: &mut [usize])
    requires { length room.old ≡ length spans.now }
    ensures { IsRising R.BITS (plain_span R.BITS) spans.now room.new }
{
    for i in 0..room.len() {
        room[i] = i;
    }
    room.sort_unstable_by_key(|i| start_of::<R>(spans, *i));
}

// Whether no two spans have a bit in common, by one pass in an order in which their places rise:
// the start of each is tested with the end of the last one before it that has bits.
fn sorted_apart<R: BitRegister>(spans: &[PlainSpan], room: &[usize]) -> bool
    requires { IsRising R.BITS (plain_span R.BITS) spans.now room.now }
    ensures { IsTrue result ↔ AllApart R.BITS spans.now }
{
    let mut upto = 0;
    for i in 0..room.len() {
        let number = room[i];
        let span = spans[number];
        if span.count != 0 {
            let start = span.start as u128;
            if start < upto {
                return false;
            }
            upto = start + span.count as u128;
        }
    }
    true
}

/// The status of an order and of spans, of which there may be any number where there is room for
/// the number of each, in time n log n for n of them.
///
/// It is `OK`, `NO_ORDER`, `NO_ROOM`, `TOO_LONG`, `OUTSIDE` or `OVERLAP`. The room holds the
/// numbers of the spans afterwards, in an order in which their first bits rise, where it is `OK` or
/// `OVERLAP`, and else is as it was.
pub fn test_spans_in<R: BitRegister>(
    order: u8,
    spans: &[PlainSpan],
    words: usize,
    room: &mut [usize],
) -> u8
    ensures status { IsFirstFailed (roomy_conditions R.BITS order spans.now words (length room.old))
        result }
    ensures short { result ≡ ok → AllShort spans.now }
    ensures can_run { result ≡ ok → CanRun R.BITS (plain_span R.BITS) spans.now words }
    ensures room { IsRoomAfter R.BITS order spans.now words room.old room.new }
{
    if order > MSB0 {
        return NO_ORDER;
    }
    if room.len() != spans.len() {
        return NO_ROOM;
    }
    if !are_short(spans) {
        return TOO_LONG;
    }
    if !are_inside::<R>(spans, words) {
        return OUTSIDE;
    }
    sort_places::<R>(spans, room);
    if !sorted_apart::<R>(spans, room) {
        return OVERLAP;
    }
    OK
}
