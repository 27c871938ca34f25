//! Moves of all bits of a span in a memory that it fits: a reversal, a rotation and the shifts.

ghost use Rattle.std.specs.Prelude.{◌≤◌, ◌-◌, ◌++◌, false, length, take, drop, replicate};
ghost use Rattle.std.specs.Prelude.{reverse, slice_range};
ghost use Rattle.bitvec.specs.BitSpan.{span_of, list_by, Becomes};
ghost use Rattle.bitvec.specs.Span.{Fits};
ghost use Rattle.bitvec_slice.specs.Ranges.{with_range};

use crate::slice::turn::reverse_by_words;
use bitvec::mem::BitRegister;
use bitvec::order::{BitOrder, Direction, direction_of};
use bitvec::ptr::span::BitSpan;

// Puts the bits of a span in the opposite order, and changes no other bit.
pub(super) fn reverse_bits<R: BitRegister, O: BitOrder<R>>(span: BitSpan<R, O>, memory: &mut [R])
    requires fits { Fits R.BITS (span_of span) (length memory.old) }
    ensures { Becomes span O.at_of memory.old memory.new
        (reverse (list_by span O.at_of memory.old)) }
{
    match direction_of::<R, O>() {
        Direction::Other => reverse_singly(span, memory),
        Direction::Rises => reverse_by_words(span, memory),
        Direction::Falls => reverse_by_words(span, memory),
    }
}

// Puts the bits of a span in the opposite order one by one, and changes no other bit.
fn reverse_singly<R: BitRegister, O: BitOrder<R>>(span: BitSpan<R, O>, memory: &mut [R])
    requires fits { Fits R.BITS (span_of span) (length memory.old) }
    ensures { Becomes span O.at_of memory.old memory.new
        (reverse (list_by span O.at_of memory.old)) }
{
    let len = span.len();
    for i in 0..len / 2 {
        span.swap(memory, i, len - 1 - i);
    }
}

// Puts the bits of a span from number `from` to before number `to` in the opposite order, and
// changes no other bit.
pub(super) fn reverse_range<R: BitRegister, O: BitOrder<R>>(
    span: BitSpan<R, O>,
    memory: &mut [R],
    from: usize,
    to: usize,
)
    requires fits { Fits R.BITS (span_of span) (length memory.old) }
    requires ordered { from ≤ to }
    requires inside { to ≤ (span_of span).len }
    ensures { let old = list_by span O.at_of memory.old in Becomes span O.at_of memory.old
        memory.new (with_range old from to (reverse (slice_range old from to))) }
{
    reverse_bits(span.range(from, to), memory);
}

// Puts the first `by` bits of a span behind the others, and changes no other bit.
pub(super) fn rotate_bits<R: BitRegister, O: BitOrder<R>>(
    span: BitSpan<R, O>,
    memory: &mut [R],
    by: usize,
)
    requires fits { Fits R.BITS (span_of span) (length memory.old) }
    requires inside { by ≤ (span_of span).len }
    ensures { let old = list_by span O.at_of memory.old
        in Becomes span O.at_of memory.old memory.new
        (drop by old ++ take by old) }
{
    let len = span.len();
    reverse_range(span, memory, 0, by);
    reverse_range(span, memory, by, len);
    reverse_bits(span, memory);
}

// Moves the bits of a span `by` places towards its first, with zeros behind them, and changes no
// other bit.
pub(super) fn shift_bits_left<R: BitRegister, O: BitOrder<R>>(
    span: BitSpan<R, O>,
    memory: &mut [R],
    by: usize,
)
    requires fits { Fits R.BITS (span_of span) (length memory.old) }
    requires inside { by ≤ (span_of span).len }
    ensures { let old = list_by span O.at_of memory.old
        in Becomes span O.at_of memory.old memory.new
        (drop by old ++ replicate by false) }
{
    let len = span.len();
    span.copy_within(memory, by, 0, len - by);
    span.range(len - by, len).fill(memory, false);
}

// Moves the bits of a span `by` places towards its last, with zeros before them, and changes no
// other bit.
pub(super) fn shift_bits_right<R: BitRegister, O: BitOrder<R>>(
    span: BitSpan<R, O>,
    memory: &mut [R],
    by: usize,
)
    requires fits { Fits R.BITS (span_of span) (length memory.old) }
    requires inside { by ≤ (span_of span).len }
    ensures { let old = list_by span O.at_of memory.old
        in Becomes span O.at_of memory.old memory.new
        (replicate by false ++ take (length old - by) old) }
{
    let len = span.len();
    span.copy_within(memory, 0, by, len - by);
    span.range(0, by).fill(memory, false);
}
