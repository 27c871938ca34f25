//! Edits through disjoint spans of one memory, in turn: what a caller knows of each span's list
//! and of the whole memory. The spans may share words.

ghost use Rattle.std.specs.Prelude.{◌≡◌, ◌≢◌, true, false, length, map, replicate, slice_set};
ghost use Rattle.bitvec_span.specs.BitSpan.{span_of, list_by};
ghost use Rattle.bitvec_span.specs.Span.{Fits, AreDisjoint};
ghost use Rattle.tests_span.specs.Outside.{KeepsOutside};

use bitvec_mem::mem::BitRegister;
use bitvec_order::order::{BitOrder, Lsb0};
use bitvec_span::ptr::span::BitSpan;

// Fills two spans and writes a bit of a third. `rest` is any span beside the three, so a span of
// any one bit outside them: the whole memory is known.
fn edit_three<R: BitRegister, O: BitOrder<R>>(
    a: BitSpan<R, O>,
    b: BitSpan<R, O>,
    c: BitSpan<R, O>,
    rest: BitSpan<R, O>,
    memory: &mut [R],
)
    requires a { Fits R.BITS (span_of a) (length memory.old) }
    requires b { Fits R.BITS (span_of b) (length memory.old) }
    requires c { Fits R.BITS (span_of c) (length memory.old) }
    requires rest { Fits R.BITS (span_of rest) (length memory.old) }
    requires some { (span_of c).len ≢ 0 }
    requires ab { AreDisjoint R.BITS (span_of a) (span_of b) }
    requires ba { AreDisjoint R.BITS (span_of b) (span_of a) }
    requires bc { AreDisjoint R.BITS (span_of b) (span_of c) }
    requires cb { AreDisjoint R.BITS (span_of c) (span_of b) }
    requires ac { AreDisjoint R.BITS (span_of a) (span_of c) }
    requires ca { AreDisjoint R.BITS (span_of c) (span_of a) }
    requires ar { AreDisjoint R.BITS (span_of a) (span_of rest) }
    requires br { AreDisjoint R.BITS (span_of b) (span_of rest) }
    requires cr { AreDisjoint R.BITS (span_of c) (span_of rest) }
    ensures first { list_by a O.at_of memory.new ≡ replicate (span_of a).len true }
    ensures second { list_by b O.at_of memory.new ≡ replicate (span_of b).len false }
    ensures third { list_by c O.at_of memory.new
        ≡ slice_set (list_by c O.at_of memory.old) 0 true }
    ensures rest { list_by rest O.at_of memory.new ≡ list_by rest O.at_of memory.old }
    ensures words { length memory.new ≡ length memory.old }
{
    a.fill(memory, true);
    b.fill(memory, false);
    c.write(memory, 0, true);
}

// The same edits: every bit outside the three spans is as before.
fn edit_three_alone<R: BitRegister, O: BitOrder<R>>(
    a: BitSpan<R, O>,
    b: BitSpan<R, O>,
    c: BitSpan<R, O>,
    memory: &mut [R],
)
    requires a { Fits R.BITS (span_of a) (length memory.old) }
    requires b { Fits R.BITS (span_of b) (length memory.old) }
    requires c { Fits R.BITS (span_of c) (length memory.old) }
    requires some { (span_of c).len ≢ 0 }
    ensures { KeepsOutside R.BITS O.at_of (span_of a) (span_of b) (span_of c)
        (map R.number memory.old) (map R.number memory.new) }
{
    a.fill(memory, true);
    b.fill(memory, false);
    c.write(memory, 0, true);
}

#[test]
fn three_spans_share_a_word(rt: HostRuntime) {
    let mut memory = [0x00u8, 0xFF];
    let a: BitSpan<u8, Lsb0> = BitSpan::at(1, 3).unwrap();
    let b: BitSpan<u8, Lsb0> = BitSpan::at(6, 4).unwrap();
    let c: BitSpan<u8, Lsb0> = BitSpan::at(4, 2).unwrap();
    a.fill(&mut memory, true);
    b.fill(&mut memory, false);
    c.write(&mut memory, 0, true);
    assert_eq!(rt; memory, [0x1E, 0xFC]);
}
