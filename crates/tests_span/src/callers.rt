//! Callers of what a domain's items are handed to.

ghost use Rattle.std.specs.Prelude.{length};
ghost use Rattle.bitvec_span.specs.BitSpan.{span_of, list_by};
ghost use Rattle.bitvec_span.specs.Each.{IsCalledWith};
ghost use Rattle.bitvec_span.specs.Span.{Fits, words_of};

use bitvec_mem::mem::BitRegister;
use bitvec_order::index::BitIdx;
use bitvec_order::order::{BitOrder, Lsb0};
use bitvec_span::ptr::span::BitSpan;

// Calls a function with the words of a span, as its bits lie in each, and hands it on as the last
// call leaves it: no call comes before these, between them or behind them.
fn with_each_word<R: BitRegister, O: BitOrder<R>, F: FnMut(R)>(
    span: BitSpan<R, O>,
    memory: &[R],
    f: F,
) -> F
    requires fits { Fits R.BITS (span_of span) (length memory.now) }
    requires callable { F.IsAlwaysCallable f }
    ensures callable { F.IsAlwaysCallable result }
    ensures called { IsCalledWith R.number (λ p w q. F.step p w tt q)
        (words_of R.BITS O.at_of (span_of span).head (list_by span O.at_of memory.now)) f result }
{
    span.domain(memory).each(f)
}

#[test]
fn each_word_of_a_span(rt: HostRuntime) {
    let memory = [0x12u8, 0x34, 0x56];
    let span: BitSpan<u8, Lsb0> = BitSpan::new(0, BitIdx::new_unchecked(4), 16).unwrap();
    let mut last = 0;
    let mut count = 0;
    let mut next = with_each_word(span, &memory, |word| {
        last = word;
        count ^= 1;
    });
    next(0x78);
    assert_eq!(rt; (last, count), (0x78, 0));
}
