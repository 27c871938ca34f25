//! A law of the words of a span, read off the contracts of the calls that it names.

ghost use Rattle.std.specs.Prelude.{◌↔◌, IsTrue};
ghost use Rattle.bitvec_span.specs.BitSpan.{span_of};
ghost use Rattle.tests_span.specs.Elements.{HasBitIn};

use bitvec_mem::mem::BitRegister;
use bitvec_order::index::BitIdx;
use bitvec_order::order::Lsb0;
use bitvec_span::ptr::span::BitSpan;

/// A span has a bit in a word exactly where the word is one of its `elements`, counted from its
/// first word on.
fn elements_are_the_words_with_a_bit<R: BitRegister, O>(span: BitSpan<R, O>, word: isize) -> bool
    ensures { IsTrue result ↔ HasBitIn R.BITS (span_of span) word }
{
    let first = span.address();
    first <= word && word.abs_diff(first) < span.elements()
}

// Whether the span of `bits` bits from place 4 on has a bit in the words from -1 to 3.
fn words_with_a_bit(bits: usize) -> Option<[bool; 5]> {
    let span: BitSpan<u8, Lsb0> = BitSpan::new(0, BitIdx::new(4).ok()?, bits).ok()?;
    Some([-1, 0, 1, 2, 3].map(|word| elements_are_the_words_with_a_bit(span, word)))
}

#[test]
fn words_of_a_span(rt: HostRuntime) {
    assert_eq!(rt;
        words_with_a_bit(16),
        Some([false, true, true, true, false])
    );
    assert_eq!(rt; words_with_a_bit(0), Some([false; 5]));
}
