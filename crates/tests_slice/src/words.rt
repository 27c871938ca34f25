//! Whole words of slices: asked for, read and put.

ghost use Rattle.std.specs.Prelude.{◌≡◌, ℕ, ◌+◌, ◌/◌, ◌%◌, ◌<◌, ◌↔◌, not};
ghost use Rattle.std.specs.Prelude.{IsTrue, IsFalse, IsSome, IfSome};
ghost use Rattle.bitvec.specs.Digit.{digit};
ghost use Rattle.bitvec.specs.Span.{element};
ghost use Rattle.bitvec_slice.specs.BitSlice.{slice_span, slice_bits};
ghost use Rattle.bitvec_slice.specs.BitSliceMut.{lent_span, lent_len, lent_bits, BecomesBits};
ghost use Rattle.bitvec_slice.specs.Words.{HasWord, HasElements, with_digits};

use bitvec::mem::BitRegister;
use bitvec::order::{BitOrder, Msb0};
use bitvec::ptr::span::BitSpan;
use bitvec_slice::slice::{BitSlice, BitSliceMut};

/// Makes a word zero where a slice has it whole, and says whether it has.
fn clear_word<R: BitRegister, O: BitOrder<R>>(bits: &mut BitSliceMut<'_, R, O>, k: usize) -> bool
    ensures whole { IsTrue result ↔ HasWord R.BITS (lent_span bits.old) k }
    ensures cleared { IsTrue result → BecomesBits bits.old bits.new (with_digits R.BITS O.at_of
        (lent_span bits.old).head (lent_bits bits.old) k 0) }
    ensures refused { IsFalse result → bits.new ≡ bits.old }
{
    if !bits.has_word(k) {
        return false;
    }
    bits.set_whole_word(k, R::ZERO);
    true
}

/// A word, where a slice has it whole.
fn word_of<R: BitRegister, O: BitOrder<R>>(bits: BitSlice<'_, R, O>, k: usize) -> Option<R>
    ensures whole { IsSome result ↔ HasWord R.BITS (slice_span bits.entry) k }
    ensures word { IfSome result (λ word. HasElements R.BITS O.at_of (slice_span bits.entry) k
        (R.number word) (element (slice_bits bits.entry))) }
{
    if bits.has_word(k) {
        Some(bits.whole_word(k))
    } else {
        None
    }
}

/// A bit of a word that was put.
fn put_and_get<R: BitRegister, O: BitOrder<R>>(
    bits: &mut BitSliceMut<'_, R, O>,
    k: usize,
    word: R,
    i: usize,
) -> bool
    requires whole { HasWord R.BITS (lent_span bits.old) k }
    requires inside { i < lent_len bits.old }
    requires here { ((lent_span bits.old).head + i) / R.BITS ≡ k }
    ensures { result ≡ digit (R.number word)
        (O.at_of (((lent_span bits.old).head + i) % R.BITS)) }
{
    bits.set_whole_word(k, word);
    bits.get_unchecked(i)
}

#[test]
fn words_are_cleared(rt: HostRuntime) {
    let mut memory = [0xFFu8; 3];
    let span: BitSpan<u8, Msb0> = BitSpan::at_unchecked(4, 20);
    let mut bits = BitSliceMut::new_unchecked(span, &mut memory);
    assert!(rt; !clear_word(&mut bits, 0));
    assert!(rt; clear_word(&mut bits, 2));
    assert!(rt; !clear_word(&mut bits, 3));
    assert_eq!(rt; word_of(bits.as_bitslice(), 0), None);
    assert_eq!(rt; word_of(bits.as_bitslice(), 1), Some(0xFF));
    assert_eq!(rt; word_of(bits.as_bitslice(), 2), Some(0x00));
    assert!(rt; put_and_get(&mut bits, 1, 0x80, 4));
    assert_eq!(rt; memory, [0xFF, 0x80, 0x00]);
}
