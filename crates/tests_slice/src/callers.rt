//! Callers.

ghost use Rattle.std.specs.Prelude.{◌≡◌, ◌<◌, ◌≤◌, ◌↔◌, IfSome, IsTrue, IsFalse, true, false};
ghost use Rattle.std.specs.Prelude.{◌*◌, length, map, slice_set};
ghost use Rattle.bitvec.specs.BitSpan.{span_of, list_by};
ghost use Rattle.bitvec.specs.Memory.{memory_bits};
ghost use Rattle.bitvec.specs.Place.{region_max_bits};
ghost use Rattle.bitvec.specs.Span.{Fits, KeepsOthers, element, span_from};
ghost use Rattle.bitvec.specs.Truths.{ones_in};
ghost use Rattle.bitvec_slice.specs.BitSlice.{slice_memory, slice_span, slice_bits};
ghost use Rattle.bitvec_slice.specs.BitSliceMut.{lent_memory, lent_span, lent_len, lent_bits};
ghost use Rattle.bitvec_slice.specs.BitSliceMut.{BecomesBits};
ghost use Rattle.bitvec_slice.specs.Orders.{lsb0_at, msb0_at};
ghost use Rattle.tests_slice.specs.SpanRuns.{IsRunFromReplace};

use bitvec::mem::BitRegister;
use bitvec::order::{BitOrder, Lsb0, Msb0};
use bitvec::ptr::span::BitSpan;
use bitvec::run::{Reply, Request, run};
use bitvec_slice::slice::{BitSlice, BitSliceMut, ReadBits};

/// Two bits.
fn set_two<R: BitRegister, O: BitOrder<R>>(span: BitSpan<R, O>, memory: &mut [R]) -> bool
    requires { 2 ≤ (span_of span).len }
    ensures fits { IsTrue result ↔ Fits R.BITS (span_of span) (length memory.old) }
    ensures list { IsTrue result → list_by span O.at_of memory.new
        ≡ slice_set (slice_set (list_by span O.at_of memory.old) 0 true) 1 false }
    ensures others { KeepsOthers R.BITS O.at_of (span_of span) (map R.number memory.old)
        (map R.number memory.new) }
    ensures words { length memory.new ≡ length memory.old }
    ensures refused { IsFalse result → memory.new ≡ memory.old }
{
    if !span.fits(memory.len()) {
        return false;
    }
    let mut slice = BitSliceMut::new_unchecked(span, memory);
    slice.set(0, true);
    slice.set(1, false);
    true
}

/// One bit, and then the first: two edits are one, which says what lies beside both.
fn mark_and_clear<'a, R: BitRegister, O: BitOrder<R>>(bits: &mut BitSliceMut<'a, R, O>, i: usize)
    requires { i < lent_len bits.old }
    ensures { let marked = slice_set (lent_bits bits.old) i true
        in BecomesBits bits.old bits.new (slice_set marked 0 false) }
{
    bits.set(i, true);
    bits.set(0, false);
}

/// The first bit of bytes in an order that the contract names.
fn first_from_the_highest(memory: &[u8]) -> bool
    requires some { 0 < length memory.now }
    requires short { length memory.now * 8 ≤ region_max_bits }
    ensures { result ≡ element (memory_bits 8 (msb0_at 8) (map (λ n. n) memory.now)) 0 }
{
    BitSlice::<u8, Msb0>::all_unchecked(memory).get_unchecked(0)
}

/// The same in the other.
fn first_from_the_lowest(memory: &[u8]) -> bool
    requires some { 0 < length memory.now }
    requires short { length memory.now * 8 ≤ region_max_bits }
    ensures { result ≡ element (memory_bits 8 lsb0_at (map (λ n. n) memory.now)) 0 }
{
    BitSlice::<u8, Lsb0>::all_unchecked(memory).get_unchecked(0)
}

/// What an iterator has left after one bit, and `None` where it has none.
fn behind_the_first<'a, R: BitRegister, O: BitOrder<R>>(
    slice: BitSlice<'a, R, O>,
) -> Option<BitSlice<'a, R, O>>
    ensures memory { IfSome result (λ rest. slice_memory rest ≡ slice_memory slice.entry) }
    ensures span { IfSome result (λ rest. slice_span rest
        ≡ span_from R.BITS (slice_span slice.entry) 1) }
{
    let mut bits = slice.iter();
    bits.next()?;
    Some(bits.as_bitslice())
}

/// A bit of a span, read through a slice.
fn bit_of_span<R: BitRegister, O: BitOrder<R>>(span: BitSpan<R, O>, memory: &[R], i: usize) -> bool
    requires fits { Fits R.BITS (span_of span) (length memory.now) }
    requires inside { i < (span_of span).len }
    ensures { result ≡ element (list_by span O.at_of memory.now) i }
{
    BitSlice::new_unchecked(span, memory).get_unchecked(i)
}

/// A slice that was taken apart, and made again.
fn again<'a, R: BitRegister, O: BitOrder<R>>(slice: BitSliceMut<'a, R, O>) -> BitSliceMut<'a, R, O>
    ensures reference { (lent_memory result).ghost_name ≡ (lent_memory slice.entry).ghost_name }
    ensures words { (lent_memory result).now ≡ (lent_memory slice.entry).now }
    ensures span { lent_span result ≡ lent_span slice.entry }
    ensures bits { lent_bits result ≡ lent_bits slice.entry }
{
    let (span, memory) = slice.into_parts();
    BitSliceMut::new_unchecked(span, memory)
}

/// A bit of a slice is set, and then its span is run: they are one run, whose first request is the
/// edit.
fn set_and_run<R: BitRegister, O: BitOrder<R>>(
    span: BitSpan<R, O>,
    memory: &mut [R],
    i: usize,
    bit: bool,
    requests: &[Request<R>],
    replies: &mut [Reply<R>],
)
    requires fits { Fits R.BITS (span_of span) (length memory.old) }
    requires inside { i < (span_of span).len }
    requires room { length replies.old ≡ length requests.now }
    ensures { IsRunFromReplace R.number R.BITS O.at_of span_of span i bit memory.old requests.now
        replies.new memory.new }
{
    let mut slice = BitSliceMut::new_unchecked(span, memory);
    slice.set(i, bit);
    run(&[span], memory, requests, replies);
}

/// How many bits are one in whatever holds bits.
fn ones_of<R: BitRegister, O: BitOrder<R>, B: ReadBits<R, O>>(holder: &B) -> usize
    ensures { result ≡ ones_in (B.bits holder.now) }
{
    holder.count_ones()
}

/// How many bits are one in a slice for reading, and in one for writing.
fn ones_of_both<R: BitRegister, O: BitOrder<R>>(
    read: &BitSlice<'_, R, O>,
    lent: &BitSliceMut<'_, R, O>,
) -> (usize, usize)
    ensures read { result.0 ≡ ones_in (slice_bits read.now) }
    ensures lent { result.1 ≡ ones_in (lent_bits lent.now) }
{
    (ones_of(read), lent.count_ones())
}

#[cfg(test)]
mod tests {
    use super::{again, bit_of_span};
    use bitvec::order::{Lsb0, Msb0};
    use bitvec::ptr::span::BitSpan;
    use bitvec_slice::slice::BitSliceMut;

    #[test]
    fn a_bit_through_a_slice(rt: HostRuntime) {
        let memory = [0x00u8, 0x20];
        let span: BitSpan<u8, Msb0> = BitSpan::at_unchecked(4, 12);
        assert!(rt; bit_of_span(span, &memory, 6));
        assert!(rt; !bit_of_span(span, &memory, 7));
    }

    #[test]
    fn a_slice_made_again(rt: HostRuntime) {
        let mut memory = [0x00u8; 2];
        let span: BitSpan<u8, Lsb0> = BitSpan::at_unchecked(7, 9);
        let mut slice = again(BitSliceMut::new_unchecked(span, &mut memory));
        slice.set(1, true);
        assert_eq!(rt; memory, [0x00, 0x01]);
    }
}
