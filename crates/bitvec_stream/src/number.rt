//! Numbers of all bits of a slice, signed ones too, whatever its register and order, and the lowest
//! digits of a number.
//!
//! The bits of signed numbers go through a word of 128 bits by the copies of slices, so no register
//! and no order has a way of its own.

ghost use Rattle.std.specs.Prelude.{◌≡◌, ◌%◌, ◌^◌, ◌<◌, ◌≤◌, length};
ghost use Rattle.bitvec.specs.BitSpan.{span_of};
ghost use Rattle.bitvec.specs.Span.{Fits};
ghost use Rattle.bitvec_slice.specs.BitSlice.{slice_len, slice_bits};
ghost use Rattle.bitvec_slice.specs.Signed.{signed_of};
ghost use Rattle.bitvec_stream.specs.Numbers.{number_le, number_be};

use bitvec::mem::BitRegister;
use bitvec::order::{BitOrder, Lsb0, Msb0};
use bitvec::ptr::span::BitSpan;
use bitvec_slice::field::SignedNumber;
use bitvec_slice::slice::{BitSlice, BitSliceMut};

// The lowest `count` digits of a number.
#[inline(always)]
pub(crate) fn lowest<N: BitRegister>(count: usize, digits: N) -> N
    requires some { 0 < count }
    requires few { count ≤ N.BITS }
    ensures { N.number result ≡ N.number digits % 2 ^ count }
{
    digits.and(N::ALL.shr(N::BITS - count as u8))
}

// The first `count` bits of a word under `Lsb0`.
fn low_span(count: usize) -> BitSpan<u128, Lsb0>
    requires { count ≤ 128 }
    ensures fits { Fits 128 (span_of result) 1 }
    ensures len { (span_of result).len ≡ count }
{
    BitSpan::at_unchecked(0, count)
}

// The last `count` bits of a word under `Msb0`.
fn high_span(count: usize) -> BitSpan<u128, Msb0>
    requires { count ≤ 128 }
    ensures fits { Fits 128 (span_of result) 1 }
    ensures len { (span_of result).len ≡ count }
{
    let whole: BitSpan<u128, Msb0> = BitSpan::at_unchecked(0, 128);
    whole.range(128 - count, 128)
}

// The number of a slice's bits, the first the highest.
pub(crate) fn load_be<R: BitRegister, O: BitOrder<R>>(part: BitSlice<'_, R, O>) -> u128
    requires { slice_len part ≤ 128 }
    ensures { result ≡ number_be (slice_bits part.entry) }
{
    part.load_digits_be(0, part.len())
}

// The signed number whose two's complement a slice's bits are, the first the lowest digit.
pub(crate) fn load_signed_le<R: BitRegister, O: BitOrder<R>, N: SignedNumber>(
    part: BitSlice<'_, R, O>,
) -> N
    requires { slice_len part ≤ N.BITS }
    ensures { let bits = slice_bits part.entry
        in N.number result ≡ signed_of (length bits) (number_le bits) }
{
    let mut words = [0u128];
    let mut digits = BitSliceMut::new_unchecked(low_span(part.len()), &mut words);
    digits.copy_from_bitslice(part);
    digits.load_signed_le()
}

// The signed number whose two's complement a slice's bits are, the first the highest digit.
pub(crate) fn load_signed_be<R: BitRegister, O: BitOrder<R>, N: SignedNumber>(
    part: BitSlice<'_, R, O>,
) -> N
    requires { slice_len part ≤ N.BITS }
    ensures { let bits = slice_bits part.entry
        in N.number result ≡ signed_of (length bits) (number_be bits) }
{
    let mut words = [0u128];
    let mut digits = BitSliceMut::new_unchecked(high_span(part.len()), &mut words);
    digits.copy_from_bitslice(part);
    digits.load_signed_be()
}
