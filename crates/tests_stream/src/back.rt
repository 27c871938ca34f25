//! What is written is read: for every register, every lawful order and every type of numbers. Each
//! function refuses exactly where there is no room, or the number has too many digits.
#![tactic(auto, using(bitvec_stream::proofs::ReadBackLemmas::read_back))]

ghost use Rattle.std.specs.Prelude.{◌≡◌, ◌↔◌, ◌^◌, ◌≤◌, ◌<◌, IsSome, IfSome, length};
ghost use Rattle.bitvec.specs.BitSpan.{span_of};
ghost use Rattle.bitvec.specs.Span.{Fits};
ghost use Rattle.bitvec_slice.specs.Signed.{FitsSignedDigits};
ghost use Rattle.bitvec_stream.specs.Golomb.{golomb, signed_place};

use bitvec::mem::BitRegister;
use bitvec::order::BitOrder;
use bitvec::ptr::span::BitSpan;
use bitvec_slice::field::SignedNumber;
use bitvec_stream::reader::BitReader;
use bitvec_stream::writer::BitWriter;

/// What is read of a number that was written at the start of a span in `count` bits, the first the
/// highest digit: that number.
fn be_back<R: BitRegister, O: BitOrder<R>, N: BitRegister>(
    span: BitSpan<R, O>,
    memory: &mut [R],
    count: usize,
    value: N,
) -> Option<N>
    requires fits { Fits R.BITS (span_of span) (length memory.old) }
    requires few { count ≤ N.BITS }
    ensures read { IsSome result
        ↔ ((count ≤ (span_of span).len) × (N.number value < 2 ^ count)) }
    ensures value { IfSome result (λ back. N.number back ≡ N.number value) }
{
    let mut writer = BitWriter::over_unchecked(span, memory);
    writer.write_be(count, value).ok()?;
    let mut reader = BitReader::new(writer.written());
    Some(reader.read_be(count).unwrap())
}

/// The same, the first bit the lowest digit.
fn le_back<R: BitRegister, O: BitOrder<R>, N: BitRegister>(
    span: BitSpan<R, O>,
    memory: &mut [R],
    count: usize,
    value: N,
) -> Option<N>
    requires fits { Fits R.BITS (span_of span) (length memory.old) }
    requires few { count ≤ N.BITS }
    ensures read { IsSome result
        ↔ ((count ≤ (span_of span).len) × (N.number value < 2 ^ count)) }
    ensures value { IfSome result (λ back. N.number back ≡ N.number value) }
{
    let mut writer = BitWriter::over_unchecked(span, memory);
    writer.write_le(count, value).ok()?;
    let mut reader = BitReader::new(writer.written());
    Some(reader.read_le(count).unwrap())
}

/// The same of a signed number, the first bit the highest digit.
fn signed_be_back<R: BitRegister, O: BitOrder<R>, N: SignedNumber>(
    span: BitSpan<R, O>,
    memory: &mut [R],
    count: usize,
    value: N,
) -> Option<N>
    requires fits { Fits R.BITS (span_of span) (length memory.old) }
    requires few { count ≤ N.BITS }
    ensures read { IsSome result
        ↔ ((count ≤ (span_of span).len) × FitsSignedDigits count (N.number value)) }
    ensures value { IfSome result (λ back. N.number back ≡ N.number value) }
{
    let mut writer = BitWriter::over_unchecked(span, memory);
    writer.write_signed_be(count, value).ok()?;
    let mut reader = BitReader::new(writer.written());
    Some(reader.read_signed_be(count).unwrap())
}

/// The same, the first bit the lowest digit.
fn signed_le_back<R: BitRegister, O: BitOrder<R>, N: SignedNumber>(
    span: BitSpan<R, O>,
    memory: &mut [R],
    count: usize,
    value: N,
) -> Option<N>
    requires fits { Fits R.BITS (span_of span) (length memory.old) }
    requires few { count ≤ N.BITS }
    ensures read { IsSome result
        ↔ ((count ≤ (span_of span).len) × FitsSignedDigits count (N.number value)) }
    ensures value { IfSome result (λ back. N.number back ≡ N.number value) }
{
    let mut writer = BitWriter::over_unchecked(span, memory);
    writer.write_signed_le(count, value).ok()?;
    let mut reader = BitReader::new(writer.written());
    Some(reader.read_signed_le(count).unwrap())
}

/// The same of a number in unary.
fn unary_back<R: BitRegister, O: BitOrder<R>>(
    span: BitSpan<R, O>,
    memory: &mut [R],
    bit: bool,
    count: usize,
) -> Option<usize>
    requires { Fits R.BITS (span_of span) (length memory.old) }
    ensures read { IsSome result ↔ (count < (span_of span).len) }
    ensures value { IfSome result (λ back. back ≡ count) }
{
    let mut writer = BitWriter::over_unchecked(span, memory);
    writer.write_unary(bit, count).ok()?;
    let mut reader = BitReader::new(writer.written());
    Some(reader.read_unary(bit).unwrap())
}

/// The same of an Exp-Golomb code.
fn exp_golomb_back<R: BitRegister, O: BitOrder<R>, N: BitRegister>(
    span: BitSpan<R, O>,
    memory: &mut [R],
    value: N,
) -> Option<N>
    requires { Fits R.BITS (span_of span) (length memory.old) }
    ensures read { IsSome result ↔ (length (golomb (N.number value)) ≤ (span_of span).len) }
    ensures value { IfSome result (λ back. N.number back ≡ N.number value) }
{
    // By its contract a value has no more digits than its type.
    let _ = value.to_u128();
    let mut writer = BitWriter::over_unchecked(span, memory);
    match writer.write_exp_golomb(value) {
        Ok(()) => {}
        Err(_) => return None,
    }
    let mut reader = BitReader::new(writer.written());
    Some(reader.read_exp_golomb().unwrap())
}

/// The same of a signed one.
fn signed_exp_golomb_back<R: BitRegister, O: BitOrder<R>, N: SignedNumber>(
    span: BitSpan<R, O>,
    memory: &mut [R],
    value: N,
) -> Option<N>
    requires { Fits R.BITS (span_of span) (length memory.old) }
    ensures read { IsSome result
        ↔ (length (golomb (signed_place (N.number value))) ≤ (span_of span).len) }
    ensures value { IfSome result (λ back. N.number back ≡ N.number value) }
{
    // By its contract a value has no more digits than its type.
    let _ = value.to_i128();
    let mut writer = BitWriter::over_unchecked(span, memory);
    match writer.write_signed_exp_golomb(value) {
        Ok(()) => {}
        Err(_) => return None,
    }
    let mut reader = BitReader::new(writer.written());
    Some(reader.read_signed_exp_golomb().unwrap())
}

#[cfg(test)]
mod tests {
    use super::{
        be_back, exp_golomb_back, le_back, signed_be_back, signed_exp_golomb_back, signed_le_back,
        unary_back,
    };
    use bitvec::order::{Lsb0, Msb0};
    use bitvec::ptr::span::BitSpan;

    #[test]
    fn each_is_read_back(rt: HostRuntime) {
        let mut memory = [0xA5u8; 4];
        let span: BitSpan<u8, Msb0> = BitSpan::at_unchecked(3, 29);
        assert_eq!(rt; be_back(span, &mut memory, 12, 4095u16), Some(4095));
        assert_eq!(rt; be_back(span, &mut memory, 30, 0u32), None);
        assert_eq!(rt; le_back(span, &mut memory, 12, 4095u16), Some(4095));
        assert_eq!(rt; le_back(span, &mut memory, 12, 4096u16), None);
        assert_eq!(rt;
            signed_be_back(span, &mut memory, 12, -2048i16),
            Some(-2048)
        );
        assert_eq!(rt; signed_le_back(span, &mut memory, 12, 2047i16), Some(2047));
        assert_eq!(rt; signed_le_back(span, &mut memory, 12, 2048i16), None);
        assert_eq!(rt; unary_back(span, &mut memory, true, 28), Some(28));
        assert_eq!(rt; unary_back(span, &mut memory, false, 29), None);
        let mut words = [0x5Au32];
        let span: BitSpan<u32, Lsb0> = BitSpan::at_unchecked(1, 31);
        assert_eq!(rt; exp_golomb_back(span, &mut words, 32766u16), Some(32766));
        assert_eq!(rt;
            signed_exp_golomb_back(span, &mut words, -16383i16),
            Some(-16383)
        );
        assert_eq!(rt; signed_exp_golomb_back(span, &mut words, -32768i16), None);
    }
}
