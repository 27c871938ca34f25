//! What each signed number type is: its width, the number that a value is, and which numbers it
//! takes.
//!
//! An impl of `SignedNumber` states itself which number a value is. The contracts here say that it
//! is the value, at each of the six types.

ghost use Rattle.std.specs.Prelude.{◌≡◌, ◌↔◌, IsSome, IfSome};
ghost use Rattle.bitvec_slice.specs.Signed.{FitsSignedDigits};

use bitvec_slice::field::SignedNumber;

// The width of each in bits.
fn widths() -> (u8, u8, u8, u8, u8, u8)
    ensures i8 { result.0 ≡ 8 }
    ensures i16 { result.1 ≡ 16 }
    ensures i32 { result.2 ≡ 32 }
    ensures i64 { result.3 ≡ 64 }
    ensures isize { result.4 ≡ 64 }
    ensures i128 { result.5 ≡ 128 }
{
    (
        <i8 as SignedNumber>::BITS,
        <i16 as SignedNumber>::BITS,
        <i32 as SignedNumber>::BITS,
        <i64 as SignedNumber>::BITS,
        <isize as SignedNumber>::BITS,
        <i128 as SignedNumber>::BITS,
    )
}

// The number of a value is the value.

fn number_of_i8(value: i8) -> i128
    ensures { result ≡ value }
{
    value.to_i128()
}

fn number_of_i16(value: i16) -> i128
    ensures { result ≡ value }
{
    value.to_i128()
}

fn number_of_i32(value: i32) -> i128
    ensures { result ≡ value }
{
    value.to_i128()
}

fn number_of_i64(value: i64) -> i128
    ensures { result ≡ value }
{
    value.to_i128()
}

fn number_of_isize(value: isize) -> i128
    ensures { result ≡ value }
{
    value.to_i128()
}

fn number_of_i128(value: i128) -> i128
    ensures { result ≡ value }
{
    value.to_i128()
}

// A number of no more digits than the type has is its own value, and another one has none.

fn i8_of_number(n: i128) -> Option<i8>
    ensures accepted { IsSome result ↔ FitsSignedDigits 8 n }
    ensures made { IfSome result (λ value. value ≡ n) }
{
    i8::from_i128(n)
}

fn i16_of_number(n: i128) -> Option<i16>
    ensures accepted { IsSome result ↔ FitsSignedDigits 16 n }
    ensures made { IfSome result (λ value. value ≡ n) }
{
    i16::from_i128(n)
}

fn i32_of_number(n: i128) -> Option<i32>
    ensures accepted { IsSome result ↔ FitsSignedDigits 32 n }
    ensures made { IfSome result (λ value. value ≡ n) }
{
    i32::from_i128(n)
}

fn i64_of_number(n: i128) -> Option<i64>
    ensures accepted { IsSome result ↔ FitsSignedDigits 64 n }
    ensures made { IfSome result (λ value. value ≡ n) }
{
    i64::from_i128(n)
}

fn isize_of_number(n: i128) -> Option<isize>
    ensures accepted { IsSome result ↔ FitsSignedDigits 64 n }
    ensures made { IfSome result (λ value. value ≡ n) }
{
    isize::from_i128(n)
}

fn i128_of_number(n: i128) -> Option<i128>
    ensures accepted { IsSome result ↔ FitsSignedDigits 128 n }
    ensures made { IfSome result (λ value. value ≡ n) }
{
    i128::from_i128(n)
}

#[test]
fn each_signed_type(rt: HostRuntime) {
    assert_eq!(rt; widths(), (8, 16, 32, 64, 64, 128));
    assert_eq!(rt;
        [
            number_of_i8(-128),
            number_of_i16(-129),
            number_of_i32(-130),
            number_of_i64(-131),
            number_of_isize(-132),
            number_of_i128(-133)
        ],
        [-128, -129, -130, -131, -132, -133]
    );
    assert_eq!(rt; (i8_of_number(-128), i8_of_number(128)), (Some(-128), None));
    assert_eq!(rt;
        (i16_of_number(-32768), i16_of_number(32768)),
        (Some(-32768), None)
    );
    assert_eq!(rt;
        (i32_of_number(-1), i32_of_number(0x8000_0000)),
        (Some(-1), None)
    );
    let past = 0x8000_0000_0000_0000;
    assert_eq!(rt;
        (i64_of_number(-past), i64_of_number(past)),
        (Some(i64::MIN), None)
    );
    assert_eq!(rt;
        (isize_of_number(-past), isize_of_number(past)),
        (Some(isize::MIN), None)
    );
    assert_eq!(rt; i128_of_number(i128::MIN), Some(i128::MIN));
}
