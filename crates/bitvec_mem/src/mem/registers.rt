//! The registers: `u8`, `u16`, `u32`, `u64` and `usize`, and `u128`, which is not in the Rust
//! crate.
//!
//! One impl of the same shape for each.

ghost use Rattle.std.specs.Prelude.{codes, refl};
ghost use Rattle.std.proofs.Common.{lit≤};
ghost use Rattle.bitvec_mem.specs.SameDigits.{same_from_digits};

use crate::mem::BitRegister;

#[tactic(auto, using(crate::proofs::Widths::digits_8))]
impl BitRegister for u8 {
    const BITS: u8 = 8;

    const INDX: u8 = 3;

    const MASK: u8 = 7;

    const ZERO: u8 = 0;

    const ONE: u8 = 1;

    const ALL: u8 = u8::MAX;

    const NAME: &'static str = "u8";

    ghost BITS = { 8 };

    ghost INDX = { 3 };

    ghost MASK = { 7 };

    ghost ZERO = { 0 };

    ghost ONE = { 1 };

    ghost ALL = { 255 };

    ghost name = { codes "u8" };

    ghost number = { λ x. x };

    ghost from_number = { λ n. n };

    ghost number_back = { λ a h. refl };

    fn name_text() -> &'static str {
        Self::NAME
    }

    fn and(self, with: u8) -> u8 {
        self & with
    }

    fn or(self, with: u8) -> u8 {
        self | with
    }

    fn xor(self, with: u8) -> u8 {
        self ^ with
    }

    fn not(self) -> u8 {
        !self
    }

    fn shl(self, n: u8) -> u8 {
        self << n
    }

    fn shr(self, n: u8) -> u8 {
        self >> n
    }

    fn count_ones(self) -> u32 {
        u8::count_ones(self)
    }

    fn to_u128(self) -> u128 {
        u128::from(self)
    }

    fn from_u128(n: u128) -> Option<u8> {
        u8::try_from(n).ok()
    }

    ghost width_is_power_of_two = { refl };

    ghost exponent_at_least_3 = { lit≤ tt };

    ghost exponent_at_most_7 = { lit≤ tt };

    ghost width_at_least_8 = { lit≤ tt };

    ghost width_at_most_128 = { lit≤ tt };

    ghost mask_is_greatest_index = { refl };

    ghost zero_is_0 = { refl };

    ghost one_is_1 = { refl };

    ghost all_is_greatest = { refl };

    ghost digits_injective = { same_from_digits 8 };

    ghost eq_compares_numbers = { λ a b h k. refl };

    ghost cmp_compares_numbers = { λ a b h k. refl };

    ghost default_is_zero = { λ a h. h };
}

#[tactic(auto, using(crate::proofs::Widths::digits_16))]
impl BitRegister for u16 {
    const BITS: u8 = 16;

    const INDX: u8 = 4;

    const MASK: u8 = 15;

    const ZERO: u16 = 0;

    const ONE: u16 = 1;

    const ALL: u16 = u16::MAX;

    const NAME: &'static str = "u16";

    ghost BITS = { 16 };

    ghost INDX = { 4 };

    ghost MASK = { 15 };

    ghost ZERO = { 0 };

    ghost ONE = { 1 };

    ghost ALL = { 65535 };

    ghost name = { codes "u16" };

    ghost number = { λ x. x };

    ghost from_number = { λ n. n };

    ghost number_back = { λ a h. refl };

    fn name_text() -> &'static str {
        Self::NAME
    }

    fn and(self, with: u16) -> u16 {
        self & with
    }

    fn or(self, with: u16) -> u16 {
        self | with
    }

    fn xor(self, with: u16) -> u16 {
        self ^ with
    }

    fn not(self) -> u16 {
        !self
    }

    fn shl(self, n: u8) -> u16 {
        self << n
    }

    fn shr(self, n: u8) -> u16 {
        self >> n
    }

    fn count_ones(self) -> u32 {
        u16::count_ones(self)
    }

    fn to_u128(self) -> u128 {
        u128::from(self)
    }

    fn from_u128(n: u128) -> Option<u16> {
        u16::try_from(n).ok()
    }

    ghost width_is_power_of_two = { refl };

    ghost exponent_at_least_3 = { lit≤ tt };

    ghost exponent_at_most_7 = { lit≤ tt };

    ghost width_at_least_8 = { lit≤ tt };

    ghost width_at_most_128 = { lit≤ tt };

    ghost mask_is_greatest_index = { refl };

    ghost zero_is_0 = { refl };

    ghost one_is_1 = { refl };

    ghost all_is_greatest = { refl };

    ghost digits_injective = { same_from_digits 16 };

    ghost eq_compares_numbers = { λ a b h k. refl };

    ghost cmp_compares_numbers = { λ a b h k. refl };

    ghost default_is_zero = { λ a h. h };
}

#[tactic(auto, using(crate::proofs::Widths::digits_32))]
impl BitRegister for u32 {
    const BITS: u8 = 32;

    const INDX: u8 = 5;

    const MASK: u8 = 31;

    const ZERO: u32 = 0;

    const ONE: u32 = 1;

    const ALL: u32 = u32::MAX;

    const NAME: &'static str = "u32";

    ghost BITS = { 32 };

    ghost INDX = { 5 };

    ghost MASK = { 31 };

    ghost ZERO = { 0 };

    ghost ONE = { 1 };

    ghost ALL = { 4294967295 };

    ghost name = { codes "u32" };

    ghost number = { λ x. x };

    ghost from_number = { λ n. n };

    ghost number_back = { λ a h. refl };

    fn name_text() -> &'static str {
        Self::NAME
    }

    fn and(self, with: u32) -> u32 {
        self & with
    }

    fn or(self, with: u32) -> u32 {
        self | with
    }

    fn xor(self, with: u32) -> u32 {
        self ^ with
    }

    fn not(self) -> u32 {
        !self
    }

    fn shl(self, n: u8) -> u32 {
        self << n
    }

    fn shr(self, n: u8) -> u32 {
        self >> n
    }

    fn count_ones(self) -> u32 {
        u32::count_ones(self)
    }

    fn to_u128(self) -> u128 {
        u128::from(self)
    }

    fn from_u128(n: u128) -> Option<u32> {
        u32::try_from(n).ok()
    }

    ghost width_is_power_of_two = { refl };

    ghost exponent_at_least_3 = { lit≤ tt };

    ghost exponent_at_most_7 = { lit≤ tt };

    ghost width_at_least_8 = { lit≤ tt };

    ghost width_at_most_128 = { lit≤ tt };

    ghost mask_is_greatest_index = { refl };

    ghost zero_is_0 = { refl };

    ghost one_is_1 = { refl };

    ghost all_is_greatest = { refl };

    ghost digits_injective = { same_from_digits 32 };

    ghost eq_compares_numbers = { λ a b h k. refl };

    ghost cmp_compares_numbers = { λ a b h k. refl };

    ghost default_is_zero = { λ a h. h };
}

#[tactic(auto, using(crate::proofs::Widths::digits_64))]
impl BitRegister for u64 {
    const BITS: u8 = 64;

    const INDX: u8 = 6;

    const MASK: u8 = 63;

    const ZERO: u64 = 0;

    const ONE: u64 = 1;

    const ALL: u64 = u64::MAX;

    const NAME: &'static str = "u64";

    ghost BITS = { 64 };

    ghost INDX = { 6 };

    ghost MASK = { 63 };

    ghost ZERO = { 0 };

    ghost ONE = { 1 };

    ghost ALL = { 18446744073709551615 };

    ghost name = { codes "u64" };

    ghost number = { λ x. x };

    ghost from_number = { λ n. n };

    ghost number_back = { λ a h. refl };

    fn name_text() -> &'static str {
        Self::NAME
    }

    fn and(self, with: u64) -> u64 {
        self & with
    }

    fn or(self, with: u64) -> u64 {
        self | with
    }

    fn xor(self, with: u64) -> u64 {
        self ^ with
    }

    fn not(self) -> u64 {
        !self
    }

    fn shl(self, n: u8) -> u64 {
        self << n
    }

    fn shr(self, n: u8) -> u64 {
        self >> n
    }

    fn count_ones(self) -> u32 {
        u64::count_ones(self)
    }

    fn to_u128(self) -> u128 {
        u128::from(self)
    }

    fn from_u128(n: u128) -> Option<u64> {
        u64::try_from(n).ok()
    }

    ghost width_is_power_of_two = { refl };

    ghost exponent_at_least_3 = { lit≤ tt };

    ghost exponent_at_most_7 = { lit≤ tt };

    ghost width_at_least_8 = { lit≤ tt };

    ghost width_at_most_128 = { lit≤ tt };

    ghost mask_is_greatest_index = { refl };

    ghost zero_is_0 = { refl };

    ghost one_is_1 = { refl };

    ghost all_is_greatest = { refl };

    ghost digits_injective = { same_from_digits 64 };

    ghost eq_compares_numbers = { λ a b h k. refl };

    ghost cmp_compares_numbers = { λ a b h k. refl };

    ghost default_is_zero = { λ a h. h };
}

#[tactic(auto, using(crate::proofs::Widths::digits_64))]
impl BitRegister for usize {
    const BITS: u8 = usize::BITS as u8;

    // (4, 5 or 6, of 16, 32 or 64 digits)
    const INDX: u8 = (usize::BITS / 32 + 4) as u8;

    const MASK: u8 = (usize::BITS - 1) as u8;

    const ZERO: usize = 0;

    const ONE: usize = 1;

    const ALL: usize = usize::MAX;

    const NAME: &'static str = "usize";

    ghost BITS = { 64 };

    ghost INDX = { 6 };

    ghost MASK = { 63 };

    ghost ZERO = { 0 };

    ghost ONE = { 1 };

    ghost ALL = { 18446744073709551615 };

    ghost name = { codes "usize" };

    ghost number = { λ x. x };

    ghost from_number = { λ n. n };

    ghost number_back = { λ a h. refl };

    fn name_text() -> &'static str {
        Self::NAME
    }

    fn and(self, with: usize) -> usize {
        self & with
    }

    fn or(self, with: usize) -> usize {
        self | with
    }

    fn xor(self, with: usize) -> usize {
        self ^ with
    }

    fn not(self) -> usize {
        !self
    }

    fn shl(self, n: u8) -> usize {
        self << n
    }

    fn shr(self, n: u8) -> usize {
        self >> n
    }

    fn count_ones(self) -> u32 {
        usize::count_ones(self)
    }

    fn to_u128(self) -> u128 {
        self as u128
    }

    fn from_u128(n: u128) -> Option<usize> {
        usize::try_from(n).ok()
    }

    ghost width_is_power_of_two = { refl };

    ghost exponent_at_least_3 = { lit≤ tt };

    ghost exponent_at_most_7 = { lit≤ tt };

    ghost width_at_least_8 = { lit≤ tt };

    ghost width_at_most_128 = { lit≤ tt };

    ghost mask_is_greatest_index = { refl };

    ghost zero_is_0 = { refl };

    ghost one_is_1 = { refl };

    ghost all_is_greatest = { refl };

    ghost digits_injective = { same_from_digits 64 };

    ghost eq_compares_numbers = { λ a b h k. refl };

    ghost cmp_compares_numbers = { λ a b h k. refl };

    ghost default_is_zero = { λ a h. h };
}

#[tactic(auto, using(crate::proofs::Widths::digits_128))]
impl BitRegister for u128 {
    const BITS: u8 = 128;

    const INDX: u8 = 7;

    const MASK: u8 = 127;

    const ZERO: u128 = 0;

    const ONE: u128 = 1;

    const ALL: u128 = u128::MAX;

    const NAME: &'static str = "u128";

    ghost BITS = { 128 };

    ghost INDX = { 7 };

    ghost MASK = { 127 };

    ghost ZERO = { 0 };

    ghost ONE = { 1 };

    ghost ALL = { 340282366920938463463374607431768211455 };

    ghost name = { codes "u128" };

    ghost number = { λ x. x };

    ghost from_number = { λ n. n };

    ghost number_back = { λ a h. refl };

    fn name_text() -> &'static str {
        Self::NAME
    }

    fn and(self, with: u128) -> u128 {
        self & with
    }

    fn or(self, with: u128) -> u128 {
        self | with
    }

    fn xor(self, with: u128) -> u128 {
        self ^ with
    }

    fn not(self) -> u128 {
        !self
    }

    fn shl(self, n: u8) -> u128 {
        self << n
    }

    fn shr(self, n: u8) -> u128 {
        self >> n
    }

    fn count_ones(self) -> u32 {
        u128::count_ones(self)
    }

    fn to_u128(self) -> u128 {
        self
    }

    fn from_u128(n: u128) -> Option<u128> {
        Some(n)
    }

    ghost width_is_power_of_two = { refl };

    ghost exponent_at_least_3 = { lit≤ tt };

    ghost exponent_at_most_7 = { lit≤ tt };

    ghost width_at_least_8 = { lit≤ tt };

    ghost width_at_most_128 = { lit≤ tt };

    ghost mask_is_greatest_index = { refl };

    ghost zero_is_0 = { refl };

    ghost one_is_1 = { refl };

    ghost all_is_greatest = { refl };

    ghost digits_injective = { same_from_digits 128 };

    ghost eq_compares_numbers = { λ a b h k. refl };

    ghost cmp_compares_numbers = { λ a b h k. refl };

    ghost default_is_zero = { λ a h. h };
}
