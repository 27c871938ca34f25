//! Candidates that are no orders, each for every register.

ghost use Rattle.std.specs.Prelude.{ℕ, ◌^◌, ◌==◌, ◌&&◌, unwrap_or, if◌then◌else◌};
ghost use Rattle.bitvec.specs.Order.{mask_start, mask_end, plain_mask_of};
ghost use Rattle.bits_text.specs.Candidate.{open_mask_of};

use bitvec::mem::BitRegister;
use bitvec::order::{Numbers, Positions, plain_mask_between, plain_selector};

/// Each index has the position 0.
pub struct Constant;

impl<R: BitRegister> Positions<R> for Constant {
    ghost at_of = { λ i. 0 };

    fn position(_index: u8) -> u8 {
        0
    }
}

/// As `Lsb0`, but the selector of index 3 is 1.
pub struct BadSelect;

impl<R: BitRegister> Positions<R> for BadSelect {
    ghost at_of = { λ i. i };

    fn position(index: u8) -> u8 {
        index
    }
}

impl<R: BitRegister> Numbers<R> for BadSelect {
    ghost select_of = { λ i. if i == 3 then 2 ^ 0 else 2 ^ i };

    ghost mask_of = { λ from upto. plain_mask_of (λ i. i) (mask_start from)
        (mask_end R.BITS upto) };

    fn selector(index: u8) -> R {
        if index == 3 {
            plain_selector::<R, BadSelect>(0)
        } else {
            plain_selector::<R, BadSelect>(index)
        }
    }

    fn mask_between(from: Option<u8>, upto: Option<u8>) -> R {
        plain_mask_between::<R, BadSelect>(from, upto)
    }
}

/// As `Lsb0`, but the mask of an absent start and the width is zero.
pub struct BadOpen;

impl<R: BitRegister> Positions<R> for BadOpen {
    ghost at_of = { λ i. i };

    fn position(index: u8) -> u8 {
        index
    }
}

impl<R: BitRegister> Numbers<R> for BadOpen {
    ghost select_of = { λ i. 2 ^ i };

    ghost mask_of = { open_mask_of R.BITS };

    fn selector(index: u8) -> R {
        plain_selector::<R, BadOpen>(index)
    }

    fn mask_between(from: Option<u8>, upto: Option<u8>) -> R {
        match (from, upto) {
            (None, Some(end)) if end == R::BITS => R::ZERO,
            _ => plain_mask_between::<R, BadOpen>(from, upto),
        }
    }
}

/// As `Lsb0`, but the mask from 2 to 5 is zero. The program has no name for it.
pub struct BadPart;

impl<R: BitRegister> Positions<R> for BadPart {
    ghost at_of = { λ i. i };

    fn position(index: u8) -> u8 {
        index
    }
}

impl<R: BitRegister> Numbers<R> for BadPart {
    ghost select_of = { λ i. 2 ^ i };

    ghost mask_of = { λ from upto. if (unwrap_or from 0 == 2) && (unwrap_or upto 0 == 5) then 0
        else plain_mask_of (λ i. i) (mask_start from) (mask_end R.BITS upto) };

    fn selector(index: u8) -> R {
        plain_selector::<R, BadPart>(index)
    }

    fn mask_between(from: Option<u8>, upto: Option<u8>) -> R {
        if from.unwrap_or(0) == 2 && upto.unwrap_or(0) == 5 {
            R::ZERO
        } else {
            plain_mask_between::<R, BadPart>(from, upto)
        }
    }
}
