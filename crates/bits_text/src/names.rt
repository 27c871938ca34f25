//! The names of registers and orders.

ghost use Rattle.std.specs.Prelude.{⊤, ℕ, List, IfSome, IsSome, ◌↔◌};
ghost use Rattle.bits_text.specs.Names.{IsOrderName, IsRegisterName, named_position, named_width};

use crate::hilo::HiLo;
use bitvec::mem::BitRegister;
use bitvec::order::{BitOrder, Lsb0, Msb0};

/// A call for one register and one order.
pub trait Call {
    /// What it returns.
    type Answer;

    // What an answer says of the call, of the register's name and of the order's positions. A call
    // that promises nothing leaves this as it is.
    ghost answers: { Self → List ℕ → (ℕ → ℕ) → Self.Answer
        → Type 0 } = { λ _ _ _ _. ⊤ };

    /// The answer.
    fn at<R: BitRegister, O: BitOrder<R>>(&self) -> Self::Answer
        ensures { answers self.now R.name O.at_of result };
}

/// The answer of a call for the order and the register of these names, or `None` where one of them
/// is no name.
pub fn answer_at<C: Call>(order: &str, register: &str, call: &C) -> Option<C::Answer>
    ensures names { IsSome result ↔ IsOrderName order.now × IsRegisterName register.now }
    ensures answer { IfSome result (C.answers call.now register.now
        (named_position order.now (named_width register.now))) }
{
    match register {
        "u8" => under::<u8, C>(order, call),
        "u16" => under::<u16, C>(order, call),
        "u32" => under::<u32, C>(order, call),
        "u64" => under::<u64, C>(order, call),
        "usize" => under::<usize, C>(order, call),
        "u128" => under::<u128, C>(order, call),
        _ => None,
    }
}

/// The answer of a call for the order of this name, or `None` where it is no name.
pub fn under<R: BitRegister, C: Call>(order: &str, call: &C) -> Option<C::Answer>
    ensures names { IsSome result ↔ IsOrderName order.now }
    ensures answer { IfSome result (C.answers call.now R.name (named_position order.now R.BITS)) }
{
    match order {
        "lsb0" => Some(call.at::<R, Lsb0>()),
        "msb0" => Some(call.at::<R, Msb0>()),
        "hilo" => Some(call.at::<R, HiLo>()),
        _ => None,
    }
}
