//! The verifier accepts every order. The function returns whether it does; its contract is the law.

ghost use Rattle.std.specs.Prelude.{IsTrue};

use bitvec_mem::mem::BitRegister;
use bitvec_order::order::{BitOrder, Lsb0};
use bitvec_verify::verify::verify_for_type;

/// Whether the verifier accepts an order, as it does every one.
fn accepts<R: BitRegister, O: BitOrder<R>>() -> bool
    ensures { IsTrue result }
{
    verify_for_type::<R, O>().is_ok()
}

#[test]
fn every_order_is_accepted() {
    accepts::<u8, Lsb0>();
}
