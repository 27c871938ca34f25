//! Calls by the names of registers and orders, and that the names say which call was made.

ghost use Rattle.std.specs.Prelude.{◌≡◌, IfSome};
ghost use Rattle.bits_text.specs.Names.{named_position, named_width};

use bits_text::names::{Call, answer_at};
use bitvec::index::BitIdx;
use bitvec::mem::BitRegister;
use bitvec::order::BitOrder;

// Answers the register's name, and the position of index 1.
struct NameAndSecond;

impl Call for NameAndSecond {
    type Answer = (&'static str, u8);

    ghost answers = { λ _ register at answer. (answer.0.now ≡ register) × (answer.1 ≡ at 1) };

    fn at<R: BitRegister, O: BitOrder<R>>(&self) -> (&'static str, u8) {
        let second = BitIdx::<R>::new_unchecked(1);
        (R::name_text(), second.position::<O>().into_inner())
    }
}

// Both are those that the names say.
fn name_and_second(order: &str, register: &str) -> Option<(&'static str, u8)>
    ensures { IfSome result (λ answer. (answer.0.now ≡ register.now)
        × (answer.1 ≡ named_position order.now (named_width register.now) 1)) }
{
    answer_at(order, register, &NameAndSecond)
}

// At given names they are known.
fn second_of_a_reversed_u16() -> u8
    ensures { result ≡ 14 }
{
    match answer_at("msb0", "u16", &NameAndSecond) {
        Some((_, position)) => position,
        None => 0,
    }
}

#[test]
fn names_choose_the_call(rt: HostRuntime) {
    assert_eq!(rt; second_of_a_reversed_u16(), 14);
    for (register, reversed) in [
        ("u8", 6),
        ("u16", 14),
        ("u32", 30),
        ("u64", 62),
        ("usize", 62),
        ("u128", 126),
    ] {
        assert_eq!(rt;
            [
                name_and_second("lsb0", register),
                name_and_second("msb0", register),
                name_and_second("hilo", register),
                name_and_second("hilo ", register)
            ],
            [
                Some((register, 1)),
                Some((register, reversed)),
                Some((register, 5)),
                None
            ]
        );
    }
}
