//! What registers, orders and places have no part in, as calls whose contracts are the laws.
//!
//! Each speaks of the commands of one span alone, the definition that the contract of
//! [`run`](crate::run::run) says a span's replies and list by. So with that contract a law carries
//! to any two calls of `run`. Neither is in the Rust crate.

ghost use Rattle.bitvec.specs.Laws.{BitCommandsAgree, TurnedOrdersAgree};

use crate::mem::BitRegister;
use crate::order::BitOrder;

/// Bit commands know nothing of the register, the order or the place.
///
/// In each of two memories, of registers and orders of their own, lie n spans, and span s of the
/// one has the same list as span s of the other. Then the same requests of `Read`, `Replace`,
/// `Swap`, `Copy` and `Fill` alone get each span the same replies, and leave it equal lists. It
/// does nothing when it runs.
pub fn bit_commands<R: BitRegister, O: BitOrder<R>, R2: BitRegister, O2: BitOrder<R2>>()
    ensures { BitCommandsAgree R.number R.BITS O.at_of R2.number R2.BITS O2.at_of }
{}

/// An order changes only where a bit lies.
///
/// A number is turned from one order to another where its digit at the position of each index in
/// the other is the digit at the index's position in the one. In each of two memories, under orders
/// of their own, lie n spans, and span s of the one has the same head and the same list as span s
/// of the other. Then the same requests, with the numbers of `Store` turned, get each span the same
/// replies, with the numbers of `Word` turned, and leave it equal lists. So it is for the same
/// spans in memories with the same bits, and for spans that were moved by whole words. It does
/// nothing when it runs.
pub fn turned_orders<R: BitRegister, O: BitOrder<R>, O2: BitOrder<R>>()
    ensures { TurnedOrdersAgree R.number R.BITS O.at_of O2.at_of }
{}
