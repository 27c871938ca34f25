//! What equality and copy of commands, of requests and of replies are, and which order each name
//! stands for.
//!
//! Each function does what its name says, and its contract is the promise: so a body of an impl
//! that breaks it is refused, though no contract of the layer names it.

ghost use Rattle.std.specs.Prelude.{◌≡◌, ◌↔◌, ◌-◌, IsTrue, IfOk};

use bitvec::index::{BitIdx, BitPos};
use bitvec::mem::BitRegister;
use bitvec::order::{BitAt, LocalBits, Lsb0, Msb0};
use bitvec::run::{Command, Reply, Request};
use std::alloc::AllocError;

// Commands, requests and replies are their parts, where `==` of the register says which words are
// the same.

fn equal_commands<R: Eq>(here: &Command<R>, there: &Command<R>) -> bool
    ensures { ((a b : R) → IsTrue (R.eq a b) ↔ (a ≡ b))
        → (IsTrue result ↔ (here.now ≡ there.now)) }
{
    *here == *there
}

fn equal_requests<R: Eq>(here: &Request<R>, there: &Request<R>) -> bool
    ensures { ((a b : R) → IsTrue (R.eq a b) ↔ (a ≡ b))
        → (IsTrue result ↔ (here.now ≡ there.now)) }
{
    *here == *there
}

fn equal_replies<R: Eq>(here: &Reply<R>, there: &Reply<R>) -> bool
    ensures { ((a b : R) → IsTrue (R.eq a b) ↔ (a ≡ b))
        → (IsTrue result ↔ (here.now ≡ there.now)) }
{
    *here == *there
}

// A copy of one is itself, where a copy of a word is.

fn copied_command<R: Clone>(command: &Command<R>) -> Result<Command<R>, AllocError>
    ensures { ((a b : R) → R.is_clone a b → b ≡ a) → IfOk result (λ copy. copy ≡ command.now) }
{
    command.clone()
}

fn copied_request<R: Clone>(request: &Request<R>) -> Result<Request<R>, AllocError>
    ensures { ((a b : R) → R.is_clone a b → b ≡ a) → IfOk result (λ copy. copy ≡ request.now) }
{
    request.clone()
}

fn copied_reply<R: Clone>(reply: &Reply<R>) -> Result<Reply<R>, AllocError>
    ensures { ((a b : R) → R.is_clone a b → b ≡ a) → IfOk result (λ copy. copy ≡ reply.now) }
{
    reply.clone()
}

// Which order each name stands for: by the position of an index.

fn position_in_lsb0<R: BitRegister>(index: BitIdx<R>) -> BitPos<R>
    ensures { result ≡ index }
{
    <Lsb0 as BitAt<R>>::at(index)
}

fn position_in_msb0<R: BitRegister>(index: BitIdx<R>) -> BitPos<R>
    ensures { result ≡ R.MASK - index }
{
    <Msb0 as BitAt<R>>::at(index)
}

fn position_in_local_bits<R: BitRegister>(index: BitIdx<R>) -> BitPos<R>
    ensures { result ≡ index }
{
    <LocalBits as BitAt<R>>::at(index)
}
