//! The lines that the program `bits` prints, for each of its calls.

pub mod candidate;
pub mod domain;
pub mod fault;
pub mod mask;
pub mod run;
pub mod spans;
pub mod verify;

use crate::lines::domain::DomainCall;
use crate::lines::fault::Fault;
use crate::lines::mask::MaskCall;
use crate::lines::run::RunCall;
use crate::names;
use std::alloc::Allocator;

/// The whole text of the answer to the arguments, or why there is none.
pub fn text<'a, A: Allocator, B: Allocator>(
    alloc: &'a A,
    args: &[String<B>],
) -> Result<String<&'a A>, Fault<&'a A>> {
    let [call, args @ ..] = args else {
        return Err(Fault::Usage);
    };
    let answer = match (call.as_str(), args) {
        ("domain", [order, register, words, start, len]) => {
            let call = DomainCall {
                alloc,
                words,
                start,
                len,
            };
            names::answer_at(order, register, &call)
        }
        ("mask", [order, register, from, upto]) => {
            names::answer_at(order, register, &MaskCall { alloc, from, upto })
        }
        ("run", [order, register, words, spans, commands]) => {
            let call = RunCall {
                alloc,
                words,
                spans,
                commands,
            };
            names::answer_at(order, register, &call)
        }
        ("verify", [candidate]) => Some(verify::text(alloc, candidate)),
        _ => None,
    };
    answer.unwrap_or(Err(Fault::Usage))
}
