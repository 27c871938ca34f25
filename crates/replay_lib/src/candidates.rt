//! Candidates for orders, and the first fault of each.

use crate::answer::Answer;
use bits_text::hilo::HiLo;
use bits_text::lines::candidate::{BadOpen, BadPart, BadSelect, Constant};
use bits_text::lines::verify::write_fault;
use bitvec::mem::BitRegister;
use bitvec::order::{ByNumbers, ByPosition, Lsb0, Msb0, OrderFault, verify_for_type};

/// Writes `ok` for a candidate that is an order of the register, or its first fault; `None` where
/// the words name none.
pub fn write_answer<R: BitRegister>(out: &mut Answer, words: &[&str]) -> Option<()> {
    let [candidate] = words else {
        return None;
    };
    match verified::<R>(candidate)? {
        Ok(()) => out.push("ok"),
        Err(fault) => {
            let written = write_fault(&mut out.text, fault);
            out.note(written);
        }
    }
    Some(())
}

// What the verifier says of the candidate of a name; `None` where there is none.
fn verified<R: BitRegister>(candidate: &str) -> Option<Result<(), OrderFault<R>>> {
    match candidate {
        "lsb0" => Some(verify_for_type::<R, Lsb0>()),
        "msb0" => Some(verify_for_type::<R, Msb0>()),
        "hilo" => Some(verify_for_type::<R, HiLo>()),
        "const" => Some(verify_for_type::<R, ByPosition<Constant>>()),
        "badsel" => Some(verify_for_type::<R, ByNumbers<BadSelect>>()),
        "badopen" => Some(verify_for_type::<R, ByNumbers<BadOpen>>()),
        "badpart" => Some(verify_for_type::<R, ByNumbers<BadPart>>()),
        _ => None,
    }
}
