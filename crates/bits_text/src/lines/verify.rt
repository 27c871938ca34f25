//! The line of `bits verify`: whether a candidate is a lawful order, and otherwise its first fault.

use crate::hilo::HiLo;
use crate::lines::candidate::{BadOpen, BadSelect, Constant};
use crate::lines::fault::Fault;
use bitvec::index::{BitEnd, BitIdx};
use bitvec::mem::BitRegister;
use bitvec::order::{
    ByNumbers, ByPosition, Lsb0, Msb0, OrderCandidate, OrderFault, VerifyFault, verify,
};
use std::alloc::{AllocError, Allocator};
use std::fmt::{self, Write as _};

/// The text of the answer for the candidate of that name.
pub fn text<'a, A: Allocator>(
    alloc: &'a A,
    candidate: &str,
) -> Result<String<&'a A>, Fault<&'a A>> {
    let mut text = String::new(alloc);
    let verified = match candidate {
        "lsb0" => verify::<Lsb0>(),
        "msb0" => verify::<Msb0>(),
        "hilo" => verify::<HiLo>(),
        "const" => verify::<ByPosition<Constant>>(),
        "badsel" => verify::<ByNumbers<BadSelect>>(),
        "badopen" => verify::<ByNumbers<BadOpen>>(),
        _ => return Err(Fault::Usage),
    };
    match verified {
        Ok(()) => writeln!(text, "ok")?,
        Err(VerifyFault::U8(fault)) => write_line(&mut text, fault)?,
        Err(VerifyFault::U16(fault)) => write_line(&mut text, fault)?,
        Err(VerifyFault::U32(fault)) => write_line(&mut text, fault)?,
        Err(VerifyFault::Usize(fault)) => write_line(&mut text, fault)?,
        Err(VerifyFault::U64(fault)) => write_line(&mut text, fault)?,
        Err(VerifyFault::U128(fault)) => write_line(&mut text, fault)?,
    }
    Ok(text)
}

// A bound as text: its number, or `-` where it is absent.
#[derive(Clone, Copy)]
struct Bound(Option<u8>);

impl fmt::Display for Bound {
    fn fmt<W: fmt::Write>(&self, f: &mut fmt::Formatter<W>) -> fmt::Result {
        match self.0 {
            Some(n) => write!(f, "{n}"),
            None => f.write_str("-"),
        }
    }
}

// The line of a fault, after its register.
fn write_line<R: BitRegister, A: Allocator>(
    text: &mut String<A>,
    fault: OrderFault<R>,
) -> Result<(), AllocError> {
    let register = R::name_text();
    write!(text, "{register} ")?;
    write_fault(text, fault)?;
    writeln!(text)
}

/// Writes what was tested, and what was got and wanted.
pub fn write_fault<R: BitRegister, A: Allocator>(
    text: &mut String<A>,
    fault: OrderFault<R>,
) -> Result<(), AllocError> {
    match fault {
        OrderFault::Select { index, got, want } => {
            let index = index.into_inner();
            write!(text, "select {index} got {got} want {want}")
        }
        OrderFault::Repeated { index, position } => {
            let index = index.into_inner();
            let position = position.into_inner();
            write!(text, "repeated {index} position {position}")
        }
        OrderFault::Mask {
            from,
            upto,
            got,
            want,
        } => {
            let from = Bound(from.map(|index: BitIdx<R>| index.into_inner()));
            let upto = Bound(upto.map(|end: BitEnd<R>| end.into_inner()));
            write!(text, "mask {from} {upto} got {got} want {want}")
        }
    }
}
