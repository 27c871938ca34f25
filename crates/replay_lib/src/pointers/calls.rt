//! The calls of one pointer: what makes it, its parts, its conditions and its comparisons.

use crate::answer::Answer;
use crate::pointers::{parts_value, pointer};
use crate::values::{Value, count_of, named, number_value, signed};
use bitvec::mem::BitRegister;
use bitvec::order::Lsb0;
use bitvec::ptr::range::BitPtrRange;
use bitvec::ptr::single::{BitPtr, Dangling};

/// Writes the library's answer to a question; `None` where the words ask none.
pub fn write_answer<R: BitRegister>(out: &mut Answer, words: &[&str]) -> Option<()> {
    let value = match words {
        [name] if *name == "DANGLING" => parts_value::<R>(BitPtr::DANGLING),
        [name, memory] => {
            let mut memory = out.memory::<R>(memory)?;
            parts_value(first_of(named(&MAKERS, name)?, &mut memory)?)
        }
        [word, bit, name, details @ ..] => {
            value_of(pointer::<R>(word, bit)?, named(&CALLS, name)?, details)?
        }
        _ => return None,
    };
    out.value(value);
    Some(())
}

// What makes a pointer of a memory.
#[derive(Clone, Copy)]
enum Maker {
    Slice,
    MutSlice,
    SliceMut,
    Ref,
    Mut,
    FromRef,
    FromMut,
}

const MAKERS: [(&str, Maker); 7] = [
    ("from_slice", Maker::Slice),
    ("from_mut_slice", Maker::MutSlice),
    ("from_slice_mut", Maker::SliceMut),
    ("from_ref", Maker::Ref),
    ("from_mut", Maker::Mut),
    ("From<&R>", Maker::FromRef),
    ("From<&mut_R>", Maker::FromMut),
];

// The pointer to the first bit of a memory, or to that of its first word, by a call.
fn first_of<R: BitRegister>(maker: Maker, memory: &mut [R]) -> Option<BitPtr<R, Lsb0>> {
    match maker {
        Maker::Slice => Some(BitPtr::from_slice(memory)),
        Maker::MutSlice => Some(BitPtr::from_mut_slice(memory)),
        Maker::SliceMut => Some(BitPtr::from_slice_mut(memory)),
        Maker::Ref => Some(BitPtr::from_ref(memory.first()?)),
        Maker::Mut => Some(BitPtr::from_mut(memory.first_mut()?)),
        Maker::FromRef => Some(BitPtr::from(memory.first()?)),
        Maker::FromMut => Some(BitPtr::from(memory.first_mut()?)),
    }
}

// What is asked of a pointer.
#[derive(Clone, Copy)]
enum Call {
    Address,
    Bit,
    RawParts,
    ToRawParts,
    IsIn,
    CanOffset,
    RunIn,
    Cmp,
    Eq,
    Lt,
    Le,
    Gt,
    Ge,
    CanOffsetFrom,
    CanRange,
}

const CALLS: [(&str, Call); 15] = [
    ("address", Call::Address),
    ("bit", Call::Bit),
    ("raw_parts", Call::RawParts),
    ("to_raw_parts", Call::ToRawParts),
    ("is_in", Call::IsIn),
    ("can_offset", Call::CanOffset),
    ("run_in", Call::RunIn),
    ("cmp", Call::Cmp),
    ("==", Call::Eq),
    ("<", Call::Lt),
    ("<=", Call::Le),
    (">", Call::Gt),
    (">=", Call::Ge),
    ("can_offset_from", Call::CanOffsetFrom),
    ("can_range", Call::CanRange),
];

// A pointer's answer to a call with what it is asked of.
fn value_of<R: BitRegister>(here: BitPtr<R, Lsb0>, call: Call, details: &[&str]) -> Option<Value> {
    match (call, details) {
        (_, []) => part_of(here, call),
        (Call::IsIn, [n]) => Some(Value::Truth(here.is_in(count_of(n)?))),
        (Call::CanOffset, [n]) => Some(Value::Truth(here.can_offset(signed(n)?))),
        (Call::RunIn, [words, count]) => {
            Some(Value::Truth(here.run_in(count_of(words)?, count_of(count)?)))
        }
        (_, [word, bit]) => compared(here, call, pointer(word, bit)?),
        _ => None,
    }
}

// What a pointer is made of.
fn part_of<R: BitRegister>(pointer: BitPtr<R, Lsb0>, call: Call) -> Option<Value> {
    match call {
        Call::Address => Some(Value::Signed(pointer.address() as i128)),
        Call::Bit => Some(number_value(pointer.bit().into_inner())),
        Call::RawParts => Some(parts_value(pointer)),
        Call::ToRawParts => {
            let (word, bit) = pointer.to_raw_parts();
            Some(Value::Bit(word, bit.into_inner()))
        }
        _ => None,
    }
}

// How a pointer compares with another, and whether it has a distance from it, or bounds a range
// with it.
fn compared<R: BitRegister>(
    here: BitPtr<R, Lsb0>,
    call: Call,
    there: BitPtr<R, Lsb0>,
) -> Option<Value> {
    let is_so = match call {
        Call::Cmp => return Some(Value::Comparison(here.cmp(&there))),
        Call::Eq => here == there,
        Call::Lt => here < there,
        Call::Le => here <= there,
        Call::Gt => here > there,
        Call::Ge => here >= there,
        Call::CanOffsetFrom => here.can_offset_from(there),
        Call::CanRange => BitPtrRange::can_range(&(here..there)),
        _ => return None,
    };
    Some(Value::Truth(is_so))
}
