//! Copies and other combinations by their words: what is put, how often, and where the mark ends.
//!
//! They go through one writer of bytes, a step behind the other.

ghost use Rattle.std.specs.Prelude.{◌≡◌, ◌<◌, length, nat_abs, true, false, IsTrue};
ghost use Rattle.bitvec.specs.BitPtr.{ptr_of};
ghost use Rattle.bitvec.specs.Steps.{RangeIsIn};
ghost use Rattle.bitvec_ptr.specs.BitPtr.{far_edge};
ghost use Rattle.bitvec_ptr.specs.WordWriter.{writer_of};

use crate::answer::Answer;
use crate::memories::{Range, range_of, range_start};
use crate::values::{Value, count_of};
use bitvec::mem::BitRegister;
use bitvec::order::{BitOrder, Lsb0, Msb0};
use bitvec::ptr::single::BitPtr;
use bitvec::ptr::span::BitSpan;
use bitvec_ptr::ptr::combine::{And, Combine, Xor};
use bitvec_ptr::ptr::writer::WordWriter;

/// Writes the library's answer to a question; `None` where the words ask none.
///
/// The words are an order, the register `u8`, a memory, `rising` or `falling`, and the steps of a
/// writer of that memory. The answer is that of each step, and the memory in the end.
pub fn write_answer(out: &mut Answer, words: &[&str]) -> Option<()> {
    let [order, register, memory, direction, steps @ ..] = words else {
        return None;
    };
    if *register != "u8" || !(*direction == "rising" || *direction == "falling") {
        return None;
    }
    let mut memory = out.memory::<u8>(memory)?;
    let is_rising = *direction == "rising";
    match *order {
        "lsb0" => write_steps::<Lsb0>(out, &mut memory, is_rising, steps)?,
        "msb0" => write_steps::<Msb0>(out, &mut memory, is_rising, steps)?,
        _ => return None,
    }
    out.push(" ");
    out.words(&memory);
    Some(())
}

// Writes the answers of a writer of a memory to steps; `None` where one of them is none.
fn write_steps<O: BitOrder<u8>>(
    out: &mut Answer,
    memory: &mut [u8],
    is_rising: bool,
    steps: &[&str],
) -> Option<()> {
    let mut writer = if is_rising {
        WordWriter::rising(memory)
    } else {
        WordWriter::falling(memory)
    };
    let steps = out.joined(steps);
    for step in steps.trim_end().split(';') {
        out.begin_item();
        let words = out.pieces(step, ' ')?;
        write_step::<O>(out, &mut writer, &words)?;
    }
    Some(())
}

// Writes the answer of a writer to a step; `None` where it is none.
fn write_step<O: BitOrder<u8>>(
    out: &mut Answer,
    writer: &mut WordWriter<u8>,
    words: &[&str],
) -> Option<()> {
    match words {
        ["is_rising"] => {
            out.value(Value::Truth(writer.is_rising()));
            return Some(());
        }
        ["get", k] => {
            out.value(word_of(writer, count_of(k)?)?);
            return Some(());
        }
        ["skip_to", k] => skipped(writer, count_of(k)?)?,
        ["within", from, to, count] => { copied_within::<O>(writer, range_of(from, to, count)?)? }
        ["from", order, register, memory, from, to, count] => {
            let range = range_of(from, to, count)?;
            copied_from::<O>(out, writer, (order, register), memory, range)?
        }
        [operator, memory, from, to, count] => {
            let memory = out.memory::<u8>(memory)?;
            let range = range_of(from, to, count)?;
            match *operator {
                "and" => combined_by::<And, O>(writer, &memory, range)?,
                "xor" => combined_by::<Xor, O>(writer, &memory, range)?,
                _ => return None,
            }
        }
        _ => return None,
    }
    out.values(&[Value::Number(writer.writes()), Value::Number(writer.mark())]);
    Some(())
}

// A word of a writer as it is now; `None` where there is none.
fn word_of(writer: &WordWriter<u8>, k: usize) -> Option<Value> {
    if k < writer.len() {
        Some(Value::Word(u128::from(writer.get(k))))
    } else {
        None
    }
}

// Moves the mark of a writer to a word on its way.
fn skipped(writer: &mut WordWriter<u8>, k: usize) -> Option<()> {
    let is_on_its_way = if writer.is_rising() {
        writer.mark() <= k && k <= writer.len()
    } else {
        k <= writer.mark()
    };
    if !is_on_its_way || k > writer.len() {
        return None;
    }
    writer.skip_to(k);
    Some(())
}

// Whether a writer's mark stands at the words that `count` bits from a pointer on meet, on the side
// that it comes from.
fn stands_at<R: BitRegister, O>(writer: &WordWriter<R>, to: BitPtr<R, O>, count: usize) -> bool
    requires { RangeIsIn R.BITS (ptr_of to) (length (writer_of writer.now).words) count }
    ensures rising { IsTrue result → 0 < count → (writer_of writer.now).rising ≡ true
        → (writer_of writer.now).mark ≡ nat_abs (ptr_of to).word }
    ensures falling { IsTrue result → 0 < count → (writer_of writer.now).rising ≡ false
        → (writer_of writer.now).mark ≡ far_edge to count }
{
    let Ok(span) = BitSpan::from_bitptr(to, count) else {
        return false;
    };
    let Ok(first) = usize::try_from(to.address()) else {
        return false;
    };
    if count == 0 {
        true
    } else if writer.is_rising() {
        writer.mark() == first
    } else {
        first <= writer.mark() && writer.mark() - first == span.elements()
    }
}

// Copies bits within the memory of a writer; `None` where a range passes it, or where the writer
// stands elsewhere or goes the other way.
fn copied_within<O: BitOrder<u8>>(writer: &mut WordWriter<u8>, range: Range) -> Option<()> {
    let from = range_start::<u8, O>(writer.len(), range.from, range.count)?;
    let to = range_start::<u8, O>(writer.len(), range.to, range.count)?;
    let count = range.count as usize;
    if !stands_at(writer, to, count) || (count > 0 && writer.is_rising() != (to <= from)) {
        return None;
    }
    from.copy_within_through(to, writer, count);
    Some(())
}

// Copies bits of a memory of an order and a register to those of the writer.
fn copied_from<P: BitOrder<u8>>(
    out: &mut Answer,
    writer: &mut WordWriter<u8>,
    names: (&str, &str),
    memory: &str,
    range: Range,
) -> Option<()> {
    match names {
        ("lsb0", "u8") => copied::<u8, Lsb0, P>(writer, &out.memory::<u8>(memory)?, range),
        ("msb0", "u16") => copied::<u16, Msb0, P>(writer, &out.memory::<u16>(memory)?, range),
        ("msb0", "u128") => copied::<u128, Msb0, P>(writer, &out.memory::<u128>(memory)?, range),
        _ => None,
    }
}

// Copies bits of a memory to those of the writer.
fn copied<R: BitRegister, O: BitOrder<R>, P: BitOrder<u8>>(
    writer: &mut WordWriter<u8>,
    memory: &[R],
    range: Range,
) -> Option<()> {
    let from = range_start::<R, O>(memory.len(), range.from, range.count)?;
    let to = range_start::<u8, P>(writer.len(), range.to, range.count)?;
    let count = range.count as usize;
    if !stands_at(writer, to, count) {
        return None;
    }
    from.copy_through(memory, to, writer, count);
    Some(())
}

// Combines bits of a memory with those of the writer, both of one order.
fn combined_by<C: Combine, O: BitOrder<u8>>(
    writer: &mut WordWriter<u8>,
    memory: &[u8],
    range: Range,
) -> Option<()> {
    let from = range_start::<u8, O>(memory.len(), range.from, range.count)?;
    let to = range_start::<u8, O>(writer.len(), range.to, range.count)?;
    let count = range.count as usize;
    if !stands_at(writer, to, count) {
        return None;
    }
    from.combine_through::<C, u8, O>(memory, to, writer, count);
    Some(())
}
