//! Questions of one memory: a bit read, written or replaced, two bits exchanged, a range of bits
//! copied.

ghost use Rattle.std.specs.Prelude.{◌≤◌, ◌≤ℤ◌, ◌+ℤ◌, pos, IfSome, IsTrue};
ghost use Rattle.std.specs.Int.{int_div_euclid};
ghost use Rattle.bitvec.specs.BitPtr.{ptr_of};
ghost use Rattle.bitvec.specs.Place.{place_of, region_max_bits};
ghost use Rattle.bitvec.specs.Steps.{IsIn, RangeIsIn, AreApart};

use crate::answer::Answer;
use crate::values::{bit_value, is_one, named};
use bits_text::number::place;
use bits_text::places::pointer_at;
use bitvec::mem::BitRegister;
use bitvec::order::BitOrder;
use bitvec::ptr::single::BitPtr;
use bitvec::ptr::span::BitSpan;

/// Writes the answer to a question of a memory; `None` where the words ask none.
///
/// The kinds are `read`, `write`, `replace`, `swap` and `copy`; a copy may name its call last.
pub fn write_answer<R: BitRegister, O: BitOrder<R>>(
    out: &mut Answer,
    kind: &str,
    words: &[&str],
) -> Option<()> {
    let [memory, details @ ..] = words else {
        return None;
    };
    let mut memory = out.memory::<R>(memory)?;
    let access = access_of(kind, details)?;
    let bit = done::<R, O>(access, &mut memory)?;
    if bit.is_some() {
        out.value(bit_value(bit));
    }
    match access {
        Access::Read(_) => {}
        Access::Replace(..) => {
            out.push(" ");
            out.words(&memory);
        }
        _ => out.words(&memory),
    }
    Some(())
}

// Ways to copy within a memory.
#[derive(Clone, Copy)]
enum Copying {
    Within,
    FromWithin,
    Nonoverlapping,
}

const COPYINGS: [(&str, Copying); 3] = [
    ("copy_within", Copying::Within),
    ("copy_from_within", Copying::FromWithin),
    ("copy_within_nonoverlapping", Copying::Nonoverlapping),
];

// An access to a memory, at places.
#[derive(Clone, Copy)]
enum Access {
    Read(u64),
    Write(u64, bool),
    Replace(u64, bool),
    Swap(u64, u64),
    Copy(Copying, Range),
}

/// Two places and a length.
#[derive(Clone, Copy)]
pub struct Range {
    pub from: u64,
    pub to: u64,
    pub count: u64,
}

/// The range of three texts.
pub fn range_of(from: &str, to: &str, count: &str) -> Option<Range> {
    Some(Range {
        from: place(from)?,
        to: place(to)?,
        count: place(count)?,
    })
}

// The access that the words of a kind ask.
fn access_of(kind: &str, words: &[&str]) -> Option<Access> {
    match (kind, words) {
        ("read", [at]) => Some(Access::Read(place(at)?)),
        ("write", [at, bit]) => Some(Access::Write(place(at)?, is_one(bit)?)),
        ("replace", [at, bit]) => Some(Access::Replace(place(at)?, is_one(bit)?)),
        ("swap", [one, two]) => Some(Access::Swap(place(one)?, place(two)?)),
        ("copy", [from, to, count]) => {
            Some(Access::Copy(Copying::Within, range_of(from, to, count)?))
        }
        ("copy", [from, to, count, name]) => {
            Some(Access::Copy(named(&COPYINGS, name)?, range_of(from, to, count)?))
        }
        _ => None,
    }
}

// Does an access, and gives the bit that it read; `None` where one of its places is past the
// memory.
fn done<R: BitRegister, O: BitOrder<R>>(access: Access, memory: &mut [R]) -> Option<Option<bool>> {
    match access {
        Access::Read(at) => {
            let pointer = pointer_in::<R, O>(memory.len(), at)?;
            return Some(Some(pointer.read(memory)));
        }
        Access::Write(at, bit) => pointer_in::<R, O>(memory.len(), at)?.write(memory, bit),
        Access::Replace(at, bit) => {
            let pointer = pointer_in::<R, O>(memory.len(), at)?;
            return Some(Some(pointer.replace(memory, bit)));
        }
        Access::Swap(one, two) => {
            let one = pointer_in::<R, O>(memory.len(), one)?;
            let two = pointer_in::<R, O>(memory.len(), two)?;
            one.swap_within(memory, two);
        }
        Access::Copy(copying, range) => copied::<R, O>(copying, range, memory)?,
    }
    Some(None)
}

// Copies bits from a place on to those from another place on.
fn copied<R: BitRegister, O: BitOrder<R>>(
    copying: Copying,
    range: Range,
    memory: &mut [R],
) -> Option<()> {
    let from = range_start::<R, O>(memory.len(), range.from, range.count)?;
    let to = range_start::<R, O>(memory.len(), range.to, range.count)?;
    let count = range.count as usize;
    match copying {
        Copying::Within => from.copy_within(memory, to, count),
        Copying::FromWithin => to.copy_from_within(memory, from, count),
        Copying::Nonoverlapping if are_apart(from, to, count) => {
            from.copy_within_nonoverlapping(memory, to, count)
        }
        Copying::Nonoverlapping => return None,
    }
    Some(())
}

// Whether `count` bits from two pointers on are two spans that have no bit in common.
fn are_apart<R: BitRegister, O>(from: BitPtr<R, O>, to: BitPtr<R, O>, count: usize) -> bool
    ensures short { IsTrue result → count ≤ region_max_bits }
    ensures from_low { IsTrue result → int_div_euclid (place_of R.BITS (ptr_of from) +ℤ pos count)
        (pos R.BITS) ≤ℤ isize.MAX }
    ensures to_low { IsTrue result → int_div_euclid (place_of R.BITS (ptr_of to) +ℤ pos count)
        (pos R.BITS) ≤ℤ isize.MAX }
    ensures apart { IsTrue result → AreApart R.BITS (ptr_of from) (ptr_of to) count }
{
    let Ok(here) = BitSpan::from_bitptr(from, count) else {
        return false;
    };
    let Ok(there) = BitSpan::from_bitptr(to, count) else {
        return false;
    };
    here.is_disjoint(&there)
}

/// The pointer to a place in a memory of `words` words, or `None` where it is past it.
pub fn pointer_in<R: BitRegister, O>(words: usize, at: u64) -> Option<BitPtr<R, O>>
    ensures { IfSome result (λ pointer. IsIn (ptr_of pointer) words) }
{
    let pointer = pointer_at::<R, O>(at);
    if pointer.is_in(words) {
        Some(pointer)
    } else {
        None
    }
}

/// The pointer to the first place of a range in a memory of `words` words, or `None` where the
/// range passes it.
pub fn range_start<R: BitRegister, O>(words: usize, at: u64, count: u64) -> Option<BitPtr<R, O>>
    ensures { IfSome result (λ pointer. RangeIsIn R.BITS (ptr_of pointer) words count) }
{
    let pointer = pointer_at::<R, O>(at);
    if pointer.run_in(words, count as usize) {
        Some(pointer)
    } else {
        None
    }
}
