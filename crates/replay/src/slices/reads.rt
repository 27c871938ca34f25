//! What slices read.

use crate::slices::texts;
use bitvec::mem::BitRegister;
use bitvec::order::BitOrder;
use bitvec_slice::slice::{BitSlice, Iter, IterOnes, IterZeros};
use replay_lib::answer::Answer;
use replay_lib::values::{Value, bit_value, count_of, place_value};

// What is asked of a slice, to which a value is the answer.
#[derive(Clone, Copy)]
pub(super) enum Read {
    Len,
    CountOnes,
    CountZeros,
    LeadingZeros,
    LeadingOnes,
    TrailingZeros,
    TrailingOnes,
    FirstOne,
    FirstZero,
    LastOne,
    LastZero,
    FindZeros,
    FindZerosFrom,
    First,
    Last,
    Get,
    IsEmpty,
    Any,
    NotAny,
    AllOnes,
    NotAll,
}

pub(super) const READS: [(&str, Read); 21] = [
    ("len", Read::Len),
    ("count_ones", Read::CountOnes),
    ("count_zeros", Read::CountZeros),
    ("leading_zeros", Read::LeadingZeros),
    ("leading_ones", Read::LeadingOnes),
    ("trailing_zeros", Read::TrailingZeros),
    ("trailing_ones", Read::TrailingOnes),
    ("first_one", Read::FirstOne),
    ("first_zero", Read::FirstZero),
    ("last_one", Read::LastOne),
    ("last_zero", Read::LastZero),
    ("find_zeros", Read::FindZeros),
    ("find_zeros_from", Read::FindZerosFrom),
    ("first", Read::First),
    ("last", Read::Last),
    ("get", Read::Get),
    ("is_empty", Read::IsEmpty),
    ("any", Read::Any),
    ("not_any", Read::NotAny),
    ("all_ones", Read::AllOnes),
    ("not_all", Read::NotAll),
];

// What a slice answers to a call with numbers.
pub(super) fn value_of<R: BitRegister, O: BitOrder<R>>(
    slice: BitSlice<R, O>,
    read: Read,
    n: [usize; 3],
) -> Value {
    match read {
        Read::Len => Value::Number(slice.len()),
        Read::CountOnes => Value::Number(slice.count_ones()),
        Read::CountZeros => Value::Number(slice.count_zeros()),
        Read::LeadingZeros => Value::Number(slice.leading_zeros()),
        Read::LeadingOnes => Value::Number(slice.leading_ones()),
        Read::TrailingZeros => Value::Number(slice.trailing_zeros()),
        Read::TrailingOnes => Value::Number(slice.trailing_ones()),
        Read::FirstOne => place_value(slice.first_one()),
        Read::FirstZero => place_value(slice.first_zero()),
        Read::LastOne => place_value(slice.last_one()),
        Read::LastZero => place_value(slice.last_zero()),
        Read::FindZeros => place_value(slice.find_zeros(n[0])),
        Read::FindZerosFrom => place_value(zeros_from(slice, n)),
        Read::First => bit_value(slice.first()),
        Read::Last => bit_value(slice.last()),
        Read::Get => bit_value(slice.get(n[0])),
        Read::IsEmpty => Value::Truth(slice.is_empty()),
        Read::Any => Value::Truth(slice.any()),
        Read::NotAny => Value::Truth(slice.not_any()),
        Read::AllOnes => Value::Truth(slice.all_ones()),
        Read::NotAll => Value::Truth(slice.not_all()),
    }
}

// The first index, not before one and a multiple of a number, from which on a number of bits are
// zero.
fn zeros_from<R: BitRegister, O: BitOrder<R>>(
    slice: BitSlice<R, O>,
    n: [usize; 3],
) -> Option<usize> {
    let [start, count, multiple_of] = n;
    if multiple_of == 0 {
        return None;
    }
    slice.find_zeros_from(start, count, multiple_of)
}

// What is asked of a slice, to which a list is the answer.
#[derive(Clone, Copy)]
pub(super) enum List {
    AllBits,
    GetRange,
    SplitAt,
    Finds,
    Texts,
    Bits,
    Ones,
    Zeros,
}

pub(super) const LISTS: [(&str, List); 8] = [
    ("all_bits", List::AllBits),
    ("get_range", List::GetRange),
    ("split_at", List::SplitAt),
    ("finds", List::Finds),
    ("texts", List::Texts),
    ("iter", List::Bits),
    ("iter_ones", List::Ones),
    ("iter_zeros", List::Zeros),
];

// Writes the list that a slice answers to a call.
pub(super) fn write_list_of<R: BitRegister, O: BitOrder<R>>(
    out: &mut Answer,
    slice: BitSlice<R, O>,
    list: List,
    details: &[&str],
) -> Option<()> {
    match (list, details) {
        (List::AllBits, []) => write_list(out, slice),
        (List::Finds, []) => write_finds(out, slice),
        (List::Texts, []) => texts::write_texts(out, &slice),
        (List::GetRange, [from, to]) => match slice.get_range(count_of(from)?, count_of(to)?) {
            Some(part) => write_list(out, part),
            None => out.push("none"),
        },
        (List::SplitAt, [mid]) => write_halves(out, slice, count_of(mid)?)?,
        (List::Bits, [pattern]) => write_items(out, Items::Bits(slice.iter()), pattern)?,
        (List::Ones, [pattern]) => write_items(out, Items::Ones(slice.iter_ones()), pattern)?,
        (List::Zeros, [pattern]) => write_items(out, Items::Zeros(slice.iter_zeros()), pattern)?,
        _ => return None,
    }
    Some(())
}

// Writes the bits of a slice, asked for one after the other until there is none, or `-` for none.
pub(super) fn write_list<R: BitRegister, O: BitOrder<R>>(out: &mut Answer, slice: BitSlice<R, O>) {
    if slice.get(0).is_none() {
        out.push("-");
    }
    for i in 0..slice.len().saturating_add(1) {
        match slice.get(i) {
            Some(bit) => out.push(if bit { "1" } else { "0" }),
            None => return,
        }
    }
    out.push("+");
}

// Writes the bits before a place and those from it on.
fn write_halves<R: BitRegister, O: BitOrder<R>>(
    out: &mut Answer,
    slice: BitSlice<R, O>,
    mid: usize,
) -> Option<()> {
    if mid > slice.len() {
        return None;
    }
    let (front, back) = slice.split_at(mid);
    write_list(out, front);
    out.push(" ");
    write_list(out, back);
    Some(())
}

// Writes a slice's answers to calls, with a space before each.
fn write_each<R: BitRegister, O: BitOrder<R>>(
    out: &mut Answer,
    slice: BitSlice<R, O>,
    reads: &[Read],
) {
    for read in reads {
        out.push(" ");
        out.value(value_of(slice, *read, [0, 0, 0]));
    }
}

// What `reads` asks, behind the bits.
const COUNTS: [Read; 7] = [
    Read::Len,
    Read::CountOnes,
    Read::CountZeros,
    Read::FirstOne,
    Read::FirstZero,
    Read::Any,
    Read::AllOnes,
];

// Writes a slice's bits, how many there are, how many are one and how many zero, where the first of
// each is, whether any is one, and whether all are.
pub(super) fn write_reads<R: BitRegister, O: BitOrder<R>>(out: &mut Answer, slice: BitSlice<R, O>) {
    write_list(out, slice);
    write_each(out, slice, &COUNTS);
}

// What `finds` asks, behind the last one.
const ENDS: [Read; 5] = [
    Read::LastZero,
    Read::LeadingZeros,
    Read::LeadingOnes,
    Read::TrailingZeros,
    Read::TrailingOnes,
];

// Writes where a slice's last one and its last zero are, how many zeros and ones begin it and end
// it, the places of its ones and of its zeros, and where a number of zeros stand in a row, for each
// number of them to 9.
fn write_finds<R: BitRegister, O: BitOrder<R>>(out: &mut Answer, slice: BitSlice<R, O>) {
    out.value(place_value(slice.last_one()));
    write_each(out, slice, &ENDS);
    out.push(";");
    for i in slice.iter_ones() {
        out.push(" ");
        out.value(Value::Number(i));
    }
    out.push(";");
    for i in slice.iter_zeros() {
        out.push(" ");
        out.value(Value::Number(i));
    }
    out.push(";");
    for count in 0..10 {
        out.push(" ");
        out.value(value_of(slice, Read::FindZeros, [count, 0, 0]));
    }
}

// What goes over a slice.
#[derive(Drop)]
enum Items<'a, R: BitRegister, O: BitOrder<R>> {
    Bits(Iter<'a, R, O>),
    Ones(IterOnes<'a, R, O>),
    Zeros(IterZeros<'a, R, O>),
}

// The next item from the front, or from the back.
fn next_item<R: BitRegister, O: BitOrder<R>>(items: &mut Items<R, O>, is_front: bool) -> Value {
    match (items, is_front) {
        (Items::Bits(bits), true) => bit_value(bits.next()),
        (Items::Bits(bits), false) => bit_value(bits.next_back()),
        (Items::Ones(places), true) => place_value(places.next()),
        (Items::Ones(places), false) => place_value(places.next_back()),
        (Items::Zeros(places), true) => place_value(places.next()),
        (Items::Zeros(places), false) => place_value(places.next_back()),
    }
}

// Writes an item for each letter of a pattern, `f` from the front and `b` from the back, or `-`
// where none is left.
fn write_items<R: BitRegister, O: BitOrder<R>>(
    out: &mut Answer,
    items: Items<R, O>,
    pattern: &str,
) -> Option<()> {
    let mut items = items;
    for letter in pattern.chars() {
        out.item(&[next_item(&mut items, is_front(letter)?)]);
    }
    out.end_list();
    Some(())
}

// Whether a letter of a pattern asks from the front.
pub(super) fn is_front(letter: char) -> Option<bool> {
    match letter {
        'f' => Some(true),
        'b' => Some(false),
        _ => None,
    }
}
