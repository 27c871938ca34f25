//! A caller of `domain_mut` that edits each part and each whole word of a span, lets them go, and
//! knows from the clause on the ends of the loans what the whole memory is then.

ghost use Rattle.std.specs.Prelude.{◌≡◌, length, map, replicate, option_map};
ghost use Rattle.bitvec_span.specs.Span.{Fits};
ghost use Rattle.bitvec_span.specs.BitSpan.{span_of, Becomes};
ghost use Rattle.bitvec_span.specs.PartialElementMut.{memory_of};
ghost use Rattle.bitvec_span.specs.Loans.{words_of_loans};
ghost use Rattle.bitvec_span.specs.DomainMut.{part_name, part_loan, loan_names, loans_of};
ghost use Rattle.tests_span.specs.FilledDomain.{word_of_bit, loan_numbers, filled_loan, filled_loans};
ghost use Rattle.tests_span.specs.FilledDomain.{filled_memory, numbers_of_words};

use bitvec_mem::mem::BitRegister;
use bitvec_order::index::BitIdx;
use bitvec_order::order::{BitOrder, Lsb0};
use bitvec_span::domain::{DomainMut, PartialElementMut};
use bitvec_span::ptr::span::BitSpan;

// Makes each bit of some words the same.
fn fill_words<R: BitRegister>(words: &mut [R], bit: bool)
    ensures { map R.number words.new ≡ replicate (length words.old) (word_of_bit R.BITS bit) }
{
    let word = if bit { R::ALL } else { R::ZERO };
    let mut k = 0;
    while k < words.len() {
        words[k] = word;
        k += 1;
    }
}

// Makes each bit of a part the same.
fn filled_part<'a, R: BitRegister, O: BitOrder<R>>(
    part: PartialElementMut<'a, R, O>,
    bit: bool,
) -> PartialElementMut<'a, R, O>
    ensures reference { (memory_of result).ghost_name ≡ (memory_of part.entry).ghost_name }
    ensures words { map R.number (memory_of result).now
        ≡ filled_loan R.number R.BITS O.at_of bit (part_loan part.entry) }
{
    let mut part = part;
    if bit {
        part.set();
    } else {
        part.clear();
    }
    part
}

// The same of a part that may not be there.
fn filled_part_if<'a, R: BitRegister, O: BitOrder<R>>(
    part: Option<PartialElementMut<'a, R, O>>,
    bit: bool,
) -> Option<PartialElementMut<'a, R, O>>
    ensures reference { part_name result ≡ part_name part.entry }
    ensures words { loan_numbers R.number (option_map part_loan result)
        ≡ option_map (filled_loan R.number R.BITS O.at_of bit) (option_map part_loan part.entry) }
{
    match part {
        Some(part) => Some(filled_part(part, bit)),
        None => None,
    }
}

// Makes each bit of a domain the same.
fn filled_domain<'a, R: BitRegister, O: BitOrder<R>>(
    domain: DomainMut<'a, R, O>,
    bit: bool,
) -> DomainMut<'a, R, O>
    ensures names { loan_names result ≡ loan_names domain.entry }
    ensures words { numbers_of_words R.number (words_of_loans (loans_of result))
        ≡ filled_loans R.number R.BITS O.at_of bit (loans_of domain.entry) }
{
    match domain {
        DomainMut::Enclave(part) => DomainMut::Enclave(filled_part(part, bit)),
        DomainMut::Region { head, body, tail } => {
            fill_words(body, bit);
            let head = filled_part_if(head, bit);
            let tail = filled_part_if(tail, bit);
            DomainMut::Region { head, body, tail }
        }
    }
}

// Makes each bit of a span in a memory the same, by the parts that the memory is lent as.
fn fill_lent<R: BitRegister, O: BitOrder<R>>(span: BitSpan<R, O>, memory: &mut [R], bit: bool)
    requires { Fits R.BITS (span_of span) (length memory.old) }
    ensures { map R.number memory.new
        ≡ filled_memory R.BITS O.at_of bit (span_of span) (map R.number memory.old) }
{
    let domain = filled_domain(span.domain_mut(memory), bit);
    // A part alone is dropped here; the loans of any other domain end with the answer `None`.
    if let Some(_part) = domain.enclave() {}
}

/// Makes each bit of a span in a memory the same, and leaves every other bit as it is.
fn fill_by_parts<R: BitRegister, O: BitOrder<R>>(span: BitSpan<R, O>, memory: &mut [R], bit: bool)
    requires { Fits R.BITS (span_of span) (length memory.old) }
    ensures { Becomes span O.at_of memory.old memory.new (replicate (span_of span).len bit) }
{
    fill_lent(span, memory, bit);
}

#[test]
fn fills_the_parts_of_a_span(rt: HostRuntime) {
    let mut memory = [0x12u8, 0x34, 0x56];
    let span: BitSpan<u8, Lsb0> = BitSpan::new(0, BitIdx::new_unchecked(4), 12).unwrap();
    fill_by_parts(span, &mut memory, true);
    assert_eq!(rt; memory, [0xF2, 0xFF, 0x56]);
}
