//! A caller of `bit_domain_mut` that sets the first bit of each stretch of a span, lets the
//! stretches go, and knows from the clause on the ends of the loans what the whole memory is then.

ghost use Rattle.std.specs.Prelude.{◌≡◌, length, map};
ghost use Rattle.bitvec_ptr.specs.Memory.{memory_bits};
ghost use Rattle.bitvec_span.specs.Span.{Fits};
ghost use Rattle.bitvec_span.specs.BitSpan.{span_of};
ghost use Rattle.bitvec_span.specs.BitWordsMut.{words_memory};
ghost use Rattle.bitvec_span.specs.BitDomainMut.{words_loan, bit_loan_names, bit_loans_of};
ghost use Rattle.tests_span.specs.LentBits.{first_set_of, firsts_set_of, loan_bits, firsts_set};

use bitvec_mem::mem::BitRegister;
use bitvec_order::index::BitIdx;
use bitvec_order::order::{BitOrder, Lsb0};
use bitvec_span::domain::{BitDomainMut, BitWordsMut};
use bitvec_span::ptr::span::BitSpan;

// Sets the first bit of a stretch that has bits.
fn with_first<'a, R: BitRegister, O: BitOrder<R>>(
    stretch: BitWordsMut<'a, R, O>,
) -> BitWordsMut<'a, R, O>
    ensures reference { (words_memory result).ghost_name ≡ (words_memory stretch.entry).ghost_name }
    ensures bits { memory_bits R.BITS O.at_of (map R.number (words_memory result).now)
        ≡ first_set_of R.number R.BITS O.at_of (words_loan stretch.entry) }
{
    let mut stretch = stretch;
    if !stretch.is_empty() {
        stretch.replace(0, true);
    }
    stretch
}

// The same of each stretch of a domain.
fn with_firsts<'a, R: BitRegister, O: BitOrder<R>>(
    domain: BitDomainMut<'a, R, O>,
) -> BitDomainMut<'a, R, O>
    ensures names { bit_loan_names result ≡ bit_loan_names domain.entry }
    ensures bits { loan_bits R.number R.BITS O.at_of (bit_loans_of result)
        ≡ firsts_set_of R.number R.BITS O.at_of (bit_loans_of domain.entry) }
{
    match domain {
        BitDomainMut::Enclave(stretch) => BitDomainMut::Enclave(with_first(stretch)),
        BitDomainMut::Region { head, body, tail } => BitDomainMut::Region {
            head: with_first(head),
            body: with_first(body),
            tail: with_first(tail),
        },
    }
}

/// Sets the first bit of each stretch that a span has in the words of a memory.
fn set_firsts<R: BitRegister, O: BitOrder<R>>(span: BitSpan<R, O>, memory: &mut [R])
    requires { Fits R.BITS (span_of span) (length memory.old) }
    ensures { memory_bits R.BITS O.at_of (map R.number memory.new)
        ≡ firsts_set R.BITS O.at_of (span_of span) (map R.number memory.old) }
{
    let domain = with_firsts(span.bit_domain_mut(memory));
    // A stretch alone is dropped here; the loans of any other domain end with the answer `None`.
    if let Some(_stretch) = domain.enclave() {}
}

#[test]
fn sets_the_first_bit_of_each_stretch(rt: HostRuntime) {
    let mut memory = [0x00u8; 4];
    let span: BitSpan<u8, Lsb0> = BitSpan::new(0, BitIdx::new_unchecked(4), 24).unwrap();
    set_firsts(span, &mut memory);
    assert_eq!(rt; memory, [0x10, 0x01, 0x00, 0x01]);
    let inside: BitSpan<u8, Lsb0> = BitSpan::new(2, BitIdx::new_unchecked(2), 4).unwrap();
    set_firsts(inside, &mut memory);
    assert_eq!(rt; memory, [0x10, 0x01, 0x04, 0x01]);
}
