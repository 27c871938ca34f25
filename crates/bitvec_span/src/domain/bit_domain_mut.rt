//! The bits of a span by the words in which they lie, for writing.

ghost use Rattle.std.specs.Prelude.{◌≡◌, ◌/◌, ◌≤◌, true, false, if◌then◌else◌, MatchOption};
ghost use Rattle.std.specs.Prelude.{Some, None, IsNone, is_some, length, map, option_map};
ghost use Rattle.std.specs.Borrow.{sem};
ghost use Rattle.bitvec_span.specs.Span.{region_max_bits, Fits};
ghost use Rattle.bitvec_span.specs.Parts.{HasShortBody, parts_of};
ghost use Rattle.bitvec_span.specs.Loans.{span_loans};
ghost use Rattle.bitvec_span.specs.BitParts.{optional_bits, body_bits};
ghost use Rattle.bitvec_span.specs.BitParts.{bit_parts_of, is_bit_enclave};
ghost use Rattle.bitvec_span.specs.BitLoans.{names_if, stretch_loan, whole_loan, stretch_loans};
ghost use Rattle.bitvec_span.specs.BitLoans.{words_of_bit_loans};

use crate::domain::{BitWordsMut, DomainMut, PartialElementMut};
use crate::lend::Pieces;
use crate::ptr::span::BitSpan;
use bitvec_mem::mem::BitRegister;
use bitvec_order::order::Lsb0;
use std::marker::PhantomData;

/// The bits that a span has in the words of a memory borrowed for writing: one stretch of them, or
/// those of a head, of whole words and of a tail.
///
/// In place of the Rust crate's `BitDomain` over a mutable memory.
///
/// # Examples
///
/// The first bit is made one, of a span that has neither the first nor the last of its one word:
///
/// ```
/// fn set_first<R: BitRegister, O: BitOrder<R>>(span: BitSpan<R, O>, memory: &mut [R]) {
///     if span.fits(memory.len()) {
///         if let Some(mut bits) = span.bit_domain_mut(memory).enclave() {
///             if !bits.is_empty() {
///                 bits.replace(0, true);
///             }
///         }
///     }
/// }
/// ```
///
/// ```
/// let mut memory = [0x12u8, 0x34];
/// let span: BitSpan<u8, Lsb0> = BitSpan::new(0, BitIdx::new_unchecked(2), 4).unwrap();
/// set_first(span, &mut memory);
/// assert_eq!(rt; memory, [0x16, 0x34]);
/// ```
#[derive(Drop)]
#[derive_where(Debug)]
pub enum BitDomainMut<'a, R: BitRegister = usize, O = Lsb0> {
    /// Bits of one word, with neither its first nor its last.
    Enclave(BitWordsMut<'a, R, O>),
    /// The last bits of a word, all bits of whole words, and the first bits of a word; each of the
    /// three may have none.
    Region {
        /// The bits of the first word, where the span does not begin with its first bit.
        head: BitWordsMut<'a, R, O>,
        /// The bits of the whole words.
        body: BitWordsMut<'a, R, O>,
        /// The bits of the last word, where the span does not end with its last bit.
        tail: BitWordsMut<'a, R, O>,
    },
}

/// A head, a body and a tail without bits.
impl<'a, R: BitRegister, O> Default for BitDomainMut<'a, R, O> {
    ghost use Rattle.std.specs.Prelude.{◌≡◌};
    ghost use Rattle.bitvec_span.specs.BitParts.{no_bits, bit_region};
    ghost use Rattle.bitvec_span.specs.BitDomainMut.{lent_bit_parts};

    ghost is_default = { λ d. lent_bit_parts R.number d ≡ bit_region no_bits no_bits no_bits };

    fn default() -> Self {
        BitDomainMut::Region {
            head: BitWordsMut::default(),
            body: BitWordsMut::default(),
            tail: BitWordsMut::default(),
        }
    }
}

impl<'a, R: BitRegister, O> BitDomainMut<'a, R, O> {
    ghost use Rattle.bitvec_span.specs.BitDomainMut.{Enclave, Region, lent_bit_parts};
    ghost use Rattle.bitvec_span.specs.BitDomainMut.{bit_loan_names, bit_loans_of};
    ghost use Rattle.bitvec_span.specs.BitDomainMut.{BitDomainRestsIfNone};
    ghost use Rattle.bitvec_span.specs.Pieces.{names_of, piece_words};

    // The bits of one word, where the domain is those alone; else the words that it borrows.
    fn enclave_or_loans(self) -> (Option<BitWordsMut<'a, R, O>>, Pieces<'a, R>)
        ensures stretch { MatchOption result.0
            (is_bit_enclave (lent_bit_parts R.number self.entry) ≡ false)
            (λ stretch. self.entry ≡ Enclave stretch) }
        ensures names { IsNone result.0
            → names_of result.1 ≡ names_if true true (bit_loan_names self.entry) }
        ensures words { IsNone result.0
            → piece_words result.1 ≡ words_of_bit_loans (bit_loans_of self.entry) }
    {
        match self {
            BitDomainMut::Enclave(stretch) => (
                Some(stretch),
                Pieces {
                    front: None,
                    body: None,
                    back: None,
                },
            ),
            BitDomainMut::Region { head, body, tail } => (
                None,
                Pieces {
                    front: Some(head.into_memory()),
                    body: Some(body.into_memory()),
                    back: Some(tail.into_memory()),
                },
            ),
        }
    }

    /// The bits of one word, where the domain is those alone; where it is not, its loans are over,
    /// and their words stay as they are.
    ///
    /// The stretch keeps its loan. The Rust crate gives a bit slice. Constant time.
    pub fn enclave(self) -> Option<BitWordsMut<'a, R, O>>
        ensures* rest { sem 𝓛 (BitDomainRestsIfNone R.row self.entry result) }
        ensures stretch { MatchOption result
            (is_bit_enclave (lent_bit_parts R.number self.entry) ≡ false)
            (λ stretch. self.entry ≡ Enclave stretch) }
    {
        let (
            stretch,
            Pieces {
                front: _,
                body: _,
                back: _,
            },
        ) = self.enclave_or_loans();
        stretch
    }

    // The head, the body and the tail, where the domain is not one stretch alone; else the words
    // that it borrows.
    fn region_or_loans(
        self,
    ) -> (
        Option<
            (
                BitWordsMut<'a, R, O>,
                BitWordsMut<'a, R, O>,
                BitWordsMut<'a, R, O>,
            ),
        >,
        Pieces<'a, R>,
    )
        ensures stretches { MatchOption result.0
            (is_bit_enclave (lent_bit_parts R.number self.entry) ≡ true)
            (λ all. self.entry ≡ Region all.0 all.1 all.2) }
        ensures names { IsNone result.0
            → names_of result.1 ≡ names_if true true (bit_loan_names self.entry) }
        ensures words { IsNone result.0
            → piece_words result.1 ≡ words_of_bit_loans (bit_loans_of self.entry) }
    {
        match self {
            BitDomainMut::Enclave(stretch) => (
                None,
                Pieces {
                    front: Some(stretch.into_memory()),
                    body: None,
                    back: None,
                },
            ),
            BitDomainMut::Region { head, body, tail } => (
                Some((head, body, tail)),
                Pieces {
                    front: None,
                    body: None,
                    back: None,
                },
            ),
        }
    }

    /// The head, the body and the tail, where the domain is not one stretch alone; where it is,
    /// its loan is over, and the words stay as they are.
    ///
    /// Each stretch keeps its loan. The Rust crate gives bit slices. Constant time.
    pub fn region(
        self,
    ) -> Option<
        (
            BitWordsMut<'a, R, O>,
            BitWordsMut<'a, R, O>,
            BitWordsMut<'a, R, O>,
        ),
    >
        ensures* rest { sem 𝓛 (BitDomainRestsIfNone R.row self.entry result) }
        ensures stretches { MatchOption result
            (is_bit_enclave (lent_bit_parts R.number self.entry) ≡ true)
            (λ all. self.entry ≡ Region all.0 all.1 all.2) }
    {
        let (
            stretches,
            Pieces {
                front: _,
                body: _,
                back: _,
            },
        ) = self.region_or_loans();
        stretches
    }
}

impl<'a, R: BitRegister, O> BitWordsMut<'a, R, O> {
    ghost use Rattle.bitvec_span.specs.BitWordsMut.{words_memory};
    ghost use Rattle.bitvec_span.specs.Loans.{loan_part};
    ghost use Rattle.bitvec_span.specs.DomainMut.{part_name, part_loan};
    ghost use Rattle.bitvec_span.specs.BitDomainMut.{words_loan, lent_word_bits};

    // The bits of a part, or none.
    fn of_part(part: Option<PartialElementMut<'a, R, O>>) -> Self
        ensures name { (if is_some (part_name part.entry) then Some (words_memory result).ghost_name
            else None) ≡ part_name part.entry }
        ensures loan { words_loan result ≡ stretch_loan (option_map part_loan part.entry) }
        ensures bits { lent_word_bits R.number result
            ≡ optional_bits (option_map (loan_part R.number) (option_map part_loan part.entry)) }
    {
        let stretch = match part {
            Some(part) => Some(part.into_bitslice()),
            None => None,
        };
        stretch.unwrap_or_default()
    }

    // All bits of whole words.
    fn of_body(body: &'a mut [R]) -> Self
        requires { length body.old ≤ region_max_bits / R.BITS }
        ensures name { (words_memory result).ghost_name ≡ body.entry.ghost_name }
        ensures loan { words_loan result ≡ whole_loan R.BITS body.old }
        ensures bits { lent_word_bits R.number result ≡ body_bits R.BITS (map R.number body.old) }
    {
        let count = body.len();
        BitWordsMut {
            memory: body,
            first: 0,
            count,
            head: 0,
            len: count * usize::from(R::BITS),
            order: PhantomData,
        }
    }
}

impl<'a, R: BitRegister, O> DomainMut<'a, R, O> {
    ghost use Rattle.bitvec_span.specs.DomainMut.{loan_names, loans_of, lent_parts};
    ghost use Rattle.bitvec_span.specs.BitDomainMut.{lent_bit_parts, bit_loan_names, bit_loans_of};

    /// The bits of the parts: each part's as its
    /// [`into_bitslice`](PartialElementMut::into_bitslice) has them, and all bits of the body.
    ///
    /// Each stretch has the loan of its part, and lies in it where the part does; an absent part is
    /// a stretch without bits. Requires a body that is no longer than one span's can be, as each
    /// from [`domain_mut`](BitSpan::domain_mut) is. Constant time. In place of the Rust crate's
    /// `into_bit_domain` over a mutable memory.
    pub fn into_bit_domain(self) -> BitDomainMut<'a, R, O>
        requires { HasShortBody R.BITS (lent_parts R.number self) }
        ensures bits { lent_bit_parts R.number result
            ≡ bit_parts_of R.BITS (lent_parts R.number self.entry) }
        ensures names { names_if (is_some (loan_names self.entry).0)
            (is_some (loan_names self.entry).2) (bit_loan_names result) ≡ loan_names self.entry }
        ensures loans { bit_loans_of result ≡ stretch_loans R.BITS (loans_of self.entry) }
    {
        match self {
            DomainMut::Enclave(part) => BitDomainMut::Enclave(part.into_bitslice()),
            DomainMut::Region { head, body, tail } => BitDomainMut::Region {
                head: BitWordsMut::of_part(head),
                body: BitWordsMut::of_body(body),
                tail: BitWordsMut::of_part(tail),
            },
        }
    }
}

impl<R: BitRegister, O> BitSpan<R, O> {
    ghost use Rattle.bitvec_span.specs.BitSpan.{span_of};
    ghost use Rattle.bitvec_span.specs.BitDomainMut.{lent_bit_parts, bit_loans_of, LendsBits};

    /// The bits of the span in a memory, by the words in which they lie, each stretch for writing,
    /// all at once.
    ///
    /// They are those of [`bit_domain`](BitSpan::bit_domain). When the loans end, the memory is the
    /// last words of the head's loan, of the body's and of the tail's, one behind the other; the
    /// words of an absent part are as before. The loans are those of
    /// [`domain_mut`](BitSpan::domain_mut). Requires that the span lies within the memory. Constant
    /// time. In place of the Rust crate's `bit_domain_mut`.
    pub fn bit_domain_mut<'a>(self, memory: &'a mut [R]) -> BitDomainMut<'a, R, O>
        requires { Fits R.BITS (span_of self) (length memory.old) }
        ensures* ends { sem 𝓛 (LendsBits R.row R.BITS (span_of self) memory.entry result) }
        ensures bits { lent_bit_parts R.number result
            ≡ bit_parts_of R.BITS (parts_of R.BITS (span_of self) (map R.number memory.old)) }
        ensures loans { bit_loans_of result
            ≡ stretch_loans R.BITS (span_loans R.BITS (span_of self) memory.old) }
    {
        self.domain_mut(memory).into_bit_domain()
    }
}
