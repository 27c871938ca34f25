//! The words and parts of words that a span meets, for writing.

ghost use Rattle.std.specs.Prelude.{◌≡◌, pos, ◌+◌, ◌-◌, ◌<◌, ◌≤◌, ◌≤ℤ◌, nat_abs};
ghost use Rattle.std.specs.Prelude.{true, false, length, map, IfSome, MatchOption, is_some};
ghost use Rattle.std.specs.Prelude.{IsNone, option_map};
ghost use Rattle.std.specs.Borrow.{sem};
ghost use Rattle.bitvec_ptr.specs.Place.{words_met};
ghost use Rattle.bitvec_span.specs.Span.{Fits};
ghost use Rattle.bitvec_span.specs.Parts.{parts_of, is_enclave, HasShortBody};
ghost use Rattle.bitvec_span.specs.Loans.{span_loans, loan_words, words_of_loans};
ghost use Rattle.bitvec_span.specs.Lending.{name_of};
ghost use Rattle.bitvec_span.specs.Pieces.{names_of, piece_words, piece_loans};
ghost use Rattle.bitvec_span.specs.DomainMut.{part_name, loan_names, part_loan, loans_of};
ghost use Rattle.bitvec_span.specs.DomainMut.{Enclave, Region, lent_parts, LendsDomain};
ghost use Rattle.bitvec_span.specs.DomainMut.{DomainRestsIfNone};
ghost use Rattle.bitvec_span.specs.Shape.{shape_of};

use super::partial_element_mut::PartialElementMut;
use super::shape::Shape;
use crate::lend::{Pieces, pieces_mut};
use crate::ptr::span::BitSpan;
use bitvec_mem::mem::BitRegister;
use bitvec_order::index::BitEnd;
use bitvec_order::order::{BitOrder, Lsb0};

/// The words that a span meets, borrowed for writing: one part of a word, or whole words with
/// perhaps a part before them and perhaps a part behind them.
///
/// In place of the Rust crate's `Domain` over a mutable memory.
///
/// # Examples
///
/// ```
/// let mut memory = [0x12u8, 0x34];
/// let span: BitSpan<u8, Lsb0> = BitSpan::new(0, BitIdx::new_unchecked(2), 4).unwrap();
/// let mut part = span.domain_mut(&mut memory).enclave().ok_or("a region")?;
/// assert_eq!(rt; part.invert(), 0x10);
/// drop(part);
/// assert_eq!(rt; memory, [0x2E, 0x34]);
/// ```
#[derive(Drop)]
#[derive_where(Debug)]
pub enum DomainMut<'a, R: BitRegister = usize, O = Lsb0> {
    /// Some bits of one word, with neither its first nor its last.
    Enclave(PartialElementMut<'a, R, O>),
    /// Perhaps the last bits of a word, whole words, and perhaps the first bits of a word.
    Region {
        /// The last bits of the first word, where the span does not begin with its first bit.
        head: Option<PartialElementMut<'a, R, O>>,
        /// The whole words.
        body: &'a mut [R],
        /// The first bits of the last word, where the span does not end with its last bit.
        tail: Option<PartialElementMut<'a, R, O>>,
    },
}

/// The region of no words.
impl<'a, R: BitRegister, O> Default for DomainMut<'a, R, O> {
    ghost use Rattle.std.specs.Prelude.{[], None, ◌≡◌};
    ghost use Rattle.bitvec_span.specs.Parts.{region};
    ghost use Rattle.bitvec_span.specs.DomainMut.{lent_parts};

    ghost is_default = { λ d. lent_parts R.number d ≡ region None [] None };

    fn default() -> Self {
        DomainMut::Region {
            head: None,
            body: &mut [],
            tail: None,
        }
    }
}

// The words that a part borrows, if there is one.
fn part_memory<'a, R: BitRegister, O>(
    part: Option<PartialElementMut<'a, R, O>>,
) -> Option<&'a mut [R]>
    ensures reference { name_of result ≡ part_name part.entry }
    ensures words { option_map (λ r. r.now) result
        ≡ option_map loan_words (option_map part_loan part.entry) }
{
    match part {
        Some(part) => Some(part.into_memory()),
        None => None,
    }
}

impl<'a, R: BitRegister, O> DomainMut<'a, R, O> {
    // The part of one word, where the domain is that alone; else the words that it borrows.
    fn enclave_or_loans(self) -> (Option<PartialElementMut<'a, R, O>>, Pieces<'a, R>)
        ensures part { MatchOption result.0 (is_enclave (lent_parts R.number self.entry) ≡ false)
            (λ part. self.entry ≡ Enclave part) }
        ensures names { IsNone result.0 → names_of result.1 ≡ loan_names self.entry }
        ensures words { IsNone result.0
            → piece_words result.1 ≡ words_of_loans (loans_of self.entry) }
    {
        match self {
            DomainMut::Enclave(part) => (
                Some(part),
                Pieces {
                    front: None,
                    body: None,
                    back: None,
                },
            ),
            DomainMut::Region { head, body, tail } => {
                let front = part_memory(head);
                let back = part_memory(tail);
                (
                    None,
                    Pieces {
                        front,
                        body: Some(body),
                        back,
                    },
                )
            }
        }
    }

    /// The part of one word, where the domain is that alone; where it is not, its loans are over,
    /// and their words stay as they are. Constant time.
    pub fn enclave(self) -> Option<PartialElementMut<'a, R, O>>
        ensures* rest { sem 𝓛 (DomainRestsIfNone R.row self.entry result) }
        ensures part { MatchOption result (is_enclave (lent_parts R.number self.entry) ≡ false)
            (λ part. self.entry ≡ Enclave part) }
    {
        let (
            part,
            Pieces {
                front: _,
                body: _,
                back: _,
            },
        ) = self.enclave_or_loans();
        part
    }

    // The head, the body and the tail, where the domain is not one part alone; else the words that
    // it borrows.
    fn region_or_loans(
        self,
    ) -> (
        Option<
            (
                Option<PartialElementMut<'a, R, O>>,
                &'a mut [R],
                Option<PartialElementMut<'a, R, O>>,
            ),
        >,
        Pieces<'a, R>,
    )
        ensures parts { MatchOption result.0 (is_enclave (lent_parts R.number self.entry) ≡ true)
            (λ all. self.entry ≡ Region all.0 all.1 all.2) }
        ensures names { IsNone result.0 → names_of result.1 ≡ loan_names self.entry }
        ensures words { IsNone result.0
            → piece_words result.1 ≡ words_of_loans (loans_of self.entry) }
    {
        match self {
            DomainMut::Enclave(part) => (
                None,
                Pieces {
                    front: Some(part.into_memory()),
                    body: None,
                    back: None,
                },
            ),
            DomainMut::Region { head, body, tail } => (
                Some((head, body, tail)),
                Pieces {
                    front: None,
                    body: None,
                    back: None,
                },
            ),
        }
    }

    /// The head, the body and the tail, where the domain is not one part alone; where it is, its
    /// loan is over, and the words stay as they are. Constant time.
    pub fn region(
        self,
    ) -> Option<
        (
            Option<PartialElementMut<'a, R, O>>,
            &'a mut [R],
            Option<PartialElementMut<'a, R, O>>,
        ),
    >
        ensures* rest { sem 𝓛 (DomainRestsIfNone R.row self.entry result) }
        ensures parts { MatchOption result (is_enclave (lent_parts R.number self.entry) ≡ true)
            (λ all. self.entry ≡ Region all.0 all.1 all.2) }
    {
        let (
            parts,
            Pieces {
                front: _,
                body: _,
                back: _,
            },
        ) = self.region_or_loans();
        parts
    }
}

impl<R: BitRegister, O> BitSpan<R, O> {
    ghost use Rattle.bitvec_span.specs.BitSpan.{span_of};

    // The domain whose parts lie in these pieces; without a body it is an enclave.
    fn assemble<'a>(self, shape: Shape, pieces: Pieces<'a, R>) -> DomainMut<'a, R, O>
        requires word { pos 0 ≤ℤ (span_of self).word }
        requires shape { shape ≡ shape_of R.BITS (span_of self) }
        requires tail { shape.tail ≤ R.BITS }
        requires front { IfSome pieces.front
            (λ s. (nat_abs (span_of self).word < length s.now)
            × (0 < words_met R.BITS (span_of self).head (span_of self).len)) }
        requires back { IfSome pieces.back
            (λ s. (0 < length s.now)
            × (0 < words_met R.BITS (span_of self).head (span_of self).len)) }
        requires enclave { is_some pieces.body ≡ false → (is_some pieces.front ≡ true)
            × (is_some pieces.back ≡ false) }
        ensures names { loan_names result ≡ names_of pieces.entry }
        ensures loans { loans_of result ≡ piece_loans R.BITS (span_of self) pieces.entry }
    {
        let Pieces { front, body, back } = pieces;
        let elements = shape.elements;
        let end = BitEnd::new_unchecked(shape.tail);
        let head = match front {
            Some(memory) => {
                Some(self.part_at(memory, self.address() as usize, 0, elements, end))
            }
            None => None,
        };
        let tail = match back {
            Some(memory) => Some(self.part_at(memory, 0, elements - 1, elements, end)),
            None => None,
        };
        match body {
            Some(body) => DomainMut::Region { head, body, tail },
            None => match head {
                Some(part) => DomainMut::Enclave(part),
                None => DomainMut::default(),
            },
        }
    }

    /// The words and parts of words of a memory that the span meets, for writing, all at once.
    ///
    /// They are those of [`domain`](BitSpan::domain), and none is copied. The head's loan has all
    /// words up to its own, which is its last, and the tail's all words from its own on. When the
    /// loans end, the memory is what they leave, one behind the other; words that no loan has are
    /// as before. The body is no longer than one span's can be. Requires a span that
    /// [`fits`](BitSpan::fits). Constant time. In place of the Rust crate's domains over a mutable
    /// memory.
    pub fn domain_mut<'a>(self, memory: &'a mut [R]) -> DomainMut<'a, R, O>
        requires { Fits R.BITS (span_of self) (length memory.old) }
        ensures* ends { sem 𝓛 (LendsDomain R.row R.BITS (span_of self) memory.entry result) }
        ensures parts { lent_parts R.number result
            ≡ parts_of R.BITS (span_of self) (map R.number memory.old) }
        ensures loans { loans_of result ≡ span_loans R.BITS (span_of self) memory.old }
        ensures short { HasShortBody R.BITS (lent_parts R.number result) }
    {
        let shape = self.shape();
        let pieces = pieces_mut(
            memory,
            shape.words_before,
            shape.body_words,
            shape.has_head,
            shape.has_body,
            shape.has_tail,
        );
        self.assemble(shape, pieces)
    }
}
