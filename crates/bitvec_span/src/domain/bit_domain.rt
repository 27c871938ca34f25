//! The bits of a span, by the words in which they lie.

ghost use Rattle.std.specs.Prelude.{◌≡◌, ⊤, true, false, MatchOption, length, map};
ghost use Rattle.bitvec_span.specs.Span.{Fits};
ghost use Rattle.bitvec_span.specs.BitParts.{bit_parts_of};
ghost use Rattle.bitvec_span.specs.BitParts.{is_bit_enclave, joined_bits};
ghost use Rattle.bitvec_span.specs.Parts.{HasShortBody, parts_of};

use crate::domain::Domain;
use crate::domain::bit_words::BitWords;
use crate::ptr::span::BitSpan;
use bitvec_mem::mem::BitRegister;
use bitvec_order::order::{BitOrder, Lsb0};
use std::alloc::AllocError;

/// The bits that a span has in the words of a memory: one stretch of them, or those of a head, of
/// whole words and of a tail.
///
/// # Examples
///
/// How many bits of a span stand in whole words:
///
/// ```
/// fn whole_bits<R: BitRegister, O: BitOrder<R>>(span: BitSpan<R, O>, memory: &[R]) -> usize {
///     if !span.fits(memory.len()) {
///         return 0;
///     }
///     match span.bit_domain(memory) {
///         BitDomain::Enclave(_) => 0,
///         BitDomain::Region { body, .. } => body.len(),
///     }
/// }
/// ```
///
/// ```
/// let memory = [0x12u8, 0x34, 0x56];
/// let span: BitSpan<u8, Lsb0> = BitSpan::new(0, BitIdx::new_unchecked(4), 14).unwrap();
/// assert_eq!(rt; whole_bits(span, &memory), 8);
/// ```
#[derive_where(Debug)]
pub enum BitDomain<'a, R: BitRegister = usize, O = Lsb0> {
    /// Bits of one word, with neither its first nor its last.
    Enclave(BitWords<'a, R, O>),
    /// The last bits of a word, all bits of whole words, and the first bits of a word; each of the
    /// three may have none.
    Region {
        /// The bits of the first word, where the span does not begin with its first bit.
        head: BitWords<'a, R, O>,
        /// The bits of the whole words.
        body: BitWords<'a, R, O>,
        /// The bits of the last word, where the span does not end with its last bit.
        tail: BitWords<'a, R, O>,
    },
}

impl<'a, R: BitRegister, O> Clone for BitDomain<'a, R, O> {
    ghost is_clone = { λ it copy. copy ≡ it };

    ghost is_infallible = { λ _. ⊤ };

    fn clone(&self) -> Result<Self, AllocError> {
        Ok(*self)
    }
}

impl<'a, R: BitRegister, O> Copy for BitDomain<'a, R, O> {}

impl<'a, R: BitRegister, O> Default for BitDomain<'a, R, O> {
    ghost use Rattle.bitvec_span.specs.BitParts.{no_bits, bit_region};
    ghost use Rattle.bitvec_span.specs.BitDomain.{bit_parts};

    ghost is_default = { λ d. bit_parts R.number d ≡ bit_region no_bits no_bits no_bits };

    fn default() -> Self {
        BitDomain::Region {
            head: BitWords::default(),
            body: BitWords::default(),
            tail: BitWords::default(),
        }
    }
}

impl<'a, R: BitRegister, O> BitDomain<'a, R, O> {
    ghost use Rattle.bitvec_span.specs.BitDomain.{Enclave, Region, bit_parts};

    /// The bits of one word, where the domain is those alone. Constant time.
    pub fn enclave(self) -> Option<BitWords<'a, R, O>>
        ensures { MatchOption result (is_bit_enclave (bit_parts R.number self.entry) ≡ false)
            (λ words. self.entry ≡ Enclave words) }
    {
        match self {
            BitDomain::Enclave(words) => Some(words),
            BitDomain::Region { .. } => None,
        }
    }

    /// The head, the body and the tail, where the domain is not one stretch alone. Constant time.
    pub fn region(self) -> Option<(BitWords<'a, R, O>, BitWords<'a, R, O>, BitWords<'a, R, O>)>
        ensures { MatchOption result (is_bit_enclave (bit_parts R.number self.entry) ≡ true)
            (λ all. self.entry ≡ Region all.0 all.1 all.2) }
    {
        match self {
            BitDomain::Enclave(_) => None,
            BitDomain::Region { head, body, tail } => Some((head, body, tail)),
        }
    }
}

impl<'a, R: BitRegister, O> Domain<'a, R, O> {
    ghost use Rattle.bitvec_span.specs.Domain.{domain_parts};
    ghost use Rattle.bitvec_span.specs.BitDomain.{bit_parts};

    /// The bits of the parts: each partial element's as its
    /// [`into_bitslice`](crate::domain::PartialElement::into_bitslice) has them, and all bits of
    /// the body.
    ///
    /// Requires a body that is no longer than one span's can be, as [`len`](Domain::len) does.
    /// Constant time.
    pub fn into_bit_domain(self) -> BitDomain<'a, R, O>
        requires { HasShortBody R.BITS (domain_parts R.number self) }
        ensures { bit_parts R.number result
            ≡ bit_parts_of R.BITS (domain_parts R.number self.entry) }
    {
        match self {
            Domain::Enclave(part) => BitDomain::Enclave(part.into_bitslice()),
            Domain::Region { head, body, tail } => BitDomain::Region {
                head: BitWords::of_part(head),
                body: BitWords::of_body(body),
                tail: BitWords::of_part(tail),
            },
        }
    }
}

impl<R: BitRegister, O: BitOrder<R>> BitSpan<R, O> {
    ghost use Rattle.bitvec_span.specs.BitSpan.{span_of, list_by};
    ghost use Rattle.bitvec_span.specs.BitDomain.{bit_parts};

    /// The bits of the span in a memory, by the words in which they lie.
    ///
    /// The bits of its parts, one behind the other, are the span's. Requires a span that
    /// [`fits`](BitSpan::fits). Constant time.
    pub fn bit_domain<'a>(self, memory: &'a [R]) -> BitDomain<'a, R, O>
        requires { Fits R.BITS (span_of self) (length memory.now) }
        ensures parts { bit_parts R.number result
            ≡ bit_parts_of R.BITS (parts_of R.BITS (span_of self) (map R.number memory.now)) }
        ensures joined { joined_bits R.BITS O.at_of (bit_parts R.number result)
            ≡ list_by self O.at_of memory.now }
    {
        self.domain(memory).into_bit_domain()
    }
}
