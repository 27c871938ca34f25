//! The words and parts of words that a span meets.

ghost use Rattle.std.specs.Prelude.{◌≡◌, ⊤, ◌<◌, true, false, None, MatchOption, length, map};
ghost use Rattle.bitvec_ptr.specs.Place.{words_met, tail_of};
ghost use Rattle.bitvec_span.specs.Span.{Fits, word_of, words_of};
ghost use Rattle.bitvec_span.specs.Parts.{part_of, parts_of, value_of, items};
ghost use Rattle.bitvec_span.specs.Parts.{is_enclave, HasShortBody};

use crate::ptr::span::BitSpan;
use bitvec_mem::mem::BitRegister;
use bitvec_order::index::BitEnd;
use bitvec_order::order::{BitOrder, Lsb0};
use std::alloc::AllocError;
use std::iter::FusedIterator;

mod bit_domain;
mod bit_domain_mut;
mod bit_words;
mod bit_words_mut;
mod domain_mut;
mod each;
mod partial_element;
mod partial_element_mut;
mod shape;
mod text;

pub use self::bit_domain::BitDomain;
pub use self::bit_domain_mut::BitDomainMut;
pub use self::bit_words::BitWords;
pub use self::bit_words_mut::BitWordsMut;
pub use self::domain_mut::DomainMut;
pub use self::partial_element::PartialElement;
pub use self::partial_element_mut::PartialElementMut;

/// The words that a span meets: one part of a word, or whole words with perhaps a part before them
/// and perhaps a part behind them.
///
/// # Examples
///
/// ```
/// let memory = [0x12u8, 0x34, 0x56];
/// let span: BitSpan<u8, Lsb0> = BitSpan::new(0, BitIdx::new_unchecked(4), 16).unwrap();
/// let (head, body, tail) = span.domain(&memory).region().ok_or("an enclave")?;
/// assert_eq!(rt; head.ok_or("no head")?.load_value(), 0x10);
/// assert_eq!(rt; body, [0x34].as_slice());
/// assert_eq!(rt; tail.ok_or("no tail")?.load_value(), 0x06);
/// ```
#[derive_where(Debug)]
pub enum Domain<'a, R: BitRegister = usize, O = Lsb0> {
    /// Some bits of one word, with neither its first nor its last.
    Enclave(PartialElement<'a, R, O>),
    /// Perhaps the last bits of a word, whole words, and perhaps the first bits of a word.
    Region {
        /// The last bits of the first word, where the span does not begin with its first bit.
        head: Option<PartialElement<'a, R, O>>,
        /// The whole words.
        body: &'a [R],
        /// The first bits of the last word, where the span does not end with its last bit.
        tail: Option<PartialElement<'a, R, O>>,
    },
}

impl<'a, R: BitRegister, O> Clone for Domain<'a, R, O> {
    ghost is_clone = { λ it copy. copy ≡ it };

    ghost is_infallible = { λ _. ⊤ };

    fn clone(&self) -> Result<Self, AllocError> {
        Ok(*self)
    }
}

impl<'a, R: BitRegister, O> Copy for Domain<'a, R, O> {}

impl<'a, R: BitRegister, O> Domain<'a, R, O> {
    ghost use Rattle.bitvec_span.specs.Domain.{Enclave, Region, domain_parts};

    /// The part of one word, where the domain is that alone. Constant time.
    pub fn enclave(self) -> Option<PartialElement<'a, R, O>>
        ensures { MatchOption result (is_enclave (domain_parts R.number self.entry) ≡ false)
            (λ part. self.entry ≡ Enclave part) }
    {
        match self {
            Domain::Enclave(part) => Some(part),
            Domain::Region { .. } => None,
        }
    }

    /// The head, the body and the tail, where the domain is not one part alone. Constant time.
    pub fn region(
        self,
    ) -> Option<
        (
            Option<PartialElement<'a, R, O>>,
            &'a [R],
            Option<PartialElement<'a, R, O>>,
        ),
    >
        ensures { MatchOption result (is_enclave (domain_parts R.number self.entry) ≡ true)
            (λ all. self.entry ≡ Region all.0 all.1 all.2) }
    {
        match self {
            Domain::Enclave(_) => None,
            Domain::Region { head, body, tail } => Some((head, body, tail)),
        }
    }
}

impl<'a, R: BitRegister, O: BitOrder<R>> Domain<'a, R, O> {
    ghost use Rattle.bitvec_span.specs.Domain.{domain_parts};

    /// How many items are left: one for each part, and one for each whole word.
    ///
    /// Requires a body that is no longer than one span's can be, as each from
    /// [`domain`](BitSpan::domain) is. Constant time.
    pub fn len(&self) -> usize
        requires { HasShortBody R.BITS (domain_parts R.number self.now) }
        ensures { result ≡ length (items R.BITS O.at_of (domain_parts R.number self.now)) }
    {
        match *self {
            Domain::Enclave(_) => 1,
            Domain::Region { head, body, tail } => {
                usize::from(head.is_some()) + body.len() + usize::from(tail.is_some())
            }
        }
    }
}

impl<'a, R: BitRegister, O> Default for Domain<'a, R, O> {
    ghost use Rattle.std.specs.Prelude.{[], None, ◌≡◌};
    ghost use Rattle.bitvec_span.specs.Parts.{region};
    ghost use Rattle.bitvec_span.specs.Domain.{domain_parts};

    ghost is_default = { λ d. domain_parts R.number d ≡ region None [] None };

    fn default() -> Self {
        Domain::Region {
            head: None,
            body: &[],
            tail: None,
        }
    }
}

impl<R: BitRegister, O: BitOrder<R>> BitSpan<R, O> {
    ghost use Rattle.bitvec_span.specs.BitSpan.{span_of, list_by};
    ghost use Rattle.bitvec_span.specs.Domain.{element_part, domain_parts};

    /// The part of the `k`-th word that the span meets, counted from 0.
    ///
    /// Its head is the span's in the first word, else the least; its tail is the span's in the last
    /// word, else the greatest. Requires a span that [`fits`](BitSpan::fits), and that `k` is below
    /// the number of its [`elements`](BitSpan::elements). Constant time. Not in the Rust crate.
    pub fn part<'a>(self, memory: &'a [R], k: usize) -> PartialElement<'a, R, O>
        requires fits { Fits R.BITS (span_of self) (length memory.now) }
        requires met { k < words_met R.BITS (span_of self).head (span_of self).len }
        ensures part { element_part R.number result
            ≡ part_of R.BITS (span_of self) (map R.number memory.now) k }
        ensures word { value_of R.BITS O.at_of (element_part R.number result)
            ≡ word_of R.BITS O.at_of (span_of self).head (list_by self O.at_of memory.now) k }
    {
        let (elements, tail) = self.extent();
        self.part_among(memory, k, elements, tail)
    }

    // The same, where the span meets `elements` words and ends before the index `tail` of the last.
    #[inline(always)]
    fn part_among<'a>(
        self,
        memory: &'a [R],
        k: usize,
        elements: usize,
        tail: BitEnd<R>,
    ) -> PartialElement<'a, R, O>
        requires fits { Fits R.BITS (span_of self) (length memory.now) }
        requires met { k < elements }
        requires elements { elements ≡ words_met R.BITS (span_of self).head (span_of self).len }
        requires tail { tail ≡ tail_of R.BITS (span_of self).head (span_of self).len }
        ensures { element_part R.number result
            ≡ part_of R.BITS (span_of self) (map R.number memory.now) k }
    {
        let at = self.address() as usize + k;
        let (head, tail) = self.bounds_among(k, elements, tail);
        PartialElement::new(memory, at, head, tail)
    }

    /// The words and parts of words of a memory that the span meets.
    ///
    /// An empty span has the empty domain; there the Rust crate may answer an enclave. Requires a
    /// span that [`fits`](BitSpan::fits). Constant time.
    ///
    /// # Examples
    ///
    /// ```
    /// let memory = [0x12u8, 0x34, 0x56];
    /// let span: BitSpan<u8, Lsb0> = BitSpan::new(0, BitIdx::new_unchecked(4), 16).unwrap();
    /// let mut domain = span.domain(&memory);
    /// assert_eq!(rt; domain.next(), Some(0x10));
    /// assert_eq!(rt; domain.next(), Some(0x34));
    /// assert_eq!(rt; domain.next(), Some(0x06));
    /// assert_eq!(rt; domain.next(), None);
    /// ```
    pub fn domain<'a>(self, memory: &'a [R]) -> Domain<'a, R, O>
        requires { Fits R.BITS (span_of self) (length memory.now) }
        ensures parts { domain_parts R.number result
            ≡ parts_of R.BITS (span_of self) (map R.number memory.now) }
        ensures items { items R.BITS O.at_of (domain_parts R.number result)
            ≡ words_of R.BITS O.at_of (span_of self).head (list_by self O.at_of memory.now) }
        ensures short { HasShortBody R.BITS (domain_parts R.number result) }
    {
        let shape = self.shape();
        let end = BitEnd::new_unchecked(shape.tail);
        if !shape.has_body {
            let part = self.part_among(memory, 0, shape.elements, end);
            return Domain::Enclave(part);
        }
        let head = if shape.has_head {
            Some(self.part_among(memory, 0, shape.elements, end))
        } else {
            None
        };
        let tail = if shape.has_tail {
            Some(self.part_among(memory, shape.elements - 1, shape.elements, end))
        } else {
            None
        };
        let first = shape.words_before;
        let body = &memory[first..first + shape.body_words];
        Domain::Region { head, body, tail }
    }
}

impl<'a, R: BitRegister, O: BitOrder<R>> Iterator for Domain<'a, R, O> {
    type Item = R;

    ghost use Rattle.std.specs.Iterator.{YieldsFirstBy, item_count};
    ghost use Rattle.bitvec_span.specs.Parts.{items, LeavesAfterFirst};
    ghost use Rattle.bitvec_span.specs.Domain.{domain_parts};

    ghost next_gives = { λ d item rest.
        YieldsFirstBy R.number (λ d. items R.BITS O.at_of (domain_parts R.number d)) d item rest
        × LeavesAfterFirst R.BITS (domain_parts R.number d) (domain_parts R.number rest) };

    ghost remaining = { item_count (λ d. items R.BITS O.at_of (domain_parts R.number d)) };

    /// Takes the first item; what is left are the parts behind it.
    ///
    /// After an enclave or the last item that is the empty region. The body grows no longer, so
    /// [`len`](Domain::len) may be called after it where it could be before.
    fn next(&mut self) -> Option<R> {
        match *self {
            Domain::Enclave(part) => {
                *self = Domain::default();
                Some(part.load_value())
            }
            Domain::Region {
                head: Some(part),
                body,
                tail,
            } => {
                *self = Domain::Region {
                    head: None,
                    body,
                    tail,
                };
                Some(part.load_value())
            }
            Domain::Region {
                head: None,
                body,
                tail,
            } => match body.split_first() {
                Some((word, body)) => {
                    *self = Domain::Region {
                        head: None,
                        body,
                        tail,
                    };
                    // The call says that the number is one of the register's, and costs nothing.
                    let _number = word.to_u128();
                    Some(*word)
                }
                None => {
                    *self = Domain::default();
                    // A closure would be a function of its own to prove.
                    match tail {
                        Some(part) => Some(part.load_value()),
                        None => None,
                    }
                }
            },
        }
    }
}

impl<'a, R: BitRegister, O: BitOrder<R>> DoubleEndedIterator for Domain<'a, R, O> {
    ghost use Rattle.std.specs.Iterator.{YieldsLastBy};
    ghost use Rattle.bitvec_span.specs.Parts.{items, LeavesBeforeLast};
    ghost use Rattle.bitvec_span.specs.Domain.{domain_parts};

    ghost next_back_gives = { λ d item rest.
        YieldsLastBy R.number (λ d. items R.BITS O.at_of (domain_parts R.number d)) d item rest
        × LeavesBeforeLast R.BITS (domain_parts R.number d) (domain_parts R.number rest) };

    /// Takes the last item; what is left are the parts before it, in the same way.
    fn next_back(&mut self) -> Option<R> {
        match *self {
            Domain::Enclave(part) => {
                *self = Domain::default();
                Some(part.load_value())
            }
            Domain::Region {
                head,
                body,
                tail: Some(part),
            } => {
                *self = Domain::Region {
                    head,
                    body,
                    tail: None,
                };
                Some(part.load_value())
            }
            Domain::Region {
                head,
                body,
                tail: None,
            } => match body.split_last() {
                Some((word, body)) => {
                    *self = Domain::Region {
                        head,
                        body,
                        tail: None,
                    };
                    // The call says that the number is one of the register's, and costs nothing.
                    let _number = word.to_u128();
                    Some(*word)
                }
                None => {
                    *self = Domain::default();
                    // A closure would be a function of its own to prove.
                    match head {
                        Some(part) => Some(part.load_value()),
                        None => None,
                    }
                }
            },
        }
    }
}

/// After `None` the domain returns `None` for good.
impl<'a, R: BitRegister, O: BitOrder<R>> FusedIterator for Domain<'a, R, O> {}
