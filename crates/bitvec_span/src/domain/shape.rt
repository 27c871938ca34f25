//! The shape of a span's domain: which parts and whole words it has, and where they lie.

ghost use Rattle.std.specs.Prelude.{◌≡◌, pos, ◌≤◌, ◌≤ℤ◌};
ghost use Rattle.bitvec_span.specs.Shape.{shape_of};

use crate::ptr::span::BitSpan;
use bitvec_mem::mem::BitRegister;

/// Which parts and whole words the domain of a span has, and where they lie.
#[derive(Clone, Copy)]
pub(crate) struct Shape {
    /// How many words the span meets.
    pub elements: usize,
    /// One past the index of its last bit in the last of them.
    pub tail: u8,
    /// Whether there is a part before the whole words, or the one part of an enclave.
    pub has_head: bool,
    /// Whether there are whole words or may be: where not, the domain is an enclave.
    pub has_body: bool,
    /// Whether there is a part behind the whole words.
    pub has_tail: bool,
    /// How many words of the memory lie before the whole words.
    pub words_before: usize,
    /// How many whole words there are.
    pub body_words: usize,
}

impl<R: BitRegister, O> BitSpan<R, O> {
    ghost use Rattle.bitvec_span.specs.BitSpan.{span_of};

    /// The shape of the span's domain, from one reading of its extent.
    #[inline(always)]
    pub(crate) fn shape(self) -> Shape
        requires { pos 0 ≤ℤ (span_of self).word }
        ensures shape { result ≡ shape_of R.BITS (span_of self) }
        ensures tail { result.tail ≤ R.BITS }
    {
        let (elements, end) = self.extent();
        let tail = end.into_inner();
        let some = self.len() != 0;
        let has_head = some & (self.head().into_inner() != 0);
        let ends_within = some & (tail != R::BITS);
        let is_inside = has_head & ends_within & (elements == 1);
        let has_tail = ends_within & !is_inside;
        Shape {
            elements,
            tail,
            has_head,
            has_body: !is_inside,
            has_tail,
            words_before: self.address() as usize + usize::from(has_head),
            body_words: elements - usize::from(has_head) - usize::from(has_tail),
        }
    }
}
