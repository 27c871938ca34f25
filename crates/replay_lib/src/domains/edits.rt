//! The parts and the whole words of a span, each edited in place.

ghost use Rattle.std.specs.Prelude.{length};
ghost use Rattle.bitvec.specs.BitSpan.{span_of};
ghost use Rattle.bitvec.specs.Span.{Fits};

use crate::answer::Answer;
use crate::values::{word_at, word_value};
use bitvec::domain::{DomainMut, PartialElementMut};
use bitvec::mem::BitRegister;
use bitvec::order::BitOrder;
use bitvec::ptr::span::BitSpan;

// An edit of some bits of a word.
#[derive(Clone, Copy)]
pub(super) enum Edit<R: BitRegister> {
    Store(R),
    Set,
    Clear,
    Invert,
}

impl<R: BitRegister> Edit<R> {
    // The edit of a name; the argument counts for `store` alone.
    pub(super) fn of_name(name: &str, argument: &str) -> Option<Self> {
        match name {
            "store" => Some(Edit::Store(word_at(argument)?)),
            "set" => Some(Edit::Set),
            "clear" => Some(Edit::Clear),
            "invert" => Some(Edit::Invert),
            _ => None,
        }
    }

    // Edits a part, and gives its value before.
    pub(super) fn edit_part<O: BitOrder<R>>(self, part: &mut PartialElementMut<R, O>) -> R {
        match self {
            Edit::Store(value) => part.store_value(value),
            Edit::Set => part.set(),
            Edit::Clear => part.clear(),
            Edit::Invert => part.invert(),
        }
    }

    // A whole word after the edit.
    fn of_word(self, word: R) -> R {
        match self {
            Edit::Store(value) => value,
            Edit::Set => R::ALL,
            Edit::Clear => R::ZERO,
            Edit::Invert => word.not(),
        }
    }
}

// Writes the values before an edit, and the memory after it.
pub(super) fn write_edited<R: BitRegister, O: BitOrder<R>>(
    out: &mut Answer,
    span: BitSpan<R, O>,
    memory: &mut [R],
    edit: Edit<R>,
) -> Option<()>
    requires { Fits R.BITS (span_of span) (length memory.old) }
{
    edit_parts(out, span, memory, edit);
    out.end_list();
    out.push(" ");
    out.words(memory);
    Some(())
}

// Edits each part and each whole word of a span, and writes the values before.
fn edit_parts<R: BitRegister, O: BitOrder<R>>(
    out: &mut Answer,
    span: BitSpan<R, O>,
    memory: &mut [R],
    edit: Edit<R>,
)
    requires { Fits R.BITS (span_of span) (length memory.old) }
{
    match span.domain_mut(memory) {
        DomainMut::Enclave(mut part) => out.item(&[word_value(edit.edit_part(&mut part))]),
        DomainMut::Region { head, body, tail } => {
            if let Some(mut part) = head {
                out.item(&[word_value(edit.edit_part(&mut part))]);
            }
            edit_words(out, body, edit);
            if let Some(mut part) = tail {
                out.item(&[word_value(edit.edit_part(&mut part))]);
            }
        }
    }
}

// Edits each of some whole words, and writes the words before.
fn edit_words<R: BitRegister>(out: &mut Answer, words: &mut [R], edit: Edit<R>) {
    for word in words.iter_mut() {
        out.item(&[word_value(*word)]);
        *word = edit.of_word(*word);
    }
}
