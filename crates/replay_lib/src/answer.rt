//! The text of an answer.

use crate::values::Value;
use bits_text::words::{words_of, write_words};
use bitvec::mem::BitRegister;
use std::alloc::{AllocError, Global};
use std::fmt::{Debug, Display, Write as _};

/// The text of an answer, which grows, and which keeps in mind where memory was refused.
#[derive(Drop)]
pub struct Answer<'a> {
    /// What allocates.
    pub alloc: &'a Global,
    /// The text so far.
    pub text: String<&'a Global>,
    is_refused: bool,
}

/// The answer to a question as text, or `None` where there is no such question.
pub type Text<'a> = Result<Option<String<&'a Global>>, AllocError>;

impl<'a> Answer<'a> {
    /// An answer of no text.
    pub fn new(alloc: &'a Global) -> Self {
        Answer {
            alloc,
            text: String::new(alloc),
            is_refused: false,
        }
    }

    /// The text, where it is one of a question.
    pub fn finish(self, is_question: Option<()>) -> Text<'a> {
        if self.is_refused {
            return Err(AllocError);
        }
        match is_question {
            Some(()) => Ok(Some(self.text)),
            None => Ok(None),
        }
    }

    /// Keeps in mind whether memory was refused.
    pub fn note(&mut self, written: Result<(), AllocError>) {
        if written.is_err() {
            self.is_refused = true;
        }
    }

    /// Writes another answer, where there is one.
    pub fn take(&mut self, other: Text<'a>) -> Option<()> {
        match other {
            Ok(Some(text)) => {
                self.push(text.as_str());
                Some(())
            }
            Ok(None) => None,
            Err(_) => {
                self.is_refused = true;
                None
            }
        }
    }

    /// Writes a text.
    pub fn push(&mut self, text: &str) {
        let written = self.text.push_str(text);
        self.note(written);
    }

    /// Writes a value, and `-` where there is none.
    pub fn value(&mut self, value: Value) {
        let text = &mut self.text;
        let written = match value {
            Value::Number(n) => write!(text, "{n}"),
            Value::Signed(n) => write!(text, "{n}"),
            Value::Word(n) => write!(text, "{n:x}"),
            Value::Bit(word, bit) => write!(text, "{word} {bit}"),
            Value::Span(word, head, len) => write!(text, "{word} {head} {len}"),
            Value::Truth(is_so) => write!(text, "{is_so}"),
            Value::Comparison(ordering) => write!(text, "{ordering:?}"),
            Value::Name(name) => text.push_str(name),
            Value::Missing => text.push_str("-"),
        };
        self.note(written);
    }

    /// Writes values with spaces between them.
    pub fn values(&mut self, values: &[Value]) {
        let mut is_first = true;
        for value in values {
            if !is_first {
                self.push(" ");
            }
            is_first = false;
            self.value(*value);
        }
    }

    /// Writes a semicolon where there is text already.
    pub fn begin_item(&mut self) {
        if !self.text.is_empty() {
            self.push(";");
        }
    }

    /// Writes values as one item of the list that the text is.
    pub fn item(&mut self, values: &[Value]) {
        self.begin_item();
        self.values(values);
    }

    /// Ends the list that the text is.
    pub fn end_list(&mut self) {
        if self.text.is_empty() {
            self.push("-");
        }
    }

    /// Writes a value plainly.
    pub fn display<T: Display>(&mut self, value: &T) {
        let written = write!(self.text, "{value}");
        self.note(written);
    }

    /// Writes a value in full.
    pub fn debug<T: Debug>(&mut self, value: &T) {
        let written = write!(self.text, "{value:?}");
        self.note(written);
    }

    /// Writes the words of a memory.
    pub fn words<R: BitRegister>(&mut self, memory: &[R]) {
        let written = write_words(&mut self.text, memory);
        self.note(written);
    }

    /// The words of a memory's text.
    pub fn memory<R: BitRegister>(&mut self, text: &str) -> Option<Vec<R, &'a Global>> {
        match words_of::<R, Global>(self.alloc, text) {
            Ok(words) => words,
            Err(_) => {
                self.is_refused = true;
                None
            }
        }
    }

    /// The words of a text with these between them.
    pub fn pieces<'t>(&mut self, text: &'t str, between: char) -> Option<Vec<&'t str, &'a Global>> {
        match text.split(between).collect(self.alloc) {
            Ok(words) => Some(words),
            Err(_) => {
                self.is_refused = true;
                None
            }
        }
    }

    /// The text of words, with a space after each.
    pub fn joined(&mut self, words: &[&str]) -> String<&'a Global> {
        let mut text = String::new(self.alloc);
        for word in words {
            let written = write!(text, "{word} ");
            self.note(written);
        }
        text
    }
}
