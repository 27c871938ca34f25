//! The texts of index types.

use crate::answer::Answer;
use bitvec::index::{BitEnd, BitIdx, BitIdxError, BitMask, BitPos, BitSel};
use bitvec::mem::BitRegister;
use std::fmt::{self, Write as _};

/// A type whose values have texts.
#[derive(Clone, Copy)]
pub enum Name {
    Index,
    Error,
    End,
    Position,
    Selector,
    Mask,
}

/// A value with texts.
#[derive(Drop)]
pub enum Shown<R: BitRegister> {
    Index(BitIdx<R>),
    Error(BitIdxError<R>),
    End(BitEnd<R>),
    Position(BitPos<R>),
    Selector(BitSel<R>),
    Mask(BitMask<R>),
}

impl<R: BitRegister> Shown<R> {
    /// The value of a type with a number; an error where it is a number that is no index.
    pub fn of(name: Name, n: u128) -> Option<Self> {
        match name {
            Name::Selector => Some(Shown::Selector(BitSel::new(R::from_u128(n)?)?)),
            Name::Mask => Some(Shown::Mask(BitMask::new(R::from_u128(n)?))),
            Name::End => Some(Shown::End(BitEnd::new(u8::try_from(n).ok()?)?)),
            Name::Position => Some(Shown::Position(BitPos::new(u8::try_from(n).ok()?)?)),
            Name::Index => Some(Shown::Index(BitIdx::new(u8::try_from(n).ok()?).ok()?)),
            Name::Error => Some(Shown::Error(BitIdx::new(u8::try_from(n).ok()?).err()?)),
        }
    }

    /// The value in binary.
    pub fn binary(&self) -> Binary<'_, R> {
        Binary(self)
    }
}

impl<R: BitRegister> fmt::Display for Shown<R> {
    fn fmt<W: fmt::Write>(&self, f: &mut fmt::Formatter<W>) -> fmt::Result {
        match self {
            Shown::Index(index) => fmt::Display::fmt(index, f),
            Shown::Error(error) => fmt::Display::fmt(error, f),
            Shown::End(end) => fmt::Display::fmt(end, f),
            Shown::Position(position) => fmt::Display::fmt(position, f),
            Shown::Selector(selector) => fmt::Display::fmt(selector, f),
            Shown::Mask(mask) => fmt::Display::fmt(mask, f),
        }
    }
}

impl<R: BitRegister> fmt::Debug for Shown<R> {
    fn fmt<W: fmt::Write>(&self, f: &mut fmt::Formatter<W>) -> fmt::Result {
        match self {
            Shown::Index(index) => fmt::Debug::fmt(index, f),
            Shown::Error(error) => fmt::Debug::fmt(error, f),
            Shown::End(end) => fmt::Debug::fmt(end, f),
            Shown::Position(position) => fmt::Debug::fmt(position, f),
            Shown::Selector(selector) => fmt::Debug::fmt(selector, f),
            Shown::Mask(mask) => fmt::Debug::fmt(mask, f),
        }
    }
}

/// A value as its `Binary` shows it, since a format takes that of numbers alone.
#[derive(Drop)]
pub struct Binary<'a, R: BitRegister>(&'a Shown<R>);

impl<R: BitRegister> fmt::Display for Binary<'_, R> {
    fn fmt<W: fmt::Write>(&self, f: &mut fmt::Formatter<W>) -> fmt::Result {
        match self.0 {
            Shown::Index(index) => fmt::Binary::fmt(index, f),
            Shown::Error(error) => fmt::Display::fmt(error, f),
            Shown::End(end) => fmt::Binary::fmt(end, f),
            Shown::Position(position) => fmt::Binary::fmt(position, f),
            Shown::Selector(selector) => fmt::Binary::fmt(selector, f),
            Shown::Mask(mask) => fmt::Binary::fmt(mask, f),
        }
    }
}

/// Writes a value in a format; `None` where there is no such format.
pub fn write_shown<R: BitRegister>(out: &mut Answer, value: &Shown<R>, format: &str) -> Option<()> {
    let binary = value.binary();
    let text = &mut out.text;
    let written = match format {
        "{}" => write!(text, "{value}"),
        "{:?}" => write!(text, "{value:?}"),
        "{:b}" => write!(text, "{binary}"),
        "{:+>90b}" => write!(text, "{binary:+>90}"),
        "{:+>90.1}" => write!(text, "{value:+>90.1}"),
        "{:090.1}" => write!(text, "{value:090.1}"),
        "{:*<+90?}" => write!(text, "{value:*<+90?}"),
        "{:#090?}" => write!(text, "{value:#090?}"),
        _ => return None,
    };
    out.note(written);
    Some(())
}
