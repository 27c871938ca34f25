//! The commands, and how they are written.

use bits_text::number::place;

/// What is done with a map.
#[derive(Clone, Copy)]
pub enum Command {
    /// `alloc:COUNT`: blocks in a row are handed out.
    Alloc(usize),
    /// `aligned:COUNT:ALIGNMENT`: the same, from a multiple of a number on.
    Aligned(usize, usize),
    /// `after:BLOCK`: one block is, not before this one.
    After(usize),
    /// `reserve:AT:COUNT`: these blocks are.
    Reserve(usize, usize),
    /// `free:AT:COUNT`: these blocks are taken back.
    Free(usize, usize),
    /// `show`: the map is shown.
    Show,
}

impl Command {
    /// The command that a word is, if it is one.
    pub fn of(word: &str) -> Option<Self> {
        if word == "show" {
            return Some(Command::Show);
        }
        let (name, rest) = word.split_once(':')?;
        match name {
            "alloc" => Some(Command::Alloc(number(rest)?)),
            "after" => Some(Command::After(number(rest)?)),
            "aligned" | "reserve" | "free" => Self::of_two(name, rest),
            _ => None,
        }
    }

    // The command of a name and two numbers.
    fn of_two(name: &str, rest: &str) -> Option<Self> {
        let (first, second) = rest.split_once(':')?;
        let (first, second) = (number(first)?, number(second)?);
        match name {
            "aligned" if second != 0 => Some(Command::Aligned(first, second)),
            "reserve" => Some(Command::Reserve(first, second)),
            "free" => Some(Command::Free(first, second)),
            _ => None,
        }
    }
}

// A decimal number.
fn number(text: &str) -> Option<usize> {
    Some(place(text)? as usize)
}
