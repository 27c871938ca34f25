//! A free map from the command line: `freemap 64 alloc:3 alloc:5 free:0:3 reserve:10:4 show`.
//!
//! The first word is how many blocks there are, at most 65536, and each other word is a command. A
//! line answers each, and `show` is answered by a picture of the map, 64 blocks a line. Where a
//! word is none of these, one line says which, nothing else is done, and the status is 2.
#![tactic(auto)]

mod command;

use crate::command::Command;
use bits_text::arguments::{ArgumentsError, arguments};
use bits_text::number::place;
use bitvec::order::Lsb0;
use freemap::FreeMap;
use freemap::map::has_room;
use std::env::Env;
use std::io;
use std::process::ExitCode;

// How many words the largest map has.
const WORDS: usize = 1024;

fn main(rt: HostRuntime) -> ExitCode {
    ExitCode::from(status(&rt).unwrap_or(4))
}

// The exit status: 0 after answers, 2 where a word is ill-formed, and 3 where the words are not read.
fn status<R: Env + AllocGlobal + Print>(rt: &R) -> io::Result<u8> {
    let words = match arguments(rt) {
        Ok(words) => words,
        Err(error) => return unread(rt, error),
    };
    let [blocks, commands @ ..] = words.as_slice() else {
        println!(rt; "usage: freemap BLOCKS COMMAND..")?;
        return Ok(2);
    };
    let mut memory = [0; WORDS];
    let Some(mut map) = map_of(&mut memory, blocks.as_str()) else {
        println!(rt; "no number of blocks up to 65536: {blocks}")?;
        return Ok(2);
    };
    for word in commands {
        if Command::of(word.as_str()).is_none() {
            println!(rt; "no command: {word}")?;
            return Ok(2);
        }
    }
    for word in commands {
        if let Some(command) = Command::of(word.as_str()) {
            answer(rt, &mut map, word.as_str(), command)?;
        }
    }
    Ok(0)
}

// Says why the words are not read.
fn unread(rt: &impl Print, error: ArgumentsError) -> io::Result<u8> {
    let line = error.line();
    print!(rt; "{line}")?;
    Ok(3)
}

// The map of as many blocks as a text says, all free.
fn map_of<'a>(memory: &'a mut [u64], blocks: &str) -> Option<FreeMap<'a, Lsb0>> {
    let blocks = place(blocks)? as usize;
    if !has_room(memory.len(), blocks) {
        return None;
    }
    Some(FreeMap::new_unchecked(memory, blocks))
}

// Does what a command says, and prints its answer behind its word.
fn answer(
    rt: &impl Print,
    map: &mut FreeMap<'_, Lsb0>,
    word: &str,
    command: Command,
) -> io::Result<()> {
    let at = match command {
        Command::Alloc(count) => map.alloc_run(count),
        Command::Aligned(count, alignment) => aligned(map, count, alignment),
        Command::After(block) => map.alloc_at_or_after(block),
        Command::Reserve(at, count) => map.reserve(at, count).then_some(at),
        Command::Free(at, count) => give_back(map, at, count),
        Command::Show => return show(rt, map),
    };
    match at {
        Some(at) => println!(rt; "{word}: {at}"),
        None => println!(rt; "{word}: none"),
    }
}

// Hands out blocks from a multiple of a number on, and none where that is 0.
fn aligned(map: &mut FreeMap<'_, Lsb0>, count: usize, alignment: usize) -> Option<usize> {
    if alignment == 0 {
        return None;
    }
    map.alloc_run_aligned(count, alignment)
}

// Takes blocks back where all are in use, and returns the first.
fn give_back(map: &mut FreeMap<'_, Lsb0>, at: usize, count: usize) -> Option<usize> {
    if !map.is_in_use(at, count) {
        return None;
    }
    map.free(at, count);
    Some(at)
}

// Prints the blocks in order, 64 a line: a full stop for a free one, and `#` for one in use.
fn show(rt: &impl Print, map: &FreeMap<'_, Lsb0>) -> io::Result<()> {
    let blocks = map.blocks();
    for block in 0..blocks {
        let mark = if map.is_free(block, 1) { "." } else { "#" };
        print!(rt; "{mark}")?;
        if block % 64 == 63 || block == blocks - 1 {
            println!(rt; "")?;
        }
    }
    Ok(())
}
