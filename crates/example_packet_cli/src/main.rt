//! A packet header, written and read under two orders.
#![tactic(auto)]

use bitvec::order::{BitOrder, Lsb0, Msb0};
use example_packet::header::{FLAGS, Header, read, write};
use std::io;

const HEADER: Header = Header {
    version: 4,
    class: 46,
    flags: 2,
    length: 1500,
};

fn main(rt: HostRuntime) -> io::Result<()> {
    show::<Lsb0>(&rt, "Lsb0")?;
    show::<Msb0>(&rt, "Msb0")
}

// Writes the header under an order, then the flags alone, and prints the word and what is read
// back.
fn show<O: BitOrder<u32>>(rt: &impl Print, order: &str) -> io::Result<()> {
    let mut memory = [0];
    if !write::<O>(&HEADER, &mut memory) {
        return println!(rt; "{order} has no room");
    }
    println!(rt; "{order}")?;
    show_memory::<O>(rt, &memory)?;
    FLAGS.put::<O>(&mut memory, 1);
    show_memory::<O>(rt, &memory)
}

// Prints the word of a memory, and the header in it.
fn show_memory<O: BitOrder<u32>>(rt: &impl Print, memory: &[u32; 1]) -> io::Result<()> {
    let [word] = *memory;
    let Header {
        version,
        class,
        flags,
        length,
    } = read::<O>(memory);
    println!(rt; "{word:08x} version {version} class {class} flags {flags} length {length}")
}
