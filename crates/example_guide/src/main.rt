//! Recipes of the guide: its first program, and functions on spans and slices.
#![tactic(auto)]

mod spans;

use bitvec::order::Lsb0;
use bitvec::ptr::span::BitSpan;
use std::io;

fn main(rt: HostRuntime) -> io::Result<()> {
    let mut memory = [0x12, 0x34, 0x56];
    let span: BitSpan<u8, Lsb0> = BitSpan::at(4, 12).unwrap();
    for word in span.domain(&memory) {
        println!(rt; "read {word:02x}")?;
    }
    span.fill(&mut memory, true);
    for word in memory {
        println!(rt; "memory {word:02x}")?;
    }
    Ok(())
}
