//! The sums of some of a few numbers, by unions of a set with itself.

use bitvec::order::Lsb0;
use bitvec::ptr::combine::Or;
use bitvec_slice::slice::{BitSlice, BitSliceMut};
use std::io;

// The numbers, each of which is taken once or not at all.
const NUMBERS: [usize; 6] = [3, 34, 4, 12, 5, 2];

// The set of the sums below 61: that of no number is 0, and with each number come the sums with it.
fn sums() -> u64 {
    let mut memory = [1u64];
    if let Ok(mut set) = BitSliceMut::<u64, Lsb0>::all(&mut memory) {
        for number in NUMBERS {
            if number <= set.len() {
                set.combine_within::<Or>(0..set.len() - number, number);
            }
        }
    }
    memory[0]
}

/// Prints the sums from 1 to 60, ten a line.
pub fn show(rt: &impl Print) -> io::Result<()> {
    let memory = [sums()];
    let Ok(set) = BitSlice::<u64, Lsb0>::all(&memory) else {
        return Ok(());
    };
    let mut printed: usize = 0;
    for sum in set.iter_ones() {
        if 0 < sum && sum <= 60 {
            if printed % 10 == 0 && 0 < printed {
                println!(rt; "")?;
            }
            print!(rt; "{sum:4}")?;
            printed = printed.wrapping_add(1);
        }
    }
    println!(rt; "")
}
