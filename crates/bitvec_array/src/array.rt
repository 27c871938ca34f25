//! Arrays of bits.

mod bit_array;
mod edit;
mod edit_range;
mod equal;
mod moves;
mod operators;
mod readers;
mod text;
mod zero;

pub use self::bit_array::BitArray;
pub use self::zero::ZeroArray;
