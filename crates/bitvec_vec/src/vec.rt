//! Vectors of bits.

mod bit_vec;
mod bools;
mod edit;
mod edit_range;
mod ends;
mod equal;
mod front;
mod grow;
mod insert;
mod make;
mod moves;
mod readers;
mod sets;
mod text;

pub use self::bit_vec::BitVec;
pub use self::text::FromTextError;
