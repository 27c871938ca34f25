//! Slices of bits, for reading and for writing.
//!
//! The calls stand by subject: what is counted and found (`count_ones`, `first_zero`, `find_zeros`)
//! in `find.rt`, edits in `edit.rt`, `edit_range.rt` and `moves.rt`, sets in `combine.rt`,
//! comparisons in `compare.rt`, the types and single bits in `bit_slice.rt` and `bit_slice_mut.rt`.

mod ahead;
mod bit_slice;
mod bit_slice_mut;
mod chunks;
mod combine;
mod compare;
mod edit;
mod edit_range;
mod equal;
mod find;
mod free_from;
mod free_runs;
mod iter;
mod moves;
mod next;
mod ones;
mod operators;
mod parts;
mod pattern;
mod question;
mod readers;
mod runs;
mod text;
mod turn;
mod whole;
mod windows;
mod words;

pub use self::bit_slice::BitSlice;
pub use self::bit_slice_mut::BitSliceMut;
pub use self::chunks::{Chunks, ChunksExact, RChunks};
pub use self::iter::Iter;
pub use self::ones::{IterOnes, IterZeros};
pub use self::readers::ReadBits;
pub use self::runs::IterRuns;
pub use self::text::TextError;
pub use self::windows::Windows;
