//! A free map for a file system or an allocator of pages: which blocks of a store are in use, one
//! bit a block, in words that the caller lends.
//!
//! Blocks are handed out one by one or in runs, the lowest first, and taken back. A contract speaks
//! of one list, whether each block is in use, and of who owns which ranges; where the bits lie in
//! words is no concern of it. Nothing here allocates memory, and nothing is in the Rust crate
//! `bitvec`.
#![tactic(auto)]

mod calls;
pub mod history;
pub mod level;
pub mod leveled;
pub mod map;
mod runs;
mod stack;

pub use crate::level::{Level, PlainLevel};
pub use crate::leveled::{LeveledMap, StackedLevel, TwoLevels};
pub use crate::map::FreeMap;
pub use crate::runs::FreeRuns;
pub use crate::stack::two_levels;
