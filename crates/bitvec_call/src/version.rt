//! The version of the library.

/// The number of the version: 10000 times its first part, 100 times its second, and its third.
pub const VERSION: u32 = 500;
