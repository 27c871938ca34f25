//! Why a symbol is not written or read.

/// Why symbols are not written. The writer and its bits are then as they were.
#[derive(Clone, Copy, PartialEq, Eq, Debug, Drop)]
pub enum EncodeError {
    /// A symbol has no code.
    NoCode,
    /// There is room for fewer bits than the codes have.
    NoRoom,
}

/// Why no symbol is read. The reader is then as it was.
#[derive(Clone, Copy, PartialEq, Eq, Debug, Drop)]
pub enum DecodeError {
    /// The bits that are left end before a code does. A complete code leaves no other reason.
    Truncated,
}
