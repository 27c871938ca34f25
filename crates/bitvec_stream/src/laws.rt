//! What holds of numbers in a row whatever slice they lie in, as a call whose contract is the law.

ghost use Rattle.bitvec_stream.specs.Items.{WrittenIsRead};
ghost use Rattle.bitvec_stream.specs.Rows.{RowIsRead, RowIsWritten};

/// What was written is read, and nothing else.
///
/// A way to write a number is an Exp-Golomb code, or a given number of bits: the highest digit
/// first or the lowest, as an unsigned number or as a two's complement. From a list that begins
/// with numbers, each written in a way, the same ways read these numbers one behind the other, and
/// leave what stands behind them. That reading exists, and there is no other. A writer's contract
/// says that a number is written so, and a reader's that one is read so. It does nothing when it
/// runs. Not in the Rust crate.
pub fn written_is_read()
    ensures { WrittenIsRead }
{}

/// The same of a row of numbers that `write_be` writes and `read_be` reads, in the words of their
/// contracts, and the other way round.
///
/// `read`: from bits that begin with those of a row, numbers in as many bits each are this row's
/// numbers, and what stands behind them is left. `written`: numbers that were read, written in as
/// many bits each, are the bits that they were read from, and none has too many digits. It does
/// nothing when it runs. Not in the Rust crate.
pub fn row_is_read()
    ensures read { RowIsRead }
    ensures written { RowIsWritten }
{}
