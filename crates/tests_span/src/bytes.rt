//! The bits of a memory of words as the bits of their bytes.

ghost use Rattle.std.specs.Prelude.{ℕ, ◌<◌};
ghost use Rattle.tests_span.specs.Bytes.{LowBytes, HighBytes};

/// Under `Lsb0` the bits of words are those of their bytes, the lowest byte of each first, and
/// under `Msb0` with the highest first: `n` is how many bytes a word has. It takes and returns
/// nothing; its contracts are the laws.
fn words_are_their_bytes()
    ensures low { (n : ℕ) → 0 < n → LowBytes n }
    ensures high { (n : ℕ) → 0 < n → HighBytes n }
{}

#[test]
fn words_of_bytes(_rt: HostRuntime) {
    words_are_their_bytes();
}
