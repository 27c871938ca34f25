//! What holds of every complete code, as a call whose contract is the law.

ghost use Rattle.example_huffman.specs.Laws.{OneSymbol, SomeSymbol};

/// The bits of a text begin with one code and no other.
///
/// `one`: with at most one. `some`: with one, where there are at least 15 bits. It does nothing when
/// it runs.
pub fn one_code()
    ensures one { OneSymbol }
    ensures some { SomeSymbol }
{}
