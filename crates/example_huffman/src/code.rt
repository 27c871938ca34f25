//! The codes of symbols, by the length of each.

ghost use Rattle.std.specs.Prelude.{◌≡◌, ◌↔◌, ◌⊎◌, ◌+◌, ◌-◌, ◌^◌, ◌<◌, ◌≤◌, ℕ, take};
ghost use Rattle.std.specs.Prelude.{IsOk, IfOk, IfErr, IsNone, IfSome, slice_index};
ghost use Rattle.example_huffman.specs.Codes.{codes_of, first_code, behind_codes, IsComplete};
ghost use Rattle.example_huffman.specs.Codes.{code_of, HasCode};

/// The most bits that a code can have.
pub const LONGEST: u8 = 15;

/// How many numbers have this many digits.
const ALL: usize = 32768;

/// Why lengths are refused.
#[derive(Clone, Copy, PartialEq, Eq, Debug, Drop)]
pub enum LengthsError {
    /// A code would have more than 15 bits.
    TooLong,
    /// Codes of these lengths would begin with one another.
    TooMany,
    /// Some bits would begin with no code.
    TooFew,
}

// How many symbols have codes of `len` bits.
fn count(lengths: &[u8], len: usize) -> usize
    ensures { result ≡ codes_of lengths.now len }
{
    lengths.iter().filter(|it| usize::from(**it) == len).count()
}

/// The code of each symbol, where lengths make a complete code.
#[derive(Drop)]
pub struct Code<'a> {
    lengths: &'a [u8],
    // For codes of one bit and up: the first, and what follows the last.
    first: [usize; 15],
    behind: [usize; 15],
    pub ghost complete: { IsComplete lengths.now },
    pub ghost firsts: { (k : ℕ) → k < 15 → slice_index first k ≡ first_code lengths.now k },
    pub ghost behinds: { (k : ℕ) → k < 15 → slice_index behind k ≡ behind_codes lengths.now k },
}

impl<'a> Code<'a> {
    ghost use Rattle.example_huffman.specs.Huffman.{lengths_of, IsLengthsRefusal};

    /// The code whose lengths are these, of each symbol in order, and 0 of one that has no code.
    /// Time is 15 times the number of symbols.
    #[tactic(auto, using(crate::proofs::CodeLemmas::tables))]
    pub fn new(lengths: &'a [u8]) -> Result<Self, LengthsError>
        ensures accepted { IsOk result ↔ IsComplete lengths.now }
        ensures lengths { IfOk result (λ code. lengths_of code ≡ lengths.now) }
        ensures refused { IfErr result (IsLengthsRefusal lengths.now) }
    {
        if !lengths.iter().all(|len| *len <= LONGEST) {
            return Err(LengthsError::TooLong);
        }
        let mut first = [0; 15];
        let mut behind = [0; 15];
        let mut next = 0;
        for shorter in 0..15usize {
            let last = next + count(lengths, shorter + 1);
            if ALL < last {
                return Err(LengthsError::TooMany);
            }
            first[shorter] = next;
            behind[shorter] = last;
            next = 2 * last;
        }
        if behind[14] < ALL {
            return Err(LengthsError::TooFew);
        }
        Ok(Code {
            lengths,
            first,
            behind,
        })
    }

    /// How many bits a symbol's code has, and 0 where it has none. Constant time.
    pub fn len(&self, symbol: usize) -> usize
        ensures value { result ≡ slice_index (lengths_of self.now) symbol }
        ensures most { result ≤ 15 }
    {
        match self.lengths.get(symbol) {
            Some(len) => usize::from(*len),
            None => 0,
        }
    }

    /// A symbol's code, the number of its bits from the highest on. Requires that it has one:
    /// [`len`](Code::len) is the test. Time is the number of symbols.
    #[tactic(auto, using(crate::proofs::CodeLemmas::code_below))]
    pub fn number(&self, symbol: usize) -> usize
        requires { HasCode (lengths_of self.now) symbol }
        ensures value { result ≡ code_of (lengths_of self.now) symbol }
        ensures below { result < 2 ^ slice_index (lengths_of self.now) symbol }
    {
        let len = self.len(symbol);
        self.first[len - 1] + count(&self.lengths[..symbol], len)
    }

    // The symbol that stands behind `rank` others whose codes have `len` bits, and has one too.
    fn symbol(&self, len: usize, rank: usize) -> usize
        requires { rank < codes_of (lengths_of self.now) len }
        ensures len { slice_index (lengths_of self.now) result ≡ len }
        ensures rank { codes_of (take result (lengths_of self.now)) len ≡ rank }
    {
        let mut before = 0;
        for (symbol, it) in self.lengths.iter().enumerate() {
            if usize::from(*it) == len {
                if before == rank {
                    return symbol;
                }
                before += 1;
            }
        }
        unreachable!()
    }

    /// The symbol whose code is this number of `len` bits. `None` exactly where the number lies
    /// before the first code of as many bits or behind the last. Time is the number of symbols.
    ///
    /// Requires that `len` is from 1 to 15.
    pub fn symbol_at(&self, len: usize, number: usize) -> Option<usize>
        requires some { 0 < len }
        requires few { len ≤ 15 }
        ensures none { IsNone result ↔ ((number < first_code (lengths_of self.now) (len - 1))
            ⊎ (behind_codes (lengths_of self.now) (len - 1) ≤ number)) }
        ensures len { IfSome result (λ it. slice_index (lengths_of self.now) it ≡ len) }
        ensures number { IfSome result (λ it. code_of (lengths_of self.now) it ≡ number) }
    {
        let first = self.first[len - 1];
        if number < first || self.behind[len - 1] <= number {
            return None;
        }
        Some(self.symbol(len, number - first))
    }
}
