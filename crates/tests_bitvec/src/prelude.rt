//! The names that one line brings in.
//!
//! Which order and which operator each of the line's names stands for is proved, as the values that
//! a test compares would be the same of one under another's name.

ghost use Rattle.std.specs.Prelude.{◌≡◌, ◌-◌, ◌<◌, ◌&&◌, ◌||◌, ℕ, not};
ghost use Rattle.bitvec.specs.Digit.{digit, exclusive_or};

use bitvec::prelude::*;

fn position_in_lsb0<R: BitRegister>(index: BitIdx<R>) -> BitPos<R>
    ensures { result ≡ index }
{
    <Lsb0 as BitAt<R>>::at(index)
}

fn position_in_msb0<R: BitRegister>(index: BitIdx<R>) -> BitPos<R>
    ensures { result ≡ R.MASK - index }
{
    <Msb0 as BitAt<R>>::at(index)
}

fn position_in_local_bits<R: BitRegister>(index: BitIdx<R>) -> BitPos<R>
    ensures { result ≡ index }
{
    <LocalBits as BitAt<R>>::at(index)
}

fn and_of_words<R: BitRegister>(old: R, with: R) -> R
    ensures { (p : ℕ) → p < R.BITS → digit (R.number result) p
        ≡ (digit (R.number old) p && digit (R.number with) p) }
{
    And::word(old, with)
}

fn or_of_words<R: BitRegister>(old: R, with: R) -> R
    ensures { (p : ℕ) → p < R.BITS → digit (R.number result) p
        ≡ (digit (R.number old) p || digit (R.number with) p) }
{
    Or::word(old, with)
}

fn xor_of_words<R: BitRegister>(old: R, with: R) -> R
    ensures { (p : ℕ) → p < R.BITS → digit (R.number result) p
        ≡ exclusive_or (digit (R.number old) p) (digit (R.number with) p) }
{
    Xor::word(old, with)
}

fn and_not_of_words<R: BitRegister>(old: R, with: R) -> R
    ensures { (p : ℕ) → p < R.BITS → digit (R.number result) p
        ≡ (digit (R.number old) p && not (digit (R.number with) p)) }
{
    AndNot::word(old, with)
}

#[test]
fn one_line_serves(rt: HostRuntime) {
    let pointer = BitPtr::<u8, Msb0>::DANGLING;
    assert_eq!(rt;
        (
            BitIdx::<u8>::MAX.into_inner(),
            BitMask::<u16>::ALL.into_inner(),
            pointer.address()
        ),
        (7, 0xFFFF, 0)
    );
    assert_eq!(rt; (u32::BITS, BitElement::new(3u64).elem), (32, 3));
    assert_eq!(rt;
        [
            BitPtrRange::<u8, LocalBits>::EMPTY.is_empty(),
            BitSpan::<u8, Lsb0>::EMPTY.is_empty(),
            Reply::Word(0u8) != Reply::Done
        ],
        [true; 3]
    );
}
