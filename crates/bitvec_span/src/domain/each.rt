//! All items of a domain, handed to a function one by one.

ghost use Rattle.std.specs.Prelude.{map};
ghost use Rattle.bitvec_span.specs.Parts.{items, part_items, value_of, whole_part};
ghost use Rattle.bitvec_span.specs.Domain.{domain_parts, optional_part};
ghost use Rattle.bitvec_span.specs.Each.{IsCalledWith};

use super::{Domain, PartialElement};
use bitvec_mem::mem::BitRegister;
use bitvec_order::order::BitOrder;

impl<'a, R: BitRegister, O: BitOrder<R>> Domain<'a, R, O> {
    /// Calls a function with each item in turn, as a loop over the domain would, and returns it as
    /// the calls leave it.
    ///
    /// The whole words are a loop of their own, which asks at no word what comes next; so it is
    /// faster than the domain's own iterator. A caller's contract knows the calls, and not what the
    /// function does to what it borrows: take a loop for that. By words. Not in the Rust crate.
    ///
    /// # Examples
    ///
    /// ```
    /// let memory = [0x12u8, 0x34, 0x56];
    /// let span: BitSpan<u8, Lsb0> = BitSpan::new(0, BitIdx::new_unchecked(4), 16).unwrap();
    /// let mut sum = 0;
    /// span.domain(&memory).each(|word| sum ^= word);
    /// assert_eq!(rt; sum, 0x10 ^ 0x34 ^ 0x06);
    /// ```
    #[inline(always)]
    pub fn each<F: FnMut(R)>(self, f: F) -> F
        requires { F.IsAlwaysCallable f }
        ensures callable { F.IsAlwaysCallable result }
        ensures called { IsCalledWith R.number (λ p w q. F.step p w tt q)
            (items R.BITS O.at_of (domain_parts R.number self.entry)) f result }
    {
        match self {
            Domain::Enclave(part) => hand(Some(part), f),
            Domain::Region { head, body, tail } => {
                hand(tail, hand_whole::<R, O, F>(body, hand(head, f)))
            }
        }
    }
}

// Calls a function with a part, if there is one, and returns the function as the call leaves it.
#[inline(always)]
fn hand<R: BitRegister, O: BitOrder<R>, F: FnMut(R)>(
    part: Option<PartialElement<'_, R, O>>,
    mut f: F,
) -> F
    requires { F.IsAlwaysCallable f }
    ensures callable { F.IsAlwaysCallable result }
    ensures called { IsCalledWith R.number (λ p w q. F.step p w tt q)
        (part_items R.BITS O.at_of (optional_part R.number part.entry)) f result }
{
    if let Some(part) = part {
        f(part.load_value());
    }
    f
}

// The same with each of these words, which are whole.
#[inline(always)]
fn hand_whole<R: BitRegister, O: BitOrder<R>, F: FnMut(R)>(words: &[R], mut f: F) -> F
    requires { F.IsAlwaysCallable f }
    ensures callable { F.IsAlwaysCallable result }
    ensures called { IsCalledWith R.number (λ p w q. F.step p w tt q)
        (map (λ w. value_of R.BITS O.at_of (whole_part R.BITS w)) (map R.number words.now)) f result }
{
    let mut rest = words;
    while let Some((word, more)) = rest.split_first() {
        // The call says that the number is one of the register's, and costs nothing.
        let _number = word.to_u128();
        f(*word);
        rest = more;
    }
    f
}
