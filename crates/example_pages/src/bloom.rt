//! A Bloom filter: a set of keys that may say of a key that it has it though it was never inserted,
//! and never the other way round.

ghost use Rattle.std.specs.Prelude.{◌≡◌, ◌↔◌, ◌+◌, ◌<◌, ◌≤◌, ◌⊎◌, ◌||◌, ℕ, true, false, length};
ghost use Rattle.std.specs.Prelude.{replicate, slice_set, IsTrue, IsSome, IfSome};
ghost use Rattle.bitvec.specs.Memory.{zip_with};
ghost use Rattle.bitvec.specs.Span.{element};
ghost use Rattle.bitvec.specs.Truths.{ones_in};
ghost use Rattle.bitvec_slice.specs.BitSliceMut.{lent_bits};
ghost use Rattle.example_pages.specs.Keys.{probe_of, HasKey, IsProbe};

use bitvec_slice::prelude::{BitOrder, BitRegister, BitSliceMut, ReadBits};

// How many bits each key has.
const PROBES: usize = 4;

// Which of `bits` bits is probe `i` of a key.
#[tactic(auto, unfolding(crate::specs::Keys::probe_of))]
fn probe(bits: usize, key: u64, i: usize) -> usize
    requires some { 0 < bits }
    requires few { i < 4 }
    ensures value { result ≡ probe_of bits key i }
    ensures below { result < bits }
{
    ((key % 0x1_0000_0000) as usize + i * (key / 0x1_0000_0000) as usize) % bits
}

/// A filter in bits that are lent, at least one.
#[derive(Drop)]
pub struct Bloom<'a, R: BitRegister, O: BitOrder<R>> {
    bits: BitSliceMut<'a, R, O>,
    pub ghost some: { 0 < length (lent_bits bits) },
}

impl<'a, R: BitRegister, O: BitOrder<R>> Bloom<'a, R, O> {
    ghost use Rattle.example_pages.specs.Bloom.{filter_bits, BecomesFilter, MakesFilter};

    /// A filter with no key, and `None` where there are no bits. All bits become zero.
    pub fn new(mut bits: BitSliceMut<'a, R, O>) -> Option<Self>
        ensures accepted { IsSome result ↔ (0 < length (lent_bits bits.entry)) }
        ensures zeros { IfSome result (λ it. filter_bits it
            ≡ replicate (length (lent_bits bits.entry)) false) }
        ensures whole { IfSome result (λ it. MakesFilter bits.entry it
            (replicate (length (lent_bits bits.entry)) false)) }
    {
        if bits.is_empty() {
            return None;
        }
        bits.fill(false);
        Some(Bloom { bits })
    }

    /// How many bits there are.
    pub fn len(&self) -> usize
        ensures { result ≡ length (filter_bits self.now) }
    {
        self.bits.len()
    }

    /// How many bits are set: the fewer, the seldomer a key is found that was never inserted.
    pub fn count_set(&self) -> usize
        ensures { result ≡ ones_in (filter_bits self.now) }
    {
        self.bits.count_ones()
    }

    // Sets a bit. The loop of `insert` goes by these facts, each of which is a goal of its own here.
    #[tactic(auto, using(bitvec_slice::proofs::OneCountLemmas::counts))]
    fn set(&mut self, i: usize)
        requires { i < length (filter_bits self.old) }
        ensures whole { BecomesFilter self.old self.new (slice_set (filter_bits self.old) i true) }
        ensures long { length (filter_bits self.new) ≡ length (filter_bits self.old) }
        ensures set { element (filter_bits self.new) i ≡ true }
        ensures kept { (j : ℕ) → element (filter_bits self.old) j ≡ true
            → element (filter_bits self.new) j ≡ true }
        ensures only { (j : ℕ) → element (filter_bits self.new) j ≡ true
            → (j ≡ i) ⊎ (element (filter_bits self.old) j ≡ true) }
        ensures counted { ones_in (filter_bits self.new) ≤ ones_in (filter_bits self.old) + 1 }
    {
        self.bits.set(i, true);
    }

    /// Inserts a key. At most four bits more are set.
    pub fn insert(&mut self, key: u64)
        ensures inserted { HasKey (filter_bits self.new) key }
        ensures kept { (other : ℕ) → HasKey (filter_bits self.old) other
            → HasKey (filter_bits self.new) other }
        ensures set { (j : ℕ) → element (filter_bits self.old) j ≡ true
            → element (filter_bits self.new) j ≡ true }
        ensures only { (j : ℕ) → element (filter_bits self.new) j ≡ true
            → (element (filter_bits self.old) j ≡ true)
            ⊎ IsProbe (length (filter_bits self.old)) key j }
        ensures long { length (filter_bits self.new) ≡ length (filter_bits self.old) }
        ensures counted { ones_in (filter_bits self.new) ≤ ones_in (filter_bits self.old) + 4 }
    {
        let bits = self.bits.len();
        for i in 0..PROBES {
            self.set(probe(bits, key, i));
        }
    }

    /// Whether a key may have been inserted.
    pub fn contains(&self, key: u64) -> bool
        ensures { IsTrue result ↔ HasKey (filter_bits self.now) key }
    {
        let bits = self.bits.len();
        for i in 0..PROBES {
            if !self.bits.get_unchecked(probe(bits, key, i)) {
                return false;
            }
        }
        true
    }

    /// Takes the keys of another filter in, which may lie in words of another register and order.
    /// Requires that it has as many bits.
    #[tactic(auto, using(bitvec_slice::proofs::OneCountLemmas::counts), unfolding(crate::specs::Keys::probe_of))]
    pub fn unite<R2: BitRegister, O2: BitOrder<R2>>(&mut self, other: &Bloom<'_, R2, O2>)
        requires { length (filter_bits other.now) ≡ length (filter_bits self.old) }
        ensures whole { BecomesFilter self.old self.new
            (zip_with (λ a b. a || b) (filter_bits self.old) (filter_bits other.now)) }
        ensures both { (key : ℕ)
            → HasKey (filter_bits self.old) key ⊎ HasKey (filter_bits other.now) key
            → HasKey (filter_bits self.new) key }
        ensures long { length (filter_bits self.new) ≡ length (filter_bits self.old) }
        ensures counted { ones_in (filter_bits self.new)
            ≤ ones_in (filter_bits self.old) + ones_in (filter_bits other.now) }
    {
        self.bits.or_from(other.bits.as_bitslice());
    }
}
