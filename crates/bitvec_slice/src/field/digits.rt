//! Numbers of the bits of slices by their order in the slice alone, the first bit the lowest digit
//! or the highest, so the same under every order and register.

ghost use Rattle.std.specs.Prelude.{◌≡◌, ◌-◌, ◌%◌, ◌^◌, ◌≤◌, length, slice_range};
ghost use Rattle.bitvec.specs.BitSpan.{span_of, list_by, Becomes};
ghost use Rattle.bitvec.specs.Order.{Rises, Falls};
ghost use Rattle.bitvec.specs.Span.{Fits};
ghost use Rattle.bitvec_slice.specs.BitSlice.{slice_len, slice_bits};
ghost use Rattle.bitvec_slice.specs.Numbers.{number_le, number_be, digits_le, digits_be};
ghost use Rattle.bitvec_slice.specs.Ranges.{with_range, KeepsStretches};

use crate::field::{load, store};
use crate::slice::{BitSlice, BitSliceMut};
use bitvec::mem::BitRegister;
use bitvec::order::{BitOrder, Direction, Lsb0, Msb0, direction_of};
use bitvec::ptr::span::BitSpan;

// The places of a span, by the positions of another order.
#[inline(always)]
fn places_of<R: BitRegister, O, O2>(span: BitSpan<R, O>) -> BitSpan<R, O2>
    ensures { span_of result ≡ span_of span }
{
    BitSpan::new_unchecked(span.address(), span.head(), span.len())
}

// The number of a span's bits, the first the lowest, in an order whose positions rise.
#[inline(always)]
fn load_rising<R: BitRegister, O: BitOrder<R>, N: BitRegister>(
    span: BitSpan<R, O>,
    memory: &[R],
) -> N
    requires order { Rises R.BITS O.at_of }
    requires fits { Fits R.BITS (span_of span) (length memory.now) }
    requires small { (span_of span).len ≤ N.BITS }
    ensures { N.number result ≡ number_le (list_by span O.at_of memory.now) }
{
    let places: BitSpan<R, Lsb0> = places_of(span);
    load(places, memory, false)
}

// The number of a span's bits, the first the highest, in an order whose positions fall.
#[inline(always)]
fn load_falling<R: BitRegister, O: BitOrder<R>, N: BitRegister>(
    span: BitSpan<R, O>,
    memory: &[R],
) -> N
    requires order { Falls R.BITS O.at_of }
    requires fits { Fits R.BITS (span_of span) (length memory.now) }
    requires small { (span_of span).len ≤ N.BITS }
    ensures { N.number result ≡ number_be (list_by span O.at_of memory.now) }
{
    let places: BitSpan<R, Msb0> = places_of(span);
    load(places, memory, true)
}

// Makes a span's bits the lowest digits of a number, the lowest first, in an order whose positions
// rise.
#[inline(always)]
fn store_rising<R: BitRegister, O: BitOrder<R>, N: BitRegister>(
    span: BitSpan<R, O>,
    memory: &mut [R],
    value: N,
)
    requires order { Rises R.BITS O.at_of }
    requires fits { Fits R.BITS (span_of span) (length memory.old) }
    requires small { (span_of span).len ≤ N.BITS }
    ensures { Becomes span O.at_of memory.old memory.new
        (digits_le (span_of span).len (N.number value)) }
{
    let places: BitSpan<R, Lsb0> = places_of(span);
    store(places, memory, value, false);
}

// Makes a span's bits the lowest digits of a number, the highest of them first, in an order whose
// positions fall.
#[inline(always)]
fn store_falling<R: BitRegister, O: BitOrder<R>, N: BitRegister>(
    span: BitSpan<R, O>,
    memory: &mut [R],
    value: N,
)
    requires order { Falls R.BITS O.at_of }
    requires fits { Fits R.BITS (span_of span) (length memory.old) }
    requires small { (span_of span).len ≤ N.BITS }
    ensures { Becomes span O.at_of memory.old memory.new
        (digits_be (span_of span).len (N.number value)) }
{
    let places: BitSpan<R, Msb0> = places_of(span);
    store(places, memory, value, true);
}

// The number of a slice's bits, the first the lowest, by a copy to a word.
#[inline(never)]
fn load_copied_le<R: BitRegister, O: BitOrder<R>, N: BitRegister>(part: BitSlice<'_, R, O>) -> N
    requires { slice_len part ≤ N.BITS }
    ensures { N.number result ≡ number_le (slice_bits part.entry) }
{
    let mut words = [0u128];
    let places: BitSpan<u128, Lsb0> = BitSpan::at_unchecked(0, part.len());
    let mut digits = BitSliceMut::new_unchecked(places, &mut words);
    digits.copy_from_bitslice(part);
    digits.load_le()
}

// The number of a slice's bits, the first the highest, by a copy to a word.
#[inline(never)]
fn load_copied_be<R: BitRegister, O: BitOrder<R>, N: BitRegister>(part: BitSlice<'_, R, O>) -> N
    requires { slice_len part ≤ N.BITS }
    ensures { N.number result ≡ number_be (slice_bits part.entry) }
{
    let mut words = [0u128];
    let places: BitSpan<u128, Msb0> = BitSpan::at_unchecked(0, part.len());
    let mut digits = BitSliceMut::new_unchecked(places, &mut words);
    digits.copy_from_bitslice(part);
    digits.load_be()
}

impl<'a, R: BitRegister, O: BitOrder<R>> BitSlice<'a, R, O> {
    // The bits from number `from` to before number `to`.
    #[inline(always)]
    fn bits_between(&self, from: usize, to: usize) -> Self
        requires ordered { from ≤ to }
        requires inside { to ≤ slice_len self.now }
        ensures bits { slice_bits result ≡ slice_range (slice_bits self.now) from to }
        ensures len { slice_len result ≡ to - from }
    {
        BitSlice {
            memory: self.memory,
            span: self.span.range(from, to),
        }
    }

    /// The number whose digits the bits from number `from` to before number `to` are, the first the
    /// lowest; so the same under every order and register. No bits are 0.
    ///
    /// Requires that `from` is at most `to`, `to` at most the length, and that the part has no more
    /// bits than the number type has digits. By words where positions rise with the index, else by
    /// bits. Not in the Rust crate, whose `load_le` has the bits of a word in the word's own order.
    ///
    /// # Examples
    ///
    /// ```
    /// let memory = [0x2Cu8];
    /// let slice = BitSlice::<u8, Msb0>::all_unchecked(&memory);
    /// assert_eq!(rt; slice.load_digits_le::<u32>(2, 6), 13);
    /// assert_eq!(rt; slice.load_digits_be::<u32>(2, 6), 11);
    /// ```
    #[inline(always)]
    pub fn load_digits_le<N: BitRegister>(&self, from: usize, to: usize) -> N
        requires ordered { from ≤ to }
        requires inside { to ≤ slice_len self.now }
        requires small { to - from ≤ N.BITS }
        ensures { N.number result ≡ number_le (slice_range (slice_bits self.now) from to) }
    {
        let part = self.bits_between(from, to);
        match direction_of::<R, O>() {
            Direction::Rises => load_rising(part.span, part.memory),
            Direction::Falls | Direction::Other => load_copied_le(part),
        }
    }

    /// The number whose digits the bits from number `from` to before number `to` are, the first the
    /// highest; so the same under every order and register. No bits are 0.
    ///
    /// Requires that `from` is at most `to`, `to` at most the length, and that the part has no more
    /// bits than the number type has digits. By words where positions fall with the index, else by
    /// bits. Not in the Rust crate, whose `load_be` has the bits of a word in the word's own order.
    #[inline(always)]
    pub fn load_digits_be<N: BitRegister>(&self, from: usize, to: usize) -> N
        requires ordered { from ≤ to }
        requires inside { to ≤ slice_len self.now }
        requires small { to - from ≤ N.BITS }
        ensures { N.number result ≡ number_be (slice_range (slice_bits self.now) from to) }
    {
        let part = self.bits_between(from, to);
        match direction_of::<R, O>() {
            Direction::Falls => load_falling(part.span, part.memory),
            Direction::Rises | Direction::Other => load_copied_be(part),
        }
    }
}

impl<'a, R: BitRegister, O: BitOrder<R>> BitSliceMut<'a, R, O> {
    ghost use Rattle.bitvec_slice.specs.BitSliceMut.{lent_len, lent_bits, BecomesBits};

    /// The number that [`load_digits_le`](BitSlice::load_digits_le) of
    /// [`as_bitslice`](BitSliceMut::as_bitslice) gives, with what that requires. By words where
    /// positions rise with the index, else by bits. Not in the Rust crate.
    #[inline(always)]
    pub fn load_digits_le<N: BitRegister>(&self, from: usize, to: usize) -> N
        requires ordered { from ≤ to }
        requires inside { to ≤ lent_len self.now }
        requires small { to - from ≤ N.BITS }
        ensures { N.number result ≡ number_le (slice_range (lent_bits self.now) from to) }
    {
        self.as_bitslice().load_digits_le(from, to)
    }

    /// The number that [`load_digits_be`](BitSlice::load_digits_be) of
    /// [`as_bitslice`](BitSliceMut::as_bitslice) gives, with what that requires. By words where
    /// positions fall with the index, else by bits. Not in the Rust crate.
    #[inline(always)]
    pub fn load_digits_be<N: BitRegister>(&self, from: usize, to: usize) -> N
        requires ordered { from ≤ to }
        requires inside { to ≤ lent_len self.now }
        requires small { to - from ≤ N.BITS }
        ensures { N.number result ≡ number_be (slice_range (lent_bits self.now) from to) }
    {
        self.as_bitslice().load_digits_be(from, to)
    }

    // The edit of `store_digits_le`, in an order whose positions rise.
    #[inline(always)]
    fn store_rising_range<N: BitRegister>(&mut self, from: usize, to: usize, value: N)
        requires order { Rises R.BITS O.at_of }
        requires ordered { from ≤ to }
        requires inside { to ≤ lent_len self.old }
        requires small { to - from ≤ N.BITS }
        ensures bits { BecomesBits self.old self.new (with_range (lent_bits self.old) from to
            (digits_le (to - from) (N.number value))) }
        ensures loaded { number_le (slice_range (lent_bits self.new) from to)
            ≡ N.number value % 2 ^ (to - from) }
        ensures beside { KeepsStretches from to (lent_bits self.old) (lent_bits self.new) }
    {
        let part = self.part(from, to);
        let memory = &mut *self.memory;
        store_rising(part, memory, value);
    }

    // The edit of `store_digits_be`, in an order whose positions fall.
    #[inline(always)]
    fn store_falling_range<N: BitRegister>(&mut self, from: usize, to: usize, value: N)
        requires order { Falls R.BITS O.at_of }
        requires ordered { from ≤ to }
        requires inside { to ≤ lent_len self.old }
        requires small { to - from ≤ N.BITS }
        ensures bits { BecomesBits self.old self.new (with_range (lent_bits self.old) from to
            (digits_be (to - from) (N.number value))) }
        ensures loaded { number_be (slice_range (lent_bits self.new) from to)
            ≡ N.number value % 2 ^ (to - from) }
        ensures beside { KeepsStretches from to (lent_bits self.old) (lent_bits self.new) }
    {
        let part = self.part(from, to);
        let memory = &mut *self.memory;
        store_falling(part, memory, value);
    }

    // The edit of `store_digits_le`, by a copy from a word.
    #[inline(never)]
    fn store_copied_le<N: BitRegister>(&mut self, from: usize, to: usize, value: N)
        requires ordered { from ≤ to }
        requires inside { to ≤ lent_len self.old }
        requires small { to - from ≤ N.BITS }
        ensures bits { BecomesBits self.old self.new (with_range (lent_bits self.old) from to
            (digits_le (to - from) (N.number value))) }
        ensures loaded { number_le (slice_range (lent_bits self.new) from to)
            ≡ N.number value % 2 ^ (to - from) }
        ensures beside { KeepsStretches from to (lent_bits self.old) (lent_bits self.new) }
    {
        let words = [value.to_u128()];
        let word = BitSlice::<u128, Lsb0>::all_unchecked(&words);
        let (digits, _) = word.split_at(to - from);
        self.copy_from_range(from, digits);
    }

    // The edit of `store_digits_be`, by a copy from a word.
    #[inline(never)]
    fn store_copied_be<N: BitRegister>(&mut self, from: usize, to: usize, value: N)
        requires ordered { from ≤ to }
        requires inside { to ≤ lent_len self.old }
        requires small { to - from ≤ N.BITS }
        ensures bits { BecomesBits self.old self.new (with_range (lent_bits self.old) from to
            (digits_be (to - from) (N.number value))) }
        ensures loaded { number_be (slice_range (lent_bits self.new) from to)
            ≡ N.number value % 2 ^ (to - from) }
        ensures beside { KeepsStretches from to (lent_bits self.old) (lent_bits self.new) }
    {
        let words = [value.to_u128()];
        let word = BitSlice::<u128, Msb0>::all_unchecked(&words);
        let (_, digits) = word.split_at(128 - (to - from));
        self.copy_from_range(from, digits);
    }

    /// Makes the bits from number `from` to before number `to` the lowest `to - from` digits of a
    /// number, the first bit the lowest. [`load_digits_le`](BitSlice::load_digits_le) of these bits
    /// gives the digits back.
    ///
    /// Requires that `from` is at most `to`, `to` at most the length, and that the part has no more
    /// bits than the number type has digits. By words where positions rise with the index, else by
    /// bits. Not in the Rust crate.
    ///
    /// # Examples
    ///
    /// ```
    /// let mut memory = [0x00u8];
    /// let mut slice = BitSliceMut::<u8, Msb0>::all_unchecked(&mut memory);
    /// slice.store_digits_le(2, 6, 13u32);
    /// assert_eq!(rt; memory, [0x2C]);
    /// ```
    #[inline(always)]
    pub fn store_digits_le<N: BitRegister>(&mut self, from: usize, to: usize, value: N)
        requires ordered { from ≤ to }
        requires inside { to ≤ lent_len self.old }
        requires small { to - from ≤ N.BITS }
        ensures bits { BecomesBits self.old self.new (with_range (lent_bits self.old) from to
            (digits_le (to - from) (N.number value))) }
        ensures loaded { number_le (slice_range (lent_bits self.new) from to)
            ≡ N.number value % 2 ^ (to - from) }
        ensures beside { KeepsStretches from to (lent_bits self.old) (lent_bits self.new) }
    {
        match direction_of::<R, O>() {
            Direction::Rises => self.store_rising_range(from, to, value),
            Direction::Falls | Direction::Other => self.store_copied_le(from, to, value),
        }
    }

    /// Makes the bits from number `from` to before number `to` the lowest `to - from` digits of a
    /// number, the first bit the highest of them. [`load_digits_be`](BitSlice::load_digits_be) of
    /// these bits gives the digits back.
    ///
    /// Requires that `from` is at most `to`, `to` at most the length, and that the part has no more
    /// bits than the number type has digits. By words where positions fall with the index, else by
    /// bits. Not in the Rust crate.
    #[inline(always)]
    pub fn store_digits_be<N: BitRegister>(&mut self, from: usize, to: usize, value: N)
        requires ordered { from ≤ to }
        requires inside { to ≤ lent_len self.old }
        requires small { to - from ≤ N.BITS }
        ensures bits { BecomesBits self.old self.new (with_range (lent_bits self.old) from to
            (digits_be (to - from) (N.number value))) }
        ensures loaded { number_be (slice_range (lent_bits self.new) from to)
            ≡ N.number value % 2 ^ (to - from) }
        ensures beside { KeepsStretches from to (lent_bits self.old) (lent_bits self.new) }
    {
        match direction_of::<R, O>() {
            Direction::Falls => self.store_falling_range(from, to, value),
            Direction::Rises | Direction::Other => self.store_copied_be(from, to, value),
        }
    }
}
