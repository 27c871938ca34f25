//! The verifier: whether a candidate is a lawful order, and otherwise its first fault.
//!
//! A candidate is scanned in a fixed order of tests. First come the indices, each with its selector
//! and then its position; then the masks of each pair of present bounds; then those with an absent
//! bound.

ghost use Rattle.std.specs.Prelude.{◌≡◌, ⊤, ◌↔◌, ℕ, ◌<◌, ◌≤◌, OnOk, IsOk};
ghost use Rattle.bitvec_order.specs.Order.{mask_start, mask_end};
ghost use Rattle.bitvec_verify.specs.Scan.{candidate, IsLawful, is_repeated, masked, index_tests};
ghost use Rattle.bitvec_verify.specs.Scan.{start_tests, pair_tests, absent_tests, tests, fault_of};
ghost use Rattle.bitvec_verify.specs.Scan.{first_fault};
ghost use Rattle.bitvec_verify.specs.Verified.{fault_in, VerifiesEach};

use bitvec_mem::mem::BitRegister;
use bitvec_order::index::{BitEnd, BitIdx, BitMask, BitPos, BitSel};
use bitvec_order::order::{BitAt, OrderCandidate, plain_mask};
use std::alloc::AllocError;

/// Where a candidate is not a lawful order of a register: what it gave, and what it should have
/// given.
///
/// Not in the Rust crate, which panics there.
///
/// # Examples
///
/// Positions that are all 0, and their fault:
///
/// ```
/// struct Constant;
///
/// impl<R: BitRegister> Positions<R> for Constant {
///     ghost at_of = { λ i. 0 };
///
///     fn position(_index: u8) -> u8 {
///         0
///     }
/// }
/// ```
///
/// ```
/// let fault = verify_for_type::<u8, ByPosition<Constant>>().err();
/// let (index, position) = (BitIdx::new_unchecked(1), BitPos::MIN);
/// assert_eq!(rt; fault, Some(OrderFault::Repeated { index, position }));
/// ```
#[derive(Copy, PartialEq, Eq, Debug)]
pub enum OrderFault<R: BitRegister> {
    /// The selector of `index` is `got`, and two to the power of its position is `want`.
    Select {
        index: BitIdx<R>,
        got: BitSel<R>,
        want: BitSel<R>,
    },
    /// A lower index has the position of `index` too.
    Repeated {
        index: BitIdx<R>,
        position: BitPos<R>,
    },
    /// The mask of `from` to before `upto` is `got`, and `want` has the positions of the indices
    /// there; a bound that the call left out is `None`.
    Mask {
        from: Option<BitIdx<R>>,
        upto: Option<BitEnd<R>>,
        got: BitMask<R>,
        want: BitMask<R>,
    },
}

impl<R: BitRegister> Clone for OrderFault<R> {
    ghost is_clone = { λ it copy. copy ≡ it };

    ghost is_infallible = { λ _. ⊤ };

    fn clone(&self) -> Result<Self, AllocError> {
        Ok(*self)
    }
}

/// The first register where a candidate is not a lawful order, with its fault there. Not in the
/// Rust crate.
///
/// # Examples
///
/// With the positions `Constant` of the example of [`OrderFault`]:
///
/// ```
/// let fault = verify::<ByPosition<Constant>>().err();
/// let (index, position) = (BitIdx::new_unchecked(1), BitPos::MIN);
/// let repeated = OrderFault::Repeated { index, position };
/// assert_eq!(rt; fault, Some(VerifyFault::U8(repeated)));
/// ```
#[derive(Copy, PartialEq, Eq, Debug)]
pub enum VerifyFault {
    /// At `u8`.
    U8(OrderFault<u8>),
    /// At `u16`.
    U16(OrderFault<u16>),
    /// At `u32`.
    U32(OrderFault<u32>),
    /// At `usize`.
    Usize(OrderFault<usize>),
    /// At `u64`.
    U64(OrderFault<u64>),
    /// At `u128`.
    U128(OrderFault<u128>),
}

impl Clone for VerifyFault {
    ghost is_clone = { λ it copy. copy ≡ it };

    ghost is_infallible = { λ _. ⊤ };

    fn clone(&self) -> Result<Self, AllocError> {
        Ok(*self)
    }
}

// Whether a lower index has the position of this one.
fn is_repeated<R: BitRegister, O: OrderCandidate<R>>(index: BitIdx<R>, position: BitPos<R>) -> bool
    requires { position ≡ O.at_of index }
    ensures { result ≡ is_repeated O.at_of index }
{
    for lower in 0..index.into_inner() {
        if O::at(BitIdx::new_unchecked(lower)) == position {
            return true;
        }
    }
    false
}

// Tests each index: its selector, and then whether a lower one has its position.
fn verify_indices<R: BitRegister, O: OrderCandidate<R>>() -> Result<(), OrderFault<R>>
    ensures first { let c = candidate R.BITS O.at_of O.select_of O.mask_of in
        first_fault c (index_tests R.BITS) ≡ fault_in result }
    ensures below { OnOk result ((i : ℕ) → i < R.BITS → O.at_of i < R.BITS) }
{
    for i in 0..R::BITS {
        let index = BitIdx::new_unchecked(i);
        let position = O::at(index);
        let got = O::select(index);
        let want = position.select();
        if got.into_inner() != want.into_inner() {
            return Err(OrderFault::Select { index, got, want });
        }
        if is_repeated::<R, O>(index, position) {
            return Err(OrderFault::Repeated { index, position });
        }
    }
    Ok(())
}

// Tests the mask between two bounds.
fn verify_mask<R: BitRegister, O: OrderCandidate<R>>(
    from: Option<BitIdx<R>>,
    upto: Option<BitEnd<R>>,
) -> Result<(), OrderFault<R>>
    requires { mask_start from ≤ mask_end R.BITS upto }
    ensures { let c = candidate R.BITS O.at_of O.select_of O.mask_of in
        fault_of c (masked from upto) ≡ fault_in result }
{
    // A call moves an `Option` of a generic type, so each has a copy of its own.
    let (start, end) = (from, upto);
    let got = O::mask(start, end);
    let (start, end) = (from, upto);
    let want = plain_mask::<R, O>(start, end);
    if got.into_inner() != want.into_inner() {
        return Err(OrderFault::Mask {
            from,
            upto,
            got,
            want,
        });
    }
    Ok(())
}

// Tests the masks from one start, to each end from there on.
fn verify_start<R: BitRegister, O: OrderCandidate<R>>(from: BitIdx<R>) -> Result<(), OrderFault<R>>
    ensures { let c = candidate R.BITS O.at_of O.select_of O.mask_of in
        first_fault c (start_tests R.BITS from) ≡ fault_in result }
{
    for upto in from.into_inner()..=R::BITS {
        verify_mask::<R, O>(Some(from), Some(BitEnd::new_unchecked(upto)))?;
    }
    Ok(())
}

// Tests the masks of each pair of present bounds.
fn verify_pairs<R: BitRegister, O: OrderCandidate<R>>() -> Result<(), OrderFault<R>>
    ensures { let c = candidate R.BITS O.at_of O.select_of O.mask_of in
        first_fault c (pair_tests R.BITS) ≡ fault_in result }
{
    for from in 0..R::BITS {
        verify_start::<R, O>(BitIdx::new_unchecked(from))?;
    }
    Ok(())
}

// Tests the masks with an absent bound.
fn verify_absent<R: BitRegister, O: OrderCandidate<R>>() -> Result<(), OrderFault<R>>
    ensures { let c = candidate R.BITS O.at_of O.select_of O.mask_of in
        first_fault c (absent_tests R.BITS) ≡ fault_in result }
{
    verify_mask::<R, O>(None, None)?;
    for from in 0..R::BITS {
        verify_mask::<R, O>(Some(BitIdx::new_unchecked(from)), None)?;
    }
    for upto in 0..=R::BITS {
        verify_mask::<R, O>(None, Some(BitEnd::new_unchecked(upto)))?;
    }
    Ok(())
}

// The whole scan.
fn scan<R: BitRegister, O: OrderCandidate<R>>() -> Result<(), OrderFault<R>>
    ensures first { let c = candidate R.BITS O.at_of O.select_of O.mask_of in
        first_fault c (tests R.BITS) ≡ fault_in result }
    ensures below { OnOk result ((i : ℕ) → i < R.BITS → O.at_of i < R.BITS) }
{
    verify_indices::<R, O>()?;
    verify_pairs::<R, O>()?;
    verify_absent::<R, O>()
}

/// Whether a candidate is a lawful order of a register: `Ok`, or the first fault of the scan.
///
/// The scan tests each index in rising order, first its selector and then whether a lower index has
/// its position; then the mask of each pair of present bounds, starts in rising order and for each
/// the ends from there to the width; then both bounds absent, an absent end for each start, and an
/// absent start for each end. The Rust crate panics at a fault, prints on demand and tests no
/// absent bound. Costs by the cube of the width.
///
/// # Examples
///
/// With the positions `Constant` of the example of [`OrderFault`]:
///
/// ```
/// assert!(rt; verify_for_type::<u32, Lsb0>().is_ok());
/// assert!(rt; verify_for_type::<u32, Msb0>().is_ok());
/// assert!(rt; verify_for_type::<u32, ByPosition<Constant>>().is_err());
/// ```
pub fn verify_for_type<R: BitRegister, O: OrderCandidate<R>>() -> Result<(), OrderFault<R>>
    ensures lawful { IsOk result ↔ IsLawful (candidate R.BITS O.at_of O.select_of O.mask_of) }
    ensures first { let c = candidate R.BITS O.at_of O.select_of O.mask_of in
        fault_in result ≡ first_fault c (tests R.BITS) }
{
    scan::<R, O>()
}

/// Whether a candidate is a lawful order of each register: `Ok`, or the first fault at the first
/// register that has one.
///
/// The registers are scanned in the order `u8`, `u16`, `u32`, `usize`, `u64`, `u128`. The Rust
/// crate panics at a fault, and has no register of 128 bits. Costs the scans of the six registers,
/// each of which grows with the cube of the width.
pub fn verify<O>() -> Result<(), VerifyFault>
where
    O: OrderCandidate<u8>
        + OrderCandidate<u16>
        + OrderCandidate<u32>
        + OrderCandidate<usize>
        + OrderCandidate<u64>
        + OrderCandidate<u128>,
    ensures { VerifiesEach
        ⟦<O as OrderCandidate<u8>>⟧ ⟦<O as OrderCandidate<u16>>⟧ ⟦<O as OrderCandidate<u32>>⟧
        ⟦<O as OrderCandidate<usize>>⟧ ⟦<O as OrderCandidate<u64>>⟧ ⟦<O as OrderCandidate<u128>>⟧
        result }
{
    verify_for_type::<u8, O>().map_err(VerifyFault::U8)?;
    verify_for_type::<u16, O>().map_err(VerifyFault::U16)?;
    verify_for_type::<u32, O>().map_err(VerifyFault::U32)?;
    verify_for_type::<usize, O>().map_err(VerifyFault::Usize)?;
    verify_for_type::<u64, O>().map_err(VerifyFault::U64)?;
    verify_for_type::<u128, O>().map_err(VerifyFault::U128)
}
