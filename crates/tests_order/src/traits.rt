//! What equality, order, hash, copy and default of each type are, and what its name alone stands
//! for.
//!
//! Each function does what its name says, and its contract is the promise: so a body of an impl
//! that breaks it is refused, though no contract of the layer names it. That equal values have
//! equal hashes is a law of `Hash` itself, which each impl shows.

ghost use Rattle.std.specs.Prelude.{◌≡◌, ◌↔◌, IsTrue, Ok, codes};
ghost use Rattle.std.specs.Ordering.{nat_cmp};
ghost use Rattle.std.specs.declared.cmp.Ordering.TheVariants.{Equal};

use bitvec_mem::mem::{BitElement, BitRegister};
use bitvec_order::index::{BitEnd, BitIdx, BitIdxError, BitMask, BitPos, BitSel};
use bitvec_order::order::{Direction, Lsb0, Msb0};
use bitvec_order::positions::{ByNumbers, ByPosition};
use bitvec_verify::verify::{OrderFault, VerifyFault};
use std::alloc::AllocError;
use std::cmp::Ordering;
use std::hash::{Hash, Hasher};

// A memory of one word is compared, hashed, copied and made by default as the word is.

fn equal_elements<R: BitRegister>(here: BitElement<R>, there: BitElement<R>) -> bool
    ensures { result ≡ R.eq here.elem there.elem }
{
    here == there
}

fn order_of_elements<R: BitRegister>(here: BitElement<R>, there: BitElement<R>) -> Ordering
    ensures { result ≡ R.cmp here.elem there.elem }
{
    here.cmp(&there)
}

fn hash_of_an_element<R: BitRegister, H: Hasher>(
    element: BitElement<R>,
    here: &mut H,
    there: &mut H,
)
    requires { here.old ≡ there.old }
    ensures { here.new ≡ there.new }
{
    element.hash(here);
    element.elem.hash(there);
}

fn copied_element<R: BitRegister>(element: &BitElement<R>) -> Result<BitElement<R>, AllocError>
    ensures { result ≡ Ok element.now }
{
    element.clone()
}

fn default_element<R: BitRegister>() -> BitElement<R>
    ensures { result.elem ≡ R.ZERO }
{
    BitElement::default()
}

// An index, an end, a position, a selector, a mask and an index that was refused are compared,
// hashed and copied as their numbers are, and a default is 0.

fn compared_indices<R: BitRegister>(here: BitIdx<R>, there: BitIdx<R>) -> (bool, Ordering)
    ensures equal { IsTrue result.0 ↔ (here ≡ there) }
    ensures order { result.1 ≡ nat_cmp here there }
{
    (here == there, here.cmp(&there))
}

fn hash_of_an_index<R: BitRegister, H: Hasher>(index: BitIdx<R>, here: &mut H, there: &mut H)
    requires { here.old ≡ there.old }
    ensures { here.new ≡ there.new }
{
    index.hash(here);
    index.into_inner().hash(there);
}

fn copied_index<R: BitRegister>(index: &BitIdx<R>) -> Result<BitIdx<R>, AllocError>
    ensures { result ≡ Ok index.now }
{
    index.clone()
}

fn compared_errors<R: BitRegister>(here: BitIdxError<R>, there: BitIdxError<R>) -> (bool, Ordering)
    ensures equal { IsTrue result.0 ↔ (here ≡ there) }
    ensures order { result.1 ≡ nat_cmp here there }
{
    (here == there, here.cmp(&there))
}

fn hash_of_an_error<R: BitRegister, H: Hasher>(error: BitIdxError<R>, here: &mut H, there: &mut H)
    requires { here.old ≡ there.old }
    ensures { here.new ≡ there.new }
{
    error.hash(here);
    error.into_inner().hash(there);
}

fn copied_error<R: BitRegister>(error: &BitIdxError<R>) -> Result<BitIdxError<R>, AllocError>
    ensures { result ≡ Ok error.now }
{
    error.clone()
}

fn compared_ends<R: BitRegister>(here: BitEnd<R>, there: BitEnd<R>) -> (bool, Ordering)
    ensures equal { IsTrue result.0 ↔ (here ≡ there) }
    ensures order { result.1 ≡ nat_cmp here there }
{
    (here == there, here.cmp(&there))
}

fn hash_of_an_end<R: BitRegister, H: Hasher>(end: BitEnd<R>, here: &mut H, there: &mut H)
    requires { here.old ≡ there.old }
    ensures { here.new ≡ there.new }
{
    end.hash(here);
    end.into_inner().hash(there);
}

fn copied_end<R: BitRegister>(end: &BitEnd<R>) -> Result<BitEnd<R>, AllocError>
    ensures { result ≡ Ok end.now }
{
    end.clone()
}

fn compared_positions<R: BitRegister>(here: BitPos<R>, there: BitPos<R>) -> (bool, Ordering)
    ensures equal { IsTrue result.0 ↔ (here ≡ there) }
    ensures order { result.1 ≡ nat_cmp here there }
{
    (here == there, here.cmp(&there))
}

fn hash_of_a_position<R: BitRegister, H: Hasher>(position: BitPos<R>, here: &mut H, there: &mut H)
    requires { here.old ≡ there.old }
    ensures { here.new ≡ there.new }
{
    position.hash(here);
    position.into_inner().hash(there);
}

fn copied_position<R: BitRegister>(position: &BitPos<R>) -> Result<BitPos<R>, AllocError>
    ensures { result ≡ Ok position.now }
{
    position.clone()
}

fn compared_selectors<R: BitRegister>(here: BitSel<R>, there: BitSel<R>) -> (bool, Ordering)
    ensures equal { IsTrue result.0 ↔ (here ≡ there) }
    ensures order { result.1 ≡ nat_cmp here there }
{
    // The calls say that the numbers are the register's.
    let _words = (here.into_inner(), there.into_inner());
    (here == there, here.cmp(&there))
}

fn hash_of_a_selector<R: BitRegister, H: Hasher>(selector: BitSel<R>, here: &mut H, there: &mut H)
    requires { here.old ≡ there.old }
    ensures { here.new ≡ there.new }
{
    selector.hash(here);
    selector.into_inner().hash(there);
}

fn copied_selector<R: BitRegister>(selector: &BitSel<R>) -> Result<BitSel<R>, AllocError>
    ensures { result ≡ Ok selector.now }
{
    selector.clone()
}

fn compared_masks<R: BitRegister>(here: BitMask<R>, there: BitMask<R>) -> (bool, Ordering)
    ensures equal { IsTrue result.0 ↔ (here ≡ there) }
    ensures order { result.1 ≡ nat_cmp here there }
{
    // The calls say that the numbers are the register's.
    let _words = (here.into_inner(), there.into_inner());
    (here == there, here.cmp(&there))
}

fn hash_of_a_mask<R: BitRegister, H: Hasher>(mask: BitMask<R>, here: &mut H, there: &mut H)
    requires { here.old ≡ there.old }
    ensures { here.new ≡ there.new }
{
    mask.hash(here);
    mask.into_inner().hash(there);
}

fn copied_mask<R: BitRegister>(mask: &BitMask<R>) -> Result<BitMask<R>, AllocError>
    ensures { result ≡ Ok mask.now }
{
    mask.clone()
}

fn default_numbers<R: BitRegister>() -> (BitIdx<R>, BitEnd<R>, BitPos<R>, BitMask<R>)
    ensures index { result.0 ≡ 0 }
    ensures end { result.1 ≡ 0 }
    ensures position { result.2 ≡ 0 }
    ensures mask { result.3 ≡ 0 }
{
    (
        BitIdx::default(),
        BitEnd::default(),
        BitPos::default(),
        BitMask::default(),
    )
}

// A fault is its parts.

fn equal_faults<R: BitRegister>(here: OrderFault<R>, there: OrderFault<R>) -> bool
    ensures { ((a b : R) → IsTrue (R.eq a b) ↔ (a ≡ b))
        → (IsTrue result ↔ (here ≡ there)) }
{
    here == there
}

fn equal_faults_at_u8(fault: OrderFault<u8>, there: VerifyFault) -> bool
    ensures { IsTrue result ↔ (VerifyFault.U8 fault ≡ there) }
{
    VerifyFault::U8(fault) == there
}

fn equal_faults_at_u16(fault: OrderFault<u16>, there: VerifyFault) -> bool
    ensures { IsTrue result ↔ (VerifyFault.U16 fault ≡ there) }
{
    VerifyFault::U16(fault) == there
}

fn equal_faults_at_u32(fault: OrderFault<u32>, there: VerifyFault) -> bool
    ensures { IsTrue result ↔ (VerifyFault.U32 fault ≡ there) }
{
    VerifyFault::U32(fault) == there
}

fn equal_faults_at_usize(fault: OrderFault<usize>, there: VerifyFault) -> bool
    ensures { IsTrue result ↔ (VerifyFault.Usize fault ≡ there) }
{
    VerifyFault::Usize(fault) == there
}

fn equal_faults_at_u64(fault: OrderFault<u64>, there: VerifyFault) -> bool
    ensures { IsTrue result ↔ (VerifyFault.U64 fault ≡ there) }
{
    VerifyFault::U64(fault) == there
}

fn equal_faults_at_u128(fault: OrderFault<u128>, there: VerifyFault) -> bool
    ensures { IsTrue result ↔ (VerifyFault.U128 fault ≡ there) }
{
    VerifyFault::U128(fault) == there
}

fn copied_fault<R: BitRegister>(fault: &OrderFault<R>) -> Result<OrderFault<R>, AllocError>
    ensures { result ≡ Ok fault.now }
{
    fault.clone()
}

fn copied_fault_of_a_register(fault: &VerifyFault) -> Result<VerifyFault, AllocError>
    ensures { result ≡ Ok fault.now }
{
    fault.clone()
}

// Directions are equal where they are one variant.

fn equal_directions(here: Direction, there: Direction) -> bool
    ensures { IsTrue result ↔ (here ≡ there) }
{
    here == there
}

fn copied_direction(direction: &Direction) -> Result<Direction, AllocError>
    ensures { result ≡ Ok direction.now }
{
    direction.clone()
}

// Each of the two orders has one value.

fn compared_lsb0(here: Lsb0, there: Lsb0) -> (bool, Ordering)
    ensures equal { IsTrue result.0 }
    ensures order { result.1 ≡ Equal }
{
    (here == there, here.cmp(&there))
}

fn hash_of_lsb0<H: Hasher>(order: Lsb0, state: &mut H)
    ensures { state.new ≡ state.old }
{
    order.hash(state);
}

fn compared_msb0(here: Msb0, there: Msb0) -> (bool, Ordering)
    ensures equal { IsTrue result.0 }
    ensures order { result.1 ≡ Equal }
{
    (here == there, here.cmp(&there))
}

fn hash_of_msb0<H: Hasher>(order: Msb0, state: &mut H)
    ensures { state.new ≡ state.old }
{
    order.hash(state);
}

// So has an order of one's own, and each is copied as it is.

fn copied_lsb0(order: &Lsb0) -> Result<Lsb0, AllocError>
    ensures { result ≡ Ok order.now }
{
    order.clone()
}

fn copied_msb0(order: &Msb0) -> Result<Msb0, AllocError>
    ensures { result ≡ Ok order.now }
{
    order.clone()
}

fn copied_by_position<P: Clone>(order: &ByPosition<P>) -> Result<ByPosition<P>, AllocError>
    ensures { result ≡ Ok order.now }
{
    order.clone()
}

fn hash_of_by_position<P: Hash, H: Hasher>(order: ByPosition<P>, state: &mut H)
    ensures { state.new ≡ state.old }
{
    order.hash(state);
}

fn copied_by_numbers<C: Clone>(order: &ByNumbers<C>) -> Result<ByNumbers<C>, AllocError>
    ensures { result ≡ Ok order.now }
{
    order.clone()
}

fn hash_of_by_numbers<C: Hash, H: Hasher>(order: ByNumbers<C>, state: &mut H)
    ensures { state.new ≡ state.old }
{
    order.hash(state);
}

// The name of each register.

fn names() -> (
    &'static str,
    &'static str,
    &'static str,
    &'static str,
    &'static str,
    &'static str,
)
    ensures u8 { result.0.now ≡ codes "u8" }
    ensures u16 { result.1.now ≡ codes "u16" }
    ensures u32 { result.2.now ≡ codes "u32" }
    ensures u64 { result.3.now ≡ codes "u64" }
    ensures usize { result.4.now ≡ codes "usize" }
    ensures u128 { result.5.now ≡ codes "u128" }
{
    (
        <u8 as BitRegister>::NAME,
        <u16 as BitRegister>::NAME,
        <u32 as BitRegister>::NAME,
        <u64 as BitRegister>::NAME,
        <usize as BitRegister>::NAME,
        <u128 as BitRegister>::NAME,
    )
}

// Without parameters each type is that of `usize`.

fn plain_numbers(
    index: BitIdx,
    end: BitEnd,
    position: BitPos,
    error: BitIdxError,
) -> (
    BitIdx<usize>,
    BitEnd<usize>,
    BitPos<usize>,
    BitIdxError<usize>,
)
    ensures index { result.0 ≡ index }
    ensures end { result.1 ≡ end }
    ensures position { result.2 ≡ position }
    ensures error { result.3 ≡ error }
{
    (index, end, position, error)
}

fn plain_words(
    element: BitElement,
    selector: BitSel,
    mask: BitMask,
) -> (BitElement<usize>, BitSel<usize>, BitMask<usize>)
    ensures element { result.0 ≡ element }
    ensures selector { result.1 ≡ selector }
    ensures mask { result.2 ≡ mask }
{
    (element, selector, mask)
}
