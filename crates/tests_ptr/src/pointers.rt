//! Pointers in a record that is copied.

use crate::common::{bit_at, same};
use bitvec_mem::mem::BitRegister;
use bitvec_order::order::Msb0;
use bitvec_ptr::ptr::single::{BitPtr, Dangling};
use std::test::Fail;

// Two pointers in one record, which is copied whatever the order is.
#[derive_where(Clone, Copy)]
struct Marked<R: BitRegister, O> {
    from: BitPtr<R, O>,
    upto: BitPtr<R, O>,
}

// One of several records, in code that asks nothing of the order.
fn copied<R: BitRegister, O>(all: &[Marked<R, O>], k: usize) -> Option<Marked<R, O>> {
    all.get(k).copied()
}

#[test]
fn is_copied_out_of_a_slice(rt: HostRuntime) -> Result<(), Fail> {
    let from = bit_at::<u64, Msb0>(-1, 63);
    let all = [Marked {
        from,
        upto: BitPtr::DANGLING,
    }];
    let found = copied(&all, 0).ok_or("none")?;
    same(
        &rt,
        [found.from == from, found.from < found.upto],
        [true; 2],
    );
    Ok(())
}
