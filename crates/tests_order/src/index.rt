//! How many indices and ends a register has, as a caller knows it.

ghost use Rattle.std.specs.Prelude.{◌≡◌, ◌+◌};

use crate::common::same;
use bitvec_mem::mem::BitRegister;
use bitvec_order::index::{BitEnd, BitIdx, Limits};

// How many indices and ends there are, as a caller knows it at any register.
fn index_count<R: BitRegister>() -> usize
    ensures { result ≡ R.BITS }
{
    BitIdx::<R>::range_all().count()
}

fn end_count<R: BitRegister>() -> usize
    ensures { result ≡ R.BITS + 1 }
{
    BitEnd::<R>::range_from(BitIdx::MIN).count()
}

#[test]
fn counts(rt: HostRuntime) {
    same(&rt, [index_count::<u16>(), end_count::<u16>()], [16, 17]);
}
