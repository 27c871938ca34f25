//! The parts of a slice, which are slices of the same memory.

ghost use Rattle.std.specs.Prelude.{◌≡◌, ◌-◌, ◌≤◌, ◌↔◌, IsSome, IfSome, length, take, drop};
ghost use Rattle.std.specs.Prelude.{slice_range};
ghost use Rattle.bitvec.specs.Span.{span_upto, span_from, span_range};

use crate::slice::BitSlice;
use bitvec::mem::BitRegister;
use bitvec::order::BitOrder;

impl<'a, R: BitRegister, O: BitOrder<R>> BitSlice<'a, R, O> {
    ghost use Rattle.bitvec_slice.specs.BitSlice.{slice_memory, slice_span, slice_len, slice_bits};

    /// The first `mid` bits, and those behind them. Requires that `mid` is at most the length.
    /// Constant time.
    pub fn split_at(&self, mid: usize) -> (Self, Self)
        requires { mid ≤ slice_len self.now }
        ensures front_len { slice_len result.0 ≡ mid }
        ensures back_len { slice_len result.1 ≡ slice_len self.now - mid }
        ensures front { slice_bits result.0 ≡ take mid (slice_bits self.now) }
        ensures back { slice_bits result.1 ≡ drop mid (slice_bits self.now) }

        // Both lie in the same memory, one behind the other.
        ensures front_memory { slice_memory result.0 ≡ slice_memory self.now }
        ensures back_memory { slice_memory result.1 ≡ slice_memory self.now }
        ensures front_span { slice_span result.0 ≡ span_upto (slice_span self.now) mid }
        ensures back_span { slice_span result.1 ≡ span_from R.BITS (slice_span self.now) mid }
    {
        let memory = self.memory;
        let (before, behind) = self.span.split_at(mid);
        (
            BitSlice {
                memory,
                span: before,
            },
            BitSlice {
                memory,
                span: behind,
            },
        )
    }

    /// The bits from number `from` to before number `to`, and `None` exactly where these are not in
    /// order or `to` passes the length. Constant time.
    pub fn get_range(&self, from: usize, to: usize) -> Option<Self>
        ensures accepted { IsSome result ↔ ((from ≤ to) × (to ≤ length (slice_bits self.now))) }
        ensures bits { IfSome result (λ part. slice_bits part
            ≡ slice_range (slice_bits self.now) from to) }
        ensures len { IfSome result (λ part. slice_len part ≡ to - from) }
        ensures memory { IfSome result (λ part. slice_memory part ≡ slice_memory self.now) }
        ensures span { IfSome result (λ part. slice_span part
            ≡ span_range R.BITS (slice_span self.now) from to) }
    {
        if from > to || to > self.len() {
            return None;
        }
        Some(BitSlice {
            memory: self.memory,
            span: self.span.range(from, to),
        })
    }
}
