//! What the iterators over a slice's bits, ones, zeros and stretches of ones give.
//!
//! An impl of `Iterator` states itself what a call gives. Each function here makes one call, and
//! its contract is the promise of the iterator's documents: so an impl that states another one is
//! refused.

ghost use Rattle.std.specs.Prelude.{◌≡◌};
ghost use Rattle.std.specs.Iterator.{YieldsFirst, YieldsLast};
ghost use Rattle.bitvec_slice.specs.BitSlice.{slice_memory, slice_span, slice_bits};
ghost use Rattle.bitvec_slice.specs.Iter.{iter_memory, iter_span, iter_left};
ghost use Rattle.bitvec_slice.specs.Ones.{ones_left, zeros_left};
ghost use Rattle.bitvec_slice.specs.Runs.{runs_left};

use bitvec::mem::BitRegister;
use bitvec::order::{BitOrder, Msb0};
use bitvec_slice::slice::{BitSlice, Iter, IterOnes, IterRuns, IterZeros};

// The first of the items that are left is taken, and the others are left; `None` where none was
// left, and then the iterator has none. The same of the last.

fn next_bit<'a, R: BitRegister, O: BitOrder<R>>(bits: &mut Iter<'a, R, O>) -> Option<bool>
    ensures { YieldsFirst iter_left bits.old result bits.new }
{
    bits.next()
}

fn next_bit_back<'a, R: BitRegister, O: BitOrder<R>>(bits: &mut Iter<'a, R, O>) -> Option<bool>
    ensures { YieldsLast iter_left bits.old result bits.new }
{
    bits.next_back()
}

fn next_one<'a, R: BitRegister, O: BitOrder<R>>(ones: &mut IterOnes<'a, R, O>) -> Option<usize>
    ensures { YieldsFirst ones_left ones.old result ones.new }
{
    ones.next()
}

fn next_one_back<'a, R: BitRegister, O: BitOrder<R>>(ones: &mut IterOnes<'a, R, O>) -> Option<usize>
    ensures { YieldsLast ones_left ones.old result ones.new }
{
    ones.next_back()
}

fn next_zero<'a, R: BitRegister, O: BitOrder<R>>(zeros: &mut IterZeros<'a, R, O>) -> Option<usize>
    ensures { YieldsFirst zeros_left zeros.old result zeros.new }
{
    zeros.next()
}

fn next_zero_back<'a, R: BitRegister, O: BitOrder<R>>(
    zeros: &mut IterZeros<'a, R, O>,
) -> Option<usize>
    ensures { YieldsLast zeros_left zeros.old result zeros.new }
{
    zeros.next_back()
}

fn next_run<'a, R: BitRegister, O: BitOrder<R>>(
    runs: &mut IterRuns<'a, R, O>,
) -> Option<(usize, usize)>
    ensures { YieldsFirst runs_left runs.old result runs.new }
{
    runs.next()
}

// A `for` over a slice goes over its bits, where they lie.

fn bits_of_a_loop<'a, R: BitRegister, O: BitOrder<R>>(slice: BitSlice<'a, R, O>) -> Iter<'a, R, O>
    ensures bits { iter_left result ≡ slice_bits slice.entry }
    ensures memory { iter_memory result ≡ slice_memory slice.entry }
    ensures span { iter_span result ≡ slice_span slice.entry }
{
    slice.into_iter()
}

#[test]
fn each_iterator_from_both_ends(rt: HostRuntime) {
    let memory = [0x4Du8];
    let slice = BitSlice::<u8, Msb0>::all_unchecked(&memory);
    let mut bits = bits_of_a_loop(slice);
    assert_eq!(rt;
        (next_bit(&mut bits), next_bit_back(&mut bits)),
        (Some(false), Some(true))
    );
    let mut ones = slice.iter_ones();
    assert_eq!(rt;
        (next_one(&mut ones), next_one_back(&mut ones)),
        (Some(1), Some(7))
    );
    let mut zeros = slice.iter_zeros();
    assert_eq!(rt;
        (next_zero(&mut zeros), next_zero_back(&mut zeros)),
        (Some(0), Some(6))
    );
    let mut runs = slice.iter_runs();
    assert_eq!(rt;
        (next_run(&mut runs), next_run(&mut runs)),
        (Some((1, 1)), Some((4, 2)))
    );
    assert_eq!(rt;
        (next_run(&mut runs), next_run(&mut runs)),
        (Some((7, 1)), None)
    );
}
