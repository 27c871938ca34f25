//! A slice over an array of words: seats, each of them taken or free.

use bitvec::order::Lsb0;
use bitvec_slice::slice::BitSliceMut;

/// Takes the first ten seats and one more, where there is such a seat, and returns the first of
/// three free ones in a row.
pub fn take(seats: &mut [u64; 4], seat: usize) -> Option<usize> {
    let mut taken: BitSliceMut<'_, u64, Lsb0> = BitSliceMut::all_unchecked(seats);
    taken.fill_range(0, 10, true);
    if seat < taken.len() {
        taken.set(seat, true);
    }
    taken.as_bitslice().find_zeros(3)
}

#[test]
fn three_free_seats(rt: HostRuntime) {
    let mut seats = [0u64; 4];
    assert_eq!(rt; take(&mut seats, 12), Some(13));
    assert_eq!(rt; seats, [0x13FF, 0, 0, 0]);
}
