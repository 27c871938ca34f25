//! A glider that goes round a torus, and a blinker at the seam.

use bitvec_array::prelude::{BitArray, Lsb0, Msb0};
use example_life::life::{next, next_row};

type Row = BitArray<Lsb0, 1>;

// A glider comes back one row down and one column on after four generations.
#[test]
fn a_glider_goes_round(rt: HostRuntime) {
    let mut rows = [Row::zeros(); 8];
    rows[6] = Row::from_words([0b010]);
    rows[7] = Row::from_words([0b100]);
    rows[0] = Row::from_words([0b111]);
    let mut out = [Row::zeros(); 8];
    next(&rows, &mut out);
    next(&out, &mut rows);
    next(&rows, &mut out);
    next(&out, &mut rows);
    let expected = [0b1000, 0b1110, 0, 0, 0, 0, 0, 0b0100];
    for i in 0..8usize {
        assert_eq!(rt; rows[i].into_words(), [expected[i]]);
    }
}

// Three cells in a row turn by a quarter. The middle one is the first of the row, and those beside
// it are the second and the last.
#[test]
fn a_blinker_at_the_seam(rt: HostRuntime) {
    let none = Row::zeros();
    let mut row = Row::zeros();
    row.set(63, true);
    row.set(0, true);
    row.set(1, true);
    assert_eq!(rt; next_row(&none, &row, &none).into_words(), [1]);
    assert_eq!(rt; next_row(&none, &none, &row).into_words(), [1]);
    assert_eq!(rt; next_row(&row, &none, &none).into_words(), [1]);
}

// The same where the first cell is the highest digit.
#[test]
fn a_blinker_in_the_other_order(rt: HostRuntime) {
    let none: BitArray<Msb0, 1> = BitArray::zeros();
    let row: BitArray<Msb0, 1> = BitArray::from_words([0b11 << 62 | 1]);
    assert_eq!(rt; next_row(&none, &row, &none).into_words(), [1 << 63]);
    assert_eq!(rt; next_row(&none, &none, &row).into_words(), [1 << 63]);
}
