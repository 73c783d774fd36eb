//! The rows of the table by hand.
use viz_fraction::{Case, cells_of};

const NIL: [u8; 2] = [0, 0];

/// Corners and mask, and then the wanted count, size and ends.
#[rattlefmt::skip]
const ROWS: [(u8, u8, u8, u8, [[u8; 2]; 6]); 22] = [
    // 2 corners.
    (2, 0b01, 1, 1, [[0, 1], NIL, NIL, NIL, NIL, NIL]),
    (2, 0b10, 1, 1, [[0, 1], NIL, NIL, NIL, NIL, NIL]),
    // 3 corners, one inside and two.
    (3, 0b001, 1, 2, [[0, 1], [0, 2], NIL, NIL, NIL, NIL]),
    (3, 0b010, 1, 2, [[1, 2], [0, 1], NIL, NIL, NIL, NIL]),
    (3, 0b100, 1, 2, [[0, 2], [1, 2], NIL, NIL, NIL, NIL]),
    (3, 0b110, 1, 2, [[0, 2], [0, 1], NIL, NIL, NIL, NIL]),
    (3, 0b101, 1, 2, [[0, 1], [1, 2], NIL, NIL, NIL, NIL]),
    (3, 0b011, 1, 2, [[1, 2], [0, 2], NIL, NIL, NIL, NIL]),
    // 4 corners, one inside.
    (4, 0b0001, 1, 3, [[0, 1], [0, 2], [0, 3], NIL, NIL, NIL]),
    (4, 0b0010, 1, 3, [[1, 2], [0, 1], [1, 3], NIL, NIL, NIL]),
    (4, 0b0100, 1, 3, [[0, 2], [1, 2], [2, 3], NIL, NIL, NIL]),
    (4, 0b1000, 1, 3, [[1, 3], [0, 3], [2, 3], NIL, NIL, NIL]),
    // 4 corners, three inside.
    (4, 0b1110, 1, 3, [[0, 2], [0, 1], [0, 3], NIL, NIL, NIL]),
    (4, 0b1101, 1, 3, [[0, 1], [1, 2], [1, 3], NIL, NIL, NIL]),
    (4, 0b1011, 1, 3, [[1, 2], [0, 2], [2, 3], NIL, NIL, NIL]),
    (4, 0b0111, 1, 3, [[0, 3], [1, 3], [2, 3], NIL, NIL, NIL]),
    // 4 corners, two inside.
    (4, 0b0011, 2, 3, [[0, 2], [0, 3], [1, 3], [0, 2], [1, 3], [1, 2]]),
    (4, 0b0101, 2, 3, [[0, 1], [1, 2], [2, 3], [0, 1], [2, 3], [0, 3]]),
    (4, 0b1001, 2, 3, [[0, 1], [0, 2], [2, 3], [0, 1], [2, 3], [1, 3]]),
    (4, 0b0110, 2, 3, [[0, 1], [1, 3], [2, 3], [0, 1], [2, 3], [0, 2]]),
    (4, 0b1010, 2, 3, [[0, 1], [0, 3], [2, 3], [0, 1], [2, 3], [1, 2]]),
    (4, 0b1100, 2, 3, [[0, 2], [1, 2], [1, 3], [0, 2], [1, 3], [0, 3]]),
];

#[test]
fn cells_are_those_of_the_table(rt: HostRuntime) {
    for (corners, mask, count, size, ends) in ROWS {
        assert!(rt; 1 <= corners && corners <= 4 && mask < 1 << corners);
        let want = Case { count, size, ends };
        assert_eq!(rt; cells_of(corners, mask), want, "{corners} {mask}");
    }
}

#[test]
fn one_side_has_no_cell(rt: HostRuntime) {
    for (corners, mask, size) in [
        // None inside.
        (1, 0b0, 0),
        (2, 0b00, 1),
        (3, 0b000, 2),
        (4, 0b0000, 3),
        // All inside.
        (1, 0b1, 0),
        (2, 0b11, 1),
        (3, 0b111, 2),
        (4, 0b1111, 3),
    ] {
        assert!(rt; 1 <= corners && corners <= 4 && mask < 1 << corners);
        let want = Case {
            count: 0,
            size,
            ends: [NIL; 6],
        };
        assert_eq!(rt; cells_of(corners, mask), want, "{corners} {mask}");
    }
}
