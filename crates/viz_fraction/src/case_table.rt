//! The type `Case`, and the table of the cells of a section.
ghost use Rattle.std.specs.Prelude.{◌≡◌};
ghost use Rattle.viz_fraction.specs.Cases.{IsCase, case_at};

/// The cells in which a linear form cuts a simplex.
///
/// `count` cells of `size` ends each stand one after the other in `ends`, and unused places are
/// `[0, 0]`. An end `[i, j]` stands for the point of the edge between the corners i and j, the
/// lower corner first, whichever of the two is inside. `size` is one less than the corners of the
/// simplex, also where there is no cell.
#[derive(Clone, Copy, PartialEq, Eq, Debug)]
pub struct Case {
    pub count: u8,
    pub size: u8,
    pub ends: [[u8; 2]; 6],
}

// The ends, named by their corners.
const E01: [u8; 2] = [0, 1];

const E02: [u8; 2] = [0, 2];

const E03: [u8; 2] = [0, 3];

const E12: [u8; 2] = [1, 2];

const E13: [u8; 2] = [1, 3];

const E23: [u8; 2] = [2, 3];

/// What stands behind the last end of a row.
const NIL: [u8; 2] = [0, 0];

/// How many cells there are, and their ends: first where all or none of the corners are inside.
#[rattlefmt::skip]
static ROWS: [(u8, [[u8; 2]; 6]); 23] = [
    (0, [NIL, NIL, NIL, NIL, NIL, NIL]),    // all or none
    (1, [E01, NIL, NIL, NIL, NIL, NIL]),    // 2 corners, inside 0
    (1, [E01, NIL, NIL, NIL, NIL, NIL]),    // 2 corners, inside 1
    (1, [E01, E02, NIL, NIL, NIL, NIL]),    // 3 corners, inside 0
    (1, [E12, E01, NIL, NIL, NIL, NIL]),    // 3 corners, inside 1
    (1, [E02, E12, NIL, NIL, NIL, NIL]),    // 3 corners, inside 2
    (1, [E02, E01, NIL, NIL, NIL, NIL]),    // 3 corners, inside 1 2
    (1, [E01, E12, NIL, NIL, NIL, NIL]),    // 3 corners, inside 0 2
    (1, [E12, E02, NIL, NIL, NIL, NIL]),    // 3 corners, inside 0 1
    (1, [E01, E02, E03, NIL, NIL, NIL]),    // 4 corners, inside 0
    (1, [E12, E01, E13, NIL, NIL, NIL]),    // 4 corners, inside 1
    (1, [E02, E12, E23, NIL, NIL, NIL]),    // 4 corners, inside 2
    (1, [E13, E03, E23, NIL, NIL, NIL]),    // 4 corners, inside 3
    (1, [E02, E01, E03, NIL, NIL, NIL]),    // 4 corners, inside 1 2 3
    (1, [E01, E12, E13, NIL, NIL, NIL]),    // 4 corners, inside 0 2 3
    (1, [E12, E02, E23, NIL, NIL, NIL]),    // 4 corners, inside 0 1 3
    (1, [E03, E13, E23, NIL, NIL, NIL]),    // 4 corners, inside 0 1 2
    (2, [E02, E03, E13, E02, E13, E12]),    // 4 corners, inside 0 1
    (2, [E01, E12, E23, E01, E23, E03]),    // 4 corners, inside 0 2
    (2, [E01, E02, E23, E01, E23, E13]),    // 4 corners, inside 0 3
    (2, [E01, E13, E23, E01, E23, E02]),    // 4 corners, inside 1 2
    (2, [E01, E03, E23, E01, E23, E12]),    // 4 corners, inside 1 3
    (2, [E02, E12, E13, E02, E13, E03]),    // 4 corners, inside 2 3
];

/// The place in `ROWS` of each mask, for each number of corners.
#[rattlefmt::skip]
static PLACES: [[u8; 16]; 4] = [
    [0, 0,  0,  0,  0,  0,  0,  0,  0,  0,  0,  0,  0,  0,  0,  0],     // 1 corner
    [0, 1,  2,  0,  0,  0,  0,  0,  0,  0,  0,  0,  0,  0,  0,  0],     // 2 corners
    [0, 3,  4,  8,  5,  7,  6,  0,  0,  0,  0,  0,  0,  0,  0,  0],     // 3 corners
    [0, 9, 10, 17, 11, 18, 20, 16, 12, 19, 21, 15, 22, 14, 13,  0],     // 4 corners
];

/// The cells of a section of a simplex with 1 to 4 corners, where bit i of `mask` says that corner
/// i is inside: that the form is at least 0 there.
pub fn cells_of(corners: u8, mask: u8) -> Case
    requires known { IsCase corners mask }
    ensures value { result ≡ case_at corners mask }
{
    let place = PLACES[corners as usize - 1][mask as usize];
    let (count, ends) = ROWS[place as usize];
    Case {
        count,
        size: corners - 1,
        ends,
    }
}
