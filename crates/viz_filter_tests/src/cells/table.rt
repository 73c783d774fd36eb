//! The section of one simplex, row by row of the table.

use super::{above, cut, sheet_in};
use crate::sheets::{Cells, Five};
use crate::shows::{five, has_name};
use std::alloc::Global;
use viz_fraction::Point5;
use viz_sheet::Sheet;

/// The points that names count from 0 on: a corner, and a tetrahedron's three others.
const CORNERS: [[i128; 3]; 4] = [[0, 0, 0], [4, 0, 0], [0, 4, 0], [0, 0, 4]];

// The points of so many corners with the scalar 1 where a bit of the mask is set, and -1 elsewhere.
fn corners_by(alloc: Global, corners: usize, mask: u8) -> Option<Vec<Five>> {
    let mut points = Vec::new(alloc);
    let mut bits = mask;
    for [x, y, z] in CORNERS.iter().take(corners) {
        let scalar = if bits % 2 == 1 { 1 } else { -1 };
        bits /= 2;
        points.push([*x, *y, *z, scalar, 1]).ok()?;
    }
    Some(points)
}

// The cell of so many corners.
fn simplex(corners: usize) -> Cells {
    match corners {
        4 => Cells::Tetrahedra(&[[0, 1, 2, 3]]),
        3 => Cells::Triangles(&[[0, 1, 2]]),
        2 => Cells::Lines(&[[0, 1]]),
        _ => Cells::Vertices(&[[0]]),
    }
}

// The section of a simplex of which the corners of a mask are inside.
fn section_of(alloc: Global, corners: usize, mask: u8) -> Option<Sheet> {
    match corners_by(alloc, corners, mask) {
        Some(points) => cut(
            alloc,
            &above(0),
            sheet_in(alloc, &points, &simplex(corners)),
        ),
        None => None,
    }
}

/// The ends of an edge.
type Edge = [u32; 2];

/// The point half way along each edge of a tetrahedron.
const MIDDLES: [(Edge, Five); 6] = [
    ([0, 1], [2, 0, 0, 0, 1]),
    ([0, 2], [0, 2, 0, 0, 1]),
    ([0, 3], [0, 0, 2, 0, 1]),
    ([1, 2], [2, 2, 0, 0, 1]),
    ([1, 3], [2, 0, 2, 0, 1]),
    ([2, 3], [0, 2, 2, 0, 1]),
];

// Whether a point is half way along an edge.
fn is_half_way(edge: &Edge, p: &Point5) -> bool {
    for (other, middle) in &MIDDLES {
        if other == edge {
            return five(p) == *middle;
        }
    }
    false
}

// Whether the point of a rank has an edge for its name, and lies half way along it.
fn is_end(sheet: &Sheet, rank: usize, edge: &Edge) -> bool {
    has_name(sheet, rank, edge)
        && rank < sheet.point_count()
        && is_half_way(edge, &sheet.point(rank))
}

// Whether ranks are those of these edges.
fn are_ends(sheet: &Sheet, ranks: &[u32], edges: &[Edge]) -> bool {
    for (rank, edge) in ranks.iter().zip(edges) {
        if !is_end(sheet, *rank as usize, edge) {
            return false;
        }
    }
    ranks.len() == edges.len()
}

// Whether a cell has the ends of a row.
fn has_ends(sheet: &Sheet, i: usize, edges: &[Edge]) -> bool {
    i < sheet.cell_count() && are_ends(sheet, sheet.cell(i), edges)
}

// Whether the cells are these rows.
fn have_ends(sheet: &Sheet, rows: &[&[Edge]]) -> bool {
    for (i, edges) in rows.iter().enumerate() {
        if !has_ends(sheet, i, edges) {
            return false;
        }
    }
    sheet.cell_count() == rows.len()
}

// Whether there is a sheet of so many points with a cell for each row.
fn has_rows(sheet: Option<Sheet>, points: usize, rows: &[&[Edge]]) -> bool {
    match sheet {
        Some(sheet) => sheet.point_count() == points && have_ends(&sheet, rows),
        None => false,
    }
}

const E01: Edge = [0, 1];

const E02: Edge = [0, 2];

const E03: Edge = [0, 3];

const E12: Edge = [1, 2];

const E13: Edge = [1, 3];

const E23: Edge = [2, 3];

/// How many corners, the mask of those inside, how many points, and the ends of each cell.
#[rattlefmt::skip]
const TABLE: [(usize, u8, usize, &[&[Edge]]); 30] = [
    // A tetrahedron has triangles.
    (4, 0b0000, 0, &[]),
    (4, 0b1111, 0, &[]),
    (4, 0b0001, 3, &[&[E01, E02, E03]]),
    (4, 0b0010, 3, &[&[E12, E01, E13]]),
    (4, 0b0100, 3, &[&[E02, E12, E23]]),
    (4, 0b1000, 3, &[&[E13, E03, E23]]),
    (4, 0b1110, 3, &[&[E02, E01, E03]]),
    (4, 0b1101, 3, &[&[E01, E12, E13]]),
    (4, 0b1011, 3, &[&[E12, E02, E23]]),
    (4, 0b0111, 3, &[&[E03, E13, E23]]),
    (4, 0b0011, 4, &[&[E02, E03, E13], &[E02, E13, E12]]),
    (4, 0b0101, 4, &[&[E01, E12, E23], &[E01, E23, E03]]),
    (4, 0b1001, 4, &[&[E01, E02, E23], &[E01, E23, E13]]),
    (4, 0b0110, 4, &[&[E01, E13, E23], &[E01, E23, E02]]),
    (4, 0b1010, 4, &[&[E01, E03, E23], &[E01, E23, E12]]),
    (4, 0b1100, 4, &[&[E02, E12, E13], &[E02, E13, E03]]),
    // A triangle has a line.
    (3, 0b000, 0, &[]),
    (3, 0b111, 0, &[]),
    (3, 0b001, 2, &[&[E01, E02]]),
    (3, 0b010, 2, &[&[E12, E01]]),
    (3, 0b100, 2, &[&[E02, E12]]),
    (3, 0b110, 2, &[&[E02, E01]]),
    (3, 0b101, 2, &[&[E01, E12]]),
    (3, 0b011, 2, &[&[E12, E02]]),
    // A line has a vertex.
    (2, 0b00, 0, &[]),
    (2, 0b01, 1, &[&[E01]]),
    (2, 0b10, 1, &[&[E01]]),
    (2, 0b11, 0, &[]),
    // A vertex has nothing.
    (1, 0b0, 0, &[]),
    (1, 0b1, 0, &[]),
];

#[test]
fn a_simplex_is_cut_as_the_table_says(rt: HostRuntime) {
    for (corners, mask, points, rows) in &TABLE {
        let found = section_of(rt.alloc(), *corners, *mask);
        assert!(rt; has_rows(found, *points, rows), "{corners} {mask}");
    }
}
