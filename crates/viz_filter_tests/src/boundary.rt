//! Boundaries of few cells, by hand.

use crate::images::image_from;
use crate::sheets::{Cells, one, sheet_by};
use crate::shows::{has_counts, is_of, only};
use crate::tets::tets_of;
use std::alloc::Global;
use viz_boundary::boundary;
use viz_sheet::{Mesh, Sheet};

/// Points along x, of which each sheet has the first ones.
const ALONG: [[i128; 5]; 8] = [
    [0, 0, 0, 0, 1],
    [1, 0, 0, 0, 1],
    [2, 0, 0, 0, 1],
    [3, 0, 0, 0, 1],
    [4, 0, 0, 0, 1],
    [5, 0, 0, 0, 1],
    [6, 0, 0, 0, 1],
    [7, 0, 0, 0, 1],
];

// The boundary of a sheet.
fn bounded(alloc: Global, sheets: Option<Vec<Sheet>>) -> Option<Mesh> {
    match sheets {
        Some(sheets) => boundary(alloc, &sheets).ok(),
        None => None,
    }
}

// Whether the boundary of these cells of so many points has these names and these cells.
fn bounds(alloc: Global, count: usize, cells: &Cells, names: &[&[u32]], want: &[&[u32]]) -> bool {
    if count > ALONG.len() {
        return false;
    }
    let sheet = sheet_by(alloc, &ALONG[..count], cells);
    is_of(only(bounded(alloc, one(alloc, sheet))), names, want)
}

/// How many points, the cells, and the names and the cells of their boundary.
#[rattlefmt::skip]
const ROWS: [(usize, Cells, &[&[u32]], &[&[u32]]); 7] = [
    // Facets are turned by the rule.
    (4, Cells::Tetrahedra(&[[0, 1, 2, 3]]), &[&[0], &[1], &[2], &[3]],
        &[&[1, 2, 3], &[2, 0, 3], &[0, 1, 3], &[1, 0, 2]]),
    // A shared facet is left out: both have 1, 2 and 3.
    (5, Cells::Tetrahedra(&[[0, 1, 2, 3], [1, 3, 2, 4]]), &[&[0], &[1], &[2], &[3], &[4]],
        &[&[2, 0, 3], &[0, 1, 3], &[1, 0, 2], &[3, 2, 4], &[2, 1, 4], &[1, 3, 4]]),
    // Facets of equal sums are others: 3 + 4 and 2 + 5 are 7, and 0 + 3 and 1 + 2 are 3.
    (6, Cells::Triangles(&[[0, 3, 4], [1, 2, 5]]), &[&[0], &[1], &[2], &[3], &[4], &[5]],
        &[&[3, 4], &[4, 0], &[0, 3], &[2, 5], &[5, 1], &[1, 2]]),
    // 0 + 4 + 5 and 1 + 2 + 6 are 9.
    (8, Cells::Tetrahedra(&[[0, 3, 4, 5], [1, 2, 6, 7]]),
        &[&[0], &[1], &[2], &[3], &[4], &[5], &[6], &[7]],
        &[&[3, 4, 5], &[4, 0, 5], &[0, 3, 5], &[3, 0, 4],
            &[2, 6, 7], &[6, 1, 7], &[1, 2, 7], &[2, 1, 6]]),
    // Triangles have edges and lines have ends.
    (4, Cells::Triangles(&[[0, 1, 2], [2, 1, 3]]), &[&[0], &[1], &[2], &[3]],
        &[&[2, 0], &[0, 1], &[1, 3], &[3, 2]]),
    (4, Cells::Lines(&[[0, 1], [1, 3]]), &[&[0], &[3]], &[&[0], &[1]]),
    // Each size counts for itself: the edge 1 2 of the triangle is also one of the tetrahedron, and
    // point 4 stands alone.
    (5, Cells::Any(&[(3, [1, 2, 4, 0]), (1, [4, 0, 0, 0]), (4, [0, 1, 2, 3])]),
        &[&[0], &[1], &[2], &[3], &[4]],
        &[&[2, 4], &[4, 1], &[1, 2], &[1, 2, 3], &[2, 0, 3], &[0, 1, 3], &[1, 0, 2]]),
];

#[test]
fn facets_of_one_cell_are_turned_by_the_rule(rt: HostRuntime) {
    for (count, cells, names, want) in &ROWS {
        assert!(rt;
            bounds(rt.alloc(), *count, cells, names, want),
            "{count} {want:?}"
        );
    }
}

// The boundary of all sheets of a mesh.
fn again(alloc: Global, mesh: Option<Mesh>) -> Option<Mesh> {
    match mesh {
        Some(mesh) => boundary(alloc, mesh.sheets()).ok(),
        None => None,
    }
}

// The boundary of the tetrahedra of 4 by 4 by 4 points.
fn first(alloc: Global) -> Option<Mesh> {
    again(
        alloc,
        tets_of(alloc, image_from(alloc, [0, 3, 0, 3, 0, 3], [0, 0, 0], 0)),
    )
}

// The row boundary-of-tets, in one piece.
#[test]
fn a_boundary_has_no_boundary(rt: HostRuntime) {
    assert!(rt; has_counts(only(first(rt.alloc())), 108, 56));
    assert!(rt; has_counts(only(again(rt.alloc(), first(rt.alloc()))), 0, 0));
}
