//! Selections and joined meshes of few cells, by hand.

use crate::sheets::{Cells, Five, halves, one, sheet_at, sheet_by, wide};
use crate::shows::{is_of, only};
use std::alloc::Global;
use viz_select::{append, copied_sheets, select};
use viz_sheet::{Mesh, Places, Sheet};

// The selection of one sheet.
fn selected(alloc: Global, sheet: Option<Sheet>, lo: i64, hi: i64, all: bool) -> Option<Sheet> {
    match one(alloc, sheet) {
        Some(sheets) => only(select(alloc, &sheets, lo, hi, all).ok()),
        None => None,
    }
}

// Whether a sheet has so many cells.
fn has_cells(sheet: Option<Sheet>, count: usize) -> bool {
    match sheet {
        Some(sheet) => sheet.cell_count() == count,
        None => false,
    }
}

/// Four points with the scalars 0, 5, 5 and 9.
const CORNERS: [Five; 4] = [
    [0, 0, 0, 0, 1],
    [1, 0, 0, 5, 1],
    [0, 1, 0, 5, 1],
    [0, 0, 1, 9, 1],
];

// A tetrahedron of them.
fn tetrahedron(alloc: Global) -> Option<Sheet> {
    sheet_by(alloc, &CORNERS, &Cells::Tetrahedra(&[[0, 1, 2, 3]]))
}

// The row select-any-all.
#[test]
fn any_corner_keeps_what_all_drop(rt: HostRuntime) {
    assert!(rt;
        has_cells(
            selected(rt.alloc(), tetrahedron(rt.alloc()), 5, 9, false),
            1
        )
    );
    assert!(rt; has_cells(selected(rt.alloc(), tetrahedron(rt.alloc()), 5, 9, true), 0));
}

/// Five points with the scalars 2, 5/2, 3, -2 and -5/2.
const FIVE: [Five; 5] = [
    [0, 0, 0, 2, 1],
    [1, 0, 0, 5, 2],
    [2, 0, 0, 3, 1],
    [3, 0, 0, -2, 1],
    [4, 0, 0, -5, 2],
];

// A vertex at each of these five.
fn vertices(alloc: Global, places: Option<Places>) -> Option<Sheet> {
    sheet_at(alloc, places, &Cells::Vertices(&[[0], [1], [2], [3], [4]]))
}

// Whether so many of the five lie between two bounds.
fn selects(alloc: Global, places: Option<Places>, lo: i64, hi: i64, count: usize) -> bool {
    has_cells(
        selected(alloc, vertices(alloc, places), lo, hi, true),
        count,
    )
}

#[test]
fn both_bounds_belong_to_the_range(rt: HostRuntime) {
    for (lo, hi, count) in &[
        (2, 3, 3),
        (3, 3, 1),
        (3, 2, 0),
        (-2, 2, 2),
        (-3, -2, 2),
        (-2, -2, 1),
    ] {
        let alloc = rt.alloc();
        assert!(rt;
            selects(alloc, wide(alloc, &FIVE), *lo, *hi, *count),
            "{lo} {hi}"
        );
        assert!(rt;
            selects(alloc, halves(alloc, &FIVE), *lo, *hi, *count),
            "{lo} {hi}"
        );
    }
}

/// Five points of which the first and the fourth have the scalar 0.
const SEVENS: [Five; 5] = [
    [0, 0, 0, 0, 1],
    [1, 0, 0, 7, 1],
    [2, 0, 0, 7, 1],
    [3, 0, 0, 0, 1],
    [4, 0, 0, 7, 1],
];

#[test]
fn names_of_dropped_cells_go(rt: HostRuntime) {
    let cells = Cells::Any(&[
        (1, [0, 9, 9, 9]),
        (2, [4, 1, 9, 9]),
        (3, [1, 2, 3, 9]),
        (2, [2, 1, 9, 9]),
    ]);
    let sheet = sheet_by(rt.alloc(), &SEVENS, &cells);
    let found = selected(rt.alloc(), sheet, 7, 7, true);
    assert!(rt; is_of(found, &[&[1], &[2], &[4]], &[&[2, 0], &[1, 0]]));
}

// A mesh of this one sheet.
fn mesh_of(alloc: Global, sheet: Option<Sheet>) -> Option<Mesh> {
    match one(alloc, sheet) {
        Some(sheets) => Some(Mesh::new(sheets)),
        None => None,
    }
}

// These meshes joined, with one of no sheet behind the first.
fn joined(alloc: Global, first: Mesh, last: Mesh, again: Mesh) -> Option<Mesh> {
    let none = Mesh::new(Vec::new(alloc));
    match vec![in alloc; first, none, last, again] {
        Ok(meshes) => append(alloc, meshes).ok(),
        Err(_) => None,
    }
}

// The same with the last one's sheets once more.
fn joined_twice(alloc: Global, first: Mesh, last: Mesh) -> Option<Mesh> {
    match copied_sheets(alloc, last.sheets()) {
        Ok(again) => joined(alloc, first, last, again),
        Err(_) => None,
    }
}

// The five vertices, and the tetrahedron twice.
fn all(alloc: Global) -> Option<Mesh> {
    match mesh_of(alloc, vertices(alloc, halves(alloc, &FIVE))) {
        Some(first) => match mesh_of(alloc, tetrahedron(alloc)) {
            Some(last) => joined_twice(alloc, first, last),
            None => None,
        },
        None => None,
    }
}

// Whether sheets have so many cells.
fn have_cells(sheets: &[Sheet], counts: &[usize]) -> bool {
    for (sheet, count) in sheets.iter().zip(counts) {
        if sheet.cell_count() != *count {
            return false;
        }
    }
    sheets.len() == counts.len()
}

// Whether a mesh has sheets of so many cells.
fn has_sheets(mesh: Option<Mesh>, counts: &[usize]) -> bool {
    match mesh {
        Some(mesh) => have_cells(mesh.sheets(), counts),
        None => false,
    }
}

#[test]
fn meshes_are_joined_in_turn(rt: HostRuntime) {
    assert!(rt; has_sheets(all(rt.alloc()), &[5, 1, 1]));
}
