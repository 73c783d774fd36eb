//! Tetrahedra of small images, counted by hand.

use crate::images::{UNIT, image_from};
use crate::sheets::Five;
use crate::shows::{has_cells, has_counts, has_name, has_point, has_points, only};
use std::alloc::Global;
use viz_dataset::Image;
use viz_sheet::{Mesh, Places, Sheet};
use viz_tets::tets;

/// The tetrahedra of an image, where there is one.
pub(crate) fn tets_of(alloc: Global, image: Option<Image>) -> Option<Mesh> {
    match image {
        Some(image) => tets(alloc, &image).ok(),
        None => None,
    }
}

// Whether an image's tetrahedra are so many, with so many points.
fn counts(alloc: Global, bounds: [u32; 6], cells: usize, points: usize) -> bool {
    let image = image_from(alloc, bounds, [0, 0, 0], 0);
    has_counts(only(tets_of(alloc, image)), cells, points)
}

#[test]
fn six_for_each_cube(rt: HostRuntime) {
    for (bounds, cells, points) in &[
        ([0, 1, 0, 1, 0, 1], 6, 8),
        ([3, 5, 0, 1, 7, 8], 12, 12),
        // The first mesh of the row boundary-of-tets.
        ([0, 3, 0, 3, 0, 3], 162, 64),
        // A single layer has no cube, so no point is left.
        ([0, 4, 2, 2, 0, 4], 0, 0),
    ] {
        assert!(rt; counts(rt.alloc(), *bounds, *cells, *points), "{bounds:?}");
    }
}

// The tetrahedra of a cube; points count x first, so 100 is 1, 010 is 2 and 001 is 4.
const CUBE: [&[u32]; 6] = [
    &[0, 1, 3, 7],
    &[0, 5, 1, 7],
    &[0, 3, 2, 7],
    &[0, 2, 6, 7],
    &[0, 4, 5, 7],
    &[0, 6, 4, 7],
];

/// Its points, whose scalars count from 0 on.
const SMALL: [Five; 8] = [
    [0, 0, 0, 0, 1],
    [1, 0, 0, 1, 1],
    [0, 1, 0, 2, 1],
    [1, 1, 0, 3, 1],
    [0, 0, 1, 4, 1],
    [1, 0, 1, 5, 1],
    [0, 1, 1, 6, 1],
    [1, 1, 1, 7, 1],
];

/// The same from 2^63 - 1 on, which still fits 64 bits with a sign, where 2^63 doesn't.
const WIDE: [Five; 8] = [
    [0, 0, 0, 9_223_372_036_854_775_807, 1],
    [1, 0, 0, 9_223_372_036_854_775_808, 1],
    [0, 1, 0, 9_223_372_036_854_775_809, 1],
    [1, 1, 0, 9_223_372_036_854_775_810, 1],
    [0, 0, 1, 9_223_372_036_854_775_811, 1],
    [1, 0, 1, 9_223_372_036_854_775_812, 1],
    [0, 1, 1, 9_223_372_036_854_775_813, 1],
    [1, 1, 1, 9_223_372_036_854_775_814, 1],
];

// Whether points lie in all the room.
fn are_wide(sheet: &Sheet) -> bool {
    matches!(sheet.places(), Places::Wide(_))
}

// The tetrahedra of a cube with scalars from a first one on.
fn cube(alloc: Global, first: u64) -> Option<Sheet> {
    only(tets_of(
        alloc,
        image_from(alloc, [0, 1, 0, 1, 0, 1], [0, 0, 0], first),
    ))
}

// Whether a sheet is a cube's, with these points.
fn is_cube(sheet: Option<Sheet>, wide: bool, points: &[Five]) -> bool {
    match sheet {
        Some(sheet) => {
            are_wide(&sheet) == wide && has_points(&sheet, points) && has_cells(&sheet, &CUBE)
        }
        None => false,
    }
}

#[test]
fn the_table_of_a_cube(rt: HostRuntime) {
    assert!(rt; is_cube(cube(rt.alloc(), 0), false, &SMALL));
    assert!(rt; is_cube(cube(rt.alloc(), 9_223_372_036_854_775_807), true, &WIDE));
}

// Whether the last of twelve points in half the room has this name and these numbers.
fn has_last(sheet: Option<Sheet>, name: &[u32], five: &Five) -> bool {
    match sheet {
        Some(sheet) => {
            sheet.point_count() == 12
                && !are_wide(&sheet)
                && has_name(&sheet, 11, name)
                && has_point(&sheet, 11, five)
        }
        None => false,
    }
}

// Half a unit, so that weights are 2; the last of two cubes along x.
#[test]
fn points_are_those_of_the_image(rt: HostRuntime) {
    let image = image_from(rt.alloc(), [4, 6, 0, 1, 0, 1], [UNIT / 2, 0, 0], 0);
    let sheet = only(tets_of(rt.alloc(), image));
    assert!(rt; has_last(sheet, &[11], &[13, 2, 2, 22, 2]));
}
