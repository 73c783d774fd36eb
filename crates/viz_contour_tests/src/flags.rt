//! Sections of small grids, counted by hand from the tables of docs/FORMATS-OF-FILTERS.md.

use std::alloc::{AllocError, Global};
use std::process::Abort;
use std::test::Fail;
use viz_extent::Extent;
use viz_flags::{Ranked, ranked_section};
use viz_lanes::Bits;

/// The points of a single cube.
const CUBE: [u32; 6] = [0, 1, 0, 1, 0, 1];

// The section of a window from a leaf on.
fn section(alloc: Global, bounds: [u32; 6], first: u32, inside: &[bool]) -> Result<Ranked, Fail> {
    let window = Extent::new(bounds).ok_or("an extent")?;
    if inside.len() as u64 != window.count() || inside.len() > 1000 || first > 1000 {
        return Err("a point for each leaf of a small window")?;
    }
    let mut bits = Bits::new(alloc);
    for flag in inside {
        bits.push(*flag)?;
    }
    if bits.len() != window.count() {
        return Err("a bit for each leaf")?;
    }
    let ranked = ranked_section(alloc, &window, first, &bits)?;
    Ok(ranked)
}

// The names of a triangle's ends, each the lesser leaf first.
fn ends(names: &[[u32; 2]], triangle: [u32; 3]) -> Result<[u32; 6], Fail> {
    let [a, b, c] = triangle;
    let [p, q] = *names.get(a as usize).ok_or("a name")?;
    let [r, s] = *names.get(b as usize).ok_or("a name")?;
    let [t, u] = *names.get(c as usize).ok_or("a name")?;
    Ok([p, q, r, s, t, u])
}

// The section of a window has so many names and the triangles of these rows, in order.
fn shows(
    rt: &impl Abort,
    alloc: Global,
    bounds: [u32; 6],
    first: u32,
    inside: &[bool],
    count: usize,
    rows: &[[u32; 6]],
) -> Result<(), Fail> {
    let found = section(alloc, bounds, first, inside)?;
    assert_eq!(rt; found.names.len(), count, "{bounds:?} {first}");
    assert_eq!(rt; found.triangles.len(), rows.len(), "{bounds:?} {first}");
    for (triangle, row) in found.triangles.iter().zip(rows) {
        let ends = ends(&found.names, *triangle)?;
        assert_eq!(rt; ends, *row, "{bounds:?} {first}");
    }
    Ok(())
}

#[test]
fn one_corner_is_cut_in_six(rt: HostRuntime) -> Result<(), Fail> {
    let mut inside = [false; 8];
    inside[7] = true;
    let rows = [
        [1, 7, 0, 7, 3, 7],
        [5, 7, 0, 7, 1, 7],
        [3, 7, 0, 7, 2, 7],
        [2, 7, 0, 7, 6, 7],
        [4, 7, 0, 7, 5, 7],
        [6, 7, 0, 7, 4, 7],
    ];
    shows(&rt, rt.alloc(), CUBE, 0, &inside, 7, &rows)
}

#[test]
fn an_edge_is_cut_in_eight(rt: HostRuntime) -> Result<(), Fail> {
    let mut inside = [false; 8];
    inside[0] = true;
    inside[1] = true;
    let rows = [
        // Two corners of the first and of the second tetrahedron are inside.
        [0, 3, 0, 7, 1, 7],
        [0, 3, 1, 7, 1, 3],
        [0, 5, 1, 5, 1, 7],
        [0, 5, 1, 7, 0, 7],
        [0, 3, 0, 2, 0, 7],
        [0, 2, 0, 6, 0, 7],
        [0, 4, 0, 5, 0, 7],
        [0, 6, 0, 4, 0, 7],
    ];
    shows(&rt, rt.alloc(), CUBE, 0, &inside, 9, &rows)
}

#[test]
fn two_cubes_follow_each_other(rt: HostRuntime) -> Result<(), Fail> {
    // A point between two cubes: corner 100 of the first, and the lowest one of the second.
    let mut inside = [false; 12];
    inside[1] = true;
    let rows = [
        [1, 4, 0, 1, 1, 10],
        [0, 1, 1, 7, 1, 10],
        [1, 2, 1, 5, 1, 11],
        [1, 8, 1, 2, 1, 11],
        [1, 5, 1, 4, 1, 11],
        [1, 4, 1, 10, 1, 11],
        [1, 7, 1, 8, 1, 11],
        [1, 10, 1, 7, 1, 11],
    ];
    shows(&rt, rt.alloc(), [0, 2, 0, 1, 0, 1], 0, &inside, 8, &rows)
}

#[test]
fn two_cubes_of_a_row_stand_in_two_words_of_64(rt: HostRuntime) -> Result<(), Fail> {
    // The cubes beside point 64 of a row are the last of its first 64 and the next one.
    let mut inside = [false; 284];
    inside[64] = true;
    let rows = [
        [64, 135, 63, 64, 64, 277],
        [63, 64, 64, 206, 64, 277],
        [64, 65, 64, 136, 64, 278],
        [64, 207, 64, 65, 64, 278],
        [64, 136, 64, 135, 64, 278],
        [64, 135, 64, 277, 64, 278],
        [64, 206, 64, 207, 64, 278],
        [64, 277, 64, 206, 64, 278],
    ];
    shows(&rt, rt.alloc(), [0, 70, 0, 1, 0, 1], 0, &inside, 8, &rows)
}

#[test]
fn names_of_a_window_count_from_its_first_leaf(rt: HostRuntime) -> Result<(), Fail> {
    // The second layer of cubes of 2 x 2 x 3 points begins at leaf 4.
    let mut inside = [false; 8];
    inside[0] = true;
    let rows = [
        [4, 5, 4, 7, 4, 11],
        [4, 9, 4, 5, 4, 11],
        [4, 7, 4, 6, 4, 11],
        [4, 6, 4, 10, 4, 11],
        [4, 8, 4, 9, 4, 11],
        [4, 10, 4, 8, 4, 11],
    ];
    shows(&rt, rt.alloc(), [0, 1, 0, 1, 1, 2], 4, &inside, 7, &rows)
}

#[test]
fn one_side_has_no_triangle(rt: HostRuntime) -> Result<(), Fail> {
    shows(&rt, rt.alloc(), CUBE, 0, &[false; 8], 0, &[])?;
    shows(&rt, rt.alloc(), CUBE, 0, &[true; 8], 0, &[])
}

#[test]
fn one_plane_has_no_cube(rt: HostRuntime) -> Result<(), Fail> {
    let mut inside = [false; 25];
    inside[12] = true;
    shows(&rt, rt.alloc(), [3, 3, 0, 4, 0, 4], 0, &inside, 0, &[])
}

// Whether a corner of a cube is inside, by a bit for each.
fn is_inside(mask: u32, corner: u32) -> bool {
    mask >> (corner % 32) & 1 == 1
}

// The cut edges of a cube: an edge goes from a corner to one that has its steps and more.
fn cut_edges(alloc: Global, mask: u32) -> Result<Vec<[u32; 2]>, AllocError> {
    let mut names = Vec::new(alloc);
    for a in 0..8 {
        for b in a + 1..8 {
            if a & b == a && is_inside(mask, a) != is_inside(mask, b) {
                names.push([a, b])?;
            }
        }
    }
    Ok(names)
}

// The corners of a cube that are inside.
fn corners(alloc: Global, mask: u32) -> Result<Vec<bool>, AllocError> {
    let mut inside = Vec::new(alloc);
    for corner in 0..8 {
        inside.push(is_inside(mask, corner))?;
    }
    Ok(inside)
}

#[test]
fn cut_edges_are_named_for_each_mask(rt: HostRuntime) -> Result<(), Fail> {
    for mask in 0..256 {
        let inside = corners(rt.alloc(), mask)?;
        let found = section(rt.alloc(), CUBE, 0, &inside)?;
        let wanted = cut_edges(rt.alloc(), mask)?;
        assert_eq!(rt; found.names.as_slice(), wanted.as_slice(), "{mask}");
    }
    Ok(())
}
