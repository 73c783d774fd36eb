//! Audits of small sheets, by hand.

use std::alloc::Global;
use std::test::Fail;
use viz_extent::Extent;
use viz_fraction::{Point5, point};
use viz_sheet::{Leaves, Places, Ranks, Sheet, are_cells, compacted};
use viz_surface_law::{Counts, audit, is_surface};

/// The edges from the lowest corner of a cube, with x fastest.
const SPOKES: [[u32; 2]; 7] = [[0, 1], [0, 2], [0, 3], [0, 4], [0, 5], [0, 6], [0, 7]];

/// The triangles round that corner, one in each tetrahedron.
const ROUND: [[u32; 3]; 6] = [
    [0, 2, 6],
    [4, 0, 6],
    [2, 1, 6],
    [1, 5, 6],
    [3, 4, 6],
    [5, 3, 6],
];

// A point along x.
fn point_at(i: u32) -> Result<Point5, Fail> {
    match point(i128::from(i), 0, 0, 7, 1) {
        Ok(p) => Ok(p),
        Err(_) => Err("a narrow point")?,
    }
}

// A point for each name, so far from the one before.
fn places(alloc: Global, count: usize, step: u32) -> Result<Places, Fail> {
    let mut points = Vec::new(alloc);
    let mut x = 0_u32;
    for _ in 0..count {
        points.push(point_at(x)?)?;
        x = x.saturating_add(step);
    }
    Ok(Places::Wide(points))
}

// The sheet of triangles between edges.
fn sheet_of(
    alloc: Global,
    names: &[[u32; 2]],
    triangles: &[[u32; 3]],
    step: u32,
) -> Result<Sheet, Fail> {
    let places = places(alloc, names.len(), step)?;
    let leaves = Leaves::Two(names.to_vec(alloc)?);
    let ranks = Ranks::Triangles(triangles.to_vec(alloc)?);
    made(alloc, &leaves, &places, &ranks)
}

// The sheet of these arrays, where they are cells.
fn made(alloc: Global, leaves: &Leaves, places: &Places, ranks: &Ranks) -> Result<Sheet, Fail> {
    if !are_cells(leaves, places, ranks) {
        return Err("cells of ascending names")?;
    }
    let sheet = compacted(alloc, leaves, places, ranks)?;
    Ok(sheet)
}

// The counts of a sheet in a single cube, where it is a surface.
fn audited(alloc: Global, sheet: &Sheet) -> Result<Counts, Fail> {
    let whole = Extent::new([0, 1, 0, 1, 0, 1]).ok_or("an extent")?;
    if !is_surface(sheet, &whole) {
        return Err("triangles between edges")?;
    }
    let counts = audit(alloc, sheet, &whole)?;
    Ok(counts)
}

// The counts as a row: sides, two, lone, border.
fn counted(
    alloc: Global,
    names: &[[u32; 2]],
    triangles: &[[u32; 3]],
    step: u32,
) -> Result<[u64; 4], Fail> {
    let sheet = sheet_of(alloc, names, triangles, step)?;
    let counts = audited(alloc, &sheet)?;
    Ok([counts.sides, counts.two, counts.lone, counts.border])
}

#[test]
fn one_corner_of_a_cube_is_inside(rt: HostRuntime) -> Result<(), Fail> {
    for (step, want) in [
        (1, [12, 6, 6, 6]),
        // The level is the corner's value: all points are one, and their names differ.
        (0, [12, 6, 6, 6]),
    ] {
        let row = counted(rt.alloc(), &SPOKES, &ROUND, step)?;
        assert_eq!(rt; row, want, "{step}");
    }
    Ok(())
}

#[test]
fn an_empty_sheet_has_no_sides(rt: HostRuntime) -> Result<(), Fail> {
    let row = counted(rt.alloc(), &[], &[], 1)?;
    assert_eq!(rt; row, [0, 0, 0, 0]);
    Ok(())
}

#[test]
fn two_triangles_and_more_share_a_side(rt: HostRuntime) -> Result<(), Fail> {
    for (triangles, want) in [
        // One way and the other.
        ([[0, 1, 2], [1, 0, 6]].as_slice(), [5, 1, 4, 2]),
        // The same way.
        ([[0, 1, 2], [0, 1, 6]].as_slice(), [5, 0, 4, 2]),
        // Three triangles, one of them the other way.
        ([[0, 1, 2], [1, 0, 6], [1, 0, 3]].as_slice(), [7, 0, 6, 4]),
    ] {
        let row = counted(rt.alloc(), &SPOKES, triangles, 1)?;
        assert_eq!(rt; row, want, "{triangles:?}");
    }
    Ok(())
}

#[test]
fn a_diagonal_is_no_border(rt: HostRuntime) -> Result<(), Fail> {
    // The edges 0 1 and 2 3 lie at the lower end of z, and in no facet.
    let row = counted(rt.alloc(), &[[0, 1], [0, 2], [2, 3]], &[[0, 2, 1]], 1)?;
    assert_eq!(rt; row, [3, 0, 3, 2]);
    Ok(())
}

#[test]
fn surfaces_are_triangles_between_edges(rt: HostRuntime) -> Result<(), Fail> {
    let small = Extent::new([0, 1, 0, 1, 0, 0]).ok_or("an extent")?;
    let whole = Extent::new([0, 1, 0, 1, 0, 1]).ok_or("an extent")?;
    let sheet = sheet_of(rt.alloc(), &SPOKES, &ROUND, 1)?;
    assert!(rt; is_surface(&sheet, &whole));
    // Leaves past the last point.
    assert!(rt; !is_surface(&sheet, &small));
    // Leaves that descend, and a leaf twice.
    for last in [[1, 0], [3, 3]] {
        let sheet = sheet_of(rt.alloc(), &[[0, 1], [0, 2], last], &[[0, 2, 1]], 1)?;
        assert!(rt; !is_surface(&sheet, &whole), "{last:?}");
    }
    // Lines, and names of one leaf.
    let places = places(rt.alloc(), 7, 1)?;
    let lines = Ranks::Lines(vec![in rt.alloc(); [0, 1]]?);
    let leaves = Leaves::Two(SPOKES.to_vec(rt.alloc())?);
    let sheet = made(rt.alloc(), &leaves, &places, &lines)?;
    assert!(rt; !is_surface(&sheet, &whole));
    let triangles = Ranks::Triangles(ROUND.to_vec(rt.alloc())?);
    let sheet = made(
        rt.alloc(),
        &Leaves::of_points(rt.alloc(), 7)?,
        &places,
        &triangles,
    )?;
    assert!(rt; !is_surface(&sheet, &whole));
    Ok(())
}
