//! Sheets of few cells, by hand.

use crate::datasets::numbers_of;
use std::alloc::Global;
use std::test::Fail;
use viz_fraction::{Point5, point, small};
use viz_sheet::{
    Leaves, Mesh, Mixed, Places, Ranks, Sheet, are_cells, compacted, is_cell, sheet_of,
};

// The point (i, 0, 0) with the scalar 7.
fn point_at(i: u32) -> Result<Point5, Fail> {
    match point(i128::from(i), 0, 0, 7, 1) {
        Ok(p) => Ok(p),
        Err(_) => Err("a narrow point")?,
    }
}

// So many points along x, in half the room.
fn small_points(alloc: Global, count: u32) -> Result<Places, Fail> {
    let mut points = Vec::new(alloc);
    for i in 0..count {
        let p = point_at(i)?;
        match small(&p) {
            Some(q) => points.push(q)?,
            None => Err("a small point")?,
        }
    }
    Ok(Places::Small(points))
}

/// The same in all the room.
pub(super) fn wide_points(alloc: Global, count: u32) -> Result<Places, Fail> {
    let mut points = Vec::new(alloc);
    for i in 0..count {
        points.push(point_at(i)?)?;
    }
    Ok(Places::Wide(points))
}

// The sheet of cells, where they are cells, made from lent arrays.
fn compacted_of(
    alloc: Global,
    leaves: &Leaves,
    places: &Places,
    ranks: &Ranks,
) -> Result<Sheet, Fail> {
    if !are_cells(leaves, places, ranks) {
        return Err("cells of ascending names")?;
    }
    let sheet = compacted(alloc, leaves, places, ranks)?;
    Ok(sheet)
}

/// The same from arrays that are given up.
pub(super) fn sheet_by(
    alloc: Global,
    leaves: Leaves,
    places: Places,
    ranks: Ranks,
) -> Result<Sheet, Fail> {
    if !are_cells(&leaves, &places, &ranks) {
        return Err("cells of ascending names")?;
    }
    let sheet = sheet_of(alloc, leaves, places, ranks)?;
    Ok(sheet)
}

// The point of a rank is (i, 0, 0) for this i, with the scalar 7.
fn lies(sheet: &Sheet, rank: usize, along: &i128) -> bool {
    rank < sheet.point_count() && numbers_of(&sheet.point(rank)) == [*along, 0, 0, 7, 1]
}

// The name of a rank has these leaves.
fn has_name(sheet: &Sheet, rank: usize, name: &[u32]) -> bool {
    rank < sheet.point_count() && sheet.name(rank) == name
}

// The sheet has these names, and the points (i, 0, 0) for these i.
fn has_points(sheet: &Sheet, names: &[&[u32]], along: &[i128]) -> bool {
    for (rank, (name, x)) in names.iter().zip(along).enumerate() {
        if !has_name(sheet, rank, name) || !lies(sheet, rank, x) {
            return false;
        }
    }
    sheet.point_count() == names.len() && along.len() == names.len()
}

// The cell at a place has these ranks.
fn has_cell(sheet: &Sheet, i: usize, cell: &[u32]) -> bool {
    i < sheet.cell_count() && sheet.cell(i) == cell
}

// The sheet has these cells.
fn has_cells(sheet: &Sheet, cells: &[&[u32]]) -> bool {
    for (i, cell) in cells.iter().enumerate() {
        if !has_cell(sheet, i, cell) {
            return false;
        }
    }
    sheet.cell_count() == cells.len()
}

// The sheet has these names, the points (i, 0, 0) for these i, and these cells.
fn shows(sheet: &Sheet, names: &[&[u32]], along: &[i128], cells: &[&[u32]]) -> bool {
    has_points(sheet, names, along) && has_cells(sheet, cells)
}

// Lent arrays and arrays that are given up make a sheet with these names, points and cells.
fn shows_both(
    alloc: Global,
    (leaves, places, ranks): (Leaves, Places, Ranks),
    (names, along): (&[&[u32]], &[i128]),
    cells: &[&[u32]],
) -> Result<bool, Fail> {
    let lent = compacted_of(alloc, &leaves, &places, &ranks)?;
    let given_up = sheet_by(alloc, leaves, places, ranks)?;
    Ok(shows(&lent, names, along, cells) && shows(&given_up, names, along, cells))
}

// Four points, of which two triangles share two.
fn square(alloc: Global) -> Result<(Leaves, Places, Ranks), Fail> {
    let leaves = Leaves::of_points(alloc, 4)?;
    let places = small_points(alloc, 4)?;
    let ranks = Ranks::Triangles(vec![in alloc; [0, 1, 2], [2, 1, 3]]?);
    Ok((leaves, places, ranks))
}

#[test]
fn two_triangles_share_an_edge(rt: HostRuntime) -> Result<(), Fail> {
    let points: (&[&[u32]], &[i128]) = (&[&[0], &[1], &[2], &[3]], &[0, 1, 2, 3]);
    let cells: &[&[u32]] = &[&[0, 1, 2], &[2, 1, 3]];
    assert!(rt; shows_both(rt.alloc(), square(rt.alloc())?, points, cells)?);
    Ok(())
}

// Four points, of which the third has no cell.
fn two_lines(alloc: Global) -> Result<(Leaves, Places, Ranks), Fail> {
    let leaves = Leaves::Two(vec![in alloc; [0, 1], [0, 5], [2, 3], [4, 9]]?);
    let places = wide_points(alloc, 4)?;
    let ranks = Ranks::Lines(vec![in alloc; [0, 3], [3, 1]]?);
    Ok((leaves, places, ranks))
}

#[test]
fn a_middle_name_is_dropped(rt: HostRuntime) -> Result<(), Fail> {
    let points: (&[&[u32]], &[i128]) = (&[&[0, 1], &[0, 5], &[4, 9]], &[0, 1, 3]);
    let cells: &[&[u32]] = &[&[0, 2], &[2, 1]];
    assert!(rt; shows_both(rt.alloc(), two_lines(rt.alloc())?, points, cells)?);
    Ok(())
}

// Of six points the first and the fourth have no cell, and these are the cells of the others.
fn shows_of_six(alloc: Global, ranks: Ranks, cells: &[&[u32]]) -> Result<bool, Fail> {
    let leaves = Leaves::of_points(alloc, 6)?;
    let places = small_points(alloc, 6)?;
    let sheet = sheet_by(alloc, leaves, places, ranks)?;
    Ok(shows(&sheet, &[&[1], &[2], &[4], &[5]], &[1, 2, 4, 5], cells))
}

#[test]
fn small_cells_are_renumbered(rt: HostRuntime) -> Result<(), Fail> {
    let vertices = Ranks::Vertices(vec![in rt.alloc(); [5], [1], [2], [4]]?);
    assert!(rt; shows_of_six(rt.alloc(), vertices, &[&[3], &[0], &[1], &[2]])?);
    let lines = Ranks::Lines(vec![in rt.alloc(); [5, 1], [2, 4]]?);
    assert!(rt; shows_of_six(rt.alloc(), lines, &[&[3, 0], &[1, 2]])?);
    Ok(())
}

#[test]
fn large_cells_are_renumbered(rt: HostRuntime) -> Result<(), Fail> {
    let triangles = Ranks::Triangles(vec![in rt.alloc(); [5, 1, 2], [2, 1, 4]]?);
    assert!(rt; shows_of_six(rt.alloc(), triangles, &[&[3, 0, 1], &[1, 0, 2]])?);
    let tetrahedra = Ranks::Tetrahedra(vec![in rt.alloc(); [4, 5, 2, 1]]?);
    assert!(rt; shows_of_six(rt.alloc(), tetrahedra, &[&[2, 3, 1, 0]])?);
    Ok(())
}

// Cells of 1, 3 and 4 points.
fn any_cells(alloc: Global) -> Result<Ranks, Fail> {
    let mut cells = Vec::new(alloc);
    // What stands behind a cell's ranks is filler.
    cells.push(Mixed::new(1, [5, 9, 9, 9]))?;
    cells.push(Mixed::new(3, [4, 2, 1, 9]))?;
    cells.push(Mixed::new(4, [1, 2, 4, 5]))?;
    Ok(Ranks::Any(cells))
}

#[test]
fn cells_of_any_size_are_renumbered(rt: HostRuntime) -> Result<(), Fail> {
    let cells: &[&[u32]] = &[&[3], &[2, 1, 0], &[0, 1, 2, 3]];
    assert!(rt; shows_of_six(rt.alloc(), any_cells(rt.alloc())?, cells)?);
    Ok(())
}

// How many leaves each of these names has.
fn size_of(leaves: &Leaves) -> usize {
    leaves.size()
}

#[test]
fn names_have_1_to_8_leaves(rt: HostRuntime) -> Result<(), Fail> {
    let eight = vec![in rt.alloc(); [0, 1, 0, 2, 0, 1, 0, 3]]?;
    assert!(rt; size_of(&Leaves::One(vec![in rt.alloc(); [3]]?)) == 1);
    assert!(rt; size_of(&Leaves::Two(vec![in rt.alloc(); [3, 4]]?)) == 2);
    assert!(rt; size_of(&Leaves::Four(vec![in rt.alloc(); [3, 4, 3, 5]]?)) == 4);
    assert!(rt; size_of(&Leaves::Eight(eight)) == 8);
    Ok(())
}

/// Two names that differ in their last leaf alone.
const FIRST: [u32; 8] = [0, 1, 0, 2, 0, 1, 0, 3];

const SECOND: [u32; 8] = [0, 1, 0, 2, 0, 1, 0, 4];

// The line from the second of these names to the first.
fn line(alloc: Global) -> Result<Sheet, Fail> {
    let leaves = Leaves::Eight(vec![in alloc; FIRST, SECOND]?);
    let places = small_points(alloc, 2)?;
    let ranks = Ranks::Lines(vec![in alloc; [1, 0]]?);
    sheet_by(alloc, leaves, places, ranks)
}

#[test]
fn the_last_leaf_decides(rt: HostRuntime) -> Result<(), Fail> {
    let sheet = line(rt.alloc())?;
    assert!(rt; shows(&sheet, &[&FIRST, &SECOND], &[0, 1], &[&[1, 0]]));
    Ok(())
}

#[test]
fn a_mesh_has_its_sheets(rt: HostRuntime) -> Result<(), Fail> {
    let sheet = line(rt.alloc())?;
    let mesh = Mesh::new(vec![in rt.alloc(); sheet]?);
    assert!(rt; mesh.sheets().len() == 1);
    assert!(rt; mesh.into_sheets().len() == 1);
    Ok(())
}

// Whether ranks are a cell, as a row says.
fn is_said((count, cell, want): &(usize, &[u32], bool)) -> bool {
    is_cell(*count, cell) == *want
}

/// Cells of so many points, and whether they are ones.
const CELLS: [(usize, &[u32], bool); 10] = [
    (4, &[], false),
    (4, &[3], true),
    (4, &[4], false),
    (4, &[0, 3], true),
    (4, &[3, 2, 1, 0], true),
    (5, &[4, 3, 2, 1, 0], false),
    // The same rank in neighbours and further away.
    (4, &[2, 2], false),
    (4, &[2, 1, 2], false),
    (4, &[1, 2, 3, 1], false),
    (4, &[0, 1, 2, 2], false),
];

#[test]
fn cells_have_1_to_4_different_ranks(rt: HostRuntime) {
    for row in &CELLS {
        assert!(rt; is_said(row), "{row:?}");
    }
}

/// Names of three, so many points and a triangle by ranks.
type Named = ([[u32; 2]; 3], u32, [u32; 3], bool);

// Whether a triangle with these ranks is a cell of these names and so many points, as a row says.
fn is_accepted(alloc: Global, (names, points, cell, want): &Named) -> Result<bool, Fail> {
    let leaves = Leaves::Two(Vec::from_array(alloc, *names)?);
    let places = small_points(alloc, *points)?;
    let ranks = Ranks::Triangles(vec![in alloc; *cell]?);
    Ok(are_cells(&leaves, &places, &ranks) == *want)
}

#[test]
fn names_ascend_and_each_has_a_point(rt: HostRuntime) -> Result<(), Fail> {
    for row in &[
        ([[0, 5], [1, 2], [1, 3]], 3, [0, 1, 2], true),
        // Names that fall, by the second leaf alone, and that are equal.
        ([[0, 5], [1, 3], [1, 2]], 3, [0, 1, 2], false),
        ([[0, 5], [0, 5], [1, 2]], 3, [0, 1, 2], false),
        // A point too few, and one too many.
        ([[0, 5], [1, 2], [1, 3]], 2, [0, 1, 2], false),
        ([[0, 5], [1, 2], [1, 3]], 4, [0, 1, 2], false),
        // A rank that no name has, and one that comes twice.
        ([[0, 5], [1, 2], [1, 3]], 3, [0, 1, 3], false),
        ([[0, 5], [1, 2], [1, 3]], 3, [0, 1, 0], false),
    ] {
        assert!(rt; is_accepted(rt.alloc(), row)?, "{row:?}");
    }
    Ok(())
}
