//! Sheets of given points and cells, and what a mesh has.
ghost use Rattle.std.specs.Prelude.{◌≡◌, All, IsTrue, length};

use std::alloc::Global;
use viz_fraction::{Point5, whole};
use viz_sheet::{Leaves, Mixed, Places, Ranks, Sheet, are_cells, sheet_of};

/// The numbers x, y, z, s, w of a point.
pub(crate) type Five = [i128; 5];

// These points: x, y, z and the scalar.
fn places_of(alloc: Global, points: &[[i64; 4]]) -> Option<Places> {
    let mut places = Vec::new(alloc);
    for [x, y, z, s] in points {
        places.push(whole(*x, *y, *z, *s)).ok()?;
    }
    Some(Places::Small(places))
}

// These cells: so many of four ranks each.
fn ranks_of(alloc: Global, cells: &[(u8, [u32; 4])]) -> Option<Ranks> {
    let mut ranks = Vec::new(alloc);
    for (size, four) in cells {
        if *size > 4 {
            return None;
        }
        ranks.push(Mixed::new(*size, *four)).ok()?;
    }
    Some(Ranks::Any(ranks))
}

// The sheet of these arrays, where they are one.
fn checked(alloc: Global, leaves: Leaves, places: Places, ranks: Ranks) -> Option<Sheet> {
    if !are_cells(&leaves, &places, &ranks) {
        return None;
    }
    sheet_of(alloc, leaves, places, ranks).ok()
}

// The sheet of these points, named by their numbers.
fn sheet_with(alloc: Global, places: Places, ranks: Ranks) -> Option<Sheet> {
    let count = u32::try_from(places.len()).ok()?;
    match Leaves::of_points(alloc, count) {
        Ok(leaves) => checked(alloc, leaves, places, ranks),
        Err(_) => None,
    }
}

/// The sheet of these points and cells.
pub(crate) fn sheet(alloc: Global, points: &[[i64; 4]], cells: &[(u8, [u32; 4])]) -> Option<Sheet> {
    match places_of(alloc, points) {
        Some(places) => match ranks_of(alloc, cells) {
            Some(ranks) => sheet_with(alloc, places, ranks),
            None => None,
        },
        None => None,
    }
}

/// Each name is one leaf.
pub(crate) fn is_level_0(sheet: &Sheet) -> bool
    ensures { IsTrue result → All (λ n. length n ≡ 1) sheet.now.names }
{
    sheet.leaves().size() == 1
}

// Whether the point of a rank has these numbers.
fn has_point(sheet: &Sheet, rank: usize, want: &Five) -> bool {
    rank < sheet.point_count() && five(&sheet.point(rank)) == *want
}

// The five numbers of a point.
fn five(p: &Point5) -> Five {
    [p.x(), p.y(), p.z(), p.s(), p.w()]
}

/// Whether the points have these numbers.
pub(crate) fn has_points(sheet: &Sheet, points: &[Five]) -> bool {
    for (rank, five) in points.iter().enumerate() {
        if !has_point(sheet, rank, five) {
            return false;
        }
    }
    sheet.point_count() == points.len()
}

// Whether a cell has these ranks.
fn has_cell(sheet: &Sheet, i: usize, cell: &[u32]) -> bool {
    i < sheet.cell_count() && sheet.cell(i) == cell
}

/// Whether the cells have these ranks.
pub(crate) fn has_cells(sheet: &Sheet, cells: &[[u32; 4]]) -> bool {
    for (i, cell) in cells.iter().enumerate() {
        if !has_cell(sheet, i, cell) {
            return false;
        }
    }
    sheet.cell_count() == cells.len()
}
