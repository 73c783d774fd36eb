//! What sheets have, by hand.

use crate::sheets::Five;
use viz_fraction::Point5;
use viz_sheet::{Mesh, Sheet};

/// The five numbers of a point.
pub(crate) fn five(p: &Point5) -> Five {
    [p.x(), p.y(), p.z(), p.s(), p.w()]
}

/// Whether the name of a rank is this one.
pub(crate) fn has_name(sheet: &Sheet, rank: usize, name: &[u32]) -> bool {
    rank < sheet.point_count() && sheet.name(rank) == name
}

/// Whether the point of a rank has these numbers.
pub(crate) fn has_point(sheet: &Sheet, rank: usize, want: &Five) -> bool {
    rank < sheet.point_count() && five(&sheet.point(rank)) == *want
}

// Whether a cell has these ranks.
fn has_cell(sheet: &Sheet, i: usize, cell: &[u32]) -> bool {
    i < sheet.cell_count() && sheet.cell(i) == cell
}

/// Whether the names are these.
pub(crate) fn has_names(sheet: &Sheet, names: &[&[u32]]) -> bool {
    for (rank, name) in names.iter().enumerate() {
        if !has_name(sheet, rank, name) {
            return false;
        }
    }
    sheet.point_count() == names.len()
}

/// Whether the points have these numbers.
pub(crate) fn has_points(sheet: &Sheet, points: &[Five]) -> bool {
    for (rank, five) in points.iter().enumerate() {
        if !has_point(sheet, rank, five) {
            return false;
        }
    }
    sheet.point_count() == points.len()
}

/// Whether the cells have these ranks.
pub(crate) fn has_cells(sheet: &Sheet, cells: &[&[u32]]) -> bool {
    for (i, cell) in cells.iter().enumerate() {
        if !has_cell(sheet, i, cell) {
            return false;
        }
    }
    sheet.cell_count() == cells.len()
}

// The only one of sheets.
fn single(mut sheets: Vec<Sheet>) -> Option<Sheet> {
    if sheets.len() == 1 {
        sheets.pop()
    } else {
        None
    }
}

/// The only sheet of a mesh.
pub(crate) fn only(mesh: Option<Mesh>) -> Option<Sheet> {
    match mesh {
        Some(mesh) => single(mesh.into_sheets()),
        None => None,
    }
}

/// Whether there is a sheet with these names and cells.
pub(crate) fn is_of(sheet: Option<Sheet>, names: &[&[u32]], cells: &[&[u32]]) -> bool {
    match sheet {
        Some(sheet) => has_names(&sheet, names) && has_cells(&sheet, cells),
        None => false,
    }
}

/// Whether there is a sheet with these names, points and cells.
pub(crate) fn is_sheet(
    sheet: Option<Sheet>,
    names: &[&[u32]],
    points: &[Five],
    cells: &[&[u32]],
) -> bool {
    match sheet {
        Some(sheet) => {
            has_names(&sheet, names) && has_points(&sheet, points) && has_cells(&sheet, cells)
        }
        None => false,
    }
}

/// Whether there is a sheet with so many cells and points.
pub(crate) fn has_counts(sheet: Option<Sheet>, cells: usize, points: usize) -> bool {
    match sheet {
        Some(sheet) => sheet.cell_count() == cells && sheet.point_count() == points,
        None => false,
    }
}
