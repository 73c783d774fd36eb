//! What tests of all filters have in common: sheets of given points and cells.

use std::alloc::Global;
use viz_fraction::{Point5, SmallPoint, point, small};
use viz_sheet::{Leaves, Mixed, Places, Ranks, Sheet, are_cells, sheet_of};

/// The numbers x, y, z, s, w of a point.
pub(crate) type Five = [i128; 5];

/// Cells by ranks, of one size or of any: so many of four.
#[derive(Clone, Copy)]
pub(crate) enum Cells {
    Vertices(&'static [[u32; 1]]),
    Lines(&'static [[u32; 2]]),
    Triangles(&'static [[u32; 3]]),
    Tetrahedra(&'static [[u32; 4]]),
    Any(&'static [(u8, [u32; 4])]),
}

// The point of five numbers, where they are one.
fn point_of(five: &Five) -> Option<Point5> {
    let [x, y, z, s, w] = *five;
    if w <= 0 {
        return None;
    }
    point(x, y, z, s, w).ok()
}

// The same in half the room.
fn half_of(five: &Five) -> Option<SmallPoint> {
    match point_of(five) {
        Some(p) => small(&p),
        None => None,
    }
}

/// These points in all the room.
pub(crate) fn wide(alloc: Global, points: &[Five]) -> Option<Places> {
    let mut places = Vec::new(alloc);
    for five in points {
        places.push(point_of(five)?).ok()?;
    }
    Some(Places::Wide(places))
}

/// These points in half the room.
pub(crate) fn halves(alloc: Global, points: &[Five]) -> Option<Places> {
    let mut places = Vec::new(alloc);
    for five in points {
        places.push(half_of(five)?).ok()?;
    }
    Some(Places::Small(places))
}

// These cells of any size.
fn mixed(alloc: Global, rows: &[(u8, [u32; 4])]) -> Option<Vec<Mixed>> {
    let mut cells = Vec::new(alloc);
    for (size, ranks) in rows {
        if *size > 4 {
            return None;
        }
        cells.push(Mixed::new(*size, *ranks)).ok()?;
    }
    Some(cells)
}

// The array of these cells.
fn ranks_of(alloc: Global, cells: &Cells) -> Option<Ranks> {
    match cells {
        Cells::Vertices(rows) => Some(Ranks::Vertices(Vec::from_slice(alloc, rows).ok()?)),
        Cells::Lines(rows) => Some(Ranks::Lines(Vec::from_slice(alloc, rows).ok()?)),
        Cells::Triangles(rows) => Some(Ranks::Triangles(Vec::from_slice(alloc, rows).ok()?)),
        Cells::Tetrahedra(rows) => Some(Ranks::Tetrahedra(Vec::from_slice(alloc, rows).ok()?)),
        Cells::Any(rows) => Some(Ranks::Any(mixed(alloc, rows)?)),
    }
}

// The sheet of these arrays, where they are one.
fn checked(alloc: Global, leaves: Leaves, places: Places, ranks: Ranks) -> Option<Sheet> {
    if !are_cells(&leaves, &places, &ranks) {
        return None;
    }
    sheet_of(alloc, leaves, places, ranks).ok()
}

// The numbers of points as their names.
fn leaves_of(alloc: Global, places: &Places) -> Option<Leaves> {
    let count = u32::try_from(places.len()).ok()?;
    Leaves::of_points(alloc, count).ok()
}

// The sheet of these points and cells.
fn sheet_with(alloc: Global, places: Places, ranks: Ranks) -> Option<Sheet> {
    match leaves_of(alloc, &places) {
        Some(leaves) => checked(alloc, leaves, places, ranks),
        None => None,
    }
}

/// The sheet of these points, named by their numbers, and cells.
pub(crate) fn sheet_at(alloc: Global, places: Option<Places>, cells: &Cells) -> Option<Sheet> {
    match places {
        Some(places) => match ranks_of(alloc, cells) {
            Some(ranks) => sheet_with(alloc, places, ranks),
            None => None,
        },
        None => None,
    }
}

/// The same with points in all the room.
pub(crate) fn sheet_by(alloc: Global, points: &[Five], cells: &Cells) -> Option<Sheet> {
    sheet_at(alloc, wide(alloc, points), cells)
}

/// This one sheet.
pub(crate) fn one(alloc: Global, sheet: Option<Sheet>) -> Option<Vec<Sheet>> {
    match sheet {
        Some(sheet) => vec![in alloc; sheet].ok(),
        None => None,
    }
}

/// These two sheets.
pub(crate) fn two(
    alloc: Global,
    first: Option<Sheet>,
    second: Option<Sheet>,
) -> Option<Vec<Sheet>> {
    match first {
        Some(first) => match second {
            Some(second) => vec![in alloc; first, second].ok(),
            None => None,
        },
        None => None,
    }
}
