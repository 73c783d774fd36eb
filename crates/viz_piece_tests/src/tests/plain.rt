//! A plain slow program: cells by numbers of points, which of them are a piece's, how far each is
//! from these, and what a sheet then shows. It goes by the definition alone.

use std::alloc::{AllocError, Global};
use std::process::Abort;
use viz_parts::PartSheet;
use viz_sheet::Sheet;

/// How many points a cell has.
#[derive(Clone, Copy, Debug)]
pub(super) enum Shape {
    Vertices,
    Lines,
    Triangles,
    Tetrahedra,
    /// 1 to 4, in turn.
    Mixed,
}

/// A sheet: cell `i` has the points from number `turn * i` on, which begin again behind the last.
#[derive(Clone, Copy, Debug)]
pub(super) struct Row {
    pub(super) shape: Shape,
    pub(super) cells: u32,
    pub(super) turn: u32,
    pub(super) points: u32,
    /// How many leaves a name has.
    pub(super) leaves: u32,
    /// Whether points are kept in all the room.
    pub(super) wide: bool,
}

/// A piece of so many, with ghost levels.
#[derive(Clone, Copy, Debug)]
pub(super) struct Asked {
    pub(super) p: u32,
    pub(super) n: u32,
    pub(super) ghosts: u32,
}

// How many points cell `i` has.
fn size(shape: Shape, i: u32) -> u32 {
    match shape {
        Shape::Vertices => 1,
        Shape::Lines => 2,
        Shape::Triangles => 3,
        Shape::Tetrahedra => 4,
        Shape::Mixed => i % 4 + 1,
    }
}

/// The cells of a row, by the numbers of their points.
pub(super) fn cells_of(alloc: Global, row: Row) -> Result<Vec<Vec<u32>>, AllocError> {
    let mut cells = Vec::new(alloc);
    for i in 0..row.cells {
        cells.push(cell_of(alloc, row, i)?)?;
    }
    Ok(cells)
}

// One cell of a row.
fn cell_of(alloc: Global, row: Row, i: u32) -> Result<Vec<u32>, AllocError> {
    let mut cell = Vec::new(alloc);
    for j in 0..size(row.shape, i) {
        let number = row.turn.saturating_mul(i).saturating_add(j);
        cell.push(number.checked_rem(row.points).unwrap_or(0))?;
    }
    Ok(cell)
}

/// The leaves of the name of the point with this number: the last one is the number.
pub(super) fn leaves_of(number: u32) -> [u32; 8] {
    [0, 0, 0, 0, number / 8, number / 4, number / 2, number]
}

/// Its numbers: x, y, z, the scalar, and what they are over.
pub(super) fn point_of(number: u32) -> [i128; 5] {
    let x = i128::from(number);
    [x, i128::from(number % 7), 2, i128::from(number % 5), 1]
}

// Whether two cells share a point.
fn meet(cell: &[u32], other: &[u32]) -> bool {
    for number in cell {
        if other.contains(number) {
            return true;
        }
    }
    false
}

// Whether a cell meets one of this level.
fn meets_level(cells: &[Vec<u32>], levels: &[Option<u32>], level: u32, cell: &[u32]) -> bool {
    for (other, there) in cells.iter().zip(levels) {
        if *there == Some(level) && meet(cell, other) {
            return true;
        }
    }
    false
}

// The levels with one more: that of all cells that aren't there yet and meet one of the last.
fn grown(
    alloc: Global,
    cells: &[Vec<u32>],
    levels: &[Option<u32>],
    last: u32,
) -> Result<Vec<Option<u32>>, AllocError> {
    let mut more = Vec::new(alloc);
    for (cell, there) in cells.iter().zip(levels) {
        if there.is_none() && meets_level(cells, levels, last, cell) {
            more.push(Some(last.saturating_add(1)))?;
        } else {
            more.push(*there)?;
        }
    }
    Ok(more)
}

/// Where share `p` of `n` of so many begins.
pub(super) fn begin(count: u32, p: u32, n: u32) -> u32 {
    p.saturating_mul(count).checked_div(n).unwrap_or(0)
}

/// A number in 32 bits.
pub(super) fn narrow(n: usize) -> u32 {
    u32::try_from(n).unwrap_or(u32::MAX)
}

/// The level of each cell for a piece, or that it isn't there.
pub(super) fn levels_of(
    alloc: Global,
    cells: &[Vec<u32>],
    asked: Asked,
) -> Result<Vec<Option<u32>>, AllocError> {
    let count = narrow(cells.len());
    let first = begin(count, asked.p, asked.n);
    let next = begin(count, asked.p.saturating_add(1), asked.n);
    let mut levels = Vec::new(alloc);
    for i in 0..count {
        levels.push(if first <= i && i < next {
            Some(0)
        } else {
            None
        })?;
    }
    for last in 0..asked.ghosts {
        levels = grown(alloc, cells, &levels, last)?;
    }
    Ok(levels)
}

// Whether a cell has a point.
fn is_used(cells: &[Vec<u32>], number: u32) -> bool {
    for cell in cells {
        if cell.contains(&number) {
            return true;
        }
    }
    false
}

// At a rank of a sheet is this point, by its name.
fn shows_point(rt: &impl Abort, sheet: &Sheet, rank: usize, row: Row, number: u32) {
    assert!(rt; rank < sheet.point_count(), "{row:?} {number}");
    let name = sheet.name(rank);
    assert_eq!(rt; name.len(), row.leaves as usize, "{row:?} {number}");
    assert!(rt; leaves_of(number).ends_with(name), "{row:?} {number}");
    let p = sheet.point(rank);
    let numbers = [p.x(), p.y(), p.z(), p.s(), p.w()];
    assert_eq!(rt; numbers, point_of(number), "{row:?} {number}");
}

// A cell of a sheet has these points.
fn shows_cell(rt: &impl Abort, sheet: &Sheet, i: usize, row: Row, cell: &[u32]) {
    assert!(rt; i < sheet.cell_count(), "{row:?} {i}");
    let ranks = sheet.cell(i);
    assert_eq!(rt; ranks.len(), cell.len(), "{row:?} {i}");
    for (rank, number) in ranks.iter().zip(cell) {
        shows_point(rt, sheet, *rank as usize, row, *number);
    }
}

/// A sheet has just these cells, in this order, and just their points, in the order of names.
pub(super) fn shows_sheet(rt: &impl Abort, sheet: &Sheet, row: Row, cells: &[Vec<u32>]) {
    let mut rank: usize = 0;
    for number in 0..row.points {
        if is_used(cells, number) {
            shows_point(rt, sheet, rank, row, number);
            rank = rank.saturating_add(1);
        }
    }
    assert_eq!(rt; sheet.point_count(), rank, "{row:?}");
    assert_eq!(rt; sheet.cell_count(), cells.len(), "{row:?}");
    for (i, cell) in cells.iter().enumerate() {
        shows_cell(rt, sheet, i, row, cell);
    }
}

/// A part has just the cells of the piece, with their levels, and the points of these.
pub(super) fn shows_part(
    rt: &impl Abort,
    alloc: Global,
    part: &PartSheet,
    row: Row,
    asked: Asked,
) -> Result<(), AllocError> {
    let cells = cells_of(alloc, row)?;
    let levels = levels_of(alloc, &cells, asked)?;
    let mut there = Vec::new(alloc);
    for (cell, level) in cells.into_iter().zip(&levels) {
        if let Some(level) = level {
            shows_level(rt, part, there.len(), *level, asked);
            there.push(cell)?;
        }
    }
    shows_sheet(rt, part.sheet(), row, &there);
    Ok(())
}

// A cell of a part has this level.
fn shows_level(rt: &impl Abort, part: &PartSheet, i: usize, level: u32, asked: Asked) {
    assert!(rt; i < part.sheet().cell_count(), "{asked:?} {i}");
    assert_eq!(rt; part.level(i), level, "{asked:?} {i}");
}
