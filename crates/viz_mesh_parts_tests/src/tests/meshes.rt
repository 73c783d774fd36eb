//! Meshes of rows, and their pieces.

ghost use Rattle.std.specs.Prelude.{◌≤◌, IfOk};
ghost use Rattle.viz_piece_restrict.specs.Restricting.{IsSomeAnswer};

use std::alloc::{AllocError, Global};
use std::test::Fail;
use viz_fraction::point;
use viz_parts::{Part, Request, covers};
use viz_piece_restrict::{restrict, whole_mesh};
use viz_sheet::{Leaves, Mesh, Mixed, Places, Ranks, Sheet, are_cells, sheet_of};

/// A sheet: cell `i` has the points from number `turn * i` on, which begin again behind the last.
#[derive(Clone, Copy, Debug)]
pub(super) struct Row {
    /// How many points a cell has, or 0 where they have 1 to 4 in turn.
    pub(super) size: u8,
    pub(super) cells: u32,
    pub(super) turn: u32,
    pub(super) points: u32,
}

/// All of a mesh.
const WHOLE: Request = Request::Piece {
    p: 0,
    n: 1,
    ghosts: 0,
};

// How many points cell `i` has.
fn size(row: Row, i: u32) -> u8
    ensures { result ≤ 4 }
{
    match (row.size, i % 4) {
        (0, 0) => 1,
        (0, 1) => 2,
        (0, 2) => 3,
        (size, _) if size > 0 && size <= 4 => size,
        _ => 4,
    }
}

// Point `j` of cell `i`.
fn number(row: Row, i: u32, j: u32) -> u32 {
    let at = row.turn.saturating_mul(i).saturating_add(j);
    at.checked_rem(row.points).unwrap_or(0)
}

// The cells of a row.
fn ranks(alloc: Global, row: Row) -> Result<Ranks, AllocError> {
    let mut cells = Vec::new(alloc);
    for i in 0..row.cells {
        let [a, b, c, d] = [0, 1, 2, 3];
        let numbers = [
            number(row, i, a),
            number(row, i, b),
            number(row, i, c),
            number(row, i, d),
        ];
        cells.push(Mixed::new(size(row, i), numbers))?;
    }
    Ok(Ranks::Any(cells))
}

// So many points along x, with scalars from 0 to 4.
fn points(alloc: Global, count: u32) -> Result<Places, Fail> {
    let mut points = Vec::new(alloc);
    for i in 0..count {
        match point(i128::from(i), i128::from(i % 7), 2, i128::from(i % 5), 1) {
            Ok(p) => points.push(p)?,
            Err(_) => Err("a narrow point")?,
        }
    }
    Ok(Places::Wide(points))
}

// The sheet of a row.
fn sheet(alloc: Global, row: Row) -> Result<Sheet, Fail> {
    let leaves = Leaves::of_points(alloc, row.points)?;
    let places = points(alloc, row.points)?;
    let ranks = ranks(alloc, row)?;
    if !are_cells(&leaves, &places, &ranks) {
        return Err("cells of ascending names")?;
    }
    let sheet = sheet_of(alloc, leaves, places, ranks)?;
    Ok(sheet)
}

// All of the mesh of rows.
fn whole(alloc: Global, rows: &[Row]) -> Result<Part, Fail>
    ensures { IfOk result (IsSomeAnswer (Request.Piece 0 1 0)) }
{
    let mut sheets = Vec::new(alloc);
    for row in rows {
        sheets.push(sheet(alloc, *row)?)?;
    }
    let whole = whole_mesh(alloc, Mesh::new(sheets))?;
    Ok(whole)
}

/// Piece `p` of `n` of the mesh of rows, with so many ghost levels.
pub(super) fn piece(
    alloc: Global,
    rows: &[Row],
    p: u32,
    n: u32,
    ghosts: u32,
) -> Result<Part, Fail> {
    let whole = whole(alloc, rows)?;
    let wanted = Request::Piece { p, n, ghosts };
    if p >= n || !covers(&WHOLE, &wanted) {
        return Err("a piece of some")?;
    }
    let part = restrict(alloc, &whole, &WHOLE, &wanted)?;
    Ok(part)
}
