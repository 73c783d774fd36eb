//! The mesh of a file's points and cells.

ghost use Rattle.std.specs.Prelude.{◌≡◌, ◌≤◌, ◌∷◌, [], All, IfOk, length};
ghost use Rattle.viz_counted_cells.specs.Sections.{section_of};
ghost use Rattle.viz_mesh_read.specs.Poly.{sections_of};
ghost use Rattle.viz_mesh_read.specs.Pieces.{pieces_in};
ghost use Rattle.viz_sheet.specs.Arrays.{points_in, ranks_in};
ghost use Rattle.viz_sheet.specs.Kept.{sheet_with};
ghost use Rattle.viz_sheet.specs.Ranked.{IsCell, leaf_names};
ghost use Rattle.viz_sheet.specs.Sheet.{IsSheet, IsFit};
ghost use Rattle.viz_file_mesh.specs.FileMesh.{ArePoints, mesh_of};
ghost use Rattle.viz_file_mesh.specs.GridPieces.{grid_pieces_in};

use crate::grids::grid_ranks;
use crate::points::file_places;
use crate::polys::poly_ranks;
use std::alloc::{AllocError, Global};
use viz_column::Column;
use viz_mesh_read::{GridFile, PolyFile};
use viz_sheet::{Leaves, Mesh, Places, Ranks, Sheet, sheet_of};

/// The sheet of the points that these cells have, and the cells.
fn leaf_sheet(alloc: Global, count: u32, places: Places, ranks: Ranks) -> Result<Sheet, AllocError>
    requires points { length (points_in places) ≡ count }
    requires cells { All (IsCell count) (ranks_in ranks) }
    ensures value { IfOk result (λ s.
        s ≡ sheet_with (leaf_names count) (points_in places) (ranks_in ranks)) }
    ensures fits { IfOk result IsFit }
{
    let leaves = Leaves::of_points(alloc, count)?;
    let sheet = sheet_of(alloc, leaves, places, ranks)?;
    Ok(sheet)
}

/// The mesh of this sheet alone.
fn mesh_with(alloc: Global, count: u32, places: Places, ranks: Ranks) -> Result<Mesh, AllocError>
    requires points { length (points_in places) ≡ count }
    requires cells { All (IsCell count) (ranks_in ranks) }
    ensures value { IfOk result (λ m.
        m ≡ sheet_with (leaf_names count) (points_in places) (ranks_in ranks) ∷ []) }
    ensures valid { IfOk result (All IsSheet) }
    ensures fits { IfOk result (All IsFit) }
{
    let sheet = leaf_sheet(alloc, count, places, ranks)?;
    sheet.known();
    let mut sheets = Vec::with_capacity(alloc, 1)?;
    sheets.push(sheet)?;
    Ok(Mesh::new(sheets))
}

/// The mesh of a grid: its cells that repeat no index, and the points that they have, each with its
/// number of the picked array as the scalar, or 0. A coordinate n stands for n by 10^unit.
pub fn grid_mesh(
    alloc: Global,
    grid: GridFile,
    picked: Option<Column>,
    unit: u8,
) -> Result<Mesh, AllocError>
    requires unit { unit ≤ 9 }
    requires points { ArePoints grid.points picked }
    requires cells { All (IsCell grid.points.count) (grid_pieces_in (section_of grid.cells)) }
    ensures value { IfOk result (λ m.
        m ≡ mesh_of unit grid.points picked (grid_pieces_in (section_of grid.cells))) }
    ensures valid { IfOk result (All IsSheet) }
    ensures fits { IfOk result (All IsFit) }
{
    let GridFile { points, cells } = grid;
    let count = points.count;
    let ranks = grid_ranks(alloc, cells, count)?;
    let places = file_places(alloc, points, picked, unit)?;
    mesh_with(alloc, count as u32, places, ranks)
}

/// The mesh of polydata: the pieces of its cells, and the points that they have, as in a grid.
pub fn poly_mesh(
    alloc: Global,
    poly: PolyFile,
    picked: Option<Column>,
    unit: u8,
) -> Result<Mesh, AllocError>
    requires unit { unit ≤ 9 }
    requires points { ArePoints poly.points picked }
    requires cells { All (IsCell poly.points.count) (pieces_in (sections_of poly.cells)) }
    ensures value { IfOk result (λ m.
        m ≡ mesh_of unit poly.points picked (pieces_in (sections_of poly.cells))) }
    ensures valid { IfOk result (All IsSheet) }
    ensures fits { IfOk result (All IsFit) }
{
    let PolyFile { points, cells } = poly;
    let count = points.count;
    let ranks = poly_ranks(alloc, cells)?;
    let places = file_places(alloc, points, picked, unit)?;
    mesh_with(alloc, count as u32, places, ranks)
}
