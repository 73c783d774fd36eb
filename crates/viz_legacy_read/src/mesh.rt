//! The mesh of a file, behind its preamble.

ghost use Rattle.std.specs.Prelude.{◌≡◌, ◌≤◌, None, All, IfOk, IfSome};
ghost use Rattle.viz_mesh_read.specs.Grid.{grid_of};
ghost use Rattle.viz_mesh_read.specs.GridSteps.{grid_at};
ghost use Rattle.viz_counted_cells.specs.Sections.{section_of};
ghost use Rattle.viz_mesh_read.specs.Poly.{polydata_of, sections_of};
ghost use Rattle.viz_mesh_read.specs.PolySteps.{polydata_at};
ghost use Rattle.viz_mesh_read.specs.Pieces.{pieces_in};
ghost use Rattle.viz_sheet.specs.Ranked.{IsCell};
ghost use Rattle.viz_sheet.specs.Sheet.{IsSheet, IsFit};
ghost use Rattle.viz_file_mesh.specs.FileMesh.{ArePoints};
ghost use Rattle.viz_file_mesh.specs.GridPieces.{grid_pieces_in};
ghost use Rattle.viz_legacy_read.specs.Steps.{cells_in, grid_behind_at, poly_behind_at};
ghost use Rattle.viz_legacy_read.specs.Reads.{ReadsUnlessMemory};

use crate::front::Preamble;
use crate::stop::ReadStop;
use std::alloc::Global;
use viz_attr::attributes;
use viz_base::Pick;
use viz_file_mesh::{grid_mesh, poly_mesh};
use viz_lex::Lexer;
use viz_mesh_read::{GridFile, PolyCells, PolyFile, grid, polydata};
use viz_sheet::Mesh;

/// The points and the cells of a grid, which are points and cells of a mesh.
fn grid_geometry(
    alloc: Global,
    lexer: &mut Lexer<'_>,
    preamble: &Preamble,
) -> Result<GridFile, ReadStop>
    ensures read { ReadsUnlessMemory grid_of result lexer.new
        (grid_at preamble.now.binary preamble.now.later lexer.old) }
    ensures points { IfOk result (λ g. ArePoints g.points None) }
    ensures cells { IfOk result (λ g.
        All (IsCell g.points.count) (grid_pieces_in (section_of g.cells))) }
{
    let grid = grid(alloc, lexer, preamble.binary, preamble.later)?;
    Ok(grid)
}

/// A grid, and its attributes to the end.
#[tactic(auto, unfolding(crate::specs::Steps::grid_behind_at))]
pub(crate) fn grid_behind(
    alloc: Global,
    lexer: &mut Lexer<'_>,
    preamble: &Preamble,
    pick: &Pick,
    unit: u8,
) -> Result<Mesh, ReadStop>
    requires { unit ≤ 9 }
    ensures read { ReadsUnlessMemory (λ m. m) result lexer.new
        (grid_behind_at pick.now unit preamble.now lexer.old) }
    ensures valid { IfOk result (All IsSheet) }
    ensures fits { IfOk result (All IsFit) }
{
    let grid = grid_geometry(alloc, lexer, preamble)?;
    let points = grid.points.count;
    let cells = grid.cells.count;
    let picked = attributes(alloc, lexer, preamble.binary, points, cells, pick)?;
    let mesh = grid_mesh(alloc, grid, picked, unit)?;
    Ok(mesh)
}

/// How many cells there are in all sections, where 64 bits hold it.
fn cells_in(all: &PolyCells) -> Option<u64>
    ensures { IfSome result (λ n. n ≡ cells_in (sections_of all.now)) }
{
    let vertices_and_lines = all.vertices.count.checked_add(all.lines.count)?;
    let no_strips = vertices_and_lines.checked_add(all.polygons.count)?;
    no_strips.checked_add(all.strips.count)
}

/// The points and the cells of polydata, which are points and cells of a mesh.
fn poly_geometry(
    alloc: Global,
    lexer: &mut Lexer<'_>,
    preamble: &Preamble,
) -> Result<PolyFile, ReadStop>
    ensures read { ReadsUnlessMemory polydata_of result lexer.new
        (polydata_at preamble.now.binary preamble.now.later lexer.old) }
    ensures points { IfOk result (λ p. ArePoints p.points None) }
    ensures cells { IfOk result (λ p.
        All (IsCell p.points.count) (pieces_in (sections_of p.cells))) }
{
    let poly = polydata(alloc, lexer, preamble.binary, preamble.later)?;
    Ok(poly)
}

/// Polydata, and its attributes to the end. More cells than 64 bits count have no room.
#[tactic(auto, unfolding(crate::specs::Steps::poly_behind_at))]
pub(crate) fn poly_behind(
    alloc: Global,
    lexer: &mut Lexer<'_>,
    preamble: &Preamble,
    pick: &Pick,
    unit: u8,
) -> Result<Mesh, ReadStop>
    requires { unit ≤ 9 }
    ensures read { ReadsUnlessMemory (λ m. m) result lexer.new
        (poly_behind_at pick.now unit preamble.now lexer.old) }
    ensures valid { IfOk result (All IsSheet) }
    ensures fits { IfOk result (All IsFit) }
{
    let poly = poly_geometry(alloc, lexer, preamble)?;
    let points = poly.points.count;
    let Some(cells) = cells_in(&poly.cells) else {
        return Err(ReadStop::Memory);
    };
    let picked = attributes(alloc, lexer, preamble.binary, points, cells, pick)?;
    let mesh = poly_mesh(alloc, poly, picked, unit)?;
    Ok(mesh)
}
