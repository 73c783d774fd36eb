//! The pieces of polydata, by ranks.

ghost use Rattle.std.specs.Prelude.{◌≡◌, ◌++◌, [], All, IfOk, OnOk, map, length};
ghost use Rattle.std.specs.List.{list_all};
ghost use Rattle.std.specs.Prelude.{true, false};
ghost use Rattle.viz_counted_cells.specs.Sections.{section_of, numbers_of_cells};
ghost use Rattle.viz_mesh_read.specs.Poly.{sections_of};
ghost use Rattle.viz_mesh_read.specs.Pieces.{in_cells, is_triangle, triangles_of, pieces_in};
ghost use Rattle.viz_sheet.specs.Arrays.{ranks_in};
ghost use Rattle.viz_file_mesh.specs.Steps.Polygons.{HasPolygonsAlone};

use crate::cells::CellIndices;
use std::alloc::{AllocError, Global};
use viz_counted_cells::{CellArrays, CellNumbers, CellSection};
use viz_mesh_read::{PolyCells, PolyPieces, split};
use viz_sheet::{Mixed, Ranks};

/// These cells behind those before.
fn put_cells<C: CellIndices>(pieces: &mut Vec<Mixed>, cells: &[C]) -> Result<(), AllocError>
    ensures { OnOk result (pieces.new.items ≡ pieces.old.items ++ map C.list cells.now) }
{
    for cell in cells {
        pieces.push(cell.mixed())?;
    }
    Ok(())
}

/// The pieces of all sizes: vertices, then lines, then triangles.
fn all_sizes(alloc: Global, pieces: &PolyPieces) -> Result<Vec<Mixed>, AllocError>
    ensures { IfOk result (λ v. v.items
        ≡ pieces.now.vertices.items ++ (pieces.now.lines.items ++ pieces.now.triangles.items)) }
{
    let others = pieces.lines.len().saturating_add(pieces.triangles.len());
    let room = pieces.vertices.len().saturating_add(others);
    let mut all = Vec::with_capacity(alloc, room)?;
    put_cells(&mut all, &pieces.vertices)?;
    put_cells(&mut all, &pieces.lines)?;
    put_cells(&mut all, &pieces.triangles)?;
    Ok(all)
}

/// The pieces, in the arrays that they stand in where all have one size.
fn piece_ranks(alloc: Global, pieces: PolyPieces) -> Result<Ranks, AllocError>
    ensures { IfOk result (λ r. ranks_in r
        ≡ pieces.vertices.items ++ (pieces.lines.items ++ pieces.triangles.items)) }
{
    let no_vertices = pieces.vertices.is_empty();
    let no_lines = pieces.lines.is_empty();
    let no_triangles = pieces.triangles.is_empty();
    if no_vertices && no_lines {
        return Ok(Ranks::Triangles(pieces.triangles));
    }
    if no_vertices && no_triangles {
        return Ok(Ranks::Lines(pieces.lines));
    }
    if no_lines && no_triangles {
        return Ok(Ranks::Vertices(pieces.vertices));
    }
    Ok(Ranks::Any(all_sizes(alloc, &pieces)?))
}

/// The pieces of cells of all kinds.
fn split_ranks(alloc: Global, cells: PolyCells) -> Result<Ranks, AllocError>
    ensures { IfOk result (λ r. ranks_in r ≡ pieces_in (sections_of cells)) }
{
    let pieces = split(alloc, &cells)?;
    drop(cells);
    piece_ranks(alloc, pieces)
}

fn no_cells(alloc: Global) -> CellSection
    ensures { section_of result ≡ (0, []) }
{
    CellSection {
        count: 0,
        numbers: CellNumbers::of(CellArrays::Mixed(Vec::new(alloc))),
    }
}

/// The triangles of polygons, which are fanned.
#[tactic(auto, using(crate::proofs::OwnPieces::polygons_alone))]
fn fanned(alloc: Global, polygons: CellSection) -> Result<Ranks, AllocError>
    ensures { IfOk result (λ r. ranks_in r
        ≡ in_cells (triangles_of false) polygons.count polygons.numbers.items) }
{
    let cells = PolyCells {
        vertices: no_cells(alloc),
        lines: no_cells(alloc),
        polygons,
        strips: no_cells(alloc),
    };
    split_ranks(alloc, cells)
}

/// The corners of a triangle differ.
fn is_triangle(corners: &[u32; 3]) -> bool
    ensures { result ≡ is_triangle corners.now }
{
    let [a, b, c] = *corners;
    a != b && b != c && a != c
}

/// The corners of each differ.
fn are_triangles(cells: &[[u32; 3]]) -> bool
    ensures { result ≡ list_all is_triangle cells.now }
{
    for corners in cells {
        if !is_triangle(corners) {
            return false;
        }
    }
    true
}

/// How many cells there are, each of three indices.
fn count_of(cells: &[[u32; 3]]) -> u64
    ensures value { result ≡ length cells.now }
    ensures each { All (λ c. length c ≡ 3) cells.now }
{
    cells.len() as u64
}

/// The triangles of so many polygons, whose numbers are those of these: as they stand, where none
/// repeats an index.
#[tactic(auto, using(crate::proofs::OwnPieces::own_triangles))]
fn triangle_ranks(alloc: Global, count: u64, cells: Vec<[u32; 3]>) -> Result<Ranks, AllocError>
    ensures { IfOk result (λ r. ranks_in r
        ≡ in_cells (triangles_of false) count (numbers_of_cells cells.items)) }
{
    if count == count_of(&cells) && are_triangles(&cells) {
        return Ok(Ranks::Triangles(cells));
    }
    let numbers = CellNumbers::of(CellArrays::Triangles(cells));
    fanned(alloc, CellSection { count, numbers })
}

/// The triangles of polygons.
fn polygon_ranks(alloc: Global, polygons: CellSection) -> Result<Ranks, AllocError>
    ensures { IfOk result (λ r. ranks_in r
        ≡ in_cells (triangles_of false) polygons.count polygons.numbers.items) }
{
    let CellSection { count, numbers } = polygons;
    match numbers.into_arrays() {
        CellArrays::Triangles(cells) => triangle_ranks(alloc, count, cells),
        arrays => fanned(
            alloc,
            CellSection {
                count,
                numbers: CellNumbers::of(arrays),
            },
        ),
    }
}

/// Whether there are polygons alone, or no cells.
fn has_polygons_alone(cells: &PolyCells) -> bool
    ensures { result ≡ true → HasPolygonsAlone (sections_of cells.now) }
{
    cells.vertices.count == 0 && cells.lines.count == 0 && cells.strips.count == 0
}

/// The pieces of polydata. The numbers of its cells are given up.
pub(crate) fn poly_ranks(alloc: Global, cells: PolyCells) -> Result<Ranks, AllocError>
    ensures { IfOk result (λ r. ranks_in r ≡ pieces_in (sections_of cells)) }
{
    if !has_polygons_alone(&cells) {
        return split_ranks(alloc, cells);
    }
    let PolyCells { polygons, .. } = cells;
    polygon_ranks(alloc, polygons)
}
