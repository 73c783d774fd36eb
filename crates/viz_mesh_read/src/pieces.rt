//! The pieces of the cells of polydata: vertices, lines and triangles.

ghost use Rattle.std.specs.Prelude.{◌≡◌, ◌<◌, ◌+◌, ◌++◌, ◌∷◌, [], List, ℕ, length, IfOk, OnOk};
ghost use Rattle.viz_mesh_read.specs.Poly.{ByKind, sections_of, numbers_by_kind};
ghost use Rattle.viz_mesh_read.specs.Pieces.{kept, vertex_of, vertices_of, segment_of, is_segment};
ghost use Rattle.viz_mesh_read.specs.Pieces.{lines_of, triangle_of, is_triangle, triangles_of};
ghost use Rattle.viz_mesh_read.specs.Pieces.{in_cells, pieces_in, pieces_of};

use crate::poly::PolyCells;
use std::alloc::{AllocError, Global};
use viz_counted_cells::{CellArrays, CellSection, behind_first, first_indices, flattened};

/// The pieces of polydata, each by the indices of its points, none of which it repeats: those of a
/// size in the order of their cells.
#[derive(Debug, Drop)]
pub struct PolyPieces {
    pub vertices: Vec<[u32; 1]>,
    pub lines: Vec<[u32; 2]>,
    /// Those of the polygons, and then those of the strips.
    pub triangles: Vec<[u32; 3]>,
}

fn push_vertices(pieces: &mut Vec<[u32; 1]>, cell: &[u32]) -> Result<(), AllocError>
    ensures { OnOk result (pieces.new.items ≡ pieces.old.items ++ vertices_of cell.now) }
{
    for i in 0..cell.len() {
        pieces.push(vertex(cell, i))?;
    }
    Ok(())
}

fn segment(cell: &[u32], i: usize) -> [u32; 2]
    requires { i + 1 < length cell.now }
    ensures { result ≡ segment_of cell.now i }
{
    [cell[i], cell[i + 1]]
}

fn vertex(cell: &[u32], i: usize) -> [u32; 1]
    requires { i < length cell.now }
    ensures { result ≡ vertex_of cell.now i }
{
    [cell[i]]
}

fn push_line(pieces: &mut Vec<[u32; 2]>, line: [u32; 2]) -> Result<(), AllocError>
    ensures { OnOk result (pieces.new.items ≡ pieces.old.items ++ kept (is_segment line) line) }
{
    if line[0] == line[1] {
        return Ok(());
    }
    pieces.push(line)?;
    Ok(())
}

fn push_lines(pieces: &mut Vec<[u32; 2]>, cell: &[u32]) -> Result<(), AllocError>
    ensures { OnOk result (pieces.new.items ≡ pieces.old.items ++ lines_of cell.now) }
{
    for i in 0..cell.len().saturating_sub(1) {
        push_line(pieces, segment(cell, i))?;
    }
    Ok(())
}

fn triangle(cell: &[u32], strip: bool, i: usize) -> [u32; 3]
    requires { i + 2 < length cell.now }
    ensures { result ≡ triangle_of strip cell.now i }
{
    if !strip {
        return [cell[0], cell[i + 1], cell[i + 2]];
    }
    if i % 2 == 0 {
        return [cell[i], cell[i + 1], cell[i + 2]];
    }
    [cell[i + 1], cell[i], cell[i + 2]]
}

fn push_triangle(pieces: &mut Vec<[u32; 3]>, corners: [u32; 3]) -> Result<(), AllocError>
    ensures { OnOk result (
        pieces.new.items ≡ pieces.old.items ++ kept (is_triangle corners) corners) }
{
    let [a, b, c] = corners;
    if a == b || b == c || a == c {
        return Ok(());
    }
    pieces.push(corners)?;
    Ok(())
}

fn push_triangles(pieces: &mut Vec<[u32; 3]>, cell: &[u32], strip: bool) -> Result<(), AllocError>
    ensures { OnOk result (pieces.new.items ≡ pieces.old.items ++ triangles_of strip cell.now) }
{
    for i in 0..cell.len().saturating_sub(2) {
        push_triangle(pieces, triangle(cell, strip, i))?;
    }
    Ok(())
}

/// The vertices of so many cells, whose numbers are these.
fn vertices_in(pieces: &mut Vec<[u32; 1]>, count: u64, numbers: &[u32]) -> Result<(), AllocError>
    ensures { OnOk result (pieces.new.items ≡ pieces.old.items
        ++ in_cells vertices_of count numbers.now) }
{
    let mut left = numbers;
    for _ in 0..count {
        push_vertices(pieces, first_indices(left))?;
        left = behind_first(left);
    }
    Ok(())
}

/// The vertices of all these cells.
fn all_vertices(
    alloc: Global,
    pieces: &mut Vec<[u32; 1]>,
    cells: &CellSection,
) -> Result<(), AllocError>
    ensures { OnOk result (pieces.new.items ≡ pieces.old.items
        ++ in_cells vertices_of cells.now.count cells.now.numbers.items) }
{
    match cells.numbers.arrays() {
        CellArrays::Mixed(numbers) => vertices_in(pieces, cells.count, numbers),
        CellArrays::Triangles(of_three) => {
            vertices_in(pieces, cells.count, &flattened(alloc, of_three)?)
        }
        CellArrays::Tetrahedra(of_four) => {
            vertices_in(pieces, cells.count, &flattened(alloc, of_four)?)
        }
    }
}

/// The segments of so many cells, whose numbers are these.
fn lines_in(pieces: &mut Vec<[u32; 2]>, count: u64, numbers: &[u32]) -> Result<(), AllocError>
    ensures { OnOk result (pieces.new.items ≡ pieces.old.items
        ++ in_cells lines_of count numbers.now) }
{
    let mut left = numbers;
    for _ in 0..count {
        push_lines(pieces, first_indices(left))?;
        left = behind_first(left);
    }
    Ok(())
}

/// The segments of all these cells.
fn all_lines(
    alloc: Global,
    pieces: &mut Vec<[u32; 2]>,
    cells: &CellSection,
) -> Result<(), AllocError>
    ensures { OnOk result (pieces.new.items ≡ pieces.old.items
        ++ in_cells lines_of cells.now.count cells.now.numbers.items) }
{
    match cells.numbers.arrays() {
        CellArrays::Mixed(numbers) => lines_in(pieces, cells.count, numbers),
        CellArrays::Triangles(of_three) => {
            lines_in(pieces, cells.count, &flattened(alloc, of_three)?)
        }
        CellArrays::Tetrahedra(of_four) => {
            lines_in(pieces, cells.count, &flattened(alloc, of_four)?)
        }
    }
}

/// The triangles of so many cells, whose numbers are these.
fn triangles_in(
    pieces: &mut Vec<[u32; 3]>,
    count: u64,
    numbers: &[u32],
    strip: bool,
) -> Result<(), AllocError>
    ensures { OnOk result (pieces.new.items ≡ pieces.old.items
        ++ in_cells (triangles_of strip) count numbers.now) }
{
    let mut left = numbers;
    for _ in 0..count {
        push_triangles(pieces, first_indices(left), strip)?;
        left = behind_first(left);
    }
    Ok(())
}

/// The triangles of all these cells.
fn all_triangles(
    alloc: Global,
    pieces: &mut Vec<[u32; 3]>,
    cells: &CellSection,
    strip: bool,
) -> Result<(), AllocError>
    ensures { OnOk result (pieces.new.items ≡ pieces.old.items
        ++ in_cells (triangles_of strip) cells.now.count cells.now.numbers.items) }
{
    match cells.numbers.arrays() {
        CellArrays::Mixed(numbers) => triangles_in(pieces, cells.count, numbers, strip),
        CellArrays::Triangles(of_three) => {
            triangles_in(pieces, cells.count, &flattened(alloc, of_three)?, strip)
        }
        CellArrays::Tetrahedra(of_four) => {
            triangles_in(pieces, cells.count, &flattened(alloc, of_four)?, strip)
        }
    }
}

/// How many triangles these cells have at most, where each has three points or more.
fn room_for(cells: &CellSection) -> usize {
    let most = cells.numbers.room();
    most.saturating_sub((cells.count as usize).saturating_mul(3).min(most))
}

fn all_pieces(alloc: Global, cells: &PolyCells) -> Result<PolyPieces, AllocError>
    ensures { IfOk result (λ p.
        p.vertices.items ++ (p.lines.items ++ p.triangles.items)
        ≡ pieces_in (sections_of cells.now)) }
{
    let mut vertices = Vec::with_capacity(alloc, cells.vertices.numbers.room())?;
    all_vertices(alloc, &mut vertices, &cells.vertices)?;
    let mut lines = Vec::with_capacity(alloc, cells.lines.numbers.room())?;
    all_lines(alloc, &mut lines, &cells.lines)?;
    let room = room_for(&cells.polygons).saturating_add(room_for(&cells.strips));
    let mut triangles = Vec::with_capacity(alloc, room)?;
    all_triangles(alloc, &mut triangles, &cells.polygons, false)?;
    all_triangles(alloc, &mut triangles, &cells.strips, true)?;
    Ok(PolyPieces {
        vertices,
        lines,
        triangles,
    })
}

/// The pieces of the cells of polydata: lists of vertices and polylines are split, polygons are
/// fanned from their first point, and of a strip each other triangle is turned. One that repeats an
/// index is dropped.
pub fn split(alloc: Global, cells: &PolyCells) -> Result<PolyPieces, AllocError>
    ensures numbers { IfOk result (λ p.
        p.vertices.items ++ (p.lines.items ++ p.triangles.items)
        ≡ pieces_in (sections_of cells.now)) }
    ensures pieces { (all : ByKind (List (List ℕ)))
        → sections_of cells.now ≡ numbers_by_kind all
        → IfOk result (λ p.
        p.vertices.items ++ (p.lines.items ++ p.triangles.items) ≡ pieces_of all) }
{
    all_pieces(alloc, cells)
}
