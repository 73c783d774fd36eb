//! The pieces of a grid, by ranks.

ghost use Rattle.std.specs.Prelude.{◌≡◌, ◌++◌, ℕ, List, All, IfOk, OnOk, IfSome, IsTrue, length};
ghost use Rattle.std.specs.Prelude.{map, true};
ghost use Rattle.std.specs.List.{list_all};
ghost use Rattle.viz_mesh_read.specs.Pieces.{in_cells};
ghost use Rattle.viz_counted_cells.specs.Sections.{section_of, numbers_of_cells};
ghost use Rattle.viz_sheet.specs.Arrays.{ranks_in};
ghost use Rattle.viz_sheet.specs.Ranked.{IsCell};
ghost use Rattle.viz_file_mesh.specs.GridPieces.{is_among, repeats_none, grid_piece};
ghost use Rattle.viz_file_mesh.specs.GridPieces.{grid_pieces_in};

use crate::cells::{CellIndices, mixed_cell};
use std::alloc::{AllocError, Global};
use viz_counted_cells::{
    CellArrays, CellNumbers, CellSection, behind_first, first_count, first_indices,
};
use viz_sheet::{Mixed, Ranks};

/// No index is repeated.
fn repeats_none(cell: &[u32]) -> bool
    ensures { result ≡ repeats_none cell.now }
{
    match cell {
        [] => true,
        [first, others @ ..] => !is_among(*first, others) && repeats_none(others),
    }
}

/// The index is one of these.
fn is_among(index: u32, others: &[u32]) -> bool
    ensures { result ≡ is_among index others.now }
{
    match others {
        [] => false,
        [first, rest @ ..] => index == *first || is_among(index, rest),
    }
}

/// One cell more, where it repeats no index. It answers whether cells of this type have its size.
fn put_cell<C: CellIndices>(pieces: &mut Vec<C>, cell: &[u32]) -> Result<bool, AllocError>
    ensures { IfOk result (λ fits. fits ≡ true
        → map C.list pieces.new.items ≡ map C.list pieces.old.items ++ grid_piece cell.now) }
{
    let Some(piece) = C::of(cell) else {
        return Ok(false);
    };
    if !repeats_none(cell) {
        return Ok(true);
    }
    pieces.push(piece)?;
    Ok(true)
}

/// The pieces, where all have the size of this type.
fn pieces_of_size<C: CellIndices>(
    alloc: Global,
    count: u64,
    numbers: &[u32],
) -> Result<Option<Vec<C>>, AllocError>
    ensures { IfOk result (λ pieces. IfSome pieces (λ v.
        map C.list v.items ≡ grid_pieces_in (count, numbers.now))) }
{
    let mut left = numbers;
    let room = count.min(left.len() as u64);
    let mut pieces = Vec::with_capacity(alloc, room as usize)?;
    for _ in 0..count {
        if !put_cell(&mut pieces, first_indices(left))? {
            return Ok(None);
        }
        left = behind_first(left);
    }
    Ok(Some(pieces))
}

/// One cell more, where it repeats no index.
fn put_mixed(pieces: &mut Vec<Mixed>, cell: &[u32], points: u64) -> Result<(), AllocError>
    requires { All (IsCell points) (grid_piece cell.now) }
    ensures { OnOk result (pieces.new.items ≡ pieces.old.items ++ grid_piece cell.now) }
{
    // A piece has 1 to 4 indices: another cell repeats one.
    let Some(piece) = mixed_cell(cell) else {
        return Ok(());
    };
    if !repeats_none(cell) {
        return Ok(());
    }
    pieces.push(piece)?;
    Ok(())
}

/// The pieces, of whatever sizes they are.
fn pieces_of_any_size(
    alloc: Global,
    count: u64,
    numbers: &[u32],
    points: u64,
) -> Result<Vec<Mixed>, AllocError>
    requires { All (IsCell points) (grid_pieces_in (count, numbers.now)) }
    ensures { IfOk result (λ v. v.items ≡ grid_pieces_in (count, numbers.now)) }
{
    let mut left = numbers;
    let room = count.min(left.len() as u64);
    let mut pieces = Vec::with_capacity(alloc, room as usize)?;
    for _ in 0..count {
        put_mixed(&mut pieces, first_indices(left), points)?;
        left = behind_first(left);
    }
    Ok(pieces)
}

/// The pieces of one size as ranks, where all have the size of the first cell.
fn ranks_of_size(alloc: Global, count: u64, numbers: &[u32]) -> Result<Option<Ranks>, AllocError>
    ensures { IfOk result (λ ranks. IfSome ranks (λ r.
        ranks_in r ≡ grid_pieces_in (count, numbers.now))) }
{
    let ranks = match first_count(numbers) {
        1 => pieces_of_size(alloc, count, numbers)?.map(Ranks::Vertices),
        2 => pieces_of_size(alloc, count, numbers)?.map(Ranks::Lines),
        3 => pieces_of_size(alloc, count, numbers)?.map(Ranks::Triangles),
        4 => pieces_of_size(alloc, count, numbers)?.map(Ranks::Tetrahedra),
        _ => None,
    };
    Ok(ranks)
}

/// The pieces of so many cells, whose numbers are these.
fn ranks_in_list(
    alloc: Global,
    count: u64,
    numbers: &[u32],
    points: u64,
) -> Result<Ranks, AllocError>
    requires { All (IsCell points) (grid_pieces_in (count, numbers.now)) }
    ensures { IfOk result (λ r. ranks_in r ≡ grid_pieces_in (count, numbers.now)) }
{
    if let Some(ranks) = ranks_of_size(alloc, count, numbers)? {
        return Ok(ranks);
    }
    Ok(Ranks::Any(pieces_of_any_size(alloc, count, numbers, points)?))
}

/// No cell repeats an index.
fn are_apart<C: CellIndices>(cells: &[C]) -> bool
    ensures { result ≡ list_all (λ c. repeats_none (C.list c)) cells.now }
{
    for cell in cells {
        if !cell.is_apart() {
            return false;
        }
    }
    true
}

/// The pieces of so many cells, whose numbers are those of these: the cells as they stand, where
/// none repeats an index.
#[tactic(auto, using(crate::proofs::OwnPieces::own_grid_pieces))]
fn triangle_ranks(
    alloc: Global,
    count: u64,
    cells: Vec<[u32; 3]>,
    points: u64,
) -> Result<Ranks, AllocError>
    requires { All (IsCell points) (grid_pieces_in (count, numbers_of_cells cells.items)) }
    ensures { IfOk result (λ r.
        ranks_in r ≡ grid_pieces_in (count, numbers_of_cells cells.items)) }
{
    if count == cells.len() as u64 && are_apart(&cells) {
        return Ok(Ranks::Triangles(cells));
    }
    let numbers = CellNumbers::of(CellArrays::Triangles(cells)).into_list(alloc)?;
    ranks_in_list(alloc, count, &numbers, points)
}

/// The same of cells of four indices.
#[tactic(auto, using(crate::proofs::OwnPieces::own_grid_pieces))]
fn tetrahedron_ranks(
    alloc: Global,
    count: u64,
    cells: Vec<[u32; 4]>,
    points: u64,
) -> Result<Ranks, AllocError>
    requires { All (IsCell points) (grid_pieces_in (count, numbers_of_cells cells.items)) }
    ensures { IfOk result (λ r.
        ranks_in r ≡ grid_pieces_in (count, numbers_of_cells cells.items)) }
{
    if count == cells.len() as u64 && are_apart(&cells) {
        return Ok(Ranks::Tetrahedra(cells));
    }
    let numbers = CellNumbers::of(CellArrays::Tetrahedra(cells)).into_list(alloc)?;
    ranks_in_list(alloc, count, &numbers, points)
}

/// The pieces of a grid of so many points. The numbers of its cells are given up.
pub(crate) fn grid_ranks(
    alloc: Global,
    cells: CellSection,
    points: u64,
) -> Result<Ranks, AllocError>
    requires { All (IsCell points) (grid_pieces_in (section_of cells)) }
    ensures { IfOk result (λ r. ranks_in r ≡ grid_pieces_in (section_of cells)) }
{
    let CellSection { count, numbers } = cells;
    match numbers.into_arrays() {
        CellArrays::Mixed(numbers) => ranks_in_list(alloc, count, &numbers, points),
        CellArrays::Triangles(cells) => triangle_ranks(alloc, count, cells, points),
        CellArrays::Tetrahedra(cells) => tetrahedron_ranks(alloc, count, cells, points),
    }
}
