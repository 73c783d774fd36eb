//! A sheet without the names that none of its cells has.

ghost use Rattle.std.specs.Prelude.{◌≡◌, ◌<◌, All, length, map, IfOk};
ghost use Rattle.viz_sheet.specs.Arrays.{names_in, points_in, ranks_in};
ghost use Rattle.viz_sheet.specs.Kept.{AreMarks, sheet_with};
ghost use Rattle.viz_sheet.specs.Ranked.{AreCells, by_names};
ghost use Rattle.viz_sheet.specs.Sheet.{KeepPoints};
ghost use Rattle.viz_sheet.specs.Steps.Lookup.{looked_up};

use crate::cell_ranks::CellRanks;
use crate::keeping::{kept_count, kept_leaves, kept_places, kept_ranks};
use crate::leaves::Leaves;
use crate::marks::marks_of;
use crate::places::Places;
use crate::ranks::Ranks;
use crate::sheet::Sheet;
use std::alloc::{AllocError, Global};

/// The sheet of these cells: their names alone, with their points.
///
/// Names that no cell has are dropped, and the ranks of cells count those that are left. It goes
/// over each array once. Where the arrays aren't needed any more, call `sheet_of`.
pub fn compacted(
    alloc: Global,
    leaves: &Leaves,
    places: &Places,
    ranks: &Ranks,
) -> Result<Sheet, AllocError>
    requires cells { AreCells (names_in leaves.now) (points_in places.now) (ranks_in ranks.now) }
    ensures cells { IfOk result (λ s.
        s.cells ≡ by_names (names_in leaves.now) (ranks_in ranks.now)) }
    ensures points { IfOk result (λ s.
        KeepPoints s.names s.points (names_in leaves.now) (points_in places.now)) }
    ensures value { IfOk result (λ s.
        s ≡ sheet_with (names_in leaves.now) (points_in places.now) (ranks_in ranks.now)) }
{
    let marks = marks_of(alloc, leaves.len(), ranks)?;
    with_marked(alloc, &marks, leaves, places, ranks)
}

/// The same sheet of arrays that are given up: they are its own where each name has a cell.
pub fn sheet_of(
    alloc: Global,
    leaves: Leaves,
    places: Places,
    ranks: Ranks,
) -> Result<Sheet, AllocError>
    requires cells { AreCells (names_in leaves) (points_in places) (ranks_in ranks) }
    ensures cells { IfOk result (λ s. s.cells ≡ by_names (names_in leaves) (ranks_in ranks)) }
    ensures points { IfOk result (λ s.
        KeepPoints s.names s.points (names_in leaves) (points_in places)) }
    ensures value { IfOk result (λ s.
        s ≡ sheet_with (names_in leaves) (points_in places) (ranks_in ranks)) }
{
    let marks = marks_of(alloc, leaves.len(), &ranks)?;
    if kept_count(&marks) == leaves.len() {
        return Ok(Sheet::new(leaves, places, ranks));
    }
    with_marked(alloc, &marks, &leaves, &places, &ranks)
}

/// The sheet of cells with the marks of their names.
fn with_marked(
    alloc: Global,
    marks: &[bool],
    leaves: &Leaves,
    places: &Places,
    ranks: &Ranks,
) -> Result<Sheet, AllocError>
    requires cells { AreCells (names_in leaves.now) (points_in places.now) (ranks_in ranks.now) }
    requires marks { AreMarks (length (names_in leaves.now)) (ranks_in ranks.now) marks.now }
    ensures cells { IfOk result (λ s.
        s.cells ≡ by_names (names_in leaves.now) (ranks_in ranks.now)) }
    ensures points { IfOk result (λ s.
        KeepPoints s.names s.points (names_in leaves.now) (points_in places.now)) }
    ensures value { IfOk result (λ s.
        s ≡ sheet_with (names_in leaves.now) (points_in places.now) (ranks_in ranks.now)) }
{
    let count = kept_count(marks);
    let before = kept_ranks(alloc, marks)?;
    let kept_names = kept_leaves(alloc, count, marks, leaves)?;
    let kept_points = kept_places(alloc, count, marks, places)?;
    let cells = looked_up_ranks(alloc, &before, ranks)?;
    Ok(Sheet::new(kept_names, kept_points, cells))
}

/// Cells with a number in place of each rank.
#[tactic(auto, using(crate::proofs::LookupLemmas::as_it_is))]
fn looked_up_ranks(alloc: Global, numbers: &[u32], ranks: &Ranks) -> Result<Ranks, AllocError>
    requires { All (All (λ r. r < length numbers.now)) (ranks_in ranks.now) }
    ensures { IfOk result (λ q. ranks_in q ≡ map (looked_up numbers.now) (ranks_in ranks.now)) }
{
    match ranks {
        Ranks::Vertices(cells) => Ok(Ranks::Vertices(looked_up_cells(alloc, numbers, cells)?)),
        Ranks::Lines(cells) => Ok(Ranks::Lines(looked_up_cells(alloc, numbers, cells)?)),
        Ranks::Triangles(cells) => Ok(Ranks::Triangles(looked_up_cells(alloc, numbers, cells)?)),
        Ranks::Tetrahedra(cells) => Ok(Ranks::Tetrahedra(looked_up_cells(alloc, numbers, cells)?)),
        Ranks::Any(cells) => Ok(Ranks::Any(looked_up_cells(alloc, numbers, cells)?)),
    }
}

/// The same of cells of one type.
fn looked_up_cells<C: CellRanks>(
    alloc: Global,
    numbers: &[u32],
    cells: &[C],
) -> Result<Vec<C>, AllocError>
    requires { All (λ cell. All (λ r. r < length numbers.now) (C.list cell)) cells.now }
    ensures { IfOk result (λ v.
        map C.list v.items ≡ map (λ cell. looked_up numbers.now (C.list cell)) cells.now) }
{
    let mut renumbered = Vec::with_capacity(alloc, cells.len())?;
    for cell in cells {
        renumbered.push(cell.looked_up(numbers))?;
    }
    Ok(renumbered)
}
