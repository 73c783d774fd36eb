//! Which ranks cells have, a mark for each.

ghost use Rattle.std.specs.Prelude.{◌≡◌, ◌<◌, All, length, IfOk};
ghost use Rattle.std.specs.List.{flat_map};
ghost use Rattle.viz_sheet.specs.Arrays.{ranks_in};
ghost use Rattle.viz_sheet.specs.Kept.{AreMarks};
ghost use Rattle.viz_sheet.specs.Steps.Marking.{IsMarkedBy};

use crate::cell_ranks::CellRanks;
use crate::ranks::Ranks;
use std::alloc::{AllocError, Global};

/// The marks of the ranks that cells have, of so many ranks.
pub(crate) fn marks_of(alloc: Global, count: usize, cells: &Ranks) -> Result<Vec<bool>, AllocError>
    requires { All (All (λ r. r < count)) (ranks_in cells.now) }
    ensures { IfOk result (λ v. AreMarks count (ranks_in cells.now) v.items) }
{
    let mut marks = vec![in alloc; false; count]?;
    mark_ranks(&mut marks, cells);
    Ok(marks)
}

/// Marks the ranks of all cells.
fn mark_ranks(marks: &mut [bool], cells: &Ranks)
    requires { All (All (λ r. r < length marks.old)) (ranks_in cells.now) }
    ensures { IsMarkedBy marks.old (flat_map (λ cell. cell) (ranks_in cells.now)) marks.new }
{
    match cells {
        Ranks::Vertices(cells) => mark_cells(marks, cells),
        Ranks::Lines(cells) => mark_cells(marks, cells),
        Ranks::Triangles(cells) => mark_cells(marks, cells),
        Ranks::Tetrahedra(cells) => mark_cells(marks, cells),
        Ranks::Any(cells) => mark_cells(marks, cells),
    }
}

/// Marks the ranks of cells of one type.
fn mark_cells<C: CellRanks>(marks: &mut [bool], cells: &[C])
    requires { All (λ cell. All (λ r. r < length marks.old) (C.list cell)) cells.now }
    ensures { IsMarkedBy marks.old (flat_map C.list cells.now) marks.new }
{
    for cell in cells {
        mark_cell(marks, cell.list());
    }
}

/// Marks the ranks of a cell.
fn mark_cell(marks: &mut [bool], cell: &[u32])
    requires { All (λ r. r < length marks.old) cell.now }
    ensures { IsMarkedBy marks.old cell.now marks.new }
{
    for rank in cell {
        marks[*rank as usize] = true;
    }
}
