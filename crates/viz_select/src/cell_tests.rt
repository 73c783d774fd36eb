//! Which cells are selected, by which points are within the bounds.

ghost use Rattle.std.specs.Prelude.{◌≡◌, ◌<◌, All, IfOk, false, length, map, slice_index_or};
ghost use Rattle.std.specs.List.{list_all, list_any};
ghost use Rattle.viz_sheet.specs.Arrays.{ranks_in};
ghost use Rattle.viz_select.specs.Steps.{is_marked};

use std::alloc::{AllocError, Global};
use viz_sheet::Ranks;

/// Whether all or any ranks of each cell are marked.
pub(crate) fn marked_cells(
    alloc: Global,
    all: bool,
    marks: &[bool],
    ranks: &Ranks,
) -> Result<Vec<bool>, AllocError>
    requires { All (All (λ r. r < length marks.now)) (ranks_in ranks.now) }
    ensures { IfOk result (λ v. v.items ≡ map (is_marked all marks.now) (ranks_in ranks.now)) }
{
    let mut found = Vec::with_capacity(alloc, ranks.len())?;
    for i in 0..ranks.len() {
        found.push(is_marked(all, marks, ranks.get(i)))?;
    }
    Ok(found)
}

/// All or any ranks of a cell are marked.
fn is_marked(all: bool, marks: &[bool], cell: &[u32]) -> bool
    requires { All (λ r. r < length marks.now) cell.now }
    ensures { result ≡ is_marked all marks.now cell.now }
{
    if all {
        are_marked(marks, cell)
    } else {
        is_one_marked(marks, cell)
    }
}

/// All ranks of a cell are marked.
fn are_marked(marks: &[bool], cell: &[u32]) -> bool
    requires { All (λ r. r < length marks.now) cell.now }
    ensures { result ≡ list_all (λ r. slice_index_or marks.now r false) cell.now }
{
    cell.iter().all(|rank| marks[*rank as usize])
}

/// Some rank of a cell is marked.
fn is_one_marked(marks: &[bool], cell: &[u32]) -> bool
    requires { All (λ r. r < length marks.now) cell.now }
    ensures { result ≡ list_any (λ r. slice_index_or marks.now r false) cell.now }
{
    cell.iter().any(|rank| marks[*rank as usize])
}
