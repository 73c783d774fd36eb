//! Where the cells of a section begin in its connectivity.

ghost use Rattle.std.specs.Prelude.{◌≡◌, ◌<◌, ◌+◌, ◌^◌, ◌++◌, ◌∷◌, [], IfOk, OnOk, map};
ghost use Rattle.viz_sheet.specs.Arrays.{ranks_in};
ghost use Rattle.viz_mesh_write.specs.Steps.Starts.{count_by, starts_by, count_in, starts_in};
ghost use Rattle.viz_mesh_write.specs.Steps.Starts.{count_all, starts_all};

use crate::cell_ranks::CellRanks;
use crate::cell_rows::is_kept;
use crate::sheet_cells::SheetCells;
use std::alloc::{AllocError, Global};
use viz_sheet::Ranks;

/// Puts where the cells of one type begin that have so many points, where they are given, with so
/// many indices in front, and returns how many indices are in front of the next.
fn push_cells<C: CellRanks>(
    starts: &mut Vec<[u32; 1]>,
    size: Option<usize>,
    front: u32,
    cells: &[C],
) -> Result<u32, AllocError>
    requires few { front + count_by C.list size cells.now < 2 ^ 31 }
    ensures put { OnOk result (starts.new.items
        ≡ starts.old.items ++ starts_by C.list size front cells.now) }
    ensures next { IfOk result (λ next. next ≡ front + count_by C.list size cells.now) }
{
    let mut next = front;
    for cell in cells {
        if is_kept(size, cell.list()) {
            starts.push([next])?;
            next += cell.list().len() as u32;
        }
    }
    Ok(next)
}

/// The same of cells by ranks.
fn push_ranks(
    starts: &mut Vec<[u32; 1]>,
    size: Option<usize>,
    front: u32,
    ranks: &Ranks,
) -> Result<u32, AllocError>
    requires few { front + count_in size (ranks_in ranks.now) < 2 ^ 31 }
    ensures put { OnOk result (starts.new.items
        ≡ starts.old.items ++ starts_in size front (ranks_in ranks.now)) }
    ensures next { IfOk result (λ next. next ≡ front + count_in size (ranks_in ranks.now)) }
{
    match ranks {
        Ranks::Vertices(cells) => push_cells(starts, size, front, cells),
        Ranks::Lines(cells) => push_cells(starts, size, front, cells),
        Ranks::Triangles(cells) => push_cells(starts, size, front, cells),
        Ranks::Tetrahedra(cells) => push_cells(starts, size, front, cells),
        Ranks::Any(cells) => push_cells(starts, size, front, cells),
    }
}

/// The same of the cells of a sheet.
fn push_sheet<S: SheetCells>(
    starts: &mut Vec<[u32; 1]>,
    size: Option<usize>,
    front: u32,
    sheet: &S,
) -> Result<u32, AllocError>
    requires few { front + count_in size (S.seen sheet.now).cells < 2 ^ 31 }
    ensures put { OnOk result (starts.new.items
        ≡ starts.old.items ++ starts_in size front (S.seen sheet.now).cells) }
    ensures next { IfOk result (λ next. next ≡ front + count_in size (S.seen sheet.now).cells) }
{
    push_ranks(starts, size, front, sheet.cells())
}

/// The offsets of a section of so many cells: where the cells of all sheets begin that have so many
/// points, where they are given, and behind the last one how many indices there are. Each stands as
/// a cell of one index, since its row is that of such a cell.
pub(crate) fn offsets_of<S: SheetCells>(
    alloc: Global,
    size: Option<usize>,
    n: u64,
    sheets: &[S],
) -> Result<Vec<[u32; 1]>, AllocError>
    requires small { n < 2 ^ 31 }
    requires few { count_all size (map S.seen sheets.now) < 2 ^ 31 }
    ensures { IfOk result (λ offsets. offsets.items ≡ starts_all size 0 (map S.seen sheets.now)
        ++ (count_all size (map S.seen sheets.now) ∷ []) ∷ []) }
{
    let mut offsets = Vec::with_capacity(alloc, n as usize + 1)?;
    let mut next: u32 = 0;
    for sheet in sheets {
        next = push_sheet(&mut offsets, size, next, sheet)?;
    }
    offsets.push([next])?;
    Ok(offsets)
}
