//! The rows of cells and of their types, block by block.

ghost use Rattle.std.specs.Prelude.{◌≡◌, ◌<◌, ◌≤◌, ◌+◌, ◌^◌, ◌++◌, All, OnOk, length, drop, map};
ghost use Rattle.std.specs.List.{flat_map};
ghost use Rattle.viz_sheet.specs.Arrays.{ranks_in};
ghost use Rattle.viz_mesh_write.specs.Steps.Passes.{IsMovable, cell_rows};
ghost use Rattle.viz_mesh_write.specs.Steps.Kinds.{written_by};
ghost use Rattle.viz_mesh_write.specs.Steps.SheetCells.{points_by};

use crate::cell_ranks::CellRanks;
use crate::cell_rows::{CellRow, OfCells};
use crate::numbers::ROWS;
use crate::sheet_cells::SheetCells;
use crate::target::Target;
use std::alloc::AllocError;
use viz_image_write::Block;
use viz_sheet::Ranks;

/// The rows of cells of one type at the end of a block, and where they begin.
fn fill<R: CellRow, C: CellRanks>(
    block: &mut [u8],
    binary: bool,
    what: &R,
    first: u32,
    cells: &[C],
) -> usize
    requires movable { All (λ cell. IsMovable first (C.list cell)) cells.now }
    requires few { length cells.now ≤ 512 }
    requires room { length block.old ≡ 65536 }
    ensures written { drop result block.new
        ≡ flat_map (λ cell. R.written what.now binary first (C.list cell)) cells.now }
    ensures at { result ≤ 65536 }
{
    let mut end = block.len();
    let n = cells.len();
    for k in 0..n {
        end = what.put_left(block, end, binary, first, cells[n - 1 - k].list());
    }
    end
}

/// The rows of some cells of one type.
fn put_part<R: CellRow, C: CellRanks>(
    text: &mut Vec<u8>,
    block: &mut Block,
    binary: bool,
    what: &R,
    first: u32,
    cells: &[C],
) -> Result<(), AllocError>
    requires movable { All (λ cell. IsMovable first (C.list cell)) cells.now }
    requires few { length cells.now ≤ 512 }
    ensures { OnOk result (text.new.items ≡ text.old.items
        ++ flat_map (λ cell. R.written what.now binary first (C.list cell)) cells.now) }
{
    let start = fill(&mut block.bytes, binary, what, first, cells);
    text.extend_from_slice(&block.bytes[start..])
}

/// The rows of cells of one type.
pub(crate) fn put_cells<R: CellRow, C: CellRanks>(
    text: &mut Vec<u8>,
    block: &mut Block,
    binary: bool,
    what: &R,
    first: u32,
    cells: &[C],
) -> Result<(), AllocError>
    requires { All (λ cell. IsMovable first (C.list cell)) cells.now }
    ensures { OnOk result (text.new.items ≡ text.old.items
        ++ flat_map (λ cell. R.written what.now binary first (C.list cell)) cells.now) }
{
    let mut left = cells;
    while !left.is_empty() {
        let (front, behind) = left.split_at(ROWS.min(left.len()));
        put_part(text, block, binary, what, first, front)?;
        left = behind;
    }
    Ok(())
}

/// The rows of cells by ranks.
pub(crate) fn put_ranks<R: CellRow>(
    text: &mut Vec<u8>,
    block: &mut Block,
    binary: bool,
    what: &R,
    first: u32,
    ranks: &Ranks,
) -> Result<(), AllocError>
    requires { All (IsMovable first) (ranks_in ranks.now) }
    ensures { OnOk result (text.new.items
        ≡ text.old.items ++ flat_map (R.written what.now binary first) (ranks_in ranks.now)) }
{
    match ranks {
        Ranks::Vertices(cells) => put_cells(text, block, binary, what, first, cells),
        Ranks::Lines(cells) => put_cells(text, block, binary, what, first, cells),
        Ranks::Triangles(cells) => put_cells(text, block, binary, what, first, cells),
        Ranks::Tetrahedra(cells) => put_cells(text, block, binary, what, first, cells),
        Ranks::Any(cells) => put_cells(text, block, binary, what, first, cells),
    }
}

/// The rows of the cells of a sheet.
fn put_sheet_cells<T: Target, S: SheetCells>(
    text: &mut T,
    binary: bool,
    what: &OfCells,
    first: u32,
    sheet: &S,
) -> Result<(), AllocError>
    requires needs { T.needs }
    requires ready { first + (S.seen sheet.now).points < 2 ^ 31 }
    ensures { OnOk result (T.text text.new ≡ T.text text.old
        ++ flat_map (written_by what.now binary first) (S.seen sheet.now).cells) }
{
    text.put_ranks(binary, what, first, sheet.cells())
}

/// The rows of the cells of all sheets.
pub(crate) fn put_all_cells<T: Target, S: SheetCells>(
    text: &mut T,
    binary: bool,
    what: &OfCells,
    sheets: &[S],
) -> Result<(), AllocError>
    requires needs { T.needs }
    requires ready { points_by S.seen sheets.now < 2 ^ 31 }
    ensures { OnOk result (T.text text.new ≡ T.text text.old
        ++ cell_rows (written_by what.now binary) 0 (map S.seen sheets.now)) }
{
    let mut first: u32 = 0;
    for sheet in sheets {
        put_sheet_cells(text, binary, what, first, sheet)?;
        first += sheet.points() as u32;
    }
    Ok(())
}
