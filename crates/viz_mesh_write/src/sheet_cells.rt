//! The cells of a sheet by ranks, lent by the sheet or kept without its names and points.

ghost use Rattle.std.specs.Prelude.{◌≡◌, All, IfOk, length, map};
ghost use Rattle.viz_sheet.specs.Arrays.{ranks_in};
ghost use Rattle.viz_sheet.specs.Ranked.{IsCell, ranks_of};
ghost use Rattle.viz_mesh_write.specs.Steps.SheetCells.{CellsData, cells_in};

use std::alloc::{AllocError, Global};
use std::marker::Model;
use viz_sheet::{Ranks, Sheet};

/// What has the cells of a sheet by ranks, and the number of its points.
pub(crate) trait SheetCells: Drop {
    ghost seen: { Self → CellsData };

    /// The cells by ranks.
    fn cells(&self) -> &Ranks
        ensures value { ranks_in result.now ≡ (seen self.now).cells }
        ensures each { All (IsCell (seen self.now).points) (ranks_in result.now) };

    /// How many points.
    fn points(&self) -> usize
        ensures { result ≡ (seen self.now).points };
}

impl SheetCells for Sheet {
    ghost seen = { λ s. cells_in s };

    fn cells(&self) -> &Ranks {
        sheet_ranks(self)
    }

    fn points(&self) -> usize {
        self.places().len()
    }
}

/// The cells of a sheet that is given up, and the number of its points.
#[derive(Drop)]
pub(crate) struct OwnCells {
    ranks: Ranks,
    points: usize,
}

impl Model for OwnCells {
    ghost use Rattle.std.specs.Prelude.{All};
    ghost use Rattle.viz_sheet.specs.Arrays.{ranks_in};
    ghost use Rattle.viz_sheet.specs.Ranked.{IsCell};
    ghost use Rattle.viz_mesh_write.specs.Steps.SheetCells.{CellsData};

    ghost Value = { CellsData };

    ghost view = { λ s. record { points = s.points; cells = ranks_in s.ranks } };

    ghost invariant = { λ s. All (IsCell s.points) (ranks_in s.ranks) };
}

impl SheetCells for OwnCells {
    ghost seen = { λ s. s };

    fn cells(&self) -> &Ranks {
        &self.ranks
    }

    fn points(&self) -> usize {
        self.points
    }
}

/// The cells of a sheet by ranks, and what they keep.
pub(crate) fn sheet_ranks(sheet: &Sheet) -> &Ranks
    ensures value { ranks_in result.now ≡ map (ranks_of sheet.now.names) sheet.now.cells }
    ensures each { All (IsCell (length sheet.now.points)) (ranks_in result.now) }
{
    sheet.ranks()
}

/// The cells of a sheet; its names and points are given up.
fn own_cells(sheet: Sheet) -> OwnCells
    ensures { result ≡ cells_in sheet }
{
    let points = sheet.places().len();
    OwnCells {
        ranks: sheet.into_ranks(),
        points,
    }
}

/// The same of each sheet.
pub(crate) fn all_own_cells(alloc: Global, sheets: Vec<Sheet>) -> Result<Vec<OwnCells>, AllocError>
    ensures { IfOk result (λ cells. cells.items ≡ map cells_in sheets.items) }
{
    let mut cells = Vec::with_capacity(alloc, sheets.len())?;
    for sheet in sheets {
        cells.push(own_cells(sheet))?;
    }
    Ok(cells)
}
