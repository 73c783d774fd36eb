//! The type `PartSheet`.
ghost use Rattle.std.specs.Prelude.{◌≡◌, ◌<◌, length, replicate, slice_index_or};
ghost use Rattle.viz_parts.specs.Parts.{HasLevels};

use crate::levels::Levels;
use std::marker::Model;
use viz_sheet::Sheet;

/// Cells of a piece and around it, as a sheet, with the ghost level of each: how many steps it is
/// from the piece's own cells, which have level 0.
///
/// Contracts see the sheet and the level of each cell in the order of the cells.
#[derive(Debug, Drop)]
pub struct PartSheet {
    sheet: Sheet,
    levels: Levels,
}

impl Model for PartSheet {
    ghost use Rattle.std.specs.Prelude.{length};
    ghost use Rattle.viz_parts.specs.Parts.{HasLevels, PartSheetData, levels_in};

    ghost Value = { PartSheetData };

    ghost view = { λ p. record {
      sheet = p.sheet;
      levels = levels_in (length p.sheet.cells) p.levels;
    } };

    ghost invariant = { λ p. HasLevels (record {
      sheet = p.sheet;
      levels = levels_in (length p.sheet.cells) p.levels;
    }) };
}

impl PartSheet {
    /// A sheet of own cells alone.
    pub fn own(sheet: Sheet) -> PartSheet
        ensures sheet { result.sheet ≡ sheet }
        ensures levels { result.levels ≡ replicate (length sheet.cells) 0 }
    {
        PartSheet {
            sheet,
            levels: Levels::Own,
        }
    }

    /// A sheet with the level of each cell.
    pub fn new(sheet: Sheet, levels: Vec<u32>) -> PartSheet
        requires matched { length levels.items ≡ length sheet.cells }
        ensures sheet { result.sheet ≡ sheet }
        ensures levels { result.levels ≡ levels.items }
    {
        PartSheet {
            sheet,
            levels: Levels::Each(levels),
        }
    }

    /// Says the rule of a part to a caller's proof; it does nothing.
    pub fn known(&self)
        ensures valid { HasLevels self.now }
    {
        let _levels = &self.levels;
    }

    /// The sheet.
    pub fn sheet(&self) -> &Sheet
        ensures value { result.now ≡ self.now.sheet }
    {
        &self.sheet
    }

    /// The sheet, taken out.
    pub fn into_sheet(self) -> Sheet
        ensures value { result ≡ self.sheet }
    {
        let PartSheet { sheet, .. } = self;
        sheet
    }

    /// The level of a cell.
    pub fn level(&self, cell: usize) -> u32
        requires below { cell < length self.now.sheet.cells }
        ensures value { result ≡ slice_index_or self.now.levels cell 0 }
    {
        match &self.levels {
            Levels::Own => 0,
            Levels::Each(levels) => levels[cell],
        }
    }
}
