//! The type `Mesh`.

ghost use Rattle.std.specs.Prelude.{◌≡◌};

use crate::sheet::Sheet;
use std::marker::Model;

/// Sheets in order, as a file's grid or polydata holds them. Contracts see what is seen of each.
#[derive(Debug, Drop)]
pub struct Mesh {
    sheets: Vec<Sheet>,
}

impl Model for Mesh {
    ghost use Rattle.std.specs.Prelude.{List};
    ghost use Rattle.viz_sheet.specs.Sheet.{SheetData};

    ghost Value = { List SheetData };

    ghost view = { λ m. m.sheets.items };
}

impl Mesh {
    /// The mesh of these sheets.
    pub fn new(sheets: Vec<Sheet>) -> Mesh
        ensures value { result ≡ sheets.items }
    {
        Mesh { sheets }
    }

    /// The sheets.
    pub fn sheets(&self) -> &[Sheet]
        ensures value { result.now ≡ self.now }
    {
        &self.sheets
    }

    /// The sheets, taken out.
    pub fn into_sheets(self) -> Vec<Sheet>
        ensures value { result.items ≡ self }
    {
        let Mesh { sheets } = self;
        sheets
    }
}
