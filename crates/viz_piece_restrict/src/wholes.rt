//! Datasets as their only parts.

ghost use Rattle.std.specs.Prelude.{◌≡◌, IfOk, length, map, replicate};
ghost use Rattle.viz_parts.specs.Pieces.{IsAnswer, IsSheetPart, in_turn, own_share};
ghost use Rattle.viz_piece_restrict.specs.Restricting.{IsSomeAnswer};
ghost use Rattle.viz_piece_restrict.specs.Steps.Cuts.{AreWholes, all_own};

use std::alloc::{AllocError, Global};
use viz_dataset::{Dataset, Image};
use viz_parts::{Part, PartSheet, Request};
use viz_sheet::{Mesh, Sheet};

/// All of an image: the part for the block that is its extent.
pub fn whole_image(image: Image) -> Part
    ensures ok { (division : _)
        → IsAnswer (Dataset.Image image) division (Request.Block image.extent) result }
    ensures answers { IsSomeAnswer (Request.Block image.extent) result }
{
    let _extent = image.extent();
    Part::Image(image)
}

/// All of a mesh: the part for piece 0 of 1 without ghosts, by cells in turn.
pub fn whole_mesh(alloc: Global, mesh: Mesh) -> Result<Part, AllocError>
    ensures ok { IfOk result (
        IsAnswer (Dataset.Mesh mesh) (in_turn mesh) (Request.Piece 0 1 0)) }
    ensures answers { IfOk result (IsSomeAnswer (Request.Piece 0 1 0)) }
{
    let parts = whole_sheets(alloc, mesh.into_sheets())?;
    Ok(Part::Mesh(parts))
}

/// Each sheet, all of its cells own.
fn whole_sheets(alloc: Global, sheets: Vec<Sheet>) -> Result<Vec<PartSheet>, AllocError>
    ensures { IfOk result (λ v. AreWholes sheets.items v.items) }
{
    let mut parts = Vec::with_capacity(alloc, sheets.len())?;
    for sheet in sheets {
        parts.push(whole_sheet(sheet))?;
    }
    Ok(parts)
}

/// A sheet, all of its cells own.
fn whole_sheet(sheet: Sheet) -> PartSheet
    ensures value { result ≡ all_own sheet }
    ensures part { IsSheetPart sheet (own_share 0 1 (length sheet.cells)) 0 (all_own sheet) }
{
    sheet.known();
    PartSheet::own(sheet)
}
