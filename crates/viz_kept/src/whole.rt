//! A whole dataset as one part.

ghost use Rattle.std.specs.Prelude.{◌≡◌, map, IfOk};
ghost use Rattle.viz_kept.specs.Steps.{own_part, AreSheets};
ghost use Rattle.viz_kept.specs.Whole.{IsWholePart, whole_request};

use std::alloc::{AllocError, Global};
use viz_dataset::Dataset;
use viz_node_division::{datasets_are_divided, divisions_share_out};
use viz_parts::{Part, PartSheet, Request};
use viz_sheet::Sheet;

// Says the rule of each sheet; it does nothing.
fn know_all(sheets: &[Sheet])
    ensures { AreSheets sheets.now }
{
    for sheet in sheets {
        sheet.known();
    }
}

// All sheets as parts whose cells are all their own.
fn own_parts(alloc: Global, sheets: Vec<Sheet>) -> Result<Vec<PartSheet>, AllocError>
    ensures parts { IfOk result (λ parts. parts.items ≡ map own_part sheets.items) }
    ensures sheets { AreSheets sheets.items }
{
    know_all(&sheets);
    sheets
        .into_iter()
        .map(|sheet| PartSheet::own(sheet))
        .collect(alloc)
}

// All sheets of a mesh as one part.
fn whole_mesh(alloc: Global, sheets: Vec<Sheet>) -> Result<(Request, Part), AllocError>
    ensures request { IfOk result (λ whole. whole.0 ≡ whole_request (Dataset.Mesh sheets.items)) }
    ensures part { IfOk result (λ whole. IsWholePart (Dataset.Mesh sheets.items) whole.0 whole.1) }
{
    datasets_are_divided();
    divisions_share_out();
    let parts = own_parts(alloc, sheets)?;
    let request = Request::Piece {
        p: 0,
        n: 1,
        ghosts: 0,
    };
    Ok((request, Part::Mesh(parts)))
}

/// The whole dataset as a part, with the request that it answers: the extent of an image, and the
/// only piece of a mesh. No numbers and no cells are copied. `Err` is want of memory.
pub fn whole_part(alloc: Global, dataset: Dataset) -> Result<(Request, Part), AllocError>
    ensures request { IfOk result (λ whole. whole.0 ≡ whole_request dataset) }
    ensures part { IfOk result (λ whole. IsWholePart dataset whole.0 whole.1) }
{
    datasets_are_divided();
    divisions_share_out();
    match dataset {
        Dataset::Image(image) => Ok((Request::Block(image.extent()), Part::Image(image))),
        Dataset::Mesh(mesh) => whole_mesh(alloc, mesh.into_sheets()),
    }
}
