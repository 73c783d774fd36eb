//! The parts of a sheet, in pieces that others may own too.

ghost use Rattle.std.specs.Prelude.{◌≡◌, All, IfOk};
ghost use Rattle.viz_piece_stitch.specs.Steps.Columns.{HasSheet, sheet_at, sheets_at};

use std::alloc::{AllocError, Global};
use std::marker::Model;
use viz_base::Shared;
use viz_parts::{Part, PartSheet};

/// The part of one sheet of a mesh, in a piece that others may own too. Contracts see that part.
#[derive(Debug, Drop)]
pub(crate) struct SharedSheet {
    piece: Shared<Part>,
    sheet: usize,
}

impl Model for SharedSheet {
    ghost use Rattle.viz_parts.specs.Parts.{PartSheetData};
    ghost use Rattle.viz_piece_stitch.specs.Steps.Columns.{HasSheet, sheet_at};

    ghost Value = { PartSheetData };

    ghost view = { λ s. sheet_at s.sheet s.piece };

    ghost invariant = { λ s. HasSheet s.sheet s.piece };
}

impl SharedSheet {
    /// The part of a sheet in this piece.
    fn new(piece: Shared<Part>, sheet: usize) -> SharedSheet
        requires { HasSheet sheet piece }
        ensures { result ≡ sheet_at sheet piece }
    {
        SharedSheet { piece, sheet }
    }

    /// Lends the part.
    pub(crate) fn get(&self) -> &PartSheet
        ensures { result.now ≡ self.now }
    {
        match self.piece.get() {
            Part::Mesh(sheets) => &sheets[self.sheet],
            Part::Image(_) => unreachable!(),
        }
    }
}

/// The parts of one sheet in all pieces.
pub(crate) fn parts_of(
    alloc: Global,
    sheet: usize,
    pieces: Vec<Shared<Part>>,
) -> Result<Vec<SharedSheet>, AllocError>
    requires { All (HasSheet sheet) pieces.items }
    ensures { IfOk result (λ v. v.items ≡ sheets_at sheet pieces.items) }
{
    let mut parts = Vec::with_capacity(alloc, pieces.len())?;
    for piece in pieces {
        parts.push(SharedSheet::new(piece, sheet))?;
    }
    Ok(parts)
}
