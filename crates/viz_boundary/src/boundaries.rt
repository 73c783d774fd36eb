//! The boundary of each sheet.

ghost use Rattle.std.specs.Prelude.{◌≡◌, IfOk, map};
ghost use Rattle.viz_mesh_meaning.specs.Facets.{boundaries, boundary_of};

use crate::facets::marked_facets;
use crate::lone::lone_marks;
use std::alloc::{AllocError, Global};
use viz_sheet::{Mesh, Sheet, compacted};

/// The boundary of each sheet: cell after cell, the facets whose set of names occurs in exactly one
/// cell of the size of the cell that they are facets of, and the names that these have.
///
/// A vertex has no facets. Of a sheet of more than 2^30 cells it answers as for want of memory.
pub fn boundary(alloc: Global, sheets: &[Sheet]) -> Result<Mesh, AllocError>
    ensures value { IfOk result (λ mesh. mesh ≡ boundaries sheets.now) }
{
    let mut made = Vec::with_capacity(alloc, sheets.len())?;
    for sheet in sheets {
        made.push(boundary_of(alloc, sheet)?)?;
    }
    Ok(Mesh::new(made))
}

/// The boundary of a sheet.
fn boundary_of(alloc: Global, sheet: &Sheet) -> Result<Sheet, AllocError>
    ensures value { IfOk result (λ s. s ≡ boundary_of sheet.now) }
{
    let places = sheet.places();
    let ranks = sheet.ranks();
    if ranks.len() > 1 << 30 {
        return Err(AllocError);
    }
    let marks = lone_marks(alloc, places.len(), ranks)?;
    let facets = marked_facets(alloc, &marks, ranks)?;
    let made = compacted(alloc, sheet.leaves(), places, &facets)?;
    sheet.known();
    made.known();
    Ok(made)
}
