//! The cells all or any of whose corners have a scalar within bounds.

ghost use Rattle.std.specs.Prelude.{◌≡◌, IfOk, map};
ghost use Rattle.viz_mesh_meaning.specs.Select.{selected, selections};

use crate::cell_tests::marked_cells;
use crate::keeping::kept_cells;
use crate::withins::withins;
use std::alloc::{AllocError, Global};
use viz_sheet::{Mesh, Sheet, compacted};

/// The selection of each sheet: of its cells, in their order, those all of whose corners have a
/// scalar from `lo` to `hi`, or any of them, and the names that these cells have.
pub fn select(
    alloc: Global,
    sheets: &[Sheet],
    lo: i64,
    hi: i64,
    all: bool,
) -> Result<Mesh, AllocError>
    ensures value { IfOk result (λ mesh. mesh ≡ selections all lo hi sheets.now) }
{
    let mut made = Vec::with_capacity(alloc, sheets.len())?;
    for sheet in sheets {
        made.push(selected(alloc, sheet, &lo, &hi, all)?)?;
    }
    Ok(Mesh::new(made))
}

/// The selection of a sheet.
fn selected(
    alloc: Global,
    sheet: &Sheet,
    lo: &i64,
    hi: &i64,
    all: bool,
) -> Result<Sheet, AllocError>
    ensures value { IfOk result (λ s. s ≡ selected all lo.now hi.now sheet.now) }
{
    let places = sheet.places();
    let ranks = sheet.ranks();
    let within = withins(alloc, lo, hi, places)?;
    let keeps = marked_cells(alloc, all, &within, ranks)?;
    let cells = kept_cells(alloc, &keeps, ranks)?;
    let made = compacted(alloc, sheet.leaves(), places, &cells)?;
    sheet.known();
    made.known();
    Ok(made)
}
