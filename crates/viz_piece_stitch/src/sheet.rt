//! One sheet, put together of its parts.

ghost use Rattle.std.specs.Prelude.{All, IfOk};
ghost use Rattle.viz_sheet.specs.Sheet.{IsSheet};
ghost use Rattle.viz_piece_stitch.specs.Steps.Columns.{IsJoinedSheet};

use crate::cells::no_cells;
use crate::joining::{Joined, with_parts};
use crate::names::all_names;
use crate::shared_sheet::SharedSheet;
use std::alloc::{AllocError, Global};
use viz_sheet::{Places, Sheet, sheet_of};

/// The own cells of all parts, in order, with the points of their names. A part is given up as soon
/// as it is joined.
pub(crate) fn joined_sheet(alloc: Global, parts: Vec<SharedSheet>) -> Result<Sheet, AllocError>
    requires sheets { All (λ p. IsSheet p.sheet) parts.items }
    ensures { IfOk result (IsJoinedSheet parts.items) }
{
    let names = all_names(alloc, &parts)?;
    let places = Places::Small(Vec::new(alloc));
    let ranks = no_cells(alloc, &parts)?;
    let joined = with_parts(alloc, &names, Joined { places, ranks }, parts)?;
    let Joined { places, ranks } = joined;
    let sheet = sheet_of(alloc, names, places, ranks)?;
    sheet.known();
    Ok(sheet)
}
