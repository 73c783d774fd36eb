//! The text of a mesh that is given up on the way.

ghost use Rattle.std.specs.Prelude.{◌≡◌, ◌≢◌, ◌<◌, ◌^◌, ◌++◌, ◌↔◌, Err, OnOk, IfOk, IsErrOf};
ghost use Rattle.std.specs.Prelude.{length};
ghost use Rattle.viz_image_write.specs.Version.{is_later};
ghost use Rattle.viz_mesh_write.specs.Cells.{points_of, cells_of};
ghost use Rattle.viz_mesh_write.specs.Fits.{FitCounts, FitRows, FitNumbers};
ghost use Rattle.viz_mesh_write.specs.MeshText.{scalars, cells_text, scalars_text, mesh_text};
ghost use Rattle.viz_mesh_write.specs.Steps.Tallies.{IsReady};

use crate::mesh::{LONG_WORD, ROOM_OF_HEADS, put_head, put_points_text, put_scalars_text, room};
use crate::sections::put_cells_text;
use crate::sheet_cells::all_own_cells;
use crate::straight::Straight;
use crate::tally::{Tally, counted};
use crate::target::Target;
use std::alloc::{AllocError, Global};
use viz_base::Bytes;
use viz_image_write::{Style, WriteStop};
use viz_sheet::{Mesh, Sheet};

/// The scalars, where there are points, as new bytes.
fn scalars_bytes(
    alloc: Global,
    binary: bool,
    n: u64,
    sheets: &[Sheet],
) -> Result<Vec<u8>, WriteStop>
    requires small { n < 2 ^ 31 }
    requires count { n ≡ length (points_of sheets.now) }
    ensures ok { IfOk result (λ text. text.items ≡ scalars_text binary (points_of sheets.now)) }
    ensures fits { OnOk result (FitRows scalars (points_of sheets.now)) }
    ensures too_wide { IsErrOf result WriteStop.TooWide
        → ¬ FitRows scalars (points_of sheets.now) }
    ensures few { ¬ IsErrOf result WriteStop.TooMany }
{
    let long = if binary { 8 } else { LONG_WORD };
    let mut made = Straight::with_room(alloc, ROOM_OF_HEADS + long * n)?;
    put_scalars_text(&mut made, binary, n, sheets)?;
    Ok(made.text)
}

/// The cells of sheets whose names and points are given up first.
fn put_own_sheets<T: Target>(
    alloc: Global,
    text: &mut T,
    later: bool,
    binary: bool,
    tally: &Tally,
    sheets: Vec<Sheet>,
) -> Result<(), AllocError>
    requires needs { T.needs }
    requires ready { IsReady sheets.items tally.now }
    ensures { OnOk result (T.text text.new
        ≡ T.text text.old ++ cells_text later binary (cells_of sheets.items)) }
{
    let cells = all_own_cells(alloc, sheets)?;
    put_cells_text(text, later, binary, tally, &cells)
}

/// The whole text of sheets that are given up on the way: their names and points before the text of
/// the cells is made, and the cells before the scalars are put behind it.
#[tactic(auto, unfolding(crate::specs::MeshText::mesh_text))]
fn put_own_mesh<T: Target>(
    alloc: Global,
    text: &mut T,
    style: &Style,
    tally: &Tally,
    sheets: Vec<Sheet>,
) -> Result<(), WriteStop>
    requires needs { T.needs }
    requires ready { IsReady sheets.items tally.now }
    ensures ok { OnOk result (T.text text.new ≡ T.text text.old
        ++ mesh_text (is_later style.now.version) style.now.binary style.now.digits sheets.items) }
    ensures fits { OnOk result (FitNumbers style.now.digits sheets.items) }
    ensures too_wide { IsErrOf result WriteStop.TooWide
        → ¬ FitNumbers style.now.digits sheets.items }
    ensures few { result ≢ Err WriteStop.TooMany }
{
    let (later, binary, digits) = (style.is_later(), style.binary, style.digits);
    put_head(text, later, binary, digits, tally, &sheets)?;
    put_points_text(text, binary, digits, tally.points, &sheets)?;
    let scalars = scalars_bytes(alloc, binary, tally.points, &sheets)?;
    put_own_sheets(alloc, text, later, binary, tally, sheets)?;
    text.put(scalars)?;
    Ok(())
}

/// The same as new bytes.
fn own_mesh_bytes(
    alloc: Global,
    style: &Style,
    tally: &Tally,
    sheets: Vec<Sheet>,
) -> Result<Vec<u8>, WriteStop>
    requires ready { IsReady sheets.items tally.now }
    ensures value { IfOk result (λ text. text.items
        ≡ mesh_text (is_later style.now.version) style.now.binary style.now.digits sheets.items) }
    ensures fits { OnOk result (FitNumbers style.now.digits sheets.items) }
    ensures too_wide { IsErrOf result WriteStop.TooWide
        → ¬ FitNumbers style.now.digits sheets.items }
    ensures few { ¬ IsErrOf result WriteStop.TooMany }
{
    let mut made = Straight::with_room(alloc, room(style.is_later(), style.binary, tally))?;
    put_own_mesh(alloc, &mut made, style, tally, sheets)?;
    Ok(made.text)
}

/// The text that `write_mesh` gives, of a mesh that is given up on the way: it and its text are
/// never held whole at the same time, since names and points go before the text of the cells is
/// made.
///
/// # Errors
///
/// Those of `write_mesh`.
pub fn write_owned_mesh(alloc: Global, mesh: Mesh, style: &Style) -> Result<Bytes, WriteStop>
    ensures value { IfOk result (λ text. text
        ≡ mesh_text (is_later style.now.version) style.now.binary style.now.digits mesh) }
    ensures fits { OnOk result (FitCounts mesh × FitNumbers style.now.digits mesh) }
    ensures too_many { IsErrOf result WriteStop.TooMany ↔ ¬ FitCounts mesh }
    ensures too_wide { IsErrOf result WriteStop.TooWide
        → FitCounts mesh × ¬ FitNumbers style.now.digits mesh }
{
    let Some(tally) = counted(mesh.sheets()) else {
        return Err(WriteStop::TooMany);
    };
    let text = own_mesh_bytes(alloc, style, &tally, mesh.into_sheets())?;
    Ok(Bytes::new(text))
}
