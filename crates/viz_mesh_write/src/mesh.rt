//! The text of a mesh.

ghost use Rattle.std.specs.Prelude.{◌≡◌, ◌≢◌, ◌≤◌, ◌<◌, ◌^◌, ◌++◌, ◌↔◌, Err, OnOk, IfOk, IsErrOf};
ghost use Rattle.std.specs.Prelude.{length};
ghost use Rattle.viz_image_write.specs.ImageText.{form_line};
ghost use Rattle.viz_image_write.specs.Version.{is_later};
ghost use Rattle.viz_mesh_write.specs.Cells.{points_of, cells_of, has_tetrahedra};
ghost use Rattle.viz_mesh_write.specs.Fits.{FitCounts, FitRows, FitNumbers};
ghost use Rattle.viz_mesh_write.specs.MeshText.{title_lines, dataset_line, coordinates, scalars};
ghost use Rattle.viz_mesh_write.specs.MeshText.{points_text, cells_text, scalars_text, mesh_text};
ghost use Rattle.viz_mesh_write.specs.Steps.Tallies.{AreSmall, IsReady};

use crate::heads::{put_dataset, put_form, put_points_line, put_scalars_head, put_title};
use crate::numbers::put_end;
use crate::point_rows::{Coordinates, OfPoints, Scalar};
use crate::points::put_points;
use crate::sections::put_cells_text;
use crate::straight::Straight;
use crate::tally::{Tally, counted};
use crate::target::Target;
use std::alloc::{AllocError, Global};
use viz_base::Bytes;
use viz_image_write::{Style, WriteStop};
use viz_sheet::{Mesh, Sheet};

/// The room for all lines in front of numbers.
pub(crate) const ROOM_OF_HEADS: u64 = 1024;

/// The most bytes of a number of 64 bits in words, and of what stands behind it.
pub(crate) const LONG_WORD: u64 = 21;

/// The same of an index below 2^31 or of a count.
const INDEX_WORD: u64 = 11;

/// The same of a type.
const TYPE_WORD: u64 = 3;

/// Room for the whole text: in a file of version 5.1 offsets stand in the place of counts.
pub(crate) fn room(later: bool, binary: bool, tally: &Tally) -> u64
    requires { AreSmall tally.now }
{
    let (long, index, kind) = match (binary, later) {
        (true, true) => (8, 8, 4),
        (true, false) => (8, 4, 4),
        (false, _) => (LONG_WORD, INDEX_WORD, TYPE_WORD),
    };
    ROOM_OF_HEADS + 4 * long * tally.points + index * tally.size() + kind * tally.cells()
}

/// The lines in front of the points.
pub(crate) fn put_head<T: Target>(
    text: &mut T,
    later: bool,
    binary: bool,
    digits: u8,
    tally: &Tally,
    sheets: &[Sheet],
) -> Result<(), AllocError>
    requires { IsReady sheets.now tally.now }
    ensures { OnOk result (T.text text.new ≡ T.text text.old
        ++ (title_lines later digits ++ form_line binary
        ++ dataset_line (has_tetrahedra (cells_of sheets.now)))) }
{
    let mut line = text.line();
    put_title(&mut line, later, digits)?;
    put_form(&mut line, binary)?;
    put_dataset(&mut line, is_grid(tally, sheets))?;
    text.put(line)?;
    Ok(())
}

/// Whether a tetrahedron is there.
fn is_grid(tally: &Tally, _sheets: &[Sheet]) -> bool
    requires { IsReady _sheets.now tally.now }
    ensures { result ≡ has_tetrahedra (cells_of _sheets.now) }
{
    tally.tetrahedra > 0
}

/// The points.
pub(crate) fn put_points_text<T: Target>(
    text: &mut T,
    binary: bool,
    digits: u8,
    n: u64,
    sheets: &[Sheet],
) -> Result<(), WriteStop>
    requires needs { T.needs }
    requires digits { digits ≤ 9 }
    requires count { n ≡ length (points_of sheets.now) }
    ensures ok { OnOk result (T.text text.new
        ≡ T.text text.old ++ points_text binary digits (points_of sheets.now)) }
    ensures fits { OnOk result (FitRows (coordinates digits) (points_of sheets.now)) }
    ensures too_wide { IsErrOf result WriteStop.TooWide
        → ¬ FitRows (coordinates digits) (points_of sheets.now) }
    ensures few { result ≢ Err WriteStop.TooMany }
{
    put_points_line(text, n)?;
    put_points(
        text,
        binary,
        &OfPoints::Coordinates(Coordinates { digits }),
        sheets,
    )?;
    put_end(text, binary, n)?;
    Ok(())
}

/// The scalars, where there are points.
pub(crate) fn put_scalars_text<T: Target>(
    text: &mut T,
    binary: bool,
    n: u64,
    sheets: &[Sheet],
) -> Result<(), WriteStop>
    requires needs { T.needs }
    requires count { n ≡ length (points_of sheets.now) }
    ensures ok { OnOk result (T.text text.new
        ≡ T.text text.old ++ scalars_text binary (points_of sheets.now)) }
    ensures fits { OnOk result (FitRows scalars (points_of sheets.now)) }
    ensures too_wide { IsErrOf result WriteStop.TooWide
        → ¬ FitRows scalars (points_of sheets.now) }
    ensures few { result ≢ Err WriteStop.TooMany }
{
    if n == 0 {
        return Ok(());
    }
    put_scalars_head(text, n)?;
    put_points(text, binary, &OfPoints::Scalar(Scalar), sheets)?;
    put_end(text, binary, n)?;
    Ok(())
}

/// The cells of sheets.
fn put_sheets<T: Target>(
    text: &mut T,
    later: bool,
    binary: bool,
    tally: &Tally,
    sheets: &[Sheet],
) -> Result<(), AllocError>
    requires needs { T.needs }
    requires ready { IsReady sheets.now tally.now }
    ensures { OnOk result (T.text text.new
        ≡ T.text text.old ++ cells_text later binary (cells_of sheets.now)) }
{
    put_cells_text(text, later, binary, tally, sheets)
}

/// The whole text.
#[tactic(auto, unfolding(crate::specs::MeshText::mesh_text))]
pub(crate) fn put_mesh<T: Target>(
    text: &mut T,
    later: bool,
    binary: bool,
    digits: u8,
    tally: &Tally,
    sheets: &[Sheet],
) -> Result<(), WriteStop>
    requires needs { T.needs }
    requires digits { digits ≤ 9 }
    requires ready { IsReady sheets.now tally.now }
    ensures ok { OnOk result (T.text text.new
        ≡ T.text text.old ++ mesh_text later binary digits sheets.now) }
    ensures fits { OnOk result (FitNumbers digits sheets.now) }
    ensures too_wide { IsErrOf result WriteStop.TooWide → ¬ FitNumbers digits sheets.now }
    ensures few { result ≢ Err WriteStop.TooMany }
{
    put_head(text, later, binary, digits, tally, sheets)?;
    put_points_text(text, binary, digits, tally.points, sheets)?;
    put_sheets(text, later, binary, tally, sheets)?;
    put_scalars_text(text, binary, tally.points, sheets)?;
    Ok(())
}

/// The same as new bytes.
fn mesh_bytes(
    alloc: Global,
    style: &Style,
    tally: &Tally,
    sheets: &[Sheet],
) -> Result<Vec<u8>, WriteStop>
    requires ready { IsReady sheets.now tally.now }
    ensures value { IfOk result (λ text. text.items
        ≡ mesh_text (is_later style.now.version) style.now.binary style.now.digits sheets.now) }
    ensures fits { OnOk result (FitNumbers style.now.digits sheets.now) }
    ensures too_wide { IsErrOf result WriteStop.TooWide
        → ¬ FitNumbers style.now.digits sheets.now }
    ensures few { ¬ IsErrOf result WriteStop.TooMany }
{
    let (later, binary) = (style.is_later(), style.binary);
    let mut made = Straight::with_room(alloc, room(later, binary, tally))?;
    put_mesh(&mut made, later, binary, style.digits, tally, sheets)?;
    Ok(made.text)
}

/// The text of a mesh: a grid where it has a tetrahedron, and else polydata. Points stand by sheet
/// and then by name, and cells by the indices that their points have then: with their counts, or in
/// a file of version 5.1 with offsets. Coordinates are rounded down at the style's number of places
/// and counted in the last one; scalars are rounded down.
///
/// # Errors
///
/// `TooMany` exactly where the counts don't fit; `TooWide` only where they fit and a written number
/// doesn't. Want of memory may come in place of `TooWide` and of a text, and never of `TooMany`.
pub fn write_mesh(alloc: Global, mesh: &Mesh, style: &Style) -> Result<Bytes, WriteStop>
    ensures value { IfOk result (λ text. text
        ≡ mesh_text (is_later style.now.version) style.now.binary style.now.digits mesh.now) }
    ensures fits { OnOk result (FitCounts mesh.now × FitNumbers style.now.digits mesh.now) }
    ensures too_many { IsErrOf result WriteStop.TooMany ↔ ¬ FitCounts mesh.now }
    ensures too_wide { IsErrOf result WriteStop.TooWide
        → FitCounts mesh.now × ¬ FitNumbers style.now.digits mesh.now }
{
    let Some(tally) = counted(mesh.sheets()) else {
        return Err(WriteStop::TooMany);
    };
    let text = mesh_bytes(alloc, style, &tally, mesh.sheets())?;
    Ok(Bytes::new(text))
}
