//! The rows of the coordinates and scalars of points, block by block.

ghost use Rattle.std.specs.Prelude.{◌≡◌, ◌≢◌, ◌≤◌, ◌++◌, Err, OnOk, IfOk, IsErrOf, length, drop};
ghost use Rattle.viz_sheet.specs.Arrays.{points_in};
ghost use Rattle.viz_mesh_write.specs.Cells.{points_of};
ghost use Rattle.viz_mesh_write.specs.Fits.{FitRows};
ghost use Rattle.viz_mesh_write.specs.Steps.Passes.{point_rows, rows_by, FitBy};
ghost use Rattle.viz_mesh_write.specs.Steps.Kinds.{numbers_by};

use crate::numbers::ROWS;
use crate::point_rows::{OfPoints, PointNumbers, WidePoint};
use crate::target::Target;
use viz_image_write::{Block, WriteStop};
use viz_sheet::{Places, Sheet};

/// The rows of points at the end of a block, and where they begin.
fn fill<N: PointNumbers, P: WidePoint>(
    block: &mut [u8],
    binary: bool,
    what: &N,
    points: &[P],
) -> Result<usize, WriteStop>
    requires few { length points.now ≤ 512 }
    requires room { length block.old ≡ 65536 }
    ensures ok { IfOk result (λ at. drop at block.new
        ≡ rows_by P.point (N.numbers what.now) binary points.now) }
    ensures at { IfOk result (λ at. at ≤ 65536) }
    ensures fits { OnOk result (FitBy P.point (N.numbers what.now) points.now) }
    ensures too_wide { IsErrOf result WriteStop.TooWide
        → ¬ FitBy P.point (N.numbers what.now) points.now }
    ensures few { ¬ IsErrOf result WriteStop.TooMany }
{
    let mut end = block.len();
    let n = points.len();
    for k in 0..n {
        end = what.put_left(block, end, binary, &points[n - 1 - k].wide())?;
    }
    Ok(end)
}

/// The rows of some points.
fn put_part<N: PointNumbers, P: WidePoint>(
    text: &mut Vec<u8>,
    block: &mut Block,
    binary: bool,
    what: &N,
    points: &[P],
) -> Result<(), WriteStop>
    requires few { length points.now ≤ 512 }
    ensures ok { OnOk result (text.new.items
        ≡ text.old.items ++ rows_by P.point (N.numbers what.now) binary points.now) }
    ensures fits { OnOk result (FitBy P.point (N.numbers what.now) points.now) }
    ensures too_wide { IsErrOf result WriteStop.TooWide
        → ¬ FitBy P.point (N.numbers what.now) points.now }
    ensures few { result ≢ Err WriteStop.TooMany }
{
    let start = fill(&mut block.bytes, binary, what, points)?;
    text.extend_from_slice(&block.bytes[start..])?;
    Ok(())
}

/// The rows of points of one width.
pub(crate) fn put_width<N: PointNumbers, P: WidePoint>(
    text: &mut Vec<u8>,
    block: &mut Block,
    binary: bool,
    what: &N,
    points: &[P],
) -> Result<(), WriteStop>
    ensures ok { OnOk result (text.new.items
        ≡ text.old.items ++ rows_by P.point (N.numbers what.now) binary points.now) }
    ensures fits { OnOk result (FitBy P.point (N.numbers what.now) points.now) }
    ensures too_wide { IsErrOf result WriteStop.TooWide
        → ¬ FitBy P.point (N.numbers what.now) points.now }
    ensures few { result ≢ Err WriteStop.TooMany }
{
    let mut left = points;
    while !left.is_empty() {
        let (front, behind) = left.split_at(ROWS.min(left.len()));
        put_part(text, block, binary, what, front)?;
        left = behind;
    }
    Ok(())
}

/// The rows of the points of one sheet.
pub(crate) fn put_sheet_points<N: PointNumbers>(
    text: &mut Vec<u8>,
    block: &mut Block,
    binary: bool,
    what: &N,
    places: &Places,
) -> Result<(), WriteStop>
    ensures ok { OnOk result (text.new.items
        ≡ text.old.items ++ point_rows (N.numbers what.now) binary (points_in places.now)) }
    ensures fits { OnOk result (FitRows (N.numbers what.now) (points_in places.now)) }
    ensures too_wide { IsErrOf result WriteStop.TooWide
        → ¬ FitRows (N.numbers what.now) (points_in places.now) }
    ensures few { result ≢ Err WriteStop.TooMany }
{
    match places {
        Places::Small(points) => put_width(text, block, binary, what, points),
        Places::Wide(points) => put_width(text, block, binary, what, points),
    }
}

/// The rows of all points.
pub(crate) fn put_points<T: Target>(
    text: &mut T,
    binary: bool,
    what: &OfPoints,
    sheets: &[Sheet],
) -> Result<(), WriteStop>
    requires needs { T.needs }
    ensures ok { OnOk result (T.text text.new
        ≡ T.text text.old ++ point_rows (numbers_by what.now) binary (points_of sheets.now)) }
    ensures fits { OnOk result (FitRows (numbers_by what.now) (points_of sheets.now)) }
    ensures too_wide { IsErrOf result WriteStop.TooWide
        → ¬ FitRows (numbers_by what.now) (points_of sheets.now) }
    ensures few { result ≢ Err WriteStop.TooMany }
{
    for sheet in sheets {
        text.put_places(binary, what, sheet.places())?;
    }
    Ok(())
}
