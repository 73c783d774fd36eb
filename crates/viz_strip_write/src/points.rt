//! The rows of the coordinates and scalars of points.

ghost use Rattle.std.specs.Prelude.{◌≡◌, ◌≢◌, ◌++◌, ◌↔◌, ℤ, List, Err, OnOk, IfOk, IsOk, IsErrOf};
ghost use Rattle.std.specs.Prelude.{FitsSigned, false, [], ◌∷◌};
ghost use Rattle.std.specs.Fmt.{signed_decimal};
ghost use Rattle.std.specs.Int.{w64};
ghost use Rattle.viz_fraction.specs.Decimals.{fixed_of};
ghost use Rattle.viz_fraction.specs.Points.{Point};
ghost use Rattle.viz_image_write.specs.ImageText.{row_text, spaced_number};
ghost use Rattle.viz_mesh_write.specs.Fits.{FitRows, FitsRow};
ghost use Rattle.viz_mesh_write.specs.MeshText.{coordinates, scalar, scalars};
ghost use Rattle.viz_mesh_write.specs.Steps.Passes.{point_rows};
ghost use Rattle.viz_sheet.specs.Arrays.{points_in};

use crate::stop::StripStop;
use itoa::Buffer;
use std::alloc::AllocError;
use viz_fraction::{Point5, TooWide, fixed};
use viz_sheet::Places;

/// What is written of each point. A function that is generic in it has no `match` in its loop.
pub(crate) trait PointNumbers {
    ghost numbers: { Point → List ℤ };

    /// Puts the row of a point.
    fn put(text: &mut Vec<u8>, p: &Point5) -> Result<(), StripStop>
        ensures ok { OnOk result (text.new.items ≡ text.old.items ++ row_text (numbers p.now)) }
        ensures fits { OnOk result (FitsRow (numbers p.now)) }
        ensures too_wide { IsErrOf result StripStop.TooWide → ¬ FitsRow (numbers p.now) }
        ensures few { result ≢ Err StripStop.TooMany };
}

/// The coordinates, in thousandths.
pub(crate) struct Coordinates;

impl PointNumbers for Coordinates {
    ghost numbers = { λ p. coordinates 3 p };

    fn put(text: &mut Vec<u8>, p: &Point5) -> Result<(), StripStop> {
        put_coordinates(text, p)
    }
}

/// The scalar.
pub(crate) struct Scalar;

impl PointNumbers for Scalar {
    ghost numbers = { λ p. scalars p };

    fn put(text: &mut Vec<u8>, p: &Point5) -> Result<(), StripStop> {
        put_scalar(text, p)
    }
}

/// The coordinate along x, in thousandths.
fn written_x(p: &Point5) -> Result<i64, TooWide>
    ensures value { IfOk result (λ n. n ≡ fixed_of p.now.x p.now.w 3) }
    ensures succeeds { IsOk result ↔ FitsSigned w64 (fixed_of p.now.x p.now.w 3) }
{
    fixed(p.x(), p.w(), 3)
}

/// The coordinate along y, in thousandths.
fn written_y(p: &Point5) -> Result<i64, TooWide>
    ensures value { IfOk result (λ n. n ≡ fixed_of p.now.y p.now.w 3) }
    ensures succeeds { IsOk result ↔ FitsSigned w64 (fixed_of p.now.y p.now.w 3) }
{
    fixed(p.y(), p.w(), 3)
}

/// The coordinate along z, in thousandths.
fn written_z(p: &Point5) -> Result<i64, TooWide>
    ensures value { IfOk result (λ n. n ≡ fixed_of p.now.z p.now.w 3) }
    ensures succeeds { IsOk result ↔ FitsSigned w64 (fixed_of p.now.z p.now.w 3) }
{
    fixed(p.z(), p.w(), 3)
}

/// The scalar, rounded down.
fn written_scalar(p: &Point5) -> Result<i64, TooWide>
    ensures value { IfOk result (λ n. n ≡ scalar p.now) }
    ensures succeeds { IsOk result ↔ FitsSigned w64 (scalar p.now) }
{
    fixed(p.s(), p.w(), 0)
}

/// A number in words.
fn put_number(text: &mut Vec<u8>, n: &i64) -> Result<(), AllocError>
    ensures { OnOk result (text.new.items ≡ text.old.items ++ signed_decimal n.now) }
{
    let mut buffer = Buffer::new();
    text.extend_from_slice(buffer.format(*n).as_bytes())
}

/// A number behind a space.
fn put_spaced(text: &mut Vec<u8>, n: &i64) -> Result<(), AllocError>
    ensures { OnOk result (text.new.items ≡ text.old.items ++ spaced_number n.now) }
{
    text.push(b' ')?;
    put_number(text, n)?;
    Ok(())
}

/// Three numbers on a line.
fn put_three(text: &mut Vec<u8>, x: &i64, y: &i64, z: &i64) -> Result<(), AllocError>
    ensures { OnOk result (text.new.items
        ≡ text.old.items ++ row_text (x.now ∷ y.now ∷ z.now ∷ [])) }
{
    put_number(text, x)?;
    put_spaced(text, y)?;
    put_spaced(text, z)?;
    text.push(b'\n')?;
    Ok(())
}

/// A number on a line.
fn put_one(text: &mut Vec<u8>, n: &i64) -> Result<(), AllocError>
    ensures { OnOk result (text.new.items ≡ text.old.items ++ row_text (n.now ∷ [])) }
{
    put_number(text, n)?;
    text.push(b'\n')?;
    Ok(())
}

/// The row of a point's coordinates.
fn put_coordinates(text: &mut Vec<u8>, p: &Point5) -> Result<(), StripStop>
    ensures ok { OnOk result (text.new.items ≡ text.old.items ++ row_text (coordinates 3 p.now)) }
    ensures fits { OnOk result (FitsRow (coordinates 3 p.now)) }
    ensures too_wide { IsErrOf result StripStop.TooWide → ¬ FitsRow (coordinates 3 p.now) }
    ensures few { result ≢ Err StripStop.TooMany }
{
    let x = written_x(p)?;
    let y = written_y(p)?;
    let z = written_z(p)?;
    put_three(text, &x, &y, &z)?;
    Ok(())
}

/// The row of a point's scalar.
fn put_scalar(text: &mut Vec<u8>, p: &Point5) -> Result<(), StripStop>
    ensures ok { OnOk result (text.new.items ≡ text.old.items ++ row_text (scalars p.now)) }
    ensures fits { OnOk result (FitsRow (scalars p.now)) }
    ensures too_wide { IsErrOf result StripStop.TooWide → ¬ FitsRow (scalars p.now) }
    ensures few { result ≢ Err StripStop.TooMany }
{
    let scalar = written_scalar(p)?;
    put_one(text, &scalar)?;
    Ok(())
}

/// The rows of all points.
pub(crate) fn put_points<N: PointNumbers>(
    text: &mut Vec<u8>,
    places: &Places,
) -> Result<(), StripStop>
    ensures ok { OnOk result (text.new.items
        ≡ text.old.items ++ point_rows N.numbers false (points_in places.now)) }
    ensures fits { OnOk result (FitRows N.numbers (points_in places.now)) }
    ensures too_wide { IsErrOf result StripStop.TooWide
        → ¬ FitRows N.numbers (points_in places.now) }
    ensures few { result ≢ Err StripStop.TooMany }
{
    for rank in 0..places.len() {
        let point = places.get(rank);
        N::put(text, &point)?;
    }
    Ok(())
}
