//! The points of vertices: those of inside corners, and then the crossings.
ghost use Rattle.std.specs.Prelude.{◌≡◌, ◌<◌, ◌++◌, All, IfOk, IfSome, OnOk, length, map, true};
ghost use Rattle.viz_fraction.specs.Points.{IsNarrow};
ghost use Rattle.viz_sheet.specs.Arrays.{points_in};
ghost use Rattle.viz_cells.specs.Steps.Crossings.{point_at};
ghost use Rattle.viz_clip.specs.Steps.Cuts.{IsCutAt, IsNarrowCut, cut_point, kept_points};

use crate::cut_points::cut_point;
use std::alloc::{AllocError, Global};
use viz_fraction::{Point5, SmallPoint, small};
use viz_meaning::WorkStop;
use viz_sheet::Places;

/// The points of corners and the crossings of keys, in half the room where all fit.
///
/// # Errors
///
/// `TooWide` exactly where a crossing is wide.
pub(crate) fn kept_points(
    alloc: Global,
    places: &Places,
    corners: &[u32],
    values: &[i128],
    keys: &[u64],
) -> Result<Places, WorkStop>
    requires below { All (λ r. r < length (points_in places.now)) corners.now }
    requires narrow { All IsNarrow values.now }
    requires cut { All (IsCutAt values.now (points_in places.now)) keys.now }
    ensures value { IfOk result (λ q. points_in q
        ≡ kept_points corners.now values.now keys.now (points_in places.now)) }
    ensures ok { OnOk result (All (IsNarrowCut values.now (points_in places.now)) keys.now) }
    ensures too_wide { result ≡ Err WorkStop.TooWide
        → All (IsNarrowCut values.now (points_in places.now)) keys.now → ⊥ }
{
    match small_points(alloc, places, corners, values, keys)? {
        Some(points) => Ok(Places::Small(points)),
        None => Ok(Places::Wide(wide_points(alloc, places, corners, values, keys)?)),
    }
}

/// The points, where the numbers of all fit 64 bits.
fn small_points(
    alloc: Global,
    places: &Places,
    corners: &[u32],
    values: &[i128],
    keys: &[u64],
) -> Result<Option<Vec<SmallPoint>>, WorkStop>
    requires below { All (λ r. r < length (points_in places.now)) corners.now }
    requires narrow { All IsNarrow values.now }
    requires cut { All (IsCutAt values.now (points_in places.now)) keys.now }
    ensures value { IfOk result (λ r. IfSome r (λ v. v.items
        ≡ kept_points corners.now values.now keys.now (points_in places.now))) }
    ensures ok { IfOk result (λ r. IfSome r (λ v.
        All (IsNarrowCut values.now (points_in places.now)) keys.now)) }
    ensures too_wide { result ≡ Err WorkStop.TooWide
        → All (IsNarrowCut values.now (points_in places.now)) keys.now → ⊥ }
{
    let mut points = Vec::with_capacity(alloc, corners.len().saturating_add(keys.len()))?;
    if !push_small_corners(&mut points, places, corners)? {
        return Ok(None);
    }
    if !push_small_cuts(&mut points, places, values, keys)? {
        return Ok(None);
    }
    Ok(Some(points))
}

/// Adds the points of corners, as long as their numbers fit 64 bits.
fn push_small_corners(
    points: &mut Vec<SmallPoint>,
    places: &Places,
    corners: &[u32],
) -> Result<bool, AllocError>
    requires { All (λ r. r < length (points_in places.now)) corners.now }
    ensures { IfOk result (λ all. all ≡ true → points.new.items
        ≡ points.old.items ++ map (point_at (points_in places.now)) corners.now) }
{
    for rank in corners {
        match small(&corner_point(places, *rank)) {
            Some(point) => points.push(point)?,
            None => return Ok(false),
        }
    }
    Ok(true)
}

/// Adds the crossings, as long as their numbers fit 64 bits.
fn push_small_cuts(
    points: &mut Vec<SmallPoint>,
    places: &Places,
    values: &[i128],
    keys: &[u64],
) -> Result<bool, WorkStop>
    requires narrow { All IsNarrow values.now }
    requires cut { All (IsCutAt values.now (points_in places.now)) keys.now }
    ensures value { IfOk result (λ all. all ≡ true → points.new.items
        ≡ points.old.items ++ map (cut_point values.now (points_in places.now)) keys.now) }
    ensures ok { IfOk result (λ all. all ≡ true
        → All (IsNarrowCut values.now (points_in places.now)) keys.now) }
    ensures too_wide { result ≡ Err WorkStop.TooWide
        → All (IsNarrowCut values.now (points_in places.now)) keys.now → ⊥ }
{
    for key in keys {
        match small(&cut_point(places, values, *key)?) {
            Some(point) => points.push(point)?,
            None => return Ok(false),
        }
    }
    Ok(true)
}

/// The points, of whatever width.
fn wide_points(
    alloc: Global,
    places: &Places,
    corners: &[u32],
    values: &[i128],
    keys: &[u64],
) -> Result<Vec<Point5>, WorkStop>
    requires below { All (λ r. r < length (points_in places.now)) corners.now }
    requires narrow { All IsNarrow values.now }
    requires cut { All (IsCutAt values.now (points_in places.now)) keys.now }
    ensures value { IfOk result (λ v. v.items
        ≡ kept_points corners.now values.now keys.now (points_in places.now)) }
    ensures ok { OnOk result (All (IsNarrowCut values.now (points_in places.now)) keys.now) }
    ensures too_wide { result ≡ Err WorkStop.TooWide
        → All (IsNarrowCut values.now (points_in places.now)) keys.now → ⊥ }
{
    let mut points = Vec::with_capacity(alloc, corners.len().saturating_add(keys.len()))?;
    push_corners(&mut points, places, corners)?;
    push_cuts(&mut points, places, values, keys)?;
    Ok(points)
}

/// Adds the points of corners.
fn push_corners(
    points: &mut Vec<Point5>,
    places: &Places,
    corners: &[u32],
) -> Result<(), AllocError>
    requires { All (λ r. r < length (points_in places.now)) corners.now }
    ensures { OnOk result (points.new.items
        ≡ points.old.items ++ map (point_at (points_in places.now)) corners.now) }
{
    for rank in corners {
        points.push(corner_point(places, *rank))?;
    }
    Ok(())
}

/// Adds the crossings.
fn push_cuts(
    points: &mut Vec<Point5>,
    places: &Places,
    values: &[i128],
    keys: &[u64],
) -> Result<(), WorkStop>
    requires narrow { All IsNarrow values.now }
    requires cut { All (IsCutAt values.now (points_in places.now)) keys.now }
    ensures value { OnOk result (points.new.items
        ≡ points.old.items ++ map (cut_point values.now (points_in places.now)) keys.now) }
    ensures ok { OnOk result (All (IsNarrowCut values.now (points_in places.now)) keys.now) }
    ensures too_wide { result ≡ Err WorkStop.TooWide
        → All (IsNarrowCut values.now (points_in places.now)) keys.now → ⊥ }
{
    for key in keys {
        points.push(cut_point(places, values, *key)?)?;
    }
    Ok(())
}

/// The point of a corner.
fn corner_point(places: &Places, rank: u32) -> Point5
    requires { rank < length (points_in places.now) }
    ensures { result ≡ point_at (points_in places.now) rank }
{
    places.get(rank as usize)
}
