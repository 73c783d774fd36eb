//! The points of a contour, in half the room where their numbers fit 64 bits.

ghost use Rattle.std.specs.Prelude.{◌≡◌, map, All, IfSome, IfOk, OnOk, OnSome};
ghost use Rattle.viz_extent.specs.Extent.{count_of};
ghost use Rattle.viz_sheet.specs.Arrays.{points_in};
ghost use Rattle.viz_contour.specs.Steps.Named.{AreCutNames, AreNarrowNames, named_point};
ghost use Rattle.viz_contour.specs.Steps.Units.{AreUnits};

use crate::crossings::{first_end, point_of_name};
use crate::leaves::{Units, units_of};
use crate::small_ends::{first_small_end, short_point_of_name};
use std::alloc::{AllocError, Global};
use viz_dataset::Image;
use viz_fraction::{Point5, SmallPoint, small};
use viz_meaning::WorkStop;
use viz_sheet::Places;

/// The points of names, in their order: the crossing on the edge of each.
///
/// # Errors
///
/// `TooWide` exactly where a crossing is wide.
pub(crate) fn places(
    alloc: Global,
    level: &i64,
    image: &Image,
    names: &[[u32; 2]],
) -> Result<Places, WorkStop>
    requires cut { AreCutNames level.now image.now names.now }
    ensures value { IfOk result (λ p.
        points_in p ≡ map (named_point level.now image.now) names.now) }
    ensures ok { OnOk result (AreNarrowNames level.now image.now names.now) }
    ensures too_wide { result ≡ Err WorkStop.TooWide
        → AreNarrowNames level.now image.now names.now → ⊥ }
{
    let units = units_of(image);
    if let Some(points) = short_points(alloc, level, image, &units, names)? {
        return Ok(Places::Small(points));
    }
    if let Some(points) = small_points(alloc, level, image, &units, names)? {
        return Ok(Places::Small(points));
    }
    let points = wide_points(alloc, level, image, &units, names)?;
    Ok(Places::Wide(points))
}

/// The same of an image that has units, or none where an end of an edge isn't short.
fn short_points(
    alloc: Global,
    level: &i64,
    image: &Image,
    units: &Option<Units>,
    names: &[[u32; 2]],
) -> Result<Option<Vec<SmallPoint>>, AllocError>
    requires units { IfSome units.now (AreUnits image.now) }
    requires cut { AreCutNames level.now image.now names.now }
    ensures value { IfOk result (λ found. IfSome found (λ v.
        v.items ≡ map (named_point level.now image.now) names.now)) }
    ensures narrow { IfOk result (λ found.
        OnSome found (AreNarrowNames level.now image.now names.now)) }
{
    match units {
        Some(units) => short_points_by(alloc, level, image, units, names),
        None => Ok(None),
    }
}

/// The same by the units.
fn short_points_by(
    alloc: Global,
    level: &i64,
    image: &Image,
    units: &Units,
    names: &[[u32; 2]],
) -> Result<Option<Vec<SmallPoint>>, AllocError>
    requires units { AreUnits image.now units.now }
    requires cut { AreCutNames level.now image.now names.now }
    ensures value { IfOk result (λ found. IfSome found (λ v.
        v.items ≡ map (named_point level.now image.now) names.now)) }
    ensures narrow { IfOk result (λ found.
        OnSome found (AreNarrowNames level.now image.now names.now)) }
{
    let Some(mut low) = first_small_end(level, image, units) else {
        return Ok(None);
    };
    let mut points = Vec::with_capacity(alloc, names.len())?;
    for name in names {
        match short_point_of_name(level, image, units, &mut low, name) {
            Some(point) => points.push(point)?,
            None => return Ok(None),
        }
    }
    Ok(Some(points))
}

/// The same, or none where a number of one doesn't fit 64 bits.
fn small_points(
    alloc: Global,
    level: &i64,
    image: &Image,
    units: &Option<Units>,
    names: &[[u32; 2]],
) -> Result<Option<Vec<SmallPoint>>, WorkStop>
    requires units { IfSome units.now (AreUnits image.now) }
    requires cut { AreCutNames level.now image.now names.now }
    ensures value { IfOk result (λ found. IfSome found (λ v.
        v.items ≡ map (named_point level.now image.now) names.now)) }
    ensures ok { IfOk result (λ found.
        OnSome found (AreNarrowNames level.now image.now names.now)) }
    ensures too_wide { result ≡ Err WorkStop.TooWide
        → AreNarrowNames level.now image.now names.now → ⊥ }
{
    let mut points = Vec::with_capacity(alloc, names.len())?;
    let mut low = first_end(level, image, units);
    for name in names {
        let point = point_of_name(level, image, units, &mut low, name)?;
        match small(&point) {
            Some(point) => points.push(point)?,
            None => return Ok(None),
        }
    }
    Ok(Some(points))
}

/// The same, of any numbers.
fn wide_points(
    alloc: Global,
    level: &i64,
    image: &Image,
    units: &Option<Units>,
    names: &[[u32; 2]],
) -> Result<Vec<Point5>, WorkStop>
    requires units { IfSome units.now (AreUnits image.now) }
    requires cut { AreCutNames level.now image.now names.now }
    ensures value { IfOk result (λ v.
        v.items ≡ map (named_point level.now image.now) names.now) }
    ensures ok { OnOk result (AreNarrowNames level.now image.now names.now) }
    ensures too_wide { result ≡ Err WorkStop.TooWide
        → AreNarrowNames level.now image.now names.now → ⊥ }
{
    let mut points = Vec::with_capacity(alloc, names.len())?;
    let mut low = first_end(level, image, units);
    for name in names {
        points.push(point_of_name(level, image, units, &mut low, name)?)?;
    }
    Ok(points)
}
