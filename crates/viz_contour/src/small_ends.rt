//! The crossing on the edge of a name, in 64 bits throughout, where an image has units.

ghost use Rattle.std.specs.Prelude.{◌≡◌, ◌≢◌, ◌<◌, pos, ◌-ℤ◌, IfSome, OnSome};
ghost use Rattle.std.specs.Prelude.{true, false, int_le};
ghost use Rattle.viz_extent.specs.Extent.{count_of};
ghost use Rattle.viz_fraction.specs.Crossings.{crossing_of, IsNarrowCrossing};
ghost use Rattle.viz_grid_section.specs.ImageSection.{insides, edge_point, IsCutEdge, IsNarrowAt};
ghost use Rattle.viz_contour.specs.Steps.Ends.{IsSmallEnd, IsNarrowEither, either_crossing};
ghost use Rattle.viz_contour.specs.Steps.Named.{edge_named};
ghost use Rattle.viz_contour.specs.Steps.Units.{AreUnits};

use crate::leaves::{Units, small_leaf_point, word_at};
use viz_dataset::Image;
use viz_fraction::{SmallPoint, small_crossing};

/// An end of an edge: its leaf, the point there, and the value of the contour's form.
#[derive(Clone, Copy)]
pub(crate) struct SmallEnd {
    leaf: u32,
    point: SmallPoint,
    above: i64,
}

/// The crossing on the edge of a name where both its ends are short, and none elsewhere. The lower
/// end is kept from one name to the next, as by `point_of_name`.
#[inline(always)]
pub(crate) fn short_point_of_name(
    level: &i64,
    image: &Image,
    units: &Units,
    low: &mut SmallEnd,
    name: &[u32; 2],
) -> Option<SmallPoint>
    requires units { AreUnits image.now units.now }
    requires low { IsSmallEnd level.now image.now low.old }
    requires cut { IsCutEdge (count_of image.now.extent)
        (insides level.now image.now.values.items) (edge_named name.now) }
    ensures low { IsSmallEnd level.now image.now low.new }
    ensures value { IfSome result (λ p.
        p ≡ edge_point level.now image.now (edge_named name.now)) }
    ensures narrow { OnSome result (IsNarrowAt level.now image.now (edge_named name.now)) }
{
    let _extent = image.extent();
    let [lower, upper] = *name;
    move_to(low, level, image, units, lower)?;
    let high = end_at(level, image, units, upper)?;
    cross(low, &high)
}

/// The end at another leaf, where it isn't there yet; none where it has a number of more bits.
#[inline(always)]
fn move_to(end: &mut SmallEnd, level: &i64, image: &Image, units: &Units, leaf: u32) -> Option<()>
    requires units { AreUnits image.now units.now }
    requires end { IsSmallEnd level.now image.now end.old }
    requires within { leaf < count_of image.now.extent }
    ensures end { IsSmallEnd level.now image.now end.new }
    ensures leaf { OnSome result (end.new.leaf ≡ leaf) }
{
    if end.leaf != leaf {
        *end = end_at(level, image, units, leaf)?;
    }
    Some(())
}

/// The end at the first leaf, where its numbers fit 64 bits.
pub(crate) fn first_small_end(level: &i64, image: &Image, units: &Units) -> Option<SmallEnd>
    requires units { AreUnits image.now units.now }
    ensures end { IfSome result (λ e. IsSmallEnd level.now image.now e) }
{
    let _extent = image.extent();
    end_at(level, image, units, 0)
}

/// The end at a leaf, where its numbers fit 64 bits.
#[inline(always)]
fn end_at(level: &i64, image: &Image, units: &Units, leaf: u32) -> Option<SmallEnd>
    requires units { AreUnits image.now units.now }
    requires within { leaf < count_of image.now.extent }
    ensures end { IfSome result (λ e. IsSmallEnd level.now image.now e) }
    ensures leaf { IfSome result (λ e. e.leaf ≡ leaf) }
{
    let scalar = word_at(image, leaf)?;
    let above = above(&scalar, level)?;
    let point = small_leaf_point(image, units, leaf, &scalar);
    Some(SmallEnd { leaf, point, above })
}

/// How far a scalar is above a level.
fn above(scalar: &i64, level: &i64) -> Option<i64>
    ensures { IfSome result (λ n. n ≡ scalar.now -ℤ level.now) }
{
    scalar.checked_sub(*level)
}

/// The crossing between two ends of which exactly one is inside, where both are short.
#[inline(always)]
fn cross(a: &SmallEnd, b: &SmallEnd) -> Option<SmallPoint>
    requires apart { int_le (pos 0) a.now.above ≢ int_le (pos 0) b.now.above }
    ensures value { IfSome result (λ p.
        p ≡ either_crossing a.now.above a.now.point b.now.above b.now.point) }
    ensures narrow { OnSome result
        (IsNarrowEither a.now.above a.now.point b.now.above b.now.point) }
{
    if is_at_least_0(&a.above) {
        crossing_from(&a.above, &a.point, &b.above, &b.point)
    } else {
        crossing_from(&b.above, &b.point, &a.above, &a.point)
    }
}

/// A value at an inside end.
#[inline(always)]
fn is_at_least_0(value: &i64) -> bool
    ensures { result ≡ int_le (pos 0) value.now }
{
    *value >= 0
}

/// The crossing between an inside and an outside end, where both are short.
fn crossing_from(la: &i64, a: &SmallPoint, lb: &i64, b: &SmallPoint) -> Option<SmallPoint>
    requires inside { int_le (pos 0) la.now ≡ true }
    requires outside { int_le (pos 0) lb.now ≡ false }
    ensures value { IfSome result (λ p. p ≡ crossing_of la.now a.now lb.now b.now) }
    ensures narrow { OnSome result (IsNarrowCrossing la.now a.now lb.now b.now) }
{
    small_crossing(*la, a, *lb, b)
}
