//! The crossing on the edge of a name.

ghost use Rattle.std.specs.Prelude.{◌≡◌, ◌≢◌, ◌^◌, ◌<◌, ◌≤◌, pos, ◌-ℤ◌, ◌*ℤ◌, ◌↔◌, IfSome, IfOk};
ghost use Rattle.std.specs.Prelude.{IsOk, true, false, int_le, unsigned_abs};
ghost use Rattle.viz_extent.specs.Extent.{count_of};
ghost use Rattle.viz_fraction.specs.Points.{IsNarrow};
ghost use Rattle.viz_fraction.specs.Forms.{contour_form, value_of};
ghost use Rattle.viz_fraction.specs.Crossings.{crossing_of, IsNarrowCrossing};
ghost use Rattle.viz_grid_section.specs.ImageSection.{insides, edge_point, IsCutEdge, IsNarrowAt};
ghost use Rattle.viz_contour.specs.Steps.Ends.{IsEnd, IsNarrowEither, either_crossing};
ghost use Rattle.viz_contour.specs.Steps.Named.{edge_named};
ghost use Rattle.viz_contour.specs.Steps.Units.{AreUnits};

use crate::leaves::{Units, leaf_point};
use viz_dataset::Image;
use viz_fraction::{Point5, TooWide, crossing, is_inside};

/// An end of an edge: its leaf, the point there, and the value of the contour's form.
#[derive(Clone, Copy)]
pub(crate) struct End {
    leaf: u32,
    point: Point5,
    above: i128,
}

/// The crossing on the edge of a name, which is both its leaves. Names that ascend have the same
/// lower end in turn, so that it is kept from one to the next.
pub(crate) fn point_of_name(
    level: &i64,
    image: &Image,
    units: &Option<Units>,
    low: &mut End,
    name: &[u32; 2],
) -> Result<Point5, TooWide>
    requires units { IfSome units.now (AreUnits image.now) }
    requires low { IsEnd level.now image.now low.old }
    requires cut { IsCutEdge (count_of image.now.extent)
        (insides level.now image.now.values.items) (edge_named name.now) }
    ensures low { IsEnd level.now image.now low.new }
    ensures value { IfOk result (λ p.
        p ≡ edge_point level.now image.now (edge_named name.now)) }
    ensures succeeds { IsOk result ↔ IsNarrowAt level.now image.now (edge_named name.now) }
{
    let _extent = image.extent();
    let [lower, upper] = *name;
    move_to(low, level, image, units, lower);
    let high = end_at(level, image, units, upper);
    cross(low, &high)
}

/// The end at another leaf, where it isn't there yet.
#[inline(always)]
fn move_to(end: &mut End, level: &i64, image: &Image, units: &Option<Units>, leaf: u32)
    requires units { IfSome units.now (AreUnits image.now) }
    requires end { IsEnd level.now image.now end.old }
    requires within { leaf < count_of image.now.extent }
    ensures end { IsEnd level.now image.now end.new }
    ensures leaf { end.new.leaf ≡ leaf }
{
    if end.leaf != leaf {
        *end = end_at(level, image, units, leaf);
    }
}

/// The end at the first leaf.
pub(crate) fn first_end(level: &i64, image: &Image, units: &Option<Units>) -> End
    requires units { IfSome units.now (AreUnits image.now) }
    ensures end { IsEnd level.now image.now result }
{
    let _extent = image.extent();
    end_at(level, image, units, 0)
}

/// The end at a leaf.
#[inline(always)]
fn end_at(level: &i64, image: &Image, units: &Option<Units>, leaf: u32) -> End
    requires units { IfSome units.now (AreUnits image.now) }
    requires within { leaf < count_of image.now.extent }
    ensures end { IsEnd level.now image.now result }
    ensures leaf { result.leaf ≡ leaf }
{
    let point = leaf_point(image, units, leaf);
    End {
        leaf,
        point,
        above: value_at(level, &point),
    }
}

/// The value of a contour's form at a point.
fn value_at(level: &i64, point: &Point5) -> i128
    requires scalar { unsigned_abs point.now.s ≤ 2 ^ 96 }
    requires weight { unsigned_abs point.now.w ≤ 2 ^ 32 }
    ensures value { result ≡ value_of (contour_form level.now) point.now }
    ensures narrow { IsNarrow result }
{
    above(&point.s(), &weighted(level, &point.w()))
}

/// A level times a weight.
fn weighted(level: &i64, weight: &i128) -> i128
    requires { unsigned_abs weight.now ≤ 2 ^ 32 }
    ensures value { result ≡ level.now *ℤ weight.now }
    ensures small { unsigned_abs result ≤ 2 ^ 96 }
{
    i128::from(*level) * *weight
}

/// How far a scalar is above a level, with the same weight.
fn above(scalar: &i128, level: &i128) -> i128
    requires scalar { unsigned_abs scalar.now ≤ 2 ^ 96 }
    requires level { unsigned_abs level.now ≤ 2 ^ 96 }
    ensures value { result ≡ scalar.now -ℤ level.now }
    ensures narrow { IsNarrow result }
{
    *scalar - *level
}

/// The crossing between two ends of which exactly one is inside.
fn cross(a: &End, b: &End) -> Result<Point5, TooWide>
    requires apart { int_le (pos 0) a.now.above ≢ int_le (pos 0) b.now.above }
    requires narrow_a { IsNarrow a.now.above }
    requires narrow_b { IsNarrow b.now.above }
    ensures value { IfOk result (λ p.
        p ≡ either_crossing a.now.above a.now.point b.now.above b.now.point) }
    ensures succeeds { IsOk result
        ↔ IsNarrowEither a.now.above a.now.point b.now.above b.now.point }
{
    if is_at_least_0(&a.above) {
        crossing_from(&a.above, &a.point, &b.above, &b.point)
    } else {
        crossing_from(&b.above, &b.point, &a.above, &a.point)
    }
}

/// A value at an inside end.
fn is_at_least_0(value: &i128) -> bool
    ensures { result ≡ int_le (pos 0) value.now }
{
    is_inside(*value)
}

/// The crossing between an inside and an outside end.
fn crossing_from(la: &i128, a: &Point5, lb: &i128, b: &Point5) -> Result<Point5, TooWide>
    requires inside { int_le (pos 0) la.now ≡ true }
    requires outside { int_le (pos 0) lb.now ≡ false }
    requires narrow_a { IsNarrow la.now }
    requires narrow_b { IsNarrow lb.now }
    ensures value { IfOk result (λ p. p ≡ crossing_of la.now a.now lb.now b.now) }
    ensures succeeds { IsOk result ↔ IsNarrowCrossing la.now a.now lb.now b.now }
{
    crossing(*la, a, *lb, b)
}
