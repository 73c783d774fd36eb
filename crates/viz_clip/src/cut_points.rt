//! The crossings of cut edges, by the values at their ends.
ghost use Rattle.std.specs.Prelude.{◌≡◌, ◌≢◌, ◌↔◌, ◌<◌, All, IfOk, IsOk, false, int_le, length, pos};
ghost use Rattle.std.specs.Prelude.{true};
ghost use Rattle.viz_fraction.specs.Crossings.{IsNarrowCrossing, crossing_of};
ghost use Rattle.viz_fraction.specs.Points.{IsNarrow};
ghost use Rattle.viz_sheet.specs.Arrays.{points_in};
ghost use Rattle.viz_cells.specs.Steps.Crossings.{IsNarrowEither, either_crossing};
ghost use Rattle.viz_clip.specs.Steps.Cuts.{IsCutAt, IsEndAt, IsNarrowCut, cut_point};

use crate::key_list::{high, low};
use crate::values::is_at_least_0;
use viz_fraction::{Point5, TooWide, crossing};
use viz_sheet::Places;

/// An end of an edge: its point, and the value of the form.
#[derive(Clone, Copy)]
pub(crate) struct End {
    pub point: Point5,
    pub above: i128,
}

/// The crossing of a key.
pub(crate) fn cut_point(places: &Places, values: &[i128], key: u64) -> Result<Point5, TooWide>
    requires cut { IsCutAt values.now (points_in places.now) key }
    requires narrow { All IsNarrow values.now }
    ensures value { IfOk result (λ p. p ≡ cut_point values.now (points_in places.now) key) }
    ensures succeeds { IsOk result ↔ IsNarrowCut values.now (points_in places.now) key }
{
    let low = end_at(places, values, low(key));
    let high = end_at(places, values, high(key));
    cross(&low, &high)
}

/// The end at a rank.
fn end_at(places: &Places, values: &[i128], rank: usize) -> End
    requires within { rank < length (points_in places.now) }
    requires valued { rank < length values.now }
    requires narrow { All IsNarrow values.now }
    ensures value { IsEndAt values.now (points_in places.now) rank result }
{
    let point = places.get(rank);
    let above = values[rank];
    End { point, above }
}

/// The crossing between two ends of which exactly one is inside.
fn cross(a: &End, b: &End) -> Result<Point5, TooWide>
    requires apart { int_le (pos 0) a.now.above ≢ int_le (pos 0) b.now.above }
    requires narrow_a { IsNarrow a.now.above }
    requires narrow_b { IsNarrow b.now.above }
    ensures value { IfOk result (λ p.
        p ≡ either_crossing a.now.above a.now.point b.now.above b.now.point) }
    ensures succeeds { IsOk result
        ↔ IsNarrowEither a.now.above a.now.point b.now.above b.now.point }
{
    if is_at_least_0(&a.above) {
        crossing_from(&a.above, &a.point, &b.above, &b.point)
    } else {
        crossing_from(&b.above, &b.point, &a.above, &a.point)
    }
}

/// The crossing between an inside and an outside end.
fn crossing_from(la: &i128, a: &Point5, lb: &i128, b: &Point5) -> Result<Point5, TooWide>
    requires inside { int_le (pos 0) la.now ≡ true }
    requires outside { int_le (pos 0) lb.now ≡ false }
    requires narrow_a { IsNarrow la.now }
    requires narrow_b { IsNarrow lb.now }
    ensures value { IfOk result (λ p. p ≡ crossing_of la.now a.now lb.now b.now) }
    ensures succeeds { IsOk result ↔ IsNarrowCrossing la.now a.now lb.now b.now }
{
    crossing(*la, a, *lb, b)
}
