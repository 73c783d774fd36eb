//! The points of a section: the crossing of each key.
ghost use Rattle.std.specs.Prelude.{◌≡◌, ◌≢◌, ◌↔◌, ◌<◌, All, IfOk, IfSome, IsOk, OnOk, false};
ghost use Rattle.std.specs.Prelude.{int_le, length, map, pos, true};
ghost use Rattle.viz_fraction.specs.Crossings.{IsNarrowCrossing, crossing_of};
ghost use Rattle.viz_fraction.specs.Forms.{IsNarrowValue};
ghost use Rattle.viz_fraction.specs.Points.{IsNarrow};
ghost use Rattle.viz_sheet.specs.Arrays.{points_in};
ghost use Rattle.viz_meaning.specs.Section.{zero_point};
ghost use Rattle.viz_cells.specs.Steps.Crossings.{IsCutKey, IsEnd, IsNarrowEither, IsNarrowKey};
ghost use Rattle.viz_cells.specs.Steps.Crossings.{either_crossing, key_crossing, point_at};

use crate::insides::is_at_least_0;
use crate::key::{high, low};
use std::alloc::Global;
use viz_fraction::{Form, Point5, SmallPoint, TooWide, crossing, small, value};
use viz_meaning::WorkStop;
use viz_sheet::Places;

/// The crossing of each key, in half the room where all fit.
///
/// # Errors
///
/// `TooWide` exactly where a crossing is wide.
pub fn crossings(
    alloc: Global,
    form: &Form,
    places: &Places,
    keys: &[u64],
) -> Result<Places, WorkStop>
    requires narrow { All (IsNarrowValue form.now) (points_in places.now) }
    requires cut { All (IsCutKey form.now (points_in places.now)) keys.now }
    ensures value { IfOk result (λ q.
        points_in q ≡ map (key_crossing form.now (points_in places.now)) keys.now) }
    ensures ok { OnOk result (All (IsNarrowKey form.now (points_in places.now)) keys.now) }
    ensures too_wide { result ≡ Err WorkStop.TooWide
        → All (IsNarrowKey form.now (points_in places.now)) keys.now → ⊥ }
{
    match small_crossings(alloc, form, places, keys)? {
        Some(points) => Ok(Places::Small(points)),
        None => Ok(Places::Wide(wide_crossings(alloc, form, places, keys)?)),
    }
}

/// The crossings, where the numbers of all fit 64 bits.
fn small_crossings(
    alloc: Global,
    form: &Form,
    places: &Places,
    keys: &[u64],
) -> Result<Option<Vec<SmallPoint>>, WorkStop>
    requires narrow { All (IsNarrowValue form.now) (points_in places.now) }
    requires cut { All (IsCutKey form.now (points_in places.now)) keys.now }
    ensures value { IfOk result (λ r. IfSome r (λ v.
        v.items ≡ map (key_crossing form.now (points_in places.now)) keys.now)) }
    ensures ok { IfOk result (λ r. IfSome r (λ v.
        All (IsNarrowKey form.now (points_in places.now)) keys.now)) }
    ensures too_wide { result ≡ Err WorkStop.TooWide
        → All (IsNarrowKey form.now (points_in places.now)) keys.now → ⊥ }
{
    let mut points = Vec::with_capacity(alloc, keys.len())?;
    for key in keys {
        match small(&crossing_at(form, places, *key)?) {
            Some(point) => points.push(point)?,
            None => return Ok(None),
        }
    }
    Ok(Some(points))
}

/// The crossings, of whatever width.
fn wide_crossings(
    alloc: Global,
    form: &Form,
    places: &Places,
    keys: &[u64],
) -> Result<Vec<Point5>, WorkStop>
    requires narrow { All (IsNarrowValue form.now) (points_in places.now) }
    requires cut { All (IsCutKey form.now (points_in places.now)) keys.now }
    ensures value { IfOk result (λ v.
        v.items ≡ map (key_crossing form.now (points_in places.now)) keys.now) }
    ensures ok { OnOk result (All (IsNarrowKey form.now (points_in places.now)) keys.now) }
    ensures too_wide { result ≡ Err WorkStop.TooWide
        → All (IsNarrowKey form.now (points_in places.now)) keys.now → ⊥ }
{
    let mut points = Vec::with_capacity(alloc, keys.len())?;
    for key in keys {
        points.push(crossing_at(form, places, *key)?)?;
    }
    Ok(points)
}

/// An end of an edge: its point, and the value of the form.
#[derive(Clone, Copy)]
struct End {
    point: Point5,
    above: i128,
}

/// The crossing of a key.
fn crossing_at(form: &Form, places: &Places, key: u64) -> Result<Point5, TooWide>
    requires narrow { All (IsNarrowValue form.now) (points_in places.now) }
    requires cut { IsCutKey form.now (points_in places.now) key }
    ensures value { IfOk result (λ p. p ≡ key_crossing form.now (points_in places.now) key) }
    ensures succeeds { IsOk result ↔ IsNarrowKey form.now (points_in places.now) key }
{
    let low = end_at(form, places, low(key))?;
    let high = end_at(form, places, high(key))?;
    cross(&low, &high)
}

/// The end at a rank.
fn end_at(form: &Form, places: &Places, rank: usize) -> Result<End, TooWide>
    requires within { rank < length (points_in places.now) }
    ensures value { IfOk result (λ e.
        IsEnd form.now (point_at (points_in places.now) rank) e) }
    ensures succeeds { IsOk result
        ↔ IsNarrowValue form.now (point_at (points_in places.now) rank) }
{
    let point = places.get(rank);
    let above = value(form, &point)?;
    Ok(End { point, above })
}

/// The crossing between two ends of which exactly one is inside.
fn cross(a: &End, b: &End) -> Result<Point5, TooWide>
    requires apart { int_le (pos 0) a.now.above ≢ int_le (pos 0) b.now.above }
    requires narrow_a { IsNarrow a.now.above }
    requires narrow_b { IsNarrow b.now.above }
    ensures value { IfOk result (λ p.
        p ≡ either_crossing a.now.above a.now.point b.now.above b.now.point) }
    ensures succeeds { IsOk result
        ↔ IsNarrowEither a.now.above a.now.point b.now.above b.now.point }
{
    if is_at_least_0(&a.above) {
        crossing_from(&a.above, &a.point, &b.above, &b.point)
    } else {
        crossing_from(&b.above, &b.point, &a.above, &a.point)
    }
}

/// The crossing between an inside and an outside end.
fn crossing_from(la: &i128, a: &Point5, lb: &i128, b: &Point5) -> Result<Point5, TooWide>
    requires inside { int_le (pos 0) la.now ≡ true }
    requires outside { int_le (pos 0) lb.now ≡ false }
    requires narrow_a { IsNarrow la.now }
    requires narrow_b { IsNarrow lb.now }
    ensures value { IfOk result (λ p. p ≡ crossing_of la.now a.now lb.now b.now) }
    ensures succeeds { IsOk result ↔ IsNarrowCrossing la.now a.now lb.now b.now }
{
    crossing(*la, a, *lb, b)
}
