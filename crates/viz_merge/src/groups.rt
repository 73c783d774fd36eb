//! The first point of each group.

ghost use Rattle.std.specs.Prelude.{◌≡◌, ◌+◌, ◌≤◌, ◌++◌, ◌∷◌, [], IfOk, IfSome, OnOk, drop};
ghost use Rattle.std.specs.Prelude.{length, take, true, if◌then◌else◌};
ghost use Rattle.viz_sheet.specs.Arrays.{points_in};
ghost use Rattle.viz_sheet.specs.Kept.{kept};
ghost use Rattle.viz_mesh_meaning.specs.Merge.{all_points};

use std::alloc::{AllocError, Global};
use viz_fraction::{Point5, SmallPoint, small};
use viz_sheet::{Places, Sheet};

/// The marked ones of all points, in half the room where all fit.
pub(crate) fn marked_points(
    alloc: Global,
    marks: &[bool],
    sheets: &[Sheet],
) -> Result<Places, AllocError>
    requires matched { length marks.now ≡ length (all_points sheets.now) }
    ensures value { IfOk result (λ p. points_in p ≡ kept marks.now (all_points sheets.now)) }
{
    match small_points(alloc, marks, sheets)? {
        Some(points) => Ok(Places::Small(points)),
        None => Ok(Places::Wide(wide_points(alloc, marks, sheets)?)),
    }
}

/// The same where the numbers of all fit 64 bits.
fn small_points(
    alloc: Global,
    marks: &[bool],
    sheets: &[Sheet],
) -> Result<Option<Vec<SmallPoint>>, AllocError>
    requires matched { length marks.now ≡ length (all_points sheets.now) }
    ensures value { IfOk result (λ r. IfSome r (λ v.
        v.items ≡ kept marks.now (all_points sheets.now))) }
{
    let mut points = Vec::new(alloc);
    let mut at = 0;
    for sheet in sheets {
        let places = sheet.places();
        if !push_small(&mut points, marks, at, places)? {
            return Ok(None);
        }
        let count = places.len();
        at += count;
    }
    Ok(Some(points))
}

/// Adds the marked points of a sheet whose first has an index; false where one doesn't fit.
fn push_small(
    points: &mut Vec<SmallPoint>,
    marks: &[bool],
    at: usize,
    places: &Places,
) -> Result<bool, AllocError>
    requires room { at + length (points_in places.now) ≤ length marks.now }
    ensures value { IfOk result (λ b. b ≡ true → points.new.items ≡ points.old.items
        ++ kept (take (length (points_in places.now)) (drop at marks.now)) (points_in places.now)) }
{
    for rank in 0..places.len() {
        if !push_if_small(points, marks[at + rank], &places.get(rank))? {
            return Ok(false);
        }
    }
    Ok(true)
}

/// Adds a point if it is marked; false where it doesn't fit.
fn push_if_small(
    points: &mut Vec<SmallPoint>,
    mark: bool,
    point: &Point5,
) -> Result<bool, AllocError>
    ensures { IfOk result (λ b. b ≡ true
        → points.new.items ≡ points.old.items ++ (if mark then point.now ∷ [] else [])) }
{
    if !mark {
        return Ok(true);
    }
    match small(point) {
        Some(half) => {
            points.push(half)?;
            Ok(true)
        }
        None => Ok(false),
    }
}

/// The same of whatever width.
fn wide_points(alloc: Global, marks: &[bool], sheets: &[Sheet]) -> Result<Vec<Point5>, AllocError>
    requires matched { length marks.now ≡ length (all_points sheets.now) }
    ensures value { IfOk result (λ v. v.items ≡ kept marks.now (all_points sheets.now)) }
{
    let mut points = Vec::new(alloc);
    let mut at = 0;
    for sheet in sheets {
        let places = sheet.places();
        push_wide(&mut points, marks, at, places)?;
        let count = places.len();
        at += count;
    }
    Ok(points)
}

/// Adds the marked points of a sheet whose first has an index.
fn push_wide(
    points: &mut Vec<Point5>,
    marks: &[bool],
    at: usize,
    places: &Places,
) -> Result<(), AllocError>
    requires room { at + length (points_in places.now) ≤ length marks.now }
    ensures value { OnOk result (points.new.items ≡ points.old.items
        ++ kept (take (length (points_in places.now)) (drop at marks.now)) (points_in places.now)) }
{
    for rank in 0..places.len() {
        push_if_wide(points, marks[at + rank], &places.get(rank))?;
    }
    Ok(())
}

/// Adds a point if it is marked.
fn push_if_wide(points: &mut Vec<Point5>, mark: bool, point: &Point5) -> Result<(), AllocError>
    ensures { OnOk result
        (points.new.items ≡ points.old.items ++ (if mark then point.now ∷ [] else [])) }
{
    if mark {
        points.push(*point)?;
    }
    Ok(())
}
