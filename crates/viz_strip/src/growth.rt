//! A strip takes triangles until none continues it.

ghost use Rattle.std.specs.Prelude.{◌≡◌, ℕ, ◌*◌, ◌/◌, ◌<◌, ◌≤◌, ◌^◌, true, false, IfOk, OnOk, IfSome, IfNone};
ghost use Rattle.std.specs.Prelude.{length, slice_set};
ghost use Rattle.viz_strip.specs.Steps.Grown.{AreKept, HasGrown, IsReady, Stops, Takes};
ghost use Rattle.viz_strip.specs.Steps.Links.{IsFree};
ghost use Rattle.viz_strip.specs.Steps.Marks.{left};
ghost use Rattle.viz_strip.specs.Steps.Sides.{HaveSides, from_of, to_of};

use crate::links::Links;
use crate::meeting::first_free;
use crate::sides::{before, behind, from_of};
use std::alloc::AllocError;

/// Puts the names behind a row that its strip of one triangle gains, whose last side this is, and
/// marks the triangles that it takes.
pub(crate) fn grow(
    triangles: &[[u32; 3]],
    marks: &mut [bool],
    links: &mut Links,
    row: &mut Vec<u32>,
    first: u32,
) -> Result<(), AllocError>
    requires few { length triangles.now ≤ 2 ^ 30 }
    requires within { first < 3 * length triangles.now }
    requires sides { HaveSides (2 ^ 32) triangles.now }
    requires ready { IsReady triangles.now marks.old links.old.firsts.items links.old.nexts.items }
    ensures ready { OnOk result
        (IsReady triangles.now marks.new links.new.firsts.items links.new.nexts.items) }
    ensures grown { OnOk result (HasGrown (from_of triangles.now first) (to_of triangles.now first)
        (left marks.old triangles.now) row.old.items row.new.items
        (left marks.new triangles.now)) }
    ensures kept { OnOk result (AreKept marks.old marks.new) }
{
    let mut side = first;
    let mut odd = true;
    while let Some(next) = take_next(triangles, marks, links, row, odd, side)? {
        side = next;
        odd = !odd;
    }
    Ok(())
}

/// Takes the first triangle that continues a strip, and gives the strip's last side then; none
/// where no triangle continues it. A last side runs to the last name where the strip has an odd
/// number of triangles, and from it where the number is even.
fn take_next(
    triangles: &[[u32; 3]],
    marks: &mut [bool],
    links: &mut Links,
    row: &mut Vec<u32>,
    odd: bool,
    side: u32,
) -> Result<Option<u32>, AllocError>
    requires few { length triangles.now ≤ 2 ^ 30 }
    requires within { side < 3 * length triangles.now }
    requires sides { HaveSides (2 ^ 32) triangles.now }
    requires ready { IsReady triangles.now marks.old links.old.firsts.items links.old.nexts.items }
    ensures ready { OnOk result
        (IsReady triangles.now marks.new links.new.firsts.items links.new.nexts.items) }
    ensures some { IfOk result (λ o. IfSome o (λ next. Takes triangles.now odd side
        marks.old marks.new row.old.items row.new.items next)) }
    ensures none { IfOk result (λ o. IfNone o (Stops triangles.now odd side
        marks.old marks.new row.old.items row.new.items)) }
    ensures kept { OnOk result (AreKept marks.old marks.new) }
{
    let Some(found) = first_free(triangles, marks, links, side) else {
        return Ok(None);
    };
    let next = take(triangles, marks, row, odd, side, found)?;
    Ok(Some(next))
}

/// Takes the triangle of a side that runs through a strip's last side the other way.
fn take(
    triangles: &[[u32; 3]],
    marks: &mut [bool],
    row: &mut Vec<u32>,
    odd: bool,
    _side: u32,
    found: u32,
) -> Result<u32, AllocError>
    requires few { length triangles.now ≤ 2 ^ 30 }
    requires sides { HaveSides (2 ^ 32) triangles.now }
    requires size { length marks.old ≡ length triangles.now }
    requires free { IsFree triangles.now marks.old
        (to_of triangles.now _side) (from_of triangles.now _side) found }
    ensures takes { IfOk result (λ next. Takes triangles.now odd _side
        marks.old marks.new row.old.items row.new.items next) }
    ensures marks { OnOk result (marks.new ≡ slice_set marks.old (found / 3) true) }
{
    marks[(found / 3) as usize] = true;
    let front = before(found);
    row.push(from_of(triangles, front))?;
    if odd { Ok(front) } else { Ok(behind(found)) }
}
