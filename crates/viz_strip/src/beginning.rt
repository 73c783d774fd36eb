//! How a strip begins.

ghost use Rattle.std.specs.Prelude.{◌≡◌, ◌+◌, ◌*◌, ◌<◌, ◌≤◌, ◌^◌, [], ◌∷◌, true, OnOk, length};
ghost use Rattle.std.specs.Prelude.{slice_index_or};
ghost use Rattle.std.specs.List.{list_any};
ghost use Rattle.viz_strip.specs.Steps.Grown.{AreKept, IsReady};
ghost use Rattle.viz_strip.specs.Steps.Marks.{is_taken, left};
ghost use Rattle.viz_strip.specs.Steps.Sides.{HaveSides, before_of, from_of, to_of};
ghost use Rattle.viz_strip.specs.Strips.{IsStrip, begun, runs};

use crate::growth::grow;
use crate::links::Links;
use crate::meeting::first_free;
use crate::sides::{before, from_of, to_of};
use std::alloc::AllocError;

/// Makes a row of the strip that begins with a triangle, and marks the triangles that it takes.
pub(crate) fn strip_from(
    triangles: &[[u32; 3]],
    marks: &mut [bool],
    links: &mut Links,
    row: &mut Vec<u32>,
    index: u32,
) -> Result<(), AllocError>
    requires few { length triangles.now ≤ 2 ^ 30 }
    requires within { index < length triangles.now }
    requires sides { HaveSides (2 ^ 32) triangles.now }
    requires ready { IsReady triangles.now marks.old links.old.firsts.items links.old.nexts.items }
    requires taken { is_taken marks.old index ≡ true }
    ensures ready { OnOk result
        (IsReady triangles.now marks.new links.new.firsts.items links.new.nexts.items) }
    ensures value { OnOk result (IsStrip (slice_index_or triangles.now index [])
        (left marks.old triangles.now) row.new.items (left marks.new triangles.now)) }
    ensures kept { OnOk result (AreKept marks.old marks.new) }
{
    let side = last_side(triangles, marks, links, index);
    begin(triangles, row, side)?;
    grow(triangles, marks, links, row, side)?;
    Ok(())
}

/// Makes a row of the names of a triangle, whose last side this is to be.
fn begin(triangles: &[[u32; 3]], row: &mut Vec<u32>, side: u32) -> Result<(), AllocError>
    requires few { length triangles.now ≤ 2 ^ 30 }
    requires within { side < 3 * length triangles.now }
    ensures { OnOk result (row.new.items ≡ from_of triangles.now (before_of side)
        ∷ from_of triangles.now side ∷ to_of triangles.now side ∷ []) }
{
    row.clear();
    row.push(from_of(triangles, before(side)))?;
    row.push(from_of(triangles, side))?;
    row.push(to_of(triangles, side))?;
    Ok(())
}

/// The last side of a strip that begins with a triangle: that of the first of its rotations that
/// another triangle continues, and of the triangle as it is listed where there is none.
fn last_side(triangles: &[[u32; 3]], marks: &[bool], links: &mut Links, index: u32) -> u32
    requires few { length triangles.now ≤ 2 ^ 30 }
    requires within { index < length triangles.now }
    requires sides { HaveSides (2 ^ 32) triangles.now }
    requires ready { IsReady triangles.now marks.now links.old.firsts.items links.old.nexts.items }
    ensures ready { IsReady triangles.now marks.now links.new.firsts.items links.new.nexts.items }
    ensures within { result < 3 * length triangles.now }
    ensures value { begun (left marks.now triangles.now) (slice_index_or triangles.now index [])
        ≡ from_of triangles.now (before_of result) ∷ from_of triangles.now result
        ∷ to_of triangles.now result ∷ [] }
{
    let side = 3 * index;
    if is_met(triangles, marks, links, side + 1) {
        return side + 1;
    }
    if is_met(triangles, marks, links, side + 2) {
        return side + 2;
    }
    if is_met(triangles, marks, links, side) {
        return side;
    }
    side + 1
}

/// A triangle that isn't taken runs through a side the other way.
fn is_met(triangles: &[[u32; 3]], marks: &[bool], links: &mut Links, side: u32) -> bool
    requires few { length triangles.now ≤ 2 ^ 30 }
    requires within { side < 3 * length triangles.now }
    requires sides { HaveSides (2 ^ 32) triangles.now }
    requires ready { IsReady triangles.now marks.now links.old.firsts.items links.old.nexts.items }
    ensures ready { IsReady triangles.now marks.now links.new.firsts.items links.new.nexts.items }
    ensures value { result
        ≡ list_any (runs (to_of triangles.now side) (from_of triangles.now side))
        (left marks.now triangles.now) }
{
    first_free(triangles, marks, links, side).is_some()
}
