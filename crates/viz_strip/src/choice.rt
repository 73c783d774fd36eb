//! The strips of triangles by ranks.

ghost use Rattle.std.specs.Prelude.{◌≡◌, ◌+◌, ◌*◌, ◌<◌, ◌≤◌, ◌^◌, [], All, false, IfOk, OnOk, length};
ghost use Rattle.std.specs.Prelude.{replicate};
ghost use Rattle.viz_strip.specs.Steps.Grown.{AreTaken, HaveMade, IsReady};
ghost use Rattle.viz_strip.specs.Steps.Marks.{left};
ghost use Rattle.viz_strip.specs.Steps.Sides.{HaveSides};
ghost use Rattle.viz_strip.specs.Strips.{AreStrips, IsTriangle};

use crate::beginning::strip_from;
use crate::links::{Links, make_links};
use crate::rows::Rows;
use std::alloc::{AllocError, Global};

/// The strips of triangles whose names are ranks below a number, each a row of ranks.
///
/// Of more than 2^30 triangles, or 2^32 points, it answers as for want of memory.
pub fn ranked_strips(
    alloc: Global,
    points: usize,
    triangles: &[[u32; 3]],
) -> Result<Rows, AllocError>
    requires triangles { All IsTriangle triangles.now }
    requires below { All (λ t. All (λ r. r < points) t) triangles.now }
    ensures value { IfOk result (λ rows. AreStrips triangles.now rows) }
{
    if triangles.len() > 1 << 30 || points > 1 << 32 {
        return Err(AllocError);
    }
    let rows = chosen(alloc, points, triangles)?;
    Ok(rows)
}

/// The same of few triangles, whose sides run between different ranks.
fn chosen(alloc: Global, points: usize, triangles: &[[u32; 3]]) -> Result<Rows, AllocError>
    requires few { length triangles.now ≤ 2 ^ 30 }
    requires points { points ≤ 2 ^ 32 }
    requires sides { HaveSides points triangles.now }
    ensures value { IfOk result (λ rows. AreStrips triangles.now rows) }
{
    let mut links = make_links(alloc, points, triangles)?;
    let mut marks = no_marks(alloc, triangles)?;
    let mut rows = Rows::with_room(alloc, triangles.len() + triangles.len() / 2)?;
    choose_all(alloc, triangles, &mut marks, &mut links, &mut rows)?;
    Ok(rows)
}

/// No triangle is taken.
fn no_marks(alloc: Global, triangles: &[[u32; 3]]) -> Result<Vec<bool>, AllocError>
    ensures value { IfOk result (λ m. m.items ≡ replicate (length triangles.now) false) }
{
    vec![in alloc; false; triangles.len()]
}

/// Makes the strips of the triangles that aren't taken.
fn choose_all(
    alloc: Global,
    triangles: &[[u32; 3]],
    marks: &mut [bool],
    links: &mut Links,
    rows: &mut Rows,
) -> Result<(), AllocError>
    requires few { length triangles.now ≤ 2 ^ 30 }
    requires sides { HaveSides (2 ^ 32) triangles.now }
    requires ready { IsReady triangles.now marks.old links.old.firsts.items links.old.nexts.items }
    ensures made { OnOk result
        (HaveMade (left marks.old triangles.now) [] rows.old rows.new) }
{
    let mut row = Vec::new(alloc);
    for index in 0..triangles.len() {
        choose(triangles, marks, links, &mut row, rows, index as u32)?;
    }
    Ok(())
}

/// Makes the strip that begins with a triangle, unless that is taken.
fn choose(
    triangles: &[[u32; 3]],
    marks: &mut [bool],
    links: &mut Links,
    row: &mut Vec<u32>,
    rows: &mut Rows,
    index: u32,
) -> Result<(), AllocError>
    requires few { length triangles.now ≤ 2 ^ 30 }
    requires within { index < length triangles.now }
    requires sides { HaveSides (2 ^ 32) triangles.now }
    requires ready { IsReady triangles.now marks.old links.old.firsts.items links.old.nexts.items }
    requires taken { AreTaken marks.old index }
    ensures ready { OnOk result
        (IsReady triangles.now marks.new links.new.firsts.items links.new.nexts.items) }
    ensures taken { OnOk result (AreTaken marks.new (index + 1)) }
    ensures made { OnOk result (HaveMade (left marks.old triangles.now)
        (left marks.new triangles.now) rows.old rows.new) }
{
    if marks[index as usize] {
        return Ok(());
    }
    marks[index as usize] = true;
    strip_from(triangles, marks, links, row, index)?;
    rows.push(row)?;
    Ok(())
}
