//! The sides of triangles: side k of triangle i has the number 3 i + k, and runs from corner k to
//! the next one.

ghost use Rattle.std.specs.Prelude.{◌≡◌, ◌*◌, ◌<◌, ◌≤◌, ◌^◌, length};
ghost use Rattle.viz_strip.specs.Steps.Sides.{back_of, before_of, behind_of, from_of, low_of};
ghost use Rattle.viz_strip.specs.Steps.Sides.{slot_of, to_of};

/// The name that a side runs from.
#[inline(always)]
pub(crate) fn from_of(triangles: &[[u32; 3]], side: u32) -> u32
    requires few { length triangles.now ≤ 2 ^ 30 }
    requires within { side < 3 * length triangles.now }
    ensures value { result ≡ from_of triangles.now side }
{
    let triangle = triangles[(side / 3) as usize];
    triangle[(side % 3) as usize]
}

/// The name that a side runs to.
#[inline(always)]
pub(crate) fn to_of(triangles: &[[u32; 3]], side: u32) -> u32
    requires few { length triangles.now ≤ 2 ^ 30 }
    requires within { side < 3 * length triangles.now }
    ensures value { result ≡ to_of triangles.now side }
{
    let triangle = triangles[(side / 3) as usize];
    triangle[((side + 1) % 3) as usize]
}

/// The side of the same triangle that runs from where this one runs to.
#[inline(always)]
pub(crate) fn behind(side: u32) -> u32
    requires few { side < 3 * 2 ^ 30 }
    ensures value { result ≡ behind_of side }
{
    side - side % 3 + (side + 1) % 3
}

/// The side of the same triangle that runs to where this one runs from.
#[inline(always)]
pub(crate) fn before(side: u32) -> u32
    requires few { side < 3 * 2 ^ 30 }
    ensures value { result ≡ before_of side }
{
    side - side % 3 + (side + 2) % 3
}

/// The lesser name of a side.
#[inline(always)]
#[tactic(auto, unfolding(crate::specs::Steps::Sides::low_of))]
pub(crate) fn low_of(triangles: &[[u32; 3]], side: u32) -> u32
    requires few { length triangles.now ≤ 2 ^ 30 }
    requires within { side < 3 * length triangles.now }
    ensures value { result ≡ low_of triangles.now side }
    ensures most { result ≤ from_of triangles.now side }
{
    from_of(triangles, side).min(to_of(triangles, side))
}

/// The greater name of a side, and whether it runs to it.
#[inline(always)]
#[tactic(auto, unfolding(crate::specs::Steps::Sides::slot_of))]
pub(crate) fn slot_of(triangles: &[[u32; 3]], side: u32) -> usize
    requires few { length triangles.now ≤ 2 ^ 30 }
    requires within { side < 3 * length triangles.now }
    ensures value { result ≡ slot_of triangles.now side }
{
    let (from, to) = (from_of(triangles, side), to_of(triangles, side));
    if from < to {
        2 * to as usize + 1
    } else {
        2 * from as usize
    }
}

/// The same of the side run through the other way.
#[inline(always)]
#[tactic(auto, unfolding(crate::specs::Steps::Sides::back_of))]
pub(crate) fn back_of(triangles: &[[u32; 3]], side: u32) -> usize
    requires few { length triangles.now ≤ 2 ^ 30 }
    requires within { side < 3 * length triangles.now }
    ensures value { result ≡ back_of triangles.now side }
{
    let (from, to) = (from_of(triangles, side), to_of(triangles, side));
    if from < to {
        2 * to as usize
    } else {
        2 * from as usize + 1
    }
}
