//! The first triangle that isn't taken and runs through a side the other way.

ghost use Rattle.std.specs.Prelude.{◌≡◌, ◌+◌, ◌*◌, ◌/◌, ◌<◌, ◌≤◌, ◌^◌, true, false, IfSome, IfNone};
ghost use Rattle.std.specs.Prelude.{length};
ghost use Rattle.viz_strip.specs.Steps.Links.{IsFree, IsMet, LeadBack, LeadOn, NoneIsFree};
ghost use Rattle.viz_strip.specs.Steps.Grown.{IsReady};
ghost use Rattle.viz_strip.specs.Steps.Marks.{is_taken};
ghost use Rattle.viz_strip.specs.Steps.Sides.{from_of, to_of};

use crate::links::Links;

/// The first side that runs through this one the other way, of a triangle that isn't taken.
pub(crate) fn first_free(
    triangles: &[[u32; 3]],
    marks: &[bool],
    links: &mut Links,
    side: u32,
) -> Option<u32>
    requires few { length triangles.now ≤ 2 ^ 30 }
    requires within { side < 3 * length triangles.now }
    requires ready { IsReady triangles.now marks.now links.old.firsts.items links.old.nexts.items }
    ensures some { IfSome result (λ q. IsFree triangles.now marks.now
        (to_of triangles.now side) (from_of triangles.now side) q) }
    ensures none { IfNone result (NoneIsFree triangles.now marks.now
        (to_of triangles.now side) (from_of triangles.now side)) }
    ensures ready { IsReady triangles.now marks.now links.new.firsts.items links.new.nexts.items }
{
    met(triangles, marks, &links.firsts, &mut links.nexts, side)
}

/// The same by the links themselves, which are shortened on the way: so no side of a taken triangle
/// is passed over again and again.
fn met(
    triangles: &[[u32; 3]],
    marks: &[bool],
    firsts: &[u32],
    nexts: &mut [u32],
    side: u32,
) -> Option<u32>
    requires few { length triangles.now ≤ 2 ^ 30 }
    requires within { side < 3 * length triangles.now }
    requires mark_size { length marks.now ≡ length triangles.now }
    requires first_size { length firsts.now ≡ 3 * length triangles.now }
    requires next_size { length nexts.old ≡ 3 * length triangles.now }
    requires firsts { LeadBack triangles.now marks.now firsts.now }
    requires nexts { LeadOn triangles.now marks.now nexts.old }
    ensures some { IfSome result (λ q. IsFree triangles.now marks.now
        (to_of triangles.now side) (from_of triangles.now side) q) }
    ensures none { IfNone result (NoneIsFree triangles.now marks.now
        (to_of triangles.now side) (from_of triangles.now side)) }
    ensures nexts { LeadOn triangles.now marks.now nexts.new }
{
    let mut at = firsts[side as usize];
    while is_taken(marks, at) {
        at = passed(triangles, marks, nexts, at);
    }
    found(triangles, marks, side, at)
}

/// The triangle of a side is taken.
fn is_taken(marks: &[bool], side: u32) -> bool
    ensures yes { result ≡ true → (side / 3 < length marks.now)
        × (is_taken marks.now (side / 3) ≡ true) }
    ensures no { result ≡ false → is_taken marks.now (side / 3) ≡ false }
{
    let at = (side / 3) as usize;
    at < marks.len() && marks[at]
}

/// The next side that runs as this one of a taken triangle. Where that is taken too, this one is
/// linked to the one behind it.
fn passed(triangles: &[[u32; 3]], marks: &[bool], nexts: &mut [u32], at: u32) -> u32
    requires within { at < 3 * length triangles.now }
    requires mark_size { length marks.now ≡ length triangles.now }
    requires next_size { length nexts.old ≡ 3 * length triangles.now }
    requires nexts { LeadOn triangles.now marks.now nexts.old }
    ensures value { IsMet triangles.now marks.now
        (from_of triangles.now at) (to_of triangles.now at) (at + 1) result }
    ensures nexts { LeadOn triangles.now marks.now nexts.new }
{
    let next = nexts[at as usize];
    if is_taken(marks, next) {
        nexts[at as usize] = nexts[next as usize];
    }
    next
}

/// A side, if there is one.
fn found(triangles: &[[u32; 3]], marks: &[bool], side: u32, at: u32) -> Option<u32>
    requires mark_size { length marks.now ≡ length triangles.now }
    requires met { IsMet triangles.now marks.now
        (to_of triangles.now side) (from_of triangles.now side) 0 at }
    requires free { is_taken marks.now (at / 3) ≡ false }
    ensures some { IfSome result (λ q. IsFree triangles.now marks.now
        (to_of triangles.now side) (from_of triangles.now side) q) }
    ensures none { IfNone result (NoneIsFree triangles.now marks.now
        (to_of triangles.now side) (from_of triangles.now side)) }
{
    if ((at / 3) as usize) < marks.len() {
        Some(at)
    } else {
        None
    }
}
