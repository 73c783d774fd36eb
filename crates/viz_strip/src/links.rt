//! Links between sides: from a side to the first one that runs through it the other way, and to the
//! next one that runs as it does.

ghost use Rattle.std.specs.Prelude.{◌≡◌, ℕ, ◌+◌, ◌*◌, ◌-◌, ◌<◌, ◌≤◌, ◌^◌, [], IfOk, length, slice_index};
ghost use Rattle.viz_strip.specs.Steps.Links.{AreChained, HaveFirsts, HaveNexts, IsLast, IsSeen};
ghost use Rattle.viz_strip.specs.Steps.Links.{LeadBack, LeadOn};
ghost use Rattle.viz_strip.specs.Steps.Sides.{HaveSides, HaveSlots, low_of};

use crate::chains::make_chains;
use crate::sides::{back_of, low_of, slot_of};
use std::alloc::{AllocError, Global};

/// What stands where there is no side.
pub(crate) const NONE: u32 = u32::MAX;

/// The links of all sides.
#[derive(Drop)]
pub(crate) struct Links {
    pub(crate) firsts: Vec<u32>,
    pub(crate) nexts: Vec<u32>,
}

/// The links of the sides of triangles, whose names are below a number.
pub(crate) fn make_links(
    alloc: Global,
    points: usize,
    triangles: &[[u32; 3]],
) -> Result<Links, AllocError>
    requires few { length triangles.now ≤ 2 ^ 30 }
    requires points { points ≤ 2 ^ 32 }
    requires sides { HaveSides points triangles.now }
    ensures firsts { IfOk result (λ l. LeadBack triangles.now [] l.firsts.items) }
    ensures nexts { IfOk result (λ l. LeadOn triangles.now [] l.nexts.items) }
    ensures first_size { IfOk result (λ l. length l.firsts.items ≡ 3 * length triangles.now) }
    ensures next_size { IfOk result (λ l. length l.nexts.items ≡ 3 * length triangles.now) }
{
    let chains = make_chains(alloc, points, triangles)?;
    let count = 3 * triangles.len();
    let mut seen = vec![in alloc; NONE; 2 * points]?;
    let mut firsts = vec![in alloc; NONE; count]?;
    let mut nexts = vec![in alloc; NONE; count]?;
    link_all(
        triangles,
        &chains.lasts,
        &chains.befores,
        &mut seen,
        &mut firsts,
        &mut nexts,
    );
    Ok(Links { firsts, nexts })
}

/// Links all sides, one lesser name after the other.
fn link_all(
    triangles: &[[u32; 3]],
    lasts: &[u32],
    befores: &[u32],
    seen: &mut [u32],
    firsts: &mut [u32],
    nexts: &mut [u32],
)
    requires few { length triangles.now ≤ 2 ^ 30 }
    requires points { length lasts.now ≤ 2 ^ 32 }
    requires sides { HaveSides (length lasts.now) triangles.now }
    requires slots { HaveSlots triangles.now (length seen.old) }
    requires chained { AreChained triangles.now (3 * length triangles.now) lasts.now befores.now }
    requires before_size { length befores.now ≡ 3 * length triangles.now }
    requires seen_size { length seen.old ≡ 2 * length lasts.now }
    requires first_size { length firsts.old ≡ 3 * length triangles.now }
    requires next_size { length nexts.old ≡ 3 * length triangles.now }
    requires seen { IsSeen triangles.now 0 (3 * length triangles.now) seen.old }
    ensures firsts { HaveFirsts triangles.now (length lasts.now) (3 * length triangles.now)
        firsts.new }
    ensures nexts { HaveNexts triangles.now (length lasts.now) (3 * length triangles.now)
        nexts.new }
{
    for low in 0..lasts.len() {
        let last = lasts[low];
        link_nexts(triangles, befores, low as u32, last, seen, nexts);
        link_firsts(triangles, befores, low as u32, last, seen, firsts);
    }
}

/// Links the sides of a lesser name to the next ones, from the last side to the first.
fn link_nexts(
    triangles: &[[u32; 3]],
    befores: &[u32],
    low: u32,
    last: u32,
    seen: &mut [u32],
    nexts: &mut [u32],
)
    requires few { length triangles.now ≤ 2 ^ 30 }
    requires chained { (r : ℕ) → r < 3 * length triangles.now
        → IsLast triangles.now (low_of triangles.now r) r (slice_index befores.now r) }
    requires last { IsLast triangles.now low (3 * length triangles.now) last }
    requires before_size { length befores.now ≡ 3 * length triangles.now }
    requires points { HaveSlots triangles.now (length seen.old) }
    requires next_size { length nexts.old ≡ 3 * length triangles.now }
    requires seen { IsSeen triangles.now low (3 * length triangles.now) seen.old }
    requires nexts { HaveNexts triangles.now low (3 * length triangles.now) nexts.old }
    ensures seen { IsSeen triangles.now low 0 seen.new }
    ensures nexts { HaveNexts triangles.now low 0 nexts.new }
{
    let mut at = last;
    while at != 0 {
        link_next(triangles, low, at - 1, seen, nexts);
        at = befores[(at - 1) as usize];
    }
}

/// Links a side to the next one.
fn link_next(triangles: &[[u32; 3]], low: u32, side: u32, seen: &mut [u32], nexts: &mut [u32])
    requires few { length triangles.now ≤ 2 ^ 30 }
    requires within { side < 3 * length triangles.now }
    requires low { low_of triangles.now side ≡ low }
    requires points { HaveSlots triangles.now (length seen.old) }
    requires next_size { length nexts.old ≡ 3 * length triangles.now }
    requires seen { IsSeen triangles.now low (side + 1) seen.old }
    requires nexts { HaveNexts triangles.now low (side + 1) nexts.old }
    ensures seen { IsSeen triangles.now low side seen.new }
    ensures nexts { HaveNexts triangles.now low side nexts.new }
{
    let slot = slot_of(triangles, side);
    nexts[side as usize] = of_low(triangles, low, seen[slot]);
    seen[slot] = side;
}

/// Links the sides of a lesser name to the first ones that run the other way.
fn link_firsts(
    triangles: &[[u32; 3]],
    befores: &[u32],
    low: u32,
    last: u32,
    seen: &[u32],
    firsts: &mut [u32],
)
    requires few { length triangles.now ≤ 2 ^ 30 }
    requires chained { (r : ℕ) → r < 3 * length triangles.now
        → IsLast triangles.now (low_of triangles.now r) r (slice_index befores.now r) }
    requires last { IsLast triangles.now low (3 * length triangles.now) last }
    requires before_size { length befores.now ≡ 3 * length triangles.now }
    requires points { HaveSlots triangles.now (length seen.now) }
    requires first_size { length firsts.old ≡ 3 * length triangles.now }
    requires seen { IsSeen triangles.now low 0 seen.now }
    requires firsts { HaveFirsts triangles.now low (3 * length triangles.now) firsts.old }
    ensures firsts { HaveFirsts triangles.now low 0 firsts.new }
{
    let mut at = last;
    while at != 0 {
        link_first(triangles, low, at - 1, seen, firsts);
        at = befores[(at - 1) as usize];
    }
}

/// Links a side to the first one that runs the other way.
fn link_first(triangles: &[[u32; 3]], low: u32, side: u32, seen: &[u32], firsts: &mut [u32])
    requires few { length triangles.now ≤ 2 ^ 30 }
    requires within { side < 3 * length triangles.now }
    requires low { low_of triangles.now side ≡ low }
    requires points { HaveSlots triangles.now (length seen.now) }
    requires first_size { length firsts.old ≡ 3 * length triangles.now }
    requires seen { IsSeen triangles.now low 0 seen.now }
    requires firsts { HaveFirsts triangles.now low (side + 1) firsts.old }
    ensures firsts { HaveFirsts triangles.now low side firsts.new }
{
    let slot = back_of(triangles, side);
    firsts[side as usize] = of_low(triangles, low, seen[slot]);
}

/// A side if it is one and has this lesser name, else none.
fn of_low(triangles: &[[u32; 3]], low: u32, side: u32) -> u32
    requires few { length triangles.now ≤ 2 ^ 30 }
    ensures yes { side < 3 * length triangles.now → low_of triangles.now side ≡ low
        → result ≡ side }
    ensures no { result < 3 * length triangles.now → (result ≡ side)
        × (low_of triangles.now side ≡ low) }
{
    if ((side / 3) as usize) < triangles.len() && low_of(triangles, side) == low {
        side
    } else {
        NONE
    }
}
