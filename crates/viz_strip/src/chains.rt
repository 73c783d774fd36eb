//! The sides of each lesser name, from the last one to the first.

ghost use Rattle.std.specs.Prelude.{◌≡◌, ◌+◌, ◌*◌, ◌<◌, ◌≤◌, ◌^◌, IfOk, length};
ghost use Rattle.viz_strip.specs.Steps.Links.{AreChained};
ghost use Rattle.viz_strip.specs.Steps.Sides.{HaveSides};

use crate::sides::low_of;
use std::alloc::{AllocError, Global};

/// For each lesser name its last side, and for each side the one before it with its lesser name:
/// one more than the number of that side, and 0 where there is none.
#[derive(Drop)]
pub(crate) struct Chains {
    pub(crate) lasts: Vec<u32>,
    pub(crate) befores: Vec<u32>,
}

/// The chains of all sides, whose names are below a number.
pub(crate) fn make_chains(
    alloc: Global,
    points: usize,
    triangles: &[[u32; 3]],
) -> Result<Chains, AllocError>
    requires few { length triangles.now ≤ 2 ^ 30 }
    requires sides { HaveSides points triangles.now }
    ensures chained { IfOk result (λ c.
        AreChained triangles.now (3 * length triangles.now) c.lasts.items c.befores.items) }
    ensures lasts { IfOk result (λ c. length c.lasts.items ≡ points) }
    ensures befores { IfOk result (λ c. length c.befores.items ≡ 3 * length triangles.now) }
{
    let mut lasts = vec![in alloc; 0_u32; points]?;
    let mut befores = vec![in alloc; 0_u32; 3 * triangles.len()]?;
    chain_all(triangles, &mut lasts, &mut befores);
    Ok(Chains { lasts, befores })
}

/// Chains all sides.
fn chain_all(triangles: &[[u32; 3]], lasts: &mut [u32], befores: &mut [u32])
    requires few { length triangles.now ≤ 2 ^ 30 }
    requires sides { HaveSides (length lasts.old) triangles.now }
    requires size { length befores.old ≡ 3 * length triangles.now }
    requires chained { AreChained triangles.now 0 lasts.old befores.old }
    ensures chained { AreChained triangles.now (3 * length triangles.now) lasts.new befores.new }
{
    for side in 0..befores.len() {
        chain_side(triangles, lasts, befores, side as u32);
    }
}

/// Chains the side of a number.
fn chain_side(triangles: &[[u32; 3]], lasts: &mut [u32], befores: &mut [u32], side: u32)
    requires few { length triangles.now ≤ 2 ^ 30 }
    requires sides { HaveSides (length lasts.old) triangles.now }
    requires size { length befores.old ≡ 3 * length triangles.now }
    requires within { side < 3 * length triangles.now }
    requires chained { AreChained triangles.now side lasts.old befores.old }
    ensures chained { AreChained triangles.now (side + 1) lasts.new befores.new }
{
    let low = low_of(triangles, side) as usize;
    befores[side as usize] = lasts[low];
    lasts[low] = side + 1;
}
