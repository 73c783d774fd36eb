//! Requests at nodes, under the nodes' stamps.

ghost use Rattle.std.specs.Prelude.{◌≡◌, IfOk, map};
ghost use Rattle.std.specs.List.{All};
ghost use Rattle.viz_kept.specs.True.{HasStamp};
ghost use Rattle.viz_plan_walk.specs.Walk.{named};
ghost use Rattle.viz_plan.specs.Told.{needs_in};

use std::alloc::{AllocError, Global};
use viz_network::Stamps;
use viz_parts::Key;
use viz_plan_walk::Need;

/// The keys of requests at nodes, with the nodes' stamps.
pub fn keyed(alloc: Global, stamps: &Stamps<'_>, needs: &[Need]) -> Result<Vec<Key>, AllocError>
    ensures needs { IfOk result (λ keys. needs_in keys.items ≡ named needs.now) }
    ensures stamps { IfOk result (λ keys. All (HasStamp stamps.now) keys.items) }
{
    let mut keys = Vec::with_capacity(alloc, needs.len())?;
    for need in needs {
        let Some(stamp) = stamps.of(need.node) else {
            return Err(AllocError);
        };
        keys.push(Key {
            node: need.node,
            stamp,
            request: need.request,
        })?;
    }
    Ok(keys)
}

/// The same of lists of requests.
pub fn all_keyed(
    alloc: Global,
    stamps: &Stamps<'_>,
    levels: &[Vec<Need>],
) -> Result<Vec<Vec<Key>>, AllocError>
    ensures needs { IfOk result (λ all. map (λ keys. needs_in keys.items) all.items
        ≡ map (λ needs. named needs.items) levels.now) }
    ensures stamps { IfOk result (λ all. All (λ keys. All
        (HasStamp stamps.now) keys.items) all.items) }
{
    let mut all = Vec::with_capacity(alloc, levels.len())?;
    for level in levels {
        all.push(keyed(alloc, stamps, level)?)?;
    }
    Ok(all)
}
