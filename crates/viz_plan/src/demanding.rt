//! What an update of a node needs.

ghost use Rattle.std.specs.Prelude.{◌≡◌, IfOk, map};
ghost use Rattle.std.specs.List.{All};
ghost use Rattle.viz_plan_meaning.specs.Laws.{used_of};
ghost use Rattle.viz_kept.specs.True.{HasStamp};
ghost use Rattle.viz_plan_walk.specs.Walk.{named};
ghost use Rattle.viz_requests.specs.Shapes.{requests_of};
ghost use Rattle.viz_plan.specs.Told.{AreLevelsOf, extent_told, known_with, needs_in};

use crate::keys::{all_keyed, keyed};
use crate::sites::sites_of;
use crate::told::extent_told;
use std::alloc::{AllocError, Global};
use viz_base::{NodeId, Shape};
use viz_inform::{Told, place_of};
use viz_network::Net;
use viz_parts::{Key, Request, Stored};
use viz_plan_walk::{Need, by_levels, plan_to, task_steps, with_levels};
use viz_requests::requests_of;

/// What has to be made for an update, level by level, and which keys of the kept are used, in the
/// order of their first use. The tasks of a level use kept parts and those of lower levels alone.
#[derive(Debug, Drop)]
pub struct Plan {
    pub levels: Vec<Vec<Key>>,
    pub used: Vec<Key>,
}

// The plan of requests to a node, with levels.
fn leveled(
    alloc: Global,
    net: &Net,
    told: &[Told],
    entries: &[Stored],
    sink: NodeId,
    requests: &[Request],
) -> Result<(Vec<Vec<Need>>, Vec<Need>), AllocError>
    ensures levels { IfOk result (λ p. AreLevelsOf
        (known_with net.now told.now entries.now) sink.0 requests.now
        (map (λ v. named v.items) p.0.items)) }
    ensures used { IfOk result (λ p. named p.1.items ≡ used_of
        (known_with net.now told.now entries.now) sink.0 requests.now) }
{
    let steps = net.steps(alloc)?;
    let Some(place) = place_of(&steps, sink) else {
        return Err(AllocError);
    };
    let tasks = task_steps(alloc, net, &steps)?;
    let sites = sites_of(alloc, net, told, entries, &steps)?;
    let walked = plan_to(alloc, &sites, net, &steps, &tasks, sink, place, requests)?;
    let table = with_levels(alloc, &sites, net, &tasks, &walked.tasks)?;
    let levels = by_levels(alloc, &table)?;
    Ok((levels, walked.used))
}

/// What an update of a node in so many pieces has to make, and what of the kept it uses.
///
/// `told` is what `inform` tells of the node, and `entries` what is kept, in the cache's order.
/// Requests to a writer go to what feeds it. `Err` is want of memory, or comes where no such node
/// is there, or where a node can't be asked for what is needed of it, as it always can by true
/// information.
pub fn demand(
    alloc: Global,
    net: &Net,
    told: &[Told],
    entries: &[Stored],
    sink: NodeId,
    shape: &Shape,
) -> Result<Plan, AllocError>
    ensures levels { IfOk result (λ p. AreLevelsOf (known_with net.now told.now entries.now) sink.0
        (requests_of (extent_told told.now sink.0) shape.now.pieces)
        (map (λ keys. needs_in keys.items) p.levels.items)) }
    ensures used { IfOk result (λ p. needs_in p.used.items ≡ used_of
        (known_with net.now told.now entries.now) sink.0
        (requests_of (extent_told told.now sink.0) shape.now.pieces)) }
    ensures stamps { IfOk result (λ p. All (λ keys. All
        (HasStamp net.now) keys.items) p.levels.items) }
    ensures used_stamps { IfOk result (λ p. All (HasStamp net.now) p.used.items) }
{
    let requests = requests_of(alloc, &extent_told(told, sink), shape.pieces)?;
    let (levels, used) = leveled(alloc, net, told, entries, sink, &requests)?;
    let stamps = net.stamps();
    let levels = all_keyed(alloc, &stamps, &levels)?;
    let used = keyed(alloc, &stamps, &used)?;
    Ok(Plan { levels, used })
}
