//! Publications of what updates make by their plans.

ghost use Rattle.std.specs.Prelude.{◌≡◌, IfSome};
ghost use Rattle.viz_entries.specs.History.{network_of};
ghost use Rattle.viz_executive.specs.Produced.{IsByPlan};

use std::alloc::Global;
use std::sync::Wait;
use std::thread::Threads;
use viz_base::{NodeId, OpenGate, Shape};
use viz_executive::{Produced, all_made, produce};
use viz_history::Kept;
use viz_hub::{Hub, Pass, Pin};
use viz_plan_law::plans_fit;

/// What an update of a node makes by its plan in the network of a pin, from the parts of the pin.
/// `None` where there is no such node, where it gives a fault, and where memory ran out.
pub(crate) fn produced_in<R: Threads + Sync>(
    rt: &R,
    alloc: Global,
    pin: &Pin,
    node: NodeId,
    shape: &Shape,
) -> Option<Produced>
    ensures plan { IfSome result (IsByPlan (network_of pin.now.pass.seen) pin.now.entries node.0
        shape.now.pieces) }
{
    plans_fit();
    let pinned = pin.pinned();
    if pinned.net.node(node).is_none() {
        return None;
    }
    let entries = pinned.entries.list();
    match produce(rt, alloc, &pinned.net, entries, node, shape, &OpenGate) {
        Ok(produced) => Some(produced),
        Err(_) => None,
    }
}

/// Publishes all parts that the tasks of an update made, and the keys that it used. `None` where
/// memory ran out.
pub(crate) fn publish_produced<R: Wait>(
    rt: &R,
    alloc: Global,
    hub: &Hub,
    pin: Pin,
    node: NodeId,
    shape: &Shape,
    produced: Produced,
) -> Option<(Pass, Kept)>
    requires belongs { pin.pass.turn ≡ hub.now }
    requires plan { IsByPlan (network_of pin.pass.seen) pin.entries node.0 shape.now.pieces
        produced }
    ensures pass { IfSome result (λ r. r.0.turn ≡ hub.now) }
{
    let Produced {
        dataset,
        used,
        made,
        only,
        ..
    } = produced;
    let Ok(all) = all_made(alloc, dataset, made, only) else {
        return None;
    };
    Some(hub.publish(rt, pin, node, shape, &used, &all))
}

/// Pins, makes an update of a node by its plan, and publishes what its tasks made. `None` where the
/// node gives no dataset, and where memory ran out.
pub fn publish_update<R: Threads + Wait + Sync>(
    rt: &R,
    alloc: Global,
    hub: &Hub,
    pass: Pass,
    node: NodeId,
    shape: &Shape,
) -> Option<(Pass, Kept)>
    requires belongs { pass.turn ≡ hub.now }
    ensures pass { IfSome result (λ r. r.0.turn ≡ hub.now) }
{
    let Ok(pin) = hub.pin(rt, alloc, pass) else {
        return None;
    };
    let produced = produced_in(rt, alloc, &pin, node, shape)?;
    publish_produced(rt, alloc, hub, pin, node, shape, produced)
}
