//! What an update of a node gives by its plan.

ghost use Rattle.std.specs.Prelude.{◌≡◌, IfErr, IfOk, IsSome, Ok};
ghost use Rattle.viz_inform.specs.Informed.{AreTold};
ghost use Rattle.viz_kept.specs.True.{AreTrueIn};
ghost use Rattle.viz_network.specs.Network.{node_of};
ghost use Rattle.viz_node_meaning.specs.Scratch.{IsScratch};
ghost use Rattle.viz_plan.specs.Told.{extent_told, known_with};
ghost use Rattle.viz_plan_law.specs.Ports.{HaveOwnPorts};
ghost use Rattle.viz_requests.specs.Shapes.{requests_of};
ghost use Rattle.viz_executive.specs.Produced.{IsByPlan, IsScratchStop};
ghost use Rattle.viz_executive.specs.Steps.Carrying.{ArePlannedLevels, IsCarriedOut};

use crate::carrying::{Carried, carry_out};
use crate::ground::Ground;
use std::alloc::Global;
use std::thread::Threads;
use viz_base::{Gate, NodeId, Shape};
use viz_dataset::Dataset;
use viz_inform::{Told, inform};
use viz_network::{Net, Stop};
use viz_node_rules::OwnStop;
use viz_parts::{Key, Stored};
use viz_plan::{Plan, demand, extent_told};
use viz_plan_law::plans_fit;
use viz_plan_truth::plans_are_narrow;
use viz_requests::requests_of;
use viz_scratch::scratch;
use viz_task_parts::parts_are_passed;

/// What an update gives: the dataset of its node; the keys of kept parts that its plan uses, in the
/// order of their first use; the parts that its tasks made, under their keys, of nodes that aren't
/// released, in the order of the tasks; the key of the last of them where the dataset is that part
/// itself, which then isn't among the made; and the number of tasks. `all_made` gives all of them,
/// once the dataset isn't needed any more.
#[derive(Drop)]
pub struct Produced {
    pub dataset: Dataset,
    pub used: Vec<Key>,
    pub made: Vec<Stored>,
    pub only: Option<Key>,
    pub ran: u64,
}

// What a fault of a task comes to: that of an evaluation from scratch.
fn fault_of(alloc: Global, net: &Net, sink: NodeId) -> Stop
    requires there { IsSome (node_of net.now sink.0) }
    ensures fault { IsScratchStop net.now sink.0 result }
{
    match scratch(alloc, net, sink) {
        Ok(_) => Stop::Memory,
        Err(stop) => stop,
    }
}

// What is told of the node and of all upstream of it.
fn told_of(alloc: Global, net: &Net, sink: NodeId) -> Result<Vec<Told>, Stop>
    requires there { IsSome (node_of net.now sink.0) }
    ensures told { IfOk result (λ told. AreTold net.now sink.0 told.items) }
    ensures fault { IfErr result (IsScratchStop net.now sink.0) }
{
    inform(alloc, net, sink)
}

// Carries a plan out, by what is told and kept.
fn carried<R: Threads + Sync, G: Gate + Sync>(
    rt: &R,
    alloc: Global,
    net: &Net,
    told: &[Told],
    entries: &[Stored],
    sink: NodeId,
    shape: &Shape,
    plan: &Plan,
    gate: &G,
) -> Result<Carried, OwnStop>
    requires there { IsSome (node_of net.now sink.0) }
    requires ports { HaveOwnPorts net.now }
    requires told { AreTold net.now sink.0 told.now }
    requires entries { AreTrueIn net.now entries.now }
    requires levels { ArePlannedLevels (known_with net.now told.now entries.now) sink.0
        (requests_of (extent_told told.now sink.0) shape.now.pieces) plan.now.levels.items }
    ensures carried { IfOk result (IsCarriedOut (known_with net.now told.now entries.now) sink.0
        (requests_of (extent_told told.now sink.0) shape.now.pieces) plan.now.levels.items) }
{
    plans_fit();
    let steps = net.steps(alloc)?;
    let requests = requests_of(alloc, &extent_told(told, sink), shape.pieces)?;
    if requests.is_empty() {
        return Err(OwnStop::Memory);
    }
    let ground = Ground::new(alloc, net, told, entries, &steps, sink, &requests)?;
    let carried = carry_out(rt, alloc, &ground, entries, shape, &plan.levels, gate)?;
    Ok(carried)
}

/// What an update of a node gives by its plan, in so many pieces and by so many workers.
///
/// `entries` is what is kept, in the cache's order. Each task enters the gate with its number, and
/// takes what it reads from kept parts and from those of earlier tasks. A writer gives what feeds
/// it.
///
/// # Errors
///
/// `Fault` exactly where an evaluation from scratch has it, and that one. Want of memory may come
/// in place of it.
pub fn produce<R: Threads + Sync, G: Gate + Sync>(
    rt: &R,
    alloc: Global,
    net: &Net,
    entries: &[Stored],
    sink: NodeId,
    shape: &Shape,
    gate: &G,
) -> Result<Produced, Stop>
    requires there { IsSome (node_of net.now sink.0) }
    requires ports { HaveOwnPorts net.now }
    requires entries { AreTrueIn net.now entries.now }
    ensures dataset { IfOk result (λ p. IsScratch net.now sink.0 (Ok p.dataset)) }
    ensures plan { IfOk result (IsByPlan net.now entries.now sink.0 shape.now.pieces) }
    ensures fault { IfErr result (IsScratchStop net.now sink.0) }
{
    plans_are_narrow();
    parts_are_passed();
    let all_told = match told_of(alloc, net, sink) {
        Ok(told) => told,
        Err(stop) => return Err(stop),
    };
    let told = all_told.as_slice();
    let plan = demand(alloc, net, told, entries, sink, shape)?;
    match carried(rt, alloc, net, told, entries, sink, shape, &plan, gate) {
        Ok(carried) => Ok(Produced {
            dataset: carried.dataset,
            used: plan.used,
            made: carried.made,
            only: carried.only,
            ran: carried.ran,
        }),
        Err(OwnStop::Memory) => Err(Stop::Memory),
        Err(OwnStop::Cause(_)) => Err(fault_of(alloc, net, sink)),
    }
}
