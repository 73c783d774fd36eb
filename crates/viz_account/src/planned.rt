//! What an update of a node by its plan makes: the text of its file, and parts to be kept.

ghost use Rattle.std.specs.Prelude.{IsSome, Ok};
ghost use Rattle.viz_executive.specs.Produced.{IsByPlan};
ghost use Rattle.viz_kept.specs.True.{AreTrueIn};
ghost use Rattle.viz_network.specs.Network.{node_of};
ghost use Rattle.viz_node_meaning.specs.Scratch.{IsScratch};
ghost use Rattle.viz_plan_law.specs.Ports.{HaveOwnPorts};
ghost use Rattle.viz_account.specs.Steps.Made.{IsPlanned};

use crate::made::{Made, file_by};
use crate::parts::{UpdateParts, parts_of};
use std::alloc::Global;
use std::thread::Threads;
use viz_base::{Gate, NodeId, Shape};
use viz_executive::{Produced, produce};
use viz_network::{Net, Stop};
use viz_parts::Stored;

/// The text of a node's file with its numbers, or why there is none; how many tasks ran for it; and
/// the parts to be kept, where the node has a dataset.
#[derive(Drop)]
pub struct Planned {
    pub file: Result<Made, Stop>,
    pub ran: u64,
    pub parts: Option<UpdateParts>,
}

// What an update made that gave this.
fn planned_by<R: Threads + Sync>(
    rt: &R,
    alloc: Global,
    net: &Net,
    entries: &[Stored],
    sink: NodeId,
    shape: &Shape,
    produced: Produced,
) -> Planned
    requires there { IsSome (node_of net.now sink.0) }
    requires entries { AreTrueIn net.now entries.now }
    requires given { IsScratch net.now sink.0 (Ok produced.dataset) }
    requires plan { IsByPlan net.now entries.now sink.0 shape.now.pieces produced }
    ensures { IsPlanned net.now entries.now shape.now.pieces sink.0 result }
{
    let file = file_by(rt, alloc, net, sink, &produced.dataset, shape.workers);
    let ran = produced.ran;
    let parts = parts_of(alloc, net, entries, sink, shape, produced);
    Planned {
        file,
        ran,
        parts: Some(parts),
    }
}

/// An update of a node that is there, by its plan.
pub fn make_by_plan<R: Threads + Sync, G: Gate + Sync>(
    rt: &R,
    alloc: Global,
    net: &Net,
    entries: &[Stored],
    sink: NodeId,
    shape: &Shape,
    gate: &G,
) -> Planned
    requires there { IsSome (node_of net.now sink.0) }
    requires ports { HaveOwnPorts net.now }
    requires entries { AreTrueIn net.now entries.now }
    ensures { IsPlanned net.now entries.now shape.now.pieces sink.0 result }
{
    match produce(rt, alloc, net, entries, sink, shape, gate) {
        Ok(produced) => planned_by(rt, alloc, net, entries, sink, shape, produced),
        Err(stop) => Planned {
            file: Err(stop),
            ran: 0,
            parts: None,
        },
    }
}
