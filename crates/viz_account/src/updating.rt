//! An update: a node's file is written.

ghost use Rattle.std.specs.Prelude.{◌≡◌, IfSome};
ghost use Rattle.viz_account.specs.Answers.{line_of, at_of, missing_in, HandsOut, IsNamed};
ghost use Rattle.viz_account.specs.Served.{Updates, Writes};
ghost use Rattle.viz_account.specs.Steps.Made.{WritesText, IsPlanned};
ghost use Rattle.viz_account.specs.Written.{HasNoPlan};
ghost use Rattle.viz_kept.specs.True.{AreTrueIn};
ghost use Rattle.viz_plan_law.specs.Ports.{HaveOwnPorts};

use crate::answer::{Answer, Missing};
use crate::made::{Made, made_of, missing_of};
use crate::parts::UpdateParts;
use crate::planned::{Planned, make_by_plan};
use std::alloc::Global;
use std::thread::Threads;
use viz_base::{Gate, NodeId, Port, Shape, Word, WriteRefusal};
use viz_network::Net;
use viz_parts::Stored;

// Writes the text of a file, for which so many tasks ran.
fn write_made<P: Port>(
    alloc: Global,
    at: u32,
    port: &mut P,
    file: &str,
    made: &Made,
    ran: u64,
) -> Answer
    ensures { WritesText P.Port file.now made.now ran at result port.old port.new }
{
    match port.write(alloc, file, &made.text) {
        Ok(()) => Answer::Written {
            at,
            cells: made.cells,
            points: made.points,
            ran,
        },
        Err(WriteRefusal::Failed) => Answer::WriteFault { at },
        Err(WriteRefusal::Memory) => Answer::Memory,
    }
}

/// Writes the file of a node of this network, which so many entries of a history made, evaluated
/// from scratch, and calls the port at most once. No plan is made, so 0 tasks run.
pub fn update_from_scratch<P: Port>(
    alloc: Global,
    net: &Net,
    at: u32,
    port: &mut P,
    node: &Word,
    file: &str,
) -> Answer
    ensures writes { Writes P.Port HasNoPlan net.now at node.now file.now (line_of result)
        port.old port.new }
    ensures at { IfSome (at_of result) (λ n. n ≡ at) }
{
    let made = match made_of(alloc, net, node) {
        Ok(made) => made,
        Err(missing) => return Answer::without(missing, at),
    };
    write_made(alloc, at, port, file, &made, 0)
}

// Writes what an update of the node of this name made, or tells why there is no file.
fn answered<P: Port>(
    alloc: Global,
    net: &Net,
    _entries: &[Stored],
    at: u32,
    _shape: &Shape,
    port: &mut P,
    _node: &Word,
    _sink: NodeId,
    file: &str,
    planned: Planned,
) -> (Answer, Option<UpdateParts>)
    requires named { IsNamed net.now _node.now _sink.0 }
    requires planned { IsPlanned net.now _entries.now _shape.now.pieces _sink.0 planned }
    ensures updates { Updates P.Port net.now at _node.now file.now _shape.now.pieces
        (line_of result.0) port.old port.new }
    ensures at { IfSome (at_of result.0) (λ n. n ≡ at) }
    ensures parts { HandsOut net.now _entries.now _shape.now.pieces _node.now
        (missing_in result.0) result.1 }
{
    let Planned {
        file: made,
        ran,
        parts,
    } = planned;
    match made {
        Ok(made) => (write_made(alloc, at, port, file, &made, ran), parts),
        Err(stop) => (Answer::without(missing_of(net, stop), at), parts),
    }
}

/// Writes the file of a node of this network, which so many entries of a history made, by its plan
/// in so many pieces and by so many workers, and calls the port at most once. The network may be
/// that of a pin, and `entries` what is kept with it, in the cache's order. Each task of the plan
/// enters the gate.
///
/// Beside the answer it hands out parts to be kept, exactly where the node has a dataset. Want of
/// memory for them changes no answer.
pub fn update<R: Threads + Sync, P: Port, G: Gate + Sync>(
    rt: &R,
    alloc: Global,
    net: &Net,
    entries: &[Stored],
    at: u32,
    shape: &Shape,
    port: &mut P,
    node: &Word,
    file: &str,
    gate: &G,
) -> (Answer, Option<UpdateParts>)
    requires ports { HaveOwnPorts net.now }
    requires entries { AreTrueIn net.now entries.now }
    ensures updates { Updates P.Port net.now at node.now file.now shape.now.pieces
        (line_of result.0) port.old port.new }
    ensures at { IfSome (at_of result.0) (λ n. n ≡ at) }
    ensures parts { HandsOut net.now entries.now shape.now.pieces node.now
        (missing_in result.0) result.1 }
{
    let Some(sink) = net.find(node) else {
        return (Answer::without(Missing::Unknown, at), None);
    };
    if net.node(sink).is_none() {
        return (Answer::Memory, None);
    }
    let planned = make_by_plan(rt, alloc, net, entries, sink, shape, gate);
    answered(
        alloc, net, entries, at, shape, port, node, sink, file, planned,
    )
}
