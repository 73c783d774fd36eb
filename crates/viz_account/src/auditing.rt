//! An audit: the sides of a node's surface are counted.

ghost use Rattle.std.specs.Prelude.{◌≡◌, IfSome};
ghost use Rattle.viz_kept.specs.True.{AreTrueIn};
ghost use Rattle.viz_plan_law.specs.Ports.{HaveOwnPorts};
ghost use Rattle.viz_account.specs.Answers.{
  HandsOut,
  IsNamed,
  audit_at_of,
  audit_line_of,
  audit_missing_in,
};
ghost use Rattle.viz_account.specs.Laws.{IsClosedLine};
ghost use Rattle.viz_account.specs.Lines.{TellsAudit};
ghost use Rattle.viz_account.specs.Steps.Ground.{IsCounted};

use crate::answer::{AuditAnswer, Missing};
use crate::made::missing_of;
use crate::parts::UpdateParts;
use crate::surface::{Counted, count_by_plan};
use crate::surface_laws::audits_are_closed;
use std::alloc::Global;
use std::thread::Threads;
use viz_base::{Gate, NodeId, Shape, Word};
use viz_network::Net;
use viz_parts::Stored;

// Tells what an audit of the node of this name counted.
fn told(
    net: &Net,
    _entries: &[Stored],
    at: u32,
    _shape: &Shape,
    _node: &Word,
    _id: NodeId,
    counted: Counted,
) -> (AuditAnswer, Option<UpdateParts>)
    requires named { IsNamed net.now _node.now _id.0 }
    requires counted { IsCounted net.now _entries.now _shape.now.pieces _id.0 counted }
    ensures tells { TellsAudit net.now at _node.now (audit_line_of result.0) }
    ensures closed { IsClosedLine (audit_line_of result.0) }
    ensures at { IfSome (audit_at_of result.0) (λ n. n ≡ at) }
    ensures parts { HandsOut net.now _entries.now _shape.now.pieces _node.now
        (audit_missing_in result.0) result.1 }
{
    audits_are_closed();
    let Counted { counts, parts } = counted;
    match counts {
        Ok(audit) => (AuditAnswer::Counted { at, audit }, parts),
        Err(stop) => (AuditAnswer::without(missing_of(net, stop), at), parts),
    }
}

/// Counts the sides of the surface of a node of this network, which so many entries of a history
/// made, by its plan in so many pieces and by so many workers. The network may be that of a pin,
/// and `entries` what is kept with it, in the cache's order. Each task of the plan enters the gate.
/// The sides counted are those in two triangles and those on the boundary of the image's grid.
///
/// Beside the answer it hands out parts to be kept, exactly where the node has a dataset. Want of
/// memory for them changes no answer.
pub fn audit<R: Threads + Sync, G: Gate + Sync>(
    rt: &R,
    alloc: Global,
    net: &Net,
    entries: &[Stored],
    at: u32,
    shape: &Shape,
    node: &Word,
    gate: &G,
) -> (AuditAnswer, Option<UpdateParts>)
    requires ports { HaveOwnPorts net.now }
    requires entries { AreTrueIn net.now entries.now }
    ensures tells { TellsAudit net.now at node.now (audit_line_of result.0) }
    ensures closed { IsClosedLine (audit_line_of result.0) }
    ensures at { IfSome (audit_at_of result.0) (λ n. n ≡ at) }
    ensures parts { HandsOut net.now entries.now shape.now.pieces node.now
        (audit_missing_in result.0) result.1 }
{
    let Some(id) = net.find(node) else {
        return (AuditAnswer::without(Missing::Unknown, at), None);
    };
    if net.node(id).is_none() {
        return (AuditAnswer::Memory, None);
    }
    let counted = count_by_plan(rt, alloc, net, entries, id, shape, gate);
    told(net, entries, at, shape, node, id, counted)
}
