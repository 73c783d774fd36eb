//! The audit of a node.

ghost use Rattle.std.specs.Prelude.{◌≡◌, IsSome, Ok};
ghost use Rattle.viz_executive.specs.Produced.{IsByPlan};
ghost use Rattle.viz_kept.specs.True.{AreMadeIn, AreTrueIn};
ghost use Rattle.viz_network.specs.Network.{node_of};
ghost use Rattle.viz_node_meaning.specs.Scratch.{Answers, IsScratch};
ghost use Rattle.viz_plan_law.specs.Ports.{HaveOwnPorts};
ghost use Rattle.viz_account.specs.Audited.{IsAuditOf};
ghost use Rattle.viz_account.specs.Steps.Ground.{IsCounted, IsGround, no_surface};

use crate::ground::ground;
use crate::parts::{UpdateParts, parts_of};
use crate::sums::audit_all;
use std::alloc::Global;
use std::thread::Threads;
use viz_base::{Gate, NodeId, Shape};
use viz_dataset::Dataset;
use viz_executive::{Produced, produce};
use viz_extent::Extent;
use viz_network::{Cause, Fault, Net, Stop};
use viz_node_meaning::scratch_is_one;
use viz_parts::Stored;
use viz_surface_law::{Counts, contours_are_closed};

/// What an audit counts, or why it counts nothing; and the parts to be kept, where the node has a
/// dataset.
#[derive(Drop)]
pub struct Counted {
    pub counts: Result<Counts, Stop>,
    pub parts: Option<UpdateParts>,
}

// The fault of a node that is no contour on an image.
fn no_surface(node: NodeId) -> Stop
    ensures { result ≡ no_surface node }
{
    Stop::Fault(Fault {
        node,
        cause: Cause::WrongInput(1),
    })
}

// The counts of all sheets together that a node gives, where it stands on an image of this extent.
fn counts_of(
    alloc: Global,
    _net: &Net,
    node: NodeId,
    whole: &Option<Extent>,
    dataset: &Dataset,
) -> Result<Counts, Stop>
    requires ground { IsGround _net.now node.0 whole.now }
    requires given { IsScratch _net.now node.0 (Ok dataset.now) }
    ensures value { Answers (IsAuditOf _net.now node.0) result }
{
    scratch_is_one();
    contours_are_closed();
    let Some(whole) = whole else {
        return Err(no_surface(node));
    };
    let Dataset::Mesh(mesh) = dataset else {
        return Err(no_surface(node));
    };
    let counts = audit_all(alloc, mesh.sheets(), whole)?;
    Ok(counts)
}

// The same, with the image that it stands on found by what is kept and made.
fn counts_on<R: Threads + Sync>(
    rt: &R,
    alloc: Global,
    net: &Net,
    entries: &[Stored],
    made: &[Stored],
    node: NodeId,
    dataset: &Dataset,
) -> Result<Counts, Stop>
    requires ports { HaveOwnPorts net.now }
    requires entries { AreTrueIn net.now entries.now }
    requires made { AreMadeIn net.now made.now }
    requires given { IsScratch net.now node.0 (Ok dataset.now) }
    ensures value { Answers (IsAuditOf net.now node.0) result }
{
    let whole = ground(rt, alloc, net, entries, made, node)?;
    counts_of(alloc, net, node, &whole, dataset)
}

// What an audit counts of what its plan gave.
fn counted_by<R: Threads + Sync>(
    rt: &R,
    alloc: Global,
    net: &Net,
    entries: &[Stored],
    node: NodeId,
    shape: &Shape,
    produced: Produced,
) -> Counted
    requires ports { HaveOwnPorts net.now }
    requires entries { AreTrueIn net.now entries.now }
    requires given { IsScratch net.now node.0 (Ok produced.dataset) }
    requires plan { IsByPlan net.now entries.now node.0 shape.now.pieces produced }
    ensures { IsCounted net.now entries.now shape.now.pieces node.0 result }
{
    let counts = counts_on(
        rt,
        alloc,
        net,
        entries,
        &produced.made,
        node,
        &produced.dataset,
    );
    let parts = parts_of(alloc, net, entries, node, shape, produced);
    Counted {
        counts,
        parts: Some(parts),
    }
}

/// Counts the sides of the surface of a node by its plan: of all its sheets together. The sides
/// counted are those in two triangles and those on the boundary of the image's grid. Where it has
/// none the counts are the fault of the evaluation, else `WrongInput(1)` of a node that is no
/// contour on an image; want of memory may come in place of each.
pub fn count_by_plan<R: Threads + Sync, G: Gate + Sync>(
    rt: &R,
    alloc: Global,
    net: &Net,
    entries: &[Stored],
    node: NodeId,
    shape: &Shape,
    gate: &G,
) -> Counted
    requires there { IsSome (node_of net.now node.0) }
    requires ports { HaveOwnPorts net.now }
    requires entries { AreTrueIn net.now entries.now }
    ensures { IsCounted net.now entries.now shape.now.pieces node.0 result }
{
    match produce(rt, alloc, net, entries, node, shape, gate) {
        Ok(produced) => counted_by(rt, alloc, net, entries, node, shape, produced),
        Err(stop) => Counted {
            counts: Err(stop),
            parts: None,
        },
    }
}
