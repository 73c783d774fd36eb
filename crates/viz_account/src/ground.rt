//! The image on which a contour stands.

ghost use Rattle.std.specs.Prelude.{◌≡◌, IfOk};
ghost use Rattle.viz_kept.specs.True.{AreMadeIn, AreTrueIn};
ghost use Rattle.viz_network.specs.Network.{input_of};
ghost use Rattle.viz_plan_law.specs.Ports.{HaveOwnPorts};
ghost use Rattle.viz_account.specs.Audited.{is_contour};
ghost use Rattle.viz_account.specs.Steps.Ground.{GivesImage, IsGround};

use std::alloc::{AllocError, Global};
use std::thread::Threads;
use viz_base::{NodeId, OpenGate, Shape};
use viz_dataset::Dataset;
use viz_executive::produce;
use viz_extent::Extent;
use viz_kinds::Settings;
use viz_network::{Net, Node, Stop};
use viz_node_meaning::scratch_is_one;
use viz_parts::Stored;

// All of a dataset by one worker.
const WHOLE: Shape = Shape {
    pieces: 1,
    workers: 1,
};

fn is_contour(settings: &Settings) -> bool
    ensures { result ≡ is_contour settings.now }
{
    matches!(settings, Settings::Contour { .. })
}

// What feeds the first port.
fn first_input(node: &Node) -> Option<NodeId>
    ensures { result ≡ input_of node.now 1 }
{
    node.inputs[0]
}

// Adds one owner more of each part.
fn add_all(all: &mut Vec<Stored>, _net: &Net, items: &[Stored]) -> Result<(), AllocError>
    requires all { AreTrueIn _net.now all.old.items }
    requires items { AreTrueIn _net.now items.now }
    ensures { IfOk result (λ _. AreTrueIn _net.now all.new.items) }
{
    for item in items {
        let part = item.part.copy()?;
        all.push(Stored {
            key: item.key,
            part,
        })?;
    }
    Ok(())
}

// What is kept, and what was made beside it.
fn with_made(
    alloc: Global,
    net: &Net,
    entries: &[Stored],
    made: &[Stored],
) -> Result<Vec<Stored>, AllocError>
    requires entries { AreTrueIn net.now entries.now }
    requires made { AreMadeIn net.now made.now }
    ensures { IfOk result (λ all. AreTrueIn net.now all.items) }
{
    let mut all = Vec::with_capacity(alloc, entries.len().saturating_add(made.len()))?;
    add_all(&mut all, net, entries)?;
    add_all(&mut all, net, made)?;
    Ok(all)
}

// The extent of the image that a node gives; None where it gives a mesh, or nothing.
fn given_extent<R: Threads + Sync>(
    rt: &R,
    alloc: Global,
    net: &Net,
    entries: &[Stored],
    node: NodeId,
) -> Result<Option<Extent>, AllocError>
    requires ports { HaveOwnPorts net.now }
    requires entries { AreTrueIn net.now entries.now }
    ensures { IfOk result (GivesImage net.now node.0) }
{
    scratch_is_one();
    if net.node(node).is_none() {
        return Ok(None);
    }
    match produce(rt, alloc, net, entries, node, &WHOLE, &OpenGate) {
        Ok(produced) => match &produced.dataset {
            Dataset::Image(image) => Ok(Some(image.extent())),
            Dataset::Mesh(_) => Ok(None),
        },
        Err(Stop::Fault(_)) => Ok(None),
        Err(Stop::Memory) => Err(AllocError),
    }
}

/// The extent of the image that a contour stands on; None of all other nodes. What feeds the
/// contour is taken from `entries` and `made`; what isn't there is computed once more.
pub fn ground<R: Threads + Sync>(
    rt: &R,
    alloc: Global,
    net: &Net,
    entries: &[Stored],
    made: &[Stored],
    node: NodeId,
) -> Result<Option<Extent>, AllocError>
    requires ports { HaveOwnPorts net.now }
    requires entries { AreTrueIn net.now entries.now }
    requires made { AreMadeIn net.now made.now }
    ensures { IfOk result (IsGround net.now node.0) }
{
    // Its contract says how a node's cone grows from those of its inputs.
    let _steps = net.steps(alloc)?;
    let Some(found) = net.node(node) else {
        return Ok(None);
    };
    if !is_contour(&found.settings) {
        return Ok(None);
    }
    let Some(from) = first_input(found) else {
        return Ok(None);
    };
    let all = with_made(alloc, net, entries, made)?;
    let extent = given_extent(rt, alloc, net, &all, from)?;
    Ok(extent)
}
