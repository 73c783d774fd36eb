//! What is known of all that lies upstream of a node.

ghost use Rattle.std.specs.Prelude.{◌≡◌, IfErr, IfOk, IfSome, IsSome, Some, Err, length, slice_get};
ghost use Rattle.viz_network.specs.Network.{node_of};
ghost use Rattle.viz_network.specs.Step.{AreSteps, nodes_of};
ghost use Rattle.viz_node_meaning.specs.Information.{InformationRule};
ghost use Rattle.viz_inform.specs.Informed.{AreTold, IsFirstFault};
ghost use Rattle.viz_inform.specs.Table.{IsTable, always, anything};

use crate::headers::{Known, information_pass};
use crate::marks::marks_above;
use crate::places::place_of;
use crate::told::{Told, told_of};
use std::alloc::{AllocError, Global};
use viz_base::NodeId;
use viz_network::{Fault, Net, Step, Stop};

// The fault that the table has at a place.
fn fault_here(table: &[Known], place: usize) -> Option<Fault>
    ensures { IfSome result (λ fault. slice_get table.now place ≡ Some (Some (Err fault))) }
{
    match table.get(place) {
        Some(Some(Err(fault))) => Some(*fault),
        _ => None,
    }
}

// What is told of the cone of a node, whose step stands at this place.
fn told_above(
    alloc: Global,
    net: &Net,
    steps: &[Step],
    sink: usize,
    node: NodeId,
    table: &[Known],
) -> Result<Vec<Told>, AllocError>
    requires steps { AreSteps net.now steps.now }
    requires at { slice_get (nodes_of steps.now) sink ≡ Some node }
    requires table { IsTable InformationRule anything always
        net.now steps.now (length steps.now) table.now }
    ensures { IfOk result (λ told. AreTold net.now node.0 told.items) }
{
    let marks = marks_above(alloc, net, steps, sink)?;
    let told = told_of(alloc, steps, &marks, table)?;
    Ok(told)
}

/// What is known of the dataset of a node and of those of all nodes upstream of it, before their
/// numbers are: by headers alone. Each stands behind what feeds it.
///
/// # Errors
///
/// `Fault` exactly where the node or one upstream of it has an information fault: the first one,
/// inputs before their node and ports ascending, which is that of `scratch`. Want of memory may
/// come in place of both.
pub fn inform(alloc: Global, net: &Net, node: NodeId) -> Result<Vec<Told>, Stop>
    requires there { IsSome (node_of net.now node.0) }
    ensures told { IfOk result (λ told. AreTold net.now node.0 told.items) }
    ensures fault { IfErr result (IsFirstFault net.now node.0) }
{
    let steps = net.steps(alloc)?;
    let Some(sink) = place_of(&steps, node) else {
        return Err(Stop::Memory);
    };
    let table = information_pass(alloc, net, &steps)?;
    if let Some(fault) = fault_here(&table, sink) {
        return Err(Stop::Fault(fault));
    }
    let told = told_above(alloc, net, &steps, sink, node, &table)?;
    Ok(told)
}
