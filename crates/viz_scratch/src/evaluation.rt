//! Evaluation from scratch.

ghost use Rattle.std.specs.Prelude.{◌≡◌, IfOk, IsSome, Some, slice_get};
ghost use Rattle.viz_legacy_read.specs.Reading.{IsSound};
ghost use Rattle.viz_network.specs.Cone.{cone_of};
ghost use Rattle.viz_network.specs.Network.{node_of};
ghost use Rattle.viz_network.specs.Step.{AreSteps, nodes_of};
ghost use Rattle.viz_node_meaning.specs.Data.{DataRule};
ghost use Rattle.viz_node_meaning.specs.Fold.{IsGiven};
ghost use Rattle.viz_node_meaning.specs.Scratch.{IsScratch, Answers};

use crate::datasets::data_pass;
use crate::readers::last_readers;
use std::alloc::{AllocError, Global};
use viz_base::{NodeId, Shared};
use viz_dataset::Dataset;
use viz_inform::{information_fault, place_of};
use viz_network::{Fault, Net, Step, Stop};
use viz_node_rules::Held;

// What a step gives.
fn taken(table: &[Held], sink: usize) -> Result<Result<Shared<Dataset>, Fault>, AllocError>
    ensures { IfOk result (λ value. slice_get table.now sink ≡ Some (Some value)) }
{
    match table.get(sink) {
        Some(Some(Ok(dataset))) => Ok(Ok(dataset.copy()?)),
        Some(Some(Err(fault))) => Ok(Err(*fault)),
        _ => Err(AllocError),
    }
}

// The dataset of a node, whose step stands at this place, or the first data fault.
fn node_dataset(
    alloc: Global,
    net: &Net,
    steps: &[Step],
    sink: usize,
    node: NodeId,
) -> Result<Result<Shared<Dataset>, Fault>, AllocError>
    requires steps { AreSteps net.now steps.now }
    requires at { slice_get (nodes_of steps.now) sink ≡ Some node }
    ensures value { IfOk result (IsGiven DataRule (cone_of net.now node.0)) }
    ensures sound { IfOk result (λ value. IfOk value IsSound) }
{
    let last = last_readers(alloc, steps, sink)?;
    let table = data_pass(alloc, net, steps, &last)?;
    taken(&table, sink)
}

/// What a node of the network gives, evaluated from scratch: a dataset, which isn't copied on its
/// way through a writer. Each dataset is given up behind the last node that reads it.
///
/// # Errors
///
/// `Fault` exactly where the node or one upstream of it has a fault: the first information fault,
/// else the first data fault, inputs before their node and ports ascending. Want of memory may come
/// in place of both.
pub fn scratch(alloc: Global, net: &Net, node: NodeId) -> Result<Shared<Dataset>, Stop>
    requires there { IsSome (node_of net.now node.0) }
    ensures value { Answers (IsScratch net.now node.0) result }
    ensures sound { IfOk result IsSound }
{
    let steps = net.steps(alloc)?;
    let Some(sink) = place_of(&steps, node) else {
        return Err(Stop::Memory);
    };
    if let Some(fault) = information_fault(alloc, net, &steps, sink, node)? {
        return Err(Stop::Fault(fault));
    }
    match node_dataset(alloc, net, &steps, sink, node)? {
        Ok(dataset) => Ok(dataset),
        Err(fault) => Err(Stop::Fault(fault)),
    }
}
