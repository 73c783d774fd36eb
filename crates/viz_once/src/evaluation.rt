//! What the filter's node gives, by the rules of single nodes: evaluation from scratch over the two
//! nodes of the fixed history, in which nothing is held that isn't read any more.

ghost use Rattle.std.specs.Prelude.{◌≡◌, IfOk, Ok, Some};
ghost use Rattle.viz_legacy_read.specs.Reading.{IsSound};
ghost use Rattle.viz_node_meaning.specs.Data.{DataRule};
ghost use Rattle.viz_node_meaning.specs.Fold.{IsGiven, IsMade};
ghost use Rattle.viz_node_meaning.specs.Information.{InformationRule};
ghost use Rattle.viz_node_meaning.specs.Scratch.{Answers, IsScratch};
ghost use Rattle.viz_once.specs.FixedHistory.{network_for, op_id};
ghost use Rattle.viz_once.specs.Steps.Nodes.{fed_by, nothing, stop_at, tree_of};

use crate::command::NodeFilter;
use crate::nodes::{op_node, source_node};
use std::alloc::Global;
use viz_base::{Bytes, NodeId, Shared};
use viz_dataset::Dataset;
use viz_network::{Fault, Node, Stop};
use viz_node_meaning::Information;
use viz_node_rules::{Held, OwnStop, own_dataset, own_information};

// What is known of a node without connections, or its fault.
fn known_alone(node: &Node) -> Result<Information, Fault>
    ensures { IsMade InformationRule node.now (Ok (nothing 8)) result }
{
    match own_information(node, &[None; 8]) {
        Ok(information) => Ok(information),
        Err(cause) => Err(Fault {
            node: node.id,
            cause,
        }),
    }
}

// What is known of a node whose first port is fed, or its fault.
fn known_behind(node: &Node, input: Information) -> Result<Information, Fault>
    ensures { IsMade InformationRule node.now (Ok (fed_by input)) result }
{
    let inputs = [Some(input), None, None, None, None, None, None, None];
    match own_information(node, &inputs) {
        Ok(information) => Ok(information),
        Err(cause) => Err(Fault {
            node: node.id,
            cause,
        }),
    }
}

// What is known of a node that the source feeds, by the file's header alone, or the first fault.
fn known(source: &Node, node: &Node) -> Result<Information, Fault>
    ensures { IsGiven InformationRule (Some (tree_of source.now node.now)) result }
{
    match known_alone(source) {
        Ok(input) => known_behind(node, input),
        Err(fault) => Err(fault),
    }
}

// Why a node stopped, as a stop of the evaluation.
fn stop_at(node: NodeId, stop: OwnStop) -> Stop
    ensures { result ≡ stop_at node stop }
{
    match stop {
        OwnStop::Cause(cause) => Stop::Fault(Fault { node, cause }),
        OwnStop::Memory => Stop::Memory,
    }
}

// What a node without connections gives. The node is given up, and with it the bytes of its file.
fn given_alone(alloc: Global, node: Node) -> Result<Shared<Dataset>, Stop>
    ensures value { Answers (IsMade DataRule node (Ok (nothing 8))) result }
    ensures sound { IfOk result IsSound }
{
    match own_dataset(alloc, &node, &[], &[None; 8]) {
        Ok(dataset) => Ok(dataset),
        Err(stop) => Err(stop_at(node.id, stop)),
    }
}

// What a node gives whose first port is fed. What feeds it is given up.
fn given_behind(alloc: Global, node: &Node, input: Shared<Dataset>) -> Result<Shared<Dataset>, Stop>
    requires sound { IsSound input }
    ensures value { Answers (IsMade DataRule node.now (Ok (fed_by input))) result }
    ensures sound { IfOk result IsSound }
{
    let table: [Held; 1] = [Some(Ok(input))];
    let places = [Some(0), None, None, None, None, None, None, None];
    match own_dataset(alloc, node, &table, &places) {
        Ok(dataset) => Ok(dataset),
        Err(stop) => Err(stop_at(node.id, stop)),
    }
}

// What a node gives that the source feeds, or the first fault. The bytes of the file are given up
// before the node's work begins.
fn given(alloc: Global, source: Node, node: &Node) -> Result<Shared<Dataset>, Stop>
    ensures value { Answers (IsGiven DataRule (Some (tree_of source node.now))) result }
    ensures sound { IfOk result IsSound }
{
    match given_alone(alloc, source) {
        Ok(input) => given_behind(alloc, node, input),
        Err(stop) => Err(stop),
    }
}

/// What the filter's node gives in the network of the fixed history, evaluated from scratch.
///
/// # Errors
///
/// `Fault` exactly where it or the source has one: the first information fault, else the first data
/// fault. Want of memory may come in place of each.
pub fn evaluated(alloc: Global, filter: &NodeFilter, bytes: Bytes) -> Result<Shared<Dataset>, Stop>
    ensures value { Answers (IsScratch (network_for filter.now bytes) op_id) result }
    ensures sound { IfOk result IsSound }
{
    let source = source_node(alloc, bytes)?;
    let op = op_node(filter);
    match known(&source, &op) {
        Ok(_) => given(alloc, source, &op),
        Err(fault) => Err(Stop::Fault(fault)),
    }
}
