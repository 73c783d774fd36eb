//! What is made of a node for its file.

ghost use Rattle.std.specs.Prelude.{◌<◌, IsSome, Ok};
ghost use Rattle.viz_network.specs.Network.{node_of};
ghost use Rattle.viz_node_meaning.specs.Scratch.{IsScratch};
ghost use Rattle.viz_account.specs.Steps.Made.{IsStop, Makes, MakesNamed};

use crate::answer::Missing;
use std::alloc::Global;
use std::thread::Threads;
use viz_base::{LongText, NodeId, Shared, Word};
use viz_dataset::Dataset;
use viz_network::{Net, Stop};
use viz_scratch::{cell_count, point_count, scratch, style_with, text_by_workers, text_of};

/// The text of a node's file, with the numbers of what it has.
#[derive(Debug, Drop)]
pub struct Made {
    pub text: LongText,
    pub cells: u64,
    pub points: u64,
}

/// The file of a node that gives this dataset, by so many workers.
pub fn file_by<R: Threads + Sync>(
    rt: &R,
    alloc: Global,
    net: &Net,
    node: NodeId,
    dataset: &Dataset,
    workers: u32,
) -> Result<Made, Stop>
    requires workers { 0 < workers }
    requires there { IsSome (node_of net.now node.0) }
    requires given { IsScratch net.now node.0 (Ok dataset.now) }
    ensures { Makes net.now node.0 result }
{
    let style = style_with(&net.node(node).unwrap().settings);
    let cells = cell_count(dataset);
    let points = point_count(dataset);
    match text_by_workers(rt, alloc, node, &style, dataset, workers) {
        Ok(text) => match (cells, points) {
            (Some(cells), Some(points)) => Ok(Made {
                text,
                cells,
                points,
            }),
            _ => Err(Stop::Memory),
        },
        Err(stop) => Err(stop),
    }
}

// The same. Its counts are taken first, since the dataset is given up while its text is made.
fn file_with(alloc: Global, net: &Net, node: NodeId, dataset: Shared<Dataset>) -> Result<Made, Stop>
    requires there { IsSome (node_of net.now node.0) }
    requires given { IsScratch net.now node.0 (Ok dataset) }
    ensures { Makes net.now node.0 result }
{
    let style = style_with(&net.node(node).unwrap().settings);
    let cells = cell_count(dataset.get());
    let points = point_count(dataset.get());
    match text_of(alloc, node, &style, dataset) {
        Ok(text) => match (cells, points, LongText::of(alloc, text)) {
            (Some(cells), Some(points), Ok(text)) => Ok(Made {
                text,
                cells,
                points,
            }),
            _ => Err(Stop::Memory),
        },
        Err(stop) => Err(stop),
    }
}

// The file of a node that is there, evaluated from scratch.
fn file_of(alloc: Global, net: &Net, node: NodeId) -> Result<Made, Stop>
    requires there { IsSome (node_of net.now node.0) }
    ensures { Makes net.now node.0 result }
{
    match scratch(alloc, net, node) {
        Ok(dataset) => file_with(alloc, net, node, dataset),
        Err(stop) => Err(stop),
    }
}

// The file of a node, if it is there.
fn file_there(alloc: Global, net: &Net, node: NodeId) -> Result<Made, Stop>
    ensures { Makes net.now node.0 result }
{
    match net.node(node) {
        Some(_) => file_of(alloc, net, node),
        None => Err(Stop::Memory),
    }
}

/// Why a node of this network gives nothing.
pub fn missing_of(net: &Net, stop: Stop) -> Missing
    ensures { IsStop net.now stop result }
{
    let Stop::Fault(fault) = stop else {
        return Missing::Memory;
    };
    match net.name(fault.node) {
        Some(name) => Missing::Fault { fault, name },
        None => Missing::Memory,
    }
}

/// The file of the node of this name, evaluated from scratch, or why there is none.
pub fn made_of(alloc: Global, net: &Net, node: &Word) -> Result<Made, Missing>
    ensures { MakesNamed net.now node.now result }
{
    let Some(id) = net.find(node) else {
        return Err(Missing::Unknown);
    };
    match file_there(alloc, net, id) {
        Ok(made) => Ok(made),
        Err(stop) => Err(missing_of(net, stop)),
    }
}
