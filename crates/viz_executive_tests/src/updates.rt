//! Updates by plan, each beside an evaluation from scratch.

ghost use Rattle.std.specs.Prelude.{◌≡◌, IfOk, IsSome};
ghost use Rattle.viz_entries.specs.History.{network_of};
ghost use Rattle.viz_executive.specs.Produced.{IsOnly};
ghost use Rattle.viz_kept.specs.True.{AreMadeIn, AreTrueIn};
ghost use Rattle.viz_network.specs.Network.{node_of};
ghost use Rattle.viz_plan_law.specs.Ports.{HaveOwnPorts};

use crate::edits::{Plan, make, network, node};
use crate::story::Story;
use std::alloc::Global;
use std::test::Fail;
use std::thread::Threads;
use viz_base::{Bytes, Gate, NodeId, Shape};
use viz_dataset::Dataset;
use viz_executive::{Produced, all_made, produce};
use viz_history::Pinned;
use viz_image_write::{Style, WriteStop, write_image};
use viz_mesh_write::write_mesh;
use viz_network::{Fault, Net, Stop};
use viz_scratch::scratch;

/// What an update came to, beside what its node gives from scratch.
#[derive(Clone, Copy, PartialEq, Eq, Debug)]
pub(crate) enum Outcome {
    /// The same dataset: how many tasks ran, and how many parts were made and used.
    Same { ran: u64, made: usize, used: usize },
    /// The same fault.
    Fault(Fault),
    /// Something else.
    Differs,
    Memory,
}

/// The shape of an update; None where there are no such numbers of pieces and workers.
pub(crate) fn shape(pieces: u32, workers: u32) -> Option<Shape> {
    if pieces == 0 || pieces > 64 || workers == 0 || workers > 64 {
        return None;
    }
    Some(Shape { pieces, workers })
}

// Words at nine places.
const STYLE: Style = Style {
    binary: false,
    digits: 9,
    version: 3,
};

fn text_of(alloc: Global, dataset: &Dataset) -> Result<Bytes, WriteStop> {
    match dataset {
        Dataset::Image(image) => write_image(alloc, image, &STYLE),
        Dataset::Mesh(mesh) => write_mesh(alloc, mesh, &STYLE),
    }
}

// Whether two datasets are written as the same text.
fn are_same(alloc: Global, one: &Dataset, other: &Dataset) -> bool {
    match (text_of(alloc, one), text_of(alloc, other)) {
        (Ok(one), Ok(other)) => one.list() == other.list(),
        _ => false,
    }
}

fn faults(one: Fault, other: Fault) -> Outcome {
    if one == other {
        Outcome::Fault(one)
    } else {
        Outcome::Differs
    }
}

// How many parts the tasks made, the dataset itself among them.
fn made_count(produced: &Produced) -> usize {
    let only = if produced.only.is_some() { 1 } else { 0 };
    produced.made.len().saturating_add(only)
}

// A dataset that an update gave.
fn given(alloc: Global, net: &Net, sink: NodeId, produced: &Produced) -> Outcome
    requires there { IsSome (node_of net.now sink.0) }
{
    match scratch(alloc, net, sink) {
        Ok(whole) if are_same(alloc, &produced.dataset, whole.get()) => Outcome::Same {
            ran: produced.ran,
            made: made_count(produced),
            used: produced.used.len(),
        },
        Err(Stop::Memory) => Outcome::Memory,
        _ => Outcome::Differs,
    }
}

// A stop of an update.
fn stopped(alloc: Global, net: &Net, sink: NodeId, stop: Stop) -> Outcome
    requires there { IsSome (node_of net.now sink.0) }
{
    match (stop, scratch(alloc, net, sink)) {
        (Stop::Fault(one), Err(Stop::Fault(other))) => faults(one, other),
        (Stop::Memory, _) => Outcome::Memory,
        (_, Err(Stop::Memory)) => Outcome::Memory,
        _ => Outcome::Differs,
    }
}

fn produced<R: Threads + Sync, G: Gate + Sync>(
    rt: &R,
    alloc: Global,
    pinned: &Pinned,
    sink: NodeId,
    shape: &Shape,
    gate: &G,
) -> Result<Produced, Stop>
    requires there { IsSome (node_of pinned.now.net sink.0) }
    requires ports { HaveOwnPorts pinned.now.net }
    requires entries { AreTrueIn pinned.now.net pinned.now.entries }
    ensures made { IfOk result (λ produced. AreMadeIn pinned.now.net produced.made.items) }
    ensures only { IfOk result (λ produced. IsOnly pinned.now.net produced.dataset produced.only) }
{
    produce(
        rt,
        alloc,
        &pinned.net,
        pinned.entries.list(),
        sink,
        shape,
        gate,
    )
}

// Keeps what an update made, once its dataset isn't needed any more.
fn kept(
    alloc: Global,
    story: &mut Story,
    _net: &Net,
    produced: Produced,
    outcome: Outcome,
) -> Outcome
    requires network { _net.now ≡ network_of story.old.history }
    requires made { AreMadeIn _net.now produced.made.items }
    requires only { IsOnly _net.now produced.dataset produced.only }
{
    let Produced {
        dataset,
        used,
        made,
        only,
        ..
    } = produced;
    match all_made(alloc, dataset, made, only) {
        Ok(made) => {
            story.keep(&used, &made);
            outcome
        }
        Err(_) => Outcome::Memory,
    }
}

// An update that keeps what it made.
fn updated<R: Threads + Sync, G: Gate + Sync>(
    rt: &R,
    alloc: Global,
    story: &mut Story,
    pinned: &Pinned,
    sink: NodeId,
    shape: &Shape,
    gate: &G,
) -> Outcome
    requires network { pinned.now.net ≡ network_of story.old.history }
    requires there { IsSome (node_of pinned.now.net sink.0) }
    requires ports { HaveOwnPorts pinned.now.net }
    requires entries { AreTrueIn pinned.now.net pinned.now.entries }
{
    match produced(rt, alloc, pinned, sink, shape, gate) {
        Ok(produced) => {
            let outcome = given(alloc, &pinned.net, sink, &produced);
            kept(alloc, story, &pinned.net, produced, outcome)
        }
        Err(stop) => stopped(alloc, &pinned.net, sink, stop),
    }
}

// The same of a node, if there is such.
fn updated_at<R: Threads + Sync, G: Gate + Sync>(
    rt: &R,
    alloc: Global,
    story: &mut Story,
    sink: NodeId,
    shape: &Shape,
    gate: &G,
) -> Outcome {
    let Some(pinned) = story.pin(alloc) else {
        return Outcome::Memory;
    };
    if pinned.net.node(sink).is_none() {
        return Outcome::Differs;
    }
    updated(rt, alloc, story, &pinned, sink, shape, gate)
}

/// Updates the node of a name in so many pieces by so many workers, and keeps what was made.
pub(crate) fn update<R: Threads + Sync, G: Gate + Sync>(
    rt: &R,
    alloc: Global,
    story: &mut Story,
    sink: &str,
    numbers: (u32, u32),
    gate: &G,
) -> Result<Outcome, Fail> {
    let sink = node(story, sink)?;
    let (pieces, workers) = numbers;
    let shape = shape(pieces, workers).ok_or("no shape")?;
    Ok(updated_at(rt, alloc, story, sink, &shape, gate))
}

/// The same of the network of these edits, where nothing is kept.
pub(crate) fn fresh<R: Threads + Sync, G: Gate + Sync>(
    rt: &R,
    alloc: Global,
    edits: &[Plan<'_>],
    sink: &str,
    numbers: (u32, u32),
    gate: &G,
) -> Result<Outcome, Fail> {
    let mut story = network(alloc, edits)?;
    update(rt, alloc, &mut story, sink, numbers, gate)
}

/// Edits that come first, the sink, in how many pieces, how many tasks run, and how many parts are
/// made and used.
pub(crate) type Row<'a> = (&'a [Plan<'a>], &'a str, u32, u64, usize, usize);

/// What the edits and then the update come to.
pub(crate) fn got<R: Threads + Sync, G: Gate + Sync>(
    rt: &R,
    alloc: Global,
    story: &mut Story,
    row: &Row<'_>,
    gate: &G,
) -> Result<Outcome, Fail> {
    let (edits, sink, pieces, _, _, _) = *row;
    make(alloc, story, edits)?;
    update(rt, alloc, story, sink, (pieces, 2), gate)
}

/// What the row says.
pub(crate) fn wanted(row: &Row<'_>) -> Outcome {
    let (_, _, _, ran, made, used) = *row;
    Outcome::Same { ran, made, used }
}
