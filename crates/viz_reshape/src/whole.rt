//! What is made of a whole file.

ghost use Rattle.std.specs.Prelude.{◌≡◌};
ghost use Rattle.viz_node_meaning.specs.Scratch.{Answers};
ghost use Rattle.viz_reshape.specs.Reshape.{IsMadeOf, IsReshaped};
ghost use Rattle.viz_reshape.specs.Steps.Work.{IsOneIn, Makes, stop_at};

use crate::clips::{clip_of, plane_form};
use crate::reading::dataset_of;
use crate::reshape::{MadeFile, Reshape};
use crate::stop::MakeStop;
use crate::strips::strips_of;
use std::alloc::Global;
use viz_base::{Bytes, NodeId};
use viz_dataset::Dataset;
use viz_network::{Fault, Stop};

/// What is made of a dataset, which is given up: before the text is made, where it is clipped.
fn made_of(alloc: Global, reshape: &Reshape, dataset: Dataset) -> Result<MadeFile, MakeStop>
    requires one { IsOneIn dataset }
    ensures value { Makes (IsMadeOf reshape.now dataset) result }
{
    match reshape {
        Reshape::Strip => strips_of(alloc, &dataset),
        Reshape::Clip { a, b, c, r } => clip_of(alloc, &plane_form(a, b, c, r), dataset),
    }
}

/// A stop of the work at a node.
fn stop_at(node: NodeId, stop: MakeStop) -> Stop
    ensures value { result ≡ stop_at node stop }
{
    match stop {
        MakeStop::Cause(cause) => Stop::Fault(Fault { node, cause }),
        MakeStop::Memory => Stop::Memory,
    }
}

/// What is made of a file's bytes, which are given up behind their reading.
///
/// # Errors
///
/// `Fault` of the source exactly where the file has a first fault, and it is that one; else of the
/// other node: `WrongInput(1)` exactly where the dataset isn't what is taken, and else `TooMany`
/// and `TooWide` exactly where counts and numbers don't fit. Want of memory may come in place of
/// each answer.
pub fn reshape_file(
    alloc: Global,
    reshape: &Reshape,
    source: NodeId,
    op: NodeId,
    bytes: Bytes,
) -> Result<MadeFile, Stop>
    ensures value { Answers (IsReshaped reshape.now source.0 op.0 bytes) result }
{
    let dataset = match dataset_of(alloc, bytes) {
        Ok(dataset) => dataset,
        Err(stop) => return Err(stop_at(source, stop)),
    };
    match made_of(alloc, reshape, dataset) {
        Ok(made) => Ok(made),
        Err(stop) => Err(stop_at(op, stop)),
    }
}
