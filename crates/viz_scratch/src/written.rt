//! The written file of a node.

ghost use Rattle.std.specs.Prelude.{◌≡◌, ◌<◌, IsSome, IsTrue};
ghost use Rattle.viz_image_write.specs.Version.{is_version, is_later};
ghost use Rattle.viz_network.specs.Network.{node_of};
ghost use Rattle.viz_node_meaning.specs.Information.{within};
ghost use Rattle.viz_node_meaning.specs.Scratch.{Answers};
ghost use Rattle.viz_scratch.specs.Written.{IsFileOf, IsTextOf, style_with, style_seen, of_write};

use crate::evaluation::scratch;
use std::alloc::Global;
use std::thread::Threads;
use viz_base::{Bytes, LongText, NodeId, Shared};
use viz_dataset::Dataset;
use viz_image_write::{Style, WriteStop, write_image};
use viz_kinds::Settings;
use viz_mesh_write::{write_mesh, write_mesh_by_workers, write_owned_mesh};
use viz_network::{Cause, Fault, Net, Stop};

fn digits_with(digits: u8) -> u8
    ensures { result ≡ within 0 9 digits }
{
    if digits < 9 { digits } else { 9 }
}

// Version 5.1 where it is asked for, else 3.0.
fn version_with(version: u8) -> u8
    ensures value { is_later result ≡ is_later version }
    ensures known { IsTrue (is_version result) }
{
    if version == 5 { 5 } else { 3 }
}

/// The style of a node's file: that of its parameters where it is a writer, else words at three
/// places in a file of version 3.0.
pub fn style_with(settings: &Settings) -> Style
    ensures value { style_seen result ≡ style_with settings.now }
{
    match settings {
        Settings::Writer {
            binary,
            digits,
            version,
        } => Style {
            binary: *binary,
            digits: digits_with(*digits),
            version: version_with(*version),
        },
        _ => Style {
            binary: false,
            digits: 3,
            version: 3,
        },
    }
}

fn stopped(node: NodeId, stop: WriteStop) -> Stop
    ensures { result ≡ of_write node stop }
{
    match stop {
        WriteStop::TooMany => Stop::Fault(Fault {
            node,
            cause: Cause::TooMany,
        }),
        WriteStop::TooWide => Stop::Fault(Fault {
            node,
            cause: Cause::TooWide,
        }),
        WriteStop::Memory => Stop::Memory,
    }
}

// The text of a dataset that the node gives, in the style.
fn text_with(alloc: Global, node: NodeId, style: &Style, dataset: &Dataset) -> Result<Bytes, Stop>
    ensures value { Answers (IsTextOf (style_seen style.now) node.0 dataset.now) result }
{
    let text = match dataset {
        Dataset::Image(image) => write_image(alloc, image, style),
        Dataset::Mesh(mesh) => write_mesh(alloc, mesh, style),
    };
    match text {
        Ok(text) => Ok(text),
        Err(stop) => Err(stopped(node, stop)),
    }
}

/// The text of a dataset that the node gives, in the style. That of a mesh is made by so many
/// workers, and is the same for every number of them.
///
/// # Errors
///
/// `Fault` of the node with `TooMany` exactly where the text has too many points or cells, and with
/// `TooWide` exactly where it hasn't and a written number doesn't fit. Want of memory may come in
/// place of `TooWide` and of a text.
pub fn text_by_workers<R: Threads + Sync>(
    rt: &R,
    alloc: Global,
    node: NodeId,
    style: &Style,
    dataset: &Dataset,
    workers: u32,
) -> Result<LongText, Stop>
    requires { 0 < workers }
    ensures value { Answers (IsTextOf (style_seen style.now) node.0 dataset.now) result }
{
    let Dataset::Mesh(mesh) = dataset else {
        let text = text_with(alloc, node, style, dataset)?;
        return Ok(LongText::of(alloc, text)?);
    };
    match write_mesh_by_workers(rt, alloc, mesh, style, workers) {
        Ok(text) => Ok(text),
        Err(stop) => Err(stopped(node, stop)),
    }
}

// The same of a dataset that is given up.
fn own_text(alloc: Global, node: NodeId, style: &Style, dataset: Dataset) -> Result<Bytes, Stop>
    ensures value { Answers (IsTextOf (style_seen style.now) node.0 dataset) result }
{
    let text = match dataset {
        Dataset::Image(image) => write_image(alloc, &image, style),
        Dataset::Mesh(mesh) => write_owned_mesh(alloc, mesh, style),
    };
    match text {
        Ok(text) => Ok(text),
        Err(stop) => Err(stopped(node, stop)),
    }
}

/// The text of a dataset that the node gives, in the style, of an owner that is given up: where it
/// is the one owner of a mesh, the mesh is given up while its text is made.
///
/// # Errors
///
/// Those of `text_by_workers`.
pub fn text_of(
    alloc: Global,
    node: NodeId,
    style: &Style,
    dataset: Shared<Dataset>,
) -> Result<Bytes, Stop>
    ensures value { Answers (IsTextOf (style_seen style.now) node.0 dataset) result }
{
    match dataset.try_unwrap() {
        Ok(dataset) => own_text(alloc, node, style, dataset),
        Err(dataset) => text_with(alloc, node, style, dataset.get()),
    }
}

/// The text of what a node gives, evaluated from scratch, in the style of the node.
///
/// # Errors
///
/// The fault of `scratch`, or that of the writing; want of memory may come in place of each.
pub fn file_text(alloc: Global, net: &Net, node: NodeId) -> Result<Bytes, Stop>
    requires there { IsSome (node_of net.now node.0) }
    ensures value { Answers (IsFileOf net.now node.0) result }
{
    let dataset = scratch(alloc, net, node)?;
    let style = style_with(&net.node(node).unwrap().settings);
    text_of(alloc, node, &style, dataset)
}
