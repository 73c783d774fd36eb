//! What nodes make of parts, told in short.

ghost use Rattle.std.specs.Prelude.{◌≡◌};

use crate::tests::taken::is_taken;
use std::alloc::Global;
use viz_base::{Bytes, NodeId, Shared};
use viz_column::Column;
use viz_dataset::Image;
use viz_extent::Extent;
use viz_kinds::Settings;
use viz_network::{Cause, Node};
use viz_node_parts::node_part;
use viz_node_rules::OwnStop;
use viz_parts::{Part, PartSheet, Request};
use viz_piece_tets::asked;

/// What a node makes.
#[derive(Clone, Copy, Debug, PartialEq, Eq)]
pub(super) enum Answer {
    /// The bounds and the first four numbers, or 0 where there are fewer.
    Image([u32; 6], [i128; 4]),
    /// How many sheets, points, and cells of level 0, 1 and 2.
    Mesh(usize, usize, [u32; 3]),
    Cause(Cause),
    Memory,
}

/// A crop, which has all of what is asked for.
pub(super) const CROP: Settings = Settings::Crop {
    x0: 0,
    x1: 9,
    y0: 0,
    y1: 9,
    z0: 0,
    z1: 9,
};

// A node with these parameters and this file.
fn node(settings: Settings, file: Option<Shared<Bytes>>) -> Node
    ensures { result.settings ≡ settings }
{
    Node {
        id: NodeId(1),
        settings,
        release: false,
        inputs: [None; 8],
        file,
        stamp: 1,
    }
}

/// What a node without a file makes. Parts that it doesn't take count as want of memory.
pub(super) fn made(
    alloc: Global,
    settings: Settings,
    whole: Option<Extent>,
    request: Request,
    inputs: &[Option<Shared<Part>>],
) -> Result<Part, OwnStop> {
    if !is_taken(&settings, &whole, &request, inputs) {
        return Err(OwnStop::Memory);
    }
    node_part(alloc, &node(settings, None), &whole, &request, inputs)
}

/// All of what a file is read as.
pub(super) fn read(
    alloc: Global,
    settings: Settings,
    file: Option<Shared<Bytes>>,
) -> Result<Part, OwnStop> {
    let request = Request::Piece {
        p: 0,
        n: 1,
        ghosts: 0,
    };
    if !is_taken(&settings, &None, &request, &[]) {
        return Err(OwnStop::Memory);
    }
    node_part(alloc, &node(settings, file), &None, &request, &[])
}

/// A block of what a node makes of images.
pub(super) fn block(
    alloc: Global,
    settings: Settings,
    whole: [u32; 6],
    out: [u32; 6],
    inputs: &[Option<Shared<Part>>],
) -> Result<Part, OwnStop> {
    match Extent::new(out) {
        Some(out) => made(
            alloc,
            settings,
            Extent::new(whole),
            Request::Block(out),
            inputs,
        ),
        None => Err(OwnStop::Memory),
    }
}

/// A piece of what a node makes of an image, from the planes that the piece asks for.
pub(super) fn piece(
    alloc: Global,
    settings: Settings,
    whole: [u32; 6],
    (p, n, ghosts): (u32, u32, u32),
    image: &[Option<Shared<Part>>],
) -> Result<Part, OwnStop> {
    let Some(whole) = Extent::new(whole) else {
        return Err(OwnStop::Memory);
    };
    if p >= n {
        return Err(OwnStop::Memory);
    }
    let planes = asked(&whole, p, n, ghosts);
    let slab = made(alloc, CROP, None, Request::Block(planes), image)?;
    let slab = Shared::new(alloc, slab)?;
    let request = Request::Piece { p, n, ghosts };
    made(alloc, settings, Some(whole), request, &[Some(slab)])
}

// How many cells of a sheet have level 0, 1 and 2 or more.
fn levels_in(sheet: &PartSheet) -> [u32; 3] {
    let mut counts: [u32; 3] = [0, 0, 0];
    for i in 0..sheet.sheet().cell_count() {
        match sheet.level(i) {
            0 => counts[0] = counts[0].saturating_add(1),
            1 => counts[1] = counts[1].saturating_add(1),
            _ => counts[2] = counts[2].saturating_add(1),
        }
    }
    counts
}

// A number of an image, or 0 past its last one.
fn number(column: &Column, i: u64) -> i128 {
    if i < column.len() { column.get(i) } else { 0 }
}

// The sheets of a mesh in short.
fn mesh_told(sheets: &[PartSheet]) -> Answer {
    let mut points: usize = 0;
    let mut levels: [u32; 3] = [0, 0, 0];
    for sheet in sheets {
        points = points.saturating_add(sheet.sheet().point_count());
        let [a, b, c] = levels_in(sheet);
        let [x, y, z] = levels;
        levels = [
            x.saturating_add(a),
            y.saturating_add(b),
            z.saturating_add(c),
        ];
    }
    Answer::Mesh(sheets.len(), points, levels)
}

// An image in short.
fn image_told(image: &Image) -> Answer {
    let column = image.column();
    let numbers = [
        number(column, 0),
        number(column, 1),
        number(column, 2),
        number(column, 3),
    ];
    Answer::Image(image.extent().bounds(), numbers)
}

/// What a node makes in short.
pub(super) fn told(made: Result<Part, OwnStop>) -> Answer {
    match made {
        Ok(Part::Image(image)) => image_told(&image),
        Ok(Part::Mesh(sheets)) => mesh_told(&sheets),
        Err(OwnStop::Cause(cause)) => Answer::Cause(cause),
        Err(OwnStop::Memory) => Answer::Memory,
    }
}
