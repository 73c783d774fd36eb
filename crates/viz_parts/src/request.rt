//! What a consumer asks for, and what it is given.

use crate::part_sheet::PartSheet;
use viz_dataset::Image;
use viz_extent::Extent;

/// What a consumer asks for.
#[derive(Clone, Copy, Debug, PartialEq, Eq, Hash)]
pub enum Request {
    /// The points of an image with indices in this extent.
    Block(Extent),
    /// Piece `p` of `n`, counted from 0, and the cells around it up to so many steps.
    Piece { p: u32, n: u32, ghosts: u32 },
}

/// What a request is answered with.
#[derive(Debug, Drop)]
pub enum Part {
    Image(Image),
    /// A part of each sheet of a mesh, in their order.
    Mesh(Vec<PartSheet>),
}
