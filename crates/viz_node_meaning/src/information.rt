//! What is known of a node's dataset before its numbers are.

use viz_extent::Extent;

/// Three lengths in billionths, along x, y and z.
#[derive(Clone, Copy, PartialEq, Eq, Debug)]
pub struct Lengths {
    pub x: i128,
    pub y: i128,
    pub z: i128,
}

/// The points of an image: their extent, the position of index 0 and the steps between them.
#[derive(Clone, Copy, Debug)]
pub struct Grid {
    pub extent: Extent,
    pub origin: Lengths,
    pub spacing: Lengths,
}

/// What is known of a dataset: an image with these points, or a mesh.
#[derive(Clone, Copy, Debug)]
pub enum Information {
    OfImage(Grid),
    OfMesh,
}
