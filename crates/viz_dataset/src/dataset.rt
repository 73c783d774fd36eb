//! What a file holds, and what is known of it from its header alone.

use crate::image::Image;
use viz_extent::Extent;
use viz_sheet::Mesh;

/// What the header of a file says.
#[derive(Clone, Copy, Debug)]
pub enum Info {
    /// An image: its whole extent, and its origin and spacing in billionths along x, y and z.
    Image {
        whole: Extent,
        origin: [i128; 3],
        spacing: [i128; 3],
    },
    /// A mesh, of which the header says no more.
    Mesh,
}

/// What a file holds.
#[derive(Debug, Drop)]
pub enum Dataset {
    Image(Image),
    Mesh(Mesh),
}
