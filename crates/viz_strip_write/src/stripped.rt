//! The type `Stripped`.

use viz_base::Bytes;

/// The text of a mesh with strips, and how many strips and triangles it has.
#[derive(Debug, Drop)]
pub struct Stripped {
    pub text: Bytes,
    pub strips: u64,
    pub triangles: u64,
}
