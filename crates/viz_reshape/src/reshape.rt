//! What is made of a file.

use viz_base::Bytes;

/// What is made of a file that no kind of node makes.
#[derive(Clone, Copy, PartialEq, Eq, Debug)]
pub enum Reshape {
    /// The triangles of a mesh as strips.
    Strip,
    /// The part of tetrahedra, or of an image through its tetrahedra, where a x + b y + c z - r is
    /// at least 0.
    Clip { a: i64, b: i64, c: i64, r: i64 },
}

/// What is counted of a written file.
#[derive(Clone, Copy, PartialEq, Eq, Debug)]
pub enum FileCounts {
    /// Its cells and points.
    Cells {
        cells: u64,
        points: u64,
    },
    /// Its strips, the triangles that these have, and its points.
    Strips {
        strips: u64,
        triangles: u64,
        points: u64,
    },
}

/// The text of a file, and what is counted of it.
#[derive(Debug, Drop)]
pub struct MadeFile {
    pub text: Bytes,
    pub counts: FileCounts,
}
