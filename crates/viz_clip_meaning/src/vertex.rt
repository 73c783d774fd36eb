//! Vertices of a clipped volume.

/// A vertex of a clipped volume: a corner of a cell that is inside, by its leaf, or the cut of an
/// edge between an inside and an outside corner, by both leaves, the lesser one first.
#[derive(Clone, Copy, PartialEq, Eq, Debug)]
pub enum Vertex {
    Corner(u32),
    Cut(u32, u32),
}
