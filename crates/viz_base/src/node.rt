//! What a network's callers name: nodes, arrays and the shape of an update.

ghost use Rattle.std.specs.Prelude.{◌≤◌};

use crate::word::Word;

/// A node: the position in the edit history, from 1, of the edit that added it.
#[derive(Clone, Copy, PartialEq, Eq, PartialOrd, Ord, Hash, Debug)]
pub struct NodeId(pub u32);

/// Which point array of a file is read as the scalars.
#[derive(Clone, Copy, PartialEq, Eq, Debug)]
pub enum Pick {
    /// The first array of SCALARS.
    First,
    /// None: every scalar is 0.
    Zero,
    /// The first array of this name.
    Named(Word),
}

/// In how many pieces a result is computed, and by how many workers.
#[derive(Clone, Copy, PartialEq, Eq, Debug)]
pub struct Shape {
    /// The number of pieces, 1 to 64.
    pub pieces: u32,
    /// The number of workers, 1 to 64.
    pub workers: u32,
    pub ghost some_pieces: { 1 ≤ pieces },
    pub ghost few_pieces: { pieces ≤ 64 },
    pub ghost some_workers: { 1 ≤ workers },
    pub ghost few_workers: { workers ≤ 64 },
}
