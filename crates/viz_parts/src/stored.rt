//! What is kept, and what it is kept under.

use crate::request::{Part, Request};
use viz_base::{NodeId, Shared};

/// What a part is kept under. Parts of one key are equal wherever the node has this stamp.
#[derive(Clone, Copy, PartialEq, Eq, Hash, Debug)]
pub struct Key {
    pub node: NodeId,
    /// The greatest position of an edit that stamped a node of the cone.
    pub stamp: u32,
    pub request: Request,
}

/// A kept part with its key.
#[derive(Debug, Drop)]
pub struct Stored {
    pub key: Key,
    pub part: Shared<Part>,
}
