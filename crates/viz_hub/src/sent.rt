//! What a pass published.

use viz_base::{NodeId, Shape};

/// A publication: of how many entries the network was that the parts were made in, for which node
/// they were made, and in which shape.
#[derive(Clone, Copy, PartialEq, Eq, Debug)]
pub struct Sent {
    pub at: u32,
    pub sink: NodeId,
    pub shape: Shape,
}
