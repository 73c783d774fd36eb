//! A network for use outside of a turn.

use viz_base::Items;
use viz_network::Net;
use viz_parts::Stored;

/// A network, the number of entries of the history that it is of, and the parts that were kept
/// then.
#[derive(Drop)]
pub struct Pinned {
    pub at: u32,
    pub net: Net,
    /// The most recently used first.
    pub entries: Items<Stored>,
}
