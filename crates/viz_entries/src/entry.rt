//! Entries of a history.

use viz_batches::Batch;

/// An accepted batch, the number of the pass that made it, and its number among that pass's
/// entries, from 1.
#[derive(Debug, Drop)]
pub struct Entry {
    pub pass: u64,
    pub count: u32,
    pub batch: Batch,
}
