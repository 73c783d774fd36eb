//! Entries of a journal.

use viz_batches::Batch;

/// An accepted batch.
#[derive(Debug, Drop)]
pub struct JournalEntry {
    /// Who made it.
    pub actor: u32,
    /// Its number among the entries of this actor, from 1.
    pub count: u32,
    pub batch: Batch,
}
