//! What a batch comes to.

use viz_network::Refusal;

/// What a batch came to. Only an accepted batch changes anything. `at` counts entries.
#[derive(Clone, Copy, PartialEq, Eq, Debug)]
pub enum EditAnswer {
    /// It was accepted, and is the entry at this position, from 1.
    Done {
        at: u32,
    },
    /// The network of the history, which has so many entries, refuses the edit at this place of the
    /// batch, from 1, and none before it.
    Refused {
        index: u32,
        refusal: Refusal,
        at: u32,
    },
    /// The history has as many entries as it may have, whatever the batch.
    Full {
        at: u32,
    },
    /// Memory ran out.
    Memory,
}
