//! Commands of a script.

use viz_base::{Shape, Word};
use viz_batches::Batch;
use viz_network::Edit;
use viz_words::FileName;

/// A command of a script.
#[derive(Debug, Drop)]
pub enum Order {
    /// An edit of the network. It is no Load.
    Do(Edit),
    /// Edits from `begin` to `end`, none of which is a Load.
    DoAll(Batch),
    /// Loads a file into a node.
    Load {
        node: Word,
        file: FileName,
    },
    /// Writes the result of a node to a file.
    Update {
        node: Word,
        file: FileName,
        shape: Shape,
    },
    /// Counts the sides of a node's surface.
    Audit {
        node: Word,
        shape: Shape,
    },
}

/// A command with the phase, the actor and the line that it stands at, each counted from 1. A batch
/// stands where it begins.
#[derive(Debug, Drop)]
pub struct Step {
    pub phase: u32,
    pub actor: u32,
    pub line: u32,
    pub order: Order,
}

/// A script: its commands, in the order of their lines.
#[derive(Debug, Drop)]
pub struct Script {
    pub steps: Vec<Step>,
}
