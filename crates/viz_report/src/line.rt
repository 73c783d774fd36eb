//! Lines and rows of a report.

use viz_base::Word;
use viz_network::{Fault, Refusal};

/// Why a command is refused.
#[derive(Clone, Copy, PartialEq, Eq, Debug)]
pub enum Reason {
    /// The network refuses the edit.
    Edit(Refusal),
    /// The network refuses the edit at this place of the batch, from 1, and none before it.
    Batch { index: u32, refusal: Refusal },
    /// The history has as many entries as it may have.
    Full,
    /// The file that was to be loaded is longer than the port's limit.
    TooLong,
    /// No node has the name of an update or an audit.
    Unknown,
    /// The node of an update has no file, or that of an audit no surface, for this fault of the
    /// node of this name.
    Fault { fault: Fault, node: Word },
}

/// What a command came to: a line of the report. `at` is the number of entries of the history that
/// the line speaks of.
#[derive(Clone, Copy, PartialEq, Eq, Debug)]
pub enum Line {
    /// The edit is the entry at this position.
    Edit {
        at: u32,
    },
    /// The file of a node was written: its cells and points, and how many nodes ran for it.
    File {
        at: u32,
        cells: u64,
        points: u64,
        ran: u64,
    },
    /// The surface of a node was audited: how many sides its triangles have, how many of them lie
    /// in two triangles, how many in one, and how many of these on the boundary of the image's
    /// grid.
    Audit {
        at: u32,
        sides: u64,
        two: u64,
        lone: u64,
        border: u64,
    },
    /// The command was refused.
    Refused {
        reason: Reason,
        at: u32,
    },
    /// The port's read failed.
    ReadFault,
    /// The port's write failed.
    WriteFault,
    /// Want of memory.
    Memory,
}

/// A row of a report: the line of a command, and whose command it is.
#[derive(Clone, Copy, PartialEq, Eq, Debug)]
pub struct Row {
    /// The actor, from 1.
    pub actor: u32,
    /// The number of the command among those of its actor, from 1.
    pub count: u64,
    /// What the command came to.
    pub line: Line,
}
