//! What an update and an audit came to.

ghost use Rattle.std.specs.Prelude.{◌≡◌};
ghost use Rattle.viz_account.specs.Answers.{line_of, audit_line_of, without, audit_without};

use viz_base::Word;
use viz_network::Fault;
use viz_report::{Line, Reason};
use viz_surface_law::Counts;

/// Why a node has no file, or no counts.
#[derive(Clone, Copy, PartialEq, Eq, Debug)]
pub enum Missing {
    /// No node has the name.
    Unknown,
    /// The node of this name has the fault.
    Fault { fault: Fault, name: Word },
    /// Want of memory.
    Memory,
}

/// What an update came to. `at` is the number of entries of the history that made the network.
#[derive(Clone, Copy, PartialEq, Eq, Debug)]
pub enum Answer {
    /// The file was written: its cells and points, and how many tasks ran for it.
    Written {
        at: u32,
        cells: u64,
        points: u64,
        ran: u64,
    },
    /// No node has the name.
    Unknown {
        at: u32,
    },
    /// The node has no file, since the node of this name has the fault.
    Network {
        fault: Fault,
        name: Word,
        at: u32,
    },
    /// The port's write failed.
    WriteFault {
        at: u32,
    },
    /// Want of memory.
    Memory,
}

/// What an audit came to. `at` is the number of entries of the history that made the network.
#[derive(Clone, Copy, PartialEq, Eq, Debug)]
pub enum AuditAnswer {
    /// The sides of the node's surface, counted.
    Counted { at: u32, audit: Counts },
    /// No node has the name.
    Unknown { at: u32 },
    /// The node has no such surface, since the node of this name has the fault.
    Network { fault: Fault, name: Word, at: u32 },
    /// Want of memory.
    Memory,
}

impl Answer {
    /// The answer where there is no file.
    pub fn without(missing: Missing, at: u32) -> Answer
        ensures value { result ≡ without missing at }
    {
        match missing {
            Missing::Unknown => Answer::Unknown { at },
            Missing::Fault { fault, name } => Answer::Network { fault, name, at },
            Missing::Memory => Answer::Memory,
        }
    }

    /// The line of the report.
    pub fn line(&self) -> Line
        ensures value { result ≡ line_of self.now }
    {
        match *self {
            Answer::Written {
                at,
                cells,
                points,
                ran,
            } => Line::File {
                at,
                cells,
                points,
                ran,
            },
            Answer::Unknown { at } => Line::Refused {
                reason: Reason::Unknown,
                at,
            },
            Answer::Network { fault, name, at } => Line::Refused {
                reason: Reason::Fault { fault, node: name },
                at,
            },
            Answer::WriteFault { .. } => Line::WriteFault,
            Answer::Memory => Line::Memory,
        }
    }
}

impl AuditAnswer {
    /// The answer where there are no counts.
    pub fn without(missing: Missing, at: u32) -> AuditAnswer
        ensures value { result ≡ audit_without missing at }
    {
        match missing {
            Missing::Unknown => AuditAnswer::Unknown { at },
            Missing::Fault { fault, name } => AuditAnswer::Network { fault, name, at },
            Missing::Memory => AuditAnswer::Memory,
        }
    }

    /// The line of the report.
    pub fn line(&self) -> Line
        ensures value { result ≡ audit_line_of self.now }
    {
        match *self {
            AuditAnswer::Counted { at, audit } => Line::Audit {
                at,
                sides: audit.sides,
                two: audit.two,
                lone: audit.lone,
                border: audit.border,
            },
            AuditAnswer::Unknown { at } => Line::Refused {
                reason: Reason::Unknown,
                at,
            },
            AuditAnswer::Network { fault, name, at } => Line::Refused {
                reason: Reason::Fault { fault, node: name },
                at,
            },
            AuditAnswer::Memory => Line::Memory,
        }
    }
}
