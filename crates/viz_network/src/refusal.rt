//! Why an edit isn't made.

ghost use Rattle.std.specs.Prelude.{◌≡◌};

use std::alloc::{AllocError, AllocFailed};
use thiserror::Error;

/// Why an edit is refused. A report gives the word of the variant; for one edit they are asked in
/// the order of docs/FORMATS-OF-SCRIPTS.md, "Edits".
#[derive(Clone, Copy, PartialEq, Eq, Debug, Error)]
pub enum Refusal {
    /// Exactly where the name of an Add is taken.
    #[error("a node has this name")]
    Exists,
    /// Exactly where no node has the name; of a Connect, `from` is asked before `to`.
    #[error("no node has this name")]
    Unknown,
    /// Exactly where the kind of `to` has no port of this number.
    #[error("the node has no such port")]
    NoPort,
    /// Exactly where the kind hasn't the parameter, or the node of a Load is no file node.
    #[error("the node has no such parameter")]
    NoParam,
    /// Exactly where the parameter may not have the value.
    #[error("the parameter may not have this value")]
    BadValue,
    /// Exactly where `from` is `to`, or lies downstream of it.
    #[error("the connection would close a cycle")]
    WouldCycle,
    /// Exactly where some port is connected to the node of a Remove.
    #[error("the node feeds another")]
    InUse,
    /// Exactly where an Add comes to 256 nodes.
    #[error("the network has 256 nodes")]
    TooManyNodes,
}

/// Why an edit was not made. The network is as before.
#[derive(Clone, Copy, PartialEq, Eq, Debug, Error)]
pub enum ApplyStop {
    /// It is refused.
    #[error("the edit is refused")]
    Refused(Refusal),
    /// Memory ran out at an edit that isn't refused.
    #[error("out of memory")]
    Memory,
}

impl From<Refusal> for ApplyStop {
    ghost use Rattle.viz_network.specs.declared.refusal.ApplyStop.TheVariants.{Refused};

    ghost from_gives = { λ refusal stop. stop ≡ Refused refusal };

    fn from(refusal: Refusal) -> ApplyStop {
        ApplyStop::Refused(refusal)
    }
}

impl From<AllocError> for ApplyStop {
    ghost use Rattle.viz_network.specs.declared.refusal.ApplyStop.TheVariants.{Memory};

    ghost from_gives = { λ _ stop. stop ≡ Memory };

    fn from(_error: AllocError) -> ApplyStop {
        ApplyStop::Memory
    }
}
