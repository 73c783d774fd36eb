//! Why one node makes nothing.

ghost use Rattle.std.specs.Prelude.{◌≡◌};
ghost use Rattle.viz_node_rules.specs.declared.stop.OwnStop.TheVariants.{Cause as Caused, Memory};

use std::alloc::AllocError;
use thiserror::Error;
use viz_network::Cause;

/// Why one node makes nothing.
#[derive(Debug, Drop, Error)]
pub enum OwnStop {
    /// A cause of its own.
    #[error("a node gives nothing")]
    Cause(Cause),
    /// Want of memory.
    #[error("out of memory")]
    Memory,
}

impl From<Cause> for OwnStop {
    ghost from_gives = { λ cause stop. stop ≡ Caused cause };

    fn from(cause: Cause) -> OwnStop {
        OwnStop::Cause(cause)
    }
}

impl From<AllocError> for OwnStop {
    ghost from_gives = { λ _ stop. stop ≡ Memory };

    fn from(_error: AllocError) -> OwnStop {
        OwnStop::Memory
    }
}
