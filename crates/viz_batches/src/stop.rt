//! Why a batch isn't made.

ghost use Rattle.std.specs.Prelude.{◌≡◌};

use std::alloc::AllocError;
use thiserror::Error;
use viz_network::Refusal;

/// Why a batch was not made. The network is as before.
#[derive(Clone, Copy, PartialEq, Eq, Debug, Error)]
pub enum BatchStop {
    /// The first of its edits that is refused, by its place in the batch, from 1, and why.
    #[error("an edit of the batch is refused")]
    Refused { index: u32, refusal: Refusal },
    /// Memory ran out.
    #[error("out of memory")]
    Memory,
}

impl From<AllocError> for BatchStop {
    ghost use Rattle.viz_batches.specs.declared.stop.BatchStop.TheVariants.{Memory};

    ghost from_gives = { λ _ stop. stop ≡ Memory };

    fn from(_error: AllocError) -> BatchStop {
        BatchStop::Memory
    }
}
