//! Why nothing is made of a dataset.

ghost use Rattle.std.specs.Prelude.{◌≡◌};
ghost use Rattle.viz_reshape.specs.declared.stop.MakeStop.TheVariants.{Memory};

use std::alloc::AllocError;
use thiserror::Error;
use viz_network::Cause;

/// Why nothing is made of a dataset.
#[derive(Debug, Drop, Error)]
pub(crate) enum MakeStop {
    /// A cause.
    #[error("nothing is made of a dataset")]
    Cause(Cause),
    /// Want of memory.
    #[error("out of memory")]
    Memory,
}

impl From<AllocError> for MakeStop {
    ghost from_gives = { λ _ stop. stop ≡ Memory };

    fn from(_error: AllocError) -> MakeStop {
        MakeStop::Memory
    }
}
