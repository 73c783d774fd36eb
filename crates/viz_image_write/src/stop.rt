//! Why a dataset wasn't written.

ghost use Rattle.std.specs.Prelude.{◌≡◌};
ghost use Rattle.viz_image_write.specs.declared.stop.WriteStop.TheVariants.{TooWide as Wide};
ghost use Rattle.viz_image_write.specs.declared.stop.WriteStop.TheVariants.{Memory};

use std::alloc::AllocError;
use thiserror::Error;
use viz_fraction::TooWide;

/// Why a dataset wasn't written.
#[derive(Debug, Drop, Error)]
pub enum WriteStop {
    /// The counts fit, and a written coordinate or scalar leaves 64 bits.
    #[error("a written number leaves 64 bits")]
    TooWide,
    /// Exactly where the points, or the numbers of all cells, are more than 2^31 - 1.
    #[error("too many points or cells")]
    TooMany,
    /// Want of memory.
    #[error("out of memory")]
    Memory,
}

impl From<TooWide> for WriteStop {
    ghost from_gives = { λ _ stop. stop ≡ Wide };

    fn from(_error: TooWide) -> WriteStop {
        WriteStop::TooWide
    }
}

impl From<AllocError> for WriteStop {
    ghost from_gives = { λ _ stop. stop ≡ Memory };

    fn from(_error: AllocError) -> WriteStop {
        WriteStop::Memory
    }
}
