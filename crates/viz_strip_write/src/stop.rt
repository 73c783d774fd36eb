//! Why a mesh wasn't written.

ghost use Rattle.std.specs.Prelude.{◌≡◌};
ghost use Rattle.viz_strip_write.specs.declared.stop.StripStop.TheVariants.{TooWide as Wide};
ghost use Rattle.viz_strip_write.specs.declared.stop.StripStop.TheVariants.{Memory};

use std::alloc::AllocError;
use thiserror::Error;
use viz_fraction::TooWide;

/// Why a mesh wasn't written.
#[derive(Debug, Drop, Error)]
pub enum StripStop {
    /// The counts fit, and a written coordinate or scalar leaves 64 bits.
    #[error("a written number leaves 64 bits")]
    TooWide,
    /// The points, or the numbers of a section, are more than 2^31 - 1.
    #[error("too many points or cells")]
    TooMany,
    /// Want of memory.
    #[error("out of memory")]
    Memory,
}

impl From<TooWide> for StripStop {
    ghost from_gives = { λ _ stop. stop ≡ Wide };

    fn from(_error: TooWide) -> StripStop {
        StripStop::TooWide
    }
}

impl From<AllocError> for StripStop {
    ghost from_gives = { λ _ stop. stop ≡ Memory };

    fn from(_error: AllocError) -> StripStop {
        StripStop::Memory
    }
}
