//! Why a section has no result.
ghost use Rattle.std.specs.Prelude.{◌≡◌};
ghost use Rattle.viz_meaning.specs.declared.stop.WorkStop.TheVariants.{TooWide as Wide, Memory};

use std::alloc::{AllocError, AllocFailed};
use thiserror::Error;
use viz_fraction::TooWide;

/// Why a section or a contour has no result.
#[derive(Debug, Drop, Error)]
pub enum WorkStop {
    /// A term, a value or a crossing in some cell is wide.
    #[error("a number is too wide")]
    TooWide,
    /// Want of memory.
    #[error("out of memory")]
    Memory,
}

impl From<TooWide> for WorkStop {
    ghost from_gives = { λ _ stop. stop ≡ Wide };

    fn from(_error: TooWide) -> WorkStop {
        WorkStop::TooWide
    }
}

impl From<AllocError> for WorkStop {
    ghost from_gives = { λ _ stop. stop ≡ Memory };

    fn from(_error: AllocError) -> WorkStop {
        WorkStop::Memory
    }
}

impl<T: Drop> From<AllocFailed<T>> for WorkStop {
    ghost from_gives = { λ _ stop. stop ≡ Memory };

    fn from(_error: AllocFailed<T>) -> WorkStop {
        WorkStop::Memory
    }
}
