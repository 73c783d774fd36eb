//! Why reading stops.

ghost use Rattle.std.specs.Prelude.{◌≡◌};
ghost use Rattle.viz_attr.specs.declared.stop.AttrStop.TheVariants.{File, Memory};

use std::alloc::{AllocError, AllocFailed};
use thiserror::Error;
use viz_lex::FileFault;

/// Why no array was read.
#[derive(Debug, Drop, Error)]
pub enum AttrStop {
    /// The first fault of the attribute parts.
    #[error("the file has a fault")]
    File(FileFault),
    /// Memory ran out.
    #[error("memory ran out")]
    Memory,
}

impl From<FileFault> for AttrStop {
    ghost from_gives = { λ fault stop. stop ≡ File fault };

    fn from(fault: FileFault) -> AttrStop {
        AttrStop::File(fault)
    }
}

impl From<AllocError> for AttrStop {
    ghost from_gives = { λ _ stop. stop ≡ Memory };

    fn from(_error: AllocError) -> AttrStop {
        AttrStop::Memory
    }
}

impl<T: Drop> From<AllocFailed<T>> for AttrStop {
    ghost from_gives = { λ _ stop. stop ≡ Memory };

    fn from(_error: AllocFailed<T>) -> AttrStop {
        AttrStop::Memory
    }
}
