//! Why reading stops.

ghost use Rattle.std.specs.Prelude.{◌≡◌};
ghost use Rattle.viz_legacy_read.specs.declared.stop.ReadStop.TheVariants.{File, Memory};
ghost use Rattle.viz_legacy_read.specs.Stop.{IsSame};

use std::alloc::{AllocError, AllocFailed};
use thiserror::Error;
use viz_attr::AttrStop;
use viz_lex::FileFault;

/// Why a file was not read.
#[derive(Debug, Drop, Error)]
pub enum ReadStop {
    /// The first fault of the file.
    #[error("the file has a fault")]
    File(FileFault),
    /// Memory ran out.
    #[error("memory ran out")]
    Memory,
}

impl From<FileFault> for ReadStop {
    ghost from_gives = { λ fault stop. stop ≡ File fault };

    fn from(fault: FileFault) -> ReadStop {
        ReadStop::File(fault)
    }
}

impl From<AllocError> for ReadStop {
    ghost from_gives = { λ _ stop. stop ≡ Memory };

    fn from(_error: AllocError) -> ReadStop {
        ReadStop::Memory
    }
}

impl<T: Drop> From<AllocFailed<T>> for ReadStop {
    ghost from_gives = { λ _ stop. stop ≡ Memory };

    fn from(_error: AllocFailed<T>) -> ReadStop {
        ReadStop::Memory
    }
}

impl From<AttrStop> for ReadStop {
    ghost from_gives = { λ attributes stop. IsSame attributes stop };

    fn from(stop: AttrStop) -> ReadStop {
        match stop {
            AttrStop::File(fault) => ReadStop::File(fault),
            AttrStop::Memory => ReadStop::Memory,
        }
    }
}
