//! Why a node gives nothing.

ghost use Rattle.std.specs.Prelude.{◌≡◌};
ghost use Rattle.viz_network.specs.declared.fault.Stop.TheVariants.{Memory};

use std::alloc::AllocError;
use thiserror::Error;
use viz_base::NodeId;
use viz_lex::FileFault;

/// Why a node gives nothing. A report gives the word of the variant.
#[derive(Clone, Copy, PartialEq, Eq, Debug)]
pub enum Cause {
    /// Nothing is connected to the port.
    Unconnected(u8),
    /// What is connected to the port gives an image in place of a mesh, or the other way round.
    WrongInput(u8),
    /// No file was loaded.
    NoFile,
    /// The file that was loaded has a fault.
    BadFile(FileFault),
    /// No point is left.
    EmptyExtent,
    /// The two images differ in extent, origin or spacing.
    GridsDiffer,
    /// A number is too great to reckon with.
    TooWide,
    /// A file would have more points, or greater sections, than it may.
    TooMany,
}

/// The first node that gives nothing, and why.
#[derive(Clone, Copy, PartialEq, Eq, Debug, Error)]
#[error("a node gives nothing")]
pub struct Fault {
    pub node: NodeId,
    pub cause: Cause,
}

/// Why an evaluation stopped.
#[derive(Clone, Copy, PartialEq, Eq, Debug, Error)]
pub enum Stop {
    /// A node gives nothing.
    #[error("a node gives nothing")]
    Fault(Fault),
    /// Memory ran out.
    #[error("out of memory")]
    Memory,
}

impl From<AllocError> for Stop {
    ghost from_gives = { λ _ stop. stop ≡ Memory };

    fn from(_error: AllocError) -> Stop {
        Stop::Memory
    }
}
