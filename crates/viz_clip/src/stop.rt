//! Why there is no clipped volume.

use thiserror::Error;

/// Why a sheet has no clipped volume.
#[derive(Debug, Drop, Error)]
pub enum ClipStop {
    /// Exactly where some cell isn't a tetrahedron.
    #[error("a cell isn't a tetrahedron")]
    NotTetrahedra,
    /// Exactly where all cells are tetrahedra, and a number of the section in one is wide.
    #[error("a number is too wide")]
    TooWide,
    /// Want of memory.
    #[error("out of memory")]
    Memory,
}
