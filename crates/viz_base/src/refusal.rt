//! Why the outside refused a call.

use thiserror::Error;

/// Why a port gave no bytes.
#[derive(Debug, Drop, Error)]
pub enum ReadRefusal {
    /// The read failed, as at a missing file; only where the port's count of faults rose.
    #[error("the read failed")]
    Failed,
    /// The file has more bytes than the port's limit. So many were taken: the limit plus one.
    #[error("the file is longer than the limit")]
    TooLong(u64),
    /// Want of memory.
    #[error("out of memory")]
    Memory,
}

/// Why a port or an output didn't take all the bytes.
#[derive(Debug, Drop, Error)]
pub enum WriteRefusal {
    /// The write failed, and may have kept the first bytes; only where the count of faults rose.
    #[error("the write failed")]
    Failed,
    /// Want of memory; nothing was written.
    #[error("out of memory")]
    Memory,
}

/// A call of the outside failed; only where its count of faults rose.
#[derive(Clone, Copy, PartialEq, Eq, Debug, Error)]
#[error("the call failed")]
pub struct Failed;
