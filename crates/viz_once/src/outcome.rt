//! What a run found.

use viz_report::Reason;
use viz_reshape::FileCounts;

/// Which call of a port failed.
#[derive(Clone, Copy, PartialEq, Eq, Debug)]
pub enum Failed {
    Read,
    Write,
}

/// What a run found, before its line is put.
#[derive(Clone, Copy, PartialEq, Eq, Debug)]
pub enum Outcome {
    /// No port is there.
    NoPort,
    /// The file was written, with these counts.
    Written(FileCounts),
    /// Nothing was written, and why: the file is too long to be loaded, or the filter makes no file
    /// of it, for a fault.
    Refused(Reason),
    /// A call of the port failed.
    Fault(Failed),
    /// Want of memory.
    Memory,
}
