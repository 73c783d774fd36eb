//! The status that a run ends with.

/// How a run ended. Its codes are 0 to 5, in this order.
#[derive(Clone, Copy, PartialEq, Eq, Debug)]
pub enum Status {
    /// All was done.
    Done,
    /// The words are no command.
    Usage,
    /// The script or the journal is refused, or there is no port for the command.
    Script,
    /// A line put says `refused`.
    Refused,
    /// A count of faults of a port or of the output rose.
    Fault,
    /// Want of memory.
    Memory,
}
