//! How a run ended.

use crate::made::Made;

/// How a run ended, before its text is put.
#[derive(Clone, Copy, PartialEq, Eq, Debug)]
pub enum Came {
    /// There is no port.
    NoPort,
    /// The volume was written.
    Written(Made),
    /// The write failed.
    Unwritten,
    /// Want of memory.
    Memory,
}
