//! How a run ended.

use viz_words::ScriptRefusal;

/// How a run ended, before its line is put.
#[derive(Clone, Copy, PartialEq, Eq, Debug)]
pub enum Came {
    /// There is no port.
    NoPort,
    /// The journal's read failed.
    Unread,
    /// The journal is refused at a line, counted from 1; one that is too long at line 0.
    Refused { line: u32, refusal: ScriptRefusal },
    /// The journal was written anew, of so many entries.
    Migrated(u64),
    /// The write of the journal failed.
    Unwritten,
    /// Want of memory.
    Memory,
}
