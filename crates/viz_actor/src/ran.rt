//! How a run of a script ended.

use viz_base::Items;
use viz_report::Row;
use viz_words::ScriptRefusal;

/// How a run of a script ended, before its text is put.
#[derive(Debug, Drop)]
pub enum Ran {
    /// The script's read failed.
    Unread,
    /// The script is refused at a line, counted from 1; a script that is too long at line 0.
    Refused { line: u32, refusal: ScriptRefusal },
    /// All commands were served: a row for each, and whether the journal was written.
    Served { rows: Items<Row>, kept: bool },
    /// Want of memory.
    Memory,
}
