//! Journals: the accepted edits of a history as a text, and back.
//!
//! Contract: `journal_text` writes just the text of its definition, and `read_journal` reads just
//! what its definition reads, or gives the first refusal of the first line that has one; what is
//! written is read again, and nothing else is. Definitions: `specs/Journal.antt`,
//! `specs/Reading.antt`; the rules are those of docs/FORMATS-OF-SCRIPTS.md, "Journals".
#![tactic(auto)]

mod draft;
mod edits;
mod entry;
mod laws;
mod ledger;
mod line;
mod part;
mod reading;
mod version;
mod writing;

pub use entry::JournalEntry;
pub use laws::{nothing_else_is_read, what_is_read_is_written_again, what_is_written_is_read};
pub use reading::read_journal;
pub use viz_words::{ScriptRefusal, ScriptStop};
pub use writing::journal_text;
