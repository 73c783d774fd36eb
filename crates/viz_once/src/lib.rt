//! The commands that read one file, filter it and write one: from their words to the status.
//!
//! Contract: a run has one outcome, and is accounted for by it: what was called and written, the
//! one line put, and the status. What it writes or is refused for is what its filter makes: that of
//! one fixed history, evaluated from scratch, a source with the file's bytes and a node behind it;
//! or strips or a clip of these bytes. Definitions: `specs/Files.antt`, `specs/FixedHistory.antt`,
//! `specs/Account.antt` and the files that they name; the rules are those of docs/FORMATS.md,
//! "Report".
#![tactic(auto)]

mod command;
mod evaluation;
mod laws;
mod made;
mod nodes;
mod outcome;
mod report;
mod run;
mod serving;

pub use command::{Filter, NodeFilter, Once, file_name_text, read_clip, read_once, read_strip};
pub use laws::histories_are_legal;
pub use run::run_once;
