//! The command that writes a journal anew in version 2: from its words to the status.
//!
//! Contract: a run has one outcome, and is accounted for by it: what desk and first port were
//! asked, the line put, and the status; what was written is read as the entries that were read.
//! Definitions: `specs/Migrate.antt` and the files that it names; the rules are those of
//! docs/FORMATS-OF-SCRIPTS.md, "Journals", and docs/FORMATS.md, "Report".
#![tactic(auto)]

mod came;
mod report;
mod run;
mod serving;

pub use run::run_migrate;
pub use serving::Migrate;
