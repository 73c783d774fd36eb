//! The command that evaluates a prefix of a journal: from its words to the status.
//!
//! Contract: a run has one outcome, and is accounted for by it: what desk and first port were
//! asked, the line put, and the status. Definitions: `specs/Replay.antt` and the files that it
//! names; the rules are those of docs/FORMATS.md, "Report".
#![tactic(auto)]

mod came;
mod network;
mod report;
mod run;
mod serving;

pub use run::run_scratch;
pub use serving::Replay;
