//! The commands of the program, from their words to the status.
//!
//! Contract: what a run did, put and answered is what its command says: `specs/Runs.antt`, by the
//! account of each kind of command. The rules are those of docs/FORMATS.md, "Words of a command"
//! and "Report".
#![tactic(auto)]

mod command;
mod session;
mod usage;

pub use session::run;
pub use viz_actor::{Answer, AuditAnswer, audit_node, update};
pub use viz_told::Status;
