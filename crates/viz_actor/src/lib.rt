//! Actors' commands over a hub, all actors of a script at work, phase after phase, and runs of
//! scripts.
//!
//! Contract: an update and an audit speak of the network of one prefix of the history, no shorter
//! than what the pass had seen, and publish what was made for them; the lines of commands tell what
//! became of them; and the commands of a script have one account over the ports of its actors,
//! whose rows are those of its report. A run has one account of its script, and is told by it:
//! what desk and ports were asked, the journal that was written, the text put, and the status.
//! Definitions:
//! `specs/Updating.antt`, `specs/Served.antt`, `specs/Serving.antt`, `specs/Groups.antt`,
//! `specs/Deeds.antt`, and those of viz_account and viz_hub that they name; the rules are those of
//! docs/FORMATS-OF-SCRIPTS.md, "Scripts", and docs/FORMATS.md, "Report".
#![tactic(auto)]

mod copies;
mod desk;
mod joining;
mod journal;
mod phases;
mod places;
mod ran;
mod report;
mod rows;
mod run;
mod running;
mod script;
mod seating;
mod serving;
mod updating;

pub use run::run_script;
pub use script::{Served, serve_script};
pub use serving::{serve_order, serve_steps};
pub use updating::{audit_node, update};
pub use viz_account::{Answer, AuditAnswer};
