//! A hub: one edit history for all callers, each of whom knows a prefix of it.
//!
//! Contract: a batch stands in the history once, behind all that its pass had seen, or is refused
//! as the network of the history refuses it; what a pass has seen only grows, by entries of others
//! and its own batches; a pin has the network of one prefix, and kept parts that are true in it;
//! what an update in it uses and makes by its plan is published, and the pass tells how often and
//! what last; a pass into which all others were joined closes with the whole history. Definitions:
//! `specs/Passes.antt`, `specs/Answers.antt`, `specs/Publishing.antt`, and those of viz_turn,
//! viz_history and viz_plan that they and the calls name.
#![tactic(auto)]

mod calls;
mod hub;
mod laws;
mod place;
mod sent;
mod turns;

pub use hub::{Hub, Journal, Pass, Pin};
pub use laws::{journal_is_of_joined_passes, own_gains_this_entry};
pub use sent::Sent;
