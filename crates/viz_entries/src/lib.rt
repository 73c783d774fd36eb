//! Entries of a history: accepted batches, each with the pass that made it and its number there.
//!
//! Contract: what a legal history is, the network that it makes, and the entries of each pass,
//! which are counted from 1. Definitions: `specs/History.antt`.
#![tactic(auto)]

mod entry;
mod laws;

pub use entry::Entry;
pub use laws::own_entries_are_counted;
