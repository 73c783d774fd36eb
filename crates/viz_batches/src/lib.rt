//! Batches: edits of a network that take effect as one, all or none.
//!
//! Contract: a batch has 1 to 64 edits; `apply_all` gives just the network of its definition, or
//! refuses at the first edit that is refused and changes nothing. Definitions: `specs/Batches.antt`;
//! the rules are those of docs/FORMATS-OF-SCRIPTS.md, "Batches".
#![tactic(auto)]

mod apply;
mod batch;
mod laws;
mod sets;
mod stop;

pub use apply::apply_all;
pub use batch::Batch;
pub use laws::{accepted_batches_are_their_edits, histories_are_sound};
pub use stop::BatchStop;
