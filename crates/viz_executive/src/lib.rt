//! What an update of a node makes by its plan: level by level, on workers, from what is kept.
//!
//! Contract: `produce` gives just the dataset, or the fault, of an evaluation from scratch, with
//! the kept keys that its plan uses, the parts that its tasks made, and the number of tasks, which
//! is that of the plan. Definitions: `specs/Produced.antt`, and what may be published of it
//! `specs/Published.antt`; `specs/Steps/` has the words of private contracts.
#![tactic(auto)]

mod carrying;
mod fetching;
mod ground;
mod level;
mod levels;
mod only;
mod places;
mod produced;
mod reads;
mod table;
mod tasks;
mod wholes;

pub use only::all_made;
pub use produced::{Produced, produce};
