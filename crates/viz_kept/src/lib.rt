//! What it means that a kept part is true: its node gives it, in the networks of a history.
//!
//! Contract: what is made in the network of a prefix is true of the history, of every longer one,
//! and in its network, and so is any part under an overtaken key; a true part is one of every
//! dataset that its node gives. Definitions: `specs/True.antt`; how a dataset is shared out in
//! pieces is that of viz_node_division.
#![tactic(auto)]

mod laws;
mod whole;

pub use laws::{made_is_true, overtaken_is_true, true_of_longer, true_parts_answer};
pub use whole::whole_part;
