//! Each node of a network gives something.
//!
//! Contract: laws. A node with all upstream of it has information or a first fault, and where files
//! are of bytes it gives a dataset or a first fault; so does each node of a network, and of the
//! network of each history. Definitions: `specs/Laws.antt`, `specs/Files.antt`.
#![tactic(auto)]

mod laws;

pub use laws::{histories_load_bytes, information_is_given, scratch_is_given};
