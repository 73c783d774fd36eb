//! What a node is sure to give.
//!
//! Contract: a law. Of datasets at its ports a node whose information is told, and whose file is
//! read if it has one, makes a dataset. Definition: `specs/Gives.antt`.
#![tactic(auto)]

mod laws;

pub use laws::nodes_make_exact;
