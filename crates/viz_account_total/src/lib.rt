//! Each node of a network has an audit.
//!
//! Contract: a law. Where files are of bytes, the audit of a node has counts, or the fault of what
//! the node gives, or that it has no surface; so for each node of the network of a history.
//! Definitions: `specs/Laws.antt`.
#![tactic(auto)]

mod laws;

pub use laws::audits_are_given;
