//! Each node of a network has a file.
//!
//! Contract: a law. Where files are of bytes, there is a text of what a node gives, or the fault of
//! it or of its writing; so for each node of the network of a history. Definitions:
//! `specs/Laws.antt`.
#![tactic(auto)]

mod laws;

pub use laws::files_are_given;
