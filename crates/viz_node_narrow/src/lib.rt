//! Whether a number of a section is wide: node by node along a cone, and piece by piece.
//!
//! Contract: laws. What a node gives by the exact rule its data come to exactly where no number of
//! a section is wide at a node upstream; and no number of a section is wide where none is in any
//! piece. Definitions: `specs/Nodes.antt`, `specs/Pieces.antt`.
#![tactic(auto)]

mod laws;

pub use laws::{given_sections_are_narrow, pieces_make_narrow};
