//! Laws over writing with strips and reading: what is written with strips is read again.
//!
//! Contract: the text of a mesh with strips is read as a mesh with the written points, the same
//! vertices and lines and the same oriented triangles, each as often, and as nothing else.
//! Definitions: `specs/StripTrip.antt`, over those of `viz_strip_write`, which say what is written,
//! and of `viz_legacy_read`, which say what is read; the rule is that of docs/FORMATS-OF-OUTPUT.md,
//! "Written strips".
#![tactic(auto)]

mod laws;

pub use laws::{nothing_else_is_read_of_strips, strips_are_read_again};
