//! Strips of triangles: the triangles of a surface in rows in which each shares a side with the
//! one before it.
//!
//! Contract: `strips` gives just the strips of the definition, which begin with the first triangle
//! that is left and take, again and again, the first that continues them; so they have the oriented
//! triangles that were given, each as often. Definitions: `specs/Strips.antt`, `specs/Kept.antt`;
//! the rule is that of docs/FORMATS-OF-OUTPUT.md, "Strips".
#![tactic(auto)]

mod beginning;
mod chains;
mod choice;
mod growth;
mod laws;
mod links;
mod meeting;
mod naming;
mod rows;
mod sides;

pub use choice::ranked_strips;
pub use laws::{strips_are_one, strips_keep_triangles};
pub use naming::{Strip, strips};
pub use rows::Rows;
