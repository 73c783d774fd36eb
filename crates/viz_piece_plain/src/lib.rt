//! Whether a part is a piece of what a filter makes, by a plain slow program: for tests.
//!
//! Contract: `is_piece` has none: it goes by the definition of a part, `IsPartOf` of viz_parts, so
//! that tests can show a mistake there. `of_mesh` and `is_fit_part` are what filters ask of a part.
#![tactic(auto)]

mod fit;
mod plain;

pub use fit::{is_fit_part, of_mesh};
pub use plain::{Piece, is_piece};
