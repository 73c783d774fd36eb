//! The tetrahedra of an image as a mesh of one sheet.
//!
//! Contract: `tets` gives just the sheet of the image's tetrahedra: six for each cube in the order
//! of the list of all, a leaf for each point that a cube has, with the point of the image.
//! Definitions: those of `viz_meaning` and `viz_kuhn`.
#![tactic(auto)]

mod cubes;
mod points;
mod tetrahedra;

pub use tetrahedra::tets;
