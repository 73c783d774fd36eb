//! The contour of an image: triangles in all its tetrahedra, by named points.
//!
//! Contract: `contour` gives the section of the image's tetrahedra by the form of a level.
//! Definitions: `viz_meaning`'s; those of `specs/Steps/` are private.
#![tactic(auto)]

mod crossings;
mod leaves;
mod points;
mod small_ends;
mod surfaces;

pub use surfaces::contour;
