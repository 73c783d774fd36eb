//! The section of an image's tetrahedra by the edges between its points.
//!
//! Contract: the laws of the definitions: what these words say of a contour is what
//! `viz_meaning` says of it, and the edges of cells are their set in ascending order.
//! Definitions: `specs/Edges.antt`, `specs/EdgeLaws.antt`, `specs/GridSection.antt`,
//! `specs/ImageSection.antt`.
#![tactic(auto)]

mod laws;

pub use laws::{contours_are_sections, edges_are_a_set};
