//! The law of the clipped volumes of images: how a facet lies in their tetrahedra.
//!
//! Contract: no two tetrahedra of a grid have the same leaves, so the tetrahedra of each image are
//! a sheet of which the law of clipped volumes speaks; each facet of its clip by each linear form
//! lies in two tetrahedra or in one, and in one just where its vertices are three cuts or all their
//! leaves lie at one end of one axis. Definitions: `specs/Images.antt`.
#![tactic(auto)]

mod laws;

pub use laws::{clips_of_images_fit, images_are_simple};
