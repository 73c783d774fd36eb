//! The surface law: a section of a grid is closed up to the boundary, and an audit counts its
//! sides.
//!
//! Contract: a facet of a tetrahedron lies in two tetrahedra, or in one, and in one exactly where
//! it lies on the boundary; whichever points are inside, each side of a triangle of the section
//! lies in two triangles that run through it in opposite directions, or in one, and in one exactly
//! where its facet lies on the boundary; `audit` counts the sides of any sheet of triangles
//! between edges. Definitions: `specs/Facets.antt`, `specs/Sides.antt`, `specs/Closed.antt`,
//! `specs/Audit.antt`,
//! `specs/Surfaces.antt`, `specs/FormSections.antt` and `specs/Contours.antt`.
#![tactic(auto)]

mod audits;
mod boundary;
mod facets;
mod keys;
mod laws;
mod passes;
mod surfaces;

pub use audits::{Counts, audit};
pub use facets::facet_on_boundary;
pub use laws::{
    contours_are_closed, facets_are_shared, form_sections_are_closed, sections_are_closed,
};
pub use surfaces::is_surface;
