//! The law of clipped volumes: how a facet lies in their tetrahedra.
//!
//! Contract: where no two cells of a sheet have the same names and no facet of it lies in more than
//! two cells, each facet of its clip lies in two tetrahedra or in one, and in one just where its
//! vertices are three cuts or it lies in a facet of the sheet that lies in one cell alone;
//! and the form is 0 at each cut. Definitions: `specs/Facets.antt` and `specs/Zeros.antt`.
#![tactic(auto)]

mod laws;

pub use laws::{cuts_are_zeros, facets_lie_in_two};
