//! The boundary of meshes: facets of cells that lie in no other cell.
//!
//! Contract: `boundary` gives just the boundary of each sheet: cell after cell the facets whose set
//! of names occurs in exactly one cell of that size, each turned as the rule says. Definitions:
//! those of `viz_mesh_meaning`; `specs/Steps/` has the words of private contracts.
#![tactic(auto)]

mod boundaries;
mod facets;
mod keys;
mod lone;
mod packing;
mod slots;

pub use boundaries::boundary;
