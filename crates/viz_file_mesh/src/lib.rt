//! The mesh of a grid or polydata file: one sheet of its points and pieces.
//!
//! Contract: the mesh is that of the definition. Definitions: `specs/FileMesh.antt`; the rule is
//! that of docs/FORMATS-OF-FILES.md, "Grids and polydata".
#![tactic(auto)]

mod cells;
mod grids;
mod laws;
mod meshes;
mod points;
mod polys;

pub use laws::read_pieces_are_cells;
pub use meshes::{grid_mesh, poly_mesh};
