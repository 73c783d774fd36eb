//! Writing legacy files: the text of a mesh.
//!
//! Contract: `write_mesh` gives the text of the definition, or the refusal that it names;
//! `write_owned_mesh` gives the same, and gives the mesh up on the way; `write_mesh_by_workers`
//! gives it in parts, whatever the number of workers. There is no other writer of
//! meshes, surfaces among them. Definitions: `specs/MeshText.antt`, `specs/Sections.antt`,
//! `specs/Cells.antt`, `specs/Fits.antt`; the rule is that of docs/FORMATS-OF-OUTPUT.md, "Written
//! meshes".
#![tactic(auto)]

mod by_workers;
mod cell_parts;
mod cell_passes;
mod cell_ranks;
mod cell_rows;
mod heads;
mod mesh;
mod numbers;
mod on_workers;
mod owned;
mod parts;
mod point_parts;
mod point_rows;
mod points;
mod sections;
mod sheet_cells;
mod starts;
mod straight;
mod tally;
mod target;

pub use by_workers::write_mesh_by_workers;
pub use mesh::write_mesh;
pub use owned::write_owned_mesh;
