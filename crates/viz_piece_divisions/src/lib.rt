//! How what filters make of meshes is shared out in pieces, and that pieces go to pieces.
//!
//! Contract: laws over all sheets of a mesh. What a selection, a section, a boundary or a join
//! makes of a piece is a piece of what it makes of the mesh, by the own positions that are handed
//! on; these share it out where those of the mesh do; and a section of a piece has a wide number
//! only where one of the mesh has. Definitions: `specs/Divisions.antt`, `specs/Pieces.antt`.
#![tactic(auto)]

mod laws;

pub use laws::{made_is_shared_out, pieces_go_to_pieces, sections_of_pieces_are_narrow};
