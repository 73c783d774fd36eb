//! The tetrahedra of an image for a piece: from the planes that its layers touch, a part of all.
//!
//! Contract: from a true block of the planes that `asked` names, `tets` gives a true part of the
//! tetrahedra of the whole image for the piece: the cells of its own layers of cubes and of so many
//! more at both sides, with the leaves of the whole, and the distance in layers as ghost level.
//! `shifted` and `OwnLayers` serve the sections of pieces too. Definitions: `specs/`, and those of
//! viz_parts and viz_piece_layers.
#![tactic(auto)]

mod asking;
mod laws;
mod layers;
mod shifting;
mod tetrahedra;

pub use asking::{asked, leaf_base};
pub use laws::{layers_share_out, tets_are_parts};
pub use layers::OwnLayers;
pub use shifting::shifted;
pub use tetrahedra::{layers_between, sheet_of_tets, tets, tets_piece};
