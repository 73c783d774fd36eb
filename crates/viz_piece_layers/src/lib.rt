//! Pieces of an image by layers: its tetrahedra between the planes of a piece are the piece of all.
//!
//! Contract: laws. The tetrahedra of an image go by layers of cubes, and those that meet lie in one
//! layer or in neighbours; so the planes that a piece's layers touch give its part of all
//! tetrahedra, with distances in layers as ghost levels, and the parts of all pieces are put
//! together the whole. Definitions: `specs/`, and those of viz_extent, viz_kuhn and viz_parts.
#![tactic(auto)]

mod laws;

pub use laws::{
    layers_are_part, pieces_are_parts, pieces_stitch, tetrahedra_go_by_layers,
    tetrahedra_parts_are_parts,
};
