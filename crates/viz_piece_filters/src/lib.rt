//! What filters make of parts of meshes: parts of what they make of the whole.
//!
//! Contract: laws. A filter whose made names have parents, as selections and sections, takes parts
//! to parts; a boundary does with one ghost level more; fewer levels are a part; parts grow by a
//! level; and own positions of all pieces stay all positions. Definitions: `specs/`, and those of
//! viz_parts.
#![tactic(auto)]

mod laws;

pub use laws::{
    boundaries_keep_parts, filters_chain, made_keep_parts, owns_hand_on, parts_grow,
    sections_keep_parts, selections_keep_parts, trimmed_keep_parts,
};
